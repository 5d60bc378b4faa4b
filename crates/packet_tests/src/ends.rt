//! Readers whose input ends, and then brings more: a call that is made again reads again.

use crate::taken::{self, Row, Way, goes};
use std::alloc::Global;
use std::test::Fail;
use test_support::answers::Answer;
use test_support::facts::no_row;

// What comes in reads of their own, of which one without a byte is an end of the input, and what calls
// say, whichever takes the packets.
#[derive(Clone, Copy)]
struct Stream<'a> {
    parts: &'a [(&'a [u8], usize)],
    answers: &'a [Answer],
    // The packets' bytes, with no headers and as they are passed on with ids from 7 on.
    out: &'a [u8],
    passed_on: &'a [u8],
    // How many packets there are, and how many reads, the last of which is an end.
    packets: u8,
    reads: u64,
}

const STREAMS: &[Stream] = &[
    // An end before the first packet.
    Stream {
        parts: &[(b"", 0), (b"\x01\0\0\0a", 0)],
        answers: &[Answer::End, Answer::Packet, Answer::End],
        out: b"a",
        passed_on: b"\x01\0\0\x07a",
        packets: 1,
        reads: 3,
    },
    // Two between two packets.
    Stream {
        parts: &[
            (b"\x01\0\0\0a", 0),
            (b"", 0),
            (b"", 0),
            (b"\x01\0\0\x01b", 0),
        ],
        answers: &[
            Answer::Packet,
            Answer::End,
            Answer::End,
            Answer::Packet,
            Answer::End,
        ],
        out: b"ab",
        passed_on: b"\x01\0\0\x07a\x01\0\0\x08b",
        packets: 2,
        reads: 5,
    },
    // One inside a header.
    Stream {
        parts: &[(b"\x02\0", 0), (b"", 0), (b"\0\0ab", 0)],
        answers: &[Answer::UnexpectedEof, Answer::Packet, Answer::End],
        out: b"ab",
        passed_on: b"\x02\0\0\x07ab",
        packets: 1,
        reads: 4,
    },
    // Two after a header.
    Stream {
        parts: &[(b"\x02\0\0\0", 0), (b"", 0), (b"", 0), (b"ab", 0)],
        answers: &[
            Answer::UnexpectedEof,
            Answer::UnexpectedEof,
            Answer::Packet,
            Answer::End,
        ],
        out: b"ab",
        passed_on: b"\x02\0\0\x07ab",
        packets: 1,
        reads: 5,
    },
    // One among a packet's bytes, and one after the packet.
    Stream {
        parts: &[
            (b"\x02\0\0\0a", 0),
            (b"", 0),
            (b"b", 0),
            (b"", 0),
            (b"\0\0\0\x01", 0),
        ],
        answers: &[
            Answer::UnexpectedEof,
            Answer::Packet,
            Answer::End,
            Answer::Packet,
            Answer::End,
        ],
        out: b"ab",
        passed_on: b"\x02\0\0\x07ab\0\0\0\x08",
        packets: 2,
        reads: 6,
    },
];

// What it leaves where packets are taken in this way.
fn row_of<'a>(stream: &Stream<'a>, way: Way) -> Row<'a> {
    let row = Row {
        parts: stream.parts,
        answers: stream.answers,
        out: stream.out,
        ids_after: (stream.packets, 7),
        reads: Some(stream.reads),
        ..taken::ROW
    };
    match way {
        Way::Skipped => Row { out: b"", ..row },
        Way::PassedOn => Row {
            out: stream.passed_on,
            ids_after: (stream.packets, stream.packets.wrapping_add(7)),
            ..row
        },
        _ => row,
    }
}

// The number of the stream after whose end no packet comes, counted from 0, if there is one.
fn wrong_stream(alloc: Global, way: Way) -> Option<usize> {
    let mut wrong = None;
    for i in 0..STREAMS.len() {
        if !goes(alloc, way, &row_of(&STREAMS[i], way), 9, usize::MAX) {
            wrong = Some(i);
        }
    }
    wrong
}

#[test]
fn a_call_after_an_end_reads_again(rt: HostRuntime) -> Result<(), Fail> {
    for way in [
        Way::HandedOut,
        Way::Lent,
        Way::Skipped,
        Way::Copied,
        Way::PassedOn,
    ] {
        no_row(wrong_stream(rt.alloc(), way))?;
    }
    Ok(())
}
