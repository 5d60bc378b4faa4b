//! Packets from readers that are copied to a writer: whole, cut, ended, failing, refused. And long
//! ones that are copied or passed on.

use crate::taken::{self, Row, Way, goes, wrong_row};
use std::alloc::Global;
use std::test::Fail;
use test_support::answers::Answer;
use test_support::facts::no_row;

// A packet, and the end.
const ROW: Row = Row {
    parts: &[(b"\x03\0\0\0abc", 0)],
    answers: &[Answer::Packet, Answer::End],
    out: b"abc",
    ..taken::ROW
};

const ROWS: &[Row] = &[
    ROW,
    // One byte a read, and one a write.
    Row {
        at_once: 1,
        room: 1,
        ..ROW
    },
    // Nothing.
    Row {
        parts: &[(b"", 0)],
        answers: &[Answer::End],
        out: b"",
        ids_after: (0, 7),
        ..ROW
    },
    // Empty packets, and the id after 255.
    Row {
        parts: &[(b"\0\0\0\xff\0\0\0\0", 0)],
        limit: 0,
        later_limit: 0,
        ids: (255, 7),
        answers: &[Answer::Packet, Answer::Packet, Answer::End],
        out: b"",
        ..ROW
    },
    // Two packets in one read, and the front of one more.
    Row {
        parts: &[(b"\x01\0\0\0a\x02\0\0\x01bc\x01\0", 0)],
        answers: &[Answer::Packet, Answer::Packet, Answer::UnexpectedEof],
        unread: Some(b"\x01\0"),
        ids_after: (2, 7),
        ..ROW
    },
    // The end inside a packet.
    Row {
        parts: &[(b"\x03\0\0\0ab", 0)],
        answers: &[Answer::UnexpectedEof, Answer::UnexpectedEof],
        out: b"ab",
        ids_after: (0, 7),
        ..ROW
    },
    // A read fails inside the packet, and the copy goes on.
    Row {
        at_once: 1,
        until_fault: 5,
        answers: &[Answer::Io, Answer::Packet, Answer::End],
        ..ROW
    },
    // The second write fails, and the copy goes on at the byte that was not taken.
    Row {
        room: 1,
        until_refusal: 1,
        answers: &[Answer::Io, Answer::Packet, Answer::End],
        ..ROW
    },
    // A writer that takes nothing.
    Row {
        room: 0,
        answers: &[Answer::WriteZero, Answer::WriteZero],
        out: b"",
        unread: Some(b"abc"),
        ids_after: (0, 7),
        ..ROW
    },
    // Another id, and past the limit: nothing of the chunk is written, and its header stays.
    Row {
        parts: &[(b"\x01\0\0\x05a", 0)],
        answers: &[Answer::OutOfSync, Answer::OutOfSync],
        out: b"",
        unread: Some(b"\x01\0\0\x05a"),
        ids_after: (0, 7),
        ..ROW
    },
    Row {
        parts: &[(b"\x04\0\0\0abcd", 0)],
        answers: &[Answer::TooLarge, Answer::TooLarge],
        out: b"",
        unread: Some(b"\x04\0\0\0abcd"),
        ids_after: (0, 7),
        ..ROW
    },
];

#[test]
fn each_packet_is_copied(rt: HostRuntime) -> Result<(), Fail> {
    no_row(wrong_row(rt.alloc(), Way::Copied, ROWS, 3, 16384))
}

// ---- packets of any size

// A packet's parts, as they are read, how many bytes it has, and the id after it.
const LONG_ROWS: &[(&[(&[u8], usize)], usize, u8)] = &[
    (&[(b"\x00\x20\0\0", 8192)], 8192, 1),
    (&[(b"\xff\x3f\0\0", 16383)], 16383, 1),
    (&[(b"\x00\x40\0\0", 16384)], 16384, 1),
    (&[(b"\x01\x40\0\0", 16385)], 16385, 1),
    (&[(b"\x00\x00\x10\0", 1048576)], 1048576, 1),
    // A full chunk, and an empty one or one of a byte after it.
    (
        &[(b"\xff\xff\xff\0", 16777215), (b"\0\0\0\x01", 0)],
        16777215,
        2,
    ),
    (
        &[(b"\xff\xff\xff\0", 16777215), (b"\x01\0\0\x01", 1)],
        16777216,
        2,
    ),
];

// Whether such a packet is copied whole, also where no write of more than 8192 bytes is taken, and passed
// on in chunks of the same lengths.
fn goes_long(alloc: Global, (parts, zeros, id): (&[(&[u8], usize)], usize, u8)) -> bool {
    let copied = Row {
        parts,
        limit: 16777216,
        later_limit: 16777216,
        ids_after: (id, 7),
        answers: &[Answer::Packet, Answer::End],
        zeros,
        ..taken::ROW
    };
    let passed_on = Row {
        ids_after: (id, id.wrapping_add(7)),
        zeros: zeros.wrapping_add(4 * usize::from(id)),
        ..copied
    };
    let in_messages = Row {
        longest: 8192,
        ..copied
    };
    goes(alloc, Way::Copied, &copied, 3, 131072)
        & goes(alloc, Way::Copied, &in_messages, 3, 131072)
        & goes(alloc, Way::PassedOn, &passed_on, 6, 16384)
}

// No request is larger than the buffer of one read and its growth, or what is pending of it.
#[test]
fn long_packets_go_with_little_memory(rt: HostRuntime) -> Result<(), Fail> {
    let alloc = rt.alloc();
    let mut wrong = None;
    for i in 0..LONG_ROWS.len() {
        if !goes_long(alloc, LONG_ROWS[i]) {
            wrong = Some(i);
        }
    }
    no_row(wrong)
}
