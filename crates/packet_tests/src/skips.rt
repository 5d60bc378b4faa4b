//! Packets from readers that are skipped: whole, cut, ended, failing, and of several chunks.

use crate::taken::{self, Row, Step, Steps, Way, plays, wrong_row};
use std::test::Fail;
use test_support::answers::Answer;
use test_support::facts::{self, no_row};

// A packet, and the end.
const ROW: Row = Row {
    parts: &[(b"\x01\0\0\0a", 0)],
    answers: &[Answer::Packet, Answer::End, Answer::End],
    reads: Some(3),
    ..taken::ROW
};

const ROWS: &[Row] = &[
    ROW,
    // Nothing.
    Row {
        parts: &[(b"", 0)],
        answers: &[Answer::End],
        reads: Some(1),
        ids_after: (0, 7),
        ..ROW
    },
    // An end inside a header.
    Row {
        parts: &[(b"\x01\0\0", 0)],
        answers: &[Answer::UnexpectedEof, Answer::UnexpectedEof],
        unread: Some(b"\x01\0\0"),
        ids_after: (0, 7),
        ..ROW
    },
    // An end after a header, which is gone.
    Row {
        parts: &[(b"\x01\0\0\0", 0)],
        answers: &[Answer::UnexpectedEof, Answer::UnexpectedEof],
        ids_after: (0, 7),
        ..ROW
    },
    // One byte a read.
    Row {
        parts: &[(b"\x03\0\0\0123", 0)],
        at_once: 1,
        answers: &[Answer::Packet],
        reads: Some(7),
        ..ROW
    },
    // The third read fails, inside the header.
    Row {
        parts: &[(b"\x03\0\0\0123", 0)],
        at_once: 1,
        until_fault: 2,
        answers: &[Answer::Io, Answer::Packet, Answer::End],
        reads: Some(9),
        ..ROW
    },
    // The sixth, among the packet's bytes.
    Row {
        parts: &[(b"\x03\0\0\0123", 0)],
        at_once: 1,
        until_fault: 5,
        answers: &[Answer::Io, Answer::Packet, Answer::End],
        reads: Some(9),
        ..ROW
    },
    // Another id, of a chunk that has come whole.
    Row {
        parts: &[(b"\x01\0\0\x05a\0", 0)],
        answers: &[Answer::OutOfSync, Answer::OutOfSync],
        unread: Some(b"\0"),
        reads: Some(1),
        ids_after: (0, 7),
        ..ROW
    },
    // Past the limit.
    Row {
        parts: &[(b"\x04\0\0\x001234", 0)],
        answers: &[Answer::TooLarge, Answer::TooLarge],
        unread: Some(b"\x04\0\0\x001234"),
        reads: Some(1),
        ids_after: (0, 7),
        ..ROW
    },
    // Two packets in one read, and the front of one more.
    Row {
        parts: &[(b"\x01\0\0\0a\x02\0\0\x01bc\x01\0", 0)],
        answers: &[Answer::Packet, Answer::Packet],
        unread: Some(b"\x01\0"),
        reads: Some(1),
        ids_after: (2, 7),
        ..ROW
    },
    // Empty packets.
    Row {
        parts: &[(b"\0\0\0\0\0\0\0\x01", 0)],
        limit: 0,
        later_limit: 0,
        answers: &[Answer::Packet, Answer::Packet, Answer::End],
        reads: Some(2),
        ids_after: (2, 7),
        ..ROW
    },
];
// ---- packets of several chunks

// One byte more than a full chunk has.
const LONG_ROW: Row = Row {
    parts: &[(b"\xff\xff\xff\0", 16777215), (b"\x01\0\0\x01", 1)],
    limit: 16777216,
    later_limit: 16777216,
    answers: &[Answer::Packet, Answer::End],
    reads: Some(2052),
    ids_after: (2, 7),
    ..taken::ROW
};

const LONG_ROWS: &[Row] = &[
    LONG_ROW,
    // Two full chunks.
    Row {
        parts: &[
            (b"\xff\xff\xff\0", 16777215),
            (b"\xff\xff\xff\x01", 16777215),
            (b"\0\0\0\x02", 0),
        ],
        limit: 33554430,
        later_limit: 33554430,
        reads: Some(4100),
        ids_after: (3, 7),
        ..LONG_ROW
    },
    // A read fails inside the first chunk, after it, and after the second header.
    Row {
        until_fault: 1024,
        answers: &[Answer::Io, Answer::Packet, Answer::End],
        reads: Some(2053),
        ..LONG_ROW
    },
    Row {
        until_fault: 2049,
        answers: &[Answer::Io, Answer::Packet, Answer::End],
        reads: Some(2053),
        ..LONG_ROW
    },
    Row {
        until_fault: 2050,
        answers: &[Answer::Io, Answer::Packet, Answer::End],
        reads: Some(2053),
        ..LONG_ROW
    },
    // The second chunk is past the limit, which is then raised.
    Row {
        limit: 16777215,
        answers: &[Answer::TooLarge, Answer::Packet, Answer::End],
        ..LONG_ROW
    },
    // The input ends after the first chunk, and inside the second.
    Row {
        parts: &[(b"\xff\xff\xff\0", 16777215)],
        answers: &[Answer::UnexpectedEof, Answer::UnexpectedEof],
        reads: Some(2051),
        ids_after: (1, 7),
        ..LONG_ROW
    },
    Row {
        parts: &[(b"\xff\xff\xff\0", 16777215), (b"\x02\0\0\x01", 1)],
        limit: 16777217,
        later_limit: 16777217,
        answers: &[Answer::UnexpectedEof],
        ids_after: (1, 7),
        ..LONG_ROW
    },
];

// No request is larger than the buffer of one read and its growth.
#[test]
fn each_packet_is_skipped(rt: HostRuntime) -> Result<(), Fail> {
    let alloc = rt.alloc();
    no_row(wrong_row(alloc, Way::Skipped, ROWS, 3, 16384))?;
    no_row(wrong_row(alloc, Way::Skipped, LONG_ROWS, 3, 16384))
}

// ---- in the midst of a packet

// A packet of which a full chunk is held, and one after it. Its read of some number fails.
const HELD: Row = Row {
    parts: &[
        (b"\xff\xff\xff\0", 16777215),
        (b"\x01\0\0\x01", 1),
        (b"\x02\0\0\x02", 2),
    ],
    limit: 16777216,
    out: b"\0\0",
    ..taken::ROW
};

// It is skipped, and the one after it handed out.
const HELD_STEPS: &[Step] = &[
    Step::Says(Way::HandedOut, Answer::Io),
    Step::Id(1),
    Step::Says(Way::Skipped, Answer::Packet),
    Step::Says(Way::HandedOut, Answer::Packet),
    Step::Id(3),
];

// A packet whose second read fails.
const SHORT: Row = Row {
    parts: &[(b"\x03\0\0\0", 3)],
    until_fault: 1,
    ..taken::ROW
};

const ON: &[Steps] = &[
    (
        Row {
            until_fault: 2049,
            ..HELD
        },
        HELD_STEPS,
        0,
    ),
    (
        Row {
            until_fault: 2050,
            ..HELD
        },
        HELD_STEPS,
        0,
    ),
    // `can_skip` is false where the limit was lowered below the chunk that is open, and no packet is
    // handed out in the midst of one that is skipped.
    (
        SHORT,
        &[
            Step::Says(Way::Skipped, Answer::Io),
            Step::Says(Way::HandedOut, Answer::OutOfSync),
            Step::Reads(2),
            Step::Limit(2),
            Step::Fits(true, false),
            Step::Limit(3),
            Step::Says(Way::Skipped, Answer::Packet),
            Step::Id(1),
        ],
        0,
    ),
    // The same of a header that is remembered, of a packet that is not skipped yet.
    (
        SHORT,
        &[
            Step::Says(Way::HandedOut, Answer::Io),
            Step::Fits(true, true),
            Step::Limit(2),
            Step::Fits(false, false),
            Step::Limit(3),
            Step::Says(Way::Skipped, Answer::Packet),
        ],
        0,
    ),
];

#[test]
fn packets_are_skipped_from_their_midst(rt: HostRuntime) -> Result<(), Fail> {
    no_row(facts::wrong_row(rt.alloc(), ON, plays))
}
