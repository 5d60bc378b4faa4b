//! Packets that are passed on from a reader to a writer: whole, cut, ended, failing, refused.

use crate::taken::{self, Row, Way, wrong_row};
use std::test::Fail;
use test_support::answers::Answer;
use test_support::facts::no_row;

// A packet, and the end.
const ROW: Row = Row {
    parts: &[(b"\x03\0\0\0abc", 0)],
    ids_after: (1, 8),
    answers: &[Answer::Packet, Answer::End],
    out: b"\x03\0\0\x07abc",
    ..taken::ROW
};

const ROWS: &[Row] = &[
    ROW,
    // The end of a packet is pending till the next read.
    Row {
        answers: &[Answer::Packet],
        out: b"",
        pending: b"\x03\0\0\x07abc",
        ..ROW
    },
    // One byte a read, and one a write.
    Row {
        at_once: 1,
        room: 1,
        ..ROW
    },
    // Nothing.
    Row {
        parts: &[(b"", 0)],
        answers: &[Answer::End],
        out: b"",
        ids_after: (0, 7),
        ..ROW
    },
    // Empty packets, and the id after 255.
    Row {
        parts: &[(b"\0\0\0\xff\0\0\0\0", 0)],
        limit: 0,
        later_limit: 0,
        ids: (255, 255),
        ids_after: (1, 1),
        answers: &[Answer::Packet, Answer::Packet, Answer::End],
        out: b"\0\0\0\xff\0\0\0\0",
        ..ROW
    },
    // Two packets in one read, and the front of one more.
    Row {
        parts: &[(b"\x01\0\0\0a\x02\0\0\x01bc\x01\0", 0)],
        answers: &[Answer::Packet, Answer::Packet, Answer::UnexpectedEof],
        out: b"\x01\0\0\x07a\x02\0\0\x08bc",
        unread: Some(b"\x01\0"),
        ids_after: (2, 9),
        ..ROW
    },
    // The end inside a packet: what came of it went.
    Row {
        parts: &[(b"\x03\0\0\0ab", 0)],
        answers: &[Answer::UnexpectedEof, Answer::UnexpectedEof],
        out: b"\x03\0\0\x07ab",
        ids_after: (0, 8),
        ..ROW
    },
    // A read fails inside the packet, and the call goes on.
    Row {
        at_once: 1,
        until_fault: 5,
        answers: &[Answer::Io, Answer::Packet, Answer::End],
        ..ROW
    },
    // A writer that takes nothing.
    Row {
        at_once: 5,
        room: 0,
        answers: &[Answer::WriteZero, Answer::WriteZero],
        out: b"",
        pending: b"\x03\0\0\x07a",
        ids_after: (0, 8),
        ..ROW
    },
    // Another id, and past the limit: nothing of the chunk goes, and its header stays.
    Row {
        parts: &[(b"\x01\0\0\x05a", 0)],
        answers: &[Answer::OutOfSync, Answer::OutOfSync],
        out: b"",
        unread: Some(b"\x01\0\0\x05a"),
        ids_after: (0, 7),
        ..ROW
    },
    Row {
        parts: &[(b"\x04\0\0\0abcd", 0)],
        answers: &[Answer::TooLarge, Answer::TooLarge],
        out: b"",
        unread: Some(b"\x04\0\0\0abcd"),
        ids_after: (0, 7),
        ..ROW
    },
];
// A write fails inside the packet, and after it; what didn't go is pending, and goes first.
const FAILING: &[Row] = &[
    Row {
        at_once: 5,
        until_refusal: 1,
        answers: &[Answer::Io, Answer::Packet, Answer::End],
        ..ROW
    },
    Row {
        until_refusal: 1,
        answers: &[Answer::Packet, Answer::Io, Answer::End],
        ..ROW
    },
];

// Whichever request for memory is refused: there are the buffer of a read, its growth, and what is
// pending. Where a write or flush fails, none is: a call that is made again counts for those.
#[test]
fn each_packet_is_passed_on(rt: HostRuntime) -> Result<(), Fail> {
    let alloc = rt.alloc();
    no_row(wrong_row(alloc, Way::PassedOn, ROWS, 9, 16384))?;
    no_row(wrong_row(alloc, Way::PassedOn, FAILING, 0, 16384))
}
