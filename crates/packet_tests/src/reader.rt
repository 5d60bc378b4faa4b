//! Packets from readers: whole, cut, ended, failing.

use crate::taken::{self, Row, Way, goes, wrong_row};
use std::alloc::Global;
use std::test::Fail;
use test_support::answers::Answer;
use test_support::facts::no_row;

// A packet, and the end.
const ROW: Row = Row {
    parts: &[(b"\x01\0\0\0a", 0)],
    answers: &[Answer::Packet, Answer::End, Answer::End],
    out: b"a",
    reads: Some(3),
    ..taken::ROW
};

// Two packets in six reads, of which one fails, or the one after them.
const TWO: Row = Row {
    parts: &[(b"\x01\0\0\0a\x02\0\0\x01bc", 0)],
    at_once: 2,
    ids_after: (2, 7),
    out: b"abc",
    reads: Some(8),
    ..ROW
};

// Where one of the three reads of the first packet fails.
const FIRST: Row = Row {
    answers: &[Answer::Io, Answer::Packet, Answer::Packet, Answer::End],
    ..TWO
};

// Of the second.
const SECOND: Row = Row {
    answers: &[Answer::Packet, Answer::Io, Answer::Packet, Answer::End],
    ..TWO
};

// The read after them.
const BEHIND: Row = Row {
    until_fault: 6,
    answers: &[Answer::Packet, Answer::Packet, Answer::Io, Answer::End],
    ..TWO
};

const FAILING: &[Row] = &[
    Row {
        until_fault: 0,
        ..FIRST
    },
    Row {
        until_fault: 1,
        ..FIRST
    },
    Row {
        until_fault: 2,
        ..FIRST
    },
    Row {
        until_fault: 3,
        ..SECOND
    },
    Row {
        until_fault: 4,
        ..SECOND
    },
    Row {
        until_fault: 5,
        ..SECOND
    },
    BEHIND,
];

const ROWS: &[Row] = &[
    ROW,
    // Nothing.
    Row {
        parts: &[(b"", 0)],
        answers: &[Answer::End],
        out: b"",
        reads: Some(1),
        ids_after: (0, 7),
        ..ROW
    },
    // An end inside a packet.
    Row {
        parts: &[(b"\x01\0\0\0", 0)],
        answers: &[Answer::UnexpectedEof, Answer::UnexpectedEof],
        out: b"",
        unread: Some(b"\x01\0\0\0"),
        reads: Some(3),
        ids_after: (0, 7),
        ..ROW
    },
    // One byte a read.
    Row {
        parts: &[(b"\x03\0\0\0123", 0)],
        at_once: 1,
        answers: &[Answer::Packet],
        out: b"123",
        reads: Some(7),
        ..ROW
    },
    // The third read fails.
    Row {
        parts: &[(b"\x03\0\0\0123", 0)],
        at_once: 1,
        until_fault: 2,
        answers: &[Answer::Io, Answer::Packet],
        out: b"123",
        reads: Some(8),
        ..ROW
    },
    // Another id.
    Row {
        parts: &[(b"\0\0\0\x05\0", 0)],
        answers: &[Answer::OutOfSync, Answer::OutOfSync],
        out: b"",
        unread: Some(b"\0"),
        reads: Some(1),
        ids_after: (0, 7),
        ..ROW
    },
    // Past the limit.
    Row {
        parts: &[(b"\x04\0\0\x001234", 0)],
        answers: &[Answer::TooLarge, Answer::TooLarge],
        out: b"",
        unread: Some(b"\x04\0\0\x001234"),
        reads: Some(1),
        ids_after: (0, 7),
        ..ROW
    },
    // Two packets in one read.
    Row {
        parts: &[(b"\x01\0\0\0a\x02\0\0\x01bc", 0)],
        answers: &[Answer::Packet, Answer::Packet],
        out: b"abc",
        reads: Some(1),
        ids_after: (2, 7),
        ..ROW
    },
    // The part of a packet after another.
    Row {
        parts: &[(b"\x01\0\0\0a\x02\0\0\x01b", 0)],
        answers: &[Answer::Packet, Answer::UnexpectedEof],
        out: b"a",
        unread: Some(b"\x02\0\0\x01b"),
        reads: Some(2),
        ..ROW
    },
    // An empty packet.
    Row {
        parts: &[(b"\0\0\0\0", 0)],
        limit: 0,
        later_limit: 0,
        answers: &[Answer::Packet, Answer::End],
        out: b"",
        reads: Some(2),
        ..ROW
    },
];

// Whether a row goes as it says by each way; and whatever a read gives, where none fails.
fn goes_by_all(alloc: Global, row: &Row) -> bool {
    let mut all = true;
    for way in [Way::HandedOut, Way::Lent] {
        all &= goes(alloc, way, row, 9, usize::MAX);
        for at_once in 1..12 {
            let cut = Row {
                at_once,
                unread: None,
                reads: None,
                ..*row
            };
            all &= (row.until_fault < usize::MAX) | goes(alloc, way, &cut, 0, usize::MAX);
        }
    }
    all
}

// The number of a row that goes otherwise by one of them.
fn wrong_by_all(alloc: Global, rows: &[Row]) -> Option<usize> {
    let mut wrong = None;
    for i in 0..rows.len() {
        if !goes_by_all(alloc, &rows[i]) {
            wrong = Some(i);
        }
    }
    wrong
}

#[test]
fn each_reader_goes_as_it_says(rt: HostRuntime) -> Result<(), Fail> {
    no_row(wrong_by_all(rt.alloc(), ROWS))?;
    no_row(wrong_by_all(rt.alloc(), FAILING))
}

// A packet of two chunks, which are collected.
const LONG_ROW: Row = Row {
    parts: &[(b"\xff\xff\xff\0", 16777215), (b"\0\0\0\x01", 0)],
    limit: 16777220,
    later_limit: 16777220,
    answers: &[Answer::Packet, Answer::End],
    zeros: 16777215,
    ids_after: (2, 7),
    ..taken::ROW
};

const LONG: &[Row] = &[
    LONG_ROW,
    Row {
        parts: &[(b"\xff\xff\xff\0", 16777215), (b"\x05\0\0\x01", 5)],
        zeros: 16777220,
        ..LONG_ROW
    },
];

#[test]
fn long_packets_are_read(rt: HostRuntime) -> Result<(), Fail> {
    let alloc = rt.alloc();
    no_row(wrong_row(alloc, Way::HandedOut, LONG, 0, usize::MAX))?;
    no_row(wrong_row(alloc, Way::Lent, LONG, 0, usize::MAX))
}
