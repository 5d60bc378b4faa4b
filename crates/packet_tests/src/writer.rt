//! Packets to writers: in parts, to one that fails, to one that takes nothing; refused; and as
//! answers to what a reader hands out or lends.

use crate::taken::{self, Row, Step, Steps, Way, plays};
use std::test::Fail;
use test_support::answers::Answer;
use test_support::facts::{no_row, wrong_row};

const FRAMED: &[u8] = b"\x03\0\0\0123";

const QUEUED: Step = Step::Queues(b"123", Answer::Done);

// A writer that takes three bytes a write: the third takes the last one, and the fourth call is the
// flush.
const THREE: Row = Row {
    room: 3,
    out: FRAMED,
    ..taken::ROW
};

const NONE: Row = Row {
    room: 0,
    ..taken::ROW
};

// More than a buffer has room for that holds a few bytes.
const LONG: &[u8] = &[7; 200];

// A packet that answers a command, and two commands.
const ANSWER: Row = Row {
    parts: &[(b"\x01\0\0\x01\x02", 0)],
    out: b"\x02",
    ..taken::ROW
};

const ASKED: Row = Row {
    parts: &[(b"\x01\0\0\0a\x01\0\0\x02b", 0)],
    out: b"ab",
    ..taken::ROW
};

const FAILING: &[Steps] = &[
    (
        Row {
            until_refusal: 0,
            ..THREE
        },
        &[
            QUEUED,
            Step::Pending(FRAMED),
            Step::Writes(Answer::Io),
            Step::Pending(FRAMED),
            Step::Writes(Answer::Done),
        ],
        1,
    ),
    (
        Row {
            until_refusal: 1,
            ..THREE
        },
        &[
            QUEUED,
            Step::Writes(Answer::Io),
            Step::Pending(b"\x00123"),
            Step::Writes(Answer::Done),
        ],
        1,
    ),
    (
        Row {
            until_refusal: 2,
            ..THREE
        },
        &[
            QUEUED,
            Step::Writes(Answer::Io),
            Step::Pending(b"3"),
            Step::Writes(Answer::Done),
        ],
        1,
    ),
    (
        Row {
            until_refusal: 3,
            ..THREE
        },
        &[
            QUEUED,
            Step::Writes(Answer::Io),
            Step::Pending(b""),
            Step::Writes(Answer::Done),
        ],
        1,
    ),
    (
        THREE,
        &[
            QUEUED,
            Step::Writes(Answer::Done),
            Step::Pending(b""),
            Step::Writes(Answer::Done),
        ],
        2,
    ),
    (
        NONE,
        &[
            QUEUED,
            Step::Writes(Answer::WriteZero),
            Step::Writes(Answer::WriteZero),
            Step::Pending(FRAMED),
        ],
        0,
    ),
];

// What a table's texts cost the proof grows by the square of their number in a function.
fn failing() -> &'static [Steps] {
    FAILING
}

const ROWS: &[Steps] = &[
    // What is refused changes nothing.
    (
        NONE,
        &[
            QUEUED,
            Step::Limit(2),
            Step::Queues(LONG, Answer::TooLarge),
            Step::Pending(FRAMED),
            Step::Limit(200),
            Step::Refuse(0),
            Step::Queues(LONG, Answer::OutOfMemory),
            Step::Pending(FRAMED),
            Step::Id(1),
        ],
        0,
    ),
    // A writer and then a reader go by one id.
    (
        ANSWER,
        &[
            Step::Queues(b"\x01", Answer::Done),
            Step::Says(Way::HandedOut, Answer::Packet),
            Step::Has(b"\x02"),
        ],
        0,
    ),
    // An answer that is queued while its command is lent is numbered on from it, and the command is
    // the same until it is taken. One that is looked at twice is read once.
    (
        ASKED,
        &[
            Step::Says(Way::Filled, Answer::Packet),
            Step::Queues(b"ok", Answer::Done),
            Step::Pending(b"\x02\0\0\x01ok"),
            Step::Lends(b"a"),
            Step::Says(Way::Filled, Answer::Packet),
            Step::Reads(1),
            Step::Says(Way::Lent, Answer::Packet),
            Step::Says(Way::Filled, Answer::Packet),
            Step::Lends(b"b"),
            Step::Says(Way::HandedOut, Answer::Packet),
        ],
        0,
    ),
];

#[test]
fn what_is_pending_is_written_or_stays(rt: HostRuntime) -> Result<(), Fail> {
    let failing = wrong_row(rt.alloc(), failing(), plays);
    no_row(failing.or(wrong_row(rt.alloc(), ROWS, plays)))
}
