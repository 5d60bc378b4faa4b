//! One chunk at a time, in each state of a decoder.

use std::alloc::Global;
use std::test::Fail;
use test_support::answers::Answer;
use test_support::facts::{no_row, wrong_row};
use test_support::fixture::Remembered;
use test_support::script::{Step, first_fault};
use wire_buf::lengths::MAX_PAYLOAD_LEN;

// A state, what is to be read, what is held and a limit; and the same after the call, with its
// answer.
#[derive(Clone, Copy)]
struct Row {
    state: Remembered,
    src: &'static [u8],
    held: &'static [u8],
    limit: usize,
    answer: Answer,
    new_state: Remembered,
    left: &'static [u8],
    new_held: &'static [u8],
}

// A row that changes nothing.
macro_rules! unchanged {
    ($state:expr, $src:literal, $held:literal, $limit:expr, $answer:expr $(,)?) => {
        Row {
            state: $state,
            src: $src,
            held: $held,
            limit: $limit,
            answer: $answer,
            new_state: $state,
            left: $src,
            new_held: $held,
        }
    };
}

// From `Idle`, with everything taken.
macro_rules! taken {
    (
        $src:literal, $held:literal, $limit:expr, $answer:expr, $left:literal, $new_held:literal $(,)?
    ) => {
        Row {
            state: None,
            src: $src,
            held: $held,
            limit: $limit,
            answer: $answer,
            new_state: None,
            left: $left,
            new_held: $new_held,
        }
    };
}

// From `Idle`, with the header alone taken, into the decoder.
macro_rules! begun {
    ($src:literal, $held:literal, $limit:expr, $id:literal, $needed:literal $(,)?) => {
        Row {
            state: None,
            src: $src,
            held: $held,
            limit: $limit,
            answer: Answer::Waits,
            new_state: Some(($id, $needed)),
            left: $src,
            new_held: $held,
        }
    };
}

// Whose header is remembered, with everything taken.
macro_rules! finished {
    (
        $id:literal, $needed:literal, $src:literal, $limit:expr, $answer:expr, $left:literal,
        $held:literal $(,)?
    ) => {
        Row {
            state: Some(($id, $needed)),
            src: $src,
            held: b"",
            limit: $limit,
            answer: $answer,
            new_state: None,
            left: $left,
            new_held: $held,
        }
    };
}

// Without a whole header nothing happens.
const WITHOUT_A_HEADER: &[Row] = &[
    unchanged!(None, b"", b"", 9, Answer::Waits),
    unchanged!(None, b"\x01", b"", 9, Answer::Waits),
    unchanged!(None, b"\0\0", b"x", 0, Answer::Waits),
    unchanged!(None, b"\xff\xff\xff", b"", 0, Answer::Waits),
    // Also where a header is remembered, and where fewer bytes than it has stand in front.
    unchanged!(Some((9, 1)), b"", b"", 9, Answer::Waits),
    unchanged!(Some((9, 1)), b"\x01\0\0", b"xy", 0, Answer::Waits),
];

// An empty chunk is a packet's last at any limit.
const EMPTY: &[Row] = &[
    taken!(b"\0\0\0\0", b"", 0, Answer::Last(0), b"", b""),
    taken!(b"\0\0\0\xff", b"", 0, Answer::Last(255), b"", b""),
    taken!(
        b"\0\0\0\x05\x01\0",
        b"xyz",
        0,
        Answer::Last(5),
        b"\x01\0",
        b"xyz",
    ),
    taken!(
        b"\0\0\0\x01\0\0\0\x02",
        b"xyz",
        2,
        Answer::Last(1),
        b"\0\0\0\x02",
        b"xyz",
    ),
];

// A chunk past the limit is refused by its header.
const TOO_LARGE: &[Row] = &[
    unchanged!(None, b"\x01\0\0\0", b"", 0, Answer::TooLarge),
    unchanged!(None, b"\x01\0\0\0\x61", b"", 0, Answer::TooLarge),
    unchanged!(None, b"\x05\0\0\x07\x61", b"", 4, Answer::TooLarge),
    unchanged!(None, b"\x02\0\0\x07\xaa\xbb", b"xyz", 4, Answer::TooLarge),
    unchanged!(None, b"\xff\xff\xff\xff", b"", 16777214, Answer::TooLarge),
    unchanged!(None, b"\0\0\x01\0", b"", 65535, Answer::TooLarge),
    unchanged!(None, b"\0\x01\0\0", b"", 255, Answer::TooLarge),
    // More is held than the limit allows.
    unchanged!(None, b"\x01\0\0\0\x61", b"xyz", 2, Answer::TooLarge),
];

// A chunk within the limit is remembered.
const REMEMBERED: &[Row] = &[
    begun!(b"\x01\0\0\0", b"", 1, 0, 1),
    begun!(b"\x05\0\0\x07\x61", b"", 5, 7, 5),
    begun!(b"\x02\0\0\xff\xaa", b"xyz", 5, 255, 2),
    begun!(b"\x01\x02\x03\x04\x61", b"", usize::MAX, 4, 197121),
    begun!(b"\xff\xff\xff\0", b"", 16777215, 0, 16777215),
];

// A whole chunk is moved.
const WHOLE: &[Row] = &[
    taken!(b"\x01\0\0\0\x61", b"", 1, Answer::Last(0), b"", b"a"),
    taken!(
        b"\x02\0\0\x07ab\x03",
        b"",
        2,
        Answer::Last(7),
        b"\x03",
        b"ab"
    ),
    taken!(
        b"\x02\0\0\x07\xaa\xbb",
        b"xyz",
        5,
        Answer::Last(7),
        b"",
        b"xyz\xaa\xbb",
    ),
    taken!(
        b"\x01\0\0\xff\0\0",
        b"",
        usize::MAX,
        Answer::Last(255),
        b"\0",
        b"\0",
    ),
];

// A remembered header is what counts.
const COUNTS: &[Row] = &[
    // Its four bytes are skipped unread, and the limit is not looked at.
    finished!(9, 1, b"\xff\xff\xff\xff\x61", 0, Answer::Last(9), b"", b"a"),
    finished!(0, 2, b"\0\0\0\0abc", 0, Answer::Last(0), b"c", b"ab"),
    finished!(
        255,
        4,
        b"\x01\0\0\0abcde",
        1,
        Answer::Last(255),
        b"e",
        b"abcd",
    ),
    // Bytes are missing, up to all that a machine can count.
    unchanged!(Some((9, 2)), b"\x01\0\0\0\x61", b"", 0, Answer::Waits),
    unchanged!(
        Some((9, usize::MAX)),
        b"\0\0\0\0\x61",
        b"",
        9,
        Answer::Waits
    ),
    unchanged!(
        Some((9, usize::MAX - 3)),
        b"\0\0\0\0\x61",
        b"x",
        0,
        Answer::Waits,
    ),
    unchanged!(
        Some((9, usize::MAX - 4)),
        b"\0\0\0\0",
        b"",
        0,
        Answer::Waits
    ),
];

fn goes(alloc: Global, row: Row) -> bool {
    let steps = [
        Step::Remember(row.state),
        Step::Src(row.src),
        Step::Dst(row.held),
        Step::Chunk(row.limit, row.answer),
        Step::Remembers(row.new_state),
        Step::Left(row.left),
        Step::Held(row.new_held),
    ];
    first_fault(alloc, &steps).is_none()
}

// One table of all costs its proof more than several.
fn wrong_header(alloc: Global) -> Option<usize> {
    wrong_row(alloc, WITHOUT_A_HEADER, goes)
        .or(wrong_row(alloc, EMPTY, goes))
        .or(wrong_row(alloc, TOO_LARGE, goes))
}

fn wrong_chunk(alloc: Global) -> Option<usize> {
    wrong_row(alloc, REMEMBERED, goes)
        .or(wrong_row(alloc, WHOLE, goes))
        .or(wrong_row(alloc, COUNTS, goes))
}

#[test]
fn a_chunk_goes_by_the_state_of_its_decoder(rt: HostRuntime) -> Result<(), Fail> {
    no_row(wrong_header(rt.alloc()).or(wrong_chunk(rt.alloc())))
}

// A decoder that needs this many bytes, where this many are there and this many held; its answer, and how
// many bytes are left and held then.
type Long = (usize, usize, usize, Answer, usize, usize);

fn goes_on(alloc: Global, row: Long) -> bool {
    let (needed, there, held, answer, left, new_held) = row;
    let needs = Some((9, needed));
    let remembers = if answer == Answer::Waits { needs } else { None };
    let steps = [
        Step::Remember(needs),
        Step::Src(b"\x01\x02\x03\x04"),
        Step::ComesMany(there),
        Step::DstMany(held),
        Step::Chunk(0, answer),
        Step::Remembers(remembers),
        Step::LeftMany(left),
        Step::HeldMany(new_held),
    ];
    first_fault(alloc, &steps).is_none()
}

const MAX: usize = MAX_PAYLOAD_LEN;

const MIDDLE: Answer = Answer::Middle(9);

const LAST: Answer = Answer::Last(9);

const LONG: &[Long] = &[
    (MAX, MAX, 0, MIDDLE, 0, MAX),
    (MAX, MAX + 1, 0, MIDDLE, 1, MAX),
    (MAX - 1, MAX - 1, 0, LAST, 0, MAX - 1),
    // More than a header can state.
    (MAX + 1, MAX + 1, 0, LAST, 0, MAX + 1),
    (2 * MAX, 2 * MAX, 0, MIDDLE, 0, 2 * MAX),
    // What was held counts.
    (MAX + 1, MAX + 1, MAX - 1, MIDDLE, 0, 2 * MAX),
    (MAX, MAX, 1, LAST, 0, MAX + 1),
    (MAX, MAX, MAX, MIDDLE, 0, 2 * MAX),
    (1, 1, MAX, LAST, 0, MAX + 1),
    (1, 1, MAX - 1, MIDDLE, 0, MAX),
    // One byte is missing.
    (MAX, MAX - 1, 0, Answer::Waits, MAX + 3, 0),
    (MAX + 1, MAX, MAX - 1, Answer::Waits, MAX + 4, MAX - 1),
];

#[test]
fn a_packet_goes_on_where_whole_chunks_are_held(rt: HostRuntime) -> Result<(), Fail> {
    no_row(wrong_row(rt.alloc(), LONG, goes_on))
}
