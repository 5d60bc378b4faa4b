//! Packets from a stream that comes in pieces, row by row: delivered, visited, and taken one by one,
//! lent where they lie.

use std::alloc::Global;
use std::test::Fail;
use test_support::answers::Answer;
use test_support::facts::{no_row, same, wrong_row};
use test_support::receiver::Receiver;
use wire_codec::codec::Visit;

// Pieces, the first of them in a run of their own, and what came of them. A row begins with these
// bytes in `src`, nothing held, and id 0.
#[derive(Clone, Copy)]
struct Row<'a> {
    limit: usize,
    src: &'a [u8],
    pieces: &'a [&'a [u8]],
    first: usize,
    count: usize,
    answer: Answer,
    packets: &'a [&'a [u8]],
    left: &'a [u8],
    held: &'a [u8],
}

/// Compares the packets that it sees with these.
#[derive(Drop)]
pub struct Compared<'a> {
    left: &'a [&'a [u8]],
    all: bool,
}

impl<'a> Compared<'a> {
    pub fn new(packets: &'a [&'a [u8]]) -> Self {
        Compared {
            left: packets,
            all: true,
        }
    }

    /// Whether it saw just these packets.
    pub fn is_done(&self) -> bool {
        self.all & self.left.is_empty()
    }
}

impl Visit for Compared<'_> {
    ghost sees = { λ _ _ _. Unit {0} };

    fn visit(&mut self, packet: &[u8]) {
        match self.left {
            [first, rest @ ..] => {
                self.all &= same(packet, *first);
                self.left = rest;
            }
            [] => self.all = false,
        }
    }
}

fn is_visited(alloc: Global, row: &Row) -> bool {
    let mut to = Receiver::holding(alloc, row.limit, row.src);
    let mut seen = Compared::new(row.packets);
    let run = to.visit(row.pieces, &mut seen);
    (run == (row.count, row.answer)) & seen.is_done() & to.shows(&[], row.left, row.held)
}

// Takes the packets that came, each where it lies if it can be lent, and tells why there is none.
fn take_all(to: &mut Receiver<Global>) -> Answer {
    for _ in 0..1000 {
        let answer = to.take_next();
        if answer != Answer::Packet {
            return answer;
        }
    }
    Answer::Packet
}

fn is_taken(alloc: Global, row: &Row) -> bool {
    let mut to = Receiver::holding(alloc, row.limit, row.src);
    let mut answer = take_all(&mut to);
    for piece in row.pieces {
        if answer == Answer::Waits {
            let _ = to.src.extend_from_slice(*piece);
            answer = take_all(&mut to);
        }
    }
    (answer == row.answer) & to.shows(row.packets, row.left, row.held)
}

fn goes(alloc: Global, row: Row<'_>) -> bool {
    let mut to = Receiver::holding(alloc, row.limit, row.src);
    let run = to.deliver_in_two(row.pieces, row.first);
    let mut all = (run == (row.count, row.answer)) & to.shows(row.packets, row.left, row.held);
    all &= to.codec.max_allowed_packet == row.limit;
    all & is_visited(alloc, &row) & is_taken(alloc, &row)
}

const MANY: usize = 4194304;

const ROWS: &[Row] = &[
    Row {
        limit: MANY,
        src: b"",
        pieces: &[b"\x03", b"\0\0", b"\x001", b"", b"23\x01\0\0\x01\xff\0"],
        first: 0,
        count: 5,
        answer: Answer::Waits,
        packets: &[b"123", b"\xff"],
        left: b"\0",
        held: b"",
    },
    Row {
        limit: MANY,
        src: b"",
        pieces: &[],
        first: 0,
        count: 0,
        answer: Answer::Waits,
        packets: &[],
        left: b"",
        held: b"",
    },
    Row {
        limit: 3,
        src: b"",
        pieces: &[b"\x01\0\0\0\x61\x03\0\0", b"\x09", b"\x62"],
        first: 0,
        count: 3,
        answer: Answer::Waits,
        packets: &[b"a"],
        left: b"\x03\0\0\x09\x62",
        held: b"",
    },
];

const STOPPING: &[Row] = &[
    // It stops at the piece that brings the header of a packet past the limit.
    Row {
        limit: 2,
        src: b"",
        pieces: &[b"\x01\0\0\0\x61\x03\0\0", b"\x09", b"\x62"],
        first: 0,
        count: 2,
        answer: Answer::TooLarge,
        packets: &[b"a"],
        left: b"\x03\0\0\x09",
        held: b"",
    },
    // And at the piece that makes a chunk of another id whole.
    Row {
        limit: 3,
        src: b"",
        pieces: &[
            b"\x01\0\0\0\x61\x03\0\0\x09",
            b"\x62",
            b"\x63\x64\x05",
            b"\x06",
        ],
        first: 0,
        count: 3,
        answer: Answer::OutOfSync,
        packets: &[b"a"],
        left: b"\x05",
        held: b"bcd",
    },
    Row {
        limit: 0,
        src: b"",
        pieces: &[b"\0\0\0", b"\x01\x02", b"\x03"],
        first: 0,
        count: 2,
        answer: Answer::OutOfSync,
        packets: &[],
        left: b"\x02",
        held: b"",
    },
];

// What a table's texts cost the proof grows by the square of their number in a function.
fn stopping() -> &'static [Row<'static>] {
    STOPPING
}

const GOING_ON: &[Row] = &[
    // A run goes on where the last one stopped, also over no pieces.
    Row {
        limit: MANY,
        src: b"",
        pieces: &[b"\x03\0", b"\0\x00123"],
        first: 1,
        count: 2,
        answer: Answer::Waits,
        packets: &[b"123"],
        left: b"",
        held: b"",
    },
    Row {
        limit: MANY,
        src: b"",
        pieces: &[b"\0\0\0\0\x05"],
        first: 1,
        count: 1,
        answer: Answer::Waits,
        packets: &[b""],
        left: b"\x05",
        held: b"",
    },
    // What `src` holds is delivered before any piece.
    Row {
        limit: MANY,
        src: b"\0\0\0\0\x05",
        pieces: &[],
        first: 0,
        count: 0,
        answer: Answer::Waits,
        packets: &[b""],
        left: b"\x05",
        held: b"",
    },
];

fn going_on() -> &'static [Row<'static>] {
    GOING_ON
}

#[test]
fn pieces_become_packets(rt: HostRuntime) -> Result<(), Fail> {
    let whole = wrong_row(rt.alloc(), ROWS, goes);
    let stopping = wrong_row(rt.alloc(), stopping(), goes);
    let going_on = wrong_row(rt.alloc(), going_on(), goes);
    no_row(whole.or(stopping).or(going_on))
}

// Bytes, a limit, and the packet that is lent, if one is.
type Front = (&'static [u8], usize, Option<&'static [u8]>);

const FRONTS: &[Front] = &[
    (b"\x02\0\0\0ab\xff", 2, Some(b"ab")),
    (b"\0\0\0\0", 0, Some(b"")),
    (b"\x02\0\0\0ab", 1, None),
    (b"\x02\0\0\x01ab", 2, None),
    (b"\x02\0\0\0a", 2, None),
    (b"\x02\0\0", 2, None),
    (b"", 2, None),
];

// Whether it is lent.
fn is_lent(alloc: Global, front: Front) -> bool {
    let (bytes, limit, wanted) = front;
    let mut to = Receiver::holding(alloc, limit, bytes);
    match wanted {
        Some(packet) => to.lends(packet),
        None => !to.take_front(),
    }
}

#[test]
fn a_packet_is_lent_where_it_is_whole(rt: HostRuntime) -> Result<(), Fail> {
    no_row(wrong_row(rt.alloc(), FRONTS, is_lent))
}
