//! Runs whose pieces each have a limit.

use crate::delivery::Compared;
use refusing_allocator::Refusing;
use std::alloc::{Allocator, Global};
use std::test::Fail;
use test_support::answers::Answer;
use test_support::facts::{ensure, no_row, wrong_row};
use test_support::receiver::{Receiver, Run};

type Piece<'a> = (usize, &'a [u8]);

// Pieces to a new codec, and what the run says and leaves.
#[derive(Clone, Copy)]
struct Row {
    pieces: &'static [Piece<'static>],
    run: Run,
    packets: &'static [&'static [u8]],
    left: &'static [u8],
    limit: usize,
}

const ROWS: &[Row] = &[
    // The piece of the fourth byte has the limit.
    Row {
        pieces: &[(2, b"\x03\0\0"), (3, b"\0abc")],
        run: (2, Answer::Waits),
        packets: &[b"abc"],
        left: b"",
        limit: 3,
    },
    // A header that is remembered isn't judged again.
    Row {
        pieces: &[(3, b"\x03\0\0\0"), (0, b"abc")],
        run: (2, Answer::Waits),
        packets: &[b"abc"],
        left: b"",
        limit: 0,
    },
    // A packet past its limit stays.
    Row {
        pieces: &[(1, b"\x02\0\0\0ab"), (9, b"c")],
        run: (1, Answer::TooLarge),
        packets: &[],
        left: b"\x02\0\0\0ab",
        limit: 1,
    },
    // Empty pieces set the limit too.
    Row {
        pieces: &[(9, b""), (1, b""), (2, b"\x02\0\0\0ab")],
        run: (3, Answer::Waits),
        packets: &[b"ab"],
        left: b"",
        limit: 2,
    },
];

// The pieces from number `count` on.
fn pieces_from<'a, 'b>(pieces: &'a [Piece<'b>], count: usize) -> &'a [Piece<'b>] {
    pieces.split_at(count.min(pieces.len())).1
}

// Whether the run goes so; where it was refused memory, it goes on by the pieces that it did not
// append.
fn is_delivered<A: Allocator + Copy>(to: &mut Receiver<A>, row: &Row) -> bool {
    let (mut count, mut answer) = to.deliver_limited(row.pieces);
    if answer == Answer::OutOfMemory {
        let (more, again) = to.deliver_limited(pieces_from(row.pieces, count));
        count = count.wrapping_add(more);
        answer = again;
    }
    (count, answer) == row.run
}

fn goes<A: Allocator + Copy>(alloc: A, row: &Row) -> bool {
    let mut to = Receiver::new(alloc, 0);
    let is_delivered = is_delivered(&mut to, row);
    let is_left = to.shows(row.packets, row.left, b"");
    is_delivered & is_left & (to.codec.max_allowed_packet == row.limit)
}

// Whether a visitor sees the packets in the same run.
fn is_visited(alloc: Global, row: &Row) -> bool {
    let mut to = Receiver::new(alloc, 0);
    let mut seen = Compared::new(row.packets);
    let run = to.visit_limited(row.pieces, &mut seen);
    (run == row.run) & seen.is_done() & to.shows(&[], row.left, b"")
}

// Whether the run is visited so, and delivered whichever request for memory is refused.
fn all_go(alloc: Global, row: Row) -> bool {
    let mut all = is_visited(alloc, &row);
    for nth in 0..13 {
        all &= goes(&Refusing::new(alloc, nth), &row);
    }
    all
}

// Whether a run goes on under another limit.
fn goes_on(alloc: Global) -> bool {
    // A larger limit goes on at the same header.
    let mut to = Receiver::new(alloc, 0);
    let mut all = to.deliver_limited(&[(1, b"\x02\0\0\0ab")]) == (1, Answer::TooLarge);
    to.codec.max_allowed_packet = 2;
    all &= to.deliver_limited(&[]) == (0, Answer::Waits);
    all &= to.shows(&[b"ab"], b"", b"");
    // A codec past its limit is aligned and doesn't stand.
    all &= to.deliver_limited(&[(3, b"\x03\0\0\x01")]) == (1, Answer::Waits);
    to.codec.max_allowed_packet = 0;
    all & to.codec.aligned_at(&to.src, to.dst.as_slice()) & !to.stands()
}

// Each chunk is judged once; and limits are raised and lowered.
#[test]
fn runs_go_as_their_limits_say(rt: HostRuntime) -> Result<(), Fail> {
    no_row(wrong_row(rt.alloc(), ROWS, all_go))?;
    ensure(goes_on(rt.alloc()), "a limit that moves")
}
