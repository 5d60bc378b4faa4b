//! Deliveries of which requests for memory are refused, and that go on.

use crate::answers::Answer;
use crate::case::Case;
use crate::fixture::Heap;
use crate::receiver::{Receiver, pieces_from};
use refusing_allocator::{NEVER, Refusing};
use std::alloc::{Allocator, Global};

// No delivery that a test makes asks so often.
const MOST: u64 = 100;

// Delivers these pieces, and goes on with those that were not appended until no request is refused.
// One request is refused, or `many`: one in each call, each time a later one. Says how many were
// refused, if just those ran out of memory, and the end is that of the stream's reading.
fn deliver_on<A: Allocator + Copy>(
    heap: &Heap,
    case: &Case,
    receiver: &mut Receiver<A>,
    pieces: &[&[u8]],
    many: bool,
) -> Option<u64> {
    let mut count = 0usize;
    for refused in 0..MOST {
        let (more, answer) = receiver.deliver(pieces_from(pieces, count));
        count = count.wrapping_add(more);
        let again = answer == Answer::OutOfMemory;
        if heap.has_refused() != again {
            return None;
        }
        if !again {
            let is_ended = case.is_ended(receiver, 0, pieces, (count, answer));
            return is_ended.then_some(refused);
        }
        heap.refuse(if many { refused + 1 } else { NEVER });
    }
    None
}

/// Delivers a stream in pieces with request number `nth` refused, and goes on. Says how many
/// requests were refused, if the end is that of the stream's reading.
pub fn deliver_refused(
    alloc: Global,
    case: &Case,
    pieces: &[&[u8]],
    nth: u64,
    many: bool,
) -> Option<u64> {
    let heap = Refusing::new(alloc, NEVER);
    deliver_over(&heap, &heap, case, pieces, (nth, many))
}

fn deliver_over<A: Allocator + Copy>(
    heap: &Heap,
    alloc: A,
    case: &Case,
    pieces: &[&[u8]],
    (nth, many): (u64, bool),
) -> Option<u64> {
    let mut receiver = case.receiver(alloc);
    heap.refuse(nth);
    deliver_on(heap, case, &mut receiver, pieces, many)
}
