//! Every public function that takes memory, with each of its requests refused in turn, and every
//! one that has an allocator within reach and takes none. `scripts/memory_lists.sh` compares the
//! names in the tables with the functions that there are.
//!
//! All calls are made over the allocator that refuses by one function that is generic in its
//! allocator: that it is one is proved once.

mod codec;
mod copies;
mod silent;
mod writers;

use crate::copies::{Copying, Holding, Onto, Owner};
use crate::fixture::Heap;
use crate::reading::Reading;
use crate::requests::codec::{Runner, Way};
use crate::requests::copies::{ROWS_HELD, ROWS_OTHER, ROWS_READ};
use std::alloc::Allocator;

// A call that takes memory.
#[derive(Clone, Copy)]
pub(crate) enum Call {
    PacketToChunks,
    PiecesToChunks,
    Encode,
    EncodeValue,
    Queue,
    ChunkDecode,
    Decode,
    Reserve,
    PutSlice,
    Deliver(Runner),
    Read(Way),
    // With this many bytes left where it is refused, and where it isn't.
    ReadList(Reading, usize, usize),
    Elements,
    PushText(Onto),
    Copy(Holding, Copying),
    CloneOwner(Owner),
    AsStr(&'static [u8], &'static str),
    ReadLenencStr,
}

// A function by its name, and how often it asks for memory where none is refused.
pub(crate) type Row = (&'static str, Call, u64);

// No call asks so often.
const MOST: u64 = 20;

// Whether the request of this number was refused in the call of a row, and what stands then is right.
// The functions that go through numbers and rows have no call in hand: each way through them would
// have all of its forms.
fn tries<A: Allocator + Copy>(heap: &Heap, alloc: A, row: &Row, nth: u64) -> Option<bool> {
    let (_, call, _) = *row;
    codec::tries(heap, alloc, call, nth)
}

// How many requests a call makes, each refused in turn. None where one leaves something else.
fn refusals<A: Allocator + Copy>(heap: &Heap, alloc: A, row: &Row) -> Option<u64> {
    for nth in 0..MOST {
        let refused = tries(heap, alloc, row, nth)?;
        if refused != heap.has_refused() {
            return None;
        }
        if !refused {
            return Some(nth);
        }
    }
    None
}

// The name of a call in the table that takes memory and goes otherwise.
fn wrong_row<A: Allocator + Copy>(heap: &Heap, alloc: A, rows: &[Row]) -> Option<&'static str> {
    let mut wrong = None;
    for row in rows {
        if refusals(heap, alloc, row) != Some(row.2) {
            wrong = Some(row.0);
        }
    }
    wrong
}

/// The name of one that goes otherwise, of those that take memory, that write, or that take none.
pub fn wrong_of_all<A: Allocator + Copy>(heap: &Heap, alloc: A) -> Option<&'static str> {
    let mut wrong = writers::first_wrong(heap, alloc).or(silent::first_wrong(heap, alloc));
    for rows in [codec::ROWS, ROWS_READ, ROWS_HELD, ROWS_OTHER] {
        wrong = wrong.or(wrong_row(heap, alloc, rows));
    }
    wrong
}
