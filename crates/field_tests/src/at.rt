// What is tried of one type, in rows: each call at a type has its price in the proof, and a row
// more has none.

use mysql_wire::proto::{MyDeserialize, MySerialize, StatedSize};
use std::alloc::Allocator;
use test_support::answers::Answer;
use test_support::fields::{Eaten, Short, gives, is_read, is_written, stops};
use test_support::fixture::Heap;
use test_support::reference::between;

/// A value, its context, the request for memory that is refused while it is read, an input that
/// begins with it, how many bytes it has there, and how many of them are eaten where its end is
/// missing: none but those of a front that is there whole.
pub type Value<'a, 'de, T, C> = (&'a T, C, u64, &'de [u8], usize, usize);

/// A context, the request for memory that is refused, an input that begins with no value, why it
/// doesn't, and how many bytes are left.
pub type Refused<'de, C> = (C, u64, &'de [u8], Answer, usize);

/// Of a type of which no front is eaten by itself.
pub const WHOLE: usize = usize::MAX;

/// Of a value whose end is not cut away here.
pub const UNCUT: usize = usize::MAX - 1;

// Whether a value is written as the first bytes of its input, whichever request for memory is
// refused, and read from them, whatever follows; and whether none is read from fewer.
fn is_value<'de, T, C, A>(heap: &Heap, alloc: A, row: &Value<'_, 'de, T, C>) -> bool
where
    A: Allocator + Copy,
    C: Copy,
    T: PartialEq + MySerialize + MyDeserialize<'de, A, Ctx = C>,
{
    let (value, ctx, nth, input, len, front) = *row;
    let is_put = is_written(heap, value, between(input, 0, len));
    let short = Short {
        fault: Answer::UnexpectedEof,
        eaten: Eaten::Nothing,
        front,
    };
    heap.refuse(nth);
    let is_back = if front == UNCUT {
        gives(alloc, ctx, input, value, input.len().saturating_sub(len))
    } else {
        is_read(alloc, ctx, input, len, value, short)
    };
    is_put & is_back & !heap.has_refused()
}

/// Whether a type has this size, and no value is read from the input of each row, for its reason.
/// Where that isn't want of memory, no request is refused; and where the first would be, none is
/// made.
pub fn are_refused<'de, T, C, A>(
    heap: &Heap,
    alloc: A,
    size: Option<usize>,
    rows: &[Refused<'de, C>],
) -> bool
where
    A: Allocator + Copy,
    C: Copy,
    T: MyDeserialize<'de, A, Ctx = C>,
{
    let mut all = T::SIZE == size;
    for row in rows {
        let (ctx, nth, input, fault, left) = *row;
        heap.refuse(nth);
        all &= stops::<T, C, A>(alloc, ctx, input, fault, left);
        all &= heap.has_refused() == (fault == Answer::OutOfMemory);
    }
    all
}

/// Whether a type has this size, its value is written and read so, and no value is read from the
/// input of each row.
pub fn is_field<'de, T, C, A>(
    heap: &Heap,
    alloc: A,
    size: Option<usize>,
    value: &Value<'_, 'de, T, C>,
    refused: &[Refused<'de, C>],
) -> bool
where
    A: Allocator + Copy,
    C: Copy,
    T: PartialEq + MySerialize + MyDeserialize<'de, A, Ctx = C>,
{
    let is_value = is_value(heap, alloc, value);
    is_value & are_refused::<T, C, A>(heap, alloc, size, refused)
}

/// The same of a value without a context, which has this size: none of its bytes is eaten before
/// all are there. Readers take no memory.
pub fn is_at<'de, T, A>(
    heap: &Heap,
    alloc: A,
    value: &T,
    input: &'de [u8],
    len: usize,
    refused: &[Refused<'de, ()>],
) -> bool
where
    A: Allocator + Copy,
    T: PartialEq + MySerialize + MyDeserialize<'de, A, Ctx = ()>,
{
    let value = (value, (), 0, input, len, WHOLE);
    is_field(heap, alloc, Some(len), &value, refused)
}
