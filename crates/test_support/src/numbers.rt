//! How rows of a number are looked at: written, read back, and refused where it is cut short.

use crate::answers::Answer;
use crate::fields::{Eaten, MORE, Short, has_size, is_read, is_written, joined, stops};
use crate::fixture::Heap;
use std::alloc::Allocator;
use wire_repr::int::{IntRepr, RawInt};

/// A number, the bytes that it is written as, and the number that is read back from them.
pub type Row<'a, T> = (
    <T as IntRepr>::Primitive,
    &'a [u8],
    <T as IntRepr>::Primitive,
);

/// An input, the number that it begins with or why it begins with none, and how many bytes the
/// number has, or are left.
pub type Spelled<'a, T> = (&'a [u8], Result<<T as IntRepr>::Primitive, Answer>, usize);

// Whether the number is written and read back as the row says, which takes no memory.
fn is_number<T: IntRepr, A: Allocator + Copy>(
    heap: &Heap,
    alloc: A,
    eaten: Eaten,
    row: &Row<'_, T>,
) -> bool {
    let (number, bytes, back) = *row;
    let is_written = is_written(heap, &RawInt::<T>::new(number), bytes);
    let input = joined(heap, alloc, &[bytes, MORE]);
    is_written
        & is_spelled::<T, A>(
            heap,
            alloc,
            eaten,
            &(input.as_slice(), Ok(back), bytes.len()),
        )
}

// Whether the number is read from this spelling or none is, which takes no memory.
fn is_spelled<T: IntRepr, A: Allocator + Copy>(
    heap: &Heap,
    alloc: A,
    eaten: Eaten,
    row: &Spelled<'_, T>,
) -> bool {
    let (input, wanted, count) = *row;
    heap.refuse(0);
    let is_so = match wanted {
        Ok(number) => {
            let wanted = RawInt::<T>::new(number);
            is_read(alloc, (), input, count, &wanted, Short::eats(eaten))
        }
        Err(fault) => stops::<RawInt<T>, (), A>(alloc, (), input, fault, count),
    };
    is_so & (heap.left() == 0)
}

/// Whether a representation has this size, and each row is as it has it, where so much is eaten of
/// a number cut short.
pub fn are_numbers<T: IntRepr, A: Allocator + Copy>(
    heap: &Heap,
    alloc: A,
    size: Option<usize>,
    eaten: Eaten,
    rows: &[Row<'_, T>],
) -> bool {
    let mut all = has_size::<RawInt<T>>(size) & (T::SIZE == size);
    for row in rows {
        all &= is_number::<T, A>(heap, alloc, eaten, row);
    }
    all
}

/// Whether each of these spellings is read so.
pub fn are_spelled<T: IntRepr, A: Allocator + Copy>(
    heap: &Heap,
    alloc: A,
    eaten: Eaten,
    rows: &[Spelled<'_, T>],
) -> bool {
    let mut all = true;
    for row in rows {
        all &= is_spelled::<T, A>(heap, alloc, eaten, row);
    }
    all
}
