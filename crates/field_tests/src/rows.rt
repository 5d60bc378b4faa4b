// Bytes, numbers in a row, one of two values, and two values one after the other.

use crate::at::{Refused, UNCUT, WHOLE, is_field};
use crate::traits::is_copied;
use mysql_wire::constants::SessionStateType;
use mysql_wire::misc::raw::int::{LeU16, LeU32};
use mysql_wire::misc::raw::{Both, Either, RawInt, RawSeq, Slice};
use refusing_allocator::NEVER;
use std::alloc::Allocator;
use std::borrow::CowSlice;
use test_support::answers::Answer;
use test_support::fixture::Heap;
use test_support::reference::between;

const NO_BYTES: &[Refused<usize>] = &[(usize::MAX, 0, b"ab", Answer::UnexpectedEof, 2)];

// Bytes whose number the context says.
fn are_bytes<A: Allocator + Copy>(heap: &Heap, alloc: A) -> bool {
    let two = (&Slice(b"ab"), 2, 0, b"ab\xff".as_slice(), 2, WHOLE);
    let none = (&Slice(b""), 0, 0, b"ab".as_slice(), 0, WHOLE);
    let are_two = is_field(heap, alloc, None, &two, NO_BYTES);
    are_two & is_field(heap, alloc, None, &none, &[])
}

// Numbers that name changes of a session's state.
type States<'a, A> = RawSeq<'a, u8, SessionStateType, A>;

// These bytes in a row.
fn row_of<A: Allocator>(bytes: &[u8]) -> States<'_, A> {
    RawSeq::new(CowSlice::Borrowed(bytes))
}

// Whether numbers of one byte in a row are written and read, and one byte is left.
fn is_row_of_states<A: Allocator + Copy>(heap: &Heap, alloc: A, input: &[u8]) -> bool {
    let len = input.len().saturating_sub(1);
    let numbers = row_of::<A>(between(input, 0, len));
    let value = (&numbers, len, 0, input, len, WHOLE);
    is_field(heap, alloc, None, &value, &[])
}

fn is_owned<A: Allocator + Copy>(alloc: A, states: States<'_, A>, bytes: &[u8]) -> bool {
    match states.into_owned(alloc) {
        Ok(owned) => owned.0.as_slice() == bytes,
        Err(_) => false,
    }
}

// Whether the last of three numbers is 9.
fn are_three<A: Allocator>(states: &States<'_, A>) -> bool {
    let is_last = match states.get(2) {
        Some(raw) => raw.0 == 9,
        None => false,
    };
    (states.len() == 3) & !states.is_empty() & is_last & states.get(3).is_none()
}

fn are_shown<A: Allocator + Copy>(heap: &Heap, alloc: A, bytes: &[u8]) -> bool {
    let mut all = are_three(&row_of::<A>(bytes));
    all &= is_copied(row_of::<A>(bytes)) & (heap.left() == 0);
    heap.refuse(1);
    all & is_owned(alloc, row_of(bytes), bytes) & (heap.left() == 0)
}

// One number of four bytes or of one.
type Number = Either<RawInt<LeU32>, RawInt<u8>>;

// The context says which is read.
const NO_NUMBER: &[Refused<Either<(), ()>>] = &[
    (
        Either::Left(()),
        NEVER,
        b"\x01\x02",
        Answer::UnexpectedEof,
        2,
    ),
    (Either::Right(()), NEVER, b"", Answer::UnexpectedEof, 0),
];

fn is_either<A: Allocator + Copy>(heap: &Heap, alloc: A) -> bool {
    let left: Number = Either::Left(RawInt::new(1));
    let right: Number = Either::Right(RawInt::new(1));
    let input = b"\x01\0\0\0\x02".as_slice();
    let four = (&left, Either::Left(()), NEVER, input, 4, UNCUT);
    let one = (&right, Either::Right(()), NEVER, input, 1, UNCUT);
    let is_left = is_field(heap, alloc, None, &four, NO_NUMBER);
    is_left & is_field(heap, alloc, None, &one, &[])
}

fn are_numbers<A: Allocator + Copy>(heap: &Heap, alloc: A) -> bool {
    let numbers = Both(RawInt::<LeU16>::new(258), RawInt::<u8>::new(3));
    let value = (&numbers, ((), ()), 0, b"\x02\x01\x03\xff".as_slice(), 3, 2);
    is_field(heap, alloc, None, &value, &[])
}

// Numbers without a wrapper, the least significant byte first.
fn are_plain<A: Allocator + Copy>(heap: &Heap, alloc: A) -> bool {
    let small = Both(1u8, 0x0203u16);
    let large = Both(0x0405_0607u32, 0x0809_0a0b_0c0d_0e0fu64);
    let three = (&small, ((), ()), 0, b"\x01\x03\x02\xff".as_slice(), 3, 1);
    let bytes = b"\x07\x06\x05\x04\x0f\x0e\x0d\x0c\x0b\x0a\x09\x08\xff".as_slice();
    let twelve = (&large, ((), ()), 0, bytes, 12, 4);
    is_field(heap, alloc, None, &three, &[]) & is_field(heap, alloc, None, &twelve, &[])
}

/// Bytes and numbers in a row, one of two values by each side, and two one after the other.
pub fn are_rows<A: Allocator + Copy>(heap: &Heap, alloc: A) -> bool {
    let mut all = are_bytes(heap, alloc);
    all &= is_row_of_states(heap, alloc, b"\0\x05\x09\xff");
    all &= is_row_of_states(heap, alloc, b"\xff");
    all &= are_shown(heap, alloc, b"\0\x05\x09");
    all &= is_either(heap, alloc);
    all &= Number::Left(RawInt::new(1)).unwrap_left().0 == 1;
    all &= Number::Right(RawInt::new(1)).unwrap_right().0 == 1;
    all &= are_plain(heap, alloc);
    all & are_numbers(heap, alloc)
}
