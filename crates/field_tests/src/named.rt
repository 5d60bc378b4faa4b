// Constants and sets of flags by their numbers.

use crate::at::{Refused, are_refused, is_at};
use mysql_wire::constants::{
    CapabilityFlags, ColumnType, CursorType, Flags, ItemResult, StatusFlags, UnknownColumnType,
};
use mysql_wire::io::InvalidReason;
use mysql_wire::misc::raw::int::{IntRepr, LeU16, LeU24, LeU32LowerHalf};
use mysql_wire::misc::raw::{Const, RawConst, RawFlags};
use std::alloc::Allocator;
use test_support::answers::Answer;
use test_support::fields::{gives, is_written};
use test_support::fixture::Heap;

const UNKNOWN: Answer = Answer::Invalid(InvalidReason::UnknownValue);

// Whether a number that isn't looked at is written and read as the first bytes of its input, so
// many, which takes no memory.
fn is_raw_const<T, U, A>(
    heap: &Heap,
    alloc: A,
    size: usize,
    number: T::Primitive,
    input: &[u8],
) -> bool
where
    A: Allocator + Copy,
    T: IntRepr,
{
    is_at(
        heap,
        alloc,
        &RawConst::<T, U>::new(number),
        input,
        size,
        &[],
    )
}

fn are_raw_flags<F, T, A>(
    heap: &Heap,
    alloc: A,
    size: usize,
    number: T::Primitive,
    input: &[u8],
) -> bool
where
    A: Allocator + Copy,
    F: Flags<Bits = T::Primitive>,
    T: IntRepr,
{
    is_at(
        heap,
        alloc,
        &RawFlags::<F, T>::new(number),
        input,
        size,
        &[],
    )
}

// A number of a byte, whatever it stands for; of three; and the halves of a set.
fn are_raw_numbers<A: Allocator + Copy>(heap: &Heap, alloc: A) -> bool {
    let more = RawFlags::<CapabilityFlags, LeU32LowerHalf>::new(0x10002);
    let mut all = is_raw_const::<u8, ColumnType, A>(heap, alloc, 1, 244, b"\xf4\x01");
    all &= is_raw_const::<LeU24, (), A>(heap, alloc, 3, 0x010203, b"\x03\x02\x01\0");
    all &= are_raw_flags::<StatusFlags, LeU16, A>(heap, alloc, 2, 7, b"\x07\0\xff");
    all &= are_raw_flags::<CapabilityFlags, LeU32LowerHalf, A>(heap, alloc, 2, 2, b"\x02\0\x01");
    all & is_written(heap, &more, b"\x02\0")
}

fn are_shown() -> bool {
    let unknown = RawConst::<u8, ColumnType>::new(244);
    let json = RawConst::<u8, ColumnType>::new(245);
    let flags = RawFlags::<StatusFlags, LeU16>::new(7);
    let mut all = unknown.get() == Err(UnknownColumnType(244));
    all &= json.get() == Ok(ColumnType::MYSQL_TYPE_JSON);
    all & (flags.get().bits() == 3)
}

// Whether a byte is the type that it stands for, or is refused, and is eaten.
fn is_column_type<A: Allocator + Copy>(heap: &Heap, alloc: A, number: u8) -> bool {
    let input = [number, 1];
    match ColumnType::try_from(number) {
        Ok(value) => {
            let value = Const::<ColumnType, u8>::new(value);
            is_at(heap, alloc, &value, &input, 1, &[])
        }
        Err(_) => {
            let refused: [Refused<'_, ()>; 1] = [((), 0, &input, UNKNOWN, 1)];
            are_refused::<Const<ColumnType, u8>, (), A>(heap, alloc, Some(1), &refused)
        }
    }
}

fn are_column_types<A: Allocator + Copy>(heap: &Heap, alloc: A) -> bool {
    let mut all = true;
    for number in 0..=255u8 {
        all &= is_column_type(heap, alloc, number);
    }
    all
}

const NO_CURSOR: &[Refused<()>] = &[((), 0, b"\x08", UNKNOWN, 0)];

const NO_RESULT: &[Refused<()>] = &[((), 0, b"\xfe\x01", UNKNOWN, 1)];

const NO_STATUS: &[Refused<()>] = &[((), 0, b"\x04\0\0", UNKNOWN, 1)];

// Numbers of constants, of which some are read and not written, and numbers that stand for none.
// Reading takes no memory.
fn are_constants<A: Allocator + Copy>(heap: &Heap, alloc: A) -> bool {
    let cursor = Const::<CursorType, u8>::new(CursorType::CURSOR_TYPE_READ_ONLY);
    let invalid = Const::<ItemResult, i8>::new(ItemResult::INVALID_RESULT);
    let mut all = is_at(heap, alloc, &cursor, b"\x01\xff", 1, NO_CURSOR);
    all &= gives(alloc, (), b"\xff\x01", &invalid, 1) & (heap.left() == 0);
    all &= are_refused::<Const<ItemResult, i8>, (), A>(heap, alloc, Some(1), NO_RESULT);
    all & are_refused::<Const<StatusFlags, LeU16>, (), A>(heap, alloc, Some(2), NO_STATUS)
}

/// Numbers that stand for constants and flags, or for none. Few types stand in each function: what it
/// costs grows faster than its calls.
pub fn are_named<A: Allocator + Copy>(heap: &Heap, alloc: A) -> bool {
    let mut all = are_raw_numbers(heap, alloc);
    all &= are_shown();
    all &= are_column_types(heap, alloc);
    all & are_constants(heap, alloc)
}
