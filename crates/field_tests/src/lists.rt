// Lists: written and read by each representation of their count, counts that promise too much,
// elements that are refused, and memory that is.

use crate::at::{Refused, UNCUT, WHOLE, is_field};
use mysql_wire::constants::ColumnType;
use mysql_wire::io::{InvalidReason, ParseBuf};
use mysql_wire::misc::raw::bytes::U8Bytes;
use mysql_wire::misc::raw::int::{IntRepr, LeU16, LeU32, LeU64, VarLen};
use mysql_wire::misc::raw::seq::{Seq, SeqRepr, Unknown};
use mysql_wire::misc::raw::{Const, RawBytes, RawInt, Skip};
use mysql_wire::proto::{MyDeserialize, MySerialize};
use refusing_allocator::NEVER;
use std::alloc::Allocator;
use std::borrow::CowSlice;
use test_support::answers::Answer;
use test_support::fixture::Heap;

const EOF: Answer = Answer::UnexpectedEof;

const UNKNOWN: Answer = Answer::Invalid(InvalidReason::UnknownValue);

const OUT_OF_MEMORY: Answer = Answer::OutOfMemory;

// Values, an input that begins with them as a list, how many bytes it has there, and how many bytes
// of them its count has.
type List<'a, T> = (&'a [T], &'a [u8], usize, usize);

// Whether these are written and read as a list, and no list is read from the rows that are refused.
fn is_list<'de, T, U, A>(
    heap: &Heap,
    alloc: A,
    ctx: U::Ctx,
    list: List<'de, T>,
    refused: &[Refused<'de, U::Ctx>],
) -> bool
where
    T: 'de + Clone + Drop + PartialEq + MySerialize + MyDeserialize<'de, A, Ctx = ()>,
    U: 'de + SeqRepr<Ctx: Copy>,
    A: 'de + Allocator + Copy,
{
    let (values, input, len, front) = list;
    let list: Seq<'de, T, U, A> = Seq::new(CowSlice::Borrowed(values));
    let value = (&list, ctx, NEVER, input, len, front);
    is_field::<Seq<'de, T, U, A>, U::Ctx, A>(heap, alloc, None, &value, refused)
}

// ---- lists of numbers

// A count whose values aren't there is an end of input at once, and no memory is asked for. Where
// they are there, the count is eaten before the first request.
const FOUR: &[Refused<()>] = &[
    ((), 0, b"\xff\xff\xff\xff\x01\x02", EOF, 2),
    ((), 0, b"\x02\0\0\0\x01\0\x02", EOF, 3),
    ((), 0, b"\x01\0\0", EOF, 3),
    ((), 0, b"\x02\0\0\0\x01\0\x02\0", OUT_OF_MEMORY, 4),
];

// As many bytes as no machine counts, and as many as it counts.
const EIGHT: &[Refused<()>] = &[
    ((), 0, b"\xff\xff\xff\xff\xff\xff\xff\xff\x01\x02", EOF, 2),
    ((), 0, b"\0\0\0\0\0\0\0\x80\x01\x02", EOF, 2),
    ((), 0, b"\0\0\0\0\0\0\0\x80", EOF, 0),
    ((), 0, b"\xff\xff\xff\xff\xff\xff\xff\x7f\x01\x02", EOF, 2),
    ((), 0, b"\x01\0\0\0\0\0\0", EOF, 7),
];

const BARE: &[Refused<usize>] = &[(usize::MAX, 0, b"\x01\x02", EOF, 2)];

// Elements of no fixed size: what was read of them is eaten. (Of their memory `facade_tests` has the
// rows.)
const VARYING: &[Refused<()>] = &[((), NEVER, b"\x02\0\0\0\x80\0\x80", EOF, 0)];

// The same of numbers, in whatever representation.
fn is_list_of_numbers<'de, T, U, A>(
    heap: &Heap,
    alloc: A,
    ctx: U::Ctx,
    list: List<'de, RawInt<T>>,
    refused: &[Refused<'de, U::Ctx>],
) -> bool
where
    T: 'de + IntRepr,
    U: 'de + SeqRepr<Ctx: Copy>,
    A: 'de + Allocator + Copy,
{
    is_list::<RawInt<T>, U, A>(heap, alloc, ctx, list, refused)
}

// Each count, with its numbers and without. What is called once for each type is generic in the
// allocator, since each call at a type proves anew that it is one.
fn are_numbers<'de, A>(heap: &Heap, alloc: A, two: &'de [RawInt<LeU16>]) -> bool
where
    A: 'de + Allocator + Copy,
{
    let four: List<'de, RawInt<LeU16>> = (two, b"\x02\0\0\0\x01\0\x02\0\xff", 8, 4);
    let none: List<'de, RawInt<LeU16>> = (&[], b"\0\0\0\0\xff", 4, WHOLE);
    let eight: List<'de, RawInt<LeU16>> = (two, b"\x02\0\0\0\0\0\0\0\x01\0\x02\0\xff", 12, 8);
    let bare: List<'de, RawInt<LeU16>> = (two, b"\x01\0\x02\0\xff", 4, WHOLE);
    let varying: List<'de, RawInt<VarLen>> = (&[], b"\0\0\0\0\xff", 4, WHOLE);
    let mut all = is_list_of_numbers::<LeU16, LeU32, A>(heap, alloc, (), four, FOUR);
    all &= is_list_of_numbers::<LeU16, LeU32, A>(heap, alloc, (), none, &[]);
    all &= is_list_of_numbers::<LeU16, LeU64, A>(heap, alloc, (), eight, EIGHT);
    all &= is_list_of_numbers::<LeU16, Unknown, A>(heap, alloc, 2, bare, BARE);
    all & is_list_of_numbers::<VarLen, LeU32, A>(heap, alloc, (), varying, VARYING)
}

// ---- lists of other elements

// The block of elements of a size is eaten, whichever is refused.
const NO_TYPES: &[Refused<()>] = &[
    ((), NEVER, b"\x02\0\0\0\xf4\0\xaa", UNKNOWN, 1),
    ((), NEVER, b"\x02\0\0\0\0\xf4\xaa", UNKNOWN, 1),
];

const NO_TEXTS: &[Refused<()>] = &[
    ((), NEVER, b"\x02\0\0\0\x01a", EOF, 0),
    ((), NEVER, b"\x02\0\0\0\x01", EOF, 0),
];

// Elements of no bytes, and constants.
fn are_others<'de, A>(heap: &Heap, alloc: A, types: &'de [Const<ColumnType, u8>]) -> bool
where
    A: 'de + Allocator + Copy,
{
    let none: List<'de, Skip<0>> = (&[Skip, Skip, Skip], b"\x03\0\0\0", 4, WHOLE);
    let types: List<'de, Const<ColumnType, u8>> = (types, b"\x01\0\0\0\xf5\0", 5, 4);
    let mut all = is_list::<Skip<0>, LeU32, A>(heap, alloc, (), none, &[]);
    all & is_list::<Const<ColumnType, u8>, LeU32, A>(heap, alloc, (), types, NO_TYPES)
}

// Two texts, with one byte after them.
fn is_list_of_texts<'de, A>(heap: &Heap, alloc: A, texts: &'de [RawBytes<'de, U8Bytes, A>]) -> bool
where
    A: 'de + Allocator + Copy,
{
    let list: List<'de, RawBytes<'de, U8Bytes, A>> = (texts, b"\x02\0\0\0\x01a\0\xff", 7, UNCUT);
    is_list::<RawBytes<'de, U8Bytes, A>, LeU32, A>(heap, alloc, (), list, NO_TEXTS)
}

fn text<A: Allocator>(bytes: &[u8]) -> RawBytes<'_, U8Bytes, A> {
    RawBytes::from(bytes)
}

fn are_texts<A: Allocator + Copy>(heap: &Heap, alloc: A) -> bool {
    heap.refuse(NEVER);
    let mut texts = Vec::new(alloc);
    let _ = texts.push(text(b"a"));
    let _ = texts.push(text(b""));
    is_list_of_texts(heap, alloc, texts.as_slice())
}

/// Whether lists are written and read, and others refused.
pub fn are_lists<A: Allocator + Copy>(heap: &Heap, alloc: A) -> bool {
    let two = [RawInt::<LeU16>::new(1), RawInt::<LeU16>::new(2)];
    let types = [Const::<ColumnType, u8>::new(ColumnType::MYSQL_TYPE_JSON)];
    let are_numbers = are_numbers(heap, alloc, &two);
    are_numbers & are_others(heap, alloc, &types) & are_texts(heap, alloc)
}
