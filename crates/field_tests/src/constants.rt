// Bytes that are always the same, or that say nothing.

ghost use Rattle.std.specs.Prelude.{◌∷◌, [], refl};
ghost use Rattle.std.proofs.Common.{arith};

use crate::at::{Refused, is_at};
use mysql_wire::io::{InvalidReason, ParseBuf};
use mysql_wire::misc::raw::Skip;
use mysql_wire::misc::raw::bytes::{ConstBytes, ConstBytesValue};
use mysql_wire::misc::raw::int::{ConstU8, ConstU32};
use std::alloc::Allocator;
use test_support::answers::Answer;
use test_support::fields::{gives, has_size};
use test_support::fixture::Heap;

// What a file of the binary log begins with.
pub struct Magic;

impl ConstBytesValue<4> for Magic {
    const VALUE: [u8; 4] = *b"\xfebin";

    type Error = ();

    ghost VALUE = { 0xfe ∷ 0x62 ∷ 0x69 ∷ 0x6e ∷ [] };

    ghost length_is = { refl };

    ghost fits = { Prim.omega arith };
}

// No byte.
pub struct Nothing;

impl ConstBytesValue<0> for Nothing {
    const VALUE: [u8; 0] = [];

    type Error = ();

    ghost VALUE = { [] };

    ghost length_is = { refl };

    ghost fits = { Prim.omega arith };
}

// Each kind of constant.
fn is_byte<'de, const N: u8, A>(
    heap: &Heap,
    alloc: A,
    value: ConstU8<(), N>,
    input: &'de [u8],
    refused: &[Refused<'de, ()>],
) -> bool
where
    A: Allocator + Copy,
{
    let is_value = value.value() == N;
    is_value & is_at(heap, alloc, &value, input, 1, refused)
}

fn is_number<'de, const N: u32, A>(
    heap: &Heap,
    alloc: A,
    value: ConstU32<(), N>,
    input: &'de [u8],
    refused: &[Refused<'de, ()>],
) -> bool
where
    A: Allocator + Copy,
{
    is_at(heap, alloc, &value, input, 4, refused)
}

fn is_skipped<const N: usize, A: Allocator + Copy>(heap: &Heap, alloc: A, input: &[u8]) -> bool {
    is_at(heap, alloc, &Skip::<N>, input, N, &[])
}

fn is_array<const N: usize, A>(heap: &Heap, alloc: A, value: [u8; N], input: &[u8]) -> bool
where
    A: Allocator + Copy,
{
    is_at(heap, alloc, &value, input, N, &[])
}

// Each of these differs from the constant. Its bytes are eaten.
const OTHER: Answer = Answer::Invalid(InvalidReason::ConstMismatch);

const NO_BYTE: &[Refused<()>] = &[
    ((), 0, b"\x08\x01", OTHER, 1),
    ((), 0, b"\x06\x07", OTHER, 1),
    ((), 0, b"\x87\0", OTHER, 1),
];

const NO_NUMBER: &[Refused<()>] = &[
    ((), 0, b"\x05\x03\x02\x01a", OTHER, 1),
    ((), 0, b"\x04\x04\x02\x01b", OTHER, 1),
    ((), 0, b"\x04\x03\x03\x01c", OTHER, 1),
    ((), 0, b"\x04\x03\x02\x02d", OTHER, 1),
    ((), 0, b"\x01\x02\x03\x04e", OTHER, 1),
];

const NO_TEXT: &[Refused<()>] = &[
    ((), 0, b"\0bin\0a", OTHER, 2),
    ((), 0, b"\xfecin\0b", OTHER, 2),
    ((), 0, b"\xfebon\0c", OTHER, 2),
    ((), 0, b"\xfebim\0d", OTHER, 2),
];

fn are_constants<A: Allocator + Copy>(heap: &Heap, alloc: A) -> bool {
    let magic = ConstBytes::<Magic, 4>::default();
    let nothing = ConstBytes::<Nothing, 0>::default();
    let number = ConstU32::<(), 0x01020304>::new();
    let most = ConstU32::<(), 0xffffffff>::default();
    let mut all = is_byte::<7, A>(heap, alloc, ConstU8::new(), b"\x07\x07\0", NO_BYTE);
    all &= is_byte::<255, A>(heap, alloc, ConstU8::default(), b"\xff", &[]);
    all &= is_number(heap, alloc, number, b"\x04\x03\x02\x01\0", NO_NUMBER);
    all &= is_number(heap, alloc, most, b"\xff\xff\xff\xff\xff", &[]);
    all &= is_at(heap, alloc, &magic, b"\xfebin\0", 4, NO_TEXT);
    all & is_at(heap, alloc, &nothing, b"a", 0, &[])
}

// Arrays, and bytes to skip, in whose place anything is read.
fn are_bytes<A: Allocator + Copy>(heap: &Heap, alloc: A) -> bool {
    let mut all = is_array(heap, alloc, *b"abc", b"abcde");
    all &= is_array(heap, alloc, [], b"a");
    all &= is_skipped::<0, A>(heap, alloc, b"\x01");
    all &= is_skipped::<3, A>(heap, alloc, b"\0\0\0\x01");
    all &= gives::<Skip<3>, (), A>(alloc, (), b"abcd", &Skip, 1);
    // The other sizes are looked at with their values.
    all & has_size::<ParseBuf<'_>>(None)
}

/// Whether constants are written and read, and others refused.
pub fn all_constants<A: Allocator + Copy>(heap: &Heap, alloc: A) -> bool {
    are_constants(heap, alloc) & are_bytes(heap, alloc)
}
