// Each representation of a number: the ends of its range, cut short, with bytes after, and with
// each request for memory refused.

use mysql_wire::io::InvalidReason;
use mysql_wire::misc::raw::int::{
    LeI16, LeI24, LeI32, LeI56, LeI64, LeU16, LeU24, LeU32, LeU32LowerHalf, LeU32UpperHalf, LeU48,
    LeU56, LeU64, LenEnc, VarLen,
};
use std::alloc::Allocator;
use test_support::answers::Answer;
use test_support::fields::Eaten;
use test_support::fixture::Heap;
use test_support::numbers::{Row, Spelled, are_numbers, are_spelled};

const U8: &[Row<u8>] = &[
    (0, b"\0", 0),
    (1, b"\x01", 1),
    (127, b"\x7f", 127),
    (128, b"\x80", 128),
    (255, b"\xff", 255),
];

const LE_U16: &[Row<LeU16>] = &[
    (0, b"\0\0", 0),
    (1, b"\x01\0", 1),
    (255, b"\xff\0", 255),
    (256, b"\0\x01", 256),
    (65535, b"\xff\xff", 65535),
];

const LE_U32: &[Row<LeU32>] = &[
    (0, b"\0\0\0\0", 0),
    (1, b"\x01\0\0\0", 1),
    (65536, b"\0\0\x01\0", 65536),
    (0x01020304, b"\x04\x03\x02\x01", 0x01020304),
    (u32::MAX, b"\xff\xff\xff\xff", u32::MAX),
];

const LE_U64: &[Row<LeU64>] = &[
    (0, b"\0\0\0\0\0\0\0\0", 0),
    (1, b"\x01\0\0\0\0\0\0\0", 1),
    (
        0x0102_0304_0506_0708,
        b"\x08\x07\x06\x05\x04\x03\x02\x01",
        0x0102_0304_0506_0708,
    ),
    (u64::MAX, b"\xff\xff\xff\xff\xff\xff\xff\xff", u64::MAX),
];

const I8: &[Row<i8>] = &[
    (0, b"\0", 0),
    (1, b"\x01", 1),
    (127, b"\x7f", 127),
    (-128, b"\x80", -128),
    (-1, b"\xff", -1),
];

const LE_I16: &[Row<LeI16>] = &[
    (0, b"\0\0", 0),
    (1, b"\x01\0", 1),
    (32767, b"\xff\x7f", 32767),
    (-32768, b"\0\x80", -32768),
    (-1, b"\xff\xff", -1),
];

const LE_I32: &[Row<LeI32>] = &[
    (0, b"\0\0\0\0", 0),
    (1, b"\x01\0\0\0", 1),
    (-1, b"\xff\xff\xff\xff", -1),
    (i32::MAX, b"\xff\xff\xff\x7f", i32::MAX),
    (i32::MIN, b"\0\0\0\x80", i32::MIN),
];

const LE_I64: &[Row<LeI64>] = &[
    (0, b"\0\0\0\0\0\0\0\0", 0),
    (1, b"\x01\0\0\0\0\0\0\0", 1),
    (-1, b"\xff\xff\xff\xff\xff\xff\xff\xff", -1),
    (i64::MAX, b"\xff\xff\xff\xff\xff\xff\xff\x7f", i64::MAX),
    (i64::MIN, b"\0\0\0\0\0\0\0\x80", i64::MIN),
];

const LE_U24: &[Row<LeU24>] = &[
    (0, b"\0\0\0", 0),
    (1, b"\x01\0\0", 1),
    (0x01020304, b"\x04\x03\x02", 0x020304),
    (16777215, b"\xff\xff\xff", 16777215),
    (16777216, b"\0\0\0", 0),
    (u32::MAX, b"\xff\xff\xff", 16777215),
];

const LE_U48: &[Row<LeU48>] = &[
    (0, b"\0\0\0\0\0\0", 0),
    (1, b"\x01\0\0\0\0\0", 1),
    (
        0x0102_0304_0506_0708,
        b"\x08\x07\x06\x05\x04\x03",
        0x30405060708,
    ),
    ((1 << 48) - 1, b"\xff\xff\xff\xff\xff\xff", (1 << 48) - 1),
    (1 << 48, b"\0\0\0\0\0\0", 0),
    (u64::MAX, b"\xff\xff\xff\xff\xff\xff", 281474976710655),
];

const LE_U56: &[Row<LeU56>] = &[
    (0, b"\0\0\0\0\0\0\0", 0),
    (1, b"\x01\0\0\0\0\0\0", 1),
    (
        0x0102_0304_0506_0708,
        b"\x08\x07\x06\x05\x04\x03\x02",
        0x2030405060708,
    ),
    (
        (1 << 56) - 1,
        b"\xff\xff\xff\xff\xff\xff\xff",
        (1 << 56) - 1,
    ),
    (1 << 56, b"\0\0\0\0\0\0\0", 0),
    (u64::MAX, b"\xff\xff\xff\xff\xff\xff\xff", 72057594037927935),
];

const LE_I24: &[Row<LeI24>] = &[
    (0, b"\0\0\0", 0),
    (1, b"\x01\0\0", 1),
    (-1, b"\xff\xff\xff", -1),
    (8388607, b"\xff\xff\x7f", 8388607),
    (-8388608, b"\0\0\x80", -8388608),
    (8388608, b"\0\0\x80", -8388608),
    (-8388609, b"\xff\xff\x7f", 8388607),
    (i32::MAX, b"\xff\xff\xff", -1),
    (i32::MIN, b"\0\0\0", 0),
];

const LE_I56: &[Row<LeI56>] = &[
    (0, b"\0\0\0\0\0\0\0", 0),
    (1, b"\x01\0\0\0\0\0\0", 1),
    (-1, b"\xff\xff\xff\xff\xff\xff\xff", -1),
    (
        0x0102_0304_0506_0708,
        b"\x08\x07\x06\x05\x04\x03\x02",
        0x2030405060708,
    ),
    (
        (1 << 55) - 1,
        b"\xff\xff\xff\xff\xff\xff\x7f",
        (1 << 55) - 1,
    ),
    (-(1 << 55), b"\0\0\0\0\0\0\x80", -(1 << 55)),
    (1 << 55, b"\0\0\0\0\0\0\x80", -36028797018963968),
    (
        -(1 << 55) - 1,
        b"\xff\xff\xff\xff\xff\xff\x7f",
        36028797018963967,
    ),
    (i64::MAX, b"\xff\xff\xff\xff\xff\xff\xff", -1),
    (i64::MIN, b"\0\0\0\0\0\0\0", 0),
];

const LOWER_HALVES: &[Row<LeU32LowerHalf>] = &[
    (0, b"\0\0", 0),
    (1, b"\x01\0", 1),
    (0x12345678, b"\x78\x56", 0x005678),
    (65535, b"\xff\xff", 65535),
    (65536, b"\0\0", 0),
    (u32::MAX, b"\xff\xff", 65535),
];

const UPPER_HALVES: &[Row<LeU32UpperHalf>] = &[
    (0, b"\0\0", 0),
    (1, b"\0\0", 0),
    (0x12345678, b"\x34\x12", 0x12340000),
    (65535, b"\0\0", 0),
    (65536, b"\x01\0", 65536),
    (u32::MAX, b"\xff\xff", 4294901760),
];

const LENENC: &[Row<LenEnc>] = &[
    (0, b"\0", 0),
    (1, b"\x01", 1),
    (250, b"\xfa", 250),
    (251, b"\xfc\xfb\0", 251),
    (255, b"\xfc\xff\0", 255),
    (256, b"\xfc\0\x01", 256),
    (65535, b"\xfc\xff\xff", 65535),
    (65536, b"\xfd\0\0\x01", 65536),
    (16777215, b"\xfd\xff\xff\xff", 16777215),
    (16777216, b"\xfe\0\0\0\x01\0\0\0\0", 16777216),
    (u64::MAX, b"\xfe\xff\xff\xff\xff\xff\xff\xff\xff", u64::MAX),
];

const VARLEN: &[Row<VarLen>] = &[
    (0, b"\0", 0),
    (1, b"\x01", 1),
    (5, b"\x05", 5),
    (127, b"\x7f", 127),
    (128, b"\x80\x01", 128),
    (300, b"\xac\x02", 300),
    (16383, b"\xff\x7f", 16383),
    (16384, b"\x80\x80\x01", 16384),
    (2097151, b"\xff\xff\x7f", 2097151),
    (2097152, b"\x80\x80\x80\x01", 2097152),
    (268435455, b"\xff\xff\xff\x7f", 268435455),
    (268435456, b"\x80\x80\x80\x80\x01", 268435456),
    (u32::MAX, b"\xff\xff\xff\xff\x0f", u32::MAX),
];

// Fixed widths without a sign: of a wider number the low bytes are written. Few types stand in one
// function: what it costs grows faster than they do.
fn are_unsigned<A: Allocator + Copy>(heap: &Heap, alloc: A) -> bool {
    let none = Eaten::Nothing;
    let mut all = are_numbers::<u8, A>(heap, alloc, Some(1), none, U8);
    all &= are_numbers::<LeU16, A>(heap, alloc, Some(2), none, LE_U16);
    all &= are_numbers::<LeU24, A>(heap, alloc, Some(3), none, LE_U24);
    all &= are_numbers::<LeU32, A>(heap, alloc, Some(4), none, LE_U32);
    all &= are_numbers::<LeU48, A>(heap, alloc, Some(6), none, LE_U48);
    all &= are_numbers::<LeU56, A>(heap, alloc, Some(7), none, LE_U56);
    all & are_numbers::<LeU64, A>(heap, alloc, Some(8), none, LE_U64)
}

// And with one.
fn are_signed<A: Allocator + Copy>(heap: &Heap, alloc: A) -> bool {
    let none = Eaten::Nothing;
    let mut all = are_numbers::<i8, A>(heap, alloc, Some(1), none, I8);
    all &= are_numbers::<LeI16, A>(heap, alloc, Some(2), none, LE_I16);
    all &= are_numbers::<LeI24, A>(heap, alloc, Some(3), none, LE_I24);
    all &= are_numbers::<LeI32, A>(heap, alloc, Some(4), none, LE_I32);
    all &= are_numbers::<LeI56, A>(heap, alloc, Some(7), none, LE_I56);
    all & are_numbers::<LeI64, A>(heap, alloc, Some(8), none, LE_I64)
}

// Halves of a number, and numbers at the ends of their forms.
fn are_others<A: Allocator + Copy>(heap: &Heap, alloc: A) -> bool {
    let none = Eaten::Nothing;
    let mut all = are_numbers::<LeU32LowerHalf, A>(heap, alloc, Some(2), none, LOWER_HALVES);
    all &= are_numbers::<LeU32UpperHalf, A>(heap, alloc, Some(2), none, UPPER_HALVES);
    all &= are_numbers::<LenEnc, A>(heap, alloc, None, Eaten::First, LENENC);
    all & are_numbers::<VarLen, A>(heap, alloc, None, Eaten::All, VARLEN)
}

// The marks are read as zero.
const LONGER_LENENC: &[Spelled<LenEnc>] = &[
    (b"\x05", Ok(5), 1),
    (b"\xfc\x05\0", Ok(5), 3),
    (b"\xfd\x05\0\0", Ok(5), 4),
    (b"\xfe\x05\0\0\0\0\0\0\0", Ok(5), 9),
    (b"\xfb", Ok(0), 1),
    (b"\xfb\x01", Ok(0), 1),
    (b"\xff\xff\xff", Ok(0), 1),
];

const LARGE: Answer = Answer::Invalid(InvalidReason::VarLenTooLarge);

const LONG: Answer = Answer::Invalid(InvalidReason::VarLenTooLong);

const EOF: Answer = Answer::UnexpectedEof;

const LONGER_VARLEN: &[Spelled<VarLen>] = &[
    (b"\x80\0", Ok(0), 2),
    (b"\x85\x80\0", Ok(5), 3),
    (b"\x85\x80\x80\0", Ok(5), 4),
    (b"\x80\x80\x80\x80\0", Ok(0), 5),
    (b"\xff\xff\xff\xff\0", Ok(268435455), 5),
    // Too large.
    (b"\xff\xff\xff\xff\x1f\xaa", Err(LARGE), 1),
    (b"\xff\xff\xff\xff\x10\xaa", Err(LARGE), 1),
    (b"\x80\x80\x80\x80\x10\xaa", Err(LARGE), 1),
    (b"\x80\x80\x80\x80\x7f\xaa", Err(LARGE), 1),
    // Whatever the five groups come to.
    (b"\x80\x80\x80\x80\x80", Err(LONG), 0),
    (b"\x80\x80\x80\x80\x80\0", Err(LONG), 1),
    (b"\xff\xff\xff\xff\xff\x01", Err(LONG), 1),
    (b"\x81\x80\x80\x80\x80\x80\x80", Err(LONG), 2),
    // One that ends early is eaten.
    (b"", Err(EOF), 0),
    (b"\xff", Err(EOF), 0),
    (b"\xff\x80", Err(EOF), 0),
    (b"\xff\x80\xff", Err(EOF), 0),
    (b"\xff\x80\xff\x80", Err(EOF), 0),
];

fn are_longer_or_none<A: Allocator + Copy>(heap: &Heap, alloc: A) -> bool {
    let mut all = are_spelled::<LenEnc, A>(heap, alloc, Eaten::First, LONGER_LENENC);
    all & are_spelled::<VarLen, A>(heap, alloc, Eaten::All, LONGER_VARLEN)
}

/// Whether numbers are written and read, and longer spellings of them are read or too long.
pub fn are_each<A: Allocator + Copy>(heap: &Heap, alloc: A) -> bool {
    let mut all = are_unsigned(heap, alloc);
    all &= are_signed(heap, alloc);
    all &= are_others(heap, alloc);
    all & are_longer_or_none(heap, alloc)
}
