//! Numbers of a fixed size, the least significant byte first.
//!
//! <https://dev.mysql.com/doc/dev/mysql-server/latest/page_protocol_basic_dt_integers.html>

ghost use Rattle.std.specs.Prelude.{◌<◌, ◌^◌, ◌∷◌, [], length, refl, Some};
ghost use Rattle.std.specs.Int.{cast_unsigned, w8, w16, w32, w64};
ghost use Rattle.std.specs.Int.RustNames.{FitsSigned};
ghost use Rattle.wire_buf.specs.Numbers.{le_number, le_bytes, signed_le_number};
ghost use Rattle.wire_buf.specs.NumberLemmas.{length-le_bytes};
ghost use Rattle.wire_repr.specs.Law.{ReadsFixed, size-is};
ghost use Rattle.wire_repr.specs.Numbers.{byte-back, le_bytes-back, signed_bytes-back};
ghost use Rattle.wire_repr.specs.SignedNumbers.{signed_1, signed_2, signed_4, signed_8};

use super::IntRepr;
use crate::append::{append_byte, append_le};
use std::alloc::Allocator;
use wire_buf::error::WireError;
use wire_buf::io::ParseBuf;

/// An `int<1>`.
impl IntRepr for u8 {
    const SIZE: Option<usize> = Some(1);

    type Primitive = u8;

    ghost SIZE = { Some 1 };

    ghost is_value = { λ val. val < 2 ^ 8 };

    ghost bytes = { λ val. val ∷ [] };

    ghost reads = { ReadsFixed 1 le_number };

    ghost kept = { λ val. val };

    fn serialize<A: Allocator>(val: u8, buf: &mut Vec<u8, A>) -> Result<(), WireError> {
        append_byte(val, buf)
    }

    fn deserialize(buf: &mut ParseBuf<'_>) -> Result<u8, WireError> {
        Ok(buf.eat_u8())
    }

    fn known(_: u8) {}

    ghost comes_back = { λ val rest value. byte-back val rest };

    ghost of_size = { λ val size stated. size-is 1 size (length (val ∷ [])) stated refl };
}

/// An `int<1>` with a sign.
impl IntRepr for i8 {
    const SIZE: Option<usize> = Some(1);

    type Primitive = i8;

    ghost SIZE = { Some 1 };

    ghost is_value = { λ val. FitsSigned w8 val };

    ghost bytes = { λ val. le_bytes 1 (cast_unsigned w8 val) };

    ghost reads = { ReadsFixed 1 (signed_le_number 1) };

    ghost kept = { λ val. val };

    fn serialize<A: Allocator>(val: i8, buf: &mut Vec<u8, A>) -> Result<(), WireError> {
        append_le(1, val.cast_unsigned() as u64, buf)
    }

    fn deserialize(buf: &mut ParseBuf<'_>) -> Result<i8, WireError> {
        Ok(buf.eat_i8())
    }

    fn known(_: i8) {}

    ghost comes_back = { λ val rest value.
        signed_bytes-back 1 (cast_unsigned w8 val) val rest (signed_1 val value).0
        (signed_1 val value).1 };

    ghost of_size = { λ val size stated.
        size-is 1 size (length (le_bytes 1 (cast_unsigned w8 val))) stated
        (length-le_bytes 1 (cast_unsigned w8 val)) };
}

/// An `int<2>`.
///
/// <https://dev.mysql.com/doc/dev/mysql-server/latest/page_protocol_basic_dt_integers.html>
#[derive(Clone, Copy, Debug, PartialEq, Eq, PartialOrd, Ord, Hash, Default)]
pub struct LeU16;

impl IntRepr for LeU16 {
    const SIZE: Option<usize> = Some(2);

    type Primitive = u16;

    ghost SIZE = { Some 2 };

    ghost is_value = { λ val. val < 2 ^ 16 };

    ghost bytes = { λ val. le_bytes 2 val };

    ghost reads = { ReadsFixed 2 le_number };

    ghost kept = { λ val. val };

    fn serialize<A: Allocator>(val: u16, buf: &mut Vec<u8, A>) -> Result<(), WireError> {
        append_le(2, val as u64, buf)
    }

    fn deserialize(buf: &mut ParseBuf<'_>) -> Result<u16, WireError> {
        Ok(buf.eat_u16_le())
    }

    fn known(_: u16) {}

    ghost comes_back = { λ val rest value. le_bytes-back 2 val rest value };

    ghost of_size = { λ val size stated.
        size-is 2 size (length (le_bytes 2 val)) stated (length-le_bytes 2 val) };
}

/// An `int<4>`.
///
/// <https://dev.mysql.com/doc/dev/mysql-server/latest/page_protocol_basic_dt_integers.html>
#[derive(Clone, Copy, Debug, PartialEq, Eq, PartialOrd, Ord, Hash, Default)]
pub struct LeU32;

impl IntRepr for LeU32 {
    const SIZE: Option<usize> = Some(4);

    type Primitive = u32;

    ghost SIZE = { Some 4 };

    ghost is_value = { λ val. val < 2 ^ 32 };

    ghost bytes = { λ val. le_bytes 4 val };

    ghost reads = { ReadsFixed 4 le_number };

    ghost kept = { λ val. val };

    fn serialize<A: Allocator>(val: u32, buf: &mut Vec<u8, A>) -> Result<(), WireError> {
        append_le(4, val as u64, buf)
    }

    fn deserialize(buf: &mut ParseBuf<'_>) -> Result<u32, WireError> {
        Ok(buf.eat_u32_le())
    }

    fn known(_: u32) {}

    ghost comes_back = { λ val rest value. le_bytes-back 4 val rest value };

    ghost of_size = { λ val size stated.
        size-is 4 size (length (le_bytes 4 val)) stated (length-le_bytes 4 val) };
}

/// An `int<8>`.
///
/// <https://dev.mysql.com/doc/dev/mysql-server/latest/page_protocol_basic_dt_integers.html>
#[derive(Clone, Copy, Debug, PartialEq, Eq, PartialOrd, Ord, Hash, Default)]
pub struct LeU64;

impl IntRepr for LeU64 {
    const SIZE: Option<usize> = Some(8);

    type Primitive = u64;

    ghost SIZE = { Some 8 };

    ghost is_value = { λ val. val < 2 ^ 64 };

    ghost bytes = { λ val. le_bytes 8 val };

    ghost reads = { ReadsFixed 8 le_number };

    ghost kept = { λ val. val };

    fn serialize<A: Allocator>(val: u64, buf: &mut Vec<u8, A>) -> Result<(), WireError> {
        append_le(8, val, buf)
    }

    fn deserialize(buf: &mut ParseBuf<'_>) -> Result<u64, WireError> {
        Ok(buf.eat_u64_le())
    }

    fn known(_: u64) {}

    ghost comes_back = { λ val rest value. le_bytes-back 8 val rest value };

    ghost of_size = { λ val size stated.
        size-is 8 size (length (le_bytes 8 val)) stated (length-le_bytes 8 val) };
}

/// An `int<2>` with a sign.
///
/// <https://dev.mysql.com/doc/dev/mysql-server/latest/page_protocol_basic_dt_integers.html>
#[derive(Clone, Copy, Debug, PartialEq, Eq, PartialOrd, Ord, Hash, Default)]
pub struct LeI16;

impl IntRepr for LeI16 {
    const SIZE: Option<usize> = Some(2);

    type Primitive = i16;

    ghost SIZE = { Some 2 };

    ghost is_value = { λ val. FitsSigned w16 val };

    ghost bytes = { λ val. le_bytes 2 (cast_unsigned w16 val) };

    ghost reads = { ReadsFixed 2 (signed_le_number 2) };

    ghost kept = { λ val. val };

    fn serialize<A: Allocator>(val: i16, buf: &mut Vec<u8, A>) -> Result<(), WireError> {
        append_le(2, val.cast_unsigned() as u64, buf)
    }

    fn deserialize(buf: &mut ParseBuf<'_>) -> Result<i16, WireError> {
        Ok(buf.eat_i16_le())
    }

    fn known(_: i16) {}

    ghost comes_back = { λ val rest value.
        signed_bytes-back 2 (cast_unsigned w16 val) val rest (signed_2 val value).0
        (signed_2 val value).1 };

    ghost of_size = { λ val size stated.
        size-is 2 size (length (le_bytes 2 (cast_unsigned w16 val))) stated
        (length-le_bytes 2 (cast_unsigned w16 val)) };
}

/// An `int<4>` with a sign.
///
/// <https://dev.mysql.com/doc/dev/mysql-server/latest/page_protocol_basic_dt_integers.html>
#[derive(Clone, Copy, Debug, PartialEq, Eq, PartialOrd, Ord, Hash, Default)]
pub struct LeI32;

impl IntRepr for LeI32 {
    const SIZE: Option<usize> = Some(4);

    type Primitive = i32;

    ghost SIZE = { Some 4 };

    ghost is_value = { λ val. FitsSigned w32 val };

    ghost bytes = { λ val. le_bytes 4 (cast_unsigned w32 val) };

    ghost reads = { ReadsFixed 4 (signed_le_number 4) };

    ghost kept = { λ val. val };

    fn serialize<A: Allocator>(val: i32, buf: &mut Vec<u8, A>) -> Result<(), WireError> {
        append_le(4, val.cast_unsigned() as u64, buf)
    }

    fn deserialize(buf: &mut ParseBuf<'_>) -> Result<i32, WireError> {
        Ok(buf.eat_i32_le())
    }

    fn known(_: i32) {}

    ghost comes_back = { λ val rest value.
        signed_bytes-back 4 (cast_unsigned w32 val) val rest (signed_4 val value).0
        (signed_4 val value).1 };

    ghost of_size = { λ val size stated.
        size-is 4 size (length (le_bytes 4 (cast_unsigned w32 val))) stated
        (length-le_bytes 4 (cast_unsigned w32 val)) };
}

/// An `int<8>` with a sign.
///
/// <https://dev.mysql.com/doc/dev/mysql-server/latest/page_protocol_basic_dt_integers.html>
#[derive(Clone, Copy, Debug, PartialEq, Eq, PartialOrd, Ord, Hash, Default)]
pub struct LeI64;

impl IntRepr for LeI64 {
    const SIZE: Option<usize> = Some(8);

    type Primitive = i64;

    ghost SIZE = { Some 8 };

    ghost is_value = { λ val. FitsSigned w64 val };

    ghost bytes = { λ val. le_bytes 8 (cast_unsigned w64 val) };

    ghost reads = { ReadsFixed 8 (signed_le_number 8) };

    ghost kept = { λ val. val };

    fn serialize<A: Allocator>(val: i64, buf: &mut Vec<u8, A>) -> Result<(), WireError> {
        append_le(8, val.cast_unsigned(), buf)
    }

    fn deserialize(buf: &mut ParseBuf<'_>) -> Result<i64, WireError> {
        Ok(buf.eat_i64_le())
    }

    fn known(_: i64) {}

    ghost comes_back = { λ val rest value.
        signed_bytes-back 8 (cast_unsigned w64 val) val rest (signed_8 val value).0
        (signed_8 val value).1 };

    ghost of_size = { λ val size stated.
        size-is 8 size (length (le_bytes 8 (cast_unsigned w64 val))) stated
        (length-le_bytes 8 (cast_unsigned w64 val)) };
}
