//! Numbers of which the low bytes are written, the least significant byte first.
//!
//! <https://dev.mysql.com/doc/dev/mysql-server/latest/page_protocol_basic_dt_integers.html>

ghost use Rattle.std.specs.Prelude.{◌<◌, ◌^◌, ◌%◌, length, Some};
ghost use Rattle.std.specs.Int.{cast_unsigned, w32, w64};
ghost use Rattle.std.specs.Int.RustNames.{FitsSigned};
ghost use Rattle.wire_buf.specs.Numbers.{le_number, le_bytes, signed_number, signed_le_number};
ghost use Rattle.wire_buf.specs.NumberLemmas.{length-le_bytes};
ghost use Rattle.wire_repr.specs.Law.{ReadsFixed, size-is};
ghost use Rattle.wire_repr.specs.Numbers.{le_bytes-back_cut, signed_bytes-back_cut};

use std::alloc::Allocator;
use wire_buf::error::WireError;
use wire_buf::io::ParseBuf;
use wire_repr::append::append_le;
use wire_repr::int::IntRepr;

/// An `int<3>`: the low three bytes of a number.
///
/// <https://dev.mysql.com/doc/dev/mysql-server/latest/page_protocol_basic_dt_integers.html>
#[derive(Clone, Copy, Debug, PartialEq, Eq, PartialOrd, Ord, Hash, Default)]
pub struct LeU24;

impl IntRepr for LeU24 {
    const SIZE: Option<usize> = Some(3);

    type Primitive = u32;

    ghost SIZE = { Some 3 };

    ghost is_value = { λ val. val < 2 ^ 32 };

    ghost bytes = { λ val. le_bytes 3 val };

    ghost reads = { ReadsFixed 3 le_number };

    ghost kept = { λ val. val % 256 ^ 3 };

    fn serialize<A: Allocator>(val: u32, buf: &mut Vec<u8, A>) -> Result<(), WireError> {
        append_le(3, val as u64, buf)
    }

    fn deserialize(buf: &mut ParseBuf<'_>) -> Result<u32, WireError> {
        Ok(buf.eat_u24_le())
    }

    fn known(_: u32) {}

    ghost comes_back = { λ val rest value. le_bytes-back_cut 3 val rest };

    ghost of_size = { λ val size stated.
        size-is 3 size (length (le_bytes 3 val)) stated (length-le_bytes 3 val) };
}

/// An `int<6>`: the low six bytes of a number.
///
/// <https://dev.mysql.com/doc/dev/mysql-server/latest/page_protocol_basic_dt_integers.html>
#[derive(Clone, Copy, Debug, PartialEq, Eq, PartialOrd, Ord, Hash, Default)]
pub struct LeU48;

impl IntRepr for LeU48 {
    const SIZE: Option<usize> = Some(6);

    type Primitive = u64;

    ghost SIZE = { Some 6 };

    ghost is_value = { λ val. val < 2 ^ 64 };

    ghost bytes = { λ val. le_bytes 6 val };

    ghost reads = { ReadsFixed 6 le_number };

    ghost kept = { λ val. val % 256 ^ 6 };

    fn serialize<A: Allocator>(val: u64, buf: &mut Vec<u8, A>) -> Result<(), WireError> {
        append_le(6, val, buf)
    }

    fn deserialize(buf: &mut ParseBuf<'_>) -> Result<u64, WireError> {
        Ok(buf.eat_u48_le())
    }

    fn known(_: u64) {}

    ghost comes_back = { λ val rest value. le_bytes-back_cut 6 val rest };

    ghost of_size = { λ val size stated.
        size-is 6 size (length (le_bytes 6 val)) stated (length-le_bytes 6 val) };
}

/// Seven bytes: the low seven bytes of a number.
///
/// As the times of a transaction:
/// <https://dev.mysql.com/doc/dev/mysql-server/latest/classmysql_1_1binlog_1_1event_1_1Gtid__event.html>
#[derive(Clone, Copy, Debug, PartialEq, Eq, PartialOrd, Ord, Hash, Default)]
pub struct LeU56;

impl IntRepr for LeU56 {
    const SIZE: Option<usize> = Some(7);

    type Primitive = u64;

    ghost SIZE = { Some 7 };

    ghost is_value = { λ val. val < 2 ^ 64 };

    ghost bytes = { λ val. le_bytes 7 val };

    ghost reads = { ReadsFixed 7 le_number };

    ghost kept = { λ val. val % 256 ^ 7 };

    fn serialize<A: Allocator>(val: u64, buf: &mut Vec<u8, A>) -> Result<(), WireError> {
        append_le(7, val, buf)
    }

    fn deserialize(buf: &mut ParseBuf<'_>) -> Result<u64, WireError> {
        Ok(buf.eat_u56_le())
    }

    fn known(_: u64) {}

    ghost comes_back = { λ val rest value. le_bytes-back_cut 7 val rest };

    ghost of_size = { λ val size stated.
        size-is 7 size (length (le_bytes 7 val)) stated (length-le_bytes 7 val) };
}

/// An `int<3>` with a sign: the low three bytes of a number.
///
/// <https://dev.mysql.com/doc/dev/mysql-server/latest/page_protocol_basic_dt_integers.html>
#[derive(Clone, Copy, Debug, PartialEq, Eq, PartialOrd, Ord, Hash, Default)]
pub struct LeI24;

impl IntRepr for LeI24 {
    const SIZE: Option<usize> = Some(3);

    type Primitive = i32;

    ghost SIZE = { Some 3 };

    ghost is_value = { λ val. FitsSigned w32 val };

    ghost bytes = { λ val. le_bytes 3 (cast_unsigned w32 val) };

    ghost reads = { ReadsFixed 3 (signed_le_number 3) };

    ghost kept = { λ val. signed_number 3 (cast_unsigned w32 val % 256 ^ 3) };

    fn serialize<A: Allocator>(val: i32, buf: &mut Vec<u8, A>) -> Result<(), WireError> {
        append_le(3, val.cast_unsigned() as u64, buf)
    }

    fn deserialize(buf: &mut ParseBuf<'_>) -> Result<i32, WireError> {
        Ok(buf.eat_i24_le())
    }

    fn known(_: i32) {}

    ghost comes_back = { λ val rest value. signed_bytes-back_cut 3 (cast_unsigned w32 val) rest };

    ghost of_size = { λ val size stated.
        size-is 3 size (length (le_bytes 3 (cast_unsigned w32 val))) stated
        (length-le_bytes 3 (cast_unsigned w32 val)) };
}

/// Seven bytes with a sign: the low seven bytes of a number.
#[derive(Clone, Copy, Debug, PartialEq, Eq, PartialOrd, Ord, Hash, Default)]
pub struct LeI56;

impl IntRepr for LeI56 {
    const SIZE: Option<usize> = Some(7);

    type Primitive = i64;

    ghost SIZE = { Some 7 };

    ghost is_value = { λ val. FitsSigned w64 val };

    ghost bytes = { λ val. le_bytes 7 (cast_unsigned w64 val) };

    ghost reads = { ReadsFixed 7 (signed_le_number 7) };

    ghost kept = { λ val. signed_number 7 (cast_unsigned w64 val % 256 ^ 7) };

    fn serialize<A: Allocator>(val: i64, buf: &mut Vec<u8, A>) -> Result<(), WireError> {
        append_le(7, val.cast_unsigned(), buf)
    }

    fn deserialize(buf: &mut ParseBuf<'_>) -> Result<i64, WireError> {
        Ok(buf.eat_i56_le())
    }

    fn known(_: i64) {}

    ghost comes_back = { λ val rest value. signed_bytes-back_cut 7 (cast_unsigned w64 val) rest };

    ghost of_size = { λ val size stated.
        size-is 7 size (length (le_bytes 7 (cast_unsigned w64 val))) stated
        (length-le_bytes 7 (cast_unsigned w64 val)) };
}
