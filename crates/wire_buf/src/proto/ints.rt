//! Numbers of one, two, four and eight bytes as fields, the least significant byte first.

ghost use Rattle.std.specs.Prelude.{◌≡◌, ◌∷◌, ◌++◌, [], take, Ok, OnOk, IfErr};
ghost use Rattle.wire_buf.specs.declared.error.WireError.TheVariants.{OutOfMemory};
ghost use Rattle.wire_buf.specs.Numbers.{le_bytes, le_number};
ghost use Rattle.wire_buf.specs.Reading.{Answers, Through};

use super::{Fixed, HasSize, MyDeserialize, MySerialize};
use crate::error::WireError;
use crate::io::ParseBuf;
use std::alloc::Allocator;

/// An `int<1>`.
///
/// <https://dev.mysql.com/doc/dev/mysql-server/latest/page_protocol_basic_dt_integers.html>
impl MySerialize for u8 {
    ghost bytes = { λ n. n ∷ [] };

    fn serialize<A: Allocator>(&self, buf: &mut Vec<u8, A>) -> Result<(), WireError> {
        buf.extend_from_slice(&[*self])?;
        Ok(())
    }
}

impl HasSize for u8 {
    type Size = Fixed<1>;
}

impl<'de, A: Allocator + Copy> MyDeserialize<'de, A> for u8 {
    type Ctx = ();

    ghost reads = { λ _ input. Through (λ n. n) (Answers (Ok (le_number (take 1 input)), 1)) };

    fn deserialize(_: A, _: (), buf: &mut ParseBuf<'de>) -> Result<Self, WireError> {
        Ok(buf.eat_u8())
    }
}

/// An `int<2>`.
///
/// <https://dev.mysql.com/doc/dev/mysql-server/latest/page_protocol_basic_dt_integers.html>
impl MySerialize for u16 {
    ghost bytes = { λ n. le_bytes 2 n };

    fn serialize<A: Allocator>(&self, buf: &mut Vec<u8, A>) -> Result<(), WireError> {
        buf.extend_from_slice(&self.to_le_bytes())?;
        Ok(())
    }
}

impl HasSize for u16 {
    type Size = Fixed<2>;
}

impl<'de, A: Allocator + Copy> MyDeserialize<'de, A> for u16 {
    type Ctx = ();

    ghost reads = { λ _ input. Through (λ n. n) (Answers (Ok (le_number (take 2 input)), 2)) };

    fn deserialize(_: A, _: (), buf: &mut ParseBuf<'de>) -> Result<Self, WireError> {
        Ok(buf.eat_u16_le())
    }
}

/// An `int<4>`.
///
/// <https://dev.mysql.com/doc/dev/mysql-server/latest/page_protocol_basic_dt_integers.html>
impl MySerialize for u32 {
    ghost bytes = { λ n. le_bytes 4 n };

    fn serialize<A: Allocator>(&self, buf: &mut Vec<u8, A>) -> Result<(), WireError> {
        buf.extend_from_slice(&self.to_le_bytes())?;
        Ok(())
    }
}

impl HasSize for u32 {
    type Size = Fixed<4>;
}

impl<'de, A: Allocator + Copy> MyDeserialize<'de, A> for u32 {
    type Ctx = ();

    ghost reads = { λ _ input. Through (λ n. n) (Answers (Ok (le_number (take 4 input)), 4)) };

    fn deserialize(_: A, _: (), buf: &mut ParseBuf<'de>) -> Result<Self, WireError> {
        Ok(buf.eat_u32_le())
    }
}

/// An `int<8>`.
///
/// <https://dev.mysql.com/doc/dev/mysql-server/latest/page_protocol_basic_dt_integers.html>
impl MySerialize for u64 {
    ghost bytes = { λ n. le_bytes 8 n };

    fn serialize<A: Allocator>(&self, buf: &mut Vec<u8, A>) -> Result<(), WireError> {
        buf.extend_from_slice(&self.to_le_bytes())?;
        Ok(())
    }
}

impl HasSize for u64 {
    type Size = Fixed<8>;
}

impl<'de, A: Allocator + Copy> MyDeserialize<'de, A> for u64 {
    type Ctx = ();

    ghost reads = { λ _ input. Through (λ n. n) (Answers (Ok (le_number (take 8 input)), 8)) };

    fn deserialize(_: A, _: (), buf: &mut ParseBuf<'de>) -> Result<Self, WireError> {
        Ok(buf.eat_u64_le())
    }
}
