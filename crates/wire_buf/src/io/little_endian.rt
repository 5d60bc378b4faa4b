//! Numbers read from a buffer, the least significant byte first. MySQL calls those of 1, 2, 3, 4, 6
//! and 8 bytes `int<1>` to `int<8>`.
//!
//! <https://dev.mysql.com/doc/dev/mysql-server/latest/page_protocol_basic_dt_integers.html>

ghost use Rattle.std.specs.Prelude.{◌≤◌, length};
ghost use Rattle.wire_buf.specs.Numbers.{le_number, signed_le_number};
ghost use Rattle.wire_buf.specs.Reading.{Eats, EatsIfThere};

use crate::io::ParseBuf;
use byteorder::{ByteOrder, LittleEndian};

impl<'a> ParseBuf<'a> {
    /// Eats an `int<1>`.
    pub fn eat_u8(&mut self) -> u8
        requires { 1 ≤ length self.old.0.now }
        ensures { Eats 1 le_number self.old.0.now result self.new.0.now }
    {
        self.eat(1)[0]
    }

    /// As `eat_u8`, where the byte is there.
    pub fn checked_eat_u8(&mut self) -> Option<u8>
        ensures { EatsIfThere 1 le_number self.old.0.now result self.new.0.now }
    {
        if self.len() >= 1 {
            Some(self.eat_u8())
        } else {
            None
        }
    }

    /// Eats an `int<1>` with a sign.
    pub fn eat_i8(&mut self) -> i8
        requires { 1 ≤ length self.old.0.now }
        ensures { Eats 1 (signed_le_number 1) self.old.0.now result self.new.0.now }
    {
        self.eat_u8().cast_signed()
    }

    /// As `eat_i8`, where the byte is there.
    pub fn checked_eat_i8(&mut self) -> Option<i8>
        ensures { EatsIfThere 1 (signed_le_number 1) self.old.0.now result self.new.0.now }
    {
        if self.len() >= 1 {
            Some(self.eat_i8())
        } else {
            None
        }
    }

    /// Eats an `int<2>`.
    pub fn eat_u16_le(&mut self) -> u16
        requires { 2 ≤ length self.old.0.now }
        ensures { Eats 2 le_number self.old.0.now result self.new.0.now }
    {
        LittleEndian::read_u16(self.eat(2))
    }

    /// As `eat_u16_le`, where the bytes are there.
    pub fn checked_eat_u16_le(&mut self) -> Option<u16>
        ensures { EatsIfThere 2 le_number self.old.0.now result self.new.0.now }
    {
        if self.len() >= 2 {
            Some(self.eat_u16_le())
        } else {
            None
        }
    }

    /// Eats an `int<2>` with a sign.
    pub fn eat_i16_le(&mut self) -> i16
        requires { 2 ≤ length self.old.0.now }
        ensures { Eats 2 (signed_le_number 2) self.old.0.now result self.new.0.now }
    {
        self.eat_u16_le().cast_signed()
    }

    /// As `eat_i16_le`, where the bytes are there.
    pub fn checked_eat_i16_le(&mut self) -> Option<i16>
        ensures { EatsIfThere 2 (signed_le_number 2) self.old.0.now result self.new.0.now }
    {
        if self.len() >= 2 {
            Some(self.eat_i16_le())
        } else {
            None
        }
    }

    /// Eats an `int<3>`.
    pub fn eat_u24_le(&mut self) -> u32
        requires { 3 ≤ length self.old.0.now }
        ensures { Eats 3 le_number self.old.0.now result self.new.0.now }
    {
        LittleEndian::read_u24(self.eat(3))
    }

    /// As `eat_u24_le`, where the bytes are there.
    pub fn checked_eat_u24_le(&mut self) -> Option<u32>
        ensures { EatsIfThere 3 le_number self.old.0.now result self.new.0.now }
    {
        if self.len() >= 3 {
            Some(self.eat_u24_le())
        } else {
            None
        }
    }

    /// Eats an `int<3>` with a sign.
    pub fn eat_i24_le(&mut self) -> i32
        requires { 3 ≤ length self.old.0.now }
        ensures { Eats 3 (signed_le_number 3) self.old.0.now result self.new.0.now }
    {
        LittleEndian::read_i24(self.eat(3))
    }

    /// As `eat_i24_le`, where the bytes are there.
    pub fn checked_eat_i24_le(&mut self) -> Option<i32>
        ensures { EatsIfThere 3 (signed_le_number 3) self.old.0.now result self.new.0.now }
    {
        if self.len() >= 3 {
            Some(self.eat_i24_le())
        } else {
            None
        }
    }

    /// Eats an `int<4>`.
    pub fn eat_u32_le(&mut self) -> u32
        requires { 4 ≤ length self.old.0.now }
        ensures { Eats 4 le_number self.old.0.now result self.new.0.now }
    {
        LittleEndian::read_u32(self.eat(4))
    }

    /// As `eat_u32_le`, where the bytes are there.
    pub fn checked_eat_u32_le(&mut self) -> Option<u32>
        ensures { EatsIfThere 4 le_number self.old.0.now result self.new.0.now }
    {
        if self.len() >= 4 {
            Some(self.eat_u32_le())
        } else {
            None
        }
    }

    /// Eats an `int<4>` with a sign.
    pub fn eat_i32_le(&mut self) -> i32
        requires { 4 ≤ length self.old.0.now }
        ensures { Eats 4 (signed_le_number 4) self.old.0.now result self.new.0.now }
    {
        self.eat_u32_le().cast_signed()
    }

    /// As `eat_i32_le`, where the bytes are there.
    pub fn checked_eat_i32_le(&mut self) -> Option<i32>
        ensures { EatsIfThere 4 (signed_le_number 4) self.old.0.now result self.new.0.now }
    {
        if self.len() >= 4 {
            Some(self.eat_i32_le())
        } else {
            None
        }
    }

    /// Eats an unsigned number of five bytes, the least significant first.
    pub fn eat_u40_le(&mut self) -> u64
        requires { 5 ≤ length self.old.0.now }
        ensures { Eats 5 le_number self.old.0.now result self.new.0.now }
    {
        LittleEndian::read_uint(self.eat(5), 5)
    }

    /// As `eat_u40_le`, where the bytes are there.
    pub fn checked_eat_u40_le(&mut self) -> Option<u64>
        ensures { EatsIfThere 5 le_number self.old.0.now result self.new.0.now }
    {
        if self.len() >= 5 {
            Some(self.eat_u40_le())
        } else {
            None
        }
    }

    /// Eats a signed number of five bytes, the least significant first.
    pub fn eat_i40_le(&mut self) -> i64
        requires { 5 ≤ length self.old.0.now }
        ensures { Eats 5 (signed_le_number 5) self.old.0.now result self.new.0.now }
    {
        LittleEndian::read_int(self.eat(5), 5)
    }

    /// As `eat_i40_le`, where the bytes are there.
    pub fn checked_eat_i40_le(&mut self) -> Option<i64>
        ensures { EatsIfThere 5 (signed_le_number 5) self.old.0.now result self.new.0.now }
    {
        if self.len() >= 5 {
            Some(self.eat_i40_le())
        } else {
            None
        }
    }

    /// Eats an `int<6>`.
    pub fn eat_u48_le(&mut self) -> u64
        requires { 6 ≤ length self.old.0.now }
        ensures { Eats 6 le_number self.old.0.now result self.new.0.now }
    {
        LittleEndian::read_u48(self.eat(6))
    }

    /// As `eat_u48_le`, where the bytes are there.
    pub fn checked_eat_u48_le(&mut self) -> Option<u64>
        ensures { EatsIfThere 6 le_number self.old.0.now result self.new.0.now }
    {
        if self.len() >= 6 {
            Some(self.eat_u48_le())
        } else {
            None
        }
    }

    /// Eats an `int<6>` with a sign.
    pub fn eat_i48_le(&mut self) -> i64
        requires { 6 ≤ length self.old.0.now }
        ensures { Eats 6 (signed_le_number 6) self.old.0.now result self.new.0.now }
    {
        LittleEndian::read_i48(self.eat(6))
    }

    /// As `eat_i48_le`, where the bytes are there.
    pub fn checked_eat_i48_le(&mut self) -> Option<i64>
        ensures { EatsIfThere 6 (signed_le_number 6) self.old.0.now result self.new.0.now }
    {
        if self.len() >= 6 {
            Some(self.eat_i48_le())
        } else {
            None
        }
    }

    /// Eats an unsigned number of seven bytes, the least significant first.
    pub fn eat_u56_le(&mut self) -> u64
        requires { 7 ≤ length self.old.0.now }
        ensures { Eats 7 le_number self.old.0.now result self.new.0.now }
    {
        LittleEndian::read_uint(self.eat(7), 7)
    }

    /// As `eat_u56_le`, where the bytes are there.
    pub fn checked_eat_u56_le(&mut self) -> Option<u64>
        ensures { EatsIfThere 7 le_number self.old.0.now result self.new.0.now }
    {
        if self.len() >= 7 {
            Some(self.eat_u56_le())
        } else {
            None
        }
    }

    /// Eats a signed number of seven bytes, the least significant first.
    pub fn eat_i56_le(&mut self) -> i64
        requires { 7 ≤ length self.old.0.now }
        ensures { Eats 7 (signed_le_number 7) self.old.0.now result self.new.0.now }
    {
        LittleEndian::read_int(self.eat(7), 7)
    }

    /// As `eat_i56_le`, where the bytes are there.
    pub fn checked_eat_i56_le(&mut self) -> Option<i64>
        ensures { EatsIfThere 7 (signed_le_number 7) self.old.0.now result self.new.0.now }
    {
        if self.len() >= 7 {
            Some(self.eat_i56_le())
        } else {
            None
        }
    }

    /// Eats an `int<8>`.
    pub fn eat_u64_le(&mut self) -> u64
        requires { 8 ≤ length self.old.0.now }
        ensures { Eats 8 le_number self.old.0.now result self.new.0.now }
    {
        LittleEndian::read_u64(self.eat(8))
    }

    /// As `eat_u64_le`, where the bytes are there.
    pub fn checked_eat_u64_le(&mut self) -> Option<u64>
        ensures { EatsIfThere 8 le_number self.old.0.now result self.new.0.now }
    {
        if self.len() >= 8 {
            Some(self.eat_u64_le())
        } else {
            None
        }
    }

    /// Eats an `int<8>` with a sign.
    pub fn eat_i64_le(&mut self) -> i64
        requires { 8 ≤ length self.old.0.now }
        ensures { Eats 8 (signed_le_number 8) self.old.0.now result self.new.0.now }
    {
        self.eat_u64_le().cast_signed()
    }

    /// As `eat_i64_le`, where the bytes are there.
    pub fn checked_eat_i64_le(&mut self) -> Option<i64>
        ensures { EatsIfThere 8 (signed_le_number 8) self.old.0.now result self.new.0.now }
    {
        if self.len() >= 8 {
            Some(self.eat_i64_le())
        } else {
            None
        }
    }

    /// Eats an unsigned number of sixteen bytes, the least significant first.
    pub fn eat_u128_le(&mut self) -> u128
        requires { 16 ≤ length self.old.0.now }
        ensures { Eats 16 le_number self.old.0.now result self.new.0.now }
    {
        LittleEndian::read_u128(self.eat(16))
    }

    /// As `eat_u128_le`, where the bytes are there.
    pub fn checked_eat_u128_le(&mut self) -> Option<u128>
        ensures { EatsIfThere 16 le_number self.old.0.now result self.new.0.now }
    {
        if self.len() >= 16 {
            Some(self.eat_u128_le())
        } else {
            None
        }
    }

    /// Eats a signed number of sixteen bytes, the least significant first.
    pub fn eat_i128_le(&mut self) -> i128
        requires { 16 ≤ length self.old.0.now }
        ensures { Eats 16 (signed_le_number 16) self.old.0.now result self.new.0.now }
    {
        self.eat_u128_le().cast_signed()
    }

    /// As `eat_i128_le`, where the bytes are there.
    pub fn checked_eat_i128_le(&mut self) -> Option<i128>
        ensures { EatsIfThere 16 (signed_le_number 16) self.old.0.now result self.new.0.now }
    {
        if self.len() >= 16 {
            Some(self.eat_i128_le())
        } else {
            None
        }
    }
}
