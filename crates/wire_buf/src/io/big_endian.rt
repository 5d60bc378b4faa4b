//! Numbers read from a buffer, the most significant byte first.

ghost use Rattle.std.specs.Prelude.{◌≤◌, length};
ghost use Rattle.wire_buf.specs.Numbers.{be_number, signed_be_number};
ghost use Rattle.wire_buf.specs.Reading.{Eats, EatsIfThere};

use crate::io::ParseBuf;
use byteorder::{BigEndian, ByteOrder};

impl<'a> ParseBuf<'a> {
    /// Eats an unsigned number of two bytes, the most significant first.
    pub fn eat_u16_be(&mut self) -> u16
        requires { 2 ≤ length self.old.0.now }
        ensures { Eats 2 be_number self.old.0.now result self.new.0.now }
    {
        BigEndian::read_u16(self.eat(2))
    }

    /// As `eat_u16_be`, where the bytes are there.
    pub fn checked_eat_u16_be(&mut self) -> Option<u16>
        ensures { EatsIfThere 2 be_number self.old.0.now result self.new.0.now }
    {
        if self.len() >= 2 {
            Some(self.eat_u16_be())
        } else {
            None
        }
    }

    /// Eats a signed number of two bytes, the most significant first.
    pub fn eat_i16_be(&mut self) -> i16
        requires { 2 ≤ length self.old.0.now }
        ensures { Eats 2 (signed_be_number 2) self.old.0.now result self.new.0.now }
    {
        self.eat_u16_be().cast_signed()
    }

    /// As `eat_i16_be`, where the bytes are there.
    pub fn checked_eat_i16_be(&mut self) -> Option<i16>
        ensures { EatsIfThere 2 (signed_be_number 2) self.old.0.now result self.new.0.now }
    {
        if self.len() >= 2 {
            Some(self.eat_i16_be())
        } else {
            None
        }
    }

    /// Eats an unsigned number of three bytes, the most significant first.
    pub fn eat_u24_be(&mut self) -> u32
        requires { 3 ≤ length self.old.0.now }
        ensures { Eats 3 be_number self.old.0.now result self.new.0.now }
    {
        BigEndian::read_u24(self.eat(3))
    }

    /// As `eat_u24_be`, where the bytes are there.
    pub fn checked_eat_u24_be(&mut self) -> Option<u32>
        ensures { EatsIfThere 3 be_number self.old.0.now result self.new.0.now }
    {
        if self.len() >= 3 {
            Some(self.eat_u24_be())
        } else {
            None
        }
    }

    /// Eats a signed number of three bytes, the most significant first.
    pub fn eat_i24_be(&mut self) -> i32
        requires { 3 ≤ length self.old.0.now }
        ensures { Eats 3 (signed_be_number 3) self.old.0.now result self.new.0.now }
    {
        BigEndian::read_i24(self.eat(3))
    }

    /// As `eat_i24_be`, where the bytes are there.
    pub fn checked_eat_i24_be(&mut self) -> Option<i32>
        ensures { EatsIfThere 3 (signed_be_number 3) self.old.0.now result self.new.0.now }
    {
        if self.len() >= 3 {
            Some(self.eat_i24_be())
        } else {
            None
        }
    }

    /// Eats an unsigned number of four bytes, the most significant first.
    pub fn eat_u32_be(&mut self) -> u32
        requires { 4 ≤ length self.old.0.now }
        ensures { Eats 4 be_number self.old.0.now result self.new.0.now }
    {
        BigEndian::read_u32(self.eat(4))
    }

    /// As `eat_u32_be`, where the bytes are there.
    pub fn checked_eat_u32_be(&mut self) -> Option<u32>
        ensures { EatsIfThere 4 be_number self.old.0.now result self.new.0.now }
    {
        if self.len() >= 4 {
            Some(self.eat_u32_be())
        } else {
            None
        }
    }

    /// Eats a signed number of four bytes, the most significant first.
    pub fn eat_i32_be(&mut self) -> i32
        requires { 4 ≤ length self.old.0.now }
        ensures { Eats 4 (signed_be_number 4) self.old.0.now result self.new.0.now }
    {
        self.eat_u32_be().cast_signed()
    }

    /// As `eat_i32_be`, where the bytes are there.
    pub fn checked_eat_i32_be(&mut self) -> Option<i32>
        ensures { EatsIfThere 4 (signed_be_number 4) self.old.0.now result self.new.0.now }
    {
        if self.len() >= 4 {
            Some(self.eat_i32_be())
        } else {
            None
        }
    }

    /// Eats an unsigned number of five bytes, the most significant first.
    pub fn eat_u40_be(&mut self) -> u64
        requires { 5 ≤ length self.old.0.now }
        ensures { Eats 5 be_number self.old.0.now result self.new.0.now }
    {
        BigEndian::read_uint(self.eat(5), 5)
    }

    /// As `eat_u40_be`, where the bytes are there.
    pub fn checked_eat_u40_be(&mut self) -> Option<u64>
        ensures { EatsIfThere 5 be_number self.old.0.now result self.new.0.now }
    {
        if self.len() >= 5 {
            Some(self.eat_u40_be())
        } else {
            None
        }
    }

    /// Eats a signed number of five bytes, the most significant first.
    pub fn eat_i40_be(&mut self) -> i64
        requires { 5 ≤ length self.old.0.now }
        ensures { Eats 5 (signed_be_number 5) self.old.0.now result self.new.0.now }
    {
        BigEndian::read_int(self.eat(5), 5)
    }

    /// As `eat_i40_be`, where the bytes are there.
    pub fn checked_eat_i40_be(&mut self) -> Option<i64>
        ensures { EatsIfThere 5 (signed_be_number 5) self.old.0.now result self.new.0.now }
    {
        if self.len() >= 5 {
            Some(self.eat_i40_be())
        } else {
            None
        }
    }

    /// Eats an unsigned number of six bytes, the most significant first.
    pub fn eat_u48_be(&mut self) -> u64
        requires { 6 ≤ length self.old.0.now }
        ensures { Eats 6 be_number self.old.0.now result self.new.0.now }
    {
        BigEndian::read_u48(self.eat(6))
    }

    /// As `eat_u48_be`, where the bytes are there.
    pub fn checked_eat_u48_be(&mut self) -> Option<u64>
        ensures { EatsIfThere 6 be_number self.old.0.now result self.new.0.now }
    {
        if self.len() >= 6 {
            Some(self.eat_u48_be())
        } else {
            None
        }
    }

    /// Eats a signed number of six bytes, the most significant first.
    pub fn eat_i48_be(&mut self) -> i64
        requires { 6 ≤ length self.old.0.now }
        ensures { Eats 6 (signed_be_number 6) self.old.0.now result self.new.0.now }
    {
        BigEndian::read_i48(self.eat(6))
    }

    /// As `eat_i48_be`, where the bytes are there.
    pub fn checked_eat_i48_be(&mut self) -> Option<i64>
        ensures { EatsIfThere 6 (signed_be_number 6) self.old.0.now result self.new.0.now }
    {
        if self.len() >= 6 {
            Some(self.eat_i48_be())
        } else {
            None
        }
    }

    /// Eats an unsigned number of seven bytes, the most significant first.
    pub fn eat_u56_be(&mut self) -> u64
        requires { 7 ≤ length self.old.0.now }
        ensures { Eats 7 be_number self.old.0.now result self.new.0.now }
    {
        BigEndian::read_uint(self.eat(7), 7)
    }

    /// As `eat_u56_be`, where the bytes are there.
    pub fn checked_eat_u56_be(&mut self) -> Option<u64>
        ensures { EatsIfThere 7 be_number self.old.0.now result self.new.0.now }
    {
        if self.len() >= 7 {
            Some(self.eat_u56_be())
        } else {
            None
        }
    }

    /// Eats a signed number of seven bytes, the most significant first.
    pub fn eat_i56_be(&mut self) -> i64
        requires { 7 ≤ length self.old.0.now }
        ensures { Eats 7 (signed_be_number 7) self.old.0.now result self.new.0.now }
    {
        BigEndian::read_int(self.eat(7), 7)
    }

    /// As `eat_i56_be`, where the bytes are there.
    pub fn checked_eat_i56_be(&mut self) -> Option<i64>
        ensures { EatsIfThere 7 (signed_be_number 7) self.old.0.now result self.new.0.now }
    {
        if self.len() >= 7 {
            Some(self.eat_i56_be())
        } else {
            None
        }
    }

    /// Eats an unsigned number of eight bytes, the most significant first.
    pub fn eat_u64_be(&mut self) -> u64
        requires { 8 ≤ length self.old.0.now }
        ensures { Eats 8 be_number self.old.0.now result self.new.0.now }
    {
        BigEndian::read_u64(self.eat(8))
    }

    /// As `eat_u64_be`, where the bytes are there.
    pub fn checked_eat_u64_be(&mut self) -> Option<u64>
        ensures { EatsIfThere 8 be_number self.old.0.now result self.new.0.now }
    {
        if self.len() >= 8 {
            Some(self.eat_u64_be())
        } else {
            None
        }
    }

    /// Eats a signed number of eight bytes, the most significant first.
    pub fn eat_i64_be(&mut self) -> i64
        requires { 8 ≤ length self.old.0.now }
        ensures { Eats 8 (signed_be_number 8) self.old.0.now result self.new.0.now }
    {
        self.eat_u64_be().cast_signed()
    }

    /// As `eat_i64_be`, where the bytes are there.
    pub fn checked_eat_i64_be(&mut self) -> Option<i64>
        ensures { EatsIfThere 8 (signed_be_number 8) self.old.0.now result self.new.0.now }
    {
        if self.len() >= 8 {
            Some(self.eat_i64_be())
        } else {
            None
        }
    }

    /// Eats an unsigned number of sixteen bytes, the most significant first.
    pub fn eat_u128_be(&mut self) -> u128
        requires { 16 ≤ length self.old.0.now }
        ensures { Eats 16 be_number self.old.0.now result self.new.0.now }
    {
        BigEndian::read_u128(self.eat(16))
    }

    /// As `eat_u128_be`, where the bytes are there.
    pub fn checked_eat_u128_be(&mut self) -> Option<u128>
        ensures { EatsIfThere 16 be_number self.old.0.now result self.new.0.now }
    {
        if self.len() >= 16 {
            Some(self.eat_u128_be())
        } else {
            None
        }
    }

    /// Eats a signed number of sixteen bytes, the most significant first.
    pub fn eat_i128_be(&mut self) -> i128
        requires { 16 ≤ length self.old.0.now }
        ensures { Eats 16 (signed_be_number 16) self.old.0.now result self.new.0.now }
    {
        self.eat_u128_be().cast_signed()
    }

    /// As `eat_i128_be`, where the bytes are there.
    pub fn checked_eat_i128_be(&mut self) -> Option<i128>
        ensures { EatsIfThere 16 (signed_be_number 16) self.old.0.now result self.new.0.now }
    {
        if self.len() >= 16 {
            Some(self.eat_i128_be())
        } else {
            None
        }
    }
}
