//! Length-encoded integers, and texts after their length, read from a buffer.
//!
//! <https://dev.mysql.com/doc/dev/mysql-server/latest/page_protocol_basic_dt_integers.html>
//! <https://dev.mysql.com/doc/dev/mysql-server/latest/page_protocol_basic_dt_strings.html>

ghost use Rattle.std.specs.Prelude.{option_map};
ghost use Rattle.wire_buf.specs.Spelling.{HoldsNumber, HoldsText, EatsSpelling, EatsText, ReadsNumber, ReadsText, IsFixed};
ghost use Rattle.wire_buf.specs.Lenenc.{IsLenencOrMark};

use crate::io::ParseBuf;

impl<'a> ParseBuf<'a> {
    /// Eats an `int<lenenc>`, of 1, 3, 4 or 9 bytes. A first byte of `fb` or `ff`, which begins
    /// none, is eaten as 0.
    pub fn eat_lenenc_int(&mut self) -> u64
        requires { HoldsNumber IsLenencOrMark self.old.0.now }
        ensures { EatsSpelling IsLenencOrMark self.old.0.now result self.new.0.now }
    {
        match self.eat_u8() {
            byte @ 0..=0xfa => byte as u64,
            0xfc => self.eat_u16_le() as u64,
            0xfd => self.eat_u24_le() as u64,
            0xfe => self.eat_u64_le(),
            0xfb | 0xff => 0,
        }
    }

    /// As `eat_lenenc_int`, where the integer is there. Where it is cut short, its first byte is
    /// eaten.
    pub fn checked_eat_lenenc_int(&mut self) -> Option<u64>
        ensures { ReadsNumber IsLenencOrMark 1 self.old.0.now result self.new.0.now }
    {
        let byte = self.checked_eat_u8()?;
        // Most are of one byte: one comparison for them, and no table of jumps.
        if byte < 0xfb {
            return Some(byte as u64);
        }
        match byte {
            0xfc => Some(self.checked_eat_u16_le()? as u64),
            0xfd => Some(self.checked_eat_u24_le()? as u64),
            0xfe => self.checked_eat_u64_le(),
            _ => Some(0),
        }
    }

    /// Eats a `string<lenenc>`: an `int<lenenc>`, and as many bytes as it says.
    pub fn eat_lenenc_str(&mut self) -> &'a [u8]
        requires { HoldsText IsLenencOrMark self.old.0.now }
        ensures { EatsText IsLenencOrMark self.old.0.now result.now self.new.0.now }
    {
        let len = self.eat_lenenc_int();
        self.eat(len as usize)
    }

    /// As `eat_lenenc_str`, where the text is there. Where it is cut short, its length is eaten,
    /// and where that is, as `checked_eat_lenenc_int` says.
    pub fn checked_eat_lenenc_str(&mut self) -> Option<&'a [u8]>
        ensures { ReadsText IsLenencOrMark 1 self.old.0.now (option_map (λ text. text.now) result)
            self.new.0.now }
    {
        let len = self.checked_eat_lenenc_int()?;
        self.checked_eat(len as usize)
    }

    /// Eats a text after one byte of length.
    pub fn eat_u8_str(&mut self) -> &'a [u8]
        requires { HoldsText (IsFixed 1) self.old.0.now }
        ensures { EatsText (IsFixed 1) self.old.0.now result.now self.new.0.now }
    {
        let len = self.eat_u8();
        self.eat(len as usize)
    }

    /// As `eat_u8_str`, where the text is there. Where it is cut short, its length is eaten.
    pub fn checked_eat_u8_str(&mut self) -> Option<&'a [u8]>
        ensures { ReadsText (IsFixed 1) 0 self.old.0.now (option_map (λ text. text.now) result)
            self.new.0.now }
    {
        let len = self.checked_eat_u8()?;
        self.checked_eat(len as usize)
    }

    /// Eats a text after four bytes of length, the least significant first.
    pub fn eat_u32_str(&mut self) -> &'a [u8]
        requires { HoldsText (IsFixed 4) self.old.0.now }
        ensures { EatsText (IsFixed 4) self.old.0.now result.now self.new.0.now }
    {
        let len = self.eat_u32_le();
        self.eat(len as usize)
    }

    /// As `eat_u32_str`, where the text is there. Where it is cut short, its length is eaten, and
    /// where that is, nothing.
    pub fn checked_eat_u32_str(&mut self) -> Option<&'a [u8]>
        ensures { ReadsText (IsFixed 4) 0 self.old.0.now (option_map (λ text. text.now) result)
            self.new.0.now }
    {
        let len = self.checked_eat_u32_le()?;
        self.checked_eat(len as usize)
    }
}
