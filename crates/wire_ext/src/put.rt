//! Numbers and texts put into a buffer.

ghost use Rattle.std.specs.Prelude.{◌≡◌, ◌+◌, ◌≤◌, ◌++◌, ◌∷◌, [], length, take, OnErr, OnOk, IfErr};
ghost use Rattle.std.specs.Int.{cast_unsigned, w32, w64};
ghost use Rattle.bytes.specs.Filled.{UsesSpare};
ghost use Rattle.wire_buf.specs.declared.error.WireError.TheVariants.{OutOfMemory};
ghost use Rattle.wire_buf.specs.Numbers.{le_bytes};
ghost use Rattle.wire_buf.specs.Spelling.{IsShortest};
ghost use Rattle.wire_buf.specs.Lenenc.{IsLenenc, IsLenencOrMark, lenenc_bytes};
ghost use Rattle.wire_ext.specs.Texts.{PutsText, u8_max, u32_max};

use crate::spelling::{four_bytes, nine_bytes, three_bytes};
use crate::text::{first_bytes, longest_u8_str, longest_u32_str};
use bytes::BufMut;
use std::alloc::AllocError;
use wire_buf::error::WireError;

// Puts the spelling (the encoding) of a length-encoded integer, in one put.
#[inline(always)]
fn put_spelling<B: BufMut>(buf: &mut B, n: u64) -> Result<(), AllocError>
    ensures ok { OnOk result (B.written buf.new ≡ B.written buf.old ++ lenenc_bytes n) }
    ensures err { OnErr result (B.written buf.new ≡ B.written buf.old) }
    ensures spare { UsesSpare result (B.spare buf.old) (B.spare buf.new) (length (lenenc_bytes n)) }
{
    if n < 251 {
        buf.put_u8(n as u8)
    } else if n < 65_536 {
        buf.put_slice(&three_bytes(n))
    } else if n < 16_777_216 {
        buf.put_slice(&four_bytes(n))
    } else {
        buf.put_slice(&nine_bytes(n))
    }
}

/// Puts MySQL's numbers and texts (byte strings) at the end of a buffer. A refusal is
/// `OutOfMemory`, and comes only where the buffer has too little room and can't grow. A number is
/// put whole or not at all. A text that is refused leaves nothing, or its length alone.
pub trait BufMutExt: BufMut {
    /// Puts an `int<lenenc>`: 1, 3, 4 or 9 bytes, as few as hold the number.
    ///
    /// <https://dev.mysql.com/doc/dev/mysql-server/latest/page_protocol_basic_dt_integers.html>
    // As a call it would hand its `Result`, which has room for an `io::Error`, back through memory:
    // that takes longer than the put.
    #[inline(always)]
    final fn put_lenenc_int(&mut self, n: u64) -> Result<(), WireError>
    where
        Self: Sized,
        ensures ok { OnOk result (Self.written self.new ≡ Self.written self.old ++ lenenc_bytes n) }
        ensures err { IfErr result (λ error. (error ≡ OutOfMemory)
            × (Self.written self.new ≡ Self.written self.old)) }
        ensures spare { UsesSpare result (Self.spare self.old) (Self.spare self.new)
            (length (lenenc_bytes n)) }

        ensures shortest { IsShortest IsLenenc n (lenenc_bytes n) }
        ensures shortest_in_a_buffer { IsShortest IsLenencOrMark n (lenenc_bytes n) }
    {
        put_spelling(self, n)?;
        Ok(())
    }

    /// Puts a `string<lenenc>`: the text after its length as an `int<lenenc>`.
    ///
    /// <https://dev.mysql.com/doc/dev/mysql-server/latest/page_protocol_basic_dt_strings.html>
    #[inline(always)]
    final fn put_lenenc_str(&mut self, text: &[u8]) -> Result<(), WireError>
    where
        Self: Sized,
        ensures text { PutsText result (Self.written self.old) (Self.written self.new)
            (Self.spare self.old) (lenenc_bytes (length text.now)) text.now }
        ensures spare { OnOk result (Self.spare self.old
            ≤ Self.spare self.new + length (lenenc_bytes (length text.now) ++ text.now)) }
    {
        put_spelling(self, text.len() as u64)?;
        self.put_slice(text)?;
        Ok(())
    }

    /// Puts the low three bytes, the least significant first.
    final fn put_u24_le(&mut self, n: u32) -> Result<(), WireError>
    where
        Self: Sized,
        ensures ok { OnOk result (Self.written self.new ≡ Self.written self.old ++ le_bytes 3 n) }
        ensures err { IfErr result (λ error. (error ≡ OutOfMemory)
            × (Self.written self.new ≡ Self.written self.old)) }
        ensures spare { UsesSpare result (Self.spare self.old) (Self.spare self.new) 3 }
    {
        self.put_uint_le(n as u64, 3)?;
        Ok(())
    }

    /// Puts the low three bytes, the least significant first.
    final fn put_i24_le(&mut self, n: i32) -> Result<(), WireError>
    where
        Self: Sized,
        ensures ok { OnOk result (Self.written self.new ≡ Self.written self.old
            ++ le_bytes 3 (cast_unsigned w32 n)) }
        ensures err { IfErr result (λ error. (error ≡ OutOfMemory)
            × (Self.written self.new ≡ Self.written self.old)) }
        ensures spare { UsesSpare result (Self.spare self.old) (Self.spare self.new) 3 }
    {
        self.put_int_le(n as i64, 3)?;
        Ok(())
    }

    /// Puts the low six bytes, the least significant first.
    final fn put_u48_le(&mut self, n: u64) -> Result<(), WireError>
    where
        Self: Sized,
        ensures ok { OnOk result (Self.written self.new ≡ Self.written self.old ++ le_bytes 6 n) }
        ensures err { IfErr result (λ error. (error ≡ OutOfMemory)
            × (Self.written self.new ≡ Self.written self.old)) }
        ensures spare { UsesSpare result (Self.spare self.old) (Self.spare self.new) 6 }
    {
        self.put_uint_le(n, 6)?;
        Ok(())
    }

    /// Puts the low seven bytes, the least significant first.
    final fn put_u56_le(&mut self, n: u64) -> Result<(), WireError>
    where
        Self: Sized,
        ensures ok { OnOk result (Self.written self.new ≡ Self.written self.old ++ le_bytes 7 n) }
        ensures err { IfErr result (λ error. (error ≡ OutOfMemory)
            × (Self.written self.new ≡ Self.written self.old)) }
        ensures spare { UsesSpare result (Self.spare self.old) (Self.spare self.new) 7 }
    {
        self.put_uint_le(n, 7)?;
        Ok(())
    }

    /// Puts the low seven bytes, the least significant first.
    final fn put_i56_le(&mut self, n: i64) -> Result<(), WireError>
    where
        Self: Sized,
        ensures ok { OnOk result (Self.written self.new ≡ Self.written self.old
            ++ le_bytes 7 (cast_unsigned w64 n)) }
        ensures err { IfErr result (λ error. (error ≡ OutOfMemory)
            × (Self.written self.new ≡ Self.written self.old)) }
        ensures spare { UsesSpare result (Self.spare self.old) (Self.spare self.new) 7 }
    {
        self.put_int_le(n, 7)?;
        Ok(())
    }

    /// Puts a text after one byte of length. Of a text longer than 255 bytes the first 255 are
    /// put.
    final fn put_u8_str(&mut self, text: &[u8]) -> Result<(), WireError>
    where
        Self: Sized,
        ensures text { let cut = take u8_max text.now in
            PutsText result (Self.written self.old) (Self.written self.new) (Self.spare self.old)
            (le_bytes 1 (length cut)) cut }
        ensures spare { OnOk result
            (Self.spare self.old ≤ Self.spare self.new + (1 + length (take u8_max text.now))) }
    {
        let cut = first_bytes(text, longest_u8_str());
        self.put_u8(cut.len() as u8)?;
        self.put_slice(cut)?;
        Ok(())
    }

    /// Puts a text after four bytes of length, the least significant first. Of a text longer than
    /// 4294967295 bytes the first 4294967295 are put.
    final fn put_u32_str(&mut self, text: &[u8]) -> Result<(), WireError>
    where
        Self: Sized,
        ensures text { let cut = take u32_max text.now in
            PutsText result (Self.written self.old) (Self.written self.new) (Self.spare self.old)
            (le_bytes 4 (length cut)) cut }
        ensures spare { OnOk result
            (Self.spare self.old ≤ Self.spare self.new + (4 + length (take u32_max text.now))) }
    {
        let cut = first_bytes(text, longest_u32_str());
        self.put_u32_le(cut.len() as u32)?;
        self.put_slice(cut)?;
        Ok(())
    }
}

impl<T: BufMut> BufMutExt for T {}
