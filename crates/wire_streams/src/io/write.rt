//! Numbers and texts over a writer.

ghost use Rattle.std.specs.Prelude.{◌≡◌, ◌++◌, ◌-◌, ◌^◌, length, min, OnOk, IfOk, IfErr};
ghost use Rattle.std.specs.Io.KnownBytes.{Appends};
ghost use Rattle.wire_buf.specs.Spelling.{IsShortest};
ghost use Rattle.wire_buf.specs.Lenenc.{IsLenenc, IsLenencOrMark, lenenc_bytes};
ghost use Rattle.wire_streams.specs.Streams.{IsIo};

use byteorder::WriteBytesExt;
use wire_buf::error::WireError;
use wire_ext::spelling::{four_bytes, nine_bytes, three_bytes};

// Writes these bytes, in one write, and counts them.
fn write_all<W: WriteBytesExt>(writer: &mut W, bytes: &[u8]) -> Result<u64, WireError>
    ensures written { OnOk result
        (Appends (W.contents writer.old) (W.contents writer.new) bytes.now) }
    ensures count { IfOk result (λ count. count ≡ length bytes.now) }
    ensures err { IfErr result IsIo }
{
    writer.write_all(bytes).map_err(WireError::Io)?;
    Ok(bytes.len() as u64)
}

// Writes the spelling of a length-encoded integer, in one write, and counts its bytes.
fn write_spelling<W: WriteBytesExt>(writer: &mut W, n: u64) -> Result<u64, WireError>
    ensures written { OnOk result
        (Appends (W.contents writer.old) (W.contents writer.new) (lenenc_bytes n)) }
    ensures count { IfOk result (λ count. count ≡ length (lenenc_bytes n)) }
    ensures err { IfErr result IsIo }
{
    if n < 251 {
        write_all(writer, &[n as u8])
    } else if n < 65_536 {
        write_all(writer, &three_bytes(n))
    } else if n < 16_777_216 {
        write_all(writer, &four_bytes(n))
    } else {
        write_all(writer, &nine_bytes(n))
    }
}

/// Writes MySQL's numbers and texts, and answers how many bytes were written. `Io` is the writer's
/// fault; how much went out by then is not said.
pub trait WriteMysqlExt: WriteBytesExt {
    /// Writes an `int<lenenc>`: 1, 3, 4 or 9 bytes, as few as hold the number.
    ///
    /// <https://dev.mysql.com/doc/dev/mysql-server/latest/page_protocol_basic_dt_integers.html>
    final fn write_lenenc_int(&mut self, n: u64) -> Result<u64, WireError>
    where
        Self: Sized,
        ensures written { OnOk result
            (Appends (Self.contents self.old) (Self.contents self.new) (lenenc_bytes n)) }
        ensures count { IfOk result (λ count. count ≡ length (lenenc_bytes n)) }
        ensures err { IfErr result IsIo }

        ensures shortest { IsShortest IsLenenc n (lenenc_bytes n) }
        ensures shortest_in_a_buffer { IsShortest IsLenencOrMark n (lenenc_bytes n) }
    {
        write_spelling(self, n)
    }

    /// Writes a `string<lenenc>`: the text after its length as an `int<lenenc>`. A count past
    /// `u64::MAX` stays there.
    ///
    /// <https://dev.mysql.com/doc/dev/mysql-server/latest/page_protocol_basic_dt_strings.html>
    final fn write_lenenc_str(&mut self, text: &[u8]) -> Result<u64, WireError>
    where
        Self: Sized,
        ensures written { OnOk result
            (Appends (Self.contents self.old) (Self.contents self.new)
            (lenenc_bytes (length text.now) ++ text.now)) }
        ensures count { IfOk result (λ count. count
            ≡ min (length (lenenc_bytes (length text.now) ++ text.now)) (2 ^ 64 - 1)) }
        ensures err { IfErr result IsIo }
    {
        let len = text.len() as u64;
        let count = self.write_lenenc_int(len)?;
        self.write_all(text).map_err(WireError::Io)?;
        Ok(count.saturating_add(len))
    }
}

impl<T: WriteBytesExt> WriteMysqlExt for T {}
