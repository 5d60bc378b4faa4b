//! Numbers and texts over a reader.

ghost use Rattle.std.specs.Prelude.{◌≡◌, ◌+◌, ◌<◌, ◌^◌, ◌++◌, length, drop, OnOk, IfOk, IfErr, vec_len};
ghost use Rattle.std.specs.Io.KnownBytes.{Consumes};
ghost use Rattle.wire_buf.specs.Lenenc.{IsLenenc};
ghost use Rattle.wire_streams.specs.Streams.{ConsumesSpelling, ConsumesText, IsIoOrMemory, RefusesLenenc, RefusesText};

use byteorder::{LittleEndian, ReadBytesExt};
use std::alloc::Allocator;
use std::cmp::min;
use std::io::Read;
use wire_buf::error::{InvalidLengthEncodedInteger, WireError};

// How many bytes of a text room is asked for before they are read.
const ROOM_AT_A_TIME: u64 = 8192;

// Appends this many bytes of a reader to a text.
fn read_more<R: Read, A: Allocator>(
    reader: &mut R,
    text: &mut Vec<u8, A>,
    count: usize,
) -> Result<(), WireError>
    requires { vec_len text.old + count < 2 ^ 64 }
    ensures len { OnOk result (vec_len text.new ≡ vec_len text.old + count) }
    ensures bytes { OnOk result (text.new.items ≡ text.old.items
        ++ drop (vec_len text.old) text.new.items) }
    ensures read { OnOk result
        (Consumes (R.remaining reader.old) (R.remaining reader.new)
        (drop (vec_len text.old) text.new.items)) }
    ensures err { IfErr result IsIoOrMemory }
{
    let start = text.len();
    text.resize(start + count, 0)?;
    reader
        .read_exact(&mut text[start..])
        .map_err(WireError::Io)?;
    Ok(())
}

// Reads a text of this length.
fn read_text<R: Read, A: Allocator>(
    reader: &mut R,
    alloc: A,
    len: u64,
) -> Result<Vec<u8, A>, WireError>
    ensures len { IfOk result (λ text. length text.items ≡ len) }
    ensures read { IfOk result (λ text.
        Consumes (R.remaining reader.old) (R.remaining reader.new) text.items) }
    ensures err { IfErr result IsIoOrMemory }
{
    let mut text = Vec::new(alloc);
    let mut left = len;
    while left > 0 {
        let count = min(left, ROOM_AT_A_TIME);
        read_more(reader, &mut text, count as usize)?;
        left -= count;
    }
    Ok(text)
}

/// Reads MySQL's numbers and texts. `Io` is the reader's fault, the end of its input included.
pub trait ReadMysqlExt: ReadBytesExt {
    /// Reads an `int<lenenc>`, of 1, 3, 4 or 9 bytes. A first byte of `fb` or `ff` begins none: the
    /// answer is `Other` then, and this byte alone has been read.
    ///
    /// <https://dev.mysql.com/doc/dev/mysql-server/latest/page_protocol_basic_dt_integers.html>
    final fn read_lenenc_int(&mut self) -> Result<u64, WireError>
    where
        Self: Sized,
        ensures ok { IfOk result (λ n.
            ConsumesSpelling IsLenenc (Self.remaining self.old) n (Self.remaining self.new)) }
        ensures err { IfErr result (λ error.
            RefusesLenenc error (Self.remaining self.old) (Self.remaining self.new)) }
    {
        match self.read_u8().map_err(WireError::Io)? {
            byte @ 0..=0xfa => Ok(byte as u64),
            0xfc => {
                let n = self.read_u16::<LittleEndian>().map_err(WireError::Io)?;
                Ok(n as u64)
            }
            0xfd => {
                let n = self.read_u24::<LittleEndian>().map_err(WireError::Io)?;
                Ok(n as u64)
            }
            0xfe => {
                let n = self.read_u64::<LittleEndian>().map_err(WireError::Io)?;
                Ok(n)
            }
            0xfb | 0xff => Err(WireError::Other(InvalidLengthEncodedInteger)),
        }
    }

    /// Reads a `string<lenenc>`: an `int<lenenc>`, and as many bytes as it says. Room is asked for
    /// at most 8192 bytes before they are read, whatever length is declared. Where it is refused,
    /// the answer is `OutOfMemory`, and what was read of the text is gone.
    ///
    /// <https://dev.mysql.com/doc/dev/mysql-server/latest/page_protocol_basic_dt_strings.html>
    final fn read_lenenc_str<A: Allocator>(&mut self, alloc: A) -> Result<Vec<u8, A>, WireError>
    where
        Self: Sized,
        ensures ok { IfOk result (λ text.
            ConsumesText IsLenenc (Self.remaining self.old) text.items (Self.remaining self.new)) }
        ensures err { IfErr result (λ error.
            RefusesText error (Self.remaining self.old) (Self.remaining self.new)) }
    {
        let len = self.read_lenenc_int()?;
        read_text(self, alloc, len)
    }
}

impl<T: ReadBytesExt> ReadMysqlExt for T {}
