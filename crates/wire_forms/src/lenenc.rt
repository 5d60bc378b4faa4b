//! Length-encoded integers.

ghost use Rattle.std.specs.Prelude.{◌≡◌, ◌<◌, ◌^◌, ◌++◌, OnOk, IfErr, None};
ghost use Rattle.wire_buf.specs.declared.error.WireError.TheVariants.{OutOfMemory};
ghost use Rattle.wire_buf.specs.Spelling.{IsShortest};
ghost use Rattle.wire_buf.specs.Lenenc.{IsLenencOrMark, lenenc_bytes};
ghost use Rattle.wire_forms.specs.Lenenc.{lenenc_bytes-back};
ghost use Rattle.wire_forms.specs.Spelled.{Leaves, NumberOrEof};

use std::alloc::Allocator;
use wire_buf::error::WireError;
use wire_buf::io::ParseBuf;
use wire_ext::BufMutExt;
use wire_repr::int::IntRepr;

/// An `int<lenenc>`: 1, 3, 4 or 9 bytes, as few as hold the number, and for texts this as their
/// length. A first byte of `fb` or `ff`, which begins none, is read as 0. `UnexpectedEof` leaves an
/// empty buffer, or has eaten the first byte of a number that is cut short.
///
/// <https://dev.mysql.com/doc/dev/mysql-server/latest/page_protocol_basic_dt_integers.html>
#[derive(Clone, Copy, Debug, PartialEq, Eq, PartialOrd, Ord, Hash, Default)]
pub struct LenEnc;

impl IntRepr for LenEnc {
    const SIZE: Option<usize> = None;

    type Primitive = u64;

    ghost SIZE = { None };

    ghost is_value = { λ val. val < 2 ^ 64 };

    ghost bytes = { lenenc_bytes };

    ghost reads = { Leaves (NumberOrEof IsLenencOrMark 1) };

    ghost kept = { λ val. val };

    fn serialize<A: Allocator>(val: u64, buf: &mut Vec<u8, A>) -> Result<(), WireError>
        ensures ok { OnOk result (buf.new.items ≡ buf.old.items ++ lenenc_bytes val) }
        ensures err { IfErr result (λ error. (error ≡ OutOfMemory)
            × (buf.new.items ≡ buf.old.items)) }
        ensures shortest { IsShortest IsLenencOrMark val (lenenc_bytes val) }
    {
        buf.put_lenenc_int(val)
    }

    fn deserialize(buf: &mut ParseBuf<'_>) -> Result<u64, WireError> {
        match buf.checked_eat_lenenc_int() {
            Some(number) => Ok(number),
            None => Err(WireError::UnexpectedEof),
        }
    }

    fn known(_: u64) {}

    ghost comes_back = { lenenc_bytes-back };

    ghost of_size = { λ val size stated. Prim.cc };
}
