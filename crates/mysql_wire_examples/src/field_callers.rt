//! Callers of the fields of a payload, as CALLING.md shows them.

ghost use Rattle.mysql_wire.specs.Lenenc.{lenenc_bytes, IsLenencOrMark};
ghost use Rattle.mysql_wire.specs.Numbers.{le_number, le_bytes};
ghost use Rattle.mysql_wire.specs.RawTexts.{IsBorrowedText};
ghost use Rattle.mysql_wire.specs.Spelling.{EatsText};
ghost use Rattle.mysql_wire_examples.specs.OkPackets.{IsOk};
ghost use Rattle.std.specs.Io.KnownBytes.{Appends};
ghost use Rattle.std.specs.Prelude.{◌≡◌, ◌++◌, length, OnOk, IfOk, IfErr, ℕ, List, drop, IfSome, ◌≤◌, ◌↔◌, take, IsSome, IsNone};

use bytes::BufMut;
use mysql_wire::io::{BufMutExt, ParseBuf, WireError, WriteMysqlExt};
use mysql_wire::misc::raw::bytes::{LenEnc, RawBytes};
use mysql_wire::misc::raw::int::{LeU16, RawInt};
use mysql_wire::proto::MySerialize;
use std::alloc::Global;

/// What the server says at the end of rows.
#[derive(Clone, Copy, PartialEq, Eq)]
pub struct EofPacket {
    pub warnings: u16,
    pub status_flags: u16,
}

/// Reads an `EOF_Packet`: `fe`, the number of warnings and the status flags, two bytes each.
pub fn read_eof(payload: &[u8]) -> Option<EofPacket>
    ensures there { IsSome result
        ↔ ((5 ≤ length payload.now) × (le_number (take 1 payload.now) ≡ 0xfe)) }
    ensures warnings { IfSome result
        (λ packet. packet.warnings ≡ le_number (take 2 (drop 1 payload.now))) }
    ensures flags { IfSome result
        (λ packet. packet.status_flags ≡ le_number (take 2 (drop 3 payload.now))) }
{
    let mut buf = ParseBuf(payload);
    if buf.len() < 5 || buf.eat_u8() != 0xfe {
        return None;
    }
    let warnings = buf.eat_u16_le();
    let status_flags = buf.eat_u16_le();
    Some(EofPacket {
        warnings,
        status_flags,
    })
}

/// Reads an `ERR_Packet`'s code and text, which borrows from the payload.
pub fn read_error(payload: &[u8]) -> Option<(u16, &[u8])>
    ensures there { IsSome result
        ↔ ((3 ≤ length payload.now) × (le_number (take 1 payload.now) ≡ 0xff)) }
    ensures code { IfSome result (λ error. error.0 ≡ le_number (take 2 (drop 1 payload.now))) }
    ensures text { IfSome result (λ error. error.1.now ≡ drop 3 payload.now) }
{
    let mut buf = ParseBuf(payload);
    if buf.len() < 3 || buf.eat_u8() != 0xff {
        return None;
    }
    let code = buf.eat_u16_le();
    Some((code, buf.eat_all()))
}

/// Reads the counts of an `OK_Packet`: the rows that were changed, and the last id that was
/// inserted. `None` where the packet is no such, or a count is cut short.
pub fn read_ok(payload: &[u8]) -> Option<(u64, u64)>
    ensures counts { IfSome result (λ counts. IsOk payload.now counts.0 counts.1) }
    ensures none { IsNone result → (changed : ℕ) (last_id : ℕ) → IsOk payload.now changed last_id
        → ⊥ }
{
    let mut buf = ParseBuf(payload);
    if buf.is_empty() || buf.eat_u8() != 0 {
        return None;
    }
    let Some(changed) = buf.checked_eat_lenenc_int() else {
        return None;
    };
    let Some(last_id) = buf.checked_eat_lenenc_int() else {
        return None;
    };
    Some((changed, last_id))
}

/// Puts flags of three bytes and the name of a schema.
pub fn put_schema<B: BufMut>(buf: &mut B, flags: u32, schema: &[u8]) -> Result<(), WireError>
    ensures put { OnOk result (B.written buf.new ≡ B.written buf.old
        ++ (le_bytes 3 flags ++ (lenenc_bytes (length schema.now) ++ schema.now))) }
    ensures memory { IfErr result (λ error. error ≡ WireError.OutOfMemory) }
{
    buf.put_u24_le(flags)?;
    buf.put_lenenc_str(schema)
}

/// Writes a name after its length, and counts what was written.
pub fn write_name<W: WriteMysqlExt>(out: &mut W, name: &[u8]) -> Result<u64, WireError>
    ensures { OnOk result (Appends (W.contents out.old) (W.contents out.new)
        (lenenc_bytes (length name.now) ++ name.now)) }
{
    out.write_lenenc_str(name)
}

/// Appends an id of two bytes and a name after its length.
pub fn put_named(buf: &mut Vec<u8>, id: u16, name: &[u8]) -> Result<(), WireError>
    ensures put { OnOk result (buf.new.items ≡ buf.old.items
        ++ (le_bytes 2 id ++ (lenenc_bytes (length name.now) ++ name.now))) }
    ensures memory { IfErr result (λ error. error ≡ WireError.OutOfMemory) }
{
    RawInt::<LeU16>::new(id).serialize(buf)?;
    RawBytes::<LenEnc>::from(name).serialize(buf)
}

/// Reads both. The name borrows from the payload.
pub fn read_named<'a>(
    alloc: Global,
    payload: &'a [u8],
) -> Result<(RawInt<LeU16>, RawBytes<'a, LenEnc>), WireError>
    ensures id { IfOk result (λ named. named.0.0 ≡ le_number (take 2 payload.entry.now)) }
    ensures name { IfOk result (λ named. (text : List ℕ) × (rest : List ℕ)
        × IsBorrowedText named.1.0 text
        × EatsText IsLenencOrMark (drop 2 payload.entry.now) text rest) }
{
    let mut buf = ParseBuf(payload);
    let id: RawInt<LeU16> = buf.parse(alloc, ())?;
    let name: RawBytes<'a, LenEnc> = buf.parse(alloc, ())?;
    Ok((id, name))
}
