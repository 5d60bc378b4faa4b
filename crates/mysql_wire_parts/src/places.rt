//! A payload that is one packet, at a place where one of several may stand.

ghost use Rattle.wire_buf.specs.Reading.{Parses};
ghost use Rattle.mysql_wire_parts.specs.Places.{ReadsExact, ReadsWhole, WrapsBy};

use std::alloc::Global;
use wire_buf::error::WireError;
use wire_buf::io::ParseBuf;
use wire_buf::proto::{MyDeserialize, MySerialize};

/// Why a payload is no packet of its place.
#[derive(Debug, Drop)]
pub enum PayloadError {
    /// The type that its first byte calls for refuses it, or there is no first byte.
    Refused(WireError),
    /// This many bytes stand after the packet.
    Trailing(usize),
    /// No packet of the place begins with this byte.
    OtherHeader(u8),
    /// The packet is written as other bytes.
    OtherSpelling,
}

/// Reads a payload that is one packet.
#[inline(always)]
pub fn read_whole<'de, T: MyDeserialize<'de, Global>>(
    alloc: Global,
    ctx: T::Ctx,
    payload: &'de [u8],
) -> Result<T, PayloadError>
    ensures { ReadsWhole (Parses T.Size.SIZE (T.reads ctx)) payload.entry.now result }
{
    let mut buf = ParseBuf(payload);
    match buf.parse::<T>(alloc, ctx) {
        Ok(packet) => match buf.len() {
            0 => Ok(packet),
            left => Err(PayloadError::Trailing(left)),
        },
        Err(error) => Err(PayloadError::Refused(error)),
    }
}

/// Reads a payload that is one packet, as this variant of the packets of its place.
pub fn read_as<'de, T: MyDeserialize<'de, Global>, U, F: FnOnce(T) -> U>(
    alloc: Global,
    ctx: T::Ctx,
    payload: &'de [u8],
    variant: F,
) -> Result<U, PayloadError>
    requires { (packet : T) → F.pre variant packet }
    ensures { WrapsBy (F.post variant)
        (ReadsWhole (Parses T.Size.SIZE (T.reads ctx)) payload.entry.now) result }
{
    match read_whole::<T>(alloc, ctx, payload) {
        Ok(packet) => Ok(variant(packet)),
        Err(error) => Err(error),
    }
}

/// Reads a payload that is one packet, and just the bytes that this packet is written as. Where the
/// packet is written as others, since a length in it is not in its shortest spelling, or begins with
/// a byte that begins none, that is `OtherSpelling`; where memory for these is refused,
/// `Refused(OutOfMemory)`. The other refusals are those of `read_whole`.
pub fn read_exact<'de, T: MySerialize + MyDeserialize<'de, Global>>(
    alloc: Global,
    ctx: T::Ctx,
    payload: &'de [u8],
) -> Result<T, PayloadError>
    ensures { ReadsExact (Parses T.Size.SIZE (T.reads ctx)) T.bytes payload.entry.now result }
{
    let packet = match read_whole::<T>(alloc, ctx, payload) {
        Ok(packet) => packet,
        Err(error) => return Err(error),
    };
    let mut written = Vec::new(alloc);
    match packet.serialize(&mut written) {
        Ok(()) if written.as_slice() == payload => Ok(packet),
        Ok(()) => Err(PayloadError::OtherSpelling),
        Err(error) => Err(PayloadError::Refused(error)),
    }
}
