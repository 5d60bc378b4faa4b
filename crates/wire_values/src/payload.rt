//! A value from the front of a payload.

ghost use Rattle.wire_buf.specs.Reading.{Parses};
ghost use Rattle.wire_values.specs.Payloads.{ReadsPayload};

use std::alloc::{Allocator, Global};
use wire_buf::error::WireError;
use wire_buf::io::ParseBuf;
use wire_buf::proto::MyDeserialize;

/// Reads a value from the front of a payload, as `ParseBuf::parse` does, and answers it with what
/// it left. Texts are borrowed from the payload. The refusals are those of the type.
pub fn parse_packet<'de, T: MyDeserialize<'de, Global>>(
    alloc: Global,
    ctx: T::Ctx,
    payload: &'de [u8],
) -> Result<(T, ParseBuf<'de>), WireError>
    ensures { ReadsPayload (Parses T.Size.SIZE (T.reads ctx)) payload.entry.now result }
{
    parse_packet_in(alloc, ctx, payload)
}

/// As `parse_packet`, with memory from any allocator.
pub fn parse_packet_in<'de, T: MyDeserialize<'de, A>, A: Allocator + Copy>(
    alloc: A,
    ctx: T::Ctx,
    payload: &'de [u8],
) -> Result<(T, ParseBuf<'de>), WireError>
    ensures { ReadsPayload (Parses T.Size.SIZE (T.reads ctx)) payload.entry.now result }
{
    let mut buf = ParseBuf(payload);
    let value: T = buf.parse_in(alloc, ctx)?;
    Ok((value, buf))
}
