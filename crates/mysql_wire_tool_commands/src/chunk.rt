//! `chunk`: the chunk at the front of the input.

ghost use Rattle.std.specs.Prelude.{◌≡◌, ◌⊎◌, ◌++◌, length, IfOk, string_bytes};
ghost use Rattle.mysql_wire_tool_commands.specs.Texts.{ChunkEnds, Shown, chunk_line, chunk_status, rest_line};

use crate::input::read_whole;
use crate::lines::{push_chunk, push_rest};
use crate::output::write_whole;
use crate::status::{Stop, exit_status};
use bytes::BytesMut;
use std::alloc::{AllocError, Allocator};
use std::io::{Read, Write};
use wire_buf::lengths::MAX_PAYLOAD_LEN;
use wire_codec::codec::error::PacketCodecError;
use wire_codec::codec::{ChunkDecoder, ChunkInfo};

// The status of `chunk`.
fn chunk_status(info: Option<ChunkInfo>, rest: &[u8]) -> u8
    ensures status { result ≡ chunk_status info rest.now }
    ensures cases { (result ≡ 0) ⊎ (result ≡ 3) }
{
    match info {
        Some(_) => 0,
        None if rest.is_empty() => 0,
        None => 3,
    }
}

// The line of the chunk, and that of the rest.
fn chunk_text<A: Allocator + Copy>(
    alloc: A,
    info: Option<ChunkInfo>,
    payload: &[u8],
    rest: &[u8],
) -> Result<String<A>, AllocError>
    ensures { IfOk result (λ text. string_bytes text
        ≡ chunk_line info payload.now ++ rest_line (length rest.now)) }
{
    let mut text = String::new(alloc);
    push_chunk(&mut text, info, payload)?;
    push_rest(&mut text, rest.len() as u128)?;
    Ok(text)
}

// The text of `chunk`, and its status. Under the limit of one chunk no chunk is too large.
fn shown<A: Allocator + Copy>(alloc: A, input: &mut BytesMut<A>) -> Result<(String<A>, u8), Stop>
    ensures shown { IfOk result (λ shown. Shown input.old.items shown.1 (string_bytes shown.0)) }
    ensures cases { IfOk result (λ shown. (shown.1 ≡ 0) ⊎ (shown.1 ≡ 3)) }
{
    let mut payload = Vec::new(alloc);
    let info = match ChunkDecoder::Idle.decode(input, &mut payload, MAX_PAYLOAD_LEN) {
        Ok(info) => info,
        Err(PacketCodecError::OutOfMemory) => return Err(Stop::Memory),
        Err(_) => unreachable!(),
    };
    let status = chunk_status(info, input.as_slice());
    let text = chunk_text(alloc, info, payload.as_slice(), input.as_slice())?;
    Ok((text, status))
}

/// Reads the whole input, decodes one chunk from its front, and writes what that was and how many
/// bytes are left. The answer is the exit status: 0 where a chunk was shown or the input is empty,
/// 3 where bytes are there and no whole chunk, 2 where a read or a write failed, 6 where memory was
/// refused.
pub fn run_chunk<R: Read, W: Write>(
    alloc: impl Allocator + Copy,
    input: &mut R,
    output: &mut W,
) -> u8
    ensures { ChunkEnds result (R.remaining input.old) (R.remaining input.new)
        (W.contents output.old) (W.contents output.new) }
{
    exit_status(chunk(alloc, input, output))
}

// The same, with the exit status or why it gave up.
fn chunk<R: Read, W: Write>(
    alloc: impl Allocator + Copy,
    input: &mut R,
    output: &mut W,
) -> Result<u8, Stop>
    ensures { IfOk result (λ status. ChunkEnds status
        (R.remaining input.old) (R.remaining input.new)
        (W.contents output.old) (W.contents output.new)) }
{
    let mut whole = read_whole(alloc, input)?;
    let (text, status) = shown(alloc, &mut whole)?;
    write_whole(output, text.as_bytes())?;
    Ok(status)
}
