//! `frame ID`: the framing of the whole input.

ghost use Rattle.std.specs.Prelude.{IfOk};
ghost use Rattle.mysql_wire_tool_commands.specs.Texts.{FrameEnds};

use crate::input::read_whole;
use crate::output::write_whole;
use crate::status::{Stop, exit_status};
use bytes::BytesMut;
use std::alloc::Allocator;
use std::io::{Read, Write};
use wire_codec::codec::packet_to_chunks;

/// Reads the whole input as one payload, and writes its chunks numbered from `id` on. The answer is
/// the exit status: 0 where all was written, 2 where a read or a write failed, 6 where memory was
/// refused.
pub fn run_frame<R: Read, W: Write>(
    alloc: impl Allocator + Copy,
    id: u8,
    input: &mut R,
    output: &mut W,
) -> u8
    ensures { FrameEnds id result (R.remaining input.old) (R.remaining input.new)
        (W.contents output.old) (W.contents output.new) }
{
    exit_status(frame(alloc, id, input, output))
}

// The same, with the exit status or why it gave up.
fn frame<R: Read, W: Write>(
    alloc: impl Allocator + Copy,
    id: u8,
    input: &mut R,
    output: &mut W,
) -> Result<u8, Stop>
    ensures { IfOk result (λ status. FrameEnds id status
        (R.remaining input.old) (R.remaining input.new)
        (W.contents output.old) (W.contents output.new)) }
{
    let mut payload = read_whole(alloc, input)?;
    let mut framed = BytesMut::new(alloc);
    match packet_to_chunks(id, &mut payload, &mut framed) {
        Ok(_) => {}
        Err(_) => return Err(Stop::Memory),
    }
    write_whole(output, framed.as_slice())?;
    Ok(0)
}
