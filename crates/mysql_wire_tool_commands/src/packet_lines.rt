//! The lines of packets. Those that are written as they are made hold no more than some bytes of a
//! packet at a time.

ghost use Rattle.std.specs.Prelude.{◌≡◌, ◌++◌, [], codes, OnOk};
ghost use Rattle.hex.specs.Hex.{encode_lower};
ghost use Rattle.mysql_wire_tool_commands.specs.PacketLines.{Goes};
ghost use Rattle.mysql_wire_tool_commands.specs.Texts.{hex_or_dash, payload_line};
ghost use Rattle.mysql_wire_tool_commands.specs.Unframe.{packet_lines};
ghost use Rattle.wire_codec.specs.Runs.{payloads};

use crate::status::Stop;
use itoa::Buffer;
use std::alloc::{AllocError, Allocator};
use std::io;
use std::io::Write;
use wire_text::digits::push_digits;

// How many bytes become digits at once.
const BYTES_AT_ONCE: usize = 4096;

/// How many bytes of text are written at once, at least.
pub const TEXT_AT_ONCE: usize = 32768;

// Writes the text, where it is long.
fn write_long<A: Allocator, W: Write>(text: &mut Vec<u8, A>, output: &mut W) -> io::Result<()>
    ensures { OnOk result (Goes text.old.items [] text.new.items
        (W.contents output.old) (W.contents output.new)) }
{
    if text.len() >= TEXT_AT_ONCE {
        output.write_all(text.as_slice())?;
        text.clear();
    }
    Ok(())
}

// The digits of a payload.
fn write_digits<A: Allocator, W: Write>(
    text: &mut Vec<u8, A>,
    payload: &[u8],
    output: &mut W,
) -> Result<(), Stop>
    ensures { OnOk result (Goes text.old.items (encode_lower payload.now) text.new.items
        (W.contents output.old) (W.contents output.new)) }
{
    let mut rest = payload;
    while !rest.is_empty() {
        let (bytes, behind) = rest.split_at(rest.len().min(BYTES_AT_ONCE));
        push_digits(text, bytes)?;
        write_long(text, output)?;
        rest = behind;
    }
    Ok(())
}

// What stands between the count and the digits: where there are none, a dash does in their place.
fn push_separator<A: Allocator>(text: &mut Vec<u8, A>, payload: &[u8]) -> Result<(), AllocError>
    ensures { OnOk result (text.new.items ++ encode_lower payload.now
        ≡ text.old.items ++ (codes " " ++ hex_or_dash payload.now)) }
{
    if payload.is_empty() {
        text.extend_from_slice(b" -")
    } else {
        text.extend_from_slice(b" ")
    }
}

// What stands in front of the digits.
#[inline(always)]
fn push_front<A: Allocator>(text: &mut Vec<u8, A>, payload: &[u8]) -> Result<(), AllocError>
    ensures { OnOk result (text.new.items ++ encode_lower payload.now ++ codes "\n"
        ≡ text.old.items ++ payload_line payload.now) }
{
    let mut buffer = Buffer::new();
    text.extend_from_slice(buffer.format(payload.len()).as_bytes())?;
    push_separator(text, payload)
}

// The most bytes of a line beside its digits: a count in up to 20, a space and a dash, the line's end.
const BESIDE_DIGITS: usize = 23;

/// Appends the line of a packet, for which room is asked for once.
pub fn push_line<A: Allocator>(text: &mut Vec<u8, A>, payload: &[u8]) -> Result<(), AllocError>
    ensures { OnOk result (text.new.items ≡ text.old.items ++ payload_line payload.now) }
{
    text.reserve((2 * payload.len()).saturating_add(BESIDE_DIGITS))?;
    push_front(text, payload)?;
    push_digits(text, payload)?;
    text.extend_from_slice(b"\n")
}

// The line of a packet, of which what is long is written.
fn write_packet<A: Allocator, W: Write>(
    text: &mut Vec<u8, A>,
    payload: &[u8],
    output: &mut W,
) -> Result<(), Stop>
    ensures { OnOk result (Goes text.old.items (payload_line payload.now) text.new.items
        (W.contents output.old) (W.contents output.new)) }
{
    push_front(text, payload)?;
    write_digits(text, payload, output)?;
    text.extend_from_slice(b"\n")?;
    Ok(())
}

/// Writes a line for each packet. What is not yet written stands in `text`, after what stood there.
pub fn write_packets<A: Allocator + Copy, W: Write>(
    text: &mut Vec<u8, A>,
    packets: &[Vec<u8, A>],
    output: &mut W,
) -> Result<(), Stop>
    ensures { OnOk result (Goes text.old.items (packet_lines (payloads packets.now))
        text.new.items (W.contents output.old) (W.contents output.new)) }
{
    for packet in packets {
        write_packet(text, packet.as_slice(), output)?;
    }
    Ok(())
}
