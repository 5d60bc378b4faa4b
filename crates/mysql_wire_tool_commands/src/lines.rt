//! The lines of text that the program writes.

ghost use Rattle.std.specs.Prelude.{◌≡◌, ◌++◌, OnOk, string_bytes};
ghost use Rattle.mysql_wire_tool_commands.specs.Texts.{chunk_line, hex_or_dash, payload_line, rest_line};

use std::alloc::{AllocError, Allocator};
use wire_codec::codec::ChunkInfo;
use wire_text::digits::push_digits_to;
use wire_text::put::push_number;

// Appends two digits a byte, or a dash where there are no bytes.
fn push_hex_or_dash<A: Allocator + Copy>(
    text: &mut String<A>,
    bytes: &[u8],
) -> Result<(), AllocError>
    ensures { OnOk result
        (string_bytes text.new ≡ string_bytes text.old ++ hex_or_dash bytes.now) }
{
    if bytes.is_empty() {
        return text.push_str("-");
    }
    push_digits_to(text, bytes)
}

/// Appends how many bytes the payload has, and their digits.
pub fn push_payload<A: Allocator + Copy>(
    text: &mut String<A>,
    payload: &[u8],
) -> Result<(), AllocError>
    ensures { OnOk result
        (string_bytes text.new ≡ string_bytes text.old ++ payload_line payload.now) }
{
    push_number(text, payload.len() as u64)?;
    text.push_str(" ")?;
    push_hex_or_dash(text, payload)?;
    text.push_str("\n")
}

/// Appends the line of a chunk, or of none.
pub fn push_chunk<A: Allocator + Copy>(
    text: &mut String<A>,
    info: Option<ChunkInfo>,
    payload: &[u8],
) -> Result<(), AllocError>
    ensures { OnOk result
        (string_bytes text.new ≡ string_bytes text.old ++ chunk_line info payload.now) }
{
    match info {
        None => text.push_str("none\n"),
        Some(ChunkInfo::Middle(id)) => {
            write!(text, "middle {id} ")?;
            push_payload(text, payload)
        }
        Some(ChunkInfo::Last(id)) => {
            write!(text, "last {id} ")?;
            push_payload(text, payload)
        }
    }
}

/// Appends how many bytes are left.
pub fn push_rest<A: Allocator>(text: &mut String<A>, count: u128) -> Result<(), AllocError>
    ensures { OnOk result (string_bytes text.new ≡ string_bytes text.old ++ rest_line count) }
{
    writeln!(text, "rest {count}")
}
