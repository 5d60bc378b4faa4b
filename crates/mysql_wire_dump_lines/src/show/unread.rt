//! Payloads that are not read further, and texts.

ghost use Rattle.std.specs.Prelude.{OnOk, codes};
ghost use Rattle.mysql_wire_dump_lines.specs.Packets.{as_bytes, as_text};
ghost use Rattle.wire_text.specs.Fields.{Puts};

use std::alloc::{AllocError, Allocator};
use wire_text::fields::{FieldValue, Fields};

/// What a server says of itself.
pub fn statistics<A: Allocator + Copy>(
    fields: &mut Fields<A>,
    payload: &[u8],
) -> Result<(), AllocError>
    ensures { OnOk result (Puts (as_text (codes "statistics") payload.now) fields.old fields.new) }
{
    fields.put("statistics", FieldValue::Text(payload))
}

/// A command of another kind.
pub fn other_command<A: Allocator + Copy>(
    fields: &mut Fields<A>,
    payload: &[u8],
) -> Result<(), AllocError>
    ensures { OnOk result (Puts (as_bytes (codes "payload") payload.now) fields.old fields.new) }
{
    fields.put("payload", FieldValue::Bytes(payload))
}

/// One of the columns of a table, with its default after it.
pub fn column_bytes<A: Allocator + Copy>(
    fields: &mut Fields<A>,
    payload: &[u8],
) -> Result<(), AllocError>
    ensures { OnOk result (Puts (as_bytes (codes "column") payload.now) fields.old fields.new) }
{
    fields.put("column", FieldValue::Bytes(payload))
}

/// A row in a form that is not known.
pub fn row_bytes<A: Allocator + Copy>(
    fields: &mut Fields<A>,
    payload: &[u8],
) -> Result<(), AllocError>
    ensures { OnOk result (Puts (as_bytes (codes "values") payload.now) fields.old fields.new) }
{
    fields.put("values", FieldValue::Bytes(payload))
}

/// An event of a binary log.
pub fn event<A: Allocator + Copy>(fields: &mut Fields<A>, payload: &[u8]) -> Result<(), AllocError>
    ensures { OnOk result (Puts (as_bytes (codes "event") payload.now) fields.old fields.new) }
{
    fields.put("event", FieldValue::Bytes(payload))
}
