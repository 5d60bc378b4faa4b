//! Rows with long texts, which are written part by part.

ghost use Rattle.std.specs.Fmt.{decimal};
ghost use Rattle.std.specs.Prelude.{IfOk, OnOk};
ghost use Rattle.mysql_wire_queries.specs.TextValues.{value_of};
ghost use Rattle.wire_text.specs.Parts.{WritesMember};
ghost use Rattle.mysql_wire_dump_lines.specs.ValueFields.{WritesText, WritesTexts, text_shown};

use crate::show::values::refusal_of;
use mysql_wire_queries::text_row::TextValue;
use mysql_wire_queries::text_values::TextValues;
use mysql_wire_session::refusal::{Refusal, SessionError};
use std::alloc::Allocator;
use std::io::Write;
use wire_buf::io::ParseBuf;
use wire_text::fields::{FieldValue, Fields};
use wire_text::stop::Stop;

// How many bytes a text has at least of which a part is written before the rest is shown.
const LONG: usize = 65536;

// Why a dump gives up, as its session says it.
fn error_of(stop: Stop) -> SessionError {
    match stop {
        Stop::Io => SessionError::Io,
        Stop::Memory => SessionError::OutOfMemory,
    }
}

// Puts a value of a row; all but the end of a long text is written.
fn write_value<A: Allocator + Copy, W: Write>(
    fields: &mut Fields<A>,
    place: u64,
    value: TextValue<'_>,
    output: &mut W,
) -> Result<(), SessionError>
    ensures { OnOk result (WritesMember (decimal place, text_shown (value_of value.entry)) fields.old
        fields.new (W.contents output.old) (W.contents output.new)) }
{
    match value {
        TextValue::Text(text) if text.len() >= LONG => {
            fields.write_text_at(place, text, output).map_err(error_of)
        }
        TextValue::Text(text) => Ok(fields.put_at(place, FieldValue::Text(text))?),
        TextValue::Null => Ok(fields.put_at(place, FieldValue::Null)?),
    }
}

// Reads the text of a column, and puts it; all but the end of a long one is written. The answer is
// why it is none.
fn write_text<A: Allocator + Copy, W: Write>(
    fields: &mut Fields<A>,
    place: u64,
    rest: &mut ParseBuf<'_>,
    output: &mut W,
) -> Result<Option<Refusal>, SessionError>
    ensures { IfOk result (λ refusal. WritesText place rest.old.0.now rest.new.0.now refusal
        fields.old fields.new (W.contents output.old) (W.contents output.new)) }
{
    let mut values = TextValues::new(rest.0);
    match values.next() {
        Some(Ok(value)) => write_value(fields, place, value, output)?,
        Some(Err(fault)) => return Ok(Some(refusal_of(fault))),
        None => return Ok(Some(Refusal::UnexpectedEnd)),
    }
    rest.0 = values.rest();
    Ok(None)
}

/// Reads a row of this many columns, value by value, and puts each: all but an end of what was put may
/// be written. The answer is why it is none.
pub fn write_text_row<A: Allocator + Copy, W: Write>(
    fields: &mut Fields<A>,
    columns: u64,
    payload: &[u8],
    output: &mut W,
) -> Result<Option<Refusal>, SessionError>
    ensures { IfOk result (λ refusal. WritesTexts columns payload.now refusal
        fields.old fields.new (W.contents output.old) (W.contents output.new)) }
{
    let mut rest = ParseBuf(payload);
    'values: for place in 0..columns {
        match write_text(fields, place, &mut rest, output)? {
            None => {}
            Some(refusal) => return Ok(Some(refusal)),
        }
    }
    Ok(if rest.0.is_empty() {
        None
    } else {
        Some(Refusal::TrailingBytes)
    })
}
