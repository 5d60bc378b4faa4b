//! A value of a row, which is read no further.

ghost use Rattle.std.specs.Prelude.{◌≡◌, IfSome, IsNone, Some, Ok};
ghost use Rattle.mysql_wire_queries.specs.RowValues.{GivesValue};
ghost use Rattle.connection_examples.specs.Rows.{GivesNone, HasNoTextAt, IsTextAt};

use mysql_wire_queries::text_row::TextValue;
use mysql_wire_queries::text_values::TextValues;

// The next value, if one comes.
fn next_value<'a>(values: &mut TextValues<'a>) -> Option<TextValue<'a>>
    ensures given { IfSome result
        (λ value. GivesValue values.old (Some (Ok value)) values.new) }
    ensures none { IsNone result → GivesNone values.old }
{
    match values.next() {
        Some(Ok(value)) => Some(value),
        Some(Err(_)) => None,
        None => None,
    }
}

/// The value at a place of a row of texts, counted from 0, where it lies in the payload. None where
/// the row has no such place, or a value up to it is refused. It takes no memory.
pub fn text_at(payload: &[u8], place: usize) -> Option<TextValue<'_>>
    ensures there { IfSome result (IsTextAt payload.now place) }
    ensures none { IsNone result → HasNoTextAt payload.now place }
{
    let mut values = TextValues::new(payload);
    'values: for _at in 0..place {
        next_value(&mut values)?;
    }
    match next_value(&mut values) {
        Some(value) => Some(value),
        None => None,
    }
}
