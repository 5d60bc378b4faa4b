//! The values of a row of a text result.

ghost use Rattle.std.specs.Prelude.{◌≡◌, ◌⊎◌};
ghost use Rattle.mysql_wire_c_calls.specs.declared.codes.TheConstants.{OK};
ghost use Rattle.mysql_wire_c_calls.specs.Rows.{IsRefused, ReadsRow, ReadsValue, StopsRow};

use crate::codes::{NULL, OK};
use crate::fields::{Span, read_nullable_bytes};

// Where a text that is NULL is said to stand.
const NOWHERE: usize = usize::MAX;

// Reads a value.
fn read_value(bytes: &[u8], at: &mut usize, text: &mut Span) -> i32
    ensures read { result ≡ OK → ReadsValue bytes.now at.old text.new at.new }
    ensures refused { (result ≡ OK) ⊎ IsRefused result bytes.now at.old }
{
    let code = read_nullable_bytes(bytes, at, text);
    if code == NULL {
        text.at = NOWHERE;
        return OK;
    }
    code
}

/// Reads as many values as there are places for: where each stands, or that it is NULL. A refusal
/// leaves the place, and has written over the places of the values before the one that is refused.
///
/// <https://dev.mysql.com/doc/dev/mysql-server/latest/page_protocol_com_query_response_text_resultset_row.html>
pub fn read_row(bytes: &[u8], at: &mut usize, texts: &mut [Span]) -> i32
    ensures read { result ≡ OK → ReadsRow bytes.now at.old texts.new at.new }
    ensures stops { (result ≡ OK)
        ⊎ ((at.new ≡ at.old) × StopsRow result bytes.now at.old texts.new) }
{
    let mut end = *at;
    let mut count = 0;
    'texts: while count < texts.len() {
        let mut text = Span { at: 0, len: 0 };
        let code = read_value(bytes, &mut end, &mut text);
        if code != OK {
            return code;
        }
        texts[count] = text;
        count += 1;
    }
    *at = end;
    OK
}
