//! A row of a text resultset.

ghost use Rattle.std.specs.Prelude.{◌≡◌, ◌≢◌, ◌<◌, ◌^◌, [], ◌∷◌, ◌++◌, length, take};
ghost use Rattle.wire_buf.specs.Reading.{Reads, Through};
ghost use Rattle.mysql_wire_queries.specs.RowValues.{error_of, told, ReadsTextValue};
ghost use Rattle.wire_repr.specs.Texts.{IsText};
ghost use Rattle.mysql_wire_parts.specs.Optional.{OnIf};
ghost use Rattle.mysql_wire_queries.specs.TextValues.{value_of, value_bytes, ReadsValue, SameValue, row_bytes, value-back, row-back};
ghost use Rattle.std.specs.Cow.{cow_slice_items};
ghost use Rattle.std.specs.List.{All};
ghost use Rattle.wire_list.specs.ElementLaws.{AllKept};

use std::alloc::{Allocator, Global};
use wire_buf::error::{InvalidLengthEncodedInteger, WireError};
use wire_buf::io::ParseBuf;
use wire_buf::proto::{HasSize, MyDeserialize, MySerialize, Varying};
use wire_ext::BufMutExt;
use wire_forms::lenenc::LenEnc;
use wire_list::seq::{Seq, Unknown};
use wire_repr::append::all_or_nothing;
use wire_repr::wire::Wire;
use wire_values::text::RawBytes;

/// A value of a row, as a text.
#[derive(Clone, Copy, Debug, PartialEq, Eq)]
pub enum TextValue<'a> {
    Null,
    Text(&'a [u8]),
}

/// Why the bytes of a row's values are refused.
#[derive(Clone, Copy, Debug, PartialEq, Eq)]
pub enum TextFault {
    /// Bytes are missing.
    UnexpectedEof,
    /// The byte `ff`, which begins no value.
    InvalidLength,
}

impl From<TextFault> for WireError {
    ghost from_gives = { λ fault error. error ≡ error_of fault };

    fn from(fault: TextFault) -> Self {
        match fault {
            TextFault::UnexpectedEof => WireError::UnexpectedEof,
            TextFault::InvalidLength => WireError::Other(InvalidLengthEncodedInteger),
        }
    }
}

// Reads a text of 251 bytes and more, or what is none. The buffer is handed over and back, so that a
// caller keeps its own in registers. A call: it is rare, and would lie within the caller's loop.
#[inline(never)]
fn long_text<'a>(mut buf: ParseBuf<'a>) -> (Result<TextValue<'a>, TextFault>, ParseBuf<'a>)
    requires { take 1 buf.0.now ≢ 0xfb ∷ [] }
    ensures { Reads ReadsTextValue buf.entry.0.now (told result.0) result.1.0.now }
{
    match buf.0.first() {
        Some(0xff) => (Err(TextFault::InvalidLength), buf),
        _ => match buf.checked_eat_lenenc_str() {
            Some(text) => (Ok(TextValue::Text(text)), buf),
            None => (Err(TextFault::UnexpectedEof), buf),
        },
    }
}

// Reads a value whose first byte is no length of one byte.
fn read_marked<'a>(buf: &mut ParseBuf<'a>) -> Result<TextValue<'a>, TextFault>
    ensures { Reads ReadsTextValue buf.old.0.now (told result) buf.new.0.now }
{
    match buf.0.first() {
        Some(0xfb) => {
            buf.skip(1);
            Ok(TextValue::Null)
        }
        _ => {
            let (answer, rest) = long_text(*buf);
            *buf = rest;
            answer
        }
    }
}

// Reads a value. Most are short texts: one comparison tells them.
#[inline(always)]
pub(crate) fn read_value<'a>(buf: &mut ParseBuf<'a>) -> Result<TextValue<'a>, TextFault>
    ensures { Reads ReadsTextValue buf.old.0.now (told result) buf.new.0.now }
{
    match buf.0.first() {
        Some(0xfb..) => read_marked(buf),
        _ => match buf.checked_eat_lenenc_str() {
            Some(text) => Ok(TextValue::Text(text)),
            None => Err(TextFault::UnexpectedEof),
        },
    }
}

impl MySerialize for TextValue<'_> {
    ghost bytes = { λ value. value_bytes (value_of value) };

    fn serialize<A: Allocator>(&self, buf: &mut Vec<u8, A>) -> Result<(), WireError> {
        match self {
            TextValue::Null => {
                buf.push(0xfb)?;
                Ok(())
            }
            TextValue::Text(text) => {
                let at = buf.len();
                let put = buf.put_lenenc_str(text).is_ok();
                all_or_nothing(put, at, buf)
            }
        }
    }
}

impl HasSize for TextValue<'_> {
    type Size = Varying;
}

impl<'de> MyDeserialize<'de, Global> for TextValue<'de> {
    type Ctx = ();

    ghost reads = { λ _ input. Through value_of (ReadsValue input) };

    /// The byte `ff`, which begins no value, is refused.
    #[inline(always)]
    fn deserialize(_: Global, _: (), buf: &mut ParseBuf<'de>) -> Result<Self, WireError> {
        match read_value(buf) {
            Ok(value) => Ok(value),
            Err(fault) => Err(fault.into()),
        }
    }
}

impl<'de> Wire<'de, Global> for TextValue<'de> {
    ghost is_value = { λ value. OnIf IsText (value_of value) };

    ghost good = { λ _ _ _. Unit {0} };

    ghost kept = { SameValue };

    ghost takes_memory = { ⊥ };

    fn known(&self) {
        if let TextValue::Text(text) = self {
            Wire::<'_, Global>::known(&RawBytes::<LenEnc>::from(*text));
        }
    }

    ghost comes_back = { λ ctx value rest answer eaten is good read.
        value-back value rest is answer eaten read };

    ghost of_size = { λ value size _ stated. Prim.cc };
}

/// The values of a row, one for each column. The context is how many there are.
///
/// <https://dev.mysql.com/doc/dev/mysql-server/latest/page_protocol_com_query_response_text_resultset_row.html>
#[derive(Drop, Debug, PartialEq, Eq)]
pub struct TextRow<'a> {
    pub values: Seq<'a, TextValue<'a>, Unknown>,
}

impl MySerialize for TextRow<'_> {
    ghost bytes = { λ row. row_bytes (cow_slice_items row.values.0) };

    fn serialize<A: Allocator>(&self, buf: &mut Vec<u8, A>) -> Result<(), WireError> {
        let _len = self.values.len();
        self.values.serialize(buf)
    }
}

impl HasSize for TextRow<'_> {
    type Size = Varying;
}

impl<'de> MyDeserialize<'de, Global> for TextRow<'de> {
    type Ctx = usize;

    ghost reads = { λ count input. Through (λ row. row.values)
        (⟦<Seq<'de, TextValue<'de>, Unknown> as MyDeserialize<'de, Global>>⟧.reads count input) };

    fn deserialize(
        alloc: Global,
        count: usize,
        buf: &mut ParseBuf<'de>,
    ) -> Result<Self, WireError> {
        match buf.parse::<Seq<'de, TextValue<'de>, Unknown>>(alloc, count) {
            Ok(values) => Ok(TextRow { values }),
            Err(error) => Err(error),
        }
    }
}

impl<'de> Wire<'de, Global> for TextRow<'de> {
    ghost is_value = { λ row. (length (cow_slice_items row.values.0) < 2 ^ 64)
        × All (λ value. OnIf IsText (value_of value)) (cow_slice_items row.values.0) };

    ghost good = { λ count row _. count ≡ length (cow_slice_items row.values.0) };

    ghost kept = { λ row back. AllKept SameValue (cow_slice_items row.values.0)
        (cow_slice_items back.values.0) };

    ghost takes_memory = { Unit {0} };

    fn known(&self) {
        self.values.known();
    }

    ghost comes_back = { λ count row rest answer eaten is good read.
        row-back (λ back. back.values.0) count (cow_slice_items row.values.0) rest good is.0 is.1
        answer eaten read };

    ghost of_size = { λ row size _ stated. Prim.cc };
}
