//! Values in their binary form.

ghost use Rattle.std.specs.Prelude.{◌≡◌, ◌++◌};
ghost use Rattle.std.proofs.Common.{subst};
ghost use Rattle.wire_buf.specs.Reading.{Reads, Through};
ghost use Rattle.mysql_wire_statements.specs.Faults.{told};
ghost use Rattle.mysql_wire_statements.specs.Values.{form_of, value_bytes, written_form, IsPlain, IsShortest, IsValue, ReadsForm, ReadsText, SameValue};
ghost use Rattle.mysql_wire_statements.specs.ValuesBack.{value-back, value_law};

use crate::binary_fault::BinaryFault;
use crate::temporal::{BinaryDate, BinaryTime, read_date, read_time};
use crate::written_back::WrittenBack;
use std::alloc::{Allocator, Global};
use wire_buf::error::WireError;
use wire_buf::io::ParseBuf;
use wire_buf::proto::{HasSize, MyDeserialize, MySerialize, Varying};
use wire_const::ColumnType;
use wire_forms::lenenc::LenEnc;
use wire_repr::wire::Wire;
use wire_values::text::RawBytes;

/// How the values of a type are written in their binary form.
///
/// <https://dev.mysql.com/doc/dev/mysql-server/latest/page_protocol_binary_resultset.html>
#[derive(Clone, Copy, Debug, PartialEq, Eq)]
pub enum ValueForm {
    /// No bytes: the type of `NULL`.
    Null,
    /// One byte.
    Tiny,
    /// Two bytes.
    Short,
    /// Four bytes.
    Long,
    /// Eight bytes.
    LongLong,
    /// Four bytes of a floating-point number.
    Float,
    /// Eight bytes of one.
    Double,
    /// A `BinaryDate`.
    Date,
    /// A `BinaryTime`.
    Time,
    /// A `string<lenenc>`.
    Text,
    /// None: the type is internal to a server, or unknown.
    Unsent,
}

impl ValueForm {
    /// The form of a type's values.
    pub fn of(column_type: ColumnType) -> ValueForm
        ensures { result ≡ form_of column_type }
    {
        match column_type {
            ColumnType::MYSQL_TYPE_NULL => ValueForm::Null,
            ColumnType::MYSQL_TYPE_TINY => ValueForm::Tiny,
            ColumnType::MYSQL_TYPE_SHORT | ColumnType::MYSQL_TYPE_YEAR => ValueForm::Short,
            ColumnType::MYSQL_TYPE_LONG | ColumnType::MYSQL_TYPE_INT24 => ValueForm::Long,
            ColumnType::MYSQL_TYPE_LONGLONG => ValueForm::LongLong,
            ColumnType::MYSQL_TYPE_FLOAT => ValueForm::Float,
            ColumnType::MYSQL_TYPE_DOUBLE => ValueForm::Double,
            ColumnType::MYSQL_TYPE_DATE
            | ColumnType::MYSQL_TYPE_DATETIME
            | ColumnType::MYSQL_TYPE_TIMESTAMP => ValueForm::Date,
            ColumnType::MYSQL_TYPE_TIME => ValueForm::Time,
            ColumnType::MYSQL_TYPE_NEWDATE
            | ColumnType::MYSQL_TYPE_TIMESTAMP2
            | ColumnType::MYSQL_TYPE_DATETIME2
            | ColumnType::MYSQL_TYPE_TIME2
            | ColumnType::MYSQL_TYPE_TYPED_ARRAY
            | ColumnType::MYSQL_TYPE_UNKNOWN => ValueForm::Unsent,
            _ => ValueForm::Text,
        }
    }
}

/// A value of a row, or of a parameter. Whether a number has a sign its column says, or the
/// parameter's flags: `n.cast_signed()` is the number with it.
///
/// <https://dev.mysql.com/doc/dev/mysql-server/latest/page_protocol_binary_resultset.html>
#[derive(Clone, Copy, Debug, PartialEq, Eq)]
pub enum BinaryValue<'a> {
    Null,
    Tiny(u8),
    Short(u16),
    Long(u32),
    LongLong(u64),
    /// The bits of an `f32`.
    Float(u32),
    /// The bits of an `f64`.
    Double(u64),
    Date(BinaryDate),
    Time(BinaryTime),
    /// A text or bytes; also a decimal number, in digits.
    Text(&'a [u8]),
}

impl MySerialize for BinaryValue<'_> {
    ghost bytes = { value_bytes };

    fn serialize<A: Allocator>(&self, buf: &mut Vec<u8, A>) -> Result<(), WireError> {
        match self {
            BinaryValue::Null => Ok(()),
            BinaryValue::Tiny(number) => [*number].serialize(buf),
            BinaryValue::Short(number) => number.serialize(buf),
            BinaryValue::Long(number) | BinaryValue::Float(number) => number.serialize(buf),
            BinaryValue::LongLong(number) | BinaryValue::Double(number) => number.serialize(buf),
            BinaryValue::Date(date) => date.serialize(buf),
            BinaryValue::Time(time) => time.serialize(buf),
            BinaryValue::Text(text) => RawBytes::<LenEnc>::from(*text).serialize(buf),
        }
    }
}

// A number, or the refusal of a form that has no bytes. Where bytes are missing, none is eaten.
fn eat_plain<'a>(form: ValueForm, buf: &mut ParseBuf<'a>) -> Result<BinaryValue<'a>, BinaryFault>
    requires { IsPlain form }
    ensures { Reads (ReadsForm form) buf.old.0.now (told result) buf.new.0.now }
{
    match form {
        ValueForm::Null => Ok(BinaryValue::Null),
        ValueForm::Tiny => match buf.checked_eat_u8() {
            Some(number) => Ok(BinaryValue::Tiny(number)),
            None => Err(BinaryFault::UnexpectedEof),
        },
        ValueForm::Short => match buf.checked_eat_u16_le() {
            Some(number) => Ok(BinaryValue::Short(number)),
            None => Err(BinaryFault::UnexpectedEof),
        },
        ValueForm::Long => match buf.checked_eat_u32_le() {
            Some(number) => Ok(BinaryValue::Long(number)),
            None => Err(BinaryFault::UnexpectedEof),
        },
        ValueForm::LongLong => match buf.checked_eat_u64_le() {
            Some(number) => Ok(BinaryValue::LongLong(number)),
            None => Err(BinaryFault::UnexpectedEof),
        },
        ValueForm::Float => match buf.checked_eat_u32_le() {
            Some(number) => Ok(BinaryValue::Float(number)),
            None => Err(BinaryFault::UnexpectedEof),
        },
        ValueForm::Double => match buf.checked_eat_u64_le() {
            Some(number) => Ok(BinaryValue::Double(number)),
            None => Err(BinaryFault::UnexpectedEof),
        },
        _ => Err(BinaryFault::UnknownValue),
    }
}

// The next text. Its length does not begin with `fb` or `ff`.
fn eat_text<'a>(buf: &mut ParseBuf<'a>) -> Result<&'a [u8], BinaryFault>
    ensures { Reads (λ input. Through (λ text. text.now) (ReadsText input)) buf.old.0.now
        (told result) buf.new.0.now }
{
    match buf.0.first() {
        Some(0xfb) => Err(BinaryFault::InvalidLength),
        Some(0xff) => Err(BinaryFault::InvalidLength),
        _ => match buf.checked_eat_lenenc_str() {
            Some(text) => Ok(text),
            None => Err(BinaryFault::UnexpectedEof),
        },
    }
}

// Reads a value of this form.
#[inline(always)]
pub(crate) fn read_value<'a>(
    form: ValueForm,
    buf: &mut ParseBuf<'a>,
) -> Result<BinaryValue<'a>, BinaryFault>
    ensures { Reads (ReadsForm form) buf.old.0.now (told result) buf.new.0.now }
{
    match form {
        ValueForm::Date => match read_date(buf) {
            Ok(date) => Ok(BinaryValue::Date(date)),
            Err(fault) => Err(fault),
        },
        ValueForm::Time => match read_time(buf) {
            Ok(time) => Ok(BinaryValue::Time(time)),
            Err(fault) => Err(fault),
        },
        ValueForm::Text => match eat_text(buf) {
            Ok(text) => Ok(BinaryValue::Text(text)),
            Err(fault) => Err(fault),
        },
        plain => eat_plain(plain, buf),
    }
}

impl HasSize for BinaryValue<'_> {
    type Size = Varying;
}

/// The context is the type of the value's column or parameter. A type whose values are never sent
/// is refused as `UnknownValue`.
impl<'de> MyDeserialize<'de, Global> for BinaryValue<'de> {
    type Ctx = ColumnType;

    ghost reads = { λ column_type. ReadsForm (form_of column_type) };

    fn deserialize(
        _: Global,
        column_type: ColumnType,
        buf: &mut ParseBuf<'de>,
    ) -> Result<Self, WireError> {
        match read_value(ValueForm::of(column_type), buf) {
            Ok(value) => Ok(value),
            Err(fault) => Err(fault.into()),
        }
    }
}

impl<'de> Wire<'de, Global> for BinaryValue<'de> {
    ghost is_value = { IsValue };

    ghost good = { λ column_type value _. form_of column_type ≡ written_form value };

    ghost kept = { SameValue };

    ghost takes_memory = { ⊥ };

    fn known(&self) {
        match self {
            BinaryValue::Date(date) => Wire::<'_, Global>::known(date),
            BinaryValue::Time(time) => Wire::<'_, Global>::known(time),
            BinaryValue::Text(text) => {
                Wire::<'_, Global>::known(&RawBytes::<LenEnc>::from(*text));
            }
            BinaryValue::Tiny(number) => {
                let _number = *number;
            }
            BinaryValue::Short(number) => {
                let _number = *number;
            }
            BinaryValue::Long(number) | BinaryValue::Float(number) => {
                let _number = *number;
            }
            BinaryValue::LongLong(number) | BinaryValue::Double(number) => {
                let _number = *number;
            }
            BinaryValue::Null => {}
        }
    }

    ghost comes_back = { λ column_type value rest answer eaten is good read.
        value-back value rest is answer eaten
        (subst (λ form. ReadsForm form (value_bytes value ++ rest) answer eaten) good read) };

    ghost of_size = { λ value size _ stated. Prim.cc };
}

impl<'de> WrittenBack<'de, Global> for BinaryValue<'de> {
    ghost shortest = { λ column_type. IsShortest (form_of column_type) };

    ghost again = { λ column_type input value eaten are shortest read.
        value_law (form_of column_type) input value eaten are shortest read };
}
