//! The values of rows.

ghost use Rattle.std.specs.Float.{binary32, binary64};
ghost use Rattle.std.specs.Fmt.{decimal};
ghost use Rattle.std.specs.Prelude.{◌≡◌, ◌≢◌, ◌≤◌, ◌∷◌, [], ◌++◌, false, true, None, Some, Ok, IfOk, OnOk};
ghost use Rattle.wire_text.specs.Fields.{Puts, Word, Written, member_form};
ghost use Rattle.mysql_wire_dump_lines.specs.RowEnds.{IsBehind, IsEndOf};
ghost use Rattle.mysql_wire_dump_lines.specs.TemporalTexts.{date_text, time_text};
ghost use Rattle.mysql_wire_dump_lines.specs.ValueFields.{IsTypeOf, row_bytes_fields, PutsColumn, PutsFloat, PutsRow, PutsShown, PutsText, PutsTexts, PutsValues, TextsSoFar};
ghost use Rattle.mysql_wire_queries.specs.RowValues.{error_of};
ghost use Rattle.mysql_wire_session.specs.Refusals.{refusal_of_wire};
ghost use Rattle.mysql_wire_session.specs.declared.refusal.Refusal.TheVariants.{TrailingBytes};

use super::Show;
use super::row_end::RowEnd;
use crate::temporal::{DateWord, TimeWord};
use mysql_wire_queries::text_row::{TextFault, TextValue};
use mysql_wire_queries::text_values::TextValues;
use mysql_wire_session::refusal::{Refusal, SessionError};
use mysql_wire_statements::binary_row::BinaryRow;
use mysql_wire_statements::binary_value::BinaryValue;
use mysql_wire_statements::temporal::{BinaryDate, BinaryTime};
use ryu::Buffer;
use std::alloc::{AllocError, Allocator, Global};
use std::num::{f32_from_bits_with_nan, f64_from_bits_with_nan};
use wire_buf::error::WireError;
use wire_buf::io::ParseBuf;
use wire_const::ColumnType;
use wire_text::fields::{Field, FieldValue, Fields, MemberForm};

// The longest text whose length is one byte.
const LONGEST: usize = 250;

// Why a text of a row is none.
pub(crate) fn refusal_of(fault: TextFault) -> Refusal
    ensures { refusal_of_wire (error_of fault) ≡ Ok result }
{
    match fault {
        TextFault::UnexpectedEof => Refusal::UnexpectedEnd,
        TextFault::InvalidLength => Refusal::InvalidNumber,
    }
}

// Reads the text of a column, and puts it, where none is shown, or it is short and others follow: whether
// it has.
#[inline(always)]
fn put_short<A: Allocator + Copy>(
    fields: &mut Fields<A>,
    form: Option<MemberForm>,
    place: u64,
    rest: &mut ParseBuf<'_>,
) -> Result<bool, SessionError>
    requires { form ≡ member_form fields.old.form }
    ensures put { result ≡ Ok true
        → PutsText place rest.old.0.now rest.new.0.now None fields.old fields.new }
    ensures not { result ≡ Ok false
        → (fields.new ≡ fields.old) × (rest.new.0.now ≡ rest.old.0.now) }
{
    let Some((len, behind)) = rest.0.split_first() else {
        return Ok(false);
    };
    let len = *len as usize;
    if len > LONGEST || !fields.put_short_in(form, place, behind, len)? {
        return Ok(false);
    }
    rest.0 = &behind[len..];
    Ok(true)
}

// The same of one of a row's last texts, which is looked at with the zeros behind the row's end.
fn put_last<A: Allocator + Copy>(
    fields: &mut Fields<A>,
    form: Option<MemberForm>,
    place: u64,
    rest: &mut ParseBuf<'_>,
    end: &RowEnd,
) -> Result<bool, SessionError>
    requires shown { form ≡ member_form fields.old.form }
    requires end { IsEndOf end.now rest.old.0.now }
    ensures put { result ≡ Ok true
        → PutsText place rest.old.0.now rest.new.0.now None fields.old fields.new }
    ensures not { result ≡ Ok false
        → (fields.new ≡ fields.old) × (rest.new.0.now ≡ rest.old.0.now) }
{
    let Some((len, left)) = rest.0.split_first() else {
        return Ok(false);
    };
    let len = *len as usize;
    if len > left.len() || left.len() >= 32 {
        return Ok(false);
    }
    if !fields.put_short_in(form, place, end.widened(left), len)? {
        return Ok(false);
    }
    rest.0 = &left[len..];
    Ok(true)
}

// Reads the text of a column where it lies, and puts it. The answer is why it is none.
#[inline(always)]
fn put_other<A: Allocator + Copy>(
    fields: &mut Fields<A>,
    place: u64,
    rest: &mut ParseBuf<'_>,
) -> Result<Option<Refusal>, SessionError>
    ensures { IfOk result (λ refusal. PutsText place rest.old.0.now rest.new.0.now refusal
        fields.old fields.new) }
{
    let mut values = TextValues::new(rest.0);
    match values.next() {
        Some(Ok(TextValue::Text(text))) => fields.put_at(place, FieldValue::Text(text))?,
        Some(Ok(TextValue::Null)) => fields.put_at(place, FieldValue::Null)?,
        Some(Err(fault)) => return Ok(Some(refusal_of(fault))),
        None => return Ok(Some(Refusal::UnexpectedEnd)),
    }
    rest.0 = values.rest();
    Ok(None)
}

// The same: a short one at once.
#[inline(always)]
fn put_text<A: Allocator + Copy>(
    fields: &mut Fields<A>,
    form: Option<MemberForm>,
    place: u64,
    rest: &mut ParseBuf<'_>,
) -> Result<Option<Refusal>, SessionError>
    requires { form ≡ member_form fields.old.form }
    ensures { IfOk result (λ refusal. PutsText place rest.old.0.now rest.new.0.now refusal
        fields.old fields.new) }
{
    if put_short(fields, form, place, rest)? {
        return Ok(None);
    }
    put_other(fields, place, rest)
}

// The same of one of a row's last texts.
fn put_last_text<A: Allocator + Copy>(
    fields: &mut Fields<A>,
    form: Option<MemberForm>,
    place: u64,
    rest: &mut ParseBuf<'_>,
    end: &RowEnd,
) -> Result<Option<Refusal>, SessionError>
    requires shown { form ≡ member_form fields.old.form }
    requires end { IsEndOf end.now rest.old.0.now }
    ensures { IfOk result (λ refusal. PutsText place rest.old.0.now rest.new.0.now refusal
        fields.old fields.new) }
{
    if put_last(fields, form, place, rest, end)? {
        return Ok(None);
    }
    put_other(fields, place, rest)
}

// Why a row is none, of which all values were read and this is left.
fn left_over(rest: &ParseBuf<'_>) -> Option<Refusal>
    ensures none { rest.now.0.now ≡ [] → result ≡ None }
    ensures some { rest.now.0.now ≢ [] → result ≡ Some TrailingBytes }
{
    if rest.0.is_empty() {
        None
    } else {
        Some(Refusal::TrailingBytes)
    }
}

// Reads the last values of a row, those from this place on, and puts each. The answer is why it is none.
#[inline(never)]
fn put_end<A: Allocator + Copy>(
    fields: &mut Fields<A>,
    form: Option<MemberForm>,
    places: (u64, u64),
    left: &[u8],
    payload: &[u8],
) -> Result<Option<Refusal>, SessionError>
    requires shown { form ≡ member_form fields.old.form }
    requires order { places.0 ≤ places.1 }
    requires behind { IsBehind payload.now left.now }
    ensures { (begun : Written) → TextsSoFar places.0 payload.now left.now begun fields.old
        → IfOk result (λ refusal. PutsTexts places.1 payload.now refusal begun fields.new) }
{
    let mut end = RowEnd::new();
    end.take(payload);
    let mut rest = ParseBuf(left);
    'values: for place in places.0..places.1 {
        match put_last_text(fields, form, place, &mut rest, &end)? {
            None => {}
            Some(refusal) => return Ok(Some(refusal)),
        }
    }
    Ok(left_over(&rest))
}

// Reads a row of this many columns, value by value, and puts each, where it is known how fields are
// shown. The answer is why it is none. The last values have a loop of their own, in which no branch
// asks how many bytes follow.
#[inline(always)]
fn put_texts_in<A: Allocator + Copy>(
    fields: &mut Fields<A>,
    form: Option<MemberForm>,
    columns: u64,
    payload: &[u8],
) -> Result<Option<Refusal>, SessionError>
    requires { form ≡ member_form fields.old.form }
    ensures { IfOk result (λ refusal. PutsTexts columns payload.now refusal
        fields.old fields.new) }
{
    let mut rest = ParseBuf(payload);
    'values: for place in 0..columns {
        if form.is_some() && rest.0.len() <= 32 {
            return put_end(fields, form, (place, columns), rest.0, payload);
        }
        match put_text(fields, form, place, &mut rest)? {
            None => {}
            Some(refusal) => return Ok(Some(refusal)),
        }
    }
    Ok(left_over(&rest))
}

// The same. Each form has code of its own, in which no text asks for it.
fn put_texts<A: Allocator + Copy>(
    fields: &mut Fields<A>,
    columns: u64,
    payload: &[u8],
) -> Result<Option<Refusal>, SessionError>
    ensures { IfOk result (λ refusal. PutsTexts columns payload.now refusal
        fields.old fields.new) }
{
    match fields.shown_form() {
        None => put_texts_in(fields, None, columns, payload),
        Some(MemberForm::Text) => put_texts_in(fields, Some(MemberForm::Text), columns, payload),
        Some(MemberForm::Json) => put_texts_in(fields, Some(MemberForm::Json), columns, payload),
    }
}

// The same, of any row.
fn any_row<A: Allocator + Copy>(
    fields: &mut Fields<A>,
    columns: u64,
    payload: &[u8],
) -> Result<Option<Refusal>, SessionError>
    ensures { IfOk result (λ refusal. PutsTexts columns payload.now refusal
        fields.old fields.new) }
{
    put_texts(fields, columns, payload)
}

// Whether a row has just this many values: where fields are hidden, nothing is put of it.
#[inline(never)]
fn is_row(columns: u64, payload: &[u8]) -> bool
    ensures { result ≡ true → (fields : Written) → member_form fields.form ≡ None
        → PutsTexts columns payload.now None fields fields }
{
    let mut values = TextValues::new(payload);
    values.skip_values(columns) == columns && values.rest().is_empty()
}

/// Reads a row of this many columns, value by value, and puts each. The answer is why it is none.
pub fn text_row<A: Allocator + Copy>(
    _: Global,
    fields: &mut Fields<A>,
    columns: u64,
    payload: &[u8],
) -> Result<Option<Refusal>, SessionError>
    ensures { IfOk result (λ refusal. PutsTexts columns payload.now refusal
        fields.old fields.new) }
{
    if fields.shown_form().is_none() && is_row(columns, payload) {
        return Ok(None);
    }
    any_row(fields, columns, payload)
}

// Puts a number of these bits.
#[inline(never)]
fn put_float<A: Allocator + Copy>(
    fields: &mut Fields<A>,
    place: u64,
    bits: u32,
) -> Result<(), AllocError>
    ensures { OnOk result (PutsFloat binary32 bits place fields.old fields.new) }
{
    let number = f32_from_bits_with_nan(bits);
    let mut buffer = Buffer::new();
    let printed = buffer.format(number);
    if number.is_finite() {
        fields.put_at(place, FieldValue::Printed(printed))
    } else {
        fields.put_at(place, FieldValue::Word(printed))
    }
}

// Puts a number of these bits.
#[inline(never)]
fn put_double<A: Allocator + Copy>(
    fields: &mut Fields<A>,
    place: u64,
    bits: u64,
) -> Result<(), AllocError>
    ensures { OnOk result (PutsFloat binary64 bits place fields.old fields.new) }
{
    let number = f64_from_bits_with_nan(bits);
    let mut buffer = Buffer::new();
    let printed = buffer.format(number);
    if number.is_finite() {
        fields.put_at(place, FieldValue::Printed(printed))
    } else {
        fields.put_at(place, FieldValue::Word(printed))
    }
}

// Puts a date.
#[inline(never)]
fn put_date<A: Allocator + Copy>(
    fields: &mut Fields<A>,
    place: u64,
    date: BinaryDate,
) -> Result<(), AllocError>
    ensures { OnOk result (Puts ((decimal place, Word (date_text date)) ∷ [])
        fields.old fields.new) }
{
    fields.put_word_at(place, &DateWord(date))
}

// Puts a span of time.
#[inline(never)]
fn put_time<A: Allocator + Copy>(
    fields: &mut Fields<A>,
    place: u64,
    time: BinaryTime,
) -> Result<(), AllocError>
    ensures { OnOk result (Puts ((decimal place, Word (time_text time)) ∷ [])
        fields.old fields.new) }
{
    fields.put_word_at(place, &TimeWord(time))
}

// Puts a value in its binary form. What has a printed form, or parts, is put by calls: so the value is
// kept in registers.
fn put_value<A: Allocator + Copy>(
    fields: &mut Fields<A>,
    place: u64,
    value: &BinaryValue<'_>,
) -> Result<(), AllocError>
    ensures { OnOk result (PutsShown place value.now fields.old fields.new) }
{
    match value {
        BinaryValue::Null => fields.put_at(place, FieldValue::Null),
        BinaryValue::Tiny(number) => fields.put_at(place, FieldValue::Number(*number as u64)),
        BinaryValue::Short(number) => fields.put_at(place, FieldValue::Number(*number as u64)),
        BinaryValue::Long(number) => fields.put_at(place, FieldValue::Number(*number as u64)),
        BinaryValue::LongLong(number) => fields.put_at(place, FieldValue::Number(*number)),
        BinaryValue::Text(text) => fields.put_at(place, FieldValue::Text(*text)),
        BinaryValue::Float(bits) => put_float(fields, place, *bits),
        BinaryValue::Double(bits) => put_double(fields, place, *bits),
        BinaryValue::Date(date) => put_date(fields, place, *date),
        BinaryValue::Time(time) => put_time(fields, place, *time),
    }
}

// The type that a column's definition tells by this number.
fn column_type(number: u8) -> ColumnType
    ensures { IsTypeOf number result }
{
    match ColumnType::try_from(number) {
        Ok(column_type) => column_type,
        Err(_) => ColumnType::MYSQL_TYPE_UNKNOWN,
    }
}

// Puts the value of the column at this place, whose type has this number.
fn put_column<'a, A: Allocator + Copy>(
    global: Global,
    fields: &mut Fields<A>,
    place: usize,
    number: u8,
    row: &BinaryRow<'a>,
    rest: &mut ParseBuf<'a>,
) -> Result<Option<Refusal>, SessionError>
    ensures { IfOk result (λ refusal. PutsColumn row.now.nulls.0.now place number
        rest.old.0.now rest.new.0.now refusal fields.old fields.new) }
{
    match row.value(global, place, column_type(number), rest) {
        Ok(value) => {
            put_value(fields, place as u64, &value)?;
            Ok(None)
        }
        Err(error) => Ok(Some(Refusal::of_wire(error)?)),
    }
}

// The values of a row whose columns have these types, and what stands after them.
fn binary_values<A: Allocator + Copy>(
    global: Global,
    fields: &mut Fields<A>,
    types: &[u8],
    row: &BinaryRow<'_>,
) -> Result<Option<Refusal>, SessionError>
    ensures { IfOk result (λ refusal. PutsValues types.now row.now refusal fields.old
        fields.new) }
{
    let mut rest = ParseBuf(row.values);
    'columns: for place in 0..types.len() {
        match put_column(global, fields, place, types[place], row, &mut rest)? {
            None => {}
            Some(refusal) => return Ok(Some(refusal)),
        }
    }
    if !rest.0.is_empty() {
        fields.put("rest", FieldValue::Bytes(rest.0))?;
    }
    Ok(None)
}

impl Show for BinaryRow<'_> {
    ghost members = { λ row. row_bytes_fields row };

    fn show<A: Allocator + Copy>(&self, fields: &mut Fields<A>) -> Result<(), AllocError> {
        fields.put_all(&[
            Field::Bytes("null_bitmap", self.nulls.0),
            Field::Bytes("values", self.values),
        ])
    }
}

// Puts the values of a row whose columns have these types, where there are as many, and else the
// row's bytes.
fn put_row<A: Allocator + Copy>(
    global: Global,
    fields: &mut Fields<A>,
    columns: u64,
    types: &[u8],
    row: &BinaryRow<'_>,
) -> Result<Option<Refusal>, SessionError>
    ensures { IfOk result (λ refusal. PutsRow columns types.now row.now refusal fields.old
        fields.new) }
{
    if types.len() as u64 == columns {
        return binary_values(global, fields, types, row);
    }
    row.show(fields)?;
    Ok(None)
}

/// Puts the values of a row whose columns have these types, where there are as many, and else the
/// row's bytes. The answer is why it is none.
pub fn binary_row<A: Allocator + Copy>(
    global: Global,
    fields: &mut Fields<A>,
    columns: u64,
    types: &[u8],
    row: &BinaryRow<'_>,
) -> Result<Option<Refusal>, SessionError>
    ensures { IfOk result (λ refusal. PutsRow columns types.now row.now refusal fields.old
        fields.new) }
{
    put_row(global, fields, columns, types, row)
}
