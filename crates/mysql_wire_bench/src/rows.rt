//! Rows by their values, where they lie, beside the same bytes read by hand.

use crate::check::{REFUSED, summary};
use mysql_wire::constants::ColumnType;
use mysql_wire::io::ParseBuf;
use mysql_wire_packets::places::read_whole;
use mysql_wire_queries::text_row::{TextRow, TextValue};
use mysql_wire_queries::text_values::TextValues;
use mysql_wire_statements::binary_row::BinaryRow;
use mysql_wire_statements::binary_value::BinaryValue;
use mysql_wire_statements::binary_values::BinaryValues;
use mysql_wire_statements::null_bitmap::NullBitmap;
use mysql_wire_statements::temporal::{BinaryDate, BinaryTime, Clock, Day};
use std::alloc::Global;

// What NULL adds to a sum.
const NULL: u64 = 1;

fn of_text(value: TextValue<'_>) -> u64 {
    match value {
        TextValue::Null => NULL,
        TextValue::Text(text) => summary(text),
    }
}

// Each of these is a call, so that all ways to a row's values begin alike.
#[inline(never)]
fn texts_by_hand(row: &[u8]) -> Option<u64> {
    let mut buf = ParseBuf(row);
    let mut sum = 0u64;
    for _ in 0..row.len() {
        if buf.is_empty() {
            break;
        }
        sum = sum.wrapping_add(summary(buf.checked_eat_lenenc_str()?));
    }
    Some(sum)
}

#[inline(never)]
fn texts_by_values(row: &[u8]) -> Option<u64> {
    let mut sum = 0u64;
    for value in TextValues::new(row) {
        sum = sum.wrapping_add(of_text(value.ok()?));
    }
    Some(sum)
}

#[inline(never)]
fn texts_by_row(alloc: Global, row: &[u8], columns: usize) -> Option<u64> {
    let row = read_whole::<TextRow<'_>>(alloc, columns, row).ok()?;
    let mut sum = 0u64;
    for value in row.values.as_slice() {
        sum = sum.wrapping_add(of_text(*value));
    }
    Some(sum)
}

/// Rows of this many bytes each, of texts: form 0 by `TextValues`, form 1 by
/// `checked_eat_lenenc_str`, form 2 by `TextRow`.
#[unsafe(no_mangle)]
pub extern "C" fn mw_text_rows(
    alloc: Global,
    bytes: &[u8],
    row: u64,
    columns: u64,
    form: u64,
    reps: u64,
) -> u64 {
    let mut sum = 0u64;
    for _ in 0..reps {
        for part in bytes.chunks((row as usize).max(1)) {
            let read = match form {
                0 => texts_by_values(part),
                1 => texts_by_hand(part),
                _ => texts_by_row(alloc, part, columns as usize),
            };
            match read {
                Some(value) => sum = sum.wrapping_add(value),
                None => return REFUSED,
            }
        }
    }
    sum
}

// The types of a row's columns.
const TYPES: [ColumnType; 10] = [
    ColumnType::MYSQL_TYPE_LONGLONG,
    ColumnType::MYSQL_TYPE_VAR_STRING,
    ColumnType::MYSQL_TYPE_LONG,
    ColumnType::MYSQL_TYPE_DATETIME,
    ColumnType::MYSQL_TYPE_DOUBLE,
    ColumnType::MYSQL_TYPE_VAR_STRING,
    ColumnType::MYSQL_TYPE_TINY,
    ColumnType::MYSQL_TYPE_LONG,
    ColumnType::MYSQL_TYPE_SHORT,
    ColumnType::MYSQL_TYPE_NEWDECIMAL,
];

fn of_day(day: Day) -> u64 {
    65536 * day.year as u64 + 256 * day.month as u64 + day.day as u64
}

fn of_clock(clock: Clock) -> u64 {
    65536 * clock.hour as u64 + 256 * clock.minute as u64 + clock.second as u64
}

fn of_date(date: BinaryDate) -> u64 {
    match date {
        BinaryDate::Zero => 0,
        BinaryDate::Date(day) => of_day(day),
        BinaryDate::Seconds(day, clock) => of_day(day).wrapping_add(of_clock(clock)),
        BinaryDate::Micros(day, clock, micros) => of_day(day)
            .wrapping_add(of_clock(clock))
            .wrapping_add(micros as u64),
    }
}

#[inline]
fn of_binary(value: BinaryValue<'_>) -> u64 {
    match value {
        BinaryValue::Null => NULL,
        BinaryValue::Tiny(number) => number as u64,
        BinaryValue::Short(number) => number as u64,
        BinaryValue::Long(number) | BinaryValue::Float(number) => number as u64,
        BinaryValue::LongLong(number) | BinaryValue::Double(number) => number,
        BinaryValue::Date(date) => of_date(date),
        BinaryValue::Time(BinaryTime::Zero) => 0,
        BinaryValue::Time(BinaryTime::Seconds(span) | BinaryTime::Micros(span, _)) => {
            span.days as u64
        }
        BinaryValue::Text(text) => summary(text),
    }
}

#[inline(never)]
fn columns_by_values(row: &BinaryRow<'_>) -> Option<u64> {
    let mut sum = 0u64;
    for value in BinaryValues::new(row, &TYPES) {
        sum = sum.wrapping_add(of_binary(value.ok()?));
    }
    Some(sum)
}

#[inline(never)]
fn columns_by_value(alloc: Global, row: &BinaryRow<'_>) -> Option<u64> {
    let mut rest = ParseBuf(row.values);
    let mut sum = 0u64;
    for place in 0..TYPES.len() {
        let value = row.value(alloc, place, TYPES[place], &mut rest).ok()?;
        sum = sum.wrapping_add(of_binary(value));
    }
    Some(sum)
}

// A date and its time.
fn date_by_hand(rest: &mut ParseBuf<'_>) -> Option<u64> {
    match rest.checked_eat(8)? {
        [7, low, high, month, day, hour, minute, second] => {
            let year = u16::from_le_bytes([*low, *high]);
            let day = 65536 * year as u64 + 256 * *month as u64 + *day as u64;
            Some(day + 65536 * *hour as u64 + 256 * *minute as u64 + *second as u64)
        }
        _ => None,
    }
}

fn column_by_hand(column_type: ColumnType, rest: &mut ParseBuf<'_>) -> Option<u64> {
    match column_type {
        ColumnType::MYSQL_TYPE_LONGLONG | ColumnType::MYSQL_TYPE_DOUBLE => {
            rest.checked_eat_u64_le()
        }
        ColumnType::MYSQL_TYPE_LONG => Some(rest.checked_eat_u32_le()? as u64),
        ColumnType::MYSQL_TYPE_SHORT => Some(rest.checked_eat_u16_le()? as u64),
        ColumnType::MYSQL_TYPE_TINY => Some(rest.checked_eat_u8()? as u64),
        ColumnType::MYSQL_TYPE_DATETIME => date_by_hand(rest),
        _ => Some(summary(rest.checked_eat_lenenc_str()?)),
    }
}

#[inline(never)]
fn columns_by_hand(row: &BinaryRow<'_>) -> Option<u64> {
    let mut rest = ParseBuf(row.values);
    let mut sum = 0u64;
    for place in 0..TYPES.len() {
        let value = if row.nulls.is_null(place) {
            NULL
        } else {
            column_by_hand(TYPES[place], &mut rest)?
        };
        sum = sum.wrapping_add(value);
    }
    Some(sum)
}

/// Rows in the binary form, of this many bytes each, after a bitmap of two: form 0 by
/// `BinaryValues`, form 1 by `BinaryRow::value`, form 2 by hand.
#[unsafe(no_mangle)]
pub extern "C" fn mw_binary_rows(
    alloc: Global,
    bytes: &[u8],
    row: u64,
    form: u64,
    reps: u64,
) -> u64 {
    let mut sum = 0u64;
    for _ in 0..reps {
        for part in bytes.chunks((row as usize).max(1)) {
            let (nulls, values) = part.split_at(part.len().min(2));
            let row = BinaryRow {
                nulls: NullBitmap(nulls),
                values,
            };
            let read = match form {
                0 => columns_by_values(&row),
                1 => columns_by_value(alloc, &row),
                _ => columns_by_hand(&row),
            };
            match read {
                Some(value) => sum = sum.wrapping_add(value),
                None => return REFUSED,
            }
        }
    }
    sum
}
