//! The values of rows: short and long texts, JSON, letters that are quoted, dates and numbers.

use crate::draws::{Draws, Letters, Script};
use mysql_wire::io::BufMutExt;
use mysql_wire::proto::MySerialize;
use mysql_wire_statements::binary_value::BinaryValue;
use mysql_wire_statements::temporal::{BinaryDate, BinaryTime, Clock, Day, Span};

/// The types of a row's columns, by their numbers: a number, three texts, a JSON, a date and its
/// time, a time, and a floating-point number.
pub const TYPES: [u8; 8] = [8, 253, 253, 253, 245, 12, 11, 5];

fn put_digits(number: usize, count: usize, text: &mut Vec<u8>) -> Option<()> {
    let mut unit = 1usize;
    for _ in 1..count.min(9) {
        unit = unit.wrapping_mul(10);
    }
    for _ in 0..count.min(9) {
        let digit = (number / unit.max(1) % 10) as u8;
        text.push(b'0' + digit).ok()?;
        unit /= 10;
    }
    Some(())
}

// A date and its time.
fn put_date(draws: &mut Draws, text: &mut Vec<u8>) -> Option<()> {
    put_digits(1970 + draws.below(99), 4, text)?;
    for (mark, most) in [(b'-', 11), (b'-', 27), (b' ', 23), (b':', 59), (b':', 59)] {
        text.push(mark).ok()?;
        put_digits(draws.below(most), 2, text)?;
    }
    Some(())
}

// An object of three members.
fn put_json(draws: &mut Draws, letters: &Letters, text: &mut Vec<u8>) -> Option<()> {
    text.extend_from_slice(b"{\"id\": ").ok()?;
    put_digits(draws.below(1_000_000), 6, text)?;
    text.extend_from_slice(b", \"name\": \"").ok()?;
    let len = draws.below(60);
    text.extend_from_slice(letters.text(draws, Script::Plain, len))
        .ok()?;
    text.extend_from_slice(b"\", \"tags\": [\"a\", \"b\\n\", null]}")
        .ok()
}

// The text of a column, which is put into `text` first.
fn fill(draws: &mut Draws, letters: &Letters, column: usize, text: &mut Vec<u8>) -> Option<()> {
    text.clear();
    let (script, len) = match column {
        0 => return put_digits(draws.below(100_000_000), 8, text),
        1 => (Script::Plain, draws.below(40)),
        2 => (Script::Plain, 65 + draws.below(400)),
        3 => match draws.below(4) {
            0 => (Script::Wide, draws.below(200)),
            1 => (Script::Quoted, 65 + draws.below(200)),
            _ => (Script::Quoted, draws.below(50)),
        },
        4 => return put_json(draws, letters, text),
        5 => return put_date(draws, text),
        _ => return put_digits(draws.below(10_000), 4, text),
    };
    text.extend_from_slice(letters.text(draws, script, len))
        .ok()
}

// Puts a row of texts, of which one in twenty is NULL.
pub(crate) fn put_text_row(
    draws: &mut Draws,
    letters: &Letters,
    text: &mut Vec<u8>,
    payload: &mut Vec<u8>,
) -> Option<()> {
    for column in 0..TYPES.len() {
        if draws.below(20) == 0 {
            payload.push(0xfb).ok()?;
        } else {
            fill(draws, letters, column, text)?;
            payload.put_lenenc_str(text.as_slice()).ok()?;
        }
    }
    Some(())
}

fn clock(draws: &mut Draws) -> Clock {
    Clock {
        hour: draws.byte() % 24,
        minute: draws.byte() % 60,
        second: draws.byte() % 60,
    }
}

// A date.
pub(crate) fn date(draws: &mut Draws) -> BinaryDate {
    let day = Day {
        year: 1970 + draws.byte() as u16,
        month: 1 + draws.byte() % 12,
        day: 1 + draws.byte() % 28,
    };
    match draws.below(8) {
        0 => BinaryDate::Zero,
        1 | 2 => BinaryDate::Date(day),
        3 => BinaryDate::Micros(day, clock(draws), draws.byte() as u32),
        _ => BinaryDate::Seconds(day, clock(draws)),
    }
}

// A span of time.
pub(crate) fn time(draws: &mut Draws) -> BinaryTime {
    let span = Span {
        sign: draws.byte() % 2,
        days: draws.byte() as u32,
        clock: clock(draws),
    };
    match draws.below(8) {
        0 => BinaryTime::Zero,
        1 => BinaryTime::Micros(span, draws.byte() as u32),
        _ => BinaryTime::Seconds(span),
    }
}

// Puts a column's value in its binary form.
fn put_value(
    draws: &mut Draws,
    letters: &Letters,
    column: usize,
    text: &mut Vec<u8>,
    payload: &mut Vec<u8>,
) -> Option<()> {
    match column {
        0 => BinaryValue::LongLong(draws.word()).serialize(payload).ok(),
        5 => BinaryValue::Date(date(draws)).serialize(payload).ok(),
        6 => BinaryValue::Time(time(draws)).serialize(payload).ok(),
        7 => BinaryValue::Double(draws.word()).serialize(payload).ok(),
        _ => {
            fill(draws, letters, column, text)?;
            BinaryValue::Text(text.as_slice()).serialize(payload).ok()
        }
    }
}

// Puts a row in the binary form, of which one value in eight is NULL.
pub(crate) fn put_binary_row(
    draws: &mut Draws,
    letters: &Letters,
    text: &mut Vec<u8>,
    payload: &mut Vec<u8>,
) -> Option<()> {
    let null = draws.below(8);
    let [low, high] = (1u16 << (2 + null.min(7))).to_le_bytes();
    payload.extend_from_slice(&[0, low, high]).ok()?;
    for column in 0..TYPES.len() {
        if column != null {
            put_value(draws, letters, column, text, payload)?;
        }
    }
    Some(())
}
