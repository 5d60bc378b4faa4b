//! Packets of a connection, by their types and by hand.

use crate::check::{REFUSED, summary};
use mysql_wire::io::ParseBuf;
use mysql_wire::misc::raw::Either;
use mysql_wire_packets::ok_packet::{InfoForm, OkPacket};
use mysql_wire_queries::text_row::TextValue;
use std::alloc::Global;

// What NULL adds to a sum.
const NULL: u64 = 1;

fn counts(affected_rows: u64, last_insert_id: u64, status: u16, warnings: u16) -> u64 {
    affected_rows
        .wrapping_add(last_insert_id)
        .wrapping_add(status as u64)
        .wrapping_add(warnings as u64)
}

fn ok(alloc: Global, buf: &mut ParseBuf<'_>) -> Option<u64> {
    let ok = buf
        .parse::<OkPacket<'_>>(alloc, InfoForm::LengthEncoded)
        .ok()?;
    let info = match &ok.info {
        Some(Either::Left(info)) => summary(info.as_bytes()),
        _ => 0,
    };
    let counts = counts(
        ok.affected_rows,
        ok.last_insert_id,
        ok.status_flags.0,
        ok.warnings,
    );
    Some(counts.wrapping_add(info))
}

fn ok_by_hand(buf: &mut ParseBuf<'_>) -> Option<u64> {
    if buf.checked_eat_u8()? != 0 {
        return None;
    }
    let affected_rows = buf.checked_eat_lenenc_int()?;
    let last_insert_id = buf.checked_eat_lenenc_int()?;
    let status = buf.checked_eat_u16_le()?;
    let warnings = buf.checked_eat_u16_le()?;
    let info = summary(buf.checked_eat_lenenc_str()?);
    Some(counts(affected_rows, last_insert_id, status, warnings).wrapping_add(info))
}

// The packets one after another.
fn oks(alloc: Global, bytes: &[u8], form: u64) -> Option<u64> {
    let mut buf = ParseBuf(bytes);
    let mut sum = 0u64;
    for _ in 0..bytes.len() {
        if buf.is_empty() {
            break;
        }
        let value = if form == 0 {
            ok(alloc, &mut buf)?
        } else {
            ok_by_hand(&mut buf)?
        };
        sum = sum.wrapping_add(value);
    }
    Some(sum)
}

/// `OK_Packet`s with words, one after another: form 0 by `OkPacket`, form 1 field by field.
#[unsafe(no_mangle)]
pub extern "C" fn mw_ok(alloc: Global, bytes: &[u8], form: u64, reps: u64) -> u64 {
    let mut sum = 0u64;
    for _ in 0..reps {
        match oks(alloc, bytes, form) {
            Some(value) => sum = sum.wrapping_add(value),
            None => return REFUSED,
        }
    }
    sum
}

fn value(alloc: Global, buf: &mut ParseBuf<'_>) -> Option<u64> {
    match buf.parse::<TextValue<'_>>(alloc, ()).ok()? {
        TextValue::Null => Some(NULL),
        TextValue::Text(text) => Some(summary(text)),
    }
}

fn value_by_hand(buf: &mut ParseBuf<'_>) -> Option<u64> {
    match buf.0.first() {
        Some(0xfb) => {
            buf.skip(1);
            Some(NULL)
        }
        _ => Some(summary(buf.checked_eat_lenenc_str()?)),
    }
}

// The values one after another.
fn values(alloc: Global, bytes: &[u8], form: u64) -> Option<u64> {
    let mut buf = ParseBuf(bytes);
    let mut sum = 0u64;
    for _ in 0..bytes.len() {
        if buf.is_empty() {
            break;
        }
        let value = if form == 0 {
            value(alloc, &mut buf)?
        } else {
            value_by_hand(&mut buf)?
        };
        sum = sum.wrapping_add(value);
    }
    Some(sum)
}

/// Values of rows, one after another: form 0 by `TextValue`, form 1 by hand.
#[unsafe(no_mangle)]
pub extern "C" fn mw_values(alloc: Global, bytes: &[u8], form: u64, reps: u64) -> u64 {
    let mut sum = 0u64;
    for _ in 0..reps {
        match values(alloc, bytes, form) {
            Some(value) => sum = sum.wrapping_add(value),
            None => return REFUSED,
        }
    }
    sum
}
