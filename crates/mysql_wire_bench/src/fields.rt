//! Texts and numbers in rows.

use crate::check::{REFUSED, summary};
use bytes::BytesMut;
use mysql_wire::io::{BufMutExt, ParseBuf, WireError};
use mysql_wire::misc::raw::bytes::{LenEnc, NullBytes, RawBytes};
use std::alloc::Global;

// The texts of all columns, one after another.
fn row_texts(bytes: &[u8]) -> Option<u64> {
    let mut buf = ParseBuf(bytes);
    let mut sum = 0u64;
    for _ in 0..bytes.len() {
        if buf.is_empty() {
            break;
        }
        let text = buf.checked_eat_lenenc_str()?;
        sum = sum.wrapping_add(summary(text));
    }
    Some(sum)
}

// The same, each column parsed as a field.
fn row_fields(alloc: Global, bytes: &[u8]) -> Option<u64> {
    let mut buf = ParseBuf(bytes);
    let mut sum = 0u64;
    for _ in 0..bytes.len() {
        if buf.is_empty() {
            break;
        }
        let text = buf.parse::<RawBytes<LenEnc>>(alloc, ()).ok()?;
        sum = sum.wrapping_add(summary(text.as_bytes()));
    }
    Some(sum)
}

/// Rows of length-encoded texts, read column by column: form 0 by `checked_eat_lenenc_str`, form 1
/// by `parse`.
#[unsafe(no_mangle)]
pub extern "C" fn mw_row(alloc: Global, bytes: &[u8], _cols: u64, form: u64, reps: u64) -> u64 {
    let mut sum = 0u64;
    for _ in 0..reps {
        let texts = if form == 0 {
            row_texts(bytes)
        } else {
            row_fields(alloc, bytes)
        };
        match texts {
            Some(value) => sum = sum.wrapping_add(value),
            None => return REFUSED,
        }
    }
    sum
}

// Each text read and written again, to a `Vec`.
fn copy_texts(bytes: &[u8], out: &mut Vec<u8>) -> Result<u64, WireError> {
    let mut buf = ParseBuf(bytes);
    out.clear();
    for _ in 0..bytes.len() {
        let Some(text) = buf.checked_eat_lenenc_str() else {
            break;
        };
        out.put_lenenc_str(text)?;
    }
    Ok(summary(out.as_slice()))
}

// The same, to a `BytesMut`.
fn copy_texts_shared(bytes: &[u8], out: &mut BytesMut) -> Result<u64, WireError> {
    let mut buf = ParseBuf(bytes);
    out.clear();
    for _ in 0..bytes.len() {
        let Some(text) = buf.checked_eat_lenenc_str() else {
            break;
        };
        out.put_lenenc_str(text)?;
    }
    Ok(summary(out.as_slice()))
}

/// Rows of length-encoded texts, read and written again: form 0 into a `Vec`, form 1 into a
/// `BytesMut`.
#[unsafe(no_mangle)]
pub extern "C" fn mw_row_copy(alloc: Global, bytes: &[u8], form: u64, reps: u64) -> u64 {
    let mut out = Vec::new(alloc);
    let mut shared = BytesMut::new(alloc);
    let mut sum = 0u64;
    for _ in 0..reps {
        let copied = if form == 0 {
            copy_texts(bytes, &mut out)
        } else {
            copy_texts_shared(bytes, &mut shared)
        };
        match copied {
            Ok(value) => sum = sum.wrapping_add(value),
            Err(_) => return REFUSED,
        }
    }
    sum
}

// The texts of all fields that a zero ends.
fn null_texts(bytes: &[u8]) -> u64 {
    let mut buf = ParseBuf(bytes);
    let mut sum = 0u64;
    for _ in 0..bytes.len() {
        if buf.is_empty() {
            break;
        }
        sum = sum.wrapping_add(summary(buf.eat_null_str()));
    }
    sum
}

// The same, each text parsed as a field.
fn null_fields(alloc: Global, bytes: &[u8]) -> Option<u64> {
    let mut buf = ParseBuf(bytes);
    let mut sum = 0u64;
    for _ in 0..bytes.len() {
        if buf.is_empty() {
            break;
        }
        let text = buf.parse::<RawBytes<NullBytes>>(alloc, ()).ok()?;
        sum = sum.wrapping_add(summary(text.as_bytes()));
    }
    Some(sum)
}

/// Texts that a zero ends, read one after another: form 0 by `eat_null_str`, form 1 by `parse`.
#[unsafe(no_mangle)]
pub extern "C" fn mw_null(alloc: Global, bytes: &[u8], form: u64, reps: u64) -> u64 {
    let mut sum = 0u64;
    for _ in 0..reps {
        let texts = if form == 0 {
            Some(null_texts(bytes))
        } else {
            null_fields(alloc, bytes)
        };
        match texts {
            Some(value) => sum = sum.wrapping_add(value),
            None => return REFUSED,
        }
    }
    sum
}

// Each number written, to a `Vec`.
fn put_numbers(bytes: &[u8], out: &mut Vec<u8>) -> Result<u64, WireError> {
    let mut numbers = ParseBuf(bytes);
    out.clear();
    for _ in 0..bytes.len() / 8 {
        if let Some(number) = numbers.checked_eat_u64_le() {
            out.put_lenenc_int(number)?;
        }
    }
    Ok(summary(out.as_slice()))
}

// The same, to a `BytesMut`.
fn put_numbers_shared(bytes: &[u8], out: &mut BytesMut) -> Result<u64, WireError> {
    let mut numbers = ParseBuf(bytes);
    out.clear();
    for _ in 0..bytes.len() / 8 {
        if let Some(number) = numbers.checked_eat_u64_le() {
            out.put_lenenc_int(number)?;
        }
    }
    Ok(summary(out.as_slice()))
}

/// Numbers of 8 bytes written as length-encoded integers: form 0 into a `Vec`, form 1 into a
/// `BytesMut`.
#[unsafe(no_mangle)]
pub extern "C" fn mw_put_lenenc(alloc: Global, bytes: &[u8], form: u64, reps: u64) -> u64 {
    let mut out = Vec::new(alloc);
    let mut shared = BytesMut::new(alloc);
    let mut sum = 0u64;
    for _ in 0..reps {
        let put = if form == 0 {
            put_numbers(bytes, &mut out)
        } else {
            put_numbers_shared(bytes, &mut shared)
        };
        match put {
            Ok(value) => sum = sum.wrapping_add(value),
            Err(_) => return REFUSED,
        }
    }
    sum
}

// The sum of all numbers.
fn eat_numbers(bytes: &[u8]) -> Option<u64> {
    let mut buf = ParseBuf(bytes);
    let mut sum = 0u64;
    for _ in 0..bytes.len() {
        if buf.is_empty() {
            break;
        }
        sum = sum.wrapping_add(buf.checked_eat_lenenc_int()?);
    }
    Some(sum)
}

/// Length-encoded integers, read one after another.
#[unsafe(no_mangle)]
pub extern "C" fn mw_eat_lenenc(alloc: Global, bytes: &[u8], reps: u64) -> u64 {
    let _ = alloc;
    let mut sum = 0u64;
    for _ in 0..reps {
        match eat_numbers(bytes) {
            Some(value) => sum = sum.wrapping_add(value),
            None => return REFUSED,
        }
    }
    sum
}
