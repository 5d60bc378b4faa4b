//! Column definitions.

use crate::check::{REFUSED, summary};
use mysql_wire::constants::{ColumnFlags, ColumnType};
use mysql_wire::io::{BufMutExt, ParseBuf, WireError};
use mysql_wire::misc::raw::bytes::{LenEnc, RawBytes};
use mysql_wire::misc::raw::int::{ConstU8, LeU16};
use mysql_wire::misc::raw::{Both, Const, RawFlags, Skip};
use mysql_wire::proto::MySerialize;
use std::alloc::Global;

// How many bytes of fixed fields follow the texts.
#[derive(Clone, Copy)]
struct FixedFields;

const FIXED_FIELDS: u8 = 12;

// How many texts stand before them.
const NAMES: u8 = 6;

type Text<'a> = RawBytes<'a, LenEnc>;

// The catalog and the schema; the table and its own name; the column and its own name.
type Names<'a> = Both<Pair<'a>, Both<Pair<'a>, Pair<'a>>>;

type Pair<'a> = Both<Text<'a>, Text<'a>>;

// The collation and the length; the type and the flags; the decimals and a filler.
type Numbers = Both<Sizes, Both<Kind, Both<u8, Skip<2>>>>;

type Sizes = Both<ConstU8<FixedFields, FIXED_FIELDS>, Both<u16, u32>>;

type Kind = Both<Const<ColumnType, u8>, RawFlags<ColumnFlags, LeU16>>;

type Definition<'a> = Both<Names<'a>, Numbers>;

// Reads a definition as a field.
#[inline(always)]
fn read<'a>(alloc: Global, buf: &mut ParseBuf<'a>) -> Result<Definition<'a>, WireError> {
    let names = (((), ()), (((), ()), ((), ())));
    let numbers = (((), ((), ())), (((), ()), ((), ())));
    buf.parse(alloc, (names, numbers))
}

fn of_names(names: &Names<'_>) -> u64 {
    let Both(Both(catalog, schema), Both(Both(table, org_table), Both(name, org_name))) = names;
    summary(catalog.as_bytes())
        .wrapping_add(summary(schema.as_bytes()))
        .wrapping_add(summary(table.as_bytes()))
        .wrapping_add(summary(org_table.as_bytes()))
        .wrapping_add(summary(name.as_bytes()))
        .wrapping_add(summary(org_name.as_bytes()))
}

fn of_numbers(numbers: &Numbers) -> u64 {
    let Both(Both(_, Both(collation, length)), Both(Both(column_type, flags), Both(decimals, _))) =
        numbers;
    (*collation as u64)
        .wrapping_add(*length as u64)
        .wrapping_add(column_type.0 as u64)
        .wrapping_add(flags.0 as u64)
        .wrapping_add(*decimals as u64)
}

// Reads a definition, and tells it.
#[inline(always)]
pub(crate) fn next_definition(alloc: Global, buf: &mut ParseBuf<'_>) -> Option<u64> {
    match read(alloc, buf) {
        Ok(Both(names, numbers)) => Some(of_names(&names).wrapping_add(of_numbers(&numbers))),
        Err(_) => None,
    }
}

// The definitions, one after another, each parsed as a field.
fn definitions(alloc: Global, bytes: &[u8]) -> Option<u64> {
    let mut buf = ParseBuf(bytes);
    let mut sum = 0u64;
    for _ in 0..bytes.len() {
        if buf.is_empty() {
            break;
        }
        sum = sum.wrapping_add(next_definition(alloc, &mut buf)?);
    }
    Some(sum)
}

/// Column definitions, read one after another by `parse`.
#[unsafe(no_mangle)]
pub extern "C" fn mw_coldef(alloc: Global, bytes: &[u8], reps: u64) -> u64 {
    let mut sum = 0u64;
    for _ in 0..reps {
        match definitions(alloc, bytes) {
            Some(value) => sum = sum.wrapping_add(value),
            None => return REFUSED,
        }
    }
    sum
}

// The numbers of a definition, read by hand.
#[derive(Clone, Copy)]
struct Plain {
    collation: u16,
    length: u32,
    column_type: ColumnType,
    flags: u16,
    decimals: u8,
}

// Reads the numbers, each by a call of the buffer's.
fn read_plain(buf: &mut ParseBuf<'_>) -> Option<Plain> {
    if buf.checked_eat_u8()? != FIXED_FIELDS {
        return None;
    }
    let collation = buf.checked_eat_u16_le()?;
    let length = buf.checked_eat_u32_le()?;
    let column_type = ColumnType::try_from(buf.checked_eat_u8()?).ok()?;
    let flags = buf.checked_eat_u16_le()?;
    let decimals = buf.checked_eat_u8()?;
    if !buf.checked_skip(2) {
        return None;
    }
    Some(Plain {
        collation,
        length,
        column_type,
        flags,
        decimals,
    })
}

fn of_plain(plain: Plain) -> u64 {
    (plain.collation as u64)
        .wrapping_add(plain.length as u64)
        .wrapping_add(plain.column_type as u64)
        .wrapping_add(plain.flags as u64)
        .wrapping_add(plain.decimals as u64)
}

// Reads a definition, each part by a call of the buffer's.
fn plain_definition(buf: &mut ParseBuf<'_>) -> Option<u64> {
    let mut sum = 0u64;
    for _ in 0..NAMES {
        sum = sum.wrapping_add(summary(buf.checked_eat_lenenc_str()?));
    }
    Some(sum.wrapping_add(of_plain(read_plain(buf)?)))
}

fn plain_definitions(bytes: &[u8]) -> Option<u64> {
    let mut buf = ParseBuf(bytes);
    let mut sum = 0u64;
    for _ in 0..bytes.len() {
        if buf.is_empty() {
            break;
        }
        sum = sum.wrapping_add(plain_definition(&mut buf)?);
    }
    Some(sum)
}

/// The same, each part read by a call of the buffer's.
#[unsafe(no_mangle)]
pub extern "C" fn mw_coldef_by_hand(alloc: Global, bytes: &[u8], reps: u64) -> u64 {
    let _ = alloc;
    let mut sum = 0u64;
    for _ in 0..reps {
        match plain_definitions(bytes) {
            Some(value) => sum = sum.wrapping_add(value),
            None => return REFUSED,
        }
    }
    sum
}

// Writes what was read.
fn put<T: MySerialize + Drop>(value: Result<T, WireError>, out: &mut Vec<u8>) -> Option<()> {
    value.ok()?.serialize(out).ok()
}

// Each definition read as a field and written again.
fn copy_definitions(alloc: Global, bytes: &[u8], out: &mut Vec<u8>) -> Option<u64> {
    let mut buf = ParseBuf(bytes);
    out.clear();
    for _ in 0..bytes.len() {
        if buf.is_empty() {
            break;
        }
        put(read(alloc, &mut buf), out)?;
    }
    Some(summary(out.as_slice()))
}

fn put_plain(plain: Plain, out: &mut Vec<u8>) -> Result<(), WireError> {
    let [a, b] = plain.collation.to_le_bytes();
    let [c, d, e, f] = plain.length.to_le_bytes();
    let [g, h] = plain.flags.to_le_bytes();
    let kind = plain.column_type as u8;
    let bytes = [
        FIXED_FIELDS,
        a,
        b,
        c,
        d,
        e,
        f,
        kind,
        g,
        h,
        plain.decimals,
        0,
        0,
    ];
    out.extend_from_slice(&bytes)?;
    Ok(())
}

// Reads a definition and writes it, each part by a call.
fn copy_plain_definition(buf: &mut ParseBuf<'_>, out: &mut Vec<u8>) -> Option<()> {
    for _ in 0..NAMES {
        out.put_lenenc_str(buf.checked_eat_lenenc_str()?).ok()?;
    }
    put_plain(read_plain(buf)?, out).ok()
}

// The same by hand.
fn copy_plain(bytes: &[u8], out: &mut Vec<u8>) -> Option<u64> {
    let mut buf = ParseBuf(bytes);
    out.clear();
    for _ in 0..bytes.len() {
        if buf.is_empty() {
            break;
        }
        copy_plain_definition(&mut buf, out)?;
    }
    Some(summary(out.as_slice()))
}

/// Column definitions, read and written again: form 0 as fields, form 1 each part by hand.
#[unsafe(no_mangle)]
pub extern "C" fn mw_coldef_copy(alloc: Global, bytes: &[u8], form: u64, reps: u64) -> u64 {
    let mut out = Vec::new(alloc);
    let mut sum = 0u64;
    for _ in 0..reps {
        let copied = if form == 0 {
            copy_definitions(alloc, bytes, &mut out)
        } else {
            copy_plain(bytes, &mut out)
        };
        match copied {
            Some(value) => sum = sum.wrapping_add(value),
            None => return REFUSED,
        }
    }
    sum
}
