//! Numbers and texts at a place in bytes. Each call moves the place past what it read or wrote
//! where it answers `OK`, and changes nothing where not.

ghost use Rattle.std.specs.Prelude.{◌≡◌, ◌⊎◌, ◌+◌, ◌-◌, ◌<◌, ◌≤◌, [], ◌∷◌, ◌++◌, length, take, drop, slice_get, Some, IsTrue, ◌↔◌, MatchOption};
ghost use Rattle.std.specs.List.{before_first, after_first};
ghost use Rattle.wire_buf.specs.Numbers.{le_bytes, le_number};
ghost use Rattle.wire_buf.specs.NullText.{is_zero};
ghost use Rattle.wire_buf.specs.Reading.{EatsIfThere};
ghost use Rattle.wire_buf.specs.Spelling.{SpellsNothing};
ghost use Rattle.wire_buf.specs.Lenenc.{IsLenenc, IsLenencOrMark, lenenc_bytes};
ghost use Rattle.mysql_wire_c_calls.specs.Fields.{IsCutShort, IsMark, ReadsAt, WritesAt, text_at};

use crate::codes::{MISSING_BYTES, NOT_A_NUMBER, NULL, OK, ROOM_TOO_SMALL};
use wire_buf::io::ParseBuf;

/// Where a text stands in the bytes that were read.
#[repr(C)]
#[derive(Clone, Copy)]
pub struct Span {
    pub at: usize,
    pub len: usize,
}

// What stands from a place on.
fn rest(bytes: &[u8], at: usize) -> Option<ParseBuf<'_>>
    ensures { MatchOption result (length bytes.now < at)
        (λ buf. (at ≤ length bytes.now) × (buf.0.now ≡ drop at bytes.now)) }
{
    if at <= bytes.len() {
        Some(ParseBuf(&bytes[at..]))
    } else {
        None
    }
}

// A number of this many bytes.
fn eat_int(buf: &mut ParseBuf<'_>, width: usize) -> Option<u64>
    requires { (1 ≤ width) × (width ≤ 8) }
    ensures { EatsIfThere width le_number buf.old.0.now result buf.new.0.now }
{
    match width {
        1 => Some(buf.checked_eat_u8()? as u64),
        2 => Some(buf.checked_eat_u16_le()? as u64),
        3 => Some(buf.checked_eat_u24_le()? as u64),
        4 => Some(buf.checked_eat_u32_le()? as u64),
        5 => buf.checked_eat_u40_le(),
        6 => buf.checked_eat_u48_le(),
        7 => buf.checked_eat_u56_le(),
        _ => buf.checked_eat_u64_le(),
    }
}

/// Reads a number of `width` bytes, 1 to 8, the least significant first. `NOT_A_NUMBER`: another
/// width. `MISSING_BYTES`: there are fewer.
///
/// <https://dev.mysql.com/doc/dev/mysql-server/latest/page_protocol_basic_dt_integers.html>
pub fn read_int(bytes: &[u8], at: &mut usize, width: usize, value: &mut u64) -> i32
    ensures read { result ≡ OK → (value.new ≡ le_number (take width (drop at.old bytes.now)))
        × (at.new ≡ at.old + width) × (at.new ≤ length bytes.now) }
    ensures missing { result ≡ MISSING_BYTES → length bytes.now < at.old + width }
    ensures width { result ≡ NOT_A_NUMBER ↔ (width < 1) ⊎ (8 < width) }
    ensures refused { (result ≡ OK) ⊎ ((at.new ≡ at.old) × (value.new ≡ value.old)) }
    ensures answers { (result ≡ OK) ⊎ (result ≡ MISSING_BYTES) ⊎ (result ≡ NOT_A_NUMBER) }
{
    if width < 1 || 8 < width {
        return NOT_A_NUMBER;
    }
    let Some(mut buf) = rest(bytes, *at) else {
        return MISSING_BYTES;
    };
    match eat_int(&mut buf, width) {
        Some(n) => {
            *value = n;
            *at += width;
            OK
        }
        None => MISSING_BYTES,
    }
}

// Whether the first byte begins no length-encoded integer.
fn is_mark(bytes: &[u8]) -> bool
    ensures { IsTrue result ↔ IsMark bytes.now }
{
    matches!(bytes.first(), Some(0xfb | 0xff))
}

/// Reads an `int<lenenc>`. `NOT_A_NUMBER`: its first byte is `fb` or `ff`. `MISSING_BYTES`: it is
/// cut short.
///
/// <https://dev.mysql.com/doc/dev/mysql-server/latest/page_protocol_basic_dt_integers.html>
pub fn read_lenenc_int(bytes: &[u8], at: &mut usize, value: &mut u64) -> i32
    ensures read { result ≡ OK → ReadsAt IsLenenc bytes.now at.old value.new at.new }
    ensures missing { result ≡ MISSING_BYTES
        → SpellsNothing IsLenencOrMark (drop at.old bytes.now) }
    ensures mark { result ≡ NOT_A_NUMBER → IsMark (drop at.old bytes.now) }
    ensures refused { (result ≡ OK) ⊎ ((at.new ≡ at.old) × (value.new ≡ value.old)) }
    ensures answers { (result ≡ OK) ⊎ (result ≡ MISSING_BYTES) ⊎ (result ≡ NOT_A_NUMBER) }
{
    let Some(mut buf) = rest(bytes, *at) else {
        return MISSING_BYTES;
    };
    if is_mark(buf.0) {
        return NOT_A_NUMBER;
    }
    match buf.checked_eat_lenenc_int() {
        Some(n) => {
            *value = n;
            *at = bytes.len() - buf.len();
            OK
        }
        None => MISSING_BYTES,
    }
}

/// Reads a `string<lenenc>`: where the text after an `int<lenenc>` stands. It answers as
/// `read_lenenc_int`, and `MISSING_BYTES` where the text is cut short.
///
/// <https://dev.mysql.com/doc/dev/mysql-server/latest/page_protocol_basic_dt_strings.html>
pub fn read_lenenc_bytes(bytes: &[u8], at: &mut usize, text: &mut Span) -> i32
    ensures read { result ≡ OK → ReadsAt IsLenenc bytes.now at.old text.new.len text.new.at
        × (at.new ≡ text.new.at + text.new.len) × (at.new ≤ length bytes.now) }
    ensures missing { result ≡ MISSING_BYTES → IsCutShort bytes.now at.old }
    ensures mark { result ≡ NOT_A_NUMBER → IsMark (drop at.old bytes.now) }
    ensures refused { (result ≡ OK) ⊎ ((at.new ≡ at.old) × (text.new ≡ text.old)) }
    ensures answers { (result ≡ OK) ⊎ (result ≡ MISSING_BYTES) ⊎ (result ≡ NOT_A_NUMBER) }
{
    let mut start = *at;
    let mut len = 0;
    let code = read_lenenc_int(bytes, &mut start, &mut len);
    if code != OK {
        return code;
    }
    let len = len as usize;
    if bytes.len() - start < len {
        return MISSING_BYTES;
    }
    *text = Span { at: start, len };
    *at = start + len;
    OK
}

/// Reads a `string<NUL>`: where the text before the next zero stands. `MISSING_BYTES`: there is no
/// zero.
///
/// <https://dev.mysql.com/doc/dev/mysql-server/latest/page_protocol_basic_dt_strings.html>
pub fn read_null_bytes(bytes: &[u8], at: &mut usize, text: &mut Span) -> i32
    ensures read { result ≡ OK → (text.new.at ≡ at.old)
        × (text_at text.new bytes.now ≡ before_first is_zero (drop at.old bytes.now))
        × (at.new ≡ at.old + text.new.len + 1) × (at.new ≤ length bytes.now) }
    ensures missing { result ≡ MISSING_BYTES
        → before_first is_zero (drop at.old bytes.now) ≡ drop at.old bytes.now }
    ensures refused { (result ≡ OK) ⊎ ((at.new ≡ at.old) × (text.new ≡ text.old)) }
    ensures answers { (result ≡ OK) ⊎ (result ≡ MISSING_BYTES) }
{
    let Some(mut buf) = rest(bytes, *at) else {
        return MISSING_BYTES;
    };
    let len = buf.eat_null_str().len();
    if len == bytes.len() - *at {
        return MISSING_BYTES;
    }
    *text = Span { at: *at, len };
    *at += len + 1;
    OK
}

/// Reads this many bytes: where they stand. `MISSING_BYTES`: there are fewer.
///
/// <https://dev.mysql.com/doc/dev/mysql-server/latest/page_protocol_basic_dt_strings.html>
pub fn read_bytes(bytes: &[u8], at: &mut usize, count: usize, text: &mut Span) -> i32
    ensures read { result ≡ OK → (text.new.at ≡ at.old) × (text.new.len ≡ count)
        × (at.new ≡ at.old + count) × (at.new ≤ length bytes.now) }
    ensures missing { result ≡ MISSING_BYTES → length bytes.now < at.old + count }
    ensures refused { (result ≡ OK) ⊎ ((at.new ≡ at.old) × (text.new ≡ text.old)) }
    ensures answers { (result ≡ OK) ⊎ (result ≡ MISSING_BYTES) }
{
    let start = *at;
    let code = skip(bytes, at, count);
    if code == OK {
        *text = Span {
            at: start,
            len: count,
        };
    }
    code
}

/// Moves past this many bytes. `MISSING_BYTES`: there are fewer.
pub fn skip(bytes: &[u8], at: &mut usize, count: usize) -> i32
    ensures past { result ≡ OK → (at.new ≡ at.old + count) × (at.new ≤ length bytes.now) }
    ensures missing { result ≡ MISSING_BYTES → length bytes.now < at.old + count }
    ensures refused { (result ≡ OK) ⊎ (at.new ≡ at.old) }
    ensures answers { (result ≡ OK) ⊎ (result ≡ MISSING_BYTES) }
{
    if bytes.len() < *at || bytes.len() - *at < count {
        return MISSING_BYTES;
    }
    *at += count;
    OK
}

/// Reads a `string<EOF>`: where the bytes up to the end stand. `MISSING_BYTES`: the place is after
/// the end.
///
/// <https://dev.mysql.com/doc/dev/mysql-server/latest/page_protocol_basic_dt_strings.html>
pub fn read_rest(bytes: &[u8], at: &mut usize, text: &mut Span) -> i32
    ensures read { result ≡ OK → (text.new.at ≡ at.old) × (at.new ≡ at.old + text.new.len)
        × (at.new ≡ length bytes.now) }
    ensures missing { result ≡ MISSING_BYTES → length bytes.now < at.old }
    ensures refused { (result ≡ OK) ⊎ ((at.new ≡ at.old) × (text.new ≡ text.old)) }
    ensures answers { (result ≡ OK) ⊎ (result ≡ MISSING_BYTES) }
{
    if bytes.len() < *at {
        return MISSING_BYTES;
    }
    *text = Span {
        at: *at,
        len: bytes.len() - *at,
    };
    *at = bytes.len();
    OK
}

// Whether the byte there stands for NULL.
fn is_null(bytes: &[u8], at: usize) -> bool
    ensures null { IsTrue result ↔ (slice_get (drop at bytes.now) 0 ≡ Some 0xfb) }
    ensures there { IsTrue result → at < length bytes.now }
{
    match rest(bytes, at) {
        Some(buf) => matches!(buf.0.first(), Some(0xfb)),
        None => false,
    }
}

/// Reads a `string<lenenc>` that may be NULL, as in a row of a text result. `NULL`: its one byte is
/// `fb`, and the text has no bytes. `NOT_A_NUMBER`: its first byte is `ff`. `MISSING_BYTES`: it is
/// cut short.
///
/// <https://dev.mysql.com/doc/dev/mysql-server/latest/page_protocol_com_query_response_text_resultset_row.html>
pub fn read_nullable_bytes(bytes: &[u8], at: &mut usize, text: &mut Span) -> i32
    ensures null { result ≡ NULL ↔ (slice_get (drop at.old bytes.now) 0 ≡ Some 0xfb) }
    ensures past { result ≡ NULL → (at.new ≡ at.old + 1) × (at.new ≤ length bytes.now)
        × (text.new.at ≡ at.new) × (text.new.len ≡ 0) }
    ensures read { result ≡ OK → ReadsAt IsLenenc bytes.now at.old text.new.len text.new.at
        × (at.new ≡ text.new.at + text.new.len) × (at.new ≤ length bytes.now) }
    ensures missing { result ≡ MISSING_BYTES → IsCutShort bytes.now at.old }
    ensures mark { result ≡ NOT_A_NUMBER → slice_get (drop at.old bytes.now) 0 ≡ Some 0xff }
    ensures refused { (result ≡ OK) ⊎ (result ≡ NULL)
        ⊎ ((at.new ≡ at.old) × (text.new ≡ text.old)) }
    ensures answers { (result ≡ OK) ⊎ (result ≡ NULL) ⊎ (result ≡ MISSING_BYTES)
        ⊎ (result ≡ NOT_A_NUMBER) }
{
    if is_null(bytes, *at) {
        *at += 1;
        *text = Span { at: *at, len: 0 };
        return NULL;
    }
    read_lenenc_bytes(bytes, at, text)
}

// Writes bytes at a place.
fn write(room: &mut [u8], at: &mut usize, bytes: &[u8]) -> i32
    ensures written { result ≡ OK → WritesAt room.old at.old bytes.now room.new at.new }
    ensures small { result ≡ ROOM_TOO_SMALL → length room.old < at.old + length bytes.now }
    ensures refused { (result ≡ OK) ⊎ ((at.new ≡ at.old) × (room.new ≡ room.old)) }
    ensures answers { (result ≡ OK) ⊎ (result ≡ ROOM_TOO_SMALL) }
{
    if room.len() < *at || room.len() - *at < bytes.len() {
        return ROOM_TOO_SMALL;
    }
    let end = *at + bytes.len();
    room[*at..end].copy_from_slice(bytes);
    *at = end;
    OK
}

// Writes bytes at a place, and more after them, or nothing.
#[tactic(auto, using(crate::proofs::FieldLemmas::writes_on))]
fn write_both(room: &mut [u8], at: &mut usize, front: &[u8], back: &[u8]) -> i32
    ensures written { result ≡ OK
        → WritesAt room.old at.old (front.now ++ back.now) room.new at.new }
    ensures small { result ≡ ROOM_TOO_SMALL
        → length room.old < at.old + length (front.now ++ back.now) }
    ensures refused { (result ≡ OK) ⊎ ((at.new ≡ at.old) × (room.new ≡ room.old)) }
    ensures answers { (result ≡ OK) ⊎ (result ≡ ROOM_TOO_SMALL) }
{
    if room.len() < *at
        || room.len() - *at < front.len()
        || room.len() - *at - front.len() < back.len()
    {
        return ROOM_TOO_SMALL;
    }
    write(room, at, front);
    write(room, at, back)
}

/// Writes the low `width` bytes of a number, 1 to 8, the least significant first. `NOT_A_NUMBER`:
/// another width. `ROOM_TOO_SMALL`: there is less room.
///
/// <https://dev.mysql.com/doc/dev/mysql-server/latest/page_protocol_basic_dt_integers.html>
pub fn write_int(room: &mut [u8], at: &mut usize, width: usize, value: u64) -> i32
    ensures written { result ≡ OK
        → WritesAt room.old at.old (le_bytes width value) room.new at.new }
    ensures small { result ≡ ROOM_TOO_SMALL → length room.old < at.old + width }
    ensures width { result ≡ NOT_A_NUMBER ↔ (width < 1) ⊎ (8 < width) }
    ensures refused { (result ≡ OK) ⊎ ((at.new ≡ at.old) × (room.new ≡ room.old)) }
    ensures answers { (result ≡ OK) ⊎ (result ≡ ROOM_TOO_SMALL) ⊎ (result ≡ NOT_A_NUMBER) }
{
    if width < 1 || 8 < width {
        return NOT_A_NUMBER;
    }
    write(room, at, &value.to_le_bytes()[..width])
}

// The spelling of a length-encoded integer, and how many bytes it has.
fn spelling(n: u64) -> ([u8; 9], usize)
    ensures bytes { take result.1 result.0 ≡ lenenc_bytes n }
    ensures len { result.1 ≤ 9 }
{
    let [a, b, c, d, e, f, g, h] = n.to_le_bytes();
    if n < 251 {
        ([a, 0, 0, 0, 0, 0, 0, 0, 0], 1)
    } else if n < 65_536 {
        ([0xfc, a, b, 0, 0, 0, 0, 0, 0], 3)
    } else if n < 16_777_216 {
        ([0xfd, a, b, c, 0, 0, 0, 0, 0], 4)
    } else {
        ([0xfe, a, b, c, d, e, f, g, h], 9)
    }
}

/// Writes an `int<lenenc>`, in as few bytes as hold it. `ROOM_TOO_SMALL`: there is less room.
///
/// <https://dev.mysql.com/doc/dev/mysql-server/latest/page_protocol_basic_dt_integers.html>
pub fn write_lenenc_int(room: &mut [u8], at: &mut usize, value: u64) -> i32
    ensures written { result ≡ OK → WritesAt room.old at.old (lenenc_bytes value) room.new at.new }
    ensures small { result ≡ ROOM_TOO_SMALL
        → length room.old < at.old + length (lenenc_bytes value) }
    ensures refused { (result ≡ OK) ⊎ ((at.new ≡ at.old) × (room.new ≡ room.old)) }
    ensures answers { (result ≡ OK) ⊎ (result ≡ ROOM_TOO_SMALL) }
{
    let (bytes, len) = spelling(value);
    write(room, at, &bytes[..len])
}

/// Writes a `string<lenenc>`: the text after its length as an `int<lenenc>`. `ROOM_TOO_SMALL`:
/// there is less room, and nothing is written.
///
/// <https://dev.mysql.com/doc/dev/mysql-server/latest/page_protocol_basic_dt_strings.html>
pub fn write_lenenc_bytes(room: &mut [u8], at: &mut usize, text: &[u8]) -> i32
    ensures written { result ≡ OK → WritesAt room.old at.old
        (lenenc_bytes (length text.now) ++ text.now) room.new at.new }
    ensures small { result ≡ ROOM_TOO_SMALL
        → length room.old < at.old + length (lenenc_bytes (length text.now) ++ text.now) }
    ensures refused { (result ≡ OK) ⊎ ((at.new ≡ at.old) × (room.new ≡ room.old)) }
    ensures answers { (result ≡ OK) ⊎ (result ≡ ROOM_TOO_SMALL) }
{
    let (bytes, len) = spelling(text.len() as u64);
    write_both(room, at, &bytes[..len], text)
}

/// Writes a `string<NUL>`: the text, and a zero. `ROOM_TOO_SMALL`: there is less room, and nothing
/// is written.
///
/// <https://dev.mysql.com/doc/dev/mysql-server/latest/page_protocol_basic_dt_strings.html>
pub fn write_null_bytes(room: &mut [u8], at: &mut usize, text: &[u8]) -> i32
    ensures written { result ≡ OK → WritesAt room.old at.old (text.now ++ 0 ∷ []) room.new at.new }
    ensures small { result ≡ ROOM_TOO_SMALL
        → length room.old < at.old + length (text.now ++ 0 ∷ []) }
    ensures refused { (result ≡ OK) ⊎ ((at.new ≡ at.old) × (room.new ≡ room.old)) }
    ensures answers { (result ≡ OK) ⊎ (result ≡ ROOM_TOO_SMALL) }
{
    write_both(room, at, text, &[0])
}
