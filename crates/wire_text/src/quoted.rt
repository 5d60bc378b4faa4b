//! A text between quotes, with JSON's escapes.

ghost use Rattle.std.specs.Prelude.{◌≡◌, ◌<◌, ◌≤◌, ◌+◌, ◌*◌, Bool, List, ◌∷◌, ◌++◌, [], length, take, drop, IsTrue, OnErr, OnOk, string_bytes};
ghost use Rattle.json.specs.Print.{escape, escape_byte, quoted};
ghost use Rattle.std.specs.Int.RustNames.{count_ones};
ghost use Rattle.std.specs.Simd.Lanes.{mask_l};
ghost use Rattle.wire_text.specs.Backslashes.{backslashed};
ghost use Rattle.wire_text.specs.Fields.{all_ascii, escape_mark, in_quotes};

use crate::backslashes::{control_bits, last_eight, letters_of, with_backslashes};
use crate::digits::DIGITS;
use crate::escapes::{escape_bits, none_needs_escape, run_from};
use crate::put::{push_between, push_few};
use std::alloc::{AllocError, Allocator};
use std::mem;
use std::simd::prelude::*;

// A text between quotes, as it is.
pub(crate) fn push_in_quotes<A: Allocator>(
    text: &mut String<A>,
    words: &str,
) -> Result<(), AllocError>
    ensures { OnOk result (string_bytes text.new ≡ string_bytes text.old ++ in_quotes words.now) }
{
    push_between(text, "\"", words, "\"")
}

// The letter of each byte's escape: `u` where that is in hex digits, 0 where there is none.
const ESCAPE_LETTERS: [u8; 256] = [
    b'u', b'u', b'u', b'u', b'u', b'u', b'u', b'u', b'b', b't', b'n', b'u', b'f', b'r', b'u', b'u',
    b'u', b'u', b'u', b'u', b'u', b'u', b'u', b'u', b'u', b'u', b'u', b'u', b'u', b'u', b'u', b'u',
    0, 0, b'"', 0, 0, 0, 0, 0, 0, 0, 0, 0, 0, 0, 0, 0, 0, 0, 0, 0, 0, 0, 0, 0, 0, 0, 0, 0, 0, 0, 0,
    0, 0, 0, 0, 0, 0, 0, 0, 0, 0, 0, 0, 0, 0, 0, 0, 0, 0, 0, 0, 0, 0, 0, 0, 0, 0, 0, 0, 0, b'\\',
    0, 0, 0, 0, 0, 0, 0, 0, 0, 0, 0, 0, 0, 0, 0, 0, 0, 0, 0, 0, 0, 0, 0, 0, 0, 0, 0, 0, 0, 0, 0, 0,
    0, 0, 0, 0, 0, 0, 0, 0, 0, 0, 0, 0, 0, 0, 0, 0, 0, 0, 0, 0, 0, 0, 0, 0, 0, 0, 0, 0, 0, 0, 0, 0,
    0, 0, 0, 0, 0, 0, 0, 0, 0, 0, 0, 0, 0, 0, 0, 0, 0, 0, 0, 0, 0, 0, 0, 0, 0, 0, 0, 0, 0, 0, 0, 0,
    0, 0, 0, 0, 0, 0, 0, 0, 0, 0, 0, 0, 0, 0, 0, 0, 0, 0, 0, 0, 0, 0, 0, 0, 0, 0, 0, 0, 0, 0, 0, 0,
    0, 0, 0, 0, 0, 0, 0, 0, 0, 0, 0, 0, 0, 0, 0, 0, 0, 0, 0, 0, 0, 0, 0, 0, 0, 0, 0, 0, 0, 0, 0, 0,
    0, 0, 0,
];

fn escape_letter_of(byte: u8) -> u8
    ensures { result ≡ escape_mark byte }
{
    ESCAPE_LETTERS[byte as usize]
}

// What stands for a byte where JSON quotes it: this many bytes of these.
fn escape_of(byte: u8) -> ([u8; 8], usize)
    ensures { (length result.0 ≡ 8) × (result.1 ≤ 6)
        × (take result.1 result.0 ≡ escape_byte byte) }
{
    let letter = escape_letter_of(byte);
    if letter == 0 {
        return ([byte, 0, 0, 0, 0, 0, 0, 0], 1);
    }
    if letter != b'u' {
        return ([b'\\', letter, 0, 0, 0, 0, 0, 0], 2);
    }
    let high = DIGITS[(byte / 16) as usize];
    let low = DIGITS[(byte % 16) as usize];
    ([b'\\', letter, b'0', b'0', high, low, 0, 0], 6)
}

// Puts some bytes into the room.
fn put_block(room: &mut [u8], at: usize, block: &[u8])
    requires { at + length block.now ≤ length room.old }
    ensures { room.new ≡ take at room.old ++ block.now ++ drop (at + length block.now) room.old }
{
    room[at..at + block.len()].copy_from_slice(block);
}

// Puts what stands for a byte into the room. The answer is the place after it.
fn put_escaped(room: &mut [u8], at: usize, byte: u8) -> usize
    requires { at + 8 ≤ length room.old }
    ensures { (result ≤ at + 6) × (take result room.new ≡ take at room.old ++ escape_byte byte)
        × (length room.new ≡ length room.old) }
{
    if escape_letter_of(byte) == 0 {
        room[at] = byte;
        return at + 1;
    }
    let (block, len) = escape_of(byte);
    put_block(room, at, &block);
    at + len
}

// Puts eight letters into the room, with a backslash before each whose bit is set. The answer is the
// place after them.
fn put_eight(room: &mut [u8], at: usize, letters: u8x16, escapes: usize) -> usize
    requires bits { escapes < 256 }
    requires room { at + 16 ≤ length room.old }
    ensures place { result ≡ at + (8 + count_ones escapes) }
    ensures put { (set : List Bool) → length set ≡ 8 → escapes ≡ mask_l set
        → take result room.new ≡ take at room.old ++ backslashed set (take 8 letters) }
    ensures long { length room.new ≡ length room.old }
{
    put_block(room, at, &with_backslashes(letters, escapes));
    at + (8 + escapes.count_ones() as usize)
}

// The same of sixteen, but the answer is the place after so many of them.
fn put_sixteen(room: &mut [u8], begin: usize, letters: u8x16, escapes: u64, len: usize) -> usize
    requires bits { escapes < 65536 }
    requires within { len ≤ 16 }
    requires room { begin + 32 ≤ length room.old }
    ensures put { (set : List Bool) → length set ≡ 16 → escapes ≡ mask_l set
        → (result ≤ begin + 2 * len)
        × (take result room.new ≡ take begin room.old ++ backslashed (take len set) (take len letters)) }
    ensures long { length room.new ≡ length room.old }
{
    let at = put_eight(room, begin, letters, (escapes % 256) as usize);
    put_eight(room, at, last_eight(letters), (escapes >> 8) as usize);
    begin + (len + (escapes % (1 << len)).count_ones() as usize)
}

// Puts what stands for so many of the first sixteen bytes into the room, escape by escape: those before
// one are copied as sixteen. The answer is the place after them.
#[inline(never)]
fn escape_runs(room: &mut [u8], begin: usize, source: &[u8], len: usize) -> usize
    requires long { length source.now ≡ 32 }
    requires within { len ≤ 16 }
    requires room { begin + 6 * len + 16 ≤ length room.old }
    ensures { (result ≤ begin + 6 * len)
        × (take result room.new ≡ take begin room.old ++ escape (take len source.now))
        × (length room.new ≡ length room.old) }
{
    let escapes = escape_bits(&source[..16]);
    let mut at = begin;
    let mut done = 0;
    let mut run = run_from(escapes, 0);
    'escapes: while done + run < len {
        put_block(room, at, &source[done..done + 16]);
        at = put_escaped(room, at + run, source[done + run]);
        done += run + 1;
        run = run_from(escapes, done);
    }
    put_block(room, at, &source[done..done + 16]);
    at + (len - done)
}

// The same, eight bytes at once, but where an escape is of digits.
#[inline(always)]
fn escape_part(room: &mut [u8], begin: usize, source: &[u8], len: usize) -> usize
    requires long { length source.now ≡ 32 }
    requires within { len ≤ 16 }
    requires room { begin + 112 ≤ length room.old }
    ensures { (result ≤ begin + 6 * len)
        × (take result room.new ≡ take begin room.old ++ escape (take len source.now))
        × (length room.new ≡ length room.old) }
{
    let block = &source[..16];
    let within = 1 << len;
    let escapes = escape_bits(block);
    if escapes % within == 0 {
        put_block(room, begin, block);
        return begin + len;
    }
    let letters = letters_of(u8x16::from_slice(block));
    if control_bits(letters) % within != 0 {
        return escape_runs(room, begin, source, len);
    }
    put_sixteen(room, begin, letters, escapes, len)
}

// The same of so many bytes that 48 begin with.
#[inline(always)]
fn escape_front(room: &mut [u8], begin: usize, source: &[u8], len: usize) -> usize
    requires long { length source.now ≡ 48 }
    requires within { len ≤ 32 }
    requires room { begin + 112 ≤ length room.old }
    requires more { 16 < len → begin + 208 ≤ length room.old }
    ensures { (result ≤ begin + 6 * len)
        × (take result room.new ≡ take begin room.old ++ escape (take len source.now))
        × (length room.new ≡ length room.old) }
{
    let front = &source[..32];
    if len <= 16 {
        return escape_part(room, begin, front, len);
    }
    let at = escape_part(room, begin, front, 16);
    escape_part(room, at, &source[16..48], len - 16)
}

// The same of fewer than 32 bytes, with spaces behind them.
#[inline(always)]
fn escape_last(room: &mut [u8], begin: usize, words: &[u8]) -> usize
    requires short { length words.now < 32 }
    requires room { begin + 112 ≤ length room.old }
    requires more { 16 < length words.now → begin + 208 ≤ length room.old }
    ensures { (result ≤ begin + 6 * length words.now)
        × (take result room.new ≡ take begin room.old ++ escape words.now)
        × (length room.new ≡ length room.old) }
{
    let mut source = [b' '; 48];
    source[..words.len()].copy_from_slice(words);
    escape_front(room, begin, &source, words.len())
}

// The same of a few bytes, sixteen at once.
#[inline(always)]
fn escape_few(room: &mut [u8], begin: usize, words: &[u8]) -> usize
    requires short { length words.now ≤ 64 }
    requires room { begin + 496 ≤ length room.old }
    ensures { (result ≤ begin + 6 * length words.now)
        × (take result room.new ≡ take begin room.old ++ escape words.now)
        × (length room.new ≡ length room.old) }
{
    let mut at = begin;
    let mut rest = words;
    'parts: while let Some((source, _)) = rest.split_first_chunk::<32>() {
        at = escape_part(room, at, source, 16);
        rest = &rest[16..];
    }
    escape_last(room, at, rest)
}

// Puts a quote after what stands in the room. The answer is the place after it.
fn put_quote(room: &mut [u8], at: usize) -> usize
    requires { at + 1 ≤ length room.old }
    ensures { (result ≡ at + 1) × (take result room.new ≡ take at room.old ++ 34 ∷ []) }
{
    room[at] = b'"';
    at + 1
}

// The most bytes that are quoted at once, and the room for them: six bytes for each, a quote before
// them, and what is written after the last.
const FEW: usize = 64;

const ROOM: usize = 504;

// A text of a few bytes, of which some need escapes.
#[inline(never)]
pub(crate) fn push_few_escaped<A: Allocator>(
    text: &mut String<A>,
    words: &str,
) -> Result<(), AllocError>
    requires { length words.now ≤ 64 }
    ensures { OnOk result (string_bytes text.new ≡ string_bytes text.old ++ quoted words.now) }
{
    let mut room = [0; ROOM];
    room[0] = b'"';
    let at = escape_few(&mut room, 1, words.as_bytes());
    let len = put_quote(&mut room, at);
    push_few(text, &room[..len])
}

// The same room for 32 bytes.
const SHORT_ROOM: usize = 216;

// A text of ASCII that 48 bytes begin with, of which some need escapes.
pub(crate) fn push_front_escaped<A: Allocator>(
    text: &mut String<A>,
    source: &[u8],
    len: usize,
) -> Result<(), AllocError>
    requires long { length source.now ≡ 48 }
    requires within { len ≤ 32 }
    requires ascii { IsTrue (all_ascii (take len source.now)) }
    ensures { OnOk result (string_bytes text.new
        ≡ string_bytes text.old ++ quoted (take len source.now)) }
{
    let mut room = [0; SHORT_ROOM];
    room[0] = b'"';
    let at = escape_front(&mut room, 1, source, len);
    let end = put_quote(&mut room, at);
    push_few(text, &room[..end])
}

// Puts what stands for 64 bytes, which others follow, into the room. The answer is the place after it.
fn escape_parts(room: &mut [u8], source: &[u8]) -> usize
    requires long { length source.now ≡ 80 }
    requires room { 496 ≤ length room.old }
    ensures { (result ≤ length room.new) × (take result room.new ≡ escape (take 64 source.now))
        × (length room.new ≡ length room.old) }
{
    let mut at = 0;
    'parts: for part in 0..4 {
        at = escape_part(room, at, &source[16 * part..16 * part + 32], 16);
    }
    at
}

// The same of the first 64 of some bytes.
fn escape_block(room: &mut [u8], bytes: &[u8]) -> usize
    requires long { 64 ≤ length bytes.now }
    requires room { 496 ≤ length room.old }
    ensures { (result ≤ length room.new) × (take result room.new ≡ escape (take 64 bytes.now))
        × (length room.new ≡ length room.old) }
{
    match bytes.split_first_chunk::<80>() {
        Some((source, _)) => escape_parts(room, source),
        None => escape_few(room, 0, &bytes[..64]),
    }
}

// The first 64 of some bytes of a text that is quoted.
fn push_block<A: Allocator>(
    text: &mut Vec<u8, A>,
    room: &mut [u8],
    bytes: &[u8],
) -> Result<(), AllocError>
    requires long { 64 ≤ length bytes.now }
    requires room { 496 ≤ length room.old }
    ensures ok { OnOk result (text.new.items ≡ text.old.items ++ escape (take 64 bytes.now)) }
    ensures err { OnErr result (text.new.items ≡ text.old.items) }
    ensures room { length room.new ≡ length room.old }
{
    let block = &bytes[..64];
    if none_needs_escape(block) {
        return text.extend_from_slice(block);
    }
    let len = escape_block(room, bytes);
    text.extend_from_slice(&room[..len])
}

// The last bytes of such a text.
fn push_last<A: Allocator>(
    text: &mut Vec<u8, A>,
    room: &mut [u8],
    rest: &[u8],
) -> Result<(), AllocError>
    requires short { length rest.now ≤ 64 }
    requires room { 496 ≤ length room.old }
    ensures ok { OnOk result (text.new.items ≡ text.old.items ++ escape rest.now) }
    ensures err { OnErr result (text.new.items ≡ text.old.items) }
{
    let len = escape_few(room, 0, rest);
    text.extend_from_slice(&room[..len])
}

// Some of the bytes of a text that is quoted, block by block.
pub(crate) fn push_escaped<A: Allocator>(
    text: &mut Vec<u8, A>,
    words: &[u8],
) -> Result<(), AllocError>
    ensures ok { OnOk result (text.new.items ≡ text.old.items ++ escape words.now) }
    ensures front { take (length text.old.items) text.new.items ≡ text.old.items }
{
    let mut room = [0; ROOM];
    let mut rest = words;
    'rounds: while let Some((_, after)) = rest.split_first_chunk::<64>() {
        push_block(text, &mut room, rest)?;
        rest = after;
    }
    push_last(text, &mut room, rest)
}

// A text between quotes.
fn push_blocks<A: Allocator>(text: &mut Vec<u8, A>, words: &[u8]) -> Result<(), AllocError>
    ensures ok { OnOk result (text.new.items ≡ text.old.items ++ quoted words.now) }
    ensures front { take (length text.old.items) text.new.items ≡ text.old.items }
{
    text.push(b'"')?;
    push_escaped(text, words)?;
    text.extend_from_slice(b"\"")
}

// A text of any length, of which some bytes need escapes.
#[inline(never)]
fn push_long_escaped<A: Allocator + Copy>(
    text: &mut String<A>,
    words: &str,
) -> Result<(), AllocError>
    ensures { OnOk result (string_bytes text.new ≡ string_bytes text.old ++ quoted words.now) }
{
    let alloc = *text.allocator();
    let mut all = mem::replace(text, String::new(alloc)).into_bytes();
    let len = all.len();
    // (what is quoted is UTF-8, and so is what stood there before)
    match push_blocks(&mut all, words.as_bytes()) {
        Ok(()) => {
            *text = unsafe { String::from_utf8_unchecked(all) };
            Ok(())
        }
        Err(error) => {
            all.truncate(len);
            *text = unsafe { String::from_utf8_unchecked(all) };
            Err(error)
        }
    }
}

// A text, of which some bytes may need escapes.
pub(crate) fn push_escaped_words<A: Allocator + Copy>(
    text: &mut String<A>,
    words: &str,
) -> Result<(), AllocError>
    ensures { OnOk result (string_bytes text.new ≡ string_bytes text.old ++ quoted words.now) }
{
    if words.len() <= FEW {
        push_few_escaped(text, words)
    } else {
        push_long_escaped(text, words)
    }
}
