//! Members: a name and a value, on a line of its own or in an object of JSON.

ghost use Rattle.std.specs.Prelude.{◌≡◌, ◌≢◌, ◌≤◌, ◌+◌, ◌∷◌, ◌++◌, false, ℕ, List, [], codes, drop, length, take, IfSome, IsSome, IsTrue, OnOk, string_bytes};
ghost use Rattle.std.specs.Fmt.{decimal};
ghost use Rattle.std.specs.Str.{IsUtf8};
ghost use Rattle.wire_text.specs.Fields.{all_ascii, all_plain, are_wide, digits_text, end_part, flags_text, member_part, name_part, none_needs_escape, octets_text, value_of, value_text, words_text, Null, Number, Word, Words};

use crate::digits::push_digits_to;
use crate::escapes::{ascii_in_front, is_ascii, is_longer_ascii, none_needs_escape};
use crate::plain::{below_128, is_longer_plain, is_plain, plain_in_front};
use crate::put::{PutWord, one_digit, push_between, push_few, push_number, two_digits};
use crate::quoted::{push_escaped_words, push_few_escaped, push_front_escaped, push_in_quotes};
use crate::wide::{ascii_behind, is_wide, is_wide_in_front};
use std::alloc::{AllocError, Allocator};
use std::simd::prelude::*;

/// How members are shown.
#[derive(Clone, Copy)]
pub enum MemberForm {
    /// Each on a line of its own.
    Text,
    Json,
}

/// The value of a field.
#[derive(Clone, Copy)]
pub enum FieldValue<'a> {
    Null,
    Number(u64),
    /// A set of flags.
    Flags(u64),
    /// A text, where the bytes are one.
    Text(&'a [u8]),
    Bytes(&'a [u8]),
    /// The text of a number.
    Printed(&'a str),
    /// A word in quotes, which JSON need not escape: of what is no number.
    Word(&'a str),
}

// What stands around the hex digits of bytes.
pub(crate) fn octets_around(form: MemberForm) -> (&'static str, &'static str)
    ensures around { (digits : List ℕ) → digits_text form digits ≡ result.0.now ++ digits ++ result.1.now }
    ensures some { result.1.now ≢ [] }
{
    match form {
        MemberForm::Json => ("{\"hex\":\"", "\"}"),
        MemberForm::Text => ("x'", "'"),
    }
}

// Bytes in hex digits.
fn push_octets<A: Allocator + Copy>(
    text: &mut String<A>,
    form: MemberForm,
    bytes: &[u8],
) -> Result<(), AllocError>
    ensures { OnOk result (string_bytes text.new
        ≡ string_bytes text.old ++ octets_text form bytes.now) }
{
    let (before, after) = octets_around(form);
    text.push_str(before)?;
    push_digits_to(text, bytes)?;
    text.push_str(after)
}

// The text of these bytes, where it is known to stand in quotes as it is.
#[inline]
fn as_it_stands(bytes: &[u8]) -> Option<&str>
    ensures stands { IfSome result (λ words. (words.now ≡ bytes.now) × IsUtf8 bytes.now
        × IsTrue (none_needs_escape bytes.now)) }
    ensures plain { IsTrue (all_plain bytes.now) → IsSome result }
{
    if is_plain(bytes) || is_wide(bytes) {
        // (letters of ASCII are UTF-8, and so are those of three bytes)
        Some(unsafe { std::str::from_utf8_unchecked(bytes) })
    } else {
        None
    }
}

// A text, or else bytes, of which some are not of ASCII or need escapes.
#[inline(never)]
fn push_words<A: Allocator + Copy>(
    text: &mut String<A>,
    form: MemberForm,
    bytes: &[u8],
) -> Result<(), AllocError>
    ensures { OnOk result (string_bytes text.new
        ≡ string_bytes text.old ++ words_text form bytes.now) }
{
    if is_ascii(bytes) {
        let words = unsafe { std::str::from_utf8_unchecked(bytes) };
        return push_escaped_words(text, words);
    }
    match std::str::from_utf8(bytes) {
        Ok(words) => {
            if none_needs_escape(bytes) {
                push_in_quotes(text, words)
            } else {
                push_escaped_words(text, words)
            }
        }
        Err(_) => push_octets(text, form, bytes),
    }
}

fn push_text<A: Allocator + Copy>(
    text: &mut String<A>,
    form: MemberForm,
    bytes: &[u8],
) -> Result<(), AllocError>
    ensures { OnOk result (string_bytes text.new
        ≡ string_bytes text.old ++ words_text form bytes.now) }
{
    match as_it_stands(bytes) {
        Some(words) => push_in_quotes(text, words),
        None => push_words(text, form, bytes),
    }
}

fn push_flags<A: Allocator>(
    text: &mut String<A>,
    form: MemberForm,
    bits: u64,
) -> Result<(), AllocError>
    ensures { OnOk result (string_bytes text.new ≡ string_bytes text.old ++ flags_text form bits) }
{
    match form {
        MemberForm::Json => push_number(text, bits),
        MemberForm::Text => write!(text, "0x{bits:x}"),
    }
}

#[inline(always)]
fn push_value<A: Allocator + Copy>(
    text: &mut String<A>,
    form: MemberForm,
    value: FieldValue<'_>,
) -> Result<(), AllocError>
    ensures { OnOk result (string_bytes text.new
        ≡ string_bytes text.old ++ value_text form (value_of value.entry)) }
{
    match value {
        FieldValue::Null => text.push_str("null"),
        FieldValue::Number(number) => push_number(text, number),
        FieldValue::Flags(bits) => push_flags(text, form, bits),
        FieldValue::Text(bytes) => push_text(text, form, bytes),
        FieldValue::Bytes(bytes) => push_octets(text, form, bytes),
        FieldValue::Printed(number) => text.push_str(number),
        FieldValue::Word(word) => push_in_quotes(text, word),
    }
}

// The name of a field, and the quote after it. A name of one or two bytes goes in one append with what
// stands around it, but the first of an object.
#[inline(always)]
fn push_plain_front<A: Allocator>(
    text: &mut String<A>,
    form: MemberForm,
    is_first: bool,
    name: &str,
) -> Result<(), AllocError>
    ensures { OnOk result (string_bytes text.new
        ≡ string_bytes text.old ++ (name_part form is_first name.now ++ codes "\"")) }
{
    match form {
        MemberForm::Text => match name.as_bytes() {
            [one] => push_few(text, &[b'\n', b' ', b' ', *one, b' ', b'"']),
            [one, two] => push_few(text, &[b'\n', b' ', b' ', *one, *two, b' ', b'"']),
            _ => push_between(text, "\n  ", name, " \""),
        },
        MemberForm::Json if is_first => push_between(text, ",\"fields\":{\"", name, "\":\""),
        MemberForm::Json => match name.as_bytes() {
            [one] => push_few(text, &[b',', b'"', *one, b'"', b':', b'"']),
            [one, two] => push_few(text, &[b',', b'"', *one, *two, b'"', b':', b'"']),
            _ => push_between(text, ",\"", name, "\":\""),
        },
    }
}

// A field of a text that stands in quotes as it is.
#[inline(always)]
fn push_plain<A: Allocator>(
    text: &mut String<A>,
    form: MemberForm,
    is_first: bool,
    name: &str,
    words: &str,
) -> Result<(), AllocError>
    ensures { OnOk result (string_bytes text.new
        ≡ string_bytes text.old ++ member_part form is_first (name.now, Word words.now)) }
{
    push_plain_front(text, form, is_first, name)?;
    text.push_str(words)?;
    text.push('"')
}

// The digits of a place, as its name.
fn name_of(digits: &[u8]) -> &str
    requires { IsUtf8 digits.now }
    ensures { result.now ≡ digits.now }
{
    unsafe { std::str::from_utf8_unchecked(digits) }
}

// The name of a field, with what stands around it. As `push_plain_front`, without the quote.
#[inline(always)]
fn push_name<A: Allocator>(
    text: &mut String<A>,
    form: MemberForm,
    is_first: bool,
    name: &str,
) -> Result<(), AllocError>
    ensures { OnOk result (string_bytes text.new
        ≡ string_bytes text.old ++ name_part form is_first name.now) }
{
    match form {
        MemberForm::Text => match name.as_bytes() {
            [one] => push_few(text, &[b'\n', b' ', b' ', *one, b' ']),
            [one, two] => push_few(text, &[b'\n', b' ', b' ', *one, *two, b' ']),
            _ => push_between(text, "\n  ", name, " "),
        },
        MemberForm::Json if is_first => push_between(text, ",\"fields\":{\"", name, "\":"),
        MemberForm::Json => match name.as_bytes() {
            [one] => push_few(text, &[b',', b'"', *one, b'"', b':']),
            [one, two] => push_few(text, &[b',', b'"', *one, *two, b'"', b':']),
            _ => push_between(text, ",\"", name, "\":"),
        },
    }
}

// The same of a name that is a place, of three digits and more. (`cold`: without it LLVM takes two
// digits for seldom, too, and calls `push_str` for them.)
#[cold]
#[inline(never)]
fn push_name_far<A: Allocator>(
    text: &mut String<A>,
    form: MemberForm,
    is_first: bool,
    place: u64,
) -> Result<(), AllocError>
    ensures { OnOk result (string_bytes text.new
        ≡ string_bytes text.old ++ name_part form is_first (decimal place)) }
{
    let mut digits = itoa::Buffer::new();
    push_name(text, form, is_first, digits.format(place))
}

// The same of a name that is a place.
#[inline(always)]
pub(crate) fn push_name_at<A: Allocator>(
    text: &mut String<A>,
    form: MemberForm,
    is_first: bool,
    place: u64,
) -> Result<(), AllocError>
    ensures { OnOk result (string_bytes text.new
        ≡ string_bytes text.old ++ name_part form is_first (decimal place)) }
{
    if place >= 100 {
        return push_name_far(text, form, is_first, place);
    }
    if place >= 10 {
        return push_name(text, form, is_first, name_of(&two_digits(place)));
    }
    push_name(text, form, is_first, name_of(&one_digit(place)))
}

// Fills a place with letters, and 32 bytes after them.
fn fill_with(place: &mut [u8], letters: &[u8], bytes: u8x32)
    requires { length letters.now + 32 ≡ length place.old }
    ensures { place.new ≡ letters.now ++ bytes }
{
    place[..letters.len()].copy_from_slice(letters);
    bytes.copy_to_slice(&mut place[letters.len()..]);
}

// Appends a few letters, and after them as many of 32 bytes as are asked for. All are appended, since
// their count is no branch then: those behind are of ASCII, and are cut off.
#[inline(always)]
fn push_with_front<A: Allocator>(
    text: &mut String<A>,
    letters: &[u8],
    bytes: u8x32,
    len: usize,
) -> Result<(), AllocError>
    requires few { length letters.now ≤ 16 }
    requires letters { IsUtf8 letters.now }
    requires within { len ≤ 32 }
    requires words { IsUtf8 (take len bytes) }
    requires behind { IsTrue (all_ascii (drop len bytes)) }
    ensures { OnOk result (string_bytes text.new
        ≡ string_bytes text.old ++ (letters.now ++ take len bytes)) }
{
    let end = text.len() + letters.len() + len;
    let mut room = [0; 48];
    let all = &mut room[..letters.len() + 32];
    fill_with(all, letters, bytes);
    push_few(text, all)?;
    text.truncate(end);
    Ok(())
}

// A name and the quote after it, on a line of its own, and the text's letters.
#[inline(always)]
fn push_short_line<A: Allocator>(
    text: &mut String<A>,
    name: &str,
    bytes: u8x32,
    len: usize,
) -> Result<(), AllocError>
    requires within { len ≤ 32 }
    requires words { IsUtf8 (take len bytes) }
    requires behind { IsTrue (all_ascii (drop len bytes)) }
    ensures { OnOk result (string_bytes text.new ≡ string_bytes text.old
        ++ ((codes "\n  " ++ name.now ++ codes " \"") ++ take len bytes)) }
{
    match name.as_bytes() {
        [one] => push_with_front(text, &[b'\n', b' ', b' ', *one, b' ', b'"'], bytes, len),
        [one, two] => {
            push_with_front(
                text,
                &[b'\n', b' ', b' ', *one, *two, b' ', b'"'],
                bytes,
                len,
            )
        }
        _ => {
            push_between(text, "\n  ", name, " \"")?;
            push_with_front(text, &[], bytes, len)
        }
    }
}

// The same after another member of an object.
#[inline(always)]
fn push_short_pair<A: Allocator>(
    text: &mut String<A>,
    name: &str,
    bytes: u8x32,
    len: usize,
) -> Result<(), AllocError>
    requires within { len ≤ 32 }
    requires words { IsUtf8 (take len bytes) }
    requires behind { IsTrue (all_ascii (drop len bytes)) }
    ensures { OnOk result (string_bytes text.new ≡ string_bytes text.old
        ++ ((codes ",\"" ++ name.now ++ codes "\":\"") ++ take len bytes)) }
{
    match name.as_bytes() {
        [one] => push_with_front(text, &[b',', b'"', *one, b'"', b':', b'"'], bytes, len),
        [one, two] => {
            push_with_front(
                text,
                &[b',', b'"', *one, *two, b'"', b':', b'"'],
                bytes,
                len,
            )
        }
        _ => {
            push_between(text, ",\"", name, "\":\"")?;
            push_with_front(text, &[], bytes, len)
        }
    }
}

// The same before the first member.
#[inline(always)]
fn push_short_first<A: Allocator>(
    text: &mut String<A>,
    name: &str,
    bytes: u8x32,
    len: usize,
) -> Result<(), AllocError>
    requires within { len ≤ 32 }
    requires words { IsUtf8 (take len bytes) }
    requires behind { IsTrue (all_ascii (drop len bytes)) }
    ensures { OnOk result (string_bytes text.new ≡ string_bytes text.old
        ++ ((codes ",\"fields\":{\"" ++ name.now ++ codes "\":\"") ++ take len bytes)) }
{
    match name.as_bytes() {
        [one] => {
            push_with_front(
                text,
                &[
                    b',', b'"', b'f', b'i', b'e', b'l', b'd', b's', b'"', b':', b'{', b'"', *one,
                    b'"', b':', b'"',
                ],
                bytes,
                len,
            )
        }
        _ => {
            push_between(text, ",\"fields\":{\"", name, "\":\"")?;
            push_with_front(text, &[], bytes, len)
        }
    }
}

// The name of a field, the quote after it, and the text's letters.
#[inline(always)]
fn push_short_words<A: Allocator>(
    text: &mut String<A>,
    form: MemberForm,
    is_first: bool,
    name: &str,
    bytes: u8x32,
    len: usize,
) -> Result<(), AllocError>
    requires within { len ≤ 32 }
    requires words { IsUtf8 (take len bytes) }
    requires behind { IsTrue (all_ascii (drop len bytes)) }
    ensures { OnOk result (string_bytes text.new ≡ string_bytes text.old
        ++ ((name_part form is_first name.now ++ codes "\"") ++ take len bytes)) }
{
    match form {
        MemberForm::Text => push_short_line(text, name, bytes, len),
        MemberForm::Json => {
            if is_first {
                push_short_first(text, name, bytes, len)
            } else {
                push_short_pair(text, name, bytes, len)
            }
        }
    }
}

// A quote for which there is no room.
#[cold]
#[inline(never)]
fn push_quote_far<A: Allocator>(text: &mut String<A>) -> Result<(), AllocError>
    ensures { OnOk result (string_bytes text.new ≡ string_bytes text.old ++ codes "\"") }
{
    text.push('"')
}

// A quote. (A call that asks for memory would need registers saved: this one is the last.)
fn push_quote<A: Allocator>(text: &mut String<A>) -> Result<(), AllocError>
    ensures { OnOk result (string_bytes text.new ≡ string_bytes text.old ++ codes "\"") }
{
    if text.len() == text.capacity() {
        return push_quote_far(text);
    }
    text.push('"')
}

// A text of so many of 32 bytes, which stand in quotes as they are.
#[inline(always)]
fn push_short<A: Allocator>(
    text: &mut String<A>,
    form: MemberForm,
    is_first: bool,
    name: &str,
    bytes: u8x32,
    len: usize,
) -> Result<(), AllocError>
    requires within { len ≤ 32 }
    requires words { IsUtf8 (take len bytes) }
    requires behind { IsTrue (all_ascii (drop len bytes)) }
    ensures { OnOk result (string_bytes text.new ≡ string_bytes text.old
        ++ member_part form is_first (name.now, Word (take len bytes))) }
{
    push_short_words(text, form, is_first, name, bytes, len)?;
    push_quote(text)
}

// The same, of a place of three digits and more.
#[cold]
#[inline(never)]
fn push_short_far<A: Allocator>(
    text: &mut String<A>,
    form: MemberForm,
    is_first: bool,
    place: u64,
    block: &[u8],
    len: usize,
) -> Result<(), AllocError>
    requires within { len ≤ length block.now }
    requires long { length block.now ≡ 32 }
    requires plain { IsTrue (all_plain (take len block.now)) }
    ensures { OnOk result (string_bytes text.new ≡ string_bytes text.old
        ++ member_part form is_first (decimal place, Words (take len block.now))) }
{
    let mut digits = itoa::Buffer::new();
    push_short(
        text,
        form,
        is_first,
        digits.format(place),
        below_128(block),
        len,
    )
}

// Room for such a text and what stands around it. Where there is less, just its bytes are appended, so
// that no more memory is asked for.
const SHORT_ROOM: usize = 128;

// The same, of a place of two digits and more.
#[inline(never)]
fn push_short_behind<A: Allocator + Copy>(
    text: &mut String<A>,
    form: MemberForm,
    is_first: bool,
    place: u64,
    block: &[u8],
    len: usize,
) -> Result<(), AllocError>
    requires within { len ≤ length block.now }
    requires long { length block.now ≡ 32 }
    requires plain { IsTrue (all_plain (take len block.now)) }
    requires behind { 10 ≤ place }
    ensures { OnOk result (string_bytes text.new ≡ string_bytes text.old
        ++ member_part form is_first (decimal place, Words (take len block.now))) }
{
    if text.capacity() - text.len() < SHORT_ROOM {
        return push_any_far(text, form, is_first, place, &block[..len]);
    }
    if is_first || place >= 100 {
        return push_short_far(text, form, is_first, place, block, len);
    }
    let digits = two_digits(place);
    push_short(
        text,
        form,
        is_first,
        name_of(&digits),
        below_128(block),
        len,
    )
}

// A text of plain letters, which 32 bytes begin with, and whose name is its place.
#[inline(always)]
fn push_short_at<A: Allocator + Copy>(
    text: &mut String<A>,
    form: MemberForm,
    is_first: bool,
    place: u64,
    block: &[u8],
    len: usize,
) -> Result<(), AllocError>
    requires within { len ≤ length block.now }
    requires long { length block.now ≡ 32 }
    requires plain { IsTrue (all_plain (take len block.now)) }
    ensures { OnOk result (string_bytes text.new ≡ string_bytes text.old
        ++ member_part form is_first (decimal place, Words (take len block.now))) }
{
    if place >= 10 {
        return push_short_behind(text, form, is_first, place, block, len);
    }
    if text.capacity() - text.len() < SHORT_ROOM {
        return push_text_at(text, form, is_first, place, &block[..len]);
    }
    let digit = one_digit(place);
    push_short(text, form, is_first, name_of(&digit), below_128(block), len)
}

// Any text, where there is little room, or its place is of three digits and more.
#[cold]
#[inline(never)]
fn push_any_far<A: Allocator + Copy>(
    text: &mut String<A>,
    form: MemberForm,
    is_first: bool,
    place: u64,
    bytes: &[u8],
) -> Result<(), AllocError>
    ensures { OnOk result (string_bytes text.new
        ≡ string_bytes text.old ++ member_part form is_first (decimal place, Words bytes.now)) }
{
    push_any_text_at(text, form, is_first, place, bytes)
}

// A text of letters of three bytes, which 32 bytes begin with, and whose name is its place.
#[inline(never)]
fn push_wide_at<A: Allocator + Copy>(
    text: &mut String<A>,
    form: MemberForm,
    is_first: bool,
    place: u64,
    block: &[u8],
    len: usize,
) -> Result<(), AllocError>
    requires within { len ≤ 32 }
    requires long { length block.now ≡ 32 }
    requires wide { IsTrue (are_wide (take len block.now)) }
    ensures { OnOk result (string_bytes text.new ≡ string_bytes text.old
        ++ member_part form is_first (decimal place, Words (take len block.now))) }
{
    if text.capacity() - text.len() < SHORT_ROOM {
        return push_any_far(text, form, is_first, place, &block[..len]);
    }
    let bytes = ascii_behind(block, len);
    if place < 10 {
        let digit = one_digit(place);
        return push_short(text, form, is_first, name_of(&digit), bytes, len);
    }
    if is_first || place >= 100 {
        return push_any_far(text, form, is_first, place, &block[..len]);
    }
    let digits = two_digits(place);
    push_short(text, form, is_first, name_of(&digits), bytes, len)
}

// The text that these bytes begin with, of up to 32 bytes, whose name is its place: it is not of plain
// letters alone.
#[inline(never)]
fn push_other_at<A: Allocator + Copy>(
    text: &mut String<A>,
    form: MemberForm,
    is_first: bool,
    place: u64,
    bytes: &[u8],
    len: usize,
) -> Result<(), AllocError>
    requires within { len ≤ 32 }
    requires long { 32 ≤ length bytes.now }
    ensures { OnOk result (string_bytes text.new ≡ string_bytes text.old
        ++ member_part form is_first (decimal place, Words (take len bytes.now))) }
{
    if is_wide_in_front(&bytes[..32], len) {
        return push_wide_at(text, form, is_first, place, &bytes[..32], len);
    }
    if let Some((source, _)) = bytes.split_first_chunk::<48>() {
        if ascii_in_front(&source[..32]) >= len {
            return push_escaped_at(text, form, is_first, place, source, len);
        }
    }
    push_text_at(text, form, is_first, place, &bytes[..len])
}

// A text of ASCII that 48 bytes begin with, of which some need escapes, and whose name is its place.
#[inline(never)]
fn push_escaped_at<A: Allocator>(
    text: &mut String<A>,
    form: MemberForm,
    is_first: bool,
    place: u64,
    source: &[u8],
    len: usize,
) -> Result<(), AllocError>
    requires long { length source.now ≡ 48 }
    requires within { len ≤ 32 }
    requires ascii { IsTrue (all_ascii (take len source.now)) }
    ensures { OnOk result (string_bytes text.new ≡ string_bytes text.old
        ++ member_part form is_first (decimal place, Words (take len source.now))) }
{
    push_name_at(text, form, is_first, place)?;
    push_front_escaped(text, source, len)
}

// A text that may not stand in quotes as it is.
#[inline(never)]
fn push_other_text<A: Allocator + Copy>(
    text: &mut String<A>,
    form: MemberForm,
    is_first: bool,
    name: &str,
    bytes: &[u8],
) -> Result<(), AllocError>
    ensures { OnOk result (string_bytes text.new
        ≡ string_bytes text.old ++ member_part form is_first (name.now, Words bytes.now)) }
{
    push_name(text, form, is_first, name)?;
    push_words(text, form, bytes)
}

// A text of this name.
#[inline(always)]
fn push_named_text<A: Allocator + Copy>(
    text: &mut String<A>,
    form: MemberForm,
    is_first: bool,
    name: &str,
    bytes: &[u8],
) -> Result<(), AllocError>
    ensures { OnOk result (string_bytes text.new
        ≡ string_bytes text.old ++ member_part form is_first (name.now, Words bytes.now)) }
{
    match as_it_stands(bytes) {
        Some(words) => push_plain(text, form, is_first, name, words),
        None => push_other_text(text, form, is_first, name, bytes),
    }
}

// A text whose name is its place, of three digits and more.
#[cold]
#[inline(never)]
fn push_text_far<A: Allocator + Copy>(
    text: &mut String<A>,
    form: MemberForm,
    is_first: bool,
    place: u64,
    bytes: &[u8],
) -> Result<(), AllocError>
    ensures { OnOk result (string_bytes text.new
        ≡ string_bytes text.old ++ member_part form is_first (decimal place, Words bytes.now)) }
{
    let mut digits = itoa::Buffer::new();
    push_named_text(text, form, is_first, digits.format(place), bytes)
}

// A text whose name is its place, of two digits and more.
#[inline(never)]
fn push_text_behind<A: Allocator + Copy>(
    text: &mut String<A>,
    form: MemberForm,
    is_first: bool,
    place: u64,
    bytes: &[u8],
) -> Result<(), AllocError>
    requires { 10 ≤ place }
    ensures { OnOk result (string_bytes text.new
        ≡ string_bytes text.old ++ member_part form is_first (decimal place, Words bytes.now)) }
{
    if place >= 100 {
        return push_text_far(text, form, is_first, place, bytes);
    }
    let digits = two_digits(place);
    push_named_text(text, form, is_first, name_of(&digits), bytes)
}

// Fills a place with 32 bytes, and a quote after them.
fn fill_to_quote(place: &mut [u8], bytes: u8x32)
    requires { length place.old ≡ 33 }
    ensures { place.new ≡ bytes ++ 34 ∷ [] }
{
    bytes.copy_to_slice(place);
    place[32] = b'"';
}

// The last bytes of a text, where there may be no room for them.
#[cold]
#[inline(never)]
fn push_end_far<A: Allocator>(text: &mut String<A>, bytes: &[u8]) -> Result<(), AllocError>
    requires { IsTrue (all_plain bytes.now) }
    ensures { OnOk result (string_bytes text.new
        ≡ string_bytes text.old ++ (bytes.now ++ codes "\"")) }
{
    push_few(text, bytes)?;
    text.push('"')
}

// The last 32 bytes of a text of plain letters, and the quote after them.
fn push_end<A: Allocator>(text: &mut String<A>, bytes: &[u8]) -> Result<(), AllocError>
    requires long { length bytes.now ≡ 32 }
    requires plain { IsTrue (all_plain bytes.now) }
    ensures { OnOk result (string_bytes text.new
        ≡ string_bytes text.old ++ (bytes.now ++ codes "\"")) }
{
    if text.capacity() - text.len() < 33 {
        return push_end_far(text, bytes);
    }
    let mut room = [0; 48];
    let all = &mut room[..33];
    fill_to_quote(all, u8x32::from_slice(bytes));
    push_few(text, all)
}

// A text of 32 to 64 plain letters: its first 32 are cut where its last 32 begin.
#[inline(always)]
fn push_longer<A: Allocator>(
    text: &mut String<A>,
    form: MemberForm,
    is_first: bool,
    name: &str,
    bytes: &[u8],
) -> Result<(), AllocError>
    requires long { (32 ≤ length bytes.now) × (length bytes.now ≤ 64) }
    requires plain { IsTrue (all_plain bytes.now) }
    ensures { OnOk result (string_bytes text.new ≡ string_bytes text.old
        ++ member_part form is_first (name.now, Word bytes.now)) }
{
    let len = bytes.len() - 32;
    push_short_words(text, form, is_first, name, u8x32::from_slice(bytes), len)?;
    push_end(text, &bytes[len..])
}

// The same, whose name is its place.
#[inline(never)]
fn push_longer_at<A: Allocator + Copy>(
    text: &mut String<A>,
    form: MemberForm,
    is_first: bool,
    place: u64,
    bytes: &[u8],
) -> Result<(), AllocError>
    requires long { (32 ≤ length bytes.now) × (length bytes.now ≤ 64) }
    requires plain { IsTrue (all_plain bytes.now) }
    ensures { OnOk result (string_bytes text.new
        ≡ string_bytes text.old ++ member_part form is_first (decimal place, Words bytes.now)) }
{
    if text.capacity() - text.len() < SHORT_ROOM {
        return push_any_far(text, form, is_first, place, bytes);
    }
    if place < 10 {
        let digit = one_digit(place);
        return push_longer(text, form, is_first, name_of(&digit), bytes);
    }
    if is_first || place >= 100 {
        return push_any_far(text, form, is_first, place, bytes);
    }
    let digits = two_digits(place);
    push_longer(text, form, is_first, name_of(&digits), bytes)
}

// A text of ASCII of up to 64 bytes, of which some need escapes, and whose name is its place.
#[inline(never)]
fn push_longer_escaped<A: Allocator>(
    text: &mut String<A>,
    form: MemberForm,
    is_first: bool,
    place: u64,
    bytes: &[u8],
) -> Result<(), AllocError>
    requires long { length bytes.now ≤ 64 }
    requires ascii { IsTrue (all_ascii bytes.now) }
    ensures { OnOk result (string_bytes text.new
        ≡ string_bytes text.old ++ member_part form is_first (decimal place, Words bytes.now)) }
{
    push_name_at(text, form, is_first, place)?;
    push_few_escaped(text, unsafe { std::str::from_utf8_unchecked(bytes) })
}

// A text whose name is its place.
#[inline(never)]
pub(crate) fn push_text_at<A: Allocator + Copy>(
    text: &mut String<A>,
    form: MemberForm,
    is_first: bool,
    place: u64,
    bytes: &[u8],
) -> Result<(), AllocError>
    ensures { OnOk result (string_bytes text.new
        ≡ string_bytes text.old ++ member_part form is_first (decimal place, Words bytes.now)) }
{
    if is_longer_plain(bytes) {
        return push_longer_at(text, form, is_first, place, bytes);
    }
    if is_longer_ascii(bytes) {
        return push_longer_escaped(text, form, is_first, place, bytes);
    }
    push_any_text_at(text, form, is_first, place, bytes)
}

// The same, of any bytes.
#[inline(never)]
fn push_any_text_at<A: Allocator + Copy>(
    text: &mut String<A>,
    form: MemberForm,
    is_first: bool,
    place: u64,
    bytes: &[u8],
) -> Result<(), AllocError>
    ensures { OnOk result (string_bytes text.new
        ≡ string_bytes text.old ++ member_part form is_first (decimal place, Words bytes.now)) }
{
    if place >= 10 {
        return push_text_behind(text, form, is_first, place, bytes);
    }
    let digit = one_digit(place);
    push_named_text(text, form, is_first, name_of(&digit), bytes)
}

// The text that these bytes begin with, of up to 32 bytes, whose name is its place.
#[inline(always)]
pub(crate) fn push_front_at<A: Allocator + Copy>(
    text: &mut String<A>,
    form: MemberForm,
    is_first: bool,
    place: u64,
    bytes: &[u8],
    len: usize,
) -> Result<(), AllocError>
    requires long { 32 ≤ length bytes.now }
    requires within { len ≤ 32 }
    ensures { OnOk result (string_bytes text.new ≡ string_bytes text.old
        ++ member_part form is_first (decimal place, Words (take len bytes.now))) }
{
    let block = &bytes[..32];
    if plain_in_front(block) < len {
        return push_other_at(text, form, is_first, place, bytes, len);
    }
    push_short_at(text, form, is_first, place, block, len)
}

// NULL, where it is the first value, there is little room, or its place is of three digits and more.
#[cold]
#[inline(never)]
fn push_null_far<A: Allocator>(
    text: &mut String<A>,
    form: MemberForm,
    is_first: bool,
    place: u64,
) -> Result<(), AllocError>
    ensures { OnOk result (string_bytes text.new
        ≡ string_bytes text.old ++ member_part form is_first (decimal place, Null)) }
{
    push_name_at(text, form, is_first, place)?;
    text.push_str("null")
}

// A name and NULL, after another member.
#[inline(always)]
fn push_null<A: Allocator>(
    text: &mut String<A>,
    form: MemberForm,
    name: &str,
) -> Result<(), AllocError>
    ensures { OnOk result (string_bytes text.new
        ≡ string_bytes text.old ++ member_part form false (name.now, Null)) }
{
    match (form, name.as_bytes()) {
        (MemberForm::Text, [one]) => push_few(
            text,
            &[b'\n', b' ', b' ', *one, b' ', b'n', b'u', b'l', b'l'],
        ),
        (MemberForm::Text, [one, two]) => push_few(
            text,
            &[b'\n', b' ', b' ', *one, *two, b' ', b'n', b'u', b'l', b'l'],
        ),
        (MemberForm::Text, _) => push_between(text, "\n  ", name, " null"),
        (MemberForm::Json, [one]) => push_few(
            text,
            &[b',', b'"', *one, b'"', b':', b'n', b'u', b'l', b'l'],
        ),
        (MemberForm::Json, [one, two]) => push_few(
            text,
            &[b',', b'"', *one, *two, b'"', b':', b'n', b'u', b'l', b'l'],
        ),
        (MemberForm::Json, _) => push_between(text, ",\"", name, "\":null"),
    }
}

// NULL, whose name is its place.
#[inline(never)]
fn push_null_at<A: Allocator>(
    text: &mut String<A>,
    form: MemberForm,
    is_first: bool,
    place: u64,
) -> Result<(), AllocError>
    ensures { OnOk result (string_bytes text.new
        ≡ string_bytes text.old ++ member_part form is_first (decimal place, Null)) }
{
    if is_first || place >= 100 || text.capacity() - text.len() < SHORT_ROOM {
        return push_null_far(text, form, is_first, place);
    }
    if place >= 10 {
        return push_null(text, form, name_of(&two_digits(place)));
    }
    push_null(text, form, name_of(&one_digit(place)))
}

// A word whose name is its place, made where it stands.
pub(crate) fn push_word_at<A: Allocator, T: PutWord>(
    text: &mut String<A>,
    form: MemberForm,
    is_first: bool,
    place: u64,
    word: &T,
) -> Result<(), AllocError>
    ensures { OnOk result (string_bytes text.new ≡ string_bytes text.old
        ++ member_part form is_first (decimal place, Word (T.letters word.now))) }
{
    push_name_at(text, form, is_first, place)?;
    text.push('"')?;
    word.push(text)?;
    text.push('"')
}

// A number, where it is the first value, there is little room, or its place is of three digits and more.
#[cold]
#[inline(never)]
fn push_number_far<A: Allocator>(
    text: &mut String<A>,
    form: MemberForm,
    is_first: bool,
    place: u64,
    number: u64,
) -> Result<(), AllocError>
    ensures { OnOk result (string_bytes text.new
        ≡ string_bytes text.old ++ member_part form is_first (decimal place, Number number)) }
{
    push_name_at(text, form, is_first, place)?;
    push_number(text, number)
}

// A number of this name, after another member.
#[inline(always)]
fn push_named_number<A: Allocator>(
    text: &mut String<A>,
    form: MemberForm,
    name: &str,
    number: u64,
) -> Result<(), AllocError>
    ensures { OnOk result (string_bytes text.new
        ≡ string_bytes text.old ++ member_part form false (name.now, Number number)) }
{
    push_name(text, form, false, name)?;
    push_number(text, number)
}

// A number whose name is its place.
#[inline(never)]
fn push_number_at<A: Allocator>(
    text: &mut String<A>,
    form: MemberForm,
    is_first: bool,
    place: u64,
    number: u64,
) -> Result<(), AllocError>
    ensures { OnOk result (string_bytes text.new
        ≡ string_bytes text.old ++ member_part form is_first (decimal place, Number number)) }
{
    if is_first || place >= 100 || text.capacity() - text.len() < SHORT_ROOM {
        return push_number_far(text, form, is_first, place, number);
    }
    if place >= 10 {
        return push_named_number(text, form, name_of(&two_digits(place)), number);
    }
    push_named_number(text, form, name_of(&one_digit(place)), number)
}

// A value whose name is its place.
#[inline(never)]
fn push_value_at<A: Allocator + Copy>(
    text: &mut String<A>,
    form: MemberForm,
    is_first: bool,
    place: u64,
    value: FieldValue<'_>,
) -> Result<(), AllocError>
    ensures { OnOk result (string_bytes text.new
        ≡ string_bytes text.old ++ member_part form is_first (decimal place, value_of value.entry)) }
{
    push_name_at(text, form, is_first, place)?;
    push_value(text, form, value)
}

// The same. Which value it is, a caller mostly knows.
pub(crate) fn push_member_at<A: Allocator + Copy>(
    text: &mut String<A>,
    form: MemberForm,
    is_first: bool,
    place: u64,
    value: FieldValue<'_>,
) -> Result<(), AllocError>
    ensures { OnOk result (string_bytes text.new
        ≡ string_bytes text.old ++ member_part form is_first (decimal place, value_of value.entry)) }
{
    match value {
        FieldValue::Text(bytes) => push_text_at(text, form, is_first, place, bytes),
        FieldValue::Null => push_null_at(text, form, is_first, place),
        FieldValue::Number(number) => push_number_at(text, form, is_first, place, number),
        _ => push_value_at(text, form, is_first, place, value),
    }
}

pub(crate) fn push_member<A: Allocator + Copy>(
    text: &mut String<A>,
    form: MemberForm,
    is_first: bool,
    name: &str,
    value: FieldValue<'_>,
) -> Result<(), AllocError>
    ensures { OnOk result (string_bytes text.new
        ≡ string_bytes text.old ++ member_part form is_first (name.now, value_of value.entry)) }
{
    push_name(text, form, is_first, name)?;
    push_value(text, form, value)
}

// Ends the object of JSON, where one was begun.
pub(crate) fn push_closing<A: Allocator>(
    text: &mut String<A>,
    form: MemberForm,
    is_none: bool,
) -> Result<(), AllocError>
    ensures { OnOk result (string_bytes text.new ≡ string_bytes text.old ++ end_part form is_none) }
{
    match form {
        MemberForm::Json if !is_none => text.push_str("}"),
        _ => Ok(()),
    }
}
