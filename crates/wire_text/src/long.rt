//! Long texts of fields, written part by part.

ghost use Rattle.std.specs.Prelude.{◌≡◌, ◌≢◌, ◌++◌, [], OnOk, string_bytes};
ghost use Rattle.std.specs.Fmt.{decimal};
ghost use Rattle.std.specs.Io.KnownBytes.{Appends};
ghost use Rattle.wire_text.specs.Fields.{Words, member_part, words_text};
ghost use Rattle.wire_text.specs.Parts.{WritesSome, part_text};

use crate::digits::push_digits;
use crate::members::{MemberForm, octets_around, push_name_at};
use crate::quoted::push_escaped;
use crate::stop::Stop;
use std::alloc::{AllocError, Allocator};
use std::io::Write;

// How many bytes of a text are shown at a time.
const PART: usize = 65536;

// How the bytes of a text are shown.
#[derive(Clone, Copy)]
enum PartForm {
    Escaped,
    Digits,
}

// Appends a part of a text.
fn push_part<A: Allocator>(
    text: &mut Vec<u8, A>,
    form: PartForm,
    part: &[u8],
) -> Result<(), AllocError>
    ensures { OnOk result (text.new.items ≡ text.old.items ++ part_text form part.now) }
{
    match form {
        PartForm::Escaped => {
            text.reserve(part.len())?;
            push_escaped(text, part)
        }
        PartForm::Digits => push_digits(text, part),
    }
}

// Writes a text part by part.
fn write_parts<A: Allocator, W: Write>(
    alloc: A,
    form: PartForm,
    bytes: &[u8],
    output: &mut W,
) -> Result<(), Stop>
    ensures { OnOk result (Appends (W.contents output.old) (W.contents output.new)
        (part_text form bytes.now)) }
{
    let mut text = Vec::new(alloc);
    let mut rest = bytes;
    'parts: while !rest.is_empty() {
        let (part, after) = rest.split_at(rest.len().min(PART));
        text.clear();
        push_part(&mut text, form, part)?;
        output.write_all(text.as_slice())?;
        rest = after;
    }
    Ok(())
}

// Writes what came before a text, and then the text.
fn write_behind<A: Allocator + Copy, W: Write>(
    before: &mut String<A>,
    form: PartForm,
    bytes: &[u8],
    output: &mut W,
) -> Result<(), Stop>
    ensures written { OnOk result (Appends (W.contents output.old) (W.contents output.new)
        (string_bytes before.old ++ part_text form bytes.now)) }
    ensures none { OnOk result (string_bytes before.new ≡ []) }
{
    let alloc = *before.allocator();
    output.write_all(before.as_bytes())?;
    before.clear();
    write_parts(alloc, form, bytes, output)
}

// Appends a text between words, and writes all but the words behind it.
fn write_between<A: Allocator + Copy, W: Write>(
    text: &mut String<A>,
    before: &str,
    form: PartForm,
    bytes: &[u8],
    after: &str,
    output: &mut W,
) -> Result<(), Stop>
    requires { after.now ≢ [] }
    ensures { OnOk result (WritesSome (before.now ++ part_text form bytes.now ++ after.now)
        (string_bytes text.old) (string_bytes text.new)
        (W.contents output.old) (W.contents output.new)) }
{
    text.push_str(before)?;
    write_behind(text, form, bytes, output)?;
    text.push_str(after)?;
    Ok(())
}

fn write_words<A: Allocator + Copy, W: Write>(
    text: &mut String<A>,
    form: MemberForm,
    bytes: &[u8],
    output: &mut W,
) -> Result<(), Stop>
    ensures { OnOk result (WritesSome (words_text form bytes.now) (string_bytes text.old)
        (string_bytes text.new) (W.contents output.old) (W.contents output.new)) }
{
    match simdutf8::basic::from_utf8(bytes) {
        Ok(words) => {
            let words = words.as_bytes();
            write_between(text, "\"", PartForm::Escaped, words, "\"", output)
        }
        Err(_) => {
            let (before, after) = octets_around(form);
            write_between(text, before, PartForm::Digits, bytes, after, output)
        }
    }
}

// Appends a text whose name is its place, and writes all but its end.
pub(crate) fn write_text_at<A: Allocator + Copy, W: Write>(
    text: &mut String<A>,
    form: MemberForm,
    is_first: bool,
    place: u64,
    bytes: &[u8],
    output: &mut W,
) -> Result<(), Stop>
    ensures { OnOk result (WritesSome (member_part form is_first (decimal place, Words bytes.now))
        (string_bytes text.old) (string_bytes text.new)
        (W.contents output.old) (W.contents output.new)) }
{
    push_name_at(text, form, is_first, place)?;
    write_words(text, form, bytes, output)
}
