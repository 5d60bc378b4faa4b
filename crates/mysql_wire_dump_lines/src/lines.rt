//! The lines that are written.

ghost use Rattle.std.specs.Prelude.{◌≡◌, ◌<◌, ◌≤◌, ◌++◌, OnOk, codes, string_bytes};
ghost use Rattle.std.specs.Fmt.{decimal};
ghost use Rattle.mysql_wire_dump_lines.specs.Lines.{bytes_part, ending_line, line_end, packet_front, packet_head, packet_line, refused_words, shown_bytes};
ghost use Rattle.mysql_wire_dump_lines.specs.Names.{end_name};
ghost use Rattle.mysql_wire_session.specs.Names.{kind_name, refusal_name, side_name};
ghost use Rattle.wire_text.specs.Fields.{AreLetters};

use crate::packet_stream::End;
use mysql_wire_session::packet_kind::PacketKind;
use mysql_wire_session::refusal::Refusal;
use mysql_wire_session::side::Side;
use std::alloc::{AllocError, Allocator};
use wire_text::digits::push_digits_to;
use wire_text::put::{push_between, push_letters, push_number};

/// How packets are shown.
#[derive(Clone, Copy)]
pub enum LineForm {
    Text,
    Json,
}

/// A packet, as its line says it.
#[derive(Clone, Copy)]
pub struct Seen {
    pub side: Side,
    /// The id of its first chunk.
    pub id: u8,
    /// How many payload bytes it has.
    pub len: usize,
    pub kind: PacketKind,
}

// Appends at most 32 bytes in digits, and two dots for those after them.
#[tactic(auto, unfolding(crate::specs::Lines::shown_bytes))]
fn push_shown<A: Allocator + Copy>(text: &mut String<A>, payload: &[u8]) -> Result<(), AllocError>
    ensures { OnOk result
        (string_bytes text.new ≡ string_bytes text.old ++ shown_bytes payload.now) }
{
    if payload.len() > 32 {
        let (front, _) = payload.split_at(32);
        push_digits_to(text, front)?;
        text.push_str("..")
    } else {
        push_digits_to(text, payload)
    }
}

// The same between two words.
fn push_shown_between<A: Allocator + Copy>(
    text: &mut String<A>,
    before: &str,
    payload: &[u8],
    after: &str,
) -> Result<(), AllocError>
    ensures { OnOk result (string_bytes text.new ≡ string_bytes text.old
        ++ (before.now ++ shown_bytes payload.now ++ after.now)) }
{
    text.push_str(before)?;
    push_shown(text, payload)?;
    text.push_str(after)
}

// Why a payload is no packet of its place, after its bytes.
fn push_refused<A: Allocator + Copy>(
    text: &mut String<A>,
    form: LineForm,
    refusal: Refusal,
    payload: &[u8],
) -> Result<(), AllocError>
    ensures { OnOk result (string_bytes text.new ≡ string_bytes text.old
        ++ refused_words form (shown_bytes payload.now) (refusal_name refusal)) }
{
    match form {
        LineForm::Text => {
            push_shown_between(text, " ", payload, " ")?;
            text.push_str(refusal.name())
        }
        LineForm::Json => {
            push_shown_between(text, ",\"bytes\":\"", payload, "\",\"refusal\":\"")?;
            text.push_str(refusal.name())?;
            text.push_str("\"")
        }
    }
}

// The bytes of a payload that its place's type refuses, and why.
fn push_bytes<A: Allocator + Copy>(
    text: &mut String<A>,
    form: LineForm,
    kind: PacketKind,
    payload: &[u8],
) -> Result<(), AllocError>
    ensures { OnOk result (string_bytes text.new
        ≡ string_bytes text.old ++ bytes_part form kind payload.now) }
{
    match kind {
        PacketKind::Refused(refusal) => push_refused(text, form, refusal, payload),
        _ => Ok(()),
    }
}

// A packet's length, and what it is.
fn push_kind<A: Allocator>(
    text: &mut String<A>,
    len: u64,
    kind: PacketKind,
) -> Result<(), AllocError>
    ensures { OnOk result (string_bytes text.new
        ≡ string_bytes text.old ++ (decimal len ++ codes " " ++ kind_name kind)) }
{
    push_short_number(text, len)?;
    text.push_str(" ")?;
    text.push_str(kind.name())
}

// The letters of who sent a packet.
fn letters_of(side: Side) -> [u8; 6]
    ensures name { result ≡ side_name side }
    ensures letters { AreLetters result }
{
    match side {
        Side::Client => *b"client",
        Side::Server => *b"server",
    }
}

// Who sent a packet, and the id of its first chunk, with a space after each, in one append.
#[inline(always)]
fn push_sender_of<A: Allocator>(text: &mut String<A>, side: Side, id: u8) -> Result<(), AllocError>
    ensures { OnOk result (string_bytes text.new ≡ string_bytes text.old
        ++ (side_name side ++ codes " " ++ decimal id ++ codes " ")) }
{
    let [a, b, c, d, e, f] = letters_of(side);
    let ones = b'0' + id % 10;
    if id < 10 {
        return push_letters(text, &[a, b, c, d, e, f, b' ', ones, b' ']);
    }
    let tens = b'0' + id / 10 % 10;
    if id < 100 {
        return push_letters(text, &[a, b, c, d, e, f, b' ', tens, ones, b' ']);
    }
    let hundreds = b'0' + id / 100;
    push_letters(text, &[a, b, c, d, e, f, b' ', hundreds, tens, ones, b' '])
}

// The same. Each side has code of its own, in which the letters of its name are a few words.
fn push_sender<A: Allocator>(text: &mut String<A>, side: Side, id: u8) -> Result<(), AllocError>
    ensures { OnOk result (string_bytes text.new ≡ string_bytes text.old
        ++ (side_name side ++ codes " " ++ decimal id ++ codes " ")) }
{
    match side {
        Side::Client => push_sender_of(text, Side::Client, id),
        Side::Server => push_sender_of(text, Side::Server, id),
    }
}

// A server's row, whose length has two digits, in one append.
fn push_row_of_tens<A: Allocator>(text: &mut String<A>, id: u8, len: u64) -> Result<(), AllocError>
    requires { (10 ≤ len) × (len < 100) }
    ensures { OnOk result (string_bytes text.new ≡ string_bytes text.old
        ++ (codes "server " ++ decimal id ++ codes " " ++ decimal len ++ codes " row")) }
{
    let [a, b, c, d, e, f, s] = *b"server ";
    let [w, x, y, z] = *b" row";
    let (l, m) = (b'0' + (len / 10) as u8, b'0' + (len % 10) as u8);
    let ones = b'0' + id % 10;
    if id < 10 {
        return push_letters(text, &[a, b, c, d, e, f, s, ones, s, l, m, w, x, y, z]);
    }
    let tens = b'0' + id / 10 % 10;
    if id < 100 {
        return push_letters(
            text,
            &[a, b, c, d, e, f, s, tens, ones, s, l, m, w, x, y, z],
        );
    }
    let hundreds = b'0' + id / 100;
    push_letters(
        text,
        &[
            a, b, c, d, e, f, s, hundreds, tens, ones, s, l, m, w, x, y, z,
        ],
    )
}

// The same of one whose length has three.
fn push_row_of_hundreds<A: Allocator>(
    text: &mut String<A>,
    id: u8,
    len: u64,
) -> Result<(), AllocError>
    requires { (100 ≤ len) × (len < 1000) }
    ensures { OnOk result (string_bytes text.new ≡ string_bytes text.old
        ++ (codes "server " ++ decimal id ++ codes " " ++ decimal len ++ codes " row")) }
{
    let [a, b, c, d, e, f, s] = *b"server ";
    let [w, x, y, z] = *b" row";
    let (k, l) = (b'0' + (len / 100) as u8, b'0' + (len / 10 % 10) as u8);
    let m = b'0' + (len % 10) as u8;
    let ones = b'0' + id % 10;
    if id < 10 {
        return push_letters(text, &[a, b, c, d, e, f, s, ones, s, k, l, m, w, x, y, z]);
    }
    let tens = b'0' + id / 10 % 10;
    if id < 100 {
        return push_letters(
            text,
            &[a, b, c, d, e, f, s, tens, ones, s, k, l, m, w, x, y, z],
        );
    }
    let hundreds = b'0' + id / 100;
    push_letters(
        text,
        &[
            a, b, c, d, e, f, s, hundreds, tens, ones, s, k, l, m, w, x, y, z,
        ],
    )
}

// A number: of up to three digits, as most, without a call.
#[inline(always)]
fn push_short_number<A: Allocator>(text: &mut String<A>, number: u64) -> Result<(), AllocError>
    ensures { OnOk result (string_bytes text.new ≡ string_bytes text.old ++ decimal number) }
{
    if number < 10 || number >= 1000 {
        return push_number(text, number);
    }
    let ones = b'0' + (number % 10) as u8;
    if number < 100 {
        return push_letters(text, &[b'0' + (number / 10) as u8, ones]);
    }
    let tens = b'0' + (number / 10 % 10) as u8;
    push_letters(text, &[b'0' + (number / 100) as u8, tens, ones])
}

// The front of a packet's object: who sent it.
fn object_front(side: Side) -> &'static str
    ensures { result.now ≡ codes "{\"from\":\"" ++ side_name side ++ codes "\",\"id\":" }
{
    match side {
        Side::Client => "{\"from\":\"client\",\"id\":",
        Side::Server => "{\"from\":\"server\",\"id\":",
    }
}

// What a packet is, as a member: of a row, as of most, in one append.
fn push_kind_member<A: Allocator>(text: &mut String<A>, kind: PacketKind) -> Result<(), AllocError>
    ensures { OnOk result (string_bytes text.new ≡ string_bytes text.old
        ++ (codes ",\"packet\":\"" ++ kind_name kind ++ codes "\"")) }
{
    match kind {
        PacketKind::Row => text.push_str(",\"packet\":\"row\""),
        _ => push_between(text, ",\"packet\":\"", kind.name(), "\""),
    }
}

// Who sent a packet, the id of its first chunk, its length, and what it is.
fn push_front<A: Allocator + Copy>(
    text: &mut String<A>,
    form: LineForm,
    seen: &Seen,
) -> Result<(), AllocError>
    ensures { OnOk result (string_bytes text.new
        ≡ string_bytes text.old ++ packet_front form seen.now) }
{
    let len = seen.len as u64;
    match form {
        LineForm::Text => {
            push_sender(text, seen.side, seen.id)?;
            push_kind(text, len, seen.kind)
        }
        LineForm::Json => {
            text.push_str(object_front(seen.side))?;
            push_short_number(text, seen.id as u64)?;
            text.push_str(",\"length\":")?;
            push_short_number(text, len)?;
            push_kind_member(text, seen.kind)
        }
    }
}

// The line of any packet as far as its fields: who sent it, and the id of its first chunk, its length,
// and what it is.
fn push_any_head<A: Allocator + Copy>(
    text: &mut String<A>,
    form: LineForm,
    from: (Side, u8),
    len: usize,
    kind: PacketKind,
    payload: &[u8],
) -> Result<(), AllocError>
    ensures { OnOk result (string_bytes text.new ≡ string_bytes text.old ++ packet_head form
        (record { side = from.0; id = from.1; len = len; kind = kind }) payload.now) }
{
    let seen = Seen {
        side: from.0,
        id: from.1,
        len,
        kind,
    };
    push_front(text, form, &seen)?;
    push_bytes(text, form, kind, payload)
}

/// Appends the line of a packet as far as its fields.
#[inline(always)]
pub fn push_head<A: Allocator + Copy>(
    text: &mut String<A>,
    form: LineForm,
    seen: &Seen,
    payload: &[u8],
) -> Result<(), AllocError>
    ensures { OnOk result (string_bytes text.new
        ≡ string_bytes text.old ++ packet_head form seen.now payload.now) }
{
    let len = seen.len as u64;
    match (form, seen.side, seen.kind) {
        (LineForm::Text, Side::Server, PacketKind::Row) if len >= 10 && len < 100 => {
            push_row_of_tens(text, seen.id, len)
        }
        (LineForm::Text, Side::Server, PacketKind::Row) if len >= 100 && len < 1000 => {
            push_row_of_hundreds(text, seen.id, len)
        }
        _ => push_any_head(
            text,
            form,
            (seen.side, seen.id),
            seen.len,
            seen.kind,
            payload,
        ),
    }
}

/// Appends the end of a packet's line.
pub fn push_end<A: Allocator + Copy>(text: &mut String<A>, form: LineForm) -> Result<(), AllocError>
    ensures { OnOk result (string_bytes text.new ≡ string_bytes text.old ++ line_end form) }
{
    match form {
        LineForm::Text => text.push_str("\n"),
        LineForm::Json => text.push_str("}\n"),
    }
}

/// Appends the line of a packet, with its fields.
pub fn push_packet<A: Allocator + Copy>(
    text: &mut String<A>,
    form: LineForm,
    seen: &Seen,
    payload: &[u8],
    fields: &str,
) -> Result<(), AllocError>
    ensures { OnOk result (string_bytes text.new
        ≡ string_bytes text.old ++ packet_line form seen.now payload.now fields.now) }
{
    push_head(text, form, seen, payload)?;
    text.push_str(fields)?;
    push_end(text, form)
}

fn end_name(end: End) -> &'static str
    ensures { result.now ≡ end_name end }
{
    match end {
        End::Between => "end",
        End::Unfinished => "unfinished",
        End::OutOfSync => "out of sync",
        End::Encrypted => "encrypted",
    }
}

/// Appends how a direction ends, and how many bytes its packets have.
pub fn push_ending<A: Allocator + Copy>(
    text: &mut String<A>,
    form: LineForm,
    side: Side,
    end: End,
    at: u64,
) -> Result<(), AllocError>
    ensures { OnOk result (string_bytes text.new
        ≡ string_bytes text.old ++ ending_line form side end at) }
{
    let side = side.name();
    let end = end_name(end);
    match form {
        LineForm::Text => writeln!(text, "{side} {end} at {at}"),
        LineForm::Json => writeln!(
            text,
            "{{\"from\":\"{side}\",\"end\":\"{end}\",\"at\":{at}}}"
        ),
    }
}
