//! The packet layer for C: one side of a connection after a handle, a session, and fields in bytes.
//!
//! `include/mysql_wire.h` has the same calls for C.
#![tactic(auto)]

ghost use Rattle.std.specs.Prelude.{◌≡◌, ◌↔◌, ◌⊎◌, ℕ, List, ◌+◌, ◌^◌, ◌≤◌, ◌<◌, [], ◌∷◌, ◌++◌, slice_get, IsSome, IfSome, MatchOption, Some, None, is_some, length, take, drop, min};
ghost use Rattle.std.specs.List.{before_first};
ghost use Rattle.wire_buf.specs.Numbers.{le_bytes, le_number};
ghost use Rattle.wire_buf.specs.NullText.{is_zero};
ghost use Rattle.wire_buf.specs.Spelling.{SpellsNothing};
ghost use Rattle.wire_buf.specs.Lenenc.{IsLenenc, IsLenencOrMark, lenenc_bytes};
ghost use Rattle.mysql_wire_c_calls.specs.declared.codes.TheConstants.{MISSING_BYTES, NOT_A_NUMBER, NULL, ROOM_TOO_SMALL};
ghost use Rattle.mysql_wire_c_calls.specs.Answers.{new_connection};
ghost use Rattle.mysql_wire_c_calls.specs.SideCalls.{Feeds, Peeks, LendsInPlace, Takes, CopiesNext};
ghost use Rattle.mysql_wire_c_calls.specs.Calls.{Both, BothStates, SetsLimit, unread_count, Encodes, EncodesTo, EncodesHeader, MovesPending, Sends, Resets, SetsId, Numbers, LastNumbers, JudgesFront};
ghost use Rattle.mysql_wire_c_calls.specs.Decoding.{Decodes, DecodesMany};
ghost use Rattle.wire_codec.specs.Framing.{framing};
ghost use Rattle.mysql_wire_c_calls.specs.Messages.{message};
ghost use Rattle.wire_span.specs.Spans.{IsBetween};
ghost use Rattle.mysql_wire_c_calls.specs.Spans.{state_of, IsValid, NextSpan, Renumbers};
ghost use Rattle.mysql_wire_c_calls.specs.Rows.{ReadsRow, StopsRow};
ghost use Rattle.mysql_wire_c_calls.specs.Fields.{IsCutShort, IsMark, ReadsAt, WritesAt, text_at};

pub mod handle;
pub mod numbers;
pub mod session;
pub mod session_calls;

use mysql_wire_c_calls::codes::{CLOSED, IS_OPEN, NO_MEMORY, OK, PACKET, TOO_LARGE};
use mysql_wire_c_calls::connection::boxed;
use mysql_wire_c_calls::fields::Span;
use mysql_wire_c_calls::handle::Handle;
use mysql_wire_c_calls::spans::Spans;
use mysql_wire_c_calls::view::View;
use mysql_wire_c_calls::{connection, fields, rows, spans, texts};
use std::alloc::Global;
use std::mem;
use wire_codec::codec::framed_len;
use wire_codec::codec::header::HEADER_LEN;
use wire_codec::laws;

// 0.2.0: 10000 times the first number, 100 times the second, and the third.
const VERSION: u32 = 200;

/// The version of the library, as one number.
#[unsafe(no_mangle)]
pub extern "C" fn mysql_wire_version() -> u32
    ensures { result ≡ 200 }
{
    VERSION
}

/// Puts a connection with a limit on packets into a handle of nothing.
#[unsafe(no_mangle)]
pub extern "C" fn mysql_wire_open(alloc: Global, limit: usize, handle: &mut Handle) -> i32
    ensures opened { result ≡ OK → (handle.old.connection ≡ None)
        × (handle.new.connection ≡ Some (new_connection limit)) }
    ensures refused { (result ≡ OK) ⊎ (handle.new ≡ handle.old) }
    ensures answers { (result ≡ OK) ⊎ (result ≡ IS_OPEN) ⊎ (result ≡ NO_MEMORY) }
    ensures is_open { (result ≡ IS_OPEN) ↔ IsSome handle.old.connection }
{
    if !handle.is_closed() {
        return IS_OPEN;
    }
    match boxed(alloc, limit) {
        Some(connection) => {
            *handle = Handle::of(connection);
            OK
        }
        None => NO_MEMORY,
    }
}

/// Frees the connection, where there is one, and leaves the handle closed.
#[unsafe(no_mangle)]
pub extern "C" fn mysql_wire_close(alloc: Global, handle: &mut Handle)
    ensures { handle.new.connection ≡ None }
{
    if handle.is_closed() {
        return;
    }
    let old = mem::replace(handle, Handle::closed(alloc));
    drop(old.into_box())
}

/// Takes bytes that came from the other side.
#[unsafe(no_mangle)]
pub extern "C" fn mysql_wire_feed(handle: &mut Handle, bytes: &[u8]) -> i32
    ensures open { is_some handle.new.connection ≡ is_some handle.old.connection }
    ensures closed { handle.old.connection ≡ None → result ≡ CLOSED }
    ensures feeds { Both handle.old.connection handle.new.connection
        (Feeds bytes.now result) }
{
    if handle.is_closed() {
        return CLOSED;
    }
    handle.connection().feed(bytes)
}

/// Lends the next packet.
#[unsafe(no_mangle)]
pub extern "C" fn mysql_wire_peek(handle: &mut Handle, packet: &mut View) -> i32
    ensures open { is_some handle.new.connection ≡ is_some handle.old.connection }
    ensures closed { handle.old.connection ≡ None → result ≡ CLOSED }
    ensures peeks { Both handle.old.connection handle.new.connection (Peeks result) }
    ensures in_place { BothStates handle.old.connection handle.new.connection
        (LendsInPlace result) }
    ensures len { result ≡ PACKET → IfSome handle.new.connection (λ after.
        IfSome after.side.lent (λ lent. packet.new.len ≡ length lent)) }
    ensures empty { (result ≡ PACKET) ⊎ (packet.new.len ≡ 0) }
{
    packet.show(&[]);
    if handle.is_closed() {
        return CLOSED;
    }
    let connection = handle.connection();
    let code = connection.peek();
    if code == PACKET {
        packet.show(connection.packet());
    }
    code
}

/// Takes the packet that is lent.
#[unsafe(no_mangle)]
pub extern "C" fn mysql_wire_take(handle: &mut Handle) -> i32
    ensures open { is_some handle.new.connection ≡ is_some handle.old.connection }
    ensures closed { handle.old.connection ≡ None → result ≡ CLOSED }
    ensures takes { Both handle.old.connection handle.new.connection
        (Takes result) }
{
    if handle.is_closed() {
        return CLOSED;
    }
    handle.connection().take()
}

/// Copies the next packet to `room`, and takes it.
#[unsafe(no_mangle)]
pub extern "C" fn mysql_wire_next(handle: &mut Handle, room: &mut [u8], len: &mut usize) -> i32
    ensures open { is_some handle.new.connection ≡ is_some handle.old.connection }
    ensures closed { handle.old.connection ≡ None
        → (result ≡ CLOSED) × (room.new ≡ room.old) × (len.new ≡ 0) }
    ensures copies { Both handle.old.connection handle.new.connection
        (CopiesNext room.old room.new len.new result) }
{
    *len = 0;
    if handle.is_closed() {
        return CLOSED;
    }
    handle.connection().next(room, len)
}

/// Takes the packet that is lent, and lends the next one: from `bytes`, where it lies whole there
/// and nothing came before it.
#[unsafe(no_mangle)]
pub extern "C" fn mysql_wire_decode(
    handle: &mut Handle,
    bytes: &[u8],
    used: &mut usize,
    packet: &mut View,
) -> i32
    ensures open { is_some handle.new.connection ≡ is_some handle.old.connection }
    ensures closed { handle.old.connection ≡ None
        → (result ≡ CLOSED) × (used.new ≡ 0) × (packet.new.len ≡ 0) }
    ensures decodes { Both handle.old.connection handle.new.connection
        (Decodes bytes.now used.new packet.new.len result) }
{
    *used = 0;
    packet.show(&[]);
    if handle.is_closed() {
        return CLOSED;
    }
    connection::decode(handle.connection(), bytes, used, packet)
}

/// Takes the packet that is lent, and lends as many as lie whole in `bytes`, one after the other,
/// where nothing came before them.
#[unsafe(no_mangle)]
pub extern "C" fn mysql_wire_decode_many(
    handle: &mut Handle,
    bytes: &[u8],
    spans: &mut [Span],
    count: &mut usize,
    used: &mut usize,
) -> i32
    ensures open { is_some handle.new.connection ≡ is_some handle.old.connection }
    ensures closed { handle.old.connection ≡ None
        → (result ≡ CLOSED) × (spans.new ≡ spans.old) × (count.new ≡ 0) × (used.new ≡ 0) }
    ensures decodes { Both handle.old.connection handle.new.connection
        (DecodesMany bytes.now spans.old spans.new count.new used.new result) }
{
    if handle.is_closed() {
        *count = 0;
        *used = 0;
        return CLOSED;
    }
    connection::decode_many(handle.connection(), bytes, spans, count, used)
}

/// Sets the most bytes of a packet.
#[unsafe(no_mangle)]
pub extern "C" fn mysql_wire_set_limit(handle: &mut Handle, limit: usize) -> i32
    ensures open { is_some handle.new.connection ≡ is_some handle.old.connection }
    ensures closed { handle.old.connection ≡ None → result ≡ CLOSED }
    ensures sets { Both handle.old.connection handle.new.connection
        (SetsLimit limit result) }
{
    if handle.is_closed() {
        return CLOSED;
    }
    connection::set_limit(handle.connection(), limit)
}

/// How many bytes came of which no packet was made.
#[unsafe(no_mangle)]
pub extern "C" fn mysql_wire_unread(handle: &mut Handle) -> usize
    ensures same { handle.new.connection ≡ handle.old.connection }
    ensures count { MatchOption handle.old.connection (result ≡ 0)
        (λ state. result ≡ unread_count state.side) }
{
    if handle.is_closed() {
        return 0;
    }
    connection::unread(handle.connection())
}

/// Frames a payload after the bytes that wait to be sent.
#[unsafe(no_mangle)]
pub extern "C" fn mysql_wire_encode(handle: &mut Handle, payload: &[u8]) -> i32
    ensures open { is_some handle.new.connection ≡ is_some handle.old.connection }
    ensures closed { handle.old.connection ≡ None → result ≡ CLOSED }
    ensures encodes { Both handle.old.connection handle.new.connection
        (Encodes payload.now result) }
{
    if handle.is_closed() {
        return CLOSED;
    }
    connection::encode(handle.connection(), payload)
}

/// How many bytes a payload takes with the headers of its chunks. `TOO_LARGE`: more than can be
/// counted.
///
/// <https://dev.mysql.com/doc/dev/mysql-server/latest/page_protocol_basic_packets.html>
#[unsafe(no_mangle)]
pub extern "C" fn mysql_wire_framed_len(len: usize, framed: &mut usize) -> i32
    ensures framed { result ≡ OK → (id : ℕ) (payload : List ℕ) → length payload ≡ len
        → framed.new ≡ length (framing id payload) }
    ensures too_large { result ≡ TOO_LARGE → (id : ℕ) (payload : List ℕ) → length payload ≡ len
        → 2 ^ 64 ≤ length (framing id payload) }
    ensures refused { (result ≡ OK) ⊎ (framed.new ≡ 0) }
    ensures answers { (result ≡ OK) ⊎ (result ≡ TOO_LARGE) }
{
    laws::framed_length();
    match framed_len(len) {
        Some(count) => {
            *framed = count;
            OK
        }
        None => {
            *framed = 0;
            TOO_LARGE
        }
    }
}

/// Frames a payload into `room`.
#[unsafe(no_mangle)]
pub extern "C" fn mysql_wire_encode_to(
    handle: &mut Handle,
    payload: &[u8],
    room: &mut [u8],
    written: &mut usize,
) -> i32
    ensures open { is_some handle.new.connection ≡ is_some handle.old.connection }
    ensures closed { handle.old.connection ≡ None
        → (result ≡ CLOSED) × (room.new ≡ room.old) × (written.new ≡ 0) }
    ensures encodes { Both handle.old.connection handle.new.connection
        (EncodesTo payload.now room.old room.new written.new result) }
{
    *written = 0;
    if handle.is_closed() {
        return CLOSED;
    }
    connection::encode_to(handle.connection(), payload, room, written)
}

/// The header of a packet of this many bytes, which go after it.
#[unsafe(no_mangle)]
pub extern "C" fn mysql_wire_encode_header(
    handle: &mut Handle,
    len: usize,
    header: &mut [u8; HEADER_LEN],
) -> i32
    ensures open { is_some handle.new.connection ≡ is_some handle.old.connection }
    ensures closed { handle.old.connection ≡ None
        → (result ≡ CLOSED) × (header.new ≡ header.old) }
    ensures encodes { Both handle.old.connection handle.new.connection
        (EncodesHeader len header.old header.new result) }
{
    if handle.is_closed() {
        return CLOSED;
    }
    connection::encode_header(handle.connection(), len, header)
}

/// Moves bytes that wait to be sent to `room`.
#[unsafe(no_mangle)]
pub extern "C" fn mysql_wire_output(handle: &mut Handle, room: &mut [u8]) -> usize
    ensures open { is_some handle.new.connection ≡ is_some handle.old.connection }
    ensures closed { handle.old.connection ≡ None → (result ≡ 0) × (room.new ≡ room.old) }
    ensures moves { Both handle.old.connection handle.new.connection
        (MovesPending result room.old room.new) }
{
    if handle.is_closed() {
        return 0;
    }
    connection::output(handle.connection(), room)
}

/// Lends the bytes that wait to be sent.
#[unsafe(no_mangle)]
pub extern "C" fn mysql_wire_pending(handle: &mut Handle, bytes: &mut View)
    ensures same { handle.new.connection ≡ handle.old.connection }
    ensures len { MatchOption handle.old.connection (bytes.new.len ≡ 0)
        (λ state. bytes.new.len ≡ length state.side.pending) }
{
    bytes.show(&[]);
    if handle.is_closed() {
        return;
    }
    let connection = handle.connection();
    bytes.show(connection::pending(connection));
}

/// Drops bytes that were sent.
#[unsafe(no_mangle)]
pub extern "C" fn mysql_wire_sent(handle: &mut Handle, count: usize) -> usize
    ensures open { is_some handle.new.connection ≡ is_some handle.old.connection }
    ensures closed { handle.old.connection ≡ None → result ≡ 0 }
    ensures sends { Both handle.old.connection handle.new.connection (λ before after.
        (result ≡ min count (length before.pending)) × Sends result before after) }
{
    if handle.is_closed() {
        return 0;
    }
    connection::sent(handle.connection(), count)
}

/// Numbers the next packet 0.
#[unsafe(no_mangle)]
pub extern "C" fn mysql_wire_reset(handle: &mut Handle) -> i32
    ensures open { is_some handle.new.connection ≡ is_some handle.old.connection }
    ensures closed { handle.old.connection ≡ None → result ≡ CLOSED }
    ensures resets { Both handle.old.connection handle.new.connection
        (Resets result) }
{
    if handle.is_closed() {
        return CLOSED;
    }
    connection::reset(handle.connection())
}

/// Numbers the next packet with this number.
#[unsafe(no_mangle)]
pub extern "C" fn mysql_wire_set_sequence_id(handle: &mut Handle, id: u8) -> i32
    ensures open { is_some handle.new.connection ≡ is_some handle.old.connection }
    ensures closed { handle.old.connection ≡ None → result ≡ CLOSED }
    ensures sets { Both handle.old.connection handle.new.connection
        (SetsId id result) }
{
    if handle.is_closed() {
        return CLOSED;
    }
    connection::set_sequence_id(handle.connection(), id)
}

/// The number of the next packet.
#[unsafe(no_mangle)]
pub extern "C" fn mysql_wire_sequence_id(handle: &mut Handle) -> i32
    ensures same { handle.new.connection ≡ handle.old.connection }
    ensures number { MatchOption handle.old.connection (result ≡ CLOSED)
        (λ state. Numbers result state.side) }
{
    if handle.is_closed() {
        return CLOSED;
    }
    connection::sequence_id(handle.connection())
}

/// The number of the packet that was lent, taken or sent last.
#[unsafe(no_mangle)]
pub extern "C" fn mysql_wire_packet_id(handle: &mut Handle) -> i32
    ensures same { handle.new.connection ≡ handle.old.connection }
    ensures number { MatchOption handle.old.connection (result ≡ CLOSED)
        (λ state. LastNumbers result state.side) }
{
    if handle.is_closed() {
        return CLOSED;
    }
    connection::packet_id(handle.connection())
}

/// Judges the number of the header in front, as soon as it has come.
#[unsafe(no_mangle)]
pub extern "C" fn mysql_wire_judge_front(handle: &mut Handle) -> i32
    ensures same { handle.new.connection ≡ handle.old.connection }
    ensures judges { MatchOption handle.old.connection (result ≡ CLOSED)
        (λ state. JudgesFront result state.side) }
{
    if handle.is_closed() {
        return CLOSED;
    }
    connection::judge_front(handle.connection())
}

/// Begins a stream of packets, between two of them.
#[unsafe(no_mangle)]
pub extern "C" fn mysql_wire_spans_init(spans: &mut Spans, limit: usize, id: u8)
    ensures valid { IsValid spans.new }
    ensures between { IsBetween (state_of spans.new) }
    ensures settings { (spans.new.limit ≡ limit) × (spans.new.id ≡ id)
        × (spans.new.next_id ≡ id) }
{
    *spans = spans::begin(limit, id);
}

/// Eats the front of bytes that came, up to the end of the next span of a packet.
#[unsafe(no_mangle)]
pub extern "C" fn mysql_wire_spans_next(
    spans: &mut Spans,
    bytes: &[u8],
    used: &mut usize,
    span: &mut View,
    ends: &mut u8,
) -> i32
    ensures { NextSpan bytes.now used.new span.new.len ends.new result spans.old spans.new }
{
    spans::next_span(spans, bytes, used, span, ends)
}

/// Writes other numbers over those of the packets that came.
#[unsafe(no_mangle)]
pub extern "C" fn mysql_wire_spans_renumber(
    spans: &mut Spans,
    bytes: &mut [u8],
    used: &mut usize,
) -> i32
    ensures { Renumbers bytes.old bytes.new used.new result spans.old spans.new }
{
    spans::renumber(spans, bytes, used)
}

/// The text for a code, ended by a zero that isn't counted.
#[unsafe(no_mangle)]
pub extern "C" fn mysql_wire_message(code: i32, text: &mut View)
    ensures { text.new.len ≡ length (message code) }
{
    texts::show_text(code, text)
}

/// Reads a number of `width` bytes, 1 to 8, the least significant first. `NOT_A_NUMBER`: another
/// width. `MISSING_BYTES`: there are fewer.
///
/// <https://dev.mysql.com/doc/dev/mysql-server/latest/page_protocol_basic_dt_integers.html>
#[unsafe(no_mangle)]
pub extern "C" fn mysql_wire_read_int(
    bytes: &[u8],
    at: &mut usize,
    width: usize,
    value: &mut u64,
) -> i32
    ensures read { result ≡ OK → (value.new ≡ le_number (take width (drop at.old bytes.now)))
        × (at.new ≡ at.old + width) × (at.new ≤ length bytes.now) }
    ensures missing { result ≡ MISSING_BYTES → length bytes.now < at.old + width }
    ensures width { result ≡ NOT_A_NUMBER ↔ (width < 1) ⊎ (8 < width) }
    ensures refused { (result ≡ OK) ⊎ ((at.new ≡ at.old) × (value.new ≡ value.old)) }
    ensures answers { (result ≡ OK) ⊎ (result ≡ MISSING_BYTES) ⊎ (result ≡ NOT_A_NUMBER) }
{
    fields::read_int(bytes, at, width, value)
}

/// Reads an `int<lenenc>`. `NOT_A_NUMBER`: its first byte is `fb` or `ff`. `MISSING_BYTES`: it is
/// cut short.
///
/// <https://dev.mysql.com/doc/dev/mysql-server/latest/page_protocol_basic_dt_integers.html>
#[unsafe(no_mangle)]
pub extern "C" fn mysql_wire_read_lenenc_int(bytes: &[u8], at: &mut usize, value: &mut u64) -> i32
    ensures read { result ≡ OK → ReadsAt IsLenenc bytes.now at.old value.new at.new }
    ensures missing { result ≡ MISSING_BYTES
        → SpellsNothing IsLenencOrMark (drop at.old bytes.now) }
    ensures mark { result ≡ NOT_A_NUMBER → IsMark (drop at.old bytes.now) }
    ensures refused { (result ≡ OK) ⊎ ((at.new ≡ at.old) × (value.new ≡ value.old)) }
    ensures answers { (result ≡ OK) ⊎ (result ≡ MISSING_BYTES) ⊎ (result ≡ NOT_A_NUMBER) }
{
    fields::read_lenenc_int(bytes, at, value)
}

/// Reads a `string<lenenc>`: where the text after an `int<lenenc>` stands. It answers as
/// `read_lenenc_int`, and `MISSING_BYTES` where the text is cut short.
///
/// <https://dev.mysql.com/doc/dev/mysql-server/latest/page_protocol_basic_dt_strings.html>
#[unsafe(no_mangle)]
pub extern "C" fn mysql_wire_read_lenenc_bytes(bytes: &[u8], at: &mut usize, text: &mut Span) -> i32
    ensures read { result ≡ OK → ReadsAt IsLenenc bytes.now at.old text.new.len text.new.at
        × (at.new ≡ text.new.at + text.new.len) × (at.new ≤ length bytes.now) }
    ensures missing { result ≡ MISSING_BYTES → IsCutShort bytes.now at.old }
    ensures mark { result ≡ NOT_A_NUMBER → IsMark (drop at.old bytes.now) }
    ensures refused { (result ≡ OK) ⊎ ((at.new ≡ at.old) × (text.new ≡ text.old)) }
    ensures answers { (result ≡ OK) ⊎ (result ≡ MISSING_BYTES) ⊎ (result ≡ NOT_A_NUMBER) }
{
    fields::read_lenenc_bytes(bytes, at, text)
}

/// Reads a `string<NUL>`: where the text before the next zero stands. `MISSING_BYTES`: there is no
/// zero.
///
/// <https://dev.mysql.com/doc/dev/mysql-server/latest/page_protocol_basic_dt_strings.html>
#[unsafe(no_mangle)]
pub extern "C" fn mysql_wire_read_null_bytes(bytes: &[u8], at: &mut usize, text: &mut Span) -> i32
    ensures read { result ≡ OK → (text.new.at ≡ at.old)
        × (text_at text.new bytes.now ≡ before_first is_zero (drop at.old bytes.now))
        × (at.new ≡ at.old + text.new.len + 1) × (at.new ≤ length bytes.now) }
    ensures missing { result ≡ MISSING_BYTES
        → before_first is_zero (drop at.old bytes.now) ≡ drop at.old bytes.now }
    ensures refused { (result ≡ OK) ⊎ ((at.new ≡ at.old) × (text.new ≡ text.old)) }
    ensures answers { (result ≡ OK) ⊎ (result ≡ MISSING_BYTES) }
{
    fields::read_null_bytes(bytes, at, text)
}

/// Reads this many bytes: where they stand. `MISSING_BYTES`: there are fewer.
///
/// <https://dev.mysql.com/doc/dev/mysql-server/latest/page_protocol_basic_dt_strings.html>
#[unsafe(no_mangle)]
pub extern "C" fn mysql_wire_read_bytes(
    bytes: &[u8],
    at: &mut usize,
    count: usize,
    text: &mut Span,
) -> i32
    ensures read { result ≡ OK → (text.new.at ≡ at.old) × (text.new.len ≡ count)
        × (at.new ≡ at.old + count) × (at.new ≤ length bytes.now) }
    ensures missing { result ≡ MISSING_BYTES → length bytes.now < at.old + count }
    ensures refused { (result ≡ OK) ⊎ ((at.new ≡ at.old) × (text.new ≡ text.old)) }
    ensures answers { (result ≡ OK) ⊎ (result ≡ MISSING_BYTES) }
{
    fields::read_bytes(bytes, at, count, text)
}

/// Moves past this many bytes. `MISSING_BYTES`: there are fewer.
#[unsafe(no_mangle)]
pub extern "C" fn mysql_wire_skip(bytes: &[u8], at: &mut usize, count: usize) -> i32
    ensures past { result ≡ OK → (at.new ≡ at.old + count) × (at.new ≤ length bytes.now) }
    ensures missing { result ≡ MISSING_BYTES → length bytes.now < at.old + count }
    ensures refused { (result ≡ OK) ⊎ (at.new ≡ at.old) }
    ensures answers { (result ≡ OK) ⊎ (result ≡ MISSING_BYTES) }
{
    fields::skip(bytes, at, count)
}

/// Reads a `string<EOF>`: where the bytes up to the end stand. `MISSING_BYTES`: the place is after
/// the end.
///
/// <https://dev.mysql.com/doc/dev/mysql-server/latest/page_protocol_basic_dt_strings.html>
#[unsafe(no_mangle)]
pub extern "C" fn mysql_wire_read_rest(bytes: &[u8], at: &mut usize, text: &mut Span) -> i32
    ensures read { result ≡ OK → (text.new.at ≡ at.old) × (at.new ≡ at.old + text.new.len)
        × (at.new ≡ length bytes.now) }
    ensures missing { result ≡ MISSING_BYTES → length bytes.now < at.old }
    ensures refused { (result ≡ OK) ⊎ ((at.new ≡ at.old) × (text.new ≡ text.old)) }
    ensures answers { (result ≡ OK) ⊎ (result ≡ MISSING_BYTES) }
{
    fields::read_rest(bytes, at, text)
}

/// Reads a `string<lenenc>` that may be NULL, as in a row of a text result. `NULL`: its one byte is
/// `fb`, and the text has no bytes. `NOT_A_NUMBER`: its first byte is `ff`. `MISSING_BYTES`: it is
/// cut short.
///
/// <https://dev.mysql.com/doc/dev/mysql-server/latest/page_protocol_com_query_response_text_resultset_row.html>
#[unsafe(no_mangle)]
pub extern "C" fn mysql_wire_read_nullable_bytes(
    bytes: &[u8],
    at: &mut usize,
    text: &mut Span,
) -> i32
    ensures null { result ≡ NULL ↔ (slice_get (drop at.old bytes.now) 0 ≡ Some 0xfb) }
    ensures past { result ≡ NULL → (at.new ≡ at.old + 1) × (at.new ≤ length bytes.now)
        × (text.new.at ≡ at.new) × (text.new.len ≡ 0) }
    ensures read { result ≡ OK → ReadsAt IsLenenc bytes.now at.old text.new.len text.new.at
        × (at.new ≡ text.new.at + text.new.len) × (at.new ≤ length bytes.now) }
    ensures missing { result ≡ MISSING_BYTES → IsCutShort bytes.now at.old }
    ensures mark { result ≡ NOT_A_NUMBER → slice_get (drop at.old bytes.now) 0 ≡ Some 0xff }
    ensures refused { (result ≡ OK) ⊎ (result ≡ NULL)
        ⊎ ((at.new ≡ at.old) × (text.new ≡ text.old)) }
    ensures answers { (result ≡ OK) ⊎ (result ≡ NULL) ⊎ (result ≡ MISSING_BYTES)
        ⊎ (result ≡ NOT_A_NUMBER) }
{
    fields::read_nullable_bytes(bytes, at, text)
}

/// Reads the values of a row of a text result, as many as there are places for: where each stands.
/// A value that is NULL has no bytes, and stands after all places.
///
/// <https://dev.mysql.com/doc/dev/mysql-server/latest/page_protocol_com_query_response_text_resultset_row.html>
#[unsafe(no_mangle)]
pub extern "C" fn mysql_wire_read_row(bytes: &[u8], at: &mut usize, texts: &mut [Span]) -> i32
    ensures read { result ≡ OK → ReadsRow bytes.now at.old texts.new at.new }
    ensures stops { (result ≡ OK)
        ⊎ ((at.new ≡ at.old) × StopsRow result bytes.now at.old texts.new) }
{
    rows::read_row(bytes, at, texts)
}

/// Writes the low `width` bytes of a number, 1 to 8, the least significant first. `NOT_A_NUMBER`:
/// another width. `ROOM_TOO_SMALL`: there is less room.
///
/// <https://dev.mysql.com/doc/dev/mysql-server/latest/page_protocol_basic_dt_integers.html>
#[unsafe(no_mangle)]
pub extern "C" fn mysql_wire_write_int(
    room: &mut [u8],
    at: &mut usize,
    width: usize,
    value: u64,
) -> i32
    ensures written { result ≡ OK
        → WritesAt room.old at.old (le_bytes width value) room.new at.new }
    ensures small { result ≡ ROOM_TOO_SMALL → length room.old < at.old + width }
    ensures width { result ≡ NOT_A_NUMBER ↔ (width < 1) ⊎ (8 < width) }
    ensures refused { (result ≡ OK) ⊎ ((at.new ≡ at.old) × (room.new ≡ room.old)) }
    ensures answers { (result ≡ OK) ⊎ (result ≡ ROOM_TOO_SMALL) ⊎ (result ≡ NOT_A_NUMBER) }
{
    fields::write_int(room, at, width, value)
}

/// Writes an `int<lenenc>`, in as few bytes as hold it. `ROOM_TOO_SMALL`: there is less room.
///
/// <https://dev.mysql.com/doc/dev/mysql-server/latest/page_protocol_basic_dt_integers.html>
#[unsafe(no_mangle)]
pub extern "C" fn mysql_wire_write_lenenc_int(room: &mut [u8], at: &mut usize, value: u64) -> i32
    ensures written { result ≡ OK → WritesAt room.old at.old (lenenc_bytes value) room.new at.new }
    ensures small { result ≡ ROOM_TOO_SMALL
        → length room.old < at.old + length (lenenc_bytes value) }
    ensures refused { (result ≡ OK) ⊎ ((at.new ≡ at.old) × (room.new ≡ room.old)) }
    ensures answers { (result ≡ OK) ⊎ (result ≡ ROOM_TOO_SMALL) }
{
    fields::write_lenenc_int(room, at, value)
}

/// Writes a `string<lenenc>`: the text after its length as an `int<lenenc>`. `ROOM_TOO_SMALL`:
/// there is less room, and nothing is written.
///
/// <https://dev.mysql.com/doc/dev/mysql-server/latest/page_protocol_basic_dt_strings.html>
#[unsafe(no_mangle)]
pub extern "C" fn mysql_wire_write_lenenc_bytes(room: &mut [u8], at: &mut usize, text: &[u8]) -> i32
    ensures written { result ≡ OK → WritesAt room.old at.old
        (lenenc_bytes (length text.now) ++ text.now) room.new at.new }
    ensures small { result ≡ ROOM_TOO_SMALL
        → length room.old < at.old + length (lenenc_bytes (length text.now) ++ text.now) }
    ensures refused { (result ≡ OK) ⊎ ((at.new ≡ at.old) × (room.new ≡ room.old)) }
    ensures answers { (result ≡ OK) ⊎ (result ≡ ROOM_TOO_SMALL) }
{
    fields::write_lenenc_bytes(room, at, text)
}

/// Writes a `string<NUL>`: the text, and a zero. `ROOM_TOO_SMALL`: there is less room, and nothing
/// is written.
///
/// <https://dev.mysql.com/doc/dev/mysql-server/latest/page_protocol_basic_dt_strings.html>
#[unsafe(no_mangle)]
pub extern "C" fn mysql_wire_write_null_bytes(room: &mut [u8], at: &mut usize, text: &[u8]) -> i32
    ensures written { result ≡ OK → WritesAt room.old at.old (text.now ++ 0 ∷ []) room.new at.new }
    ensures small { result ≡ ROOM_TOO_SMALL
        → length room.old < at.old + length (text.now ++ 0 ∷ []) }
    ensures refused { (result ≡ OK) ⊎ ((at.new ≡ at.old) × (room.new ≡ room.old)) }
    ensures answers { (result ≡ OK) ⊎ (result ≡ ROOM_TOO_SMALL) }
{
    fields::write_null_bytes(room, at, text)
}
