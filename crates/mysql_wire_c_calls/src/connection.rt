//! What goes, and what is lent from the caller's bytes; the limit, and the numbers of packets.

ghost use Rattle.std.specs.Prelude.{◌≡◌, ◌≢◌, ◌⊎◌, ◌↔◌, ℕ, List, [], ◌+◌, ◌/◌, ◌%◌, ◌<◌, ◌≤◌, ◌++◌, length, take, drop, min, None, IfSome, IfNone, IsSome, OnOk, OnErr};
ghost use Rattle.wire_codec.specs.Codec.{codec_state};
ghost use Rattle.wire_codec.specs.Framing.{max_payload, framing};
ghost use Rattle.wire_codec.specs.Laws.{appended, empty_state};
ghost use Rattle.wire_codec.specs.InPlace.{HasFront, behind_front};
ghost use Rattle.mysql_wire_c_calls.specs.Side.{IsReady, is_lost_at, lent_at, behind_lent};
ghost use Rattle.mysql_wire_c_calls.specs.Answers.{new_connection};
ghost use Rattle.mysql_wire_c_calls.specs.Decoding.{Decodes, DecodesMany, FeedsFront, HasPacketIn, LendsFrom, LendsInTurn, codec_at};
ghost use Rattle.mysql_wire_c_calls.specs.Calls.{SetsLimit, unread_count, Encodes, EncodesTo, EncodesHeader, Sends, Resets, SetsId, Numbers, LastNumbers, JudgesFront};

use crate::codes::{
    NO_MEMORY, OK, OUT_OF_SYNC, PACKET, PACKET_WAITS, ROOM_TOO_SMALL, TOO_LARGE, WAITS,
};
use crate::fields::Span;
use crate::side::{Connection, Front};
use crate::view::View;
use bytes::{Buf, BytesMut};
use std::alloc::{AllocError, Global};
use wire_buf::io::ParseBuf;
use wire_buf::lengths::MAX_PAYLOAD_LEN;
use wire_codec::codec::error::PacketCodecError;
use wire_codec::codec::header::{HEADER_LEN, Header};
use wire_codec::codec::{PacketCodec, framed_len, is_out_of_step, packet_to_slice};
use wire_codec::laws;

/// Sets the most bytes of a packet, for the headers that end in bytes that are fed from now on;
/// where the packet in front is too large, for all that is unread. `PACKET_WAITS`: a packet
/// stands whole, and is lent; it is to be taken first. Every answer but `OK` leaves the limit.
pub fn set_limit(connection: &mut Connection, limit: usize) -> i32
    ensures { SetsLimit limit result connection.old.side connection.new.side }
{
    match connection.peek() {
        WAITS | TOO_LARGE => {
            connection.codec.max_allowed_packet = limit;
            OK
        }
        PACKET => PACKET_WAITS,
        code => code,
    }
}

/// How many bytes came of which no packet was made; the headers of full chunks that are put
/// together aren't counted.
pub fn unread(connection: &Connection) -> usize
    ensures { result ≡ unread_count connection.now.side }
{
    match connection.front {
        Front::InPlace => {
            let skipped = HEADER_LEN + connection.packet().len();
            connection.src.len() - skipped
        }
        Front::Copied => connection.src.len(),
        Front::Unfinished | Front::Lost => connection
            .src
            .len()
            .saturating_add(connection.dst.len()),
    }
}

/// Frames a payload after the bytes that wait to be sent, numbered on from the packet that was
/// lent or sent last. `TOO_LARGE` and `NO_MEMORY` change nothing.
pub fn encode(connection: &mut Connection, payload: &[u8]) -> i32
    ensures { Encodes payload.now result connection.old.side connection.new.side }
{
    match set_aside(
        &mut connection.codec,
        &mut connection.src,
        &mut connection.dst,
        &mut connection.front,
    ) {
        Ok(()) => {}
        Err(_) => return NO_MEMORY,
    }
    let mut payload = payload;
    match connection
        .codec
        .encode(&mut payload, &mut connection.output)
    {
        Ok(()) => OK,
        Err(PacketCodecError::PacketTooLarge) => TOO_LARGE,
        Err(_) => NO_MEMORY,
    }
}

/// Moves bytes that wait to be sent to `room`, as many as it has place for. The answer is how
/// many.
pub fn output(connection: &mut Connection, room: &mut [u8]) -> usize
    ensures count { result ≡ min (length connection.old.side.pending) (length room.old) }
    ensures moved { room.new ≡ take result connection.old.side.pending ++ drop result room.old }
    ensures sends { Sends result connection.old.side connection.new.side }
{
    let bytes = connection.output.as_slice();
    let count = bytes.len().min(room.len());
    room[..count].copy_from_slice(&bytes[..count]);
    connection.output.advance(count);
    count
}

/// The bytes that wait to be sent.
pub fn pending(connection: &Connection) -> &[u8]
    ensures { result.now ≡ connection.now.side.pending }
{
    connection.output.as_slice()
}

/// Drops this many of the bytes that wait to be sent, or all where there are fewer. The answer is
/// how many.
pub fn sent(connection: &mut Connection, count: usize) -> usize
    ensures count { result ≡ min count (length connection.old.side.pending) }
    ensures sends { Sends result connection.old.side connection.new.side }
{
    let count = count.min(connection.output.len());
    connection.output.advance(count);
    count
}

/// Numbers the next packet 0, as at the start of a command. `NO_MEMORY` changes nothing.
pub fn reset(connection: &mut Connection) -> i32
    ensures { Resets result connection.old.side connection.new.side }
{
    set_sequence_id(connection, 0)
}

/// Numbers the next packet, sent or received, with this number. `NO_MEMORY` changes nothing.
pub fn set_sequence_id(connection: &mut Connection, id: u8) -> i32
    ensures { SetsId id result connection.old.side connection.new.side }
{
    match set_aside(
        &mut connection.codec,
        &mut connection.src,
        &mut connection.dst,
        &mut connection.front,
    ) {
        Ok(()) => {
            connection.codec.set_sequence_id(id);
            OK
        }
        Err(_) => NO_MEMORY,
    }
}

/// Frames a payload at the front of `room`, numbered as by `encode`; `written` is how many bytes
/// that takes. `ROOM_TOO_SMALL`: `written` says how many are needed. `TOO_LARGE`: it is above the
/// limit, or takes more bytes than can be counted. Every refusal changes nothing.
pub fn encode_to(
    connection: &mut Connection,
    payload: &[u8],
    room: &mut [u8],
    written: &mut usize,
) -> i32
    ensures { EncodesTo payload.now room.old room.new written.new result
        connection.old.side connection.new.side }
{
    laws::framed_length();
    *written = 0;
    if connection.codec.max_allowed_packet < payload.len() {
        return TOO_LARGE;
    }
    let Some(len) = framed_len(payload.len()) else {
        return TOO_LARGE;
    };
    match set_aside(
        &mut connection.codec,
        &mut connection.src,
        &mut connection.dst,
        &mut connection.front,
    ) {
        Ok(()) => {}
        Err(_) => return NO_MEMORY,
    }
    *written = len;
    if payload.len() < MAX_PAYLOAD_LEN {
        if room.len() < len {
            return ROOM_TOO_SMALL;
        }
        let seq_id = connection.codec.sequence_id();
        put_chunk(seq_id, payload, room);
        let next = seq_id.wrapping_add(1); // as of a header
        connection.codec.set_sequence_id(next);
        return OK;
    }
    match packet_to_slice(connection.codec.sequence_id(), payload, room) {
        Some((_, id)) => {
            connection.codec.set_sequence_id(id);
            OK
        }
        None => ROOM_TOO_SMALL,
    }
}

/// The header of a packet of this many bytes, numbered as by `encode`; its payload goes after it.
/// `TOO_LARGE`: it is above the limit, or has 16777215 bytes or more, which one chunk doesn't
/// hold. Every refusal changes nothing.
///
/// <https://dev.mysql.com/doc/dev/mysql-server/latest/page_protocol_basic_packets.html>
#[tactic(auto, using(crate::proofs::SideLemmas::full_chunk))]
pub fn encode_header(connection: &mut Connection, len: usize, header: &mut [u8; HEADER_LEN]) -> i32
    ensures { EncodesHeader len header.old header.new result
        connection.old.side connection.new.side }
{
    if connection.codec.max_allowed_packet < len {
        return TOO_LARGE;
    }
    if MAX_PAYLOAD_LEN <= len {
        return TOO_LARGE;
    }
    match set_aside(
        &mut connection.codec,
        &mut connection.src,
        &mut connection.dst,
        &mut connection.front,
    ) {
        Ok(()) => {}
        Err(_) => return NO_MEMORY,
    }
    let seq_id = connection.codec.sequence_id();
    *header = Header { len, seq_id }.bytes();
    let next = seq_id.wrapping_add(1); // after 255 comes 0
    connection.codec.set_sequence_id(next);
    OK
}

// Writes a payload of one chunk at the front of the room.
#[tactic(auto, using(crate::proofs::SideLemmas::framed_short))]
fn put_chunk(seq_id: u8, payload: &[u8], room: &mut [u8])
    requires small { length payload.now < max_payload }
    requires room { 4 + length payload.now ≤ length room.old }
    ensures { room.new ≡ framing seq_id payload.now ++ drop (4 + length payload.now) room.old }
{
    let header = Header {
        len: payload.len(),
        seq_id,
    };
    room[..HEADER_LEN].copy_from_slice(&header.bytes());
    room[HEADER_LEN..HEADER_LEN + payload.len()].copy_from_slice(payload);
}

/// Takes the packet that is lent, and lends the next one: from these bytes, where it lies whole
/// there and nothing came before it. Else it feeds as many of them as complete a packet, or all,
/// and answers as `peek`. `used` is how many of the bytes are used up.
pub fn decode(connection: &mut Connection, bytes: &[u8], used: &mut usize, packet: &mut View) -> i32
    ensures { Decodes bytes.now used.new packet.new.len result
        connection.old.side connection.new.side }
{
    connection.take();
    if let Some(lent) = lend_from(connection, bytes) {
        *used = HEADER_LEN + lent.len();
        packet.show(lent);
        return PACKET;
    }
    let code = fill(connection, bytes, used);
    packet.show(&[]);
    if code == PACKET {
        packet.show(connection.packet());
    }
    code
}

/// Takes the packet that is lent, and lends as many as lie whole in these bytes, in one chunk
/// each, one after the other, where nothing came before them: at most one for each place in
/// `spans`. The connection is after all of them. `count` is how many they are, `used` how many
/// of the bytes. `WAITS`: none lies so, and `decode` is to be called.
pub fn decode_many(
    connection: &mut Connection,
    bytes: &[u8],
    spans: &mut [Span],
    count: &mut usize,
    used: &mut usize,
) -> i32
    ensures { DecodesMany bytes.now spans.old spans.new count.new used.new result
        connection.old.side connection.new.side }
{
    if let Front::InPlace | Front::Copied = connection.front {
        connection.take();
    }
    lend_many(connection, bytes, spans, count, used);
    if *count > 0 { PACKET } else { WAITS }
}

// Lends the packets in front of these bytes.
fn lend_many(
    connection: &mut Connection,
    bytes: &[u8],
    spans: &mut [Span],
    count: &mut usize,
    used: &mut usize,
)
    requires { connection.old.side.lent ≡ None }
    ensures lends { LendsInTurn bytes.now 0 (take count.new spans.new) used.new
        connection.old.side connection.new.side }
    ensures room { count.new ≤ length spans.new }
    ensures bound { used.new ≤ length bytes.now }
    ensures all { (count.new ≡ length spans.new)
        ⊎ (HasPacketIn (drop used.new bytes.now) connection.new.side → ⊥) }
    ensures rest { drop count.new spans.new ≡ drop count.new spans.old }
{
    *count = 0;
    *used = 0;
    match connection.front {
        Front::Unfinished if connection.src.is_empty() && connection.dst.is_empty() => {}
        _ => return,
    }
    let limit = connection.codec.max_allowed_packet;
    let seq_id = connection.codec.sequence_id();
    let (packets, len, id) = lend_all(limit, seq_id, bytes, spans);
    *count = packets;
    *used = len;
    connection.codec.set_sequence_id(id);
}

// The packet in front of these bytes, where nothing came before it: the connection is after it
// then.
fn lend_from<'a>(connection: &mut Connection, bytes: &'a [u8]) -> Option<&'a [u8]>
    requires { connection.old.side.lent ≡ None }
    ensures there { IsSome result ↔ HasPacketIn bytes.now connection.old.side }
    ensures lends { IfSome result (λ packet. LendsFrom bytes.now (4 + length packet.now)
        (length packet.now) PACKET connection.old.side connection.new.side) }
    ensures none { IfNone result (connection.new.side ≡ connection.old.side) }
{
    match connection.front {
        Front::Unfinished => {}
        Front::InPlace | Front::Copied | Front::Lost => return None,
    }
    if !connection.src.is_empty() || !connection.dst.is_empty() {
        return None;
    }
    let packet = connection.codec.front_packet_in(bytes, &[])?;
    connection.codec.accept_front_in(bytes);
    Some(packet)
}

// How many bytes are to come before the header in front, or its chunk, can be whole; 1 where that
// isn't known.
fn missing(connection: &Connection) -> usize
    ensures { 0 < result }
{
    let front = connection.src.as_slice();
    let len = match ParseBuf(front).checked_eat_u24_le() {
        Some(len) if front.len() >= HEADER_LEN => HEADER_LEN + len as usize,
        _ => HEADER_LEN,
    };
    len.saturating_sub(front.len()).max(1)
}

// Feeds as many of these bytes as complete a packet, or all.
fn fill(connection: &mut Connection, bytes: &[u8], used: &mut usize) -> i32
    ensures { FeedsFront bytes.now used.new result connection.old.side connection.new.side }
{
    *used = 0;
    'pieces: loop {
        match connection.peek() {
            WAITS if *used < bytes.len() => {}
            code => return code,
        }
        let rest = &bytes[*used..];
        let count = missing(connection).min(rest.len());
        match connection.feed(&rest[..count]) {
            OK => *used += count,
            code => return code,
        }
    }
}

// Lends the packets in front of these bytes, as a codec of this limit between two packets has them,
// which expects this number: how many they are, how many of the bytes, and the number after them.
// The codec is a local, so that nothing of it is stored for each packet.
fn lend_all(limit: usize, id: u8, bytes: &[u8], spans: &mut [Span]) -> (usize, usize, u8)
    ensures lends { (pending : List ℕ)
        → LendsInTurn bytes.now 0 (take result.0 spans.new) result.1 (codec_at id limit pending)
        (codec_at result.2 limit pending) }
    ensures room { result.0 ≤ length spans.new }
    ensures bound { result.1 ≤ length bytes.now }
    ensures all { (result.0 ≡ length spans.new)
        ⊎ (HasFront (appended (empty_state result.2 limit) (drop result.1 bytes.now)) → ⊥) }
    ensures rest { drop result.0 spans.new ≡ drop result.0 spans.old }
{
    let mut codec = PacketCodec::default();
    codec.max_allowed_packet = limit;
    codec.set_sequence_id(id);
    let mut count = 0;
    let mut used = 0;
    'packets: while count < spans.len() {
        let rest = &bytes[used..];
        let Some(packet) = codec.front_packet_in(rest, &[]) else {
            return (count, used, codec.sequence_id());
        };
        let len = packet.len();
        codec.accept_front_in(rest);
        let at = used + HEADER_LEN;
        spans[count] = Span { at, len };
        used = at + len;
        count += 1;
    }
    (count, used, codec.sequence_id())
}

/// The number of the next packet, sent or received. `OUT_OF_SYNC` where the connection is lost.
pub fn sequence_id(connection: &Connection) -> i32
    ensures { Numbers result connection.now.side }
{
    match connection.front {
        Front::InPlace => connection.codec.sequence_id().wrapping_add(1) as i32,
        Front::Unfinished | Front::Copied => connection.codec.sequence_id() as i32,
        Front::Lost => OUT_OF_SYNC,
    }
}

/// The number before it: that of the chunk which was lent, taken or sent last. `OUT_OF_SYNC` where
/// the connection is lost.
pub fn packet_id(connection: &Connection) -> i32
    ensures { LastNumbers result connection.now.side }
{
    match connection.front {
        Front::InPlace => connection
            .codec
            .sequence_id()
            .wrapping_add(1)
            .wrapping_add(255) as i32,
        Front::Unfinished | Front::Copied => {
            connection.codec.sequence_id().wrapping_add(255) as i32
        }
        Front::Lost => OUT_OF_SYNC,
    }
}

/// Whether the header in front, as soon as it has come, bears the expected number. `OK`: it does, or
/// hasn't come, or a packet is lent. `OUT_OF_SYNC`: it bears another, or the connection is lost.
pub fn judge_front(connection: &Connection) -> i32
    ensures { JudgesFront result connection.now.side }
{
    match connection.front {
        Front::Lost => OUT_OF_SYNC,
        Front::InPlace | Front::Copied => OK,
        Front::Unfinished => {
            if is_out_of_step(&connection.codec, connection.src.as_slice()) {
                OUT_OF_SYNC
            } else {
                OK
            }
        }
    }
}

// Puts a packet that is lent where it lies apart, so that the codec goes on after it.
fn set_aside(
    codec: &mut PacketCodec,
    src: &mut BytesMut<Global>,
    dst: &mut Vec<u8, Global>,
    front: &mut Front,
) -> Result<(), AllocError>
    requires ready { IsReady front.old (codec_state codec.old src.old.items dst.old.items) }
    ensures ready { IsReady front.new (codec_state codec.new src.new.items dst.new.items) }
    ensures apart { OnOk result (front.new ≢ Front.InPlace) }
    ensures memory { OnErr result (front.old ≡ Front.InPlace) }
    ensures lost { is_lost_at front.new ≡ is_lost_at front.old }
    ensures lent { lent_at front.new (codec_state codec.new src.new.items dst.new.items)
        ≡ lent_at front.old (codec_state codec.old src.old.items dst.old.items) }
    ensures behind { behind_lent front.new (codec_state codec.new src.new.items dst.new.items)
        ≡ behind_lent front.old (codec_state codec.old src.old.items dst.old.items) }
{
    if let Front::InPlace = *front {
        copy_aside(codec, src, dst)?;
        *front = Front::Copied;
    }
    Ok(())
}

// Copies the packet in front, and takes it.
#[cold]
fn copy_aside(
    codec: &mut PacketCodec,
    src: &mut BytesMut<Global>,
    dst: &mut Vec<u8, Global>,
) -> Result<(), AllocError>
    requires { HasFront (codec_state codec.old src.old.items dst.old.items) }
    ensures ok { OnOk result (codec_state codec.new src.new.items dst.new.items
        ≡ behind_front (codec_state codec.old src.old.items dst.old.items)) }
    ensures err { OnErr result (codec_state codec.new src.new.items dst.new.items
        ≡ codec_state codec.old src.old.items dst.old.items) }
{
    if let Some(packet) = codec.front_packet(src, dst) {
        dst.extend_from_slice(packet)?;
    }
    codec.take_front(src);
    Ok(())
}

/// A connection on the heap.
pub fn boxed(alloc: Global, limit: usize) -> Option<Box<Connection, Global>>
    ensures { IfSome result (λ connection. connection.value ≡ new_connection limit) }
{
    match Box::new(alloc, Connection::new(alloc, limit)) {
        Ok(connection) => Some(connection),
        Err(_) => None,
    }
}
