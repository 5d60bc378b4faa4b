//! A second caller of what is timed, so that nothing is inlined since it has one caller alone.

use crate::check::REFUSED;
use crate::columns::next_definition;
use crate::streams::{Again, Last, Passed, both_sides};
use bytes::BytesMut;
use mysql_wire::io::{BufMutExt, ParseBuf};
use mysql_wire::misc::raw::bytes::{BytesRepr, LenEnc, NullBytes, RawBytes};
use mysql_wire::proto::codec::{PacketCodec, packet_to_chunks};
use mysql_wire::proto::packet_io::{PacketReader, PacketWriter};
use mysql_wire_packets::ok_packet::{InfoForm, OkPacket};
use mysql_wire_packets::places::read_whole;
use mysql_wire_queries::text_row::{TextRow, TextValue};
use mysql_wire_queries::text_values::TextValues;
use std::alloc::Global;

// Frames a packet in each way: whether there was memory.
fn is_framed(codec: &mut PacketCodec, packet: &[u8], framed: &mut BytesMut) -> bool {
    let mut left = packet;
    let mut again = packet;
    packet_to_chunks(0, &mut left, framed).is_ok() && codec.encode(&mut again, framed).is_ok()
}

// Queues a packet, and writes it: how many bytes are written.
fn queued(codec: &mut PacketCodec, packet: &[u8], writer: &mut PacketWriter<Last>) -> usize {
    let mut left = packet;
    let is_queued = writer.queue(codec, &mut left).is_ok();
    let pending = writer.pending().len();
    if is_queued && writer.write_pending().is_ok() {
        pending
    } else {
        0
    }
}

// A packet, framed and queued: how many bytes its chunks have.
fn sent(alloc: Global, packet: &[u8]) -> Option<usize> {
    let mut writer = PacketWriter::new(alloc, Last::new(alloc)).ok()?;
    let mut framed = BytesMut::new(alloc);
    let mut codec = PacketCodec::default();
    if !is_framed(&mut codec, packet, &mut framed) {
        return None;
    }
    let pending = queued(&mut codec, packet, &mut writer);
    Some(framed.len().wrapping_add(pending))
}

// The next packet, handed out: how many bytes it has.
fn taken(reader: &mut PacketReader<Again<'_>>, codec: &mut PacketCodec) -> Option<usize> {
    if !reader.fits(codec) {
        return None;
    }
    match reader.next_packet(codec) {
        Ok(Some(packet)) => Some(packet.len()),
        Ok(None) | Err(_) => None,
    }
}

// The same of one that is lent.
fn lent(reader: &mut PacketReader<Again<'_>>, codec: &mut PacketCodec) -> Option<usize> {
    if !reader.fits(codec) {
        return None;
    }
    match reader.fill_packet(codec) {
        Ok(true) => {}
        Ok(false) | Err(_) => return None,
    }
    let len = reader.packet().len();
    reader.take_packet();
    Some(len)
}

// The sum of both. No destructor waits here, where two ways lead out early.
fn both(first: Option<usize>, second: Option<usize>) -> Option<usize> {
    Some(first?.wrapping_add(second?))
}

// The first two packets of a stream: how many bytes they have.
fn received(alloc: Global, stream: &[u8]) -> Option<usize> {
    let mut reader = PacketReader::new(alloc, Again::new(stream)).ok()?;
    let mut codec = PacketCodec::default();
    let first = taken(&mut reader, &mut codec);
    let second = lent(&mut reader, &mut codec);
    both(first, second)
}

// The next packet, passed on: how many bytes are written.
fn relay(passed: &mut Passed<'_>) -> Option<usize> {
    if !passed.reader.can_copy(&passed.codec) {
        return None;
    }
    let is_relayed = passed
        .reader
        .relay_packet(
            &mut passed.codec,
            &mut passed.writer,
            &mut passed.writer_codec,
        )
        .is_ok();
    let pending = passed.writer.pending().len();
    (is_relayed && passed.writer.write_pending().is_ok()).then_some(pending)
}

// The same of a stream's first.
fn passed_on(alloc: Global, stream: &[u8]) -> Option<usize> {
    relay(&mut both_sides(alloc, stream, stream.len() as u64).ok()?)
}

// The first text of some bytes: how many bytes it has.
fn parsed_len<R: BytesRepr<Ctx = ()>>(alloc: Global, bytes: &[u8]) -> Option<usize> {
    match ParseBuf(bytes).parse::<RawBytes<R>>(alloc, ()) {
        Ok(text) => Some(text.as_bytes().len()),
        Err(_) => None,
    }
}

// The first text or number of some bytes, read in each way: how many bytes the texts have.
fn read(alloc: Global, bytes: &[u8]) -> Option<usize> {
    let counted = parsed_len::<LenEnc>(alloc, bytes)?;
    let ended = parsed_len::<NullBytes>(alloc, bytes)?;
    let texts = counted.wrapping_add(ended);
    let number = ParseBuf(bytes).checked_eat_lenenc_int()?;
    let text = ParseBuf(bytes).eat_null_str().len();
    Some(texts.wrapping_add(text).wrapping_add(number as usize))
}

// A text and its length, written to a `Vec`: how many bytes are written.
fn put(text: &[u8], out: &mut Vec<u8>) -> Option<usize> {
    out.put_lenenc_str(text).ok()?;
    out.put_lenenc_int(text.len() as u64).ok()?;
    Some(out.len())
}

// The same to a `BytesMut`.
fn put_shared(text: &[u8], out: &mut BytesMut) -> Option<usize> {
    out.put_lenenc_str(text).ok()?;
    out.put_lenenc_int(text.len() as u64).ok()?;
    Some(out.len())
}

// The first text of some bytes, written in each way: how many bytes are written.
fn written(alloc: Global, bytes: &[u8]) -> Option<usize> {
    let text = ParseBuf(bytes).checked_eat_lenenc_str()?;
    let written = put(text, &mut Vec::new(alloc));
    both(written, put_shared(text, &mut BytesMut::new(alloc)))
}

fn of_value(value: TextValue<'_>) -> usize {
    match value {
        TextValue::Null => 0,
        TextValue::Text(text) => text.len(),
    }
}

// The first value of a row of texts, read in each way: how many bytes it has.
fn row(alloc: Global, bytes: &[u8]) -> Option<usize> {
    let one = ParseBuf(bytes).parse::<TextValue<'_>>(alloc, ()).ok()?;
    let next = TextValues::new(bytes).next()?.ok()?;
    let row = read_whole::<TextRow<'_>>(alloc, 1, bytes).ok()?;
    let values = of_value(one).wrapping_add(of_value(next));
    Some(values.wrapping_add(row.values.len()))
}

// The rows of the first `OK_Packet`, where the bytes begin with one.
fn affected_rows(alloc: Global, bytes: &[u8]) -> Option<usize> {
    match ParseBuf(bytes).parse::<OkPacket<'_>>(alloc, InfoForm::LengthEncoded) {
        Ok(rows) => Some(rows.affected_rows as usize),
        Err(_) => None,
    }
}

// The first packets of these kinds, where the bytes are some.
fn packets(alloc: Global, bytes: &[u8]) -> Option<usize> {
    let rows = affected_rows(alloc, bytes)?;
    let definition = next_definition(alloc, &mut ParseBuf(bytes))?;
    Some(rows.wrapping_add(definition as usize))
}

/// Each of the calls that are timed, once: form 0 on a packet, form 1 on a stream, the others on
/// what a payload holds. The answer is how many bytes they gave.
#[unsafe(no_mangle)]
pub extern "C" fn mw_elsewhere(alloc: Global, bytes: &[u8], form: u64) -> u64 {
    let count = match form {
        0 => sent(alloc, bytes),
        1 => received(alloc, bytes),
        2 => passed_on(alloc, bytes),
        3 => read(alloc, bytes),
        4 => written(alloc, bytes),
        5 => row(alloc, bytes),
        _ => packets(alloc, bytes),
    };
    match count {
        Some(count) => count as u64,
        None => REFUSED,
    }
}
