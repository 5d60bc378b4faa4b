//! Packets framed as their bytes come: each cutting of a short packet, ids over 255, and a packet
//! begun inside another.

use std::alloc::Global;
use std::test::Fail;
use test_support::facts::{all_hold, same};
use test_support::reference::{between, low_byte};
use wire_span::{FrameWriter, UnfinishedPacket};

fn writer_from(seq_id: u8) -> FrameWriter {
    let mut writer = FrameWriter::default();
    writer.set_sequence_id(seq_id);
    writer
}

// Sends what can go of the piece; whether a part ended the packet.
fn send(writer: &mut FrameWriter, piece: &mut &[u8], out: &mut Vec<u8>) -> bool {
    for _ in 0..u64::MAX {
        let Some(part) = writer.next_part(piece) else {
            return false;
        };
        if let Some(header) = part.header {
            let _ = out.extend_from_slice(&header);
        }
        let _ = out.extend_from_slice(part.bytes);
        if part.ends_packet {
            return true;
        }
    }
    false
}

// Sends a packet in these pieces, after what was sent. Whether each went whole, and the last byte
// ended the packet.
fn goes_in(writer: &mut FrameWriter, pieces: &[&[u8]], out: &mut Vec<u8>) -> bool {
    let mut all = true;
    for piece in pieces {
        let mut rest = *piece;
        let left = writer.payload_left().saturating_sub(rest.len());
        let is_ended = writer.is_between_packets() || send(writer, &mut rest, out);
        all &= (is_ended == (left == 0)) & (writer.payload_left() == left) & rest.is_empty();
    }
    all & writer.is_between_packets()
}

// Whether a short packet goes in these pieces.
fn is_cut(alloc: Global, pieces: &[&[u8]]) -> bool {
    let mut writer = writer_from(255);
    let mut out = Vec::new(alloc);
    let mut all = writer.begin(6) == Ok(());
    all &= (writer.payload_left() == 6) & goes_in(&mut writer, pieces, &mut out);
    all & same(out.as_slice(), b"\x06\0\0\xffselect") & (writer.sequence_id() == 0)
}

// Whether it goes in all cuttings into three pieces.
fn each_cut_goes(alloc: Global) -> bool {
    let packet = b"select".as_slice();
    let mut all = true;
    for first in 0..7 {
        for second in first..7 {
            let front = between(packet, 0, first);
            let middle = between(packet, first, second);
            all &= is_cut(alloc, &[front, middle, between(packet, second, 6)]);
        }
    }
    all
}

// Payloads of one stream, from the id 254 on.
const PAYLOADS: &[&[u8]] = &[b"abc", b"", b"z", b"hello"];

const STREAM: &[u8] = b"\x03\0\0\xfeabc\0\0\0\xff\x01\0\0\0z\x05\0\0\x01hello";

// Whether packets go in one piece, and the bytes after them stay.
fn they_go(writer: &mut FrameWriter, out: &mut Vec<u8>) -> bool {
    let mut piece = b"abczhello, and more".as_slice();
    let mut all = true;
    for payload in PAYLOADS {
        all &= writer.begin(payload.len()).is_ok();
        all &= send(writer, &mut piece, out);
    }
    all & writer.next_part(&mut piece).is_none() & same(piece, b", and more")
}

fn they_go_in_one_piece(alloc: Global) -> bool {
    let mut writer = writer_from(254);
    let mut out = Vec::new(alloc);
    let all = they_go(&mut writer, &mut out);
    all & same(out.as_slice(), STREAM) & (writer.sequence_id() == 2)
}

// Whether 300 empty packets go with no byte of a piece, and ids begin again after 255.
fn empty_ones_go() -> bool {
    let mut writer = FrameWriter::default();
    let mut all = true;
    for i in 0..300usize {
        all &= writer.begin(0).is_ok();
        all &= match writer.next_part(&mut b"more".as_slice()) {
            Some(part) => {
                let is_header = part.header == Some([0, 0, 0, low_byte(i)]);
                is_header & part.bytes.is_empty() & part.ends_packet
            }
            None => false,
        };
    }
    all & (writer.sequence_id() == 44)
}

// Whether no packet is begun here, and nothing changes.
fn is_inside(writer: &mut FrameWriter) -> bool {
    let before = *writer;
    (writer.begin(1) == Err(UnfinishedPacket)) & (*writer == before)
}

// Whether none is begun in front of a header and inside a chunk, and one is after it.
fn none_is_begun_inside(alloc: Global) -> bool {
    let mut writer = writer_from(7);
    let mut out = Vec::new(alloc);
    let mut all = (writer.begin(2) == Ok(())) & is_inside(&mut writer);
    let mut piece = b"a".as_slice();
    all &= !send(&mut writer, &mut piece, &mut out) & same(out.as_slice(), b"\x02\0\0\x07a");
    all &= is_inside(&mut writer);
    all &= goes_in(&mut writer, &[b"b"], &mut out);
    all & (writer.begin(0) == Ok(()))
}

#[test]
fn packets_are_framed_as_they_come(rt: HostRuntime) -> Result<(), Fail> {
    let alloc = rt.alloc();
    all_hold(&[
        each_cut_goes(alloc),
        is_cut(alloc, &[b"s", b"e", b"l", b"e", b"c", b"t"]),
        they_go_in_one_piece(alloc),
        empty_ones_go(),
        none_is_begun_inside(alloc),
    ])
}

/// Whether a payload goes in pieces of this many bytes, from the id 254 on, as it is framed.
pub fn goes_as(alloc: Global, payload: &[u8], at_once: usize, framed: &[u8], next_id: u8) -> bool {
    let mut writer = writer_from(254);
    let mut out = Vec::new(alloc);
    let mut all = writer.begin(payload.len()).is_ok();
    let mut ended = 0usize;
    for i in 0..34usize {
        let start = i.saturating_mul(at_once);
        let mut piece = between(payload, start, start.saturating_add(at_once));
        let is_ended = send(&mut writer, &mut piece, &mut out);
        ended = ended.wrapping_add(usize::from(is_ended));
    }
    all &= (ended == 1) & same(out.as_slice(), framed);
    all & (writer.sequence_id() == next_id)
}
