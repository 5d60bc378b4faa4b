//! A proxy passes sessions on.

use crate::answers::LIMIT;
use crate::digest::{Digest, Sink};
use crate::draws::{Draws, Letters};
use crate::reading::{Pieces, codec_under, step_of};
use crate::streams::{Stream, make_stream, two_chunks};
use mysql_wire::proto::codec::{Renumber, SpanDecoder};
use mysql_wire::proto::packet_io::{PacketReader, PacketWriter};
use std::alloc::Global;

fn decoder() -> SpanDecoder {
    let mut decoder = SpanDecoder::default();
    decoder.max_allowed_packet = LIMIT;
    decoder
}

// What is seen of a piece that is passed on.
fn look(decoder: &mut SpanDecoder, piece: &[u8], digest: &mut Digest) -> Option<()> {
    let mut rest = piece;
    'spans: for _ in 0..u64::MAX {
        let Some(span) = decoder.next_span(&mut rest).ok()? else {
            return Some(());
        };
        digest.add(span.bytes.len() as u64);
        if span.ends_packet {
            digest.add(decoder.sequence_id() as u64);
        }
    }
    None
}

// Looked at in pieces, and sent on with other ids.
fn renumbered(alloc: Global, bytes: &[u8], step: usize) -> Option<u64> {
    let mut seen = decoder();
    let mut renumber = Renumber {
        decoder: decoder(),
        next_id: 7,
    };
    let mut digest = Digest::new();
    let mut piece = Vec::new(alloc);
    for part in bytes.chunks(step.max(1)) {
        piece.clear();
        piece.extend_from_slice(part).ok()?;
        look(&mut seen, piece.as_slice(), &mut digest)?;
        renumber.renumber(piece.as_mut_slice()).ok()?;
        digest.add_bytes(piece.as_slice());
    }
    Some(digest.value())
}

// Passed on by a reader and a writer, which writes once for some packets.
fn relayed(alloc: Global, bytes: &[u8], step: usize) -> Option<u64> {
    let mut reader = PacketReader::new(alloc, Pieces::new(bytes, step)).ok()?;
    let mut writer = PacketWriter::new(alloc, Sink::new(Vec::new(alloc))).ok()?;
    let mut codec = codec_under(LIMIT);
    let mut writer_codec = codec_under(LIMIT);
    writer_codec.set_sequence_id(9);
    'packets: for count in 0..u64::MAX {
        if !reader.can_copy(&codec) {
            return None;
        }
        let went = reader
            .relay_packet(&mut codec, &mut writer, &mut writer_codec)
            .ok()?;
        if !went || count % 16 == 15 {
            writer.write_pending().ok()?;
        }
        if !went {
            return Some(writer.into_inner().value());
        }
    }
    None
}

// The payloads alone.
fn copied(alloc: Global, bytes: &[u8], step: usize) -> Option<u64> {
    let mut reader = PacketReader::new(alloc, Pieces::new(bytes, step)).ok()?;
    let mut codec = codec_under(LIMIT);
    let mut sink = Sink::new(Vec::new(alloc));
    'packets: for _ in 0..u64::MAX {
        if !reader.can_copy(&codec) {
            return None;
        }
        if !reader.copy_packet(&mut codec, &mut sink).ok()? {
            return Some(sink.value());
        }
    }
    None
}

fn passed(alloc: Global, bytes: &[u8], turn: usize) -> Option<u64> {
    let mut digest = Digest::new();
    digest.add(renumbered(alloc, bytes, step_of(turn))?);
    digest.add(relayed(alloc, bytes, step_of(turn.wrapping_add(1)))?);
    digest.add(copied(alloc, bytes, step_of(turn.wrapping_add(2)))?);
    Some(digest.value())
}

// Passes a stream on, if there is one.
fn pass(alloc: Global, made: Option<Stream>, turn: usize, digest: &mut Digest) -> Option<()> {
    let stream = made?;
    digest.add(passed(alloc, stream.as_slice(), turn)?);
    Some(())
}

/// Questions, answers and rows of 8 to 450 bytes, in one round of four a value of some MB, and once
/// a packet of two chunks.
pub fn pass_on(alloc: Global, draws: &mut Draws, letters: &Letters, rounds: usize) -> Option<u64> {
    let mut digest = Digest::new();
    for round in 0..rounds {
        for len in [16, 150, 300] {
            let small = make_stream(alloc, draws, letters, len, 6000 * len);
            pass(alloc, small, round, &mut digest)?;
        }
        if round % 4 == 0 {
            let large = make_stream(alloc, draws, letters, 3000000, 3000000);
            pass(alloc, large, round, &mut digest)?;
        }
        if round == 0 {
            pass(alloc, two_chunks(alloc, draws, letters), round, &mut digest)?;
        }
    }
    Some(digest.value())
}
