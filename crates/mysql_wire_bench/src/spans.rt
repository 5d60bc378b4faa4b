//! Packets in spans, other ids in place, and both between the two ends of a connection.

ghost use Rattle.std.specs.Prelude.{◌<◌};

use crate::check::{REFUSED, last, piece_len};
use bytes::BytesMut;
use mysql_wire::proto::codec::error::PacketCodecError;
use mysql_wire::proto::codec::{PacketCodec, Renumber, SpanDecoder, SpanError};
use std::alloc::Global;

fn decoder_of(limit: u64) -> SpanDecoder {
    let mut decoder = SpanDecoder::default();
    decoder.max_allowed_packet = limit as usize;
    decoder
}

fn codec_of(limit: u64) -> PacketCodec {
    let mut codec = PacketCodec::default();
    codec.max_allowed_packet = limit as usize;
    codec
}

// How many payload bytes a piece brought, and the last byte of each packet that it ends.
fn spans(decoder: &mut SpanDecoder, piece: &[u8]) -> Result<u64, SpanError> {
    let mut rest = piece;
    let mut sum = 0u64;
    'spans: loop {
        match decoder.next_span(&mut rest) {
            Ok(Some(span)) => {
                sum = sum.wrapping_add(span.bytes.len() as u64);
                if span.ends_packet {
                    sum = sum.wrapping_add(last(span.bytes));
                }
            }
            Ok(None) => return Ok(sum),
            Err(error) => return Err(error),
        }
    }
}

/// A stream of whole packets, in pieces of `piece` bytes, in spans under `limit`.
#[unsafe(no_mangle)]
pub extern "C" fn mw_spans(alloc: Global, bytes: &[u8], piece: u64, limit: u64, reps: u64) -> u64 {
    let _ = alloc;
    let mut decoder = decoder_of(limit);
    let step = piece_len(bytes, piece);
    let mut sum = 0u64;
    for _ in 0..reps {
        decoder.reset_seq_id();
        for part in bytes.chunks(step) {
            match spans(&mut decoder, part) {
                Ok(value) => sum = sum.wrapping_add(value),
                Err(_) => return REFUSED,
            }
        }
    }
    sum
}

/// A copy of such a stream, whose ids are written in place: those from 0 on become those from 128
/// on, and the other way round the next time.
#[unsafe(no_mangle)]
pub extern "C" fn mw_renumber(
    alloc: Global,
    bytes: &[u8],
    piece: u64,
    limit: u64,
    reps: u64,
) -> u64 {
    let Ok(mut stream) = Vec::from_slice(alloc, bytes) else {
        return REFUSED;
    };
    let mut renumber = Renumber {
        decoder: decoder_of(limit),
        next_id: 0,
    };
    let step = piece_len(bytes, piece);
    let mut sum = 0u64;
    for rep in 0..reps {
        let first_id = if rep % 2 == 0 { 0 } else { 128 };
        renumber.decoder.set_sequence_id(first_id);
        renumber.next_id = 128 - first_id;
        for part in stream.as_mut_slice().chunks_mut(step) {
            if renumber.renumber(part).is_err() {
                return REFUSED;
            }
            sum = sum.wrapping_add(part.len() as u64);
        }
        sum = sum.wrapping_add((renumber.next_id % 128) as u64);
    }
    sum
}

// One direction of a connection that is passed on: what is looked at, and what goes out.
#[derive(Drop)]
struct Passed {
    seen: SpanDecoder,
    renumber: Renumber,
    out: Vec<u8>,
}

impl Passed {
    fn new(alloc: Global, limit: u64) -> Self {
        Passed {
            seen: decoder_of(limit),
            renumber: Renumber {
                decoder: decoder_of(limit),
                next_id: 1,
            },
            out: Vec::new(alloc),
        }
    }

    fn begin(&mut self) {
        self.seen.reset_seq_id();
        self.renumber.decoder.reset_seq_id();
        self.renumber.next_id = 1;
    }

    // The piece is read into the buffer that is sent from.
    fn pass(&mut self, piece: &[u8]) -> Option<u64> {
        self.out.clear();
        self.out.extend_from_slice(piece).ok()?;
        let sum = spans(&mut self.seen, self.out.as_slice()).ok()?;
        self.renumber.renumber(self.out.as_mut_slice()).ok()?;
        Some(sum.wrapping_add(self.out.len() as u64))
    }
}

// The same by a codec at each end.
#[derive(Drop)]
struct Decoded {
    from: PacketCodec,
    to: PacketCodec,
    src: BytesMut,
    dst: Vec<u8>,
    out: BytesMut,
}

impl Decoded {
    fn new(alloc: Global, limit: u64) -> Self {
        Decoded {
            from: codec_of(limit),
            to: codec_of(limit),
            src: BytesMut::new(alloc),
            dst: Vec::new(alloc),
            out: BytesMut::new(alloc),
        }
    }

    fn begin(&mut self) {
        self.from.reset_seq_id();
        self.to.reset_seq_id();
    }

    // Takes the packet in front, and encodes it for the other side: what is counted of it.
    fn pass_packet(&mut self) -> Result<Option<u64>, PacketCodecError> {
        if !self.from.decode(&mut self.src, &mut self.dst)? {
            return Ok(None);
        }
        let sum = (self.dst.len() as u64).wrapping_add(last(self.dst.as_slice()));
        let mut payload = self.dst.as_slice();
        self.to.encode(&mut payload, &mut self.out)?;
        self.dst.clear();
        Ok(Some(sum))
    }

    fn pass(&mut self, piece: &[u8]) -> Option<u64> {
        self.out.clear();
        self.src.extend_from_slice(piece).ok()?;
        let mut sum = 0u64;
        'packets: for _ in 0..u64::MAX {
            match self.pass_packet().ok()? {
                Some(value) => sum = sum.wrapping_add(value),
                None => break 'packets,
            }
        }
        Some(sum.wrapping_add(self.out.len() as u64))
    }
}

// A stream of whole packets in both directions, piece by piece.
fn relay_in_spans(alloc: Global, bytes: &[u8], step: usize, limit: u64, reps: u64) -> Option<u64>
    requires { 0 < step }
{
    let mut there = Passed::new(alloc, limit);
    let mut back = Passed::new(alloc, limit);
    let mut sum = 0u64;
    for _ in 0..reps {
        there.begin();
        back.begin();
        for part in bytes.chunks(step) {
            sum = sum.wrapping_add(there.pass(part)?);
            sum = sum.wrapping_add(back.pass(part)?);
        }
    }
    Some(sum)
}

// The same by codecs.
fn relay_decoded(alloc: Global, bytes: &[u8], step: usize, limit: u64, reps: u64) -> Option<u64>
    requires { 0 < step }
{
    let mut there = Decoded::new(alloc, limit);
    let mut back = Decoded::new(alloc, limit);
    let mut sum = 0u64;
    for _ in 0..reps {
        there.begin();
        back.begin();
        for part in bytes.chunks(step) {
            sum = sum.wrapping_add(there.pass(part)?);
            sum = sum.wrapping_add(back.pass(part)?);
        }
    }
    Some(sum)
}

/// A stream of whole packets passed on in both directions, in pieces of `piece` bytes, each packet
/// looked at: form 0 in spans, with other ids in place; form 1 decoded and encoded.
#[unsafe(no_mangle)]
pub extern "C" fn mw_relay(
    alloc: Global,
    bytes: &[u8],
    piece: u64,
    limit: u64,
    form: u64,
    reps: u64,
) -> u64 {
    let step = piece_len(bytes, piece);
    let sum = if form == 0 {
        relay_in_spans(alloc, bytes, step, limit, reps)
    } else {
        relay_decoded(alloc, bytes, step, limit, reps)
    };
    sum.unwrap_or(REFUSED)
}
