//! Framing and decoding.

use crate::check::{REFUSED, ends, piece_len, summary};
use bytes::BytesMut;
use mysql_wire::io::WireError;
use mysql_wire::proto::codec::error::PacketCodecError;
use mysql_wire::proto::codec::{PacketCodec, packet_to_chunks};
use std::alloc::Global;

// The payload framed `count` times by `packet_to_chunks`, the ids going on.
fn frame(payload: &[u8], count: u64, dst: &mut BytesMut) -> Result<u64, WireError> {
    dst.clear();
    let mut id = 0;
    for _ in 0..count {
        let mut packet = payload;
        id = packet_to_chunks(id, &mut packet, dst)?;
    }
    Ok(summary(dst.as_slice()).wrapping_add(id as u64))
}

// The same by a codec.
fn encode(
    codec: &mut PacketCodec,
    payload: &[u8],
    count: u64,
    dst: &mut BytesMut,
) -> Result<u64, PacketCodecError> {
    dst.clear();
    codec.reset_seq_id();
    for _ in 0..count {
        let mut packet = payload;
        codec.encode(&mut packet, dst)?;
    }
    Ok(summary(dst.as_slice()))
}

// The same, and all of it copied once into a vector.
fn encode_and_copy(
    codec: &mut PacketCodec,
    payload: &[u8],
    count: u64,
    dst: &mut BytesMut,
    out: &mut Vec<u8>,
) -> Result<u64, PacketCodecError> {
    encode(codec, payload, count, dst)?;
    out.clear();
    out.extend_from_slice(dst.as_slice())?;
    Ok(summary(out.as_slice()))
}

/// `bytes` framed `count` times a repetition into one buffer: form 0 by `packet_to_chunks`, form 1
/// by `encode`, form 2 by `encode`, and all copied once into a vector.
#[unsafe(no_mangle)]
pub extern "C" fn mw_frame(alloc: Global, bytes: &[u8], count: u64, form: u64, reps: u64) -> u64 {
    let mut dst = BytesMut::new(alloc);
    let mut out = Vec::new(alloc);
    let mut codec = PacketCodec::default();
    codec.max_allowed_packet = bytes.len();
    let mut sum = 0u64;
    for _ in 0..reps {
        let framed = match form {
            0 => frame(bytes, count, &mut dst).ok(),
            1 => encode(&mut codec, bytes, count, &mut dst).ok(),
            _ => encode_and_copy(&mut codec, bytes, count, &mut dst, &mut out).ok(),
        };
        match framed {
            Some(value) => sum = sum.wrapping_add(value),
            None => return REFUSED,
        }
    }
    sum
}

/// `bytes` appended to a buffer in pieces of `piece` bytes, each advanced over: a decode loop
/// without the decode.
#[unsafe(no_mangle)]
pub extern "C" fn mw_append(alloc: Global, bytes: &[u8], piece: u64, reps: u64) -> u64 {
    let mut src = BytesMut::new(alloc);
    let step = piece_len(bytes, piece);
    let mut sum = 0u64;
    for _ in 0..reps {
        for part in bytes.chunks(step) {
            if src.extend_from_slice(part).is_err() {
                return REFUSED;
            }
            sum = sum.wrapping_add(ends(src.as_slice()));
            src.advance(src.len());
        }
    }
    sum
}

// Decodes what `src` holds, and clears or replaces `dst` after each packet.
fn drain(
    codec: &mut PacketCodec,
    src: &mut BytesMut,
    dst: &mut Vec<u8>,
    fresh: bool,
) -> Result<u64, PacketCodecError> {
    let mut sum = 0u64;
    'packets: loop {
        match codec.decode(src, dst) {
            Ok(true) => {
                sum = sum.wrapping_add(summary(dst.as_slice()));
                if fresh {
                    let alloc = *dst.allocator();
                    *dst = Vec::new(alloc);
                } else {
                    dst.clear();
                }
            }
            Ok(false) => return Ok(sum),
            Err(error) => return Err(error),
        }
    }
}

// The stream in pieces of `piece` bytes, each decoded as it comes.
fn decode(alloc: Global, bytes: &[u8], piece: u64, limit: u64, reps: u64, fresh: bool) -> u64 {
    let mut codec = PacketCodec::default();
    codec.max_allowed_packet = limit as usize;
    let mut src = BytesMut::new(alloc);
    let mut dst = Vec::new(alloc);
    let step = piece_len(bytes, piece);
    let mut sum = 0u64;
    for _ in 0..reps {
        codec.reset_seq_id();
        for part in bytes.chunks(step) {
            if src.extend_from_slice(part).is_err() {
                return REFUSED;
            }
            match drain(&mut codec, &mut src, &mut dst, fresh) {
                Ok(value) => sum = sum.wrapping_add(value),
                Err(_) => return REFUSED,
            }
        }
        if !src.is_empty() || !dst.is_empty() {
            return REFUSED;
        }
    }
    sum
}

/// A stream of whole packets, in pieces of `piece` bytes, decoded under `limit` into one buffer.
#[unsafe(no_mangle)]
pub extern "C" fn mw_decode(alloc: Global, bytes: &[u8], piece: u64, limit: u64, reps: u64) -> u64 {
    decode(alloc, bytes, piece, limit, reps, false)
}

/// The same, with a new buffer for each packet.
#[unsafe(no_mangle)]
pub extern "C" fn mw_decode_fresh(
    alloc: Global,
    bytes: &[u8],
    piece: u64,
    limit: u64,
    reps: u64,
) -> u64 {
    decode(alloc, bytes, piece, limit, reps, true)
}
