//! Packets where they lie.

use crate::check::{REFUSED, piece_len, summary};
use bytes::BytesMut;
use mysql_wire::io::ParseBuf;
use mysql_wire::proto::codec::PacketCodec;
use mysql_wire::proto::codec::error::PacketCodecError;
use std::alloc::Global;

// Takes what `src` holds, where it lies, or by `decode` where it isn't whole in one chunk.
fn take_all(
    codec: &mut PacketCodec,
    src: &mut BytesMut,
    dst: &mut Vec<u8>,
) -> Result<u64, PacketCodecError> {
    let mut sum = 0u64;
    'packets: for _ in 0..u64::MAX {
        if let Some(packet) = codec.front_packet(src, dst.as_slice()) {
            sum = sum.wrapping_add(summary(packet));
            codec.take_front(src);
        } else if codec.decode(src, dst)? {
            sum = sum.wrapping_add(summary(dst.as_slice()));
            dst.clear();
        } else {
            return Ok(sum);
        }
    }
    Ok(sum)
}

/// A stream of whole packets, in pieces of `piece` bytes, each taken where it lies.
#[unsafe(no_mangle)]
pub extern "C" fn mw_place(alloc: Global, bytes: &[u8], piece: u64, limit: u64, reps: u64) -> u64 {
    let mut codec = PacketCodec::default();
    codec.max_allowed_packet = limit as usize;
    let mut src = BytesMut::new(alloc);
    let mut dst = Vec::new(alloc);
    let step = piece_len(bytes, piece);
    let mut sum = 0u64;
    for _ in 0..reps {
        codec.reset_seq_id();
        for part in bytes.chunks(step) {
            if src.extend_from_slice(part).is_err() {
                return REFUSED;
            }
            match take_all(&mut codec, &mut src, &mut dst) {
                Ok(value) => sum = sum.wrapping_add(value),
                Err(_) => return REFUSED,
            }
        }
    }
    sum
}

// The texts of a row, one after another. It is a call, so that both ways to a row run the same code
// for its texts.
#[inline(never)]
fn columns(row: &[u8], cols: u64) -> u64 {
    let mut buf = ParseBuf(row);
    let mut sum = 0u64;
    for _ in 0..cols {
        match buf.checked_eat_lenenc_str() {
            Some(text) => sum = sum.wrapping_add(summary(text)),
            None => return REFUSED,
        }
    }
    sum
}

// The rows that `src` holds, each read where it lies.
fn rows(codec: &mut PacketCodec, src: &mut BytesMut, cols: u64) -> u64 {
    let mut sum = 0u64;
    'rows: for _ in 0..u64::MAX {
        let Some(row) = codec.front_packet(src, &[]) else {
            return sum;
        };
        sum = sum.wrapping_add(columns(row, cols));
        codec.take_front(src);
    }
    sum
}

/// A stream of rows of `cols` texts: form 0 read where they lie in the buffer that the stream is
/// appended to; form 1 appended alone; form 2 appended, and the texts read of payloads of `len`
/// bytes that follow headers, without a codec.
#[unsafe(no_mangle)]
pub extern "C" fn mw_place_row(
    alloc: Global,
    bytes: &[u8],
    cols: u64,
    len: u64,
    form: u64,
    reps: u64,
) -> u64 {
    let mut codec = PacketCodec::default();
    let mut src = BytesMut::new(alloc);
    let mut sum = 0u64;
    for _ in 0..reps {
        codec.reset_seq_id();
        if src.extend_from_slice(bytes).is_err() {
            return REFUSED;
        }
        if form == 0 {
            sum = sum.wrapping_add(rows(&mut codec, &mut src, cols));
        }
        if form == 2 {
            for chunk in src
                .as_slice()
                .chunks((len as usize).saturating_add(4).max(5))
            {
                if chunk.len() > 4 {
                    sum = sum.wrapping_add(columns(&chunk[4..], cols));
                }
            }
        }
        src.clear();
    }
    sum
}
