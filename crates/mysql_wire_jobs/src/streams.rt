//! Streams of packets.

use crate::answers::LIMIT;
use crate::draws::{Draws, Letters, Script};
use crate::reading::codec_under;
use bytes::BytesMut;
use mysql_wire::constants::MAX_PAYLOAD_LEN;
use mysql_wire::proto::codec::PacketCodec;
use std::alloc::Global;

/// Chunks, one after another.
#[derive(Drop)]
pub struct Stream {
    bytes: BytesMut,
}

impl Stream {
    /// Their bytes.
    pub fn as_slice(&self) -> &[u8] {
        self.bytes.as_slice()
    }
}

// Puts a packet of this many bytes, or up to two fewer.
fn put(
    codec: &mut PacketCodec,
    draws: &mut Draws,
    letters: &Letters,
    len: usize,
    payload: &mut Vec<u8>,
    stream: &mut BytesMut,
) -> Option<()> {
    payload.clear();
    for _ in 0..len / 4096 {
        let part = letters.text(draws, Script::Plain, 4096);
        payload.extend_from_slice(part).ok()?;
    }
    let part = letters.text(draws, Script::Wide, len % 4096);
    payload.extend_from_slice(part).ok()?;
    let mut packet = payload.as_slice();
    codec.encode(&mut packet, stream).ok()
}

/// Packets of about `len` bytes, from half of it to one and a half; about `total` bytes of them.
pub fn make_stream(
    alloc: Global,
    draws: &mut Draws,
    letters: &Letters,
    len: usize,
    total: usize,
) -> Option<Stream> {
    let mut codec = codec_under(LIMIT);
    let mut stream = BytesMut::new(alloc);
    let mut payload = Vec::new(alloc);
    for _ in 0..total / len.max(1) {
        let wanted = (len / 2).saturating_add(draws.below(len));
        put(
            &mut codec,
            draws,
            letters,
            wanted,
            &mut payload,
            &mut stream,
        )?;
    }
    Some(Stream { bytes: stream })
}

// A packet of a full chunk, and one that lacks two bytes.
pub(crate) fn two_chunks(alloc: Global, draws: &mut Draws, letters: &Letters) -> Option<Stream> {
    let mut codec = codec_under(LIMIT);
    let mut stream = BytesMut::new(alloc);
    let mut payload = Vec::new(alloc);
    let len = 2 * MAX_PAYLOAD_LEN;
    put(&mut codec, draws, letters, len, &mut payload, &mut stream)?;
    Some(Stream { bytes: stream })
}
