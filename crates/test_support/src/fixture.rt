//! A codec with its two buffers, over an allocator that may refuse what it is told to.

use crate::answers::Answer;
use crate::targets::Target;
use bytes::BytesMut;
use refusing_allocator::{NEVER, Refusing};
use std::alloc::{Allocator, Global};
use std::num::NonZeroUsize;
use wire_codec::codec::{ChunkDecoder, PacketCodec};

/// The allocator of a test that refuses a request.
pub type Heap = Refusing<Global>;

/// The byte that long payloads are made of.
pub const FILL: u8 = 0x42;

/// The header that a decoder remembers: its id, and the bytes that it needs. None is `Idle`.
pub type Remembered = Option<(u8, usize)>;

/// The decoder that remembers it.
pub fn decoder_of(remembered: Remembered) -> ChunkDecoder {
    let Some((seq_id, needed)) = remembered else {
        return ChunkDecoder::Idle;
    };
    match NonZeroUsize::new(needed) {
        Some(needed) => ChunkDecoder::Chunk { seq_id, needed },
        None => ChunkDecoder::Idle,
    }
}

/// Whether these are this many bytes `42`.
pub fn is_filled(bytes: &[u8], len: usize) -> bool {
    let mut all = bytes.len() == len;
    for byte in bytes {
        all &= *byte == FILL;
    }
    all
}

/// A codec and a decoder of single chunks, what they read, and what they put the payload into.
#[derive(Drop)]
pub struct Fixture<'h, A: Allocator, T> {
    pub codec: PacketCodec,
    pub decoder: ChunkDecoder,
    pub src: BytesMut<A>,
    pub dst: T,
    pub alloc: A,
    /// The allocator, where it is one that refuses.
    pub heap: Option<&'h Heap>,
}

impl<'h, A: Allocator + Copy, T: Target> Fixture<'h, A, T> {
    /// With nothing in its buffers.
    pub fn new(alloc: A, heap: Option<&'h Heap>, dst: T) -> Self {
        Fixture {
            codec: PacketCodec::default(),
            decoder: ChunkDecoder::default(),
            src: BytesMut::new(alloc),
            dst,
            alloc,
            heap,
        }
    }

    /// The request of this number is refused, where the allocator can.
    pub fn refuse(&self, nth: u64) {
        if let Some(heap) = self.heap {
            heap.refuse(nth);
        }
    }

    /// How many requests may come before the one that is refused, and whether one was.
    pub fn requests(&self) -> (u64, bool) {
        match self.heap {
            Some(heap) => (heap.left(), heap.has_refused()),
            None => (NEVER, false),
        }
    }

    pub fn decode(&mut self) -> Answer {
        Answer::of_decode(self.codec.decode(&mut self.src, &mut self.dst))
    }

    pub fn decode_chunk(&mut self, limit: usize) -> Answer {
        Answer::of_chunk(self.decoder.decode(&mut self.src, &mut self.dst, limit))
    }

    pub fn encode(&mut self, payload: &[u8]) -> Answer {
        let mut packet = payload;
        Answer::of_encode(self.codec.encode(&mut packet, &mut self.src))
    }

    /// Encodes this many bytes `42`.
    pub fn encode_many(&mut self, len: usize) -> Answer {
        match Vec::from_elem(self.alloc, FILL, len) {
            Ok(payload) => self.encode(payload.as_slice()),
            Err(_) => Answer::OutOfMemory,
        }
    }

    /// These bytes come in after `src`.
    pub fn comes(&mut self, bytes: &[u8]) -> bool {
        self.src.extend_from_slice(bytes).is_ok()
    }

    /// `src` becomes these bytes.
    pub fn replace_src(&mut self, bytes: &[u8]) -> bool {
        self.src.clear();
        self.comes(bytes)
    }

    /// This many bytes `42` come in after `src`.
    pub fn comes_many(&mut self, len: usize) -> bool {
        let len = self.src.len().saturating_add(len);
        self.src.resize(len, FILL).is_ok()
    }

    pub fn replace_dst(&mut self, bytes: &[u8]) -> bool {
        self.dst.clear();
        self.dst.put_slice(bytes).is_ok()
    }

    /// `dst` becomes this many bytes `42`.
    pub fn replace_dst_many(&mut self, len: usize) -> bool {
        match Vec::from_elem(self.alloc, FILL, len) {
            Ok(bytes) => self.replace_dst(bytes.as_slice()),
            Err(_) => false,
        }
    }

    pub fn stands(&self) -> bool {
        self.codec.stands_at(&self.src, self.dst.as_ref())
    }

    pub fn is_aligned(&self) -> bool {
        self.codec.aligned_at(&self.src, self.dst.as_ref())
    }

    /// Whether the codec stands at another `src` and `dst`.
    pub fn stands_at(&self, src: &[u8], dst: &[u8]) -> bool {
        let mut other = BytesMut::new(self.alloc);
        let _ = other.extend_from_slice(src);
        self.codec.stands_at(&other, dst)
    }

    /// Whether `dst` was asked for room so often, and for so much at last. Targets that don't
    /// count agree to all.
    pub fn grew(&mut self, growths: u64, room: usize) -> bool {
        match self.dst.growth(None) {
            Some((asked, last)) => (asked == growths) & (last == room),
            None => true,
        }
    }
}
