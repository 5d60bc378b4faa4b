//! A packet whose bytes are dropped as they come.

ghost use Rattle.std.specs.Prelude.{◌≡◌, ◌+◌, ◌%◌, ◌<◌, ◌≤◌, ◌⊎◌, ◌↔◌, length, slice_index, None, Ok, Err, IfOk, IfErr, IfSome, IsSome, IsTrue, OnOk, OnErr};
ghost use Rattle.wire_codec.specs.Codec.{CodecState, expected_id, header_of};
ghost use Rattle.wire_codec.specs.Delivery.{chunk_len, IsSpelled};
ghost use Rattle.wire_codec.specs.Refusals.{answer_of};
ghost use Rattle.wire_codec.specs.Skipping.{AtChunk, DropsChunk, IsPast, MaySkip, SkipsPacket, WouldStand};
ghost use Rattle.wire_codec.specs.Framing.{max_payload};
ghost use Rattle.std.specs.Int.NonZero.{non_zero_usize_get};

use crate::codec::chunk::ChunkDecoder;
use crate::codec::error::{PacketCodecError, Refusal};
use crate::codec::header::{HEADER_LEN, Header};
use crate::codec::packet::{PacketCodec, Progress};
use crate::codec::room::{fits, is_full_chunks};
use bytes::BytesMut;
use std::alloc::Allocator;
use std::num::NonZeroUsize;
use wire_buf::lengths::MAX_PAYLOAD_LEN;

// A chunk whose header was dropped, and not all of its bytes.
#[derive(Debug, Clone, Copy, PartialEq, Eq)]
struct OpenChunk {
    header: Header,
    // How many of its bytes are still to come.
    left: NonZeroUsize,
}

/// How much of a packet was dropped, between two calls of `skip`.
#[derive(Debug, Clone, Copy, PartialEq, Eq)]
pub struct Skipped {
    // How many payload bytes its full chunks had.
    held: usize,
    begun: Option<OpenChunk>,
}

impl Skipped {
    /// Full chunks with this many payload bytes; 0 before a packet.
    pub fn behind(held: usize) -> Self
        ensures { result ≡ record { held = held; begun = None } }
    {
        Skipped { held, begun: None }
    }

    /// Whether a part of a packet was dropped, and the rest is still to come.
    pub fn is_under_way(&self) -> bool
        ensures { IsTrue result ↔ ((0 < self.now.held) ⊎ IsSome self.now.begun) }
    {
        self.held > 0 || self.begun.is_some()
    }
}

impl PacketCodec {
    // The header in front, where it has come whole. A remembered one isn't judged again.
    fn judge(&self, front: &[u8], held: usize) -> Result<Option<Header>, Refusal>
        ensures none { result ≡ Ok None → length front.now < 4 }
        ensures there { IfOk result (λ found. IfSome found (λ read. 4 ≤ length front.now)) }
        ensures len { IfOk result (λ found. IfSome found (λ read.
            read.len ≡ chunk_len front.now)) }
        ensures id { IfOk result (λ found. IfSome found (λ read.
            read.seq_id ≡ slice_index front.now 3)) }
        ensures fits { IfOk result (λ found. IfSome found (λ read. IsSome (header_of self.now)
            ⊎ ((read.len ≡ 0) ⊎ (held + read.len ≤ self.now.max_allowed_packet)))) }
        ensures spelled { IsSpelled front.now }
        ensures err { IfErr result (λ refusal. (refusal ≡ Refusal.PacketTooLarge)
            × (header_of self.now ≡ None)
            × IsPast self.now.max_allowed_packet held front.now) }
    {
        let Some(header) = Header::read(front) else {
            return Ok(None);
        };
        let is_judged = match self.decoder {
            ChunkDecoder::Idle => false,
            ChunkDecoder::Chunk { .. } => true,
        };
        if is_judged || header.len == 0 || fits(held, header.len, self.max_allowed_packet) {
            Ok(Some(header))
        } else {
            Err(Refusal::PacketTooLarge)
        }
    }

    // Drops what came of a chunk with this header, of which this many bytes, with those of the
    // header, are to come.
    fn drop_chunk(
        &mut self,
        expected: u8,
        header: Header,
        left: usize,
        src: &mut BytesMut<impl Allocator + Copy>,
        skipped: &mut Skipped,
    ) -> Result<Progress, Refusal>
        requires { expected ≡ expected_id self.old }
        ensures drops { (full : CodecState)
            → AtChunk header left skipped.old.held self.old src.old.items full
            → DropsChunk (answer_of result) full skipped.new self.new src.new.items }
        ensures more { result ≡ Ok Progress.More → length src.new.items + left ≡ length src.old.items }
        ensures limit { self.new.max_allowed_packet ≡ self.old.max_allowed_packet }
    {
        let count = left.min(src.len());
        src.advance(count);
        self.decoder = ChunkDecoder::Idle;
        if let Some(left) = NonZeroUsize::new(left - count) {
            skipped.begun = Some(OpenChunk { header, left });
            return Ok(Progress::Starved);
        }
        if header.seq_id != expected {
            *skipped = Skipped {
                held: 0,
                begun: None,
            };
            return Err(Refusal::PacketsOutOfSync);
        }
        self.seq_id = expected.wrapping_add(1); // after 255 comes 0
        if header.len < MAX_PAYLOAD_LEN {
            *skipped = Skipped {
                held: 0,
                begun: None,
            };
            return Ok(Progress::Whole);
        }
        // Its header was within the limit.
        let held = skipped.held.saturating_add(header.len);
        *skipped = Skipped {
            held: held.min(self.max_allowed_packet),
            begun: None,
        };
        if src.is_empty() {
            Ok(Progress::Starved)
        } else {
            Ok(Progress::More)
        }
    }

    // Drops one chunk, or what came of it.
    fn skip_chunk(
        &mut self,
        src: &mut BytesMut<impl Allocator + Copy>,
        skipped: &mut Skipped,
    ) -> Result<Progress, Refusal>
        ensures drops { (full : CodecState)
            → WouldStand skipped.old self.old src.old.items full
            → DropsChunk (answer_of result) full skipped.new self.new src.new.items }
        ensures more { result ≡ Ok Progress.More → length src.new.items < length src.old.items }
        ensures limit { self.new.max_allowed_packet ≡ self.old.max_allowed_packet }
    {
        let expected = self.seq_id;
        if let Some(begun) = skipped.begun {
            return self.drop_chunk(expected, begun.header, begun.left.get(), src, skipped);
        }
        match self.judge(src.as_slice(), skipped.held) {
            Err(refusal) => Err(refusal),
            Ok(None) => Ok(Progress::Starved),
            Ok(Some(header)) => {
                self.drop_chunk(expected, header, HEADER_LEN + header.len, src, skipped)
            }
        }
    }
}

impl OpenChunk {
    // Whether such a chunk may be open after full chunks with this many bytes.
    #[tactic(auto, using(crate::specs::Framing::max_payload_is))]
    fn is_behind(self, held: usize, limit: usize) -> bool
        ensures id { self.header.seq_id < 256 }
        ensures behind { IsTrue result ↔ ((held % max_payload ≡ 0)
            × (non_zero_usize_get self.left ≤ self.header.len) × (self.header.len ≤ max_payload)
            × (held + self.header.len ≤ limit)) }
    {
        is_full_chunks(held)
            && self.left.get() <= self.header.len
            && self.header.len <= MAX_PAYLOAD_LEN
            && fits(held, self.header.len, limit)
    }
}

impl PacketCodec {
    /// Whether `skip` goes on here with the packet of which so much was dropped: full chunks, and
    /// of the open one its header and a part of its bytes, or none. The open chunk is within the
    /// limit still. Where none is open, a header that the codec remembers is the one at the front
    /// of `unread`, and within the limit still.
    pub fn may_skip(&self, unread: &[u8], skipped: &Skipped) -> bool
        ensures { IsTrue result ↔ MaySkip skipped.now self.now unread.now }
    {
        match skipped.begun {
            Some(begun) => begun.is_behind(skipped.held, self.max_allowed_packet),
            None => self.stands_behind(unread, skipped.held),
        }
    }

    /// As `decode` into nothing: takes the bytes of a packet from the front of `src` and drops
    /// them, each as it comes, until the packet has ended. The answer is whether it has. After
    /// false the call is made again with more bytes in `src`; after true `skipped` is as before a
    /// packet.
    ///
    /// `skipped` says how much of the packet was dropped: `Skipped::behind(0)` before a packet, or
    /// with this many payload bytes of full chunks that `decode` has put. It answers and refuses as
    /// `decode` would, had the bytes been kept, but asks for no memory. `PacketTooLarge` leaves the
    /// header in `src`, and a larger limit goes on. `PacketsOutOfSync` comes as soon as the chunk of
    /// another id has come whole.
    ///
    /// <https://dev.mysql.com/doc/dev/mysql-server/latest/page_protocol_basic_packets.html>
    pub fn skip(
        &mut self,
        src: &mut BytesMut<impl Allocator + Copy>,
        skipped: &mut Skipped,
    ) -> Result<bool, PacketCodecError>
        ensures skips { (full : CodecState)
            → WouldStand skipped.old self.old src.old.items full
            → SkipsPacket full result skipped.new self.new src.new.items }
        ensures limit { self.new.max_allowed_packet ≡ self.old.max_allowed_packet }
    {
        'chunks: loop {
            match self.skip_chunk(src, skipped) {
                Ok(Progress::Whole) => return Ok(true),
                Ok(Progress::Starved) => return Ok(false),
                Ok(Progress::More) => {}
                Err(refusal) => return Err(PacketCodecError::from(refusal)),
            }
        }
    }
}
