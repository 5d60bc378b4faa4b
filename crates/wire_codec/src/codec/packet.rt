//! Whole packets.

ghost use Rattle.std.specs.Prelude.{◌≡◌, ◌≢◌, ℕ, ◌+◌, ◌%◌, ◌<◌, ◌≤◌, ◌↔◌, ◌⊎◌, OnOk, OnErr, IfErr, Ok, Err, List, [], length, None, true, false, IsTrue, IsFalse, IfSome, IsSome, MatchOption, slice_index, ◌++◌};
ghost use Rattle.wire_codec.specs.Delivery.{chunk_len, IsBounded, IsSpelled};
ghost use Rattle.wire_codec.specs.Refusals.{answer_of, error_of, told};

mod front;
mod skip;

use crate::codec::chunk::{ChunkDecoder, ChunkInfo, PacketDst, make_place};
use crate::codec::error::{PacketCodecError, Refusal};
use crate::codec::framing::put_packet;
use crate::codec::header::{HEADER_LEN, Header};
use crate::codec::room::{bytes_to_take, fits, is_full_chunks, whole_chunk};
use bytes::{Buf, BytesMut};
pub use skip::Skipped;
use std::alloc::{AllocError, Allocator};
use std::num::NonZeroUsize;
use wire_buf::lengths::DEFAULT_MAX_ALLOWED_PACKET;

/// Packets from chunks, and chunks from packets, under one sequence id, as a connection has it.
///
/// A command and its answers share the id: it is reset to 0 at the start of each command, and rises
/// by one with each chunk that is encoded or decoded. `decode` goes on where the last call stopped,
/// so the bytes may come in any pieces.
///
/// <https://dev.mysql.com/doc/dev/mysql-server/latest/page_protocol_basic_packets.html>
#[derive(Debug, Drop)]
pub struct PacketCodec {
    /// The most payload bytes of a packet. Any number may be set at any time; at 0 empty packets
    /// still pass.
    pub max_allowed_packet: usize,
    seq_id: u8,
    decoder: ChunkDecoder,
}

impl Default for PacketCodec {
    ghost use Rattle.wire_codec.specs.Codec.{expected_id, header_of};

    ghost is_default = { λ codec. (expected_id codec ≡ 0) × (header_of codec ≡ None)
        × (codec.max_allowed_packet ≡ 4194304) };

    /// A codec at the start of a command, with the limit of 4 MiB.
    fn default() -> Self {
        PacketCodec {
            max_allowed_packet: DEFAULT_MAX_ALLOWED_PACKET,
            seq_id: 0,
            decoder: ChunkDecoder::Idle,
        }
    }
}

impl PacketCodec {
    ghost use Rattle.wire_codec.specs.Codec.{expected_id, header_of, codec_state, first_id, Stands, StandsAgain, ChunkChain, DecodesStanding, IsChain, HasChunk, WaitsBounded};
    ghost use Rattle.wire_codec.specs.GoingOn.{Decodes};
    ghost use Rattle.wire_codec.specs.LimitedRuns.{Aligned, DecodesWhereAligned};
    ghost use Rattle.wire_codec.specs.Framing.{framing, next_id};

    /// Whether `decode` goes on here with the packet that it was at: `dst` holds full chunks alone,
    /// and a remembered header is the one at the front of `src`, and still within the limit. A new
    /// codec stands at every `src` and an empty `dst`.
    pub fn stands_at(&self, src: &BytesMut<impl Allocator + Copy>, dst: &[u8]) -> bool
        ensures { IsTrue result ↔ Stands (codec_state self.now src.now.items dst.now) }
    {
        self.stands_before(src.as_slice(), dst)
    }

    /// As `stands_at`, for unread bytes that lie anywhere.
    pub fn stands_before(&self, unread: &[u8], dst: &[u8]) -> bool
        ensures { IsTrue result ↔ Stands (codec_state self.now unread.now dst.now) }
    {
        self.stands_behind(unread, dst.len())
    }

    // As `stands_before`, with this many bytes in `dst`.
    fn stands_behind(&self, unread: &[u8], held: usize) -> bool
        ensures { (dst : List ℕ) → length dst ≡ held
            → (IsTrue result ↔ Stands (codec_state self.now unread.now dst)) }
    {
        if !is_full_chunks(held) {
            return false;
        }
        match self.decoder {
            ChunkDecoder::Idle => true,
            ChunkDecoder::Chunk { seq_id, needed } => {
                has_header(unread, seq_id, needed.get())
                    && fits(held, needed.get(), self.max_allowed_packet)
            }
        }
    }

    /// As `stands_at`, but a remembered header may be past the limit: it was judged under the one
    /// that stood then, and isn't judged again. `deliver_limited` asks for it.
    pub fn aligned_at(&self, src: &BytesMut<impl Allocator + Copy>, dst: &[u8]) -> bool
        ensures { IsTrue result ↔ Aligned (codec_state self.now src.now.items dst.now) }
    {
        self.aligned_before(src.as_slice(), dst)
    }

    // As `aligned_at`, for unread bytes that lie anywhere.
    fn aligned_before(&self, unread: &[u8], dst: &[u8]) -> bool
        ensures { IsTrue result ↔ Aligned (codec_state self.now unread.now dst.now) }
    {
        if !is_full_chunks(dst.len()) {
            return false;
        }
        match self.decoder {
            ChunkDecoder::Idle => true,
            ChunkDecoder::Chunk { seq_id, needed } => has_header(unread, seq_id, needed.get()),
        }
    }

    /// Whether `decode` is seen to wait at these unread bytes, whatever `dst` holds: fewer have come
    /// than a header has, or than the chunk in front has, whose header `decode` saw before. Then
    /// more are to be read. It looks at the header of no chunk, so that `decode` may wait after
    /// false too.
    ///
    /// <https://dev.mysql.com/doc/dev/mysql-server/latest/page_protocol_basic_packets.html>
    pub fn waits_at(&self, unread: &[u8]) -> bool
        ensures waits { IsTrue result ↔ MatchOption (header_of self.now) (length unread.now < 4)
            (λ header. length unread.now < 4 + header.1) }
        // It is what `decode` answers false at, and changes nothing.
        ensures decodes { (dst : List ℕ) → let state = codec_state self.now unread.now dst in
            IsTrue result → DecodesStanding state (Ok false) state }
        // The same in the middle of a stream, of which each byte has its limit.
        ensures on { (dst : List ℕ) → let state = codec_state self.now unread.now dst in
            IsTrue result → Decodes state (Ok false) state }
        ensures chain { (dst : List ℕ) → let state = codec_state self.now unread.now dst in
            IsTrue result → ChunkChain 0 state (Ok false) state }
    {
        self.has_byte_id();
        let came = unread.len();
        if came < HEADER_LEN {
            return true;
        }
        match self.decoder {
            ChunkDecoder::Idle => false,
            ChunkDecoder::Chunk { needed, .. } => came - HEADER_LEN < needed.get(),
        }
    }

    /// Takes chunks from the front of `src` until a packet is whole, and puts their payload bytes
    /// after what `dst` holds, which is asked for room once, for all bytes that the call takes.
    /// The answer is whether `dst` now holds a whole packet. After false the call is made again
    /// with the same `dst` and more bytes in `src`; after true, with an empty `dst`.
    ///
    /// `PacketTooLarge`: the chunk in front would take the packet past the limit. Its header is
    /// left in `src`. `PacketsOutOfSync`: the chunk in front bore another id. It was taken, and its
    /// bytes stand in `dst`. `OutOfMemory`: `dst` could not grow. Nothing is lost, and the call may
    /// be made again.
    #[inline(always)]
    pub fn decode<T: PacketDst>(
        &mut self,
        src: &mut BytesMut<impl Allocator + Copy>,
        dst: &mut T,
    ) -> Result<bool, PacketCodecError>
        ensures decodes { DecodesStanding (codec_state self.old src.old.items (T.held dst.old))
            result (codec_state self.new src.new.items (T.held dst.new)) }
        // The same at any limit that was set since: a remembered header isn't judged again.
        ensures aligned { DecodesWhereAligned
            (codec_state self.old src.old.items (T.held dst.old)) result
            (codec_state self.new src.new.items (T.held dst.new)) }
        // In every state it is a chain of single chunks.
        ensures chain { IsChain (codec_state self.old src.old.items (T.held dst.old)) result
            (codec_state self.new src.new.items (T.held dst.new)) }
        // After everything but a whole packet and a lost sync the codec stands again.
        ensures stands { StandsAgain (codec_state self.old src.old.items (T.held dst.old)) result
            (codec_state self.new src.new.items (T.held dst.new)) }
        // Where it waits, both buffers together hold few bytes.
        ensures bounded { WaitsBounded (codec_state self.old src.old.items (T.held dst.old)) result
            (codec_state self.new src.new.items (T.held dst.new)) }
        // Want of memory is answered only where a chunk is there to be taken.
        ensures memory { let before = codec_state self.old src.old.items (T.held dst.old) in
            result ≡ Err PacketCodecError.OutOfMemory → HasChunk before }

        ensures shorter { result ≡ Ok true → length src.new.items < length src.old.items }
        ensures limit { self.new.max_allowed_packet ≡ self.old.max_allowed_packet }
    {
        answered(self.decode_on(src, dst))
    }

    /// Appends the packet's chunks to `dst` and empties the packet, where it has at most
    /// `max_allowed_packet` bytes. The ids go on from the codec's.
    ///
    /// `PacketTooLarge`: the packet has more. `OutOfMemory`: `dst` could not grow. Neither changes
    /// anything.
    #[inline]
    pub fn encode<T: Buf>(
        &mut self,
        packet: &mut T,
        dst: &mut BytesMut<impl Allocator + Copy>,
    ) -> Result<(), PacketCodecError>
        ensures appended { OnOk result (dst.new.items
            ≡ dst.old.items ++ framing (expected_id self.old) (T.unread packet.old)) }
        ensures emptied { OnOk result (T.unread packet.new ≡ []) }
        ensures next { OnOk result
            (expected_id self.new ≡ next_id (expected_id self.old) (T.unread packet.old)) }

        ensures too_large { (result ≡ Err PacketCodecError.PacketTooLarge)
            ↔ (self.old.max_allowed_packet < length (T.unread packet.old)) }
        ensures errors { IfErr result (λ error. (error ≡ PacketCodecError.PacketTooLarge)
            ⊎ (error ≡ PacketCodecError.OutOfMemory)) }
        ensures err { OnErr result ((expected_id self.new ≡ expected_id self.old)
            × (packet.new ≡ packet.old) × (dst.new.items ≡ dst.old.items)) }

        ensures header { header_of self.new ≡ header_of self.old }
        ensures limit { self.new.max_allowed_packet ≡ self.old.max_allowed_packet }
        ensures kept { T.kept packet.new ≡ T.kept packet.old }
    {
        let is_large = packet.remaining() > self.max_allowed_packet;
        if !is_large {
            if let Ok(id) = put_packet(self.seq_id, packet, dst) {
                self.seq_id = id;
                return Ok(());
            }
        }
        refuse(is_large)
    }

    /// The sequence id that the next chunk is to bear: one that `decode` accepts, or the first that
    /// `encode` writes.
    pub fn sequence_id(&self) -> u8
        ensures { result ≡ expected_id self.now }
    {
        self.seq_id
    }

    /// Sets the sequence id to 0, as at the start of a command.
    pub fn reset_seq_id(&mut self)
        ensures id { expected_id self.new ≡ 0 }
        ensures header { header_of self.new ≡ header_of self.old }
        ensures limit { self.new.max_allowed_packet ≡ self.old.max_allowed_packet }
    {
        self.seq_id = 0;
    }

    /// Sets the sequence id that the next chunk is to bear, for one who reads a single direction of
    /// a connection, or begins in the midst of a stream. Where nothing is held and no header is
    /// remembered, a packet begins with it. Elsewhere the packet goes on with it: what is held and
    /// a remembered header stay, and so does the standing of the codec.
    ///
    /// <https://dev.mysql.com/doc/dev/mysql-server/latest/page_protocol_basic_packets.html>
    pub fn set_sequence_id(&mut self, seq_id: u8)
        ensures id { expected_id self.new ≡ seq_id }
        ensures header { header_of self.new ≡ header_of self.old }
        ensures limit { self.new.max_allowed_packet ≡ self.old.max_allowed_packet }
        ensures begins { (src : List ℕ) → first_id (codec_state self.new src []) ≡ seq_id }
        ensures stands { (src dst : List ℕ)
            → (Stands (codec_state self.old src dst) ↔ Stands (codec_state self.new src dst)) }
    {
        self.seq_id = seq_id;
    }

    /// Stands in front of a packet whose first chunk bears this id, as after one that was taken
    /// without the codec. A remembered header is forgotten.
    pub fn begin_at(&mut self, seq_id: u8)
        ensures id { expected_id self.new ≡ seq_id }
        ensures header { header_of self.new ≡ None }
        ensures limit { self.new.max_allowed_packet ≡ self.old.max_allowed_packet }
    {
        self.set_sequence_id(seq_id);
        self.decoder = ChunkDecoder::Idle;
    }

    /// Changes nothing. It stands for the call by which a compressed connection carries its id
    /// over.
    pub fn sync_seq_id(&mut self)
        ensures { self.new ≡ self.old }
    {
        // Without compression there is one id.
    }
}

// What a call comes to, in a byte: one that isn't inlined answers it in a register.
#[derive(Clone, Copy)]
enum Outcome {
    Whole,
    Waits,
    PacketTooLarge,
    PacketsOutOfSync,
    OutOfMemory,
}

impl Outcome {
    fn of(answer: Result<bool, Refusal>) -> Self
        ensures { told result ≡ answer_of answer }
    {
        match answer {
            Ok(true) => Outcome::Whole,
            Ok(false) => Outcome::Waits,
            Err(Refusal::PacketTooLarge) => Outcome::PacketTooLarge,
            Err(Refusal::PacketsOutOfSync) => Outcome::PacketsOutOfSync,
            Err(Refusal::OutOfMemory) => Outcome::OutOfMemory,
        }
    }

    fn answer(self) -> Result<bool, Refusal>
        ensures { answer_of result ≡ told self }
    {
        match self {
            Outcome::Whole => Ok(true),
            Outcome::Waits => Ok(false),
            Outcome::PacketTooLarge => Err(Refusal::PacketTooLarge),
            Outcome::PacketsOutOfSync => Err(Refusal::PacketsOutOfSync),
            Outcome::OutOfMemory => Err(Refusal::OutOfMemory),
        }
    }
}

// What one chunk brought.
enum Progress {
    // The packet is whole.
    Whole,
    // A full chunk, and bytes after it.
    More,
    // More bytes are needed.
    Starved,
}

impl PacketCodec {
    ghost use Rattle.wire_codec.specs.Codec.{expected_id, header_of, codec_state, ChunkChain, DecodesStanding, HasChunk, IsChain, IsLink, LacksMemory, TakesStanding};
    ghost use Rattle.std.specs.Int.NonZero.{non_zero_usize_get};
    ghost use Rattle.wire_codec.specs.GoingOn.{PacketSink, Decodes};
    ghost use Rattle.wire_codec.specs.OneChunk.{IsCut, IsTakeable};

    // A sequence id is a byte.
    fn has_byte_id(&self)
        ensures { expected_id self.now < 256 }
    {
        self.sequence_id();
    }

    // Takes one chunk, the next link of a chain.
    fn link_chunk<T: PacketDst>(
        &mut self,
        src: &mut BytesMut<impl Allocator + Copy>,
        dst: &mut T,
    ) -> Result<Progress, Refusal>
        ensures links { IsLink (codec_state self.old src.old.items (T.held dst.old))
            (answer_of result) (codec_state self.new src.new.items (T.held dst.new)) }
        ensures spelled { IsSpelled src.old.items }
        ensures small { expected_id self.old < 256 }
        ensures limit { self.new.max_allowed_packet ≡ self.old.max_allowed_packet }
    {
        let expected = self.seq_id;
        match self.decoder.take(src, dst, self.max_allowed_packet) {
            Err(refusal) => Err(refusal),
            Ok(None) => Ok(Progress::Starved),
            Ok(Some(ChunkInfo::Last(id))) => {
                if id != expected {
                    return Err(Refusal::PacketsOutOfSync);
                }
                self.seq_id = id.wrapping_add(1);
                Ok(Progress::Whole)
            }
            Ok(Some(ChunkInfo::Middle(id))) => {
                if id != expected {
                    return Err(Refusal::PacketsOutOfSync);
                }
                self.seq_id = id.wrapping_add(1); // after 255 comes 0
                if src.is_empty() {
                    Ok(Progress::Starved)
                } else {
                    Ok(Progress::More)
                }
            }
        }
    }

    // Takes one chunk: what it is to the packet.
    fn take_chunk<T: PacketDst>(
        &mut self,
        src: &mut BytesMut<impl Allocator + Copy>,
        dst: &mut T,
    ) -> Result<Progress, Refusal>
        ensures takes { TakesStanding (codec_state self.old src.old.items (T.held dst.old))
            (answer_of result) (codec_state self.new src.new.items (T.held dst.new)) }
        ensures links { IsLink (codec_state self.old src.old.items (T.held dst.old))
            (answer_of result) (codec_state self.new src.new.items (T.held dst.new)) }
        ensures on { PacketSink (codec_state self.old src.old.items (T.held dst.old))
            (answer_of result) (codec_state self.new src.new.items (T.held dst.new)) }
        ensures more { result ≡ Ok Progress.More → length src.new.items < length src.old.items }
        ensures whole { result ≡ Ok Progress.Whole → length src.new.items < length src.old.items }
        ensures limit { self.new.max_allowed_packet ≡ self.old.max_allowed_packet }
    {
        self.link_chunk(src, dst)
    }

    // Remembers the chunk in front, with this header, for which `dst` could not grow.
    fn lack_room<T: PacketDst>(
        &mut self,
        seq_id: u8,
        needed: NonZeroUsize,
        src: &BytesMut<impl Allocator + Copy>,
        dst: &T,
    )
        requires takeable { IsTakeable (header_of self.old) src.now.items (length (T.held dst.now))
            self.old.max_allowed_packet seq_id (non_zero_usize_get needed) }
        requires small { expected_id self.old < 256 }
        ensures refused { LacksMemory
            (codec_state self.old src.now.items (T.held dst.now))
            (codec_state self.new src.now.items (T.held dst.now)) }
        ensures decodes { DecodesStanding
            (codec_state self.old src.now.items (T.held dst.now)) (Err PacketCodecError.OutOfMemory)
            (codec_state self.new src.now.items (T.held dst.now)) }
        ensures on { Decodes
            (codec_state self.old src.now.items (T.held dst.now)) (Err PacketCodecError.OutOfMemory)
            (codec_state self.new src.now.items (T.held dst.now)) }
        ensures there { HasChunk (codec_state self.old src.now.items (T.held dst.now)) }
        ensures id { expected_id self.new ≡ expected_id self.old }
        ensures limit { self.new.max_allowed_packet ≡ self.old.max_allowed_packet }
    {
        self.decoder = ChunkDecoder::Chunk { seq_id, needed };
    }

    // Takes room in `dst` for all bytes that one call takes. Where there is none, the chunk in
    // front is remembered.
    fn make_room<T: PacketDst>(
        &mut self,
        src: &BytesMut<impl Allocator + Copy>,
        dst: &mut T,
    ) -> Result<(), AllocError>
        ensures ok { OnOk result (self.new ≡ self.old) }
        ensures refused { OnErr result (LacksMemory
            (codec_state self.old src.now.items (T.held dst.old))
            (codec_state self.new src.now.items (T.held dst.new))) }
        ensures decodes { OnErr result (DecodesStanding
            (codec_state self.old src.now.items (T.held dst.old)) (Err PacketCodecError.OutOfMemory)
            (codec_state self.new src.now.items (T.held dst.new))) }
        ensures on { OnErr result (Decodes
            (codec_state self.old src.now.items (T.held dst.old)) (Err PacketCodecError.OutOfMemory)
            (codec_state self.new src.now.items (T.held dst.new))) }
        ensures there { OnErr result
            (HasChunk (codec_state self.old src.now.items (T.held dst.old))) }
        ensures id { expected_id self.new ≡ expected_id self.old }
        ensures small { OnErr result (expected_id self.old < 256) }
        ensures limit { self.new.max_allowed_packet ≡ self.old.max_allowed_packet }
        ensures held { T.held dst.new ≡ T.held dst.old }
    {
        let front = src.as_slice();
        let held = dst.as_ref().len();
        let limit = self.max_allowed_packet;
        match whole_chunk(self.decoder, front, held, limit) {
            None => Ok(()),
            Some((seq_id, needed)) => {
                let room = bytes_to_take(seq_id, needed, front, held, limit, self.seq_id);
                if dst.reserve(room).is_ok() {
                    return Ok(());
                }
                self.lack_room(seq_id, needed, src, dst);
                Err(AllocError)
            }
        }
    }

    // `decode` with a small reason, and what it makes of a run whose bytes came under different
    // limits.
    #[inline(always)]
    pub(crate) fn decode_on<T: PacketDst>(
        &mut self,
        src: &mut BytesMut<impl Allocator + Copy>,
        dst: &mut T,
    ) -> Result<bool, Refusal>
        ensures decodes { DecodesStanding (codec_state self.old src.old.items (T.held dst.old))
            (answer_of result) (codec_state self.new src.new.items (T.held dst.new)) }
        ensures on { Decodes (codec_state self.old src.old.items (T.held dst.old))
            (answer_of result) (codec_state self.new src.new.items (T.held dst.new)) }
        ensures chain { IsChain (codec_state self.old src.old.items (T.held dst.old))
            (answer_of result) (codec_state self.new src.new.items (T.held dst.new)) }
        ensures memory { let before = codec_state self.old src.old.items (T.held dst.old) in
            answer_of result ≡ Err PacketCodecError.OutOfMemory → HasChunk before }
        ensures shorter { result ≡ Ok true → length src.new.items < length src.old.items }
        ensures limit { self.new.max_allowed_packet ≡ self.old.max_allowed_packet }
    {
        let front = src.as_slice();
        if self.waits_at(front) {
            begin_block(src);
            return Ok(false);
        }
        // The common case: a packet of one chunk, of which all is known before it is put.
        if let Some(packet) = self.front_packet_in(front, dst.as_ref()) {
            if let Some(needed) = NonZeroUsize::new(packet.len()) {
                if !put_whole(packet, dst) {
                    self.lack_room(self.seq_id, needed, src, dst);
                    return Err(Refusal::OutOfMemory);
                }
                self.take_front(src);
                return Ok(true);
            }
        }
        self.go_on(src, dst).answer()
    }

    // The same of a packet that isn't whole in front. No part of its caller's loop.
    #[inline(never)]
    fn go_on<T: PacketDst>(
        &mut self,
        src: &mut BytesMut<impl Allocator + Copy>,
        dst: &mut T,
    ) -> Outcome
        ensures decodes { DecodesStanding (codec_state self.old src.old.items (T.held dst.old))
            (told result) (codec_state self.new src.new.items (T.held dst.new)) }
        ensures on { Decodes (codec_state self.old src.old.items (T.held dst.old))
            (told result) (codec_state self.new src.new.items (T.held dst.new)) }
        ensures chain { IsChain (codec_state self.old src.old.items (T.held dst.old))
            (told result) (codec_state self.new src.new.items (T.held dst.new)) }
        ensures memory { let before = codec_state self.old src.old.items (T.held dst.old) in
            told result ≡ Err PacketCodecError.OutOfMemory → HasChunk before }
        ensures shorter { told result ≡ Ok true → length src.new.items < length src.old.items }
        ensures limit { self.new.max_allowed_packet ≡ self.old.max_allowed_packet }
    {
        self.has_byte_id();
        match self.cut_chunk(src.as_slice(), dst.as_ref().len()) {
            Some((seq_id, needed)) => {
                self.begin_chunk(seq_id, needed, src, dst);
                Outcome::Waits
            }
            None => Outcome::of(self.take_all(src, dst)),
        }
    }

    // The header of the chunk in front, where none is remembered, it is within the limit, and bytes of
    // it are to come.
    fn cut_chunk(&self, front: &[u8], held: usize) -> Option<(u8, NonZeroUsize)>
        ensures none { IsSome result → header_of self.now ≡ None }
        ensures cut { IfSome result (λ chunk. IsCut front.now held self.now.max_allowed_packet
            chunk.0 (non_zero_usize_get chunk.1)) }
    {
        let Some(header) = Header::read(front) else {
            return None;
        };
        let Some(needed) = NonZeroUsize::new(header.len) else {
            return None;
        };
        if front.len() - HEADER_LEN >= header.len {
            return None;
        }
        match self.decoder {
            ChunkDecoder::Idle if fits(held, header.len, self.max_allowed_packet) => {
                Some((header.seq_id, needed))
            }
            _ => None,
        }
    }

    // Remembers the chunk in front, with this header, of which bytes are to come.
    fn begin_chunk<T: PacketDst>(
        &mut self,
        seq_id: u8,
        needed: NonZeroUsize,
        src: &mut BytesMut<impl Allocator + Copy>,
        dst: &T,
    )
        requires none { header_of self.old ≡ None }
        requires cut { IsCut src.old.items (length (T.held dst.now)) self.old.max_allowed_packet
            seq_id (non_zero_usize_get needed) }
        requires small { expected_id self.old < 256 }
        ensures decodes { DecodesStanding (codec_state self.old src.old.items (T.held dst.now))
            (Ok false) (codec_state self.new src.new.items (T.held dst.now)) }
        ensures on { Decodes (codec_state self.old src.old.items (T.held dst.now)) (Ok false)
            (codec_state self.new src.new.items (T.held dst.now)) }
        ensures chain { ChunkChain 0 (codec_state self.old src.old.items (T.held dst.now)) (Ok false)
            (codec_state self.new src.new.items (T.held dst.now)) }
        ensures limit { self.new.max_allowed_packet ≡ self.old.max_allowed_packet }
    {
        self.decoder = ChunkDecoder::Chunk { needed, seq_id };
        make_place(needed, src);
    }

    // The chunks of one call, with room for all of them.
    #[inline(never)]
    fn take_all<T: PacketDst>(
        &mut self,
        src: &mut BytesMut<impl Allocator + Copy>,
        dst: &mut T,
    ) -> Result<bool, Refusal>
        ensures decodes { DecodesStanding (codec_state self.old src.old.items (T.held dst.old))
            (answer_of result) (codec_state self.new src.new.items (T.held dst.new)) }
        ensures on { Decodes (codec_state self.old src.old.items (T.held dst.old))
            (answer_of result) (codec_state self.new src.new.items (T.held dst.new)) }
        ensures chain { IsChain (codec_state self.old src.old.items (T.held dst.old))
            (answer_of result) (codec_state self.new src.new.items (T.held dst.new)) }
        ensures memory { let before = codec_state self.old src.old.items (T.held dst.old) in
            answer_of result ≡ Err PacketCodecError.OutOfMemory → HasChunk before }
        ensures shorter { result ≡ Ok true → length src.new.items < length src.old.items }
        ensures limit { self.new.max_allowed_packet ≡ self.old.max_allowed_packet }
    {
        self.make_room(src, dst)?;
        self.take_chunks(src, dst)
    }

    // The chunks of one call, one after another.
    fn take_chunks<T: PacketDst>(
        &mut self,
        src: &mut BytesMut<impl Allocator + Copy>,
        dst: &mut T,
    ) -> Result<bool, Refusal>
        ensures decodes { DecodesStanding (codec_state self.old src.old.items (T.held dst.old))
            (answer_of result) (codec_state self.new src.new.items (T.held dst.new)) }
        ensures chain { IsChain (codec_state self.old src.old.items (T.held dst.old))
            (answer_of result) (codec_state self.new src.new.items (T.held dst.new)) }
        ensures memory { let before = codec_state self.old src.old.items (T.held dst.old) in
            answer_of result ≡ Err PacketCodecError.OutOfMemory → HasChunk before }
        ensures on { Decodes (codec_state self.old src.old.items (T.held dst.old))
            (answer_of result) (codec_state self.new src.new.items (T.held dst.new)) }
        ensures shorter { result ≡ Ok true → length src.new.items < length src.old.items }
        ensures limit { self.new.max_allowed_packet ≡ self.old.max_allowed_packet }
    {
        'chunks: loop {
            match self.take_chunk(src, dst) {
                Ok(Progress::Whole) => return Ok(true),
                Ok(Progress::Starved) => return Ok(false),
                Ok(Progress::More) => {}
                Err(refusal) => return Err(refusal),
            }
        }
    }
}

// Why a packet isn't framed. It is a function of its own, so that the bytes of an error are zeroed
// only where one is answered.
fn refuse(is_large: bool) -> Result<(), PacketCodecError>
    ensures large { IsTrue is_large → result ≡ Err PacketCodecError.PacketTooLarge }
    ensures memory { IsFalse is_large → result ≡ Err PacketCodecError.OutOfMemory }
{
    let error = if is_large {
        PacketCodecError::PacketTooLarge
    } else {
        PacketCodecError::OutOfMemory
    };
    Err(error)
}

// Where nothing is unread, what comes next lies at the front of the block.
fn begin_block(src: &mut BytesMut<impl Allocator + Copy>)
    ensures { src.new.items ≡ src.old.items }
{
    if src.is_empty() {
        src.clear();
    }
}

// An answer with the public error.
fn answered(answer: Result<bool, Refusal>) -> Result<bool, PacketCodecError>
    ensures { result ≡ answer_of answer }
{
    match answer {
        Ok(is_whole) => Ok(is_whole),
        Err(refusal) => refused(refusal),
    }
}

// Its error, by a function of its own, so that the bytes of an error are zeroed only where one is
// answered.
#[inline(never)]
fn refused(refusal: Refusal) -> Result<bool, PacketCodecError>
    ensures { result ≡ Err (error_of refusal) }
{
    Err(PacketCodecError::from(refusal))
}

// Takes room for a packet, and puts it there: whether neither was refused.
fn put_whole<T: PacketDst>(packet: &[u8], dst: &mut T) -> bool
    ensures put { IsTrue result → T.held dst.new ≡ T.held dst.old ++ packet.now }
    ensures refused { IsFalse result → T.held dst.new ≡ T.held dst.old }
{
    match dst.reserve(packet.len()) {
        Ok(()) => dst.put_slice(packet).is_ok(),
        Err(_) => false,
    }
}

// Whether this header stands in front.
fn has_header(front: &[u8], id: u8, len: usize) -> bool
    ensures { IsTrue result
        ↔ ((4 ≤ length front.now) × (slice_index front.now 3 ≡ id) × (chunk_len front.now ≡ len)) }
{
    match Header::read(front) {
        Some(header) => header.seq_id == id && header.len == len,
        None => false,
    }
}
