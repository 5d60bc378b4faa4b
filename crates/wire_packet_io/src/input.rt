//! What is read, and the loop that finds a packet in it.

ghost use Rattle.std.specs.Prelude.{Some, None, IfSome, IsNone, IsSome, false, ◌≡◌, ◌⊎◌, ℕ, ◌+◌, ◌-◌, ◌^◌, ◌<◌, ◌≤◌, ◌↔◌, List, [], ◌++◌, length, min, drop, Ok, Err, IfOk, OnErr, OnOk, IfErr, IsTrue, IsFalse};
ghost use Rattle.std.specs.Io.KnownBytes.{Consumes, IsAtEnd, Keeps};
ghost use Rattle.wire_codec.specs.Codec.{codec_state, Stands};
ghost use Rattle.wire_codec.specs.Delivery.{chunk_len};
ghost use Rattle.wire_codec.specs.InPlace.{front_payload as payload_in_front};
ghost use Rattle.wire_packet_io.specs.Copying.{copy_read_size};
ghost use Rattle.wire_packet_io.specs.PacketIo.{ReadFails, TakesPacket, EndsAt, FitsAt, read_size};
ghost use Rattle.wire_codec.specs.Skipping.{MaySkip};
ghost use Rattle.wire_packet_io.specs.Skips.{IsRefusal, SkipsOn, skipping};
ghost use Rattle.wire_packet_io.specs.Lending.{IsThere, IsCopied, ReadsPacket, found_in, answer_over, input_state, lender};

mod copy;
mod relay;
pub(crate) mod whole;

use crate::error::PacketIoError;
use bytes::BytesMut;
use std::alloc::{AllocError, Allocator};
use std::io::Read;
use std::mem;
use wire_buf::lengths::MAX_PAYLOAD_LEN;
use wire_codec::codec::error::PacketCodecError;
use wire_codec::codec::header::{HEADER_LEN, Header};
use wire_codec::codec::{PacketCodec, Skipped};

// The most bytes of one read.
const READ_SIZE: usize = 8192;

// The most of one that is written as it comes, in a large chunk.
const COPY_SIZE: usize = 65536;

// At most this many bytes are moved by way of the stack.
const FEW: usize = 256;

// After a packet of this many bytes few are unread, and its room is to be had for the next one.
const LARGE: usize = 2 * READ_SIZE;

/// A packet that was found.
#[derive(Debug, Drop)]
pub enum Found<A: Allocator + Copy> {
    /// It lies in one chunk at the front of what was read, and the codec is after it: the bytes of
    /// the chunk, with its header.
    InFront(usize),
    /// It was put together.
    Copied(Vec<u8, A>),
}

/// A reader, with what was read and isn't decoded, and the full chunks of an unfinished packet.
#[derive(Drop)]
pub struct Input<R: Read, A: Allocator + Copy> {
    pub reader: R,
    pub src: BytesMut<A>,
    pub dst: Vec<u8, A>,
    pub lost: bool,
    pub reads: u64,
}

// Moves the bytes to the front of their block by way of the stack, where they are few. `reserve` would
// move them one by one.
fn move_to_front<A: Allocator + Copy>(src: &mut BytesMut<A>)
    ensures { src.new.items ≡ src.old.items }
{
    let len = src.len();
    if len == 0 {
        src.clear();
        return;
    }
    if len > FEW {
        return;
    }
    let mut bytes = [0; FEW];
    bytes[..len].copy_from_slice(src.as_slice());
    src.clear();
    src.extend_reserved(&bytes[..len]);
}

// Room for one read after the bytes.
fn make_read_room<A: Allocator + Copy>(src: &mut BytesMut<A>) -> Result<(), AllocError>
    ensures room { OnOk result (8192 ≤ src.new.spare) }
    ensures items { src.new.items ≡ src.old.items }
{
    if src.capacity() - src.len() < READ_SIZE {
        move_to_front(src);
    }
    src.reserve(READ_SIZE)
}

impl<R: Read, A: Allocator + Copy> Input<R, A> {
    // One read of at most this many bytes, for which there is room. The answer is how many came.
    fn read_behind(&mut self, most: usize) -> Result<usize, PacketIoError>
        requires some { 0 < most }
        requires room { most ≤ self.old.src.spare }
        ensures ok { IfOk result (λ n. (came : List ℕ) × (length came ≡ n)
            × (self.new.src.items ≡ self.old.src.items ++ came)
            × Consumes (R.remaining self.old.reader) (R.remaining self.new.reader) came) }
        ensures small { IfOk result (λ n. n ≤ most) }
        ensures end { IfOk result (λ n. n ≡ 0 → IsAtEnd (R.remaining self.new.reader)) }
        ensures err { OnErr result (self.new.src.items ≡ self.old.src.items) }
        ensures kept { OnErr result (Keeps (R.remaining self.old.reader)
            (R.remaining self.new.reader)) }
        ensures read { OnOk result (self.new.reads ≡ min (self.old.reads + 1) (2 ^ 64 - 1)) }
        ensures failed { IfErr result (λ error. ReadFails error self.old.reads self.new.reads) }
        ensures dst { self.new.dst ≡ self.old.dst }
        ensures lost { self.new.lost ≡ self.old.lost }
    {
        let len = self.src.len();
        self.src.advance_mut(most);
        self.reads = self.reads.saturating_add(1);
        match self.reader.read(&mut self.src.as_mut_slice()[len..]) {
            Ok(count) => {
                self.src.truncate(len + count);
                Ok(count)
            }
            Err(error) => {
                self.src.truncate(len);
                Err(PacketIoError::Io(error))
            }
        }
    }

    // The same of at most 8192 bytes.
    // No call, so that room for an `io::Error` is zeroed only where there is a read.
    #[inline]
    fn read_more(&mut self) -> Result<usize, PacketIoError>
        ensures ok { IfOk result (λ n. (came : List ℕ) × (length came ≡ n)
            × (self.new.src.items ≡ self.old.src.items ++ came)
            × Consumes (R.remaining self.old.reader) (R.remaining self.new.reader) came) }
        ensures small { IfOk result (λ n. n ≤ read_size) }
        ensures end { IfOk result (λ n. n ≡ 0 → IsAtEnd (R.remaining self.new.reader)) }
        ensures err { OnErr result (self.new.src.items ≡ self.old.src.items) }
        ensures kept { OnErr result (Keeps (R.remaining self.old.reader)
            (R.remaining self.new.reader)) }
        ensures read { OnOk result (self.new.reads ≡ min (self.old.reads + 1) (2 ^ 64 - 1)) }
        ensures failed { IfErr result (λ error. ReadFails error self.old.reads self.new.reads) }
        ensures dst { self.new.dst ≡ self.old.dst }
        ensures lost { self.new.lost ≡ self.old.lost }
    {
        if make_read_room(&mut self.src).is_err() {
            return Err(PacketIoError::OutOfMemory);
        }
        self.read_behind(READ_SIZE)
    }

    // The same of what is written as it comes, where this many bytes are to come of the open chunk: of
    // a large chunk up to 65536, and none behind it. No part of a loop over small packets.
    #[inline(never)]
    fn read_to_copy(&mut self, left: usize) -> Result<usize, PacketIoError>
        ensures ok { IfOk result (λ n. (came : List ℕ) × (length came ≡ n)
            × (self.new.src.items ≡ self.old.src.items ++ came)
            × Consumes (R.remaining self.old.reader) (R.remaining self.new.reader) came) }
        ensures small { IfOk result (λ n. n ≤ copy_read_size left) }
        ensures end { IfOk result (λ n. n ≡ 0 → IsAtEnd (R.remaining self.new.reader)) }
        ensures err { OnErr result (self.new.src.items ≡ self.old.src.items) }
        ensures kept { OnErr result (Keeps (R.remaining self.old.reader)
            (R.remaining self.new.reader)) }
        ensures read { OnOk result (self.new.reads ≡ min (self.old.reads + 1) (2 ^ 64 - 1)) }
        ensures failed { IfErr result (λ error. ReadFails error self.old.reads self.new.reads) }
        ensures dst { self.new.dst ≡ self.old.dst }
        ensures lost { self.new.lost ≡ self.old.lost }
    {
        if left <= READ_SIZE {
            return self.read_more();
        }
        let most = left.min(COPY_SIZE);
        if self.src.reserve(most).is_err() {
            return Err(PacketIoError::OutOfMemory);
        }
        self.read_behind(most)
    }

    // Room for two chunks, where a full one has come whole and nothing is held: so the vector of a
    // packet of two chunks grows once. A refusal is passed over, for `decode` asks for what it
    // needs.
    fn make_room(&mut self, limit: usize)
        ensures held { self.new.dst.items ≡ self.old.dst.items }
        ensures rest { self.new ≡ record self.old { dst = self.new.dst } }
    {
        if self.src.len() < HEADER_LEN + MAX_PAYLOAD_LEN || !self.dst.is_empty() {
            return;
        }
        if let Some(header) = Header::read(self.src.as_slice()) {
            if header.len == MAX_PAYLOAD_LEN {
                let _ = self.dst.reserve(limit.min(2 * MAX_PAYLOAD_LEN));
            }
        }
    }

    // Decodes what was read.
    #[inline(always)]
    fn decode(&mut self, codec: &mut PacketCodec) -> Result<Option<Found<A>>, PacketIoError>
        requires stands { Stands (input_state codec.old None self.old) }
        requires found { IsFalse self.old.lost }
        ensures takes { TakesPacket (input_state codec.old None self.old)
            (answer_over result self.new.src.items) self.new.lost
            (input_state codec.new None self.new) }
        ensures apart { IsCopied (found_in result) }
        ensures kept { (self.new.reader ≡ self.old.reader) × (self.new.reads ≡ self.old.reads)
            × (codec.new.max_allowed_packet ≡ codec.old.max_allowed_packet) }
    {
        self.make_room(codec.max_allowed_packet);
        match codec.decode(&mut self.src, &mut self.dst) {
            Ok(true) => {
                let alloc = *self.dst.allocator();
                let packet = mem::replace(&mut self.dst, Vec::new(alloc));
                if packet.len() >= LARGE {
                    move_to_front(&mut self.src);
                }
                Ok(Some(Found::Copied(packet)))
            }
            Ok(false) => Ok(None),
            Err(error) => Err(self.refuse(error)),
        }
    }

    /// Finds a packet that lies whole in one chunk in front of what was read: how many bytes the chunk
    /// has, with its header.
    pub(crate) fn find_front(&self, codec: &mut PacketCodec) -> Option<usize>
        requires stands { Stands (input_state codec.old None self.now) }
        requires found { IsFalse self.now.lost }
        ensures takes { IfSome result (λ chunk. TakesPacket (input_state codec.old None self.now)
            (Ok (Some (payload_in_front self.now.src.items))) self.now.lost
            (codec_state codec.new (drop chunk self.now.src.items) self.now.dst.items)) }
        ensures chunk { IfSome result (λ chunk. chunk ≡ 4 + chunk_len self.now.src.items) }
        ensures whole { IfSome result (λ chunk. chunk ≤ length self.now.src.items) }
        ensures none { IsNone result → codec.new ≡ codec.old }
        ensures limit { codec.new.max_allowed_packet ≡ codec.old.max_allowed_packet }
    {
        if codec.front_packet(&self.src, self.dst.as_slice()).is_none() {
            return None;
        }
        Some(codec.accept_front(&self.src))
    }

    // Finds a packet in what was read: where it lies, where `lends` says so and it lies whole in
    // one chunk.
    #[inline(always)]
    fn find(
        &mut self,
        codec: &mut PacketCodec,
        lends: bool,
    ) -> Result<Option<Found<A>>, PacketIoError>
        requires stands { Stands (input_state codec.old None self.old) }
        requires found { IsFalse self.old.lost }
        ensures takes { TakesPacket (input_state codec.old None self.old)
            (answer_over result self.new.src.items) self.new.lost
            (input_state codec.new (found_in result) self.new) }
        ensures there { IsThere (found_in result) self.new.src.items }
        ensures apart { IsFalse lends → IsCopied (found_in result) }
        ensures kept { (self.new.reader ≡ self.old.reader) × (self.new.reads ≡ self.old.reads)
            × (codec.new.max_allowed_packet ≡ codec.old.max_allowed_packet) }
    {
        if lends {
            if let Some(chunk) = self.find_front(codec) {
                return Ok(Some(Found::InFront(chunk)));
            }
        }
        self.decode(codec)
    }

    // The same by a look at how many bytes there are, while one comes.
    #[inline(always)]
    fn find_next(
        &mut self,
        codec: &mut PacketCodec,
        lends: bool,
    ) -> Result<Option<Found<A>>, PacketIoError>
        requires stands { Stands (input_state codec.old None self.old) }
        requires found { IsFalse self.old.lost }
        ensures takes { TakesPacket (input_state codec.old None self.old)
            (answer_over result self.new.src.items) self.new.lost
            (input_state codec.new (found_in result) self.new) }
        ensures there { IsThere (found_in result) self.new.src.items }
        ensures apart { IsFalse lends → IsCopied (found_in result) }
        ensures kept { (self.new.reader ≡ self.old.reader) × (self.new.reads ≡ self.old.reads)
            × (codec.new.max_allowed_packet ≡ codec.old.max_allowed_packet) }
    {
        if codec.waits_at(self.src.as_slice()) {
            return Ok(None);
        }
        self.find(codec, lends)
    }

    // What the end of the input means here.
    fn at_end(&self) -> Result<Option<Found<A>>, PacketIoError>
        ensures ends { EndsAt (answer_over result self.now.src.items) (length self.now.src.items)
            (length self.now.dst.items) }
        ensures none { IsCopied (found_in result) }
    {
        if self.src.is_empty() && self.dst.is_empty() {
            Ok(None)
        } else {
            Err(PacketIoError::UnexpectedEnd)
        }
    }
}

impl<R: Read, A: Allocator + Copy> Input<R, A> {
    /// The next packet, after as many reads as it needs; `None` where the input ends between two
    /// packets. Where `lends` says so, one that lies whole in one chunk is left where it lies.
    // No call: an answer has room for an `io::Error`, and would be handed on through memory.
    #[inline(always)]
    pub(crate) fn next(
        &mut self,
        codec: &mut PacketCodec,
        lends: bool,
    ) -> Result<Option<Found<A>>, PacketIoError>
        requires stands { Stands (input_state codec.old None self.old) }
        requires found { IsFalse self.old.lost }
        ensures next { ReadsPacket R.remaining codec.old (lender None self.old)
            (answer_over result self.new.src.items) codec.new
            (lender (found_in result) self.new) }
        ensures there { IsThere (found_in result) self.new.src.items
            × (IsFalse lends → IsCopied (found_in result)) }
        ensures fits { FitsAt self.new.lost (input_state codec.new (found_in result) self.new)
            × (codec.new.max_allowed_packet ≡ codec.old.max_allowed_packet) }
        ensures loses { IsTrue self.new.lost ↔ (result ≡ Err PacketIoError.PacketsOutOfSync) }
    {
        'reads: loop {
            match self.find_next(codec, lends) {
                Ok(Some(found)) => return Ok(Some(found)),
                Ok(None) => {}
                Err(error) => return Err(error),
            }
            match self.read_more() {
                Ok(0) => return self.at_end(),
                Ok(_) => {}
                Err(error) => return Err(error),
            }
        }
    }

    /// Whether `next` can go on with this codec, where the bytes after these are the unread ones:
    /// it stands at them and at what is held, or the reader is lost.
    pub(crate) fn fits(&self, codec: &PacketCodec, unread: &[u8]) -> bool
        ensures { IsTrue result ↔ FitsAt self.now.lost
            (codec_state codec.now unread.now self.now.dst.items) }
    {
        self.lost || codec.stands_before(unread, self.dst.as_slice())
    }

    /// Drops the chunk in front, which has this many bytes. It asks that it has come whole.
    pub(crate) fn skip_front(&mut self, chunk: usize)
        requires chunk { chunk ≡ 4 + chunk_len self.old.src.items }
        requires whole { chunk ≤ length self.old.src.items }
        ensures skipped { self.new.src.items
            ≡ drop (4 + chunk_len self.old.src.items) self.old.src.items }
        ensures rest { self.new ≡ record self.old { src = self.new.src } }
    {
        self.src.advance(chunk);
        if chunk >= HEADER_LEN + LARGE {
            move_to_front(&mut self.src);
        }
    }
}

impl<R: Read, A: Allocator + Copy> Input<R, A> {
    // The reader's name for a refusal of the codec. A chunk of another id loses the stream.
    fn refuse(&mut self, error: PacketCodecError) -> PacketIoError
        ensures name { IsRefusal error result }
        ensures lost { IsFalse self.old.lost
            → (IsTrue self.new.lost ↔ (result ≡ PacketIoError.PacketsOutOfSync)) }
        ensures rest { self.new ≡ record self.old { lost = self.new.lost } }
    {
        match error {
            PacketCodecError::PacketTooLarge => PacketIoError::PacketTooLarge,
            PacketCodecError::PacketsOutOfSync => {
                self.lost = true;
                PacketIoError::PacketsOutOfSync
            }
            PacketCodecError::OutOfMemory => PacketIoError::OutOfMemory,
            PacketCodecError::Io(error) => PacketIoError::Io(error),
        }
    }

    // What the end of the input means here: false between two packets.
    fn at_skips_end(&self, skipped: &Skipped) -> Result<bool, PacketIoError>
        ensures clean { IfOk result (λ more. (more ≡ false) × (length self.now.src.items ≡ 0)
            × (skipped.now.held ≡ 0) × (skipped.now.begun ≡ None)) }
        ensures inside { IfErr result (λ error. (error ≡ PacketIoError.UnexpectedEnd)
            × ((0 < length self.now.src.items)
            ⊎ ((0 < skipped.now.held) ⊎ IsSome skipped.now.begun))) }
    {
        if self.src.is_empty() && !skipped.is_under_way() {
            Ok(false)
        } else {
            Err(PacketIoError::UnexpectedEnd)
        }
    }

    /// Begins to drop a packet: what is held goes, and its memory.
    pub(crate) fn begin_skip(&mut self)
        ensures held { self.new.dst.items ≡ [] }
        ensures found { IsFalse self.new.lost }
        ensures rest { self.new ≡ record self.old { dst = self.new.dst; lost = false } }
    {
        let alloc = *self.dst.allocator();
        self.dst = Vec::new(alloc);
        self.lost = false;
    }

    /// Drops the bytes of the next packet as they come: true where it has ended, false where the
    /// input ends between two packets.
    pub(crate) fn skip(
        &mut self,
        codec: &mut PacketCodec,
        skipped: &mut Skipped,
    ) -> Result<bool, PacketIoError>
        requires may { MaySkip skipped.old codec.old self.old.src.items }
        requires found { IsFalse self.old.lost }
        ensures skips { SkipsOn R.remaining codec.old
            (skipping skipped.old (lender None self.old)) result codec.new
            (skipping skipped.new (lender None self.new)) }
        ensures loses { IsTrue self.new.lost ↔ (result ≡ Err PacketIoError.PacketsOutOfSync) }
        ensures ended { IfOk result (λ _. (skipped.new.held ≡ 0) × (skipped.new.begun ≡ None)) }
        ensures kept { (self.new.dst ≡ self.old.dst)
            × (codec.new.max_allowed_packet ≡ codec.old.max_allowed_packet) }
    {
        'skips: loop {
            match codec.skip(&mut self.src, skipped) {
                Ok(true) => return Ok(true),
                Ok(false) => {}
                Err(error) => return Err(self.refuse(error)),
            }
            match self.read_more() {
                Ok(0) => return self.at_skips_end(skipped),
                Ok(_) => {}
                Err(error) => return Err(error),
            }
        }
    }
}

/// The payload of the chunk in front, which has this many bytes. It asks that it has come whole.
pub(crate) fn front_payload(src: &[u8], chunk: usize) -> &[u8]
    requires chunk { chunk ≡ 4 + chunk_len src.now }
    requires whole { chunk ≤ length src.now }
    ensures { result.now ≡ payload_in_front src.now }
{
    &src[HEADER_LEN..chunk]
}

/// What follows the chunk in front, in the same way.
pub(crate) fn behind_front(src: &[u8], chunk: usize) -> &[u8]
    requires chunk { chunk ≡ 4 + chunk_len src.now }
    requires whole { chunk ≤ length src.now }
    ensures { result.now ≡ drop (4 + chunk_len src.now) src.now }
{
    &src[chunk..]
}
