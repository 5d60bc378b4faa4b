//! Packets from a reader.

ghost use Rattle.std.specs.Prelude.{ℕ, List, IsOk, IsNone, IsSome, IfSome, Some, None, MatchOption, ◌≡◌, ◌<◌, ◌≤◌, ◌↔◌, ◌⊎◌, [], length, drop, Err, IfOk, OnErr, OnOk, IfErr, Ok, true, false, IsTrue, IsFalse};
ghost use Rattle.wire_codec.specs.Codec.{Stands, DecodesPacket};
ghost use Rattle.wire_codec.specs.Skipping.{MaySkip};
ghost use Rattle.wire_codec.specs.InPlace.{HasFront, behind_front as behind};
ghost use Rattle.wire_packet_io.specs.PacketIo.{FitsAt};
ghost use Rattle.wire_packet_io.specs.declared.error.PacketIoError.{PacketIoError};
ghost use Rattle.wire_packet_io.specs.Lending.{HandsOutLent, IsCopied, ReadsPacket, reading_state, found_in, answer_of, answer_over, answer_lent};
ghost use Rattle.wire_packet_io.specs.Skips.{CanSkip, SkipsNext, SkipsOn, skipped_at, skipping};

mod copy;
mod relay;
mod whole;

use crate::error::PacketIoError;
use crate::input::{Found, Input, behind_front, front_payload};
use bytes::BytesMut;
use std::alloc::{Allocator, Global};
use std::fmt::{self, Debug, Formatter};
use std::io::Read;
use std::marker::Model;
use wire_codec::codec::{PacketCodec, Skipped};
use wire_span::SpanDecoder;

/// Reads packets, one after another.
///
/// `next_packet` hands a packet out. `fill_packet`, `packet` and `take_packet` lend it: where its
/// bytes lie in the reader's buffer, they aren't copied.
///
/// The codec is handed in at each call, so that a reader and a writer can share one id. Once a
/// packet is lent the codec is after it: an answer may be queued before it is taken.
///
/// Contracts see a `Reading`: the reader below, what is unread, what is held of an unfinished
/// packet, the packet that is lent, whether the stream is lost, and how many reads were made.
#[derive(Drop)]
pub struct PacketReader<R: Read, A: Allocator + Copy = Global> {
    input: Input<R, A>,
    // The packet that is lent. The codec is after it, and nothing is held.
    lent: Option<Found<A>>,
    // How much was dropped of a packet that is being skipped. The input is lost meanwhile.
    skipped: Option<Skipped>,
    // Where it is in a packet that is being copied. The input is lost meanwhile.
    copied: Option<SpanDecoder>,
}

impl<R: Read, A: Allocator + Copy> Model for PacketReader<R, A> {
    ghost use Rattle.wire_packet_io.specs.Lending.{Reading, IsThere, lender};

    ghost Value = { Reading R };

    ghost view = { λ p. record (lender p.lent p.input) { skipped = p.skipped; copied = p.copied } };

    ghost invariant = { λ p. IsThere p.lent p.input.src.items };
}

impl<R: Read + Debug, A: Allocator + Copy> Debug for PacketReader<R, A> {
    fn fmt<W: fmt::Write>(&self, f: &mut Formatter<W>) -> fmt::Result {
        f.debug_struct("PacketReader")
            .field("reader", &self.input.reader)
            .field("unread", &self.unread().len())
            .field("is_lent", &self.lent.is_some())
            .field("is_lost", &self.input.lost)
            .field("reads", &self.input.reads)
            .finish_non_exhaustive()
    }
}

impl<R: Read, A: Allocator + Copy> PacketReader<R, A> {
    /// A reader that has read nothing. It keeps the allocator.
    pub fn new(alloc: A, reader: R) -> Result<Self, PacketIoError>
        ensures made { IsOk result }
        ensures new { IfOk result (λ new. new ≡ record {
          reader = reader;
          unread = [];
          held = [];
          lent = None;
          is_lost = false;
          skipped = None;
          copied = None;
          reads = 0;
        }) }
        ensures memory { IfErr result (λ error. error ≡ PacketIoError.OutOfMemory) }
    {
        let input = Input {
            reader,
            src: BytesMut::new(alloc),
            dst: Vec::new(alloc),
            lost: false,
            reads: 0,
        };
        Ok(PacketReader {
            input,
            lent: None,
            skipped: None,
            copied: None,
        })
    }

    /// Whether `next_packet` and `fill_packet` can go on with this codec: it stands at what is
    /// unread and held, or the reader is lost.
    pub fn fits(&self, codec: &PacketCodec) -> bool
        ensures { IsTrue result ↔ FitsAt self.now.is_lost (reading_state codec.now self.now) }
    {
        self.input.fits(codec, self.unread())
    }

    /// The bytes that were read and not yet handed out; those of a packet that is lent are not
    /// among them.
    pub fn unread(&self) -> &[u8]
        ensures { result.now ≡ self.now.unread }
    {
        match &self.lent {
            Some(Found::InFront(chunk)) => behind_front(self.input.src.as_slice(), *chunk),
            Some(Found::Copied(_)) | None => self.input.src.as_slice(),
        }
    }

    /// Drops this many of the unread bytes, as `BufRead::consume` does: those of packets that were
    /// passed on as they lie, say, which `PacketCodec::front_packet_in` finds in `unread`. The codec
    /// is to be after them then: `fits` tells. It asks that no packet is lent.
    ///
    /// <https://dev.mysql.com/doc/dev/mysql-server/latest/page_protocol_basic_packets.html>
    pub fn consume(&mut self, count: usize)
        requires count { count ≤ length self.old.unread }
        requires none { IsNone self.old.lent }
        ensures { self.new ≡ record self.old { unread = drop count self.old.unread } }
    {
        self.input.src.advance(count);
    }

    /// How many reads were made; past `u64::MAX` it stays there.
    pub fn reads(&self) -> u64
        ensures { result ≡ self.now.reads }
    {
        self.input.reads
    }

    /// The reader. What was read and not yet handed out is gone.
    pub fn into_inner(self) -> R
        ensures { result ≡ self.reader }
    {
        self.input.reader
    }

    /// The next packet, or `None` where the input ends between two packets. It decodes what was
    /// read, and reads only while no packet is whole and more bytes are needed.
    ///
    /// It asks that the codec fits; `fits` is the test. After every answer it fits again, and the
    /// call may be made again: after `UnexpectedEnd` and `Io` it reads again, after
    /// `PacketTooLarge` a larger limit goes on at the same header. After `PacketsOutOfSync` the
    /// reader is lost, and each later call answers the same and touches nothing.
    ///
    /// A packet that is lent is the next one. Where memory to copy it is refused it stays lent.
    #[inline(always)]
    pub fn next_packet(
        &mut self,
        codec: &mut PacketCodec,
    ) -> Result<Option<Vec<u8, A>>, PacketIoError>
        requires { FitsAt self.old.is_lost (reading_state codec.old self.old) }
        ensures next { IsFalse self.old.is_lost → IsNone self.old.lent
            → ReadsPacket R.remaining codec.old self.old (answer_of result) codec.new self.new }
        ensures lent { IsFalse self.old.is_lost → IsSome self.old.lent
            → HandsOutLent (answer_of result) self.old self.new × (codec.new ≡ codec.old) }
        ensures taken { IsNone self.old.lent → IsNone self.new.lent }
        ensures lost { IsTrue self.old.is_lost → (result ≡ Err PacketIoError.PacketsOutOfSync)
            × (self.new ≡ self.old) × (codec.new ≡ codec.old) }
        ensures fits { FitsAt self.new.is_lost (reading_state codec.new self.new) }
        ensures loses { IsTrue self.new.is_lost ↔ (result ≡ Err PacketIoError.PacketsOutOfSync) }
        ensures rest { (self.new.skipped ≡ self.old.skipped) × (self.new.copied ≡ self.old.copied)
            × (codec.new.max_allowed_packet ≡ codec.old.max_allowed_packet) }
    {
        if self.input.lost {
            return Err(PacketIoError::PacketsOutOfSync);
        }
        if self.lent.is_some() {
            return self.hand_out();
        }
        apart(self.input.next(codec, false))
    }

    // Hands out the packet that is lent.
    // No call: room for its answer would be zeroed for each packet.
    #[inline]
    fn hand_out(&mut self) -> Result<Option<Vec<u8, A>>, PacketIoError>
        requires { IsSome self.old.lent }
        ensures { HandsOutLent (answer_of result) self.old self.new }
    {
        match self.lent.take() {
            None => Ok(None),
            Some(Found::Copied(packet)) => Ok(Some(packet)),
            Some(Found::InFront(chunk)) => {
                let alloc = *self.input.dst.allocator();
                match Vec::from_slice(alloc, front_payload(self.input.src.as_slice(), chunk)) {
                    Ok(packet) => {
                        self.input.skip_front(chunk);
                        Ok(Some(packet))
                    }
                    Err(_) => {
                        self.lent = Some(Found::InFront(chunk));
                        Err(PacketIoError::OutOfMemory)
                    }
                }
            }
        }
    }
}

// The packet that was put together, of an answer that lends none in front.
fn apart<A: Allocator + Copy>(
    found: Result<Option<Found<A>>, PacketIoError>,
) -> Result<Option<Vec<u8, A>>, PacketIoError>
    requires { IsCopied (found_in found) }
    ensures packet { (src : List ℕ) → answer_of result ≡ answer_over found src }
    ensures refused { (error : PacketIoError) → (result ≡ Err error) ↔ (found ≡ Err error) }
{
    match found? {
        Some(Found::Copied(packet)) => Ok(Some(packet)),
        Some(Found::InFront(_)) => unreachable!(),
        None => Ok(None),
    }
}

// A packet that is skipped.
impl<R: Read, A: Allocator + Copy> PacketReader<R, A> {
    /// Whether `skip_packet` can go on with this codec. In the midst of a packet that is skipped:
    /// whether the chunk that is being dropped, with those before it, is within the codec's limit
    /// still. Otherwise as `fits`.
    pub fn can_skip(&self, codec: &PacketCodec) -> bool
        ensures { IsTrue result ↔ CanSkip codec.now self.now }
    {
        match &self.skipped {
            Some(skipped) => codec.may_skip(self.unread(), skipped),
            None => self.fits(codec),
        }
    }

    /// Reads to the end of the next packet, and hands nothing out: true where a packet was
    /// skipped, false where the input ends between two packets. It answers and refuses as
    /// `next_packet` does, after the same reads; the limit counts over the whole packet. What it
    /// keeps is the buffer of one read, whatever the packet's size, and what is held of the packet
    /// is freed. A packet that is lent is the one that is skipped.
    ///
    /// After `Io`, `UnexpectedEnd`, `PacketTooLarge` and `OutOfMemory` the call may be made again
    /// and goes on. Where a part of the packet is gone, the reader is lost until it has: till then
    /// `next_packet` and `fill_packet` answer `PacketsOutOfSync` and touch nothing. A new limit
    /// must not be below what was accepted of the packet: `can_skip` is the test.
    ///
    /// <https://dev.mysql.com/doc/dev/mysql-server/latest/page_protocol_basic_packets.html>
    pub fn skip_packet(&mut self, codec: &mut PacketCodec) -> Result<bool, PacketIoError>
        requires { IsNone self.old.lent → CanSkip codec.old self.old }
        ensures lent { IsSome self.old.lent → (result ≡ Ok true)
            × (self.new ≡ record self.old { lent = None }) × (codec.new ≡ codec.old) }
        ensures lost { IsNone self.old.lent → IsNone self.old.skipped → IsTrue self.old.is_lost
            → (result ≡ Err PacketIoError.PacketsOutOfSync) × (self.new ≡ self.old)
            × (codec.new ≡ codec.old) }
        ensures skips { IsNone self.old.lent → IsNone self.old.skipped → IsFalse self.old.is_lost
            → SkipsNext R.remaining (reading_state codec.old self.old) self.old
            result codec.new self.new }
        ensures goes_on { IsNone self.old.lent → IsSome self.old.skipped
            → SkipsOn R.remaining codec.old self.old result codec.new self.new }
        ensures under_way { IsNone self.old.lent → IfSome self.new.skipped (λ skipped.
            ((0 < skipped.held) ⊎ IsSome skipped.begun) × IsTrue self.new.is_lost) }
        ensures ended { IfOk result (λ _. IsNone self.old.lent → IsNone self.new.skipped
            × IsFalse self.new.is_lost × (self.new.held ≡ [])) }
        ensures loses { IsNone self.old.lent → IsTrue self.new.is_lost
            ↔ (IsSome self.new.skipped ⊎ (result ≡ Err PacketIoError.PacketsOutOfSync)) }
        ensures taken { IsNone self.new.lent }
        ensures can { IsNone self.old.lent → CanSkip codec.new self.new }
        ensures rest { (self.new.copied ≡ self.old.copied)
            × (codec.new.max_allowed_packet ≡ codec.old.max_allowed_packet) }
    {
        if self.lent.is_some() {
            self.take_packet();
            return Ok(true);
        }
        if self.is_stuck() {
            return Err(PacketIoError::PacketsOutOfSync);
        }
        let mut skipped = self.skipped_so_far();
        let result = self.go_on_skipping(codec, &mut skipped);
        if skipped.is_under_way() {
            self.input.lost = true;
            self.skipped = Some(skipped);
        }
        result
    }

    // Whether a chunk of another id has come.
    fn is_stuck(&self) -> bool
        ensures { IsTrue result ↔ (IsTrue self.now.is_lost × IsNone self.now.skipped) }
    {
        self.input.lost && self.skipped.is_none()
    }

    // What was dropped of the packet, with what is held of it.
    fn skipped_so_far(&self) -> Skipped
        ensures { result ≡ skipped_at self.now }
    {
        match self.skipped {
            Some(skipped) => skipped,
            None => Skipped::behind(self.input.dst.len()),
        }
    }

    // Goes on with a packet of which so much was dropped.
    fn go_on_skipping(
        &mut self,
        codec: &mut PacketCodec,
        skipped: &mut Skipped,
    ) -> Result<bool, PacketIoError>
        requires none { IsNone self.old.lent }
        requires may { MaySkip skipped.old codec.old self.old.unread }
        ensures skips { SkipsOn R.remaining codec.old (skipping skipped.old self.old)
            result codec.new (skipping skipped.new self.new) }
        ensures loses { IsTrue self.new.is_lost ↔ (result ≡ Err PacketIoError.PacketsOutOfSync) }
        ensures ended { IfOk result (λ _. (skipped.new.held ≡ 0) × (skipped.new.begun ≡ None)) }
        ensures held { self.new.held ≡ [] }
        ensures none { IsNone self.new.lent }
        ensures whole { IsNone self.new.skipped }
        ensures copied { self.new.copied ≡ self.old.copied }
        ensures limit { codec.new.max_allowed_packet ≡ codec.old.max_allowed_packet }
    {
        self.lent = None;
        self.skipped = None;
        self.input.begin_skip();
        self.input.skip(codec, skipped)
    }
}

// A packet that is lent.
impl<R: Read, A: Allocator + Copy> PacketReader<R, A> {
    /// Whether `fill_packet` would answer true without a read, with this codec: a packet is lent,
    /// or the next one lies whole in one chunk in what was read.
    pub fn is_ready(&self, codec: &PacketCodec) -> bool
        ensures ready { IsTrue result ↔ (IsFalse self.now.is_lost
            × (IsSome self.now.lent ⊎ HasFront (reading_state codec.now self.now))) }
        ensures decodes { let state = reading_state codec.now self.now in
            IsTrue result → IsNone self.now.lent → Stands state
            → DecodesPacket state (Ok true) (behind state) }
    {
        if self.input.lost {
            return false;
        }
        match &self.lent {
            Some(_) => true,
            None => codec
                .front_packet(&self.input.src, self.input.dst.as_slice())
                .is_some(),
        }
    }

    /// Reads until the next packet is whole, and lends it: true. `packet` is the packet then, and
    /// `take_packet` takes it. False where the input ends between two packets. It answers and
    /// refuses as `next_packet` does, and asks for the same; the packet's bytes stay in the
    /// reader's buffer where they lie whole in one chunk, and are put together where they don't.
    ///
    /// The codec is after the packet from then on. Where a packet is lent already it answers
    /// true, and nothing is read.
    #[inline(always)]
    pub fn fill_packet(&mut self, codec: &mut PacketCodec) -> Result<bool, PacketIoError>
        requires { FitsAt self.old.is_lost (reading_state codec.old self.old) }
        ensures fills { IsFalse self.old.is_lost → IsNone self.old.lent
            → ReadsPacket R.remaining codec.old self.old
            (answer_lent result self.new.lent) codec.new self.new }
        ensures again { IsFalse self.old.is_lost → IsSome self.old.lent
            → (result ≡ Ok true) × (self.new ≡ self.old) × (codec.new ≡ codec.old) }
        ensures lends { IfOk result (λ ready. (IsTrue ready ↔ IsSome self.new.lent)
            × IsFalse self.new.is_lost) }
        ensures refused { OnErr result (self.new.lent ≡ self.old.lent) }
        ensures lost { IsTrue self.old.is_lost → (result ≡ Err PacketIoError.PacketsOutOfSync)
            × (self.new ≡ self.old) × (codec.new ≡ codec.old) }
        ensures fits { FitsAt self.new.is_lost (reading_state codec.new self.new) }
        ensures loses { IsTrue self.new.is_lost ↔ (result ≡ Err PacketIoError.PacketsOutOfSync) }
        ensures rest { (self.new.skipped ≡ self.old.skipped) × (self.new.copied ≡ self.old.copied)
            × (codec.new.max_allowed_packet ≡ codec.old.max_allowed_packet) }
    {
        if self.input.lost {
            return Err(PacketIoError::PacketsOutOfSync);
        }
        if self.lent.is_some() {
            return Ok(true);
        }
        // No room is made for a refusal where there is none.
        if let Some(chunk) = self.input.find_front(codec) {
            self.lent = Some(Found::InFront(chunk));
            return Ok(true);
        }
        self.fill_by_reads(codec)
    }

    // `fill_packet` where no packet lies whole in front. A call would have the codec and the reader
    // in memory for each packet that does.
    #[inline(always)]
    fn fill_by_reads(&mut self, codec: &mut PacketCodec) -> Result<bool, PacketIoError>
        requires fits { FitsAt self.old.is_lost (reading_state codec.old self.old) }
        requires found { IsFalse self.old.is_lost }
        requires none { IsNone self.old.lent }
        ensures fills { ReadsPacket R.remaining codec.old self.old
            (answer_lent result self.new.lent) codec.new self.new }
        ensures lends { IfOk result (λ ready. (IsTrue ready ↔ IsSome self.new.lent)
            × IsFalse self.new.is_lost) }
        ensures refused { OnErr result (IsNone self.new.lent) }
        ensures fits { FitsAt self.new.is_lost (reading_state codec.new self.new) }
        ensures loses { IsTrue self.new.is_lost ↔ (result ≡ Err PacketIoError.PacketsOutOfSync) }
        ensures rest { (self.new.skipped ≡ self.old.skipped) × (self.new.copied ≡ self.old.copied)
            × (codec.new.max_allowed_packet ≡ codec.old.max_allowed_packet) }
    {
        match self.input.next(codec, true) {
            Ok(found) => {
                self.lent = found;
                Ok(self.lent.is_some())
            }
            Err(error) => Err(error),
        }
    }

    /// The packet that is lent: in the reader's buffer where it lies whole there. Nothing is taken,
    /// and no memory is asked for. Without one it has no bytes.
    pub fn packet(&self) -> &[u8]
        ensures { MatchOption self.now.lent (result.now ≡ []) (λ packet. result.now ≡ packet) }
    {
        match &self.lent {
            None => &[],
            Some(Found::InFront(chunk)) => front_payload(self.input.src.as_slice(), *chunk),
            Some(Found::Copied(packet)) => packet.as_slice(),
        }
    }

    /// Takes the packet that is lent, after the last use of what `packet` answered. It asks for no
    /// memory. Without one nothing changes.
    pub fn take_packet(&mut self)
        ensures { self.new ≡ record self.old { lent = None } }
    {
        match &self.lent {
            Some(Found::InFront(chunk)) => {
                let chunk = *chunk;
                self.lent = None;
                self.input.skip_front(chunk);
            }
            Some(Found::Copied(_)) | None => self.lent = None,
        }
    }
}
