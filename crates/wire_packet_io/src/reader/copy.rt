//! A packet that is copied.

ghost use Rattle.std.specs.Prelude.{◌≡◌, ◌↔◌, ◌⊎◌, [], None, Some, Err, IfOk, IfSome, IsNone, IsSome, IsTrue, IsFalse};
ghost use Rattle.wire_codec.specs.Codec.{header_of};
ghost use Rattle.wire_span.specs.Spans.{header_came, span_state, IsBetween};
ghost use Rattle.wire_packet_io.specs.Copying.{copied_to, CanCopy, CopiesTo, CopyStops, HasPlace};

use super::PacketReader;
use crate::error::PacketIoError;
use std::alloc::Allocator;
use std::io::{Read, Write};
use wire_codec::codec::PacketCodec;
use wire_span::SpanDecoder;

impl<R: Read, A: Allocator + Copy> PacketReader<R, A> {
    /// Whether `copy_packet` can go on with this codec: between two packets where it fits, or in
    /// the midst of a packet that is copied.
    pub fn can_copy(&self, codec: &PacketCodec) -> bool
        ensures { IsTrue result ↔ CanCopy codec.now self.now }
    {
        match &self.copied {
            Some(decoder) => {
                decoder.partial_header_len() == 0
                    && self.input.dst.is_empty()
                    && self.lent.is_none()
            }
            None => {
                self.input.lost
                    || (self.fits(codec) && self.input.dst.is_empty() && self.lent.is_none())
            }
        }
    }

    /// Writes the bytes of the next packet, without its headers, as they come: true where it has
    /// ended, false where the input ends between two packets. No more is kept of it than one read
    /// brings, whatever its size. A read is of 8192 bytes at most; where more are to come of a chunk,
    /// of those, up to 65536. As `std::io::copy` it doesn't flush.
    ///
    /// It asks for a reader between two packets, with nothing lent or held; `can_copy` is the test.
    /// A chunk is refused as soon as its header has come, with `PacketTooLarge` where the packet
    /// would have more bytes than the limit, with `PacketsOutOfSync` where it bears another id, and
    /// nothing of it is written. After `Io`, `WriteZero`, `UnexpectedEnd`, `PacketTooLarge` and
    /// `OutOfMemory` the call may be made again and goes on: what the writer took is gone, and what
    /// it didn't take is not. Where a part of the packet is gone, the reader is lost until it has
    /// ended: till then the calls that read packets answer `PacketsOutOfSync` and touch nothing.
    ///
    /// <https://dev.mysql.com/doc/dev/mysql-server/latest/page_protocol_basic_packets.html>
    pub fn copy_packet<W: Write>(
        &mut self,
        codec: &mut PacketCodec,
        writer: &mut W,
    ) -> Result<bool, PacketIoError>
        requires { CanCopy codec.old self.old }
        ensures lost { IsNone self.old.copied → IsTrue self.old.is_lost
            → (result ≡ Err PacketIoError.PacketsOutOfSync) × (self.new ≡ self.old)
            × (codec.new ≡ codec.old) × (writer.new ≡ writer.old) }
        ensures copies { HasPlace self.old → CopiesTo R.remaining W.contents
            (copied_to self.old.copied codec.old) self.old writer.old result
            (copied_to self.new.copied codec.new) self.new writer.new }
        ensures stops { HasPlace self.old
            → CopyStops result (copied_to self.new.copied codec.new) self.new.unread
            (R.remaining self.new.reader) }
        ensures ended { IfOk result (λ _. IsNone self.new.copied × IsFalse self.new.is_lost) }
        ensures header { HasPlace self.old → IsNone self.new.copied → header_of codec.new ≡ None }
        ensures under_way { IsSome self.new.copied → codec.new ≡ codec.old }
        ensures loses { IsTrue self.new.is_lost
            ↔ (IsSome self.new.copied ⊎ (result ≡ Err PacketIoError.PacketsOutOfSync)) }
        ensures rest { (self.new.held ≡ self.old.held) × (self.new.lent ≡ self.old.lent)
            × (self.new.skipped ≡ self.old.skipped)
            × (codec.new.max_allowed_packet ≡ codec.old.max_allowed_packet) }
        ensures can { CanCopy codec.new self.new }
    {
        if self.input.lost && self.copied.is_none() {
            return Err(PacketIoError::PacketsOutOfSync);
        }
        match self.copy_begin(codec, writer) {
            Ok(true) => return Ok(true),
            Ok(false) => {}
            Err(error) => return Err(error),
        }
        let mut decoder = self.copied_so_far(codec);
        let result = self.go_on_copying(&mut decoder, writer);
        let is_lost = matches!(&result, Err(PacketIoError::PacketsOutOfSync));
        self.keep_place(codec, decoder, is_lost);
        result
    }

    // Where it is in the packet that is copied, under the codec's limit.
    pub(super) fn copied_so_far(&self, codec: &PacketCodec) -> SpanDecoder
        ensures { span_state result ≡ copied_to self.now.copied codec.now }
    {
        let mut decoder = SpanDecoder::default();
        match self.copied {
            Some(copied) => decoder = copied,
            None => decoder.set_sequence_id(codec.sequence_id()),
        }
        decoder.max_allowed_packet = codec.max_allowed_packet;
        decoder
    }

    // Goes on from there.
    fn go_on_copying<W: Write>(
        &mut self,
        decoder: &mut SpanDecoder,
        writer: &mut W,
    ) -> Result<bool, PacketIoError>
        requires none { IsNone self.old.lent }
        requires held { self.old.held ≡ [] }
        requires uncut { header_came (span_state decoder.old).place ≡ [] }
        ensures copies { CopiesTo R.remaining W.contents
            (span_state decoder.old) self.old writer.old result
            (span_state decoder.new) self.new writer.new }
        ensures stops { CopyStops result (span_state decoder.new) self.new.unread
            (R.remaining self.new.reader) }
        ensures uncut { header_came (span_state decoder.new).place ≡ [] }
        ensures none { IsNone self.new.lent }
        ensures held { self.new.held ≡ [] }
        ensures rest { (self.new.held ≡ self.old.held) × (self.new.skipped ≡ self.old.skipped)
            × (self.new.copied ≡ self.old.copied) × (self.new.is_lost ≡ self.old.is_lost) }
        ensures limit { decoder.new.max_allowed_packet ≡ decoder.old.max_allowed_packet }
    {
        self.lent = None;
        self.input.copy(decoder, writer)
    }

    // Keeps the place in the packet, or, where it has ended, puts the codec after it.
    pub(super) fn keep_place(
        &mut self,
        codec: &mut PacketCodec,
        decoder: SpanDecoder,
        is_lost: bool,
    )
        requires limit { decoder.max_allowed_packet ≡ codec.old.max_allowed_packet }
        ensures place { copied_to self.new.copied codec.new ≡ span_state decoder }
        ensures between { IsNone self.new.copied ↔ IsBetween (span_state decoder) }
        ensures kept { IfSome self.new.copied (λ copied. copied ≡ decoder) }
        ensures header { IsNone self.new.copied → header_of codec.new ≡ None }
        ensures under_way { IsSome self.new.copied → codec.new ≡ codec.old }
        ensures lost { IsTrue self.new.is_lost ↔ (IsSome self.new.copied ⊎ IsTrue is_lost) }
        ensures rest { self.new ≡ record self.old {
          copied = self.new.copied;
          is_lost = self.new.is_lost;
        } }
        ensures limit { codec.new.max_allowed_packet ≡ codec.old.max_allowed_packet }
    {
        self.copied = Some(decoder);
        if decoder.is_between_packets() {
            self.copied = None;
            codec.begin_at(decoder.sequence_id());
        }
        self.input.lost = self.copied.is_some() || is_lost;
    }
}
