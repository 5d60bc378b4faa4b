//! A packet that is passed on.

ghost use Rattle.std.specs.Prelude.{◌≡◌, ◌↔◌, ◌⊎◌, [], None, Err, IfOk, IsNone, IsSome, IsTrue, IsFalse};
ghost use Rattle.wire_codec.specs.Codec.{header_of};
ghost use Rattle.wire_span.specs.Spans.{header_came, span_state};
ghost use Rattle.wire_packet_io.specs.Copying.{copied_to, CanCopy, HasPlace};
ghost use Rattle.wire_packet_io.specs.Relaying.{RelayStops, RelaysPacket, RelaysTo};

use super::PacketReader;
use crate::error::PacketIoError;
use crate::writer::PacketWriter;
use std::alloc::Allocator;
use std::io::{Read, Write};
use wire_codec::codec::PacketCodec;
use wire_span::SpanDecoder;

impl<R: Read, A: Allocator + Copy> PacketReader<R, A> {
    /// Passes the next packet on to a writer, with the ids of the writer's codec: true where it has
    /// ended, false where the input ends between two packets. Its chunks keep their lengths. What
    /// is kept of it is what one read brings, and as much after what is pending, whatever its
    /// size; the limit of the reader's codec counts.
    ///
    /// All that is pending is written, and flushed, before each read. The packet's last bytes are
    /// pending as after `queue`: `write_pending` writes them, once for many packets.
    ///
    /// It asks for a reader between two packets, with nothing lent or held; `can_copy` is the test.
    /// A chunk is refused as soon as its header has come, with `PacketTooLarge` or
    /// `PacketsOutOfSync`, and nothing of it goes. After `Io`, `WriteZero`, `UnexpectedEnd`,
    /// `PacketTooLarge` and `OutOfMemory` the call may be made again and goes on at the same byte
    /// of both sides. Where a part of the packet is gone, the reader is lost until it has ended, as
    /// with `copy_packet`.
    ///
    /// <https://dev.mysql.com/doc/dev/mysql-server/latest/page_protocol_basic_packets.html>
    #[inline(always)]
    pub fn relay_packet<W: Write, B: Allocator + Copy>(
        &mut self,
        codec: &mut PacketCodec,
        writer: &mut PacketWriter<W, B>,
        writer_codec: &mut PacketCodec,
    ) -> Result<bool, PacketIoError>
        requires { CanCopy codec.old self.old }
        ensures lost { IsNone self.old.copied → IsTrue self.old.is_lost
            → (result ≡ Err PacketIoError.PacketsOutOfSync) × (self.new ≡ self.old)
            × (codec.new ≡ codec.old) × (writer.new ≡ writer.old) }
        ensures lost_other { IsNone self.old.copied → IsTrue self.old.is_lost
            → writer_codec.new ≡ writer_codec.old }
        ensures relays { HasPlace self.old → RelaysPacket R.remaining W.contents
            codec.old self.old writer_codec.old writer.old result
            codec.new self.new writer_codec.new writer.new }
        ensures stops { HasPlace self.old
            → RelayStops result (copied_to self.new.copied codec.new) self.new.unread
            (R.remaining self.new.reader) writer.new.pending }
        ensures ended { IfOk result (λ _. IsNone self.new.copied × IsFalse self.new.is_lost) }
        ensures header { HasPlace self.old → IsNone self.new.copied → header_of codec.new ≡ None }
        ensures under_way { IsSome self.new.copied → codec.new ≡ codec.old }
        ensures loses { IsTrue self.new.is_lost
            ↔ (IsSome self.new.copied ⊎ (result ≡ Err PacketIoError.PacketsOutOfSync)) }
        ensures rest { (self.new.held ≡ self.old.held) × (self.new.lent ≡ self.old.lent)
            × (self.new.skipped ≡ self.old.skipped)
            × (codec.new.max_allowed_packet ≡ codec.old.max_allowed_packet) }
        ensures can { CanCopy codec.new self.new }
        ensures other { (header_of writer_codec.new ≡ header_of writer_codec.old)
            × (writer_codec.new.max_allowed_packet ≡ writer_codec.old.max_allowed_packet) }
    {
        if !self.input.lost
            && self.copied.is_none()
            && self.relay_whole(codec, writer, writer_codec)
        {
            return Ok(true);
        }
        self.relay_by_steps(codec, writer, writer_codec)
    }

    // The same of any packet, step by step. It stands apart, so that the one above is small.
    fn relay_by_steps<W: Write, B: Allocator + Copy>(
        &mut self,
        codec: &mut PacketCodec,
        writer: &mut PacketWriter<W, B>,
        writer_codec: &mut PacketCodec,
    ) -> Result<bool, PacketIoError>
        requires { CanCopy codec.old self.old }
        ensures lost { IsNone self.old.copied → IsTrue self.old.is_lost
            → (result ≡ Err PacketIoError.PacketsOutOfSync) × (self.new ≡ self.old)
            × (codec.new ≡ codec.old) × (writer.new ≡ writer.old) }
        ensures lost_other { IsNone self.old.copied → IsTrue self.old.is_lost
            → writer_codec.new ≡ writer_codec.old }
        ensures relays { HasPlace self.old → RelaysPacket R.remaining W.contents
            codec.old self.old writer_codec.old writer.old result
            codec.new self.new writer_codec.new writer.new }
        ensures stops { HasPlace self.old
            → RelayStops result (copied_to self.new.copied codec.new) self.new.unread
            (R.remaining self.new.reader) writer.new.pending }
        ensures ended { IfOk result (λ _. IsNone self.new.copied × IsFalse self.new.is_lost) }
        ensures header { HasPlace self.old → IsNone self.new.copied → header_of codec.new ≡ None }
        ensures under_way { IsSome self.new.copied → codec.new ≡ codec.old }
        ensures loses { IsTrue self.new.is_lost
            ↔ (IsSome self.new.copied ⊎ (result ≡ Err PacketIoError.PacketsOutOfSync)) }
        ensures rest { (self.new.held ≡ self.old.held) × (self.new.lent ≡ self.old.lent)
            × (self.new.skipped ≡ self.old.skipped)
            × (codec.new.max_allowed_packet ≡ codec.old.max_allowed_packet) }
        ensures can { CanCopy codec.new self.new }
        ensures other { (header_of writer_codec.new ≡ header_of writer_codec.old)
            × (writer_codec.new.max_allowed_packet ≡ writer_codec.old.max_allowed_packet) }
    {
        if self.input.lost && self.copied.is_none() {
            return Err(PacketIoError::PacketsOutOfSync);
        }
        let mut decoder = self.copied_so_far(codec);
        let mut next_id = writer_codec.sequence_id();
        let result = self.go_on_relaying(&mut decoder, writer, &mut next_id);
        let is_lost = matches!(&result, Err(PacketIoError::PacketsOutOfSync));
        self.keep_place(codec, decoder, is_lost);
        writer_codec.set_sequence_id(next_id);
        result
    }

    // Goes on from there.
    fn go_on_relaying<W: Write, B: Allocator + Copy>(
        &mut self,
        decoder: &mut SpanDecoder,
        writer: &mut PacketWriter<W, B>,
        next_id: &mut u8,
    ) -> Result<bool, PacketIoError>
        requires none { IsNone self.old.lent }
        requires held { self.old.held ≡ [] }
        requires uncut { header_came (span_state decoder.old).place ≡ [] }
        ensures relays { RelaysTo R.remaining W.contents
            (span_state decoder.old) self.old next_id.old writer.old result
            (span_state decoder.new) self.new next_id.new writer.new }
        ensures stops { RelayStops result (span_state decoder.new) self.new.unread
            (R.remaining self.new.reader) writer.new.pending }
        ensures uncut { header_came (span_state decoder.new).place ≡ [] }
        ensures none { IsNone self.new.lent }
        ensures held { self.new.held ≡ [] }
        ensures rest { (self.new.held ≡ self.old.held) × (self.new.skipped ≡ self.old.skipped)
            × (self.new.copied ≡ self.old.copied) × (self.new.is_lost ≡ self.old.is_lost) }
        ensures limit { decoder.new.max_allowed_packet ≡ decoder.old.max_allowed_packet }
    {
        self.lent = None;
        self.input.relay(decoder, writer, next_id)
    }
}
