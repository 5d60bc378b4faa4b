//! The loop that passes a packet on to a writer of packets, with other sequence ids.

ghost use Rattle.std.specs.Prelude.{◌≡◌, ℕ, ◌+◌, ◌<◌, ◌≤◌, length, IsFalse};
ghost use Rattle.wire_span.specs.Spans.{span_state};
ghost use Rattle.wire_span.specs.Passing.{left_in, most_bytes};
ghost use Rattle.wire_packet_io.specs.Copying.{has_ended};
ghost use Rattle.wire_packet_io.specs.Lending.{lender};
ghost use Rattle.wire_packet_io.specs.Relaying.{EndsRelay, IsUncut, RelayStops, Relays, RelaysTo, StepsRelay};

use super::Input;
use super::copy::refusal;
use crate::error::PacketIoError;
use crate::writer::PacketWriter;
use std::alloc::Allocator;
use std::io::{Read, Write};
use wire_codec::codec::header::{HEADER_LEN, Header};
use wire_span::SpanDecoder;

impl<R: Read, A: Allocator + Copy> Input<R, A> {
    // Moves what came of the open chunk after what is pending: whether that ended the packet.
    // `None` where nothing of it is there.
    fn relay_bytes<W: Write, B: Allocator + Copy>(
        &mut self,
        decoder: &mut SpanDecoder,
        writer: &mut PacketWriter<W, B>,
    ) -> Result<Option<bool>, PacketIoError>
        requires open { 0 < left_in (span_state decoder.old).place }
        requires uncut { IsUncut decoder.old }
        ensures steps { (id : ℕ) → StepsRelay result (span_state decoder.old) id
            self.old.src.items writer.old.pending (span_state decoder.new) id
            self.new.src.items writer.new.pending }
        ensures kept { IsUncut decoder.new
            × (decoder.new.max_allowed_packet ≡ decoder.old.max_allowed_packet)
            × (self.new ≡ record self.old { src = self.new.src })
            × (writer.new.writer ≡ writer.old.writer) }
    {
        let len = decoder.chunk_left().min(self.src.len());
        if len == 0 {
            return Ok(None);
        }
        match writer.put(&self.src.as_slice()[..len]) {
            Ok(()) => {
                self.src.advance(len);
                Ok(Some(decoder.pass_bytes(len)))
            }
            Err(error) => Err(error),
        }
    }

    // Moves the header in front, with the next id, or the bytes there: whether that ended the
    // packet. `None` where more has to come first.
    fn relay_front<W: Write, B: Allocator + Copy>(
        &mut self,
        decoder: &mut SpanDecoder,
        writer: &mut PacketWriter<W, B>,
        next_id: &mut u8,
    ) -> Result<Option<bool>, PacketIoError>
        requires uncut { IsUncut decoder.old }
        ensures steps { StepsRelay result (span_state decoder.old) next_id.old
            self.old.src.items writer.old.pending (span_state decoder.new) next_id.new
            self.new.src.items writer.new.pending }
        ensures kept { IsUncut decoder.new
            × (decoder.new.max_allowed_packet ≡ decoder.old.max_allowed_packet)
            × (self.new ≡ record self.old { src = self.new.src })
            × (writer.new.writer ≡ writer.old.writer) }
    {
        if decoder.chunk_left() > 0 {
            return self.relay_bytes(decoder, writer);
        }
        let Some(header) = Header::read(self.src.as_slice()) else {
            return Ok(None);
        };
        let mut behind = *decoder;
        let ended = match behind.pass_header(header) {
            Ok(ended) => ended,
            Err(error) => return Err(refusal(error)),
        };
        let sent = Header {
            len: header.len,
            seq_id: *next_id,
        };
        match writer.put(&sent.bytes()) {
            Ok(()) => {
                self.src.advance(HEADER_LEN);
                *decoder = behind;
                *next_id = next_id.wrapping_add(1); // after 255 comes 0
                Ok(Some(ended))
            }
            Err(error) => Err(error),
        }
    }

    // Moves what is there of the packet: whether it has ended.
    fn relay_unread<W: Write, B: Allocator + Copy>(
        &mut self,
        decoder: &mut SpanDecoder,
        writer: &mut PacketWriter<W, B>,
        next_id: &mut u8,
    ) -> Result<bool, PacketIoError>
        requires uncut { IsUncut decoder.old }
        ensures goes { Relays (has_ended result) (span_state decoder.old) next_id.old
            self.old.src.items writer.old.pending (span_state decoder.new) next_id.new
            self.new.src.items writer.new.pending }
        ensures ends { EndsRelay result (span_state decoder.new) self.new.src.items }
        ensures fewer { IsFalse (has_ended result)
            → most_bytes (span_state decoder.new) + length self.old.src.items
            ≤ most_bytes (span_state decoder.old) + length self.new.src.items }
        ensures kept { IsUncut decoder.new
            × (decoder.new.max_allowed_packet ≡ decoder.old.max_allowed_packet)
            × (self.new ≡ record self.old { src = self.new.src })
            × (writer.new.writer ≡ writer.old.writer) }
    {
        'steps: loop {
            match self.relay_front(decoder, writer, next_id) {
                Ok(Some(true)) => return Ok(true),
                Ok(Some(false)) => {}
                Ok(None) => return Ok(false),
                Err(error) => return Err(error),
            }
        }
    }

    /// Moves the next packet after what is pending, with ids from the next one on: true where it
    /// has ended, false where the input ends between two packets. All that is pending is written
    /// before each read.
    pub(crate) fn relay<W: Write, B: Allocator + Copy>(
        &mut self,
        decoder: &mut SpanDecoder,
        writer: &mut PacketWriter<W, B>,
        next_id: &mut u8,
    ) -> Result<bool, PacketIoError>
        requires uncut { IsUncut decoder.old }
        ensures relays { RelaysTo R.remaining W.contents
            (span_state decoder.old) (lender None self.old) next_id.old writer.old result
            (span_state decoder.new) (lender None self.new) next_id.new writer.new }
        ensures stops { RelayStops result (span_state decoder.new) self.new.src.items
            (R.remaining self.new.reader) writer.new.pending }
        ensures kept { IsUncut decoder.new
            × (self.new.dst ≡ self.old.dst) × (self.new.lost ≡ self.old.lost)
            × (decoder.new.max_allowed_packet ≡ decoder.old.max_allowed_packet) }
    {
        'reads: loop {
            match self.relay_unread(decoder, writer, next_id) {
                Ok(true) => return Ok(true),
                Ok(false) => {}
                Err(error) => return Err(error),
            }
            match writer.write_pending() {
                Ok(()) => {}
                Err(error) => return Err(error),
            }
            match self.read_more() {
                Ok(0) => return self.at_copys_end(decoder),
                Ok(_) => {}
                Err(error) => return Err(error),
            }
        }
    }
}
