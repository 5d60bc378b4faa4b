//! The loop that writes a packet's bytes as they come.

ghost use Rattle.std.specs.Io.KnownBytes.{WriteAppends};
ghost use Rattle.std.specs.Prelude.{◌≡◌, ◌+◌, ◌<◌, ◌≤◌, ℕ, List, [], length, Option, None, true, false, Ok, IfOk, OnErr, IfErr, IsTrue, IsFalse, Bool};
ghost use Rattle.wire_span.specs.Spans.{header_came, span_state, IsBetween};
ghost use Rattle.wire_span.specs.Passing.{left_in, most_bytes};
ghost use Rattle.wire_packet_io.specs.Copying.{has_ended, Copies, CopiesTo, CopyStops, EndsCopy, IsSpanRefusal, StepsCopy, StopsHere, WaitsHere};
ghost use Rattle.wire_packet_io.specs.Lending.{lender};

use super::{Input, READ_SIZE};
use crate::error::PacketIoError;
use std::alloc::Allocator;
use std::io;
use std::io::{ErrorKind, Read, Write};
use wire_codec::codec::header::{HEADER_LEN, Header};
use wire_span::{SpanDecoder, SpanError};

// Goes on where a write of these bytes was answered so. One of which nothing was taken is offered again,
// as long as a read of most packets: a writer that takes a write whole or not at all may take no more.
#[cold]
#[inline(never)]
fn offer_front<W: Write>(
    writer: &mut W,
    bytes: &[u8],
    answer: io::Result<usize>,
) -> io::Result<usize>
    requires { IfOk answer (λ count. count ≤ length bytes.now) }
    ensures bound { IfOk result (λ count. count ≤ length bytes.now) }
    ensures bytes { (before : Option (List ℕ))
        → WriteAppends before (W.contents writer.old) answer bytes.now
        → WriteAppends before (W.contents writer.new) result bytes.now }
{
    let count = match answer {
        Ok(count) if count > 0 => count,
        Err(error) if error.kind() == ErrorKind::Interrupted => return Err(error),
        answer => {
            let len = bytes.len().min(READ_SIZE);
            if len == bytes.len() {
                return answer;
            }
            writer.write(&bytes[..len])?
        }
    };
    Ok(count)
}

// Writes a front of these bytes. The answer is how many.
fn write_front<W: Write>(writer: &mut W, bytes: &[u8]) -> io::Result<usize>
    ensures bound { IfOk result (λ count. count ≤ length bytes.now) }
    ensures bytes { WriteAppends (W.contents writer.old) (W.contents writer.new) result bytes.now }
{
    match writer.write(bytes) {
        Ok(count) if count > 0 => Ok(count),
        answer => offer_front(writer, bytes, answer),
    }
}

// The reader's name for a refusal of a header.
pub(super) fn refusal(error: SpanError) -> PacketIoError
    ensures { IsSpanRefusal error result }
{
    match error {
        SpanError::PacketTooLarge => PacketIoError::PacketTooLarge,
        SpanError::PacketsOutOfSync => PacketIoError::PacketsOutOfSync,
    }
}

impl<R: Read, A: Allocator + Copy> Input<R, A> {
    // Writes what came of the open chunk, and drops what the writer took: whether that ended the
    // packet. `None` where nothing of it is there.
    #[inline]
    fn copy_bytes<W: Write>(
        &mut self,
        decoder: &mut SpanDecoder,
        writer: &mut W,
    ) -> Result<Option<bool>, PacketIoError>
        requires open { 0 < left_in (span_state decoder.old).place }
        requires uncut { header_came (span_state decoder.old).place ≡ [] }
        ensures steps { StepsCopy result (span_state decoder.old) self.old.src.items
            (W.contents writer.old) (span_state decoder.new) self.new.src.items
            (W.contents writer.new) }
        ensures kept { (header_came (span_state decoder.new).place ≡ [])
            × (decoder.new.max_allowed_packet ≡ decoder.old.max_allowed_packet)
            × (self.new ≡ record self.old { src = self.new.src }) }
    {
        let len = decoder.chunk_left().min(self.src.len());
        if len == 0 {
            return Ok(None);
        }
        match write_front(writer, &self.src.as_slice()[..len]) {
            Ok(0) => Err(PacketIoError::WriteZero),
            Ok(count) => {
                self.src.advance(count);
                Ok(Some(decoder.pass_bytes(count)))
            }
            Err(error) => Err(PacketIoError::Io(error)),
        }
    }

    // Drops the header in front, or writes the bytes there: whether that ended the packet. `None`
    // where more has to come first.
    #[inline(always)]
    fn copy_front<W: Write>(
        &mut self,
        decoder: &mut SpanDecoder,
        writer: &mut W,
    ) -> Result<Option<bool>, PacketIoError>
        requires uncut { header_came (span_state decoder.old).place ≡ [] }
        ensures steps { StepsCopy result (span_state decoder.old) self.old.src.items
            (W.contents writer.old) (span_state decoder.new) self.new.src.items
            (W.contents writer.new) }
        ensures kept { (header_came (span_state decoder.new).place ≡ [])
            × (decoder.new.max_allowed_packet ≡ decoder.old.max_allowed_packet)
            × (self.new ≡ record self.old { src = self.new.src }) }
    {
        if decoder.chunk_left() > 0 {
            return self.copy_bytes(decoder, writer);
        }
        let Some(header) = Header::read(self.src.as_slice()) else {
            return Ok(None);
        };
        match decoder.pass_header(header) {
            Ok(ended) => {
                self.src.advance(HEADER_LEN);
                Ok(Some(ended))
            }
            Err(error) => Err(refusal(error)),
        }
    }

    // Writes what is there of the packet: whether it has ended.
    fn copy_unread<W: Write>(
        &mut self,
        decoder: &mut SpanDecoder,
        writer: &mut W,
    ) -> Result<bool, PacketIoError>
        requires uncut { header_came (span_state decoder.old).place ≡ [] }
        ensures goes { Copies (has_ended result) (span_state decoder.old) self.old.src.items
            (W.contents writer.old) (span_state decoder.new) self.new.src.items
            (W.contents writer.new) }
        ensures ends { EndsCopy result (span_state decoder.new) self.new.src.items }
        ensures fewer { IsFalse (has_ended result)
            → most_bytes (span_state decoder.new) + length self.old.src.items
            ≤ most_bytes (span_state decoder.old) + length self.new.src.items }
        ensures kept { (header_came (span_state decoder.new).place ≡ [])
            × (decoder.new.max_allowed_packet ≡ decoder.old.max_allowed_packet)
            × (self.new ≡ record self.old { src = self.new.src }) }
    {
        'steps: loop {
            match self.copy_front(decoder, writer) {
                Ok(Some(true)) => return Ok(true),
                Ok(Some(false)) => {}
                Ok(None) => return Ok(false),
                Err(error) => return Err(error),
            }
        }
    }

    // What the end of the input means here: false between two packets.
    pub(super) fn at_copys_end(&self, decoder: &SpanDecoder) -> Result<bool, PacketIoError>
        requires { WaitsHere (span_state decoder.now) self.now.src.items }
        ensures stops { CopyStops result (span_state decoder.now) self.now.src.items None }
        ensures going { has_ended result ≡ false }
        ensures only { IfErr result (λ error. error ≡ PacketIoError.UnexpectedEnd) }
    {
        if self.src.is_empty() && decoder.is_between_packets() {
            Ok(false)
        } else {
            Err(PacketIoError::UnexpectedEnd)
        }
    }

    /// Two steps of it at most, the header in front and the bytes after it: whether the packet has
    /// ended.
    pub(crate) fn copy_begin<W: Write>(
        &mut self,
        decoder: &mut SpanDecoder,
        writer: &mut W,
    ) -> Result<bool, PacketIoError>
        requires uncut { header_came (span_state decoder.old).place ≡ [] }
        ensures goes { Copies (has_ended result) (span_state decoder.old) self.old.src.items
            (W.contents writer.old) (span_state decoder.new) self.new.src.items
            (W.contents writer.new) }
        ensures ends { IfOk result (λ ended. IsTrue ended → IsBetween (span_state decoder.new)) }
        ensures stops { IfErr result (λ error.
            StopsHere error (span_state decoder.new) self.new.src.items) }
        ensures kept { (header_came (span_state decoder.new).place ≡ [])
            × (decoder.new.max_allowed_packet ≡ decoder.old.max_allowed_packet)
            × (self.new ≡ record self.old { src = self.new.src }) }
    {
        match self.copy_front(decoder, writer) {
            Ok(Some(true)) => return Ok(true),
            Ok(Some(false)) => {}
            Ok(None) => return Ok(false),
            Err(error) => return Err(error),
        }
        match self.copy_front(decoder, writer) {
            Ok(Some(ended)) => Ok(ended),
            Ok(None) => Ok(false),
            Err(error) => Err(error),
        }
    }

    /// Writes the bytes of the next packet as they come: true where it has ended, false where the
    /// input ends between two packets.
    pub(crate) fn copy<W: Write>(
        &mut self,
        decoder: &mut SpanDecoder,
        writer: &mut W,
    ) -> Result<bool, PacketIoError>
        requires uncut { header_came (span_state decoder.old).place ≡ [] }
        ensures copies { CopiesTo R.remaining W.contents
            (span_state decoder.old) (lender None self.old) writer.old result
            (span_state decoder.new) (lender None self.new) writer.new }
        ensures stops { CopyStops result (span_state decoder.new) self.new.src.items
            (R.remaining self.new.reader) }
        ensures kept { (header_came (span_state decoder.new).place ≡ [])
            × (self.new.dst ≡ self.old.dst) × (self.new.lost ≡ self.old.lost)
            × (decoder.new.max_allowed_packet ≡ decoder.old.max_allowed_packet) }
    {
        'reads: loop {
            match self.copy_unread(decoder, writer) {
                Ok(true) => return Ok(true),
                Ok(false) => {}
                Err(error) => return Err(error),
            }
            match self.read_to_copy(decoder.chunk_left()) {
                Ok(0) => return self.at_copys_end(decoder),
                Ok(_) => {}
                Err(error) => return Err(error),
            }
        }
    }
}
