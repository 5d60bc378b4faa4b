//! Packets in spans of the bytes that bring them, and other ids for them, with the place in the
//! stream in a record of the caller's.

ghost use Rattle.std.specs.Prelude.{◌≡◌, ◌↔◌, length, IsSome, IfSome};
ghost use Rattle.wire_span.specs.Parts.{IsTidy, CanStand};
ghost use Rattle.wire_span.specs.Spans.{span_state, IsBetween};
ghost use Rattle.mysql_wire_c_calls.specs.Spans.{parts_of, state_of, IsValid, error_code, NextSpan, Renumbers};

use crate::codes::{INVALID_STATE, OUT_OF_SYNC, SPAN, TOO_LARGE, WAITS};
use crate::view::View;
use wire_span::laws::{spans_begin, spans_stand};
use wire_span::{Renumber, SpanDecoder, SpanError, SpanParts};

/// The place in a stream of packets, in plain numbers. Whatever it is filled with, a call either
/// takes it for a place where some stream stands, or refuses it.
#[repr(C)]
#[derive(Clone, Copy)]
pub struct Spans {
    /// The most bytes of a packet.
    pub limit: usize,
    /// How many bytes the open packet has, up to the end of its open chunk.
    pub size: usize,
    /// How many bytes of that chunk are to come. 0: a header is to come.
    pub left: usize,
    /// The bytes that came of the header, and zeros.
    pub header: [u8; 3],
    /// How many bytes came of the header.
    pub header_len: u8,
    /// The number that the next chunk is to bear.
    pub id: u8,
    /// The number that the next chunk is given.
    pub next_id: u8,
    /// Room for later fields.
    pub reserved: [u8; 34],
}

impl Spans {
    // The decoder that stands so.
    fn decoder(&self) -> Option<SpanDecoder>
        ensures some { IfSome result (λ decoder. span_state decoder ≡ state_of self.now) }
        ensures exact { IsSome result ↔ IsValid self.now }
    {
        SpanDecoder::from_parts(SpanParts {
            max_allowed_packet: self.limit,
            size: self.size,
            left: self.left,
            header: self.header,
            header_len: self.header_len,
            seq_id: self.id,
        })
    }

    // The place is where this decoder stands.
    fn set(&mut self, decoder: &SpanDecoder)
        ensures tidy { IsTidy (parts_of self.new) }
        ensures state { CanStand (span_state decoder.now)
            → state_of self.new ≡ span_state decoder.now }
        ensures settings { (self.new.next_id ≡ self.old.next_id)
            × (self.new.reserved ≡ self.old.reserved) }
    {
        let SpanParts {
            max_allowed_packet,
            size,
            left,
            header,
            header_len,
            seq_id,
        } = decoder.parts();
        self.limit = max_allowed_packet;
        self.size = size;
        self.left = left;
        self.header = header;
        self.header_len = header_len;
        self.id = seq_id;
    }
}

fn code_of(error: SpanError) -> i32
    ensures { result ≡ error_code error }
{
    match error {
        SpanError::PacketTooLarge => TOO_LARGE,
        SpanError::PacketsOutOfSync => OUT_OF_SYNC,
    }
}

/// A place between two packets, the next of them numbered so.
pub fn begin(limit: usize, id: u8) -> Spans
    ensures valid { IsValid result }
    ensures between { IsBetween (state_of result) }
    ensures settings { (result.limit ≡ limit) × (result.id ≡ id) × (result.next_id ≡ id) }
{
    spans_begin();
    Spans {
        limit,
        size: 0,
        left: 0,
        header: [0; 3],
        header_len: 0,
        id,
        next_id: id,
        reserved: [0; 34],
    }
}

/// Eats the front of the bytes, as `SpanDecoder::next_span` does: `SPAN`, and which bytes are at
/// the end of it; `WAITS` where all were eaten. All other answers change nothing.
pub fn next_span(
    spans: &mut Spans,
    bytes: &[u8],
    used: &mut usize,
    span: &mut View,
    ends: &mut u8,
) -> i32
    ensures { NextSpan bytes.now used.new span.new.len ends.new result spans.old spans.new }
{
    *used = 0;
    *ends = 0;
    span.show(&[]);
    let Some(mut decoder) = spans.decoder() else {
        return INVALID_STATE;
    };
    spans_stand();
    let mut rest = bytes;
    match decoder.next_span(&mut rest) {
        Ok(Some(found)) => {
            span.show(found.bytes);
            *ends = found.ends_packet as u8;
            *used = bytes.len() - rest.len();
            spans.set(&decoder);
            SPAN
        }
        Ok(None) => {
            *used = bytes.len();
            spans.set(&decoder);
            WAITS
        }
        Err(error) => code_of(error),
    }
}

/// Writes other ids over those of the bytes, as `Renumber::renumber` does: `WAITS` where all may
/// go, else this many may.
pub fn renumber(spans: &mut Spans, bytes: &mut [u8], used: &mut usize) -> i32
    ensures { Renumbers bytes.old bytes.new used.new result spans.old spans.new }
{
    *used = 0;
    let Some(decoder) = spans.decoder() else {
        return INVALID_STATE;
    };
    spans_stand();
    let mut renumber = Renumber {
        decoder,
        next_id: spans.next_id,
    };
    let code = match renumber.renumber(bytes) {
        Ok(()) => {
            *used = bytes.len();
            WAITS
        }
        Err((count, error)) => {
            *used = count;
            code_of(error)
        }
    };
    spans.set(&renumber.decoder);
    spans.next_id = renumber.next_id;
    code
}
