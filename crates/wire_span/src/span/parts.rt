//! A decoder of spans in plain numbers, and back.

ghost use Rattle.std.specs.Prelude.{◌≡◌, ◌-◌, ◌%◌, ◌≤◌, ◌↔◌, ◌⊎◌, [], ◌++◌, length, take, drop, replicate, IsSome, IsTrue, IfSome};
ghost use Rattle.wire_span.specs.Spans.{front_bytes, place_of, span_state};
ghost use Rattle.wire_span.specs.Parts.{place_at, parts_state, IsInChunk, IsPlace, IsTidy, CanStand};

use super::{HeaderFront, Place, SpanDecoder};
use std::num::NonZeroUsize;
use wire_buf::lengths::MAX_PAYLOAD_LEN;

/// Where a `SpanDecoder` stands, in plain numbers, for callers that keep it in a memory or a
/// language of their own.
#[derive(Debug, Clone, Copy, PartialEq, Eq)]
pub struct SpanParts {
    /// The most payload bytes of a packet.
    pub max_allowed_packet: usize,
    /// How many bytes the open packet has, up to the end of its open chunk.
    pub size: usize,
    /// How many bytes of the open chunk are to come. 0: a header is to come.
    pub left: usize,
    /// The bytes that came of the header, and zeros.
    pub header: [u8; 3],
    /// How many bytes came of the header.
    pub header_len: u8,
    /// The sequence id that the next chunk is to bear.
    pub seq_id: u8,
}

impl HeaderFront {
    // The bytes, and zeros.
    fn padded(self) -> [u8; 3]
        ensures { result ≡ front_bytes self ++ replicate (3 - length (front_bytes self)) 0 }
    {
        match self {
            HeaderFront::Empty => [0; 3],
            HeaderFront::One(a) => [a, 0, 0],
            HeaderFront::Two(a, b) => [a, b, 0],
            HeaderFront::Three(a, b, c) => [a, b, c],
        }
    }

    // Back from this many bytes, and zeros.
    fn of_padded(bytes: [u8; 3], len: u8) -> Option<HeaderFront>
        ensures some { IfSome result (λ came. front_bytes came ≡ take len bytes) }
        ensures len { IfSome result (λ came. length (front_bytes came) ≡ len) }
        ensures exact { IsSome result ↔ ((len ≤ 3) × (drop len bytes ≡ replicate (3 - len) 0)) }
    {
        match (len, bytes) {
            (0, [0, 0, 0]) => Some(HeaderFront::Empty),
            (1, [a, 0, 0]) => Some(HeaderFront::One(a)),
            (2, [a, b, 0]) => Some(HeaderFront::Two(a, b)),
            (3, [a, b, c]) => Some(HeaderFront::Three(a, b, c)),
            _ => None,
        }
    }
}

// Whether this many bytes may be to come of the open chunk, up to whose end the packet has this many.
#[tactic(auto, using(crate::proofs::PartLemmas::full_chunk))]
fn is_in_chunk(size: usize, left: usize) -> bool
    ensures { IsTrue result ↔ IsInChunk size left }
{
    let last = size % MAX_PAYLOAD_LEN;
    if last == 0 {
        left <= MAX_PAYLOAD_LEN && left <= size
    } else {
        left <= last
    }
}

// The place in a packet of this many bytes up to the end of its open chunk, of which this many are to
// come. `None` where no packet has such a chunk.
fn place_at(size: usize, left: usize, came: HeaderFront) -> Option<Place>
    ensures some { IfSome result (λ place. place_of place ≡ place_at size left (front_bytes came)) }
    ensures exact { IsSome result ↔ (IsPlace size left
        × ((left ≡ 0) ⊎ (front_bytes came ≡ []))) }
{
    let is_full = size % MAX_PAYLOAD_LEN == 0;
    match NonZeroUsize::new(left) {
        None if is_full => Some(Place::InHeader(came)),
        Some(left) if came == HeaderFront::Empty && is_in_chunk(size, left.get()) => {
            Some(Place::InChunk { left, is_full })
        }
        _ => None,
    }
}

impl SpanDecoder {
    /// Where the decoder stands.
    pub fn parts(&self) -> SpanParts
        ensures tidy { IsTidy result }
        ensures state { CanStand (span_state self.now) → parts_state result ≡ span_state self.now }
    {
        let (left, came) = match self.place {
            Place::InHeader(came) => (0, came),
            Place::InChunk { left, .. } => (left.get(), HeaderFront::Empty),
        };
        SpanParts {
            max_allowed_packet: self.max_allowed_packet,
            size: self.size,
            left,
            header: came.padded(),
            header_len: came.len() as u8,
            seq_id: self.seq_id,
        }
    }

    /// The decoder that stands so. `None` where no decoder does, after whatever bytes.
    pub fn from_parts(parts: SpanParts) -> Option<SpanDecoder>
        ensures some { IfSome result (λ decoder. span_state decoder ≡ parts_state parts) }
        ensures exact { IsSome result ↔ (IsTidy parts × CanStand (parts_state parts)) }
    {
        let came = HeaderFront::of_padded(parts.header, parts.header_len)?;
        let place = place_at(parts.size, parts.left, came)?;
        Some(SpanDecoder {
            max_allowed_packet: parts.max_allowed_packet,
            seq_id: parts.seq_id,
            size: parts.size,
            place,
        })
    }
}
