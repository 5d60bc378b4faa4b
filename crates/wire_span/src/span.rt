//! Packets as they come, in spans of the pieces: nothing is collected, and no memory is asked for.

ghost use Rattle.std.specs.Prelude.{◌≡◌, ◌≢◌, ℕ, ◌+◌, ◌%◌, ◌<◌, ◌≤◌, ◌↔◌, ◌⊎◌, List, [], ◌∷◌, ◌++◌, length, Ok, None, true, IsTrue, IfOk, IfErr, OnOk, OnErr, IfSome, IfNone, MatchResult};
ghost use Rattle.wire_codec.specs.Framing.{max_payload, header};
ghost use Rattle.wire_span.specs.Spans.{front_bytes, header_came, span_state, spans_of, EatsSpans, StopsBefore, IsBetween};
ghost use Rattle.wire_span.specs.SpanSteps.{TakesSpan, RefusesChunk};
ghost use Rattle.wire_span.specs.declared.span.Place.TheVariants.{InChunk};

use std::num::NonZeroUsize;
use thiserror::Error;
use wire_buf::lengths::{DEFAULT_MAX_ALLOWED_PACKET, MAX_PAYLOAD_LEN};
use wire_codec::codec::error::PacketCodecError;
use wire_codec::codec::header::{HEADER_LEN, Header};

pub(crate) mod parts;
mod passing;
pub(crate) mod renumber;

/// Why a stream stops.
#[derive(Debug, Clone, Copy, PartialEq, Eq, Error)]
pub enum SpanError {
    /// With the next chunk the packet would have more payload bytes than `max_allowed_packet`.
    #[error("Packet is larger than max_allowed_packet")]
    PacketTooLarge,
    /// The next chunk doesn't bear the sequence id that is expected. The stream is lost.
    #[error("Packets out of sync")]
    PacketsOutOfSync,
}

/// Bytes of a packet, borrowed from the piece that brought them.
#[derive(Debug, Clone, Copy, PartialEq, Eq)]
pub struct Span<'a> {
    pub bytes: &'a [u8],
    /// Whether these are the packet's last bytes.
    pub ends_packet: bool,
}

// The bytes of a header that has not come whole.
#[derive(Debug, Clone, Copy, PartialEq, Eq)]
enum HeaderFront {
    Empty,
    One(u8),
    Two(u8, u8),
    Three(u8, u8, u8),
}

// Where in a packet the decoder is.
#[derive(Debug, Clone, Copy, PartialEq, Eq)]
enum Place {
    // In front of a chunk's bytes: what came of its header.
    InHeader(HeaderFront),
    // Among them: how many are to come, and whether the chunk is a full one.
    InChunk { left: NonZeroUsize, is_full: bool },
}

/// Hands out a stream's packets in spans, which borrow from the pieces as they come. Its state has
/// one size whatever the packets', and it never asks for memory.
///
/// <https://dev.mysql.com/doc/dev/mysql-server/latest/page_protocol_basic_packets.html>
#[derive(Debug, Clone, Copy, PartialEq, Eq)]
pub struct SpanDecoder {
    /// The most payload bytes of a packet. Any number may be set at any time, and serves from the
    /// next header on; at 0 empty packets still pass.
    pub max_allowed_packet: usize,
    seq_id: u8,
    // How many bytes the open packet has, up to the end of its open chunk.
    size: usize,
    place: Place,
}

impl From<SpanError> for PacketCodecError {
    ghost use Rattle.wire_span.specs.Spans.{IsCodecError};

    ghost from_gives = { λ error converted. IsCodecError error converted };

    fn from(error: SpanError) -> Self {
        match error {
            SpanError::PacketTooLarge => PacketCodecError::PacketTooLarge,
            SpanError::PacketsOutOfSync => PacketCodecError::PacketsOutOfSync,
        }
    }
}

impl HeaderFront {
    fn len(self) -> usize
        ensures { result ≡ length (front_bytes self) }
    {
        match self {
            HeaderFront::Empty => 0,
            HeaderFront::One(..) => 1,
            HeaderFront::Two(..) => 2,
            HeaderFront::Three(..) => 3,
        }
    }

    // With one byte more: the header, where it is whole.
    fn push(self, byte: u8) -> Result<Header, HeaderFront>
        ensures whole { IfOk result (λ read.
            (front_bytes self ++ byte ∷ [] ≡ header read.len read.seq_id)
            × (read.len ≤ max_payload)) }
        ensures part { IfErr result (λ more. front_bytes more ≡ front_bytes self ++ byte ∷ []) }
    {
        match self {
            HeaderFront::Empty => Err(HeaderFront::One(byte)),
            HeaderFront::One(a) => Err(HeaderFront::Two(a, byte)),
            HeaderFront::Two(a, b) => Err(HeaderFront::Three(a, b, byte)),
            HeaderFront::Three(a, b, c) => match Header::read(&[a, b, c, byte]) {
                Some(header) => Ok(header),
                None => unreachable!(),
            },
        }
    }

    // What came, and then the piece: the header and what is after it, or all that came of it.
    fn read<'a>(self, piece: &'a [u8]) -> Result<(Header, &'a [u8]), HeaderFront>
        ensures whole { IfOk result (λ read.
            (front_bytes self ++ piece.now ≡ header read.0.len read.0.seq_id ++ read.1.now)
            × (read.0.len ≤ max_payload)) }
        ensures part { IfErr result (λ more. front_bytes more ≡ front_bytes self ++ piece.now) }
        ensures shorter { IfOk result (λ read. length read.1.now < length piece.now) }
    {
        if self == HeaderFront::Empty {
            if let Some(header) = Header::read(piece) {
                return Ok((header, &piece[HEADER_LEN..]));
            }
        }
        self.read_bytes(piece)
    }

    // The same byte by byte.
    fn read_bytes<'a>(self, piece: &'a [u8]) -> Result<(Header, &'a [u8]), HeaderFront>
        ensures whole { IfOk result (λ read.
            (front_bytes self ++ piece.now ≡ header read.0.len read.0.seq_id ++ read.1.now)
            × (read.0.len ≤ max_payload)) }
        ensures part { IfErr result (λ more. front_bytes more ≡ front_bytes self ++ piece.now) }
        ensures shorter { IfOk result (λ read. length read.1.now < length piece.now) }
    {
        let mut came = self;
        let mut rest = piece;
        'bytes: while let Some((byte, behind)) = rest.split_first() {
            match came.push(*byte) {
                Ok(header) => return Ok((header, behind)),
                Err(more) => came = more,
            }
            rest = behind;
        }
        Err(came)
    }
}

impl Default for SpanDecoder {
    ghost is_default = { λ decoder. IsBetween (span_state decoder) × ((span_state decoder).id ≡ 0)
        × (decoder.max_allowed_packet ≡ 4194304) };

    /// A decoder at the start of a command, with the limit of 4 MiB.
    fn default() -> Self {
        SpanDecoder {
            max_allowed_packet: DEFAULT_MAX_ALLOWED_PACKET,
            seq_id: 0,
            size: 0,
            place: Place::InHeader(HeaderFront::Empty),
        }
    }
}

impl SpanDecoder {
    ghost use Rattle.wire_span.specs.Passing.{left_in};

    /// The sequence id that the next chunk is to bear.
    pub fn sequence_id(&self) -> u8
        ensures { result ≡ (span_state self.now).id }
    {
        self.seq_id
    }

    /// How many bytes have come of a header that hasn't come whole.
    pub fn partial_header_len(&self) -> usize
        ensures { result ≡ length (header_came (span_state self.now).place) }
    {
        match self.place {
            Place::InChunk { .. } => 0,
            Place::InHeader(came) => came.len(),
        }
    }

    /// Whether the stream stands between two packets.
    pub fn is_between_packets(&self) -> bool
        ensures { IsTrue result ↔ IsBetween (span_state self.now) }
    {
        self.size == 0 && self.place == Place::InHeader(HeaderFront::Empty)
    }

    /// Sets the sequence id that the next chunk is to bear, wherever the decoder is: between two
    /// packets it begins a new stream with that id.
    pub fn set_sequence_id(&mut self, seq_id: u8)
        ensures { span_state self.new ≡ record (span_state self.old) { id = seq_id } }
    {
        self.seq_id = seq_id;
    }

    /// As `set_sequence_id` with 0, as at the start of a command.
    pub fn reset_seq_id(&mut self)
        ensures { span_state self.new ≡ record (span_state self.old) { id = 0 } }
    {
        self.seq_id = 0;
    }

    // Judges a header, and opens its chunk.
    fn open_chunk(&mut self, header: Header) -> Result<(), SpanError>
        ensures ok { OnOk result ((header.seq_id ≡ self.old.seq_id)
            × (self.new.size ≡ self.old.size + header.len)
            × (self.new.seq_id ≡ (self.old.seq_id + 1) % 256)) }
        ensures fits { OnOk result ((header.len ≡ 0)
            ⊎ (self.old.size + header.len ≤ self.old.max_allowed_packet)) }
        ensures err { OnErr result (self.new ≡ self.old) }
        ensures refused { IfErr result (λ error. RefusesChunk error self.old.max_allowed_packet
            self.old.size self.old.seq_id header.len header.seq_id) }
        ensures byte { header.seq_id < 256 }
        ensures limit { self.new.max_allowed_packet ≡ self.old.max_allowed_packet }
    {
        if header.len > 0 {
            let limit = self.max_allowed_packet;
            if header.len > limit || self.size > limit - header.len {
                return Err(SpanError::PacketTooLarge);
            }
        }
        if header.seq_id != self.seq_id {
            return Err(SpanError::PacketsOutOfSync);
        }
        self.size += header.len;
        self.seq_id = self.seq_id.wrapping_add(1); // after 255 comes 0
        Ok(())
    }

    // Stands among a chunk's bytes, of which so many are to come. Where it stood there already, no
    // other part of the place is written.
    fn stand_in(&mut self, still: NonZeroUsize, of_full: bool)
        ensures { self.new ≡ record self.old { place = InChunk still of_full } }
    {
        match &mut self.place {
            Place::InChunk { left, is_full } => {
                *left = still;
                *is_full = of_full;
            }
            Place::InHeader(_) => {
                self.place = Place::InChunk {
                    left: still,
                    is_full: of_full,
                };
            }
        }
    }

    // Hands out what came of the open chunk, of which this many bytes are to come.
    fn take_span<'a>(
        &mut self,
        left: usize,
        is_full: bool,
        piece: &mut &'a [u8],
    ) -> Option<Span<'a>>
        ensures eats { (eaten : List ℕ) × (piece.old.now ≡ eaten ++ piece.new.now)
            × TakesSpan self.old.seq_id self.old.size left is_full eaten (spans_of result)
            (span_state self.new) }
        ensures none { IfNone result (piece.new.now ≡ []) }
        ensures end { IfSome result (λ span. piece.old.now ≡ span.bytes.now ++ piece.new.now) }
        ensures longer { IfSome result (λ span.
            length piece.new.now + length span.bytes.now ≡ length piece.old.now) }
        ensures bytes { IfSome result (λ span. (span.bytes.now ≢ []) ⊎ (left ≡ 0)) }
        ensures longest { IfSome result (λ _. (piece.new.now ≡ [])
            ⊎ (left_in (span_state self.new).place ≡ 0)) }
        ensures some { IfSome result (λ span. (0 < length span.bytes.now)
            ⊎ (span.ends_packet ≡ true) ⊎ ((left ≡ 0) × (is_full ≡ true))) }
        ensures limit { self.new.max_allowed_packet ≡ self.old.max_allowed_packet }
    {
        let (bytes, rest) = piece.split_at(left.min(piece.len()));
        *piece = rest;
        match NonZeroUsize::new(left - bytes.len()) {
            Some(left) => {
                self.stand_in(left, is_full);
                if bytes.is_empty() {
                    return None;
                }
                Some(Span {
                    bytes,
                    ends_packet: false,
                })
            }
            None => {
                self.place = Place::InHeader(HeaderFront::Empty);
                if is_full {
                    return Some(Span {
                        bytes,
                        ends_packet: false,
                    });
                }
                self.size = 0;
                Some(Span {
                    bytes,
                    ends_packet: true,
                })
            }
        }
    }

    /// Eats the front of the piece: the next bytes of a packet, or `None` where the piece is used
    /// up. An empty packet is one span of no bytes, and so is the end of a packet whose last chunk
    /// is empty.
    ///
    /// A header is judged as soon as it has come whole, its limit first and then its id, and no
    /// byte after it is handed out before. Where it is refused nothing changes, neither the
    /// decoder nor the piece, so that after `PacketTooLarge` a larger limit goes on, and after
    /// `PacketsOutOfSync` the answer stays.
    pub fn next_span<'a>(&mut self, piece: &mut &'a [u8]) -> Result<Option<Span<'a>>, SpanError>
        ensures ok { IfOk result (λ span. EatsSpans (span_state self.old) piece.old.now
            (spans_of span) piece.new.now (span_state self.new)) }
        ensures none { result ≡ Ok None → piece.new.now ≡ [] }
        ensures shorter { IfOk result (λ span. IfSome span (λ _.
            length piece.new.now < length piece.old.now)) }
        // The span is the end of what was eaten, and in front of it is at most a header.
        ensures end { IfOk result (λ span. IfSome span (λ span. (front : List ℕ)
            × (piece.old.now ≡ front ++ (span.bytes.now ++ piece.new.now)) × (length front ≤ 4))) }
        // A span of no bytes is the end of a packet.
        ensures some { IfOk result (λ span. IfSome span (λ span. (0 < length span.bytes.now)
            ⊎ (span.ends_packet ≡ true))) }
        // It goes to the end of its chunk, or of the piece.
        ensures longest { IfOk result (λ span. IfSome span (λ _. (piece.new.now ≡ [])
            ⊎ (left_in (span_state self.new).place ≡ 0))) }
        ensures err { OnErr result ((span_state self.new ≡ span_state self.old)
            × (piece.new.now ≡ piece.old.now)) }
        ensures refused { IfErr result (λ error.
            StopsBefore (span_state self.old) piece.old.now error) }
        ensures limit { self.new.max_allowed_packet ≡ self.old.max_allowed_packet }
    {
        if piece.is_empty() {
            return Ok(None);
        }
        match self.place {
            Place::InChunk { left, is_full } => Ok(self.take_span(left.get(), is_full, piece)),
            Place::InHeader(came) => match came.read(piece) {
                Err(more) => {
                    self.place = Place::InHeader(more);
                    *piece = &piece[piece.len()..];
                    Ok(None)
                }
                Ok(found) => {
                    match self.open_chunk(found.0) {
                        Ok(()) => {}
                        Err(error) => return Err(error),
                    }
                    *piece = found.1;
                    let is_full = found.0.len == MAX_PAYLOAD_LEN;
                    Ok(self.take_span(found.0.len, is_full, piece))
                }
            },
        }
    }
}
