//! A packet's bytes that a caller hands on from a buffer of his own, as many at a time as he can.

ghost use Rattle.std.specs.Prelude.{◌≡◌, ℕ, ◌+◌, ◌%◌, ◌<◌, ◌≤◌, List, [], ◌∷◌, ◌++◌, length, false, IsTrue, IsFalse, IfOk, IfErr, OnErr};
ghost use Rattle.wire_codec.specs.Framing.{max_payload, header as header_bytes};
ghost use Rattle.wire_span.specs.Spans.{header_came, span_state, IsBetween, SpansOn, StopsBefore};
ghost use Rattle.wire_span.specs.Renumbering.{sent};
ghost use Rattle.wire_span.specs.Passing.{left_in, most_bytes};

use super::{Place, SpanDecoder, SpanError};
use wire_buf::lengths::MAX_PAYLOAD_LEN;
use wire_codec::codec::header::Header;

impl SpanDecoder {
    /// How many bytes of the open chunk are to come; 0 in front of a header.
    pub fn chunk_left(&self) -> usize
        ensures { result ≡ left_in (span_state self.now).place }
    {
        match self.place {
            Place::InHeader(_) => 0,
            Place::InChunk { left, .. } => left.get(),
        }
    }

    /// A header came whole: opens its chunk. The answer is whether the packet ends with it, as with
    /// that of an empty chunk. It asks that nothing of a header came before. A header is judged, and
    /// refused, as by `next_span`.
    pub fn pass_header(&mut self, header: Header) -> Result<bool, SpanError>
        requires place { left_in (span_state self.old).place ≡ 0 }
        requires uncut { header_came (span_state self.old).place ≡ [] }
        requires small { header.len ≤ max_payload }
        ensures id { IfOk result (λ _. (header.seq_id ≡ (span_state self.old).id)
            × ((span_state self.new).id ≡ ((span_state self.old).id + 1) % 256)) }
        // Whatever id a side of the stream bears.
        ensures came { IfOk result (λ ended. (id : ℕ) → id < 256
            → SpansOn (sent (span_state self.old) id) (header_bytes header.len id) (([], ended) ∷ [])
            (sent (span_state self.new) ((id + 1) % 256))) }
        ensures fewer { IfOk result (λ ended. IsFalse ended
            → 4 + most_bytes (span_state self.new) ≤ most_bytes (span_state self.old)) }
        ensures between { IfOk result (λ ended. IsTrue ended → IsBetween (span_state self.new)) }
        ensures uncut { header_came (span_state self.new).place ≡ [] }
        ensures err { OnErr result (self.new ≡ self.old) }
        ensures refused { IfErr result (λ error. (more : List ℕ)
            → StopsBefore (span_state self.old) (header_bytes header.len header.seq_id ++ more) error) }
        ensures limit { self.new.max_allowed_packet ≡ self.old.max_allowed_packet }
    {
        match self.open_chunk(header) {
            Ok(()) => {}
            Err(error) => return Err(error),
        }
        Ok(self.pass(header.len, header.len == MAX_PAYLOAD_LEN, 0))
    }

    /// This many bytes of the open chunk came: whether they end their packet. It asks that no more of
    /// them came than were to come.
    pub fn pass_bytes(&mut self, count: usize) -> bool
        requires { count ≤ left_in (span_state self.old).place }
        ensures id { (span_state self.new).id ≡ (span_state self.old).id }
        ensures came { (id : ℕ) (bytes : List ℕ) → length bytes ≡ count
            → SpansOn (sent (span_state self.old) id) bytes ((bytes, result) ∷ [])
            (sent (span_state self.new) id) }
        ensures fewer { IsFalse result
            → count + most_bytes (span_state self.new) ≤ most_bytes (span_state self.old) }
        ensures between { IsTrue result → IsBetween (span_state self.new) }
        ensures uncut { header_came (span_state self.old).place ≡ []
            → header_came (span_state self.new).place ≡ [] }
        ensures limit { self.new.max_allowed_packet ≡ self.old.max_allowed_packet }
    {
        match self.place {
            Place::InHeader(_) => false,
            Place::InChunk { left, is_full } => self.pass(left.get(), is_full, count),
        }
    }
}
