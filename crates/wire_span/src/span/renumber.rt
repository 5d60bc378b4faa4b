//! Other sequence ids for a stream's chunks, written in place.

ghost use Rattle.std.specs.Prelude.{◌≡◌, ℕ, ◌+◌, ◌<◌, ◌≤◌, ◌⊎◌, List, [], ◌∷◌, length, drop, IfOk, IfErr, IsTrue, IsFalse, OnOk, OnErr, MatchResult, Bool};
ghost use Rattle.wire_span.specs.Spans.{header_came, span_state, IsBetween, StopsBefore};
ghost use Rattle.wire_span.specs.Passing.{most_here};
ghost use Rattle.wire_span.specs.SpanSteps.{TakesSpan};
ghost use Rattle.wire_span.specs.Renumbering.{RenumbersFront};

use super::{HeaderFront, Place, SpanDecoder, SpanError};
use std::num::NonZeroUsize;
use wire_buf::lengths::MAX_PAYLOAD_LEN;

impl SpanDecoder {
    // This many bytes of the open chunk came, of which this many were to come: whether they end their
    // packet.
    pub(super) fn pass(&mut self, left: usize, is_full: bool, came: usize) -> bool
        requires { came ≤ left }
        ensures takes { (id : ℕ) (eaten : List ℕ) → length eaten ≡ came
            → TakesSpan id self.old.size left is_full eaten ((eaten, result) ∷ [])
            (record (span_state self.new) { id = id }) }
        ensures id { self.new.seq_id ≡ self.old.seq_id }
        ensures uncut { header_came (span_state self.new).place ≡ [] }
        ensures between { IsTrue result → IsBetween (span_state self.new) }
        ensures fewer { IsFalse result
            → most_here (span_state self.new).place + came ≡ left + 4 }
        ensures size { IsFalse result → self.new.size ≡ self.old.size }
        ensures last { IsFalse result → (came < left) ⊎ IsTrue is_full }
        ensures limit { self.new.max_allowed_packet ≡ self.old.max_allowed_packet }
    {
        match NonZeroUsize::new(left - came) {
            Some(left) => {
                self.place = Place::InChunk { left, is_full };
                false
            }
            None => {
                self.place = Place::InHeader(HeaderFront::Empty);
                if is_full {
                    return false;
                }
                self.size = 0;
                true
            }
        }
    }
}

/// Gives the chunks of a stream other ids, in the pieces as they come: nothing else of the stream
/// changes, and no memory is asked for.
#[derive(Debug, Clone, Copy, PartialEq, Eq)]
pub struct Renumber {
    /// Follows what comes in.
    pub decoder: SpanDecoder,
    /// The id that the next chunk bears when it goes out.
    pub next_id: u8,
}

impl Renumber {
    // What came of a header, or of the open chunk: how many bytes.
    fn step(&mut self, piece: &mut [u8]) -> Result<usize, SpanError>
        requires some { 0 < length piece.old }
        ensures ok { IfOk result (λ count. RenumbersFront (span_state self.old.decoder)
            self.old.next_id piece.old piece.new count (span_state self.new.decoder)
            self.new.next_id) }
        ensures some { IfOk result (λ count. 0 < count) }
        ensures uncut { IfOk result (λ count. (count ≡ length piece.old)
            ⊎ (header_came (span_state self.new.decoder).place ≡ [])) }
        ensures err { OnErr result ((self.new ≡ self.old) × (piece.new ≡ piece.old)) }
        ensures refused { IfErr result (λ error.
            StopsBefore (span_state self.old.decoder) piece.old error) }
        ensures limit { self.new.decoder.max_allowed_packet ≡ self.old.decoder.max_allowed_packet }
    {
        match self.decoder.place {
            Place::InChunk { left, is_full } => {
                let count = left.get().min(piece.len());
                let _ = self.decoder.pass(left.get(), is_full, count);
                Ok(count)
            }
            Place::InHeader(came) => match came.read(piece) {
                Err(more) => {
                    self.decoder.place = Place::InHeader(more);
                    Ok(piece.len())
                }
                Ok(found) => {
                    let header = found.0;
                    let count = piece.len() - found.1.len();
                    match self.decoder.open_chunk(header) {
                        Ok(()) => {}
                        Err(error) => return Err(error),
                    }
                    let is_full = header.len == MAX_PAYLOAD_LEN;
                    let _ = self.decoder.pass(header.len, is_full, 0);
                    piece[count - 1] = self.next_id;
                    self.next_id = self.next_id.wrapping_add(1); // after 255 comes 0
                    Ok(count)
                }
            },
        }
    }

    /// Writes the ids over those of the piece, which goes on where the last one ended. Where a
    /// header is refused nothing of it is written, and nothing after it. The number is then the
    /// place in the piece at which it begins: how many bytes may go. What is left from there on may
    /// be given again. It is 0 where earlier pieces brought the header's front, which has gone:
    /// `decoder.partial_header_len()` bytes.
    pub fn renumber(&mut self, piece: &mut [u8]) -> Result<(), (usize, SpanError)>
        ensures ok { OnOk result (RenumbersFront (span_state self.old.decoder) self.old.next_id
            piece.old piece.new (length piece.old) (span_state self.new.decoder) self.new.next_id) }
        ensures err { IfErr result (λ stop. RenumbersFront (span_state self.old.decoder)
            self.old.next_id piece.old piece.new stop.0 (span_state self.new.decoder)
            self.new.next_id) }
        ensures refused { IfErr result (λ stop. StopsBefore (span_state self.new.decoder)
            (drop stop.0 piece.new) stop.1) }
        // Nothing of that header may go: in this piece it begins there, or this piece goes on with
        // it.
        ensures place { IfErr result (λ stop. (stop.0 ≡ 0)
            ⊎ (header_came (span_state self.new.decoder).place ≡ [])) }
        ensures same_length { length piece.new ≡ length piece.old }
        ensures limit { self.new.decoder.max_allowed_packet ≡ self.old.decoder.max_allowed_packet }
    {
        let mut at = 0;
        'steps: while at < piece.len() {
            match self.step(&mut piece[at..]) {
                Ok(count) => at += count,
                Err(error) => return Err((at, error)),
            }
        }
        Ok(())
    }
}
