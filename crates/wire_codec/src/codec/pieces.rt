//! One loop over the pieces of a stream.

ghost use Rattle.std.specs.Prelude.{◌≡◌, ℕ, ◌++◌, List, OnOk, OnErr, IfErr};
ghost use Rattle.std.specs.Borrow.{Bor};
ghost use Rattle.wire_codec.specs.Codec.{state_at};
ghost use Rattle.wire_codec.specs.LimitedRuns.{Aligned};
ghost use Rattle.wire_codec.specs.Taking.{pieces_for, RunsPieces};

use crate::codec::error::{PacketCodecError, Refusal};
use crate::codec::packet::PacketCodec;
use crate::codec::taking::{PacketSink, drain};
use bytes::BytesMut;
use std::alloc::Allocator;

// A piece of a stream.
pub(crate) trait Piece {
    // The piece with its limit, or else with this one.
    ghost limited: { ℕ → Self → ℕ × Bor (List ℕ) };

    // The bytes.
    fn bytes(&self) -> &[u8]
        ensures { (own : ℕ) → result.now ≡ (limited own self.now).1.now };

    // The limit of the packets whose headers it ends.
    fn limit(&self, own: usize) -> usize
        ensures { result ≡ (limited own self.now).0 };
}

impl Piece for &[u8] {
    ghost limited = { λ own piece. (own, piece) };

    fn bytes(&self) -> &[u8] {
        self
    }

    fn limit(&self, own: usize) -> usize {
        own
    }
}

impl Piece for (usize, &[u8]) {
    ghost limited = { λ own piece. piece };

    fn bytes(&self) -> &[u8] {
        self.1
    }

    fn limit(&self, _own: usize) -> usize {
        self.0
    }
}

// Appends a piece.
fn append<A: Allocator + Copy>(src: &mut BytesMut<A>, piece: &[u8]) -> Result<(), Refusal>
    ensures src { OnOk result (src.new.items ≡ src.old.items ++ piece.now) }
    ensures memory { IfErr result (λ refusal. refusal ≡ Refusal.OutOfMemory) }
    ensures kept { OnErr result (src.new.items ≡ src.old.items) }
{
    src.extend_from_slice(piece)?;
    Ok(())
}

// Takes what `src` holds under the codec's limit, then appends one piece after another and takes
// after each, until a fault. The answer is how many pieces were appended, and how the run ended.
pub(crate) fn take_pieces<A: Allocator + Copy, O, K: PacketSink<A, O>, P: Piece>(
    codec: &mut PacketCodec,
    src: &mut BytesMut<A>,
    dst: &mut Vec<u8, A>,
    pieces: &[P],
    out: &mut O,
) -> (usize, Result<(), PacketCodecError>)
    requires { Aligned (state_at codec.old src.old dst.old) }
    ensures { RunsPieces K.took (state_at codec.old src.old dst.old)
        (pieces_for P.limited codec.old pieces.now) result.0 result.1 out.old out.new
        (state_at codec.new src.new dst.new) }
{
    let own = codec.max_allowed_packet;
    match drain::<A, O, K>(codec, src, dst, own, out) {
        Ok(()) => {}
        Err(refusal) => return (0, Err(PacketCodecError::from(refusal))),
    }
    let mut count = 0;
    for piece in pieces {
        match append(src, piece.bytes()) {
            Ok(()) => {}
            Err(refusal) => return (count, Err(PacketCodecError::from(refusal))),
        }
        count += 1;
        match drain::<A, O, K>(codec, src, dst, piece.limit(own), out) {
            Ok(()) => {}
            Err(refusal) => return (count, Err(PacketCodecError::from(refusal))),
        }
    }
    (count, Ok(()))
}
