//! Packets from a stream that comes in pieces.

ghost use Rattle.std.specs.Prelude.{◌≡◌, ◌≢◌, ℕ, ◌<◌, ◌≤◌, List, [], ◌∷◌, ◌++◌, length, take, drop, Err, OnOk, vec_len, vec_capacity};
ghost use Rattle.wire_codec.specs.Codec.{state_at, Stands};
ghost use Rattle.wire_codec.specs.Delivery.{IsBounded};
ghost use Rattle.wire_codec.specs.Runs.{HandsOut, TakesPieces, Waits, joined, payloads};

use crate::codec::error::{PacketCodecError, Refusal};
use crate::codec::packet::PacketCodec;
use crate::codec::pieces::take_pieces;
use crate::codec::taking::PacketSink;
use bytes::BytesMut;
use std::alloc::Allocator;
use std::mem;

// Each packet is moved to the end of a list.
pub(crate) struct CollectSink;

impl<A: Allocator + Copy> PacketSink<A, Vec<Vec<u8, A>, A>> for CollectSink {
    ghost use Rattle.std.proofs.Common.{rules};
    ghost use Rattle.std.proofs.lemmas.Grind.{common_steps};

    ghost took = { λ old gained new. payloads new.items ≡ payloads old.items ++ gained };

    ghost none = { λ old. Prim.search (rules, common_steps) };

    ghost joins = { λ old mid new ps qs first more. Prim.search (rules, common_steps) };

    fn take_next(
        codec: &mut PacketCodec,
        src: &mut BytesMut<A>,
        dst: &mut Vec<u8, A>,
        out: &mut Vec<Vec<u8, A>, A>,
    ) -> Result<bool, Refusal> {
        if out.reserve(1).is_err() {
            return Err(Refusal::OutOfMemory);
        }
        match codec.decode_on(src, dst) {
            Ok(true) => {
                hand_out(dst, out);
                Ok(true)
            }
            Ok(false) => Ok(false),
            Err(refusal) => Err(refusal),
        }
    }
}

// Moves a packet to the end of the list, where there is room.
fn hand_out<A: Allocator + Copy>(dst: &mut Vec<u8, A>, out: &mut Vec<Vec<u8, A>, A>)
    requires { vec_len out.old < vec_capacity out.old }
    ensures packet { payloads out.new.items ≡ payloads out.old.items ++ dst.old.items ∷ [] }
    ensures empty { dst.new.items ≡ [] }
{
    let alloc = *dst.allocator();
    let packet = mem::replace(dst, Vec::new(alloc));
    let _ = out.push(packet);
}

/// Decodes what `src` holds, then appends one piece after another to `src` and decodes after each,
/// until a fault. Each packet is moved from `dst` to the end of `out`. The answer is how many
/// pieces were appended, and how the run ended: `Ok` where all were, and more bytes are needed.
///
/// It asks that the codec stands at the buffers, as a new one does at an empty `dst`; `stands_at`
/// is the test. After everything but `PacketsOutOfSync` it stands again, so that the next call goes
/// on; after `OutOfMemory`, with the pieces that were not appended.
pub fn deliver<A: Allocator + Copy>(
    codec: &mut PacketCodec,
    src: &mut BytesMut<A>,
    dst: &mut Vec<u8, A>,
    pieces: &[&[u8]],
    out: &mut Vec<Vec<u8, A>, A>,
) -> (usize, Result<(), PacketCodecError>)
    requires { Stands (state_at codec.old src.old dst.old) }
    ensures runs { TakesPieces (state_at codec.old src.old dst.old) pieces.now result.0 result.1
        (state_at codec.new src.new dst.new) (HandsOut out.old.items out.new.items) }

    // This many pieces were appended, and with fewer of them the run only waits.
    ensures count { result.0 ≤ length pieces.now }
    ensures least { (j : ℕ) → j < result.0
        → Waits (state_at codec.old src.old dst.old) (joined (take j pieces.now)) }
    ensures all { OnOk result.1 (result.0 ≡ length pieces.now) }

    // Where it waits, both buffers together hold few bytes.
    ensures bounded { OnOk result.1 (IsBounded codec.old.max_allowed_packet dst.old.items
        dst.new.items src.new.items) }
    ensures stands { result.1 ≢ Err PacketCodecError.PacketsOutOfSync
        → Stands (state_at codec.new src.new dst.new) }
    ensures limit { codec.new.max_allowed_packet ≡ codec.old.max_allowed_packet }
{
    take_pieces::<A, Vec<Vec<u8, A>, A>, CollectSink, &[u8]>(codec, src, dst, pieces, out)
}
