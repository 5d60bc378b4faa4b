//! Packets from a stream that comes in pieces, each visited where it lies.

ghost use Rattle.std.specs.Prelude.{◌≡◌, ◌≢◌, ℕ, ◌<◌, ◌≤◌, List, length, take, drop, Err, OnOk};
ghost use Rattle.std.specs.List.{FoldsTo};
ghost use Rattle.wire_codec.specs.Codec.{state_at, Stands};
ghost use Rattle.wire_codec.specs.Delivery.{IsBounded};
ghost use Rattle.wire_codec.specs.Runs.{TakesPieces, Visited, Waits, joined};
ghost use Rattle.wire_codec.specs.Taking.{FoldsTo-append};

use crate::codec::error::{PacketCodecError, Refusal};
use crate::codec::packet::PacketCodec;
use crate::codec::pieces::take_pieces;
use crate::codec::taking::PacketSink;
use bytes::BytesMut;
use std::alloc::Allocator;

/// What is done with each packet.
pub trait Visit {
    // What a visit of these bytes makes of the visitor.
    ghost sees: { Self → List ℕ → Self → Type 0 };

    /// Visits a packet.
    fn visit(&mut self, packet: &[u8])
        ensures { sees self.old packet.now self.new };
}

// Each packet is visited, where it lies or else in `dst`.
pub(crate) struct VisitSink;

impl<A: Allocator + Copy, V: Visit> PacketSink<A, V> for VisitSink {
    ghost use Rattle.std.proofs.Common.{refl};

    ghost took = { λ old gained new. FoldsTo V.sees old gained new };

    ghost none = { λ old. refl };

    ghost joins = { λ old mid new ps qs first more. FoldsTo-append V.sees old mid new ps qs first more };

    fn take_next(
        codec: &mut PacketCodec,
        src: &mut BytesMut<A>,
        dst: &mut Vec<u8, A>,
        out: &mut V,
    ) -> Result<bool, Refusal> {
        if let Some(packet) = codec.front_packet(src, dst.as_slice()) {
            out.visit(packet);
            codec.take_front(src);
            return Ok(true);
        }
        match codec.decode_on(src, dst) {
            Ok(true) => {
                out.visit(dst.as_slice());
                dst.clear();
                Ok(true)
            }
            Ok(false) => Ok(false),
            Err(refusal) => Err(refusal),
        }
    }
}

/// As `deliver`, and each packet is visited in place of being handed out: where it lies in `src`,
/// without a copy, where it has come whole in one chunk, and in `dst` where it hasn't. The answers
/// and what stands afterwards are those of `deliver`; what was visited is what `deliver` hands out.
///
/// It asks that the codec stands at the buffers; `stands_at` is the test. Memory is asked for where
/// a piece is appended to `src`, and for a packet of several chunks.
pub fn deliver_each<A: Allocator + Copy, V: Visit>(
    codec: &mut PacketCodec,
    src: &mut BytesMut<A>,
    dst: &mut Vec<u8, A>,
    pieces: &[&[u8]],
    visitor: &mut V,
) -> (usize, Result<(), PacketCodecError>)
    requires { Stands (state_at codec.old src.old dst.old) }
    // One visit after another, of the packets of the delivery.
    ensures runs { TakesPieces (state_at codec.old src.old dst.old) pieces.now result.0 result.1
        (state_at codec.new src.new dst.new) (Visited V.sees visitor.old visitor.new) }

    // This many pieces were appended, and with fewer of them the run only waits.
    ensures count { result.0 ≤ length pieces.now }
    ensures least { (j : ℕ) → j < result.0
        → Waits (state_at codec.old src.old dst.old) (joined (take j pieces.now)) }
    ensures all { OnOk result.1 (result.0 ≡ length pieces.now) }

    // Where it waits, both buffers together hold few bytes.
    ensures bounded { OnOk result.1 (IsBounded codec.old.max_allowed_packet dst.old.items
        dst.new.items src.new.items) }
    ensures stands { result.1 ≢ Err PacketCodecError.PacketsOutOfSync
        → Stands (state_at codec.new src.new dst.new) }
    ensures limit { codec.new.max_allowed_packet ≡ codec.old.max_allowed_packet }
{
    take_pieces::<A, V, VisitSink, &[u8]>(codec, src, dst, pieces, visitor)
}
