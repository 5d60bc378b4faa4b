//! Packets from a stream whose pieces each have a limit.

ghost use Rattle.std.specs.Prelude.{◌≡◌, ◌≢◌, ℕ, ◌+◌, ◌<◌, ◌≤◌, List, ◌++◌, length, take, Err, OnOk};
ghost use Rattle.std.specs.List.{FoldsTo};
ghost use Rattle.wire_codec.specs.LimitedRuns.{Aligned, TakesLimited, WaitsLimited, last_limit};
ghost use Rattle.wire_codec.specs.GoingOn.{TakesGoingOn};
ghost use Rattle.wire_codec.specs.Codec.{state_at};
ghost use Rattle.wire_codec.specs.Runs.{HandsOut, Visited};

use crate::codec::delivery::CollectSink;
use crate::codec::each::{Visit, VisitSink};
use crate::codec::error::PacketCodecError;
use crate::codec::packet::PacketCodec;
use crate::codec::pieces::take_pieces;
use bytes::BytesMut;
use std::alloc::Allocator;

/// `deliver` under limits that move: each piece comes with the limit of the packets whose headers
/// it ends, and once it is appended that limit is the codec's. What `src` holds at the start is
/// decoded under the codec's own limit.
///
/// A chunk is judged once, by the limit of the piece that brought the fourth byte of its header.
/// After `PacketTooLarge` a larger limit goes on at the same header.
///
/// It asks that the codec is aligned at the buffers; `aligned_at` is the test. After everything but
/// `PacketsOutOfSync` it is aligned again, so that the next call goes on; after `OutOfMemory`, with
/// the pieces that were not appended.
pub fn deliver_limited<A: Allocator + Copy>(
    codec: &mut PacketCodec,
    src: &mut BytesMut<A>,
    dst: &mut Vec<u8, A>,
    pieces: &[(usize, &[u8])],
    out: &mut Vec<Vec<u8, A>, A>,
) -> (usize, Result<(), PacketCodecError>)
    requires { Aligned (state_at codec.old src.old dst.old) }
    ensures runs { TakesLimited (state_at codec.old src.old dst.old) pieces.now result.0 result.1
        (state_at codec.new src.new dst.new) (HandsOut out.old.items out.new.items) }

    // The same in the middle of a stream, of which each byte has its limit.
    ensures on { TakesGoingOn (state_at codec.old src.old dst.old) pieces.now result.0 result.1
        (state_at codec.new src.new dst.new) (HandsOut out.old.items out.new.items) }

    // This many pieces were appended, and with fewer of them the run only waits.
    ensures count { result.0 ≤ length pieces.now }
    ensures least { (j : ℕ) → j < result.0
        → WaitsLimited (state_at codec.old src.old dst.old) pieces.now j }
    ensures all { OnOk result.1 (result.0 ≡ length pieces.now) }

    ensures aligned { result.1 ≢ Err PacketCodecError.PacketsOutOfSync
        → Aligned (state_at codec.new src.new dst.new) }
    ensures limit { codec.new.max_allowed_packet
        ≡ last_limit codec.old.max_allowed_packet (take result.0 pieces.now) }
{
    take_pieces::<A, Vec<Vec<u8, A>, A>, CollectSink, (usize, &[u8])>(codec, src, dst, pieces, out)
}

/// As `deliver_limited`, and each packet is visited in place of being handed out, as `deliver_each`
/// does. The answers and what stands afterwards are those of `deliver_limited`; what was visited is
/// what `deliver_limited` hands out.
///
/// It asks that the codec is aligned at the buffers; `aligned_at` is the test. Memory is asked for
/// where a piece is appended to `src`, and for a packet of several chunks.
pub fn deliver_each_limited<A: Allocator + Copy, V: Visit>(
    codec: &mut PacketCodec,
    src: &mut BytesMut<A>,
    dst: &mut Vec<u8, A>,
    pieces: &[(usize, &[u8])],
    visitor: &mut V,
) -> (usize, Result<(), PacketCodecError>)
    requires { Aligned (state_at codec.old src.old dst.old) }
    // One visit after another, of the packets of the delivery.
    ensures runs { TakesLimited (state_at codec.old src.old dst.old) pieces.now result.0 result.1
        (state_at codec.new src.new dst.new) (Visited V.sees visitor.old visitor.new) }

    // The same in the middle of a stream, of which each byte has its limit.
    ensures on { TakesGoingOn (state_at codec.old src.old dst.old) pieces.now result.0 result.1
        (state_at codec.new src.new dst.new) (Visited V.sees visitor.old visitor.new) }

    // This many pieces were appended, and with fewer of them the run only waits.
    ensures count { result.0 ≤ length pieces.now }
    ensures least { (j : ℕ) → j < result.0
        → WaitsLimited (state_at codec.old src.old dst.old) pieces.now j }
    ensures all { OnOk result.1 (result.0 ≡ length pieces.now) }

    ensures aligned { result.1 ≢ Err PacketCodecError.PacketsOutOfSync
        → Aligned (state_at codec.new src.new dst.new) }
    ensures limit { codec.new.max_allowed_packet
        ≡ last_limit codec.old.max_allowed_packet (take result.0 pieces.now) }
{
    take_pieces::<A, V, VisitSink, (usize, &[u8])>(codec, src, dst, pieces, visitor)
}
