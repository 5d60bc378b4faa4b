//! A stream that was recorded: compared, decoded once more, and taken into a list of its size.

ghost use Rattle.std.specs.Prelude.{◌≡◌, ◌↔◌, ◌-◌, ◌^◌, ℕ, List, ◌++◌, min, length, take, IfOk, IsTrue, vec_len};
ghost use Rattle.mysql_wire.specs.Framing.{framing};
ghost use Rattle.mysql_wire.specs.Runs.{joined, payloads};
ghost use Rattle.mysql_wire_examples.specs.Received.{DeliversSoFar};

use crate::in_place::Tally;
use bytes::BytesMut;
use mysql_wire::io::WireError;
use mysql_wire::laws;
use mysql_wire::proto::codec::error::PacketCodecError;
use mysql_wire::proto::codec::{PacketCodec, deliver, deliver_each, packet_to_chunks};
use std::alloc::Allocator;

/// Whether what came begins with this packet, numbered from `id`: compared as it lies, and not
/// decoded. Whatever packet it begins with, it is this one or it isn't.
pub fn begins_with<A: Allocator + Copy>(
    alloc: A,
    id: u8,
    wire: &[u8],
    packet: &[u8],
) -> Result<bool, WireError>
    ensures { IfOk result (λ is_it. (payload : List ℕ) (rest : List ℕ)
        → wire.now ≡ framing id payload ++ rest → (IsTrue is_it ↔ (payload ≡ packet.now))) }
{
    laws::unique_framing();
    let mut framed = BytesMut::new(alloc);
    let mut packet = packet;
    packet_to_chunks::<&[u8]>(id, &mut packet, &mut framed)?;
    Ok(has_front(wire, framed.as_slice()))
}

// Whether these bytes stand in front.
fn has_front(bytes: &[u8], front: &[u8]) -> bool
    ensures { IsTrue result ↔ (take (length front.now) bytes.now ≡ front.now) }
{
    match bytes.get(..front.len()) {
        Some(there) => there == front,
        None => false,
    }
}

/// Decodes a recorded stream once more, however it is cut now. The packets are those that were
/// received when it came.
pub fn replay<A: Allocator + Copy>(
    alloc: A,
    limit: usize,
    pieces: &[&[u8]],
    received: &[Vec<u8, A>],
) -> Result<Vec<Vec<u8, A>, A>, PacketCodecError>
    requires { DeliversSoFar (joined pieces.now) 0 limit (payloads received.now) }
    ensures { IfOk result (λ packets. payloads packets.items ≡ payloads received.now) }
{
    laws::one_delivery();
    let mut codec = PacketCodec::default();
    codec.max_allowed_packet = limit;
    let mut src = BytesMut::new(alloc);
    let mut dst = Vec::new(alloc);
    let mut packets = Vec::new(alloc);
    let (_, result) = deliver(&mut codec, &mut src, &mut dst, pieces, &mut packets);
    result?;
    Ok(packets)
}

// Counts the packets of a stream, by a pass that copies none that lies whole.
fn counted<A: Allocator + Copy>(
    alloc: A,
    limit: usize,
    pieces: &[&[u8]],
) -> Result<Tally, PacketCodecError>
    ensures { IfOk result (λ tally. (packets : List (List ℕ))
        × (tally.packets ≡ min (length packets) (2 ^ 64 - 1))
        × DeliversSoFar (joined pieces.now) 0 limit packets) }
{
    let mut codec = PacketCodec::default();
    codec.max_allowed_packet = limit;
    let mut src = BytesMut::new(alloc);
    let mut dst = Vec::new(alloc);
    let mut tally = Tally {
        packets: 0,
        bytes: 0,
    };
    let (_, result) = deliver_each(&mut codec, &mut src, &mut dst, pieces, &mut tally);
    result?;
    Ok(tally)
}

/// Takes a recorded stream into a list that is grown once: its packets are counted first, by a pass
/// that copies none that lies whole. The count is of just the packets that are then in the list.
pub fn take_counted<A: Allocator + Copy>(
    alloc: A,
    limit: usize,
    pieces: &[&[u8]],
) -> Result<(Tally, Vec<Vec<u8, A>, A>), PacketCodecError>
    ensures { IfOk result (λ taken.
        taken.0.packets ≡ min (vec_len taken.1) (2 ^ 64 - 1)) }
{
    laws::one_run();
    let tally = counted(alloc, limit, pieces)?;
    let mut codec = PacketCodec::default();
    codec.max_allowed_packet = limit;
    let mut src = BytesMut::new(alloc);
    let mut dst = Vec::new(alloc);
    let mut packets = Vec::new(alloc);
    packets.reserve(tally.packets as usize)?;
    let (_, result) = deliver(&mut codec, &mut src, &mut dst, pieces, &mut packets);
    result?;
    Ok((tally, packets))
}
