//! A connection whose limit rises, as it goes on and as it is decoded once more.

ghost use Rattle.std.specs.Prelude.{◌≡◌, max, OnOk, IfOk};
ghost use Rattle.mysql_wire.specs.Codec.{Stands, state_at};
ghost use Rattle.mysql_wire.specs.Delivery.{IsBounded};
ghost use Rattle.mysql_wire.specs.Runs.{payloads};
ghost use Rattle.mysql_wire_examples.specs.Received.{GainsPackets};
ghost use Rattle.mysql_wire_examples.specs.Session.{DeliversSession, GoesOnUnder};

use bytes::BytesMut;
use mysql_wire::laws;
use mysql_wire::proto::codec::error::PacketCodecError;
use mysql_wire::proto::codec::{PacketCodec, deliver_limited};
use std::alloc::Allocator;

/// Goes on under another limit, wherever in a packet the connection stands: what had come so far
/// stays under the older one. Whatever the peer sends, an unfinished packet and the bytes unread
/// are at most 3 more than the larger limit, or than what was held before.
pub fn go_on_under<A: Allocator + Copy>(
    codec: &mut PacketCodec,
    src: &mut BytesMut<A>,
    dst: &mut Vec<u8, A>,
    limit: usize,
    piece: &[u8],
    packets: &mut Vec<Vec<u8, A>, A>,
) -> Result<(), PacketCodecError>
    requires { Stands (state_at codec.old src.old dst.old) }
    ensures session { OnOk result (GainsPackets packets.old.items packets.new.items (λ gained. GoesOnUnder
        limit (state_at codec.old src.old dst.old) piece.now gained
        (state_at codec.new src.new dst.new))) }
    ensures bounded { OnOk result (IsBounded (max codec.old.max_allowed_packet limit)
        dst.old.items dst.new.items src.new.items) }
{
    laws::aligned_goes_on();
    laws::bounded_limited_delivery();
    let (_, result) = deliver_limited(codec, src, dst, &[(limit, piece)], packets);
    result
}

/// Decodes a recorded session once more: the bytes of its login under one limit, and those after
/// them under another. The packets are those that were received when it came.
pub fn replay_session<A: Allocator + Copy>(
    alloc: A,
    login: (usize, &[u8]),
    session: (usize, &[u8]),
    received: &[Vec<u8, A>],
) -> Result<Vec<Vec<u8, A>, A>, PacketCodecError>
    requires { DeliversSession login session (payloads received.now) }
    ensures { IfOk result (λ packets. payloads packets.items ≡ payloads received.now) }
{
    laws::empty_goes_on();
    laws::one_limited_delivery();
    let mut codec = PacketCodec::default();
    codec.max_allowed_packet = login.0;
    let mut src = BytesMut::new(alloc);
    let mut dst = Vec::new(alloc);
    let mut packets = Vec::new(alloc);
    let (_, result) = deliver_limited(
        &mut codec,
        &mut src,
        &mut dst,
        &[login, session],
        &mut packets,
    );
    result?;
    Ok(packets)
}
