//! A server that takes small packets before a login, and large ones after it.

ghost use Rattle.std.specs.Prelude.{[], ◌∷◌, Ok, IfOk};
ghost use Rattle.mysql_wire.specs.Codec.{CodecState};
ghost use Rattle.mysql_wire.specs.Laws.{empty_state};
ghost use Rattle.mysql_wire.specs.LimitedRuns.{RunsLimited};
ghost use Rattle.mysql_wire.specs.Runs.{payloads};

use bytes::BytesMut;
use mysql_wire::proto::codec::error::PacketCodecError;
use mysql_wire::proto::codec::{PacketCodec, deliver_limited};
use std::alloc::Allocator;

/// The most payload bytes of a packet from a client that isn't logged in.
pub const LOGIN_LIMIT: usize = 1024;

/// The packets of a connection: those whose headers came with the login, of at most `LOGIN_LIMIT`
/// bytes, and then those of the session, of at most `limit`.
pub fn receive_session<A: Allocator + Copy>(
    alloc: A,
    login: &[u8],
    session: &[u8],
    limit: usize,
) -> Result<Vec<Vec<u8, A>, A>, PacketCodecError>
    ensures { IfOk result (λ packets. (after : CodecState)
        × RunsLimited (empty_state 0 1024) ((1024, login.entry) ∷ (limit, session.entry) ∷ []) 2
        (Ok tt) (payloads packets.items) after) }
{
    let mut codec = PacketCodec::default();
    codec.max_allowed_packet = LOGIN_LIMIT;
    let mut src = BytesMut::new(alloc);
    let mut dst = Vec::new(alloc);
    let mut packets = Vec::new(alloc);
    let pieces = [(LOGIN_LIMIT, login), (limit, session)];
    let (_, result) = deliver_limited(&mut codec, &mut src, &mut dst, &pieces, &mut packets);
    result?;
    Ok(packets)
}
