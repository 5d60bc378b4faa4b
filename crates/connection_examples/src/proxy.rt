//! What a proxy or a pool asks of a session.

ghost use Rattle.std.specs.Prelude.{◌≡◌, ◌&&◌, IfOk, OnErr, length, not};
ghost use Rattle.mysql_wire_parts.specs.Optional.{has};
ghost use Rattle.mysql_wire_session.specs.Fronts.{TakesFront};
ghost use Rattle.mysql_wire_session.specs.Senders.{is_idle};
ghost use Rattle.mysql_wire_session.specs.State.{state_of};

use mysql_wire_session::packet_kind::PacketKind;
use mysql_wire_session::session::{FrontError, Session};
use mysql_wire_session::side::Side;
use std::alloc::Allocator;
use wire_const::{Flags, StatusFlags};

/// What came of a packet that is passed on.
#[derive(Clone, Copy)]
pub struct PassedPacket {
    pub kind: PacketKind,
    /// No answer is under way after it.
    pub is_idle: bool,
}

/// Follows a packet of this length, of which this front has come: its first three bytes or more, or
/// all. After `NeedsWhole` the caller gives all of it; in the meantime it may pass the bytes on.
pub fn follow_packet<A: Allocator + Copy>(
    session: &mut Session<A>,
    side: Side,
    id: u8,
    len: usize,
    front: &[u8],
) -> Result<PassedPacket, FrontError>
    ensures takes { IfOk result (λ passed. TakesFront side id len front.now
        (state_of session.old) (state_of session.new) passed.kind) }
    ensures idle { IfOk result (λ passed. passed.is_idle ≡ is_idle session.new.phase) }
    ensures stays { OnErr result (state_of session.new ≡ state_of session.old) }
{
    match session.advance_front(side, id, len, front) {
        Ok(kind) => Ok(PassedPacket {
            kind,
            is_idle: session.is_idle(),
        }),
        Err(error) => Err(error),
    }
}

/// Whether a pool may give the connection to another client: no answer is under way, and no
/// transaction is open (`SERVER_STATUS_IN_TRANS`).
pub fn may_change_hands<A: Allocator + Copy>(session: &Session<A>) -> bool
    ensures { result ≡ (is_idle session.now.phase && not (has session.now.status.0 0x1)) }
{
    session.is_idle()
        && !session
            .status()
            .contains(StatusFlags::SERVER_STATUS_IN_TRANS)
}
