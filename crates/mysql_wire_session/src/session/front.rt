//! A packet of which only the front has come.

ghost use Rattle.std.specs.Prelude.{◌≡◌, IfErr, IfOk, OnErr, OnOk, length};
ghost use Rattle.mysql_wire_session.specs.Advance.{IsRefusedMemory, asked};
ghost use Rattle.mysql_wire_session.specs.Fronts.{FailsFront, FailsWhole, TakesFront, says_more};
ghost use Rattle.mysql_wire_session.specs.Readings.{advanced, after_kind};
ghost use Rattle.mysql_wire_session.specs.State.{state_of};
ghost use Rattle.mysql_wire_session.specs.declared.packet_kind.PacketKind.TheVariants.{Execute};

use super::{Session, forget};
use crate::packet::Received;
use crate::packet_kind::PacketKind;
use crate::phase::Phase;
use crate::refusal::SessionError;
use crate::side::Side;
use std::alloc::Allocator;

/// Why a session did not go on after the front of a packet. It is as it was.
#[derive(Clone, Copy)]
pub enum FrontError {
    /// What is known after a packet of this kind hangs on all of it: give the whole payload.
    NeedsWhole(PacketKind),
    /// The payload has come whole, and was not read, or memory was refused after it.
    Session(SessionError),
}

// Whether what is known after a packet of this kind, which is read in this phase, hangs on more than
// its kind and its length.
fn says_more(kind: PacketKind, phase: Phase) -> bool
    ensures { result ≡ says_more kind phase }
{
    match kind {
        PacketKind::TlsRequest
        | PacketKind::Login
        | PacketKind::Ok
        | PacketKind::Error
        | PacketKind::Eof
        | PacketKind::ColumnCount
        | PacketKind::LocalInfile
        | PacketKind::Prepared
        | PacketKind::Execute
        | PacketKind::Fetch => true,
        PacketKind::Column => matches!(phase, Phase::Columns { .. }),
        _ => false,
    }
}

impl<A: Allocator + Copy> Session<A> {
    // Goes on after a packet that was read, and says what it is.
    fn advance_past(&mut self, received: &Received<'_>) -> Result<PacketKind, SessionError>
        ensures kind { IfOk result (λ kind. kind ≡ received.now.kind) }
        ensures goes { OnOk result (state_of self.new
            ≡ advanced received.now (state_of self.old)) }
        ensures fails { IfErr result (IsRefusedMemory received.now.packet (state_of self.old)) }
        ensures stays { OnErr result (state_of self.new ≡ state_of self.old) }
    {
        self.advance(received)?;
        Ok(received.kind)
    }

    // Reads a packet that has come whole, and goes on after it.
    fn take_whole(&mut self, side: Side, id: u8, payload: &[u8]) -> Result<PacketKind, SessionError>
        ensures takes { IfOk result (TakesFront side id (length payload.now) payload.now
            (state_of self.old) (state_of self.new)) }
        ensures fails { IfErr result (FailsWhole side id payload.now (state_of self.old)) }
        ensures stays { OnErr result (state_of self.new ≡ state_of self.old) }
    {
        match self.read(side, id, payload) {
            Ok(received) => {
                let taken = self.advance_past(&received);
                forget(received);
                taken
            }
            Err(error) => Err(error),
        }
    }

    // Goes on after an execution, of which these first bytes have come.
    fn advance_execution(&mut self, side: Side, id: u8, len: usize, front: &[u8])
        ensures { state_of self.new
            ≡ asked Execute front.now (after_kind side id Execute len (state_of self.old)) }
    {
        self.advance_by_kind(side, id, PacketKind::Execute, len);
        self.note_cursor(PacketKind::Execute, front);
    }

    /// Goes on after a packet of this length, of which this front has come: its first three bytes or
    /// more, or all. Where what is known after it hangs on more, and it has not come whole, that is
    /// `NeedsWhole`: of logins, of what ends an answer, counts and definitions of columns, answers to
    /// `COM_STMT_PREPARE`, requests for a file, and `COM_STMT_FETCH`; and of a `COM_STMT_EXECUTE` of
    /// which fewer than six bytes have come, since its flags say whether rows follow.
    pub fn advance_front(
        &mut self,
        side: Side,
        id: u8,
        len: usize,
        front: &[u8],
    ) -> Result<PacketKind, FrontError>
        ensures takes { IfOk result (TakesFront side id len front.now (state_of self.old)
            (state_of self.new)) }
        ensures fails { IfErr result (FailsFront side id len front.now (state_of self.old)) }
        ensures stays { OnErr result (state_of self.new ≡ state_of self.old) }
    {
        let kind = self.classify(side, id, len, front);
        // (the numbers of the command and of its statement, and the flags)
        if let PacketKind::Execute = kind
            && front.len() >= 6
        {
            self.advance_execution(side, id, len, front);
            return Ok(kind);
        }
        if !says_more(kind, self.opened(kind, len).phase) {
            self.advance_by_kind(side, id, kind, len);
            return Ok(kind);
        }
        if front.len() != len {
            return Err(FrontError::NeedsWhole(kind));
        }
        match self.take_whole(side, id, front) {
            Ok(kind) => Ok(kind),
            Err(error) => Err(FrontError::Session(error)),
        }
    }
}
