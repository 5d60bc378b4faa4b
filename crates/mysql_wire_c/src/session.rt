//! A session over the library's memory, and what its calls answer.

ghost use Rattle.std.specs.Prelude.{◌≡◌, ◌⊎◌, IfOk, IfSome, OnErr, OnOk, length};
ghost use Rattle.mysql_wire_session.specs.Readings.{Receives, advanced};
ghost use Rattle.mysql_wire_session.specs.State.{state_of};
ghost use Rattle.mysql_wire_c_calls.specs.declared.codes.TheConstants.{NEEDS_WHOLE, NO_MEMORY, OK};
ghost use Rattle.mysql_wire_c.specs.Calls.{Classifies, FollowsFront, FollowsPacket, Passes, TellsStatement, Took, TookFront, WantsWhole, idle_number, is_front, is_refused, new_session, next_id_of, phase_of, sender_of, status_of};
ghost use Rattle.mysql_wire_c.specs.Numbers.{kind_number};

use crate::numbers::{kind_number, phase_number, sender_number, side_of};
use mysql_wire_c_calls::codes::{
    NEEDS_WHOLE, NO_MEMORY, NO_STATEMENT, NOT_A_FRONT, NOT_A_SIDE, OK, REFUSED,
};
use mysql_wire_session::packet::{Packet, Received, Row, forget};
use mysql_wire_session::refusal::SessionError;
use mysql_wire_session::session::{FrontError, Session};
use mysql_wire_session::side::Side;
use std::alloc::Global;
use std::marker::Model;
use wire_const::Flags;

// The least bytes of a front that is not the whole payload.
const FRONT_LEN: usize = 3;

// A packet after which a session went on.
#[derive(Clone, Copy)]
struct Taken {
    kind: u8,
    is_refused: bool,
}

/// A session over the library's memory.
///
/// Contracts see what it knows: its `SessionState`.
#[derive(Drop)]
pub struct FollowedSession {
    session: Session<Global>,
}

impl Model for FollowedSession {
    ghost use Rattle.mysql_wire_session.specs.State.{SessionState, state_of};

    ghost Value = { SessionState };

    ghost view = { λ followed. state_of followed.session };
}

// Whether the type of its place refuses a payload.
fn is_refused(packet: &Packet<'_>) -> bool
    ensures { result ≡ is_refused packet.now }
{
    matches!(packet, Packet::Refused(_) | Packet::Row(Row::Refused(_)))
}

// Whether this many bytes may be the front of a payload of this length.
fn is_front(len: usize, count: usize) -> bool
    ensures { result ≡ is_front len count }
{
    count == len || (count < len && FRONT_LEN <= count)
}

// Goes on after a packet that was read.
fn advance_past(
    session: &mut Session<Global>,
    received: &Received<'_>,
) -> Result<Taken, SessionError>
    ensures taken { IfOk result (λ taken. (taken.kind ≡ kind_number received.now.kind)
        × (taken.is_refused ≡ is_refused received.now.packet)) }
    ensures goes { OnOk result (state_of session.new
        ≡ advanced received.now (state_of session.old)) }
    ensures stays { OnErr result (state_of session.new ≡ state_of session.old) }
{
    session.advance(received)?;
    Ok(Taken {
        kind: kind_number(received.kind),
        is_refused: is_refused(&received.packet),
    })
}

// Reads a whole payload, and goes on after it.
fn take(
    session: &mut Session<Global>,
    side: Side,
    id: u8,
    payload: &[u8],
) -> Result<Taken, SessionError>
    ensures takes { IfOk result (λ taken. Took side id payload.now taken.kind taken.is_refused
        (state_of session.old) (state_of session.new)) }
    ensures stays { OnErr result (state_of session.new ≡ state_of session.old) }
{
    match session.read(side, id, payload) {
        Ok(received) => {
            let taken = advance_past(session, &received);
            forget(received);
            taken
        }
        Err(error) => Err(error),
    }
}

// Goes on after a front, or says why not; `kind` is the number of a kind, or 0.
fn take_front(
    session: &mut Session<Global>,
    side: Side,
    id: u8,
    len: usize,
    front: &[u8],
    kind: &mut u32,
) -> i32
    ensures takes { result ≡ OK → TookFront side id len front.now kind.new
        (state_of session.old) (state_of session.new) }
    ensures needs { result ≡ NEEDS_WHOLE → WantsWhole side id len front.now kind.new
        (state_of session.old) }
    ensures memory { result ≡ NO_MEMORY → length front.now ≡ len }
    ensures stays { (result ≡ OK) ⊎ (state_of session.new ≡ state_of session.old) }
    ensures none { (result ≡ OK) ⊎ (result ≡ NEEDS_WHOLE) ⊎ (kind.new ≡ 0) }
    ensures answers { (result ≡ OK) ⊎ (result ≡ NEEDS_WHOLE) ⊎ (result ≡ NO_MEMORY) }
{
    *kind = 0;
    match session.advance_front(side, id, len, front) {
        Ok(called) => {
            *kind = kind_number(called) as u32;
            OK
        }
        Err(FrontError::NeedsWhole(called)) => {
            *kind = kind_number(called) as u32;
            NEEDS_WHOLE
        }
        Err(FrontError::Session(_)) => NO_MEMORY,
    }
}

impl FollowedSession {
    /// A session that begins.
    pub fn new(alloc: Global) -> FollowedSession
        ensures { result ≡ new_session }
    {
        FollowedSession {
            session: Session::new(alloc, alloc),
        }
    }

    /// Reads a whole payload, and goes on after it; `kind` is what it is in its phase. `REFUSED`: it
    /// is no packet of that kind, and the session went on all the same. `NOT_A_SIDE` and `NO_MEMORY`
    /// change nothing.
    pub fn packet(&mut self, side: u32, id: u8, payload: &[u8], kind: &mut u32) -> i32
        ensures { FollowsPacket side id payload.now kind.new result self.old self.new }
    {
        *kind = 0;
        let Some(side) = side_of(side) else {
            return NOT_A_SIDE;
        };
        match take(&mut self.session, side, id, payload) {
            Ok(taken) => {
                *kind = taken.kind as u32;
                if taken.is_refused { REFUSED } else { OK }
            }
            Err(_) => NO_MEMORY,
        }
    }

    /// Goes on after a packet of this length, of which this front has come; `kind` is what it is.
    /// `NEEDS_WHOLE`: what is known after a packet of this kind hangs on all of it. It, `NOT_A_SIDE`,
    /// `NOT_A_FRONT` and `NO_MEMORY` change nothing.
    pub fn front(&mut self, side: u32, id: u8, len: usize, front: &[u8], kind: &mut u32) -> i32
        ensures { FollowsFront side id len front.now kind.new result self.old self.new }
    {
        *kind = 0;
        let Some(side) = side_of(side) else {
            return NOT_A_SIDE;
        };
        if !is_front(len, front.len()) {
            return NOT_A_FRONT;
        }
        take_front(&mut self.session, side, id, len, front, kind)
    }

    /// What a packet of this length is, of which this front has come. `NOT_A_SIDE`, `NOT_A_FRONT`.
    pub fn classify(&self, side: u32, id: u8, len: usize, front: &[u8], kind: &mut u32) -> i32
        ensures { Classifies side id len front.now kind.new result self.now }
    {
        *kind = 0;
        let Some(side) = side_of(side) else {
            return NOT_A_SIDE;
        };
        if !is_front(len, front.len()) {
            return NOT_A_FRONT;
        }
        *kind = kind_number(self.session.classify(side, id, len, front)) as u32;
        OK
    }

    /// Goes on after a packet of this length whose payload was passed over. `NOT_A_SIDE` changes
    /// nothing.
    pub fn pass(&mut self, side: u32, id: u8, len: usize) -> i32
        ensures { Passes side id len result self.old self.new }
    {
        let Some(side) = side_of(side) else {
            return NOT_A_SIDE;
        };
        self.session.pass(side, id, len);
        OK
    }

    /// The number of the phase.
    pub fn phase(&self) -> i32
        ensures { result ≡ phase_of self.now }
    {
        phase_number(self.session.phase()) as i32
    }

    /// The number of whose packet is next.
    pub fn next_sender(&self) -> i32
        ensures { result ≡ sender_of self.now }
    {
        sender_number(self.session.next_sender()) as i32
    }

    /// 1 where a command is waited for, else 0.
    pub fn is_idle(&self) -> i32
        ensures { result ≡ idle_number self.now }
    {
        if self.session.is_idle() { 1 } else { 0 }
    }

    /// The flags that the last OK or EOF told.
    pub fn status(&self) -> i32
        ensures { result ≡ status_of self.now }
    {
        self.session.status().bits() as i32
    }

    /// The flags of what the client can do.
    pub fn capabilities(&self) -> u32
        ensures { result ≡ self.now.capabilities.0 }
    {
        self.session.capabilities().bits()
    }

    /// The id that follows the last packet's.
    pub fn next_id(&self) -> i32
        ensures { result ≡ next_id_of self.now }
    {
        self.session.next_id() as i32
    }

    /// How many parameters and columns the newest statement of this number has. `NO_STATEMENT`: none
    /// is known, and both are 0.
    pub fn statement(&self, number: u32, parameters: &mut u16, columns: &mut u16) -> i32
        ensures { TellsStatement number parameters.new columns.new result self.now }
    {
        match self.session.statement(number) {
            Some(statement) => {
                *parameters = statement.num_params;
                *columns = statement.num_columns;
                OK
            }
            None => {
                *parameters = 0;
                *columns = 0;
                NO_STATEMENT
            }
        }
    }
}

/// A session that begins, on the heap.
pub fn boxed(alloc: Global) -> Option<Box<FollowedSession, Global>>
    ensures { IfSome result (λ session. session.value ≡ new_session) }
{
    match Box::new(alloc, FollowedSession::new(alloc)) {
        Ok(session) => Some(session),
        Err(_) => None,
    }
}
