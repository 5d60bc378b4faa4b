//! The calls of a session.

ghost use Rattle.std.specs.Prelude.{◌≡◌, ◌↔◌, ◌⊎◌, IsSome, MatchOption, None, Some, is_some};
ghost use Rattle.mysql_wire_c.specs.Calls.{BothSessions, Classifies, FollowsFront, FollowsPacket, Passes, TellsStatement, idle_number, new_session, next_id_of, phase_of, sender_of, status_of};

use crate::handle::SessionHandle;
use crate::session::boxed;
use mysql_wire_c_calls::codes::{CLOSED, IS_OPEN, NO_MEMORY, OK};
use std::alloc::Global;
use std::mem;

/// Puts a session that begins into a handle of nothing.
#[unsafe(no_mangle)]
pub extern "C" fn mysql_wire_session_new(alloc: Global, handle: &mut SessionHandle) -> i32
    ensures begins { result ≡ OK → (handle.old.session ≡ None)
        × (handle.new.session ≡ Some new_session) }
    ensures refused { (result ≡ OK) ⊎ (handle.new ≡ handle.old) }
    ensures answers { (result ≡ OK) ⊎ (result ≡ IS_OPEN) ⊎ (result ≡ NO_MEMORY) }
    ensures is_open { (result ≡ IS_OPEN) ↔ IsSome handle.old.session }
{
    if !handle.is_closed() {
        return IS_OPEN;
    }
    match boxed(alloc) {
        Some(session) => {
            *handle = SessionHandle::of(session);
            OK
        }
        None => NO_MEMORY,
    }
}

/// Frees the session, where there is one, and leaves the handle without one.
#[unsafe(no_mangle)]
pub extern "C" fn mysql_wire_session_free(alloc: Global, handle: &mut SessionHandle)
    ensures { handle.new.session ≡ None }
{
    if handle.is_closed() {
        return;
    }
    let old = mem::replace(handle, SessionHandle::closed(alloc));
    drop(old.into_box())
}

/// Reads a whole payload, and goes on after it.
#[unsafe(no_mangle)]
pub extern "C" fn mysql_wire_session_packet(
    handle: &mut SessionHandle,
    side: u32,
    id: u8,
    payload: &[u8],
    kind: &mut u32,
) -> i32
    ensures open { is_some handle.new.session ≡ is_some handle.old.session }
    ensures closed { handle.old.session ≡ None → (result ≡ CLOSED) × (kind.new ≡ 0) }
    ensures follows { BothSessions handle.old.session handle.new.session
        (FollowsPacket side id payload.now kind.new result) }
{
    *kind = 0;
    if handle.is_closed() {
        return CLOSED;
    }
    handle.session().packet(side, id, payload, kind)
}

/// Goes on after a packet of this length, of which this front has come.
#[unsafe(no_mangle)]
pub extern "C" fn mysql_wire_session_front(
    handle: &mut SessionHandle,
    side: u32,
    id: u8,
    len: usize,
    front: &[u8],
    kind: &mut u32,
) -> i32
    ensures open { is_some handle.new.session ≡ is_some handle.old.session }
    ensures closed { handle.old.session ≡ None → (result ≡ CLOSED) × (kind.new ≡ 0) }
    ensures follows { BothSessions handle.old.session handle.new.session
        (FollowsFront side id len front.now kind.new result) }
{
    *kind = 0;
    if handle.is_closed() {
        return CLOSED;
    }
    handle.session().front(side, id, len, front, kind)
}

/// What a packet of this length is, of which this front has come.
#[unsafe(no_mangle)]
pub extern "C" fn mysql_wire_session_classify(
    handle: &mut SessionHandle,
    side: u32,
    id: u8,
    len: usize,
    front: &[u8],
    kind: &mut u32,
) -> i32
    ensures same { handle.new.session ≡ handle.old.session }
    ensures classifies { MatchOption handle.old.session ((result ≡ CLOSED) × (kind.new ≡ 0))
        (Classifies side id len front.now kind.new result) }
{
    *kind = 0;
    if handle.is_closed() {
        return CLOSED;
    }
    handle.session().classify(side, id, len, front, kind)
}

/// Goes on after a packet of this length whose payload was passed over.
#[unsafe(no_mangle)]
pub extern "C" fn mysql_wire_session_pass(
    handle: &mut SessionHandle,
    side: u32,
    id: u8,
    len: usize,
) -> i32
    ensures open { is_some handle.new.session ≡ is_some handle.old.session }
    ensures closed { handle.old.session ≡ None → result ≡ CLOSED }
    ensures passes { BothSessions handle.old.session handle.new.session
        (Passes side id len result) }
{
    if handle.is_closed() {
        return CLOSED;
    }
    handle.session().pass(side, id, len)
}

/// The number of what is waited for.
#[unsafe(no_mangle)]
pub extern "C" fn mysql_wire_session_phase(handle: &mut SessionHandle) -> i32
    ensures same { handle.new.session ≡ handle.old.session }
    ensures number { MatchOption handle.old.session (result ≡ CLOSED)
        (λ state. result ≡ phase_of state) }
{
    if handle.is_closed() {
        return CLOSED;
    }
    handle.session().phase()
}

/// The number of whose packet is next.
#[unsafe(no_mangle)]
pub extern "C" fn mysql_wire_session_next_sender(handle: &mut SessionHandle) -> i32
    ensures same { handle.new.session ≡ handle.old.session }
    ensures number { MatchOption handle.old.session (result ≡ CLOSED)
        (λ state. result ≡ sender_of state) }
{
    if handle.is_closed() {
        return CLOSED;
    }
    handle.session().next_sender()
}

/// 1 where a command is waited for, else 0.
#[unsafe(no_mangle)]
pub extern "C" fn mysql_wire_session_is_idle(handle: &mut SessionHandle) -> i32
    ensures same { handle.new.session ≡ handle.old.session }
    ensures number { MatchOption handle.old.session (result ≡ CLOSED)
        (λ state. result ≡ idle_number state) }
{
    if handle.is_closed() {
        return CLOSED;
    }
    handle.session().is_idle()
}

/// The flags that the last OK or EOF told.
#[unsafe(no_mangle)]
pub extern "C" fn mysql_wire_session_status(handle: &mut SessionHandle) -> i32
    ensures same { handle.new.session ≡ handle.old.session }
    ensures flags { MatchOption handle.old.session (result ≡ CLOSED)
        (λ state. result ≡ status_of state) }
{
    if handle.is_closed() {
        return CLOSED;
    }
    handle.session().status()
}

/// The flags of what the client can do.
#[unsafe(no_mangle)]
pub extern "C" fn mysql_wire_session_capabilities(handle: &mut SessionHandle) -> u32
    ensures same { handle.new.session ≡ handle.old.session }
    ensures flags { MatchOption handle.old.session (result ≡ 0)
        (λ state. result ≡ state.capabilities.0) }
{
    if handle.is_closed() {
        return 0;
    }
    handle.session().capabilities()
}

/// The id that follows the last packet's.
#[unsafe(no_mangle)]
pub extern "C" fn mysql_wire_session_next_id(handle: &mut SessionHandle) -> i32
    ensures same { handle.new.session ≡ handle.old.session }
    ensures number { MatchOption handle.old.session (result ≡ CLOSED)
        (λ state. result ≡ next_id_of state) }
{
    if handle.is_closed() {
        return CLOSED;
    }
    handle.session().next_id()
}

/// How many parameters and columns the newest statement of this number has.
#[unsafe(no_mangle)]
pub extern "C" fn mysql_wire_session_statement(
    handle: &mut SessionHandle,
    number: u32,
    parameters: &mut u16,
    columns: &mut u16,
) -> i32
    ensures same { handle.new.session ≡ handle.old.session }
    ensures tells { MatchOption handle.old.session
        ((result ≡ CLOSED) × (parameters.new ≡ 0) × (columns.new ≡ 0))
        (TellsStatement number parameters.new columns.new result) }
{
    *parameters = 0;
    *columns = 0;
    if handle.is_closed() {
        return CLOSED;
    }
    handle.session().statement(number, parameters, columns)
}
