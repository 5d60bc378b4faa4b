//! A session on the heap, as C holds it.

ghost use Rattle.std.specs.Prelude.{◌≡◌, IsSome, Some, None, is_none};
ghost use Rattle.std.specs.declared.option.Option.{Option};
ghost use types.Logic.{sem};
ghost use Rattle.mysql_wire_c.specs.declared.session.FollowedSession.{FollowedSession};
ghost use Rattle.mysql_wire_c.specs.Owned.{session_coded, handle_owns};

use crate::session::FollowedSession;
use mysql_wire_c_calls::parts::Parts;
use std::alloc::Global;
use std::marker::Model;

/// Owns a session on the heap, or nothing, where its pointer is null. It is one word wide.
#[repr(C)]
#[derive(Drop)]
pub struct SessionHandle {
    at: *mut u8,
    alloc: Global,
    pub ghost session: { Option FollowedSession } by { session_coded },
}

impl Model for SessionHandle {
    ghost also_owns = { λ h. handle_owns h.alloc h.at h.session };
}

impl SessionHandle {
    ghost use Rattle.mysql_wire_c.specs.Lent.{lends_session};

    /// A handle of this session.
    pub fn of(session: Box<FollowedSession, Global>) -> SessionHandle
        ensures { result.session ≡ Some session.value }
    {
        SessionHandle::of_parts(Parts::of(session))
    }

    /// The session, out of the handle.
    pub fn into_box(self) -> Box<FollowedSession, Global>
        requires { IsSome self.session }
        ensures { self.session ≡ Some result.value }
    {
        self.into_parts().into_box()
    }

    /// The session. What is written through the borrow is what the handle has when it ends.
    pub fn session(&mut self) -> &mut FollowedSession
        requires { IsSome self.old.session }
        ensures* writes_back { sem 𝓛 (lends_session self.entry result) }
        ensures value { self.old.session ≡ Some result.now }
    {
        unsafe { &mut *(self.at as *mut FollowedSession) }
    }

    /// Whether there is no session.
    pub fn is_closed(&mut self) -> bool
        ensures { (self.new ≡ self.old) × (result ≡ is_none self.old.session) }
    {
        self.at.is_null()
    }

    /// A handle of nothing.
    pub fn closed(alloc: Global) -> SessionHandle
        ensures { result.session ≡ None }
    {
        SessionHandle {
            at: std::ptr::null_mut(),
            alloc,
        }
    }

    fn of_parts(parts: Parts<FollowedSession, Global>) -> SessionHandle
        ensures { result.session ≡ Some parts.value }
    {
        let Parts { ptr, alloc } = parts;
        SessionHandle {
            at: ptr as *mut u8,
            alloc,
        }
    }

    fn into_parts(self) -> Parts<FollowedSession, Global>
        requires { IsSome self.session }
        ensures { self.session ≡ Some result.value }
    {
        let SessionHandle { at, alloc } = self;
        Parts {
            ptr: at as *mut FollowedSession,
            alloc,
        }
    }
}
