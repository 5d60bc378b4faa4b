//! A connection on the heap, as C holds it.

ghost use Rattle.std.specs.Prelude.{◌≡◌, IsSome, Some, None, is_none};
ghost use Rattle.std.specs.declared.option.Option.{Option};
ghost use types.Logic.{sem};
ghost use Rattle.mysql_wire_c_calls.specs.declared.side.Connection.{Connection};
ghost use Rattle.mysql_wire_c_calls.specs.Owned.{connection_coded, handle_owns};

use crate::parts::Parts;
use crate::side::Connection;
use std::alloc::Global;
use std::marker::Model;

/// Owns a connection on the heap, or nothing, where its pointer is null. It is one word wide.
#[repr(C)]
#[derive(Drop)]
pub struct Handle {
    at: *mut u8,
    alloc: Global,
    pub ghost connection: { Option Connection } by { connection_coded },
}

impl Model for Handle {
    ghost also_owns = { λ h. handle_owns h.alloc h.at h.connection };
}

impl Handle {
    ghost use Rattle.mysql_wire_c_calls.specs.Lent.{lends_connection};

    /// A handle of this connection.
    pub fn of(connection: Box<Connection, Global>) -> Handle
        ensures { result.connection ≡ Some connection.value }
    {
        Handle::of_parts(Parts::of(connection))
    }

    /// The connection, out of the handle.
    pub fn into_box(self) -> Box<Connection, Global>
        requires { IsSome self.connection }
        ensures { self.connection ≡ Some result.value }
    {
        self.into_parts().into_box()
    }

    /// The connection. What is written through the borrow is what the handle has when it ends.
    pub fn connection(&mut self) -> &mut Connection
        requires { IsSome self.old.connection }
        ensures* writes_back { sem 𝓛 (lends_connection self.entry result) }
        ensures value { self.old.connection ≡ Some result.now }
    {
        unsafe { &mut *(self.at as *mut Connection) }
    }

    /// Whether there is no connection.
    pub fn is_closed(&mut self) -> bool
        ensures { (self.new ≡ self.old) × (result ≡ is_none self.old.connection) }
    {
        self.at.is_null()
    }

    /// A handle of nothing.
    pub fn closed(alloc: Global) -> Handle
        ensures { result.connection ≡ None }
    {
        Handle {
            at: std::ptr::null_mut(),
            alloc,
        }
    }

    fn of_parts(parts: Parts<Connection, Global>) -> Handle
        ensures { result.connection ≡ Some parts.value }
    {
        let Parts { ptr, alloc } = parts;
        Handle {
            at: ptr as *mut u8,
            alloc,
        }
    }

    fn into_parts(self) -> Parts<Connection, Global>
        requires { IsSome self.connection }
        ensures { self.connection ≡ Some result.value }
    {
        let Handle { at, alloc } = self;
        Parts {
            ptr: at as *mut Connection,
            alloc,
        }
    }
}
