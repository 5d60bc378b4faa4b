//! What was found of a payload.

use crate::place::Kind;
use crate::shown::{Fields, Shown};
use mysql_wire_packets::places::read_exact;
use refusing_allocator::Refusing;
use std::alloc::Global;
use std::mem::ManuallyDrop;
use test_support::fields::is_written;
use wire_buf::proto::{MyDeserialize, MySerialize};

/// A payload, and its first fields, where they are listed.
#[derive(Clone, Copy)]
pub struct Payload<'a> {
    pub bytes: &'a [u8],
    pub listed: Option<&'a [u8]>,
}

/// What became of a payload.
#[derive(Clone, Copy)]
pub enum Outcome {
    WrittenBack,
    Refused,
    /// There is no type for it.
    PassedOver,
}

/// What was found.
#[derive(Clone, Copy)]
pub struct Found {
    pub kind: Kind,
    pub outcome: Outcome,
    /// Whether the fields are those that are listed, where some are.
    pub is_as_listed: Option<bool>,
}

impl Found {
    /// Of a payload that was read as this packet.
    pub fn of<T: MySerialize + Shown>(
        alloc: Global,
        kind: Kind,
        packet: &T,
        payload: Payload<'_>,
    ) -> Found {
        let mut fields = Fields::new(alloc);
        fields.all_of(packet);
        // (whichever request for memory is refused)
        let heap = Refusing::new(alloc, 0);
        let outcome = if fields.is_whole & is_written(&heap, packet, payload.bytes) {
            Outcome::WrittenBack
        } else {
            Outcome::Refused
        };
        let is_as_listed = match payload.listed {
            Some(listed) => Some(fields.begin_with(listed)),
            None => None,
        };
        Found {
            kind,
            outcome,
            is_as_listed,
        }
    }

    /// The same, where the packet is let go.
    pub fn taken<T: MySerialize + Shown + Drop>(
        alloc: Global,
        kind: Kind,
        packet: T,
        payload: Payload<'_>,
    ) -> Found {
        Found::of(alloc, kind, &packet, payload)
    }

    /// The same, where the packet is given up. It borrows from the payload, and owns no memory.
    pub fn given_up<T: MySerialize + Shown>(
        alloc: Global,
        kind: Kind,
        packet: T,
        payload: Payload<'_>,
    ) -> Found {
        // (this names no destructor, for which one would be proved)
        let packet = unsafe { ManuallyDrop::new_unchecked(packet) };
        Found::of(alloc, kind, &*packet, payload)
    }

    /// Of a payload that is one packet of this type.
    pub fn exact<'a, T: MySerialize + Shown + MyDeserialize<'a, Global>>(
        alloc: Global,
        kind: Kind,
        ctx: T::Ctx,
        payload: Payload<'a>,
    ) -> Found {
        match read_exact::<T>(alloc, ctx, payload.bytes) {
            Ok(packet) => Found::taken(alloc, kind, packet, payload),
            Err(_) => Found::refused(kind, payload),
        }
    }

    /// Of a payload that is refused.
    pub fn refused(kind: Kind, payload: Payload<'_>) -> Found {
        let is_as_listed = if payload.listed.is_some() {
            Some(false)
        } else {
            None
        };
        Found {
            kind,
            outcome: Outcome::Refused,
            is_as_listed,
        }
    }

    /// Of a payload for which there is no type.
    pub fn passed_over(kind: Kind, payload: Payload<'_>) -> Found {
        Found {
            outcome: Outcome::PassedOver,
            ..Found::refused(kind, payload)
        }
    }

    /// The same, where this holds too; else the payload is refused, and its fields are others.
    pub fn and(self, holds: bool) -> Found {
        match (holds, self.is_as_listed) {
            (true, _) => self,
            (false, is_as_listed) => Found {
                outcome: Outcome::Refused,
                is_as_listed: is_as_listed.and(Some(false)),
                ..self
            },
        }
    }
}
