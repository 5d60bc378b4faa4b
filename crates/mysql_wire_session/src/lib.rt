//! A session, followed packet by packet: what each packet is, by its phase, its first bytes and its
//! length, what it is read as, whose turn it is, what is waited for after it, and where an answer ends;
//! and that a session follows the exchanges of MySQL's pages.
#![tactic(auto)]

pub mod classify;
pub mod client_command;
pub mod laws;
pub mod next_phase;
pub mod packet;
pub mod packet_kind;
pub mod packet_laws;
mod packet_payload;
pub mod phase;
pub mod refusal;
pub mod session;
pub mod side;
mod statements;

/// What it is that a payload is a packet.
pub mod payload {
    pub use mysql_wire_parts::payload::Payload;
}
