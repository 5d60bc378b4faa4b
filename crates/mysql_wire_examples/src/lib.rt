//! Callers of packets, streams, fields, lists and constants, proved. `facade_tests` runs them.
#![tactic(auto)]

pub mod again;
pub mod both_ends;
pub mod callers;
mod commands;
pub mod connection;
mod constant_calls;
pub mod field_callers;
pub mod in_place;
pub mod inbox;
pub mod keyed;
pub mod login;
pub mod long_packet;
pub mod measured;
pub mod own_fields;
pub mod parameters;
pub mod recording;
pub mod session;
pub mod sockets;
pub mod text_lists;
pub mod values;
