//! Packets that every answer ends with, `OK`, `ERR` and `EOF`, and what packets are made of.
#![tactic(auto)]

pub use mysql_wire_parts::{by_ref, optional, places};

pub mod eof_packet;
pub mod err_packet;
pub mod good;
pub mod laws;
pub mod ok_packet;
pub mod payload;
pub mod progress_report;
pub mod session_change;
