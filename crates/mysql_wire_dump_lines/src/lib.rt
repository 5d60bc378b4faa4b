//! A dump of a session, of any two readers to any writer: what is asked for, whose packet is next, how
//! a direction is read and ends, the lines of its packets, and the fields of each packet as members of
//! text or JSON.
#![tactic(auto)]

pub mod arguments;
pub mod dump;
pub mod lines;
pub mod next_sender;
pub mod options;
pub mod packet_stream;
pub mod show;
pub mod status;
mod temporal;
