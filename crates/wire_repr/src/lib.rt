//! Numbers and texts as they stand in packets: what a way to write them has to have, numbers of a
//! fixed size, and the law that what is written is read back.
#![tactic(auto)]

pub mod append;
pub mod field_laws;
pub mod int;
pub mod text;
pub mod wire;
