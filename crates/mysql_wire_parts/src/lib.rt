//! What packets are made of: fields that may be missing, fields lent for writing, and a payload that
//! is one packet.
#![tactic(auto)]

pub mod by_ref;
pub mod optional;
pub mod payload;
pub mod places;
