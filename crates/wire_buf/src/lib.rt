//! What every layer above stands on: a buffer that is read from its front, the traits of reading
//! and writing, and the errors.
#![tactic(auto)]

pub mod error;
pub mod io;
pub mod lengths;
pub mod proto;
pub mod zero;
