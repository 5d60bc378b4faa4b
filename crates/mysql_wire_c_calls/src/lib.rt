//! What the calls for C do: with a connection, with packets in spans, with fields in bytes. What
//! they answer by, and one side of a connection, which they have by a handle.
#![tactic(auto)]

pub mod codes;
pub mod connection;
pub mod fields;
pub mod handle;
pub mod parts;
pub mod rows;
pub mod side;
pub mod spans;
pub mod texts;
pub mod view;
