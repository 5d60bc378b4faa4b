//! What was written is read back, spelled out for each number, text and constant, for each type that
//! converts, for rows, and for payloads.
//!
//! A function named `.._comes_back` says when a value is good, and which may come back of it: what
//! the members `good` and `kept` of its law are. It does nothing.
#![tactic(auto)]

pub mod constants;
pub mod converted;
pub mod numbers;
pub mod payloads;
pub mod rows;
pub mod texts;
