//! Fields that mean something, and fields together: constants by their numbers, bytes, one of two
//! values, and two in a row.
#![tactic(auto)]

pub mod converted;
mod numbers;
pub mod row;
