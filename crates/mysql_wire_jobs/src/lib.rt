//! What the jobs of `bench/` are made of: sessions and streams that a seed makes, and the jobs that
//! need no program's commands.
#![tactic(auto)]

pub mod answers;
pub mod digest;
pub mod draws;
pub mod making;
pub mod passing;
pub mod reading;
pub mod serving;
pub mod statements;
pub mod streams;
mod values;
