//! What the crates of tests share: answers that can be compared, a codec with its buffers and its
//! steps as a table, targets that count, a reference reading of streams, streams from a seed, and every
//! call of the layers under refused memory, in tables (`requests`), of which each call answers plain
//! values that can be compared.
#![tactic(auto)]

pub mod answers;
pub mod case;
mod copies;
pub mod facts;
pub mod fields;
pub mod fixture;
pub mod generated;
pub mod numbers;
mod packets;
pub mod readers;
mod reading;
pub mod receiver;
pub mod reference;
pub mod refused;
pub mod requests;
pub mod script;
pub mod targets;
pub mod texts;
mod writing;
