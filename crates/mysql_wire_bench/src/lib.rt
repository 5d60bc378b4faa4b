//! The bench's workloads, as C functions on numbers and byte slices. Each does a whole workload a
//! number of times and answers a check value, a sum modulo 2^64, or 2^64 - 1 where anything is
//! refused. The driver in `bench/` calls and times them.
#![tactic(auto)]

mod check;
mod columns;
mod elsewhere;
mod fields;
mod in_place;
mod packets;
mod rows;
mod sessions;
mod spans;
mod streams;
mod typed;
