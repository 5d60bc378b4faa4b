//! How numbers, texts and constants stand in packets: the forms beside the plain little-endian
//! numbers of `wire_repr`.
#![tactic(auto)]

pub mod constant;
pub mod halves;
pub mod lenenc;
pub mod null;
pub mod prefixed;
pub mod truncated;
pub mod undelimited;
pub mod varlen;
