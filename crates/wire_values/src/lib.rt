//! Values at the front of a payload, and values one after another, for the lists of a layer above;
//! sets of flags as they were read, with the bits that no flag names; texts.
#![tactic(auto)]

pub mod field_laws;
pub mod flags;
pub mod payload;
pub mod read;
pub mod text;
pub mod write;
