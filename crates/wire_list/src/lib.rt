//! Lists of fields: of values after their count, and of numbers that stand for constants; and how
//! fields are compared.
#![tactic(auto)]

pub mod field_laws;
pub mod raw_seq;
pub mod seq;
