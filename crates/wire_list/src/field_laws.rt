//! How the types of this crate are compared, and when a list comes back.
//!
//! A function named `.._compares` says that values of its type are equal, ordered and hashed as their
//! fields are. One named `.._comes_back` says when a value is good, and which may come back of it.
//! Both do nothing.

pub mod compared;
pub mod lists;
