//! What is text and no protocol: hex digits, what texts are put together of, and fields as text or as
//! members of a JSON object.
#![tactic(auto)]

mod backslashes;
pub mod digits;
mod escapes;
pub mod fields;
mod long;
mod members;
mod places;
mod plain;
pub mod put;
mod quoted;
pub mod stop;
mod wide;
