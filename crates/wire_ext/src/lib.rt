//! Numbers whose length is in their first byte, and the texts after them, put into buffers.
#![tactic(auto)]

mod put;
pub mod spelling;
pub mod text;

pub use put::BufMutExt;
