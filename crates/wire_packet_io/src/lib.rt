//! Packets from a reader, and to a writer.
#![tactic(auto)]

mod error;
mod input;
pub mod laws;
mod reader;
mod writer;

pub use error::PacketIoError;
pub use reader::PacketReader;
pub use writer::PacketWriter;
