//! Numbers whose length is in their first byte, and the texts after them, over readers and writers;
//! lengths, integers of the serialization library, and server versions.
#![tactic(auto)]

pub mod io;
pub mod misc;
