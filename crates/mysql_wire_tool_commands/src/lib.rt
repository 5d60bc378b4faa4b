//! The commands of the program `mysql_wire_tool`, over any reader and any writer.
#![tactic(auto)]

pub mod arguments;
pub mod chunk;
mod chunk_writer;
pub mod frame;
mod input;
mod lines;
mod long_packet;
mod output;
mod packet_lines;
mod piece_lines;
pub mod reframe;
mod room;
mod sender;
pub mod status;
mod std_readers;
pub mod traced_read;
pub mod unframe;
