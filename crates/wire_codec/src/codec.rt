//! Packets and chunks.
mod chunk;
mod delivery;
mod each;
mod early;
pub mod error;
mod framing;
pub mod header;
mod limited;
mod packet;
mod pieces;
mod room;
mod taking;
mod value;

pub use chunk::{ChunkDecoder, ChunkInfo, PacketDst};
pub use delivery::deliver;
pub use each::{Visit, deliver_each};
pub use early::{early_judgement, is_out_of_step};
pub use framing::{framed_len, packet_to_chunks, packet_to_slice};
pub use limited::{deliver_each_limited, deliver_limited};
pub use packet::{PacketCodec, Skipped};
pub use value::encode_value;
