//! A packet of a known length, framed as its bytes come: nothing is collected, and no memory is
//! asked for.

ghost use Rattle.std.specs.Prelude.{◌≡◌, ℕ, ◌+◌, ◌^◌, ◌<◌, ◌≤◌, ◌↔◌, ◌⊎◌, [], ◌++◌, length, Some, IsTrue, IsSome, OnOk, OnErr, IfSome, IfNone, unwrap_or};

use thiserror::Error;
use wire_buf::lengths::MAX_PAYLOAD_LEN;
use wire_codec::codec::header::{HEADER_LEN, Header};

/// A packet isn't begun inside another one.
#[derive(Debug, Clone, Copy, PartialEq, Eq, Error)]
#[error("A packet is unfinished")]
pub struct UnfinishedPacket;

/// What goes out next: a header, payload bytes, or both. The bytes are borrowed from the piece that
/// brought them.
#[derive(Debug, Clone, Copy, PartialEq, Eq)]
pub struct FramePart<'a> {
    /// The header of the next chunk, where one begins here. It goes first.
    pub header: Option<[u8; HEADER_LEN]>,
    /// Payload bytes of the chunk, after its header.
    pub bytes: &'a [u8],
    /// Whether the packet has gone whole with this.
    pub ends_packet: bool,
}

/// Frames packets whose lengths are known, as their bytes come in pieces. Its state has one size
/// whatever the packets', and it never asks for memory.
///
/// <https://dev.mysql.com/doc/dev/mysql-server/latest/page_protocol_basic_packets.html>
#[derive(Debug, Clone, Copy, PartialEq, Eq)]
pub struct FrameWriter {
    seq_id: u8,
    // How many bytes of the open chunk are to come.
    chunk_left: usize,
    // How many bytes of the packet are to come after it, in chunks of their own; `None` where no
    // chunk follows.
    behind: Option<usize>,
    ghost fits: { chunk_left + unwrap_or behind 0 < 2 ^ 64 },
}

impl Default for FrameWriter {
    ghost use Rattle.wire_span.specs.Framed.{frame_state, IsBetweenPackets};

    ghost is_default = { λ writer. IsBetweenPackets (frame_state writer)
        × ((frame_state writer).id ≡ 0) };

    /// A writer at the start of a command.
    fn default() -> Self {
        FrameWriter {
            seq_id: 0,
            chunk_left: 0,
            behind: None,
        }
    }
}

impl FrameWriter {
    ghost use Rattle.wire_span.specs.Framed.{frame_state, payload_left, begun, header_bytes, most_parts, IsBetweenPackets, IsHeaderDue, FramesOn};

    /// The sequence id that the next chunk bears.
    pub fn sequence_id(&self) -> u8
        ensures { result ≡ (frame_state self.now).id }
    {
        self.seq_id
    }

    /// Sets the sequence id that the next chunk bears, wherever the writer is.
    pub fn set_sequence_id(&mut self, seq_id: u8)
        ensures { frame_state self.new ≡ record (frame_state self.old) { id = seq_id } }
    {
        self.seq_id = seq_id;
    }

    /// As `set_sequence_id` with 0, as at the start of a command.
    pub fn reset_seq_id(&mut self)
        ensures { frame_state self.new ≡ record (frame_state self.old) { id = 0 } }
    {
        self.seq_id = 0;
    }

    /// Whether no packet is begun, or all of it has gone.
    pub fn is_between_packets(&self) -> bool
        ensures { IsTrue result ↔ IsBetweenPackets (frame_state self.now) }
    {
        self.chunk_left == 0 && self.behind.is_none()
    }

    /// How many payload bytes of the packet are to come.
    pub fn payload_left(&self) -> usize
        ensures { result ≡ payload_left (frame_state self.now) }
    {
        self.chunk_left + self.behind.unwrap_or(0)
    }

    /// Begins a packet of this many payload bytes, any number from 0 on. `UnfinishedPacket`: the one
    /// before has not gone whole. Then nothing changes.
    pub fn begin(&mut self, len: usize) -> Result<(), UnfinishedPacket>
        ensures ok { OnOk result ((frame_state self.new ≡ begun (frame_state self.old).id len)
            × IsBetweenPackets (frame_state self.old)) }
        ensures err { OnErr result ((frame_state self.new ≡ frame_state self.old)
            × (¬ IsBetweenPackets (frame_state self.old))) }
    {
        if !self.is_between_packets() {
            return Err(UnfinishedPacket);
        }
        self.behind = Some(len);
        Ok(())
    }

    // Opens the next chunk where one is due: its header. After a full chunk another one is due.
    fn open_chunk(&mut self) -> Option<[u8; HEADER_LEN]>
        ensures frames { FramesOn (frame_state self.old) [] (header_bytes result)
            (frame_state self.new) }
        ensures due { IsSome result ↔ IsHeaderDue (frame_state self.old) }
        ensures opened { IfSome result (λ _. ¬ IsHeaderDue (frame_state self.new)) }
        ensures none { IfNone result (frame_state self.new ≡ frame_state self.old) }
    {
        if self.chunk_left > 0 {
            return None;
        }
        let left = self.behind?;
        let len = left.min(MAX_PAYLOAD_LEN);
        let seq_id = self.seq_id;
        self.seq_id = seq_id.wrapping_add(1); // after 255 comes 0
        self.chunk_left = len;
        self.behind = left.checked_sub(MAX_PAYLOAD_LEN);
        Some(Header { len, seq_id }.bytes())
    }

    /// Eats the front of the piece: what goes out next, or `None` where nothing can go before more
    /// bytes come or another packet is begun. A chunk's header goes out as soon as it is due, also
    /// with no bytes after it: so does an empty packet, and the empty chunk that ends a packet of
    /// a multiple of 16777215 bytes. Bytes after the packet's end stay in the piece.
    pub fn next_part<'a>(&mut self, piece: &mut &'a [u8]) -> Option<FramePart<'a>>
        ensures eaten { IfSome result (λ part. piece.old.now ≡ part.bytes.now ++ piece.new.now) }
        ensures frames { IfSome result (λ part. FramesOn (frame_state self.old) part.bytes.now
            (header_bytes part.header ++ part.bytes.now) (frame_state self.new)) }
        ensures header { IfSome result (λ part.
            IsSome part.header ↔ IsHeaderDue (frame_state self.old)) }
        // It goes to the end of the piece, or of the chunk.
        ensures all { IfSome result (λ part. (piece.new.now ≡ [])
            ⊎ ((frame_state self.new).chunk_left ≡ 0)) }
        // A part of no bytes is a header, and then none is due.
        ensures some { IfSome result (λ part. (0 < length part.bytes.now)
            ⊎ (IsHeaderDue (frame_state self.old) × (¬ IsHeaderDue (frame_state self.new)))) }
        // A loop over a piece ends.
        ensures fewer { IfSome result (λ _. most_parts (frame_state self.new) piece.new.now
            < most_parts (frame_state self.old) piece.old.now) }
        ensures ends { IfSome result (λ part.
            IsTrue part.ends_packet ↔ IsBetweenPackets (frame_state self.new)) }
        ensures none { IfNone result (IsBetweenPackets (frame_state self.old)
            ⊎ ((0 < (frame_state self.old).chunk_left) × (piece.old.now ≡ []))) }
        ensures kept { IfNone result ((frame_state self.new ≡ frame_state self.old)
            × (piece.new.now ≡ piece.old.now)) }
    {
        let header = self.open_chunk();
        let (bytes, rest) = piece.split_at(self.chunk_left.min(piece.len()));
        if header.is_none() && bytes.is_empty() {
            return None;
        }
        *piece = rest;
        self.chunk_left -= bytes.len();
        Some(FramePart {
            header,
            bytes,
            ends_packet: self.is_between_packets(),
        })
    }
}
