//! Whole packets to a writer that may take a write whole or not at all.

ghost use Rattle.std.specs.Prelude.{◌≡◌, ◌≤◌, ◌++◌, ℕ, List, [], length, IsFalse, OnOk, Err, IfErr};
ghost use Rattle.std.specs.Io.KnownBytes.{Appends};
ghost use Rattle.wire_codec.specs.Codec.{expected_id};
ghost use Rattle.wire_codec.specs.Framing.{framing, next_id};
ghost use Rattle.wire_span.specs.Framed.{frame_state, payload_left, header_bytes, FramesOn, IsBetweenPackets};
ghost use Rattle.wire_text.specs.declared.stop.Stop.{Stop};
ghost use Rattle.mysql_wire_tool_commands.specs.Reframe.{Sends};

use crate::chunk_writer::ChunkWriter;
use crate::status::Stop;
use bytes::BytesMut;
use std::alloc::Allocator;
use std::io::Write;
use wire_codec::codec::PacketCodec;
use wire_codec::codec::error::PacketCodecError;
use wire_span::{FramePart, FrameWriter, laws};

// A packet of this many bytes is not copied: its headers go by writes of their own. By Linux's default
// limits no socket takes as many as one message.
const LARGE: usize = 1 << 20;

/// Frames packets, and writes them.
#[derive(Drop)]
pub struct Sender<W: Write, A: Allocator + Copy> {
    pub chunks: ChunkWriter<W>,
    /// What is framed and still to be written.
    pub pending: BytesMut<A>,
}

// Writes the bytes whole. A write that is interrupted counts as failed.
fn write_bytes<W: Write>(writer: &mut W, bytes: &[u8]) -> Result<(), Stop>
    ensures written { OnOk result
        (Appends (W.contents writer.old) (W.contents writer.new) bytes.now) }
    ensures errors { IfErr result (λ error. error ≡ Stop.Io) }
{
    let mut rest = bytes;
    'writes: while !rest.is_empty() {
        match writer.write(rest) {
            Ok(0) => return Err(Stop::Io),
            Ok(count) => rest = rest.split_at(count).1,
            Err(_) => return Err(Stop::Io),
        }
    }
    Ok(())
}

// Writes a chunk's header, where one begins, and payload bytes from where they lie.
fn write_part<W: Write>(writer: &mut W, part: FramePart<'_>) -> Result<(), Stop>
    ensures written { OnOk result (Appends (W.contents writer.old) (W.contents writer.new)
        (header_bytes part.entry.header ++ part.entry.bytes.now)) }
    ensures errors { IfErr result (λ error. error ≡ Stop.Io) }
{
    if let Some(header) = part.header {
        write_bytes(writer, &header)?;
    }
    write_bytes(writer, part.bytes)
}

// Writes a packet that is begun.
fn write_parts<W: Write>(
    writer: &mut W,
    frames: &mut FrameWriter,
    packet: &[u8],
) -> Result<(), Stop>
    requires { length packet.now ≤ payload_left (frame_state frames.old) }
    ensures sent { OnOk result ((out : List ℕ)
        × Appends (W.contents writer.old) (W.contents writer.new) out
        × FramesOn (frame_state frames.old) packet.now out (frame_state frames.new)) }
    ensures whole { OnOk result (payload_left (frame_state frames.new) ≡ 0
        → IsBetweenPackets (frame_state frames.new)) }
    ensures errors { IfErr result (λ error. error ≡ Stop.Io) }
{
    laws::nothing_framed();
    laws::joined_frames();
    let mut rest = packet;
    'parts: while let Some(part) = frames.next_part(&mut rest) {
        write_part(writer, part)?;
    }
    Ok(())
}

impl<W: Write, A: Allocator + Copy> Sender<W, A> {
    /// A sender that has nothing to write.
    pub fn new(alloc: A, writer: W) -> Self
        ensures writer { result.chunks.writer ≡ writer }
        ensures idle { result.pending.items ≡ [] }
    {
        Sender {
            chunks: ChunkWriter::new(writer),
            pending: BytesMut::new(alloc),
        }
    }

    /// The writer. What is still pending is gone.
    pub fn into_inner(self) -> W
        ensures { result ≡ self.chunks.writer }
    {
        self.chunks.into_inner()
    }

    fn flush(&mut self) -> Result<(), Stop>
        ensures kept { OnOk result
            (Appends (W.contents self.old.chunks.writer) (W.contents self.new.chunks.writer) []) }
        ensures pending { self.new.pending ≡ self.old.pending }
        ensures errors { IfErr result (λ error. error ≡ Stop.Io) }
    {
        match self.chunks.flush() {
            Ok(()) => Ok(()),
            Err(_) => Err(Stop::Io),
        }
    }

    // Writes what is pending.
    #[inline(never)]
    fn write_out(&mut self) -> Result<(), Stop>
        ensures sent { OnOk result (Appends (W.contents self.old.chunks.writer)
            (W.contents self.new.chunks.writer) self.old.pending.items) }
        ensures idle { OnOk result (self.new.pending.items ≡ []) }
        ensures errors { IfErr result (λ error. error ≡ Stop.Io) }
    {
        write_bytes(&mut self.chunks, self.pending.as_slice())?;
        self.pending.clear();
        self.flush()?;
        Ok(())
    }

    /// Writes what is pending, but for what is held back.
    pub fn send(&mut self, is_held_back: bool) -> Result<(), Stop>
        ensures sent { OnOk result (Sends (W.contents self.old.chunks.writer)
            (W.contents self.new.chunks.writer) self.old.pending.items self.new.pending.items) }
        ensures idle { OnOk result (IsFalse is_held_back → self.new.pending.items ≡ []) }
        ensures errors { IfErr result (λ error. error ≡ Stop.Io) }
    {
        if is_held_back || self.pending.is_empty() {
            return Ok(());
        }
        self.write_out()
    }

    // Frames a packet after what is pending, which is written where memory is refused.
    fn queue(&mut self, encoder: &mut PacketCodec, packet: &[u8]) -> Result<(), Stop>
        requires fits { length packet.now ≤ encoder.old.max_allowed_packet }
        ensures queued { OnOk result (self.new.pending.items
            ≡ self.old.pending.items ++ framing (expected_id encoder.old) packet.now) }
        ensures writer { OnOk result (self.new.chunks ≡ self.old.chunks) }
        ensures next { OnOk result
            (expected_id encoder.new ≡ next_id (expected_id encoder.old) packet.now) }
        ensures limit { encoder.new.max_allowed_packet ≡ encoder.old.max_allowed_packet }
        ensures refused { (result ≡ Err Stop.Memory) → Appends (W.contents self.old.chunks.writer)
            (W.contents self.new.chunks.writer) self.old.pending.items }
    {
        let mut packet = packet;
        match encoder.encode(&mut packet, &mut self.pending) {
            Ok(()) => Ok(()),
            Err(PacketCodecError::OutOfMemory) => {
                self.send(false)?;
                Err(Stop::Memory)
            }
            Err(_) => unreachable!(),
        }
    }

    // Writes a packet after what is pending, chunk by chunk.
    #[inline(never)]
    fn write_chunks(&mut self, encoder: &mut PacketCodec, packet: &[u8]) -> Result<(), Stop>
        ensures sent { OnOk result (Appends (W.contents self.old.chunks.writer)
            (W.contents self.new.chunks.writer)
            (self.old.pending.items ++ framing (expected_id encoder.old) packet.now)) }
        ensures idle { OnOk result (self.new.pending.items ≡ []) }
        ensures next { OnOk result
            (expected_id encoder.new ≡ next_id (expected_id encoder.old) packet.now) }
        ensures limit { encoder.new.max_allowed_packet ≡ encoder.old.max_allowed_packet }
        ensures errors { IfErr result (λ error. error ≡ Stop.Io) }
    {
        laws::framed_packet();
        self.send(false)?;
        let mut frames = FrameWriter::default();
        frames.set_sequence_id(encoder.sequence_id());
        let _ = frames.begin(packet.len());
        write_parts(&mut self.chunks, &mut frames, packet)?;
        encoder.set_sequence_id(frames.sequence_id());
        self.flush()?;
        Ok(())
    }

    /// Frames a packet after what is pending, which is written where memory is refused. A large one
    /// is written at once, from where it lies.
    pub fn pass_on(&mut self, encoder: &mut PacketCodec, packet: &[u8]) -> Result<(), Stop>
        requires fits { length packet.now ≤ encoder.old.max_allowed_packet }
        ensures sent { OnOk result (Sends (W.contents self.old.chunks.writer)
            (W.contents self.new.chunks.writer)
            (self.old.pending.items ++ framing (expected_id encoder.old) packet.now)
            self.new.pending.items) }
        ensures next { OnOk result
            (expected_id encoder.new ≡ next_id (expected_id encoder.old) packet.now) }
        ensures limit { encoder.new.max_allowed_packet ≡ encoder.old.max_allowed_packet }
        ensures refused { (result ≡ Err Stop.Memory) → Appends (W.contents self.old.chunks.writer)
            (W.contents self.new.chunks.writer) self.old.pending.items }
    {
        if packet.len() < LARGE {
            self.queue(encoder, packet)
        } else {
            self.write_chunks(encoder, packet)
        }
    }
}
