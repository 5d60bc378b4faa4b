//! Packets to a writer.

ghost use Rattle.std.specs.Prelude.{IsOk, ◌≡◌, ◌<◌, ◌⊎◌, ◌↔◌, ℕ, List, [], ◌++◌, length, Err, IfOk, OnOk, OnErr, IfErr, IsTrue, IsFalse};
ghost use Rattle.std.specs.Io.KnownBytes.{Appends, Keeps};
ghost use Rattle.wire_codec.specs.Codec.{expected_id, header_of};
ghost use Rattle.wire_codec.specs.Framing.{framing, next_id};
ghost use Rattle.wire_packet_io.specs.PacketIo.{WriteFails};

use crate::error::PacketIoError;
use bytes::{Buf, BytesMut};
use std::alloc::{Allocator, Global};
use std::fmt::{self, Debug, Formatter};
use std::io::Write;
use std::marker::Model;
use wire_codec::codec::PacketCodec;
use wire_codec::codec::error::PacketCodecError;

/// Frames packets, and writes them.
///
/// The codec is handed in at each call, so that a reader and a writer can share one id.
///
/// Contracts see a `Writing`: the writer below, and the bytes that are still to be written.
#[derive(Drop)]
pub struct PacketWriter<W: Write, A: Allocator + Copy = Global> {
    writer: W,
    pending: BytesMut<A>,
}

impl<W: Write, A: Allocator + Copy> Model for PacketWriter<W, A> {
    ghost use Rattle.wire_packet_io.specs.PacketIo.{Writing};

    ghost Value = { Writing W };

    ghost view = { λ p. record { writer = p.writer; pending = p.pending.items } };
}

impl<W: Write + Debug, A: Allocator + Copy> Debug for PacketWriter<W, A> {
    fn fmt<V: fmt::Write>(&self, f: &mut Formatter<V>) -> fmt::Result {
        f.debug_struct("PacketWriter")
            .field("writer", &self.writer)
            .field("pending", &self.pending.len())
            .finish()
    }
}

impl<W: Write, A: Allocator + Copy> PacketWriter<W, A> {
    /// A writer with nothing to write. It keeps the allocator.
    pub fn new(alloc: A, writer: W) -> Result<Self, PacketIoError>
        ensures made { IsOk result }
        ensures new { IfOk result (λ new. new ≡ record { writer = writer; pending = [] }) }
        ensures memory { IfErr result (λ error. error ≡ PacketIoError.OutOfMemory) }
    {
        Ok(PacketWriter {
            writer,
            pending: BytesMut::new(alloc),
        })
    }

    /// The bytes that are still to be written.
    pub fn pending(&self) -> &[u8]
        ensures { result.now ≡ self.now.pending }
    {
        self.pending.as_slice()
    }

    /// The writer. What is still pending is gone.
    pub fn into_inner(self) -> W
        ensures { result ≡ self.writer }
    {
        self.writer
    }

    /// Frames the packet after what is pending, and empties it, as the codec's `encode` does.
    /// `PacketTooLarge` and `OutOfMemory` change nothing.
    #[inline]
    pub fn queue<T: Buf>(
        &mut self,
        codec: &mut PacketCodec,
        packet: &mut T,
    ) -> Result<(), PacketIoError>
        ensures appended { OnOk result (self.new.pending
            ≡ self.old.pending ++ framing (expected_id codec.old) (T.unread packet.old)) }
        ensures emptied { OnOk result (T.unread packet.new ≡ []) }
        ensures next { OnOk result (expected_id codec.new
            ≡ next_id (expected_id codec.old) (T.unread packet.old)) }

        ensures too_large { (result ≡ Err PacketIoError.PacketTooLarge)
            ↔ (codec.old.max_allowed_packet < length (T.unread packet.old)) }
        ensures errors { IfErr result
            (λ error. (error ≡ PacketIoError.PacketTooLarge)
            ⊎ (error ≡ PacketIoError.OutOfMemory)) }
        ensures err { OnErr result ((expected_id codec.new ≡ expected_id codec.old)
            × (packet.new ≡ packet.old) × (self.new.pending ≡ self.old.pending)) }

        ensures header { header_of codec.new ≡ header_of codec.old }
        ensures limit { codec.new.max_allowed_packet ≡ codec.old.max_allowed_packet }
        ensures kept { T.kept packet.new ≡ T.kept packet.old }
        ensures writer { self.new.writer ≡ self.old.writer }
    {
        match codec.encode(packet, &mut self.pending) {
            Ok(()) => Ok(()),
            Err(PacketCodecError::PacketTooLarge) => Err(PacketIoError::PacketTooLarge),
            Err(_) => Err(PacketIoError::OutOfMemory),
        }
    }

    // Puts bytes after what is pending.
    pub(crate) fn put(&mut self, bytes: &[u8]) -> Result<(), PacketIoError>
        ensures put { OnOk result (self.new.pending ≡ self.old.pending ++ bytes.now) }
        ensures err { OnErr result (self.new.pending ≡ self.old.pending) }
        ensures memory { IfErr result (λ error. error ≡ PacketIoError.OutOfMemory) }
        ensures writer { self.new.writer ≡ self.old.writer }
    {
        match self.pending.extend_from_slice(bytes) {
            Ok(()) => Ok(()),
            Err(_) => Err(PacketIoError::OutOfMemory),
        }
    }

    // Puts both after what is pending, where there is room for them: no memory is asked for.
    #[inline(always)]
    pub(crate) fn put_in_room(&mut self, header: &[u8], payload: &[u8]) -> bool
        ensures put { IsTrue result
            → self.new.pending ≡ self.old.pending ++ (header.now ++ payload.now) }
        ensures full { IsFalse result → self.new.pending ≡ self.old.pending }
        ensures writer { self.new.writer ≡ self.old.writer }
    {
        let spare = self.pending.capacity() - self.pending.len();
        if spare < header.len() || spare - header.len() < payload.len() {
            return false;
        }
        self.pending.extend_reserved(header);
        self.pending.extend_reserved(payload);
        true
    }

    /// Writes until nothing is pending, and flushes. After `Io` and `WriteZero` exactly the bytes
    /// that did not go out are pending, and the call may be made again.
    pub fn write_pending(&mut self) -> Result<(), PacketIoError>
        ensures sent { (sent : List ℕ) × (self.old.pending ≡ sent ++ self.new.pending)
            × Appends (W.contents self.old.writer) (W.contents self.new.writer) sent }
        ensures ok { OnOk result (self.new.pending ≡ []) }
        ensures errors { IfErr result (λ error. WriteFails error self.new.pending) }
    {
        'writes: while !self.pending.is_empty() {
            match self.writer.write(self.pending.as_slice()) {
                Ok(0) => return Err(PacketIoError::WriteZero),
                Ok(count) => self.pending.advance(count),
                Err(error) => return Err(PacketIoError::Io(error)),
            }
        }
        self.pending.clear(); // what comes next begins at the front of the block
        match self.writer.flush() {
            Ok(()) => Ok(()),
            Err(error) => Err(PacketIoError::Io(error)),
        }
    }
}
