//! A packet of several reads, whose bytes are copied once.

ghost use Rattle.std.specs.Prelude.{◌≡◌, ◌-◌, ◌+◌, ◌<◌, ◌≤◌, ◌++◌, List, ℕ, [], length, IfOk, None};
ghost use Rattle.std.specs.Io.KnownBytes.{Consumes};
ghost use Rattle.wire_codec.specs.Codec.{expected_id, header_of};
ghost use Rattle.wire_codec.specs.Delivery.{chunk_len};
ghost use Rattle.mysql_wire_tool_commands.specs.LongPackets.{IsInFront, IsWhole, TakesLong};

use crate::status::Stop;
use std::alloc::Allocator;
use std::io;
use std::io::{Read, Write};
use wire_buf::lengths::MAX_PAYLOAD_LEN;
use wire_codec::codec::PacketCodec;
use wire_codec::codec::header::{HEADER_LEN, Header};
use wire_packet_io::{PacketIoError, PacketReader};

/// What stands at the front of a stream.
#[derive(Clone, Copy)]
pub enum Taken {
    /// A packet, which came whole: the id after it.
    Whole(u8),
    /// No packet more: the exit status.
    Ends(u8),
    /// A chunk of another id, of which this many bytes have not come.
    OutOfSync(usize),
}

/// The bytes of a packet, as they come.
#[derive(Drop)]
pub struct LongPacket<A: Allocator + Copy> {
    pub bytes: Vec<u8, A>,
    // The last write was refused memory.
    is_refused: bool,
}

impl<A: Allocator + Copy> Write for LongPacket<A> {
    ghost use Rattle.std.specs.Prelude.{Some};

    ghost contents = { λ packet. Some packet.bytes.items };

    fn write(&mut self, buf: &[u8]) -> io::Result<usize> {
        let result = self.bytes.write(buf);
        self.is_refused = result.is_err();
        result
    }

    fn flush(&mut self) -> io::Result<()> {
        Ok(())
    }
}

/// A codec in front of a packet with this id, under a limit.
pub fn codec_at(limit: usize, seq_id: u8) -> PacketCodec
    ensures id { expected_id result ≡ seq_id }
    ensures header { header_of result ≡ None }
    ensures limit { result.max_allowed_packet ≡ limit }
{
    let mut codec = PacketCodec::default();
    codec.max_allowed_packet = limit;
    codec.set_sequence_id(seq_id);
    codec
}

// How many bytes have not come of the chunk in front.
fn bytes_to_come(unread: &[u8]) -> usize
    ensures { 4 ≤ length unread.now → result ≡ 4 + chunk_len unread.now - length unread.now }
{
    match Header::read(unread) {
        Some(header) => (HEADER_LEN + header.len).saturating_sub(unread.len()),
        None => 0,
    }
}

/// Whether the packet in front is of several chunks, as far as its header says.
pub fn may_be_long(unread: &[u8]) -> bool {
    match Header::read(unread) {
        Some(header) => header.len == MAX_PAYLOAD_LEN,
        None => true,
    }
}

impl<A: Allocator + Copy> LongPacket<A> {
    /// No bytes.
    pub fn new(alloc: A) -> Self
        ensures { result.bytes.items ≡ [] }
    {
        LongPacket {
            bytes: Vec::new(alloc),
            is_refused: false,
        }
    }

    /// Takes the next packet, whose first chunk is to bear this id.
    // Apart: where it is inlined, packets that need it not take more steps.
    #[cold]
    #[inline(never)]
    pub fn take<R: Read>(
        &mut self,
        limit: usize,
        seq_id: u8,
        from: &mut PacketReader<R, A>,
    ) -> Result<Taken, Stop>
        requires { IsInFront from.old }
        ensures takes { IfOk result (λ taken. (more : List ℕ)
            × Consumes (R.remaining from.old.reader) (R.remaining from.new.reader) more
            × TakesLong seq_id limit (from.old.unread ++ more) taken self.new.bytes.items
            from.new.unread (R.remaining from.new.reader)) }
        ensures front { IfOk result (λ taken. IsWhole taken → IsInFront from.new) }
    {
        wire_packet_io::laws::copied_packet();
        wire_span::laws::spans_begin();
        wire_span::laws::spans_deliver();
        wire_span::laws::spans_end();
        wire_span::laws::spans_stop();
        wire_span::laws::one_spanning();
        let mut codec = codec_at(limit, seq_id);
        self.bytes.clear();
        match from.copy_packet(&mut codec, self) {
            Ok(true) => Ok(Taken::Whole(codec.sequence_id())),
            Ok(false) => Ok(Taken::Ends(0)),
            Err(PacketIoError::UnexpectedEnd) => Ok(Taken::Ends(3)),
            Err(PacketIoError::PacketTooLarge) => Ok(Taken::Ends(4)),
            Err(PacketIoError::PacketsOutOfSync) => {
                Ok(Taken::OutOfSync(bytes_to_come(from.unread())))
            }
            Err(PacketIoError::OutOfMemory) => Err(Stop::Memory),
            Err(_) if self.is_refused => Err(Stop::Memory),
            Err(_) => Err(Stop::Io),
        }
    }
}
