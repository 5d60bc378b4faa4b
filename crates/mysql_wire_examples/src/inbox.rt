//! What a peer can make a server hold.

ghost use Rattle.std.specs.Prelude.{◌≡◌, ◌+◌, ◌≤◌, length, Ok, OnOk, IfOk};
ghost use Rattle.mysql_wire.specs.Bounds.{most_read};
ghost use Rattle.mysql_wire.specs.Runs.{RunsTo};
ghost use Rattle.mysql_wire_examples.specs.Received.{GainsPackets};

use crate::again::deliver_again;
use bytes::BytesMut;
use mysql_wire::laws;
use mysql_wire::proto::codec::PacketCodec;
use mysql_wire::proto::codec::error::PacketCodecError;
use mysql_wire::proto::packet_io::{PacketIoError, PacketReader};
use std::alloc::{Allocator, Global};
use std::io::Read;

/// The receiving side of a connection, for a server that has a budget for each of them.
#[derive(Drop)]
pub struct Inbox<A: Allocator + Copy = Global> {
    codec: PacketCodec,
    src: BytesMut<A>,
    dst: Vec<u8, A>,
}

ghost use Rattle.mysql_wire_examples.specs.Inbox.{HoldsFew, held_bytes, inbox_state};

impl<A: Allocator + Copy> Inbox<A> {
    /// At the start of a connection, under a limit of this many payload bytes a packet.
    pub fn new(alloc: A, limit: usize) -> Self
        ensures few { HoldsFew result }
        ensures limit { result.codec.max_allowed_packet ≡ limit }
    {
        laws::between_packets();
        let mut codec = PacketCodec::default();
        codec.max_allowed_packet = limit;
        Inbox {
            codec,
            src: BytesMut::new(alloc),
            dst: Vec::new(alloc),
        }
    }

    /// How many bytes it holds between two calls, at most, whatever the peer sends.
    pub fn most_held(&self) -> u128
        ensures is { result ≡ self.now.codec.max_allowed_packet + 3 }
        ensures held { HoldsFew self.now → held_bytes self.now ≤ result }
    {
        self.codec.max_allowed_packet as u128 + 3
    }

    /// Takes what one read gave, and hands out the packets that are whole with it. After an error
    /// the connection is to be closed; but for want of memory, where it tries once more.
    pub fn take(
        &mut self,
        piece: &[u8],
        packets: &mut Vec<Vec<u8, A>, A>,
    ) -> Result<(), PacketCodecError>
        requires { HoldsFew self.old }
        ensures few { OnOk result (HoldsFew self.new) }
        ensures packets { OnOk result (GainsPackets packets.old.items packets.new.items (λ gained.
            RunsTo (inbox_state self.old) piece.now (Ok tt) gained (inbox_state self.new))) }
        ensures limit { self.new.codec.max_allowed_packet ≡ self.old.codec.max_allowed_packet }
    {
        laws::bounded_delivery();
        let (_, result) = deliver_again(
            &mut self.codec,
            &mut self.src,
            &mut self.dst,
            &[piece],
            packets,
            1,
        );
        result
    }
}

/// A client's first packet, and what its server goes on with. Whatever the client sends, the reader
/// keeps at most the limit, the headers of a packet of this many bytes, 3 bytes more, and one read.
pub fn first_packet<R: Read + Drop, A: Allocator + Copy>(
    alloc: A,
    client: R,
    limit: usize,
) -> Result<(PacketReader<R, A>, PacketCodec, Option<Vec<u8, A>>), PacketIoError>
    ensures few { IfOk result
        (λ first. length first.0.held + length first.0.unread ≤ most_read limit) }
    ensures limit { IfOk result (λ first. first.1.max_allowed_packet ≡ limit) }
{
    laws::bounded_reads();
    let mut codec = PacketCodec::default();
    codec.max_allowed_packet = limit;
    let mut reader = PacketReader::new(alloc, client)?;
    let packet = reader.next_packet(&mut codec)?;
    Ok((reader, codec, packet))
}
