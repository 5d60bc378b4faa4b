//! One side of a connection: a codec with its buffers, and the packets that come.

ghost use Rattle.std.specs.Prelude.{◌≡◌, ◌≤◌, ◌+◌, ◌++◌, [], None, Ok, true, IfSome, IsSome, drop, length};
ghost use Rattle.wire_codec.specs.Codec.{codec_state, Stands};
ghost use Rattle.wire_codec.specs.Delivery.{chunk_len};
ghost use Rattle.wire_codec.specs.InPlace.{HasFront, front_payload};
ghost use Rattle.wire_codec.specs.LimitedRuns.{DecodesAligned};
ghost use Rattle.mysql_wire_c_calls.specs.Side.{IsReady};
ghost use Rattle.mysql_wire_c_calls.specs.Answers.{new_connection};
ghost use Rattle.mysql_wire_c_calls.specs.Finding.{Finds};
ghost use Rattle.mysql_wire_c_calls.specs.SideCalls.{Feeds, Peeks, LendsInPlace, Takes, CopiesNext};

use crate::codes::{
    NO_MEMORY, NO_PACKET, OK, OUT_OF_SYNC, PACKET, ROOM_TOO_SMALL, TOO_LARGE, WAITS,
};
use bytes::{Buf, BytesMut};
use std::alloc::Global;
use std::marker::Model;
use wire_codec::codec::PacketCodec;
use wire_codec::codec::error::PacketCodecError;
use wire_codec::codec::header::{HEADER_LEN, Header};

/// What stands in front.
#[derive(Clone, Copy, Drop)]
pub enum Front {
    /// No packet is lent.
    Unfinished,
    /// The packet that is lent lies at the front of the unread bytes.
    InPlace,
    /// The packet that is lent was put together apart.
    Copied,
    /// A packet came with another number than the expected one.
    Lost,
}

/// One side of a connection: the bytes that came and aren't taken, the packet that is put together,
/// the numbers of packets, and the bytes that wait to be sent.
///
/// Contracts see its `Side`: whether it is lost, the packet that is lent, the codec after it, and
/// the bytes that wait; and whether the packet that is lent lies where it came.
#[derive(Drop)]
pub struct Connection {
    pub codec: PacketCodec,
    pub src: BytesMut<Global>,
    pub dst: Vec<u8, Global>,
    pub front: Front,
    pub output: BytesMut<Global>,
}

impl Model for Connection {
    ghost use Rattle.wire_codec.specs.Codec.{codec_state};
    ghost use Rattle.mysql_wire_c_calls.specs.Side.{ConnectionState, connection_of, IsReady};

    ghost Value = { ConnectionState };

    ghost view = { λ c. connection_of c.front (codec_state c.codec c.src.items c.dst.items)
        c.output.items };

    ghost invariant = { λ c. IsReady c.front (codec_state c.codec c.src.items c.dst.items) };
}

impl Connection {
    /// A connection to which nothing has come, of packets of at most `limit` bytes.
    pub fn new(alloc: Global, limit: usize) -> Connection
        ensures { result ≡ new_connection limit }
    {
        let mut codec = PacketCodec::default();
        codec.max_allowed_packet = limit;
        Connection {
            codec,
            src: BytesMut::new(alloc),
            dst: Vec::new(alloc),
            front: Front::Unfinished,
            output: BytesMut::new(alloc),
        }
    }
}

// What comes.
impl Connection {
    /// Takes bytes that came, after those that are unread. `OUT_OF_SYNC` where the connection is
    /// lost, `NO_MEMORY` where memory was refused: then nothing is taken.
    pub fn feed(&mut self, bytes: &[u8]) -> i32
        ensures { Feeds bytes.now result self.old.side self.new.side }
    {
        if let Front::Lost = self.front {
            return OUT_OF_SYNC;
        }
        match self.src.extend_from_slice(bytes) {
            Ok(()) => OK,
            Err(_) => NO_MEMORY,
        }
    }

    /// Lends the next packet, where it stands whole; one that is lent already is lent again.
    #[inline]
    pub fn peek(&mut self) -> i32
        ensures peeks { Peeks result self.old.side self.new.side }
        ensures in_place { LendsInPlace result self.old self.new }
    {
        match self.front {
            Front::InPlace | Front::Copied => PACKET,
            Front::Lost => OUT_OF_SYNC,
            Front::Unfinished => find(
                &mut self.codec,
                &mut self.src,
                &mut self.dst,
                &mut self.front,
            ),
        }
    }

    /// The packet that is lent; no bytes where none is.
    pub fn packet(&self) -> &[u8]
        ensures { IfSome self.now.side.lent (λ packet. result.now ≡ packet) }
    {
        if let Front::InPlace = self.front {
            return front_payload(self.src.as_slice());
        }
        match self.front {
            Front::Copied => self.dst.as_slice(),
            _ => &[],
        }
    }

    /// Takes the packet that is lent. `NO_PACKET` where none is.
    pub fn take(&mut self) -> i32
        ensures { Takes result self.old.side self.new.side }
    {
        if let Front::InPlace = self.front {
            self.codec.take_front(&mut self.src);
            self.front = Front::Unfinished;
            return OK;
        }
        match self.front {
            Front::Copied => self.dst.clear(),
            _ => return NO_PACKET,
        }
        self.front = Front::Unfinished;
        OK
    }
}

// The payload of the chunk in front, where it has come whole.
fn front_payload(src: &[u8]) -> &[u8]
    ensures { 4 + chunk_len src.now ≤ length src.now → result.now ≡ front_payload src.now }
{
    match Header::read(src) {
        Some(header) if header.len <= src.len() - HEADER_LEN => {
            &src[HEADER_LEN..HEADER_LEN + header.len]
        }
        _ => &[],
    }
}

// Puts a packet together apart, where one has come whole.
#[inline(never)]
fn find_apart(
    codec: &mut PacketCodec,
    src: &mut BytesMut<Global>,
    dst: &mut Vec<u8, Global>,
    front: &mut Front,
) -> i32
    requires ready { IsReady front.old (codec_state codec.old src.old.items dst.old.items) }
    requires found { front.old ≡ Front.Unfinished }
    ensures ready { IsReady front.new (codec_state codec.new src.new.items dst.new.items) }
    ensures finds { Finds result (codec_state codec.old src.old.items dst.old.items)
        front.new (codec_state codec.new src.new.items dst.new.items) }
    ensures limit { codec.new.max_allowed_packet ≡ codec.old.max_allowed_packet }
{
    match codec.decode(src, dst) {
        Ok(true) => {
            *front = Front::Copied;
            PACKET
        }
        Ok(false) => WAITS,
        Err(PacketCodecError::PacketTooLarge) => TOO_LARGE,
        Err(PacketCodecError::PacketsOutOfSync) => {
            *front = Front::Lost;
            OUT_OF_SYNC
        }
        Err(_) => NO_MEMORY,
    }
}

// Moves the packet that lies in front to `room`, where the codec stands and the room holds it: how many
// bytes it has. (The codec goes on before the copy: behind it the header would be read again.)
fn move_front(
    codec: &mut PacketCodec,
    src: &mut BytesMut<Global>,
    dst: &[u8],
    room: &mut [u8],
) -> Option<usize>
    ensures taken { IfSome result (λ count.
        let before = codec_state codec.old src.old.items dst.now in
        let packet = front_payload src.old.items in
        (dst.now ≡ []) × (count ≡ length packet) × (count ≤ length room.old)
        × (room.new ≡ packet ++ drop count room.old)
        × DecodesAligned before (Ok true) (codec_state codec.new src.new.items packet)
        × (codec.new.max_allowed_packet ≡ codec.old.max_allowed_packet)) }
    ensures stays { result ≡ None
        → (codec.new ≡ codec.old) × (src.new ≡ src.old) × (room.new ≡ room.old) }
{
    let Some(packet) = codec.front_packet(src, dst) else {
        return None;
    };
    let count = packet.len();
    if room.len() < count || !codec.stands_at(src, dst) {
        return None;
    }
    let chunk = codec.accept_front(src);
    room[..count].copy_from_slice(packet);
    src.advance(chunk);
    Some(count)
}

// Looks for a packet that stands whole.
fn find(
    codec: &mut PacketCodec,
    src: &mut BytesMut<Global>,
    dst: &mut Vec<u8, Global>,
    front: &mut Front,
) -> i32
    requires ready { IsReady front.old (codec_state codec.old src.old.items dst.old.items) }
    requires found { front.old ≡ Front.Unfinished }
    ensures ready { IsReady front.new (codec_state codec.new src.new.items dst.new.items) }
    ensures finds { Finds result (codec_state codec.old src.old.items dst.old.items)
        front.new (codec_state codec.new src.new.items dst.new.items) }
    // A packet that lies in front is lent there.
    ensures in_place { let before = codec_state codec.old src.old.items dst.old.items in
        Stands before → HasFront before → (result ≡ PACKET) × (front.new ≡ Front.InPlace) }
    ensures limit { codec.new.max_allowed_packet ≡ codec.old.max_allowed_packet }
{
    if codec.front_packet(src, dst).is_some() && codec.stands_at(src, dst) {
        *front = Front::InPlace;
        return PACKET;
    }
    find_apart(codec, src, dst, front)
}

impl Connection {
    /// Copies the next packet to `room`, and takes it. `len` is how many bytes it has, and 0 where
    /// there is none. `ROOM_TOO_SMALL`: it is lent, and stays.
    pub fn next(&mut self, room: &mut [u8], len: &mut usize) -> i32
        ensures { CopiesNext room.old room.new len.new result self.old.side self.new.side }
    {
        if let Front::Unfinished = self.front {
            if let Some(count) = move_front(&mut self.codec, &mut self.src, &self.dst, room) {
                *len = count;
                return PACKET;
            }
        }
        self.next_lent(room, len)
    }

    // The same, where the packet is lent first.
    #[inline(never)]
    fn next_lent(&mut self, room: &mut [u8], len: &mut usize) -> i32
        ensures { CopiesNext room.old room.new len.new result self.old.side self.new.side }
    {
        *len = 0;
        let code = self.peek();
        if code != PACKET {
            return code;
        }
        let packet = self.packet();
        let count = packet.len();
        *len = count;
        if room.len() < count {
            return ROOM_TOO_SMALL;
        }
        room[..count].copy_from_slice(packet);
        self.take_lent();
        PACKET
    }

    // Takes the packet that is lent.
    fn take_lent(&mut self)
        requires { IsSome self.old.side.lent }
        ensures { self.new.side ≡ record self.old.side { lent = None } }
    {
        self.take();
    }
}
