//! The codec of one end of a connection, between two packets.

ghost use Rattle.std.specs.Prelude.{◌≡◌, None};
ghost use Rattle.mysql_wire.specs.Codec.{header_of};

use bytes::BytesMut;
use mysql_wire::io::ParseBuf;
use mysql_wire::laws;
use mysql_wire::proto::MySerialize;
use mysql_wire::proto::codec::error::PacketCodecError;
use mysql_wire::proto::codec::{PacketCodec, encode_value};
use std::alloc::Allocator;

/// A codec between two packets.
#[derive(Drop)]
pub struct Line {
    pub codec: PacketCodec,
    ghost idle: { header_of codec ≡ None },
}

impl Line {
    ghost use Rattle.std.specs.Prelude.{◌++◌, [], IsTrue, ◌↔◌, OnOk};
    ghost use Rattle.mysql_wire.specs.Codec.{codec_state, expected_id};
    ghost use Rattle.mysql_wire.specs.Framing.{framing, next_id};
    ghost use Rattle.mysql_wire.specs.InPlace.{HasFront, front_payload};

    /// At the start of a connection, under a limit of this many payload bytes a packet.
    pub fn new(limit: usize) -> Line
        ensures id { expected_id result.codec ≡ 0 }
        ensures limit { result.codec.max_allowed_packet ≡ limit }
    {
        let mut codec = PacketCodec::default();
        codec.max_allowed_packet = limit;
        Line { codec }
    }

    /// Whether a whole packet of the expected id stands in front of what has come. Where it does
    /// not, more is to be read; where more does not help, `decode` of the codec says why.
    pub fn has_packet(&self, input: &ParseBuf<'_>) -> bool
        ensures { IsTrue result ↔ HasFront (codec_state self.now.codec input.now.0.now []) }
    {
        self.codec.front_packet_in(input.0, &[]).is_some()
    }

    /// Takes the packet in front of what has come, where it lies.
    pub fn receive<'a>(&mut self, input: &mut ParseBuf<'a>) -> &'a [u8]
        requires { HasFront (codec_state self.old.codec input.old.0.now []) }
        ensures payload { result.now ≡ front_payload input.old.0.now }
        ensures framed { input.old.0.now ≡ framing (expected_id self.old.codec)
            (front_payload input.old.0.now) ++ input.new.0.now }
        ensures next { expected_id self.new.codec
            ≡ next_id (expected_id self.old.codec) (front_payload input.old.0.now) }
    {
        laws::between_packets();
        let _id = self.codec.sequence_id();
        let front = input.0;
        match self.codec.front_packet_in(front, &[]) {
            Some(packet) => {
                let count = self.codec.accept_front_in(front);
                input.skip(count);
                packet
            }
            None => unreachable!(),
        }
    }

    /// Sends a packet, numbered on. After an error nothing has changed.
    pub fn send<T: MySerialize>(
        &mut self,
        packet: &T,
        output: &mut BytesMut<impl Allocator + Copy>,
    ) -> Result<(), PacketCodecError>
        ensures sent { OnOk result (output.new.items ≡ output.old.items
            ++ framing (expected_id self.old.codec) (T.bytes packet.now)) }
        ensures next { OnOk result (expected_id self.new.codec
            ≡ next_id (expected_id self.old.codec) (T.bytes packet.now)) }
    {
        encode_value(&mut self.codec, packet, output)
    }

    /// The next packet begins a command.
    pub fn begin_command(&mut self)
        ensures { expected_id self.new.codec ≡ 0 }
    {
        self.codec.reset_seq_id();
    }
}
