//! A server's side of a connection: commands, whose bytes come in any pieces, each answered.

ghost use Rattle.std.specs.Prelude.{◌≡◌, ◌≢◌, ◌<◌, ◌++◌, ℕ, List, [], length, Ok, Err, None, true, false, OnOk, OnErr};
ghost use Rattle.mysql_wire.specs.Codec.{CodecState, DecodesPacket, codec_state, expected_id, header_of, first_id, input_of};
ghost use Rattle.mysql_wire.specs.Delivery.{IsWaiting};
ghost use Rattle.mysql_wire.specs.Framing.{framing, next_id};

use bytes::BytesMut;
use mysql_wire::laws;
use mysql_wire::proto::codec::PacketCodec;
use mysql_wire::proto::codec::error::PacketCodecError;
use std::alloc::{Allocator, Global};

/// A server's codec, with the bytes that have come and aren't read, and the packet that isn't
/// whole.
#[derive(Drop)]
pub struct Connection<A: Allocator + Copy = Global> {
    pub codec: PacketCodec,
    pub input: BytesMut<A>,
    pub unfinished: Vec<u8, A>,
}

// An `OK_Packet` of protocol 4.1: nothing was changed.
const DONE: [u8; 7] = [0, 0, 0, 2, 0, 0, 0];

// An `ERR_Packet` of protocol 4.1: error 1047, unknown command, with its state and no text.
const UNKNOWN: [u8; 9] = *b"\xff\x17\x04#08S01";

/// What is answered to a command: a query is done, another command isn't known.
///
/// <https://dev.mysql.com/doc/dev/mysql-server/latest/page_protocol_com_query.html>
pub fn answer_to(command: &[u8]) -> &'static [u8]
    ensures { result.now ≡ answer_to command.now }
{
    match command {
        [3, ..] => &DONE,
        _ => &UNKNOWN,
    }
}

ghost use Rattle.mysql_wire_examples.specs.Connection.{AwaitsCommand, Serves, answer_to, state_of};

impl<A: Allocator + Copy> Connection<A> {
    /// At the start of a connection, under a limit of this many payload bytes a command.
    pub fn new(alloc: A, limit: usize) -> Self
        ensures awaits { AwaitsCommand result }
        ensures nothing { input_of (state_of result) ≡ [] }
        ensures limit { result.codec.max_allowed_packet ≡ limit }
    {
        laws::between_packets();
        let mut codec = PacketCodec::default();
        codec.max_allowed_packet = limit;
        Connection {
            codec,
            input: BytesMut::new(alloc),
            unfinished: Vec::new(alloc),
        }
    }

    /// Goes on with the command in front, whose bytes may come over several calls: whether it
    /// stands whole in `unfinished` now.
    pub fn next_command(&mut self) -> Result<bool, PacketCodecError>
        requires { AwaitsCommand self.old }
        ensures decodes { DecodesPacket (state_of self.old) result (state_of self.new) }
        ensures whole { result ≡ Ok true → input_of (state_of self.old)
            ≡ framing 0 self.new.unfinished.items ++ self.new.input.items }
        ensures idle { result ≡ Ok true → header_of self.new.codec ≡ None }
        ensures next { result ≡ Ok true
            → expected_id self.new.codec ≡ next_id 0 self.new.unfinished.items }
        ensures shorter { result ≡ Ok true
            → length self.new.input.items < length self.old.input.items }
        ensures waits { result ≡ Ok false → IsWaiting self.old.codec.max_allowed_packet
            self.new.unfinished.items self.new.input.items }
        ensures goes_on { result ≡ Ok false → AwaitsCommand self.new
            × (input_of (state_of self.new) ≡ input_of (state_of self.old)) }
        ensures limit { self.new.codec.max_allowed_packet ≡ self.old.codec.max_allowed_packet }
    {
        self.codec.decode(&mut self.input, &mut self.unfinished)
    }

    /// Answers the command that stands whole, numbered on from it, and makes ready for the next.
    ///
    /// `PacketTooLarge`: the limit is below the answer's few bytes. After an error the command
    /// still stands, and the call may be made again.
    pub fn answer(&mut self, output: &mut BytesMut<A>) -> Result<(), PacketCodecError>
        requires { header_of self.old.codec ≡ None }
        ensures answered { OnOk result (output.new.items ≡ output.old.items
            ++ framing (expected_id self.old.codec) (answer_to self.old.unfinished.items)) }
        ensures awaits { OnOk result (AwaitsCommand self.new) }
        ensures left { OnOk result (input_of (state_of self.new) ≡ self.old.input.items) }
        ensures err { OnErr result (output.new.items ≡ output.old.items) }
        ensures unread { self.new.input.items ≡ self.old.input.items }
        ensures limit { self.new.codec.max_allowed_packet ≡ self.old.codec.max_allowed_packet }
    {
        laws::between_packets();
        let mut payload = answer_to(self.unfinished.as_slice());
        self.codec.encode(&mut payload, output)?;
        self.unfinished.clear();
        self.codec.reset_seq_id();
        Ok(())
    }

    /// Takes what one read of the socket gave, and answers each command that it completes. Where
    /// the limit or the buffers were changed so that the codec doesn't stand, it answers
    /// `PacketsOutOfSync`, and has decoded nothing.
    pub fn serve(&mut self, piece: &[u8], output: &mut BytesMut<A>) -> Result<(), PacketCodecError>
        requires { first_id (state_of self.old) ≡ 0 }
        ensures { OnOk result
            (Serves self.old piece.now output.old.items self.new output.new.items) }
    {
        self.input.extend_from_slice(piece)?;
        if !self
            .codec
            .stands_at(&self.input, self.unfinished.as_slice())
        {
            return Err(PacketCodecError::PacketsOutOfSync);
        }
        'commands: loop {
            if !self.next_command()? {
                return Ok(());
            }
            self.answer(output)?;
        }
    }
}
