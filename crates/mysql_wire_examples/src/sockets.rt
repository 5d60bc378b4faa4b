//! Packets over any reader and any writer: a client's question, a server's loop, a proxy.

ghost use Rattle.std.specs.Prelude.{◌≡◌, IfOk, IsNone, OnOk, Ok, true, false};
ghost use Rattle.mysql_wire.specs.Codec.{expected_id, header_of};
ghost use Rattle.mysql_wire.specs.Framing.{framing, next_id};
ghost use Rattle.mysql_wire.specs.Lent.{reading_state};
ghost use Rattle.mysql_wire.specs.PacketIo.{FitsAt};
ghost use Rattle.mysql_wire_examples.specs.Connection.{answer_to};
ghost use Rattle.mysql_wire_examples.specs.Relayed.{Brings, IsAnswered, IsRelayed, Sends, at_id};

use crate::connection::answer_to;
use mysql_wire::proto::codec::PacketCodec;
use mysql_wire::proto::packet_io::{PacketIoError, PacketReader, PacketWriter};
use std::alloc::Allocator;
use std::io::{Read, Write};

/// Sends a packet after what is still pending.
pub fn send<W: Write, A: Allocator + Copy>(
    codec: &mut PacketCodec,
    output: &mut PacketWriter<W, A>,
    packet: &[u8],
) -> Result<(), PacketIoError>
    ensures sent { OnOk result (Sends W.contents output.old output.new
        (framing (expected_id codec.old) packet.now)) }
    ensures next { OnOk result
        (expected_id codec.new ≡ next_id (expected_id codec.old) packet.now) }
    ensures header { header_of codec.new ≡ header_of codec.old }
    ensures limit { codec.new.max_allowed_packet ≡ codec.old.max_allowed_packet }
{
    let mut packet = packet;
    output.queue(codec, &mut packet)?;
    output.write_pending()
}

/// A client sends a command, and takes the first packet of the answer.
///
/// `UnexpectedEnd`: the server went away without one. `PacketsOutOfSync`: the answer bears another
/// id, or the codec isn't the one that this reader was used with.
pub fn ask<R: Read, W: Write, A: Allocator + Copy>(
    codec: &mut PacketCodec,
    input: &mut PacketReader<R, A>,
    output: &mut PacketWriter<W, A>,
    command: &[u8],
) -> Result<Vec<u8, A>, PacketIoError>
    ensures sent { OnOk result
        (Sends W.contents output.old output.new (framing 0 command.now)) }
    ensures answered { IfOk result (λ answer. IsNone input.old.lent
        → Brings R.remaining (at_id (next_id 0 command.now) codec.old) input.old input.new
        answer.items (reading_state codec.new input.new)) }
{
    codec.reset_seq_id();
    send(codec, output, command)?;
    if !input.fits(codec) {
        return Err(PacketIoError::PacketsOutOfSync);
    }
    match input.next_packet(codec) {
        Ok(Some(answer)) => Ok(answer),
        Ok(None) => Err(PacketIoError::UnexpectedEnd),
        Err(error) => Err(error),
    }
}

/// A server takes the next command, and answers it: false where the client went away between two
/// commands.
pub fn answer_next<R: Read, W: Write, A: Allocator + Copy>(
    codec: &mut PacketCodec,
    input: &mut PacketReader<R, A>,
    output: &mut PacketWriter<W, A>,
) -> Result<bool, PacketIoError>
    requires { FitsAt input.old.is_lost (reading_state codec.old input.old) }
    ensures answered { result ≡ Ok true → IsNone input.old.lent → IsAnswered answer_to
        (Brings R.remaining (at_id 0 codec.old) input.old input.new)
        (Sends W.contents output.old output.new) }
    ensures ended { result ≡ Ok false → output.new ≡ output.old }
    ensures fits { OnOk result (FitsAt input.new.is_lost (reading_state codec.new input.new)) }
{
    codec.reset_seq_id();
    match input.next_packet(codec) {
        Ok(Some(command)) => {
            send(codec, output, answer_to(command.as_slice()))?;
            Ok(true)
        }
        Ok(None) => Ok(false),
        Err(error) => Err(error),
    }
}

/// As `answer_next`, with the command read where it lies: the answer is queued while the command is
/// still lent, and numbered on from it.
pub fn answer_in_place<R: Read, W: Write, A: Allocator + Copy>(
    codec: &mut PacketCodec,
    input: &mut PacketReader<R, A>,
    output: &mut PacketWriter<W, A>,
) -> Result<bool, PacketIoError>
    requires { FitsAt input.old.is_lost (reading_state codec.old input.old) }
    ensures answered { result ≡ Ok true → IsNone input.old.lent → IsAnswered answer_to
        (Brings R.remaining (at_id 0 codec.old) input.old input.new)
        (Sends W.contents output.old output.new) }
    ensures ended { result ≡ Ok false → output.new ≡ output.old }
    ensures taken { OnOk result (IsNone input.new.lent) }
    ensures fits { OnOk result (FitsAt input.new.is_lost (reading_state codec.new input.new)) }
{
    codec.reset_seq_id();
    match input.fill_packet(codec) {
        Ok(true) => {}
        Ok(false) => return Ok(false),
        Err(error) => return Err(error),
    }
    let mut answer = answer_to(input.packet());
    output.queue(codec, &mut answer)?;
    input.take_packet();
    output.write_pending()?;
    Ok(true)
}

/// A proxy passes one packet on, under the ids of the other side: false where the input ends
/// between two packets. Each side has its own codec.
pub fn relay<R: Read, W: Write, A: Allocator + Copy>(
    from_codec: &mut PacketCodec,
    from: &mut PacketReader<R, A>,
    to_codec: &mut PacketCodec,
    to: &mut PacketWriter<W, A>,
) -> Result<bool, PacketIoError>
    requires { FitsAt from.old.is_lost (reading_state from_codec.old from.old) }
    ensures passed { result ≡ Ok true → IsNone from.old.lent → IsRelayed (expected_id to_codec.old)
        (Brings R.remaining from_codec.old from.old from.new)
        (Sends W.contents to.old to.new) }
    ensures ended { result ≡ Ok false → to.new ≡ to.old }
    ensures fits { FitsAt from.new.is_lost (reading_state from_codec.new from.new) }
{
    match from.next_packet(from_codec) {
        Ok(Some(packet)) => {
            send(to_codec, to, packet.as_slice())?;
            Ok(true)
        }
        Ok(None) => Ok(false),
        Err(error) => Err(error),
    }
}
