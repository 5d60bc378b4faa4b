//! A client that reads the answer to a command.

ghost use Rattle.std.specs.Prelude.{◌≡◌, true, false, IfOk, OnErr};
ghost use Rattle.mysql_wire_session.specs.Senders.{is_idle};
ghost use Rattle.mysql_wire_session.specs.State.{state_of};
ghost use Rattle.connection_examples.specs.Answers.{CountsRows, TakesPacket, is_row};

use mysql_wire_session::packet_kind::PacketKind;
use mysql_wire_session::session::{FrontError, Session};
use mysql_wire_session::side::Side;
use std::alloc::Allocator;
use std::io::Read;
use wire_codec::codec::PacketCodec;
use wire_packet_io::{PacketIoError, PacketReader};

/// Why an answer was not read to its end.
#[derive(Drop)]
pub enum AnswerError {
    /// The next packet did not come.
    Io(PacketIoError),
    /// The input ended inside the answer, or there were 2^64 - 1 packets.
    NoEnd,
    /// The session did not go on after a packet, and is as it was before it.
    Session(FrontError),
}

impl From<PacketIoError> for AnswerError {
    ghost use Rattle.connection_examples.specs.declared.counting.AnswerError.TheVariants.{Io};

    ghost from_gives = { λ error converted. converted ≡ Io error };

    fn from(error: PacketIoError) -> Self {
        AnswerError::Io(error)
    }
}

impl From<FrontError> for AnswerError {
    ghost use Rattle.connection_examples.specs.declared.counting.AnswerError.TheVariants.{Session};

    ghost from_gives = { λ error converted. converted ≡ Session error };

    fn from(error: FrontError) -> Self {
        AnswerError::Session(error)
    }
}

// How many rows a packet is.
fn rows_of(kind: PacketKind) -> u64
    ensures { result ≡ is_row kind }
{
    match kind {
        PacketKind::Row | PacketKind::BinaryRow => 1,
        _ => 0,
    }
}

// Reads the server's next packet, and says what it is.
fn read_packet<R: Read, A: Allocator + Copy>(
    session: &mut Session<A>,
    reader: &mut PacketReader<R, A>,
    codec: &mut PacketCodec,
) -> Result<PacketKind, AnswerError>
    ensures { IfOk result (TakesPacket (state_of session.old) (state_of session.new)) }
{
    if !reader.fits(codec) {
        return Err(AnswerError::Io(PacketIoError::PacketsOutOfSync));
    }
    let id = session.next_id();
    if !reader.fill_packet(codec)? {
        return Err(AnswerError::NoEnd);
    }
    let packet = reader.packet();
    let kind = session.advance_front(Side::Server, id, packet.len(), packet)?;
    reader.take_packet();
    Ok(kind)
}

// Reads a server's packets until the session is idle, and counts the rows.
fn read_answer<R: Read, A: Allocator + Copy>(
    session: &mut Session<A>,
    reader: &mut PacketReader<R, A>,
    codec: &mut PacketCodec,
) -> Result<u64, AnswerError>
    ensures { IfOk result (λ rows. (is_idle session.new.phase ≡ true)
        × CountsRows rows (state_of session.old) (state_of session.new)) }
{
    let mut rows = 0u64;
    'packets: for _ in 0..u64::MAX {
        if session.is_idle() {
            return Ok(rows);
        }
        let kind = read_packet(session, reader, codec)?;
        let Some(sum) = rows.checked_add(rows_of(kind)) else {
            return Err(AnswerError::NoEnd);
        };
        rows = sum;
    }
    Err(AnswerError::NoEnd)
}

/// Reads a server's packets up to the end of the answer, when the session is idle again, and counts
/// the rows. The command was sent, and the session went on after it. Of a session that is idle
/// nothing is read.
pub fn count_rows<R: Read, A: Allocator + Copy>(
    session: &mut Session<A>,
    reader: &mut PacketReader<R, A>,
    codec: &mut PacketCodec,
) -> Result<u64, AnswerError>
    ensures counts { IfOk result (λ rows. (is_idle session.new.phase ≡ true)
        × CountsRows rows (state_of session.old) (state_of session.new)) }
    ensures fails { OnErr result (is_idle session.old.phase ≡ false) }
    ensures waits { is_idle session.old.phase ≡ true → (reader.new ≡ reader.old)
        × (codec.new ≡ codec.old) }
{
    if session.is_idle() {
        return Ok(0);
    }
    read_answer(session, reader, codec)
}
