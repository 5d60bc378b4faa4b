//! Both ends of a connection, each with a codec: what one sends comes to the other, cut anywhere.

ghost use Rattle.std.specs.Prelude.{◌≡◌, ◌+◌, ◌%◌, ℕ, [], ◌∷◌, ◌++◌, OnOk, IfOk};
ghost use Rattle.mysql_wire.specs.Codec.{expected_id};
ghost use Rattle.mysql_wire.specs.Runs.{joined, payloads};

use bytes::BytesMut;
use mysql_wire::laws;
use mysql_wire::proto::codec::error::PacketCodecError;
use mysql_wire::proto::codec::{PacketCodec, deliver};
use std::alloc::{AllocError, Allocator, Global};

/// A packet, and how many bytes each read of it gives; the last gives what is left.
#[derive(Clone, Copy)]
pub struct Sent<'a> {
    pub packet: &'a [u8],
    pub reads: &'a [usize],
}

/// A command, and the packets of its answer.
#[derive(Clone, Copy)]
pub struct Exchange<'a> {
    pub command: Sent<'a>,
    pub answer: &'a [Sent<'a>],
}

/// One end: its codec, the bytes that have come, and the packet that isn't whole.
#[derive(Drop)]
pub struct End<A: Allocator + Copy = Global> {
    pub codec: PacketCodec,
    pub input: BytesMut<A>,
    pub unfinished: Vec<u8, A>,
}

ghost use Rattle.mysql_wire_examples.specs.BothEnds.{InStep, IsIdle, answer_of, answers_of, chunks_in, commands_of, ids_in, ids_of};

impl<A: Allocator + Copy> End<A> {
    /// At the start of a connection.
    pub fn new(alloc: A, limit: usize) -> Self
        ensures idle { IsIdle 0 result }
        ensures limit { result.codec.max_allowed_packet ≡ limit }
    {
        let mut codec = PacketCodec::default();
        codec.max_allowed_packet = limit;
        End {
            codec,
            input: BytesMut::new(alloc),
            unfinished: Vec::new(alloc),
        }
    }
}

// Cuts bytes as reads give them.
fn cut<'a, A: Allocator>(
    alloc: A,
    bytes: &'a [u8],
    reads: &[usize],
) -> Result<Vec<&'a [u8], A>, AllocError>
    ensures { IfOk result (λ pieces. joined pieces.items ≡ bytes.entry.now) }
{
    let mut pieces = Vec::new(alloc);
    let mut rest = bytes;
    'reads: for count in reads {
        let (piece, behind) = rest.split_at(rest.len().min(*count));
        pieces.push(piece)?;
        rest = behind;
    }
    pieces.push(rest)?;
    Ok(pieces)
}

/// Sends a packet from one end to the other, which takes it out of the reads.
pub fn pass<A: Allocator + Copy>(
    alloc: A,
    from: &mut End<A>,
    to: &mut End<A>,
    sent: Sent<'_>,
    packets: &mut Vec<Vec<u8, A>, A>,
) -> Result<(), PacketCodecError>
    requires { InStep from.old to.old }
    ensures handed { OnOk result (payloads packets.new.items
        ≡ payloads packets.old.items ++ sent.entry.packet.now ∷ []) }
    ensures in_step { OnOk result (InStep from.new to.new) }
    // Both expect the number of chunks that were sent since the command began.
    ensures counted { OnOk result ((count : ℕ) → expected_id from.old.codec ≡ count % 256
        → expected_id from.new.codec
        ≡ (count + chunks_in sent.entry.packet.now) % 256) }
{
    laws::between_packets();
    laws::chunks_counted();
    laws::encoded_first();
    laws::nothing_read();
    laws::one_delivery();
    let mut wire = BytesMut::new(alloc);
    let mut packet = sent.packet;
    from.codec.encode(&mut packet, &mut wire)?;
    let pieces = cut(alloc, wire.as_slice(), sent.reads)?;
    let (_, result) = deliver(
        &mut to.codec,
        &mut to.input,
        &mut to.unfinished,
        pieces.as_slice(),
        packets,
    );
    result
}

/// What both ends heard, and which id each expected after each packet: first the end that sent it.
#[derive(Drop)]
pub struct Heard<A: Allocator + Copy = Global> {
    pub commands: Vec<Vec<u8, A>, A>,
    pub answers: Vec<Vec<u8, A>, A>,
    pub ids: Vec<(u8, u8), A>,
}

// Passes a packet, and notes the ids that both ends expect then.
fn pass_noted<A: Allocator + Copy>(
    alloc: A,
    from: &mut End<A>,
    to: &mut End<A>,
    sent: Sent<'_>,
    packets: &mut Vec<Vec<u8, A>, A>,
    ids: &mut Vec<(u8, u8), A>,
) -> Result<(), PacketCodecError>
    requires { InStep from.old to.old }
    ensures handed { OnOk result (payloads packets.new.items
        ≡ payloads packets.old.items ++ sent.entry.packet.now ∷ []) }
    ensures in_step { OnOk result (InStep from.new to.new) }
    ensures counted { OnOk result ((count : ℕ) → expected_id from.old.codec ≡ count % 256
        → expected_id from.new.codec ≡ (count + chunks_in sent.entry.packet.now) % 256) }
    ensures noted { OnOk result (ids.new.items ≡ ids.old.items
        ++ (expected_id from.new.codec, expected_id from.new.codec) ∷ []) }
{
    pass(alloc, from, to, sent, packets)?;
    ids.push((from.codec.sequence_id(), to.codec.sequence_id()))?;
    Ok(())
}

/// A command and its answer, with the ids begun anew.
pub fn ask<A: Allocator + Copy>(
    alloc: A,
    client: &mut End<A>,
    server: &mut End<A>,
    exchange: Exchange<'_>,
    heard: &mut Heard<A>,
) -> Result<(), PacketCodecError>
    requires { InStep client.old server.old }
    ensures commands { OnOk result (payloads heard.new.commands.items
        ≡ payloads heard.old.commands.items ++ exchange.entry.command.packet.now ∷ []) }
    ensures answers { OnOk result (payloads heard.new.answers.items
        ≡ payloads heard.old.answers.items ++ answer_of exchange.entry) }
    ensures ids { OnOk result (heard.new.ids.items
        ≡ heard.old.ids.items ++ ids_in exchange.entry) }
    ensures in_step { OnOk result (InStep client.new server.new) }
{
    client.codec.reset_seq_id();
    server.codec.reset_seq_id();
    let Exchange { command, answer } = exchange;
    pass_noted(
        alloc,
        client,
        server,
        command,
        &mut heard.commands,
        &mut heard.ids,
    )?;
    'answers: for sent in answer {
        pass_noted(
            alloc,
            server,
            client,
            *sent,
            &mut heard.answers,
            &mut heard.ids,
        )?;
    }
    Ok(())
}

/// One exchange after another. Each end is handed just what the other sent, in order, and after
/// each packet both expect the same id: the number of its chunks and of those before it since the
/// command began, modulo 256.
pub fn converse<A: Allocator + Copy>(
    alloc: A,
    client: &mut End<A>,
    server: &mut End<A>,
    exchanges: &[Exchange<'_>],
    heard: &mut Heard<A>,
) -> Result<(), PacketCodecError>
    requires { InStep client.old server.old }
    ensures commands { OnOk result (payloads heard.new.commands.items
        ≡ payloads heard.old.commands.items ++ commands_of exchanges.now) }
    ensures answers { OnOk result (payloads heard.new.answers.items
        ≡ payloads heard.old.answers.items ++ answers_of exchanges.now) }
    ensures ids { OnOk result (heard.new.ids.items
        ≡ heard.old.ids.items ++ ids_of exchanges.now) }
    ensures in_step { OnOk result (InStep client.new server.new) }
{
    'exchanges: for exchange in exchanges {
        ask(alloc, client, server, *exchange, heard)?;
    }
    Ok(())
}
