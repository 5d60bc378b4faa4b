//! A client's exchange, and packets from any reader.

ghost use Rattle.std.specs.Prelude.{◌≡◌, ℕ, List, [], ◌++◌, OnOk, IfOk, IfSome};
ghost use Rattle.std.specs.Io.KnownBytes.{IsAtEnd};
ghost use Rattle.mysql_wire.specs.Codec.{Stands, state_at};
ghost use Rattle.mysql_wire.specs.Delivery.{Delivers, Waiting};
ghost use Rattle.mysql_wire.specs.Framing.{framing, next_id};
ghost use Rattle.mysql_wire.specs.Runs.{joined, payloads, RunsTo};
ghost use Rattle.mysql_wire_examples.specs.Received.{DeliversSoFar, GainsPackets};

use bytes::BytesMut;
use mysql_wire::laws;
use mysql_wire::proto::codec::error::PacketCodecError;
use mysql_wire::proto::codec::{PacketCodec, deliver};
use std::alloc::Allocator;
use std::io;
use std::io::Read;

/// A client sends a command, and takes the packets of the answer from the pieces that have come.
pub fn exchange<A: Allocator + Copy>(
    alloc: A,
    command: &[u8],
    output: &mut BytesMut<A>,
    answer: &[&[u8]],
) -> Result<Vec<Vec<u8, A>, A>, PacketCodecError>
    ensures sent { OnOk result (output.new.items ≡ output.old.items ++ framing 0 command.now) }
    ensures answered { IfOk result (λ packets. (unfinished : List ℕ) × (rest : List ℕ)
        × Delivers [] (joined answer.now) (next_id 0 command.now) 4194304 (payloads packets.items)
        Waiting unfinished rest) }
{
    let mut codec = PacketCodec::default();
    let mut command = command;
    codec.encode(&mut command, output)?;

    let mut src = BytesMut::new(alloc);
    let mut dst = Vec::new(alloc);
    let mut packets = Vec::new(alloc);
    let (_, result) = deliver(&mut codec, &mut src, &mut dst, answer, &mut packets);
    result?;
    Ok(packets)
}

// Takes the packets of what has come into `src`.
fn take_unread<A: Allocator + Copy>(
    codec: &mut PacketCodec,
    src: &mut BytesMut<A>,
    dst: &mut Vec<u8, A>,
    packets: &mut Vec<Vec<u8, A>, A>,
) -> Result<(), PacketCodecError>
    requires { Stands (state_at codec.old src.old dst.old) }
    ensures run { OnOk result (GainsPackets packets.old.items packets.new.items (λ gained. RunsTo
        (state_at codec.old src.old dst.old) [] (Ok tt) gained
        (state_at codec.new src.new dst.new))) }
    ensures limit { codec.new.max_allowed_packet ≡ codec.old.max_allowed_packet }
{
    let (_, result) = deliver(codec, src, dst, &[], packets);
    result
}

/// Reads packets to the end of any reader, in at most 2^64 - 1 reads, each of which is asked for
/// 8192 bytes or more.
pub fn read_packets<A: Allocator + Copy, R: Read>(
    alloc: A,
    limit: usize,
    reader: &mut R,
) -> Result<Vec<Vec<u8, A>, A>, PacketCodecError>
    ensures packets { IfOk result (λ packets. IfSome (R.remaining reader.old)
        (λ input. DeliversSoFar input 0 limit (payloads packets.items))) }
    ensures all_read { OnOk result (IsAtEnd (R.remaining reader.new)) }
{
    laws::nothing_read();
    laws::appended_run();
    laws::run_goes_on();
    let mut codec = PacketCodec::default();
    codec.max_allowed_packet = limit;
    let mut src = BytesMut::new(alloc);
    let mut dst = Vec::new(alloc);
    let mut packets = Vec::new(alloc);
    'reads: for _ in 0..u64::MAX {
        src.reserve(8192)?;
        if src.read_from(reader)? == 0 {
            return Ok(packets);
        }
        take_unread(&mut codec, &mut src, &mut dst, &mut packets)?;
    }
    Err(PacketCodecError::Io(io::Error::from(io::ErrorKind::Other)))
}
