//! Values sent as packets, and read back from the bytes that came, wherever these are cut.

ghost use Rattle.std.specs.Prelude.{◌≡◌, ◌≤◌, List, ◌++◌, length, map, All, OnOk, IfOk};
ghost use Rattle.std.specs.List.{AllZip};
ghost use Rattle.mysql_wire.specs.Codec.{expected_id};
ghost use Rattle.mysql_wire.specs.Framing.{stream, id_after};
ghost use Rattle.mysql_wire.specs.Runs.{payloads};
ghost use Rattle.mysql_wire_examples.specs.Received.{DeliversSoFar};
ghost use Rattle.mysql_wire_examples.specs.Values.{StandAlone};

use bytes::BytesMut;
use mysql_wire::io::WireError;
use mysql_wire::laws;
use mysql_wire::proto::Wire;
use mysql_wire::proto::codec::error::PacketCodecError;
use mysql_wire::proto::codec::{PacketCodec, deliver, encode_value};
use std::alloc::Allocator;
use thiserror::Error;

/// Why values didn't come through.
#[derive(Debug, Drop, Error)]
pub enum TransferError {
    /// They were not framed or decoded.
    #[error(transparent)]
    Packet(#[from] PacketCodecError),
    /// A packet isn't read as a value.
    #[error(transparent)]
    Field(#[from] WireError),
}

/// Sends values, each as a packet.
pub fn send_values<'de, T: Wire<'de, A>, A: Allocator + Copy>(
    codec: &mut PacketCodec,
    values: &[T],
    output: &mut BytesMut<A>,
) -> Result<(), PacketCodecError>
    ensures sent { OnOk result (output.new.items
        ≡ output.old.items ++ stream (expected_id codec.old) (map T.bytes values.now)) }
    ensures next { OnOk result
        (expected_id codec.new ≡ id_after (expected_id codec.old) (map T.bytes values.now)) }
    ensures fit { OnOk result
        (All (λ value. length (T.bytes value) ≤ codec.old.max_allowed_packet) values.now) }
    ensures values { OnOk result (All T.is_value values.now) }
    ensures limit { codec.new.max_allowed_packet ≡ codec.old.max_allowed_packet }
{
    laws::stream_append();
    laws::id_after_append();
    for value in values {
        value.known();
        encode_value(codec, value, output)?;
    }
    Ok(())
}

/// Takes the packets from bytes that came in three pieces: cut after this many bytes, and this many
/// further on.
pub fn receive_packets<A: Allocator + Copy>(
    alloc: A,
    limit: usize,
    bytes: &[u8],
    cuts: (usize, usize),
) -> Result<Vec<Vec<u8, A>, A>, PacketCodecError>
    ensures { IfOk result
        (λ packets. DeliversSoFar bytes.now 0 limit (payloads packets.items)) }
{
    let (front, others) = bytes.split_at(cuts.0.min(bytes.len()));
    let (middle, back) = others.split_at(cuts.1.min(others.len()));
    let pieces = [front, middle, back];
    let mut codec = PacketCodec::default();
    codec.max_allowed_packet = limit;
    let mut src = BytesMut::new(alloc);
    let mut dst = Vec::new(alloc);
    let mut packets = Vec::new(alloc);
    let (_, result) = deliver(&mut codec, &mut src, &mut dst, &pieces, &mut packets);
    result?;
    Ok(packets)
}

/// Reads each packet as a value, whose texts borrow from it.
pub fn read_values<'de, T: Wire<'de, A, Ctx = ()>, A: Allocator + Copy>(
    alloc: A,
    packets: &'de [Vec<u8, A>],
) -> Result<Vec<T, A>, WireError>
    ensures back { (values : List T) → payloads packets.entry.now ≡ map T.bytes values
        → All T.is_value values → StandAlone T.good values
        → IfOk result (λ back. AllZip T.kept values back.items) }
{
    let mut values = Vec::new(alloc);
    for packet in packets {
        let (value, _) = laws::packet_back(alloc, (), packet.as_slice())?;
        values.push(value)?;
    }
    Ok(values)
}

/// Sends values over a connection on which the bytes come cut at two places, and reads them back.
/// They borrow from their packets, which are handed out beside them.
pub fn send_and_read<'de, T: Wire<'de, A, Ctx = ()>, A: Allocator + Copy>(
    alloc: A,
    limit: usize,
    values: &[T],
    cuts: (usize, usize),
    packets: &'de mut Vec<Vec<u8, A>, A>,
) -> Result<Vec<T, A>, TransferError>
    ensures { StandAlone T.good values.now
        → IfOk result (λ back. AllZip T.kept values.now back.items) }
{
    laws::values_come_back::<T, A>();
    laws::framed_length();
    let mut codec = PacketCodec::default();
    codec.max_allowed_packet = limit;
    let mut output = BytesMut::new(alloc);
    send_values(&mut codec, values, &mut output)?;
    *packets = receive_packets(alloc, limit, output.as_slice(), cuts)?;
    let back = read_values(alloc, packets.as_slice())?;
    Ok(back)
}
