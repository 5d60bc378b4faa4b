//! A run that goes on where memory was refused.

ghost use Rattle.std.specs.Prelude.{◌≡◌, ◌≢◌, ◌≤◌, length, take, Err, OnOk};
ghost use Rattle.mysql_wire.specs.Codec.{Stands, state_at};
ghost use Rattle.mysql_wire.specs.Runs.{joined, RunsTo};
ghost use Rattle.mysql_wire_examples.specs.Received.{GainsPackets};

use bytes::BytesMut;
use mysql_wire::laws;
use mysql_wire::proto::codec::error::PacketCodecError;
use mysql_wire::proto::codec::{PacketCodec, deliver};
use std::alloc::Allocator;

/// Delivers the pieces. Where memory is refused it goes on with those that were not appended, so
/// often at most; all calls together are one run over the pieces that were.
pub fn deliver_again<A: Allocator + Copy>(
    codec: &mut PacketCodec,
    src: &mut BytesMut<A>,
    dst: &mut Vec<u8, A>,
    pieces: &[&[u8]],
    out: &mut Vec<Vec<u8, A>, A>,
    again: usize,
) -> (usize, Result<(), PacketCodecError>)
    requires { Stands (state_at codec.old src.old dst.old) }
    ensures runs { GainsPackets out.old.items out.new.items (λ gained. RunsTo
        (state_at codec.old src.old dst.old) (joined (take result.0 pieces.now)) result.1 gained
        (state_at codec.new src.new dst.new)) }
    ensures count { result.0 ≤ length pieces.now }
    ensures all { OnOk result.1 (result.0 ≡ length pieces.now) }
    ensures stands { result.1 ≢ Err PacketCodecError.PacketsOutOfSync
        → Stands (state_at codec.new src.new dst.new) }
    ensures limit { codec.new.max_allowed_packet ≡ codec.old.max_allowed_packet }
{
    laws::run_goes_on();
    let (mut count, mut answer) = deliver(codec, src, dst, pieces, out);
    'runs: for _ in 0..again {
        match answer {
            Err(PacketCodecError::OutOfMemory) => {}
            other => return (count, other),
        }
        let (more, next) = deliver(codec, src, dst, &pieces[count..], out);
        count += more;
        answer = next;
    }
    (count, answer)
}
