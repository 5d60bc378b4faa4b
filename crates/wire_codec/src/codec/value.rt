//! A value as a packet.

ghost use Rattle.std.specs.Prelude.{◌≡◌, ◌<◌, ◌≤◌, ◌⊎◌, ◌++◌, length, OnOk, OnErr, IfErr, Err};
ghost use Rattle.wire_codec.specs.Codec.{expected_id, header_of};
ghost use Rattle.wire_codec.specs.Framing.{framing, next_id};

use crate::codec::error::PacketCodecError;
use crate::codec::packet::PacketCodec;
use bytes::BytesMut;
use std::alloc::Allocator;
use wire_buf::proto::MySerialize;

// Room that most values without a long text need no more than.
const USUAL_LEN: usize = 256;

/// Appends a value's bytes as one packet, where there are at most `max_allowed_packet` of them.
///
/// `PacketTooLarge`: there are more. `OutOfMemory`: memory was refused, to the payload or to `dst`.
/// Neither changes anything.
///
/// <https://dev.mysql.com/doc/dev/mysql-server/latest/page_protocol_basic_packets.html>
pub fn encode_value<T: MySerialize>(
    codec: &mut PacketCodec,
    value: &T,
    dst: &mut BytesMut<impl Allocator + Copy>,
) -> Result<(), PacketCodecError>
    ensures appended { OnOk result
        (dst.new.items ≡ dst.old.items ++ framing (expected_id codec.old) (T.bytes value.now)) }
    ensures next { OnOk result
        (expected_id codec.new ≡ next_id (expected_id codec.old) (T.bytes value.now)) }
    ensures fits { OnOk result (length (T.bytes value.now) ≤ codec.old.max_allowed_packet) }

    ensures too_large { (result ≡ Err PacketCodecError.PacketTooLarge)
        → (codec.old.max_allowed_packet < length (T.bytes value.now)) }
    ensures errors { IfErr result (λ error. (error ≡ PacketCodecError.PacketTooLarge)
        ⊎ (error ≡ PacketCodecError.OutOfMemory)) }
    ensures err { OnErr result ((expected_id codec.new ≡ expected_id codec.old)
        × (dst.new.items ≡ dst.old.items)) }

    ensures header { header_of codec.new ≡ header_of codec.old }
    ensures limit { codec.new.max_allowed_packet ≡ codec.old.max_allowed_packet }
{
    let Ok(mut payload) = Vec::with_capacity(*dst.allocator(), USUAL_LEN) else {
        return Err(PacketCodecError::OutOfMemory);
    };
    if value.serialize(&mut payload).is_err() {
        return Err(PacketCodecError::OutOfMemory);
    }
    let mut packet = payload.as_slice();
    codec.encode(&mut packet, dst)
}
