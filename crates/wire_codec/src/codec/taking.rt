//! What becomes of the packets of a run, and the loop that takes them.

ghost use Rattle.std.specs.Prelude.{◌≡◌, ℕ, ◌<◌, ◌++◌, List, [], length, Ok, true};
ghost use Rattle.wire_codec.specs.Codec.{state_at};
ghost use Rattle.wire_codec.specs.Refusals.{answer_of};
ghost use Rattle.wire_codec.specs.Taking.{Drains, TakesOne};

use crate::codec::error::Refusal;
use crate::codec::packet::PacketCodec;
use bytes::BytesMut;
use std::alloc::Allocator;

// A way in which `O` takes packets.
pub(crate) trait PacketSink<A: Allocator + Copy, O> {
    // What this many packets, taken one after another, make of it.
    ghost took: { O → List (List ℕ) → O → Type 0 };

    // Decodes the next packet, which is taken. False where more bytes are needed.
    fn take_next(
        codec: &mut PacketCodec,
        src: &mut BytesMut<A>,
        dst: &mut Vec<u8, A>,
        out: &mut O,
    ) -> Result<bool, Refusal>
        ensures takes { TakesOne took (state_at codec.old src.old dst.old) (answer_of result) out.old
            out.new (state_at codec.new src.new dst.new) }
        ensures shorter { result ≡ Ok true → length src.new.items < length src.old.items }
        ensures limit { codec.new.max_allowed_packet ≡ codec.old.max_allowed_packet };

    ghost none: { (old : O) → took old [] old };

    ghost joins: { (old mid new : O) (ps qs : List (List ℕ)) → took old ps mid → took mid qs new
        → took old (ps ++ qs) new };
}

// Takes packets under this limit until more bytes are needed, whatever limits the earlier bytes
// came under. The limit is the codec's then.
pub(crate) fn drain<A: Allocator + Copy, O, K: PacketSink<A, O>>(
    codec: &mut PacketCodec,
    src: &mut BytesMut<A>,
    dst: &mut Vec<u8, A>,
    limit: usize,
    out: &mut O,
) -> Result<(), Refusal>
    ensures on { Drains K.took (record (state_at codec.old src.old dst.old) { limit = limit })
        (answer_of result) out.old out.new (state_at codec.new src.new dst.new) }
    ensures limit { codec.new.max_allowed_packet ≡ limit }
{
    codec.max_allowed_packet = limit;
    'packets: loop {
        match K::take_next(codec, src, dst, out) {
            Ok(true) => {}
            Ok(false) => return Ok(()),
            Err(refusal) => return Err(refusal),
        }
    }
}
