//! What was written as a payload is read back, alone and after delivery.

ghost use Rattle.std.specs.Prelude.{◌≤◌, ℕ, List, [], length, map, All};
ghost use Rattle.wire_values.specs.Payloads.{ReadsPayload};
ghost use Rattle.wire_buf.specs.Reading.{Parses};
ghost use Rattle.wire_repr.specs.Law.{seen};
ghost use Rattle.wire_laws.specs.PayloadsBack.{DeliversFirst, LeavesBehind, ReadsBack};

use std::alloc::Allocator;
use wire_buf::error::WireError;
use wire_buf::io::ParseBuf;
use wire_codec::laws::encoded_first;
use wire_repr::wire::Wire;
use wire_values::payload::parse_packet_in;

/// Reads a value from the front of a payload, as `parse_packet_in` does. Where what a value was
/// written as stands at the front, and the value is good under the context and before what follows,
/// it comes back, and what follows is left.
pub fn packet_back<'de, T: Wire<'de, A>, A: Allocator + Copy>(
    alloc: A,
    ctx: T::Ctx,
    payload: &'de [u8],
) -> Result<(T, ParseBuf<'de>), WireError>
    ensures reads { ReadsPayload (Parses T.Size.SIZE (T.reads ctx)) payload.entry.now result }
    ensures back { (value : T) (rest : List ℕ) → T.is_value value
        → T.good ctx value (seen T.Size.SIZE rest)
        → LeavesBehind (T.bytes value) rest (T.kept value) T.takes_memory payload.entry.now result }
{
    parse_packet_in(alloc, ctx, payload)
}

/// From values to bytes and back. Of the stream of the packets that values were encoded as, with
/// anything after it, delivery hands out these packets first; and each of them, read as its type
/// is read, gives back its value, and nothing is left.
pub fn values_come_back<'de, T: Wire<'de, A>, A: Allocator + Copy>()
    ensures delivered { (first_id limit : ℕ) (values : List T)
        → All (λ value. length (T.bytes value) ≤ limit) values
        → DeliversFirst first_id limit (map T.bytes values) }
    ensures back { (ctx : T.Ctx) (value : T) → T.is_value value → T.good ctx value []
        → ReadsBack (Parses T.Size.SIZE (T.reads ctx)) (T.bytes value) (T.kept value)
        T.takes_memory }
{
    encoded_first();
}
