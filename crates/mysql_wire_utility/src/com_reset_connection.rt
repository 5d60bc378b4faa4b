//! `COM_RESET_CONNECTION`.

ghost use Rattle.std.specs.Prelude.{◌∷◌, [], refl};
ghost use Rattle.wire_repr.specs.Law.{size-is};
ghost use Rattle.wire_forms.specs.Constants.{ReadsConst, ReadsConst-back};

use std::alloc::Allocator;
use wire_buf::error::{InvalidReason, WireError};
use wire_buf::io::ParseBuf;
use wire_buf::proto::{Fixed, HasSize, MyDeserialize, MySerialize};
use wire_forms::constant::ConstU8;
use wire_repr::wire::Wire;

/// The session begins anew, as the same user, who does not log in again. The answer is an
/// `OkPacket`, or an error.
///
/// <https://dev.mysql.com/doc/dev/mysql-server/latest/page_protocol_com_reset_connection.html>
#[derive(Clone, Copy, Debug, PartialEq, Eq)]
pub struct ComResetConnection;

impl MySerialize for ComResetConnection {
    ghost bytes = { λ _. 0x1f ∷ [] };

    fn serialize<A: Allocator>(&self, buf: &mut Vec<u8, A>) -> Result<(), WireError> {
        ConstU8::<(), 0x1f>::new().serialize(buf)
    }
}

impl HasSize for ComResetConnection {
    type Size = Fixed<1>;
}

impl<'de, A: Allocator + Copy> MyDeserialize<'de, A> for ComResetConnection {
    type Ctx = ();

    ghost reads = { λ _. ReadsConst 1 (0x1f ∷ []) };

    fn deserialize(_: A, _: (), buf: &mut ParseBuf<'de>) -> Result<Self, WireError> {
        match buf.eat_u8() {
            0x1f => Ok(ComResetConnection),
            _ => Err(WireError::InvalidData(InvalidReason::ConstMismatch)),
        }
    }
}

impl<'de, A: Allocator + Copy> Wire<'de, A> for ComResetConnection {
    ghost is_value = { λ _. Unit {0} };

    ghost good = { λ _ _ _. Unit {0} };

    ghost kept = { λ _ _. Unit {0} };

    ghost takes_memory = { ⊥ };

    fn known(&self) {}

    ghost comes_back = { λ ctx command rest answer eaten value good read.
        ReadsConst-back 1 (0x1f ∷ []) rest refl answer eaten read };

    ghost of_size = { λ command size value stated. size-is 1 size 1 stated refl };
}
