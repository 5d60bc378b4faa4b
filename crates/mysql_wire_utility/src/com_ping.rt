//! `COM_PING`.

ghost use Rattle.std.specs.Prelude.{◌∷◌, [], refl};
ghost use Rattle.wire_repr.specs.Law.{size-is};
ghost use Rattle.wire_forms.specs.Constants.{ReadsConst, ReadsConst-back};

use std::alloc::Allocator;
use wire_buf::error::{InvalidReason, WireError};
use wire_buf::io::ParseBuf;
use wire_buf::proto::{Fixed, HasSize, MyDeserialize, MySerialize};
use wire_forms::constant::ConstU8;
use wire_repr::wire::Wire;

/// `COM_PING`: whether the server is there. It answers with an `OkPacket`.
///
/// <https://dev.mysql.com/doc/dev/mysql-server/latest/page_protocol_com_ping.html>
#[derive(Clone, Copy, Debug, PartialEq, Eq)]
pub struct ComPing;

impl MySerialize for ComPing {
    ghost bytes = { λ _. 0x0e ∷ [] };

    fn serialize<A: Allocator>(&self, buf: &mut Vec<u8, A>) -> Result<(), WireError> {
        ConstU8::<(), 0x0e>::new().serialize(buf)
    }
}

impl HasSize for ComPing {
    type Size = Fixed<1>;
}

impl<'de, A: Allocator + Copy> MyDeserialize<'de, A> for ComPing {
    type Ctx = ();

    ghost reads = { λ _. ReadsConst 1 (0x0e ∷ []) };

    fn deserialize(_: A, _: (), buf: &mut ParseBuf<'de>) -> Result<Self, WireError> {
        match buf.eat_u8() {
            0x0e => Ok(ComPing),
            _ => Err(WireError::InvalidData(InvalidReason::ConstMismatch)),
        }
    }
}

impl<'de, A: Allocator + Copy> Wire<'de, A> for ComPing {
    ghost is_value = { λ _. Unit {0} };

    ghost good = { λ _ _ _. Unit {0} };

    ghost kept = { λ _ _. Unit {0} };

    ghost takes_memory = { ⊥ };

    fn known(&self) {}

    ghost comes_back = { λ ctx value rest answer eaten is good read.
        ReadsConst-back 1 (0x0e ∷ []) rest refl answer eaten read };

    ghost of_size = { λ value size is stated. size-is 1 size 1 stated refl };
}
