//! `COM_SET_OPTION`.

ghost use Rattle.std.specs.Prelude.{◌≡◌, ◌<◌, ◌^◌, ◌∷◌};
ghost use Rattle.wire_buf.specs.Numbers.{le_bytes};
ghost use Rattle.wire_buf.specs.Reading.{Through};
ghost use Rattle.mysql_wire_parts.specs.InOrder.{packet, both, const_u8, number};

use std::alloc::Allocator;
use wire_buf::error::WireError;
use wire_buf::io::ParseBuf;
use wire_buf::proto::{HasSize, MyDeserialize, MySerialize, Varying};
use wire_field::row::Both;
use wire_forms::constant::ConstU8;
use wire_repr::wire::Wire;

// The payload's fields, in order.
type Fields = Both<ConstU8<(), 0x1b>, u16>;

/// Several statements in one text are allowed, or no longer. The answer is an `EofPacket`, or an
/// error.
///
/// <https://dev.mysql.com/doc/dev/mysql-server/latest/page_protocol_com_set_option.html>
#[derive(Clone, Copy, Debug, PartialEq, Eq)]
pub struct ComSetOption {
    /// 0, `MYSQL_OPTION_MULTI_STATEMENTS_ON`, or 1, `MYSQL_OPTION_MULTI_STATEMENTS_OFF`.
    pub operation: u16,
}

impl MySerialize for ComSetOption {
    ghost bytes = { λ command. 0x1b ∷ le_bytes 2 command.operation };

    fn serialize<A: Allocator>(&self, buf: &mut Vec<u8, A>) -> Result<(), WireError> {
        Both(ConstU8::<(), 0x1b>::new(), self.operation).serialize(buf)
    }
}

impl HasSize for ComSetOption {
    type Size = Varying;
}

impl<'de, A: Allocator + Copy> MyDeserialize<'de, A> for ComSetOption {
    type Ctx = ();

    ghost reads = { λ _ input. Through (λ command. (_, command.operation))
        (⟦<Fields as MyDeserialize<'de, A>>⟧.reads (tt, tt) input) };

    fn deserialize(alloc: A, _: (), buf: &mut ParseBuf<'de>) -> Result<Self, WireError> {
        match buf.parse_in::<Fields, A>(alloc, ((), ())) {
            Ok(Both(_, operation)) => Ok(ComSetOption { operation }),
            Err(error) => Err(error),
        }
    }
}

impl<'de, A: Allocator + Copy> Wire<'de, A> for ComSetOption {
    ghost is_value = { λ command. command.operation < 2 ^ 16 };

    ghost good = { λ _ _ _. Unit {0} };

    ghost kept = { λ command back. back.operation ≡ command.operation };

    ghost takes_memory = { ⊥ };

    fn known(&self) {
        let _operation = self.operation;
    }

    ghost comes_back = { λ ctx command rest answer eaten value good read.
        packet (⟦<Fields as MyDeserialize<'de, A>>⟧.reads (tt, tt)) _ _ (λ back came. came.1)
        (both const_u8 (number (λ n. n) 2 command.operation value)) answer eaten read };

    ghost of_size = { λ command size _ stated. Prim.cc };
}
