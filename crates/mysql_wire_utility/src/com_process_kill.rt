//! `COM_PROCESS_KILL`.

ghost use Rattle.std.specs.Prelude.{◌≡◌, ◌<◌, ◌^◌, ◌∷◌};
ghost use Rattle.wire_buf.specs.Numbers.{le_bytes};
ghost use Rattle.wire_buf.specs.Reading.{Through};
ghost use Rattle.mysql_wire_parts.specs.InOrder.{packet, both, const_u8, number};

use std::alloc::Allocator;
use wire_buf::error::WireError;
use wire_buf::io::ParseBuf;
use wire_buf::proto::{HasSize, MyDeserialize, MySerialize, Varying};
use wire_field::row::Both;
use wire_forms::constant::ConstU8;
use wire_repr::wire::Wire;

// The payload's fields, in order.
type Fields = Both<ConstU8<(), 0x0c>, u32>;

/// A connection is ended, this one or another. The answer is an `OkPacket`, or an error. Deprecated
/// for the query `KILL`.
///
/// <https://dev.mysql.com/doc/dev/mysql-server/latest/page_protocol_com_process_kill.html>
#[derive(Clone, Copy, Debug, PartialEq, Eq)]
pub struct ComProcessKill {
    pub connection_id: u32,
}

impl MySerialize for ComProcessKill {
    ghost bytes = { λ command. 0x0c ∷ le_bytes 4 command.connection_id };

    fn serialize<A: Allocator>(&self, buf: &mut Vec<u8, A>) -> Result<(), WireError> {
        Both(ConstU8::<(), 0x0c>::new(), self.connection_id).serialize(buf)
    }
}

impl HasSize for ComProcessKill {
    type Size = Varying;
}

impl<'de, A: Allocator + Copy> MyDeserialize<'de, A> for ComProcessKill {
    type Ctx = ();

    ghost reads = { λ _ input. Through (λ command. (_, command.connection_id))
        (⟦<Fields as MyDeserialize<'de, A>>⟧.reads (tt, tt) input) };

    fn deserialize(alloc: A, _: (), buf: &mut ParseBuf<'de>) -> Result<Self, WireError> {
        match buf.parse_in::<Fields, A>(alloc, ((), ())) {
            Ok(Both(_, connection_id)) => Ok(ComProcessKill { connection_id }),
            Err(error) => Err(error),
        }
    }
}

impl<'de, A: Allocator + Copy> Wire<'de, A> for ComProcessKill {
    ghost is_value = { λ command. command.connection_id < 2 ^ 32 };

    ghost good = { λ _ _ _. Unit {0} };

    ghost kept = { λ command back. back.connection_id ≡ command.connection_id };

    ghost takes_memory = { ⊥ };

    fn known(&self) {
        let _id = self.connection_id;
    }

    ghost comes_back = { λ ctx command rest answer eaten value good read.
        packet (⟦<Fields as MyDeserialize<'de, A>>⟧.reads (tt, tt)) _ _ (λ back came. came.1)
        (both const_u8 (number (λ n. n) 4 command.connection_id value)) answer eaten read };

    ghost of_size = { λ command size _ stated. Prim.cc };
}
