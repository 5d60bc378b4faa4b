//! The `EOF_Packet`.

ghost use Rattle.std.specs.Prelude.{◌≡◌, ◌<◌, ◌^◌, ◌∷◌, ◌++◌};
ghost use Rattle.wire_buf.specs.Numbers.{le_bytes};
ghost use Rattle.wire_buf.specs.Reading.{Through};
ghost use Rattle.mysql_wire_parts.specs.InOrder.{packet, both, const_u8, number};

use std::alloc::Allocator;
use wire_buf::error::WireError;
use wire_buf::io::ParseBuf;
use wire_buf::proto::{HasSize, MyDeserialize, MySerialize, Varying};
use wire_const::StatusFlags;
use wire_field::row::Both;
use wire_forms::constant::ConstU8;
use wire_repr::int::LeU16;
use wire_repr::wire::Wire;
use wire_values::flags::RawFlags;

// The payload's fields, in order.
type Fields = Both<ConstU8<(), 0xfe>, Both<u16, u16>>;

/// What ends the definitions of columns and the rows of an answer, on a connection under
/// `CLIENT_PROTOCOL_41` and without `CLIENT_DEPRECATE_EOF`.
///
/// <https://dev.mysql.com/doc/dev/mysql-server/latest/page_protocol_basic_eof_packet.html>
#[derive(Clone, Copy, Debug, PartialEq, Eq)]
pub struct EofPacket {
    /// How many warnings there were.
    pub warnings: u16,
    pub status_flags: RawFlags<StatusFlags, LeU16>,
}

impl MySerialize for EofPacket {
    ghost bytes = { λ eof. 0xfe ∷ (le_bytes 2 eof.warnings ++ le_bytes 2 eof.status_flags.0) };

    fn serialize<A: Allocator>(&self, buf: &mut Vec<u8, A>) -> Result<(), WireError> {
        Both(
            ConstU8::<(), 0xfe>::new(),
            Both(self.warnings, self.status_flags.0),
        )
        .serialize(buf)
    }
}

impl HasSize for EofPacket {
    type Size = Varying;
}

impl<'de, A: Allocator + Copy> MyDeserialize<'de, A> for EofPacket {
    type Ctx = ();

    ghost reads = { λ _ input. Through
        (λ eof. (_, (eof.warnings, eof.status_flags.0)))
        (⟦<Fields as MyDeserialize<'de, A>>⟧.reads (tt, (tt, tt)) input) };

    fn deserialize(alloc: A, _: (), buf: &mut ParseBuf<'de>) -> Result<Self, WireError> {
        match buf.parse_in::<Fields, A>(alloc, ((), ((), ()))) {
            Ok(Both(_, Both(warnings, status_flags))) => Ok(EofPacket {
                warnings,
                status_flags: RawFlags::new(status_flags),
            }),
            Err(error) => Err(error),
        }
    }
}

impl<'de, A: Allocator + Copy> Wire<'de, A> for EofPacket {
    ghost is_value = { λ eof. (eof.warnings < 2 ^ 16) × (eof.status_flags.0 < 2 ^ 16) };

    ghost good = { λ _ _ _. Unit {0} };

    ghost kept = { λ eof back. (back.warnings ≡ eof.warnings)
        × (back.status_flags.0 ≡ eof.status_flags.0) };

    ghost takes_memory = { ⊥ };

    fn known(&self) {
        let _warnings = self.warnings;
        let _flags = self.status_flags.0;
    }

    ghost comes_back = { λ ctx eof rest answer eaten value good read.
        packet (⟦<Fields as MyDeserialize<'de, A>>⟧.reads (tt, (tt, tt)))
        _ _ (λ back came. came.1)
        (both const_u8 (both (number (λ n. n) 2 eof.warnings value.0)
        (number (λ n. n) 2 eof.status_flags.0 value.1)))
        answer eaten read };

    ghost of_size = { λ eof size _ stated. Prim.cc };
}
