//! A command that names a statement and says no more.

ghost use Rattle.std.specs.Prelude.{◌≡◌, ◌<◌, ◌^◌, ◌∷◌, ◌++◌};
ghost use Rattle.wire_buf.specs.Numbers.{le_bytes};
ghost use Rattle.wire_buf.specs.Reading.{Through};
ghost use Rattle.mysql_wire_parts.specs.InOrder.{packet, both, const_u8, number};
ghost use Rattle.mysql_wire_statements.specs.Again.{packet_again, both_again, const_again, number_again};

use crate::written_back::WrittenBack;
use std::alloc::Allocator;
use wire_buf::error::WireError;
use wire_buf::io::ParseBuf;
use wire_buf::proto::{HasSize, MyDeserialize, MySerialize, Varying};
use wire_field::row::Both;
use wire_forms::constant::ConstU8;
use wire_repr::wire::Wire;

// The payload's fields, in order.
type Fields<const HEADER: u8> = Both<ConstU8<(), HEADER>, u32>;

/// The command of the number `HEADER`, for a statement. Another header is refused as
/// `ConstMismatch`.
#[derive(Clone, Copy, Debug, PartialEq, Eq)]
pub struct StatementCommand<const HEADER: u8> {
    pub statement_id: u32,
}

impl<const HEADER: u8> MySerialize for StatementCommand<HEADER> {
    ghost bytes = { λ command. HEADER ∷ le_bytes 4 command.statement_id };

    fn serialize<A: Allocator>(&self, buf: &mut Vec<u8, A>) -> Result<(), WireError> {
        Both(ConstU8::<(), HEADER>::new(), self.statement_id).serialize(buf)
    }
}

impl<const HEADER: u8> HasSize for StatementCommand<HEADER> {
    type Size = Varying;
}

impl<'de, A: Allocator + Copy, const HEADER: u8> MyDeserialize<'de, A>
    for StatementCommand<HEADER> {
    type Ctx = ();

    ghost reads = { λ _ input. Through (λ command. (_, command.statement_id))
        (⟦<Fields<HEADER> as MyDeserialize<'de, A>>⟧.reads (tt, tt) input) };

    fn deserialize(alloc: A, _: (), buf: &mut ParseBuf<'de>) -> Result<Self, WireError> {
        match buf.parse_in::<Fields<HEADER>, A>(alloc, ((), ())) {
            Ok(Both(_, statement_id)) => Ok(StatementCommand { statement_id }),
            Err(error) => Err(error),
        }
    }
}

impl<'de, A: Allocator + Copy, const HEADER: u8> Wire<'de, A> for StatementCommand<HEADER> {
    ghost is_value = { λ command. command.statement_id < 2 ^ 32 };

    ghost good = { λ _ _ _. Unit {0} };

    ghost kept = { λ command back. back.statement_id ≡ command.statement_id };

    ghost takes_memory = { ⊥ };

    fn known(&self) {
        let _id = self.statement_id;
    }

    ghost comes_back = { λ ctx command rest answer eaten value good read.
        packet (⟦<Fields<HEADER> as MyDeserialize<'de, A>>⟧.reads (tt, tt)) _ _ (λ back came. came.1)
        (both const_u8 (number (λ n. n) 4 command.statement_id value)) answer eaten read };

    ghost of_size = { λ command size _ stated. Prim.cc };
}

impl<'de, A: Allocator + Copy, const HEADER: u8> WrittenBack<'de, A> for StatementCommand<HEADER> {
    ghost shortest = { λ _ _. Unit {0} };

    ghost again = { λ ctx input command eaten are shortest read.
        packet_again (⟦<Fields<HEADER> as MyDeserialize<'de, A>>⟧.reads (tt, tt))
        (λ command. (_, command.statement_id))
        (both_again (const_again HEADER) (number_again (λ n. n) 4))
        input command eaten are read };
}
