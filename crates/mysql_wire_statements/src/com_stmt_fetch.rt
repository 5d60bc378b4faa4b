//! `COM_STMT_FETCH`.

ghost use Rattle.std.specs.Prelude.{◌<◌, ◌^◌};
ghost use Rattle.wire_buf.specs.Reading.{Through};
ghost use Rattle.mysql_wire_parts.specs.InOrder.{packet, both, const_u8, number};
ghost use Rattle.mysql_wire_statements.specs.Commands.{fetch_bytes, IsFetch};
ghost use Rattle.mysql_wire_statements.specs.Again.{packet_again, both_again, const_again, number_again};

use crate::written_back::WrittenBack;
use std::alloc::Allocator;
use wire_buf::error::WireError;
use wire_buf::io::ParseBuf;
use wire_buf::proto::{HasSize, MyDeserialize, MySerialize, Varying};
use wire_field::row::Both;
use wire_forms::constant::ConstU8;
use wire_repr::wire::Wire;

// The payload's fields, in order.
type Fields = Both<ConstU8<(), 0x1c>, Both<u32, u32>>;

/// Rows are asked for, of a statement that was executed with a cursor. The answer are the rows, each
/// a `BinaryRow`, and the packet that ends them.
///
/// <https://dev.mysql.com/doc/dev/mysql-server/latest/page_protocol_com_stmt_fetch.html>
#[derive(Clone, Copy, Debug, PartialEq, Eq)]
pub struct ComStmtFetch {
    pub statement_id: u32,
    /// How many rows at most.
    pub num_rows: u32,
}

impl MySerialize for ComStmtFetch {
    ghost bytes = { λ command. fetch_bytes command.statement_id command.num_rows };

    fn serialize<A: Allocator>(&self, buf: &mut Vec<u8, A>) -> Result<(), WireError> {
        Both(
            ConstU8::<(), 0x1c>::new(),
            Both(self.statement_id, self.num_rows),
        )
        .serialize(buf)
    }
}

impl HasSize for ComStmtFetch {
    type Size = Varying;
}

impl<'de, A: Allocator + Copy> MyDeserialize<'de, A> for ComStmtFetch {
    type Ctx = ();

    ghost reads = { λ _ input. Through
        (λ command. (_, (command.statement_id, command.num_rows)))
        (⟦<Fields as MyDeserialize<'de, A>>⟧.reads (tt, (tt, tt)) input) };

    fn deserialize(alloc: A, _: (), buf: &mut ParseBuf<'de>) -> Result<Self, WireError> {
        match buf.parse_in::<Fields, A>(alloc, ((), ((), ()))) {
            Ok(Both(_, Both(statement_id, num_rows))) => Ok(ComStmtFetch {
                statement_id,
                num_rows,
            }),
            Err(error) => Err(error),
        }
    }
}

impl<'de, A: Allocator + Copy> Wire<'de, A> for ComStmtFetch {
    ghost is_value = { λ command. (command.statement_id < 2 ^ 32)
        × (command.num_rows < 2 ^ 32) };

    ghost good = { λ _ _ _. Unit {0} };

    ghost kept = { λ command. IsFetch command.statement_id command.num_rows };

    ghost takes_memory = { ⊥ };

    fn known(&self) {
        let _id = self.statement_id;
        let _rows = self.num_rows;
    }

    ghost comes_back = { λ ctx command rest answer eaten value good read.
        packet (⟦<Fields as MyDeserialize<'de, A>>⟧.reads (tt, (tt, tt))) _ _
        (λ back came. came.1)
        (both const_u8 (both (number (λ n. n) 4 command.statement_id value.0)
        (number (λ n. n) 4 command.num_rows value.1)))
        answer eaten read };

    ghost of_size = { λ command size _ stated. Prim.cc };
}

impl<'de, A: Allocator + Copy> WrittenBack<'de, A> for ComStmtFetch {
    ghost shortest = { λ _ _. Unit {0} };

    ghost again = { λ ctx input command eaten are shortest read.
        packet_again (⟦<Fields as MyDeserialize<'de, A>>⟧.reads (tt, (tt, tt)))
        (λ command. (_, (command.statement_id, command.num_rows)))
        (both_again (const_again 0x1c)
        (both_again (number_again (λ n. n) 4) (number_again (λ n. n) 4)))
        input command eaten are read };
}
