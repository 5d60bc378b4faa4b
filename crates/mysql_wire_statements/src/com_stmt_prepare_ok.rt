//! The first packet of the answer to `COM_STMT_PREPARE`.

ghost use Rattle.std.specs.Prelude.{◌≡◌, ◌<◌, ◌^◌, ◌∷◌, ◌++◌};
ghost use Rattle.wire_buf.specs.Numbers.{le_bytes};
ghost use Rattle.wire_buf.specs.Reading.{Through};
ghost use Rattle.mysql_wire_parts.specs.InOrder.{packet, both, const_u8, number, skip};

use std::alloc::Allocator;
use wire_buf::error::WireError;
use wire_buf::io::ParseBuf;
use wire_buf::proto::{HasSize, MyDeserialize, MySerialize, Varying};
use wire_field::row::Both;
use wire_forms::constant::{ConstU8, Skip};
use wire_repr::wire::Wire;

// The payload's fields, in order.
type Fields = Both<ConstU8<(), 0x00>, Both<u32, Counts>>;

type Counts = Both<u16, Both<u16, Both<Skip<1>, u16>>>;

/// A statement was prepared: `COM_STMT_PREPARE_OK`, on a connection without
/// `CLIENT_OPTIONAL_RESULTSET_METADATA`. The definitions of its parameters and columns follow as
/// packets of their own.
///
/// <https://dev.mysql.com/doc/dev/mysql-server/latest/page_protocol_com_stmt_prepare.html>
#[derive(Clone, Copy, Debug, PartialEq, Eq)]
pub struct ComStmtPrepareOk {
    pub statement_id: u32,
    pub num_columns: u16,
    pub num_params: u16,
    pub warning_count: u16,
}

impl MySerialize for ComStmtPrepareOk {
    ghost bytes = { λ ok. 0x00 ∷ (le_bytes 4 ok.statement_id ++ (le_bytes 2 ok.num_columns
        ++ (le_bytes 2 ok.num_params ++ 0x00 ∷ le_bytes 2 ok.warning_count))) };

    fn serialize<A: Allocator>(&self, buf: &mut Vec<u8, A>) -> Result<(), WireError> {
        let counts = Both(
            self.num_columns,
            Both(self.num_params, Both(Skip::<1>, self.warning_count)),
        );
        Both(ConstU8::<(), 0x00>::new(), Both(self.statement_id, counts)).serialize(buf)
    }
}

impl HasSize for ComStmtPrepareOk {
    type Size = Varying;
}

impl<'de, A: Allocator + Copy> MyDeserialize<'de, A> for ComStmtPrepareOk {
    type Ctx = ();

    ghost reads = { λ _ input. Through
        (λ ok. (
          _,
          (
            ok.statement_id,
            (
              ok.num_columns,
              (
                ok.num_params,
                (_, ok.warning_count),
              ),
            ),
          ),
        ))
        (⟦<Fields as MyDeserialize<'de, A>>⟧.reads (tt, (tt, (tt, (tt, (tt, tt))))) input) };

    fn deserialize(alloc: A, _: (), buf: &mut ParseBuf<'de>) -> Result<Self, WireError> {
        match buf.parse_in::<Fields, A>(alloc, ((), ((), ((), ((), ((), ())))))) {
            Ok(
                Both(
                    _,
                    Both(statement_id, Both(num_columns, Both(num_params, Both(_, warning_count)))),
                ),
            ) => Ok(ComStmtPrepareOk {
                statement_id,
                num_columns,
                num_params,
                warning_count,
            }),
            Err(error) => Err(error),
        }
    }
}

impl<'de, A: Allocator + Copy> Wire<'de, A> for ComStmtPrepareOk {
    ghost is_value = { λ ok. (ok.statement_id < 2 ^ 32) × (ok.num_columns < 2 ^ 16)
        × (ok.num_params < 2 ^ 16) × (ok.warning_count < 2 ^ 16) };

    ghost good = { λ _ _ _. Unit {0} };

    ghost kept = { λ ok back. (back.statement_id ≡ ok.statement_id)
        × (back.num_columns ≡ ok.num_columns) × (back.num_params ≡ ok.num_params)
        × (back.warning_count ≡ ok.warning_count) };

    ghost takes_memory = { ⊥ };

    fn known(&self) {
        let _id = self.statement_id;
        let _columns = self.num_columns;
        let _params = self.num_params;
        let _warnings = self.warning_count;
    }

    ghost comes_back = { λ ctx ok rest answer eaten value good read.
        packet (⟦<Fields as MyDeserialize<'de, A>>⟧.reads (tt, (tt, (tt, (tt, (tt, tt))))))
        _ _ (λ back came. let counts = came.1.1 in
        (came.1.0, counts.0, counts.1.0, counts.1.1.1))
        (both const_u8 (both (number (λ n. n) 4 ok.statement_id value.0)
        (both (number (λ n. n) 2 ok.num_columns value.1)
        (both (number (λ n. n) 2 ok.num_params value.2)
        (both (skip 1) (number (λ n. n) 2 ok.warning_count value.3))))))
        answer eaten read };

    ghost of_size = { λ ok size _ stated. Prim.cc };
}
