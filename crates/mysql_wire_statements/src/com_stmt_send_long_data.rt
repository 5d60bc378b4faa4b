//! `COM_STMT_SEND_LONG_DATA`.

ghost use Rattle.std.specs.Prelude.{◌≡◌, ◌<◌, ◌^◌, []};
ghost use Rattle.wire_buf.specs.Reading.{Through};
ghost use Rattle.mysql_wire_parts.specs.InOrder.{packet, both, const_u8, number};
ghost use Rattle.mysql_wire_statements.specs.Commands.{long_data_bytes, IsLongData};
ghost use Rattle.mysql_wire_statements.specs.InOrder.{rest_of};
ghost use Rattle.mysql_wire_statements.specs.Again.{packet_again, both_again, const_again, number_again, rest_again};

use crate::rest::Rest;
use crate::written_back::WrittenBack;
use std::alloc::Allocator;
use wire_buf::error::WireError;
use wire_buf::io::ParseBuf;
use wire_buf::proto::{HasSize, MyDeserialize, MySerialize, Varying};
use wire_field::row::Both;
use wire_forms::constant::ConstU8;
use wire_repr::wire::Wire;

// The payload's fields, in order.
type Fields<'a> = Both<ConstU8<(), 0x18>, Both<u32, Both<u16, Rest<'a>>>>;

/// A part of the value of one parameter. Parts of one value follow each other, and the value does
/// not stand in the `ComStmtExecute` that comes after them. The server does not answer.
///
/// <https://dev.mysql.com/doc/dev/mysql-server/latest/page_protocol_com_stmt_send_long_data.html>
#[derive(Clone, Copy, Debug, PartialEq, Eq)]
pub struct ComStmtSendLongData<'a> {
    pub statement_id: u32,
    /// The parameter's place, from 0 on.
    pub param_id: u16,
    /// The part, up to the end of the payload.
    pub data: &'a [u8],
}

impl MySerialize for ComStmtSendLongData<'_> {
    ghost bytes = { λ command. long_data_bytes command.statement_id command.param_id
        command.data.now };

    fn serialize<A: Allocator>(&self, buf: &mut Vec<u8, A>) -> Result<(), WireError> {
        let place = Both(self.statement_id, Both(self.param_id, Rest(self.data)));
        Both(ConstU8::<(), 0x18>::new(), place).serialize(buf)
    }
}

impl HasSize for ComStmtSendLongData<'_> {
    type Size = Varying;
}

impl<'de, A: Allocator + Copy> MyDeserialize<'de, A> for ComStmtSendLongData<'de> {
    type Ctx = ();

    ghost reads = { λ _ input. Through
        (λ command. (
          _,
          (command.statement_id, (command.param_id, record { 0 = command.data })),
        ))
        (⟦<Fields<'de> as MyDeserialize<'de, A>>⟧.reads (tt, (tt, (tt, tt))) input) };

    fn deserialize(alloc: A, _: (), buf: &mut ParseBuf<'de>) -> Result<Self, WireError> {
        match Fields::deserialize(alloc, ((), ((), ((), ()))), buf) {
            Ok(Both(_, Both(statement_id, Both(param_id, data)))) => Ok(ComStmtSendLongData {
                statement_id,
                param_id,
                data: data.0,
            }),
            Err(error) => Err(error),
        }
    }
}

// The data take all the rest, so they come back where nothing stands after them.
impl<'de, A: Allocator + Copy> Wire<'de, A> for ComStmtSendLongData<'de> {
    ghost is_value = { λ command. (command.statement_id < 2 ^ 32)
        × (command.param_id < 2 ^ 16) };

    ghost good = { λ _ _ rest. rest ≡ [] };

    ghost kept = { λ command. IsLongData command.statement_id command.param_id command.data.now };

    ghost takes_memory = { ⊥ };

    fn known(&self) {
        let _id = self.statement_id;
        let _param = self.param_id;
    }

    ghost comes_back = { λ ctx command rest answer eaten value good read.
        packet (⟦<Fields<'de> as MyDeserialize<'de, A>>⟧.reads (tt, (tt, (tt, tt))))
        (λ command. (
          _,
          (command.statement_id, (command.param_id, record { 0 = command.data })),
        ))
        _ (λ back came. (came.1.0, came.1.1.0, came.1.1.1))
        (both const_u8 (both (number (λ n. n) 4 command.statement_id value.0)
        (both (number (λ n. n) 2 command.param_id value.1)
        (rest_of (λ text. text.0.now) command.data.now good))))
        answer eaten read };

    ghost of_size = { λ command size _ stated. Prim.cc };
}

impl<'de, A: Allocator + Copy> WrittenBack<'de, A> for ComStmtSendLongData<'de> {
    ghost shortest = { λ _ _. Unit {0} };

    ghost again = { λ ctx input command eaten are shortest read.
        packet_again (⟦<Fields<'de> as MyDeserialize<'de, A>>⟧.reads (tt, (tt, (tt, tt))))
        (λ command. (
          _,
          (command.statement_id, (command.param_id, record { 0 = command.data })),
        ))
        (both_again (const_again 0x18) (both_again (number_again (λ n. n) 4)
        (both_again (number_again (λ n. n) 2) (rest_again (λ text. text.0.now)))))
        input command eaten are read };
}
