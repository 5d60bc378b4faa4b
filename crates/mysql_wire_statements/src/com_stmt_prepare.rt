//! `COM_STMT_PREPARE`.

ghost use Rattle.std.specs.Prelude.{◌≡◌, [], ◌∷◌, ◌++◌};
ghost use Rattle.wire_buf.specs.Reading.{Through};
ghost use Rattle.mysql_wire_parts.specs.InOrder.{packet, both, const_u8};
ghost use Rattle.mysql_wire_statements.specs.InOrder.{rest_of};
ghost use Rattle.mysql_wire_statements.specs.Again.{packet_again, both_again, const_again, rest_again};

use crate::rest::Rest;
use crate::written_back::WrittenBack;
use std::alloc::Allocator;
use wire_buf::error::WireError;
use wire_buf::io::ParseBuf;
use wire_buf::proto::{HasSize, MyDeserialize, MySerialize, Varying};
use wire_field::row::Both;
use wire_forms::constant::ConstU8;
use wire_repr::wire::Wire;

// The payload's fields, in order.
type Fields<'a> = Both<ConstU8<(), 0x16>, Rest<'a>>;

/// A statement is to be prepared. The answer is a `ComStmtPrepareOk`, or an error.
///
/// <https://dev.mysql.com/doc/dev/mysql-server/latest/page_protocol_com_stmt_prepare.html>
#[derive(Clone, Copy, Debug, PartialEq, Eq)]
pub struct ComStmtPrepare<'a> {
    /// The statement, with a `?` for each parameter, up to the end of the payload.
    pub query: &'a [u8],
}

impl MySerialize for ComStmtPrepare<'_> {
    ghost bytes = { λ command. 0x16 ∷ command.query.now };

    fn serialize<A: Allocator>(&self, buf: &mut Vec<u8, A>) -> Result<(), WireError> {
        Both(ConstU8::<(), 0x16>::new(), Rest(self.query)).serialize(buf)
    }
}

impl HasSize for ComStmtPrepare<'_> {
    type Size = Varying;
}

impl<'de, A: Allocator + Copy> MyDeserialize<'de, A> for ComStmtPrepare<'de> {
    type Ctx = ();

    ghost reads = { λ _ input. Through (λ command. (_, record { 0 = command.query }))
        (⟦<Fields<'de> as MyDeserialize<'de, A>>⟧.reads (tt, tt) input) };

    fn deserialize(alloc: A, _: (), buf: &mut ParseBuf<'de>) -> Result<Self, WireError> {
        match Fields::deserialize(alloc, ((), ()), buf) {
            Ok(Both(_, query)) => Ok(ComStmtPrepare { query: query.0 }),
            Err(error) => Err(error),
        }
    }
}

// The query takes all the rest, so it comes back where nothing stands after it.
impl<'de, A: Allocator + Copy> Wire<'de, A> for ComStmtPrepare<'de> {
    ghost is_value = { λ _. Unit {0} };

    ghost good = { λ _ _ rest. rest ≡ [] };

    ghost kept = { λ command back. back.query.now ≡ command.query.now };

    ghost takes_memory = { ⊥ };

    fn known(&self) {}

    ghost comes_back = { λ ctx command rest answer eaten value good read.
        packet (⟦<Fields<'de> as MyDeserialize<'de, A>>⟧.reads (tt, tt))
        (λ command. (_, record { 0 = command.query })) _ (λ back came. came.1)
        (both const_u8 (rest_of (λ text. text.0.now) command.query.now good))
        answer eaten read };

    ghost of_size = { λ command size _ stated. Prim.cc };
}

impl<'de, A: Allocator + Copy> WrittenBack<'de, A> for ComStmtPrepare<'de> {
    ghost shortest = { λ _ _. Unit {0} };

    ghost again = { λ ctx input command eaten are shortest read.
        packet_again (⟦<Fields<'de> as MyDeserialize<'de, A>>⟧.reads (tt, tt))
        (λ command. (_, record { 0 = command.query }))
        (both_again (const_again 0x16) (rest_again (λ text. text.0.now)))
        input command eaten are read };
}
