//! Two commands as packets of one's own: one of fixed length, and one that ends in a text.

ghost use Rattle.std.specs.Prelude.{◌≡◌, ◌<◌, ◌^◌, ◌++◌, [], List, ℕ, length, IfOk, IfErr};
ghost use Rattle.mysql_wire.specs.Law.{LeavesRest, Through-back, size-is};
ghost use Rattle.mysql_wire.specs.Reading.{Answers, Through};
ghost use Rattle.mysql_wire_examples.specs.Commands.{close_bytes, close_at, close_bytes-back, length-close_bytes, init_db_bytes, init_db_at, init_db_bytes-back};

use mysql_wire::io::{InvalidReason, ParseBuf, WireError};
use mysql_wire::misc::raw::field_laws::parse_back;
use mysql_wire::proto::{Fixed, HasSize, MyDeserialize, MySerialize, Varying, Wire};
use std::alloc::{Allocator, Global};

const COM_INIT_DB: u8 = 0x02;

const COM_STMT_CLOSE: u8 = 0x19;

/// `COM_STMT_CLOSE`: its byte, and the id of the statement that the server may forget.
///
/// <https://dev.mysql.com/doc/dev/mysql-server/latest/page_protocol_com_stmt_close.html>
#[derive(Clone, Copy, Debug, PartialEq, Eq)]
pub struct ComStmtClose {
    pub statement_id: u32,
}

impl MySerialize for ComStmtClose {
    ghost bytes = { λ close. close_bytes close.statement_id };

    fn serialize<A: Allocator>(&self, buf: &mut Vec<u8, A>) -> Result<(), WireError> {
        let [a, b, c, d] = self.statement_id.to_le_bytes();
        buf.extend_from_slice(&[COM_STMT_CLOSE, a, b, c, d])?;
        Ok(())
    }
}

impl HasSize for ComStmtClose {
    type Size = Fixed<5>;
}

impl<'de, A: Allocator + Copy> MyDeserialize<'de, A> for ComStmtClose {
    type Ctx = ();

    ghost reads = { λ _ input. Through (λ close. close.statement_id) (Answers (close_at input)) };

    fn deserialize(_: A, _: (), buf: &mut ParseBuf<'de>) -> Result<Self, WireError> {
        if buf.eat_u8() != COM_STMT_CLOSE {
            return Err(WireError::InvalidData(InvalidReason::ConstMismatch));
        }
        Ok(ComStmtClose {
            statement_id: buf.eat_u32_le(),
        })
    }
}

impl<'de, A: Allocator + Copy> Wire<'de, A> for ComStmtClose {
    ghost is_value = { λ close. close.statement_id < 2 ^ 32 };

    ghost good = { λ _ _ _. Unit {0} };

    ghost kept = { λ close back. back.statement_id ≡ close.statement_id };

    ghost takes_memory = { ⊥ };

    fn known(&self) {
        let _id = self.statement_id;
    }

    ghost comes_back = { λ ctx close rest answer eaten value good read.
        Through-back (λ back. back.statement_id)
        (Answers (close_at (close_bytes close.statement_id ++ rest)))
        close.statement_id (length (close_bytes close.statement_id))
        (close_bytes-back close.statement_id rest value) answer eaten read };

    ghost of_size = { λ close size _ stated.
        size-is 5 size (length (close_bytes close.statement_id)) stated
        (length-close_bytes close.statement_id) };
}

/// Writes a command and reads it again.
pub fn there_and_back(alloc: Global, statement_id: u32) -> Result<u32, WireError>
    ensures back { IfOk result (λ id. id ≡ statement_id) }
    ensures memory { IfErr result (λ error. error ≡ WireError.OutOfMemory) }
{
    let mut written = Vec::new(alloc);
    ComStmtClose { statement_id }.serialize(&mut written)?;
    let mut buf = ParseBuf(written.as_slice());
    let back: ComStmtClose = parse_back(alloc, (), &mut buf)?;
    Ok(back.statement_id)
}

/// `COM_INIT_DB`: its byte, and the name of the schema up to the end of the payload.
///
/// <https://dev.mysql.com/doc/dev/mysql-server/latest/page_protocol_com_init_db.html>
#[derive(Clone, Copy, Debug, PartialEq, Eq)]
pub struct ComInitDb<'a> {
    pub schema: &'a [u8],
}

impl MySerialize for ComInitDb<'_> {
    ghost bytes = { λ command. init_db_bytes command.schema.now };

    fn serialize<A: Allocator>(&self, buf: &mut Vec<u8, A>) -> Result<(), WireError> {
        buf.reserve(self.schema.len().saturating_add(1))?;
        buf.push_reserved(COM_INIT_DB);
        buf.extend_from_slice(self.schema)?;
        Ok(())
    }
}

impl HasSize for ComInitDb<'_> {
    type Size = Varying;
}

impl<'de, A: Allocator + Copy> MyDeserialize<'de, A> for ComInitDb<'de> {
    type Ctx = ();

    ghost reads = { λ _ input. Through (λ command. command.schema.now)
        (Answers (init_db_at input)) };

    fn deserialize(_: A, _: (), buf: &mut ParseBuf<'de>) -> Result<Self, WireError> {
        match buf.checked_eat_u8() {
            None => Err(WireError::UnexpectedEof),
            Some(COM_INIT_DB) => Ok(ComInitDb {
                schema: buf.eat_all(),
            }),
            Some(_) => Err(WireError::InvalidData(InvalidReason::ConstMismatch)),
        }
    }
}

// A schema's name takes all the rest, so it comes back where nothing stands after it.
impl<'de, A: Allocator + Copy> Wire<'de, A> for ComInitDb<'de> {
    ghost is_value = { λ _. Unit {0} };

    ghost good = { λ _ _ rest. rest ≡ [] };

    ghost kept = { λ command back. back.schema.now ≡ command.schema.now };

    ghost takes_memory = { ⊥ };

    fn known(&self) {}

    ghost comes_back = { λ ctx command rest answer eaten _ good read.
        Through-back (λ back. back.schema.now)
        (Answers (init_db_at (init_db_bytes command.schema.now ++ rest)))
        command.schema.now (length (init_db_bytes command.schema.now))
        (init_db_bytes-back command.schema.now rest good) answer eaten read };

    ghost of_size = { λ command size _ stated. Prim.cc };
}
