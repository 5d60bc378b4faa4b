//! What answers a `COM_STMT_PREPARE`.

ghost use Rattle.mysql_wire_statements.specs.PrepareAnswers.{by_answer, ReadsAnswer};

use crate::com_stmt_prepare_ok::ComStmtPrepareOk;
use mysql_wire_packets::err_packet::ErrPacket;
use std::alloc::{Allocator, Global};
use wire_buf::error::{InvalidReason, WireError};
use wire_buf::io::ParseBuf;
use wire_buf::proto::{HasSize, MyDeserialize, MySerialize, Varying};
use wire_const::CapabilityFlags;

/// The first packet of the answer to a `ComStmtPrepare`. Read, the context are the capabilities that
/// are in force, as of an `ErrPacket`. Another header than those of the two is refused as
/// `UnknownValue`, and nothing is eaten.
///
/// <https://dev.mysql.com/doc/dev/mysql-server/latest/page_protocol_com_stmt_prepare.html>
#[derive(Drop, Debug, PartialEq, Eq)]
pub enum PrepareAnswer<'a> {
    /// The statement was prepared, and the definitions of its parameters and columns follow.
    Prepared(ComStmtPrepareOk),
    /// It was not, and nothing follows.
    Failed(ErrPacket<'a>),
}

impl MySerialize for PrepareAnswer<'_> {
    ghost bytes = { by_answer (⟦<ComStmtPrepareOk as MySerialize>⟧.bytes)
        (⟦<ErrPacket<'static> as MySerialize>⟧.bytes) };

    fn serialize<A: Allocator>(&self, buf: &mut Vec<u8, A>) -> Result<(), WireError> {
        match self {
            PrepareAnswer::Prepared(ok) => ok.serialize(buf),
            PrepareAnswer::Failed(err) => err.serialize(buf),
        }
    }
}

impl HasSize for PrepareAnswer<'_> {
    type Size = Varying;
}

impl<'de> MyDeserialize<'de, Global> for PrepareAnswer<'de> {
    type Ctx = CapabilityFlags;

    ghost reads = { λ capabilities. ReadsAnswer
        (⟦<ComStmtPrepareOk as MyDeserialize<'de, Global>>⟧.reads tt)
        (⟦<ErrPacket<'de> as MyDeserialize<'de, Global>>⟧.reads capabilities) };

    fn deserialize(
        alloc: Global,
        capabilities: CapabilityFlags,
        buf: &mut ParseBuf<'de>,
    ) -> Result<Self, WireError> {
        match buf.0.first() {
            None => Err(WireError::UnexpectedEof),
            Some(0x00) => match buf.parse::<ComStmtPrepareOk>(alloc, ()) {
                Ok(ok) => Ok(PrepareAnswer::Prepared(ok)),
                Err(error) => Err(error),
            },
            Some(0xff) => match buf.parse::<ErrPacket<'de>>(alloc, capabilities) {
                Ok(err) => Ok(PrepareAnswer::Failed(err)),
                Err(error) => Err(error),
            },
            Some(_) => Err(WireError::InvalidData(InvalidReason::UnknownValue)),
        }
    }
}
