//! The statements that are prepared on a connection.

use crate::found::{Found, Payload};
use crate::place::Kind;
use crate::statement::Statement;
use mysql_wire_packets::places::read_whole;
use mysql_wire_statements::com_stmt_close::ComStmtClose;
use mysql_wire_statements::com_stmt_execute::ComStmtExecute;
use mysql_wire_statements::com_stmt_prepare_ok::ComStmtPrepareOk;
use mysql_wire_statements::com_stmt_reset::ComStmtReset;
use mysql_wire_statements::com_stmt_send_long_data::ComStmtSendLongData;
use std::alloc::Global;
use wire_buf::io::ParseBuf;

/// The statements.
#[derive(Drop)]
pub struct Statements(Vec<Statement>);

// The statement's id, after the number of the command.
fn statement_id(payload: &[u8]) -> Option<u32> {
    let mut buf = ParseBuf(payload);
    if buf.checked_skip(1) {
        buf.checked_eat_u32_le()
    } else {
        None
    }
}

impl Statements {
    pub fn new(alloc: Global) -> Statements {
        Statements(Vec::new(alloc))
    }

    /// A statement was prepared; false without memory.
    pub fn add(&mut self, alloc: Global, prepared: ComStmtPrepareOk) -> bool {
        self.0.push(Statement::new(alloc, prepared)).is_ok()
    }

    // The statement of this id.
    fn find(&mut self, id: u32) -> Option<&mut Statement> {
        self.0.iter_mut().find(|statement| statement.id == id)
    }

    /// `COM_STMT_EXECUTE`.
    pub fn execute(&mut self, alloc: Global, payload: Payload<'_>) -> Found {
        let Some(id) = statement_id(payload.bytes) else {
            return Found::refused(Kind::Execute, payload);
        };
        let Some(statement) = self.find(id) else {
            return Found::refused(Kind::Execute, payload);
        };
        match read_whole::<ComStmtExecute<'_>>(alloc, statement.num_params, payload.bytes) {
            Ok(command) => Found::of(alloc, Kind::Execute, &command, payload).and(
                statement.has_params(alloc, &command),
            ),
            Err(_) => Found::refused(Kind::Execute, payload),
        }
    }

    /// `COM_STMT_SEND_LONG_DATA`.
    pub fn send_long_data(&mut self, alloc: Global, payload: Payload<'_>) -> Found {
        match read_whole::<ComStmtSendLongData<'_>>(alloc, (), payload.bytes) {
            Ok(command) => {
                let is_known = match self.find(command.statement_id) {
                    Some(statement) => statement.note_sent_ahead(command.param_id),
                    None => false,
                };
                Found::of(alloc, Kind::LongData, &command, payload).and(is_known)
            }
            Err(_) => Found::refused(Kind::LongData, payload),
        }
    }

    /// `COM_STMT_RESET`.
    pub fn reset(&mut self, alloc: Global, payload: Payload<'_>) -> Found {
        match read_whole::<ComStmtReset>(alloc, (), payload.bytes) {
            Ok(command) => {
                if let Some(statement) = self.find(command.statement_id) {
                    statement.forget_sent_ahead();
                }
                Found::of(alloc, Kind::ResetStatement, &command, payload)
            }
            Err(_) => Found::refused(Kind::ResetStatement, payload),
        }
    }

    /// `COM_STMT_CLOSE`.
    pub fn close(&mut self, alloc: Global, payload: Payload<'_>) -> Found {
        match read_whole::<ComStmtClose>(alloc, (), payload.bytes) {
            Ok(command) => {
                self.0
                    .retain(|statement| statement.id != command.statement_id);
                Found::of(alloc, Kind::CloseStatement, &command, payload)
            }
            Err(_) => Found::refused(Kind::CloseStatement, payload),
        }
    }
}
