//! `COM_STMT_CLOSE`.

use crate::statement_command::StatementCommand;

/// A statement is dropped. The server does not answer.
///
/// <https://dev.mysql.com/doc/dev/mysql-server/latest/page_protocol_com_stmt_close.html>
pub type ComStmtClose = StatementCommand<0x19>;
