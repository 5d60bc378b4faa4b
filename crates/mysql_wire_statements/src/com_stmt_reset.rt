//! `COM_STMT_RESET`.

use crate::statement_command::StatementCommand;

/// The data that were sent for a statement's parameters are dropped, and its cursor is closed. The
/// answer is an OK or an error.
///
/// <https://dev.mysql.com/doc/dev/mysql-server/latest/page_protocol_com_stmt_reset.html>
pub type ComStmtReset = StatementCommand<0x1a>;
