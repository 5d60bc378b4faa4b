//! What is waited for after a count of columns, and after a statement's number.

ghost use Rattle.std.specs.Prelude.{◌≡◌};
ghost use Rattle.mysql_wire_session.specs.Advance.{counted_phase, is_zero, prepared_phase};

use crate::next_phase::{after_columns, statement_columns};
use crate::phase::{AfterColumns, Phase};
use mysql_wire_queries::column_count::ColumnCount;
use mysql_wire_statements::com_stmt_prepare_ok::ComStmtPrepareOk;

// Whether the byte is there, and says that no definitions follow.
fn is_zero(follows: Option<u8>) -> bool
    ensures { result ≡ is_zero follows }
{
    match follows {
        Some(number) => number == 0,
        None => false,
    }
}

/// After the count of columns: their definitions follow, where it says so. MariaDB leaves out those
/// that it told after a statement's number, and not what ends them.
pub fn counted_phase(is_eof_deprecated: bool, count: &ColumnCount) -> Phase
    ensures { result ≡ counted_phase is_eof_deprecated count.now }
{
    if is_zero(count.metadata_follows) {
        Phase::Rows
    } else if count.column_count == 0 || is_zero(count.mariadb_metadata_follows) {
        after_columns(is_eof_deprecated, AfterColumns::Rows)
    } else {
        Phase::Columns {
            left: count.column_count,
            after: AfterColumns::Rows,
        }
    }
}

/// After the number of a statement: the definitions of its parameters and columns follow, where it
/// has some.
pub fn prepared_phase(statement: &ComStmtPrepareOk) -> Phase
    ensures { result ≡ prepared_phase statement.now }
{
    if statement.num_params > 0 {
        Phase::Columns {
            left: statement.num_params as u64,
            after: AfterColumns::StatementColumns(statement.num_columns),
        }
    } else {
        statement_columns(statement.num_columns)
    }
}
