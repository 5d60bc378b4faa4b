//! What was written of each packet comes back, and what was read of it is written as it stood. Each
//! function reads as `parse` does.

ghost use Rattle.std.specs.Prelude.{◌≡◌, ◌<◌, ◌^◌, ℕ, List, ◌∷◌, ◌++◌, length, IfOk};
ghost use Rattle.wire_repr.specs.Law.{ComesBackAlone, ComesBackFrom};
ghost use Rattle.wire_buf.specs.Numbers.{le_bytes};
ghost use Rattle.mysql_wire_statements.specs.BinaryRows.{row_bytes, IsRowOf};
ghost use Rattle.mysql_wire_statements.specs.Bitmaps.{bitmap_len};
ghost use Rattle.mysql_wire_statements.specs.Commands.{fetch_bytes, long_data_bytes, IsFetch, IsLongData};
ghost use Rattle.mysql_wire_statements.specs.Executed.{execute_bytes, IsExecution, SameExecution};
ghost use Rattle.mysql_wire_statements.specs.Values.{form_of, value_bytes, written_form, IsShortest, IsValue, SameValue};
ghost use Rattle.mysql_wire_statements.specs.declared.com_stmt_execute.ComStmtExecute.{ComStmtExecute};
ghost use Rattle.mysql_wire_statements.specs.declared.binary_value.BinaryValue.{BinaryValue};

use crate::binary_row::BinaryRow;
use crate::binary_value::BinaryValue;
use crate::com_stmt_close::ComStmtClose;
use crate::com_stmt_execute::ComStmtExecute;
use crate::com_stmt_fetch::ComStmtFetch;
use crate::com_stmt_prepare::ComStmtPrepare;
use crate::com_stmt_reset::ComStmtReset;
use crate::com_stmt_send_long_data::ComStmtSendLongData;
pub use crate::written_back::is_written_back;
use std::alloc::Global;
use wire_buf::error::WireError;
use wire_buf::io::ParseBuf;
use wire_const::ColumnType;
use wire_repr::field_laws::parse_back;

/// A `ComStmtPrepare` comes back, where nothing stands after it.
pub fn prepare_comes_back<'a>(
    alloc: Global,
    buf: &mut ParseBuf<'a>,
) -> Result<ComStmtPrepare<'a>, WireError>
    ensures { (query : List ℕ)
        → ComesBackAlone (0x16 ∷ query) (λ back. back.query.now ≡ query) buf.old.0.now result
        buf.new.0.now }
{
    parse_back(alloc, (), buf)
}

/// A `ComStmtPrepare` that was read is written as the bytes that were eaten.
pub fn prepare_is_written_back<'a>(
    alloc: Global,
    buf: &mut ParseBuf<'a>,
) -> Result<ComStmtPrepare<'a>, WireError>
    ensures { IfOk result (λ command. (0x16 ∷ command.query.now)
        ++ buf.new.0.now ≡ buf.old.0.now) }
{
    is_written_back(alloc, (), buf)
}

/// A `ComStmtSendLongData` comes back, where nothing stands after it.
pub fn send_long_data_comes_back<'a>(
    alloc: Global,
    buf: &mut ParseBuf<'a>,
) -> Result<ComStmtSendLongData<'a>, WireError>
    ensures { (id param : ℕ) (part : List ℕ) → id < 2 ^ 32 → param < 2 ^ 16
        → ComesBackAlone (long_data_bytes id param part) (IsLongData id param part) buf.old.0.now
        result buf.new.0.now }
{
    parse_back(alloc, (), buf)
}

/// A `ComStmtSendLongData` that was read is written as the bytes that were eaten.
pub fn send_long_data_is_written_back<'a>(
    alloc: Global,
    buf: &mut ParseBuf<'a>,
) -> Result<ComStmtSendLongData<'a>, WireError>
    ensures { IfOk result (λ command. long_data_bytes command.statement_id command.param_id
        command.data.now ++ buf.new.0.now ≡ buf.old.0.now) }
{
    is_written_back(alloc, (), buf)
}

/// A `ComStmtFetch` comes back, whatever stands after it.
pub fn fetch_comes_back(alloc: Global, buf: &mut ParseBuf<'_>) -> Result<ComStmtFetch, WireError>
    ensures { (id rows : ℕ) → id < 2 ^ 32 → rows < 2 ^ 32
        → ComesBackFrom (fetch_bytes id rows) (IsFetch id rows) ⊥ buf.old.0.now result
        buf.new.0.now }
{
    parse_back(alloc, (), buf)
}

/// A `ComStmtFetch` that was read is written as the bytes that were eaten.
pub fn fetch_is_written_back(
    alloc: Global,
    buf: &mut ParseBuf<'_>,
) -> Result<ComStmtFetch, WireError>
    ensures { IfOk result (λ command. fetch_bytes command.statement_id command.num_rows
        ++ buf.new.0.now ≡ buf.old.0.now) }
{
    is_written_back(alloc, (), buf)
}

/// A `ComStmtReset` comes back, whatever stands after it.
pub fn reset_comes_back(alloc: Global, buf: &mut ParseBuf<'_>) -> Result<ComStmtReset, WireError>
    ensures { (id : ℕ) → id < 2 ^ 32
        → ComesBackFrom (0x1a ∷ le_bytes 4 id) (λ back. back.statement_id ≡ id) ⊥ buf.old.0.now
        result buf.new.0.now }
{
    parse_back(alloc, (), buf)
}

/// A `ComStmtReset` that was read is written as the bytes that were eaten.
pub fn reset_is_written_back(
    alloc: Global,
    buf: &mut ParseBuf<'_>,
) -> Result<ComStmtReset, WireError>
    ensures { IfOk result (λ command. (0x1a ∷ le_bytes 4 command.statement_id)
        ++ buf.new.0.now ≡ buf.old.0.now) }
{
    is_written_back(alloc, (), buf)
}

/// A `ComStmtClose` comes back, whatever stands after it.
pub fn close_comes_back(alloc: Global, buf: &mut ParseBuf<'_>) -> Result<ComStmtClose, WireError>
    ensures { (id : ℕ) → id < 2 ^ 32
        → ComesBackFrom (0x19 ∷ le_bytes 4 id) (λ back. back.statement_id ≡ id) ⊥ buf.old.0.now
        result buf.new.0.now }
{
    parse_back(alloc, (), buf)
}

/// A `ComStmtClose` that was read is written as the bytes that were eaten.
pub fn close_is_written_back(
    alloc: Global,
    buf: &mut ParseBuf<'_>,
) -> Result<ComStmtClose, WireError>
    ensures { IfOk result (λ command. (0x19 ∷ le_bytes 4 command.statement_id)
        ++ buf.new.0.now ≡ buf.old.0.now) }
{
    is_written_back(alloc, (), buf)
}

/// A `ComStmtExecute` comes back, where it has as many parameters as the context says, and nothing
/// stands after it.
pub fn execute_comes_back<'a>(
    alloc: Global,
    num_params: u16,
    buf: &mut ParseBuf<'a>,
) -> Result<ComStmtExecute<'a>, WireError>
    ensures { (command : ComStmtExecute) → IsExecution num_params command
        → ComesBackAlone (execute_bytes command) (SameExecution command) buf.old.0.now result
        buf.new.0.now }
{
    parse_back(alloc, num_params, buf)
}

/// A `ComStmtExecute` that was read is written as the bytes that were eaten.
pub fn execute_is_written_back<'a>(
    alloc: Global,
    num_params: u16,
    buf: &mut ParseBuf<'a>,
) -> Result<ComStmtExecute<'a>, WireError>
    ensures { IfOk result (λ command. execute_bytes command ++ buf.new.0.now ≡ buf.old.0.now) }
{
    is_written_back(alloc, num_params, buf)
}

/// A `BinaryRow` comes back, where its bitmap has the bits of this many columns, and nothing stands
/// after it.
pub fn row_comes_back<'a>(
    alloc: Global,
    columns: usize,
    buf: &mut ParseBuf<'a>,
) -> Result<BinaryRow<'a>, WireError>
    ensures { (nulls values : List ℕ) → bitmap_len 2 columns ≡ length nulls
        → ComesBackAlone (row_bytes nulls values) (IsRowOf nulls values) buf.old.0.now result
        buf.new.0.now }
{
    parse_back(alloc, columns, buf)
}

/// A `BinaryRow` that was read is written as the bytes that were eaten.
pub fn row_is_written_back<'a>(
    alloc: Global,
    columns: usize,
    buf: &mut ParseBuf<'a>,
) -> Result<BinaryRow<'a>, WireError>
    ensures { IfOk result (λ row. row_bytes row.nulls.0.now row.values.now ++ buf.new.0.now
        ≡ buf.old.0.now) }
{
    is_written_back(alloc, columns, buf)
}

/// A `BinaryValue` comes back where the type is one of its form, whatever stands after it.
pub fn value_comes_back<'a>(
    alloc: Global,
    column_type: ColumnType,
    buf: &mut ParseBuf<'a>,
) -> Result<BinaryValue<'a>, WireError>
    ensures { (value : BinaryValue) → IsValue value → form_of column_type ≡ written_form value
        → ComesBackFrom (value_bytes value) (SameValue value) ⊥ buf.old.0.now result buf.new.0.now }
{
    parse_back(alloc, column_type, buf)
}

/// A `BinaryValue` that was read is written as the bytes that were eaten, where a text's length is
/// spelled in the shortest form.
pub fn value_is_written_back<'a>(
    alloc: Global,
    column_type: ColumnType,
    buf: &mut ParseBuf<'a>,
) -> Result<BinaryValue<'a>, WireError>
    ensures { IfOk result (λ value. IsShortest (form_of column_type) buf.old.0.now
        → value_bytes value ++ buf.new.0.now ≡ buf.old.0.now) }
{
    is_written_back(alloc, column_type, buf)
}
