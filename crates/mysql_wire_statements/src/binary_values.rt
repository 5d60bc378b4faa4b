//! The values of a row in its binary form, one by one, where they lie.

ghost use Rattle.std.specs.Prelude.{ℕ, ◌≡◌, List, drop, false};
ghost use Rattle.mysql_wire_statements.specs.RowColumns.{columns_left, GivesAll, GivesColumn, ReadsColumns};
ghost use Rattle.mysql_wire_statements.specs.declared.binary_value.BinaryValue.{BinaryValue};
ghost use Rattle.mysql_wire_statements.specs.declared.binary_values.BinaryValues.{BinaryValues};

use crate::binary_fault::BinaryFault;
use crate::binary_row::{BinaryRow, read_column};
use crate::binary_value::BinaryValue;
use crate::null_bitmap::RowNulls;
use wire_buf::io::ParseBuf;
use wire_const::ColumnType;

/// The values of a row in its binary form, one for each column, read one by one by the columns'
/// types. They take no memory, and borrow from the payload. After a refusal none comes.
///
/// <https://dev.mysql.com/doc/dev/mysql-server/latest/page_protocol_binary_resultset.html>
#[derive(Clone, Copy, Debug, PartialEq, Eq)]
pub struct BinaryValues<'a, 't> {
    nulls: RowNulls<'a>,
    types: &'t [ColumnType],
    // Of the next value.
    column: usize,
    rest: ParseBuf<'a>,
    has_refused: bool,
}

impl<'a, 't> BinaryValues<'a, 't> {
    /// The values of a row whose columns have these types.
    pub fn new(row: &BinaryRow<'a>, types: &'t [ColumnType]) -> Self
        ensures nulls { result.nulls.0.now ≡ row.now.nulls.0.now }
        ensures types { result.types.now ≡ types.now }
        ensures begins { (result.column ≡ 0) × (result.has_refused ≡ false) }
        ensures rest { result.rest.0.now ≡ row.now.values.now }
    {
        BinaryValues {
            nulls: row.nulls,
            types,
            column: 0,
            rest: ParseBuf(row.values),
            has_refused: false,
        }
    }

    /// The bytes that are not read: after the last value of a row that is whole, none. After a
    /// refusal they begin with what is refused.
    pub fn rest(&self) -> &'a [u8]
        ensures { result.now ≡ self.now.rest.0.now }
    {
        self.rest.0
    }
}

impl<'a, 't> Iterator for BinaryValues<'a, 't> {
    type Item = Result<BinaryValue<'a>, BinaryFault>;

    ghost next_gives = { GivesColumn };

    ghost remaining = { columns_left };

    #[inline]
    fn next(&mut self) -> Option<Result<BinaryValue<'a>, BinaryFault>> {
        if self.has_refused {
            return None;
        }
        let column_type = *self.types.get(self.column)?;
        let mut rest = self.rest;
        match read_column(self.nulls, self.column, column_type, &mut rest) {
            Ok(value) => {
                self.column += 1;
                self.rest = rest;
                Some(Ok(value))
            }
            Err(fault) => {
                self.has_refused = true;
                Some(Err(fault))
            }
        }
    }
}

/// What comes one by one are the values of the columns, each as `BinaryRow::value` reads it.
///
/// It takes and answers nothing: its contract is the law, and a caller has it by calling.
pub fn values_are_of_the_columns()
    ensures given { (values left : BinaryValues) (came : List BinaryValue)
        → GivesAll values came left
        → ReadsColumns values.nulls.0.now values.column (drop values.column values.types.now)
        values.rest.0.now came left.rest.0.now }
    ensures read { (values : BinaryValues) (came : List BinaryValue) (rest : List ℕ)
        → values.has_refused ≡ false
        → ReadsColumns values.nulls.0.now values.column (drop values.column values.types.now)
        values.rest.0.now came rest
        → (left : BinaryValues) × GivesAll values came left × (left.rest.0.now ≡ rest) }
{}
