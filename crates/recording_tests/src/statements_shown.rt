//! The fields of the packets of prepared statements.

use crate::shown::{Field, Fields, Shown};
use mysql_wire_statements::binary_row::BinaryRow;
use mysql_wire_statements::com_stmt_execute::ComStmtExecute;
use mysql_wire_statements::com_stmt_fetch::ComStmtFetch;
use mysql_wire_statements::com_stmt_prepare::ComStmtPrepare;
use mysql_wire_statements::com_stmt_prepare_ok::ComStmtPrepareOk;
use mysql_wire_statements::com_stmt_send_long_data::ComStmtSendLongData;
use mysql_wire_statements::statement_command::StatementCommand;

impl Shown for ComStmtPrepare<'_> {
    fn show(&self, fields: &mut Fields) {
        fields.put_all(&[Field::Number(0x16), Field::Text(self.query)]);
    }
}

impl Shown for ComStmtPrepareOk {
    fn show(&self, fields: &mut Fields) {
        fields.put_all(&[
            Field::Number(0x00),
            Field::Number(self.statement_id as u64),
            Field::Number(self.num_columns as u64),
            Field::Number(self.num_params as u64),
            Field::Number(self.warning_count as u64),
        ]);
    }
}

impl Shown for ComStmtExecute<'_> {
    fn show(&self, fields: &mut Fields) {
        fields.put_all(&[
            Field::Number(0x17),
            Field::Number(self.statement_id as u64),
            Field::Number(self.flags.0 as u64),
            Field::Number(self.iteration_count as u64),
        ]);
        if let Some(params) = &self.params {
            fields.put(Field::Text(params.nulls.0));
            if let Some(types) = &params.types {
                fields.put(Field::Text(types.0));
            }
            fields.put(Field::Text(params.values));
        }
    }
}

impl Shown for ComStmtSendLongData<'_> {
    fn show(&self, fields: &mut Fields) {
        fields.put_all(&[
            Field::Number(0x18),
            Field::Number(self.statement_id as u64),
            Field::Number(self.param_id as u64),
            Field::Text(self.data),
        ]);
    }
}

impl Shown for ComStmtFetch {
    fn show(&self, fields: &mut Fields) {
        fields.put_all(&[
            Field::Number(0x1c),
            Field::Number(self.statement_id as u64),
            Field::Number(self.num_rows as u64),
        ]);
    }
}

impl<const HEADER: u8> Shown for StatementCommand<HEADER> {
    fn show(&self, fields: &mut Fields) {
        fields.put_all(&[
            Field::Number(HEADER as u64),
            Field::Number(self.statement_id as u64),
        ]);
    }
}

impl Shown for BinaryRow<'_> {
    fn show(&self, fields: &mut Fields) {
        fields.put_all(&[
            Field::Number(0x00),
            Field::Text(self.nulls.0),
            Field::Text(self.values),
        ]);
    }
}
