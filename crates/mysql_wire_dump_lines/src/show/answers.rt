//! Answers to commands.

ghost use Rattle.std.specs.Prelude.{◌≡◌};
ghost use Rattle.mysql_wire_dump_lines.specs.AnswerFields.{column_count_fields, column_fields, eof_fields, error_fields, local_infile_fields, ok_fields, prepared_fields, progress_fields};
ghost use Rattle.wire_text.specs.FieldTables.{members_in, row_if};
ghost use Rattle.wire_text.specs.Fields.{Words};

use super::{Show, bytes_if, number_if, side_if};
use mysql_wire_packets::eof_packet::EofPacket;
use mysql_wire_packets::err_packet::ErrPacket;
use mysql_wire_packets::ok_packet::OkForm;
use mysql_wire_packets::progress_report::ProgressReport;
use mysql_wire_queries::column_count::ColumnCount;
use mysql_wire_queries::column_definition::ColumnDefinition41;
use mysql_wire_queries::local_infile::LocalInfileRequest;
use mysql_wire_statements::com_stmt_prepare_ok::ComStmtPrepareOk;
use std::alloc::{AllocError, Allocator};
use wire_text::fields::Field::{Flags, Number, Text};
use wire_text::fields::{Field, Fields};

impl<const HEADER: u8> Show for OkForm<'_, HEADER> {
    ghost members = { λ packet. ok_fields packet };

    fn show<A: Allocator + Copy>(&self, fields: &mut Fields<A>) -> Result<(), AllocError> {
        fields.put_all(&[
            Number("affected_rows", self.affected_rows),
            Number("last_insert_id", self.last_insert_id),
            Flags("status_flags", self.status_flags.0 as u64),
            Number("warnings", self.warnings as u64),
            side_if("info", &self.info),
            bytes_if("session_state_info", &self.session_state),
        ])
    }
}

// The state, where it is there.
fn state_if<'a>(name: &'a str, state: &'a Option<[u8; 5]>) -> Field<'a>
    ensures { members_in result ≡ row_if (λ state. (name.now, Words state)) state.now }
{
    match state {
        Some(state) => Text(name, state),
        None => Field::Missing,
    }
}

impl Show for ErrPacket<'_> {
    ghost members = { λ packet. error_fields packet };

    fn show<A: Allocator + Copy>(&self, fields: &mut Fields<A>) -> Result<(), AllocError> {
        fields.put_all(&[
            Number("error_code", self.error_code as u64),
            state_if("sql_state", &self.sql_state),
            Text("error_message", self.error_message.0.as_slice()),
        ])
    }
}

impl Show for ProgressReport<'_> {
    ghost members = { λ packet. progress_fields packet };

    fn show<A: Allocator + Copy>(&self, fields: &mut Fields<A>) -> Result<(), AllocError> {
        fields.put_all(&[
            Number("strings", self.strings as u64),
            Number("stage", self.stage as u64),
            Number("max_stage", self.max_stage as u64),
            Number("progress", self.progress as u64),
            Text("info", self.info.0.as_slice()),
        ])
    }
}

impl Show for EofPacket {
    ghost members = { λ packet. eof_fields packet };

    fn show<A: Allocator + Copy>(&self, fields: &mut Fields<A>) -> Result<(), AllocError> {
        fields.put_all(&[
            Number("warnings", self.warnings as u64),
            Flags("status_flags", self.status_flags.0 as u64),
        ])
    }
}

impl Show for LocalInfileRequest<'_> {
    ghost members = { λ packet. local_infile_fields packet };

    fn show<A: Allocator + Copy>(&self, fields: &mut Fields<A>) -> Result<(), AllocError> {
        fields.put_all(&[Text("filename", self.file_name.0.as_slice())])
    }
}

impl Show for ColumnCount {
    ghost members = { λ packet. column_count_fields packet };

    fn show<A: Allocator + Copy>(&self, fields: &mut Fields<A>) -> Result<(), AllocError> {
        fields.put_all(&[
            number_if("metadata_follows", self.metadata_follows),
            Number("column_count", self.column_count),
            number_if("mariadb_metadata_follows", self.mariadb_metadata_follows),
        ])
    }
}

impl Show for ColumnDefinition41<'_> {
    ghost members = { λ packet. column_fields packet };

    fn show<A: Allocator + Copy>(&self, fields: &mut Fields<A>) -> Result<(), AllocError> {
        fields.put_all(&[
            Text("catalog", self.catalog.0.as_slice()),
            Text("schema", self.schema.0.as_slice()),
            Text("table", self.table.0.as_slice()),
            Text("org_table", self.org_table.0.as_slice()),
            Text("name", self.name.0.as_slice()),
            Text("org_name", self.org_name.0.as_slice()),
            bytes_if("extended_metadata", &self.extended_metadata),
            Number("character_set", self.character_set as u64),
            Number("column_length", self.column_length as u64),
            Number("type", self.column_type.0 as u64),
            Flags("flags", self.flags.0 as u64),
            Number("decimals", self.decimals as u64),
        ])
    }
}

impl Show for ComStmtPrepareOk {
    ghost members = { λ packet. prepared_fields packet };

    fn show<A: Allocator + Copy>(&self, fields: &mut Fields<A>) -> Result<(), AllocError> {
        fields.put_all(&[
            Number("statement_id", self.statement_id as u64),
            Number("num_columns", self.num_columns as u64),
            Number("num_params", self.num_params as u64),
            Number("warning_count", self.warning_count as u64),
        ])
    }
}
