//! Commands.

ghost use Rattle.std.specs.Prelude.{◌≡◌, ◌∷◌, [], OnOk};
ghost use Rattle.mysql_wire_session.specs.declared.client_command.ClientCommand.TheVariants.{AttributedQuery, ChangeUser, InitDb, Ping, Query, Quit};
ghost use Rattle.mysql_wire_dump_lines.specs.CommandFields.{attributes_and_query, execute_fields, fetch_fields, long_data_fields, number_fields, params_fields, plain_fields, prepare_fields};
ghost use Rattle.wire_text.specs.FieldTables.{members_in, row_if};
ghost use Rattle.wire_text.specs.Fields.{Number, Octets, Puts};

use super::{Show, bytes_if, words_if};
use mysql_wire_queries::com_query::ComQuery;
use mysql_wire_queries::com_query_attributes::ComQueryWithAttributes;
use mysql_wire_statements::com_stmt_execute::ComStmtExecute;
use mysql_wire_statements::com_stmt_fetch::ComStmtFetch;
use mysql_wire_statements::com_stmt_prepare::ComStmtPrepare;
use mysql_wire_statements::com_stmt_send_long_data::ComStmtSendLongData;
use mysql_wire_statements::params::{ParamTypes, StmtParams};
use mysql_wire_statements::statement_command::StatementCommand;
use mysql_wire_utility::com_change_user::ComChangeUser;
use mysql_wire_utility::com_init_db::ComInitDb;
use mysql_wire_utility::com_ping::ComPing;
use mysql_wire_utility::com_quit::ComQuit;
use std::alloc::{AllocError, Allocator};
use wire_text::fields::Field::{Bytes, Flags, Number, Text};
use wire_text::fields::{Field, FieldValue, Fields};

// Without parameters the query stands alone.
fn attributes_and_query<'a>(packet: &'a ComQueryWithAttributes<'_>) -> Field<'a>
    ensures { members_in result ≡ attributes_and_query packet.now ∷ [] }
{
    let bytes = packet.attributes_and_query.0.as_slice();
    if packet.parameter_count == 0 {
        Text("query", bytes)
    } else {
        Bytes("attributes_and_query", bytes)
    }
}

// The number of a character set, where it is there.
fn character_set<'a>(name: &'a str, number: Option<u16>) -> Field<'a>
    ensures { members_in result ≡ row_if (λ number. (name.now, Number number)) number }
{
    match number {
        Some(number) => Number(name, number as u64),
        None => Field::Missing,
    }
}

impl Show for ComQuit {
    ghost members = { λ packet. plain_fields (Quit packet) };

    fn show<A: Allocator + Copy>(&self, _fields: &mut Fields<A>) -> Result<(), AllocError> {
        Ok(())
    }
}

impl Show for ComPing {
    ghost members = { λ packet. plain_fields (Ping packet) };

    fn show<A: Allocator + Copy>(&self, _fields: &mut Fields<A>) -> Result<(), AllocError> {
        Ok(())
    }
}

impl Show for ComInitDb<'_> {
    ghost members = { λ packet. plain_fields (InitDb packet) };

    fn show<A: Allocator + Copy>(&self, fields: &mut Fields<A>) -> Result<(), AllocError> {
        fields.put("schema", FieldValue::Text(self.schema.0.as_slice()))
    }
}

impl Show for ComQuery<'_> {
    ghost members = { λ packet. plain_fields (Query packet) };

    fn show<A: Allocator + Copy>(&self, fields: &mut Fields<A>) -> Result<(), AllocError> {
        fields.put("query", FieldValue::Text(self.query.0.as_slice()))
    }
}

impl Show for ComQueryWithAttributes<'_> {
    ghost members = { λ packet. plain_fields (AttributedQuery packet) };

    fn show<A: Allocator + Copy>(&self, fields: &mut Fields<A>) -> Result<(), AllocError> {
        fields.put_all(&[
            Number("parameter_count", self.parameter_count),
            Number("parameter_set_count", self.parameter_set_count),
            attributes_and_query(self),
        ])
    }
}

impl Show for ComChangeUser<'_> {
    ghost members = { λ packet. plain_fields (ChangeUser packet) };

    fn show<A: Allocator + Copy>(&self, fields: &mut Fields<A>) -> Result<(), AllocError> {
        fields.put_all(&[
            Text("user", self.user.0.as_slice()),
            Bytes("auth_plugin_data", self.auth_plugin_data.0.as_slice()),
            Text("database", self.database.0.as_slice()),
            character_set("character_set", self.character_set),
            words_if("auth_plugin_name", &self.auth_plugin_name),
            bytes_if("connect_attrs", &self.connect_attrs),
        ])
    }
}

/// The number of a prepared statement.
pub fn number_of_statement<A: Allocator + Copy>(
    fields: &mut Fields<A>,
    statement_id: u32,
) -> Result<(), AllocError>
    ensures { OnOk result (Puts (number_fields statement_id) fields.old fields.new) }
{
    fields.put("statement_id", FieldValue::Number(statement_id as u64))
}

// The types of parameters, where they are there.
fn types_if<'a>(name: &'a str, types: &'a Option<ParamTypes<'_>>) -> Field<'a>
    ensures { members_in result ≡ row_if (λ types. (name.now, Octets types.0.now)) types.now }
{
    match types {
        Some(types) => Bytes(name, types.0),
        None => Field::Missing,
    }
}

fn params<A: Allocator + Copy>(
    fields: &mut Fields<A>,
    params: &Option<StmtParams<'_>>,
) -> Result<(), AllocError>
    ensures { OnOk result (Puts (params_fields params.now) fields.old fields.new) }
{
    match params {
        Some(params) => fields.put_all(&[
            Bytes("null_bitmap", params.nulls.0),
            types_if("parameter_type", &params.types),
            Bytes("parameter_values", params.values),
        ]),
        None => Ok(()),
    }
}

impl Show for ComStmtExecute<'_> {
    ghost members = { λ packet. execute_fields packet };

    fn show<A: Allocator + Copy>(&self, fields: &mut Fields<A>) -> Result<(), AllocError> {
        fields.put_all(&[
            Number("statement_id", self.statement_id as u64),
            Flags("flags", self.flags.0 as u64),
            Number("iteration_count", self.iteration_count as u64),
        ])?;
        params(fields, &self.params)?;
        Ok(())
    }
}

impl Show for ComStmtSendLongData<'_> {
    ghost members = { λ packet. long_data_fields packet };

    fn show<A: Allocator + Copy>(&self, fields: &mut Fields<A>) -> Result<(), AllocError> {
        fields.put_all(&[
            Number("statement_id", self.statement_id as u64),
            Number("param_id", self.param_id as u64),
            Bytes("data", self.data),
        ])
    }
}

impl Show for ComStmtFetch {
    ghost members = { λ packet. fetch_fields packet };

    fn show<A: Allocator + Copy>(&self, fields: &mut Fields<A>) -> Result<(), AllocError> {
        fields.put_all(&[
            Number("statement_id", self.statement_id as u64),
            Number("num_rows", self.num_rows as u64),
        ])
    }
}

impl Show for ComStmtPrepare<'_> {
    ghost members = { λ packet. prepare_fields packet };

    fn show<A: Allocator + Copy>(&self, fields: &mut Fields<A>) -> Result<(), AllocError> {
        fields.put("query", FieldValue::Text(self.query))
    }
}

impl<const HEADER: u8> Show for StatementCommand<HEADER> {
    ghost members = { λ packet. number_fields packet.statement_id };

    fn show<A: Allocator + Copy>(&self, fields: &mut Fields<A>) -> Result<(), AllocError> {
        number_of_statement(fields, self.statement_id)
    }
}
