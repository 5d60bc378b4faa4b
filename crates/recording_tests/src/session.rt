//! A session, payload by payload.

use crate::found::{Found, Payload};
use crate::place::{Defined, Kind, Place};
use crate::statement::has_columns;
use crate::statements::Statements;
use mysql_wire_connection::auth_answer::AuthAnswer;
use mysql_wire_connection::auth_switch_response::AuthSwitchResponse;
use mysql_wire_connection::first_packet::{ClientFirst, ServerFirst};
use mysql_wire_packets::eof_packet::EofPacket;
use mysql_wire_packets::places::{PayloadError, read_whole};
use mysql_wire_packets::progress_report::ProgressReport;
use mysql_wire_queries::column_definition::ColumnDefinition41;
use mysql_wire_queries::query_answer::QueryAnswer;
use mysql_wire_queries::row_answer::RowAnswer;
use mysql_wire_session::client_command::ClientCommand;
use mysql_wire_statements::binary_row::BinaryRow;
use mysql_wire_statements::com_stmt_fetch::ComStmtFetch;
use mysql_wire_statements::com_stmt_prepare::ComStmtPrepare;
use mysql_wire_statements::prepare_answer::PrepareAnswer;
use mysql_wire_utility::com_binlog_dump::ComBinlogDump;
use mysql_wire_utility::com_binlog_dump_gtid::ComBinlogDumpGtid;
use mysql_wire_utility::com_debug::ComDebug;
use mysql_wire_utility::com_field_list::ComFieldList;
use mysql_wire_utility::com_process_kill::ComProcessKill;
use mysql_wire_utility::com_register_slave::ComRegisterSlave;
use mysql_wire_utility::com_reset_connection::ComResetConnection;
use mysql_wire_utility::com_set_option::ComSetOption;
use mysql_wire_utility::com_statistics::{ComStatistics, StatisticsText};
use std::alloc::Global;
use wire_const::{CapabilityFlags, ColumnType, Flags, MariadbCapabilities, StatusFlags};
use wire_field::converted::RawConst;
use wire_repr::int::LeU16;
use wire_values::flags::RawFlags;

/// What both sides have said so far.
#[derive(Drop)]
pub struct Session {
    capabilities: CapabilityFlags,
    mariadb: MariadbCapabilities,
    statements: Statements,
    // How many columns the rows have, or the statement that is prepared.
    columns: u64,
    // Their types, of rows.
    types: Vec<ColumnType>,
    // Whether the rows are in the binary form.
    is_binary: bool,
    place: Place,
}

impl Session {
    /// A session that begins.
    pub fn new(alloc: Global) -> Session {
        Session {
            capabilities: CapabilityFlags::empty(),
            mariadb: MariadbCapabilities::empty(),
            statements: Statements::new(alloc),
            columns: 0,
            types: Vec::new(alloc),
            is_binary: false,
            place: Place::Greeting,
        }
    }

    /// The client begins a new command.
    pub fn begin_command(&mut self) {
        self.place = Place::Command;
    }

    /// Reads a payload of the client as its place says, and goes to the next place.
    pub fn client(&mut self, alloc: Global, payload: Payload<'_>) -> Found {
        match self.place {
            Place::Login => self.login(alloc, payload),
            Place::Command => self.command(alloc, payload),
            Place::Authentication => {
                Found::exact::<AuthSwitchResponse<'_>>(alloc, Kind::AuthAnswer, (), payload)
            }
            Place::File => {
                if payload.bytes.is_empty() {
                    self.place = Place::Answer;
                }
                Found::passed_over(Kind::File, payload)
            }
            _ => Found::refused(Kind::Unexpected, payload),
        }
    }

    /// Reads a payload of the server as its place says, and goes to the next place.
    pub fn server(&mut self, alloc: Global, payload: Payload<'_>) -> Found {
        match self.place {
            Place::Greeting => self.greeting(alloc, payload),
            Place::Authentication => self.authentication(alloc, payload),
            Place::Answer => self.answer(alloc, payload),
            Place::PrepareAnswer => self.prepare_answer(alloc, payload),
            Place::Definitions(of, left) => self.definition(alloc, of, left, payload),
            Place::DefinitionsEnd(of) => {
                self.place = self.behind_definitions(of);
                Found::exact::<EofPacket>(alloc, Kind::Eof, (), payload)
            }
            Place::Option => {
                self.place = Place::Command;
                Found::exact::<EofPacket>(alloc, Kind::Eof, (), payload)
            }
            Place::Statistics => {
                self.place = Place::Command;
                Found::exact::<StatisticsText<'_>>(alloc, Kind::Statistics, (), payload)
            }
            Place::Rows if self.is_binary => self.binary_row(alloc, payload),
            Place::Rows => self.row(alloc, payload),
            _ => Found::refused(Kind::Unexpected, payload),
        }
    }

    fn greeting(&mut self, alloc: Global, payload: Payload<'_>) -> Found {
        self.place = Place::Login;
        match ServerFirst::read(alloc, payload.bytes) {
            Ok(ServerFirst::Greeting(greeting)) => {
                Found::given_up(alloc, Kind::Greeting, greeting, payload)
            }
            Ok(ServerFirst::Failed(error)) => Found::given_up(alloc, Kind::Error, error, payload),
            Err(_) => Found::refused(Kind::Greeting, payload),
        }
    }

    fn login(&mut self, alloc: Global, payload: Payload<'_>) -> Found {
        self.place = Place::Authentication;
        match ClientFirst::read(alloc, payload.bytes) {
            Ok(ClientFirst::Login(login)) => {
                self.capabilities = login.client_flag.get();
                if !self
                    .capabilities
                    .contains(CapabilityFlags::CLIENT_LONG_PASSWORD)
                {
                    self.mariadb = login.mariadb_capabilities.get();
                }
                Found::given_up(alloc, Kind::Login, login, payload)
            }
            Ok(ClientFirst::Tls(request)) => {
                // (the login follows)
                self.place = Place::Login;
                Found::of(alloc, Kind::TlsRequest, &request, payload)
            }
            Err(_) => Found::refused(Kind::Login, payload),
        }
    }

    fn authentication(&mut self, alloc: Global, payload: Payload<'_>) -> Found {
        match AuthAnswer::read(alloc, self.capabilities, payload.bytes) {
            Ok(AuthAnswer::Done(ok)) => {
                self.end(ok.status_flags);
                Found::given_up(alloc, Kind::Ok, ok, payload)
            }
            Ok(AuthAnswer::Failed(error)) => Found::given_up(alloc, Kind::Error, error, payload),
            Ok(AuthAnswer::Switch(request)) => {
                Found::given_up(alloc, Kind::AuthSwitch, request, payload)
            }
            Ok(AuthAnswer::MoreData(more)) => Found::given_up(alloc, Kind::MoreData, more, payload),
            Err(_) => Found::refused(Kind::AuthSwitch, payload),
        }
    }

    fn command(&mut self, alloc: Global, payload: Payload<'_>) -> Found {
        self.place = Place::Answer;
        self.is_binary = false;
        match ClientCommand::read(alloc, self.capabilities, payload.bytes) {
            Ok(ClientCommand::Quit(quit)) => {
                self.place = Place::End;
                Found::given_up(alloc, Kind::Quit, quit, payload)
            }
            Ok(ClientCommand::InitDb(init)) => {
                Found::given_up(alloc, Kind::InitDatabase, init, payload)
            }
            Ok(ClientCommand::Query(query)) => Found::given_up(alloc, Kind::Query, query, payload),
            Ok(ClientCommand::AttributedQuery(query)) => {
                Found::given_up(alloc, Kind::Query, query, payload)
            }
            Ok(ClientCommand::Ping(ping)) => Found::given_up(alloc, Kind::Ping, ping, payload),
            Ok(ClientCommand::ChangeUser(change)) => {
                self.place = Place::Authentication;
                Found::given_up(alloc, Kind::ChangeUser, change, payload)
            }
            Err(PayloadError::OtherHeader(header)) => self.other_command(alloc, header, payload),
            Err(_) => Found::refused(Kind::Query, payload),
        }
    }

    // The commands of prepared statements, and those of the server.
    fn other_command(&mut self, alloc: Global, header: u8, payload: Payload<'_>) -> Found {
        match header {
            0x16 => {
                self.place = Place::PrepareAnswer;
                Found::exact::<ComStmtPrepare<'_>>(alloc, Kind::Prepare, (), payload)
            }
            0x17 => {
                self.is_binary = true;
                self.statements.execute(alloc, payload)
            }
            0x18 => {
                self.place = Place::Command;
                self.statements.send_long_data(alloc, payload)
            }
            0x19 => {
                self.place = Place::Command;
                self.statements.close(alloc, payload)
            }
            0x1a => self.statements.reset(alloc, payload),
            0x1c => {
                self.is_binary = true;
                self.place = Place::Rows;
                Found::exact::<ComStmtFetch>(alloc, Kind::Fetch, (), payload)
            }
            _ => self.server_command(alloc, header, payload),
        }
    }

    // The commands of the server, of which a column of a table and an event of a log have no type.
    fn server_command(&mut self, alloc: Global, header: u8, payload: Payload<'_>) -> Found {
        match header {
            0x1b => {
                self.place = Place::Option;
                Found::exact::<ComSetOption>(alloc, Kind::SetOption, (), payload)
            }
            0x09 => {
                self.place = Place::Statistics;
                Found::exact::<ComStatistics>(alloc, Kind::Statistics, (), payload)
            }
            0x04 => {
                self.place = Place::End;
                Found::exact::<ComFieldList<'_>>(alloc, Kind::FieldList, (), payload)
            }
            0x0c => Found::exact::<ComProcessKill>(alloc, Kind::ProcessKill, (), payload),
            0x0d => {
                self.place = Place::Option;
                Found::exact::<ComDebug>(alloc, Kind::Debug, (), payload)
            }
            0x1f => Found::exact::<ComResetConnection>(alloc, Kind::ResetConnection, (), payload),
            _ => self.replica_command(alloc, header, payload),
        }
    }

    // The commands of a replica.
    fn replica_command(&mut self, alloc: Global, header: u8, payload: Payload<'_>) -> Found {
        match header {
            0x15 => {
                Found::exact::<ComRegisterSlave<'_>>(alloc, Kind::RegisterReplica, (), payload)
            }
            0x12 => {
                self.place = Place::End;
                Found::exact::<ComBinlogDump<'_>>(alloc, Kind::BinaryLog, (), payload)
            }
            0x1e => {
                self.place = Place::End;
                Found::exact::<ComBinlogDumpGtid<'_>>(alloc, Kind::BinaryLogGtid, (), payload)
            }
            _ => Found::refused(Kind::Unexpected, payload),
        }
    }

    fn answer(&mut self, alloc: Global, payload: Payload<'_>) -> Found {
        if payload.bytes.starts_with(b"\xff\xff\xff") {
            return Found::exact::<ProgressReport<'_>>(alloc, Kind::Progress, (), payload);
        }
        self.place = Place::Command;
        match QueryAnswer::read(alloc, self.capabilities, self.mariadb, payload.bytes) {
            Ok(QueryAnswer::Done(ok)) => {
                self.end(ok.status_flags);
                Found::given_up(alloc, Kind::Ok, ok, payload)
            }
            Ok(QueryAnswer::Failed(error)) => Found::given_up(alloc, Kind::Error, error, payload),
            Ok(QueryAnswer::File(request)) => {
                self.place = Place::File;
                Found::given_up(alloc, Kind::LocalInfile, request, payload)
            }
            Ok(QueryAnswer::Columns(count)) => {
                self.columns = count.column_count;
                // (a statement's columns may be told once, after its number)
                self.place = if count.mariadb_metadata_follows == Some(0) {
                    Place::Rows
                } else {
                    self.types.clear();
                    self.definitions(Defined::Rows, count.column_count)
                };
                Found::given_up(alloc, Kind::ColumnCount, count, payload)
            }
            Err(_) => Found::refused(Kind::ColumnCount, payload),
        }
    }

    fn prepare_answer(&mut self, alloc: Global, payload: Payload<'_>) -> Found {
        self.place = Place::Command;
        match read_whole::<PrepareAnswer<'_>>(alloc, self.capabilities, payload.bytes) {
            Ok(PrepareAnswer::Prepared(prepared)) => {
                self.columns = prepared.num_columns.into();
                self.types.clear();
                self.place = self.definitions(Defined::Parameters, prepared.num_params.into());
                Found::of(alloc, Kind::Prepared, &prepared, payload).and(
                    self.statements.add(alloc, prepared),
                )
            }
            Ok(PrepareAnswer::Failed(error)) => Found::given_up(alloc, Kind::Error, error, payload),
            Err(_) => Found::refused(Kind::Prepared, payload),
        }
    }

    // Where this many definitions are left.
    fn definitions(&self, of: Defined, left: u64) -> Place {
        match left {
            0 => self.behind_definitions(of),
            left => Place::Definitions(of, left),
        }
    }

    // After the last definition, where the end of definitions is not told.
    fn behind_definitions(&self, of: Defined) -> Place {
        match of {
            Defined::Rows => Place::Rows,
            Defined::Parameters if self.columns > 0 => {
                Place::Definitions(Defined::Columns, self.columns)
            }
            Defined::Parameters | Defined::Columns => Place::Command,
        }
    }

    fn definition(&mut self, alloc: Global, of: Defined, left: u64, payload: Payload<'_>) -> Found {
        let deprecate_eof = CapabilityFlags::CLIENT_DEPRECATE_EOF;
        self.place = match left {
            0 | 1 if self.capabilities.contains(deprecate_eof) => self.behind_definitions(of),
            0 | 1 => Place::DefinitionsEnd(of),
            left => Place::Definitions(of, left - 1),
        };
        match read_whole::<ColumnDefinition41<'_>>(alloc, self.mariadb, payload.bytes) {
            Ok(column) => {
                let is_known = self.knows(of, column.column_type);
                Found::given_up(alloc, Kind::Column, column, payload).and(is_known)
            }
            Err(_) => Found::refused(Kind::Column, payload),
        }
    }

    // Whether a column's type is known. That of rows is kept.
    fn knows(&mut self, of: Defined, column_type: RawConst<u8, ColumnType>) -> bool {
        match (of, column_type.get()) {
            (Defined::Parameters, Ok(_)) => true,
            (Defined::Rows | Defined::Columns, Ok(column_type)) => {
                self.types.push(column_type).is_ok()
            }
            (_, Err(_)) => false,
        }
    }

    fn row(&mut self, alloc: Global, payload: Payload<'_>) -> Found {
        let count = self.columns as usize;
        match RowAnswer::read(alloc, self.capabilities, count, payload.bytes) {
            Ok(RowAnswer::Row(row)) => {
                Found::taken(alloc, Kind::Row, row, payload).and(!self.is_binary)
            }
            Ok(RowAnswer::Eof(eof)) => {
                self.end(eof.status_flags);
                Found::given_up(alloc, Kind::Eof, eof, payload)
            }
            Ok(RowAnswer::End(end)) => {
                self.end(end.status_flags);
                Found::given_up(alloc, Kind::Eof, end, payload)
            }
            Ok(RowAnswer::Failed(error)) => {
                self.place = Place::Command;
                Found::given_up(alloc, Kind::Error, error, payload)
            }
            Err(_) => Found::refused(Kind::Row, payload),
        }
    }

    // A row in the binary form, or what ends such rows.
    fn binary_row(&mut self, alloc: Global, payload: Payload<'_>) -> Found {
        match payload.bytes.first() {
            Some(0x00) => {
                let types = self.types.as_slice();
                match read_whole::<BinaryRow<'_>>(alloc, types.len(), payload.bytes) {
                    Ok(row) => Found::of(alloc, Kind::BinaryRow, &row, payload).and(has_columns(
                        alloc, &row, types,
                    )),
                    Err(_) => Found::refused(Kind::BinaryRow, payload),
                }
            }
            _ => self.row(alloc, payload),
        }
    }

    // An answer has ended, and the status says whether another follows.
    fn end(&mut self, status: RawFlags<StatusFlags, LeU16>) {
        self.place = if status
            .get()
            .contains(StatusFlags::SERVER_MORE_RESULTS_EXISTS)
        {
            Place::Answer
        } else {
            Place::Command
        };
    }
}
