//! What a payload is read as.

ghost use Rattle.std.specs.Prelude.{◌≡◌, length};
ghost use Rattle.mysql_wire_parts.specs.Optional.{has_query_attributes};
ghost use Rattle.mysql_wire_session.specs.Advance.{opened, without_eof};
ghost use Rattle.mysql_wire_session.specs.Opening.{opened_state};
ghost use Rattle.mysql_wire_session.specs.declared.packet_kind.PacketKind.TheVariants as kinds;
ghost use Rattle.mysql_wire_session.specs.Readings.{BinaryRowGives, ColumnGives, EndGives, Gives, IsCommand, IsPlain, IsTextRow, IsUtility, LogRequestGives, OtherCommandGives, QueryGives, Reads, ReadsAs, RefusedFor, RowGives, error_capabilities, is_ended_by_ok, is_numbered, statement_named};
ghost use Rattle.mysql_wire_session.specs.State.{SessionState, state_of};

use super::Session;
use crate::classify::first_byte;
use crate::next_phase::after_definitions;
use crate::packet::{Packet, Row};
use crate::packet_kind::PacketKind;
use crate::packet_payload::PacketPayload;
use crate::phase::{Phase, RowForm};
use crate::refusal::{Refusal, SessionError};
use mysql_wire_connection::auth_more_data::AuthMoreData;
use mysql_wire_connection::auth_switch::AuthSwitchRequest;
use mysql_wire_connection::auth_switch_response::AuthSwitchResponse;
use mysql_wire_connection::handshake::HandshakeV10;
use mysql_wire_connection::handshake_response::HandshakeResponse41;
use mysql_wire_connection::ssl_request::SslRequest;
use mysql_wire_packets::eof_packet::EofPacket;
use mysql_wire_packets::err_packet::ErrPacket;
use mysql_wire_packets::ok_packet::{InfoForm, OkPacket, RowsEnd};
use mysql_wire_packets::places::{PayloadError, read_whole};
use mysql_wire_packets::progress_report::ProgressReport;
use mysql_wire_queries::column_count::ColumnCount;
use mysql_wire_queries::column_definition::ColumnDefinition41;
use mysql_wire_queries::com_query::ComQuery;
use mysql_wire_queries::com_query_attributes::ComQueryWithAttributes;
use mysql_wire_queries::local_infile::LocalInfileRequest;
use mysql_wire_statements::binary_row::BinaryRow;
use mysql_wire_statements::com_stmt_close::ComStmtClose;
use mysql_wire_statements::com_stmt_execute::ComStmtExecute;
use mysql_wire_statements::com_stmt_fetch::ComStmtFetch;
use mysql_wire_statements::com_stmt_prepare::ComStmtPrepare;
use mysql_wire_statements::com_stmt_prepare_ok::ComStmtPrepareOk;
use mysql_wire_statements::com_stmt_reset::ComStmtReset;
use mysql_wire_statements::com_stmt_send_long_data::ComStmtSendLongData;
use mysql_wire_utility::com_binlog_dump::ComBinlogDump;
use mysql_wire_utility::com_binlog_dump_gtid::ComBinlogDumpGtid;
use mysql_wire_utility::com_change_user::ComChangeUser;
use mysql_wire_utility::com_debug::ComDebug;
use mysql_wire_utility::com_field_list::ComFieldList;
use mysql_wire_utility::com_init_db::ComInitDb;
use mysql_wire_utility::com_ping::ComPing;
use mysql_wire_utility::com_process_kill::ComProcessKill;
use mysql_wire_utility::com_quit::ComQuit;
use mysql_wire_utility::com_register_slave::ComRegisterSlave;
use mysql_wire_utility::com_reset_connection::ComResetConnection;
use mysql_wire_utility::com_set_option::ComSetOption;
use mysql_wire_utility::com_statistics::{ComStatistics, StatisticsText};
use std::alloc::{Allocator, Global};
use wire_const::{CapabilityFlags, Flags};

// What is known of a payload that its type refuses: why.
fn refused<'a>(error: PayloadError) -> Result<Packet<'a>, SessionError>
    ensures { RefusedFor error result }
{
    match Refusal::of(error) {
        Ok(refusal) => Ok(Packet::Refused(refusal)),
        Err(fault) => Err(fault),
    }
}

// Reads a payload as one packet of this type, and makes a packet of the session of it.
fn read_as<'a, T: PacketPayload<'a>>(
    global: Global,
    ctx: T::Ctx,
    payload: &'a [u8],
) -> Result<Packet<'a>, SessionError>
    ensures { Reads T.packet (T.reads_whole ctx) payload.entry.now result }
{
    match read_whole::<T>(global, ctx, payload) {
        Ok(packet) => Ok(packet.into_packet()),
        Err(error) => refused(error),
    }
}

// The number of the statement that a payload names, where it has come.
fn statement_named(payload: &[u8]) -> Option<u32>
    ensures { result ≡ statement_named payload.now }
{
    match payload {
        [_, a, b, c, d, ..] => Some(u32::from_le_bytes([*a, *b, *c, *d])),
        _ => None,
    }
}

// The capabilities of an error: where a server begins with one, none are in force.
fn error_capabilities(phase: Phase, capabilities: CapabilityFlags) -> CapabilityFlags
    ensures { result ≡ error_capabilities phase capabilities }
{
    match phase {
        Phase::Greeting => CapabilityFlags::empty(),
        _ => capabilities,
    }
}

// Whether this is the number of the command.
fn is_numbered(number: u8, payload: &[u8]) -> bool
    ensures { result ≡ is_numbered number payload.now }
{
    match first_byte(payload) {
        Some(first) => first == number,
        None => false,
    }
}

// Whether an OK ends the rows, and no EOF.
fn is_ended_by_ok(is_eof_deprecated: bool, len: usize) -> bool
    ensures { result ≡ is_ended_by_ok is_eof_deprecated len }
{
    is_eof_deprecated && len != 5
}

// What is known where a packet is read that may stand where an EOF would.
#[derive(Clone, Copy)]
pub(super) struct Opened {
    pub(super) phase: Phase,
    is_eof_deprecated: bool,
}

impl<A: Allocator + Copy> Session<A> {
    // Where no EOF follows definitions, the client wants none.
    fn without_eof(&self) -> Opened
        ensures { opened_state result (state_of self.now)
            ≡ without_eof self.now.phase (state_of self.now) }
    {
        match self.phase {
            Phase::ColumnsEnd(after) => Opened {
                phase: after_definitions(after),
                is_eof_deprecated: true,
            },
            phase => Opened {
                phase,
                is_eof_deprecated: self.is_eof_deprecated,
            },
        }
    }

    // What is known where a packet of this kind is read.
    pub(super) fn opened(&self, kind: PacketKind, len: usize) -> Opened
        ensures { opened_state result (state_of self.now)
            ≡ opened kind len (state_of self.now) }
    {
        match kind {
            PacketKind::Column | PacketKind::Row | PacketKind::BinaryRow => self.without_eof(),
            PacketKind::Eof if len != 5 => self.without_eof(),
            _ => Opened {
                phase: self.phase,
                is_eof_deprecated: self.is_eof_deprecated,
            },
        }
    }

    // Reads a payload by the type of its kind.
    pub(super) fn read_packet<'a>(
        &self,
        kind: PacketKind,
        opened: Opened,
        payload: &'a [u8],
    ) -> Result<Packet<'a>, SessionError>
        ensures { Gives (opened_state opened (state_of self.now)) kind payload.entry.now result }
    {
        let global = self.global;
        match kind {
            PacketKind::Greeting => read_as::<HandshakeV10<'a>>(global, (), payload),
            PacketKind::TlsRequest => read_as::<SslRequest>(global, (), payload),
            PacketKind::Login => read_as::<HandshakeResponse41<'a>>(global, (), payload),
            PacketKind::AuthSwitch => read_as::<AuthSwitchRequest<'a>>(global, (), payload),
            PacketKind::AuthMoreData => read_as::<AuthMoreData<'a>>(global, (), payload),
            PacketKind::AuthAnswer => read_as::<AuthSwitchResponse<'a>>(global, (), payload),
            PacketKind::Ok => {
                read_as::<OkPacket<'a>>(global, InfoForm::of(self.capabilities), payload)
            }
            PacketKind::Error => {
                let capabilities = error_capabilities(opened.phase, self.capabilities);
                read_as::<ErrPacket<'a>>(global, capabilities, payload)
            }
            PacketKind::Progress => read_as::<ProgressReport<'a>>(global, (), payload),
            PacketKind::Eof => self.read_end(opened.is_eof_deprecated, payload),
            PacketKind::ColumnCount => {
                let capabilities = (self.capabilities, self.mariadb);
                read_as::<ColumnCount>(global, capabilities, payload)
            }
            PacketKind::Column => self.read_column(opened.phase, payload),
            PacketKind::Row | PacketKind::BinaryRow => match self.read_row(kind, payload) {
                Ok(row) => Ok(Packet::Row(row)),
                Err(error) => Err(error),
            },
            PacketKind::LocalInfile => read_as::<LocalInfileRequest<'a>>(global, (), payload),
            PacketKind::Prepared => read_as::<ComStmtPrepareOk>(global, (), payload),
            _ => self.read_command(kind, payload),
        }
    }

    // The end of definitions, of rows, or of what else an EOF ends. An OK may stand in its place.
    fn read_end<'a>(
        &self,
        is_eof_deprecated: bool,
        payload: &'a [u8],
    ) -> Result<Packet<'a>, SessionError>
        ensures { EndGives (is_ended_by_ok is_eof_deprecated (length payload.entry.now))
            self.now.capabilities payload.entry.now result }
    {
        if is_ended_by_ok(is_eof_deprecated, payload.len()) {
            let form = InfoForm::of(self.capabilities);
            read_as::<RowsEnd<'a>>(self.global, form, payload)
        } else {
            read_as::<EofPacket>(self.global, (), payload)
        }
    }

    // A definition of a column; where none is waited for it is one of the columns of a table, whose
    // default follows it.
    fn read_column<'a>(&self, phase: Phase, payload: &'a [u8]) -> Result<Packet<'a>, SessionError>
        ensures { ColumnGives phase self.now.mariadb payload.entry.now result }
    {
        match phase {
            Phase::Columns { .. } => {
                read_as::<ColumnDefinition41<'a>>(self.global, self.mariadb, payload)
            }
            _ => Ok(Packet::TableColumn(payload)),
        }
    }

    // A row of texts. One of a command that was not seen is not read.
    fn text_row<'a>(&self, payload: &'a [u8]) -> Row<'a>
        ensures { IsTextRow self.now.row_form self.now.columns payload.entry.now result }
    {
        match self.row_form {
            RowForm::Text => Row::Text {
                columns: self.columns,
                values: payload,
            },
            _ => Row::Unread(payload),
        }
    }

    fn binary_row<'a>(&self, payload: &'a [u8]) -> Result<Row<'a>, SessionError>
        ensures { BinaryRowGives self.now.columns payload.entry.now result }
    {
        let columns = self.columns;
        match read_whole::<BinaryRow<'_>>(self.global, columns as usize, payload) {
            Ok(row) => Ok(Row::Binary { columns, row }),
            Err(error) => Ok(Row::Refused(Refusal::of(error)?)),
        }
    }

    /// What a payload of this kind, `Row` or `BinaryRow`, is read as; one of another kind is not, and
    /// is `Unread`. The session is as before; `advance_by_kind` goes on after a row.
    pub fn read_row<'a>(&self, kind: PacketKind, payload: &'a [u8]) -> Result<Row<'a>, SessionError>
        ensures { RowGives (state_of self.now) kind payload.entry.now result }
    {
        match kind {
            PacketKind::BinaryRow => self.binary_row(payload),
            PacketKind::Row => Ok(self.text_row(payload)),
            _ => Ok(Row::Unread(payload)),
        }
    }

    // A command, or what no type is for.
    fn read_command<'a>(
        &self,
        kind: PacketKind,
        payload: &'a [u8],
    ) -> Result<Packet<'a>, SessionError>
        requires { IsCommand kind }
        ensures { Gives (state_of self.now) kind payload.entry.now result }
    {
        let global = self.global;
        match kind {
            PacketKind::Quit => read_as::<ComQuit>(global, (), payload),
            PacketKind::InitDatabase => read_as::<ComInitDb<'a>>(global, (), payload),
            PacketKind::Query => self.read_query(payload),
            PacketKind::Ping => read_as::<ComPing>(global, (), payload),
            PacketKind::ChangeUser => {
                read_as::<ComChangeUser<'a>>(global, self.capabilities, payload)
            }
            PacketKind::Prepare => read_as::<ComStmtPrepare<'a>>(global, (), payload),
            PacketKind::Execute => self.read_execute(payload),
            PacketKind::LongData => read_as::<ComStmtSendLongData<'a>>(global, (), payload),
            PacketKind::CloseStatement => read_as::<ComStmtClose>(global, (), payload),
            PacketKind::ResetStatement => read_as::<ComStmtReset>(global, (), payload),
            PacketKind::Fetch => read_as::<ComStmtFetch>(global, (), payload),
            _ => self.read_utility(kind, payload),
        }
    }

    // A command about the connection or the server, or what no type is for.
    fn read_utility<'a>(
        &self,
        kind: PacketKind,
        payload: &'a [u8],
    ) -> Result<Packet<'a>, SessionError>
        requires { IsUtility kind }
        ensures { Gives (state_of self.now) kind payload.entry.now result }
    {
        let global = self.global;
        match kind {
            PacketKind::FieldList => read_as::<ComFieldList<'a>>(global, (), payload),
            PacketKind::SetOption => read_as::<ComSetOption>(global, (), payload),
            PacketKind::StatisticsRequest => { read_as::<ComStatistics>(global, (), payload) }
            PacketKind::Statistics => read_as::<StatisticsText<'a>>(global, (), payload),
            PacketKind::ResetConnection => read_as::<ComResetConnection>(global, (), payload),
            PacketKind::BinaryLogRequest => self.read_log_request(payload),
            PacketKind::OtherCommand => self.read_other(payload),
            _ => Ok(as_it_is(kind, payload)),
        }
    }

    // A request for a binary log, from a position on or by transactions.
    fn read_log_request<'a>(&self, payload: &'a [u8]) -> Result<Packet<'a>, SessionError>
        ensures { LogRequestGives (is_numbered 0x1e payload.entry.now) payload.entry.now result }
    {
        if is_numbered(0x1e, payload) {
            read_as::<ComBinlogDumpGtid<'a>>(self.global, (), payload)
        } else {
            read_as::<ComBinlogDump<'a>>(self.global, (), payload)
        }
    }

    // A command whose kind is none of its own.
    fn read_other<'a>(&self, payload: &'a [u8]) -> Result<Packet<'a>, SessionError>
        ensures { OtherCommandGives (is_numbered 0x0c payload.entry.now)
            (is_numbered 0x0d payload.entry.now) (is_numbered 0x15 payload.entry.now)
            payload.entry.now result }
    {
        if is_numbered(0x0c, payload) {
            read_as::<ComProcessKill>(self.global, (), payload)
        } else if is_numbered(0x0d, payload) {
            read_as::<ComDebug>(self.global, (), payload)
        } else if is_numbered(0x15, payload) {
            read_as::<ComRegisterSlave<'a>>(self.global, (), payload)
        } else {
            Ok(Packet::OtherCommand(payload))
        }
    }

    fn read_query<'a>(&self, payload: &'a [u8]) -> Result<Packet<'a>, SessionError>
        ensures { QueryGives (has_query_attributes self.now.capabilities) payload.entry.now result }
    {
        if self
            .capabilities
            .contains(CapabilityFlags::CLIENT_QUERY_ATTRIBUTES)
        {
            read_as::<ComQueryWithAttributes<'a>>(self.global, (), payload)
        } else {
            read_as::<ComQuery<'a>>(self.global, (), payload)
        }
    }

    // An execution. Of a statement that is not known, its number.
    fn read_execute<'a>(&self, payload: &'a [u8]) -> Result<Packet<'a>, SessionError>
        ensures { Gives (state_of self.now) kinds.Execute payload.entry.now result }
    {
        let Some(number) = statement_named(payload) else {
            return Ok(Packet::Refused(Refusal::OtherHeader));
        };
        match self.statements.get(number) {
            Some(statement) => {
                read_as::<ComStmtExecute<'a>>(self.global, statement.num_params, payload)
            }
            None => Ok(Packet::ExecuteUnknown(number)),
        }
    }
}

// What no type is for: the payload as it is.
fn as_it_is<'a>(kind: PacketKind, payload: &'a [u8]) -> Packet<'a>
    requires { IsPlain kind }
    ensures { (state : SessionState) → ReadsAs state kind payload.entry.now result }
{
    match kind {
        PacketKind::File => Packet::File(payload),
        PacketKind::TooLarge => Packet::TooLarge,
        PacketKind::Refused(refusal) => Packet::Refused(refusal),
        _ => Packet::BinaryLogEvent(payload),
    }
}
