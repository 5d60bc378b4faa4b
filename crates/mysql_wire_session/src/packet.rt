//! What a payload is read as.

use crate::client_command::ClientCommand;
use crate::packet_kind::PacketKind;
use crate::refusal::Refusal;
pub use crate::session::forget;
use crate::side::Side;
use mysql_wire_connection::auth_more_data::AuthMoreData;
use mysql_wire_connection::auth_switch::AuthSwitchRequest;
use mysql_wire_connection::auth_switch_response::AuthSwitchResponse;
use mysql_wire_connection::handshake::HandshakeV10;
use mysql_wire_connection::handshake_response::HandshakeResponse41;
use mysql_wire_connection::ssl_request::SslRequest;
use mysql_wire_packets::eof_packet::EofPacket;
use mysql_wire_packets::err_packet::ErrPacket;
use mysql_wire_packets::ok_packet::{OkPacket, RowsEnd};
use mysql_wire_packets::progress_report::ProgressReport;
use mysql_wire_queries::column_count::ColumnCount;
use mysql_wire_queries::column_definition::ColumnDefinition41;
use mysql_wire_queries::local_infile::LocalInfileRequest;
use mysql_wire_statements::binary_row::BinaryRow;
use mysql_wire_statements::com_stmt_close::ComStmtClose;
use mysql_wire_statements::com_stmt_execute::ComStmtExecute;
use mysql_wire_statements::com_stmt_fetch::ComStmtFetch;
use mysql_wire_statements::com_stmt_prepare::ComStmtPrepare;
use mysql_wire_statements::com_stmt_prepare_ok::ComStmtPrepareOk;
use mysql_wire_statements::com_stmt_reset::ComStmtReset;
use mysql_wire_statements::com_stmt_send_long_data::ComStmtSendLongData;
use mysql_wire_utility::com_binlog_dump::ComBinlogDump;
use mysql_wire_utility::com_binlog_dump_gtid::ComBinlogDumpGtid;
use mysql_wire_utility::com_debug::ComDebug;
use mysql_wire_utility::com_field_list::ComFieldList;
use mysql_wire_utility::com_process_kill::ComProcessKill;
use mysql_wire_utility::com_register_slave::ComRegisterSlave;
use mysql_wire_utility::com_reset_connection::ComResetConnection;
use mysql_wire_utility::com_set_option::ComSetOption;
use mysql_wire_utility::com_statistics::{ComStatistics, StatisticsText};

/// A row of an answer.
#[derive(Clone, Copy)]
pub enum Row<'a> {
    /// This many texts, each a `TextValue`: the payload, which is not looked at.
    Text { columns: u64, values: &'a [u8] },
    /// This many columns, not further than its values.
    Binary { columns: u64, row: BinaryRow<'a> },
    /// Its command was not seen: the payload.
    Unread(&'a [u8]),
    /// A payload that no row has.
    Refused(Refusal),
}

/// A packet of a session, its texts borrowed from the payload.
#[derive(Drop)]
pub enum Packet<'a> {
    Greeting(HandshakeV10<'a>),
    TlsRequest(SslRequest),
    Login(HandshakeResponse41<'a>),
    AuthSwitch(AuthSwitchRequest<'a>),
    AuthMoreData(AuthMoreData<'a>),
    AuthAnswer(AuthSwitchResponse<'a>),
    Ok(OkPacket<'a>),
    /// An OK in the place of the EOF that ends rows.
    RowsEnd(RowsEnd<'a>),
    Error(ErrPacket<'a>),
    /// How far a command has come.
    Progress(ProgressReport<'a>),
    Eof(EofPacket),
    ColumnCount(ColumnCount),
    Column(ColumnDefinition41<'a>),
    /// One of the columns of a table, whose default follows its definition: the payload.
    TableColumn(&'a [u8]),
    Row(Row<'a>),
    LocalInfile(LocalInfileRequest<'a>),
    /// A piece of a file; an empty one ends it.
    File(&'a [u8]),
    Prepared(ComStmtPrepareOk),
    /// What a server says of itself.
    Statistics(StatisticsText<'a>),
    BinaryLogEvent(&'a [u8]),
    /// A command without a prepared statement.
    Command(ClientCommand<'a>),
    Prepare(ComStmtPrepare<'a>),
    Execute(ComStmtExecute<'a>),
    /// An execution of a statement that is not known, with its number.
    ExecuteUnknown(u32),
    LongData(ComStmtSendLongData<'a>),
    CloseStatement(ComStmtClose),
    ResetStatement(ComStmtReset),
    Fetch(ComStmtFetch),
    FieldList(ComFieldList<'a>),
    SetOption(ComSetOption),
    StatisticsRequest(ComStatistics),
    ResetConnection(ComResetConnection),
    ProcessKill(ComProcessKill),
    Debug(ComDebug),
    RegisterSlave(ComRegisterSlave<'a>),
    BinlogDump(ComBinlogDump<'a>),
    BinlogDumpGtid(ComBinlogDumpGtid<'a>),
    /// A command that no type is for: the payload.
    OtherCommand(&'a [u8]),
    /// Longer than the limit: the payload was passed over.
    TooLarge,
    /// No packet of its phase.
    Refused(Refusal),
}

/// A packet that came, and what it was read as.
#[derive(Drop)]
pub struct Received<'a> {
    pub side: Side,
    /// The id of its first chunk.
    pub id: u8,
    /// What it is in its phase; its type may refuse it.
    pub kind: PacketKind,
    pub payload: &'a [u8],
    pub packet: Packet<'a>,
}
