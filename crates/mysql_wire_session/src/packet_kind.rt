//! What a packet is.

ghost use Rattle.std.specs.Prelude.{◌≡◌};
ghost use Rattle.mysql_wire_session.specs.Names.{kind_name};

use crate::refusal::Refusal;

/// What a packet is, at its place.
#[derive(Clone, Copy)]
pub enum PacketKind {
    Greeting,
    TlsRequest,
    Login,
    AuthSwitch,
    AuthMoreData,
    AuthAnswer,
    Ok,
    Error,
    /// How far a command has come.
    Progress,
    Eof,
    ColumnCount,
    Column,
    Row,
    BinaryRow,
    LocalInfile,
    File,
    Prepared,
    Statistics,
    BinaryLogEvent,
    Query,
    InitDatabase,
    Ping,
    Quit,
    ChangeUser,
    Prepare,
    Execute,
    LongData,
    CloseStatement,
    ResetStatement,
    Fetch,
    FieldList,
    SetOption,
    StatisticsRequest,
    ResetConnection,
    /// `COM_BINLOG_DUMP`, `COM_BINLOG_DUMP_GTID`.
    BinaryLogRequest,
    /// Another command: `COM_PROCESS_KILL`, `COM_DEBUG`, `COM_REGISTER_SLAVE`, or one that no type of
    /// packet is for.
    OtherCommand,
    /// Longer than the limit: the payload was passed over.
    TooLarge,
    /// The type of its place refuses it.
    Refused(Refusal),
}

impl PacketKind {
    /// The name that is shown.
    pub fn name(self) -> &'static str
        ensures { result.now ≡ kind_name self }
    {
        match self {
            PacketKind::Greeting => "greeting",
            PacketKind::TlsRequest => "ssl request",
            PacketKind::Login => "login",
            PacketKind::AuthSwitch => "auth switch",
            PacketKind::AuthMoreData => "auth more data",
            PacketKind::AuthAnswer => "auth answer",
            PacketKind::Ok => "ok",
            PacketKind::Error => "error",
            PacketKind::Progress => "progress",
            PacketKind::Eof => "eof",
            PacketKind::ColumnCount => "column count",
            PacketKind::Column => "column",
            PacketKind::Row => "row",
            PacketKind::BinaryRow => "binary row",
            PacketKind::LocalInfile => "local infile",
            PacketKind::File => "file",
            PacketKind::Prepared => "prepared",
            PacketKind::Statistics => "statistics text",
            PacketKind::BinaryLogEvent => "binlog event",
            PacketKind::Query => "query",
            PacketKind::InitDatabase => "init db",
            PacketKind::Ping => "ping",
            PacketKind::Quit => "quit",
            PacketKind::ChangeUser => "change user",
            PacketKind::Prepare => "prepare",
            PacketKind::Execute => "execute",
            PacketKind::LongData => "send long data",
            PacketKind::CloseStatement => "close statement",
            PacketKind::ResetStatement => "reset statement",
            PacketKind::Fetch => "fetch",
            PacketKind::FieldList => "field list",
            PacketKind::SetOption => "set option",
            PacketKind::StatisticsRequest => "statistics",
            PacketKind::ResetConnection => "reset connection",
            PacketKind::BinaryLogRequest => "binlog dump",
            PacketKind::OtherCommand => "other command",
            PacketKind::TooLarge => "too large",
            PacketKind::Refused(_) => "bytes",
        }
    }
}
