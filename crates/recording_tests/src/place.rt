//! Where a payload stands in its session.

/// What is waited for.
#[derive(Clone, Copy)]
pub enum Place {
    Greeting,
    Login,
    Authentication,
    Command,
    /// The first packet of an answer.
    Answer,
    /// The first packet of the answer to `COM_STMT_PREPARE`.
    PrepareAnswer,
    /// This many definitions.
    Definitions(Defined, u64),
    DefinitionsEnd(Defined),
    /// The answer to `COM_SET_OPTION` or `COM_DEBUG`.
    Option,
    /// The answer to `COM_STATISTICS`.
    Statistics,
    Rows,
    /// A file of the client, which an empty payload ends.
    File,
    /// Nothing.
    End,
}

/// What definitions are of.
#[derive(Clone, Copy)]
pub enum Defined {
    /// The columns of rows, which follow.
    Rows,
    /// The parameters of a statement that is prepared.
    Parameters,
    /// Its columns.
    Columns,
}

/// What a payload is.
#[derive(Clone, Copy)]
pub enum Kind {
    Greeting = 0,
    Login = 1,
    Ok = 2,
    Error = 3,
    Eof = 4,
    ColumnCount = 5,
    Column = 6,
    Row = 7,
    Query = 8,
    InitDatabase = 9,
    Ping = 10,
    Quit = 11,
    ChangeUser = 12,
    LocalInfile = 13,
    AuthSwitch = 14,
    AuthAnswer = 15,
    Prepare = 16,
    Prepared = 17,
    Execute = 18,
    LongData = 19,
    ResetStatement = 20,
    CloseStatement = 21,
    BinaryRow = 22,
    /// The bytes of a file.
    File = 23,
    SetOption = 24,
    /// `COM_STATISTICS`, and the text that answers it.
    Statistics = 25,
    Fetch = 26,
    /// A report on a command that is not done yet.
    Progress = 27,
    TlsRequest = 28,
    MoreData = 29,
    FieldList = 30,
    ProcessKill = 31,
    Debug = 32,
    ResetConnection = 33,
    RegisterReplica = 34,
    BinaryLog = 35,
    /// The same by transactions.
    BinaryLogGtid = 36,
    /// What its place does not allow.
    Unexpected = 37,
}

/// How many kinds there are.
pub const KINDS: usize = 38;

/// The names of the kinds, in order.
pub const NAMES: [&str; KINDS] = [
    "greeting",
    "login",
    "ok",
    "error",
    "eof",
    "column count",
    "column",
    "row",
    "query",
    "init database",
    "ping",
    "quit",
    "change user",
    "local infile",
    "auth switch",
    "auth answer",
    "prepare",
    "prepared",
    "execute",
    "long data",
    "reset statement",
    "close statement",
    "binary row",
    "file",
    "set option",
    "statistics",
    "fetch",
    "progress",
    "ssl request",
    "auth more data",
    "field list",
    "process kill",
    "debug",
    "reset connection",
    "register replica",
    "binary log",
    "binary log by transactions",
    "unexpected",
];
