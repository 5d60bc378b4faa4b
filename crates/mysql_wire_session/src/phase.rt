//! What a session waits for.

/// How the values of rows are written.
#[derive(Clone, Copy, PartialEq, Eq)]
pub enum RowForm {
    Text,
    Binary,
    /// The command was not seen.
    Unknown,
}

/// What follows definitions of columns.
#[derive(Clone, Copy, PartialEq, Eq)]
pub enum AfterColumns {
    /// The rows.
    Rows,
    /// This many definitions of a statement's columns.
    StatementColumns(u16),
    /// The next command.
    Command,
}

/// What a session waits for.
///
/// <https://dev.mysql.com/doc/dev/mysql-server/latest/page_protocol_connection_phase.html>,
/// <https://dev.mysql.com/doc/dev/mysql-server/latest/page_protocol_command_phase.html>
#[derive(Clone, Copy, PartialEq, Eq)]
pub enum Phase {
    /// The server's first packet.
    Greeting,
    /// The client's answer to it.
    Login,
    /// What both sides send until the client is in.
    Authentication,
    /// The client's next command: the session is idle.
    Command,
    /// The first packet of an answer, which may be one with rows.
    Answer,
    /// The answer to `COM_STMT_PREPARE`.
    PrepareAnswer,
    /// The answer to `COM_SET_OPTION` and its like, which may be an EOF.
    OptionAnswer,
    /// The answer to `COM_STATISTICS`: a text.
    Statistics,
    /// The answer to `COM_FIELD_LIST`.
    FieldList,
    /// The events of a binary log.
    BinaryLog,
    /// This many definitions of columns, and what follows them.
    Columns { left: u64, after: AfterColumns },
    /// The EOF that ends definitions.
    ColumnsEnd(AfterColumns),
    Rows,
    /// A file of the client, which an empty packet ends.
    File,
    /// Nothing: the client has quit, or was refused.
    Closed,
    /// TLS, which hides the packets.
    Encrypted,
}
