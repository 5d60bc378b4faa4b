//! What is waited for after a packet.

ghost use Rattle.std.specs.Prelude.{◌≡◌};
ghost use Rattle.mysql_wire_session.specs.Phases.{after_answer, after_columns, after_definitions, command_phase, command_rows, done_phase, ended_phase, eof_phase, error_phase, failed_phase, ok_phase, opens_cursor, past_column, server_phase, statement_columns};

use crate::packet_kind::PacketKind;
use crate::phase::{AfterColumns, Phase, RowForm};
use wire_const::{Flags, StatusFlags};

/// The definitions of a statement's columns follow, where it has some.
pub fn statement_columns(count: u16) -> Phase
    ensures { result ≡ statement_columns count }
{
    if count > 0 {
        Phase::Columns {
            left: count as u64,
            after: AfterColumns::Command,
        }
    } else {
        Phase::Command
    }
}

/// After the end of definitions.
pub fn after_definitions(after: AfterColumns) -> Phase
    ensures { result ≡ after_definitions after }
{
    match after {
        AfterColumns::Rows => Phase::Rows,
        AfterColumns::StatementColumns(count) => statement_columns(count),
        AfterColumns::Command => Phase::Command,
    }
}

/// After the last definition.
pub fn after_columns(is_eof_deprecated: bool, after: AfterColumns) -> Phase
    ensures { result ≡ after_columns is_eof_deprecated after }
{
    if is_eof_deprecated {
        after_definitions(after)
    } else {
        Phase::ColumnsEnd(after)
    }
}

/// After a definition, where one is waited for.
pub fn past_column(is_eof_deprecated: bool, phase: Phase) -> Phase
    ensures { result ≡ past_column is_eof_deprecated phase }
{
    match phase {
        Phase::Columns { left, after } if left > 1 => Phase::Columns {
            left: left - 1,
            after,
        },
        Phase::Columns { after, .. } => after_columns(is_eof_deprecated, after),
        phase => phase,
    }
}

/// After a command.
pub fn command_phase(kind: PacketKind) -> Phase
    ensures { result ≡ command_phase kind }
{
    match kind {
        PacketKind::Quit => Phase::Closed,
        PacketKind::ChangeUser => Phase::Authentication,
        PacketKind::Prepare => Phase::PrepareAnswer,
        PacketKind::LongData | PacketKind::CloseStatement => Phase::Command,
        PacketKind::Fetch => Phase::Rows,
        PacketKind::FieldList => Phase::FieldList,
        PacketKind::StatisticsRequest => Phase::Statistics,
        PacketKind::BinaryLogRequest => Phase::BinaryLog,
        PacketKind::SetOption | PacketKind::OtherCommand => Phase::OptionAnswer,
        _ => Phase::Answer,
    }
}

/// How the values of a command's rows are written.
pub fn command_rows(kind: PacketKind) -> RowForm
    ensures { result ≡ command_rows kind }
{
    match kind {
        PacketKind::Execute => RowForm::Binary,
        PacketKind::Fetch => RowForm::Unknown,
        _ => RowForm::Text,
    }
}

// After an error. A server may begin with one, and lets a client that it refuses, or that hasn't
// logged in, say no more.
fn error_phase(phase: Phase) -> Phase
    ensures { result ≡ error_phase phase }
{
    match phase {
        Phase::Greeting => Phase::Login,
        Phase::Login | Phase::Authentication => Phase::Closed,
        _ => Phase::Command,
    }
}

// After an EOF, or the OK in its phase, that is not read.
fn eof_phase(phase: Phase) -> Phase
    ensures { result ≡ eof_phase phase }
{
    match phase {
        Phase::ColumnsEnd(_) => phase,
        _ => Phase::Command,
    }
}

// After an OK that is not read: where the client authenticates itself, it is not in yet.
fn ok_phase(phase: Phase) -> Phase
    ensures { result ≡ ok_phase phase }
{
    match phase {
        Phase::Login | Phase::Authentication => Phase::Authentication,
        _ => Phase::Command,
    }
}

/// After a server's packet, whether or not its type reads it.
pub fn server_phase(kind: PacketKind, is_eof_deprecated: bool, phase: Phase) -> Phase
    ensures { result ≡ server_phase kind is_eof_deprecated phase }
{
    match kind {
        PacketKind::Greeting => Phase::Login,
        PacketKind::AuthSwitch | PacketKind::AuthMoreData => Phase::Authentication,
        PacketKind::Error => error_phase(phase),
        PacketKind::Eof => eof_phase(phase),
        PacketKind::Ok => ok_phase(phase),
        PacketKind::LocalInfile
        | PacketKind::ColumnCount
        | PacketKind::Prepared
        | PacketKind::Statistics => { Phase::Command }
        PacketKind::Column => past_column(is_eof_deprecated, phase),
        _ => phase,
    }
}

// Where an answer has ended: the status says whether another follows.
fn after_answer(status: StatusFlags) -> Phase
    ensures { result ≡ after_answer status.0 }
{
    if status.contains(StatusFlags::SERVER_MORE_RESULTS_EXISTS) {
        Phase::Answer
    } else {
        Phase::Command
    }
}

/// After an OK that was read.
pub fn done_phase(phase: Phase, status: StatusFlags) -> Phase
    ensures { result ≡ done_phase phase status.0 }
{
    match phase {
        Phase::Authentication => Phase::Command,
        _ => after_answer(status),
    }
}

// Whether a cursor that was asked for has the rows. With `SERVER_MORE_RESULTS_EXISTS` the cursor is
// one that a stored procedure has open, and the rows of this result follow.
fn opens_cursor(status: StatusFlags) -> bool
    ensures { result ≡ opens_cursor status.0 }
{
    status.contains(StatusFlags::SERVER_STATUS_CURSOR_EXISTS)
        && !status.contains(StatusFlags::SERVER_MORE_RESULTS_EXISTS)
}

/// After an EOF that was read. After the end of definitions are no rows where the command wants a
/// cursor, and the server has opened one.
pub fn ended_phase(wants_cursor: bool, phase: Phase, status: StatusFlags) -> Phase
    ensures { result ≡ ended_phase wants_cursor phase status.0 }
{
    match phase {
        Phase::ColumnsEnd(AfterColumns::Rows) if wants_cursor && opens_cursor(status) => {
            Phase::Command
        }
        Phase::ColumnsEnd(after) => after_definitions(after),
        _ => after_answer(status),
    }
}

/// After an error that was read. A server that begins with one says no more.
pub fn failed_phase(phase: Phase) -> Phase
    ensures { result ≡ failed_phase phase }
{
    match phase {
        Phase::Login => Phase::Closed,
        phase => phase,
    }
}
