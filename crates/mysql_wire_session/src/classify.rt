//! What a packet is, by its phase, its first byte and its length.

ghost use Rattle.std.specs.Prelude.{◌≡◌};
ghost use Rattle.mysql_wire_parts.specs.Places.{is_short};
ghost use Rattle.mysql_wire_session.specs.Kinds.{answer_kind, asks_for_cursor, client_kind, column_kind, columns_end_kind, command_kind, empty_kind, event_kind, field_kind, first_byte, greeting_kind, is_command, is_report, kind_by_front, option_kind, outcome_kind, prepare_kind, row_kind, server_kind, statistics_kind, values_kind};

use crate::packet_kind::PacketKind;
use crate::phase::{AfterColumns, Phase, RowForm};
use crate::refusal::Refusal;
use crate::side::Side;
use wire_const::{CursorType, Flags};

/// What a session knows of the next packet: its phase, the id that follows the last packet's, whether
/// rows end without an EOF after the definitions of columns, and how their values are written.
#[derive(Clone, Copy)]
pub struct Expectation {
    pub phase: Phase,
    pub next_id: u8,
    pub is_eof_deprecated: bool,
    pub row_form: RowForm,
}

/// The first byte of a payload, where it has one.
pub fn first_byte(payload: &[u8]) -> Option<u8>
    ensures { result ≡ first_byte payload.now }
{
    match payload {
        [] => None,
        [byte, ..] => Some(*byte),
    }
}

/// Whether a `COM_STMT_EXECUTE` asks for a cursor: `CURSOR_TYPE_READ_ONLY`, the one type that servers
/// have, is among its flags. Of the payload its first six bytes are looked at.
pub fn asks_for_cursor(payload: &[u8]) -> bool
    ensures { result ≡ asks_for_cursor payload.now }
{
    match payload {
        [_, _, _, _, _, flags, ..] => {
            CursorType::from_bits_retain(*flags).contains(CursorType::CURSOR_TYPE_READ_ONLY)
        }
        _ => false,
    }
}

// Whether it is the error 65535, which says how far a command has come.
fn is_report(payload: &[u8]) -> bool
    ensures { result ≡ is_report payload.now }
{
    payload.starts_with(&[0xff, 0xff, 0xff])
}

// The command of this number.
fn command_kind(number: u8) -> PacketKind
    ensures { result ≡ command_kind number }
{
    match number {
        0x01 => PacketKind::Quit,
        0x02 => PacketKind::InitDatabase,
        0x03 => PacketKind::Query,
        0x04 => PacketKind::FieldList,
        0x09 => PacketKind::StatisticsRequest,
        0x0e => PacketKind::Ping,
        0x11 => PacketKind::ChangeUser,
        0x12 => PacketKind::BinaryLogRequest,
        0x16 => PacketKind::Prepare,
        0x17 => PacketKind::Execute,
        0x18 => PacketKind::LongData,
        0x19 => PacketKind::CloseStatement,
        0x1a => PacketKind::ResetStatement,
        0x1b => PacketKind::SetOption,
        0x1c => PacketKind::Fetch,
        0x1e => PacketKind::BinaryLogRequest,
        0x1f => PacketKind::ResetConnection,
        _ => PacketKind::OtherCommand,
    }
}

/// Whether a client's packet of this id begins a command: it is numbered 0, and is none of the pieces
/// of a file, of which the ids go on after 255.
pub fn is_command(phase: Phase, next_id: u8, id: u8) -> bool
    ensures { result ≡ is_command phase next_id id }
{
    match phase {
        Phase::File => id == 0 && next_id != 0,
        _ => id == 0,
    }
}

// A client's packet.
fn client_kind(expected: Expectation, id: u8, first: Option<u8>, len: usize) -> PacketKind
    ensures { result ≡ client_kind expected id first len }
{
    if is_command(expected.phase, expected.next_id, id) {
        return match first {
            Some(number) => command_kind(number),
            None => PacketKind::Refused(Refusal::UnexpectedEnd),
        };
    }
    match expected.phase {
        Phase::Greeting | Phase::Login => {
            if len == 32 {
                PacketKind::TlsRequest
            } else {
                PacketKind::Login
            }
        }
        Phase::Authentication => PacketKind::AuthAnswer,
        Phase::Command
        | Phase::Answer
        | Phase::PrepareAnswer
        | Phase::OptionAnswer
        | Phase::Statistics
        | Phase::FieldList
        | Phase::BinaryLog
        | Phase::Columns { .. }
        | Phase::ColumnsEnd(_)
        | Phase::Rows
        | Phase::File
        | Phase::Closed
        | Phase::Encrypted => PacketKind::File,
    }
}

// What a server says first.
fn greeting_kind(first: u8) -> PacketKind
    ensures { result ≡ greeting_kind first }
{
    match first {
        0x0a => PacketKind::Greeting,
        0xff => PacketKind::Error,
        _ => PacketKind::Refused(Refusal::OtherHeader),
    }
}

// What it says while the client authenticates itself.
fn outcome_kind(first: u8) -> PacketKind
    ensures { result ≡ outcome_kind first }
{
    match first {
        0x00 => PacketKind::Ok,
        0x01 => PacketKind::AuthMoreData,
        0xfe => PacketKind::AuthSwitch,
        0xff => PacketKind::Error,
        _ => PacketKind::Refused(Refusal::OtherHeader),
    }
}

// The first packet of an answer. Where the command was not seen, 12 bytes answer a
// `COM_STMT_PREPARE`.
fn answer_kind(row_form: RowForm, first: u8, len: usize) -> PacketKind
    ensures { result ≡ answer_kind row_form first len }
{
    match first {
        0x00 => match row_form {
            RowForm::Unknown => {
                if len == 12 {
                    PacketKind::Prepared
                } else {
                    PacketKind::Ok
                }
            }
            RowForm::Text | RowForm::Binary => PacketKind::Ok,
        },
        0xfb => PacketKind::LocalInfile,
        0xff => PacketKind::Error,
        _ => PacketKind::ColumnCount,
    }
}

// The answer to `COM_STMT_PREPARE`.
fn prepare_kind(first: u8) -> PacketKind
    ensures { result ≡ prepare_kind first }
{
    match first {
        0x00 => PacketKind::Prepared,
        0xff => PacketKind::Error,
        _ => PacketKind::Refused(Refusal::OtherHeader),
    }
}

// The answer to `COM_SET_OPTION` and its like.
fn option_kind(first: u8, len: usize) -> PacketKind
    ensures { result ≡ option_kind first len }
{
    if first == 0xfe {
        PacketKind::Eof
    } else {
        answer_kind(RowForm::Text, first, len)
    }
}

// The answer to `COM_STATISTICS`.
fn statistics_kind(first: u8) -> PacketKind
    ensures { result ≡ statistics_kind first }
{
    if first == 0xff {
        PacketKind::Error
    } else {
        PacketKind::Statistics
    }
}

// Whether a packet of this length that begins with `fe` is an end: it is shorter than 9 bytes, or,
// where EOFs are deprecated, than a full chunk.
fn is_end(is_eof_deprecated: bool, len: usize) -> bool
    ensures { result ≡ is_short is_eof_deprecated len }
{
    if is_eof_deprecated {
        len < 0xff_ffff
    } else {
        len < 9
    }
}

// One of the columns of a table, or what ends them.
fn field_kind(is_eof_deprecated: bool, first: u8, len: usize) -> PacketKind
    ensures { result ≡ field_kind is_eof_deprecated first len }
{
    if first == 0xff {
        PacketKind::Error
    } else if first == 0xfe && is_end(is_eof_deprecated, len) {
        PacketKind::Eof
    } else {
        PacketKind::Column
    }
}

// What a binary log has.
fn event_kind(first: u8) -> PacketKind
    ensures { result ≡ event_kind first }
{
    match first {
        0x00 => PacketKind::BinaryLogEvent,
        0xfe => PacketKind::Eof,
        0xff => PacketKind::Error,
        _ => PacketKind::Refused(Refusal::OtherHeader),
    }
}

// Where a definition of a column is waited for.
fn column_kind(first: u8) -> PacketKind
    ensures { result ≡ column_kind first }
{
    if first == 0xff {
        PacketKind::Error
    } else {
        PacketKind::Column
    }
}

// A row whose values are written so.
fn values_kind(row_form: RowForm) -> PacketKind
    ensures { result ≡ values_kind row_form }
{
    match row_form {
        RowForm::Binary => PacketKind::BinaryRow,
        RowForm::Text | RowForm::Unknown => PacketKind::Row,
    }
}

// Where a row is waited for.
fn row_kind(row_form: RowForm, is_eof_deprecated: bool, first: u8, len: usize) -> PacketKind
    ensures { result ≡ row_kind row_form is_eof_deprecated first len }
{
    if first == 0xff {
        PacketKind::Error
    } else if first == 0xfe && is_end(is_eof_deprecated, len) {
        PacketKind::Eof
    } else {
        values_kind(row_form)
    }
}

// Where the EOF after definitions is waited for. Where it is none, the client wants
// none, which a server's packets alone do not say before.
fn columns_end_kind(after: AfterColumns, row_form: RowForm, first: u8, len: usize) -> PacketKind
    ensures { result ≡ columns_end_kind after row_form first len }
{
    if first == 0xfe && len == 5 {
        return PacketKind::Eof;
    }
    match after {
        AfterColumns::Rows => row_kind(row_form, true, first, len),
        AfterColumns::StatementColumns(_) => column_kind(first),
        AfterColumns::Command => answer_kind(RowForm::Unknown, first, len),
    }
}

// An empty packet of a server.
fn empty_kind(phase: Phase, row_form: RowForm) -> PacketKind
    ensures { result ≡ empty_kind phase row_form }
{
    match phase {
        Phase::Rows => values_kind(row_form),
        Phase::Statistics => PacketKind::Statistics,
        Phase::Greeting
        | Phase::Login
        | Phase::Authentication
        | Phase::Command
        | Phase::Answer
        | Phase::PrepareAnswer
        | Phase::OptionAnswer
        | Phase::FieldList
        | Phase::BinaryLog
        | Phase::Columns { .. }
        | Phase::ColumnsEnd(_)
        | Phase::File
        | Phase::Closed
        | Phase::Encrypted => PacketKind::Refused(Refusal::UnexpectedEnd),
    }
}

// A server's packet that is not empty.
fn server_kind(expected: Expectation, id: u8, first: u8, len: usize) -> PacketKind
    ensures { result ≡ server_kind expected id first len }
{
    match expected.phase {
        Phase::Greeting => {
            if id == 0 {
                greeting_kind(first)
            } else {
                answer_kind(RowForm::Unknown, first, len)
            }
        }
        Phase::Login | Phase::Authentication => outcome_kind(first),
        Phase::Answer | Phase::File => answer_kind(expected.row_form, first, len),
        Phase::PrepareAnswer => prepare_kind(first),
        Phase::OptionAnswer => option_kind(first, len),
        Phase::Statistics => statistics_kind(first),
        Phase::FieldList => field_kind(expected.is_eof_deprecated, first, len),
        Phase::BinaryLog => event_kind(first),
        Phase::Columns { .. } => column_kind(first),
        Phase::ColumnsEnd(after) => columns_end_kind(after, expected.row_form, first, len),
        Phase::Rows => row_kind(expected.row_form, expected.is_eof_deprecated, first, len),
        Phase::Command | Phase::Closed | Phase::Encrypted => {
            answer_kind(RowForm::Unknown, first, len)
        }
    }
}

/// What a packet of this length is, whose first chunk bears this id, by the front of its payload: the
/// first three bytes or more, or all.
pub fn kind_by_front(
    expected: Expectation,
    side: Side,
    id: u8,
    len: usize,
    front: &[u8],
) -> PacketKind
    ensures { result ≡ kind_by_front expected side id len front.now }
{
    let first = first_byte(front);
    match side {
        Side::Client => client_kind(expected, id, first, len),
        Side::Server => {
            if is_report(front) {
                return PacketKind::Progress;
            }
            match first {
                Some(first) => server_kind(expected, id, first, len),
                None => empty_kind(expected.phase, expected.row_form),
            }
        }
    }
}
