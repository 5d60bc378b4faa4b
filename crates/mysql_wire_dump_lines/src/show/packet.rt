//! The fields of any packet.

ghost use Rattle.std.specs.Prelude.{◌≡◌, IfOk, OnOk};
ghost use Rattle.mysql_wire_dump_lines.specs.CommandFields.{plain_fields};
ghost use Rattle.mysql_wire_dump_lines.specs.Packets.{PutsOwn, PutsPacket, PutsRowFields, WritesRowFields, is_shown_whole, packet_fields, row_kind, shown_kind};
ghost use Rattle.wire_text.specs.Fields.{Puts};

use super::{
    Show, binary_row, column_bytes, event, number_of_statement, other_command, row_bytes,
    statistics, text_row, write_text_row,
};
use mysql_wire_session::client_command::ClientCommand;
use mysql_wire_session::packet::{Packet, Received, Row};
use mysql_wire_session::packet_kind::PacketKind;
use mysql_wire_session::refusal::{Refusal, SessionError};
use std::alloc::{AllocError, Allocator, Global};
use std::io::Write;
use wire_text::fields::Fields;

fn show_command<A: Allocator + Copy>(
    fields: &mut Fields<A>,
    command: &ClientCommand<'_>,
) -> Result<(), AllocError>
    ensures { OnOk result (Puts (plain_fields command.now) fields.old fields.new) }
{
    match command {
        ClientCommand::Quit(command) => command.show(fields),
        ClientCommand::InitDb(command) => command.show(fields),
        ClientCommand::Query(command) => command.show(fields),
        ClientCommand::AttributedQuery(command) => command.show(fields),
        ClientCommand::Ping(command) => command.show(fields),
        ClientCommand::ChangeUser(command) => command.show(fields),
    }
}

// Puts the fields of a packet that is no row, whose values are known.
fn show_typed<A: Allocator + Copy>(
    fields: &mut Fields<A>,
    packet: &Packet<'_>,
) -> Result<(), AllocError>
    ensures { OnOk result (Puts (packet_fields packet.now) fields.old fields.new) }
{
    match packet {
        Packet::Greeting(greeting) => greeting.show(fields),
        Packet::TlsRequest(request) => request.show(fields),
        Packet::Login(login) => login.show(fields),
        Packet::AuthSwitch(switch) => switch.show(fields),
        Packet::AuthMoreData(data) => data.show(fields),
        Packet::AuthAnswer(answer) => answer.show(fields),
        Packet::Ok(ok) => ok.show(fields),
        Packet::RowsEnd(ok) => ok.show(fields),
        Packet::Error(error) => error.show(fields),
        Packet::Progress(report) => report.show(fields),
        Packet::Eof(eof) => eof.show(fields),
        Packet::ColumnCount(count) => count.show(fields),
        Packet::Column(column) => column.show(fields),
        Packet::TableColumn(column) => column_bytes(fields, column),
        Packet::LocalInfile(request) => request.show(fields),
        Packet::Prepared(statement) => statement.show(fields),
        Packet::Statistics(statistics_text) => {
            statistics(fields, statistics_text.text.0.as_slice())
        }
        Packet::BinaryLogEvent(payload) => event(fields, payload),
        Packet::Command(command) => show_command(fields, command),
        Packet::Prepare(command) => command.show(fields),
        Packet::Execute(command) => command.show(fields),
        Packet::ExecuteUnknown(number) => number_of_statement(fields, *number),
        Packet::LongData(command) => command.show(fields),
        Packet::CloseStatement(command) => command.show(fields),
        Packet::ResetStatement(command) => command.show(fields),
        Packet::Fetch(command) => command.show(fields),
        Packet::OtherCommand(payload) => other_command(fields, payload),
        Packet::FieldList(_)
        | Packet::SetOption(_)
        | Packet::StatisticsRequest(_)
        | Packet::ResetConnection(_)
        | Packet::ProcessKill(_)
        | Packet::Debug(_)
        | Packet::RegisterSlave(_)
        | Packet::BinlogDump(_)
        | Packet::BinlogDumpGtid(_)
        | Packet::Row(_)
        | Packet::File(_)
        | Packet::TooLarge
        | Packet::Refused(_) => Ok(()),
    }
}

// The kind of a row, of which a value may be refused.
fn row_kind(kind: PacketKind, refusal: Option<Refusal>) -> PacketKind
    ensures { result ≡ row_kind kind refusal }
{
    match refusal {
        None => kind,
        Some(refusal) => PacketKind::Refused(refusal),
    }
}

// What a packet of this kind is shown as.
fn shown_kind(kind: PacketKind, packet: &Packet<'_>) -> PacketKind
    ensures { result ≡ shown_kind kind packet.now }
{
    match packet {
        Packet::Refused(refusal) => PacketKind::Refused(*refusal),
        _ => kind,
    }
}

/// Puts the fields of a row of this kind, under these types of its columns. The answer is what it is
/// shown as: a row with a value that is refused as `Refused`. With `global` values are read, which
/// takes no memory.
#[inline(always)]
pub fn show_row<A: Allocator + Copy>(
    global: Global,
    fields: &mut Fields<A>,
    types: &[u8],
    kind: PacketKind,
    row: &Row<'_>,
) -> Result<PacketKind, SessionError>
    ensures { IfOk result (PutsRowFields types.now kind row.now fields.old fields.new) }
{
    match row {
        Row::Text { columns, values } => {
            let refusal = text_row(global, fields, *columns, values)?;
            Ok(row_kind(kind, refusal))
        }
        Row::Binary { columns, row } => {
            let refusal = binary_row(global, fields, *columns, types, row)?;
            Ok(row_kind(kind, refusal))
        }
        Row::Unread(payload) => {
            row_bytes(fields, payload)?;
            Ok(kind)
        }
        Row::Refused(refusal) => Ok(PacketKind::Refused(*refusal)),
    }
}

/// The same of a row that may have long texts: all but an end of what was put may be written.
pub fn write_row<A: Allocator + Copy, W: Write>(
    global: Global,
    fields: &mut Fields<A>,
    types: &[u8],
    kind: PacketKind,
    row: &Row<'_>,
    output: &mut W,
) -> Result<PacketKind, SessionError>
    ensures { IfOk result (WritesRowFields types.now kind row.now fields.old fields.new
        (W.contents output.old) (W.contents output.new)) }
{
    match row {
        Row::Text { columns, values } => {
            let refusal = write_text_row(fields, *columns, values, output)?;
            Ok(row_kind(kind, refusal))
        }
        _ => show_row(global, fields, types, kind, row),
    }
}

// Puts the fields of what a packet of this kind is read as.
fn show_own<A: Allocator + Copy>(
    global: Global,
    fields: &mut Fields<A>,
    types: &[u8],
    kind: PacketKind,
    packet: &Packet<'_>,
) -> Result<PacketKind, SessionError>
    ensures { IfOk result (PutsOwn types.now kind packet.now fields.old fields.new) }
{
    match packet {
        Packet::Row(row) => show_row(global, fields, types, kind, row),
        _ => {
            show_typed(fields, packet)?;
            Ok(shown_kind(kind, packet))
        }
    }
}

// Whether packets of this kind are shown as they came, whatever they are read as.
fn is_shown_whole(kind: PacketKind) -> bool
    ensures { result ≡ is_shown_whole kind }
{
    matches!(
        kind,
        PacketKind::FieldList
            | PacketKind::SetOption
            | PacketKind::StatisticsRequest
            | PacketKind::ResetConnection
            | PacketKind::BinaryLogRequest
            | PacketKind::OtherCommand
    )
}

/// Puts the fields of a packet that came, a row's under these types of its columns. The answer is what
/// it is shown as: a payload that its type refuses, and a row with a value that is refused, as
/// `Refused`. A command about the connection or the server is shown as it came. With `global` values
/// are read, which takes no memory.
pub fn show_packet<A: Allocator + Copy>(
    global: Global,
    fields: &mut Fields<A>,
    types: &[u8],
    received: &Received<'_>,
) -> Result<PacketKind, SessionError>
    ensures { IfOk result (PutsPacket types.now received.now.kind received.now.payload.now
        received.now.packet fields.old fields.new) }
{
    if is_shown_whole(received.kind) {
        other_command(fields, received.payload)?;
        Ok(received.kind)
    } else {
        show_own(global, fields, types, received.kind, &received.packet)
    }
}
