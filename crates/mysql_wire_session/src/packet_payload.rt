//! Which packet of a session a payload's type makes.

ghost use Rattle.std.specs.Prelude.{◌≡◌};
ghost use Rattle.mysql_wire_session.specs.declared.client_command.ClientCommand.TheVariants as commands;
ghost use Rattle.mysql_wire_session.specs.declared.packet.Packet.{Packet};
ghost use Rattle.mysql_wire_session.specs.declared.packet.Packet.TheVariants as packets;

use crate::client_command::ClientCommand;
use crate::packet::Packet;
use mysql_wire_connection::auth_more_data::AuthMoreData;
use mysql_wire_connection::auth_switch::AuthSwitchRequest;
use mysql_wire_connection::auth_switch_response::AuthSwitchResponse;
use mysql_wire_connection::handshake::HandshakeV10;
use mysql_wire_connection::handshake_response::HandshakeResponse41;
use mysql_wire_connection::ssl_request::SslRequest;
use mysql_wire_packets::eof_packet::EofPacket;
use mysql_wire_packets::err_packet::ErrPacket;
use mysql_wire_packets::ok_packet::{OkPacket, RowsEnd};
use mysql_wire_packets::progress_report::ProgressReport;
use mysql_wire_parts::payload::Payload;
use mysql_wire_queries::column_count::ColumnCount;
use mysql_wire_queries::column_definition::ColumnDefinition41;
use mysql_wire_queries::com_query::ComQuery;
use mysql_wire_queries::com_query_attributes::ComQueryWithAttributes;
use mysql_wire_queries::local_infile::LocalInfileRequest;
use mysql_wire_statements::com_stmt_close::ComStmtClose;
use mysql_wire_statements::com_stmt_execute::ComStmtExecute;
use mysql_wire_statements::com_stmt_fetch::ComStmtFetch;
use mysql_wire_statements::com_stmt_prepare::ComStmtPrepare;
use mysql_wire_statements::com_stmt_prepare_ok::ComStmtPrepareOk;
use mysql_wire_statements::com_stmt_reset::ComStmtReset;
use mysql_wire_statements::com_stmt_send_long_data::ComStmtSendLongData;
use mysql_wire_utility::com_binlog_dump::ComBinlogDump;
use mysql_wire_utility::com_binlog_dump_gtid::ComBinlogDumpGtid;
use mysql_wire_utility::com_change_user::ComChangeUser;
use mysql_wire_utility::com_debug::ComDebug;
use mysql_wire_utility::com_field_list::ComFieldList;
use mysql_wire_utility::com_init_db::ComInitDb;
use mysql_wire_utility::com_ping::ComPing;
use mysql_wire_utility::com_process_kill::ComProcessKill;
use mysql_wire_utility::com_quit::ComQuit;
use mysql_wire_utility::com_register_slave::ComRegisterSlave;
use mysql_wire_utility::com_reset_connection::ComResetConnection;
use mysql_wire_utility::com_set_option::ComSetOption;
use mysql_wire_utility::com_statistics::{ComStatistics, StatisticsText};

/// A payload's type that one packet of a session is made of.
pub trait PacketPayload<'a>: Payload<'a> {
    ghost packet: { Self → Packet };

    /// The same as a packet of a session.
    fn into_packet(self) -> Packet<'a>
        ensures { result ≡ packet self };
}

impl<'a> PacketPayload<'a> for HandshakeV10<'a> {
    ghost packet = { packets.Greeting };

    fn into_packet(self) -> Packet<'a> {
        Packet::Greeting(self)
    }
}

impl<'a> PacketPayload<'a> for SslRequest {
    ghost packet = { packets.TlsRequest };

    fn into_packet(self) -> Packet<'a> {
        Packet::TlsRequest(self)
    }
}

impl<'a> PacketPayload<'a> for HandshakeResponse41<'a> {
    ghost packet = { packets.Login };

    fn into_packet(self) -> Packet<'a> {
        Packet::Login(self)
    }
}

impl<'a> PacketPayload<'a> for AuthSwitchRequest<'a> {
    ghost packet = { packets.AuthSwitch };

    fn into_packet(self) -> Packet<'a> {
        Packet::AuthSwitch(self)
    }
}

impl<'a> PacketPayload<'a> for AuthMoreData<'a> {
    ghost packet = { packets.AuthMoreData };

    fn into_packet(self) -> Packet<'a> {
        Packet::AuthMoreData(self)
    }
}

impl<'a> PacketPayload<'a> for AuthSwitchResponse<'a> {
    ghost packet = { packets.AuthAnswer };

    fn into_packet(self) -> Packet<'a> {
        Packet::AuthAnswer(self)
    }
}

impl<'a> PacketPayload<'a> for OkPacket<'a> {
    ghost packet = { packets.Ok };

    fn into_packet(self) -> Packet<'a> {
        Packet::Ok(self)
    }
}

impl<'a> PacketPayload<'a> for RowsEnd<'a> {
    ghost packet = { packets.RowsEnd };

    fn into_packet(self) -> Packet<'a> {
        Packet::RowsEnd(self)
    }
}

impl<'a> PacketPayload<'a> for ErrPacket<'a> {
    ghost packet = { packets.Error };

    fn into_packet(self) -> Packet<'a> {
        Packet::Error(self)
    }
}

impl<'a> PacketPayload<'a> for ProgressReport<'a> {
    ghost packet = { packets.Progress };

    fn into_packet(self) -> Packet<'a> {
        Packet::Progress(self)
    }
}

impl<'a> PacketPayload<'a> for EofPacket {
    ghost packet = { packets.Eof };

    fn into_packet(self) -> Packet<'a> {
        Packet::Eof(self)
    }
}

impl<'a> PacketPayload<'a> for ColumnCount {
    ghost packet = { packets.ColumnCount };

    fn into_packet(self) -> Packet<'a> {
        Packet::ColumnCount(self)
    }
}

impl<'a> PacketPayload<'a> for ColumnDefinition41<'a> {
    ghost packet = { packets.Column };

    fn into_packet(self) -> Packet<'a> {
        Packet::Column(self)
    }
}

impl<'a> PacketPayload<'a> for LocalInfileRequest<'a> {
    ghost packet = { packets.LocalInfile };

    fn into_packet(self) -> Packet<'a> {
        Packet::LocalInfile(self)
    }
}

impl<'a> PacketPayload<'a> for ComStmtPrepareOk {
    ghost packet = { packets.Prepared };

    fn into_packet(self) -> Packet<'a> {
        Packet::Prepared(self)
    }
}

impl<'a> PacketPayload<'a> for StatisticsText<'a> {
    ghost packet = { packets.Statistics };

    fn into_packet(self) -> Packet<'a> {
        Packet::Statistics(self)
    }
}

impl<'a> PacketPayload<'a> for ComStmtPrepare<'a> {
    ghost packet = { packets.Prepare };

    fn into_packet(self) -> Packet<'a> {
        Packet::Prepare(self)
    }
}

impl<'a> PacketPayload<'a> for ComStmtExecute<'a> {
    ghost packet = { packets.Execute };

    fn into_packet(self) -> Packet<'a> {
        Packet::Execute(self)
    }
}

impl<'a> PacketPayload<'a> for ComStmtSendLongData<'a> {
    ghost packet = { packets.LongData };

    fn into_packet(self) -> Packet<'a> {
        Packet::LongData(self)
    }
}

impl<'a> PacketPayload<'a> for ComStmtClose {
    ghost packet = { packets.CloseStatement };

    fn into_packet(self) -> Packet<'a> {
        Packet::CloseStatement(self)
    }
}

impl<'a> PacketPayload<'a> for ComStmtReset {
    ghost packet = { packets.ResetStatement };

    fn into_packet(self) -> Packet<'a> {
        Packet::ResetStatement(self)
    }
}

impl<'a> PacketPayload<'a> for ComStmtFetch {
    ghost packet = { packets.Fetch };

    fn into_packet(self) -> Packet<'a> {
        Packet::Fetch(self)
    }
}

impl<'a> PacketPayload<'a> for ComFieldList<'a> {
    ghost packet = { packets.FieldList };

    fn into_packet(self) -> Packet<'a> {
        Packet::FieldList(self)
    }
}

impl<'a> PacketPayload<'a> for ComSetOption {
    ghost packet = { packets.SetOption };

    fn into_packet(self) -> Packet<'a> {
        Packet::SetOption(self)
    }
}

impl<'a> PacketPayload<'a> for ComStatistics {
    ghost packet = { packets.StatisticsRequest };

    fn into_packet(self) -> Packet<'a> {
        Packet::StatisticsRequest(self)
    }
}

impl<'a> PacketPayload<'a> for ComResetConnection {
    ghost packet = { packets.ResetConnection };

    fn into_packet(self) -> Packet<'a> {
        Packet::ResetConnection(self)
    }
}

impl<'a> PacketPayload<'a> for ComProcessKill {
    ghost packet = { packets.ProcessKill };

    fn into_packet(self) -> Packet<'a> {
        Packet::ProcessKill(self)
    }
}

impl<'a> PacketPayload<'a> for ComDebug {
    ghost packet = { packets.Debug };

    fn into_packet(self) -> Packet<'a> {
        Packet::Debug(self)
    }
}

impl<'a> PacketPayload<'a> for ComRegisterSlave<'a> {
    ghost packet = { packets.RegisterSlave };

    fn into_packet(self) -> Packet<'a> {
        Packet::RegisterSlave(self)
    }
}

impl<'a> PacketPayload<'a> for ComBinlogDump<'a> {
    ghost packet = { packets.BinlogDump };

    fn into_packet(self) -> Packet<'a> {
        Packet::BinlogDump(self)
    }
}

impl<'a> PacketPayload<'a> for ComBinlogDumpGtid<'a> {
    ghost packet = { packets.BinlogDumpGtid };

    fn into_packet(self) -> Packet<'a> {
        Packet::BinlogDumpGtid(self)
    }
}

impl<'a> PacketPayload<'a> for ComQuit {
    ghost packet = { λ read. packets.Command (commands.Quit read) };

    fn into_packet(self) -> Packet<'a> {
        Packet::Command(ClientCommand::Quit(self))
    }
}

impl<'a> PacketPayload<'a> for ComInitDb<'a> {
    ghost packet = { λ read. packets.Command (commands.InitDb read) };

    fn into_packet(self) -> Packet<'a> {
        Packet::Command(ClientCommand::InitDb(self))
    }
}

impl<'a> PacketPayload<'a> for ComQuery<'a> {
    ghost packet = { λ read. packets.Command (commands.Query read) };

    fn into_packet(self) -> Packet<'a> {
        Packet::Command(ClientCommand::Query(self))
    }
}

impl<'a> PacketPayload<'a> for ComQueryWithAttributes<'a> {
    ghost packet = { λ read. packets.Command (commands.AttributedQuery read) };

    fn into_packet(self) -> Packet<'a> {
        Packet::Command(ClientCommand::AttributedQuery(self))
    }
}

impl<'a> PacketPayload<'a> for ComPing {
    ghost packet = { λ read. packets.Command (commands.Ping read) };

    fn into_packet(self) -> Packet<'a> {
        Packet::Command(ClientCommand::Ping(self))
    }
}

impl<'a> PacketPayload<'a> for ComChangeUser<'a> {
    ghost packet = { λ read. packets.Command (commands.ChangeUser read) };

    fn into_packet(self) -> Packet<'a> {
        Packet::Command(ClientCommand::ChangeUser(self))
    }
}
