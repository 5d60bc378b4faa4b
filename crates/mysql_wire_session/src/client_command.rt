//! What may stand where a server waits for a command.

ghost use Rattle.std.specs.Prelude.{◌≡◌, ◌∷◌, [], true, false};
ghost use Rattle.mysql_wire_parts.specs.Optional.{has_query_attributes};
ghost use Rattle.mysql_wire_parts.specs.Places.{BeginsWith, IsOther, ReadsAs};
ghost use Rattle.mysql_wire_queries.specs.Payloads.{IsAttributedQuery, IsPlainQuery};
ghost use Rattle.mysql_wire_session.specs.declared.client_command.ClientCommand.TheVariants.{Quit, InitDb, Query, AttributedQuery, Ping, ChangeUser};

use mysql_wire_packets::places::{PayloadError, read_as, read_whole};
use mysql_wire_queries::com_query::ComQuery;
use mysql_wire_queries::com_query_attributes::ComQueryWithAttributes;
use mysql_wire_utility::com_change_user::ComChangeUser;
use mysql_wire_utility::com_init_db::ComInitDb;
use mysql_wire_utility::com_ping::ComPing;
use mysql_wire_utility::com_quit::ComQuit;
use std::alloc::Global;
use wire_buf::error::WireError;
use wire_buf::proto::MyDeserialize;
use wire_const::{CapabilityFlags, Flags};

/// A client's command, of those without prepared statements.
///
/// <https://dev.mysql.com/doc/dev/mysql-server/latest/page_protocol_command_phase.html>
#[derive(Drop, Debug, PartialEq, Eq)]
pub enum ClientCommand<'a> {
    Quit(ComQuit),
    InitDb(ComInitDb<'a>),
    /// A query, without `CLIENT_QUERY_ATTRIBUTES`.
    Query(ComQuery<'a>),
    /// A query, under `CLIENT_QUERY_ATTRIBUTES`.
    AttributedQuery(ComQueryWithAttributes<'a>),
    Ping(ComPing),
    ChangeUser(ComChangeUser<'a>),
}

// The query of a payload.
fn read_query<'a>(
    alloc: Global,
    capabilities: CapabilityFlags,
    payload: &'a [u8],
) -> Result<ClientCommand<'a>, PayloadError>
    ensures plain { has_query_attributes capabilities ≡ false → ReadsAs Query
        (⟦<ComQuery<'a> as MyDeserialize<'a, Global>>⟧.reads tt) payload.entry.now result }
    ensures attributed { has_query_attributes capabilities ≡ true
        → ReadsAs AttributedQuery
        (⟦<ComQueryWithAttributes<'a> as MyDeserialize<'a, Global>>⟧.reads tt)
        payload.entry.now result }
{
    if capabilities.contains(CapabilityFlags::CLIENT_QUERY_ATTRIBUTES) {
        read_as(alloc, (), payload, ClientCommand::AttributedQuery)
    } else {
        read_as(alloc, (), payload, ClientCommand::Query)
    }
}

impl<'a> ClientCommand<'a> {
    /// Reads a payload where a command is waited for, on a connection of these capabilities. The
    /// first byte is the command's number; another number than `01`, `02`, `03`, `0e` and `11` is
    /// refused as `OtherHeader`.
    pub fn read(
        alloc: Global,
        capabilities: CapabilityFlags,
        payload: &'a [u8],
    ) -> Result<ClientCommand<'a>, PayloadError>
        ensures quit { BeginsWith 0x01 payload.entry.now → ReadsAs Quit
            (⟦<ComQuit as MyDeserialize<'a, Global>>⟧.reads tt) payload.entry.now result }
        ensures init_db { BeginsWith 0x02 payload.entry.now → ReadsAs InitDb
            (⟦<ComInitDb<'a> as MyDeserialize<'a, Global>>⟧.reads tt) payload.entry.now result }
        ensures query { IsPlainQuery capabilities payload.entry.now → ReadsAs Query
            (⟦<ComQuery<'a> as MyDeserialize<'a, Global>>⟧.reads tt) payload.entry.now result }
        ensures attributed { IsAttributedQuery capabilities payload.entry.now
            → ReadsAs AttributedQuery
            (⟦<ComQueryWithAttributes<'a> as MyDeserialize<'a, Global>>⟧.reads tt)
            payload.entry.now result }
        ensures ping { BeginsWith 0x0e payload.entry.now → ReadsAs Ping
            (⟦<ComPing as MyDeserialize<'a, Global>>⟧.reads tt) payload.entry.now result }
        ensures change_user { BeginsWith 0x11 payload.entry.now → ReadsAs ChangeUser
            (⟦<ComChangeUser<'a> as MyDeserialize<'a, Global>>⟧.reads capabilities)
            payload.entry.now result }
        ensures other { IsOther (0x01 ∷ 0x02 ∷ 0x03 ∷ 0x0e ∷ 0x11 ∷ []) payload.entry.now result }
    {
        match payload.first() {
            Some(0x01) => match read_whole::<ComQuit>(alloc, (), payload) {
                Ok(command) => Ok(ClientCommand::Quit(command)),
                Err(error) => Err(error),
            },
            Some(0x02) => read_as(alloc, (), payload, ClientCommand::InitDb),
            Some(0x03) => read_query(alloc, capabilities, payload),
            Some(0x0e) => match read_whole::<ComPing>(alloc, (), payload) {
                Ok(command) => Ok(ClientCommand::Ping(command)),
                Err(error) => Err(error),
            },
            Some(0x11) => read_as(alloc, capabilities, payload, ClientCommand::ChangeUser),
            Some(byte) => Err(PayloadError::OtherHeader(*byte)),
            None => Err(PayloadError::Refused(WireError::UnexpectedEof)),
        }
    }
}
