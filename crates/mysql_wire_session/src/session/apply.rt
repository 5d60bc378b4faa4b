//! How a session goes on after a packet.

ghost use Rattle.std.specs.Prelude.{◌≡◌, ◌<◌, IfErr, OnErr, OnOk, length};
ghost use Rattle.mysql_wire_session.specs.Advance.{IsRefusedMemory, after_login, answered, applied, asked, client_state_after, fetched, mariadb_of, noted, opened, remembered, state_after, without_eof};
ghost use Rattle.mysql_wire_session.specs.State.{state_of, statement_of};
ghost use Rattle.mysql_wire_session.specs.declared.refusal.SessionError.TheVariants.{OutOfMemory};

use super::Session;
use super::phases::{counted_phase, prepared_phase};
use crate::classify::asks_for_cursor;
use crate::next_phase::{
    after_definitions, command_phase, command_rows, done_phase, ended_phase, failed_phase,
    server_phase,
};
use crate::packet::Packet;
use crate::packet_kind::PacketKind;
use crate::phase::{Phase, RowForm};
use crate::refusal::SessionError;
use crate::side::Side;
use mysql_wire_connection::handshake_response::HandshakeResponse41;
use mysql_wire_statements::com_stmt_fetch::ComStmtFetch;
use std::alloc::Allocator;
use wire_const::{CapabilityFlags, Flags, MariadbCapabilities, StatusFlags};

// How many columns' types are kept, at most: as many as a table may have.
const MOST_COLUMNS: usize = 4096;

// What a client can do of MariaDB, which it says where it doesn't set `CLIENT_LONG_PASSWORD`.
fn mariadb_of(
    login: &HandshakeResponse41<'_>,
    capabilities: CapabilityFlags,
    before: MariadbCapabilities,
) -> MariadbCapabilities
    ensures { result ≡ mariadb_of capabilities.0 login.now.mariadb_capabilities.0 before }
{
    if capabilities.contains(CapabilityFlags::CLIENT_LONG_PASSWORD) {
        before
    } else {
        MariadbCapabilities::from_bits_retain(login.mariadb_capabilities.0)
    }
}

// Keeps the type of one more column.
fn note_type<A: Allocator>(types: &mut Vec<u8, A>, number: u8) -> Result<(), SessionError>
    ensures keeps { OnOk result (types.new.items ≡ noted number types.old.items) }
    ensures fails { IfErr result (λ error. (length types.old.items < 4096)
        × (error ≡ OutOfMemory)) }
    ensures stays { OnErr result (types.new.items ≡ types.old.items) }
{
    if types.len() < MOST_COLUMNS {
        types.push(number)?;
    }
    Ok(())
}

impl<A: Allocator + Copy> Session<A> {
    // Keeps what takes memory: the type of a column, a statement.
    pub(super) fn remember(&mut self, packet: &Packet<'_>) -> Result<(), SessionError>
        ensures keeps { OnOk result (state_of self.new
            ≡ remembered packet.now (state_of self.old)) }
        ensures fails { IfErr result (IsRefusedMemory packet.now (state_of self.old)) }
        ensures stays { OnErr result (state_of self.new ≡ state_of self.old) }
    {
        match packet {
            Packet::Column(column) => note_type(&mut self.types, column.column_type.0),
            Packet::ColumnCount(_) => {
                self.types.clear();
                Ok(())
            }
            Packet::Prepared(statement) => {
                self.statements.put(*statement)?;
                self.types.clear();
                Ok(())
            }
            _ => Ok(()),
        }
    }

    // Where no EOF follows definitions, the client wants none.
    fn skip_columns_end(&mut self)
        ensures { state_of self.new ≡ without_eof self.old.phase (state_of self.old) }
    {
        if let Phase::ColumnsEnd(after) = self.phase {
            self.is_eof_deprecated = true;
            self.phase = after_definitions(after);
        }
    }

    // A packet of this kind may stand where that EOF would.
    pub(super) fn open(&mut self, kind: PacketKind, len: usize)
        ensures { state_of self.new ≡ opened kind len (state_of self.old) }
    {
        match kind {
            PacketKind::Column | PacketKind::Row | PacketKind::BinaryRow => {
                self.skip_columns_end();
            }
            PacketKind::Eof if len != 5 => self.skip_columns_end(),
            _ => {}
        }
    }

    // Goes on after a client's packet, whether or not its type reads it.
    fn go_on_after_client(&mut self, kind: PacketKind, len: usize)
        ensures { state_of self.new ≡ client_state_after kind len (state_of self.old) }
    {
        match kind {
            PacketKind::TlsRequest | PacketKind::Login => self.phase = Phase::Authentication,
            PacketKind::AuthAnswer => {}
            PacketKind::File => {
                if len == 0 {
                    self.phase = Phase::Answer;
                }
            }
            _ => {
                self.phase = command_phase(kind);
                self.row_form = command_rows(kind);
                self.wants_cursor = false;
            }
        }
    }

    // An execution says whether it asks for a cursor, in its first six bytes.
    pub(super) fn note_cursor(&mut self, kind: PacketKind, payload: &[u8])
        ensures { state_of self.new ≡ asked kind payload.now (state_of self.old) }
    {
        if let PacketKind::Execute = kind {
            self.wants_cursor = asks_for_cursor(payload);
        }
    }

    // Goes on after a packet, whether or not its type reads it. A server's row says no more.
    pub(super) fn go_on(&mut self, side: Side, kind: PacketKind, len: usize)
        ensures { state_of self.new ≡ state_after side kind len (state_of self.old) }
    {
        match (side, kind) {
            (Side::Server, PacketKind::Row | PacketKind::BinaryRow) => {}
            _ => self.go_on_by_kind(side, kind, len),
        }
    }

    // The same of any packet.
    #[inline(never)]
    fn go_on_by_kind(&mut self, side: Side, kind: PacketKind, len: usize)
        ensures { state_of self.new ≡ state_after side kind len (state_of self.old) }
    {
        match side {
            Side::Client => self.go_on_after_client(kind, len),
            Side::Server => {
                self.phase = server_phase(kind, self.is_eof_deprecated, self.phase);
            }
        }
    }

    // What a client can do, and wants, from its answer on.
    fn log_in(&mut self, login: &HandshakeResponse41<'_>)
        ensures { state_of self.new ≡ after_login login.now (state_of self.old) }
    {
        let capabilities = CapabilityFlags::from_bits_retain(login.client_flag.0);
        self.is_eof_deprecated = capabilities.contains(CapabilityFlags::CLIENT_DEPRECATE_EOF);
        self.mariadb = mariadb_of(login, capabilities, self.mariadb);
        self.capabilities = capabilities;
    }

    // The rows of a statement. Their types are those of the definitions that came last, where there
    // are as many.
    fn fetch(&mut self, fetch: &ComStmtFetch)
        ensures { state_of self.new ≡ fetched
            (statement_of fetch.now.statement_id self.old.statements.known.items)
            (state_of self.old) }
    {
        if let Some(statement) = self.statements.get(fetch.statement_id) {
            let columns = statement.num_columns;
            self.row_form = RowForm::Binary;
            self.columns = columns as u64;
        }
    }

    // An OK, or the one in the place of an EOF, told this status.
    fn end_answer(&mut self, status: u16)
        ensures { state_of self.new ≡ answered status (state_of self.old) }
    {
        let status = StatusFlags::from_bits_retain(status);
        self.phase = done_phase(self.phase, status);
        self.status = status;
    }

    // Does to the session what the packet says, but for what takes memory.
    pub(super) fn apply(&mut self, packet: &Packet<'_>)
        ensures { state_of self.new ≡ applied packet.now (state_of self.old) }
    {
        match packet {
            Packet::TlsRequest(_) => self.phase = Phase::Encrypted,
            Packet::Login(login) => self.log_in(login),
            Packet::Ok(ok) => self.end_answer(ok.status_flags.0),
            Packet::RowsEnd(ok) => self.end_answer(ok.status_flags.0),
            Packet::Eof(eof) => {
                let status = StatusFlags::from_bits_retain(eof.status_flags.0);
                self.phase = ended_phase(self.wants_cursor, self.phase, status);
                self.status = status;
            }
            Packet::Error(_) => self.phase = failed_phase(self.phase),
            Packet::LocalInfile(_) => self.phase = Phase::File,
            Packet::ColumnCount(count) => {
                self.phase = counted_phase(self.is_eof_deprecated, count);
                self.columns = count.column_count;
            }
            Packet::Prepared(statement) => self.phase = prepared_phase(statement),
            Packet::Fetch(fetch) => self.fetch(fetch),
            _ => {}
        }
    }
}
