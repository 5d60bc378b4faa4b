//! A session, packet by packet: what each is in its phase, and the phase after it.

mod apply;
mod front;
mod phases;
mod read;

ghost use Rattle.std.specs.Prelude.{◌≡◌, IfErr, IfOk, OnErr, OnOk, length, option_copied};
ghost use Rattle.mysql_wire_session.specs.Advance.{IsRefusedMemory, id_after};
ghost use Rattle.mysql_wire_session.specs.Kinds.{kind_by_front};
ghost use Rattle.mysql_wire_session.specs.Readings.{Fails, Receives, advanced, after_kind, passed};
ghost use Rattle.mysql_wire_session.specs.Senders.{is_idle, next_sender};
ghost use Rattle.mysql_wire_session.specs.State.{expectation_of, initial_state, state_of, statement_of};

use crate::classify::{Expectation, is_command, kind_by_front};
use crate::next_phase::past_column;
use crate::packet::Received;
use crate::packet_kind::PacketKind;
use crate::phase::{Phase, RowForm};
use crate::refusal::SessionError;
use crate::side::{Sender, Side};
use crate::statements::Statements;
pub use front::FrontError;
use mysql_wire_statements::com_stmt_prepare_ok::ComStmtPrepareOk;
use std::alloc::{Allocator, Global};
use std::mem::ManuallyDrop;
use wire_buf::lengths::MAX_PAYLOAD_LEN;
use wire_const::{CapabilityFlags, Flags, MariadbCapabilities, StatusFlags};

// The id that follows a packet of this length, whose first chunk bears this id.
fn id_after(id: u8, len: usize) -> u8
    ensures { result ≡ id_after id len }
{
    if len < MAX_PAYLOAD_LEN {
        return id.wrapping_add(1);
    }
    ((id as usize + len / MAX_PAYLOAD_LEN + 1) % 256) as u8
}

/// Gives up a packet that `Session::read` gave. It owns no memory, so that there is nothing to drop.
pub fn forget(received: Received<'_>) {
    // (as `mem::forget`, but that it names no destructor, for which one would be proved)
    let _given_up = unsafe { ManuallyDrop::new_unchecked(received) };
}

/// What both sides of a connection have sent so far, as far as it says what comes next.
#[derive(Drop)]
pub struct Session<A: Allocator + Copy = Global> {
    // Packets are read with it, which takes no memory.
    global: Global,
    phase: Phase,
    // The id that follows the last packet's.
    next_id: u8,
    is_eof_deprecated: bool,
    row_form: RowForm,
    // The last command is an execution that asks for a cursor.
    wants_cursor: bool,
    capabilities: CapabilityFlags,
    mariadb: MariadbCapabilities,
    status: StatusFlags,
    columns: u64,
    types: Vec<u8, A>,
    statements: Statements<A>,
}

impl<A: Allocator + Copy> Session<A> {
    /// A session that begins. Until the client has said what it can do, `CLIENT_PROTOCOL_41` alone
    /// is taken to be in force. Packets are read with `global`, which takes no memory.
    pub fn new(alloc: A, global: Global) -> Self
        ensures { state_of result ≡ initial_state }
    {
        Session {
            global,
            phase: Phase::Greeting,
            next_id: 0,
            is_eof_deprecated: false,
            row_form: RowForm::Unknown,
            wants_cursor: false,
            capabilities: CapabilityFlags::CLIENT_PROTOCOL_41,
            mariadb: MariadbCapabilities::empty(),
            status: StatusFlags::empty(),
            columns: 0,
            types: Vec::new(alloc),
            statements: Statements::new(alloc),
        }
    }

    /// What is waited for.
    pub fn phase(&self) -> Phase
        ensures { result ≡ self.now.phase }
    {
        self.phase
    }

    /// Whose packet is next.
    pub fn next_sender(&self) -> Sender
        ensures { result ≡ next_sender self.now.phase }
    {
        match self.phase {
            Phase::Login | Phase::Command | Phase::File => Sender::Client,
            Phase::Authentication | Phase::Closed | Phase::Encrypted => Sender::Either,
            Phase::Greeting
            | Phase::Answer
            | Phase::PrepareAnswer
            | Phase::OptionAnswer
            | Phase::Statistics
            | Phase::FieldList
            | Phase::BinaryLog
            | Phase::Columns { .. }
            | Phase::ColumnsEnd(_)
            | Phase::Rows => Sender::Server,
        }
    }

    /// Whether a command is waited for: a pool may hand the connection on.
    pub fn is_idle(&self) -> bool
        ensures { result ≡ is_idle self.now.phase }
    {
        self.phase == Phase::Command
    }

    /// What the client can do, by its login.
    pub fn capabilities(&self) -> CapabilityFlags
        ensures { result ≡ self.now.capabilities }
    {
        self.capabilities
    }

    /// What the last OK or EOF told: whether a transaction is open, say. No flag before the first.
    pub fn status(&self) -> StatusFlags
        ensures { result ≡ self.now.status }
    {
        self.status
    }

    /// The types of the last answer's columns, as far as their definitions have come: 4,096 at most.
    pub fn column_types(&self) -> &[u8]
        ensures { result.now ≡ self.now.types.items }
    {
        self.types.as_slice()
    }

    /// The newest statement of this number, of the last 64 that were prepared.
    pub fn statement(&self, number: u32) -> Option<&ComStmtPrepareOk>
        ensures { option_copied result ≡ statement_of number self.now.statements.known.items }
    {
        self.statements.get(number)
    }

    /// The id that follows the last packet's.
    pub fn next_id(&self) -> u8
        ensures { result ≡ self.now.next_id }
    {
        self.next_id
    }

    // What is known of the next packet.
    fn expectation(&self) -> Expectation
        ensures { result ≡ expectation_of (state_of self.now) }
    {
        Expectation {
            phase: self.phase,
            next_id: self.next_id,
            is_eof_deprecated: self.is_eof_deprecated,
            row_form: self.row_form,
        }
    }

    // What any packet is.
    #[inline(never)]
    fn classify_any(&self, side: Side, id: u8, len: usize, front: &[u8]) -> PacketKind
        ensures { result ≡ kind_by_front (expectation_of (state_of self.now)) side id len front.now }
    {
        kind_by_front(self.expectation(), side, id, len, front)
    }

    /// What a packet is, whose payload has this length and front, and whose first chunk bears this
    /// id. The front is the first three bytes or more, or the whole payload.
    pub fn classify(&self, side: Side, id: u8, len: usize, front: &[u8]) -> PacketKind
        ensures { result ≡ kind_by_front (expectation_of (state_of self.now)) side id len front.now }
    {
        // A row, of which there are many, is known by its first byte.
        match (side, self.phase, front) {
            (Side::Server, Phase::Rows, [first, ..]) if *first < 0xfe => match self.row_form {
                RowForm::Binary => PacketKind::BinaryRow,
                RowForm::Text | RowForm::Unknown => PacketKind::Row,
            },
            _ => self.classify_any(side, id, len, front),
        }
    }

    /// What a packet is read as, whose first chunk bears this id. The session is as before; `advance`
    /// goes on after it. There is a `SessionError` only where the type of its kind answers one: that
    /// memory was refused, or that its reader failed.
    pub fn read<'a>(
        &self,
        side: Side,
        id: u8,
        payload: &'a [u8],
    ) -> Result<Received<'a>, SessionError>
        ensures receives { IfOk result (Receives side id payload.entry.now (state_of self.now)) }
        ensures fails { IfErr result (Fails side id payload.entry.now (state_of self.now)) }
    {
        let kind = self.classify(side, id, payload.len(), payload);
        match self.read_packet(kind, self.opened(kind, payload.len()), payload) {
            Ok(packet) => Ok(Received {
                side,
                id,
                kind,
                payload,
                packet,
            }),
            Err(error) => Err(error),
        }
    }

    /// Goes on after a packet that was read. Only the type of a column, up to 4,096 of an answer, and
    /// a statement that was prepared take memory. Where it is refused, that is `OutOfMemory`, and the
    /// session is as before.
    pub fn advance(&mut self, received: &Received<'_>) -> Result<(), SessionError>
        ensures goes { OnOk result (state_of self.new
            ≡ advanced received.now (state_of self.old)) }
        ensures fails { IfErr result (IsRefusedMemory received.now.packet (state_of self.old)) }
        ensures stays { OnErr result (state_of self.new ≡ state_of self.old) }
    {
        self.remember(&received.packet)?;
        let len = received.payload.len();
        self.open(received.kind, len);
        self.go_on(received.side, received.kind, len);
        self.note_cursor(received.kind, received.payload);
        self.apply(&received.packet);
        self.next_id = id_after(received.id, len);
        Ok(())
    }

    /// Goes on after a packet of this kind and length that says no more of the session, as a row
    /// does.
    pub fn advance_by_kind(&mut self, side: Side, id: u8, kind: PacketKind, len: usize)
        ensures { state_of self.new ≡ after_kind side id kind len (state_of self.old) }
    {
        self.open(kind, len);
        self.go_on(side, kind, len);
        self.next_id = id_after(id, len);
    }

    /// Goes on after a packet of this length whose payload was passed over.
    pub fn pass(&mut self, side: Side, id: u8, len: usize)
        ensures { state_of self.new ≡ passed side id len (state_of self.old) }
    {
        match side {
            Side::Client if is_command(self.phase, self.next_id, id) => {
                self.row_form = RowForm::Unknown;
                self.wants_cursor = false;
                self.phase = Phase::Answer;
            }
            Side::Client => {}
            Side::Server => self.phase = past_column(self.is_eof_deprecated, self.phase),
        }
        self.next_id = id_after(id, len);
    }
}
