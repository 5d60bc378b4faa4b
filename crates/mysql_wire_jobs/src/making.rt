//! Sessions: a login, many small commands, queries, and statements that are executed.

use crate::draws::{Draws, Letters, Script};
use crate::values::{TYPES, put_binary_row, put_text_row};
use bytes::BytesMut;
use mysql_wire::io::BufMutExt;
use mysql_wire::misc::raw::bytes::{LenEnc, RawBytes};
use mysql_wire::misc::raw::{RawConst, RawFlags};
use mysql_wire::proto::MySerialize;
use mysql_wire::proto::codec::PacketCodec;
use mysql_wire_queries::column_definition::ColumnDefinition41;
use std::alloc::Global;

// Both sides have `CLIENT_PROTOCOL_41`, `CLIENT_SECURE_CONNECTION` and `CLIENT_PLUGIN_AUTH`.
const GREETING: &[u8] =
    b"\x0a8.0.36\0\x07\0\0\0abcdefgh\0\0\x82\x2d\x02\0\x08\0\x15\0\0\0\0\0\0\0\0\0\0\
    ijklmnopqrst\0mysql_native_password\0";

const LOGIN: &[u8] =
    b"\0\x82\x08\0\0\0\0\x01\x2d\0\0\0\0\0\0\0\0\0\0\0\0\0\0\0\0\0\0\0\0\0\0\0root\0\
    \x14abcdefghijklmnopqrstmysql_native_password\0";

const END: &[u8] = &[0xfe, 0, 0, 2, 0];

const OK: &[u8] = &[0, 1, 0, 2, 0, 0, 0];

/// The bytes of both directions. Their packets are numbered on from a command's.
#[derive(Drop)]
pub struct Session {
    client: BytesMut,
    server: BytesMut,
    codec: PacketCodec,
    payload: Vec<u8>,
    // Room for a text.
    text: Vec<u8>,
}

impl Session {
    /// What the client sends.
    pub fn client(&self) -> &[u8] {
        self.client.as_slice()
    }

    /// What the server sends.
    pub fn server(&self) -> &[u8] {
        self.server.as_slice()
    }

    fn new(alloc: Global) -> Self {
        Session {
            client: BytesMut::new(alloc),
            server: BytesMut::new(alloc),
            codec: PacketCodec::default(),
            payload: Vec::new(alloc),
            text: Vec::new(alloc),
        }
    }

    // Puts some bytes of a payload.
    fn put(&mut self, bytes: &[u8]) -> Option<()> {
        self.payload.extend_from_slice(bytes).ok()
    }

    // The payload is the client's, or the server's.
    fn send(&mut self, is_client: bool) -> Option<()> {
        let mut packet = self.payload.as_slice();
        if is_client {
            self.codec.encode(&mut packet, &mut self.client).ok()?;
        } else {
            self.codec.encode(&mut packet, &mut self.server).ok()?;
        }
        self.payload.clear();
        Some(())
    }

    // A command of these bytes.
    fn command(&mut self, header: u8, text: &[u8]) -> Option<()> {
        self.codec.reset_seq_id();
        self.put(&[header])?;
        self.put(text)?;
        self.send(true)
    }

    fn answer(&mut self, bytes: &[u8]) -> Option<()> {
        self.put(bytes)?;
        self.send(false)
    }
}

fn log_in(session: &mut Session) -> Option<()> {
    session.answer(GREETING)?;
    session.put(LOGIN)?;
    session.send(true)?;
    session.answer(OK)
}

// A command that is answered by an `OK_Packet` or a refusal.
fn small(session: &mut Session, draws: &mut Draws, letters: &Letters) -> Option<()> {
    let len = draws.below(60);
    match draws.below(8) {
        0 | 1 => session.command(0x0e, b"")?,
        2 => session.command(0x02, letters.text(draws, Script::Plain, 8))?,
        _ => session.command(0x03, letters.text(draws, Script::Plain, len))?,
    }
    match draws.below(16) {
        0 => session.answer(b"\xff\x7a\x04#42S02Table 'a.b' doesn't exist"),
        _ => session.answer(OK),
    }
}

fn name<'a>(draws: &mut Draws, letters: &'a Letters, len: usize) -> RawBytes<'a, LenEnc> {
    RawBytes::from(letters.text(draws, Script::Plain, len))
}

// The definition of a column.
fn definition<'a>(
    draws: &mut Draws,
    letters: &'a Letters,
    column_type: u8,
) -> ColumnDefinition41<'a> {
    ColumnDefinition41 {
        catalog: RawBytes::from(b"def".as_slice()),
        schema: name(draws, letters, 6),
        table: name(draws, letters, 9),
        org_table: name(draws, letters, 9),
        name: name(draws, letters, 7),
        org_name: name(draws, letters, 7),
        extended_metadata: None,
        character_set: 45,
        column_length: 1020,
        column_type: RawConst::new(column_type),
        flags: RawFlags::new(draws.byte() as u16),
        decimals: 0,
        reserved: [0, 0],
    }
}

fn put_definition(
    payload: &mut Vec<u8>,
    draws: &mut Draws,
    letters: &Letters,
    column_type: u8,
) -> Option<()> {
    definition(draws, letters, column_type)
        .serialize(payload)
        .ok()
}

// The columns of a row, and what ends them.
fn columns(session: &mut Session, draws: &mut Draws, letters: &Letters) -> Option<()> {
    for column_type in TYPES {
        put_definition(&mut session.payload, draws, letters, column_type)?;
        session.send(false)?;
    }
    session.answer(END)
}

// The answer of this many rows, in texts or in the binary form.
fn result(
    session: &mut Session,
    draws: &mut Draws,
    letters: &Letters,
    rows: usize,
    is_binary: bool,
) -> Option<()> {
    session.payload.put_lenenc_int(TYPES.len() as u64).ok()?;
    session.send(false)?;
    columns(session, draws, letters)?;
    for _ in 0..rows {
        let Session { payload, text, .. } = session;
        if is_binary {
            put_binary_row(draws, letters, text, payload)?;
        } else {
            put_text_row(draws, letters, text, payload)?;
        }
        session.send(false)?;
    }
    session.answer(END)
}

// A statement, prepared and executed.
fn execute(session: &mut Session, draws: &mut Draws, letters: &Letters, rows: usize) -> Option<()> {
    session.command(0x16, letters.text(draws, Script::Plain, 70))?;
    session.answer(&[0, 1, 0, 0, 0, TYPES.len() as u8, 0, 0, 0, 0, 0, 0])?;
    columns(session, draws, letters)?;
    session.command(0x17, &[1, 0, 0, 0, 0, 1, 0, 0, 0])?;
    result(session, draws, letters, rows, true)
}

// 100 small commands, a query of 100 rows and a statement of 100 rows.
fn work(session: &mut Session, draws: &mut Draws, letters: &Letters) -> Option<()> {
    for _ in 0..100 {
        small(session, draws, letters)?;
    }
    let len = 70 + draws.below(200);
    session.command(0x03, letters.text(draws, Script::Quoted, len))?;
    result(session, draws, letters, 100, false)?;
    execute(session, draws, letters, 100)
}

// A login, work four times, and the end.
fn put_all(session: &mut Session, draws: &mut Draws, letters: &Letters) -> Option<()> {
    log_in(session)?;
    for _ in 0..4 {
        work(session, draws, letters)?;
    }
    session.command(0x01, b"")
}

/// A login, 400 small commands, four queries of 100 rows and four statements of 100 rows, among
/// each other.
pub fn make_session(alloc: Global, draws: &mut Draws, letters: &Letters) -> Option<Session> {
    let mut session = Session::new(alloc);
    put_all(&mut session, draws, letters)?;
    Some(session)
}
