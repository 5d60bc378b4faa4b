//! A server writes answers.

use crate::answers::{LIMIT, definition, put_row};
use crate::digest::{Digest, Sink};
use crate::draws::{Draws, Letters, Script};
use crate::reading::codec_under;
use mysql_wire::misc::raw::bytes::{LenEnc, RawBytes};
use mysql_wire::misc::raw::seq::Seq;
use mysql_wire::misc::raw::{Either, RawFlags};
use mysql_wire::proto::MySerialize;
use mysql_wire::proto::codec::PacketCodec;
use mysql_wire::proto::packet_io::PacketWriter;
use mysql_wire_packets::ok_packet::{OkForm, OkPacket};
use mysql_wire_queries::text_row::{TextRow, TextValue};
use std::alloc::Global;
use std::borrow::CowSlice;

// A connection's side that writes, and the room for a payload.
#[derive(Drop)]
struct Server {
    codec: PacketCodec,
    writer: PacketWriter<Sink>,
    payload: Vec<u8>,
}

impl Server {
    fn new(alloc: Global) -> Option<Self> {
        Some(Server {
            codec: codec_under(LIMIT),
            writer: PacketWriter::new(alloc, Sink::new(Vec::new(alloc))).ok()?,
            payload: Vec::new(alloc),
        })
    }

    // Queues the payload, and empties it.
    fn queue(&mut self) -> Option<()> {
        let mut packet = self.payload.as_slice();
        self.writer.queue(&mut self.codec, &mut packet).ok()?;
        self.payload.clear();
        Some(())
    }

    // Queues a packet of a type.
    fn queue_value<T: MySerialize>(&mut self, value: &T) -> Option<()> {
        value.serialize(&mut self.payload).ok()?;
        self.queue()
    }

    // Writes what is queued, where there is much of it.
    fn write_much(&mut self) -> Option<()> {
        if self.writer.pending().len() >= 16384 {
            self.writer.write_pending().ok()?;
        }
        Some(())
    }
}

fn text<'a>(draws: &mut Draws, letters: &'a Letters) -> TextValue<'a> {
    if draws.below(20) == 0 {
        TextValue::Null
    } else {
        let len = draws.below(40);
        TextValue::Text(letters.text(draws, Script::Plain, len))
    }
}

// A row as a packet of its type.
fn typed_row<'a>(
    alloc: Global,
    draws: &mut Draws,
    letters: &'a Letters,
    columns: usize,
) -> Option<TextRow<'a>> {
    let mut values = Vec::with_capacity(alloc, columns).ok()?;
    for _ in 0..columns {
        values.push(text(draws, letters)).ok()?;
    }
    Some(TextRow {
        values: Seq::new(CowSlice::Owned(values)),
    })
}

fn done<'a>(draws: &mut Draws, letters: &'a Letters) -> OkPacket<'a> {
    let info = RawBytes::<LenEnc>::from(letters.text(draws, Script::Plain, 20));
    OkForm {
        affected_rows: draws.byte() as u64,
        last_insert_id: draws.word(),
        status_flags: RawFlags::new(2),
        warnings: draws.byte() as u16,
        info: Some(Either::Left(info)),
        session_state: None,
    }
}

fn serve_definition(server: &mut Server, draws: &mut Draws, letters: &Letters) -> Option<()> {
    server.queue_value(&definition(draws, letters))
}

fn serve_done(server: &mut Server, draws: &mut Draws, letters: &Letters) -> Option<()> {
    server.queue_value(&done(draws, letters))
}

fn serve_typed(
    server: &mut Server,
    alloc: Global,
    draws: &mut Draws,
    letters: &Letters,
    columns: usize,
) -> Option<()> {
    let row = typed_row(alloc, draws, letters, columns)?;
    server.queue_value(&row)
}

// A row, as a type by turns with one put text by text.
fn serve_row(
    server: &mut Server,
    alloc: Global,
    draws: &mut Draws,
    letters: &Letters,
    columns: usize,
    place: usize,
) -> Option<()> {
    if place % 2 == 0 {
        serve_typed(server, alloc, draws, letters, columns)?;
    } else {
        put_row(draws, letters, columns, &mut server.payload)?;
        server.queue()?;
    }
    server.write_much()
}

// An answer of this many rows.
fn serve(
    server: &mut Server,
    alloc: Global,
    draws: &mut Draws,
    letters: &Letters,
    rows: usize,
) -> Option<()> {
    let columns = 5 + draws.below(16);
    for _ in 0..columns {
        serve_definition(server, draws, letters)?;
    }
    for place in 0..rows {
        serve_row(server, alloc, draws, letters, columns, place)?;
    }
    serve_done(server, draws, letters)?;
    server.writer.write_pending().ok()
}

/// Answers of 0, 1, 10, 100 and 1,000 rows are written.
pub fn serve_answers(
    alloc: Global,
    draws: &mut Draws,
    letters: &Letters,
    rounds: usize,
) -> Option<u64> {
    let mut digest = Digest::new();
    for _ in 0..rounds {
        let mut server = Server::new(alloc)?;
        for rows in [0, 1, 10, 100, 1000] {
            serve(&mut server, alloc, draws, letters, rows)?;
        }
        digest.add(server.writer.into_inner().value());
    }
    Some(digest.value())
}
