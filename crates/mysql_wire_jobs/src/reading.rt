//! A client reads answers.

use crate::answers::{Answer, LIMIT, make_answer};
use crate::digest::Digest;
use crate::draws::{Draws, Letters};
use bytes::BytesMut;
use mysql_wire::constants::{Flags, MariadbCapabilities};
use mysql_wire::io::ParseBuf;
use mysql_wire::proto::codec::{PacketCodec, Visit, deliver_each};
use mysql_wire::proto::packet_io::PacketReader;
use mysql_wire_packets::places::read_whole;
use mysql_wire_queries::column_definition::ColumnDefinition41;
use mysql_wire_queries::text_row::{TextRow, TextValue};
use std::alloc::Global;
use std::io;
use std::io::Read;

// How the values of a row are read.
#[derive(Clone, Copy)]
enum RowsBy {
    Values,
    Row,
    Hand,
}

// Bytes that come this many at a read, at most.
#[derive(Drop)]
pub(crate) struct Pieces<'a> {
    bytes: &'a [u8],
    step: usize,
}

impl<'a> Pieces<'a> {
    // These bytes.
    pub(crate) fn new(bytes: &'a [u8], step: usize) -> Self {
        Pieces { bytes, step }
    }
}

impl Read for Pieces<'_> {
    fn read(&mut self, buf: &mut [u8]) -> io::Result<usize> {
        let len = self.step.min(buf.len());
        self.bytes.read(&mut buf[..len])
    }
}

// What an answer's packets are told by, one after another.
#[derive(Drop)]
struct Reading {
    alloc: Global,
    by: RowsBy,
    columns: usize,
    // How many packets came.
    place: usize,
    digest: Digest,
    refused: bool,
}

fn tell(digest: &mut Digest, value: &TextValue<'_>) {
    match value {
        TextValue::Null => digest.add(1),
        TextValue::Text(text) => digest.add_bytes(text),
    }
}

fn tell_definition(digest: &mut Digest, definition: &ColumnDefinition41<'_>) {
    digest.add_bytes(definition.schema.as_bytes());
    digest.add_bytes(definition.table.as_bytes());
    digest.add_bytes(definition.org_table.as_bytes());
    digest.add_bytes(definition.name.as_bytes());
    digest.add_bytes(definition.org_name.as_bytes());
    digest.add(definition.column_length as u64);
    digest.add(definition.flags.0 as u64);
}

impl Reading {
    fn new(alloc: Global, by: RowsBy, columns: usize) -> Self {
        Reading {
            alloc,
            by,
            columns,
            place: 0,
            digest: Digest::new(),
            refused: false,
        }
    }

    fn read_definition(&mut self, packet: &[u8]) -> Option<()> {
        let definition = read_whole::<ColumnDefinition41<'_>>(
            self.alloc,
            MariadbCapabilities::empty(),
            packet,
        ).ok()?;
        tell_definition(&mut self.digest, &definition);
        Some(())
    }

    fn read_values(&mut self, packet: &[u8]) -> Option<()> {
        let mut rest = ParseBuf(packet);
        for _ in 0..self.columns {
            let value = rest.parse::<TextValue<'_>>(self.alloc, ()).ok()?;
            tell(&mut self.digest, &value);
        }
        Some(())
    }

    fn read_row(&mut self, packet: &[u8]) -> Option<()> {
        let row = read_whole::<TextRow<'_>>(self.alloc, self.columns, packet).ok()?;
        for value in row.values.as_slice() {
            tell(&mut self.digest, value);
        }
        Some(())
    }

    fn read_by_hand(&mut self, packet: &[u8]) -> Option<()> {
        let mut rest = ParseBuf(packet);
        for _ in 0..self.columns {
            if let Some(0xfb) = rest.0.first() {
                rest.checked_eat_u8()?;
                self.digest.add(1);
            } else {
                self.digest.add_bytes(rest.checked_eat_lenenc_str()?);
            }
        }
        Some(())
    }

    fn read(&mut self, packet: &[u8]) -> Option<()> {
        let place = self.place;
        self.place = place.saturating_add(1);
        if place == 0 || place == self.columns.saturating_add(1) || packet.len() == 5 {
            self.digest.add_bytes(packet);
            return Some(());
        }
        if place <= self.columns {
            return self.read_definition(packet);
        }
        match self.by {
            RowsBy::Values => self.read_values(packet),
            RowsBy::Row => self.read_row(packet),
            RowsBy::Hand => self.read_by_hand(packet),
        }
    }

    fn take(&mut self, packet: &[u8]) {
        if self.read(packet).is_none() {
            self.refused = true;
        }
    }

    fn value(&self) -> Option<u64> {
        if self.refused {
            None
        } else {
            Some(self.digest.value())
        }
    }
}

impl Visit for Reading {
    ghost sees = { λ _ _ _. Unit {0} };

    fn visit(&mut self, packet: &[u8]) {
        self.take(packet);
    }
}

// A codec at id 0, under a limit.
pub(crate) fn codec_under(limit: usize) -> PacketCodec {
    let mut codec = PacketCodec::default();
    codec.max_allowed_packet = limit;
    codec
}

// Packets handed out by a reader, each in a buffer of its own.
fn by_next_packet(alloc: Global, answer: &Answer, step: usize) -> Option<u64> {
    let bytes = answer.stream.as_slice();
    let mut reader = PacketReader::new(alloc, Pieces::new(bytes, step)).ok()?;
    let mut codec = codec_under(LIMIT);
    let mut reading = Reading::new(alloc, RowsBy::Values, answer.columns);
    'packets: for _ in 0..u64::MAX {
        if !reader.fits(&codec) {
            return None;
        }
        match reader.next_packet(&mut codec).ok()? {
            Some(packet) => reading.take(packet.as_slice()),
            None => return reading.value(),
        }
    }
    None
}

// Packets lent by a reader.
fn by_fill_packet(alloc: Global, answer: &Answer, step: usize) -> Option<u64> {
    let bytes = answer.stream.as_slice();
    let mut reader = PacketReader::new(alloc, Pieces::new(bytes, step)).ok()?;
    let mut codec = codec_under(LIMIT);
    let mut reading = Reading::new(alloc, RowsBy::Row, answer.columns);
    'packets: for _ in 0..u64::MAX {
        if !reader.fits(&codec) {
            return None;
        }
        if !reader.fill_packet(&mut codec).ok()? {
            return reading.value();
        }
        reading.take(reader.packet());
        reader.take_packet();
    }
    None
}

// The packets that have come.
fn drain(
    codec: &mut PacketCodec,
    src: &mut BytesMut,
    dst: &mut Vec<u8>,
    reading: &mut Reading,
) -> Option<()> {
    'packets: for _ in 0..u64::MAX {
        if !codec.decode(src, dst).ok()? {
            return Some(());
        }
        reading.take(dst.as_slice());
        dst.clear();
    }
    None
}

fn by_decode(alloc: Global, answer: &Answer, step: usize) -> Option<u64> {
    let mut codec = codec_under(LIMIT);
    let mut src = BytesMut::new(alloc);
    let mut dst = Vec::new(alloc);
    let mut reading = Reading::new(alloc, RowsBy::Hand, answer.columns);
    for piece in answer.stream.as_slice().chunks(step.max(1)) {
        src.extend_from_slice(piece).ok()?;
        drain(&mut codec, &mut src, &mut dst, &mut reading)?;
    }
    reading.value()
}

// Packets visited where they lie.
fn by_visits(alloc: Global, answer: &Answer, step: usize) -> Option<u64> {
    let mut codec = codec_under(LIMIT);
    let mut src = BytesMut::new(alloc);
    let mut dst = Vec::new(alloc);
    let mut reading = Reading::new(alloc, RowsBy::Hand, answer.columns);
    for piece in answer.stream.as_slice().chunks(step.max(1)) {
        if !codec.stands_at(&src, dst.as_slice()) {
            return None;
        }
        let pieces = [piece];
        let (_, result) = deliver_each(&mut codec, &mut src, &mut dst, &pieces, &mut reading);
        result.ok()?;
    }
    reading.value()
}

// Each way reads an answer of its own, the four by turns with three sizes of reads.
fn read_answer(alloc: Global, answer: &Answer, way: usize, turn: usize) -> Option<u64> {
    let step = step_of(turn.wrapping_add(way));
    match way {
        0 => by_next_packet(alloc, answer, step),
        1 => by_fill_packet(alloc, answer, step),
        2 => by_decode(alloc, answer, step),
        _ => by_visits(alloc, answer, step),
    }
}

// How many bytes come at a read.
pub(crate) fn step_of(turn: usize) -> usize {
    match turn % 3 {
        0 => 1460,
        1 => 8192,
        _ => 65536,
    }
}

// How many rows the answers of a round have.
const ROWS: [usize; 8] = [1, 3, 10, 30, 100, 300, 1000, 8000];

// Answers of this many rows, of which each way reads one.
fn read_each(
    alloc: Global,
    draws: &mut Draws,
    letters: &Letters,
    rows: usize,
    turn: usize,
    digest: &mut Digest,
) -> Option<()> {
    for way in 0..4 {
        let columns = 5 + draws.below(16);
        let answer = make_answer(alloc, draws, letters, columns, rows)?;
        digest.add(read_answer(alloc, &answer, way, turn)?);
    }
    Some(())
}

// Two answers of 1,000 columns, whose bytes come one at a time.
fn read_wide(
    alloc: Global,
    draws: &mut Draws,
    letters: &Letters,
    digest: &mut Digest,
) -> Option<()> {
    let wide = make_answer(alloc, draws, letters, 1000, 2)?;
    digest.add(by_decode(alloc, &wide, 1)?);
    let wide = make_answer(alloc, draws, letters, 1000, 2)?;
    digest.add(by_fill_packet(alloc, &wide, 1)?);
    Some(())
}

/// Answers of 1 to 8,000 rows, of 5 to 20 columns; two of few rows have 1,000, and their bytes come
/// one at a time.
pub fn read_answers(
    alloc: Global,
    draws: &mut Draws,
    letters: &Letters,
    rounds: usize,
) -> Option<u64> {
    let mut digest = Digest::new();
    for round in 0..rounds {
        for rows in ROWS {
            read_each(alloc, draws, letters, rows, round, &mut digest)?;
        }
        read_wide(alloc, draws, letters, &mut digest)?;
    }
    Some(digest.value())
}
