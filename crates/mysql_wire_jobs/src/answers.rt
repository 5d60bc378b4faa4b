//! Answers to queries: definitions of columns, rows of texts, and what ends them.

use crate::draws::{Draws, Letters, Script};
use bytes::BytesMut;
use mysql_wire::io::BufMutExt;
use mysql_wire::misc::raw::bytes::{LenEnc, RawBytes};
use mysql_wire::misc::raw::{RawConst, RawFlags};
use mysql_wire::proto::MySerialize;
use mysql_wire::proto::codec::PacketCodec;
use mysql_wire_queries::column_definition::ColumnDefinition41;
use std::alloc::Global;

/// The largest payload of an answer.
pub const LIMIT: usize = 1 << 26;

/// An answer, framed from id 0 on.
#[derive(Drop)]
pub struct Answer {
    pub(crate) columns: usize,
    pub(crate) stream: BytesMut,
}

impl Answer {
    /// How many columns its rows have.
    pub fn columns(&self) -> usize {
        self.columns
    }

    /// Its chunks.
    pub fn stream(&self) -> &[u8] {
        self.stream.as_slice()
    }
}

// The script of a column.
fn script_of(column: usize) -> Script {
    match column % 8 {
        5 => Script::Quoted,
        6 => Script::Wide,
        _ => Script::Plain,
    }
}

// How long a text of a column is: mostly below 40 bytes, and in the first column up to 4,096.
fn text_len(draws: &mut Draws, column: usize) -> usize {
    let len = draws.below(40);
    if column > 0 {
        return len;
    }
    match draws.below(64) {
        0 => 300 + draws.below(3796),
        1..=4 => 251 + draws.below(50),
        _ => len,
    }
}

// Puts a row of this many columns.
pub(crate) fn put_row(
    draws: &mut Draws,
    letters: &Letters,
    columns: usize,
    payload: &mut Vec<u8>,
) -> Option<()> {
    for column in 0..columns {
        if draws.below(20) == 0 {
            payload.push(0xfb).ok()?;
        } else {
            let len = text_len(draws, column);
            let text = letters.text(draws, script_of(column), len);
            payload.put_lenenc_str(text).ok()?;
        }
    }
    Some(())
}

fn name<'a>(draws: &mut Draws, letters: &'a Letters) -> RawBytes<'a, LenEnc> {
    let len = 3 + draws.below(9);
    RawBytes::from(letters.text(draws, Script::Plain, len))
}

// A definition of a column.
pub(crate) fn definition<'a>(draws: &mut Draws, letters: &'a Letters) -> ColumnDefinition41<'a> {
    let table = name(draws, letters);
    let column = name(draws, letters);
    ColumnDefinition41 {
        catalog: RawBytes::from(b"def".as_slice()),
        schema: name(draws, letters),
        org_table: RawBytes::from(letters.text(draws, Script::Plain, 8)),
        table,
        org_name: RawBytes::from(letters.text(draws, Script::Plain, 8)),
        name: column,
        extended_metadata: None,
        character_set: 45,
        column_length: 255 + draws.below(1000) as u32,
        column_type: RawConst::new(0xfd),
        flags: RawFlags::new(draws.byte() as u16),
        decimals: 0,
        reserved: [0, 0],
    }
}

fn put_definition(payload: &mut Vec<u8>, draws: &mut Draws, letters: &Letters) -> Option<()> {
    definition(draws, letters).serialize(payload).ok()
}

// An answer that is made, and the room for a payload.
#[derive(Drop)]
struct Maker {
    codec: PacketCodec,
    payload: Vec<u8>,
    stream: BytesMut,
}

impl Maker {
    fn new(alloc: Global) -> Self {
        let mut codec = PacketCodec::default();
        codec.max_allowed_packet = LIMIT;
        Maker {
            codec,
            payload: Vec::new(alloc),
            stream: BytesMut::new(alloc),
        }
    }

    // Frames the payload, and empties it.
    fn frame(&mut self) -> Option<()> {
        let mut packet = self.payload.as_slice();
        self.codec.encode(&mut packet, &mut self.stream).ok()?;
        self.payload.clear();
        Some(())
    }

    // What ends definitions, and rows.
    fn end(&mut self) -> Option<()> {
        self.payload.extend_from_slice(&[0xfe, 0, 0, 2, 0]).ok()?;
        self.frame()
    }

    // How many columns there are, and their definitions.
    fn put_definitions(
        &mut self,
        draws: &mut Draws,
        letters: &Letters,
        columns: usize,
    ) -> Option<()> {
        self.payload.put_lenenc_int(columns as u64).ok()?;
        self.frame()?;
        for _ in 0..columns {
            put_definition(&mut self.payload, draws, letters)?;
            self.frame()?;
        }
        self.end()
    }

    fn put_rows(
        &mut self,
        draws: &mut Draws,
        letters: &Letters,
        columns: usize,
        rows: usize,
    ) -> Option<()> {
        for _ in 0..rows {
            put_row(draws, letters, columns, &mut self.payload)?;
            self.frame()?;
        }
        self.end()
    }
}

/// An answer of this many rows.
pub fn make_answer(
    alloc: Global,
    draws: &mut Draws,
    letters: &Letters,
    columns: usize,
    rows: usize,
) -> Option<Answer> {
    let mut maker = Maker::new(alloc);
    maker.put_definitions(draws, letters, columns)?;
    maker.put_rows(draws, letters, columns, rows)?;
    let Maker { stream, .. } = maker;
    Some(Answer { columns, stream })
}
