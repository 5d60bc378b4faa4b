//! Prepared statements: executed with parameters, and answered by rows in binary.

use crate::answers::{Answer, LIMIT};
use crate::digest::Digest;
use crate::draws::{Draws, Letters, Script};
use crate::reading::{codec_under, step_of};
use crate::values::{date, time};
use bytes::BytesMut;
use mysql_wire::constants::ColumnType;
use mysql_wire::io::ParseBuf;
use mysql_wire::misc::raw::RawFlags;
use mysql_wire::proto::MySerialize;
use mysql_wire::proto::codec::{PacketCodec, encode_value};
use mysql_wire_packets::places::read_whole;
use mysql_wire_statements::binary_row::BinaryRow;
use mysql_wire_statements::binary_value::BinaryValue;
use mysql_wire_statements::com_stmt_execute::ComStmtExecute;
use mysql_wire_statements::null_bitmap::NullBitmap;
use mysql_wire_statements::params::{ParamTypes, StmtParams};
use mysql_wire_statements::temporal::{BinaryDate, BinaryTime, Clock, Day, Span};
use std::alloc::Global;

// The types of a statement's parameters, and of a row's columns.
const TYPES: [ColumnType; 10] = [
    ColumnType::MYSQL_TYPE_LONGLONG,
    ColumnType::MYSQL_TYPE_VAR_STRING,
    ColumnType::MYSQL_TYPE_LONG,
    ColumnType::MYSQL_TYPE_DATETIME,
    ColumnType::MYSQL_TYPE_DOUBLE,
    ColumnType::MYSQL_TYPE_VAR_STRING,
    ColumnType::MYSQL_TYPE_TINY,
    ColumnType::MYSQL_TYPE_TIME,
    ColumnType::MYSQL_TYPE_SHORT,
    ColumnType::MYSQL_TYPE_NEWDECIMAL,
];

/// The numbers of these types.
pub const TYPE_NUMBERS: [u8; 10] = [8, 253, 3, 12, 5, 253, 1, 11, 2, 246];

// The same, each followed by its flags.
const BOUND: [u8; 20] = [
    8, 0, 253, 0, 3, 0, 12, 0, 5, 0, 253, 0, 1, 128, 11, 0, 2, 0, 246, 0,
];

// A value of a type.
fn value<'a>(draws: &mut Draws, letters: &'a Letters, column_type: ColumnType) -> BinaryValue<'a> {
    match column_type {
        ColumnType::MYSQL_TYPE_LONGLONG => BinaryValue::LongLong(draws.word()),
        ColumnType::MYSQL_TYPE_LONG => BinaryValue::Long((draws.word() & 0xffff_ffff) as u32),
        ColumnType::MYSQL_TYPE_DATETIME => BinaryValue::Date(date(draws)),
        ColumnType::MYSQL_TYPE_DOUBLE => BinaryValue::Double(draws.word()),
        ColumnType::MYSQL_TYPE_TINY => BinaryValue::Tiny(draws.byte()),
        ColumnType::MYSQL_TYPE_TIME => BinaryValue::Time(time(draws)),
        ColumnType::MYSQL_TYPE_SHORT => BinaryValue::Short((draws.word() & 0xffff) as u16),
        _ => {
            let len = draws.below(30);
            BinaryValue::Text(letters.text(draws, Script::Plain, len))
        }
    }
}

// Values in a row, of which one in twenty is NULL, the bitmap that says which, and room for a
// payload.
#[derive(Drop)]
struct Values {
    nulls: [u8; 2],
    values: Vec<u8>,
    payload: Vec<u8>,
}

impl Values {
    // None.
    fn new(alloc: Global) -> Self {
        Values {
            nulls: [0, 0],
            values: Vec::new(alloc),
            payload: Vec::new(alloc),
        }
    }
}

// The bitmap's first bits, as many as `first`, stand for nothing.
fn fill(values: &mut Values, draws: &mut Draws, letters: &Letters, first: u32) -> Option<()> {
    values.values.clear();
    let mut bits = 0u16;
    let mut bit = 1u16 << (first % 3);
    for column_type in TYPES {
        if draws.below(20) == 0 {
            bits |= bit;
        } else {
            value(draws, letters, column_type)
                .serialize(&mut values.values)
                .ok()?;
        }
        bit = bit.wrapping_add(bit);
    }
    values.nulls = bits.to_le_bytes();
    Some(())
}

// Frames a row.
fn put_row(
    codec: &mut PacketCodec,
    draws: &mut Draws,
    letters: &Letters,
    values: &mut Values,
    stream: &mut BytesMut,
) -> Option<()> {
    fill(values, draws, letters, 2)?;
    let row = BinaryRow {
        nulls: NullBitmap(&values.nulls),
        values: values.values.as_slice(),
    };
    values.payload.clear();
    row.serialize(&mut values.payload).ok()?;
    let mut packet = values.payload.as_slice();
    codec.encode(&mut packet, stream).ok()
}

/// An answer of this many rows in binary, of ten columns, without definitions.
pub fn binary_rows(
    alloc: Global,
    draws: &mut Draws,
    letters: &Letters,
    rows: usize,
) -> Option<Answer> {
    let mut codec = codec_under(LIMIT);
    let mut stream = BytesMut::new(alloc);
    let mut values = Values::new(alloc);
    for _ in 0..rows {
        put_row(&mut codec, draws, letters, &mut values, &mut stream)?;
    }
    Some(Answer {
        columns: 10,
        stream,
    })
}

// Frames a statement that is executed.
fn put_execute(
    codec: &mut PacketCodec,
    draws: &mut Draws,
    letters: &Letters,
    values: &mut Values,
    stream: &mut BytesMut,
) -> Option<()> {
    fill(values, draws, letters, 0)?;
    let command = ComStmtExecute {
        statement_id: draws.byte() as u32,
        flags: RawFlags::new(0),
        iteration_count: 1,
        params: Some(StmtParams {
            nulls: NullBitmap(&values.nulls),
            types: Some(ParamTypes(&BOUND)),
            values: values.values.as_slice(),
        }),
    };
    encode_value(codec, &command, stream).ok()
}

fn tell_clock(clock: &Clock) -> u64 {
    65536 * clock.hour as u64 + 256 * clock.minute as u64 + clock.second as u64
}

fn tell_day(day: &Day) -> u64 {
    65536 * day.year as u64 + 256 * day.month as u64 + day.day as u64
}

fn tell_date(digest: &mut Digest, date: &BinaryDate) {
    match date {
        BinaryDate::Zero => digest.add(2),
        BinaryDate::Date(day) => digest.add(tell_day(day)),
        BinaryDate::Seconds(day, clock) => {
            digest.add(tell_day(day));
            digest.add(tell_clock(clock));
        }
        BinaryDate::Micros(day, clock, micros) => {
            digest.add(tell_day(day));
            digest.add(tell_clock(clock));
            digest.add(*micros as u64);
        }
    }
}

fn tell_span(digest: &mut Digest, span: &Span) {
    digest.add(2 * span.days as u64 + span.sign as u64);
    digest.add(tell_clock(&span.clock));
}

fn tell(digest: &mut Digest, value: &BinaryValue<'_>) {
    match value {
        BinaryValue::Null => digest.add(1),
        BinaryValue::Tiny(number) => digest.add(*number as u64),
        BinaryValue::Short(number) => digest.add(*number as u64),
        BinaryValue::Long(number) | BinaryValue::Float(number) => digest.add(*number as u64),
        BinaryValue::LongLong(number) | BinaryValue::Double(number) => digest.add(*number),
        BinaryValue::Date(date) => tell_date(digest, date),
        BinaryValue::Time(BinaryTime::Zero) => digest.add(3),
        BinaryValue::Time(BinaryTime::Seconds(span)) => tell_span(digest, span),
        BinaryValue::Time(BinaryTime::Micros(span, micros)) => {
            tell_span(digest, span);
            digest.add(*micros as u64);
        }
        BinaryValue::Text(text) => digest.add_bytes(text),
    }
}

// Reads an executed statement.
fn read_execute(alloc: Global, digest: &mut Digest, payload: &[u8]) -> Option<()> {
    let command = read_whole::<ComStmtExecute<'_>>(alloc, 10, payload).ok()?;
    digest.add(command.statement_id as u64);
    read_params(alloc, digest, &command.params?)
}

// Reads the parameters' values.
fn read_params(alloc: Global, digest: &mut Digest, params: &StmtParams<'_>) -> Option<()> {
    let types = params.types?;
    let mut rest = ParseBuf(params.values);
    for place in 0..10 {
        let column_type = types.get(place)?.column_type.get().ok()?;
        if params.nulls.is_null(place) {
            digest.add(1);
        } else {
            tell(
                digest,
                &rest.parse::<BinaryValue<'_>>(alloc, column_type).ok()?,
            );
        }
    }
    Some(())
}

// Reads a row.
fn read_row(alloc: Global, digest: &mut Digest, payload: &[u8]) -> Option<()> {
    let row = read_whole::<BinaryRow<'_>>(alloc, 10, payload).ok()?;
    let mut rest = ParseBuf(row.values);
    for place in 0..10 {
        let value = row.value(alloc, place, TYPES[place], &mut rest).ok()?;
        tell(digest, &value);
    }
    Some(())
}

// Reads what stands in front, each as it begins.
fn read(alloc: Global, digest: &mut Digest, payload: &[u8]) -> Option<()> {
    match payload.first() {
        Some(0x17) => read_execute(alloc, digest, payload),
        _ => read_row(alloc, digest, payload),
    }
}

// Reads a stream that comes in pieces.
fn read_all(alloc: Global, stream: &BytesMut, step: usize) -> Option<u64> {
    let mut codec = codec_under(LIMIT);
    let mut src = BytesMut::new(alloc);
    let mut dst = Vec::new(alloc);
    let mut digest = Digest::new();
    for piece in stream.as_slice().chunks(step.max(1)) {
        src.extend_from_slice(piece).ok()?;
        drain(alloc, &mut codec, &mut src, &mut dst, &mut digest)?;
    }
    Some(digest.value())
}

fn drain(
    alloc: Global,
    codec: &mut PacketCodec,
    src: &mut BytesMut,
    dst: &mut Vec<u8>,
    digest: &mut Digest,
) -> Option<()> {
    'packets: for _ in 0..u64::MAX {
        if !codec.decode(src, dst).ok()? {
            return Some(());
        }
        read(alloc, digest, dst.as_slice())?;
        dst.clear();
    }
    None
}

// Statements executed one after another, each answered by ten rows.
fn made(alloc: Global, draws: &mut Draws, letters: &Letters) -> Option<BytesMut> {
    let mut codec = codec_under(LIMIT);
    let mut stream = BytesMut::new(alloc);
    let mut values = Values::new(alloc);
    for _ in 0..200 {
        put_execute(&mut codec, draws, letters, &mut values, &mut stream)?;
        for _ in 0..10 {
            put_row(&mut codec, draws, letters, &mut values, &mut stream)?;
        }
    }
    Some(stream)
}

/// Statements are executed, and their rows read.
pub fn execute(alloc: Global, draws: &mut Draws, letters: &Letters, rounds: usize) -> Option<u64> {
    let mut digest = Digest::new();
    for round in 0..rounds {
        let stream = made(alloc, draws, letters)?;
        digest.add(read_all(alloc, &stream, step_of(round))?);
    }
    Some(digest.value())
}
