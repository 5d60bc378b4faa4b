//! An operator dumps a session's answers.

use mysql_wire::constants::{Flags, MariadbCapabilities};
use mysql_wire_dump_lines::lines::{LineForm, Seen, push_packet};
use mysql_wire_dump_lines::packet_stream::{Next, PacketStream};
use mysql_wire_dump_lines::show::{Show, binary_row, statistics, text_row};
use mysql_wire_jobs::answers::{Answer, LIMIT, make_answer};
use mysql_wire_jobs::digest::{Digest, Sink};
use mysql_wire_jobs::draws::{Draws, Letters};
use mysql_wire_jobs::statements::{TYPE_NUMBERS, binary_rows};
use mysql_wire_packets::places::read_whole;
use mysql_wire_queries::column_definition::ColumnDefinition41;
use mysql_wire_session::packet_kind::PacketKind as Kind;
use mysql_wire_session::side::Side;
use mysql_wire_statements::binary_row::BinaryRow;
use std::alloc::Global;
use std::io::Write;
use wire_text::fields::{FieldForm, Fields};

// How packets are shown.
#[derive(Clone, Copy)]
struct Form {
    fields: FieldForm,
    line: LineForm,
}

const PLAIN: Form = Form {
    fields: FieldForm::Hidden,
    line: LineForm::Text,
};

const WITH_FIELDS: Form = Form {
    fields: FieldForm::Text,
    line: LineForm::Text,
};

const JSON: Form = Form {
    fields: FieldForm::Json,
    line: LineForm::Json,
};

// What is shown, and what is not written yet.
#[derive(Drop)]
struct Shown {
    alloc: Global,
    form: Form,
    columns: usize,
    // Whether the rows are in binary.
    is_binary: bool,
    fields: Fields,
    text: String,
    sink: Sink,
}

// The kind of a packet at its place, whose fields are put.
fn put(shown: &mut Shown, place: u64, payload: &[u8]) -> Option<Kind> {
    let columns = shown.columns as u64;
    let fields = &mut shown.fields;
    if payload.len() < 9 {
        statistics(fields, payload).ok()?;
        return Some(Kind::Statistics);
    }
    if shown.is_binary {
        let row = read_whole::<BinaryRow<'_>>(shown.alloc, 10, payload).ok()?;
        return match binary_row(shown.alloc, fields, 10, &TYPE_NUMBERS, &row).ok()? {
            None => Some(Kind::BinaryRow),
            Some(_) => None,
        };
    }
    if place <= columns {
        let capabilities = MariadbCapabilities::empty();
        read_whole::<ColumnDefinition41<'_>>(shown.alloc, capabilities, payload)
            .ok()?
            .show(fields)
            .ok()?;
        return Some(Kind::Column);
    }
    match text_row(shown.alloc, fields, columns, payload).ok()? {
        None => Some(Kind::Row),
        Some(_) => None,
    }
}

// Shows a packet.
fn show(shown: &mut Shown, place: u64, id: u8, payload: &[u8]) -> Option<()> {
    shown.fields.begin(shown.form.fields);
    let kind = put(shown, place, payload)?;
    shown.fields.end().ok()?;
    let seen = Seen {
        side: Side::Server,
        id,
        len: payload.len(),
        kind,
    };
    let fields = shown.fields.text();
    push_packet(&mut shown.text, shown.form.line, &seen, payload, fields).ok()?;
    if shown.text.len() >= 65536 {
        shown.sink.write_all(shown.text.as_bytes()).ok()?;
        shown.text.clear();
    }
    Some(())
}

// Shows all packets of a stream.
fn show_all(shown: &mut Shown, stream: &[u8]) -> Option<u64> {
    let mut input = stream;
    let mut source = PacketStream::new(shown.alloc, LIMIT);
    'packets: for place in 0..u64::MAX {
        source.peek(&mut input).ok()?;
        let Next::Packet(id) = source.next() else {
            shown.sink.write_all(shown.text.as_bytes()).ok()?;
            shown.text.clear();
            return Some(shown.sink.value());
        };
        show(shown, place, id, source.payload()?)?;
        source.advance().ok()?;
    }
    None
}

fn dumped(alloc: Global, form: Form, answer: &Answer, is_binary: bool) -> Option<u64> {
    let mut shown = Shown {
        alloc,
        form,
        columns: answer.columns(),
        is_binary,
        fields: Fields::new(alloc),
        text: String::new(alloc),
        sink: Sink::new(Vec::new(alloc)),
    };
    show_all(&mut shown, answer.stream())
}

/// Answers in texts and in binary, each as lines alone, with fields, and as JSON.
pub fn dump(alloc: Global, draws: &mut Draws, letters: &Letters, rounds: usize) -> Option<u64> {
    let mut digest = Digest::new();
    for _ in 0..rounds {
        for form in [PLAIN, WITH_FIELDS, JSON] {
            let columns = 5 + draws.below(16);
            let texts = make_answer(alloc, draws, letters, columns, 800)?;
            digest.add(dumped(alloc, form, &texts, false)?);
            let numbers = binary_rows(alloc, draws, letters, 200)?;
            digest.add(dumped(alloc, form, &numbers, true)?);
        }
    }
    Some(digest.value())
}
