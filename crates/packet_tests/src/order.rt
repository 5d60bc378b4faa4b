//! What has gone out when a reader waits for more of a packet that is copied or passed on.

use std::alloc::Global;
use std::cell::Cell;
use std::io::{self, Read, Write};
use std::test::Fail;
use test_support::facts::all_hold;
use wire_codec::codec::PacketCodec;
use wire_packet_io::{PacketReader, PacketWriter};

// How many bytes were written, and whether a read found fewer there than had come before it.
#[derive(Drop)]
struct Wire {
    written: Cell<usize>,
    is_late: Cell<bool>,
}

impl Wire {
    fn new() -> Self {
        Wire {
            written: Cell::new(0),
            is_late: Cell::new(false),
        }
    }
}

// Gives a part a read. All that came before, but for this many bytes, is to be written by then.
#[derive(Drop)]
struct Watched<'a> {
    parts: &'a [&'a [u8]],
    came: usize,
    kept: usize,
    wire: &'a Wire,
}

impl Read for Watched<'_> {
    fn read(&mut self, buf: &mut [u8]) -> io::Result<usize> {
        if self.wire.written.get() < self.came.saturating_sub(self.kept) {
            self.wire.is_late.set(true);
        }
        let [part, rest @ ..] = self.parts else {
            return Ok(0);
        };
        let mut part: &[u8] = *part;
        self.parts = rest;
        self.came = self.came.saturating_add(part.len());
        part.read(buf)
    }
}

// Counts what it takes.
#[derive(Drop)]
struct Counted<'a>(&'a Wire);

impl Write for Counted<'_> {
    fn write(&mut self, buf: &[u8]) -> io::Result<usize> {
        let written = self.0.written.get();
        self.0.written.set(written.saturating_add(buf.len()));
        Ok(buf.len())
    }

    fn flush(&mut self) -> io::Result<()> {
        Ok(())
    }
}

// A packet in three reads, none of which ends inside its header.
const PARTS: &[&[u8]] = &[b"\x09\0\0\0ab", b"cdef", b"ghi"];

fn reader_below(wire: &Wire, kept: usize) -> Watched<'_> {
    Watched {
        parts: PARTS,
        came: 0,
        kept,
        wire,
    }
}

// Whether this many bytes were written, and all that came before each read.
fn is_on_time(wire: &Wire, written: usize) -> bool {
    (wire.written.get() == written) & !wire.is_late.get()
}

// Whether the next packet's bytes are copied.
fn copies(reader: &mut PacketReader<Watched<'_>>, writer: &mut Counted<'_>) -> bool {
    let mut codec = PacketCodec::default();
    reader.can_copy(&codec) && matches!(reader.copy_packet(&mut codec, writer), Ok(true))
}

// Whether the packet's bytes go as they come, and then all are there.
fn is_copied(alloc: Global) -> bool {
    let wire = Wire::new();
    let went = match PacketReader::new(alloc, reader_below(&wire, 4)) {
        Ok(mut reader) => copies(&mut reader, &mut Counted(&wire)),
        Err(_) => false,
    };
    went & is_on_time(&wire, 9)
}

// Whether the next packet is passed on, and then the end is found.
fn passes_on(
    reader: &mut PacketReader<Watched<'_>>,
    writer: &mut PacketWriter<Counted<'_>>,
) -> bool {
    let mut codec = PacketCodec::default();
    let mut writer_codec = PacketCodec::default();
    let mut all = true;
    for ended in [true, false] {
        all = all
            && reader.can_copy(&codec)
            && match reader.relay_packet(&mut codec, writer, &mut writer_codec) {
                Ok(answer) => answer == ended,
                Err(_) => false,
            };
    }
    all
}

// The same to a writer of packets.
fn is_passed_to(alloc: Global, reader: &mut PacketReader<Watched<'_>>, wire: &Wire) -> bool {
    match PacketWriter::new(alloc, Counted(wire)) {
        Ok(mut writer) => passes_on(reader, &mut writer),
        Err(_) => false,
    }
}

// Whether a packet's bytes go with headers, and with the end after the packet, in front of which the
// last go.
fn is_passed_on(alloc: Global) -> bool {
    let wire = Wire::new();
    let went = match PacketReader::new(alloc, reader_below(&wire, 0)) {
        Ok(mut reader) => is_passed_to(alloc, &mut reader, &wire),
        Err(_) => false,
    };
    went & is_on_time(&wire, 13)
}

#[test]
fn what_came_has_gone_before_a_read(rt: HostRuntime) -> Result<(), Fail> {
    all_hold(&[is_copied(rt.alloc()), is_passed_on(rt.alloc())])
}
