//! Packets over a reader and a writer.

use crate::check::{REFUSED, summary};
use mysql_wire::proto::codec::PacketCodec;
use mysql_wire::proto::packet_io::{PacketIoError, PacketReader, PacketWriter};
use std::alloc::Global;
use std::io;
use std::io::{ErrorKind, Read, Write};

// The same bytes again and again, with an end of input after them each time.
#[derive(Drop)]
pub(crate) struct Again<'a> {
    bytes: &'a [u8],
    left: &'a [u8],
}

impl<'a> Again<'a> {
    pub(crate) fn new(bytes: &'a [u8]) -> Self {
        Again { bytes, left: bytes }
    }
}

impl Read for Again<'_> {
    fn read(&mut self, buf: &mut [u8]) -> io::Result<usize> {
        let mut left = self.left;
        let count = left.read(buf)?;
        self.left = if count == 0 { self.bytes } else { left };
        Ok(count)
    }
}

// The packets up to the next end of the input.
fn read(
    reader: &mut PacketReader<Again<'_>>,
    codec: &mut PacketCodec,
) -> Result<u64, PacketIoError> {
    let mut sum = 0u64;
    codec.reset_seq_id();
    'packets: for _ in 0..u64::MAX {
        if !reader.fits(codec) {
            return Err(PacketIoError::PacketsOutOfSync);
        }
        match reader.next_packet(codec)? {
            Some(packet) => sum = sum.wrapping_add(summary(packet.as_slice())),
            None => return Ok(sum),
        }
    }
    Ok(sum)
}

// The same, each lent by the reader.
fn read_lent(
    reader: &mut PacketReader<Again<'_>>,
    codec: &mut PacketCodec,
) -> Result<u64, PacketIoError> {
    let mut sum = 0u64;
    codec.reset_seq_id();
    'packets: for _ in 0..u64::MAX {
        if !reader.fits(codec) {
            return Err(PacketIoError::PacketsOutOfSync);
        }
        if !reader.fill_packet(codec)? {
            return Ok(sum);
        }
        sum = sum.wrapping_add(summary(reader.packet()));
        reader.take_packet();
    }
    Ok(sum)
}

/// A stream of whole packets, whose ids begin with 0, read under `limit`: form 0 by `next_packet`,
/// form 1 by `fill_packet`, `packet` and `take_packet`.
#[unsafe(no_mangle)]
pub extern "C" fn mw_read(alloc: Global, bytes: &[u8], limit: u64, form: u64, reps: u64) -> u64 {
    let Ok(mut reader) = PacketReader::new(alloc, Again::new(bytes)) else {
        return REFUSED;
    };
    let mut codec = PacketCodec::default();
    codec.max_allowed_packet = limit as usize;
    let mut sum = 0u64;
    for _ in 0..reps {
        let summed = if form == 0 {
            read(&mut reader, &mut codec)
        } else {
            read_lent(&mut reader, &mut codec)
        };
        match summed {
            Ok(value) => sum = sum.wrapping_add(value),
            Err(_) => return REFUSED,
        }
    }
    sum
}

// Keeps the bytes of the last write.
#[derive(Drop)]
pub(crate) struct Last {
    bytes: Vec<u8>,
    sum: u64,
}

impl Last {
    pub(crate) fn new(alloc: Global) -> Self {
        Last {
            bytes: Vec::new(alloc),
            sum: 0,
        }
    }
}

impl Write for Last {
    fn write(&mut self, buf: &[u8]) -> io::Result<usize> {
        self.bytes.clear();
        if self.bytes.extend_from_slice(buf).is_err() {
            return Err(io::Error::from(ErrorKind::OutOfMemory));
        }
        self.sum = self.sum.wrapping_add(summary(self.bytes.as_slice()));
        Ok(buf.len())
    }

    fn flush(&mut self) -> io::Result<()> {
        Ok(())
    }
}

// The payload queued `count` times, and written at once.
fn write(
    writer: &mut PacketWriter<Last>,
    codec: &mut PacketCodec,
    payload: &[u8],
    count: u64,
) -> Result<(), PacketIoError> {
    codec.reset_seq_id();
    for _ in 0..count {
        let mut packet = payload;
        writer.queue(codec, &mut packet)?;
    }
    writer.write_pending()
}

/// `bytes` queued `count` times a repetition, and written at once into a vector.
#[unsafe(no_mangle)]
pub extern "C" fn mw_write(alloc: Global, bytes: &[u8], count: u64, reps: u64) -> u64 {
    let Ok(mut writer) = PacketWriter::new(alloc, Last::new(alloc)) else {
        return REFUSED;
    };
    let mut codec = PacketCodec::default();
    codec.max_allowed_packet = bytes.len();
    for _ in 0..reps {
        if write(&mut writer, &mut codec, bytes, count).is_err() {
            return REFUSED;
        }
    }
    writer.into_inner().sum
}

// Keeps the bytes of the last write, and counts those of all: a packet that a read cuts is written in
// two parts.
#[derive(Drop)]
pub(crate) struct Counted {
    bytes: Vec<u8>,
    count: u64,
}

impl Write for Counted {
    fn write(&mut self, buf: &[u8]) -> io::Result<usize> {
        self.bytes.clear();
        if self.bytes.extend_from_slice(buf).is_err() {
            return Err(io::Error::from(ErrorKind::OutOfMemory));
        }
        self.count = self.count.wrapping_add(buf.len() as u64);
        Ok(buf.len())
    }

    fn flush(&mut self) -> io::Result<()> {
        Ok(())
    }
}

// The two sides of a connection that is passed on.
#[derive(Drop)]
pub(crate) struct Passed<'a> {
    pub(crate) reader: PacketReader<Again<'a>>,
    pub(crate) codec: PacketCodec,
    pub(crate) writer: PacketWriter<Counted>,
    pub(crate) writer_codec: PacketCodec,
}

impl Passed<'_> {
    // Each packet up to the next end of the input, written by itself.
    fn relay(&mut self) -> Result<(), PacketIoError> {
        'packets: for _ in 0..u64::MAX {
            if !self.reader.can_copy(&self.codec) {
                return Err(PacketIoError::PacketsOutOfSync);
            }
            if !self
                .reader
                .relay_packet(&mut self.codec, &mut self.writer, &mut self.writer_codec)?
            {
                return Ok(());
            }
            self.writer.write_pending()?;
        }
        Ok(())
    }

    // The same by a packet that is lent and queued.
    fn queue(&mut self) -> Result<(), PacketIoError> {
        'packets: for _ in 0..u64::MAX {
            if !self.reader.fits(&self.codec) {
                return Err(PacketIoError::PacketsOutOfSync);
            }
            if !self.reader.fill_packet(&mut self.codec)? {
                return Ok(());
            }
            let mut packet = self.reader.packet();
            self.writer.queue(&mut self.writer_codec, &mut packet)?;
            self.reader.take_packet();
            self.writer.write_pending()?;
        }
        Ok(())
    }
}

// Both sides, in front of the stream.
pub(crate) fn both_sides(
    alloc: Global,
    bytes: &[u8],
    limit: u64,
) -> Result<Passed<'_>, PacketIoError> {
    let output = Counted {
        bytes: Vec::new(alloc),
        count: 0,
    };
    let mut codec = PacketCodec::default();
    codec.max_allowed_packet = limit as usize;
    let mut writer_codec = PacketCodec::default();
    writer_codec.max_allowed_packet = limit as usize;
    Ok(Passed {
        reader: PacketReader::new(alloc, Again::new(bytes))?,
        codec,
        writer: PacketWriter::new(alloc, output)?,
        writer_codec,
    })
}

/// A stream of whole packets, whose ids begin with 0, of which each is passed on and written: form 0
/// by `relay_packet`, form 1 lent by `fill_packet` and queued. The answer is how many bytes were
/// written.
#[unsafe(no_mangle)]
pub extern "C" fn mw_relay_each(
    alloc: Global,
    bytes: &[u8],
    limit: u64,
    form: u64,
    reps: u64,
) -> u64 {
    let Ok(mut passed) = both_sides(alloc, bytes, limit) else {
        return REFUSED;
    };
    for _ in 0..reps {
        passed.codec.reset_seq_id();
        passed.writer_codec.reset_seq_id();
        let went = if form == 0 {
            passed.relay()
        } else {
            passed.queue()
        };
        if went.is_err() {
            return REFUSED;
        }
    }
    passed.writer.into_inner().count
}
