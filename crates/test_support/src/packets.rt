//! A reader and a writer of packets, each with its codec, whose answers can be compared.

use crate::answers::Answer;
use crate::facts::same;
use std::alloc::Allocator;
use std::fmt::{self, Debug, Write};
use std::io::{self, Sink};
use wire_codec::codec::PacketCodec;
use wire_packet_io::{PacketIoError, PacketReader, PacketWriter};

fn answer_of(error: &PacketIoError) -> Answer {
    match error {
        PacketIoError::Io(_) => Answer::Io,
        PacketIoError::UnexpectedEnd => Answer::UnexpectedEof,
        PacketIoError::WriteZero => Answer::WriteZero,
        PacketIoError::PacketTooLarge => Answer::TooLarge,
        PacketIoError::PacketsOutOfSync => Answer::OutOfSync,
        PacketIoError::OutOfMemory => Answer::OutOfMemory,
    }
}

fn answer_if(answer: Result<bool, PacketIoError>) -> Result<bool, Answer> {
    match answer {
        Ok(is_there) => Ok(is_there),
        Err(error) => Err(answer_of(&error)),
    }
}

/// What a writer answered.
pub fn answer_by(answer: Result<(), PacketIoError>) -> Answer {
    match answer {
        Ok(()) => Answer::Done,
        Err(error) => answer_of(&error),
    }
}

/// Counts the bytes of what is shown.
#[derive(Drop)]
struct Length(usize);

impl fmt::Write for Length {
    fn write_str(&mut self, text: &str) -> fmt::Result {
        self.0 = self.0.saturating_add(text.len());
        Ok(())
    }
}

/// How many bytes a value shows itself in.
pub fn shown_len(value: &impl Debug) -> usize {
    let mut text = Length(0);
    let _ = write!(text, "{value:?}");
    text.0
}

/// A reader over these bytes.
#[derive(Drop)]
pub struct Source<'a, A: Allocator + Copy> {
    pub reader: PacketReader<&'a [u8], A>,
    pub codec: PacketCodec,
}

impl<'a, A: Allocator + Copy> Source<'a, A> {
    pub fn new(alloc: A, bytes: &'a [u8]) -> Option<Self> {
        Some(Source {
            reader: PacketReader::new(alloc, bytes).ok()?,
            codec: PacketCodec::default(),
        })
    }

    /// Whether the next packet is this one.
    pub fn next_is(&mut self, packet: &[u8]) -> Result<bool, Answer> {
        if !self.reader.fits(&self.codec) {
            return Err(Answer::Fallen);
        }
        match self.reader.next_packet(&mut self.codec) {
            Ok(Some(next)) => Ok(same(next.as_slice(), packet)),
            Ok(None) => Ok(false),
            Err(error) => Err(answer_of(&error)),
        }
    }

    /// Whether a packet stands ready now, or there is none.
    pub fn fill(&mut self) -> Result<bool, Answer> {
        if !self.reader.fits(&self.codec) {
            return Err(Answer::Fallen);
        }
        answer_if(self.reader.fill_packet(&mut self.codec))
    }

    /// Whether a packet was skipped, or there is none.
    pub fn skip(&mut self) -> Result<bool, Answer> {
        if !self.reader.can_skip(&self.codec) {
            return Err(Answer::Fallen);
        }
        answer_if(self.reader.skip_packet(&mut self.codec))
    }

    /// Whether a packet was copied to nowhere, or there is none.
    pub fn copy(&mut self) -> Result<bool, Answer> {
        if !self.reader.can_copy(&self.codec) {
            return Err(Answer::Fallen);
        }
        answer_if(self.reader.copy_packet(&mut self.codec, &mut io::sink()))
    }

    /// Whether a packet was passed on, or there is none.
    pub fn relay(&mut self, to: &mut Outlet<A>) -> Result<bool, Answer> {
        if !self.reader.can_copy(&self.codec) {
            return Err(Answer::Fallen);
        }
        answer_if(
            self.reader
                .relay_packet(&mut self.codec, &mut to.writer, &mut to.codec),
        )
    }

    /// Whether this packet stands ready.
    pub fn lends(&self, packet: &[u8]) -> bool {
        self.reader.is_ready(&self.codec) && same(self.reader.packet(), packet)
    }

    /// Takes the packet that stands ready, if one does.
    pub fn take(&mut self) -> bool {
        let is_ready = self.reader.is_ready(&self.codec);
        self.reader.take_packet();
        is_ready
    }

    /// Drops all unread bytes, behind a packet that stands ready: whether they were these.
    pub fn consume(&mut self, bytes: &[u8]) -> bool {
        self.reader.take_packet();
        let unread = self.reader.unread();
        let (len, all) = (unread.len(), same(unread, bytes));
        self.reader.consume(len);
        all & self.reader.unread().is_empty()
    }
}

/// A writer to nowhere.
#[derive(Drop)]
pub struct Outlet<A: Allocator + Copy> {
    pub writer: PacketWriter<Sink, A>,
    pub codec: PacketCodec,
}

impl<A: Allocator + Copy> Outlet<A> {
    pub fn new(alloc: A) -> Option<Self> {
        Some(Outlet {
            writer: PacketWriter::new(alloc, io::sink()).ok()?,
            codec: PacketCodec::default(),
        })
    }

    pub fn queue(&mut self, packet: &mut &[u8]) -> Answer {
        answer_by(self.writer.queue(&mut self.codec, packet))
    }
}
