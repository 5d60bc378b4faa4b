//! How packets are taken from a reader and put into a writer: each call, and what it says.

use crate::answers::{answer_by, answer_of};
use refusing_allocator::{NEVER, Refusing};
use std::alloc::{Allocator, Global};
use std::io::{ErrorKind, Read, Write};
use test_support::answers::Answer;
use test_support::facts::same;
use test_support::fixture::Heap;
use test_support::readers::{Narrow, Parts};
use wire_codec::codec::PacketCodec;
use wire_packet_io::{PacketIoError, PacketReader, PacketWriter};

/// How a packet is taken.
#[derive(Clone, Copy)]
pub enum Way {
    /// By `next_packet`.
    HandedOut,
    /// By `fill_packet`, `packet` and `take_packet`.
    Lent,
    /// By `fill_packet` alone.
    Filled,
    /// By `skip_packet`.
    Skipped,
    /// By `copy_packet`.
    Copied,
    /// By `relay_packet`.
    PassedOn,
}

/// A reader of these parts under a limit, a writer, and what they say as packets are taken, call
/// after call.
#[derive(Clone, Copy)]
pub struct Row<'a> {
    pub parts: &'a [(&'a [u8], usize)],
    pub at_once: usize,
    pub until_fault: usize,
    /// How many bytes a write takes, how many it may have, and which write or flush fails.
    pub room: usize,
    pub longest: usize,
    pub until_refusal: usize,
    pub limit: usize,
    /// The limit from the second call on.
    pub later_limit: usize,
    /// The ids that come next on both sides, before and after.
    pub ids: (u8, u8),
    pub ids_after: (u8, u8),
    pub answers: &'a [Answer],
    /// What is handed out or written, and how many bytes after it.
    pub out: &'a [u8],
    pub zeros: usize,
    pub pending: &'a [u8],
    /// What is unread, and how many reads there are, where that is looked at.
    pub unread: Option<&'a [u8]>,
    pub reads: Option<u64>,
}

/// Nothing is answered.
pub const ROW: Row = Row {
    parts: &[],
    at_once: usize::MAX,
    until_fault: usize::MAX,
    room: usize::MAX,
    longest: usize::MAX,
    until_refusal: usize::MAX,
    limit: 3,
    later_limit: 3,
    ids: (0, 7),
    ids_after: (1, 7),
    answers: &[],
    out: b"",
    zeros: 0,
    pending: b"",
    unread: Some(b""),
    reads: None,
};

/// One thing that a taker does, or that is looked at.
#[derive(Clone, Copy)]
pub enum Step {
    /// The limit of the reader's codec becomes this one.
    Limit(usize),
    /// The request for memory of this number, counted from 0 at this step, is refused.
    Refuse(u64),
    /// A packet is taken, and this is answered.
    Says(Way, Answer),
    /// A packet is put into the writer, under the id that the reader's codec has.
    Queues(&'static [u8], Answer),
    /// What is pending is written.
    Writes(Answer),
    /// These bytes were handed out.
    Has(&'static [u8]),
    /// These bytes are pending.
    Pending(&'static [u8]),
    /// This packet is lent.
    Lends(&'static [u8]),
    /// The id that the reader's codec expects.
    Id(u8),
    /// This many reads were made.
    Reads(u64),
    /// Whether the reader fits its codec, and whether it can skip.
    Fits(bool, bool),
}

fn answer_if(answer: Result<bool, PacketIoError>) -> Answer {
    match answer {
        Ok(true) => Answer::Packet,
        Ok(false) => Answer::End,
        Err(error) => answer_of(&error),
    }
}

// A codec whose next id this is.
fn codec_at(id: u8, limit: usize) -> PacketCodec {
    let mut codec = PacketCodec::default();
    codec.max_allowed_packet = limit;
    codec.set_sequence_id(id);
    codec
}

/// A reader and its codec, where packets go that are handed out or copied, and a writer to which
/// they are passed on.
#[derive(Drop)]
pub struct Taker<'a, R: Read, W: Write, A: Allocator + Copy> {
    heap: &'a Heap,
    codec: PacketCodec,
    reader: PacketReader<R, A>,
    out: Narrow,
    writer: PacketWriter<W, A>,
    writer_codec: PacketCodec,
}

impl<'a, A: Allocator + Copy> Taker<'a, Parts<'a>, Narrow, A> {
    /// Nothing is taken yet.
    pub fn new(heap: &'a Heap, alloc: A, kept: Global, row: &Row<'a>) -> Self {
        let input = Parts::new(
            row.parts,
            row.at_once,
            row.until_fault,
            ErrorKind::Interrupted,
        );
        let output = Narrow::new(kept, row.room, row.until_refusal, ErrorKind::BrokenPipe);
        let mut out = Narrow::new(kept, row.room, row.until_refusal, ErrorKind::BrokenPipe);
        out.longest = row.longest;
        Taker {
            heap,
            codec: codec_at(row.ids.0, row.limit),
            reader: PacketReader::new(alloc, input).unwrap(),
            out,
            writer: PacketWriter::new(alloc, output).unwrap(),
            writer_codec: codec_at(row.ids.1, 0),
        }
    }

    // Whether what was handed out or written is as the row says, each read was of 8192 bytes, or, of a
    // copy, of more in a large chunk, and no copy was flushed. And how often the writer was.
    fn ends(self, row: &Row, way: Way) -> (bool, usize) {
        let Taker {
            reader,
            out,
            writer,
            ..
        } = self;
        let input = reader.into_inner();
        let is_even = match way {
            Way::Copied => input.odd_copies == 0,
            _ => input.odd_reads == 0,
        };
        let sent = writer.into_inner();
        (is_even & row.is_sent(&out, &sent), sent.flushes)
    }
}

// Takes a packet that is handed out after the others.
fn keeps<A: Allocator>(out: &mut Vec<u8>, packet: Option<Vec<u8, A>>) -> Answer {
    match packet {
        Some(packet) => {
            let _ = out.extend_from_slice(packet.as_slice());
            Answer::Packet
        }
        None => Answer::End,
    }
}

// What follows is generic in the reader and the writer: that `Parts` is a reader and `Narrow` a writer
// is proved anew in each function that calls through them.

// Takes a packet by `next_packet`, after the others.
fn hands_out<R: Read, A: Allocator + Copy>(
    reader: &mut PacketReader<R, A>,
    codec: &mut PacketCodec,
    out: &mut Vec<u8>,
) -> Answer {
    if !reader.fits(codec) {
        return Answer::Fallen;
    }
    match reader.next_packet(codec) {
        Ok(packet) => keeps(out, packet),
        Err(error) => answer_of(&error),
    }
}

// Has a packet ready by `fill_packet`.
fn fills<R: Read, A: Allocator + Copy>(
    reader: &mut PacketReader<R, A>,
    codec: &mut PacketCodec,
) -> Answer {
    if !reader.fits(codec) {
        return Answer::Fallen;
    }
    answer_if(reader.fill_packet(codec))
}

// Has a packet ready, and takes it after the others.
fn lends<R: Read, A: Allocator + Copy>(
    reader: &mut PacketReader<R, A>,
    codec: &mut PacketCodec,
    out: &mut Vec<u8>,
) -> Answer {
    let answer = fills(reader, codec);
    if answer == Answer::Packet {
        let _ = out.extend_from_slice(reader.packet());
        reader.take_packet();
    }
    answer
}

fn skips<R: Read, A: Allocator + Copy>(
    reader: &mut PacketReader<R, A>,
    codec: &mut PacketCodec,
) -> Answer {
    if !reader.can_skip(codec) {
        return Answer::Fallen;
    }
    answer_if(reader.skip_packet(codec))
}

fn copies<R: Read, W: Write, A: Allocator + Copy>(
    reader: &mut PacketReader<R, A>,
    codec: &mut PacketCodec,
    out: &mut W,
) -> Answer {
    if !reader.can_copy(codec) {
        return Answer::Fallen;
    }
    answer_if(reader.copy_packet(codec, out))
}

fn passes_on<R: Read, W: Write, A: Allocator + Copy>(
    reader: &mut PacketReader<R, A>,
    codec: &mut PacketCodec,
    writer: &mut PacketWriter<W, A>,
    writer_codec: &mut PacketCodec,
) -> Answer {
    if !reader.can_copy(codec) {
        return Answer::Fallen;
    }
    answer_if(reader.relay_packet(codec, writer, writer_codec))
}

impl<R: Read, W: Write, A: Allocator + Copy> Taker<'_, R, W, A> {
    // Puts a packet into the writer. One that is refused stays as it is.
    fn queues(&mut self, bytes: &[u8]) -> Answer {
        let mut packet = bytes;
        let answer = answer_by(self.writer.queue(&mut self.codec, &mut packet));
        let left = if answer == Answer::Done {
            0
        } else {
            bytes.len()
        };
        if packet.len() == left {
            answer
        } else {
            Answer::Wrong
        }
    }

    // One call.
    fn says(&mut self, way: Way) -> Answer {
        match way {
            Way::HandedOut => hands_out(&mut self.reader, &mut self.codec, &mut self.out.taken),
            Way::Lent => lends(&mut self.reader, &mut self.codec, &mut self.out.taken),
            Way::Filled => fills(&mut self.reader, &mut self.codec),
            Way::Skipped => skips(&mut self.reader, &mut self.codec),
            Way::Copied => copies(&mut self.reader, &mut self.codec, &mut self.out),
            Way::PassedOn => passes_on(
                &mut self.reader,
                &mut self.codec,
                &mut self.writer,
                &mut self.writer_codec,
            ),
        }
    }

    // Whether the calls say this, where each is made once more after a refusal of memory, and leave
    // what the row says.
    fn says_all(&mut self, way: Way, row: &Row) -> bool {
        let mut all = true;
        for wanted in row.answers {
            let mut answer = self.says(way);
            if answer == Answer::OutOfMemory {
                answer = self.says(way);
            }
            all &= answer == *wanted;
            self.codec.max_allowed_packet = row.later_limit;
        }
        all & self.is_left(row)
    }

    // Whether all is as the step says. A refusal of memory changes the heap alone.
    fn shows(&self, step: Step) -> bool {
        match step {
            Step::Refuse(nth) => {
                self.heap.refuse(nth);
                true
            }
            Step::Has(out) => same(self.out.taken.as_slice(), out),
            Step::Pending(bytes) => same(self.writer.pending(), bytes),
            Step::Lends(packet) => same(self.reader.packet(), packet),
            Step::Id(id) => self.codec.sequence_id() == id,
            Step::Reads(reads) => self.reader.reads() == reads,
            Step::Fits(fits, can_skip) => {
                let is_fit = self.reader.fits(&self.codec) == fits;
                is_fit & (self.reader.can_skip(&self.codec) == can_skip)
            }
            _ => true,
        }
    }

    // Whether the step goes as it says.
    fn goes(&mut self, step: Step) -> bool {
        match step {
            Step::Says(way, wanted) => self.says(way) == wanted,
            Step::Queues(packet, wanted) => self.queues(packet) == wanted,
            Step::Writes(wanted) => answer_by(self.writer.write_pending()) == wanted,
            Step::Limit(limit) => {
                self.codec.max_allowed_packet = limit;
                true
            }
            _ => self.shows(step),
        }
    }

    // Whether all steps go as they say.
    fn goes_on(&mut self, steps: &[Step]) -> bool {
        let mut all = true;
        for step in steps {
            all &= self.goes(*step);
        }
        all
    }

    // Whether this is unread and pending, and these ids are next.
    fn is_left(&self, row: &Row) -> bool {
        let unread = self.reader.unread();
        same(unread, row.unread.unwrap_or(unread))
            & same(self.writer.pending(), row.pending)
            & (self.codec.sequence_id() == row.ids_after.0)
            & (self.writer_codec.sequence_id() == row.ids_after.1)
            & (self.reader.reads() == row.reads.unwrap_or(self.reader.reads()))
    }
}

impl Row<'_> {
    // Whether this was handed out or written.
    fn is_out(&self, bytes: &[u8]) -> bool {
        match bytes.strip_prefix(self.out) {
            Some(rest) => rest.len() == self.zeros,
            None => false,
        }
    }

    // Whether just this was handed out, or this written, and no copy was flushed.
    fn is_sent(&self, out: &Narrow, sent: &Narrow) -> bool {
        let is_out = self.is_out(out.taken.as_slice()) | self.is_out(sent.taken.as_slice());
        let len = out.taken.len().saturating_add(sent.taken.len());
        is_out & (len == self.out.len().saturating_add(self.zeros)) & (out.flushes == 0)
    }
}

// Whether packets are taken from a row's reader as it says.
fn is_taken<A>(heap: &Heap, alloc: A, kept: Global, way: Way, row: &Row) -> bool
where
    A: Allocator + Copy,
{
    let mut taker = Taker::new(heap, alloc, kept, row);
    taker.says_all(way, row) & taker.ends(row, way).0
}

/// Whether a row goes as it says by a way, where no request for memory is refused, and where each
/// of this many is, of which the last is not made. None is larger than `largest`.
pub fn goes(alloc: Global, way: Way, row: &Row, requests: u64, largest: usize) -> bool {
    let heap = Refusing::new(alloc, NEVER);
    let mut all = is_taken(&heap, &heap, alloc, way, row) & (heap.largest() <= largest);
    for nth in 0..requests {
        heap.refuse(nth);
        all &= is_taken(&heap, &heap, alloc, way, row);
        all &= !heap.has_refused() | (nth + 1 < requests);
    }
    all
}

/// The number of a row that goes otherwise by a way, counted from 0, if there is one.
pub fn wrong_row(
    alloc: Global,
    way: Way,
    rows: &[Row],
    requests: u64,
    largest: usize,
) -> Option<usize> {
    let mut wrong = None;
    for i in 0..rows.len() {
        if !goes(alloc, way, &rows[i], requests, largest) {
            wrong = Some(i);
        }
    }
    wrong
}

/// A row, and what is done one after another; and what was sent and how often the writer was
/// flushed in the end.
pub type Steps = (Row<'static>, &'static [Step], usize);

// Whether they do, with this memory.
fn plays_in<A: Allocator + Copy>(heap: &Heap, alloc: A, kept: Global, steps: &Steps) -> bool {
    let (row, steps, flushes) = steps;
    let mut taker = Taker::new(heap, alloc, kept, row);
    taker.goes_on(*steps) & (taker.ends(row, Way::HandedOut) == (true, *flushes))
}

/// Whether the steps go as they say.
pub fn plays(alloc: Global, steps: Steps) -> bool {
    let heap = Refusing::new(alloc, NEVER);
    plays_in(&heap, &heap, alloc, &steps)
}
