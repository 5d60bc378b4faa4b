//! A stream beside its reference reading, and whether a run ends as the reading says.

use crate::answers::Answer;
use crate::facts::same;
use crate::receiver::{Receiver, Run, are_packets, pieces_from};
use crate::reference::{Reading, between, reading_of};
use std::alloc::{AllocError, Allocator, Global};

/// A stream, and the reading of all of it.
#[derive(Drop)]
pub struct Case<'a> {
    pub first_id: u8,
    pub limit: usize,
    pub stream: &'a [u8],
    pub reading: Reading,
}

// The least number of pieces that brings what shows the fault, where this many bytes are there
// already; all of them where there is none.
fn least_count(shown_at: usize, there: usize, pieces: &[&[u8]]) -> usize {
    let mut there = there;
    for (i, piece) in pieces.iter().enumerate() {
        if there >= shown_at {
            return i;
        }
        there = there.saturating_add(piece.len());
    }
    pieces.len()
}

/// Whether two lists, each with an allocator of its own, have the same packets.
pub fn are_same<A: Allocator>(packets: &[Vec<u8, A>], wanted: &[Vec<u8>]) -> bool {
    let mut all = packets.len() == wanted.len();
    for i in 0..packets.len().min(wanted.len()) {
        all &= same(packets[i].as_slice(), wanted[i].as_slice());
    }
    all
}

// Whether the pieces one after another are these bytes.
fn are_joined(pieces: &[&[u8]], bytes: &[u8]) -> bool {
    let mut rest = bytes;
    let mut all = true;
    for piece in pieces {
        let (front, more) = rest.split_at(piece.len().min(rest.len()));
        all &= same(front, *piece);
        rest = more;
    }
    all & rest.is_empty()
}

impl<'a> Case<'a> {
    pub fn new(
        alloc: Global,
        first_id: u8,
        limit: usize,
        stream: &'a [u8],
    ) -> Result<Self, AllocError> {
        Ok(Case {
            first_id,
            limit,
            stream,
            reading: reading_of(alloc, first_id, limit, stream)?,
        })
    }

    /// A receiver that expects the case's first id under its limit.
    pub fn receiver<A: Allocator + Copy>(&self, alloc: A) -> Receiver<A> {
        let mut receiver = Receiver::new(alloc, self.limit);
        receiver.codec.set_sequence_id(self.first_id);
        receiver
    }

    // Whether what stands in `src`, and then the pieces that were not appended, are left.
    fn is_left(&self, src: &[u8], pieces: &[&[u8]]) -> bool {
        let left = between(self.stream, self.reading.left, self.stream.len());
        match left.strip_prefix(src) {
            Some(rest) => are_joined(pieces, rest),
            None => false,
        }
    }

    // Whether a receiver ended as the reading says, with this answer, and left these pieces.
    fn ends<A: Allocator + Copy>(
        &self,
        receiver: &Receiver<A>,
        answer: Answer,
        left: &[&[u8]],
    ) -> bool {
        let mut all = are_same(receiver.out.as_slice(), self.reading.packets.as_slice());
        all &= same(receiver.dst.as_slice(), self.reading.held.as_slice());
        all &= self.is_left(receiver.src.as_slice(), left);
        all &= receiver.codec.max_allowed_packet == self.limit;
        all &= (answer == Answer::OutOfSync) | receiver.stands();
        all & (answer == self.reading.answer)
    }

    /// Whether a receiver that had this many bytes in `src`, and then took pieces, ended as the
    /// reading says: no more pieces were appended than are needed, and no id is raised twice.
    pub fn is_ended<A: Allocator + Copy>(
        &self,
        receiver: &Receiver<A>,
        there: usize,
        pieces: &[&[u8]],
        run: Run,
    ) -> bool {
        let (count, answer) = run;
        let mut all = self.ends(receiver, answer, pieces_from(pieces, count));
        all &= count == least_count(self.reading.shown_at, there, pieces);
        all & (receiver.codec.sequence_id() == self.reading.next_id)
    }

    /// Whether the stream in pieces, the first bytes in `src` and the first pieces in a run of
    /// their own, is delivered as its reading says.
    pub fn agrees(&self, alloc: Global, src: &[u8], pieces: &[&[u8]], first: usize) -> bool {
        let mut receiver = self.receiver(alloc);
        let comes = receiver.src.extend_from_slice(src).is_ok();
        let run = receiver.deliver_in_two(pieces, first);
        comes && self.is_ended(&receiver, src.len(), pieces, run)
    }

    /// Whether it is so where the first run stops at a lower limit, and the next goes on under the
    /// case's.
    pub fn agrees_raised(&self, alloc: Global, limit: usize, pieces: &[&[u8]]) -> bool {
        let mut receiver = self.receiver(alloc);
        receiver.codec.max_allowed_packet = limit;
        let (count, answer) = receiver.deliver_raised(pieces, self.limit);
        self.ends(&receiver, answer, pieces_from(pieces, count))
    }
}

/// What a stream must be read as.
#[derive(Clone, Copy)]
pub struct Wanted<'a> {
    pub packets: &'a [&'a [u8]],
    pub answer: Answer,
    pub held: &'a [u8],
    pub left: usize,
}

impl Wanted<'_> {
    /// Whether it is read so.
    pub fn is_read(&self, reading: &Reading) -> bool {
        let mut all = are_packets(reading.packets.as_slice(), self.packets);
        all &= same(reading.held.as_slice(), self.held);
        all & (reading.answer == self.answer) & (reading.left == self.left)
    }
}
