//! The steps of a test as a table.

use crate::answers::Answer;
use crate::facts::same;
use crate::fixture::{Fixture, Remembered, decoder_of, is_filled};
use crate::targets::{Counting, Target};
use bytes::BytesMut;
use std::alloc::{Allocator, Global};
use std::test::Fail;
use wire_codec::codec::PacketCodec;

/// One thing that a test does, or one that it looks at.
#[derive(Clone, Copy)]
pub enum Step {
    /// The codec is another one, as `default` makes it.
    Fresh,
    /// The limit of a packet becomes this one.
    Limit(usize),
    /// The sequence id becomes 0.
    Reset,
    /// `sync_seq_id` is called, which changes nothing.
    Sync,
    /// These bytes come in after `src`.
    Comes(&'static [u8]),
    /// This many bytes `42` come in after `src`.
    ComesMany(usize),
    /// `src` becomes these bytes.
    Src(&'static [u8]),
    /// `dst` becomes these bytes.
    Dst(&'static [u8]),
    /// `dst` becomes this many bytes `42`.
    DstMany(usize),
    /// The codec's next id becomes this one, counted from 0.
    Id(u8),
    /// The decoder of single chunks becomes the one that remembers this.
    Remember(Remembered),
    /// The request for memory of this number, counted from 0 at this step, is refused, where the
    /// allocator can.
    Refuse(u64),
    /// What follows is for targets that count, which alone refuse puts.
    Counting,
    /// The put of this number into `dst`, counted from 0 at this step, is refused.
    RefusePut(u64),
    /// A packet is encoded after `src`.
    Encode(&'static [u8], Answer),
    /// A packet of this many bytes `42` is encoded after `src`.
    EncodeMany(usize, Answer),
    /// `decode` is called, and answers this.
    Decode(Answer),
    /// A single chunk is decoded under this limit, and the answer is this.
    Chunk(usize, Answer),
    /// `src` is these bytes.
    Left(&'static [u8]),
    /// `src` is this many bytes.
    LeftMany(usize),
    /// `dst` is these bytes.
    Held(&'static [u8]),
    /// `dst` is this many bytes `42`.
    HeldMany(usize),
    /// What the decoder of single chunks remembers.
    Remembers(Remembered),
    /// Whether the codec stands.
    Stands(bool),
    /// Whether the codec stands at another `src` and `dst`.
    StandsAt(&'static [u8], &'static [u8], bool),
    /// How often `dst` was asked for room, and for how much at last. Targets that don't count
    /// skip this.
    Grew(u64, usize),
    /// This many requests for memory may still come before the one that is refused.
    Unasked(u64),
    /// Whether a request was refused.
    Refused(bool),
}

// The number of the first step after which the others are for targets that count; of all, where there
// is none.
fn counting_at(steps: &[Step]) -> usize {
    for i in 0..steps.len() {
        if matches!(steps[i], Step::Counting) {
            return i;
        }
    }
    steps.len()
}

// Changes the codec. Each clause is proved over all that its function has in hand: here that is the
// codec alone.
fn change_codec(codec: &mut PacketCodec, step: Step) {
    match step {
        Step::Fresh => *codec = PacketCodec::default(),
        Step::Limit(limit) => codec.max_allowed_packet = limit,
        Step::Reset => codec.reset_seq_id(),
        Step::Id(id) => codec.set_sequence_id(id),
        Step::Sync => codec.sync_seq_id(),
        _ => {}
    }
}

// Whether these bytes, which are left or held, are as the step says.
fn is_so_many(bytes: &[u8], step: Step) -> bool {
    match step {
        Step::Left(wanted) => same(bytes, wanted),
        Step::LeftMany(len) => bytes.len() == len,
        Step::Held(wanted) => same(bytes, wanted),
        Step::HeldMany(len) => is_filled(bytes, len),
        _ => true,
    }
}

// Each of these looks at the steps of one kind, and hands the others on.
impl<A: Allocator + Copy, T: Target> Fixture<'_, A, T> {
    // Changes something.
    fn changes(&mut self, step: Step) {
        match step {
            Step::Remember(remembered) => self.decoder = decoder_of(remembered),
            Step::Refuse(nth) => self.refuse(nth),
            Step::RefusePut(nth) => {
                self.dst.growth(Some(nth));
            }
            _ => change_codec(&mut self.codec, step),
        }
    }

    // Whether bytes came in.
    fn takes(&mut self, step: Step) -> bool {
        match step {
            Step::Comes(bytes) => self.comes(bytes),
            Step::ComesMany(len) => self.comes_many(len),
            Step::Src(bytes) => self.replace_src(bytes),
            Step::Dst(bytes) => self.replace_dst(bytes),
            Step::DstMany(len) => self.replace_dst_many(len),
            _ => {
                self.changes(step);
                true
            }
        }
    }

    // Whether the codec, the target or the allocator is as the step says.
    fn is_so(&mut self, step: Step) -> bool {
        match step {
            Step::Remembers(remembered) => self.decoder == decoder_of(remembered),
            Step::Stands(stands) => self.stands() == stands,
            Step::StandsAt(src, dst, stands) => self.stands_at(src, dst) == stands,
            Step::Grew(growths, room) => self.grew(growths, room),
            Step::Unasked(left) => self.requests().0 == left,
            Step::Refused(refused) => self.requests().1 == refused,
            _ => self.takes(step),
        }
    }

    // Whether the bytes stand there.
    fn shows(&mut self, step: Step) -> bool {
        match step {
            Step::Left(_) | Step::LeftMany(_) => is_so_many(self.src.as_slice(), step),
            Step::Held(_) | Step::HeldMany(_) => is_so_many(self.dst.as_ref(), step),
            _ => self.is_so(step),
        }
    }

    /// Whether this step goes as it says.
    pub fn goes(&mut self, step: Step) -> bool {
        let (answer, wanted) = match step {
            Step::Encode(payload, wanted) => (self.encode(payload), wanted),
            Step::EncodeMany(len, wanted) => (self.encode_many(len), wanted),
            Step::Decode(wanted) => (self.decode(), wanted),
            Step::Chunk(limit, wanted) => (self.decode_chunk(limit), wanted),
            _ => return self.shows(step),
        };
        answer == wanted
    }

    // Whether the step of this number goes as it says.
    fn goes_at(&mut self, steps: &[Step], i: usize) -> bool {
        match steps.get(i) {
            Some(step) => self.goes(*step),
            None => true,
        }
    }

    /// Goes through these steps, and gives the number of the first that goes otherwise. Each step is
    /// looked at by a function of its own: this one has none in hand.
    pub fn fault(&mut self, steps: &[Step]) -> Option<usize> {
        let counts = self.dst.growth(None).is_some();
        let end = if counts {
            steps.len()
        } else {
            counting_at(steps)
        };
        for i in 0..end {
            if !self.goes_at(steps, i) {
                return Some(i);
            }
        }
        None
    }
}

/// What happens to a codec with empty buffers, under a name.
#[derive(Clone, Copy)]
pub struct Script {
    pub name: &'static str,
    pub steps: &'static [Step],
}

impl Script {
    /// Fails where a step went otherwise.
    pub fn ends(&self, fault: Option<usize>) -> Result<(), Fail> {
        let name = self.name;
        match fault {
            Some(i) => Err(Fail::new(format_args!("{name}: step {i} went otherwise"))),
            None => Ok(()),
        }
    }
}

// The number of the first step that goes otherwise with this target.
fn fault_with<T: Target>(alloc: Global, dst: T, steps: &[Step]) -> Option<usize> {
    Fixture::new(alloc, None, dst).fault(steps)
}

/// The number of the first of these steps that goes otherwise with some kind of target.
pub fn first_fault(alloc: Global, steps: &[Step]) -> Option<usize> {
    let vec = fault_with(alloc, Vec::new(alloc), steps);
    let bytes = fault_with(alloc, BytesMut::new(alloc), steps);
    let counting = fault_with(alloc, Counting::new(alloc), steps);
    vec.or(bytes).or(counting)
}

/// Goes through each script with each kind of target.
pub fn play(alloc: Global, scripts: &[Script]) -> Result<(), Fail> {
    for script in scripts {
        script.ends(first_fault(alloc, script.steps))?;
    }
    Ok(())
}
