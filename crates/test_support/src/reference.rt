//! Framing and delivery once more, slowly, from what a stream is and not from how it comes: the
//! codec is compared with it.
//!
//! A reading is given the whole stream at once. It knows of no pieces and of no call that goes on
//! where another one stopped.

use crate::answers::Answer;
use std::alloc::{AllocError, Global};
use std::mem;
use wire_buf::lengths::MAX_PAYLOAD_LEN;

/// The bytes from `start` to `end`, as far as there are any.
pub fn between(bytes: &[u8], start: usize, end: usize) -> &[u8] {
    let end = end.min(bytes.len());
    let start = start.min(end);
    &bytes[start..end]
}

/// Where the first zero stands, or how many bytes there are where none does.
pub fn first_zero(bytes: &[u8]) -> usize {
    for i in 0..bytes.len() {
        if bytes[i] == 0 {
            return i;
        }
    }
    bytes.len()
}

/// The lowest byte of a number.
pub fn low_byte(n: usize) -> u8 {
    (n % 256) as u8
}

// Appends one chunk: its length in three bytes, the least significant first, its id, and its
// bytes.
fn put_chunk(stream: &mut Vec<u8>, id: usize, bytes: &[u8]) -> Result<(), AllocError> {
    let len = bytes.len();
    let header = [
        low_byte(len),
        low_byte(len / 256),
        low_byte(len / 65536),
        low_byte(id),
    ];
    stream.extend_from_slice(&header)?;
    stream.extend_from_slice(bytes)
}

/// How many chunks a payload of this many bytes has.
pub fn chunk_count(len: usize) -> usize {
    len / MAX_PAYLOAD_LEN + 1
}

/// How many bytes the framing of a payload of this many bytes has.
pub fn framed_len(len: usize) -> usize {
    len.saturating_add(chunk_count(len).saturating_mul(4))
}

/// Appends a payload's framing: chunk number i has the bytes from `i * MAX_PAYLOAD_LEN` on, as many
/// as a chunk holds.
pub fn put_framing(stream: &mut Vec<u8>, first_id: u8, payload: &[u8]) -> Result<(), AllocError> {
    for i in 0..chunk_count(payload.len()) {
        let start = i.saturating_mul(MAX_PAYLOAD_LEN);
        let end = start.saturating_add(MAX_PAYLOAD_LEN);
        let id = i.wrapping_add(first_id as usize);
        put_chunk(stream, id, between(payload, start, end))?;
    }
    Ok(())
}

// A chunk that stands whole in a stream: where its bytes begin and end, and its id.
#[derive(Clone, Copy)]
struct Place {
    start: usize,
    end: usize,
    id: u8,
}

impl Place {
    fn len(&self) -> usize {
        self.end.saturating_sub(self.start)
    }

    // A packet ends with a chunk that isn't full.
    fn is_last(&self) -> bool {
        self.len() < MAX_PAYLOAD_LEN
    }
}

/// The length and the id that the header at this place states, if it is there whole.
pub fn header_at(stream: &[u8], at: usize) -> Option<(usize, u8)> {
    match *between(stream, at, at.saturating_add(4)) {
        [low, middle, high, id] => Some((u32::from_le_bytes([low, middle, high, 0]) as usize, id)),
        _ => None,
    }
}

// The chunk whose header stands at this place, if it is there whole.
fn place_at(stream: &[u8], at: usize) -> Option<Place> {
    let (len, id) = header_at(stream, at)?;
    let start = at.saturating_add(4);
    let end = start.saturating_add(len);
    if stream.len() < end {
        return None;
    }
    Some(Place { start, end, id })
}

// All chunks that stand whole at the front of the stream, whatever their ids and their lengths.
fn whole_chunks(alloc: Global, stream: &[u8]) -> Result<Vec<Place>, AllocError> {
    let mut places = Vec::new(alloc);
    let mut at = 0usize;
    for _ in 0..stream.len() {
        let Some(place) = place_at(stream, at) else {
            break;
        };
        at = place.end;
        places.push(place)?;
    }
    Ok(places)
}

// The id of chunk number `i` of a stream.
fn id_at(first_id: u8, i: usize) -> u8 {
    low_byte(i.wrapping_add(first_id as usize))
}

// How many bytes of a packet stand before chunk number `i`.
fn held_before(places: &[Place], i: usize) -> usize {
    let mut held = 0usize;
    for k in 0..i.min(places.len()) {
        let len = places[k].len();
        held = if len < MAX_PAYLOAD_LEN {
            0
        } else {
            held.saturating_add(len)
        };
    }
    held
}

// Whether chunk number `i` has its id, and its packet is within the limit up to this chunk's end.
fn is_good(places: &[Place], i: usize, first_id: u8, limit: usize) -> bool {
    let Some(place) = places.get(i) else {
        return false;
    };
    let len = place.len();
    let fits = len == 0 || held_before(places, i).saturating_add(len) <= limit;
    fits && place.id == id_at(first_id, i)
}

// How many chunks stand in front of the first that isn't good.
fn good_count(places: &[Place], first_id: u8, limit: usize) -> usize {
    for i in 0..places.len() {
        if !is_good(places, i, first_id, limit) {
            return i;
        }
    }
    places.len()
}

/// What a stream delivers, and what stands there when it stops.
#[derive(Drop)]
pub struct Reading {
    /// The payloads whose framings follow each other at the front.
    pub packets: Vec<Vec<u8>>,
    /// Why it stops.
    pub answer: Answer,
    /// The full chunks of an unfinished payload, and the bytes of a chunk out of sync after them.
    pub held: Vec<u8>,
    /// What is left of the stream begins here.
    pub left: usize,
    /// This many bytes of the stream show its fault. Where it has none, there are never enough.
    pub shown_at: usize,
    /// The id that the next chunk is to bear.
    pub next_id: u8,
}

// What stops a stream, where it goes on with `rest` and this many bytes of a packet are held; and how
// many bytes of `rest` show it.
fn stop(rest: &[u8], held: usize, limit: usize) -> (Answer, usize) {
    let Some((len, _)) = header_at(rest, 0) else {
        return (Answer::Waits, usize::MAX);
    };
    let chunk_len = len.saturating_add(4);
    if len > 0 && held.saturating_add(len) > limit {
        (Answer::TooLarge, 4)
    } else if rest.len() >= chunk_len {
        // A whole chunk, and yet no good one.
        (Answer::OutOfSync, chunk_len)
    } else {
        (Answer::Waits, usize::MAX)
    }
}

impl Reading {
    // Nothing is read yet.
    fn new(alloc: Global, next_id: u8) -> Reading {
        Reading {
            packets: Vec::new(alloc),
            answer: Answer::Waits,
            held: Vec::new(alloc),
            left: 0,
            shown_at: usize::MAX,
            next_id,
        }
    }

    // Takes a good chunk.
    fn take(&mut self, alloc: Global, stream: &[u8], place: Place) -> Result<(), AllocError> {
        self.held
            .extend_from_slice(between(stream, place.start, place.end))?;
        self.left = place.end;
        if place.is_last() {
            let packet = mem::replace(&mut self.held, Vec::new(alloc));
            self.packets.push(packet)?;
        }
        Ok(())
    }

    // Takes these chunks, which are good, and stops after them.
    fn take_all(
        &mut self,
        alloc: Global,
        stream: &[u8],
        places: &[Place],
        limit: usize,
    ) -> Result<(), AllocError> {
        for place in places {
            self.take(alloc, stream, *place)?;
        }
        self.stop(stream, limit)
    }

    // Stops where no good chunk is left.
    fn stop(&mut self, stream: &[u8], limit: usize) -> Result<(), AllocError> {
        let rest = between(stream, self.left, stream.len());
        let (answer, shown_by) = stop(rest, self.held.len(), limit);
        self.answer = answer;
        self.shown_at = self.left.saturating_add(shown_by);
        if answer == Answer::OutOfSync {
            self.left = self.shown_at;
            self.held.extend_from_slice(between(rest, 4, shown_by))?;
        }
        Ok(())
    }
}

/// What this stream delivers, from its first id on and under this limit.
pub fn reading_of(
    alloc: Global,
    first_id: u8,
    limit: usize,
    stream: &[u8],
) -> Result<Reading, AllocError> {
    let places = whole_chunks(alloc, stream)?;
    let count = good_count(places.as_slice(), first_id, limit);
    let mut reading = Reading::new(alloc, id_at(first_id, count));
    let good = &places.as_slice()[..count.min(places.len())];
    reading.take_all(alloc, stream, good, limit)?;
    Ok(reading)
}
