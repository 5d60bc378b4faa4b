//! Generated streams: well formed, cut short and damaged, each from a seed.

use crate::reference::{between, low_byte, put_framing};
use rand_core::{Rng, SeedableRng};
use rand_xoshiro::Xoshiro256PlusPlus;
use std::alloc::{AllocError, Global};

/// Numbers without order, the same ones from each seed.
#[derive(Drop)]
pub struct Draws {
    rng: Xoshiro256PlusPlus,
}

impl Draws {
    pub fn new(seed: u64) -> Draws {
        Draws {
            rng: Xoshiro256PlusPlus::seed_from_u64(seed),
        }
    }

    /// A number below `n`, or 0 where there is none.
    pub fn below(&mut self, n: usize) -> usize {
        let word = self.rng.next_u64() as usize;
        if n == 0 { 0 } else { word % n }
    }

    /// One of these.
    pub fn one_of(&mut self, numbers: &[usize]) -> usize {
        let i = self.below(numbers.len());
        numbers.get(i).copied().unwrap_or(0)
    }
}

/// Packets framed one after another, where each one's header begins, and how long it is.
#[derive(Drop)]
pub struct Stream {
    pub bytes: Vec<u8>,
    pub headers: Vec<usize>,
    pub lens: Vec<usize>,
}

// Fills the front of some bytes, and gives it.
fn payload<'a>(draws: &mut Draws, bytes: &'a mut [u8]) -> &'a [u8] {
    let len = draws.below(7).min(bytes.len());
    for i in 0..len {
        bytes[i] = low_byte(draws.below(4));
    }
    &bytes[..len]
}

impl Stream {
    // Puts a packet after the others.
    fn put(&mut self, id: u8, payload: &[u8]) -> Result<(), AllocError> {
        self.headers.push(self.bytes.len())?;
        self.lens.push(payload.len())?;
        put_framing(&mut self.bytes, id, payload)
    }

    // Puts a few small packets, their ids beginning with this one.
    fn fill(&mut self, draws: &mut Draws, first_id: u8) -> Result<(), AllocError> {
        let mut id = first_id;
        for _ in 0..draws.below(6) {
            let mut bytes = [0u8; 6];
            self.put(id, payload(draws, &mut bytes))?;
            id = id.wrapping_add(1);
        }
        Ok(())
    }

    fn set(&mut self, at: usize, byte: u8) {
        if at < self.bytes.len() {
            self.bytes[at] = byte;
        }
    }

    // Damages it in one of five ways, of which the first is none.
    fn damage(&mut self, draws: &mut Draws) {
        let header = draws.one_of(self.headers.as_slice());
        match draws.below(5) {
            0 => {}
            // Cut short.
            1 => self.bytes.truncate(draws.below(self.bytes.len())),
            // Another id.
            2 => self.set(header.saturating_add(3), low_byte(draws.below(256))),
            // Another length.
            3 => {
                let byte = draws.below(3);
                let len = draws.below(9);
                self.set(header.saturating_add(byte), low_byte(len));
            }
            // Another byte somewhere.
            _ => {
                let at = draws.below(self.bytes.len());
                self.set(at, low_byte(draws.below(256)));
            }
        }
    }

    /// A few small packets, of which one may be damaged.
    pub fn damaged(alloc: Global, draws: &mut Draws, first_id: u8) -> Result<Stream, AllocError> {
        let mut stream = Stream {
            bytes: Vec::new(alloc),
            headers: Vec::new(alloc),
            lens: Vec::new(alloc),
        };
        stream.fill(draws, first_id)?;
        stream.damage(draws);
        Ok(stream)
    }

    /// A limit near one of the packets, or none.
    pub fn limit(&self, draws: &mut Draws) -> usize {
        let len = draws.one_of(self.lens.as_slice());
        draws.one_of(&[
            usize::MAX,
            len.saturating_sub(1),
            len,
            len.saturating_add(1),
        ])
    }
}

/// The stream in pieces of a few bytes, empty ones among them.
pub fn pieces_of<'a>(
    alloc: Global,
    draws: &mut Draws,
    stream: &'a [u8],
) -> Result<Vec<&'a [u8]>, AllocError> {
    let mut pieces = Vec::new(alloc);
    let mut rest = stream;
    for _ in 0..stream.len() {
        let (piece, behind) = rest.split_at(draws.below(5).min(rest.len()));
        pieces.push(piece)?;
        rest = behind;
    }
    pieces.push(rest)?;
    Ok(pieces)
}
