//! Numbers and texts without order, the same ones from each seed.

ghost use Rattle.std.specs.Prelude.{◌≤◌};

use rand_core::{Rng, SeedableRng};
use rand_xoshiro::Xoshiro256PlusPlus;
use std::alloc::{AllocError, Global};

// The letters of plain texts.
const PLAIN: &[u8; 64] = b"ABCDEFGHIJKLMNOPQRSTUVWXYZabcdefghijklmnopqrstuvwxyz0123456789 .";

// Letters, and what is quoted where a text is shown.
const QUOTED: &[u8; 64] =
    b"a\"b\\c\nd\te/f'g\x01h\x1fi jklmnopqrstuvwxyz0123456789 .,;:-_ABCDEFGHI\"!?";

// How many letters of each kind stand by.
const LETTERS: usize = 24576;

/// What numbers are drawn from.
#[derive(Drop)]
pub struct Draws {
    rng: Xoshiro256PlusPlus,
}

impl Draws {
    /// The numbers of this seed.
    pub fn new(seed: u64) -> Self {
        Draws {
            rng: Xoshiro256PlusPlus::seed_from_u64(seed),
        }
    }

    // A number of 64 bits.
    pub(crate) fn word(&mut self) -> u64 {
        self.rng.next_u64()
    }

    /// A number below `n`, which is below 2^32, or 0 where there is none.
    pub fn below(&mut self, n: usize) -> usize
        ensures { result ≤ n }
    {
        let high = self.word() >> 32;
        ((high.wrapping_mul(n as u64) >> 32) as usize).min(n)
    }

    // A byte.
    pub(crate) fn byte(&mut self) -> u8 {
        (self.word() & 0xff) as u8
    }
}

/// Letters, of which each text is a part.
#[derive(Drop)]
pub struct Letters {
    plain: Vec<u8>,
    quoted: Vec<u8>,
    // Chinese letters, of three bytes each.
    wide: Vec<u8>,
}

// What a text is made of.
#[derive(Clone, Copy)]
pub(crate) enum Script {
    Plain,
    Quoted,
    Wide,
}

impl Letters {
    /// Drawn ones.
    pub fn new(alloc: Global, draws: &mut Draws) -> Result<Self, AllocError> {
        let mut plain = Vec::new(alloc);
        let mut quoted = Vec::new(alloc);
        let mut wide = Vec::new(alloc);
        for _ in 0..LETTERS {
            let word = draws.word();
            plain.push(PLAIN[(word % 64) as usize])?;
            quoted.push(QUOTED[(word / 64 % 64) as usize])?;
            let second = 0x80 + (word / 4096 % 64) as u8;
            let third = 0x80 + (word / 262144 % 64) as u8;
            wide.extend_from_slice(&[0xe5, second, third])?;
        }
        Ok(Letters {
            plain,
            quoted,
            wide,
        })
    }

    // A text of about this many bytes, at most 4,096.
    pub(crate) fn text(&self, draws: &mut Draws, script: Script, len: usize) -> &[u8] {
        let len = len.min(4096);
        let start = draws.below(LETTERS - 4096);
        match script {
            Script::Plain => part(self.plain.as_slice(), start, len),
            Script::Quoted => part(self.quoted.as_slice(), start, len),
            Script::Wide => part(self.wide.as_slice(), 3 * start, 3 * (len / 3)),
        }
    }
}

// This many bytes from there on, or as many as there are.
fn part(bytes: &[u8], start: usize, len: usize) -> &[u8] {
    let (_, behind) = bytes.split_at(start.min(bytes.len()));
    let (front, _) = behind.split_at(len.min(behind.len()));
    front
}
