//! What all results together are told by.

use std::io;
use std::io::Write;

/// Fletcher's checksum, over words of 64 bits.
#[derive(Clone, Copy)]
pub struct Digest {
    sum: u64,
    sums: u64,
}

impl Digest {
    /// Of nothing.
    pub fn new() -> Self {
        Digest { sum: 0, sums: 0 }
    }

    /// Adds a word.
    pub fn add(&mut self, word: u64) {
        self.sum = self.sum.wrapping_add(word);
        self.sums = self.sums.wrapping_add(self.sum);
    }

    // Adds the whole words at the front; what is left is shorter than a word.
    fn add_words<'a>(&mut self, bytes: &'a [u8]) -> &'a [u8] {
        let (words, rest) = bytes.as_chunks::<8>();
        let mut digest = *self;
        for word in words {
            digest.add(u64::from_le_bytes(*word));
        }
        *self = digest;
        rest
    }

    /// Adds some bytes, and how many they are.
    pub fn add_bytes(&mut self, bytes: &[u8]) {
        let rest = self.add_words(bytes);
        let mut last = bytes.len() as u64;
        for byte in rest {
            last = last.wrapping_mul(256).wrapping_add(*byte as u64);
        }
        self.add(last);
    }

    /// The whole, as one number.
    pub fn value(self) -> u64 {
        self.sum ^ self.sums.wrapping_mul(0x9e37_79b9_7f4a_7c15)
    }
}

/// A writer that keeps the digest of what is written, in whatever pieces it comes.
#[derive(Drop)]
pub struct Sink {
    digest: Digest,
    // What came after the last whole word.
    rest: Vec<u8>,
}

impl Sink {
    /// Nothing is written yet. A few bytes lie in `rest`, which is empty.
    pub fn new(rest: Vec<u8>) -> Self {
        Sink {
            digest: Digest::new(),
            rest,
        }
    }

    /// The digest of all that was written.
    pub fn value(&self) -> u64 {
        let mut digest = self.digest;
        digest.add_bytes(self.rest.as_slice());
        digest.value()
    }
}

impl Write for Sink {
    fn write(&mut self, buf: &[u8]) -> io::Result<usize> {
        let mut left = buf;
        if !self.rest.is_empty() {
            let missing = 8usize.saturating_sub(self.rest.len());
            let (front, behind) = buf.split_at(missing.min(buf.len()));
            self.rest.extend_from_slice(front)?;
            left = behind;
            if self.rest.len() >= 8 {
                let _ = self.digest.add_words(self.rest.as_slice());
                self.rest.clear();
            }
        }
        if self.rest.is_empty() {
            let rest = self.digest.add_words(left);
            self.rest.extend_from_slice(rest)?;
        }
        Ok(buf.len())
    }

    fn flush(&mut self) -> io::Result<()> {
        Ok(())
    }
}
