//! Readers that go a few bytes at a time and fail once, and such a writer.

ghost use Rattle.std.specs.Prelude.{◌≤◌, length};

use std::alloc::Global;
use std::io::{self, ErrorKind, Read, Write};

/// Gives one byte a read, and fails so at the read of this number, counted from 0.
#[derive(Drop)]
pub struct OneByOne<'a> {
    pub bytes: &'a [u8],
    pub until_fault: usize,
    pub kind: ErrorKind,
}

impl Read for OneByOne<'_> {
    fn read(&mut self, buf: &mut [u8]) -> io::Result<usize> {
        if self.until_fault == 0 {
            return Err(io::Error::from(self.kind));
        }
        self.until_fault -= 1;
        let (front, rest) = self.bytes.split_at(self.bytes.len().min(buf.len()).min(1));
        buf[..front.len()].copy_from_slice(front);
        self.bytes = rest;
        Ok(front.len())
    }
}

/// Gives parts, each in reads of its own: these bytes, and this many zeros after them, which take no
/// memory. Gives this many bytes a read at most, and fails once, at the read of this number. Counts the
/// reads that are asked for another number of bytes than 8192, and those of a copy that are asked for
/// another: for as many of a part's zeros as are left, where these are more, up to 65536.
#[derive(Drop)]
pub struct Parts<'a> {
    parts: &'a [(&'a [u8], usize)],
    bytes: &'a [u8],
    zeros: usize,
    at_once: usize,
    pub until_fault: usize,
    kind: ErrorKind,
    pub odd_reads: usize,
    pub odd_copies: usize,
}

impl<'a> Parts<'a> {
    /// Nothing is read yet.
    pub fn new(
        parts: &'a [(&'a [u8], usize)],
        at_once: usize,
        until_fault: usize,
        kind: ErrorKind,
    ) -> Self {
        Parts {
            parts,
            bytes: b"",
            zeros: 0,
            at_once,
            until_fault,
            kind,
            odd_reads: 0,
            odd_copies: 0,
        }
    }

    // Begins the next part after a part's end.
    fn begin(&mut self) {
        if !self.bytes.is_empty() | (self.zeros > 0) {
            return;
        }
        if let [(bytes, zeros), rest @ ..] = self.parts {
            self.bytes = *bytes;
            self.zeros = *zeros;
            self.parts = rest;
        }
    }

    // Gives zeros, and tells how many.
    fn fill(&mut self, buf: &mut [u8]) -> usize
        ensures { result ≤ length buf.new }
    {
        let count = self.zeros.min(buf.len());
        buf[..count].fill(0);
        self.zeros -= count;
        count
    }
}

impl Read for Parts<'_> {
    fn read(&mut self, buf: &mut [u8]) -> io::Result<usize> {
        let is_odd = usize::from(buf.len() != 8192);
        self.odd_reads = self.odd_reads.saturating_add(is_odd);
        let is_odd = usize::from(buf.len() != self.zeros.min(65536).max(8192));
        self.odd_copies = self.odd_copies.saturating_add(is_odd);
        self.until_fault = self.until_fault.wrapping_sub(1);
        if self.until_fault == usize::MAX {
            return Err(io::Error::from(self.kind));
        }
        let room = buf.len().min(self.at_once);
        self.begin();
        if self.bytes.is_empty() {
            Ok(self.fill(&mut buf[..room]))
        } else {
            self.bytes.read(&mut buf[..room])
        }
    }
}

/// Takes this many bytes a write at most, refuses a longer write than it may be, and fails once, at the
/// write or flush of this number.
#[derive(Drop)]
pub struct Narrow {
    pub taken: Vec<u8>,
    pub at_once: usize,
    pub longest: usize,
    pub until_fault: usize,
    pub kind: ErrorKind,
    pub flushes: usize,
}

impl Narrow {
    /// Nothing is written yet.
    pub fn new(alloc: Global, at_once: usize, until_fault: usize, kind: ErrorKind) -> Narrow {
        Narrow {
            taken: Vec::new(alloc),
            at_once,
            longest: usize::MAX,
            until_fault,
            kind,
            flushes: 0,
        }
    }
}

impl Write for Narrow {
    fn write(&mut self, buf: &[u8]) -> io::Result<usize> {
        self.until_fault = self.until_fault.wrapping_sub(1);
        if (self.until_fault == usize::MAX) | (buf.len() > self.longest) {
            return Err(io::Error::from(self.kind));
        }
        let room = buf.len().min(self.at_once);
        self.taken.write(&buf[..room])
    }

    fn flush(&mut self) -> io::Result<()> {
        self.until_fault = self.until_fault.wrapping_sub(1);
        if self.until_fault == usize::MAX {
            return Err(io::Error::from(self.kind));
        }
        self.flushes = self.flushes.wrapping_add(1);
        Ok(())
    }
}
