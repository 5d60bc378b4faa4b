//! Chunks to a writer that may take a write whole or not at all.

ghost use Rattle.std.specs.Prelude.{◌≡◌, ◌<◌, ◌≤◌, ℕ, List, length, Option, IfOk};
ghost use Rattle.std.specs.Io.KnownBytes.{WriteAppends};

use std::io;
use std::io::{ErrorKind, Write};
use wire_codec::codec::header::{HEADER_LEN, Header};

/// Takes chunks, one after another. Where a write of several is refused, and nothing of it was
/// taken, the one in front is offered alone.
#[derive(Drop)]
pub struct ChunkWriter<W> {
    writer: W,
    // How many bytes are left of a chunk of which a part went out.
    left: usize,
}

// How many bytes the chunk in front has, of which this many are left where a part went out: those
// that are here, where its header hasn't come whole.
fn chunk_len(left: usize, bytes: &[u8]) -> usize
    ensures { 0 < length bytes.now → 0 < result }
{
    match Header::read(bytes) {
        _ if left > 0 => left,
        Some(header) => HEADER_LEN + header.len,
        None => bytes.len(),
    }
}

// How many of these bytes are of it.
fn front_len(left: usize, bytes: &[u8]) -> usize
    ensures within { result ≤ length bytes.now }
    ensures some { 0 < length bytes.now → 0 < result }
{
    chunk_len(left, bytes).min(bytes.len())
}

// How many bytes are left of the chunk in front, once this many of these went out.
fn left_behind(mut left: usize, bytes: &[u8], count: usize) -> usize
    requires { count ≤ length bytes.now }
{
    let mut gone = &bytes[..count];
    let mut rest = bytes;
    while !gone.is_empty() {
        let len = chunk_len(left, rest);
        if gone.len() < len {
            return len - gone.len();
        }
        gone = &gone[len..];
        rest = &rest[len..];
        left = 0;
    }
    left
}

impl<W: Write> ChunkWriter<W> {
    pub fn new(writer: W) -> Self
        ensures { result.writer ≡ writer }
    {
        ChunkWriter { writer, left: 0 }
    }

    /// The writer.
    pub fn into_inner(self) -> W
        ensures { result ≡ self.writer }
    {
        self.writer
    }

    // Goes on where a write of these bytes was answered so, and took not all of them.
    #[cold]
    #[inline(never)]
    fn go_on(&mut self, bytes: &[u8], answer: io::Result<usize>) -> io::Result<usize>
        requires { IfOk answer (λ count. count ≤ length bytes.now) }
        ensures bound { IfOk result (λ count. count ≤ length bytes.now) }
        ensures bytes { (before : Option (List ℕ))
            → WriteAppends before (W.contents self.old.writer) answer bytes.now
            → WriteAppends before (W.contents self.new.writer) result bytes.now }
    {
        let count = match answer {
            Ok(count) if count > 0 => count,
            Err(error) if error.kind() == ErrorKind::Interrupted => return Err(error),
            answer => {
                let front = front_len(self.left, bytes);
                if front == bytes.len() {
                    return answer;
                }
                self.writer.write(&bytes[..front])?
            }
        };
        self.left = left_behind(self.left, bytes, count);
        Ok(count)
    }
}

impl<W: Write> Write for ChunkWriter<W> {
    ghost contents = { λ chunks. W.contents chunks.writer };

    fn write(&mut self, buf: &[u8]) -> io::Result<usize> {
        match self.writer.write(buf) {
            Ok(count) if count == buf.len() => {
                // Chunks go whole, but for a header alone, and bytes of one of which a part went out.
                if self.left > 0 || count == HEADER_LEN {
                    self.left = left_behind(self.left, buf, count);
                }
                Ok(count)
            }
            answer => self.go_on(buf, answer),
        }
    }

    fn flush(&mut self) -> io::Result<()> {
        self.writer.flush()
    }
}
