//! std's readers as readers that note nothing: a clause on their `reads` says nothing of them. One
//! after a `&mut` or in a `Box` notes what the reader there notes.

use crate::traced_read::TracedRead;
use std::alloc::Allocator;
use std::collections::VecDeque;
use std::fs::File;
use std::io;
use std::io::{AsBytes, BufReader, Chain, Cursor, Empty, PipeReader, Read, Repeat, Stdin, Take};

impl TracedRead for &[u8] {
    fn read_noted(&mut self, buf: &mut [u8]) -> io::Result<usize> {
        self.read(buf)
    }
}

impl<T: AsBytes> TracedRead for Cursor<T> {
    fn read_noted(&mut self, buf: &mut [u8]) -> io::Result<usize> {
        self.read(buf)
    }
}

impl<A: Allocator> TracedRead for VecDeque<u8, A> {
    fn read_noted(&mut self, buf: &mut [u8]) -> io::Result<usize> {
        self.read(buf)
    }
}

impl TracedRead for Empty {
    fn read_noted(&mut self, buf: &mut [u8]) -> io::Result<usize> {
        self.read(buf)
    }
}

impl TracedRead for Repeat {
    fn read_noted(&mut self, buf: &mut [u8]) -> io::Result<usize> {
        self.read(buf)
    }
}

impl TracedRead for PipeReader {
    fn read_noted(&mut self, buf: &mut [u8]) -> io::Result<usize> {
        self.read(buf)
    }
}

impl TracedRead for Stdin {
    fn read_noted(&mut self, buf: &mut [u8]) -> io::Result<usize> {
        self.read(buf)
    }
}

impl TracedRead for File {
    fn read_noted(&mut self, buf: &mut [u8]) -> io::Result<usize> {
        self.read(buf)
    }
}

impl<R: Read, A: Allocator> TracedRead for BufReader<R, A> {
    fn read_noted(&mut self, buf: &mut [u8]) -> io::Result<usize> {
        self.read(buf)
    }
}

impl<R: Read> TracedRead for Take<R> {
    fn read_noted(&mut self, buf: &mut [u8]) -> io::Result<usize> {
        self.read(buf)
    }
}

impl<R: Read, S: Read> TracedRead for Chain<R, S> {
    fn read_noted(&mut self, buf: &mut [u8]) -> io::Result<usize> {
        self.read(buf)
    }
}

impl<R: TracedRead> TracedRead for &mut R {
    ghost reads = { λ reader. R.reads reader.now };

    fn read_noted(&mut self, buf: &mut [u8]) -> io::Result<usize> {
        (**self).read_noted(buf)
    }
}

impl<R: TracedRead, A: Allocator> TracedRead for Box<R, A> {
    ghost reads = { λ reader. R.reads reader.value };

    fn read_noted(&mut self, buf: &mut [u8]) -> io::Result<usize> {
        self.as_mut().read_noted(buf)
    }
}
