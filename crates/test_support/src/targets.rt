//! What the tests decode into, and what they encode from.

ghost use Rattle.std.specs.Prelude.{replicate};

use bytes::{Buf, BytesMut};
use std::alloc::Allocator;
use std::num::NonZeroUsize;
use wire_buf::error::WireError;
use wire_codec::codec::PacketDst;

/// A target that a step can empty.
pub trait Target: PacketDst + Drop {
    /// Nothing is held any more, and nothing is counted.
    fn clear(&mut self);

    /// How often it was asked for room, and for how much at last. None where it doesn't count. The
    /// put of the number that is given, counted from 0 at this call, is then refused.
    fn growth(&mut self, refused: Option<u64>) -> Option<(u64, usize)>;
}

impl<A: Allocator> Target for Vec<u8, A> {
    fn clear(&mut self) {
        Vec::clear(self);
    }

    fn growth(&mut self, _: Option<u64>) -> Option<(u64, usize)> {
        None
    }
}

impl<A: Allocator + Copy> Target for BytesMut<A> {
    fn clear(&mut self) {
        BytesMut::clear(self);
    }

    fn growth(&mut self, _: Option<u64>) -> Option<(u64, usize)> {
        None
    }
}

/// A target of the tests' own: it counts its growths, and refuses a put where it is told to.
#[derive(Drop)]
pub struct Counting<A: Allocator> {
    pub bytes: Vec<u8, A>,
    pub asked: u64,
    pub room: usize,
    /// How many puts come before the one that is refused, which is the only one.
    pub puts_left: u64,
}

impl<A: Allocator> PacketDst for Counting<A> {
    ghost held = { λ target. target.bytes.items };

    fn as_ref(&self) -> &[u8] {
        self.bytes.as_slice()
    }

    fn reserve(&mut self, n: usize) -> Result<(), WireError> {
        self.asked = self.asked.wrapping_add(1);
        self.room = n;
        match self.bytes.reserve(n) {
            Ok(()) => Ok(()),
            Err(_) => Err(WireError::OutOfMemory),
        }
    }

    fn put_slice(&mut self, bytes: &[u8]) -> Result<(), WireError> {
        let left = self.puts_left;
        self.puts_left = left.wrapping_sub(1);
        if left == 0 {
            return Err(WireError::OutOfMemory);
        }
        match self.bytes.extend_from_slice(bytes) {
            Ok(()) => Ok(()),
            Err(_) => Err(WireError::OutOfMemory),
        }
    }
}

impl<A: Allocator> Counting<A> {
    /// Nothing is held.
    pub fn new(alloc: A) -> Self {
        Counting {
            bytes: Vec::new(alloc),
            asked: 0,
            room: 0,
            puts_left: u64::MAX,
        }
    }
}

impl<A: Allocator> Target for Counting<A> {
    fn clear(&mut self) {
        self.bytes.clear();
        self.asked = 0;
        self.room = 0;
    }

    fn growth(&mut self, refused: Option<u64>) -> Option<(u64, usize)> {
        self.puts_left = refused.unwrap_or(self.puts_left);
        Some((self.asked, self.room))
    }
}

/// A buffer of the tests' own, which shows its bytes a few at a time.
#[derive(Drop)]
pub struct Trickle<'a> {
    pub left: &'a [u8],
    pub step: NonZeroUsize,
}

impl Buf for Trickle<'_> {
    ghost unread = { λ trickle. trickle.left.now };

    fn remaining(&self) -> usize {
        self.left.len()
    }

    fn chunk(&self) -> &[u8] {
        let count = self.left.len().min(self.step.get());
        &self.left[..count]
    }

    fn advance(&mut self, cnt: usize) {
        let left = self.left;
        self.left = &left[cnt..];
    }
}

/// This many zero bytes, which take no memory: a buffer of the tests' own that may be of any length.
#[derive(Drop)]
pub struct Zeros {
    pub left: usize,
}

impl Buf for Zeros {
    ghost unread = { λ zeros. replicate zeros.left 0 };

    fn remaining(&self) -> usize {
        self.left
    }

    fn chunk(&self) -> &[u8] {
        if self.left == 0 { b"" } else { b"\0" }
    }

    fn advance(&mut self, cnt: usize) {
        self.left -= cnt;
    }
}
