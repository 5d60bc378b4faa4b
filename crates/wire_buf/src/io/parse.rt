//! Values read from a buffer.

ghost use Rattle.std.specs.Prelude.{◌≡◌, Some};
ghost use Rattle.wire_buf.specs.Reading.{HasBytes, Reads, Parses};

use crate::error::WireError;
use crate::io::ParseBuf;
use crate::proto::{MyDeserialize, ReadSize};
use std::alloc::{Allocator, Global};

impl<'a> ParseBuf<'a> {
    /// Reads a value, where the buffer has the bytes that its size asks for.
    #[inline(always)]
    pub fn parse_unchecked<T>(&mut self, alloc: Global, ctx: T::Ctx) -> Result<T, WireError>
    where
        T: MyDeserialize<'a, Global>,
        requires { HasBytes T.Size.SIZE self.old.0.now }
        ensures { Reads (T.reads ctx) self.old.0.now result self.new.0.now }
    {
        self.parse_unchecked_in(alloc, ctx)
    }

    /// As `parse_unchecked`, with memory from any allocator.
    #[inline(always)]
    pub fn parse_unchecked_in<T, A>(&mut self, alloc: A, ctx: T::Ctx) -> Result<T, WireError>
    where
        A: Allocator + Copy,
        T: MyDeserialize<'a, A>,
        requires { HasBytes T.Size.SIZE self.old.0.now }
        ensures { Reads (T.reads ctx) self.old.0.now result self.new.0.now }
    {
        T::deserialize(alloc, ctx, self)
    }

    /// Reads a value. A type with a size sees this many bytes and no more, and they are eaten even
    /// where it refuses them or looks at fewer, so that a reader goes on after a bad field. Where
    /// fewer are left, the answer is `UnexpectedEof`, and none is eaten.
    #[inline(always)]
    pub fn parse<T>(&mut self, alloc: Global, ctx: T::Ctx) -> Result<T, WireError>
    where
        T: MyDeserialize<'a, Global>,
        ensures { Reads (Parses T.Size.SIZE (T.reads ctx)) self.old.0.now result self.new.0.now }
    {
        self.parse_in(alloc, ctx)
    }

    /// As `parse`, with memory from any allocator.
    #[inline(always)]
    pub fn parse_in<T, A>(&mut self, alloc: A, ctx: T::Ctx) -> Result<T, WireError>
    where
        A: Allocator + Copy,
        T: MyDeserialize<'a, A>,
        ensures { Reads (Parses T.Size.SIZE (T.reads ctx)) self.old.0.now result self.new.0.now }
    {
        match <T::Size as ReadSize>::SIZE {
            Some(size) => self.parse_front(size, alloc, ctx),
            None => self.parse_unchecked_in(alloc, ctx),
        }
    }

    // Reads a value of this size from the first bytes, this many.
    fn parse_front<T, A>(&mut self, size: usize, alloc: A, ctx: T::Ctx) -> Result<T, WireError>
    where
        A: Allocator + Copy,
        T: MyDeserialize<'a, A>,
        requires { T.Size.SIZE ≡ Some size }
        ensures { Reads (Parses T.Size.SIZE (T.reads ctx)) self.old.0.now result self.new.0.now }
    {
        let Some(mut front) = self.checked_eat_buf(size) else {
            return Err(WireError::UnexpectedEof);
        };
        front.parse_unchecked_in(alloc, ctx)
    }
}
