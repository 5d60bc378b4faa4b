//! Values that are written to a buffer and read from one.

ghost use Rattle.std.specs.Prelude.{◌≡◌, ℕ, List, ◌++◌, take, Option, Some, None, Result, Ok, OnOk, IfErr};
ghost use Rattle.wire_buf.specs.declared.error.WireError.{WireError};
ghost use Rattle.wire_buf.specs.declared.error.WireError.TheVariants.{OutOfMemory};
ghost use Rattle.wire_buf.specs.Reading.{HasBytes, Reads, Answers, Through, front_at};

mod ints;

use crate::error::WireError;
use crate::io::ParseBuf;
use std::alloc::Allocator;
use std::marker::PhantomData;

/// The protocol whose values are texts.
#[derive(Debug, Clone, Copy, PartialEq, Eq, Hash)]
pub struct Text;

/// The protocol whose values are in their binary form.
#[derive(Debug, Clone, Copy, PartialEq, Eq, Hash)]
pub struct Binary;

/// A value that can be written.
pub trait MySerialize {
    /// The bytes of a value.
    ghost bytes: { Self → List ℕ };

    /// Appends the value's bytes. Where memory for them is refused, the buffer is as it was.
    fn serialize<A: Allocator>(&self, buf: &mut Vec<u8, A>) -> Result<(), WireError>
        ensures ok { OnOk result (buf.new.items ≡ buf.old.items ++ bytes self.now) }
        ensures err { IfErr result (λ error. (error ≡ OutOfMemory)
            × (buf.new.items ≡ buf.old.items)) };
}

/// How many bytes a reader asks for, where that is always the same.
pub trait ReadSize {
    const SIZE: Option<usize>;

    ghost SIZE: { Option ℕ };
}

/// The size of a type that asks for none. A generic type names those of its parts, as
/// `Varying<(T::Size, U::Size)>`.
#[derive(Debug)]
pub struct Varying<Parts = ()>(PhantomData<Parts>);

impl<Parts> ReadSize for Varying<Parts> {
    const SIZE: Option<usize> = None;

    ghost SIZE = { None };
}

/// A size of this many bytes.
#[derive(Debug)]
pub struct Fixed<const LEN: usize>;

impl<const LEN: usize> ReadSize for Fixed<LEN> {
    const SIZE: Option<usize> = Some(LEN);

    ghost SIZE = { Some LEN };
}

/// A type whose readers ask for a size.
pub trait HasSize {
    /// How many bytes they ask for, where that is always the same: `Fixed` or `Varying`.
    type Size: ReadSize;
}

/// The size that a type's readers ask for, as a number: `T::SIZE`. It is that of `HasSize`, and no
/// `impl` can give another.
pub trait StatedSize {
    const SIZE: Option<usize>;

    ghost SIZE: { Option ℕ };
}

impl<T: HasSize> StatedSize for T {
    const SIZE: Option<usize> = <T::Size as ReadSize>::SIZE;

    ghost SIZE = { T.Size.SIZE };
}

/// A value that can be read, whose memory, if it owns any, comes from an `A`. What it borrows lives
/// as long as the payload.
pub trait MyDeserialize<'de, A: Allocator + Copy>: HasSize + Sized + Drop {
    /// What a reader has to know beforehand, as the length of a text. `()` where that is nothing.
    type Ctx: Drop;

    /// What may be answered to an input under a context, and how many bytes of it are eaten then.
    ghost reads: { Self.Ctx → List ℕ → Result Self WireError → ℕ → Type 0 };

    /// Reads a value from the front of the buffer, which has the bytes that the size asks for.
    fn deserialize(alloc: A, ctx: Self::Ctx, buf: &mut ParseBuf<'de>) -> Result<Self, WireError>
        requires { HasBytes Self.Size.SIZE buf.old.0.now }
        ensures { Reads (reads ctx) buf.old.0.now result buf.new.0.now };
}

impl HasSize for ParseBuf<'_> {
    type Size = Varying;
}

/// The next bytes, as many as the context says.
impl<'de, A: Allocator + Copy> MyDeserialize<'de, A> for ParseBuf<'de> {
    type Ctx = usize;

    ghost reads = { λ count input. Through (λ front. front.0.now)
        (Answers (front_at count input)) };

    fn deserialize(_: A, count: usize, buf: &mut ParseBuf<'de>) -> Result<Self, WireError> {
        buf.checked_eat_buf(count).ok_or(WireError::UnexpectedEof)
    }
}

impl<const LEN: usize> MySerialize for [u8; LEN] {
    ghost bytes = { λ bytes. bytes };

    fn serialize<A: Allocator>(&self, buf: &mut Vec<u8, A>) -> Result<(), WireError> {
        buf.extend_from_slice(self)?;
        Ok(())
    }
}

impl<const LEN: usize> HasSize for [u8; LEN] {
    type Size = Fixed<LEN>;
}

impl<'de, A: Allocator + Copy, const LEN: usize> MyDeserialize<'de, A> for [u8; LEN] {
    type Ctx = ();

    ghost reads = { λ _ input. Answers (Ok (take LEN input), LEN) };

    fn deserialize(_: A, _: (), buf: &mut ParseBuf<'de>) -> Result<Self, WireError> {
        let mut bytes = [0; LEN];
        bytes.copy_from_slice(buf.eat(LEN));
        Ok(bytes)
    }
}
