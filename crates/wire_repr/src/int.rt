//! Numbers.

ghost use Rattle.std.specs.Prelude.{◌≡◌, ℕ, List, ◌++◌, length, Option, Some, Result, Ok, OnOk, IfErr};
ghost use Rattle.wire_buf.specs.declared.error.WireError.{WireError};
ghost use Rattle.wire_buf.specs.declared.error.WireError.TheVariants.{OutOfMemory};
ghost use Rattle.wire_buf.specs.Reading.{HasBytes, Reads, Answers, Through};
ghost use Rattle.wire_repr.specs.Law.{Through-back};

mod fixed;

use crate::wire::Wire;
pub use fixed::{LeI16, LeI32, LeI64, LeU16, LeU32, LeU64};
use std::alloc::Allocator;
use std::fmt::Debug;
use std::hash::Hash;
use std::marker::PhantomData;
use wire_buf::error::WireError;
use wire_buf::io::ParseBuf;
use wire_buf::proto::{HasSize, MyDeserialize, MySerialize, ReadSize};

/// How a number is written. One that a user writes has what those of this crate have, `RawInt` and
/// its law.
///
/// <https://dev.mysql.com/doc/dev/mysql-server/latest/page_protocol_basic_dt_integers.html>
pub trait IntRepr {
    /// How many bytes it has, where that is always the same.
    const SIZE: Option<usize>;

    /// The number's type.
    type Primitive: Debug + Default + Copy + Eq + Ord + Hash;

    ghost SIZE: { Option ℕ };

    /// It is a value of its type.
    ghost is_value: { Self.Primitive → Type 0 };

    /// What is written of a number.
    ghost bytes: { Self.Primitive → List ℕ };

    /// What may be answered to an input, and how many bytes of it are eaten then.
    ghost reads: { List ℕ → Result Self.Primitive WireError → ℕ → Type 0 };

    /// The number that is read back.
    ghost kept: { Self.Primitive → Self.Primitive };

    /// Appends the number's bytes. Where memory for them is refused, the buffer is as it was.
    fn serialize<A: Allocator>(val: Self::Primitive, buf: &mut Vec<u8, A>) -> Result<(), WireError>
        ensures ok { OnOk result (buf.new.items ≡ buf.old.items ++ bytes val) }
        ensures err { IfErr result (λ error. (error ≡ OutOfMemory)
            × (buf.new.items ≡ buf.old.items)) };

    /// Reads a number from the front of a buffer, which has the bytes that the size asks for.
    fn deserialize(buf: &mut ParseBuf<'_>) -> Result<Self::Primitive, WireError>
        requires { HasBytes SIZE buf.old.0.now }
        ensures { Reads reads buf.old.0.now result buf.new.0.now };

    /// Does nothing, and tells a proof that the number is a value of its type.
    fn known(val: Self::Primitive)
        ensures { is_value val };

    ghost comes_back: { (val : Self.Primitive) (rest : List ℕ) → is_value val
        → (answer : Result Self.Primitive WireError) (eaten : ℕ)
        → reads (bytes val ++ rest) answer eaten
        → Answers (Ok (kept val), length (bytes val)) answer eaten };

    ghost of_size: { (val : Self.Primitive) (size : ℕ) → SIZE ≡ Some size
        → length (bytes val) ≡ size };
}

/// The size of a type whose values are numbers that are written as `T` says.
#[derive(Debug)]
pub struct SizeOfInt<T>(PhantomData<T>);

impl<T: IntRepr> ReadSize for SizeOfInt<T> {
    const SIZE: Option<usize> = T::SIZE;

    ghost SIZE = { T.IntRepr.SIZE };
}

/// A number that is written as `T` says.
///
/// <https://dev.mysql.com/doc/dev/mysql-server/latest/page_protocol_basic_dt_integers.html>
#[derive_where(Clone, Copy, Debug, PartialEq, Eq, PartialOrd, Ord, Hash, Default; P)]
pub struct RawInt<T: IntRepr<Primitive = P>, P = <T as IntRepr>::Primitive>(pub P, PhantomData<T>);

impl<T: IntRepr> RawInt<T> {
    pub fn new(val: T::Primitive) -> Self
        ensures { result.0 ≡ val }
    {
        RawInt(val, PhantomData)
    }
}

impl<T: IntRepr> MySerialize for RawInt<T> {
    ghost bytes = { λ int. T.IntRepr.bytes int.0 };

    fn serialize<A: Allocator>(&self, buf: &mut Vec<u8, A>) -> Result<(), WireError> {
        T::serialize(self.0, buf)
    }
}

impl<T: IntRepr> HasSize for RawInt<T> {
    type Size = SizeOfInt<T>;
}

impl<'de, A: Allocator + Copy, T: IntRepr> MyDeserialize<'de, A> for RawInt<T> {
    type Ctx = ();

    ghost reads = { λ _ input. Through (λ int. int.0) (T.IntRepr.reads input) };

    fn deserialize(_: A, _: (), buf: &mut ParseBuf<'de>) -> Result<Self, WireError> {
        Ok(RawInt::new(T::deserialize(buf)?))
    }
}

impl<'de, A: Allocator + Copy, T: IntRepr> Wire<'de, A> for RawInt<T> {
    ghost is_value = { λ int. T.IntRepr.is_value int.0 };

    ghost good = { λ _ _ _. Unit {0} };

    ghost kept = { λ int back. back.0 ≡ T.IntRepr.kept int.0 };

    ghost takes_memory = { ⊥ };

    fn known(&self) {
        T::known(self.0);
    }

    ghost comes_back = { λ ctx int rest answer eaten value good read.
        Through-back (λ back. back.0) (T.IntRepr.reads (T.IntRepr.bytes int.0 ++ rest))
        (T.IntRepr.kept int.0) (length (T.IntRepr.bytes int.0))
        (T.IntRepr.comes_back int.0 rest value) answer eaten read };

    ghost of_size = { λ int size _ stated. T.IntRepr.of_size int.0 size stated };
}
