//! Sets of flags.

ghost use Rattle.std.specs.Prelude.{◌≡◌, ◌++◌, length};
ghost use Rattle.std.specs.Int.RustNames.{bit_and};
ghost use Rattle.bitflags.specs.Sets.{known_bits};
ghost use Rattle.wire_buf.specs.Reading.{Through};
ghost use Rattle.wire_repr.specs.Law.{Through-back};

use bitflags::Flags;
use std::alloc::Allocator;
use std::marker::PhantomData;
use wire_buf::error::WireError;
use wire_buf::io::ParseBuf;
use wire_buf::proto::{HasSize, MyDeserialize, MySerialize};
use wire_repr::int::{IntRepr, SizeOfInt};
use wire_repr::wire::Wire;

/// A set of flags of `T` as it was read, with the bits that no flag names. Its bits are written as
/// the representation `U` says.
///
/// Sets of flags, as those of capabilities:
/// <https://dev.mysql.com/doc/dev/mysql-server/latest/group__group__cs__capabilities__flags.html>
#[derive_where(Clone, Copy, Debug, PartialEq, Eq, PartialOrd, Ord, Hash, Default; B)]
pub struct RawFlags<T: Flags<Bits = B>, U, B = <T as Flags>::Bits>(pub B, PhantomData<(T, U)>);

impl<T: Flags, U> RawFlags<T, U> {
    pub fn new(bits: T::Bits) -> Self
        ensures { result.0 ≡ bits }
    {
        RawFlags(bits, PhantomData)
    }

    /// The set without the bits that no flag names.
    pub fn get(&self) -> T
        ensures { T.exact → T.set_of result
            ≡ bit_and (T.Bits.pattern self.now.0) (known_bits T.table) }
    {
        T::from_bits_truncate(self.0)
    }
}

impl<T: Flags, U: IntRepr<Primitive = T::Bits>> MySerialize for RawFlags<T, U> {
    ghost bytes = { λ flags. U.IntRepr.bytes flags.0 };

    fn serialize<A: Allocator>(&self, buf: &mut Vec<u8, A>) -> Result<(), WireError> {
        U::serialize(self.0, buf)
    }
}

impl<T: Flags, U: IntRepr<Primitive = T::Bits>> HasSize for RawFlags<T, U> {
    type Size = SizeOfInt<U>;
}

impl<'de, A: Allocator + Copy, T: Flags, U: IntRepr<Primitive = T::Bits>> MyDeserialize<'de, A>
    for RawFlags<T, U> {
    type Ctx = ();

    ghost reads = { λ _ input. Through (λ flags. flags.0) (U.IntRepr.reads input) };

    fn deserialize(_: A, _: (), buf: &mut ParseBuf<'de>) -> Result<Self, WireError> {
        Ok(RawFlags::new(U::deserialize(buf)?))
    }
}

impl<'de, A: Allocator + Copy, T: Flags, U: IntRepr<Primitive = T::Bits>> Wire<'de, A>
    for RawFlags<T, U> {
    ghost is_value = { λ flags. U.IntRepr.is_value flags.0 };

    ghost good = { λ _ _ _. Unit {0} };

    ghost kept = { λ flags back. back.0 ≡ U.IntRepr.kept flags.0 };

    ghost takes_memory = { ⊥ };

    fn known(&self) {
        U::known(self.0);
    }

    ghost comes_back = { λ ctx flags rest answer eaten value good read.
        Through-back (λ back. back.0) (U.IntRepr.reads (U.IntRepr.bytes flags.0 ++ rest))
        (U.IntRepr.kept flags.0) (length (U.IntRepr.bytes flags.0))
        (U.IntRepr.comes_back flags.0 rest value) answer eaten read };

    ghost of_size = { λ flags size _ stated. U.IntRepr.of_size flags.0 size stated };
}
