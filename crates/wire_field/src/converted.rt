//! Numbers that stand for constants.

ghost use Rattle.std.specs.Prelude.{◌≡◌, ℕ, List, ◌++◌, length, Ok};
ghost use Rattle.wire_buf.specs.Reading.{Through};
ghost use Rattle.wire_repr.specs.Law.{Through-back};
ghost use Rattle.wire_field.specs.Converted.{ReadsConverted, ConvertsBack, ReadsConverted-back};

use std::alloc::Allocator;
use std::marker::PhantomData;
use wire_buf::error::{InvalidReason, WireError};
use wire_buf::io::ParseBuf;
use wire_buf::proto::{HasSize, MyDeserialize, MySerialize};
use wire_repr::int::{IntRepr, SizeOfInt};
use wire_repr::wire::Wire;

/// A number as it was read, which may stand for no value of `U`, as the type of a column:
/// <https://dev.mysql.com/doc/dev/mysql-server/latest/field__types_8h.html>. It is written as the
/// representation `T` says.
#[derive_where(Clone, Copy, Debug, PartialEq, Eq, PartialOrd, Ord, Hash, Default; P)]
pub struct RawConst<T: IntRepr<Primitive = P>, U, P = <T as IntRepr>::Primitive>(
    pub P,
    PhantomData<(T, U)>,
);

impl<T: IntRepr, U> RawConst<T, U> {
    pub fn new(val: T::Primitive) -> Self
        ensures { result.0 ≡ val }
    {
        RawConst(val, PhantomData)
    }
}

impl<T: IntRepr, U: TryFrom<T::Primitive>> RawConst<T, U> {
    /// The value that the number stands for. Where it stands for none, the error is that of `U`,
    /// which mostly holds the number.
    pub fn get(&self) -> Result<U, U::Error>
        ensures { U.try_from_gives self.now.0 result }
    {
        U::try_from(self.0)
    }
}

impl<T: IntRepr, U> MySerialize for RawConst<T, U> {
    ghost bytes = { λ raw. T.IntRepr.bytes raw.0 };

    fn serialize<A: Allocator>(&self, buf: &mut Vec<u8, A>) -> Result<(), WireError> {
        T::serialize(self.0, buf)
    }
}

impl<T: IntRepr, U> HasSize for RawConst<T, U> {
    type Size = SizeOfInt<T>;
}

impl<'de, A: Allocator + Copy, T: IntRepr, U> MyDeserialize<'de, A> for RawConst<T, U> {
    type Ctx = ();

    ghost reads = { λ _ input. Through (λ raw. raw.0) (T.IntRepr.reads input) };

    fn deserialize(_: A, _: (), buf: &mut ParseBuf<'de>) -> Result<Self, WireError> {
        Ok(RawConst::new(T::deserialize(buf)?))
    }
}

impl<'de, A: Allocator + Copy, T: IntRepr, U> Wire<'de, A> for RawConst<T, U> {
    ghost is_value = { λ raw. T.IntRepr.is_value raw.0 };

    ghost good = { λ _ _ _. Unit {0} };

    ghost kept = { λ raw back. back.0 ≡ T.IntRepr.kept raw.0 };

    ghost takes_memory = { ⊥ };

    fn known(&self) {
        T::known(self.0);
    }

    ghost comes_back = { λ ctx raw rest answer eaten value good read.
        Through-back (λ back. back.0) (T.IntRepr.reads (T.IntRepr.bytes raw.0 ++ rest))
        (T.IntRepr.kept raw.0) (length (T.IntRepr.bytes raw.0))
        (T.IntRepr.comes_back raw.0 rest value) answer eaten read };

    ghost of_size = { λ raw size _ stated. T.IntRepr.of_size raw.0 size stated };
}

/// A type that converts into one number, the same each time. `Const` writes values of such types.
pub trait IntoNumber<P>: Copy + Into<P> {
    /// The number of a value.
    ghost number: { Self → P };

    ghost converts_to: { (value : Self) (val : P) → Self.converts value val → val ≡ number value };
}

/// A type whose values and numbers convert into each other.
pub trait Numbered<P>: IntoNumber<P> + TryFrom<P> {
    /// The value's number converts back: that of each value of an enum, and that of a set where
    /// flags name all its bits.
    ghost has_number: { Self → Type 0 };

    ghost number_back: { (value : Self) → has_number value
        → ConvertsBack Self.try_from_gives (Self.number value) value };

    ghost value_back: { (val : P) (value : Self) → Self.try_from_gives val (Ok value)
        → (Self.number value ≡ val) × has_number value };
}

/// A value that is written as its number, in the representation `U`. A number that stands for none
/// is refused as `UnknownValue`, and has been eaten.
///
/// As the type of a column in its definition:
/// <https://dev.mysql.com/doc/dev/mysql-server/latest/page_protocol_com_query_response_text_resultset_column_definition.html>
#[derive(Drop)]
#[derive_where(Clone, Copy, Debug, PartialEq, Eq, PartialOrd, Ord, Hash, Default; T)]
pub struct Const<T, U>(pub T, PhantomData<U>);

impl<T, U> Const<T, U> {
    pub fn new(val: T) -> Self
        ensures { result.0 ≡ val }
    {
        Const(val, PhantomData)
    }
}

impl<U: IntRepr, T: IntoNumber<U::Primitive>> MySerialize for Const<T, U> {
    ghost bytes = { λ constant. U.IntRepr.bytes (T.number constant.0) };

    fn serialize<A: Allocator>(&self, buf: &mut Vec<u8, A>) -> Result<(), WireError> {
        let number: U::Primitive = self.0.into();
        U::serialize(number, buf)
    }
}

impl<T, U: IntRepr> HasSize for Const<T, U> {
    type Size = SizeOfInt<U>;
}

impl<'de, A: Allocator + Copy, U: IntRepr, T: TryFrom<U::Primitive> + Drop> MyDeserialize<'de, A>
    for Const<T, U>
where
    T::Error: Drop,
{
    type Ctx = ();

    ghost reads = { λ _ input. ReadsConverted (λ constant. constant.0) T.try_from_gives
        (U.IntRepr.reads input) };

    fn deserialize(_: A, _: (), buf: &mut ParseBuf<'de>) -> Result<Self, WireError> {
        let number = U::deserialize(buf)?;
        match T::try_from(number) {
            Ok(value) => Ok(Const::new(value)),
            Err(_error) => Err(WireError::InvalidData(InvalidReason::UnknownValue)),
        }
    }
}

impl<
    'de,
    A: Allocator + Copy,
    U: IntRepr,
    T: IntoNumber<U::Primitive> + TryFrom<U::Primitive>,
> Wire<'de, A> for Const<T, U>
where
    T::Error: Drop,
{
    ghost is_value = { λ constant. U.IntRepr.is_value (T.number constant.0) };

    ghost good = { λ _ constant _. ConvertsBack T.try_from_gives
        (U.IntRepr.kept (T.number constant.0)) constant.0 };

    ghost kept = { λ constant back. back.0 ≡ constant.0 };

    ghost takes_memory = { ⊥ };

    fn known(&self) {
        let number: U::Primitive = self.0.into();
        U::known(number);
    }

    ghost comes_back = { λ ctx constant rest answer eaten value good read.
        ReadsConverted-back (λ back. back.0) T.try_from_gives
        (U.IntRepr.reads (U.IntRepr.bytes (T.number constant.0) ++ rest))
        (U.IntRepr.kept (T.number constant.0)) constant.0
        (length (U.IntRepr.bytes (T.number constant.0)))
        (U.IntRepr.comes_back (T.number constant.0) rest value) good answer eaten read };

    ghost of_size = { λ constant size _ stated.
        U.IntRepr.of_size (T.number constant.0) size stated };
}
