//! Constants and sets of flags come back whatever follows.

ghost use Rattle.std.specs.Prelude.{◌≡◌, ℕ, List, Ok, Err, OnOk, IfOk, IfErr};
ghost use Rattle.wire_buf.specs.Reading.{Reads, Parses, Through};
ghost use Rattle.wire_field.specs.Converted.{ConvertsBack, KeepsValue, ReadsConverted};
ghost use Rattle.wire_repr.specs.Law.{ComesBackFrom};

use std::alloc::Global;
use wire_buf::error::WireError;
use wire_buf::io::ParseBuf;
use wire_field::converted::{Const, IntoNumber, Numbered, RawConst};
use wire_repr::field_laws::parse_back;
use wire_repr::int::IntRepr;
use wire_repr::wire::Wire;
pub use wire_values::field_laws::{raw_flags, raw_flags_comes_back};

/// A number that may stand for a constant, whatever it is.
pub fn raw_const<T: IntRepr, U>(
    alloc: Global,
    buf: &mut ParseBuf<'_>,
) -> Result<RawConst<T, U>, WireError>
    ensures reads { Reads (Parses T.SIZE (λ input. Through (λ raw. raw.0) (T.reads input)))
        buf.old.0.now result buf.new.0.now }
    ensures back { (val : T.Primitive) → T.is_value val
        → ComesBackFrom (T.bytes val) (λ back. back.0 ≡ T.kept val) ⊥ buf.old.0.now result
        buf.new.0.now }
{
    parse_back(alloc, (), buf)
}

/// Any is good whatever follows, and what its representation keeps of it comes back.
pub fn raw_const_comes_back<T: IntRepr, U>(_ctx: (), _raw: &RawConst<T, U>, _back: &RawConst<T, U>)
    ensures good { (rest : List ℕ) →
        ⟦<RawConst<T, U> as Wire<'static, Global>>⟧.good _ctx _raw.now rest }
    ensures kept { ⟦<RawConst<T, U> as Wire<'static, Global>>⟧.kept _raw.now _back.now
        → _back.now.0 ≡ T.kept _raw.now.0 }
{}

/// The value's number, and the value that this converts to: the same, where it has a number.
pub fn value_there_and_back<P, T: Numbered<P>>(value: T) -> Result<T, T::Error>
    ensures same { T.has_number value → result ≡ Ok value }
    ensures gives { T.try_from_gives (T.number value) result }
{
    let number: P = value.into();
    T::try_from(number)
}

/// The number's value, if it has one, and the number that this converts to: the same.
pub fn number_there_and_back<P, T: Numbered<P>>(number: P) -> Result<P, T::Error>
    ensures same { IfOk result (λ again. again ≡ number) }
    ensures value { OnOk result ((value : T) × T.try_from_gives number (Ok value)) }
    ensures none { IfErr result (λ unknown. T.try_from_gives number (Err unknown)) }
{
    match T::try_from(number) {
        Ok(value) => Ok(value.into()),
        Err(unknown) => Err(unknown),
    }
}

/// A value whose number, as it comes back, converts to it.
pub fn constant<U: IntRepr, T: IntoNumber<U::Primitive> + TryFrom<U::Primitive>>(
    alloc: Global,
    buf: &mut ParseBuf<'_>,
) -> Result<Const<T, U>, WireError>
where
    T::Error: Drop,
    ensures reads { Reads (Parses U.SIZE (λ input.
        ReadsConverted (λ constant. constant.0) T.try_from_gives (U.reads input)))
        buf.old.0.now result buf.new.0.now }
    ensures back { (val : T) → KeepsValue U.is_value U.kept T.try_from_gives (T.number val) val
        → ComesBackFrom (U.bytes (T.number val)) (λ back. back.0 ≡ val) ⊥ buf.old.0.now result
        buf.new.0.now }
{
    parse_back(alloc, (), buf)
}

/// One whose number converts back to it is good whatever follows, and comes back.
pub fn constant_comes_back<U: IntRepr, T: IntoNumber<U::Primitive> + TryFrom<U::Primitive>>(
    _ctx: (),
    _constant: &Const<T, U>,
    _back: &Const<T, U>,
)
where
    T::Error: Drop,
    ensures good { (rest : List ℕ)
        → ConvertsBack T.try_from_gives (U.kept (T.number _constant.now.0)) _constant.now.0
        → ⟦<Const<T, U> as Wire<'static, Global>>⟧.good _ctx _constant.now rest }
    ensures kept { ⟦<Const<T, U> as Wire<'static, Global>>⟧.kept _constant.now _back.now
        → _back.now.0 ≡ _constant.now.0 }
{}
