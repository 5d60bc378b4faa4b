//! Constants, bytes that say nothing, and arrays come back whatever follows.

ghost use Rattle.std.specs.Prelude.{◌≡◌, List, ℕ, [], ◌∷◌, length, take, replicate, Some, Ok};
ghost use Rattle.wire_buf.specs.Numbers.{le_bytes};
ghost use Rattle.wire_buf.specs.Reading.{Reads, Parses, Answers};
ghost use Rattle.wire_forms.specs.Constants.{ReadsAny, ReadsConst};
ghost use Rattle.wire_repr.specs.Law.{ComesBackFrom};

use std::alloc::Global;
use wire_buf::error::WireError;
use wire_buf::io::ParseBuf;
use wire_forms::constant::{ConstBytes, ConstBytesValue, ConstU8, ConstU32, Skip};
use wire_repr::field_laws::parse_back;
use wire_repr::wire::Wire;

/// The byte `N`.
pub fn const_u8<T, const N: u8>(
    alloc: Global,
    buf: &mut ParseBuf<'_>,
) -> Result<ConstU8<T, N>, WireError>
    ensures reads { Reads (Parses (Some 1) (ReadsConst 1 (N ∷ []))) buf.old.0.now result
        buf.new.0.now }
    ensures back { ComesBackFrom (N ∷ []) (λ _. Unit {0}) ⊥ buf.old.0.now result buf.new.0.now }
{
    parse_back(alloc, (), buf)
}

/// It is good whatever follows, and comes back.
pub fn const_u8_comes_back<T, const N: u8>(_ctx: (), _value: &ConstU8<T, N>, _back: &ConstU8<T, N>)
    ensures good { (rest : List ℕ) →
        ⟦<ConstU8<T, N> as Wire<'static, Global>>⟧.good _ctx _value.now rest }
    ensures kept { ⟦<ConstU8<T, N> as Wire<'static, Global>>⟧.kept _value.now _back.now
        → _back.now ≡ _value.now }
{}

/// The four bytes of `N`.
pub fn const_u32<T, const N: u32>(
    alloc: Global,
    buf: &mut ParseBuf<'_>,
) -> Result<ConstU32<T, N>, WireError>
    ensures reads { Reads (Parses (Some 4) (ReadsConst 4 (le_bytes 4 N))) buf.old.0.now result
        buf.new.0.now }
    ensures back { ComesBackFrom (le_bytes 4 N) (λ _. Unit {0}) ⊥ buf.old.0.now result
        buf.new.0.now }
{
    parse_back(alloc, (), buf)
}

/// It is good whatever follows, and comes back.
pub fn const_u32_comes_back<T, const N: u32>(
    _ctx: (),
    _value: &ConstU32<T, N>,
    _back: &ConstU32<T, N>,
)
    ensures good { (rest : List ℕ) →
        ⟦<ConstU32<T, N> as Wire<'static, Global>>⟧.good _ctx _value.now rest }
    ensures kept { ⟦<ConstU32<T, N> as Wire<'static, Global>>⟧.kept _value.now _back.now
        → _back.now ≡ _value.now }
{}

/// The bytes of `T`.
pub fn const_bytes<T: ConstBytesValue<LEN>, const LEN: usize>(
    alloc: Global,
    buf: &mut ParseBuf<'_>,
) -> Result<ConstBytes<T, LEN>, WireError>
    ensures reads { Reads (Parses (Some LEN) (ReadsConst LEN T.VALUE)) buf.old.0.now result
        buf.new.0.now }
    ensures back { ComesBackFrom T.VALUE (λ _. Unit {0}) ⊥ buf.old.0.now result buf.new.0.now }
{
    parse_back(alloc, (), buf)
}

/// It is good whatever follows, and comes back.
pub fn const_bytes_comes_back<T: ConstBytesValue<LEN>, const LEN: usize>(
    _ctx: (),
    _value: &ConstBytes<T, LEN>,
    _back: &ConstBytes<T, LEN>,
)
    ensures good { (rest : List ℕ) →
        ⟦<ConstBytes<T, LEN> as Wire<'static, Global>>⟧.good _ctx _value.now rest }
    ensures kept { ⟦<ConstBytes<T, LEN> as Wire<'static, Global>>⟧.kept _value.now _back.now
        → _back.now ≡ _value.now }
{}

/// `LEN` zeros.
pub fn skipped<const LEN: usize>(
    alloc: Global,
    buf: &mut ParseBuf<'_>,
) -> Result<Skip<LEN>, WireError>
    ensures reads { Reads (Parses (Some LEN) (ReadsAny LEN)) buf.old.0.now result buf.new.0.now }
    ensures back { ComesBackFrom (replicate LEN 0) (λ _. Unit {0}) ⊥ buf.old.0.now result
        buf.new.0.now }
{
    parse_back(alloc, (), buf)
}

/// It is good whatever follows, and comes back.
pub fn skip_comes_back<const LEN: usize>(_ctx: (), _value: &Skip<LEN>, _back: &Skip<LEN>)
    ensures good { (rest : List ℕ) →
        ⟦<Skip<LEN> as Wire<'static, Global>>⟧.good _ctx _value.now rest }
    ensures kept { ⟦<Skip<LEN> as Wire<'static, Global>>⟧.kept _value.now _back.now
        → _back.now ≡ _value.now }
{}

/// Any `LEN` bytes.
pub fn array<const LEN: usize>(
    alloc: Global,
    buf: &mut ParseBuf<'_>,
) -> Result<[u8; LEN], WireError>
    ensures reads { Reads (Parses (Some LEN) (λ input. Answers (Ok (take LEN input), LEN)))
        buf.old.0.now result buf.new.0.now }
    ensures back { (bytes : List ℕ) → length bytes ≡ LEN
        → ComesBackFrom bytes (λ back. back ≡ bytes) ⊥ buf.old.0.now result buf.new.0.now }
{
    parse_back(alloc, (), buf)
}

/// They are good whatever follows, and come back.
pub fn array_comes_back<const LEN: usize>(_ctx: (), _bytes: &[u8; LEN], _back: &[u8; LEN])
    ensures good { (rest : List ℕ) →
        ⟦<[u8; LEN] as Wire<'static, Global>>⟧.good _ctx _bytes.now rest }
    ensures kept { ⟦<[u8; LEN] as Wire<'static, Global>>⟧.kept _bytes.now _back.now
        → _back.now ≡ _bytes.now }
{}
