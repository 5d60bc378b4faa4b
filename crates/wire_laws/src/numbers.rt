//! What comes back of a number, by its representation.

ghost use Rattle.std.specs.Prelude.{◌≡◌, ℕ, ℤ, [], ◌∷◌, ◌<◌, ◌^◌, ◌%◌, ◌/◌, ◌*◌, ◌-◌};
ghost use Rattle.std.specs.Int.{cast_unsigned, w8, w16, w32, w64};
ghost use Rattle.std.specs.Int.RustNames.{FitsSigned};
ghost use Rattle.wire_buf.specs.Lenenc.{IsLenencOrMark, lenenc_bytes};
ghost use Rattle.wire_buf.specs.Numbers.{le_bytes, le_number, signed_number, signed_le_number};
ghost use Rattle.wire_buf.specs.Reading.{Reads, Through};
ghost use Rattle.wire_buf.specs.Spelling.{IsShortest};
ghost use Rattle.wire_forms.specs.Groups.{IsGroups, ReadsGroups, groups_bytes};
ghost use Rattle.wire_repr.specs.Law.{ComesBackFrom, ParsesFixed};
ghost use Rattle.wire_forms.specs.Spelled.{Leaves, NumberOrEof};
ghost use Rattle.wire_repr.specs.SignedNumbers.{signed_bytes};

use std::alloc::Global;
use wire_buf::error::WireError;
use wire_buf::io::ParseBuf;
use wire_buf::proto::MySerialize;
use wire_forms::halves::{LeU32LowerHalf, LeU32UpperHalf};
use wire_forms::lenenc::LenEnc;
use wire_forms::truncated::{LeI24, LeI56, LeU24, LeU48, LeU56};
use wire_forms::varlen::VarLen;
use wire_repr::field_laws::number_back;
use wire_repr::int::{IntRepr, LeI16, LeI32, LeI64, LeU16, LeU32, LeU64, RawInt};

/// Any number.
pub fn u8_number(alloc: Global, buf: &mut ParseBuf<'_>) -> Result<RawInt<u8>, WireError>
    ensures reads { ParsesFixed (λ int. int.0) 1 le_number buf.old.0.now result buf.new.0.now }
    ensures back { (val : ℕ) → val < 2 ^ 8
        → ComesBackFrom (val ∷ []) (λ back. back.0 ≡ val) ⊥ buf.old.0.now result buf.new.0.now }
{
    number_back(alloc, buf)
}

/// Any number.
pub fn le_u16_number(alloc: Global, buf: &mut ParseBuf<'_>) -> Result<RawInt<LeU16>, WireError>
    ensures reads { ParsesFixed (λ int. int.0) 2 le_number buf.old.0.now result buf.new.0.now }
    ensures back { (val : ℕ) → val < 2 ^ 16
        → ComesBackFrom (le_bytes 2 val) (λ back. back.0 ≡ val) ⊥ buf.old.0.now result
        buf.new.0.now }
{
    number_back(alloc, buf)
}

/// Any number, modulo 2^24.
pub fn le_u24_number(alloc: Global, buf: &mut ParseBuf<'_>) -> Result<RawInt<LeU24>, WireError>
    ensures reads { ParsesFixed (λ int. int.0) 3 le_number buf.old.0.now result buf.new.0.now }
    ensures back { (val : ℕ) → val < 2 ^ 32
        → ComesBackFrom (le_bytes 3 val) (λ back. back.0 ≡ val % 2 ^ 24) ⊥ buf.old.0.now result
        buf.new.0.now }
{
    number_back(alloc, buf)
}

/// Any number.
pub fn le_u32_number(alloc: Global, buf: &mut ParseBuf<'_>) -> Result<RawInt<LeU32>, WireError>
    ensures reads { ParsesFixed (λ int. int.0) 4 le_number buf.old.0.now result buf.new.0.now }
    ensures back { (val : ℕ) → val < 2 ^ 32
        → ComesBackFrom (le_bytes 4 val) (λ back. back.0 ≡ val) ⊥ buf.old.0.now result
        buf.new.0.now }
{
    number_back(alloc, buf)
}

/// Any number, modulo 2^48.
pub fn le_u48_number(alloc: Global, buf: &mut ParseBuf<'_>) -> Result<RawInt<LeU48>, WireError>
    ensures reads { ParsesFixed (λ int. int.0) 6 le_number buf.old.0.now result buf.new.0.now }
    ensures back { (val : ℕ) → val < 2 ^ 64
        → ComesBackFrom (le_bytes 6 val) (λ back. back.0 ≡ val % 2 ^ 48) ⊥ buf.old.0.now result
        buf.new.0.now }
{
    number_back(alloc, buf)
}

/// Any number, modulo 2^56.
pub fn le_u56_number(alloc: Global, buf: &mut ParseBuf<'_>) -> Result<RawInt<LeU56>, WireError>
    ensures reads { ParsesFixed (λ int. int.0) 7 le_number buf.old.0.now result buf.new.0.now }
    ensures back { (val : ℕ) → val < 2 ^ 64
        → ComesBackFrom (le_bytes 7 val) (λ back. back.0 ≡ val % 2 ^ 56) ⊥ buf.old.0.now result
        buf.new.0.now }
{
    number_back(alloc, buf)
}

/// Any number.
pub fn le_u64_number(alloc: Global, buf: &mut ParseBuf<'_>) -> Result<RawInt<LeU64>, WireError>
    ensures reads { ParsesFixed (λ int. int.0) 8 le_number buf.old.0.now result buf.new.0.now }
    ensures back { (val : ℕ) → val < 2 ^ 64
        → ComesBackFrom (le_bytes 8 val) (λ back. back.0 ≡ val) ⊥ buf.old.0.now result
        buf.new.0.now }
{
    number_back(alloc, buf)
}

/// Any number.
pub fn i8_number(alloc: Global, buf: &mut ParseBuf<'_>) -> Result<RawInt<i8>, WireError>
    ensures reads { ParsesFixed (λ int. int.0) 1 (signed_le_number 1) buf.old.0.now result
        buf.new.0.now }
    ensures back { (val : ℤ) → FitsSigned w8 val
        → ComesBackFrom (signed_bytes 1 w8 val) (λ back. back.0 ≡ val) ⊥ buf.old.0.now result
        buf.new.0.now }
{
    number_back(alloc, buf)
}

/// Any number.
pub fn le_i16_number(alloc: Global, buf: &mut ParseBuf<'_>) -> Result<RawInt<LeI16>, WireError>
    ensures reads { ParsesFixed (λ int. int.0) 2 (signed_le_number 2) buf.old.0.now result
        buf.new.0.now }
    ensures back { (val : ℤ) → FitsSigned w16 val
        → ComesBackFrom (signed_bytes 2 w16 val) (λ back. back.0 ≡ val) ⊥ buf.old.0.now result
        buf.new.0.now }
{
    number_back(alloc, buf)
}

/// Any number: its low three bytes, with their sign.
pub fn le_i24_number(alloc: Global, buf: &mut ParseBuf<'_>) -> Result<RawInt<LeI24>, WireError>
    ensures reads { ParsesFixed (λ int. int.0) 3 (signed_le_number 3) buf.old.0.now result
        buf.new.0.now }
    ensures back { (val : ℤ) → FitsSigned w32 val
        → ComesBackFrom (signed_bytes 3 w32 val)
        (λ back. back.0 ≡ signed_number 3 (cast_unsigned w32 val % 2 ^ 24)) ⊥ buf.old.0.now result
        buf.new.0.now }
{
    number_back(alloc, buf)
}

/// Any number.
pub fn le_i32_number(alloc: Global, buf: &mut ParseBuf<'_>) -> Result<RawInt<LeI32>, WireError>
    ensures reads { ParsesFixed (λ int. int.0) 4 (signed_le_number 4) buf.old.0.now result
        buf.new.0.now }
    ensures back { (val : ℤ) → FitsSigned w32 val
        → ComesBackFrom (signed_bytes 4 w32 val) (λ back. back.0 ≡ val) ⊥ buf.old.0.now result
        buf.new.0.now }
{
    number_back(alloc, buf)
}

/// Any number: its low seven bytes, with their sign.
pub fn le_i56_number(alloc: Global, buf: &mut ParseBuf<'_>) -> Result<RawInt<LeI56>, WireError>
    ensures reads { ParsesFixed (λ int. int.0) 7 (signed_le_number 7) buf.old.0.now result
        buf.new.0.now }
    ensures back { (val : ℤ) → FitsSigned w64 val
        → ComesBackFrom (signed_bytes 7 w64 val)
        (λ back. back.0 ≡ signed_number 7 (cast_unsigned w64 val % 2 ^ 56)) ⊥ buf.old.0.now result
        buf.new.0.now }
{
    number_back(alloc, buf)
}

/// Any number.
pub fn le_i64_number(alloc: Global, buf: &mut ParseBuf<'_>) -> Result<RawInt<LeI64>, WireError>
    ensures reads { ParsesFixed (λ int. int.0) 8 (signed_le_number 8) buf.old.0.now result
        buf.new.0.now }
    ensures back { (val : ℤ) → FitsSigned w64 val
        → ComesBackFrom (signed_bytes 8 w64 val) (λ back. back.0 ≡ val) ⊥ buf.old.0.now result
        buf.new.0.now }
{
    number_back(alloc, buf)
}

/// The low 16 bits of any number.
pub fn lower_half(
    alloc: Global,
    buf: &mut ParseBuf<'_>,
) -> Result<RawInt<LeU32LowerHalf>, WireError>
    ensures reads { ParsesFixed (λ int. int.0) 2 le_number buf.old.0.now result buf.new.0.now }
    ensures back { (val : ℕ) → val < 2 ^ 32
        → ComesBackFrom (le_bytes 2 val) (λ back. back.0 ≡ val % 65536) ⊥ buf.old.0.now result
        buf.new.0.now }
{
    number_back(alloc, buf)
}

/// The high 16 bits of any number, in their place.
pub fn upper_half(
    alloc: Global,
    buf: &mut ParseBuf<'_>,
) -> Result<RawInt<LeU32UpperHalf>, WireError>
    ensures reads { ParsesFixed (λ int. int.0) 2 (λ bytes. 65536 * le_number bytes) buf.old.0.now
        result buf.new.0.now }
    ensures back { (val : ℕ) → val < 2 ^ 32
        → ComesBackFrom (le_bytes 2 (val / 65536)) (λ back. back.0 ≡ val - val % 65536) ⊥
        buf.old.0.now result buf.new.0.now }
{
    number_back(alloc, buf)
}

/// Any number.
pub fn lenenc_number(alloc: Global, buf: &mut ParseBuf<'_>) -> Result<RawInt<LenEnc>, WireError>
    ensures reads { Reads (λ input.
        Through (λ int. int.0) (Leaves (NumberOrEof IsLenencOrMark 1) input)) buf.old.0.now result
        buf.new.0.now }
    ensures back { (val : ℕ) → val < 2 ^ 64
        → ComesBackFrom (lenenc_bytes val) (λ back. back.0 ≡ val) ⊥ buf.old.0.now result
        buf.new.0.now }
{
    number_back(alloc, buf)
}

/// Any number.
pub fn var_len_number(alloc: Global, buf: &mut ParseBuf<'_>) -> Result<RawInt<VarLen>, WireError>
    ensures reads { Reads (λ input. Through (λ int. int.0) (Leaves ReadsGroups input)) buf.old.0.now
        result buf.new.0.now }
    ensures back { (val : ℕ) → val < 2 ^ 32
        → ComesBackFrom (groups_bytes val) (λ back. back.0 ≡ val) ⊥ buf.old.0.now result
        buf.new.0.now }
{
    number_back(alloc, buf)
}

/// As few bytes are written of a number as hold it.
pub fn lenenc_shortest(number: &RawInt<LenEnc>)
    ensures { IsShortest IsLenencOrMark number.now.0
        (⟦<RawInt<LenEnc> as MySerialize>⟧.bytes number.now) }
{
    <LenEnc as IntRepr>::known(number.0);
}

/// As few bytes are written of a number as hold it.
pub fn var_len_shortest(number: &RawInt<VarLen>)
    ensures { IsShortest IsGroups number.now.0
        (⟦<RawInt<VarLen> as MySerialize>⟧.bytes number.now) }
{
    <VarLen as IntRepr>::known(number.0);
}
