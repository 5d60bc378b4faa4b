//! The law of a value that is written and read.

ghost use Rattle.std.specs.Prelude.{◌≡◌, ◌<◌, ◌^◌, ◌∷◌, [], ℕ, List, ◌++◌, length, Some, Result, refl};
ghost use Rattle.wire_buf.specs.Numbers.{le_bytes, le_number};
ghost use Rattle.wire_buf.specs.NumberLemmas.{length-le_bytes};
ghost use Rattle.wire_buf.specs.declared.error.WireError.{WireError};
ghost use Rattle.wire_repr.specs.Law.{ComesBack, ReadsFixed, Through-back, array-back, size-is};
ghost use Rattle.wire_repr.specs.Numbers.{byte-back, le_bytes-back};

use std::alloc::Allocator;
use wire_buf::proto::{MyDeserialize, MySerialize};

/// A type whose values are read back from what they are written as, before what each of them
/// allows: most whatever stands after them, one that takes all the rest before nothing (`good`).
///
/// A type of one's own that is made of such fields gets the law from theirs.
pub trait Wire<'de, A: Allocator + Copy>: MySerialize + MyDeserialize<'de, A> {
    /// Its numbers are values of their types. Each value in hand is one, which `known` says.
    ghost is_value: { Self → Type 0 };

    /// The value comes back where it is read under this context and before these bytes. `parse` of
    /// a type with a size reads it before none.
    ghost good: { Self.Ctx → Self → List ℕ → Type 0 };

    /// The second value may come back of the first.
    ghost kept: { Self → Self → Type 0 };

    /// Holds where reading takes memory, so that it may be refused.
    ghost takes_memory: { Type 0 };

    /// Does nothing, and tells a proof that the value is one.
    fn known(&self)
        ensures { is_value self.now };

    ghost comes_back: { (ctx : Self.Ctx) (value : Self) (rest : List ℕ)
        (answer : Result Self WireError) (eaten : ℕ) →
        is_value value → good ctx value rest
        → Self.reads ctx (Self.bytes value ++ rest) answer eaten
        → ComesBack (kept value) takes_memory (length (Self.bytes value)) answer eaten };

    ghost of_size: { (value : Self) (size : ℕ) → is_value value → Self.Size.SIZE ≡ Some size
        → length (Self.bytes value) ≡ size };
}

impl<'de, A: Allocator + Copy, const LEN: usize> Wire<'de, A> for [u8; LEN] {
    ghost is_value = { λ bytes. length bytes ≡ LEN };

    ghost good = { λ _ _ _. Unit {0} };

    ghost kept = { λ bytes back. back ≡ bytes };

    ghost takes_memory = { ⊥ };

    fn known(&self) {}

    ghost comes_back = { λ ctx bytes rest answer eaten is good read.
        array-back LEN bytes rest is answer eaten read };

    ghost of_size = { λ bytes size is stated. size-is LEN size (length bytes) stated (is) };
}

impl<'de, A: Allocator + Copy> Wire<'de, A> for u8 {
    ghost is_value = { λ n. n < 2 ^ 8 };

    ghost good = { λ _ _ _. Unit {0} };

    ghost kept = { λ n back. back ≡ n };

    ghost takes_memory = { ⊥ };

    fn known(&self) {
        let _n = *self;
    }

    ghost comes_back = { λ ctx n rest answer eaten is good read.
        Through-back (λ back. back) (ReadsFixed 1 le_number (n ∷ [] ++ rest)) n (length (n ∷ []))
        (byte-back n rest) answer eaten read };

    ghost of_size = { λ n size is stated. size-is 1 size (length (n ∷ [])) stated refl };
}

impl<'de, A: Allocator + Copy> Wire<'de, A> for u16 {
    ghost is_value = { λ n. n < 2 ^ 16 };

    ghost good = { λ _ _ _. Unit {0} };

    ghost kept = { λ n back. back ≡ n };

    ghost takes_memory = { ⊥ };

    fn known(&self) {
        let _n = *self;
    }

    ghost comes_back = { λ ctx n rest answer eaten is good read.
        Through-back (λ back. back) (ReadsFixed 2 le_number (le_bytes 2 n ++ rest)) n (length (le_bytes 2 n))
        (le_bytes-back 2 n rest is) answer eaten read };

    ghost of_size = { λ n size is stated. size-is 2 size (length (le_bytes 2 n)) stated (length-le_bytes 2 n) };
}

impl<'de, A: Allocator + Copy> Wire<'de, A> for u32 {
    ghost is_value = { λ n. n < 2 ^ 32 };

    ghost good = { λ _ _ _. Unit {0} };

    ghost kept = { λ n back. back ≡ n };

    ghost takes_memory = { ⊥ };

    fn known(&self) {
        let _n = *self;
    }

    ghost comes_back = { λ ctx n rest answer eaten is good read.
        Through-back (λ back. back) (ReadsFixed 4 le_number (le_bytes 4 n ++ rest)) n (length (le_bytes 4 n))
        (le_bytes-back 4 n rest is) answer eaten read };

    ghost of_size = { λ n size is stated. size-is 4 size (length (le_bytes 4 n)) stated (length-le_bytes 4 n) };
}

impl<'de, A: Allocator + Copy> Wire<'de, A> for u64 {
    ghost is_value = { λ n. n < 2 ^ 64 };

    ghost good = { λ _ _ _. Unit {0} };

    ghost kept = { λ n back. back ≡ n };

    ghost takes_memory = { ⊥ };

    fn known(&self) {
        let _n = *self;
    }

    ghost comes_back = { λ ctx n rest answer eaten is good read.
        Through-back (λ back. back) (ReadsFixed 8 le_number (le_bytes 8 n ++ rest)) n (length (le_bytes 8 n))
        (le_bytes-back 8 n rest is) answer eaten read };

    ghost of_size = { λ n size is stated. size-is 8 size (length (le_bytes 8 n)) stated (length-le_bytes 8 n) };
}
