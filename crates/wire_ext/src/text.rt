//! Texts cut to what the length before them can say.

ghost use Rattle.std.specs.Prelude.{◌≡◌, ◌<◌, ◌≤◌, ◌^◌, length, take};
ghost use Rattle.wire_ext.specs.Texts.{u8_max, u32_max};

use std::cmp::min;

/// The longest text after one byte of length.
#[tactic(auto, unfolding(crate::specs::Texts::u8_max))]
pub fn longest_u8_str() -> usize
    ensures value { result ≡ u8_max }
    ensures small { result < 256 }
{
    u8::MAX as usize
}

/// The longest text after a length of four bytes, or of a number up to `u32::MAX`.
#[tactic(auto, unfolding(crate::specs::Texts::u32_max))]
pub fn longest_u32_str() -> usize
    ensures value { result ≡ u32_max }
    ensures small { result < 2 ^ 32 }
{
    u32::MAX as usize
}

/// The first bytes of a text, at most this many.
pub fn first_bytes(text: &[u8], most: usize) -> &[u8]
    ensures first { result.now ≡ take most text.now }
    ensures few { length result.now ≤ most }
{
    &text[..min(text.len(), most)]
}
