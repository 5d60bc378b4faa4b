//! Which bytes of a text stand in quotes as they are.

ghost use Rattle.std.specs.Prelude.{◌≡◌, ◌≤◌, ℕ, true, length, take};
ghost use Rattle.std.specs.List.{prefix_len};
ghost use Rattle.wire_text.specs.Fields.{all_ascii, all_plain, needs_no_escape, plain};
ghost use Rattle.wire_text.specs.Plain.{others_mask};

use crate::digits::fill;
use std::simd::prelude::*;

// Whether a byte needs no escape.
fn needs_no_escape(byte: u8) -> bool
    ensures { result ≡ needs_no_escape byte }
{
    (byte != b'"') & (byte != b'\\') & (byte >= 0x20)
}

// Whether these bytes are of ASCII, and none needs an escape.
fn all_plain(words: &[u8]) -> bool
    ensures { result ≡ all_plain words.now }
{
    let mut all = true;
    'bytes: for byte in words {
        all &= needs_no_escape(*byte) & (*byte < 0x80);
    }
    all
}

// Which of sixteen bytes are not plain, a bit for each. One comparison tells the control characters and
// those not of ASCII: with the highest bit turned these are the lowest.
fn others_in(bytes: u8x16) -> u64
    ensures { result ≡ others_mask bytes }
{
    let other = (bytes ^ u8x16::splat(0x80)).simd_lt(u8x16::splat(0xa0))
        | bytes.simd_eq(u8x16::splat(b'"'))
        | bytes.simd_eq(u8x16::splat(b'\\'));
    other.to_bitmask()
}

// The same of a slice.
fn others_of(block: &[u8]) -> u64
    requires { length block.now ≡ 16 }
    ensures { result ≡ others_mask block.now }
{
    others_in(u8x16::from_slice(block))
}

// The same of sixteen bytes at once.
fn is_plain_block(block: &[u8]) -> bool
    requires { length block.now ≡ 16 }
    ensures { result ≡ all_plain block.now }
{
    others_of(block) == 0
}

// Which of 32 bytes are not plain, a bit for each.
fn others_of_both(block: &[u8]) -> u64
    requires { length block.now ≡ 32 }
    ensures { result ≡ others_mask block.now }
{
    others_of(&block[..16]) | others_of(&block[16..]) << 16
}

/// How many of 32 bytes stand before one that is not plain. No branch asks how many there are.
pub(crate) fn plain_in_front(block: &[u8]) -> usize
    requires { length block.now ≡ 32 }
    ensures within { result ≤ 32 }
    ensures run { result ≡ prefix_len plain block.now }
{
    let others = others_of_both(block);
    if others == 0 {
        32
    } else {
        others.trailing_zeros() as usize
    }
}

// The same of fewer bytes: of eight and more, and of four and more, the first and the last.
fn is_short_plain(words: &[u8]) -> bool
    requires { length words.now ≤ 16 }
    ensures { result ≡ all_plain words.now }
{
    let mut block = [b' '; 16];
    let len = words.len();
    if len >= 8 {
        fill(&mut block, &words[..8], &words[len - 8..]);
        return is_plain_block(&block);
    }
    if len >= 4 {
        let mut half = [b' '; 8];
        fill(&mut half, &words[..4], &words[len - 4..]);
        fill(&mut block, &half, &[b' '; 8]);
        return is_plain_block(&block);
    }
    all_plain(words)
}

// The same, sixteen bytes at once; the last sixteen with some of those in front of them.
pub(crate) fn is_plain(words: &[u8]) -> bool
    ensures { result ≡ all_plain words.now }
{
    if words.len() < 16 {
        return is_short_plain(words);
    }
    let mut rest = words;
    'rounds: while let Some((block, after)) = rest.split_first_chunk::<16>() {
        if !is_plain_block(block) {
            return false;
        }
        rest = after;
    }
    is_plain_block(&words[words.len() - 16..])
}

// Whether 32 bytes are plain.
fn are_both_plain(block: &[u8]) -> bool
    requires { length block.now ≡ 32 }
    ensures { result ≡ all_plain block.now }
{
    is_plain_block(&block[..16]) & is_plain_block(&block[16..])
}

// Whether these are 32 to 64 bytes, all of them plain: the first 32, and the last. No branch asks how many
// there are.
pub(crate) fn is_longer_plain(words: &[u8]) -> bool
    ensures { result ≡ true → (32 ≤ length words.now) × (length words.now ≤ 64)
        × (all_plain words.now ≡ true) }
{
    let len = words.len();
    if len < 32 || len > 64 {
        return false;
    }
    are_both_plain(&words[..32]) & are_both_plain(&words[len - 32..])
}

// Of 32 bytes those of ASCII as they are, and of the others the low seven bits.
pub(crate) fn below_128(block: &[u8]) -> u8x32
    requires { length block.now ≡ 32 }
    ensures front { (len : ℕ) → all_plain (take len block.now) ≡ true
        → take len result ≡ take len block.now }
    ensures ascii { all_ascii result ≡ true }
{
    u8x32::from_slice(block) & u8x32::splat(0x7f)
}
