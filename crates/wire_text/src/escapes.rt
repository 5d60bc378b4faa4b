//! Which bytes of a text need escapes, sixteen at a time.

ghost use Rattle.std.specs.Prelude.{◌≡◌, ◌≤◌, true, ℕ, List, drop, length, map};
ghost use Rattle.std.specs.List.{prefix_len};
ghost use Rattle.std.specs.Simd.Lanes.{mask_l};
ghost use Rattle.wire_text.specs.Fields.{all_ascii, in_ascii, needs_escape, needs_no_escape, none_needs_escape, over_ascii};

use std::simd::prelude::*;

// A bit for each of sixteen bytes: whether it needs an escape.
pub(crate) fn escape_bits(block: &[u8]) -> u64
    requires { length block.now ≡ 16 }
    ensures { result ≡ mask_l (map needs_escape block.now) }
{
    let bytes = u8x16::from_slice(block);
    let escaped = bytes.simd_eq(u8x16::splat(b'"'))
        | bytes.simd_eq(u8x16::splat(b'\\'))
        | bytes.simd_lt(u8x16::splat(0x20));
    escaped.to_bitmask()
}

// A bit for each of sixteen bytes: whether it is not of ASCII.
fn wide_bits(block: &[u8]) -> u64
    requires { length block.now ≡ 16 }
    ensures { result ≡ mask_l (map over_ascii block.now) }
{
    u8x16::from_slice(block)
        .simd_ge(u8x16::splat(0x80))
        .to_bitmask()
}

// How many of sixteen bytes come before the next that needs an escape, after those that are done.
pub(crate) fn run_from(escapes: u64, done: usize) -> usize
    requires { done ≤ 16 }
    ensures { (block : List ℕ) → length block ≡ 16 → escapes ≡ mask_l (map needs_escape block)
        → result ≡ prefix_len needs_no_escape (drop done block) }
{
    let left = escapes >> done;
    if left == 0 {
        16 - done
    } else {
        left.trailing_zeros() as usize
    }
}

// How many of sixteen bytes come before the first that is not of ASCII.
fn ascii_in_block(block: &[u8]) -> usize
    requires { length block.now ≡ 16 }
    ensures within { result ≤ 16 }
    ensures run { result ≡ prefix_len in_ascii block.now }
{
    let wide = wide_bits(block);
    if wide == 0 {
        16
    } else {
        wide.trailing_zeros() as usize
    }
}

// The same of 32 bytes.
pub(crate) fn ascii_in_front(block: &[u8]) -> usize
    requires { length block.now ≡ 32 }
    ensures { result ≡ prefix_len in_ascii block.now }
{
    let front = ascii_in_block(&block[..16]);
    let after = ascii_in_block(&block[16..]);
    if front < 16 { front } else { 16 + after }
}

// Whether sixteen bytes are of ASCII, and whether none of them needs an escape.
fn look_at_block(block: &[u8]) -> (bool, bool)
    requires { length block.now ≡ 16 }
    ensures { (result.0 ≡ all_ascii block.now) × (result.1 ≡ none_needs_escape block.now) }
{
    (wide_bits(block) == 0, escape_bits(block) == 0)
}

// The same of fewer bytes, with spaces after them.
fn look_at_few(words: &[u8]) -> (bool, bool)
    requires { length words.now ≤ 16 }
    ensures { (result.0 ≡ all_ascii words.now) × (result.1 ≡ none_needs_escape words.now) }
{
    let mut block = [b' '; 16];
    block[..words.len()].copy_from_slice(words);
    look_at_block(&block)
}

// The same of any bytes; the last sixteen with some of those in front of them.
fn look_at(words: &[u8]) -> (bool, bool)
    ensures { (result.0 ≡ all_ascii words.now) × (result.1 ≡ none_needs_escape words.now) }
{
    if words.len() < 16 {
        return look_at_few(words);
    }
    let mut is_ascii = true;
    let mut stands = true;
    let mut rest = words;
    'rounds: while let Some((block, after)) = rest.split_first_chunk::<16>() {
        let (block_is_ascii, block_stands) = look_at_block(block);
        is_ascii &= block_is_ascii;
        stands &= block_stands;
        rest = after;
    }
    let (last_is_ascii, last_stands) = look_at_block(&words[words.len() - 16..]);
    (is_ascii & last_is_ascii, stands & last_stands)
}

// Whether these bytes are of ASCII.
pub(crate) fn is_ascii(words: &[u8]) -> bool
    ensures { result ≡ all_ascii words.now }
{
    let (is_ascii, _) = look_at(words);
    is_ascii
}

// Whether none of these bytes needs an escape.
pub(crate) fn none_needs_escape(words: &[u8]) -> bool
    ensures { result ≡ none_needs_escape words.now }
{
    let (_, stands) = look_at(words);
    stands
}

// Whether 32 bytes are of ASCII.
fn are_both_ascii(block: &[u8]) -> bool
    requires { length block.now ≡ 32 }
    ensures { result ≡ all_ascii block.now }
{
    (wide_bits(&block[..16]) == 0) & (wide_bits(&block[16..]) == 0)
}

// Whether these are 32 to 64 bytes, all of them of ASCII: the first 32, and the last.
pub(crate) fn is_longer_ascii(words: &[u8]) -> bool
    ensures { result ≡ true → (32 ≤ length words.now) × (length words.now ≤ 64)
        × (all_ascii words.now ≡ true) }
{
    let len = words.len();
    if len < 32 || len > 64 {
        return false;
    }
    are_both_ascii(&words[..32]) & are_both_ascii(&words[len - 32..])
}
