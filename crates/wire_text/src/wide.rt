//! Texts of letters of three bytes each, such as Chinese ones, sixteen bytes at a time.

ghost use Rattle.std.specs.Prelude.{◌≡◌, ◌<◌, ◌≤◌, ◌%◌, true, length, take, drop, map};
ghost use Rattle.std.specs.Simd.Lanes.{mask_l};
ghost use Rattle.wire_text.specs.Fields.{all_ascii, are_wide, begins_three, goes_on};

use std::simd::prelude::*;

// A bit for each of sixteen bytes: whether a letter of three bytes begins there. After 0xe0 and
// 0xed fewer bytes may follow, so they are left out.
fn lead_bits(block: &[u8]) -> u64
    requires { length block.now ≡ 16 }
    ensures { result ≡ mask_l (map begins_three block.now) }
{
    let bytes = u8x16::from_slice(block);
    let leads = bytes.simd_ge(u8x16::splat(0xe1))
        & bytes.simd_le(u8x16::splat(0xef))
        & bytes.simd_ne(u8x16::splat(0xed));
    leads.to_bitmask()
}

// A bit for each of sixteen bytes: whether a letter goes on there.
fn going_bits(block: &[u8]) -> u64
    requires { length block.now ≡ 16 }
    ensures { result ≡ mask_l (map goes_on block.now) }
{
    let bytes = u8x16::from_slice(block);
    let going = bytes.simd_ge(u8x16::splat(0x80)) & bytes.simd_le(u8x16::splat(0xbf));
    going.to_bitmask()
}

// Whether sixteen bytes are five such letters and the beginning of another.
fn is_wide_front(block: &[u8]) -> bool
    requires { length block.now ≡ 16 }
    ensures { result ≡ true → are_wide (take 15 block.now) ≡ true }
{
    lead_bits(block) == 0x9249 && going_bits(block) == 0x6db6
}

// Whether sixteen bytes are the end of such a letter and five others.
fn is_wide_end(block: &[u8]) -> bool
    requires { length block.now ≡ 16 }
    ensures { result ≡ true → are_wide (drop 1 block.now) ≡ true }
{
    lead_bits(block) == 0x2492 && going_bits(block) == 0xdb6d
}

// Five letters of three bytes, and the beginning of another.
const LETTERS: [u8; 16] = [
    0xe4, 0xb8, 0x80, 0xe4, 0xb8, 0x80, 0xe4, 0xb8, 0x80, 0xe4, 0xb8, 0x80, 0xe4, 0xb8, 0x80, 0xe4,
];

// Whether a few bytes are known to be such letters alone, with others after them.
fn are_few_wide(words: &[u8]) -> bool
    requires { (length words.now < 16) × (length words.now % 3 ≡ 0) }
    ensures { result ≡ true → are_wide words.now ≡ true }
{
    let mut block = LETTERS;
    block[..words.len()].copy_from_slice(words);
    is_wide_front(&block)
}

// Whether bytes are known to be such letters alone: sixteen bytes at once; the last sixteen with
// some of those in front of them.
pub(crate) fn is_wide(words: &[u8]) -> bool
    ensures { result ≡ true → are_wide words.now ≡ true }
{
    if words.len() % 3 != 0 {
        return false;
    }
    if words.len() < 16 {
        return are_few_wide(words);
    }
    let mut rest = words;
    'rounds: while rest.len() >= 16 {
        if !is_wide_front(&rest[..16]) {
            return false;
        }
        rest = &rest[15..];
    }
    is_wide_end(&words[words.len() - 16..])
}

// Which bits of 32 bytes tell that letters begin there, and go on.
fn bits_of_both(block: &[u8]) -> (u64, u64)
    requires { length block.now ≡ 32 }
    ensures { (result.0 ≡ mask_l (map begins_three block.now))
        × (result.1 ≡ mask_l (map goes_on block.now)) }
{
    let (front, after) = block.split_at(16);
    let leads = lead_bits(front) | lead_bits(after) << 16;
    let going = going_bits(front) | going_bits(after) << 16;
    (leads, going)
}

// Whether so many of 32 bytes are known to be such letters alone. No branch asks how many there are.
pub(crate) fn is_wide_in_front(block: &[u8], len: usize) -> bool
    requires long { length block.now ≡ 32 }
    requires within { len ≤ 32 }
    ensures { result ≡ true → are_wide (take len block.now) ≡ true }
{
    if block[0] < 0x80 || len % 3 != 0 {
        return false;
    }
    let within = 1 << len;
    let (leads, going) = bits_of_both(block);
    leads % within == 0x49249249 % within && going % within == 0xb6db6db6 % within
}

// All bits of 32 bytes, and behind them the low seven bits of as many.
const BITS: [u8; 64] = [
    0xff, 0xff, 0xff, 0xff, 0xff, 0xff, 0xff, 0xff, 0xff, 0xff, 0xff, 0xff, 0xff, 0xff, 0xff, 0xff,
    0xff, 0xff, 0xff, 0xff, 0xff, 0xff, 0xff, 0xff, 0xff, 0xff, 0xff, 0xff, 0xff, 0xff, 0xff, 0xff,
    0x7f, 0x7f, 0x7f, 0x7f, 0x7f, 0x7f, 0x7f, 0x7f, 0x7f, 0x7f, 0x7f, 0x7f, 0x7f, 0x7f, 0x7f, 0x7f,
    0x7f, 0x7f, 0x7f, 0x7f, 0x7f, 0x7f, 0x7f, 0x7f, 0x7f, 0x7f, 0x7f, 0x7f, 0x7f, 0x7f, 0x7f, 0x7f,
];

// So many of 32 bytes as they are, and the low seven bits of those behind.
pub(crate) fn ascii_behind(block: &[u8], len: usize) -> u8x32
    requires long { length block.now ≡ 32 }
    requires within { len ≤ 32 }
    ensures front { take len result ≡ take len block.now }
    ensures behind { all_ascii (drop len result) ≡ true }
{
    u8x32::from_slice(block) & u8x32::from_slice(&BITS[32 - len..])
}
