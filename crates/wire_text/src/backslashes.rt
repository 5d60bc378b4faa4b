//! Letters with a backslash before each that has an escape, eight at a time.

ghost use Rattle.std.specs.Prelude.{◌≡◌, ◌<◌, ◌+◌, ℕ, Bool, true, List, drop, length, map, take};
ghost use Rattle.std.specs.Int.RustNames.{count_ones};
ghost use Rattle.std.specs.Simd.Lanes.{mask_l};
ghost use Rattle.json.specs.Print.{escape};
ghost use Rattle.wire_text.specs.Backslashes.{are_letters, backslashed, is_control, letter_of};
ghost use Rattle.wire_text.specs.Fields.{needs_escape};

use crate::places::places_of;
use std::simd::prelude::*;

// The letters of the escapes of the first control characters, 0 where there is none.
const CONTROL_LETTERS: [u8; 16] = [
    0, 0, 0, 0, 0, 0, 0, 0, b'b', b't', b'n', 0, b'f', b'r', 0, 0,
];

// What stands for each of sixteen bytes where JSON quotes it, without its backslash: a byte itself
// where it needs none, and where it has no escape of a letter.
pub(crate) fn letters_of(bytes: u8x16) -> u8x16
    ensures are { result ≡ map letter_of bytes }
    ensures escapes { (len : ℕ) → are_letters (take len result) ≡ true → escape (take len bytes)
        ≡ backslashed (take len (map needs_escape bytes)) (take len result) }
{
    let places = bytes.simd_min(u8x16::splat(15));
    bytes.simd_max(u8x16::from_array(CONTROL_LETTERS).swizzle_dyn(places))
}

// A bit for each of sixteen bytes: whether it is a control character.
pub(crate) fn control_bits(bytes: u8x16) -> u64
    ensures { result ≡ mask_l (map is_control bytes) }
{
    bytes.simd_lt(u8x16::splat(0x20)).to_bitmask()
}

// Eight letters, with a backslash before each whose bit is set; some more follow.
pub(crate) fn with_backslashes(letters: u8x16, escapes: usize) -> [u8; 16]
    requires { escapes < 256 }
    ensures { (set : List Bool) → length set ≡ 8 → escapes ≡ mask_l set
        → take (8 + count_ones escapes) result ≡ backslashed set (take 8 letters) }
{
    let source: u8x16 = letters.shuffle(
        u8x16::splat(b'\\'),
        [0, 1, 2, 3, 4, 5, 6, 7, 16, 16, 16, 16, 16, 16, 16, 16],
    );
    source.swizzle_dyn(places_of(escapes)).to_array()
}

// The last eight of sixteen letters, and some more.
pub(crate) fn last_eight(letters: u8x16) -> u8x16
    ensures { take 8 result ≡ drop 8 letters }
{
    letters.shuffle(
        letters,
        [8, 9, 10, 11, 12, 13, 14, 15, 8, 9, 10, 11, 12, 13, 14, 15],
    )
}
