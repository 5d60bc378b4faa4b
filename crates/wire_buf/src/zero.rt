//! Where the first zero stands.

ghost use Rattle.std.specs.Prelude.{◌≡◌, length};
ghost use Rattle.std.specs.List.{position_or_len};
ghost use Rattle.memchr.specs.Find.{IsFirstByte, is_byte};
ghost use Rattle.wire_buf.specs.NullText.{is_zero};

use memchr::memchr;
use std::simd::prelude::*;

// How many bytes are looked at at once.
const BLOCK: usize = 16;

// How many of sixteen bytes stand before the first zero: all, where there is none.
fn before_zero(block: &[u8]) -> usize
    requires { length block.now ≡ 16 }
    ensures { result ≡ position_or_len is_zero block.now }
{
    let zeros = u8x16::from_slice(block)
        .simd_eq(u8x16::splat(0))
        .to_bitmask();
    if zeros == 0 {
        BLOCK
    } else {
        zeros.trailing_zeros() as usize
    }
}

/// The place of the first zero. The first sixteen bytes are looked at at once, since most texts are
/// short.
#[inline(always)]
pub fn first_zero(bytes: &[u8]) -> Option<usize>
    ensures { IsFirstByte (is_byte 0) bytes.now result }
{
    if let Some((block, _)) = bytes.split_first_chunk::<16>() {
        let place = before_zero(block);
        if place < BLOCK {
            return Some(place);
        }
    }
    memchr(0, bytes)
}
