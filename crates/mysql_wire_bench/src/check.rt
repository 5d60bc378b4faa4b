//! Check values.

ghost use Rattle.std.specs.Prelude.{◌<◌};

/// The answer where anything is refused.
pub const REFUSED: u64 = u64::MAX;

/// The first and the last byte, as one number; 0 where there is none.
pub fn ends(bytes: &[u8]) -> u64 {
    match (bytes.first(), bytes.last()) {
        (Some(first), Some(last)) => 65536 * *first as u64 + *last as u64,
        _ => 0,
    }
}

/// The last byte; 0 where there is none.
pub fn last(bytes: &[u8]) -> u64 {
    match bytes.last() {
        Some(last) => *last as u64,
        None => 0,
    }
}

/// A length and the ends.
pub fn summary(bytes: &[u8]) -> u64 {
    (bytes.len() as u64).wrapping_add(ends(bytes))
}

/// How many bytes a piece has: all of them where `piece` is 0.
pub fn piece_len(bytes: &[u8], piece: u64) -> usize
    ensures { 0 < result }
{
    if piece == 0 {
        bytes.len().max(1)
    } else {
        piece as usize
    }
}
