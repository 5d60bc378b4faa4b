//! The versions that servers tell.

ghost use Rattle.std.specs.Prelude.{◌≡◌, ◌≤◌, ℕ, length, position, MatchOption};
ghost use Rattle.std.specs.Option.{SomeIff};
ghost use Rattle.std.specs.List.{position_or_len, before_first};
ghost use Rattle.std.specs.Str.Parse.{IsNumeral, digits_value};
ghost use Rattle.wire_streams.specs.Version.{is_dot, is_no_digit, IsCut, IsPart, IsSignedPart, IsVersion, ReadsVersion};

// Where the first dot is.
fn find_dot(text: &[u8]) -> Option<usize>
    ensures { result ≡ position is_dot text.now }
{
    text.iter().position(|byte| *byte == b'.')
}

// The parts round the first dot.
fn cut(text: &[u8]) -> Option<(&[u8], &[u8])>
    ensures { MatchOption result (position_or_len is_dot text.now ≡ length text.now)
        (λ parts. IsCut text.now parts.0.now parts.1.now) }
{
    let dot = find_dot(text)?;
    Some((&text[..dot], &text[dot + 1..]))
}

// The number that these digits make, where they are digits and it is at most 255.
fn part(digits: &[u8]) -> Option<u8>
    ensures { SomeIff result (IsNumeral 10 digits.now × (digits_value 10 digits.now ≤ 255))
        (digits_value 10 digits.now) }
{
    if digits.is_empty() {
        return None;
    }
    let mut number = 0u8;
    for digit in digits {
        if !digit.is_ascii_digit() {
            return None;
        }
        number = number.checked_mul(10)?.checked_add(*digit - b'0')?;
    }
    Some(number)
}

// The same after a sign, if there is one.
fn signed_part(piece: &[u8]) -> Option<u8>
    ensures { MatchOption result ((n : ℕ) → ¬ IsSignedPart piece.now n)
        (λ n. IsSignedPart piece.now n) }
{
    match piece {
        [b'+', digits @ ..] => part(digits),
        [b'-', digits @ ..] => part(digits).filter(|number| *number == 0),
        digits => part(digits),
    }
}

// Where the first byte is that is no digit.
fn find_no_digit(piece: &[u8]) -> Option<usize>
    ensures { result ≡ position is_no_digit piece.now }
{
    piece.iter().position(|byte| !byte.is_ascii_digit())
}

// The number that the digits at the front make.
fn front_part(piece: &[u8]) -> Option<u8>
    ensures { MatchOption result
        ((n : ℕ) → ¬ IsPart (before_first is_no_digit piece.now) n)
        (λ n. IsPart (before_first is_no_digit piece.now) n) }
{
    match find_no_digit(piece) {
        Some(end) => part(&piece[..end]),
        None => part(piece),
    }
}

// The version, where the text is one.
fn version_of(text: &[u8]) -> Option<(u8, u8, u8)>
    ensures { MatchOption result
        ((version : ℕ × ℕ × ℕ) → ¬ IsVersion text.now version)
        (λ version. IsVersion text.now version) }
{
    let (first, rest) = cut(text)?;
    let (second, third) = cut(rest)?;
    Some((
        signed_part(first)?,
        signed_part(second)?,
        front_part(third)?,
    ))
}

/// Splits a server's version, as `8.0.36-log`, into its three numbers, each at most 255. The first
/// two may have a sign, and after the third anything may follow. The answer is three zeros where
/// the text is no such version.
pub fn split_version(version_str: &[u8]) -> (u8, u8, u8)
    ensures { ReadsVersion version_str.now result }
{
    version_of(version_str).unwrap_or((0, 0, 0))
}
