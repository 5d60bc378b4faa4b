//! What lines and fields are put together of.

ghost use Rattle.std.specs.Prelude.{◌≡◌, ◌+◌, ◌<◌, ◌≤◌, ◌++◌, ℕ, List, OnOk, string_bytes};
ghost use Rattle.std.specs.Fmt.{decimal};
ghost use Rattle.std.specs.Str.{IsUtf8};
ghost use Rattle.wire_text.specs.Fields.{AreLetters};

use std::alloc::{AllocError, Allocator};

/// What makes a word where it is put, so that it takes no memory of its own.
pub trait PutWord {
    /// Its letters, which stand in quotes as they are.
    ghost letters: { Self → List ℕ };

    /// Appends them.
    fn push<A: Allocator>(&self, text: &mut String<A>) -> Result<(), AllocError>
        ensures { OnOk result (string_bytes text.new
            ≡ string_bytes text.old ++ letters self.now) };
}

/// Appends words, between two others.
#[inline(always)]
pub fn push_between<A: Allocator>(
    text: &mut String<A>,
    before: &str,
    words: &str,
    after: &str,
) -> Result<(), AllocError>
    ensures { OnOk result (string_bytes text.new
        ≡ string_bytes text.old ++ (before.now ++ words.now ++ after.now)) }
{
    text.push_str(before)?;
    text.push_str(words)?;
    text.push_str(after)
}

// Appends a number of many digits.
#[inline(never)]
fn push_large_number<A: Allocator>(text: &mut String<A>, number: u64) -> Result<(), AllocError>
    ensures { OnOk result (string_bytes text.new ≡ string_bytes text.old ++ decimal number) }
{
    let mut digits = itoa::Buffer::new();
    text.push_str(digits.format(number))
}

// The letter of a digit.
fn letter_of(digit: u64) -> u8
    requires { digit < 10 }
    ensures { result ≡ 48 + digit }
{
    b'0' + digit as u8
}

// A number of one digit.
pub(crate) fn one_digit(number: u64) -> [u8; 1]
    requires { number < 10 }
    ensures is { result ≡ decimal number }
    ensures utf8 { IsUtf8 result }
{
    [letter_of(number)]
}

// A number of two digits.
pub(crate) fn two_digits(number: u64) -> [u8; 2]
    requires { (10 ≤ number) × (number < 100) }
    ensures is { result ≡ decimal number }
    ensures utf8 { IsUtf8 result }
{
    [letter_of(number / 10), letter_of(number % 10)]
}

/// Appends a few letters of ASCII at once.
pub fn push_letters<A: Allocator>(text: &mut String<A>, letters: &[u8]) -> Result<(), AllocError>
    requires { AreLetters letters.now }
    ensures { OnOk result (string_bytes text.new ≡ string_bytes text.old ++ letters.now) }
{
    push_few(text, letters)
}

/// Appends a number in decimal digits: up to three of them at once.
pub fn push_number<A: Allocator>(text: &mut String<A>, number: u64) -> Result<(), AllocError>
    ensures { OnOk result (string_bytes text.new ≡ string_bytes text.old ++ decimal number) }
{
    if number < 10 {
        return push_few(text, &one_digit(number));
    }
    if number < 100 {
        return push_few(text, &two_digits(number));
    }
    if number < 1000 {
        let tens = letter_of(number / 10 % 10);
        let ones = letter_of(number % 10);
        return push_few(text, &[letter_of(number / 100), tens, ones]);
    }
    push_large_number(text, number)
}

// Appends a few bytes at once.
pub(crate) fn push_few<A: Allocator>(text: &mut String<A>, bytes: &[u8]) -> Result<(), AllocError>
    requires { IsUtf8 bytes.now }
    ensures { OnOk result (string_bytes text.new ≡ string_bytes text.old ++ bytes.now) }
{
    text.push_str(unsafe { std::str::from_utf8_unchecked(bytes) })
}
