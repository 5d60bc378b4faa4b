//! Two digits a byte, in lower case, sixteen and 64 bytes at a time.

ghost use Rattle.std.specs.Prelude.{◌≡◌, ◌≤◌, ◌+◌, ◌*◌, ◌<◌, ◌/◌, ◌%◌, ◌++◌, length, map, slice_index, string_bytes, vec_len, vec_capacity, IfOk, IsOk, OnErr, OnOk};
ghost use Rattle.hex.specs.Hex.{encode_lower, lower_digits};
ghost use Rattle.wire_text.specs.Digits.{Pushed};

use std::alloc::{AllocError, Allocator};
use std::mem;
use std::simd::prelude::*;

// The digits, in the order of their values.
pub(crate) const DIGITS: [u8; 16] = [
    b'0', b'1', b'2', b'3', b'4', b'5', b'6', b'7', b'8', b'9', b'a', b'b', b'c', b'd', b'e', b'f',
];

// The digit of each byte's high four bits.
fn high_digits(bytes: u8x16) -> u8x16
    ensures { result ≡ map (λ b. slice_index lower_digits (b / 16)) bytes }
{
    u8x16::from_array(DIGITS).swizzle_dyn(bytes >> u8x16::splat(4))
}

// The digit of each byte's low four bits.
fn low_digits(bytes: u8x16) -> u8x16
    ensures { result ≡ map (λ b. slice_index lower_digits (b % 16)) bytes }
{
    u8x16::from_array(DIGITS).swizzle_dyn(bytes & u8x16::splat(15))
}

// Both digits of each of sixteen bytes, one byte's after the other's.
fn digits_of(bytes: &[u8]) -> [u8; 32]
    requires { length bytes.now ≡ 16 }
    ensures { result ≡ encode_lower bytes.now }
{
    let bytes = u8x16::from_slice(bytes);
    let digits: u8x32 = high_digits(bytes).shuffle(
        low_digits(bytes),
        [
            0, 16, 1, 17, 2, 18, 3, 19, 4, 20, 5, 21, 6, 22, 7, 23, 8, 24, 9, 25, 10, 26, 11, 27,
            12, 28, 13, 29, 14, 30, 15, 31,
        ],
    );
    digits.to_array()
}

// Fills a place with two parts, one after the other.
pub(crate) fn fill(place: &mut [u8], front: &[u8], after: &[u8])
    requires { length front.now + length after.now ≡ length place.old }
    ensures { place.new ≡ front.now ++ after.now }
{
    place[..front.len()].copy_from_slice(front);
    place[front.len()..].copy_from_slice(after);
}

// The digits of 32 bytes.
#[inline]
fn digits_of_32(bytes: &[u8]) -> [u8; 64]
    requires { length bytes.now ≡ 32 }
    ensures { result ≡ encode_lower bytes.now }
{
    let mut digits = [0; 64];
    let (front, after) = bytes.split_at(16);
    fill(&mut digits, &digits_of(front), &digits_of(after));
    digits
}

// The digits of 64 bytes.
#[inline(always)]
fn digits_of_64(bytes: &[u8]) -> [u8; 128]
    requires { length bytes.now ≡ 64 }
    ensures { result ≡ encode_lower bytes.now }
{
    let mut digits = [0; 128];
    let (front, after) = bytes.split_at(32);
    fill(&mut digits, &digits_of_32(front), &digits_of_32(after));
    digits
}

// Appends the digits of the bytes in front, 64 at a time. The answer is what is left of them.
fn push_front_digits<'a, A: Allocator>(
    text: &mut Vec<u8, A>,
    bytes: &'a [u8],
) -> Result<&'a [u8], AllocError>
    requires { vec_len text.old + 2 * length bytes.now ≤ vec_capacity text.old }
    ensures pushed { IfOk result (λ rest. Pushed bytes.now rest.now text.old.items text.new.items) }
    ensures room { IfOk result
        (λ rest. vec_len text.new + 2 * length rest.now ≤ vec_capacity text.new) }
    ensures ok { IsOk result }
{
    let mut rest = bytes;
    while let Some((block, after)) = rest.split_first_chunk::<64>() {
        text.extend_from_slice(&digits_of_64(block))?;
        rest = after;
    }
    Ok(rest)
}

// Appends the digits of fewer bytes than are done at once.
fn push_last_digits<A: Allocator>(text: &mut Vec<u8, A>, bytes: &[u8]) -> Result<(), AllocError>
    requires { length bytes.now ≤ 16 }
    ensures ok { OnOk result (text.new.items ≡ text.old.items ++ encode_lower bytes.now) }
    ensures full { OnErr result (vec_capacity text.old < vec_len text.old + 2 * length bytes.now) }
{
    let mut block = [0; 16];
    block[..bytes.len()].copy_from_slice(bytes);
    text.extend_from_slice(&digits_of(&block)[..2 * bytes.len()])?;
    Ok(())
}

/// Appends the digits of some bytes. Room for all of them is taken before the first.
pub fn push_digits<A: Allocator>(text: &mut Vec<u8, A>, bytes: &[u8]) -> Result<(), AllocError>
    ensures ok { OnOk result (text.new.items ≡ text.old.items ++ encode_lower bytes.now) }
    ensures err { OnErr result (text.new.items ≡ text.old.items) }
{
    text.reserve(2 * bytes.len())?;
    let mut rest = push_front_digits(text, bytes)?;
    while let Some((block, after)) = rest.split_first_chunk::<16>() {
        text.extend_from_slice(&digits_of(block))?;
        rest = after;
    }
    push_last_digits(text, rest)
}

/// As `push_digits`, at the end of a text.
pub fn push_digits_to<A: Allocator + Copy>(
    text: &mut String<A>,
    bytes: &[u8],
) -> Result<(), AllocError>
    ensures ok { OnOk result
        (string_bytes text.new ≡ string_bytes text.old ++ encode_lower bytes.now) }
    ensures err { OnErr result (string_bytes text.new ≡ string_bytes text.old) }
{
    let alloc = *text.allocator();
    let mut all = mem::replace(text, String::new(alloc)).into_bytes();
    // (digits are of ASCII)
    match push_digits(&mut all, bytes) {
        Ok(()) => {
            *text = unsafe { String::from_utf8_unchecked(all) };
            Ok(())
        }
        Err(error) => {
            *text = unsafe { String::from_utf8_unchecked(all) };
            Err(error)
        }
    }
}
