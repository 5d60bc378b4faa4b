//! Numbers in groups of seven bits: base-128 varints.

ghost use Rattle.std.specs.Prelude.{◌≡◌, ◌<◌, ◌^◌, ◌++◌, ◌+◌, ◌%◌, OnErr, OnOk, IfErr, None};
ghost use Rattle.wire_buf.specs.declared.error.WireError.TheVariants.{OutOfMemory};
ghost use Rattle.wire_buf.specs.Spelling.{IsShortest};
ghost use Rattle.wire_forms.specs.Groups.{IsGroups, ReadsGroups, groups_bytes};
ghost use Rattle.wire_forms.specs.GroupsLemmas.{groups_bytes-back};
ghost use Rattle.wire_forms.specs.Spelled.{Leaves};

use std::alloc::{AllocError, Allocator};
use wire_buf::error::{InvalidReason, WireError};
use wire_buf::io::ParseBuf;
use wire_repr::int::IntRepr;

/// A number in one to five groups of seven bits (a base-128 varint), the least significant first,
/// each but the last with the high bit; as few are written as hold the number. For texts this as
/// their length.
///
/// What is refused has been eaten: five bytes that all have the high bit (`VarLenTooLong`), a
/// number above `u32::MAX` (`VarLenTooLarge`), or what is left where the input ends before the
/// number (`UnexpectedEof`).
///
/// <https://dev.mysql.com/doc/dev/mysql-server/latest/json__binary_8h.html>
#[derive(Clone, Copy, Debug, PartialEq, Eq, PartialOrd, Ord, Hash, Default)]
pub struct VarLen;

// The low seven bits, and the bit that says that others follow.
fn group(number: u32) -> u8
    ensures { result ≡ 128 + number % 128 }
{
    128 + (number % 128) as u8
}

// Appends the number.
pub(crate) fn put_groups<A: Allocator>(number: u32, buf: &mut Vec<u8, A>) -> Result<(), AllocError>
    ensures ok { OnOk result (buf.new.items ≡ buf.old.items ++ groups_bytes number) }
    ensures err { OnErr result (buf.new.items ≡ buf.old.items) }
{
    let [a, b, c, d] = [
        group(number),
        group(number >> 7),
        group(number >> 14),
        group(number >> 21),
    ];
    if number < 1 << 7 {
        buf.extend_from_slice(&[number as u8])
    } else if number < 1 << 14 {
        buf.extend_from_slice(&[a, (number >> 7) as u8])
    } else if number < 1 << 21 {
        buf.extend_from_slice(&[a, b, (number >> 14) as u8])
    } else if number < 1 << 28 {
        buf.extend_from_slice(&[a, b, c, (number >> 21) as u8])
    } else {
        buf.extend_from_slice(&[a, b, c, d, (number >> 28) as u8])
    }
}

impl IntRepr for VarLen {
    const SIZE: Option<usize> = None;

    type Primitive = u32;

    ghost SIZE = { None };

    ghost is_value = { λ val. val < 2 ^ 32 };

    ghost bytes = { groups_bytes };

    ghost reads = { Leaves ReadsGroups };

    ghost kept = { λ val. val };

    fn serialize<A: Allocator>(val: u32, buf: &mut Vec<u8, A>) -> Result<(), WireError>
        ensures ok { OnOk result (buf.new.items ≡ buf.old.items ++ groups_bytes val) }
        ensures err { IfErr result (λ error. (error ≡ OutOfMemory)
            × (buf.new.items ≡ buf.old.items)) }
        ensures shortest { IsShortest IsGroups val (groups_bytes val) }
    {
        put_groups(val, buf)?;
        Ok(())
    }

    // Byte by byte, since only its bytes tell how many there are.
    fn deserialize(buf: &mut ParseBuf<'_>) -> Result<u32, WireError> {
        let mut number = 0u64;
        let mut weight = 1u64;
        for _place in 0..5u32 {
            let Some(byte) = buf.checked_eat_u8() else {
                return Err(WireError::UnexpectedEof);
            };
            number += (byte % 128) as u64 * weight;
            weight *= 128;
            if byte < 128 {
                return if number <= u32::MAX as u64 {
                    Ok(number as u32)
                } else {
                    Err(WireError::InvalidData(InvalidReason::VarLenTooLarge))
                };
            }
        }
        Err(WireError::InvalidData(InvalidReason::VarLenTooLong))
    }

    fn known(_: u32) {}

    ghost comes_back = { groups_bytes-back };

    ghost of_size = { λ val size stated. Prim.cc };
}
