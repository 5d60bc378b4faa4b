//! Halves of a number, as the capability flags stand in a handshake.
//!
//! <https://dev.mysql.com/doc/dev/mysql-server/latest/page_protocol_connection_phase_packets_protocol_handshake_v10.html>

ghost use Rattle.std.specs.Prelude.{◌<◌, ◌^◌, ◌%◌, ◌/◌, ◌-◌, ◌*◌, length, Some};
ghost use Rattle.wire_buf.specs.Numbers.{le_number, le_bytes};
ghost use Rattle.wire_buf.specs.NumberLemmas.{length-le_bytes};
ghost use Rattle.wire_repr.specs.Law.{ReadsFixed, size-is};
ghost use Rattle.wire_repr.specs.Numbers.{le_bytes-back_cut, upper_half-back};

use std::alloc::Allocator;
use wire_buf::error::WireError;
use wire_buf::io::ParseBuf;
use wire_repr::append::append_le;
use wire_repr::int::IntRepr;

/// The low 16 bits of a number, in two bytes.
///
/// As the capability flags:
/// <https://dev.mysql.com/doc/dev/mysql-server/latest/page_protocol_connection_phase_packets_protocol_handshake_v10.html>
#[derive(Clone, Copy, Debug, PartialEq, Eq, PartialOrd, Ord, Hash, Default)]
pub struct LeU32LowerHalf;

impl IntRepr for LeU32LowerHalf {
    const SIZE: Option<usize> = Some(2);

    type Primitive = u32;

    ghost SIZE = { Some 2 };

    ghost is_value = { λ val. val < 2 ^ 32 };

    ghost bytes = { λ val. le_bytes 2 val };

    ghost reads = { ReadsFixed 2 le_number };

    ghost kept = { λ val. val % 65536 };

    fn serialize<A: Allocator>(val: u32, buf: &mut Vec<u8, A>) -> Result<(), WireError> {
        append_le(2, val as u64, buf)
    }

    fn deserialize(buf: &mut ParseBuf<'_>) -> Result<u32, WireError> {
        Ok(buf.eat_u16_le() as u32)
    }

    fn known(_: u32) {}

    ghost comes_back = { λ val rest value. le_bytes-back_cut 2 val rest };

    ghost of_size = { λ val size stated.
        size-is 2 size (length (le_bytes 2 val)) stated (length-le_bytes 2 val) };
}

/// The high 16 bits of a number, in two bytes.
///
/// As the capability flags:
/// <https://dev.mysql.com/doc/dev/mysql-server/latest/page_protocol_connection_phase_packets_protocol_handshake_v10.html>
#[derive(Clone, Copy, Debug, PartialEq, Eq, PartialOrd, Ord, Hash, Default)]
pub struct LeU32UpperHalf;

impl IntRepr for LeU32UpperHalf {
    const SIZE: Option<usize> = Some(2);

    type Primitive = u32;

    ghost SIZE = { Some 2 };

    ghost is_value = { λ val. val < 2 ^ 32 };

    ghost bytes = { λ val. le_bytes 2 (val / 65536) };

    ghost reads = { ReadsFixed 2 (λ bytes. 65536 * le_number bytes) };

    ghost kept = { λ val. val - val % 65536 };

    fn serialize<A: Allocator>(val: u32, buf: &mut Vec<u8, A>) -> Result<(), WireError> {
        append_le(2, (val >> 16) as u64, buf)
    }

    fn deserialize(buf: &mut ParseBuf<'_>) -> Result<u32, WireError> {
        Ok((buf.eat_u16_le() as u32) << 16)
    }

    fn known(_: u32) {}

    ghost comes_back = { λ val rest value. upper_half-back val rest value };

    ghost of_size = { λ val size stated. size-is 2 size (length (le_bytes 2 (val / 65536)))
        stated (length-le_bytes 2 (val / 65536)) };
}
