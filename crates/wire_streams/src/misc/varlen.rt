//! Integers of MySQL's serialization library. The low bits of the first byte say how many bytes
//! there are: as many ones as further bytes.
//!
//! <https://dev.mysql.com/doc/dev/mysql-server/latest/PageLibsMysqlSerialization.html>

ghost use Rattle.std.specs.Prelude.{◌≡◌, ◌+◌, ◌-◌, ◌*◌, ◌^◌, ◌<◌, ◌≤◌, ℕ, List, ◌++◌, length, OnOk, IfOk, IfErr};
ghost use Rattle.wire_buf.specs.declared.error.WireError.TheVariants.{UnexpectedEof, OutOfMemory};
ghost use Rattle.wire_buf.specs.Spelling.{EatsSpelling, IsShortest, SpellsNothing};
ghost use Rattle.wire_streams.specs.Varlen.{IsMark, IsMarked, IsVarlenSize, IsVarlenUint, varlen_bytes};

use byteorder::{ByteOrder, LittleEndian};
use std::alloc::Allocator;
use wire_buf::error::WireError;
use wire_buf::io::ParseBuf;

// How many bytes hold the value.
fn size_of(value: u64) -> usize
    ensures { IsVarlenSize value result }
{
    let bits = 64 - value.leading_zeros() as usize;
    bits.div_ceil(7).clamp(1, 9)
}

/// How many bytes an integer has as it is written: 1 to 9.
pub fn varlen_uint_size(value: u64) -> usize
    ensures { (spelling : List ℕ) × IsShortest IsVarlenUint value spelling
        × (result ≡ length spelling) }
{
    size_of(value)
}

// How many bytes a spelling has that begins with this one.
fn size_behind(first: u8) -> usize
    ensures low { 1 ≤ result }
    ensures high { result ≤ 9 }
    ensures mark { IsMark result first }
{
    first.trailing_ones() as usize + 1
}

// The value of a whole spelling.
fn value_of(spelling: &[u8]) -> u64
    requires high { length spelling.now ≤ 9 }
    requires marked { IsMarked spelling.now }
    ensures { IsVarlenUint result spelling.now }
{
    let size = spelling.len();
    if size == 9 {
        LittleEndian::read_u64(&spelling[1..])
    } else {
        LittleEndian::read_uint(spelling, size) >> size
    }
}

/// Reads an integer of 1 to 9 bytes. Where it isn't there whole, the answer is `UnexpectedEof`, and
/// nothing is eaten.
pub fn read_varlen_uint(buf: &mut ParseBuf<'_>) -> Result<u64, WireError>
    ensures ok { IfOk result (λ value.
        EatsSpelling IsVarlenUint buf.old.0.now value buf.new.0.now) }
    ensures err { IfErr result (λ error. (error ≡ UnexpectedEof)
        × SpellsNothing IsVarlenUint buf.old.0.now
        × (buf.new.0.now ≡ buf.old.0.now)) }
{
    let Some(first) = buf.0.first() else {
        return Err(WireError::UnexpectedEof);
    };
    match buf.checked_eat(size_behind(*first)) {
        Some(spelling) => Ok(value_of(spelling)),
        None => Err(WireError::UnexpectedEof),
    }
}

// The spelling in nine bytes.
fn nine_bytes(value: u64) -> [u8; 9]
    ensures { result ≡ varlen_bytes 9 value }
{
    let [a, b, c, d, e, f, g, h] = value.to_le_bytes();
    [0xff, a, b, c, d, e, f, g, h]
}

// The number whose bytes are the spelling in this many bytes, below nine.
fn marked(value: u64, size: usize) -> u64
    requires low { 1 ≤ size }
    requires high { size ≤ 8 }
    requires holds { value < 2 ^ (7 * size) }
    ensures { result ≡ value * 2 ^ size + (2 ^ (size - 1) - 1) }
{
    value << size | ((1 << (size - 1)) - 1)
}

/// Appends an integer in the fewest bytes, 1 to 9. Where memory for them is refused, the buffer is
/// as it was.
pub fn write_varlen_uint<A: Allocator>(buf: &mut Vec<u8, A>, value: u64) -> Result<(), WireError>
    ensures ok { OnOk result ((spelling : List ℕ) × IsShortest IsVarlenUint value spelling
        × (buf.new.items ≡ buf.old.items ++ spelling)) }
    ensures err { IfErr result (λ error. (error ≡ OutOfMemory) × (buf.new.items ≡ buf.old.items)) }
{
    let size = size_of(value);
    if size == 9 {
        buf.extend_from_slice(&nine_bytes(value))?;
    } else {
        buf.extend_from_slice(&marked(value, size).to_le_bytes()[..size])?;
    }
    Ok(())
}
