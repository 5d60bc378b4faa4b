//! Bytes after those that a buffer has.

ghost use Rattle.std.specs.Prelude.{◌≡◌, ◌≤◌, ◌++◌, ◌∷◌, [], take, Ok, Err, OnOk, IfErr, IsTrue, IsFalse};
ghost use Rattle.wire_buf.specs.declared.error.WireError.TheVariants.{OutOfMemory};
ghost use Rattle.wire_buf.specs.Numbers.{le_bytes};

use std::alloc::Allocator;
use wire_buf::error::WireError;

/// Appends the bytes. Where memory for them is refused, the buffer is as it was.
pub fn append<A: Allocator>(bytes: &[u8], buf: &mut Vec<u8, A>) -> Result<(), WireError>
    ensures ok { OnOk result (buf.new.items ≡ buf.old.items ++ bytes.now) }
    ensures err { IfErr result (λ error. (error ≡ OutOfMemory) × (buf.new.items ≡ buf.old.items)) }
{
    buf.extend_from_slice(bytes)?;
    Ok(())
}

/// Appends a byte, in the same way.
pub fn append_byte<A: Allocator>(byte: u8, buf: &mut Vec<u8, A>) -> Result<(), WireError>
    ensures ok { OnOk result (buf.new.items ≡ buf.old.items ++ byte ∷ []) }
    ensures err { IfErr result (λ error. (error ≡ OutOfMemory) × (buf.new.items ≡ buf.old.items)) }
{
    buf.push(byte)?;
    Ok(())
}

/// Appends the low bytes of a number, the least significant first, in the same way.
pub fn append_le<A: Allocator>(
    count: usize,
    number: u64,
    buf: &mut Vec<u8, A>,
) -> Result<(), WireError>
    requires { count ≤ 8 }
    ensures ok { OnOk result (buf.new.items ≡ buf.old.items ++ le_bytes count number) }
    ensures err { IfErr result (λ error. (error ≡ OutOfMemory) × (buf.new.items ≡ buf.old.items)) }
{
    append(&number.to_le_bytes()[..count], buf)
}

/// Where a part of what was to be appended was refused, takes away what was: all after this length.
pub fn all_or_nothing<A: Allocator>(
    all: bool,
    at: usize,
    buf: &mut Vec<u8, A>,
) -> Result<(), WireError>
    ensures all { IsTrue all → (result ≡ Ok tt) × (buf.new.items ≡ buf.old.items) }
    ensures nothing { IsFalse all → (result ≡ Err OutOfMemory)
        × (buf.new.items ≡ take at buf.old.items) }
{
    if all {
        Ok(())
    } else {
        buf.truncate(at);
        Err(WireError::OutOfMemory)
    }
}
