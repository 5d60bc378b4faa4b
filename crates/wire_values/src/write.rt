//! Values that are written one after another.

ghost use Rattle.std.specs.Prelude.{◌≡◌, ◌++◌, length, take, OnOk, IfErr};
ghost use Rattle.std.specs.List.{flat_map};
ghost use Rattle.wire_buf.specs.declared.error.WireError.TheVariants.{OutOfMemory};

use std::alloc::Allocator;
use wire_buf::error::WireError;
use wire_buf::proto::MySerialize;

/// The values one after another, whole or not at all.
pub fn write_each<T: MySerialize, A: Allocator>(
    values: &[T],
    buf: &mut Vec<u8, A>,
) -> Result<(), WireError>
    ensures ok { OnOk result (buf.new.items ≡ buf.old.items ++ flat_map T.bytes values.now) }
    ensures err { IfErr result (λ error. (error ≡ OutOfMemory)
        × (buf.new.items ≡ buf.old.items)) }
{
    let at = buf.len();
    for value in values {
        let put = value.serialize(buf);
        if put.is_err() {
            buf.truncate(at);
            return put;
        }
    }
    Ok(())
}

/// A count and the values after it, whole or not at all.
pub fn write_counted<T: MySerialize, A: Allocator>(
    count: &[u8],
    values: &[T],
    buf: &mut Vec<u8, A>,
) -> Result<(), WireError>
    ensures ok { OnOk result (buf.new.items
        ≡ buf.old.items ++ (count.now ++ flat_map T.bytes values.now)) }
    ensures err { IfErr result (λ error. (error ≡ OutOfMemory)
        × (buf.new.items ≡ buf.old.items)) }
{
    let at = buf.len();
    buf.extend_from_slice(count)?;
    let put = write_each(values, buf);
    if put.is_err() {
        buf.truncate(at);
    }
    put
}
