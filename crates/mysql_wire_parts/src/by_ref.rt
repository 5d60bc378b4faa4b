//! Fields lent for writing.

ghost use Rattle.mysql_wire_parts.specs.Optional.{bytes_if};

use std::alloc::Allocator;
use wire_buf::error::WireError;
use wire_buf::proto::MySerialize;

/// A field of a packet, lent as a part of what is written of it.
#[derive(Drop)]
pub struct ByRef<'b, T>(pub &'b T);

impl<T: MySerialize> MySerialize for ByRef<'_, T> {
    ghost bytes = { λ lent. T.bytes lent.0.now };

    fn serialize<A: Allocator>(&self, buf: &mut Vec<u8, A>) -> Result<(), WireError> {
        self.0.serialize(buf)
    }
}

/// A field that may be missing, lent likewise.
#[derive(Drop)]
pub struct ByRefIf<'b, T>(pub &'b Option<T>);

impl<T: MySerialize> MySerialize for ByRefIf<'_, T> {
    ghost bytes = { λ lent. bytes_if T.bytes lent.0.now };

    fn serialize<A: Allocator>(&self, buf: &mut Vec<u8, A>) -> Result<(), WireError> {
        match self.0 {
            Some(field) => field.serialize(buf),
            None => Ok(()),
        }
    }
}
