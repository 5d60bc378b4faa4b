//! Room for a piece, after bytes that wait for it.

ghost use Rattle.std.specs.Prelude.{◌≡◌};

use bytes::BytesMut;
use std::alloc::Allocator;

// At most this many bytes are moved by way of the stack.
const FEW: usize = 256;

/// Moves the bytes to the front of their block, where they are few and there is no room for this
/// many after them. `reserve` would move them one by one.
pub fn make_room<A: Allocator + Copy>(src: &mut BytesMut<A>, len: usize)
    ensures { src.new.items ≡ src.old.items }
{
    let unread = src.len();
    if unread > FEW || len <= src.capacity() - unread {
        return;
    }
    let mut bytes = [0; FEW];
    bytes[..unread].copy_from_slice(src.as_slice());
    src.clear();
    src.extend_reserved(&bytes[..unread]);
}
