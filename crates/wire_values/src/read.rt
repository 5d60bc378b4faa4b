//! Values that are read one after another.

ghost use Rattle.std.specs.Prelude.{◌≡◌, ◌≤◌, ◌<◌, [], Some, ◌*◌};
ghost use Rattle.std.specs.Vec.{vec_capacity};
ghost use Rattle.wire_buf.specs.Reading.{Parses};
ghost use Rattle.wire_values.specs.Elements.{ReadsEach, ReadsAll, ReadsInto};

use std::alloc::Allocator;
use wire_buf::error::WireError;
use wire_buf::io::ParseBuf;
use wire_buf::proto::{MyDeserialize, ReadSize};

// Room for this many values is asked for at once: until they are read, a count is only a claim.
const FIRST_ROOM: usize = 64;

// Values one after another, room being taken before each where it is missing.
fn read_each<'de, T: MyDeserialize<'de, A, Ctx = ()>, A: Allocator + Copy>(
    alloc: A,
    start: Vec<T, A>,
    count: usize,
    buf: &mut ParseBuf<'de>,
) -> Result<Vec<T, A>, WireError>
    requires { start.items ≡ [] }
    ensures { ReadsInto (λ values. values.items)
        (ReadsEach (vec_capacity start < count) (Parses T.Size.SIZE (T.reads tt)) count)
        buf.old.0.now result buf.new.0.now }
{
    let mut items = start;
    for i in 0..count {
        items.reserve(1)?;
        let item: T = buf.parse_in(alloc, ())?;
        items.push_reserved(item);
    }
    Ok(items)
}

// Values one after another. Room for the first of them is asked for before, for no more than bytes
// are left; a refusal is passed over, since room for one is taken then. A buffer of its own stays in
// registers.
fn read_some<'de, T: MyDeserialize<'de, A, Ctx = ()>, A: Allocator + Copy>(
    alloc: A,
    count: usize,
    buf: &mut ParseBuf<'de>,
) -> Result<Vec<T, A>, WireError>
    ensures { ReadsInto (λ values. values.items)
        (ReadsEach (Unit {0}) (Parses T.Size.SIZE (T.reads tt)) count)
        buf.old.0.now result buf.new.0.now }
{
    let mut items = Vec::new(alloc);
    let _ = items.reserve(count.min(FIRST_ROOM).min(buf.len()));
    let mut rest = *buf;
    let read = read_each(alloc, items, count, &mut rest);
    *buf = rest;
    read
}

// Values of a size, from a block of their own. Room is taken for all of them, once their bytes are
// there.
fn read_block<'de, T: MyDeserialize<'de, A, Ctx = ()>, A: Allocator + Copy>(
    alloc: A,
    size: usize,
    count: usize,
    buf: &mut ParseBuf<'de>,
) -> Result<Vec<T, A>, WireError>
    requires { 1 ≤ size }
    ensures { ReadsInto (λ values. values.items)
        (ReadsAll (Some size) (Parses T.Size.SIZE (T.reads tt)) count)
        buf.old.0.now result buf.new.0.now }
{
    let Some(len) = size.checked_mul(count) else {
        return Err(WireError::UnexpectedEof);
    };
    if buf.len() < len {
        return Err(WireError::UnexpectedEof);
    }
    let mut items = Vec::new(alloc);
    items.reserve(count)?;
    let mut block = buf.eat_buf(len);
    read_each(alloc, items, count, &mut block)
}

/// As many values as the count says. Where values of a size lack bytes, no memory is asked for.
pub fn read_all<'de, T: MyDeserialize<'de, A, Ctx = ()>, A: Allocator + Copy>(
    alloc: A,
    count: usize,
    buf: &mut ParseBuf<'de>,
) -> Result<Vec<T, A>, WireError>
    ensures { ReadsInto (λ values. values.items)
        (ReadsAll T.Size.SIZE (Parses T.Size.SIZE (T.reads tt)) count)
        buf.old.0.now result buf.new.0.now }
{
    match <T::Size as ReadSize>::SIZE {
        None => read_some(alloc, count, buf),
        Some(0) => read_some(alloc, count, buf),
        Some(size) => read_block(alloc, size, count, buf),
    }
}
