//! Bitmaps of what is NULL.

ghost use Rattle.std.specs.Prelude.{◌≡◌, ◌+◌, ◌/◌, ◌%◌, ◌↔◌, length, IsTrue};
ghost use Rattle.wire_field.specs.Borrowed.{front-through};
ghost use Rattle.wire_buf.specs.Reading.{Answers, Through, front_at};
ghost use Rattle.mysql_wire_statements.specs.Bitmaps.{bitmap_len, IsSet};

use std::alloc::Allocator;
use wire_buf::error::WireError;
use wire_buf::io::ParseBuf;
use wire_buf::proto::{HasSize, MyDeserialize, MySerialize, Varying};
use wire_repr::wire::Wire;

/// A bit for each of a list of values, which is set where the value is NULL. The bits stand after
/// the `FIRST` ones, from the least significant of the first byte on: `FIRST` is 0 for the
/// parameters of a statement, and 2 for the columns of a row. Read, the context is the count of the
/// values.
///
/// <https://dev.mysql.com/doc/dev/mysql-server/latest/page_protocol_binary_resultset.html>
#[derive(Clone, Copy, Debug, PartialEq, Eq)]
pub struct NullBitmap<'a, const FIRST: u8>(pub &'a [u8]);

/// Which parameters of a statement are NULL.
pub type ParamNulls<'a> = NullBitmap<'a, 0>;

/// Which columns of a row are NULL.
pub type RowNulls<'a> = NullBitmap<'a, 2>;

// Where a value's bit stands after the first ones: in which byte, and at which place there.
fn place_of_bit(first: u8, place: usize) -> (usize, usize)
    ensures { result ≡ ((first + place) / 8, (first + place) % 8) }
{
    if let Some(bit) = place.checked_add(first as usize) {
        (bit / 8, bit % 8)
    } else {
        let bit = place % 8 + first as usize;
        (place / 8 + bit / 8, bit % 8)
    }
}

impl<'a, const FIRST: u8> NullBitmap<'a, FIRST> {
    /// How many bytes the bitmap of this many values has.
    pub fn len_for(count: usize) -> usize
        ensures { result ≡ bitmap_len FIRST count }
    {
        count / 8 + (count % 8 + FIRST as usize + 7) / 8
    }

    /// Whether the value at this place, from 0 on, is NULL. Past the bitmap none is.
    pub fn is_null(&self, place: usize) -> bool
        ensures { IsTrue result ↔ IsSet self.now.0.now (FIRST + place) }
    {
        let (at, bit) = place_of_bit(FIRST, place);
        match self.0.get(at) {
            Some(byte) => (*byte >> bit) % 2 == 1,
            None => false,
        }
    }
}

impl<const FIRST: u8> MySerialize for NullBitmap<'_, FIRST> {
    ghost bytes = { λ nulls. nulls.0.now };

    fn serialize<A: Allocator>(&self, buf: &mut Vec<u8, A>) -> Result<(), WireError> {
        buf.extend_from_slice(self.0)?;
        Ok(())
    }
}

impl<const FIRST: u8> HasSize for NullBitmap<'_, FIRST> {
    type Size = Varying;
}

impl<'de, A: Allocator + Copy, const FIRST: u8> MyDeserialize<'de, A> for NullBitmap<'de, FIRST> {
    type Ctx = usize;

    ghost reads = { λ count input. Through (λ nulls. nulls.0.now)
        (Answers (front_at (bitmap_len FIRST count) input)) };

    fn deserialize(_: A, count: usize, buf: &mut ParseBuf<'de>) -> Result<Self, WireError> {
        match buf.checked_eat(Self::len_for(count)) {
            Some(bytes) => Ok(NullBitmap(bytes)),
            None => Err(WireError::UnexpectedEof),
        }
    }
}

impl<'de, A: Allocator + Copy, const FIRST: u8> Wire<'de, A> for NullBitmap<'de, FIRST> {
    ghost is_value = { λ _. Unit {0} };

    ghost good = { λ count nulls _. bitmap_len FIRST count ≡ length nulls.0.now };

    ghost kept = { λ nulls back. back.0.now ≡ nulls.0.now };

    ghost takes_memory = { ⊥ };

    fn known(&self) {}

    ghost comes_back = { λ count nulls rest answer eaten value good read.
        front-through (λ back. back.0.now) (bitmap_len FIRST count) nulls.0.now rest good answer
        eaten read };

    ghost of_size = { λ nulls size value stated. Prim.cc };
}
