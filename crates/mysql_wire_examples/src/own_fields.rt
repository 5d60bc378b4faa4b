//! Representations of one's own: a number and a text that the crate lacks, each with the law that
//! what is written is read back. `RawInt` and `RawBytes` make fields of them.

ghost use Rattle.std.specs.Prelude.{◌≡◌, ◌≤◌, ◌<◌, ◌^◌, ℕ, List, length, take, Some, None};
ghost use Rattle.mysql_wire.specs.Law.{ReadsFixed, ParsesFixed, ComesBackFrom, size-is};
ghost use Rattle.mysql_wire.specs.Numbers.{be_number};
ghost use Rattle.mysql_wire.specs.RawTexts.{IsText, IsBorrowedText, Borrows};
ghost use Rattle.mysql_wire.specs.Reading.{Reads, Answers};
ghost use Rattle.mysql_wire_examples.specs.OwnFields.{be_u16_bytes, u16_text_bytes, u16_text_at, length-be_u16_bytes, be_u16_bytes-back, u16_text_bytes-back};

use mysql_wire::io::{ParseBuf, WireError};
use mysql_wire::misc::raw::bytes::{BytesRepr, RawBytes};
use mysql_wire::misc::raw::field_laws::{number_back, parse_back};
use mysql_wire::misc::raw::int::{IntRepr, RawInt};
use std::alloc::{Allocator, Global};
use std::borrow::CowSlice;
use std::cmp::min;

/// A number of two bytes, the most significant first.
#[derive(Clone, Copy, Debug, PartialEq, Eq, PartialOrd, Ord, Hash, Default)]
pub struct BeU16;

impl IntRepr for BeU16 {
    const SIZE: Option<usize> = Some(2);

    type Primitive = u16;

    ghost SIZE = { Some 2 };

    ghost is_value = { λ val. val < 2 ^ 16 };

    ghost bytes = { be_u16_bytes };

    ghost reads = { ReadsFixed 2 be_number };

    ghost kept = { λ val. val };

    fn serialize<A: Allocator>(val: u16, buf: &mut Vec<u8, A>) -> Result<(), WireError> {
        buf.extend_from_slice(&val.to_be_bytes())?;
        Ok(())
    }

    fn deserialize(buf: &mut ParseBuf<'_>) -> Result<u16, WireError> {
        Ok(buf.eat_u16_be())
    }

    fn known(_: u16) {}

    ghost comes_back = { be_u16_bytes-back };

    ghost of_size = { λ val size stated.
        size-is 2 size (length (be_u16_bytes val)) stated (length-be_u16_bytes val) };
}

/// Two bytes of length, the most significant first, and a text, of a longer one its first 65535
/// bytes. A text that is cut short has eaten its length.
#[derive(Clone, Copy, Debug, PartialEq, Eq, Hash, Default)]
pub struct U16Bytes;

// The first bytes of a text, at most this many.
fn first_bytes(text: &[u8], most: usize) -> &[u8]
    ensures first { result.now ≡ take most text.now }
    ensures few { length result.now ≤ most }
{
    &text[..min(text.len(), most)]
}

impl BytesRepr for U16Bytes {
    const MAX_LEN: usize = 65535;

    const SIZE: Option<usize> = None;

    type Ctx = ();

    ghost MAX_LEN = { 65535 };

    ghost SIZE = { None };

    ghost bytes = { u16_text_bytes };

    ghost reads = { λ _ input. Answers (u16_text_at input) };

    ghost good = { λ _ _ _. Unit {0} };

    ghost kept = { λ text. take 65535 text };

    fn serialize<A: Allocator>(text: &[u8], buf: &mut Vec<u8, A>) -> Result<(), WireError> {
        let at = buf.len();
        let cut = first_bytes(text, 65535);
        BeU16::serialize(cut.len() as u16, buf)?;
        if buf.extend_from_slice(cut).is_err() {
            buf.truncate(at);
            return Err(WireError::OutOfMemory);
        }
        Ok(())
    }

    fn deserialize<'de, A: Allocator>(
        _: (),
        buf: &mut ParseBuf<'de>,
    ) -> Result<CowSlice<'de, u8, A>, WireError> {
        let Some(len) = buf.checked_eat_u16_be() else {
            return Err(WireError::UnexpectedEof);
        };
        match buf.checked_eat(len as usize) {
            Some(text) => Ok(CowSlice::Borrowed(text)),
            None => Err(WireError::UnexpectedEof),
        }
    }

    ghost comes_back = { λ _ text rest _ _. u16_text_bytes-back text rest };

    ghost of_size = { λ text size stated. Prim.cc };
}

/// Reads a port. Whatever stands after what was written of one, it comes back.
pub fn read_port(alloc: Global, buf: &mut ParseBuf<'_>) -> Result<RawInt<BeU16>, WireError>
    ensures reads { ParsesFixed (λ int. int.0) 2 be_number buf.old.0.now result buf.new.0.now }
    ensures back { (port : ℕ) → port < 2 ^ 16
        → ComesBackFrom (be_u16_bytes port) (λ back. back.0 ≡ port) ⊥ buf.old.0.now result
        buf.new.0.now }
{
    number_back(alloc, buf)
}

/// Reads a name, which borrows from the payload. Whatever stands after what was written of one, it
/// comes back, or its first 65535 bytes.
pub fn read_name<'a>(
    alloc: Global,
    buf: &mut ParseBuf<'a>,
) -> Result<RawBytes<'a, U16Bytes>, WireError>
    ensures reads { Reads (λ input. Borrows (λ text. text.0) (Answers (u16_text_at input)))
        buf.old.0.now result buf.new.0.now }
    ensures back { (name : List ℕ) → IsText name
        → ComesBackFrom (u16_text_bytes name) (λ back. IsBorrowedText back.0 (take 65535 name)) ⊥
        buf.old.0.now result buf.new.0.now }
{
    parse_back::<'a, RawBytes<'a, U16Bytes>, Global>(alloc, (), buf)
}
