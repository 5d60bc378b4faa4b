//! Texts whose end is not in their bytes.
//!
//! <https://dev.mysql.com/doc/dev/mysql-server/latest/page_protocol_basic_dt_strings.html>

ghost use Rattle.std.specs.Prelude.{◌≡◌, ◌≤◌, ◌<◌, length, min, take, drop, [], Ok, IfOk, IfErr, None, Some};
ghost use Rattle.wire_buf.specs.Reading.{Answers, front_at};
ghost use Rattle.wire_forms.specs.BareTexts.{padded, all-back, front-back, padded-back, length-padded};
ghost use Rattle.wire_buf.specs.declared.error.WireError.TheVariants.{UnexpectedEof};
ghost use Rattle.wire_repr.specs.Texts.{IsBorrowedText};
ghost use Rattle.wire_repr.specs.Law.{ReadsFixed, size-is};

use bytes::BufMut;
use std::alloc::Allocator;
use std::borrow::CowSlice;
use wire_buf::error::WireError;
use wire_buf::io::ParseBuf;
use wire_ext::text::first_bytes;
use wire_repr::append::{all_or_nothing, append};
use wire_repr::text::BytesRepr;

/// A `string<EOF>`: all the rest. It comes back where nothing follows it.
///
/// <https://dev.mysql.com/doc/dev/mysql-server/latest/page_protocol_basic_dt_strings.html>
#[derive(Clone, Copy, Debug, PartialEq, Eq, Hash, Default)]
pub struct EofBytes;

impl BytesRepr for EofBytes {
    const MAX_LEN: usize = usize::MAX;

    const SIZE: Option<usize> = None;

    type Ctx = ();

    ghost MAX_LEN = { 0xffff_ffff_ffff_ffff };

    ghost SIZE = { None };

    ghost bytes = { λ text. text };

    ghost reads = { λ _ input. Answers (Ok input, length input) };

    ghost good = { λ _ _ rest. rest ≡ [] };

    ghost kept = { λ text. text };

    fn serialize<A: Allocator>(text: &[u8], buf: &mut Vec<u8, A>) -> Result<(), WireError> {
        append(text, buf)
    }

    fn deserialize<'de, A: Allocator>(
        _: (),
        buf: &mut ParseBuf<'de>,
    ) -> Result<CowSlice<'de, u8, A>, WireError> {
        Ok(CowSlice::Borrowed(buf.eat_all()))
    }

    ghost comes_back = { λ _ text rest _ good. all-back text rest good };

    ghost of_size = { λ text size stated. Prim.cc };
}

/// A `string<var>`: as many bytes as the context says, and of a longer text than `N` the first `N`.
/// `UnexpectedEof` has eaten nothing.
///
/// <https://dev.mysql.com/doc/dev/mysql-server/latest/page_protocol_basic_dt_strings.html>
#[derive(Clone, Copy, Debug, PartialEq, Eq, Hash)]
pub struct BareBytes<const N: usize>;

/// As `BareBytes`, where one byte elsewhere has the length.
///
/// <https://dev.mysql.com/doc/dev/mysql-server/latest/page_protocol_basic_dt_strings.html>
pub type BareU8Bytes = BareBytes<255>;

/// As `BareBytes`, where two bytes elsewhere have the length.
///
/// <https://dev.mysql.com/doc/dev/mysql-server/latest/page_protocol_basic_dt_strings.html>
pub type BareU16Bytes = BareBytes<65535>;

impl<const N: usize> BytesRepr for BareBytes<N> {
    const MAX_LEN: usize = N;

    const SIZE: Option<usize> = None;

    type Ctx = usize;

    ghost MAX_LEN = { N };

    ghost SIZE = { None };

    ghost bytes = { λ text. take N text };

    ghost reads = { λ count input. Answers (front_at count input) };

    ghost good = { λ count text _. count ≡ min (length text) N };

    ghost kept = { λ text. take N text };

    fn serialize<A: Allocator>(text: &[u8], buf: &mut Vec<u8, A>) -> Result<(), WireError> {
        append(first_bytes(text, N), buf)
    }

    fn deserialize<'de, A: Allocator>(
        count: usize,
        buf: &mut ParseBuf<'de>,
    ) -> Result<CowSlice<'de, u8, A>, WireError> {
        match buf.checked_eat(count) {
            Some(text) => Ok(CowSlice::Borrowed(text)),
            None => Err(WireError::UnexpectedEof),
        }
    }

    ghost comes_back = { λ count text rest _ good. front-back N count text rest good };

    ghost of_size = { λ text size stated. Prim.cc };
}

/// A `string<fix>`: `N` bytes, the text and zeros after it. The zeros come back with it.
///
/// <https://dev.mysql.com/doc/dev/mysql-server/latest/page_protocol_basic_dt_strings.html>
#[derive(Clone, Copy, Debug, PartialEq, Eq, Hash, Default)]
pub struct FixedLengthText<const N: usize>;

impl<const N: usize> BytesRepr for FixedLengthText<N> {
    const MAX_LEN: usize = N;

    const SIZE: Option<usize> = Some(N);

    type Ctx = ();

    ghost MAX_LEN = { N };

    ghost SIZE = { Some N };

    ghost bytes = { padded N };

    ghost reads = { λ _. ReadsFixed N (λ bytes. bytes) };

    ghost good = { λ _ _ _. Unit {0} };

    ghost kept = { padded N };

    fn serialize<A: Allocator>(text: &[u8], buf: &mut Vec<u8, A>) -> Result<(), WireError> {
        let at = buf.len();
        let cut = first_bytes(text, N);
        buf.extend_from_slice(cut)?;
        let filled = buf.put_bytes(0, N - cut.len()).is_ok();
        all_or_nothing(filled, at, buf)
    }

    fn deserialize<'de, A: Allocator>(
        _: (),
        buf: &mut ParseBuf<'de>,
    ) -> Result<CowSlice<'de, u8, A>, WireError> {
        Ok(CowSlice::Borrowed(buf.eat(N)))
    }

    ghost comes_back = { λ _ text rest _ _. padded-back N text rest };

    ghost of_size = { λ text size stated.
        size-is N size (length (padded N text)) stated (length-padded N text) };
}
