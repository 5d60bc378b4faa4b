//! Texts that a zero ends.

ghost use Rattle.std.specs.Prelude.{◌≡◌, ◌++◌, ◌∷◌, [], MatchOption, None};
ghost use Rattle.std.specs.List.{before_first};
ghost use Rattle.wire_buf.specs.NullText.{is_zero};
ghost use Rattle.wire_forms.specs.NullTexts.{HasNoZero, ReadsNull};
ghost use Rattle.wire_forms.specs.NullTextLemmas.{null-back};
ghost use Rattle.wire_forms.specs.Spelled.{Leaves};

use std::alloc::Allocator;
use std::borrow::CowSlice;
use wire_buf::error::{InvalidReason, WireError};
use wire_buf::io::ParseBuf;
use wire_buf::zero::first_zero;
use wire_repr::append::all_or_nothing;
use wire_repr::text::BytesRepr;

/// A `string<NUL>`: the text and a zero. Of a text that holds a zero what stands before it is
/// written. `NoNullTerminator` has eaten nothing.
///
/// <https://dev.mysql.com/doc/dev/mysql-server/latest/page_protocol_basic_dt_strings.html>
#[derive(Clone, Copy, Debug, PartialEq, Eq, Hash, Default)]
pub struct NullBytes;

// What stands before the first zero, or everything.
fn before_first_zero(text: &[u8]) -> &[u8]
    ensures { result.now ≡ before_first is_zero text.now }
{
    match first_zero(text) {
        Some(end) => &text[..end],
        None => text,
    }
}

// Eats a text and its zero.
fn eat_null<'a>(buf: &mut ParseBuf<'a>) -> Option<&'a [u8]>
    ensures { MatchOption result
        (HasNoZero buf.old.0.now × (buf.new.0.now ≡ buf.old.0.now))
        (λ text. (buf.old.0.now ≡ text.now ++ 0 ∷ buf.new.0.now) × HasNoZero text.now) }
{
    match first_zero(buf.0) {
        Some(end) => {
            let text = buf.eat(end);
            buf.skip(1);
            Some(text)
        }
        None => None,
    }
}

impl BytesRepr for NullBytes {
    const MAX_LEN: usize = usize::MAX;

    const SIZE: Option<usize> = None;

    type Ctx = ();

    ghost MAX_LEN = { 0xffff_ffff_ffff_ffff };

    ghost SIZE = { None };

    ghost bytes = { λ text. before_first is_zero text ++ 0 ∷ [] };

    ghost reads = { λ _. Leaves ReadsNull };

    ghost good = { λ _ _ _. Unit {0} };

    ghost kept = { before_first is_zero };

    fn serialize<A: Allocator>(text: &[u8], buf: &mut Vec<u8, A>) -> Result<(), WireError> {
        let at = buf.len();
        buf.extend_from_slice(before_first_zero(text))?;
        let ended = buf.push(0).is_ok();
        all_or_nothing(ended, at, buf)
    }

    fn deserialize<'de, A: Allocator>(
        _: (),
        buf: &mut ParseBuf<'de>,
    ) -> Result<CowSlice<'de, u8, A>, WireError> {
        match eat_null(buf) {
            Some(text) => Ok(CowSlice::Borrowed(text)),
            None => Err(WireError::InvalidData(InvalidReason::NoNullTerminator)),
        }
    }

    ghost comes_back = { λ _ text rest _ _. null-back text rest };

    ghost of_size = { λ text size stated. Prim.cc };
}
