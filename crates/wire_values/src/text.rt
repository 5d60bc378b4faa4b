//! Texts, which are byte strings, as fields.

ghost use Rattle.std.specs.Prelude.{◌≡◌, ◌↔◌, List, [], ◌++◌, length, take, min, IfOk, IfErr, IsTrue};
ghost use Rattle.std.specs.Cow.{cow_slice_items};
ghost use Rattle.wire_buf.specs.declared.error.WireError.TheVariants.{OutOfMemory};
ghost use Rattle.wire_repr.specs.Texts.{IsText, IsOwned, IsNotOwned, IsBorrowedText, Borrows, Borrows-back};

use std::alloc::{Allocator, Global};
use std::borrow::CowSlice;
use std::cmp::min;
use std::marker::PhantomData;
use wire_buf::error::WireError;
use wire_buf::io::ParseBuf;
use wire_buf::proto::{HasSize, MyDeserialize, MySerialize, ReadSize};
use wire_repr::text::BytesRepr;
use wire_repr::wire::Wire;

/// The size of a type whose values are texts that are written as `T` says.
#[derive(Debug)]
pub struct SizeOfText<T>(PhantomData<T>);

impl<T: BytesRepr> ReadSize for SizeOfText<T> {
    const SIZE: Option<usize> = T::SIZE;

    ghost SIZE = { T.BytesRepr.SIZE };
}

// A text in hand is one.
fn known_text(_text: &[u8])
    ensures { IsText _text.now }
{}

/// A text that is written as `T` says. What is read borrows from the payload.
///
/// <https://dev.mysql.com/doc/dev/mysql-server/latest/page_protocol_basic_dt_strings.html>
#[derive(Drop)]
#[derive_where(Clone; A)]
#[derive_where(Debug, PartialEq, Eq, PartialOrd, Ord, Hash)]
pub struct RawBytes<'a, T: BytesRepr, A: Allocator = Global>(
    pub CowSlice<'a, u8, A>,
    PhantomData<T>,
);

impl<'a, T: BytesRepr, A: Allocator> RawBytes<'a, T, A> {
    pub fn new(text: CowSlice<'a, u8, A>) -> Self
        ensures { result.0 ≡ text.entry }
    {
        RawBytes(text, PhantomData)
    }

    /// The text's length in bytes, or `MAX_LEN` where it is longer. It is no length of what is
    /// written, which may have a length or a zero beside the text, or end at a zero in it.
    pub fn len(&self) -> usize
        ensures { result ≡ min (length (cow_slice_items self.now.0)) T.MAX_LEN }
    {
        min(self.0.len(), T::MAX_LEN)
    }

    pub fn is_empty(&self) -> bool
        ensures { IsTrue result ↔ (min (length (cow_slice_items self.now.0)) T.MAX_LEN ≡ 0) }
    {
        self.len() == 0
    }

    /// The text, up to `MAX_LEN` bytes.
    pub fn as_bytes(&self) -> &[u8]
        ensures { result.now ≡ take T.MAX_LEN (cow_slice_items self.now.0) }
    {
        &self.0.as_slice()[..self.len()]
    }

    /// Whether the whole text, longer than `MAX_LEN` too, is this one.
    pub fn eq_bytes(&self, other: &[u8]) -> bool
        ensures { IsTrue result ↔ (cow_slice_items self.now.0 ≡ other.now) }
    {
        self.0.as_slice() == other
    }

    /// What `as_bytes` gives as a string, each part of it that is no UTF-8 replaced by U+FFFD.
    pub fn as_str<B: Allocator>(&self, alloc: B) -> Result<String<B>, WireError> {
        Ok(String::from_utf8_lossy(alloc, self.as_bytes())?)
    }

    /// The same text, owned. A copy is made of a borrowed one alone.
    pub fn into_owned(self, alloc: A) -> Result<RawBytes<'static, T, A>, WireError>
        ensures ok { IfOk result (λ owned. IsOwned owned.0
            × (cow_slice_items owned.0 ≡ cow_slice_items self.entry.0)) }
        ensures err { IfErr result (λ error. (error ≡ OutOfMemory) × IsNotOwned self.entry.0) }
    {
        match self.0 {
            CowSlice::Borrowed(text) => {
                let owned = Vec::from_slice(alloc, text)?;
                Ok(RawBytes(CowSlice::Owned(owned), PhantomData))
            }
            CowSlice::Owned(owned) => Ok(RawBytes(CowSlice::Owned(owned), PhantomData)),
        }
    }
}

impl<'a, T: BytesRepr, A: Allocator> From<&'a [u8]> for RawBytes<'a, T, A> {
    ghost from_gives = { λ text raw. IsBorrowedText raw.0 text.now };

    fn from(text: &'a [u8]) -> Self {
        RawBytes::new(CowSlice::Borrowed(text))
    }
}

impl<'a, T: BytesRepr, A: Allocator> From<Vec<u8, A>> for RawBytes<'a, T, A> {
    ghost from_gives = { λ text raw. IsOwned raw.0 × (cow_slice_items raw.0 ≡ text.items) };

    fn from(text: Vec<u8, A>) -> Self {
        RawBytes::new(CowSlice::Owned(text))
    }
}

/// The empty text.
impl<'a, T: BytesRepr, A: Allocator> Default for RawBytes<'a, T, A> {
    fn default() -> Self
        ensures { cow_slice_items result.0 ≡ [] }
    {
        RawBytes::new(CowSlice::Borrowed(&[]))
    }
}

impl<'a, T: BytesRepr, A: Allocator> MySerialize for RawBytes<'a, T, A> {
    ghost bytes = { λ text. T.BytesRepr.bytes (cow_slice_items text.0) };

    // No call: an answer has room for an `io::Error`, and would be handed on through memory.
    #[inline(always)]
    fn serialize<B: Allocator>(&self, buf: &mut Vec<u8, B>) -> Result<(), WireError> {
        T::serialize(self.0.as_slice(), buf)
    }
}

impl<T: BytesRepr, A: Allocator> HasSize for RawBytes<'_, T, A> {
    type Size = SizeOfText<T>;
}

impl<'de, A: Allocator + Copy, T: BytesRepr> MyDeserialize<'de, A> for RawBytes<'de, T, A> {
    type Ctx = T::Ctx;

    ghost reads = { λ ctx input. Borrows (λ text. text.0) (T.BytesRepr.reads ctx input) };

    fn deserialize(_: A, ctx: T::Ctx, buf: &mut ParseBuf<'de>) -> Result<Self, WireError> {
        Ok(RawBytes::new(T::deserialize(ctx, buf)?))
    }
}

impl<'de, A: Allocator + Copy, T: BytesRepr> Wire<'de, A> for RawBytes<'de, T, A> {
    ghost is_value = { λ text. IsText (cow_slice_items text.0) };

    ghost good = { λ ctx text rest. T.BytesRepr.good ctx (cow_slice_items text.0) rest };

    ghost kept = { λ text back. IsBorrowedText back.0 (T.BytesRepr.kept (cow_slice_items text.0)) };

    ghost takes_memory = { ⊥ };

    fn known(&self) {
        known_text(self.0.as_slice());
    }

    ghost comes_back = { λ ctx text rest answer eaten value good read.
        Borrows-back (λ back. back.0)
        (T.BytesRepr.reads ctx (T.BytesRepr.bytes (cow_slice_items text.0) ++ rest))
        (T.BytesRepr.kept (cow_slice_items text.0))
        (length (T.BytesRepr.bytes (cow_slice_items text.0)))
        (T.BytesRepr.comes_back ctx (cow_slice_items text.0) rest value good) answer eaten read };

    ghost of_size = { λ text size _ stated.
        T.BytesRepr.of_size (cow_slice_items text.0) size stated };
}
