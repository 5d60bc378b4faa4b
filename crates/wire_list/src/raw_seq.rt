//! Numbers in a row that stand for constants.

ghost use Rattle.std.specs.Prelude.{◌≡◌, ℕ, ◌<◌, ◌≤◌, ◌↔◌, List, [], ◌++◌, length, slice_index_or, IsTrue, OnOk, IfOk, IfErr, MatchOption};
ghost use Rattle.std.specs.Cow.{cow_slice_items};
ghost use Rattle.wire_buf.specs.declared.error.WireError.TheVariants.{OutOfMemory};
ghost use Rattle.wire_buf.specs.Reading.{Answers, front_at};
ghost use Rattle.wire_repr.specs.Texts.{IsOwned, IsNotOwned, IsBorrowedText, Borrows};
ghost use Rattle.wire_field.specs.Borrowed.{front-borrows};

use std::alloc::{Allocator, Global};
use std::borrow::CowSlice;
use std::marker::PhantomData;
use wire_buf::error::WireError;
use wire_buf::io::ParseBuf;
use wire_buf::proto::{HasSize, MyDeserialize, MySerialize, Varying};
use wire_field::converted::RawConst;
use wire_repr::int::IntRepr;
use wire_repr::wire::Wire;

/// Numbers, each of which may stand for a value of `U`. The context is how many are read. Those of
/// one byte are written and read, and what is read is borrowed; where there are fewer, that is
/// `UnexpectedEof`, and none is eaten.
///
/// As the types of a table's columns:
/// <https://dev.mysql.com/doc/dev/mysql-server/latest/classmysql_1_1binlog_1_1event_1_1Table__map__event.html>
#[derive(Drop)]
#[derive_where(Clone; A, T::Primitive)]
#[derive_where(Debug, PartialEq, Eq, PartialOrd, Ord, Hash; T::Primitive)]
pub struct RawSeq<'a, T: IntRepr, U, A: Allocator = Global>(
    pub CowSlice<'a, T::Primitive, A>,
    PhantomData<U>,
);

impl<'a, T: IntRepr, U, A: Allocator> RawSeq<'a, T, U, A> {
    pub fn new(items: CowSlice<'a, T::Primitive, A>) -> Self
        ensures { result.0 ≡ items.entry }
    {
        RawSeq(items, PhantomData)
    }

    pub fn is_empty(&self) -> bool
        ensures { IsTrue result ↔ cow_slice_items self.now.0 ≡ [] }
    {
        self.0.as_slice().is_empty()
    }

    /// How many numbers there are.
    pub fn len(&self) -> usize
        ensures { result ≡ length (cow_slice_items self.now.0) }
    {
        self.0.as_slice().len()
    }

    /// The number at the index.
    pub fn get(&self, index: usize) -> Option<RawConst<T, U>>
        ensures { MatchOption result (length (cow_slice_items self.now.0) ≤ index)
            (λ raw. (index < length (cow_slice_items self.now.0))
            × (raw.0 ≡ slice_index_or (cow_slice_items self.now.0) index raw.0)) }
    {
        match self.0.as_slice().get(index) {
            Some(val) => Some(RawConst::new(*val)),
            None => None,
        }
    }

    /// The same numbers, owned. A copy is made of borrowed ones alone, and is refused as
    /// `OutOfMemory`.
    pub fn into_owned<'b>(self, alloc: A) -> Result<RawSeq<'b, T, U, A>, WireError>
        ensures ok { IfOk result (λ owned. IsOwned owned.0
            × (cow_slice_items owned.0 ≡ cow_slice_items self.entry.0)) }
        ensures err { IfErr result (λ error. (error ≡ OutOfMemory) × IsNotOwned self.entry.0) }
    {
        match self.0 {
            CowSlice::Borrowed(items) => Ok(of_owned(Vec::from_slice(alloc, items)?)),
            CowSlice::Owned(items) => Ok(of_owned(items)),
        }
    }
}

// Numbers of its own.
fn of_owned<'b, T: IntRepr, U, A: Allocator>(items: Vec<T::Primitive, A>) -> RawSeq<'b, T, U, A>
    ensures owned { IsOwned result.0 }
    ensures items { cow_slice_items result.0 ≡ items.items }
{
    RawSeq(CowSlice::Owned(items), PhantomData)
}

impl<'a, T: IntRepr<Primitive = u8>, U, A: Allocator> MySerialize for RawSeq<'a, T, U, A> {
    ghost bytes = { λ seq. cow_slice_items seq.0 };

    fn serialize<B: Allocator>(&self, buf: &mut Vec<u8, B>) -> Result<(), WireError> {
        buf.extend_from_slice(self.0.as_slice())?;
        Ok(())
    }
}

impl<T: IntRepr, U, A: Allocator> HasSize for RawSeq<'_, T, U, A> {
    type Size = Varying;
}

impl<'de, T: IntRepr<Primitive = u8>, U, A: Allocator + Copy> MyDeserialize<'de, A>
    for RawSeq<'de, T, U, A> {
    type Ctx = usize;

    ghost reads = { λ count input. Borrows (λ seq. seq.0) (Answers (front_at count input)) };

    fn deserialize(_: A, count: usize, buf: &mut ParseBuf<'de>) -> Result<Self, WireError> {
        match buf.checked_eat(count) {
            Some(bytes) => Ok(RawSeq::new(CowSlice::Borrowed(bytes))),
            None => Err(WireError::UnexpectedEof),
        }
    }
}

impl<'de, T: IntRepr<Primitive = u8>, U, A: Allocator + Copy> Wire<'de, A>
    for RawSeq<'de, T, U, A> {
    ghost is_value = { λ _. Unit {0} };

    ghost good = { λ count seq _. count ≡ length (cow_slice_items seq.0) };

    ghost kept = { λ seq back. IsBorrowedText back.0 (cow_slice_items seq.0) };

    ghost takes_memory = { ⊥ };

    fn known(&self) {}

    ghost comes_back = { λ count seq rest answer eaten value good read.
        front-borrows (λ back. back.0) count (cow_slice_items seq.0) rest good answer eaten read };

    ghost of_size = { λ seq size value stated. Prim.cc };
}
