//! Lists.

ghost use Rattle.std.specs.Prelude.{◌≡◌, ℕ, ◌<◌, ◌≤◌, ◌^◌, List, [], ◌∷◌, ◌++◌, length, take, min, Ok, OnOk, IfOk, IfErr, IsTrue, ◌↔◌};
ghost use Rattle.std.specs.Cow.{cow_slice_items};
ghost use Rattle.std.specs.List.{flat_map, All, AllWithin, AllZip};
ghost use Rattle.wire_buf.specs.declared.error.WireError.TheVariants.{OutOfMemory};
ghost use Rattle.wire_buf.specs.Numbers.{le_bytes};
ghost use Rattle.wire_buf.specs.Reading.{Parses};
ghost use Rattle.wire_repr.specs.Law.{seen};
ghost use Rattle.wire_repr.specs.Texts.{IsOwned, IsNotOwned};
ghost use Rattle.wire_values.specs.Elements.{ReadsAll};
ghost use Rattle.wire_list.specs.Counted.{ReadsCounted, count_at, count-back, each-laws, sized-values, seq-back, unknown-back, at_most, below_32};
ghost use Rattle.wire_list.specs.Copies.{IsCopy, OwnsAs, GainsValue, SameList};
ghost use Rattle.wire_list.specs.ElementLaws.{AllKept};

mod repr;

pub use repr::{SeqRepr, Unknown};
use std::alloc::{Allocator, Global};
use std::borrow::CowSlice;
use std::marker::PhantomData;
use wire_buf::error::WireError;
use wire_buf::io::ParseBuf;
use wire_buf::proto::{HasSize, MyDeserialize, MySerialize, Varying};
use wire_repr::int::{LeU32, LeU64};
use wire_repr::wire::Wire;

/// A list of values, whose count is written as the representation `U` says. A list that is read
/// owns its values.
///
/// Copies of values are made by `clone` of their type.
///
/// As the ids of servers with their transactions:
/// <https://dev.mysql.com/doc/dev/mysql-server/latest/page_protocol_com_binlog_dump_gtid.html>
#[derive(Drop)]
#[derive_where(Debug, PartialEq, Eq, PartialOrd, Ord, Hash; T)]
pub struct Seq<'a, T: Clone, U, A: Allocator = Global>(pub CowSlice<'a, T, A>, PhantomData<U>);

impl<'a, T: Clone, U, A: Allocator> Seq<'a, T, U, A> {
    pub fn new(items: CowSlice<'a, T, A>) -> Self
        ensures { result.0 ≡ items.entry }
    {
        Seq(items, PhantomData)
    }

    /// No values, and no memory.
    pub fn empty() -> Self
        ensures { cow_slice_items result.0 ≡ [] }
    {
        Seq(CowSlice::Borrowed(&[]), PhantomData)
    }

    /// The same values. Those that are borrowed are borrowed again, and no memory is taken; a copy
    /// of owned ones may be refused as `OutOfMemory`.
    pub fn clone(&self, alloc: A) -> Result<Seq<'a, T, U, A>, WireError>
    where
        T: Drop,
        ensures ok { IfOk result (λ copy. IsCopy T.is_clone self.now.0 copy.0) }
        ensures same { IfOk result (λ copy.
            ((value clone : T) → T.is_clone value clone → clone ≡ value)
            → cow_slice_items copy.0 ≡ cow_slice_items self.now.0) }
        ensures err { IfErr result (λ error. (error ≡ OutOfMemory) × IsOwned self.now.0) }
    {
        match &self.0 {
            CowSlice::Borrowed(items) => Ok(Seq(CowSlice::Borrowed(*items), PhantomData)),
            CowSlice::Owned(items) => {
                let owned = Vec::from_clones(alloc, items.as_slice())?;
                Ok(Seq(CowSlice::Owned(owned), PhantomData))
            }
        }
    }

    pub fn is_empty(&self) -> bool
        ensures { IsTrue result ↔ cow_slice_items self.now.0 ≡ [] }
    {
        self.0.as_slice().is_empty()
    }

    /// How many values there are.
    pub fn len(&self) -> usize
        ensures { result ≡ length (cow_slice_items self.now.0) }
    {
        self.0.as_slice().len()
    }

    pub fn as_slice(&self) -> &[T]
        ensures { result.now ≡ cow_slice_items self.now.0 }
    {
        self.0.as_slice()
    }

    /// Appends a value. A list that is borrowed is copied first. Where memory is refused, that is
    /// `OutOfMemory`, and the list is as it was.
    pub fn push(&mut self, alloc: A, element: T) -> Result<(), WireError>
    where
        T: Drop,
        ensures ok { OnOk result (GainsValue T.is_clone self.old.0 element self.new.0) }
        ensures same { OnOk result (((value clone : T) → T.is_clone value clone → clone ≡ value)
            → cow_slice_items self.new.0 ≡ cow_slice_items self.old.0 ++ element ∷ []) }
        ensures err { IfErr result (λ error. (error ≡ OutOfMemory)
            × SameList self.old.0 self.new.0) }
    {
        match &mut self.0 {
            CowSlice::Owned(items) => {
                items.push(element)?;
                Ok(())
            }
            CowSlice::Borrowed(items) => {
                let mut owned = Vec::from_clones(alloc, *items)?;
                owned.push(element)?;
                self.0 = CowSlice::Owned(owned);
                Ok(())
            }
        }
    }

    /// The same values, owned. A copy is made of borrowed ones alone, and is refused as
    /// `OutOfMemory`.
    pub fn into_owned<'b>(self, alloc: A) -> Result<Seq<'b, T, U, A>, WireError>
    where
        T: Drop,
        ensures ok { IfOk result (λ owned. IsOwned owned.0
            × OwnsAs T.is_clone self.entry.0 (cow_slice_items owned.0)) }
        ensures same { IfOk result (λ owned.
            ((value clone : T) → T.is_clone value clone → clone ≡ value)
            → cow_slice_items owned.0 ≡ cow_slice_items self.entry.0) }
        ensures err { IfErr result (λ error. (error ≡ OutOfMemory) × IsNotOwned self.entry.0) }
    {
        match self.0 {
            CowSlice::Borrowed(items) => Ok(of_owned(Vec::from_clones(alloc, items)?)),
            CowSlice::Owned(items) => Ok(of_owned(items)),
        }
    }
}

/// No values, and no memory.
impl<'a, T: Clone, U, A: Allocator> Default for Seq<'a, T, U, A> {
    fn default() -> Self
        ensures { cow_slice_items result.0 ≡ [] }
    {
        Seq::empty()
    }
}

// A list of its own values.
fn of_owned<'b, T: Clone, U, A: Allocator>(items: Vec<T, A>) -> Seq<'b, T, U, A>
    ensures owned { IsOwned result.0 }
    ensures items { cow_slice_items result.0 ≡ items.items }
{
    Seq(CowSlice::Owned(items), PhantomData)
}

impl<'a, T: Clone + MySerialize, U: SeqRepr, A: Allocator> MySerialize for Seq<'a, T, U, A> {
    ghost bytes = { λ seq. U.front (min (length (cow_slice_items seq.0)) U.MAX_LEN)
        ++ flat_map T.bytes (take U.MAX_LEN (cow_slice_items seq.0)) };

    fn serialize<B: Allocator>(&self, buf: &mut Vec<u8, B>) -> Result<(), WireError> {
        U::serialize(self.0.as_slice(), buf)
    }
}

impl<T: Clone + HasSize, U: SeqRepr, A: Allocator> HasSize for Seq<'_, T, U, A> {
    type Size = Varying<T::Size>;
}

impl<
    'de,
    T: Clone + MyDeserialize<'de, A, Ctx = ()>,
    U: SeqRepr,
    A: Allocator + Copy,
> MyDeserialize<'de, A> for Seq<'de, T, U, A> {
    type Ctx = U::Ctx;

    ghost reads = { λ ctx input. ReadsCounted (λ seq. seq.0) (U.count ctx input)
        (ReadsAll T.Size.SIZE (Parses T.Size.SIZE (T.reads tt))) input };

    fn deserialize(alloc: A, ctx: U::Ctx, buf: &mut ParseBuf<'de>) -> Result<Self, WireError> {
        Ok(Seq::new(U::deserialize(alloc, ctx, buf)?))
    }
}

// Values in hand are values.
fn known_each<'de, T: Wire<'de, A>, A: Allocator + Copy>(values: &[T])
    ensures len { length values.now < 2 ^ 64 }
    ensures each { All T.is_value values.now }
{
    for value in values {
        value.known();
    }
}

impl<'de, T: Clone + Wire<'de, A, Ctx = ()>, A: Allocator + Copy> Wire<'de, A>
    for Seq<'de, T, Unknown, A> {
    ghost is_value = { λ seq. (length (cow_slice_items seq.0) < 2 ^ 64)
        × All T.is_value (cow_slice_items seq.0) };

    ghost good = { λ ctx seq _. (ctx ≡ length (cow_slice_items seq.0))
        × All (λ value. (rest : List ℕ) → T.good tt value (seen T.Size.SIZE rest))
        (cow_slice_items seq.0) };

    ghost kept = { λ seq back. AllKept T.kept (cow_slice_items seq.0) (cow_slice_items back.0) };

    ghost takes_memory = { Unit {0} };

    fn known(&self) {
        known_each(self.0.as_slice());
    }

    ghost comes_back = { λ ctx seq rest answer eaten value good read.
        seq-back (λ back. back.0) T.Size.SIZE (T.reads tt) T.bytes T.kept T.takes_memory
        0xffff_ffff_ffff_ffff (λ _. []) (λ _. (Ok ctx, 0)) (cow_slice_items seq.0) rest
        (sized-values T.Size.SIZE T.bytes T.is_value T.of_size (cow_slice_items seq.0) value.1)
        (each-laws T.Size.SIZE (T.reads tt) T.bytes T.kept T.takes_memory T.is_value (T.good tt)
        T.of_size (λ value rest answer eaten is good read.
        T.comes_back tt value rest answer eaten is good read)
        (cow_slice_items seq.0) value.1 good.1)
        (at_most (length (cow_slice_items seq.0)) value.0)
        (λ more. unknown-back ctx (length (cow_slice_items seq.0)) good.0)
        answer eaten read };

    ghost of_size = { λ seq size value stated. Prim.cc };
}

impl<'de, T: Clone + Wire<'de, A, Ctx = ()>, A: Allocator + Copy> Wire<'de, A>
    for Seq<'de, T, LeU32, A> {
    ghost is_value = { λ seq. (length (cow_slice_items seq.0) < 2 ^ 64)
        × All T.is_value (cow_slice_items seq.0) };

    ghost good = { λ ctx seq _. (length (cow_slice_items seq.0) ≤ 4294967295)
        × All (λ value. (rest : List ℕ) → T.good tt value (seen T.Size.SIZE rest))
        (cow_slice_items seq.0) };

    ghost kept = { λ seq back. AllKept T.kept (cow_slice_items seq.0) (cow_slice_items back.0) };

    ghost takes_memory = { Unit {0} };

    fn known(&self) {
        known_each(self.0.as_slice());
    }

    ghost comes_back = { λ ctx seq rest answer eaten value good read.
        seq-back (λ back. back.0) T.Size.SIZE (T.reads tt) T.bytes T.kept T.takes_memory
        4294967295 (le_bytes 4) (count_at 4) (cow_slice_items seq.0) rest
        (sized-values T.Size.SIZE T.bytes T.is_value T.of_size (cow_slice_items seq.0) value.1)
        (each-laws T.Size.SIZE (T.reads tt) T.bytes T.kept T.takes_memory T.is_value (T.good tt)
        T.of_size (λ value rest answer eaten is good read.
        T.comes_back tt value rest answer eaten is good read)
        (cow_slice_items seq.0) value.1 good.1)
        good.0
        (λ more. count-back 4 (length (cow_slice_items seq.0)) more
        (below_32 (length (cow_slice_items seq.0)) good.0))
        answer eaten read };

    ghost of_size = { λ seq size value stated. Prim.cc };
}

impl<'de, T: Clone + Wire<'de, A, Ctx = ()>, A: Allocator + Copy> Wire<'de, A>
    for Seq<'de, T, LeU64, A> {
    ghost is_value = { λ seq. (length (cow_slice_items seq.0) < 2 ^ 64)
        × All T.is_value (cow_slice_items seq.0) };

    ghost good = { λ ctx seq _. (Unit {0})
        × All (λ value. (rest : List ℕ) → T.good tt value (seen T.Size.SIZE rest))
        (cow_slice_items seq.0) };

    ghost kept = { λ seq back. AllKept T.kept (cow_slice_items seq.0) (cow_slice_items back.0) };

    ghost takes_memory = { Unit {0} };

    fn known(&self) {
        known_each(self.0.as_slice());
    }

    ghost comes_back = { λ ctx seq rest answer eaten value good read.
        seq-back (λ back. back.0) T.Size.SIZE (T.reads tt) T.bytes T.kept T.takes_memory
        0xffff_ffff_ffff_ffff (le_bytes 8) (count_at 8) (cow_slice_items seq.0) rest
        (sized-values T.Size.SIZE T.bytes T.is_value T.of_size (cow_slice_items seq.0) value.1)
        (each-laws T.Size.SIZE (T.reads tt) T.bytes T.kept T.takes_memory T.is_value (T.good tt)
        T.of_size (λ value rest answer eaten is good read.
        T.comes_back tt value rest answer eaten is good read)
        (cow_slice_items seq.0) value.1 good.1)
        (at_most (length (cow_slice_items seq.0)) value.0)
        (λ more. count-back 8 (length (cow_slice_items seq.0)) more value.0)
        answer eaten read };

    ghost of_size = { λ seq size value stated. Prim.cc };
}
