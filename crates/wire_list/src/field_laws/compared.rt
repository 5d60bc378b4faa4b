//! Wrappers are equal, ordered and hashed as what they hold.

ghost use Rattle.std.specs.Prelude.{◌≡◌, ◌↔◌, ◌&&◌, ◌++◌, IsTrue};
ghost use Rattle.std.specs.Cmp.Lexicographic.{pointwise, slice_cmp};
ghost use Rattle.std.specs.Cow.{cow_slice_items};
ghost use Rattle.std.specs.Hash as fed;
ghost use Rattle.std.specs.Ordering.{nat_cmp};

use crate::raw_seq::RawSeq;
use crate::seq::Seq;
use bitflags::Flags;
use std::alloc::Allocator;
use std::hash::Hash;
use wire_field::converted::{Const, RawConst};
use wire_field::row::{Both, Slice};
use wire_repr::int::{IntRepr, RawInt};
use wire_repr::text::BytesRepr;
use wire_values::flags::RawFlags;
use wire_values::text::RawBytes;

/// As the number, by whatever representation.
pub fn raw_int_compares<T: IntRepr>(_one: &RawInt<T>, _other: &RawInt<T>)
    ensures eq { ⟦<RawInt<T> as PartialEq>⟧.eq _one.now _other.now
        ≡ T.Primitive.eq _one.now.0 _other.now.0 }
    ensures cmp { ⟦<RawInt<T> as Ord>⟧.cmp _one.now _other.now
        ≡ T.Primitive.cmp _one.now.0 _other.now.0 }
    ensures hash { ⟦<RawInt<T> as Hash>⟧.hash_input _one.now ≡ T.Primitive.hash_input _one.now.0 }
{}

/// As the bytes, by whatever representation, and whoever owns them.
pub fn raw_bytes_compares<'a, T: BytesRepr, A: Allocator>(
    _one: &RawBytes<'a, T, A>,
    _other: &RawBytes<'a, T, A>,
)
    ensures eq { IsTrue (⟦<RawBytes<'a, T, A> as PartialEq>⟧.eq _one.now _other.now)
        ↔ (cow_slice_items _one.now.0 ≡ cow_slice_items _other.now.0) }
    ensures cmp { ⟦<RawBytes<'a, T, A> as Ord>⟧.cmp _one.now _other.now
        ≡ slice_cmp nat_cmp (cow_slice_items _one.now.0) (cow_slice_items _other.now.0) }
    ensures hash { ⟦<RawBytes<'a, T, A> as Hash>⟧.hash_input _one.now
        ≡ fed.slice fed.u8 (cow_slice_items _one.now.0) }
{}

/// As the number.
pub fn raw_const_compares<T: IntRepr, U>(_one: &RawConst<T, U>, _other: &RawConst<T, U>)
    ensures eq { ⟦<RawConst<T, U> as PartialEq>⟧.eq _one.now _other.now
        ≡ T.Primitive.eq _one.now.0 _other.now.0 }
    ensures cmp { ⟦<RawConst<T, U> as Ord>⟧.cmp _one.now _other.now
        ≡ T.Primitive.cmp _one.now.0 _other.now.0 }
    ensures hash { ⟦<RawConst<T, U> as Hash>⟧.hash_input _one.now
        ≡ T.Primitive.hash_input _one.now.0 }
{}

/// As the bits, those that no flag names among them.
pub fn raw_flags_compares<T: Flags<Bits: Ord + Hash>, U>(
    _one: &RawFlags<T, U>,
    _other: &RawFlags<T, U>,
)
    ensures eq { ⟦<RawFlags<T, U> as PartialEq>⟧.eq _one.now _other.now
        ≡ T.Bits.eq _one.now.0 _other.now.0 }
    ensures cmp { ⟦<RawFlags<T, U> as Ord>⟧.cmp _one.now _other.now
        ≡ T.Bits.cmp _one.now.0 _other.now.0 }
    ensures hash { ⟦<RawFlags<T, U> as Hash>⟧.hash_input _one.now
        ≡ T.Bits.hash_input _one.now.0 }
{}

/// As the value.
pub fn constant_compares<T: Ord + Hash, U>(_one: &Const<T, U>, _other: &Const<T, U>)
    ensures eq { ⟦<Const<T, U> as PartialEq>⟧.eq _one.now _other.now
        ≡ T.eq _one.now.0 _other.now.0 }
    ensures cmp { ⟦<Const<T, U> as Ord>⟧.cmp _one.now _other.now
        ≡ T.cmp _one.now.0 _other.now.0 }
    ensures hash { ⟦<Const<T, U> as Hash>⟧.hash_input _one.now ≡ T.hash_input _one.now.0 }
{}

/// As the numbers, whoever owns them.
pub fn raw_seq_compares<'a, T: IntRepr, U, A: Allocator>(
    _one: &RawSeq<'a, T, U, A>,
    _other: &RawSeq<'a, T, U, A>,
)
    ensures eq { ⟦<RawSeq<'a, T, U, A> as PartialEq>⟧.eq _one.now _other.now
        ≡ pointwise T.Primitive.eq (cow_slice_items _one.now.0) (cow_slice_items _other.now.0) }
    ensures cmp { ⟦<RawSeq<'a, T, U, A> as Ord>⟧.cmp _one.now _other.now
        ≡ slice_cmp T.Primitive.cmp (cow_slice_items _one.now.0) (cow_slice_items _other.now.0) }
    ensures hash { ⟦<RawSeq<'a, T, U, A> as Hash>⟧.hash_input _one.now
        ≡ fed.slice T.Primitive.hash_input (cow_slice_items _one.now.0) }
{}

/// As the values, whoever owns them.
pub fn seq_compares<'a, T: Clone + Ord + Hash, U, A: Allocator>(
    _one: &Seq<'a, T, U, A>,
    _other: &Seq<'a, T, U, A>,
)
    ensures eq { ⟦<Seq<'a, T, U, A> as PartialEq>⟧.eq _one.now _other.now
        ≡ pointwise T.eq (cow_slice_items _one.now.0) (cow_slice_items _other.now.0) }
    ensures cmp { ⟦<Seq<'a, T, U, A> as Ord>⟧.cmp _one.now _other.now
        ≡ slice_cmp T.cmp (cow_slice_items _one.now.0) (cow_slice_items _other.now.0) }
    ensures hash { ⟦<Seq<'a, T, U, A> as Hash>⟧.hash_input _one.now
        ≡ fed.slice T.hash_input (cow_slice_items _one.now.0) }
{}

/// As the bytes.
pub fn slice_compares(_one: &Slice<'_>, _other: &Slice<'_>)
    ensures { IsTrue (⟦<Slice<'static> as PartialEq>⟧.eq _one.now _other.now)
        ↔ (_one.now.0.now ≡ _other.now.0.now) }
{}

/// As both values.
pub fn both_compares<A: Eq + Hash, B: Eq + Hash>(_one: &Both<A, B>, _other: &Both<A, B>)
    ensures eq { ⟦<Both<A, B> as PartialEq>⟧.eq _one.now _other.now
        ≡ (A.eq _one.now.0 _other.now.0 && B.eq _one.now.1 _other.now.1) }
    ensures hash { ⟦<Both<A, B> as Hash>⟧.hash_input _one.now
        ≡ A.hash_input _one.now.0 ++ B.hash_input _one.now.1 }
{}
