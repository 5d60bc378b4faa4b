// The traits of the types, and that a wrapper is compared, ordered, hashed and shown by its field.

use crate::constants::Magic;
use mysql_wire::constants::{ColumnType, StatusFlags};
use mysql_wire::misc::raw::bytes::{
    BareBytes, BareU8Bytes, BareU16Bytes, BytesRepr, ConstBytes, EofBytes, FixedLengthText,
    NullBytes, U8Bytes, U32Bytes,
};
use mysql_wire::misc::raw::int::{
    ConstU8, ConstU32, IntRepr, LeI16, LeI24, LeI32, LeI56, LeI64, LeU16, LeU24, LeU32,
    LeU32LowerHalf, LeU32UpperHalf, LeU48, LeU56, LeU64, LenEnc, VarLen,
};
use mysql_wire::misc::raw::seq::{Seq, Unknown};
use mysql_wire::misc::raw::{
    Both, Const, Either, RawBytes, RawConst, RawFlags, RawInt, RawSeq, Skip, Slice,
};
use std::alloc::Global;
use std::cmp::Ordering;
use std::fmt::Debug;
use std::hash::{DefaultHasher, Hash, Hasher};
use std::marker::PhantomData;
use std::test::Fail;
use test_support::answers::shows_debug;
use test_support::facts::all_hold;

// A type that stands in one of these has its traits: with one that has not, this doesn't compile.
pub struct IsPlain<T: Copy + Debug + Eq + Hash>(PhantomData<T>);

pub struct IsMade<T: Copy + Debug + Eq + Hash + Default>(PhantomData<T>);

pub struct IsOrdered<T: Copy + Debug + Ord + Hash + Default>(PhantomData<T>);

pub struct IsText<T: Clone + Debug + Ord + Hash + Default>(PhantomData<T>);

pub struct IsRanked<T: Copy + Debug + Ord + Hash>(PhantomData<T>);

pub struct IsList<T: Debug + Ord + Hash>(PhantomData<T>);

pub struct HasDefault<T: Default>(PhantomData<T>);

pub struct IsCopied<T: Copy>(PhantomData<T>);

pub struct IsKept<T: Clone + Debug + Eq>(PhantomData<T>);

pub struct IsHashed<T: Hash>(PhantomData<T>);

pub struct OfRepresentations(
    IsOrdered<LeU16>,
    IsOrdered<LeU24>,
    IsOrdered<LeU32>,
    IsOrdered<LeU48>,
    IsOrdered<LeU56>,
    IsOrdered<LeU64>,
    IsOrdered<LeI16>,
    IsOrdered<LeI24>,
    IsOrdered<LeI32>,
    IsOrdered<LeI56>,
    IsOrdered<LeI64>,
    IsOrdered<LeU32LowerHalf>,
    IsOrdered<LeU32UpperHalf>,
    IsOrdered<LenEnc>,
    IsOrdered<VarLen>,
    IsMade<U8Bytes>,
    IsMade<U32Bytes>,
    IsMade<NullBytes>,
    IsMade<EofBytes>,
    IsMade<FixedLengthText<4>>,
    IsPlain<BareBytes<4>>,
    IsPlain<BareU8Bytes>,
    IsPlain<BareU16Bytes>,
);

pub struct OfConstants(
    IsMade<ConstU8<(), 7>>,
    IsMade<ConstU32<(), 7>>,
    IsMade<ConstBytes<Magic, 4>>,
    IsOrdered<Skip<4>>,
);

// Of each number and text in whatever representation.
pub struct OfFields<'a, T: IntRepr, U: BytesRepr>(IsOrdered<RawInt<T>>, IsText<RawBytes<'a, U>>);

pub struct OfRows<'a>(
    // Two fields are copied where both are.
    IsCopied<Both<RawInt<LeU16>, Skip<2>>>,
    IsCopied<Either<RawInt<LeU16>, RawInt<u8>>>,
    IsCopied<Slice<'a>>,
    IsHashed<Both<RawInt<u8>, RawInt<LeU16>>>,
    IsHashed<Either<RawInt<u8>, RawInt<LeU16>>>,
    IsKept<Both<RawInt<u8>, RawInt<LeU16>>>,
    IsKept<Either<RawInt<u8>, RawInt<LeU16>>>,
    IsOrdered<RawConst<LeU16, ColumnType>>,
    IsOrdered<RawFlags<StatusFlags, LeU16>>,
    IsOrdered<Const<u8, u8>>,
    IsRanked<Unknown>,
    HasDefault<Seq<'a, RawInt<LeU16>, LeU32>>,
    IsList<Seq<'a, RawInt<LeU16>, LeU32>>,
    IsList<RawSeq<'a, u8, ColumnType>>,
    IsKept<Slice<'a>>,
);

// What a value is hashed to.
fn hash_of<T: Hash>(value: &T) -> u64 {
    let mut hasher = DefaultHasher::new();
    value.hash(&mut hasher);
    hasher.finish()
}

// Whether two values are equal, of one order, and of one hash. These functions take what they look
// at, so that they let it go at whatever type.
fn are_same<T: Ord + Hash + Drop>(one: T, other: T) -> bool {
    (one == other) & (one.cmp(&other) == Ordering::Equal) & (hash_of(&one) == hash_of(&other))
}

// Whether the first value is less than the second, and of another hash.
fn is_less<T: Ord + Hash + Drop>(one: T, other: T) -> bool {
    (one != other) & (one < other) & (hash_of(&one) != hash_of(&other))
}

// Whether the first value is equal to itself and of one hash, and to the second neither.
fn is_told<T: Eq + Hash + Drop>(one: T, same: T, other: T) -> bool {
    let is_same = (one == same) & (hash_of(&one) == hash_of(&same));
    is_same & (one != other) & (hash_of(&one) != hash_of(&other))
}

/// Whether a copy of a value is the same.
pub fn is_copied<T: Clone + PartialEq + Drop>(value: T) -> bool {
    match value.clone() {
        Ok(copy) => copy == value,
        Err(_) => false,
    }
}

fn is_shown<T: Debug + Drop>(alloc: Global, value: T, text: &str) -> bool {
    shows_debug(alloc, &value, text)
}

// Two numbers that are written alike are yet two.
#[test]
fn numbers_are_compared_by_their_field(rt: HostRuntime) -> Result<(), Fail> {
    let one = RawInt::<LeI16>::new(1);
    let less = RawInt::<LeI16>::new(-1);
    let (zero, wide) = (RawInt::<LeU24>::new(0), RawInt::<LeU24>::new(1 << 24));
    let raw = RawConst::<u8, ColumnType>::new(7);
    all_hold(&[
        are_same(one, RawInt::new(1)),
        is_less(less, one),
        RawInt::<LeI16>::default().0 == 0,
        is_less(zero, wide),
        is_shown(rt.alloc(), less, "RawInt(-1, PhantomData<_>)"),
        is_shown(rt.alloc(), raw, "RawConst(7, PhantomData<_>)"),
    ])
}

type Pair = Both<RawInt<u8>, RawInt<u8>>;

type Side = Either<RawInt<u8>, RawInt<u8>>;

fn pair(first: u8, second: u8) -> Pair {
    Both(RawInt::new(first), RawInt::new(second))
}

fn left(number: u8) -> Side {
    Either::Left(RawInt::new(number))
}

// Two values by both, and one of two by its side and value.
#[test]
fn pairs_and_sides_are_compared_by_their_parts() -> Result<(), Fail> {
    all_hold(&[
        is_told(pair(1, 2), pair(1, 2), pair(1, 3)),
        is_told(pair(1, 2), pair(1, 2), pair(2, 2)),
        is_told(left(1), left(1), left(2)),
        is_told(left(1), left(1), Either::Right(RawInt::new(1))),
    ])
}

fn text<T: BytesRepr>(bytes: &[u8]) -> RawBytes<'_, T> {
    RawBytes::from(bytes)
}

// Where there is no memory, it is another one.
fn owned(alloc: Global) -> RawBytes<'static, U8Bytes> {
    match Vec::from_slice(alloc, b"ab") {
        Ok(bytes) => RawBytes::from(bytes),
        Err(_) => text(b""),
    }
}

// Two texts that are written alike are yet two, and an owned text is compared and shown as a
// borrowed one.
#[test]
fn texts_are_compared_by_their_field(rt: HostRuntime) -> Result<(), Fail> {
    let alloc = rt.alloc();
    all_hold(&[
        is_less::<RawBytes<'_, U8Bytes>>(text(b"ab"), text(b"b")),
        is_less::<RawBytes<'_, FixedLengthText<1>>>(text(b"a"), text(b"ab")),
        are_same(text(b"ab"), owned(alloc)),
        is_shown(alloc, owned(alloc), "RawBytes([97, 98], PhantomData<_>)"),
        is_copied(owned(alloc)),
    ])
}
