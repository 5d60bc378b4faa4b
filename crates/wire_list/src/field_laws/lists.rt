//! Lists come back, where each value does.

ghost use Rattle.std.specs.Prelude.{◌≡◌, ◌<◌, ◌≤◌, ◌^◌, ℕ, List, length, Ok};
ghost use Rattle.std.specs.Cow.{cow_slice_items};
ghost use Rattle.wire_buf.specs.Reading.{Reads, Answers, front_at};
ghost use Rattle.wire_list.specs.Counted.{ReadsCounted, count_at};
ghost use Rattle.wire_list.specs.ElementLaws.{AllGood, AllKept};
ghost use Rattle.wire_list.specs.Numbers.{AreNumbers, NumbersFrom, ReadsNumbers, counted_bytes, numbers_bytes};
ghost use Rattle.wire_repr.specs.Law.{ComesBackFrom};
ghost use Rattle.wire_repr.specs.Texts.{IsBorrowedText, Borrows};

use crate::raw_seq::RawSeq;
use crate::seq::{Seq, Unknown};
use std::alloc::{Allocator, Global};
use wire_buf::error::WireError;
use wire_buf::io::ParseBuf;
use wire_repr::field_laws::parse_back;
use wire_repr::int::{IntRepr, LeU32, LeU64, RawInt};
use wire_repr::wire::Wire;

/// Numbers in a list, after four bytes of their count.
pub fn seq_u32<'de, T: IntRepr>(
    alloc: Global,
    buf: &mut ParseBuf<'de>,
) -> Result<Seq<'de, RawInt<T>, LeU32>, WireError>
    ensures reads { Reads
        (λ input. ReadsCounted (λ seq. seq.0) (count_at 4 input) (ReadsNumbers T.SIZE T.reads) input)
        buf.old.0.now result buf.new.0.now }
    ensures back { (ints : List _) → length ints ≤ 4294967295 → AreNumbers T.is_value ints
        → NumbersFrom (counted_bytes 4 T.bytes ints) T.kept ints buf.old.0.now result
        buf.new.0.now }
{
    parse_back::<'de, Seq<'de, RawInt<T>, LeU32>, Global>(alloc, (), buf)
}

/// At most 4294967295 values of any type, each good whatever follows, are good whatever follows, and
/// what is kept of each comes back.
pub fn seq_u32_comes_back<'de, T: Clone + Wire<'de, A, Ctx = ()>, A: Allocator + Copy>(
    _ctx: (),
    _seq: &Seq<'de, T, LeU32, A>,
    _back: &Seq<'de, T, LeU32, A>,
)
    ensures good { (rest : List ℕ) → length (cow_slice_items _seq.now.0) ≤ 4294967295
        → AllGood T.Size.SIZE (T.good tt) _seq.now.0
        → ⟦<Seq<'de, T, LeU32, A> as Wire<'de, A>>⟧.good _ctx _seq.now rest }
    ensures kept { ⟦<Seq<'de, T, LeU32, A> as Wire<'de, A>>⟧.kept _seq.now _back.now
        → AllKept T.kept (cow_slice_items _seq.now.0) (cow_slice_items _back.now.0) }
{}

/// Numbers in a list, after eight bytes of their count.
pub fn seq_u64<'de, T: IntRepr>(
    alloc: Global,
    buf: &mut ParseBuf<'de>,
) -> Result<Seq<'de, RawInt<T>, LeU64>, WireError>
    ensures reads { Reads
        (λ input. ReadsCounted (λ seq. seq.0) (count_at 8 input) (ReadsNumbers T.SIZE T.reads) input)
        buf.old.0.now result buf.new.0.now }
    ensures back { (ints : List _) → length ints < 2 ^ 64 → AreNumbers T.is_value ints
        → NumbersFrom (counted_bytes 8 T.bytes ints) T.kept ints buf.old.0.now result
        buf.new.0.now }
{
    parse_back::<'de, Seq<'de, RawInt<T>, LeU64>, Global>(alloc, (), buf)
}

/// Values of any type, each good whatever follows, are good whatever follows, and what is kept of
/// each comes back.
pub fn seq_u64_comes_back<'de, T: Clone + Wire<'de, A, Ctx = ()>, A: Allocator + Copy>(
    _ctx: (),
    _seq: &Seq<'de, T, LeU64, A>,
    _back: &Seq<'de, T, LeU64, A>,
)
    ensures good { (rest : List ℕ) → AllGood T.Size.SIZE (T.good tt) _seq.now.0
        → ⟦<Seq<'de, T, LeU64, A> as Wire<'de, A>>⟧.good _ctx _seq.now rest }
    ensures kept { ⟦<Seq<'de, T, LeU64, A> as Wire<'de, A>>⟧.kept _seq.now _back.now
        → AllKept T.kept (cow_slice_items _seq.now.0) (cow_slice_items _back.now.0) }
{}

/// Numbers in a list, where the context is their count.
pub fn seq_unknown<'de, T: IntRepr>(
    alloc: Global,
    count: usize,
    buf: &mut ParseBuf<'de>,
) -> Result<Seq<'de, RawInt<T>, Unknown>, WireError>
    ensures reads { Reads
        (λ input. ReadsCounted (λ seq. seq.0) (Ok count, 0) (ReadsNumbers T.SIZE T.reads) input)
        buf.old.0.now result buf.new.0.now }
    ensures back { (ints : List _) → count ≡ length ints → length ints < 2 ^ 64
        → AreNumbers T.is_value ints
        → NumbersFrom (numbers_bytes T.bytes ints) T.kept ints buf.old.0.now result buf.new.0.now }
{
    parse_back::<'de, Seq<'de, RawInt<T>, Unknown>, Global>(alloc, count, buf)
}

/// Values of any type, each good whatever follows, are good under their count, and what is kept of
/// each comes back.
pub fn seq_unknown_comes_back<'de, T: Clone + Wire<'de, A, Ctx = ()>, A: Allocator + Copy>(
    _ctx: usize,
    _seq: &Seq<'de, T, Unknown, A>,
    _back: &Seq<'de, T, Unknown, A>,
)
    ensures good { (rest : List ℕ) → _ctx ≡ length (cow_slice_items _seq.now.0)
        → AllGood T.Size.SIZE (T.good tt) _seq.now.0
        → ⟦<Seq<'de, T, Unknown, A> as Wire<'de, A>>⟧.good _ctx _seq.now rest }
    ensures kept { ⟦<Seq<'de, T, Unknown, A> as Wire<'de, A>>⟧.kept _seq.now _back.now
        → AllKept T.kept (cow_slice_items _seq.now.0) (cow_slice_items _back.now.0) }
{}

/// Numbers that stand for constants, where the context is their count.
pub fn raw_seq<'a>(
    alloc: Global,
    count: usize,
    buf: &mut ParseBuf<'a>,
) -> Result<RawSeq<'a, u8, ()>, WireError>
    ensures reads { Reads (λ input. Borrows (λ seq. seq.0) (Answers (front_at count input)))
        buf.old.0.now result buf.new.0.now }
    ensures back { (numbers : List ℕ) → count ≡ length numbers
        → ComesBackFrom numbers (λ back. IsBorrowedText back.0 numbers) ⊥ buf.old.0.now result
        buf.new.0.now }
{
    parse_back::<'a, RawSeq<'a, u8, ()>, Global>(alloc, count, buf)
}

/// They are good under their count, and come back borrowed.
pub fn raw_seq_comes_back<'de, T: IntRepr<Primitive = u8>, U>(
    _count: usize,
    _seq: &RawSeq<'de, T, U>,
    _back: &RawSeq<'de, T, U>,
)
    ensures good { (rest : List ℕ) → _count ≡ length (cow_slice_items _seq.now.0)
        → ⟦<RawSeq<'de, T, U> as Wire<'de, Global>>⟧.good _count _seq.now rest }
    ensures kept { ⟦<RawSeq<'de, T, U> as Wire<'de, Global>>⟧.kept _seq.now _back.now
        → IsBorrowedText _back.now.0 (cow_slice_items _seq.now.0) }
{}
