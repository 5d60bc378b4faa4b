//! What was written is read back, as functions: of any type with the law, and of a number by any
//! representation.
//!
//! A function named `.._comes_back` says when a value is good, and which may come back of it: what
//! the members `good` and `kept` of its law are. It does nothing.

ghost use Rattle.std.specs.Prelude.{◌≡◌, List, ℕ};
ghost use Rattle.wire_buf.specs.Reading.{Reads, Parses, Through};
ghost use Rattle.wire_repr.specs.Law.{ComesBackFrom, LeavesRestOf, seen};

use crate::int::{IntRepr, RawInt};
use crate::wire::Wire;
use std::alloc::{Allocator, Global};
use wire_buf::error::WireError;
use wire_buf::io::ParseBuf;

/// Reads a value, as `parse` does. Where what a value was written as stands at the front, and the
/// value is good under the context and before what follows, it comes back, and what follows is
/// left.
pub fn parse_back<'de, T: Wire<'de, A>, A: Allocator + Copy>(
    alloc: A,
    ctx: T::Ctx,
    buf: &mut ParseBuf<'de>,
) -> Result<T, WireError>
    ensures reads { Reads (Parses T.Size.SIZE (T.reads ctx)) buf.old.0.now result buf.new.0.now }
    ensures back { (value : T) (rest : List ℕ) → T.is_value value
        → T.good ctx value (seen T.Size.SIZE rest)
        → LeavesRestOf (T.bytes value) rest (T.kept value) T.takes_memory result buf.old buf.new }
{
    buf.parse_in(alloc, ctx)
}

/// A number comes back by each representation, a user's own too, whatever follows.
pub fn number_back<T: IntRepr>(
    alloc: Global,
    buf: &mut ParseBuf<'_>,
) -> Result<RawInt<T>, WireError>
    ensures reads { Reads (Parses T.SIZE (λ input. Through (λ int. int.0) (T.reads input)))
        buf.old.0.now result buf.new.0.now }
    ensures back { (val : T.Primitive) → T.is_value val
        → ComesBackFrom (T.bytes val) (λ back. back.0 ≡ T.kept val) ⊥ buf.old.0.now result
        buf.new.0.now }
{
    parse_back(alloc, (), buf)
}

/// Any number is good whatever follows, and what its representation keeps of it comes back.
pub fn number_comes_back<T: IntRepr>(_ctx: (), _number: &RawInt<T>, _back: &RawInt<T>)
    ensures good { (rest : List ℕ) →
        ⟦<RawInt<T> as Wire<'static, Global>>⟧.good _ctx _number.now rest }
    ensures kept { ⟦<RawInt<T> as Wire<'static, Global>>⟧.kept _number.now _back.now
        → _back.now.0 ≡ T.kept _number.now.0 }
{}
