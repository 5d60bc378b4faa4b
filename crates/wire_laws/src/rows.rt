//! Bytes, one of two values, and two in a row come back, where each part does.

ghost use Rattle.std.specs.Prelude.{◌≡◌, ℕ, List, length, ◌⊎◌};
ghost use Rattle.wire_laws.specs.RowsBack.{BothComeBack, EitherComesBack, GoodInRow};
ghost use Rattle.wire_buf.specs.Reading.{Reads, Parses, Answers, Through, front_at};
ghost use Rattle.wire_field.specs.Rows.{ReadsBoth, ReadsEither, SameSide};
ghost use Rattle.wire_field.specs.declared.row.Either.{Either};
ghost use Rattle.wire_repr.specs.Law.{ComesBackFrom, GoodBefore};

use std::alloc::{Allocator, Global};
use wire_buf::error::WireError;
use wire_buf::io::ParseBuf;
use wire_field::row::{Both, Either, Slice};
use wire_repr::field_laws::parse_back;
use wire_repr::wire::Wire;

/// Bytes, where the context is their number.
pub fn slice<'a>(
    alloc: Global,
    count: usize,
    buf: &mut ParseBuf<'a>,
) -> Result<Slice<'a>, WireError>
    ensures reads { Reads (λ input. Through (λ slice. slice.0.now)
        (Answers (front_at count input))) buf.old.0.now result buf.new.0.now }
    ensures back { (bytes : List ℕ) → count ≡ length bytes
        → ComesBackFrom bytes (λ back. back.0.now ≡ bytes) ⊥ buf.old.0.now result buf.new.0.now }
{
    parse_back::<'a, Slice<'a>, Global>(alloc, count, buf)
}

/// They are good under their number, and come back.
pub fn slice_comes_back(_count: usize, _slice: &Slice<'_>, _back: &Slice<'_>)
    ensures good { (rest : List ℕ) → _count ≡ length _slice.now.0.now
        → ⟦<Slice<'static> as Wire<'static, Global>>⟧.good _count _slice.now rest }
    ensures kept { ⟦<Slice<'static> as Wire<'static, Global>>⟧.kept _slice.now _back.now
        → _back.now.0.now ≡ _slice.now.0.now }
{}

/// One of two values, where the context is of its side.
pub fn either<'de, T: Wire<'de, A>, U: Wire<'de, A>, A: Allocator + Copy>(
    alloc: A,
    ctx: Either<T::Ctx, U::Ctx>,
    buf: &mut ParseBuf<'de>,
) -> Result<Either<T, U>, WireError>
    ensures reads { Reads (ReadsEither (λ ctx. Parses T.Size.SIZE (T.reads ctx))
        (λ ctx. Parses U.Size.SIZE (U.reads ctx)) ctx) buf.old.0.now result buf.new.0.now }
    ensures back { EitherComesBack T.Size.SIZE U.Size.SIZE T.is_value U.is_value T.good U.good
        T.bytes U.bytes T.kept U.kept (T.takes_memory ⊎ U.takes_memory) ctx buf.old result buf.new }
{
    parse_back::<'de, Either<T, U>, A>(alloc, ctx, buf)
}

/// It is good under a context of its side, where it is good there, and comes back on this side.
pub fn either_comes_back<'de, T: Wire<'de, A>, U: Wire<'de, A>, A: Allocator + Copy>(
    _ctx: Either<T::Ctx, U::Ctx>,
    _either: &Either<T, U>,
    _back: &Either<T, U>,
)
    ensures good { (rest : List ℕ)
        → SameSide (GoodBefore T.Size.SIZE T.good rest) (GoodBefore U.Size.SIZE U.good rest) _ctx
        _either.now → ⟦<Either<T, U> as Wire<'de, A>>⟧.good _ctx _either.now rest }
    ensures kept { ⟦<Either<T, U> as Wire<'de, A>>⟧.kept _either.now _back.now
        → SameSide T.kept U.kept _either.now _back.now }
{}

/// Two values.
pub fn both<'de, T: Wire<'de, A>, U: Wire<'de, A>, A: Allocator + Copy>(
    alloc: A,
    ctx: (T::Ctx, U::Ctx),
    buf: &mut ParseBuf<'de>,
) -> Result<Both<T, U>, WireError>
    ensures reads { Reads (ReadsBoth (λ both. both.0) (λ both. both.1)
        (Parses T.Size.SIZE (T.reads ctx.0)) (Parses U.Size.SIZE (U.reads ctx.1)))
        buf.old.0.now result buf.new.0.now }
    ensures back { BothComeBack T.Size.SIZE U.Size.SIZE T.is_value U.is_value T.good U.good
        T.bytes U.bytes T.kept U.kept (T.takes_memory ⊎ U.takes_memory) ctx buf.old result buf.new }
{
    parse_back::<'de, Both<T, U>, A>(alloc, ctx, buf)
}

/// They are good where the first is good before the second and what follows, and the second before
/// that. Of each comes back what its type keeps.
pub fn both_comes_back<'de, T: Wire<'de, A>, U: Wire<'de, A>, A: Allocator + Copy>(
    _ctx: (T::Ctx, U::Ctx),
    _both: &Both<T, U>,
    _back: &Both<T, U>,
)
    ensures good { (rest : List ℕ)
        → GoodInRow T.Size.SIZE U.Size.SIZE T.good U.good U.bytes _ctx _both.now.0 _both.now.1 rest
        → ⟦<Both<T, U> as Wire<'de, A>>⟧.good _ctx _both.now rest }
    ensures kept { ⟦<Both<T, U> as Wire<'de, A>>⟧.kept _both.now _back.now
        → T.kept _both.now.0 _back.now.0 × U.kept _both.now.1 _back.now.1 }
{}
