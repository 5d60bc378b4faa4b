//! Bytes, one of two values, and two values one after the other.

ghost use Rattle.std.specs.Prelude.{◌≡◌, ℕ, List, ◌++◌, length, ◌⊎◌};
ghost use Rattle.wire_buf.specs.Reading.{Parses, Answers, Through, front_at};
ghost use Rattle.wire_repr.specs.Law.{ComesBack, seen, Parses-back};
ghost use Rattle.wire_field.specs.Borrowed.{front-through};
ghost use Rattle.wire_field.specs.Rows.{ReadsBoth, ReadsEither, by_side, OnSide, SameSide, IsLeft, IsRight, both-back, either-back};
ghost use Rattle.wire_field.specs.declared.row.Either.TheVariants.{Left, Right};

use std::alloc::Allocator;
use wire_buf::error::WireError;
use wire_buf::io::ParseBuf;
use wire_buf::proto::{HasSize, MyDeserialize, MySerialize, Varying};
use wire_repr::wire::Wire;

/// Bytes as they are, lent from the payload. The context is how many are read; where there are
/// fewer, that is `UnexpectedEof`, and none is eaten.
///
/// A `string<var>`:
/// <https://dev.mysql.com/doc/dev/mysql-server/latest/page_protocol_basic_dt_strings.html>
#[derive(Clone, Copy, Debug, PartialEq, Eq)]
pub struct Slice<'a>(pub &'a [u8]);

impl<'a> MySerialize for Slice<'a> {
    ghost bytes = { λ slice. slice.0.now };

    fn serialize<A: Allocator>(&self, buf: &mut Vec<u8, A>) -> Result<(), WireError> {
        buf.extend_from_slice(self.0)?;
        Ok(())
    }
}

impl HasSize for Slice<'_> {
    type Size = Varying;
}

impl<'de, A: Allocator + Copy> MyDeserialize<'de, A> for Slice<'de> {
    type Ctx = usize;

    ghost reads = { λ count input. Through (λ slice. slice.0.now)
        (Answers (front_at count input)) };

    fn deserialize(_: A, count: usize, buf: &mut ParseBuf<'de>) -> Result<Self, WireError> {
        match buf.checked_eat(count) {
            Some(bytes) => Ok(Slice(bytes)),
            None => Err(WireError::UnexpectedEof),
        }
    }
}

impl<'de, A: Allocator + Copy> Wire<'de, A> for Slice<'de> {
    ghost is_value = { λ _. Unit {0} };

    ghost good = { λ count slice _. count ≡ length slice.0.now };

    ghost kept = { λ slice back. back.0.now ≡ slice.0.now };

    ghost takes_memory = { ⊥ };

    fn known(&self) {}

    ghost comes_back = { λ count slice rest answer eaten value good read.
        front-through (λ back. back.0.now) count slice.0.now rest good answer eaten read };

    ghost of_size = { λ slice size value stated. Prim.cc };
}

/// One of two values. The context is that of the side that is read.
///
/// As the answer to a challenge, which a flag gives one of two forms:
/// <https://dev.mysql.com/doc/dev/mysql-server/latest/page_protocol_connection_phase_packets_protocol_handshake_response.html>
#[derive(Drop, Clone, Debug, PartialEq, Eq, Hash)]
#[derive_where(Copy; T, U)]
pub enum Either<T, U> {
    Left(T),
    Right(U),
}

impl<T, U> Either<T, U> {
    pub fn unwrap_left(self) -> T
    where
        U: Drop,
        requires { IsLeft self }
        ensures { self ≡ Left result }
    {
        match self {
            Either::Left(left) => left,
            Either::Right(_right) => unreachable!(),
        }
    }

    pub fn unwrap_right(self) -> U
    where
        T: Drop,
        requires { IsRight self }
        ensures { self ≡ Right result }
    {
        match self {
            Either::Left(_left) => unreachable!(),
            Either::Right(right) => right,
        }
    }
}

impl<T: MySerialize, U: MySerialize> MySerialize for Either<T, U> {
    ghost bytes = { by_side T.bytes U.bytes };

    fn serialize<H: Allocator>(&self, buf: &mut Vec<u8, H>) -> Result<(), WireError> {
        match self {
            Either::Left(left) => left.serialize(buf),
            Either::Right(right) => right.serialize(buf),
        }
    }
}

impl<T: HasSize, U: HasSize> HasSize for Either<T, U> {
    type Size = Varying<(T::Size, U::Size)>;
}

impl<'de, T: MyDeserialize<'de, H>, U: MyDeserialize<'de, H>, H: Allocator + Copy> MyDeserialize<
    'de,
    H,
> for Either<T, U> {
    type Ctx = Either<T::Ctx, U::Ctx>;

    ghost reads = { ReadsEither (λ ctx. Parses T.Size.SIZE (T.reads ctx))
        (λ ctx. Parses U.Size.SIZE (U.reads ctx)) };

    fn deserialize(
        alloc: H,
        ctx: Either<T::Ctx, U::Ctx>,
        buf: &mut ParseBuf<'de>,
    ) -> Result<Self, WireError> {
        match ctx {
            Either::Left(ctx) => {
                let left: T = buf.parse_in(alloc, ctx)?;
                Ok(Either::Left(left))
            }
            Either::Right(ctx) => {
                let right: U = buf.parse_in(alloc, ctx)?;
                Ok(Either::Right(right))
            }
        }
    }
}

impl<'de, T: Wire<'de, H>, U: Wire<'de, H>, H: Allocator + Copy> Wire<'de, H> for Either<T, U> {
    ghost is_value = { OnSide T.is_value U.is_value };

    ghost good = { λ ctx either rest.
        SameSide (λ ctx left. T.good ctx left (seen T.Size.SIZE rest))
        (λ ctx right. U.good ctx right (seen U.Size.SIZE rest)) ctx either };

    ghost kept = { SameSide T.kept U.kept };

    ghost takes_memory = { T.takes_memory ⊎ U.takes_memory };

    fn known(&self) {
        match self {
            Either::Left(left) => left.known(),
            Either::Right(right) => right.known(),
        }
    }

    ghost comes_back = { λ ctx either rest answer eaten value good read.
        either-back (λ ctx. Parses T.Size.SIZE (T.reads ctx))
        (λ ctx. Parses U.Size.SIZE (U.reads ctx)) T.is_value U.is_value
        (λ ctx left. T.good ctx left (seen T.Size.SIZE rest))
        (λ ctx right. U.good ctx right (seen U.Size.SIZE rest)) T.kept U.kept T.takes_memory
        U.takes_memory T.bytes U.bytes rest
        (λ ctx left answer eaten value good read.
        Parses-back T.Size.SIZE (T.reads ctx) (T.kept left) T.takes_memory (T.bytes left) rest
        (λ size stated. T.of_size left size value stated)
        (λ answer eaten read. T.comes_back ctx left _ answer eaten value good read)
        answer eaten read)
        (λ ctx right answer eaten value good read.
        Parses-back U.Size.SIZE (U.reads ctx) (U.kept right) U.takes_memory (U.bytes right) rest
        (λ size stated. U.of_size right size value stated)
        (λ answer eaten read. U.comes_back ctx right _ answer eaten value good read)
        answer eaten read)
        ctx either answer eaten value good read };

    ghost of_size = { λ either size value stated. Prim.cc };
}

// Drops the first of two values, where the second is refused.
#[cold]
#[inline(never)]
fn drop_refused<A: Drop>(_first: A) {}

// The same of a copy that is made here, so that the first stays in registers where nothing is refused.
fn drop_first<A: Drop>(first: A) {
    let moved = first;
    drop_refused(moved);
}

/// Two values, the second after the first. The context is a pair of theirs.
///
/// As a connection attribute's key and value:
/// <https://dev.mysql.com/doc/dev/mysql-server/latest/page_protocol_connection_phase_packets_protocol_handshake_response.html>
#[derive(Drop, Clone, Debug, PartialEq, Eq, Hash)]
#[derive_where(Copy; A, B)]
pub struct Both<A, B>(pub A, pub B);

impl<A: MySerialize, B: MySerialize> MySerialize for Both<A, B> {
    ghost bytes = { λ both. A.bytes both.0 ++ B.bytes both.1 };

    #[inline(always)]
    fn serialize<H: Allocator>(&self, buf: &mut Vec<u8, H>) -> Result<(), WireError> {
        let at = buf.len();
        self.0.serialize(buf)?;
        let put = self.1.serialize(buf);
        if put.is_err() {
            buf.truncate(at);
        }
        put
    }
}

impl<A: HasSize, B: HasSize> HasSize for Both<A, B> {
    type Size = Varying<(A::Size, B::Size)>;
}

impl<'de, A: MyDeserialize<'de, H>, B: MyDeserialize<'de, H>, H: Allocator + Copy> MyDeserialize<
    'de,
    H,
> for Both<A, B> {
    type Ctx = (A::Ctx, B::Ctx);

    ghost reads = { λ ctx. ReadsBoth (λ both. both.0) (λ both. both.1)
        (Parses A.Size.SIZE (A.reads ctx.0)) (Parses B.Size.SIZE (B.reads ctx.1)) };

    #[inline(always)]
    fn deserialize(
        alloc: H,
        ctx: (A::Ctx, B::Ctx),
        buf: &mut ParseBuf<'de>,
    ) -> Result<Self, WireError> {
        let (first_ctx, second_ctx) = ctx;
        let first: A = buf.parse_in(alloc, first_ctx)?;
        match buf.parse_in(alloc, second_ctx) {
            Ok(second) => Ok(Both(first, second)),
            Err(error) => {
                drop_first(first);
                Err(error)
            }
        }
    }
}

impl<'de, A: Wire<'de, H>, B: Wire<'de, H>, H: Allocator + Copy> Wire<'de, H> for Both<A, B> {
    ghost is_value = { λ both. A.is_value both.0 × B.is_value both.1 };

    ghost good = { λ ctx both rest. A.good ctx.0 both.0 (seen A.Size.SIZE (B.bytes both.1 ++ rest))
        × B.good ctx.1 both.1 (seen B.Size.SIZE rest) };

    ghost kept = { λ both back. A.kept both.0 back.0 × B.kept both.1 back.1 };

    ghost takes_memory = { A.takes_memory ⊎ B.takes_memory };

    fn known(&self) {
        self.0.known();
        self.1.known();
    }

    ghost comes_back = { λ ctx both rest answer eaten value good read.
        both-back (λ back. back.0) (λ back. back.1) (Parses A.Size.SIZE (A.reads ctx.0))
        (Parses B.Size.SIZE (B.reads ctx.1)) (A.kept both.0) (B.kept both.1) A.takes_memory
        B.takes_memory (A.bytes both.0) (B.bytes both.1) rest
        (Parses-back A.Size.SIZE (A.reads ctx.0) (A.kept both.0) A.takes_memory (A.bytes both.0)
        (B.bytes both.1 ++ rest) (λ size stated. A.of_size both.0 size value.0 stated)
        (λ answer eaten read. A.comes_back ctx.0 both.0 _ answer eaten value.0 good.0 read))
        (Parses-back B.Size.SIZE (B.reads ctx.1) (B.kept both.1) B.takes_memory (B.bytes both.1)
        rest (λ size stated. B.of_size both.1 size value.1 stated)
        (λ answer eaten read. B.comes_back ctx.1 both.1 _ answer eaten value.1 good.1 read))
        answer eaten read };

    ghost of_size = { λ both size value stated. Prim.cc };
}
