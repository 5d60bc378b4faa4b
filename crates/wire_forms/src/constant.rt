//! Bytes that are always the same, or that say nothing.

ghost use Rattle.std.specs.Prelude.{ℕ, List, ◌<◌, ◌≤◌, ◌^◌, ◌≡◌, ◌∷◌, [], ◌++◌, ◌↔◌, length, take, drop, replicate, refl, IsTrue};
ghost use Rattle.wire_buf.specs.Numbers.{le_bytes};
ghost use Rattle.wire_buf.specs.NumberLemmas.{length-le_bytes};
ghost use Rattle.wire_buf.specs.Reading.{Reads};
ghost use Rattle.wire_forms.specs.Constants.{ReadsConst, ReadsAny, ReadsConst-back, ReadsAny-back, length-zeros};
ghost use Rattle.wire_repr.specs.Law.{size-is};

use bytes::BufMut;
use std::alloc::Allocator;
use std::marker::PhantomData;
use wire_buf::error::{InvalidReason, WireError};
use wire_buf::io::ParseBuf;
use wire_buf::proto::{Fixed, HasSize, MyDeserialize, MySerialize};
use wire_repr::append::{append, append_byte, append_le};
use wire_repr::wire::Wire;

// Eats this many bytes: whether they are these.
fn eat_same(count: usize, bytes: &[u8], buf: &mut ParseBuf<'_>) -> bool
    requires { count ≤ length buf.old.0.now }
    ensures same { IsTrue result ↔ take count buf.old.0.now ≡ bytes.now }
    ensures eaten { buf.new.0.now ≡ drop count buf.old.0.now }
{
    buf.eat(count) == bytes
}

/// The byte `N`. Another is refused as `ConstMismatch`, and has been eaten. `T` names what it
/// stands for.
///
/// As the first byte of an answer:
/// <https://dev.mysql.com/doc/dev/mysql-server/latest/page_protocol_basic_response_packets.html>
#[derive_where(Clone, Copy, Debug, PartialEq, Eq, Hash, Default)]
pub struct ConstU8<T, const N: u8>(PhantomData<T>);

impl<T, const N: u8> ConstU8<T, N> {
    pub fn new() -> Self {
        ConstU8(PhantomData)
    }

    pub fn value(&self) -> u8
        ensures { result ≡ N }
    {
        N
    }
}

impl<T, const N: u8> MySerialize for ConstU8<T, N> {
    ghost bytes = { λ _. N ∷ [] };

    fn serialize<A: Allocator>(&self, buf: &mut Vec<u8, A>) -> Result<(), WireError> {
        append_byte(N, buf)
    }
}

impl<T, const N: u8> HasSize for ConstU8<T, N> {
    type Size = Fixed<1>;
}

impl<'de, A: Allocator + Copy, T, const N: u8> MyDeserialize<'de, A> for ConstU8<T, N> {
    type Ctx = ();

    ghost reads = { λ _. ReadsConst 1 (N ∷ []) };

    fn deserialize(_: A, _: (), buf: &mut ParseBuf<'de>) -> Result<Self, WireError> {
        if eat_same(1, &[N], buf) {
            Ok(ConstU8(PhantomData))
        } else {
            Err(WireError::InvalidData(InvalidReason::ConstMismatch))
        }
    }
}

impl<'de, A: Allocator + Copy, T, const N: u8> Wire<'de, A> for ConstU8<T, N> {
    ghost is_value = { λ _. Unit {0} };

    ghost good = { λ _ _ _. Unit {0} };

    ghost kept = { λ _ _. Unit {0} };

    ghost takes_memory = { ⊥ };

    fn known(&self) {}

    ghost comes_back = { λ ctx value rest answer eaten is good read.
        ReadsConst-back 1 (N ∷ []) rest refl answer eaten read };

    ghost of_size = { λ value size is stated. size-is 1 size 1 stated refl };
}

/// Four bytes of the number `N`, the least significant first. Others are refused as
/// `ConstMismatch`, and have been eaten.
///
/// <https://dev.mysql.com/doc/dev/mysql-server/latest/page_protocol_basic_dt_integers.html>
#[derive_where(Clone, Copy, Debug, PartialEq, Eq, Hash, Default)]
pub struct ConstU32<T, const N: u32>(PhantomData<T>);

impl<T, const N: u32> ConstU32<T, N> {
    pub fn new() -> Self {
        ConstU32(PhantomData)
    }
}

impl<T, const N: u32> MySerialize for ConstU32<T, N> {
    ghost bytes = { λ _. le_bytes 4 N };

    fn serialize<A: Allocator>(&self, buf: &mut Vec<u8, A>) -> Result<(), WireError> {
        append_le(4, N as u64, buf)
    }
}

impl<T, const N: u32> HasSize for ConstU32<T, N> {
    type Size = Fixed<4>;
}

impl<'de, A: Allocator + Copy, T, const N: u32> MyDeserialize<'de, A> for ConstU32<T, N> {
    type Ctx = ();

    ghost reads = { λ _. ReadsConst 4 (le_bytes 4 N) };

    fn deserialize(_: A, _: (), buf: &mut ParseBuf<'de>) -> Result<Self, WireError> {
        if eat_same(4, &N.to_le_bytes(), buf) {
            Ok(ConstU32(PhantomData))
        } else {
            Err(WireError::InvalidData(InvalidReason::ConstMismatch))
        }
    }
}

impl<'de, A: Allocator + Copy, T, const N: u32> Wire<'de, A> for ConstU32<T, N> {
    ghost is_value = { λ _. Unit {0} };

    ghost good = { λ _ _ _. Unit {0} };

    ghost kept = { λ _ _. Unit {0} };

    ghost takes_memory = { ⊥ };

    fn known(&self) {}

    ghost comes_back = { λ ctx value rest answer eaten is good read.
        ReadsConst-back 4 (le_bytes 4 N) rest (length-le_bytes 4 N) answer eaten read };

    ghost of_size = { λ value size is stated.
        size-is 4 size (length (le_bytes 4 N)) stated (length-le_bytes 4 N) };
}

/// Which bytes a `ConstBytes` has, and the error that its own crate shows where there are others.
pub trait ConstBytesValue<const LEN: usize> {
    const VALUE: [u8; LEN];

    type Error;

    ghost VALUE: { List ℕ };

    ghost length_is: { length VALUE ≡ LEN };

    ghost fits: { LEN < 2 ^ 63 };
}

/// The bytes of `T`. Others are refused as `ConstMismatch`, and have been eaten.
///
/// A `string<fix>`:
/// <https://dev.mysql.com/doc/dev/mysql-server/latest/page_protocol_basic_dt_strings.html>
#[derive_where(Clone, Copy, Debug, PartialEq, Eq, Hash, Default)]
pub struct ConstBytes<T, const LEN: usize>(PhantomData<T>);

impl<T: ConstBytesValue<LEN>, const LEN: usize> MySerialize for ConstBytes<T, LEN> {
    ghost bytes = { λ _. T.ConstBytesValue.VALUE };

    fn serialize<A: Allocator>(&self, buf: &mut Vec<u8, A>) -> Result<(), WireError> {
        append(&T::VALUE, buf)
    }
}

impl<T: ConstBytesValue<LEN>, const LEN: usize> HasSize for ConstBytes<T, LEN> {
    type Size = Fixed<LEN>;
}

impl<'de, A: Allocator + Copy, T: ConstBytesValue<LEN>, const LEN: usize> MyDeserialize<'de, A>
    for ConstBytes<T, LEN> {
    type Ctx = ();

    ghost reads = { λ _. ReadsConst LEN T.ConstBytesValue.VALUE };

    fn deserialize(_: A, _: (), buf: &mut ParseBuf<'de>) -> Result<Self, WireError> {
        if eat_same(LEN, &T::VALUE, buf) {
            Ok(ConstBytes(PhantomData))
        } else {
            Err(WireError::InvalidData(InvalidReason::ConstMismatch))
        }
    }
}

impl<'de, A: Allocator + Copy, T: ConstBytesValue<LEN>, const LEN: usize> Wire<'de, A>
    for ConstBytes<T, LEN> {
    ghost is_value = { λ _. Unit {0} };

    ghost good = { λ _ _ _. Unit {0} };

    ghost kept = { λ _ _. Unit {0} };

    ghost takes_memory = { ⊥ };

    fn known(&self) {}

    ghost comes_back = { λ ctx value rest answer eaten is good read.
        ReadsConst-back LEN T.ConstBytesValue.VALUE rest T.ConstBytesValue.length_is answer eaten
        read };

    ghost of_size = { λ value size is stated.
        size-is LEN size (length T.ConstBytesValue.VALUE) stated T.ConstBytesValue.length_is };
}

/// `LEN` zeros. What is read in their place may be anything.
///
/// As the filler of a handshake:
/// <https://dev.mysql.com/doc/dev/mysql-server/latest/page_protocol_connection_phase_packets_protocol_handshake_response.html>
#[derive(Clone, Copy, Debug, PartialEq, Eq, PartialOrd, Ord, Hash, Default)]
pub struct Skip<const LEN: usize>;

impl<const LEN: usize> MySerialize for Skip<LEN> {
    ghost bytes = { λ _. replicate LEN 0 };

    fn serialize<A: Allocator>(&self, buf: &mut Vec<u8, A>) -> Result<(), WireError> {
        buf.put_bytes(0, LEN)?;
        Ok(())
    }
}

impl<const LEN: usize> HasSize for Skip<LEN> {
    type Size = Fixed<LEN>;
}

impl<'de, A: Allocator + Copy, const LEN: usize> MyDeserialize<'de, A> for Skip<LEN> {
    type Ctx = ();

    ghost reads = { λ _. ReadsAny LEN };

    fn deserialize(_: A, _: (), buf: &mut ParseBuf<'de>) -> Result<Self, WireError> {
        buf.skip(LEN);
        Ok(Skip)
    }
}

impl<'de, A: Allocator + Copy, const LEN: usize> Wire<'de, A> for Skip<LEN> {
    ghost is_value = { λ _. Unit {0} };

    ghost good = { λ _ _ _. Unit {0} };

    ghost kept = { λ _ _. Unit {0} };

    ghost takes_memory = { ⊥ };

    fn known(&self) {}

    ghost comes_back = { λ ctx value rest answer eaten is good read.
        ReadsAny-back LEN (length (replicate LEN 0)) (replicate LEN 0 ++ rest) (length-zeros LEN)
        answer eaten read };

    ghost of_size = { λ value size is stated.
        size-is LEN size (length (replicate LEN 0)) stated (length-zeros LEN) };
}
