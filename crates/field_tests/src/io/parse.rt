// The buffer that is read from its front, and the values that are read from it.

ghost use Rattle.std.specs.Prelude.{◌≡◌, take, Ok, IfErr};

use mysql_wire::io::{InvalidReason, ParseBuf, WireError};
use mysql_wire::proto::{Binary, Fixed, HasSize, MyDeserialize, Text};
use refusing_allocator::Refusing;
use std::alloc::{Allocator, Global};
use std::fmt::Debug;
use std::hash::Hash;
use std::io::Read;
use std::test::Fail;
use test_support::answers::{Answer, answered};
use test_support::facts::{all_hold, same};

/// Whether this text is eaten up to its zero, and this is left.
pub fn eats_null_str(input: &[u8], text: &[u8], left: &[u8]) -> bool {
    let mut buf = ParseBuf(input);
    same(buf.eat_null_str(), text) & same(buf.0, left)
}

// How many bytes a read into two gives, what then stands in these, and how many are left.
const READ: &[(usize, &[u8], usize)] = &[(2, b"ab", 1), (1, b"cb", 0), (0, b"cb", 0)];

fn read_gives_what_fits() -> bool {
    let mut buf = ParseBuf(b"abc");
    let mut front = [0; 2];
    let mut all = true;
    for (count, wanted, left) in READ {
        all &= matches!(buf.read(&mut front), Ok(read) if read == *count);
        all &= same(&front, *wanted) & (buf.len() == *left);
    }
    all
}

#[test]
fn reads_and_null_strs_are_eaten(_: HostRuntime) -> Result<(), Fail> {
    all_hold(&[
        read_gives_what_fits(),
        eats_null_str(b"a\0b", b"a", b"b"),
        eats_null_str(b"b", b"b", b""),
        eats_null_str(b"", b"", b""),
        eats_null_str(b"\0", b"", b""),
    ])
}

// Asks for four bytes and looks at two.
#[derive(Clone, Copy, PartialEq)]
struct Hasty(u16);

impl HasSize for Hasty {
    type Size = Fixed<4>;
}

impl<'de, A: Allocator + Copy> MyDeserialize<'de, A> for Hasty {
    ghost use Rattle.mysql_wire.specs.Numbers.{le_number};
    ghost use Rattle.mysql_wire.specs.Reading.{Answers, Through};

    type Ctx = ();

    ghost reads = { λ _ input. Through (λ hasty. hasty.0)
        (Answers (Ok (le_number (take 2 input)), 2)) };

    fn deserialize(_: A, _: (), buf: &mut ParseBuf<'de>) -> Result<Self, WireError> {
        Ok(Hasty(buf.eat_u16_le()))
    }
}

// Asks for four bytes and refuses them all, unseen.
#[derive(Clone, Copy, PartialEq)]
struct Refused;

impl HasSize for Refused {
    type Size = Fixed<4>;
}

impl<'de, A: Allocator + Copy> MyDeserialize<'de, A> for Refused {
    ghost use Rattle.mysql_wire.specs.Reading.{Answers};
    ghost use Rattle.mysql_wire.specs.WireError.TheVariants.{InvalidData};

    type Ctx = ();

    ghost reads = { λ _ _ answer eaten. IfErr answer (λ _. eaten ≡ 0) };

    fn deserialize(_: A, _: (), _: &mut ParseBuf<'de>) -> Result<Self, WireError> {
        Err(WireError::InvalidData(InvalidReason::UnknownValue))
    }
}

// Whether `parse` answers this, and leaves this of the input.
fn parses<'de, T: PartialEq + MyDeserialize<'de, Global>>(
    alloc: Global,
    ctx: T::Ctx,
    input: &'de [u8],
    wanted: Result<T, Answer>,
    left: &[u8],
) -> bool {
    let mut buf = ParseBuf(input);
    (answered(buf.parse::<T>(alloc, ctx)) == wanted) & same(buf.0, left)
}

// Whether a value is read with this memory.
fn is_read<'de, T, A>(alloc: A, ctx: T::Ctx, input: &'de [u8]) -> bool
where
    A: Allocator + Copy,
    T: MyDeserialize<'de, A>,
{
    ParseBuf(input).parse_in::<T, A>(alloc, ctx).is_ok()
}

fn are_read<A: Allocator + Copy>(alloc: A) -> bool {
    is_read::<ParseBuf<'_>, A>(alloc, 2, b"ab")
        & is_read::<[u8; 3], A>(alloc, (), b"abc")
        & is_read::<Hasty, A>(alloc, (), b"abcd")
}

// Copied and compared.
fn is_value<T: Copy + Eq + Hash + Debug>(marker: T) -> bool {
    let copy = marker;
    copy == marker
}

// What is looked at is two bytes, and what is eaten is the size, where it is there.
#[test]
fn parse_eats_the_size(rt: HostRuntime) -> Result<(), Fail> {
    let alloc = rt.alloc();
    let refused = Answer::Invalid(InvalidReason::UnknownValue);
    let eof = Answer::UnexpectedEof;
    let bytes = b"\x01\x02\x03\x04\x05".as_slice();
    let heap = Refusing::new(alloc, 0);
    let mut buf = ParseBuf(bytes);
    let unchecked = answered(buf.parse_unchecked::<Hasty>(alloc, ()));
    all_hold(&[
        parses::<Hasty>(alloc, (), bytes, Ok(Hasty(0x0201)), b"\x05"),
        parses::<Hasty>(alloc, (), b"abc", Err(eof), b"abc"),
        parses::<Refused>(alloc, (), bytes, Err(refused), b"\x05"),
        // Without a check what is looked at is eaten.
        (unchecked == Ok(Hasty(0x0201))) & (buf.len() == 3),
        // Buffers, and arrays.
        parses(alloc, 2, b"abc", Ok(ParseBuf(b"ab")), b"c"),
        parses::<ParseBuf<'_>>(alloc, 2, b"a", Err(eof), b"a"),
        parses(alloc, (), b"abcd", Ok(*b"abc"), b"d"),
        parses::<[u8; 3]>(alloc, (), b"ab", Err(eof), b"ab"),
        // None of these asks for memory.
        are_read(&heap) & (heap.left() == 0),
        is_value(Text) & is_value(Binary),
    ])
}
