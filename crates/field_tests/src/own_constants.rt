// Constants of one's own: one that is written and read, and one that is read alone, which can't be
// copied.

ghost use Rattle.std.specs.Prelude.{◌≡◌};

use crate::at::{Refused, are_refused, is_at};
use mysql_wire::io::InvalidReason;
use mysql_wire::misc::raw::{Const, IntoNumber};
use std::alloc::Allocator;
use test_support::answers::Answer;
use test_support::fields::gives;
use test_support::fixture::Heap;

// A constant of one byte, with all that a field of it wants.
#[derive(Clone, Copy, PartialEq)]
struct Kind(u8);

impl Kind {
    const ROW: Kind = Kind(1);

    const END: Kind = Kind(254);
}

impl From<Kind> for u8 {
    ghost from_gives = { λ kind number. number ≡ kind.0 };

    fn from(kind: Kind) -> u8 {
        kind.0
    }
}

impl TryFrom<u8> for Kind {
    type Error = ();

    fn try_from(number: u8) -> Result<Self, ()> {
        match number {
            1 | 254 => Ok(Kind(number)),
            _ => Err(()),
        }
    }
}

impl IntoNumber<u8> for Kind {
    ghost number = { λ kind. kind.0 };

    ghost converts_to = { λ value val is. is };
}

// No copy of it can be made.
#[derive(Drop, PartialEq)]
pub struct Once(u8);

impl TryFrom<u8> for Once {
    type Error = ();

    fn try_from(number: u8) -> Result<Self, ()> {
        if number < 2 {
            Ok(Once(number))
        } else {
            Err(())
        }
    }
}

const UNKNOWN: Answer = Answer::Invalid(InvalidReason::UnknownValue);

const NO_KIND: &[Refused<()>] = &[
    ((), 0, b"\0\x01", UNKNOWN, 1),
    ((), 0, b"", Answer::UnexpectedEof, 0),
];

const NO_ONCE: &[Refused<()>] = &[((), 0, b"\x02\x01", UNKNOWN, 1)];

/// Whether they are.
pub fn are_read<A: Allocator + Copy>(heap: &Heap, alloc: A) -> bool {
    let row = Const::<Kind, u8>::new(Kind::ROW);
    let end = Const::<Kind, u8>::new(Kind::END);
    let once = Const::<Once, u8>::new(Once(1));
    let mut all = is_at(heap, alloc, &row, b"\x01\xfe", 1, NO_KIND);
    all &= is_at(heap, alloc, &end, b"\xfe\x01", 1, &[]);
    all &= gives(alloc, (), b"\x01\x02", &once, 1);
    all & are_refused::<Const<Once, u8>, (), A>(heap, alloc, Some(1), NO_ONCE)
}
