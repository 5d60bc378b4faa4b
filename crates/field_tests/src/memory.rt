// Fields that are written where memory is refused: whichever request is refused, the buffer is as it
// was before the field. Here are those that ask more than once: an owned text, a list, fields in a row.
// The forms of texts are tested so in `texts`, copies and pushes of lists by `facade_tests`.

use mysql_wire::misc::raw::bytes::{EofBytes, LenEnc};
use mysql_wire::misc::raw::int::{LeU16, LeU32};
use mysql_wire::misc::raw::seq::Seq;
use mysql_wire::misc::raw::{Both, RawBytes, RawInt};
use refusing_allocator::Refusing;
use std::alloc::Global;
use std::borrow::CowSlice;
use std::test::Fail;
use test_support::facts::all_hold;
use test_support::fields::is_refused_at_least;
use test_support::fixture::Heap;

type Row<'a> = Both<RawInt<LeU16>, Both<RawBytes<'a, LenEnc>, RawBytes<'a, EofBytes>>>;

// A list of numbers.
type List<'a> = Seq<'a, RawInt<LeU16>, LeU32, Global>;

// 40 numbers, after their count.
const NUMBERS: &[u8] =
    b"\x28\0\0\0BBBBBBBBBBBBBBBBBBBBBBBBBBBBBBBBBBBBBBBBBBBBBBBBBBBBBBBBBBBBBBBBBBBBBBBBBBBBBBBB";

// A number, a text of 40 bytes after its length, and a text to the end.
const ROW: &[u8] =
    b"\x02\x01\x28aaaaaaaaaaaaaaaaaaaaaaaaaaaaaaaaaaaaaaaabbbbbbbbbbbbbbbbbbbbbbbbbbbbbbbbbbbbbbbbbbbbbbbbbbbbbbbbbbbb";

// A row of three fields.
fn row<'a>(text: &'a [u8], end: &'a [u8]) -> Row<'a> {
    let texts = Both(RawBytes::from(text), RawBytes::from(end));
    Both(RawInt::new(258), texts)
}

fn is_row_refused(heap: &Heap) -> bool {
    is_refused_at_least(heap, &row(&[b'a'; 40], &[b'b'; 60]), ROW, 3)
}

// An element in the middle is refused too, and the second of two texts. An owned text is written
// like a borrowed one, and its own memory is another's.
fn are_refused(heap: &Heap, owned: &RawBytes<'_, LenEnc>, list: &List<'_>) -> [bool; 3] {
    let mut text = [b'a'; 201];
    text[0] = 0xc8;
    [
        is_refused_at_least(heap, owned, &text, 2),
        is_refused_at_least(heap, list, NUMBERS, 3),
        is_row_refused(heap),
    ]
}

#[test]
fn writers_leave_nothing_half_written(rt: HostRuntime) -> Result<(), Fail> {
    let owned = RawBytes::<LenEnc>::from(Vec::from_slice(rt.alloc(), &[b'a'; 200])?);
    let heap = &Refusing::new(rt.alloc(), 0);
    let items = [RawInt::<LeU16>::new(0x4242); 40];
    let list: List<'_> = Seq::new(CowSlice::Borrowed(&items));
    all_hold(&are_refused(heap, &owned, &list))
}
