//! Values as packets, and packets as values.

use mysql_wire::misc::raw::Both;
use mysql_wire::misc::raw::bytes::{BytesRepr, EofBytes, RawBytes, U8Bytes};
use mysql_wire::misc::raw::int::{LeU16, LenEnc, RawInt};
use mysql_wire::proto::MySerialize;
use mysql_wire::proto::codec::{encode_value, parse_packet};
use mysql_wire_examples::values::{TransferError, send_and_read};
use refusing_allocator::NEVER;
use std::alloc::{Allocator, Global};
use std::borrow::CowSlice;
use std::test::Fail;
use test_support::answers::Answer;
use test_support::facts::{all_hold, same};
use test_support::fixture::Heap;
use test_support::receiver::Receiver;

// A number, a text after its length, and a text that takes the rest.
type Row<'a> = Both<RawInt<LeU16>, Both<RawBytes<'a, LenEnc>, RawBytes<'a, EofBytes>>>;

// What is answered where a value is put after the packets in `src`.
fn encode<T: MySerialize, A: Allocator + Copy>(to: &mut Receiver<A>, value: &T) -> Answer {
    Answer::of_encode(encode_value(&mut to.codec, value, &mut to.src))
}

fn encode_byte<A: Allocator + Copy>(to: &mut Receiver<A>, number: u8) -> Answer {
    encode(to, &RawInt::<u8>::new(number))
}

// A number of the bytes 2 and 3.
fn encode_two<A: Allocator + Copy>(to: &mut Receiver<A>) -> Answer {
    encode(to, &RawInt::<LeU16>::new(0x0302))
}

// Whether three numbers are three packets.
fn are_numbered(alloc: Global) -> bool {
    let mut to = Receiver::new(alloc, 4194304);
    let mut all = true;
    for number in 1..4u8 {
        all &= encode_byte(&mut to, number) == Answer::Done;
    }
    let wire = b"\x01\0\0\0\x01\x01\0\0\x01\x02\x01\0\0\x02\x03";
    all & same(to.src.as_slice(), wire)
}

// Whether the value lies in its payload.
fn is_borrowed<T: BytesRepr>(text: &RawBytes<'_, T>, bytes: &[u8]) -> bool {
    matches!(text.0, CowSlice::Borrowed(_)) & same(text.0.as_slice(), bytes)
}

// Whether a row is the number 1 and these texts, which borrow.
fn is_of(row: &Row<'_>, first: &[u8], second: &[u8]) -> bool {
    (row.0.0 == 1) & is_borrowed(&row.1.0, first) & is_borrowed(&row.1.1, second)
}

// Whether a row is read from its payload, and borrows from it, and nothing is left.
fn is_row(alloc: Global) -> bool {
    match parse_packet::<Row<'_>>(alloc, ((), ((), ())), b"\x01\0\x01ab") {
        Ok((row, rest)) => is_of(&row, b"a", b"b") & rest.is_empty(),
        Err(_) => false,
    }
}

// Whether the number 7 and the text `a` are read, and `ff` is left.
fn is_pair(alloc: Global) -> bool {
    let payload = b"\x07\x01a\xff";
    match parse_packet::<Both<RawInt<u8>, RawBytes<'_, U8Bytes>>>(alloc, ((), ()), payload) {
        Ok((pair, rest)) => (pair.0.0 == 7) & is_borrowed(&pair.1, b"a") & same(rest.0, b"\xff"),
        Err(_) => false,
    }
}

// Whether a row is these bytes.
fn is_row_put(alloc: Global) -> bool {
    let mut to = Receiver::new(alloc, 4194304);
    let texts = Both(
        RawBytes::new(CowSlice::Borrowed(b"a")),
        RawBytes::new(CowSlice::Borrowed(b"b")),
    );
    let row: Row<'_> = Both(RawInt::new(1), texts);
    let is_put = encode(&mut to, &row) == Answer::Done;
    is_put & same(to.src.as_slice(), b"\x05\0\0\0\x01\0\x01ab")
}

// Whether two bytes are refused under a limit of one, or where request number `nth` is, and the
// buffer and the id stay.
fn is_unchanged<A: Allocator + Copy>(heap: &Heap, alloc: A, limit: usize, nth: u64) -> bool {
    heap.refuse(NEVER);
    let mut to = Receiver::new(alloc, 4194304);
    let mut all = encode_byte(&mut to, 1) == Answer::Done;
    to.codec.max_allowed_packet = limit;
    heap.refuse(nth);
    all &= match encode_two(&mut to) {
        Answer::TooLarge => limit == 1,
        Answer::OutOfMemory => heap.has_refused(),
        _ => false,
    };
    all &= same(to.src.as_slice(), b"\x01\0\0\0\x01");
    heap.refuse(NEVER);
    to.codec.max_allowed_packet = 2;
    all &= encode_two(&mut to) == Answer::Done;
    all & same(to.src.as_slice(), b"\x01\0\0\0\x01\x02\0\0\x01\x02\x03")
}

/// Whether a refused value changes nothing: too large, or refused the payload's room, or the
/// buffer's.
pub fn are_unchanged<A: Allocator + Copy>(heap: &Heap, alloc: A) -> [bool; 3] {
    [
        is_unchanged(heap, alloc, 1, NEVER),
        is_unchanged(heap, alloc, 2, 0),
        is_unchanged(heap, alloc, 2, 1),
    ]
}

// Whether they are the same three texts.
fn are_same(answer: &Result<Vec<RawBytes<'_, EofBytes>>, TransferError>) -> bool {
    match answer {
        Ok(texts) => match texts.as_slice() {
            [first, second, third] => {
                is_borrowed(first, b"ab") & is_borrowed(second, b"") & is_borrowed(third, b"c")
            }
            _ => false,
        },
        Err(_) => false,
    }
}

fn text(bytes: &'static [u8]) -> RawBytes<'static, EofBytes> {
    RawBytes::new(CowSlice::Borrowed(bytes))
}

// Whether three texts come back over bytes that are cut there.
fn come_back(alloc: Global, cuts: (usize, usize)) -> bool {
    let mut packets = Vec::new(alloc);
    let texts = [text(b"ab"), text(b""), text(b"c")];
    are_same(&send_and_read(alloc, 2, &texts, cuts, &mut packets))
}

// Wherever they are cut.
fn come_back_wherever(alloc: Global) -> bool {
    let mut all = true;
    for first in 0..16 {
        for second in 0..16 {
            all &= come_back(alloc, (first, second));
        }
    }
    all
}

#[test]
fn values_are_packets_and_come_back(rt: HostRuntime) -> Result<(), Fail> {
    let alloc = rt.alloc();
    all_hold(&[
        are_numbered(alloc),
        is_row_put(alloc),
        is_row(alloc),
        // What follows a value is left.
        is_pair(alloc),
        come_back_wherever(alloc),
    ])
}
