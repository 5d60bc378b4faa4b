//! Payloads framed: short ones from each id, long ones by their headers; in one piece and in several,
//! as values, and as their bytes come.

use crate::framed::goes_as;
use bytes::Buf;
use std::alloc::Global;
use std::num::NonZeroUsize;
use std::test::Fail;
use test_support::answers::Answer;
use test_support::facts::{no_row, same, same_if_any, wrong_row};
use test_support::receiver::Receiver;
use test_support::reference::{between, chunk_count, low_byte, put_framing};
use test_support::targets::Trickle;
use wire_buf::lengths::MAX_PAYLOAD_LEN;

// What a payload must become, from its first id on, and the id after it.
#[derive(Clone, Copy)]
struct Framed<'a> {
    first_id: u8,
    bytes: &'a [u8],
    next_id: u8,
}

impl Framed<'_> {
    // Whether this packet becomes so, after what was there, and is emptied.
    fn is_made<T: Buf>(&self, alloc: Global, packet: &mut T) -> bool {
        let mut to = Receiver::holding(alloc, 0, b"ab");
        let is_framed = self.is_framed(&mut to, packet);
        is_framed & same_if_any(to.src.as_slice().strip_prefix(b"ab"), Some(self.bytes))
    }

    // Whether all of the packet is framed, up to this id.
    fn is_framed<T: Buf>(&self, to: &mut Receiver<Global>, packet: &mut T) -> bool {
        let is_next = match to.frame(self.first_id, packet) {
            Ok(id) => id == self.next_id,
            Err(_) => false,
        };
        is_next & (packet.remaining() == 0)
    }

    // Whether two packets, one after the other, become so.
    fn is_made_of_two<T: Buf + Drop>(&self, alloc: Global, front: T, back: T) -> bool {
        self.is_made(alloc, &mut front.chain(back))
    }

    // Whether a payload becomes so in one piece, in two, and in pieces of this many bytes.
    fn is_made_of_pieces(&self, alloc: Global, payload: &[u8], at: usize) -> bool {
        let (front, back) = payload.split_at(at.min(payload.len()));
        let empty = b"".as_slice();
        let step = NonZeroUsize::new(at).unwrap_or(NonZeroUsize::MIN);
        let mut trickle = Trickle {
            left: payload,
            step,
        };
        let mut whole = payload;
        let mut all = self.is_made(alloc, &mut whole);
        all &= self.is_made_of_two(alloc, empty.chain(front), empty.chain(back));
        all & self.is_made(alloc, &mut trickle)
    }

    // Whether the payload becomes so as a value under this limit. Where it doesn't, nothing is put.
    fn is_encoded(&self, alloc: Global, payload: &[u8], limit: usize) -> bool {
        let mut to = Receiver::new(alloc, limit);
        to.codec.set_sequence_id(self.first_id);
        let answer = to.encode_text(payload);
        let (wanted, next_id, bytes) = if limit < payload.len() {
            (Answer::TooLarge, self.first_id, b"".as_slice())
        } else {
            (Answer::Done, self.next_id, self.bytes)
        };
        (answer == wanted) & (to.codec.sequence_id() == next_id) & same(to.src.as_slice(), bytes)
    }
}

// Payloads, and what they become.
type Short = (&'static [u8], u8, &'static [u8], u8);

const SHORT: &[Short] = &[
    (b"", 0, b"\0\0\0\0", 1),
    (b"123", 0, b"\x03\0\0\x00123", 1),
    (b"ab", 7, b"\x02\0\0\x07ab", 8),
    (b"a", 254, b"\x01\0\0\xfea", 255),
    (b"", 255, b"\0\0\0\xff", 0),
    (b"\xff\0", 255, b"\x02\0\0\xff\xff\0", 0),
    (b"abcdefg", 3, b"\x07\0\0\x03abcdefg", 4),
];

fn is_short(alloc: Global, row: Short) -> bool {
    let (payload, first_id, bytes, next_id) = row;
    let framed = Framed {
        first_id,
        bytes,
        next_id,
    };
    let mut all = true;
    for at in 0..9 {
        all &= framed.is_made_of_pieces(alloc, payload, at);
    }
    all
}

#[test]
fn a_payload_stands_behind_its_header(rt: HostRuntime) -> Result<(), Fail> {
    no_row(wrong_row(rt.alloc(), SHORT, is_short))
}

// Bytes of which each neighbourhood is another one.
fn pattern(alloc: Global, len: usize) -> Vec<u8> {
    let mut bytes = Vec::new(alloc);
    for i in 0..len {
        let _ = bytes.push(low_byte((i / 251).wrapping_add(i)));
    }
    bytes
}

// A payload's length, the headers of its chunks from the id 254 on, and where it is cut.
type Length = (usize, &'static [u8], usize);

const LENGTHS: &[Length] = &[
    (0, b"\0\0\0\xfe", 1),
    (1, b"\x01\0\0\xfe", 1),
    (255, b"\xff\0\0\xfe", 1),
    (256, b"\0\x01\0\xfe", 255),
    (65535, b"\xff\xff\0\xfe", 256),
    (65536, b"\0\0\x01\xfe", 65535),
    (16777214, b"\xfe\xff\xff\xfe", 65536),
    (16777215, b"\xff\xff\xff\xfe\0\0\0\xff", 65536),
    // Pieces that end inside a chunk, and beside its end.
    (16777216, b"\xff\xff\xff\xfe\x01\0\0\xff", 16777215),
    (16777217, b"\xff\xff\xff\xfe\x02\0\0\xff", 16777214),
    (16777217, b"\xff\xff\xff\xfe\x02\0\0\xff", 16777216),
    (33554429, b"\xff\xff\xff\xfe\xfe\xff\xff\xff", 16777215),
    (
        33554430,
        b"\xff\xff\xff\xfe\xff\xff\xff\xff\0\0\0\0",
        10000000,
    ),
    (
        33554435,
        b"\xff\xff\xff\xfe\xff\xff\xff\xff\x05\0\0\0",
        16777216,
    ),
];

// Whether these headers stand in front of the chunks, and the bytes are this many.
fn has_headers(bytes: &[u8], headers: &[u8], len: usize) -> bool {
    let mut all = bytes.len() == len.wrapping_add(headers.len());
    let mut at = 0usize;
    for i in 0..headers.len() / 4 {
        let start = i.wrapping_mul(4);
        let header = between(headers, start, start.wrapping_add(4));
        all &= same(between(bytes, at, at.wrapping_add(4)), header);
        at = at.wrapping_add(MAX_PAYLOAD_LEN + 4);
    }
    all
}

// Whether a payload is framed so by each way.
fn agrees(alloc: Global, payload: &[u8], bytes: &[u8], at: usize) -> bool {
    let len = payload.len();
    let framed = Framed {
        first_id: 254,
        bytes,
        next_id: low_byte(chunk_count(len).wrapping_add(254)),
    };
    framed.is_made_of_pieces(alloc, payload, at)
        & framed.is_encoded(alloc, payload, len)
        & framed.is_encoded(alloc, payload, len.saturating_sub(1))
        & goes_as(alloc, payload, 1 << 20, bytes, framed.next_id)
        & goes_as(alloc, payload, usize::MAX, bytes, framed.next_id)
}

// Whether a payload of this many bytes has these headers, each byte in its place.
fn is_length(alloc: Global, row: Length) -> bool {
    let (len, headers, at) = row;
    let payload = pattern(alloc, len);
    let mut bytes = Vec::new(alloc);
    let _ = put_framing(&mut bytes, 254, payload.as_slice());
    (payload.len() == len)
        & has_headers(bytes.as_slice(), headers, len)
        & agrees(alloc, payload.as_slice(), bytes.as_slice(), at)
}

#[test]
fn each_length_has_its_chunks(rt: HostRuntime) -> Result<(), Fail> {
    no_row(wrong_row(rt.alloc(), LENGTHS, is_length))
}
