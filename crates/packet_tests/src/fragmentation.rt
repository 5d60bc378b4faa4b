//! Streams cut in many ways, damaged at each byte and cut short: each run is compared with the
//! reference reading of the whole stream.

use std::alloc::Global;
use std::test::Fail;
use test_support::answers::Answer;
use test_support::case::{Case, Wanted};
use test_support::facts::{no_row, wrong_row};
use test_support::fixture::FILL;
use test_support::reference::{between, low_byte};
use wire_buf::lengths::MAX_PAYLOAD_LEN;

// The stream, cut after its byte number i + 1 where bit i of the number is set, and an empty piece
// after each piece where they are spaced. A piece that no memory is left for is missing, which no
// reading agrees with.
fn cut_by_bits<'a>(alloc: Global, stream: &'a [u8], bits: u32, spaced: bool) -> Vec<&'a [u8]> {
    let mut pieces = Vec::new(alloc);
    let mut start = 0usize;
    let mut bits = bits;
    for end in 1..stream.len().wrapping_add(1) {
        if bits % 2 == 1 || end == stream.len() {
            let _ = pieces.push(between(stream, start, end));
            start = end;
            if spaced {
                let _ = pieces.push(between(stream, start, start));
            }
        }
        bits /= 2;
    }
    pieces
}

fn cutting_agrees(alloc: Global, case: &Case, bits: u32, spaced: bool) -> bool {
    let pieces = cut_by_bits(alloc, case.stream, bits, spaced);
    case.agrees(alloc, b"", pieces.as_slice(), 0)
}

// Whether all cuttings of a stream into pieces that aren't empty are delivered as its reading says,
// and so are its single bytes with empty pieces between them.
fn all_cuttings_agree(alloc: Global, case: &Case, cuttings: u32) -> bool {
    let mut agree = cutting_agrees(alloc, case, u32::MAX, true);
    for bits in 0..cuttings {
        agree &= cutting_agrees(alloc, case, bits, false);
    }
    agree
}

// A stream from id 0 on, and what every one of this many cuttings of it must show.
#[derive(Clone, Copy)]
struct Row<'a> {
    stream: &'a [u8],
    cuttings: u32,
    limit: usize,
    wanted: Wanted<'a>,
    shown_at: usize,
}

fn is_shown(alloc: Global, row: Row<'_>) -> bool {
    match Case::new(alloc, 0, row.limit, row.stream) {
        Ok(case) => {
            let is_read = row.wanted.is_read(&case.reading);
            let is_at = case.reading.shown_at == row.shown_at;
            // A stream of n bytes is cut or not at n - 1 places.
            let places = (low_byte(row.stream.len()) as u32).wrapping_sub(1);
            let is_counted = 2u32.wrapping_pow(places) == row.cuttings;
            is_read & is_at & is_counted & all_cuttings_agree(alloc, &case, row.cuttings)
        }
        Err(_) => false,
    }
}

// A packet, and one of another id, whose header is whole with the ninth byte.
const FAULTY: &[u8] = b"\x01\0\0\0\x61\x03\0\0\x09\x62\x63\x64";
// It is not whole.
const SHORT: &[u8] = b"\x01\0\0\0\x61\x03\0\0\x09\x62";

const TOO_LARGE: Wanted<'static> = Wanted {
    packets: &[b"a"],
    answer: Answer::TooLarge,
    held: b"",
    left: 5,
};

const ROWS: &[Row] = &[
    Row {
        stream: b"\x01\0\0\0\x61\x01\0\0\x01\x62\0\0\0\x02",
        cuttings: 8192,
        limit: 1,
        wanted: Wanted {
            packets: &[b"a", b"b", b""],
            answer: Answer::Waits,
            held: b"",
            left: 14,
        },
        shown_at: usize::MAX,
    },
    Row {
        stream: FAULTY,
        cuttings: 2048,
        limit: 2,
        wanted: TOO_LARGE,
        shown_at: 9,
    },
    Row {
        stream: FAULTY,
        cuttings: 2048,
        limit: 3,
        wanted: Wanted {
            packets: &[b"a"],
            answer: Answer::OutOfSync,
            held: b"bcd",
            left: 12,
        },
        shown_at: 12,
    },
    Row {
        stream: SHORT,
        cuttings: 512,
        limit: 3,
        wanted: Wanted {
            packets: &[b"a"],
            answer: Answer::Waits,
            held: b"",
            left: 5,
        },
        shown_at: usize::MAX,
    },
    Row {
        stream: SHORT,
        cuttings: 512,
        limit: 2,
        wanted: TOO_LARGE,
        shown_at: 9,
    },
];

#[test]
fn all_cuttings_of_a_stream_agree(rt: HostRuntime) -> Result<(), Fail> {
    no_row(wrong_row(rt.alloc(), ROWS, is_shown))
}

// Whether a stream in three pieces agrees: in one run, with the first piece in `src`, and in two
// runs.
fn three_pieces_agree(alloc: Global, case: &Case, a: usize, b: usize) -> bool {
    let stream = case.stream;
    let first = between(stream, 0, a);
    let all = [
        first,
        between(stream, a, b),
        between(stream, b, stream.len()),
    ];
    let mut agree = true;
    for runs in 0..2 {
        agree &= case.agrees(alloc, b"", &all, runs);
        agree &= case.agrees(alloc, first, &all[1..], runs);
    }
    agree
}

// Whether a run over a stream cut at this place agrees, where it stops at the limit and goes on
// without one.
fn raised_agrees(alloc: Global, case: &Case, limit: usize, at: usize) -> bool {
    let pieces = [
        between(case.stream, 0, at),
        between(case.stream, at, case.stream.len()),
    ];
    case.agrees_raised(alloc, limit, &pieces)
}

// Whether a stream agrees, cut at any two places. The second case is of the same stream, without a
// limit.
fn each_cut_agrees(alloc: Global, case: &Case, unlimited: &Case) -> bool {
    let mut agree = true;
    for a in 0..=case.stream.len() {
        for b in a..=case.stream.len() {
            agree &= three_pieces_agree(alloc, case, a, b);
        }
        agree &= raised_agrees(alloc, unlimited, case.limit, a);
    }
    agree
}

fn case_agrees(alloc: Global, case: &Case) -> bool {
    match Case::new(alloc, case.first_id, usize::MAX, case.stream) {
        Ok(unlimited) => each_cut_agrees(alloc, case, &unlimited),
        Err(_) => false,
    }
}

fn agrees(alloc: Global, first_id: u8, limit: usize, stream: &[u8]) -> bool {
    match Case::new(alloc, first_id, limit, stream) {
        Ok(case) => case_agrees(alloc, &case),
        Err(_) => false,
    }
}

type Short = (u8, usize, &'static [u8]);

const SHORT_STREAMS: &[Short] = &[
    (0, 9, b"\x03\0\0\x00123\x01\0\0\x01\xff\0"),
    // Empty packets, and one of another id.
    (0, 0, b"\0\0\0\0\0\0\0\x01\0\0\0\x03\0\0\0\x02"),
    // Ids that pass 255, and a packet past the limit.
    (
        254,
        2,
        b"\x02\0\0\xfeab\0\0\0\xff\x02\0\0\0cd\x03\0\0\x01xyz",
    ),
    // A chunk of another id, within the limit and past it.
    (0, 4, b"\x02\0\0\x07\xaa\xbb\x01\0\0\0\x61"),
    (0, 1, b"\x02\0\0\x07\xaa\xbb\x01\0\0\0\x61"),
    // Payloads that look like headers.
    (
        0,
        8,
        b"\x04\0\0\0\x01\0\0\x01\x08\0\0\x01\0\0\0\x01\0\0\0\x02",
    ),
    // A length of three bytes.
    (7, usize::MAX, b"\0\0\0\x07\x03\x02\x01\x08abcdefgh"),
    (0, 9, b"\x09\0\0\0abcdefghi\x01\0"),
];

// Whether a stream agrees whose byte at this place is another one.
fn damaged_agrees(alloc: Global, row: Short, at: usize, byte: u8) -> bool {
    let (first_id, limit, bytes) = row;
    let mut stream = Vec::new(alloc);
    let _ = stream.extend_from_slice(between(bytes, 0, at));
    let _ = stream.push(byte);
    let _ = stream.extend_from_slice(between(bytes, at.saturating_add(1), bytes.len()));
    agrees(alloc, first_id, limit, stream.as_slice())
}

// Whether a stream agrees, whole, cut short at each place, and damaged there.
fn short_agrees(alloc: Global, row: Short) -> bool {
    let (first_id, limit, bytes) = row;
    let mut all = agrees(alloc, first_id, limit, bytes);
    for at in 0..bytes.len() {
        all &= agrees(alloc, first_id, limit, between(bytes, 0, at));
        for byte in [0, 1, 4, 255] {
            all &= damaged_agrees(alloc, row, at, byte);
        }
    }
    all
}

#[test]
fn streams_cut_at_any_two_places_agree(rt: HostRuntime) -> Result<(), Fail> {
    no_row(wrong_row(rt.alloc(), SHORT_STREAMS, short_agrees))
}

// A stream with full chunks, by its parts: these bytes, and this many bytes `42` after them; and what
// comes of it.
#[derive(Clone, Copy)]
struct Long<'a> {
    first_id: u8,
    parts: &'a [(&'a [u8], usize)],
    limit: usize,
    answer: Answer,
    packets: usize,
    held: usize,
}

impl Long<'_> {
    fn stream(&self, alloc: Global) -> Vec<u8> {
        let mut stream = Vec::new(alloc);
        for (bytes, count) in self.parts {
            let _ = stream.extend_from_slice(*bytes);
            let len = stream.len().saturating_add(*count);
            let _ = stream.resize(len, FILL);
        }
        stream
    }

    fn is_read(&self, case: &Case) -> bool {
        let is_answer = case.reading.answer == self.answer;
        let is_held = case.reading.held.len() == self.held;
        is_answer & is_held & (case.reading.packets.len() == self.packets)
    }
}

// Whether a stream cut near the headers agrees, in one run and in two.
fn all_agree_at(alloc: Global, case: &Case) -> bool {
    let mut all = true;
    for at in PLACES {
        let pieces = [
            between(case.stream, 0, *at),
            between(case.stream, *at, case.stream.len()),
        ];
        all &= case.agrees(alloc, b"", &pieces, 0) & case.agrees(alloc, b"", &pieces, 1);
    }
    all
}

// Whether a stream is read as it says, and agrees with its reading when it is cut.
fn long_agrees(alloc: Global, row: Long<'_>) -> bool {
    let stream = row.stream(alloc);
    match Case::new(alloc, row.first_id, row.limit, stream.as_slice()) {
        Ok(case) => row.is_read(&case) & all_agree_at(alloc, &case),
        Err(_) => false,
    }
}

// Near the headers.
const PLACES: &[usize] = &[
    0,
    1,
    4,
    5,
    10,
    SECOND,
    SECOND + 1,
    SECOND + 4,
    SECOND + 5,
    SECOND + 10,
    2 * SECOND,
    2 * SECOND + 1,
    2 * SECOND + 4,
    2 * SECOND + 5,
    2 * SECOND + 10,
];

// Where the second chunk's header begins, after a full chunk.
const SECOND: usize = MAX_PAYLOAD_LEN + 4;

const FULL: (&[u8], usize) = (b"\xff\xff\xff\0", MAX_PAYLOAD_LEN);

// A full chunk, and an empty one after it.
const ROW: Long = Long {
    first_id: 0,
    parts: &[FULL, (b"\0\0\0\x01", 0)],
    limit: MAX_PAYLOAD_LEN,
    answer: Answer::Waits,
    packets: 1,
    held: 0,
};

// It is held, and what is after it is not taken.
const HELD: Long = Long {
    packets: 0,
    held: MAX_PAYLOAD_LEN,
    ..ROW
};

const LONG: &[Long] = &[
    ROW,
    Long {
        limit: MAX_PAYLOAD_LEN - 1,
        answer: Answer::TooLarge,
        packets: 0,
        ..ROW
    },
    Long {
        parts: &[FULL, (b"\x01\0\0\x01", 1)],
        answer: Answer::TooLarge,
        ..HELD
    },
    // Two full chunks, and another packet.
    Long {
        parts: &[
            FULL,
            (b"\xff\xff\xff\x01", MAX_PAYLOAD_LEN),
            (b"\0\0\0\x02\x01\0\0\x03", 1),
        ],
        limit: 2 * MAX_PAYLOAD_LEN,
        packets: 2,
        ..ROW
    },
    // Ids that pass 255 inside a packet.
    Long {
        first_id: 254,
        parts: &[
            (b"\x02\0\0\xfeab\xff\xff\xff\xff", MAX_PAYLOAD_LEN),
            (b"\x01\0\0\0c\x01\0\0\x01", 1),
        ],
        limit: MAX_PAYLOAD_LEN + 1,
        packets: 3,
        ..ROW
    },
    // The first chunk's id is another one, and the second one's.
    Long {
        parts: &[(b"\xff\xff\xff\x01", MAX_PAYLOAD_LEN), (b"\0\0\0\x01", 0)],
        answer: Answer::OutOfSync,
        ..HELD
    },
    Long {
        parts: &[FULL, (b"\0\0\0\0", 0)],
        answer: Answer::OutOfSync,
        ..HELD
    },
    Long {
        parts: &[FULL, (b"\x02\0\0\x02", 2)],
        limit: usize::MAX,
        answer: Answer::OutOfSync,
        held: MAX_PAYLOAD_LEN + 2,
        ..HELD
    },
    // More of the second chunk than comes, and past the limit.
    Long {
        parts: &[FULL, (b"\x03\0\0\x01", 2)],
        limit: MAX_PAYLOAD_LEN + 3,
        ..HELD
    },
    Long {
        parts: &[FULL, (b"\x03\0\0\x01", 2)],
        limit: MAX_PAYLOAD_LEN + 2,
        answer: Answer::TooLarge,
        ..HELD
    },
];

#[test]
fn long_packets_cut_near_their_headers_agree(rt: HostRuntime) -> Result<(), Fail> {
    no_row(wrong_row(rt.alloc(), LONG, long_agrees))
}
