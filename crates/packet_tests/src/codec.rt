//! Packets, one call of the codec at a time.

use std::alloc::Global;
use std::test::Fail;
use test_support::answers::Answer;
use test_support::facts::{no_row, wrong_row};
use test_support::reference::framed_len;
use test_support::script::{Script, Step, first_fault, play};
use wire_buf::lengths::MAX_PAYLOAD_LEN;

// What each call answers, takes and leaves.
const CALLS: &[Script] = &[
    Script {
        name: "a header is kept until its bytes come",
        steps: &[
            Step::Src(b"\x02\0\0\0"),
            Step::Decode(Answer::Waits),
            Step::Held(b""),
            Step::Left(b"\x02\0\0\0"),
            Step::Comes(b"\xaa"),
            Step::Decode(Answer::Waits),
            Step::Left(b"\x02\0\0\0\xaa"),
            Step::Comes(b"\xbb"),
            Step::Decode(Answer::Packet),
            Step::Held(b"\xaa\xbb"),
            Step::Left(b""),
        ],
    },
    Script {
        name: "a packet past the limit is left unread",
        steps: &[
            Step::Limit(4),
            // The limit comes before the id, and before the bytes.
            Step::Src(b"\x05\0\0\x07"),
            Step::Decode(Answer::TooLarge),
            Step::Held(b""),
            Step::Left(b"\x05\0\0\x07"),
            Step::Stands(true),
            Step::Decode(Answer::TooLarge),
            Step::Encode(b"12345", Answer::TooLarge),
            Step::Left(b"\x05\0\0\x07"),
            // A larger limit goes on at the same header.
            Step::Src(b"\x05\0\0\x0012345"),
            Step::Decode(Answer::TooLarge),
            Step::Limit(5),
            Step::Decode(Answer::Packet),
            Step::Held(b"12345"),
        ],
    },
    Script {
        name: "at limit 0 empty packets pass",
        steps: &[
            Step::Limit(0),
            Step::Src(b"\0\0\0\0\x01\0\0\x01"),
            Step::Decode(Answer::Packet),
            Step::Held(b""),
            Step::Left(b"\x01\0\0\x01"),
            Step::Decode(Answer::TooLarge),
            Step::Left(b"\x01\0\0\x01"),
            Step::Encode(b"", Answer::Done),
            Step::Left(b"\x01\0\0\x01\0\0\0\x01"),
            Step::Encode(b"a", Answer::TooLarge),
        ],
    },
    Script {
        name: "encoding and decoding share one id",
        steps: &[
            // What one codec encoded, it can't decode without a reset.
            Step::Encode(b"\x01", Answer::Done),
            Step::Decode(Answer::OutOfSync),
            Step::Fresh,
            Step::Dst(b""),
            Step::Src(b""),
            // A command, its answer, and a packet more.
            Step::Encode(b"", Answer::Done),
            Step::Left(b"\0\0\0\0"),
            Step::Src(b"\0\0\0\x01"),
            Step::Decode(Answer::Packet),
            Step::Encode(b"", Answer::Done),
            Step::Left(b"\0\0\0\x02"),
            // The next command.
            Step::Reset,
            Step::Src(b"\0\0\0\0\x01\0\0\x01\x61"),
            Step::Decode(Answer::Packet),
            Step::Decode(Answer::Packet),
            Step::Held(b"a"),
            // A refused packet raises nothing.
            Step::Limit(1),
            Step::Encode(b"ab", Answer::TooLarge),
            Step::Sync,
            Step::Encode(b"a", Answer::Done),
            Step::Left(b"\x01\0\0\x02\x61"),
        ],
    },
    Script {
        name: "bytes that are no chunk count for the limit",
        steps: &[
            Step::Dst(b"xyz"),
            Step::Src(b"\x02\0\0\0\xaa\xbb"),
            Step::Limit(4),
            Step::Decode(Answer::TooLarge),
            Step::Held(b"xyz"),
            Step::Left(b"\x02\0\0\0\xaa\xbb"),
            Step::Limit(5),
            Step::Decode(Answer::Packet),
            Step::Held(b"xyz\xaa\xbb"),
            Step::Left(b""),
        ],
    },
    Script {
        name: "an empty chunk ends a packet of full chunks",
        steps: &[
            Step::DstMany(MAX_PAYLOAD_LEN),
            Step::Src(b"\0\0\0\x01"),
            Step::Chunk(0, Answer::Last(1)),
            Step::Remembers(None),
            Step::Left(b""),
            Step::HeldMany(MAX_PAYLOAD_LEN),
        ],
    },
];

// A table of all of them costs its proof more than two.
const IDS: &[Script] = &[
    Script {
        name: "the id that is set is expected",
        steps: &[
            Step::Id(7),
            Step::Src(b"\x01\0\0\x07a"),
            Step::Decode(Answer::Packet),
            Step::Encode(b"", Answer::Done),
            Step::Left(b"\0\0\0\x08"),
            Step::Dst(b""),
            Step::Id(255),
            Step::Src(b"\0\0\0\xff"),
            Step::Decode(Answer::Packet),
            Step::Encode(b"", Answer::Done),
            Step::Left(b"\0\0\0\0"),
            Step::Id(7),
            Step::Src(b"\x01\0\0\x08a"),
            Step::Decode(Answer::OutOfSync),
            Step::Encode(b"", Answer::Done),
            Step::Left(b"\0\0\0\x07"),
        ],
    },
    Script {
        name: "the id that is set between two pieces",
        steps: &[
            // A header that has not come whole bears the id that is set last.
            Step::Id(7),
            Step::Src(b"\x01\0"),
            Step::Decode(Answer::Waits),
            Step::Id(9),
            Step::Comes(b"\0\x09a"),
            Step::Decode(Answer::Packet),
            // One that is remembered stays, with its own.
            Step::Dst(b""),
            Step::Id(7),
            Step::Src(b"\x01\0\0\x07"),
            Step::Decode(Answer::Waits),
            Step::Id(9),
            Step::Comes(b"a"),
            Step::Decode(Answer::OutOfSync),
            Step::Encode(b"", Answer::Done),
            Step::Left(b"\0\0\0\x09"),
        ],
    },
];

fn ids_that_are_set_are_expected(alloc: Global) -> Result<(), Fail> {
    play(alloc, IDS)
}

#[test]
fn each_call_goes_by_the_stream(rt: HostRuntime) -> Result<(), Fail> {
    play(rt.alloc(), CALLS)?;
    ids_that_are_set_are_expected(rt.alloc())
}

// Where a codec stands, and what it remembers.
const STANDING: &[Script] = &[
    Script {
        name: "a codec stands where its header is",
        steps: &[
            // Between two packets, and with nothing held.
            Step::StandsAt(b"", b"", true),
            Step::StandsAt(b"\x02\0\0", b"", true),
            Step::StandsAt(b"\x02\0\0\0", b"", true),
            Step::StandsAt(b"\xff\xff\xff\xff\x61", b"", true),
            Step::StandsAt(b"", b"a", false),
            // After a header.
            Step::Src(b"\x02\0\0\0"),
            Step::Decode(Answer::Waits),
            Step::Sync,
            Step::Stands(true),
            Step::StandsAt(b"\x02\0\0\0\x61\x62\x63", b"", true),
            Step::StandsAt(b"\x02\0\0", b"", false),
            Step::StandsAt(b"", b"", false),
            Step::StandsAt(b"\x03\0\0\0", b"", false),
            Step::StandsAt(b"\x02\x01\0\0", b"", false),
            Step::StandsAt(b"\x02\0\x01\0", b"", false),
            Step::StandsAt(b"\x02\0\0\x01", b"", false),
            Step::StandsAt(b"\x02\0\0\0", b"a", false),
            Step::Limit(2),
            Step::Stands(true),
            Step::Limit(1),
            Step::Stands(false),
            // The id that is expected has no part in it.
            Step::Limit(2),
            Step::Reset,
            Step::Stands(true),
        ],
    },
    Script {
        name: "full chunks that are held stand",
        steps: &[
            Step::Limit(MAX_PAYLOAD_LEN + 2),
            Step::Src(b"\xff\xff\xff\0"),
            Step::ComesMany(MAX_PAYLOAD_LEN),
            Step::Comes(b"\x02\0\0\x01"),
            Step::Decode(Answer::Waits),
            Step::HeldMany(MAX_PAYLOAD_LEN),
            Step::Left(b"\x02\0\0\x01"),
            Step::Stands(true),
            // The limit counts the bytes that are held.
            Step::Limit(MAX_PAYLOAD_LEN + 1),
            Step::Stands(false),
            Step::Comes(b"\x42\x42"),
            Step::Decode(Answer::Packet),
            Step::HeldMany(MAX_PAYLOAD_LEN + 2),
            Step::Stands(false),
        ],
    },
    Script {
        name: "a remembered header is not read again",
        steps: &[
            // The bytes in front were replaced.
            Step::Src(b"\x02\0\0\0"),
            Step::Decode(Answer::Waits),
            Step::Src(b"\xff\xff\xff\x09\x61\x62"),
            Step::Decode(Answer::Packet),
            Step::Held(b"ab"),
            Step::Left(b""),
            // The limit was lowered.
            Step::Fresh,
            Step::Dst(b""),
            Step::Src(b"\x02\0\0\0"),
            Step::Decode(Answer::Waits),
            Step::Limit(0),
            Step::Comes(b"\x61\x62"),
            Step::Decode(Answer::Packet),
            Step::Held(b"ab"),
            // The id was reset, and the header's is another one then.
            Step::Fresh,
            Step::Dst(b""),
            Step::Src(b"\0\0\0\0\x02\0\0\x01"),
            Step::Decode(Answer::Packet),
            Step::Decode(Answer::Waits),
            Step::Reset,
            Step::Comes(b"\x61\x62"),
            Step::Decode(Answer::OutOfSync),
            Step::Held(b"ab"),
        ],
    },
];

#[test]
fn a_codec_stands_where_it_stopped(rt: HostRuntime) -> Result<(), Fail> {
    play(rt.alloc(), STANDING)
}

// How often the target is asked for room, and for how much.
const GROWTHS: &[Script] = &[
    Script {
        name: "a packet of two full chunks grows once",
        steps: &[
            Step::Limit(2 * MAX_PAYLOAD_LEN),
            Step::Src(b"\xff\xff\xff\0"),
            Step::ComesMany(MAX_PAYLOAD_LEN),
            Step::Comes(b"\xff\xff\xff\x01"),
            Step::ComesMany(MAX_PAYLOAD_LEN),
            // Chunks of another packet are not in the growth.
            Step::Comes(b"\0\0\0\x02\x01\0\0\x03\x61"),
            Step::Decode(Answer::Packet),
            Step::HeldMany(2 * MAX_PAYLOAD_LEN),
            Step::Left(b"\x01\0\0\x03\x61"),
            Step::Grew(1, 2 * MAX_PAYLOAD_LEN),
        ],
    },
    Script {
        name: "a chunk of another id is in the growth",
        steps: &[
            Step::Limit(2 * MAX_PAYLOAD_LEN),
            Step::Src(b"\xff\xff\xff\0"),
            Step::ComesMany(MAX_PAYLOAD_LEN),
            Step::Comes(b"\x01\0\0\x05\x42"),
            Step::Decode(Answer::OutOfSync),
            Step::HeldMany(MAX_PAYLOAD_LEN + 1),
            Step::Left(b""),
            Step::Grew(1, MAX_PAYLOAD_LEN + 1),
            // The full chunk was accepted, and its id is passed.
            Step::Encode(b"", Answer::Done),
            Step::Left(b"\0\0\0\x01"),
        ],
    },
    Script {
        name: "a chunk that is not taken asks for no room",
        steps: &[
            Step::Src(b"\0\0\0\0"),
            Step::Decode(Answer::Packet),
            Step::Src(b"\x02\0\0"),
            Step::Decode(Answer::Waits),
            Step::Src(b"\x02\0\0\x01\x61"),
            Step::Decode(Answer::Waits),
            Step::Fresh,
            Step::Limit(1),
            Step::Src(b"\x02\0\0\0\x61\x62"),
            Step::Decode(Answer::TooLarge),
            Step::Grew(0, 0),
        ],
    },
    Script {
        name: "a short packet grows once, with another behind it",
        steps: &[
            Step::Src(b"\x02\0\0\0\xaa\xbb\x01\0\0\x01\x61"),
            Step::Decode(Answer::Packet),
            Step::Grew(1, 2),
            Step::Held(b"\xaa\xbb"),
            Step::Left(b"\x01\0\0\x01\x61"),
        ],
    },
    Script {
        name: "a short chunk of another id grows once",
        steps: &[
            Step::Src(b"\x02\0\0\x07\xaa\xbb\x01"),
            Step::Decode(Answer::OutOfSync),
            Step::Grew(1, 2),
            Step::Held(b"\xaa\xbb"),
            Step::Left(b"\x01"),
        ],
    },
    Script {
        name: "a remembered header says what is grown",
        steps: &[
            Step::Src(b"\x02\0\0\0"),
            Step::Decode(Answer::Waits),
            Step::Comes(b"\xaa"),
            Step::Decode(Answer::Waits),
            Step::Grew(0, 0),
            Step::Comes(b"\xbb\x01\0\0\x01\x61"),
            Step::Decode(Answer::Packet),
            Step::Grew(1, 2),
            Step::Left(b"\x01\0\0\x01\x61"),
            // The bytes in front were replaced, by a header that states more.
            Step::Fresh,
            Step::Dst(b""),
            Step::Src(b"\x02\0\0\0"),
            Step::Decode(Answer::Waits),
            Step::Src(b"\xff\xff\xff\x09\x61\x62\x63"),
            Step::Decode(Answer::Packet),
            Step::Grew(1, 2),
            Step::Held(b"ab"),
            Step::Left(b"c"),
        ],
    },
];

// And what more of it is grown.
const LATER_GROWTHS: &[Script] = &[
    Script {
        name: "a remembered full chunk and the next one grow at once",
        steps: &[
            Step::Limit(MAX_PAYLOAD_LEN + 2),
            Step::Src(b"\xff\xff\xff\0"),
            Step::Decode(Answer::Waits),
            Step::Grew(0, 0),
            Step::ComesMany(MAX_PAYLOAD_LEN),
            Step::Comes(b"\x02\0\0\x01\x42\x42\x01"),
            Step::Decode(Answer::Packet),
            Step::Grew(1, MAX_PAYLOAD_LEN + 2),
            Step::HeldMany(MAX_PAYLOAD_LEN + 2),
            Step::Left(b"\x01"),
        ],
    },
    Script {
        name: "each call grows by what it takes",
        steps: &[
            Step::Limit(MAX_PAYLOAD_LEN + 2),
            Step::Src(b"\xff\xff\xff\0"),
            Step::ComesMany(MAX_PAYLOAD_LEN),
            Step::Comes(b"\x02\0\0\x01\x42"),
            Step::Decode(Answer::Waits),
            Step::Grew(1, MAX_PAYLOAD_LEN),
            Step::Decode(Answer::Waits),
            Step::Grew(1, MAX_PAYLOAD_LEN),
            Step::Comes(b"\x42"),
            Step::Decode(Answer::Packet),
            Step::Grew(2, 2),
            Step::HeldMany(MAX_PAYLOAD_LEN + 2),
            Step::Left(b""),
        ],
    },
    Script {
        name: "chunks of ids that pass 255 are in the growth",
        steps: &[
            Step::Id(254),
            Step::Limit(usize::MAX),
            Step::Src(b"\xff\xff\xff\xfe"),
            Step::ComesMany(MAX_PAYLOAD_LEN),
            Step::Comes(b"\xff\xff\xff\xff"),
            Step::ComesMany(MAX_PAYLOAD_LEN),
            Step::Comes(b"\xff\xff\xff\0"),
            Step::ComesMany(MAX_PAYLOAD_LEN),
            Step::Comes(b"\x02\0\0\x01\x42\x42"),
            Step::Decode(Answer::Packet),
            Step::Grew(1, 3 * MAX_PAYLOAD_LEN + 2),
            Step::HeldMany(3 * MAX_PAYLOAD_LEN + 2),
            Step::Left(b""),
        ],
    },
    Script {
        name: "a chunk past the limit is not in the growth",
        steps: &[
            Step::Limit(MAX_PAYLOAD_LEN + 1),
            Step::Src(b"\xff\xff\xff\0"),
            Step::ComesMany(MAX_PAYLOAD_LEN),
            Step::Comes(b"\x02\0\0\x01\x42\x42"),
            Step::Decode(Answer::TooLarge),
            Step::Grew(1, MAX_PAYLOAD_LEN),
            Step::LeftMany(6),
        ],
    },
    Script {
        name: "a chunk behind one of another id is not in the growth",
        steps: &[
            Step::Limit(usize::MAX),
            Step::Src(b"\xff\xff\xff\x07"),
            Step::ComesMany(MAX_PAYLOAD_LEN),
            Step::Comes(b"\x02\0\0\x08\x42\x42"),
            Step::Decode(Answer::OutOfSync),
            Step::Grew(1, MAX_PAYLOAD_LEN),
            Step::LeftMany(6),
        ],
    },
    Script {
        name: "the next packet is not in the growth",
        steps: &[
            Step::Limit(usize::MAX),
            Step::Src(b"\xff\xff\xff\0"),
            Step::ComesMany(MAX_PAYLOAD_LEN),
            Step::Comes(b"\x02\0\0\x01\x42\x42\xff\xff\xff\x02"),
            Step::ComesMany(MAX_PAYLOAD_LEN),
            Step::Comes(b"\0\0\0\x03"),
            Step::Decode(Answer::Packet),
            Step::Grew(1, MAX_PAYLOAD_LEN + 2),
            Step::HeldMany(MAX_PAYLOAD_LEN + 2),
            Step::LeftMany(MAX_PAYLOAD_LEN + 8),
        ],
    },
];

fn later_calls_grow_once(alloc: Global) -> Result<(), Fail> {
    play(alloc, LATER_GROWTHS)
}

#[test]
fn a_call_grows_its_target_once(rt: HostRuntime) -> Result<(), Fail> {
    play(rt.alloc(), GROWTHS)?;
    later_calls_grow_once(rt.alloc())
}

const LONG: usize = 2 * MAX_PAYLOAD_LEN + 1;

// The target refuses to put what it took room for.
const PUTS: &[Script] = &[
    Script {
        name: "the first put is refused",
        steps: &[
            Step::Counting,
            Step::Limit(LONG),
            Step::EncodeMany(LONG, Answer::Done),
            Step::Reset,
            Step::RefusePut(0),
            Step::Decode(Answer::OutOfMemory),
            Step::HeldMany(0),
            Step::LeftMany(LONG + 12),
            Step::Stands(true),
            // The header is remembered.
            Step::Limit(0),
            Step::Stands(false),
            Step::Limit(LONG),
            Step::Decode(Answer::Packet),
            Step::HeldMany(LONG),
            Step::Left(b""),
        ],
    },
    Script {
        name: "the second put is refused",
        steps: &[
            Step::Counting,
            Step::Limit(LONG),
            Step::EncodeMany(LONG, Answer::Done),
            Step::Reset,
            Step::RefusePut(1),
            Step::Decode(Answer::OutOfMemory),
            // The chunk before it is held, and eaten.
            Step::HeldMany(MAX_PAYLOAD_LEN),
            Step::LeftMany(MAX_PAYLOAD_LEN + 9),
            Step::Stands(true),
            Step::Limit(0),
            Step::Stands(false),
            Step::Limit(LONG),
            Step::Decode(Answer::Packet),
            Step::HeldMany(LONG),
            Step::Left(b""),
        ],
    },
    Script {
        name: "the third put is refused",
        steps: &[
            Step::Counting,
            Step::Limit(LONG),
            Step::EncodeMany(LONG, Answer::Done),
            Step::Reset,
            Step::RefusePut(2),
            Step::Decode(Answer::OutOfMemory),
            Step::HeldMany(2 * MAX_PAYLOAD_LEN),
            Step::LeftMany(5),
            Step::Stands(true),
            Step::Limit(0),
            Step::Stands(false),
            Step::Limit(LONG),
            Step::Decode(Answer::Packet),
            Step::HeldMany(LONG),
            Step::Left(b""),
        ],
    },
    Script {
        name: "a single chunk's put is refused",
        steps: &[
            Step::Counting,
            Step::Src(b"\x02\0\0\x07ab"),
            Step::RefusePut(0),
            Step::Chunk(2, Answer::OutOfMemory),
            Step::Left(b"\x02\0\0\x07ab"),
            Step::Held(b""),
            Step::Remembers(Some((7, 2))),
            // It is not judged again.
            Step::Chunk(0, Answer::Last(7)),
            Step::Held(b"ab"),
        ],
    },
];

// The same of a packet of one chunk.
const SHORT_PUTS: &[Script] = &[
    Script {
        name: "the put of a short packet is refused",
        steps: &[
            Step::Counting,
            Step::Src(b"\x02\0\0\0ab\x01\0\0\x01c"),
            Step::RefusePut(0),
            Step::Decode(Answer::OutOfMemory),
            Step::Held(b""),
            Step::Left(b"\x02\0\0\0ab\x01\0\0\x01c"),
            Step::Stands(true),
            // The header is remembered.
            Step::Limit(0),
            Step::Stands(false),
            Step::Decode(Answer::Packet),
            Step::Held(b"ab"),
            Step::Left(b"\x01\0\0\x01c"),
        ],
    },
    Script {
        name: "the put of a short packet whose header is remembered is refused",
        steps: &[
            Step::Counting,
            Step::Src(b"\x02\0\0\0a"),
            Step::Decode(Answer::Waits),
            Step::Comes(b"b"),
            Step::RefusePut(0),
            Step::Decode(Answer::OutOfMemory),
            Step::Held(b""),
            Step::Left(b"\x02\0\0\0ab"),
            Step::Decode(Answer::Packet),
            Step::Held(b"ab"),
        ],
    },
    Script {
        name: "an empty packet is not put",
        steps: &[
            Step::Counting,
            Step::Src(b"\0\0\0\0"),
            Step::RefusePut(0),
            Step::Decode(Answer::Packet),
            Step::Held(b""),
            Step::Left(b""),
        ],
    },
];

#[test]
fn what_was_put_before_a_refusal_is_held(rt: HostRuntime) -> Result<(), Fail> {
    play(rt.alloc(), PUTS)
}

#[test]
fn a_put_of_a_short_packet_may_be_refused(rt: HostRuntime) -> Result<(), Fail> {
    play(rt.alloc(), SHORT_PUTS)
}

// A packet of this many bytes at this limit, which is not below.
fn passing(len: usize, limit: usize) -> [Step; 7] {
    [
        Step::Limit(limit),
        Step::EncodeMany(len, Answer::Done),
        Step::LeftMany(framed_len(len)),
        Step::Reset,
        Step::Decode(Answer::Packet),
        Step::HeldMany(len),
        Step::Left(b""),
    ]
}

// And at a limit of one byte less: then the chunk with its last byte is refused, this many bytes
// being held, and this many left.
fn refused(len: usize, held: usize, left: usize) -> [Step; 9] {
    let limit = len.saturating_sub(1);
    [
        Step::Limit(len),
        Step::EncodeMany(len, Answer::Done),
        Step::Reset,
        Step::Limit(limit),
        Step::Decode(Answer::TooLarge),
        Step::HeldMany(held),
        Step::Stands(true),
        Step::EncodeMany(len, Answer::TooLarge),
        Step::LeftMany(left),
    ]
}

fn goes_at_limits(alloc: Global, row: (usize, usize)) -> bool {
    let (len, held) = row;
    let eaten = held.saturating_add((held / MAX_PAYLOAD_LEN).saturating_mul(4));
    let left = framed_len(len).saturating_sub(eaten);
    let at = first_fault(alloc, &passing(len, len));
    let above = first_fault(alloc, &passing(len, len.saturating_add(1)));
    let below = first_fault(alloc, &refused(len, held, left));
    at.or(above).or(below).is_none()
}

// The lengths of packets, and how many bytes are held where the last chunk is refused.
const AT_LIMITS: &[(usize, usize)] = &[
    (1, 0),
    (2, 0),
    (MAX_PAYLOAD_LEN - 1, 0),
    (MAX_PAYLOAD_LEN, 0),
    (MAX_PAYLOAD_LEN + 1, MAX_PAYLOAD_LEN),
    (MAX_PAYLOAD_LEN + 2, MAX_PAYLOAD_LEN),
    (2 * MAX_PAYLOAD_LEN - 1, MAX_PAYLOAD_LEN),
    (2 * MAX_PAYLOAD_LEN, MAX_PAYLOAD_LEN),
    (2 * MAX_PAYLOAD_LEN + 1, 2 * MAX_PAYLOAD_LEN),
    (2 * MAX_PAYLOAD_LEN + 2, 2 * MAX_PAYLOAD_LEN),
];

#[test]
fn packets_pass_at_a_limit_of_their_length(rt: HostRuntime) -> Result<(), Fail> {
    no_row(wrong_row(rt.alloc(), AT_LIMITS, goes_at_limits))
}
