//! Worked examples of packets, whose values come from outside.

use bytes::BytesMut;
use mysql_wire::constants::MAX_PAYLOAD_LEN;
use mysql_wire::proto::codec::packet_to_chunks;
use std::alloc::Global;
use std::test::Fail;
use test_support::answers::{Answer, answered};
use test_support::facts::{all_hold, are_parts};
use test_support::fixture::FILL;
use test_support::receiver::Receiver;
use test_support::reference::low_byte;
use test_support::script::{Script, Step, play};

// One codec or decoder, from its first state on.
const EXAMPLES: &[Script] = &[
    Script {
        name: "a header, and then both its bytes at once",
        steps: &[
            Step::Src(b"\x02\0\0\0"),
            Step::Decode(Answer::Waits),
            Step::Held(b""),
            Step::Left(b"\x02\0\0\0"),
            Step::Comes(b"\xaa\xbb"),
            Step::Decode(Answer::Packet),
            Step::Held(b"\xaa\xbb"),
            Step::Left(b""),
        ],
    },
    Script {
        name: "a chunk of another id is taken once it is whole",
        steps: &[
            Step::Limit(4),
            Step::Src(b"\x02\0\0\x07\xaa"),
            Step::Decode(Answer::Waits),
            Step::Left(b"\x02\0\0\x07\xaa"),
            Step::Comes(b"\xbb"),
            Step::Decode(Answer::OutOfSync),
            Step::Held(b"\xaa\xbb"),
            Step::Left(b""),
            // The id was not raised.
            Step::Encode(b"", Answer::Done),
            Step::Left(b"\0\0\0\0"),
        ],
    },
    Script {
        name: "one codec decodes what it encoded",
        steps: &[
            Step::Encode(b"\x01", Answer::Done),
            Step::Decode(Answer::OutOfSync),
        ],
    },
    Script {
        name: "as many bytes are needed as a machine counts",
        steps: &[
            Step::Remember(Some((9, usize::MAX))),
            Step::Src(b"\0\0\0\0\x61"),
            Step::Chunk(usize::MAX, Answer::Waits),
            Step::Remembers(Some((9, usize::MAX))),
            Step::Left(b"\0\0\0\0\x61"),
            Step::Held(b""),
        ],
    },
    Script {
        name: "a remembered header is what counts",
        steps: &[
            Step::Remember(Some((9, 1))),
            Step::Src(b"\xff\xff\xff\xff\x61"),
            Step::Chunk(0, Answer::Last(9)),
            Step::Remembers(None),
            Step::Left(b""),
            Step::Held(b"a"),
        ],
    },
];

fn all_go(alloc: Global) -> Result<(), Fail> {
    play(alloc, EXAMPLES)
}

// The same under a limit that is met.
const LIMITS: &[Script] = &[
    Script {
        name: "five bytes at a limit of 4",
        steps: &[
            Step::Limit(4),
            Step::Src(b"\x05\0\0\x07"),
            Step::Decode(Answer::TooLarge),
            Step::Left(b"\x05\0\0\x07"),
            Step::Held(b""),
        ],
    },
    Script {
        name: "the limit is for the whole packet",
        steps: &[
            Step::Limit(MAX_PAYLOAD_LEN),
            Step::Src(b"\xff\xff\xff\0"),
            Step::ComesMany(MAX_PAYLOAD_LEN),
            Step::Comes(b"\x01\0\0\x01"),
            Step::Decode(Answer::TooLarge),
            Step::HeldMany(MAX_PAYLOAD_LEN),
            Step::Left(b"\x01\0\0\x01"),
            Step::Stands(true),
            // Only the chunk that was taken is in the growth.
            Step::Grew(1, MAX_PAYLOAD_LEN),
        ],
    },
    Script {
        name: "at limit 0 an empty packet passes, and no other",
        steps: &[
            Step::Limit(0),
            Step::Src(b"\0\0\0\0\x01\0\0\x01"),
            Step::Decode(Answer::Packet),
            Step::Held(b""),
            Step::Decode(Answer::TooLarge),
        ],
    },
    Script {
        name: "a byte more than the limit of a new codec",
        steps: &[
            Step::EncodeMany(4194305, Answer::TooLarge),
            Step::Left(b""),
            Step::Encode(b"", Answer::Done),
            Step::Left(b"\0\0\0\0"),
        ],
    },
];

fn all_stop(alloc: Global) -> Result<(), Fail> {
    play(alloc, LIMITS)
}

#[test]
fn each_example_succeeds_with_memory(rt: HostRuntime) -> Result<(), Fail> {
    all_go(rt.alloc())?;
    all_stop(rt.alloc())
}

// The numbers here are the protocol's own: three bytes of 255 are the most that a header states.
fn is_full_chunk_framed(alloc: Global) -> bool {
    let mut payload = Vec::new(alloc);
    let _ = payload.resize(16777215, FILL);
    let mut packet = payload.as_slice();
    let mut dst = BytesMut::new(alloc);
    let answer = answered(packet_to_chunks(255, &mut packet, &mut dst));
    let framed = [
        b"\xff\xff\xff\xff".as_slice(),
        payload.as_slice(),
        b"\0\0\0\0",
    ];
    (answer == Ok(1)) & are_parts(dst.as_slice(), framed)
}

fn are_two_packets_and_a_byte(alloc: Global) -> bool {
    let mut receiver = Receiver::new(alloc, 4194304);
    let run = receiver.deliver(&[b"\x03", b"\0\0", b"\x001", b"", b"23\x01\0\0\x01\xff\0"]);
    (run == (5, Answer::Waits)) & receiver.shows(&[b"123", b"\xff"], b"\0", b"")
}

// 257 empty packets; one that finds no memory is missing.
fn empty_packets(alloc: Global) -> Vec<u8> {
    let mut stream = Vec::new(alloc);
    for i in 0..257usize {
        let _ = stream.extend_from_slice(&[0, 0, 0, low_byte(i)]);
    }
    stream
}

// All of them are delivered, and the next id is after theirs.
fn ids_go_on_with_0_after_255(alloc: Global) -> bool {
    let stream = empty_packets(alloc);
    let mut receiver = Receiver::new(alloc, 0);
    let waits = receiver.deliver(&[stream.as_slice()]) == (1, Answer::Waits);
    waits & (receiver.out.len() == 257) & (receiver.codec.sequence_id() == 1)
}

#[test]
fn streams_are_framed_and_delivered(rt: HostRuntime) -> Result<(), Fail> {
    all_hold(&[
        is_full_chunk_framed(rt.alloc()),
        are_two_packets_and_a_byte(rt.alloc()),
        ids_go_on_with_0_after_255(rt.alloc()),
    ])
}
