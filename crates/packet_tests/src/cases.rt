//! The cases of the Rust crate's own tests, under the licence in `LICENSE-mysql_common`, at the top of
//! the repository.

use mysql_wire::constants::MAX_PAYLOAD_LEN;
use mysql_wire::io::ParseBuf;
use mysql_wire::misc::split_version;
use std::alloc::Global;
use std::test::Fail;
use test_support::answers::Answer;
use test_support::facts::{all_hold, ensure, same};
use test_support::fixture::{Fixture, is_filled};
use test_support::script::{Script, Step, play};

const ZEROS: [u8; 1024] = [0; 1024];

const CASES: &[Script] = &[
    Script {
        name: "zero_len_packet",
        steps: &[
            Step::Encode(b"", Answer::Done),
            Step::Left(b"\0\0\0\0"),
            Step::Fresh,
            Step::Decode(Answer::Packet),
            Step::Held(b""),
            Step::Left(b""),
            // The id was raised.
            Step::Encode(b"", Answer::Done),
            Step::Left(b"\0\0\0\x01"),
        ],
    },
    Script {
        name: "regular_packet",
        steps: &[
            Step::Encode(b"123", Answer::Done),
            Step::Left(b"\x03\0\0\x00123"),
            Step::Fresh,
            Step::Decode(Answer::Packet),
            Step::Held(b"123"),
            Step::Left(b""),
        ],
    },
    Script {
        name: "out_of_sync",
        steps: &[
            Step::Src(b"\0\0\0\x01"),
            Step::Decode(Answer::OutOfSync),
            Step::Held(b""),
            Step::Left(b""),
            // The id was not raised.
            Step::Encode(b"", Answer::Done),
            Step::Left(b"\0\0\0\0"),
        ],
    },
    Script {
        name: "packet_too_large",
        steps: &[
            Step::Comes(b"ab"),
            Step::EncodeMany(4194305, Answer::TooLarge),
            Step::Left(b"ab"),
            Step::Src(b""),
            Step::EncodeMany(4194304, Answer::Done),
            Step::LeftMany(4194308),
            Step::Reset,
            Step::Decode(Answer::Packet),
            Step::HeldMany(4194304),
        ],
    },
];

#[test]
fn each_case_goes_as_it_says(rt: HostRuntime) -> Result<(), Fail> {
    play(rt.alloc(), CASES)
}

// Whether a packet through one buffer, from one codec to another, comes out as it went in.
fn passes(sender: &mut Ends, receiver: &mut Ends, packet: &[u8]) -> bool {
    receiver.dst.clear();
    let sent = sender.encode(packet) == Answer::Done;
    std::mem::swap(&mut sender.src, &mut receiver.src);
    let whole = receiver.decode() == Answer::Packet;
    sent & whole & same(receiver.dst.as_slice(), packet) & receiver.src.is_empty()
}

type Ends = Fixture<'static, Global, Vec<u8>>;

#[test]
fn packet_sequence(rt: HostRuntime) -> Result<(), Fail> {
    let alloc = rt.alloc();
    let mut sender = Fixture::new(alloc, None, Vec::new(alloc));
    let mut receiver = Fixture::new(alloc, None, Vec::new(alloc));
    let mut good = true;
    for len in 0..1024usize {
        good &= passes(&mut sender, &mut receiver, &ZEROS[..len]);
    }
    ensure(good, "each packet comes out as it went in")
}

// Whether packets of these lengths are encoded by one codec as this many bytes, and decoded from them
// by another.
fn are_passed_together(
    sender: &mut Ends,
    receiver: &mut Ends,
    lens: &[usize],
    bytes: usize,
) -> bool {
    let mut all = true;
    for len in lens {
        all &= sender.encode_many(*len) == Answer::Done;
    }
    all &= sender.src.len() == bytes;
    std::mem::swap(&mut sender.src, &mut receiver.src);
    for len in lens {
        receiver.dst.clear();
        all &= receiver.decode() == Answer::Packet;
        all &= is_filled(receiver.dst.as_slice(), *len);
    }
    all & receiver.src.is_empty()
}

#[test]
fn large_packets(rt: HostRuntime) -> Result<(), Fail> {
    let alloc = rt.alloc();
    let mut sender = Fixture::new(alloc, None, Vec::new(alloc));
    let mut receiver = Fixture::new(alloc, None, Vec::new(alloc));
    sender.codec.max_allowed_packet = 2 * MAX_PAYLOAD_LEN;
    receiver.codec.max_allowed_packet = 2 * MAX_PAYLOAD_LEN;
    let lens = [MAX_PAYLOAD_LEN, MAX_PAYLOAD_LEN + 1, 2 * MAX_PAYLOAD_LEN];
    let bytes = 4 * MAX_PAYLOAD_LEN + 29;
    let good = are_passed_together(&mut sender, &mut receiver, &lens, bytes);
    // Two chunks, two, and three.
    all_hold(&[good, receiver.codec.sequence_id() == 7])
}

#[test]
fn be_le(_: HostRuntime) -> Result<(), Fail> {
    all_hold(&[
        ParseBuf(b"\0\x01\x02").eat_u24_le() == 0x02_0100,
        ParseBuf(b"\0\x01\x02").eat_u24_be() == 0x00_0102,
        ParseBuf(b"\0\x01\x02\x03\x04").eat_u40_le() == 0x04_0302_0100,
        ParseBuf(b"\0\x01\x02\x03\x04").eat_u40_be() == 0x00_0102_0304,
        ParseBuf(b"\0\x01\x02\x03\x04\x05").eat_u48_le() == 0x0504_0302_0100,
        ParseBuf(b"\0\x01\x02\x03\x04\x05").eat_u48_be() == 0x0001_0203_0405,
        ParseBuf(b"\0\x01\x02\x03\x04\x05\x06").eat_u56_le() == 0x06_0504_0302_0100,
        ParseBuf(b"\0\x01\x02\x03\x04\x05\x06").eat_u56_be() == 0x00_0102_0304_0506,
    ])
}

#[test]
fn should_split_version(_: HostRuntime) -> Result<(), Fail> {
    all_hold(&[
        split_version(b"1.2.3") == (1, 2, 3),
        split_version(b"10.20.30foo") == (10, 20, 30),
        split_version(b"100.200.300foo") == (0, 0, 0),
        split_version(b"100.200foo") == (0, 0, 0),
        split_version(b"1.2") == (0, 0, 0),
        split_version(b"1") == (0, 0, 0),
        split_version(b"1.2.3.4") == (1, 2, 3),
        split_version(b"1,2.3") == (0, 0, 0),
        split_version(b"+1.-0.3") == (1, 0, 3),
    ])
}
