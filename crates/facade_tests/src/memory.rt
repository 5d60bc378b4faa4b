//! What a call leaves when its first, second, third request for memory is refused, and so on, and
//! how it goes on. `test_support::requests` has a row for each call.

use bytes::BytesMut;
use mysql_wire::constants::MAX_PAYLOAD_LEN;
use mysql_wire::io::WireError;
use mysql_wire::proto::codec::{PacketCodec, PacketDst, packet_to_chunks};
use refusing_allocator::{NEVER, Refusing};
use std::alloc::{Allocator, Global};
use std::test::Fail;
use test_support::answers::Answer;
use test_support::case::{Case, Wanted};
use test_support::facts::{ensure, no_row, same, wrong_row};
use test_support::fixture::{Fixture, Heap};
use test_support::refused::deliver_refused;
use test_support::requests::wrong_of_all;
use test_support::script::{Script, Step};
use test_support::targets::Zeros;

// No run that a test makes asks so often.
const MOST: u64 = 100;

// Every call, with each of its requests refused in turn, or the next where it takes none.
#[test]
fn each_call_goes_on_after_a_refusal_or_asks_for_nothing(rt: HostRuntime) -> Result<(), Fail> {
    let heap = &Refusing::new(rt.alloc(), NEVER);
    match wrong_of_all(heap, heap) {
        None => Ok(()),
        Some(name) => Err(Fail::new(name)),
    }
}

// How much room a vector asks for, whether it is given, and how many requests may still come then.
const GROWTHS: &[(usize, bool, u64)] = &[
    (1000, true, 1),
    // A growth is one request, and what is given back is none.
    (10000, true, 0),
    (100000, false, u64::MAX),
    (100000, true, u64::MAX - 1),
];

fn is_grown<A: Allocator>(heap: &Heap, bytes: &mut Vec<u8, A>, growth: (usize, bool, u64)) -> bool {
    let (room, given, left) = growth;
    let is_given = bytes.reserve(room).is_ok() == given;
    let is_refused = heap.has_refused() == (heap.left() > NEVER);
    is_given & is_refused & (heap.left() == left)
}

// Whether a vector grows so, and keeps its byte.
fn are_grown<A: Allocator>(heap: &Heap, alloc: A) -> bool {
    let mut bytes = Vec::new(alloc);
    let mut good = bytes.push(b'a').is_ok();
    for growth in GROWTHS {
        good &= is_grown(heap, &mut bytes, *growth);
    }
    heap.refuse(0);
    good &= bytes.reserve(1000000).is_err() & heap.has_refused();
    good & same(bytes.as_slice(), b"a")
}

#[test]
fn the_request_of_this_number_is_refused(rt: HostRuntime) -> Result<(), Fail> {
    let heap = Refusing::new(rt.alloc(), 3);
    ensure(are_grown(&heap, &heap), "the requests")
}

// Whether a target takes room by one request, and is filled by none.
fn takes_room<T: PacketDst>(heap: &Heap, target: &mut T) -> bool {
    heap.refuse(NEVER);
    let is_taken = target.reserve(100).is_ok() & (heap.left() == NEVER - 1);
    is_taken & target.put_slice(&[7; 100]).is_ok() & (heap.left() == NEVER - 1)
}

fn targets_take_room<A: Allocator + Copy>(heap: &Heap, alloc: A) -> bool {
    let mut vec = Vec::new(alloc);
    let mut bytes = BytesMut::new(alloc);
    takes_room(heap, &mut vec) & takes_room(heap, &mut bytes)
}

#[test]
fn a_target_takes_the_room_that_it_is_asked_for(rt: HostRuntime) -> Result<(), Fail> {
    let heap = Refusing::new(rt.alloc(), NEVER);
    ensure(targets_take_room(&heap, &heap), "the room")
}

// A packet of ten bytes, and a byte after it.
const PACKET: &[u8] = b"\x0a\0\0\x000123456789\xff";

// Whether a payload whose framing no machine can hold is refused, and nothing is changed.
fn huge_refused(alloc: Global, len: usize) -> bool {
    let mut dst = BytesMut::new(alloc);
    let begins = dst.extend_from_slice(b"ab").is_ok();
    let mut packet = Zeros { left: len };
    let mut codec = PacketCodec::default();
    codec.max_allowed_packet = usize::MAX;
    let framed = packet_to_chunks(0, &mut packet, &mut dst);
    let encoded = Answer::of_encode(codec.encode(&mut packet, &mut dst));
    let unchanged = (packet.left == len) & same(dst.as_slice(), b"ab");
    let is_framed = matches!(framed, Err(WireError::OutOfMemory));
    begins & is_framed & (encoded == Answer::OutOfMemory) & unchanged
}

// This many bytes and their headers are just as many as a machine counts.
const COUNTED: usize = usize::MAX - 4398045724676;

// They are more than a machine counts, or just as many, or fewer.
const HUGE: &[usize] = &[
    usize::MAX,
    COUNTED + 1,
    COUNTED,
    usize::MAX / 2,
    usize::MAX / 4,
];

#[test]
fn a_payload_that_no_machine_can_frame_is_refused(rt: HostRuntime) -> Result<(), Fail> {
    no_row(wrong_row(rt.alloc(), HUGE, huge_refused))
}

const REFUSED: &[Script] = &[
    Script {
        name: "the one request of encode is refused",
        steps: &[
            Step::Encode(b"a", Answer::Done),
            Step::Refuse(0),
            Step::Encode(b"0123456789", Answer::OutOfMemory),
            Step::Refused(true),
            Step::Left(b"\x01\0\0\0\x61"),
            // The id is that of the one packet before.
            Step::Encode(b"0123456789", Answer::Done),
            Step::Left(b"\x01\0\0\0\x61\x0a\0\0\x010123456789"),
        ],
    },
    Script {
        name: "encode asks once",
        steps: &[
            Step::Encode(b"a", Answer::Done),
            Step::Refuse(1),
            Step::Encode(b"0123456789", Answer::Done),
            Step::Refused(false),
            Step::Unasked(0),
            Step::Left(b"\x01\0\0\0\x61\x0a\0\0\x010123456789"),
        ],
    },
    Script {
        name: "the one request of decode is refused",
        steps: &[
            Step::Src(PACKET),
            Step::Refuse(0),
            Step::Decode(Answer::OutOfMemory),
            Step::Refused(true),
            Step::Left(PACKET),
            Step::Held(b""),
            // The header is remembered: the codec stands at no other one.
            Step::Stands(true),
            Step::StandsAt(b"\x0a\0\0\x01", b"", false),
            Step::Decode(Answer::Packet),
            Step::Held(b"0123456789"),
            Step::Left(b"\xff"),
        ],
    },
    Script {
        name: "decode asks once",
        steps: &[
            Step::Src(PACKET),
            Step::Refuse(1),
            Step::Decode(Answer::Packet),
            Step::Refused(false),
            Step::Unasked(0),
            Step::Held(b"0123456789"),
            Step::Left(b"\xff"),
        ],
    },
    Script {
        name: "the growth for a second chunk is refused",
        steps: &[
            Step::Limit(2 * MAX_PAYLOAD_LEN),
            Step::Src(b"\xff\xff\xff\0"),
            Step::ComesMany(MAX_PAYLOAD_LEN),
            Step::Decode(Answer::Waits),
            Step::Comes(b"\xff\xff\xff\x01"),
            Step::ComesMany(MAX_PAYLOAD_LEN),
            Step::Refuse(0),
            Step::Decode(Answer::OutOfMemory),
            Step::Refused(true),
            Step::HeldMany(MAX_PAYLOAD_LEN),
            Step::LeftMany(MAX_PAYLOAD_LEN + 4),
            Step::Stands(true),
            Step::Decode(Answer::Waits),
            Step::HeldMany(2 * MAX_PAYLOAD_LEN),
        ],
    },
];

// As `first_fault`, over an allocator that refuses, with the targets that take its memory.
fn refused_fault(alloc: Global, steps: &[Step]) -> Option<usize> {
    let heap = Refusing::new(alloc, NEVER);
    fault_over(&heap, &heap, steps)
}

fn fault_over<A: Allocator + Copy>(heap: &Heap, alloc: A, steps: &[Step]) -> Option<usize> {
    let vec = Fixture::new(alloc, Some(heap), Vec::new(alloc)).fault(steps);
    heap.refuse(NEVER);
    let bytes = Fixture::new(alloc, Some(heap), BytesMut::new(alloc)).fault(steps);
    vec.or(bytes)
}

#[test]
fn a_refused_call_goes_on(rt: HostRuntime) -> Result<(), Fail> {
    for script in REFUSED {
        script.ends(refused_fault(rt.alloc(), script.steps))?;
    }
    Ok(())
}

// Two packets and the front of a third.
const TWO: &[u8] = b"\x03\0\0\x00123\x01\0\0\x01\xff\0";

const TWO_PIECES: &[&[u8]] = &[b"\x03", b"\0\0", b"\x001", b"", b"23\x01\0\0\x01\xff\0"];

const TWO_READ: Wanted<'static> = Wanted {
    packets: &[b"123", b"\xff"],
    answer: Answer::Waits,
    held: b"",
    left: 12,
};

// How many requests of a delivery can be refused, each in a run of its own.
fn refusal_count(alloc: Global, case: &Case, pieces: &[&[u8]]) -> Option<u64> {
    for nth in 0..MOST {
        match deliver_refused(alloc, case, pieces, nth, false) {
            Some(0) => return Some(nth),
            Some(_) => {}
            None => return None,
        }
    }
    None
}

#[test]
fn deliver_refused_goes_on(rt: HostRuntime) -> Result<(), Fail> {
    let case = Case::new(rt.alloc(), 0, 4194304, TWO)?;
    let read = TWO_READ.is_read(&case.reading);
    let one = refusal_count(rt.alloc(), &case, TWO_PIECES);
    let many = deliver_refused(rt.alloc(), &case, TWO_PIECES, 0, true);
    // Several requests are refused, each in a run of its own and all in one.
    let several = (one > Some(3)) & (many > Some(2));
    ensure(read & several, "the delivery")
}
