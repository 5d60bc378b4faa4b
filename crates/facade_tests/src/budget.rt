//! How much memory is asked for: the largest request of each call.

use bytes::BytesMut;
use mysql_wire::constants::MAX_PAYLOAD_LEN;
use mysql_wire::io::{ParseBuf, WireError};
use mysql_wire::misc::raw::RawInt;
use mysql_wire::misc::raw::int::{LeU32, LeU64, VarLen};
use mysql_wire::misc::raw::seq::{Seq, Unknown};
use mysql_wire::proto::codec::PacketCodec;
use mysql_wire::proto::{HasSize, MyDeserialize, Varying};
use refusing_allocator::{NEVER, Refusing};
use std::alloc::Allocator;
use std::test::Fail;
use test_support::answers::{Answer, error_of};
use test_support::facts::all_hold;
use test_support::fixture::Heap;

// Whether a list ends before the values that its count promises.
fn ends_early<'de, T, C, A>(alloc: A, ctx: C, input: &'de [u8]) -> bool
where
    A: Allocator + Copy,
    T: MyDeserialize<'de, A, Ctx = C>,
{
    let mut buf = ParseBuf(input);
    let answer: Result<T, WireError> = buf.parse_in(alloc, ctx);
    matches!(answer, Err(WireError::UnexpectedEof))
}

type List<'a, U, A> = Seq<'a, RawInt<VarLen>, U, A>;

// Counts that promise gigabytes: two values, of which each has a byte, stand after them.
fn hostile_counts_end<A: Allocator + Copy>(heap: &Heap, alloc: A) -> [bool; 5] {
    let four = b"\xff\xff\xff\xff\x01\x02";
    let eight = b"\0\0\0\0\x01\0\0\0\x01\x02";
    [
        ends_early::<List<'_, LeU32, A>, (), A>(alloc, (), four),
        ends_early::<List<'_, LeU64, A>, (), A>(alloc, (), eight),
        ends_early::<List<'_, Unknown, A>, usize, A>(alloc, usize::MAX, b"\x01\x02"),
        heap.largest() > 0,
        heap.largest() <= 65536,
    ]
}

#[test]
fn a_declared_count_takes_little_memory(rt: HostRuntime) -> Result<(), Fail> {
    let heap = Refusing::new(rt.alloc(), NEVER);
    all_hold(&hostile_counts_end(&heap, &heap))
}

// What a value holds in memory, whatever it has on the wire.
trait InMemory: Clone + Drop + 'static {
    fn of(byte: u8) -> Self;
}

impl InMemory for u8 {
    fn of(byte: u8) -> Self {
        byte
    }
}

impl InMemory for [u64; 3] {
    fn of(byte: u8) -> Self {
        [u64::from(byte); 3]
    }
}

impl InMemory for [u8; 2000] {
    fn of(byte: u8) -> Self {
        [byte; 2000]
    }
}

// A value of one byte, which is not 0, and without a size.
#[derive(Clone, Drop)]
struct Value<M: InMemory>(M);

impl<M: InMemory> HasSize for Value<M> {
    type Size = Varying;
}

impl<'de, A: Allocator + Copy, M: InMemory> MyDeserialize<'de, A> for Value<M> {
    ghost use Rattle.std.specs.Prelude.{◌≡◌, ◌≤◌, IfOk, IfErr};

    type Ctx = ();

    ghost reads = { λ _ _ answer eaten.
        IfOk answer (λ _. eaten ≡ 1) × IfErr answer (λ _. eaten ≤ 1) };

    fn deserialize(_: A, _: (), buf: &mut ParseBuf<'de>) -> Result<Self, WireError> {
        match buf.checked_eat_u8() {
            Some(0) => Err(WireError::UnexpectedEof),
            Some(byte) => Ok(Value(M::of(byte))),
            None => Err(WireError::UnexpectedEof),
        }
    }
}

// Why no value is read, if none is, and how many bytes are left.
fn read_of<'de, T, A>(alloc: A, input: &'de [u8]) -> (Option<Answer>, usize)
where
    A: Allocator + Copy,
    T: MyDeserialize<'de, A, Ctx = ()>,
{
    let mut buf = ParseBuf(input);
    let answer: Result<T, WireError> = buf.parse_in(alloc, ());
    (error_of(answer), buf.len())
}

type Values<'a, M, A> = Seq<'a, Value<M>, LeU32, A>;

// The same of a list of such values.
fn list_of<M: InMemory, A: Allocator + Copy>(alloc: A, input: &[u8]) -> (Option<Answer>, usize) {
    read_of::<Values<'_, M, A>, A>(alloc, input)
}

// Whether a count of 2^32 - 1 in front of three values asks for this many bytes at most.
fn asks_for_few<M: InMemory, A: Allocator + Copy>(heap: &Heap, alloc: A, most: usize) -> bool {
    heap.refuse(NEVER);
    let answer = list_of::<M, A>(alloc, b"\xff\xff\xff\xff\x01\x02\x03");
    (answer == (Some(Answer::UnexpectedEof), 0)) & (heap.largest() <= most)
}

// Whether such a count in front of many bytes, of which the first is no value, asks for this many
// bytes at most.
fn asks_for_the_first<M: InMemory, A: Allocator + Copy>(
    heap: &Heap,
    alloc: A,
    input: &[u8],
    most: usize,
) -> bool {
    heap.refuse(NEVER);
    let (why, _) = list_of::<M, A>(alloc, input);
    (why == Some(Answer::UnexpectedEof)) & (heap.largest() <= most)
}

// Those of eight values, and those of 64.
fn lists_ask_for_few<A: Allocator + Copy>(heap: &Heap, alloc: A, input: &[u8]) -> [bool; 6] {
    [
        asks_for_few::<u8, A>(heap, alloc, 8),
        asks_for_few::<[u64; 3], A>(heap, alloc, 192),
        asks_for_few::<[u8; 2000], A>(heap, alloc, 16_000),
        asks_for_the_first::<u8, A>(heap, alloc, input, 64),
        asks_for_the_first::<[u64; 3], A>(heap, alloc, input, 1536),
        asks_for_the_first::<[u8; 2000], A>(heap, alloc, input, 128_000),
    ]
}

#[test]
fn a_list_asks_for_no_more_than_may_be_there(rt: HostRuntime) -> Result<(), Fail> {
    let heap = Refusing::new(rt.alloc(), NEVER);
    let mut many = [0; 1004];
    many[..4].fill(0xff);
    all_hold(&lists_ask_for_few(&heap, &heap, &many))
}

// Whether a list of five values is read where room for all of them is refused, and not where room
// for one is.
fn first_room_is_a_hint<A: Allocator + Copy>(heap: &Heap, alloc: A) -> [bool; 3] {
    let five = b"\x05\0\0\0\x01\x02\x03\x04\x05";
    heap.refuse(0);
    let without_the_first = list_of::<[u8; 2000], A>(alloc, five);
    let is_refused = heap.has_refused();
    heap.refuse_above(1999);
    [
        is_refused,
        without_the_first == (None, 0),
        list_of::<[u8; 2000], A>(alloc, five) == (Some(Answer::OutOfMemory), 5),
    ]
}

#[test]
fn the_first_room_of_a_list_is_a_hint(rt: HostRuntime) -> Result<(), Fail> {
    let heap = Refusing::new(rt.alloc(), NEVER);
    all_hold(&first_room_is_a_hint(&heap, &heap))
}

// A full chunk with its header.
fn fill<A: Allocator + Copy>(src: &mut BytesMut<A>) -> bool {
    let header = src.extend_from_slice(b"\xff\xff\xff\0").is_ok();
    header & src.resize(4 + MAX_PAYLOAD_LEN, 0).is_ok()
}

// Whether a full chunk is decoded under a limit of 1 GiB, and room is taken for its payload alone.
fn full_chunk_is_decoded<A: Allocator + Copy>(heap: &Heap, alloc: A) -> bool {
    let mut src = BytesMut::new(alloc);
    let mut dst = Vec::new(alloc);
    let mut codec = PacketCodec::default();
    codec.max_allowed_packet = 1 << 30;
    let filled = fill(&mut src);
    heap.refuse(NEVER);
    let answer = Answer::of_decode(codec.decode(&mut src, &mut dst));
    let room = heap.largest() == MAX_PAYLOAD_LEN;
    filled & room & (answer == Answer::Waits) & (dst.len() == MAX_PAYLOAD_LEN)
}

// Whether a packet of 1 MiB is encoded, and room is taken for its framing alone.
fn packet_is_encoded<A: Allocator + Copy>(heap: &Heap, alloc: A, payload: &[u8]) -> bool {
    let mut dst = BytesMut::new(alloc);
    let mut codec = PacketCodec::default();
    let mut packet = payload;
    heap.refuse(NEVER);
    let answer = Answer::of_encode(codec.encode(&mut packet, &mut dst));
    let room = heap.largest() == 4 + 1048576;
    room & (answer == Answer::Done) & (dst.len() == 4 + 1048576)
}

// Both over the same allocator, which is looked at as one once.
fn packets_take_room<A: Allocator + Copy>(heap: &Heap, alloc: A, payload: &[u8]) -> [bool; 2] {
    [
        full_chunk_is_decoded(heap, alloc),
        packet_is_encoded(heap, alloc, payload),
    ]
}

#[test]
fn a_packet_takes_room_for_itself(rt: HostRuntime) -> Result<(), Fail> {
    let heap = Refusing::new(rt.alloc(), NEVER);
    let payload = Vec::from_elem(rt.alloc(), 7u8, 1048576)?;
    all_hold(&packets_take_room(&heap, &heap, payload.as_slice()))
}
