//! The functions of the packet codec that take memory. Each is called again after a refusal, and
//! then does what it does where none comes.

use crate::answers::Answer;
use crate::facts::{are_parts, same};
use crate::fixture::{Fixture, Heap};
use crate::packets::{Outlet, Source};
use crate::receiver::{Receiver, Run, Tally, pieces_from};
use crate::requests::{Call, Row, copies};
use bytes::{Buf, BytesMut};
use refusing_allocator::NEVER;
use std::alloc::Allocator;
use wire_codec::codec::PacketDst;

/// What runs over pieces.
#[derive(Clone, Copy)]
pub enum Runner {
    Deliver,
    DeliverEach,
    DeliverLimited,
    DeliverEachLimited,
}

pub const ROWS: &[Row] = &[
    ("packet_to_chunks", Call::PacketToChunks, 1),
    ("packet_to_chunks", Call::PiecesToChunks, 1),
    ("PacketCodec::encode", Call::Encode, 1),
    ("encode_value", Call::EncodeValue, 2),
    ("PacketWriter::queue", Call::Queue, 1),
    ("ChunkDecoder::decode", Call::ChunkDecode, 1),
    ("PacketCodec::decode", Call::Decode, 1),
    ("PacketDst::reserve", Call::Reserve, 1),
    ("PacketDst::put_slice", Call::PutSlice, 1),
    ("deliver", Call::Deliver(Runner::Deliver), 6),
    ("deliver_each", Call::Deliver(Runner::DeliverEach), 3),
    ("deliver_limited", Call::Deliver(Runner::DeliverLimited), 6),
    (
        "deliver_each_limited",
        Call::Deliver(Runner::DeliverEachLimited),
        3,
    ),
    ("PacketReader::next_packet", Call::Read(Way::Next), 2),
    ("PacketReader::fill_packet", Call::Read(Way::Fill), 1),
    ("PacketReader::skip_packet", Call::Read(Way::Skip), 1),
    ("PacketReader::copy_packet", Call::Read(Way::Copy), 1),
    ("PacketReader::relay_packet", Call::Read(Way::Relay), 3),
];

// More than a buffer has room for that holds a few bytes.
const LEN: usize = 200;

const TEXT: &[u8] = &[b'a'; LEN];

const HEADER: &[u8] = b"\xc8\0\0\0";

// Two bytes and, after them, a header and the two pieces of a packet.
const FRAMED: [&[u8]; 3] = [b"ab\xc8\0\0\0", TEXT, b""];

const FRAMED_FROM_255: [&[u8]; 3] = [b"ab\x05\0\0\xff", b"123", b"45"];

// ---- framing

// A receiver whose `src` holds two bytes, with little room after them.
fn begun<A: Allocator + Copy>(heap: &Heap, alloc: A) -> Receiver<A> {
    heap.refuse(NEVER);
    Receiver::holding(alloc, LEN, b"ab")
}

// What frames a packet, or a value: by itself from an id on, or as a codec's first packet.
#[derive(Clone, Copy)]
enum Framing {
    Chunks(u8),
    Packet,
    Value,
}

fn frame_once<A, T>(to: &mut Receiver<A>, packet: &mut T, framing: Framing) -> Answer
where
    A: Allocator + Copy,
    T: Buf,
{
    match framing {
        Framing::Chunks(id) => match to.frame(id, packet) {
            Ok(next) if next == id.wrapping_add(1) => Answer::Done,
            Err(Answer::OutOfMemory) => Answer::OutOfMemory,
            _ => Answer::Wrong,
        },
        Framing::Packet => Answer::of_encode(to.codec.encode(packet, &mut to.src)),
        Framing::Value => to.encode_text(TEXT),
    }
}

// Whether a packet, or a value, was refused, and neither it nor the buffer is changed; it is then
// framed by one chunk. The parts are what the buffer holds in the end: `ab` with the header, and
// the packet's pieces.
fn frames<A, T>(
    heap: &Heap,
    to: &mut Receiver<A>,
    packet: &mut T,
    framing: Framing,
    (parts, nth): ([&[u8]; 3], u64),
) -> Option<bool>
where
    A: Allocator + Copy,
    T: Buf,
{
    let len = packet.remaining();
    heap.refuse(nth);
    let mut answer = frame_once(to, packet, framing);
    let refused = answer == Answer::OutOfMemory;
    let mut all = true;
    if refused {
        all &= same(to.src.as_slice(), b"ab");
        all &= same(packet.chunk(), parts[1]) & (packet.remaining() == len);
        answer = frame_once(to, packet, framing);
    }
    let is_value = matches!(framing, Framing::Value);
    all &= (answer == Answer::Done) & ((packet.remaining() == 0) != is_value);
    (all & are_parts(to.src.as_slice(), parts)).then_some(refused)
}

// The same of a packet of one piece, and of two.
fn frames_text<A>(heap: &Heap, alloc: A, framing: Framing, nth: u64) -> Option<bool>
where
    A: Allocator + Copy,
{
    let mut packet = TEXT;
    let mut to = begun(heap, alloc);
    frames(heap, &mut to, &mut packet, framing, (FRAMED, nth))
}

fn frames_pieces<A: Allocator + Copy>(heap: &Heap, alloc: A, nth: u64) -> Option<bool> {
    let [_, first, second] = FRAMED_FROM_255;
    let mut packet = first.chain(second);
    let mut to = begun(heap, alloc);
    let framing = Framing::Chunks(255);
    frames(heap, &mut to, &mut packet, framing, (FRAMED_FROM_255, nth))
}

// Whether a packet that is queued was refused, and nothing is changed; it is then pending.
fn queues_in<A: Allocator + Copy>(heap: &Heap, to: &mut Outlet<A>, nth: u64) -> Option<bool> {
    let mut packet = TEXT;
    heap.refuse(nth);
    let mut answer = to.queue(&mut packet);
    let refused = answer == Answer::OutOfMemory;
    let mut all = true;
    if refused {
        all &= to.writer.pending().is_empty() & (packet.len() == LEN);
        answer = to.queue(&mut packet);
    }
    all &= (answer == Answer::Done) & packet.is_empty();
    all &= are_parts(to.writer.pending(), [HEADER, TEXT, b""]);
    all.then_some(refused)
}

fn queues<A: Allocator + Copy>(heap: &Heap, alloc: A, nth: u64) -> Option<bool> {
    heap.refuse(NEVER);
    queues_in(heap, &mut Outlet::new(alloc)?, nth)
}

// ---- decoding

fn decode_once<A: Allocator + Copy>(to: &mut Fixture<'_, A, Vec<u8, A>>, one: bool) -> Answer {
    if one {
        to.decode_chunk(LEN)
    } else {
        to.decode()
    }
}

// Whether the request was refused, and nothing was eaten; the one chunk is then decoded.
fn decodes_in<A: Allocator + Copy>(
    heap: &Heap,
    to: &mut Fixture<'_, A, Vec<u8, A>>,
    one: bool,
    nth: u64,
) -> Option<bool> {
    let mut all = to.encode(TEXT) == Answer::Done;
    to.codec.reset_seq_id();
    heap.refuse(nth);
    let mut answer = decode_once(to, one);
    let refused = answer == Answer::OutOfMemory;
    if refused {
        all &= (to.src.len() == LEN + 4) & to.dst.is_empty();
        answer = decode_once(to, one);
    }
    let done = if one { Answer::Last(0) } else { Answer::Packet };
    all &= (answer == done) & to.src.is_empty() & same(to.dst.as_slice(), TEXT);
    all.then_some(refused)
}

fn decodes<A: Allocator + Copy>(heap: &Heap, alloc: A, one: bool, nth: u64) -> Option<bool> {
    heap.refuse(NEVER);
    let mut to = Fixture::new(alloc, None, Vec::new(alloc));
    decodes_in(heap, &mut to, one, nth)
}

fn reserve_or_put<T: PacketDst>(dst: &mut T, puts: bool) -> bool {
    if puts {
        dst.put_slice(TEXT).is_ok()
    } else {
        dst.reserve(LEN).is_ok()
    }
}

// Whether the request was refused, and the target is as it was; the bytes are then put.
fn puts<T: PacketDst>(heap: &Heap, dst: &mut T, puts: bool, nth: u64) -> Option<bool> {
    heap.refuse(nth);
    let refused = !reserve_or_put(dst, puts);
    let mut all = true;
    if refused | !puts {
        all &= dst.as_ref().is_empty();
        all &= dst.put_slice(TEXT).is_ok();
    }
    all &= same(dst.as_ref(), TEXT);
    all.then_some(refused)
}

// The same of both targets, which are refused the same requests.
fn both_put<A: Allocator + Copy>(heap: &Heap, alloc: A, is_put: bool, nth: u64) -> Option<bool> {
    let vec = puts(heap, &mut Vec::new(alloc), is_put, nth)?;
    let bytes = puts(heap, &mut BytesMut::new(alloc), is_put, nth)?;
    (vec == bytes).then_some(vec)
}

// ---- delivery

const PIECES: [&[u8]; 3] = [b"\x03", b"\0\0\x001", b"23\x01\0\0\x01\xff\0"];

const LIMITED: [(usize, &[u8]); 3] = [
    (9, b"\x03"),
    (9, b"\0\0\x001"),
    (9, b"23\x01\0\0\x01\xff\0"),
];

fn run_once<A>(to: &mut Receiver<A>, runner: Runner, from: usize, tally: &mut Tally) -> Run
where
    A: Allocator + Copy,
{
    match runner {
        Runner::Deliver => to.deliver(pieces_from(&PIECES, from)),
        Runner::DeliverEach => to.visit(pieces_from(&PIECES, from), tally),
        Runner::DeliverLimited => to.deliver_limited(&LIMITED[from.min(3)..]),
        Runner::DeliverEachLimited => to.visit_limited(&LIMITED[from.min(3)..], tally),
    }
}

// Whether the packets were handed out, or visited, and this is left.
fn is_run<A: Allocator + Copy>(to: &Receiver<A>, runner: Runner, tally: &Tally) -> bool {
    if matches!(runner, Runner::DeliverEach | Runner::DeliverEachLimited) {
        (tally.bytes == 4) & to.shows(&[], b"\0", b"")
    } else {
        to.shows(&[b"123", b"\xff"], b"\0", b"")
    }
}

// Whether the request was refused; the run that goes on with the pieces that were not appended then
// ends as one without a refusal does.
fn delivers_to<A>(heap: &Heap, to: &mut Receiver<A>, runner: Runner, nth: u64) -> Option<bool>
where
    A: Allocator + Copy,
{
    let mut tally = Tally { bytes: 0 };
    heap.refuse(nth);
    let (mut count, mut answer) = run_once(to, runner, 0, &mut tally);
    let refused = answer == Answer::OutOfMemory;
    if refused {
        let (more, again) = run_once(to, runner, count, &mut tally);
        count = count.wrapping_add(more);
        answer = again;
    }
    let all = (count == 3) & (answer == Answer::Waits) & is_run(to, runner, &tally);
    all.then_some(refused)
}

fn delivers<A>(heap: &Heap, alloc: A, runner: Runner, nth: u64) -> Option<bool>
where
    A: Allocator + Copy,
{
    heap.refuse(NEVER);
    delivers_to(heap, &mut Receiver::new(alloc, LEN), runner, nth)
}

// ---- readers

const PACKET: &[u8] = b"\x03\0\0\x00123";

/// What a reader does with the packet.
#[derive(Clone, Copy)]
pub enum Way {
    Next,
    Fill,
    Skip,
    Copy,
    Relay,
}

// Hands the packet out, lends it, skips it, copies it, or passes it on.
fn read_once<A>(from: &mut Source<'_, A>, to: &mut Outlet<A>, way: Way) -> Result<bool, Answer>
where
    A: Allocator + Copy,
{
    match way {
        Way::Next => from.next_is(b"123"),
        Way::Fill => from.fill(),
        Way::Skip => from.skip(),
        Way::Copy => from.copy(),
        Way::Relay => from.relay(to),
    }
}

// Whether the packet stands ready, or is eaten, or was passed on with the other codec's id.
fn is_read<A: Allocator + Copy>(from: &Source<'_, A>, to: &Outlet<A>, way: Way) -> bool {
    match way {
        Way::Fill => from.lends(b"123"),
        Way::Relay => (to.writer.pending() == PACKET) & (to.codec.sequence_id() == 1),
        _ => from.reader.unread().is_empty(),
    }
}

fn reads_from<A>(
    heap: &Heap,
    from: &mut Source<'_, A>,
    to: &mut Outlet<A>,
    way: Way,
    nth: u64,
) -> Option<bool>
where
    A: Allocator + Copy,
{
    heap.refuse(nth);
    let mut answer = read_once(from, to, way);
    let refused = answer == Err(Answer::OutOfMemory);
    if refused {
        answer = read_once(from, to, way);
    }
    ((answer == Ok(true)) & is_read(from, to, way)).then_some(refused)
}

// The same with an outlet to pass it on to, which is made where no source waits to be dropped.
fn reads_source<A>(
    heap: &Heap,
    alloc: A,
    from: &mut Source<'_, A>,
    way: Way,
    nth: u64,
) -> Option<bool>
where
    A: Allocator + Copy,
{
    reads_from(heap, from, &mut Outlet::new(alloc)?, way, nth)
}

// Whether the request was refused; the packet is then read so.
fn reads<A: Allocator + Copy>(heap: &Heap, alloc: A, way: Way, nth: u64) -> Option<bool> {
    heap.refuse(NEVER);
    reads_source(heap, alloc, &mut Source::new(alloc, PACKET)?, way, nth)
}

// ---- all

/// Whether the request was refused, and what stands then is right; of the other calls, as `copies`
/// says.
pub fn tries<A: Allocator + Copy>(heap: &Heap, alloc: A, call: Call, nth: u64) -> Option<bool> {
    match call {
        Call::PacketToChunks => frames_text(heap, alloc, Framing::Chunks(0), nth),
        Call::PiecesToChunks => frames_pieces(heap, alloc, nth),
        Call::Encode => frames_text(heap, alloc, Framing::Packet, nth),
        Call::EncodeValue => frames_text(heap, alloc, Framing::Value, nth),
        Call::Queue => queues(heap, alloc, nth),
        Call::ChunkDecode => decodes(heap, alloc, true, nth),
        Call::Decode => decodes(heap, alloc, false, nth),
        Call::Reserve => both_put(heap, alloc, false, nth),
        Call::PutSlice => both_put(heap, alloc, true, nth),
        Call::Deliver(runner) => delivers(heap, alloc, runner, nth),
        Call::Read(way) => reads(heap, alloc, way, nth),
        _ => copies::tries(heap, alloc, call, nth),
    }
}
