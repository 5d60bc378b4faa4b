//! The callers of the codec, run: each answer that they have.

use crate::values::are_unchanged;
use bytes::BytesMut;
use mysql_wire::proto::codec::error::PacketCodecError;
use mysql_wire_examples::again::deliver_again;
use mysql_wire_examples::callers::{exchange, read_packets};
use mysql_wire_examples::connection::Connection;
use refusing_allocator::{NEVER, Refusing};
use std::alloc::{Allocator, Global};
use std::io::ErrorKind;
use std::test::Fail;
use test_support::answers::Answer;
use test_support::facts::{all_hold, no_row, same, wrong_row};
use test_support::fixture::Heap;
use test_support::readers::OneByOne;
use test_support::receiver::{Receiver, Run, are_packets};

// What a caller handed out, or why it stopped.
type Handed = Result<Vec<Vec<u8>>, PacketCodecError>;

// What is wanted of it.
type Wanted = Result<&'static [&'static [u8]], Answer>;

fn is_wanted(handed: &Handed, wanted: Wanted) -> bool {
    match (handed, wanted) {
        (Ok(packets), Ok(wanted)) => are_packets(packets.as_slice(), wanted),
        (Err(error), Err(wanted)) => Answer::of_error(error) == wanted,
        _ => false,
    }
}

// The command `0e` and its answer, in pieces.
type Exchange = (&'static [&'static [u8]], Wanted);

const EXCHANGES: &[Exchange] = &[
    (
        &[b"\x01\0\0", b"\x01\x61\x01\0\0\x02\x62\0"],
        Ok(&[b"a", b"b"]),
    ),
    (&[], Ok(&[])),
    (&[b"\0\0\0\x01"], Ok(&[b""])),
    (&[b"\x01\0\x40\x01"], Err(Answer::TooLarge)),
    (&[b"\x01\0\0\0\x61"], Err(Answer::OutOfSync)),
];

fn is_exchanged(alloc: Global, row: Exchange) -> bool {
    let (answer, wanted) = row;
    let mut output = BytesMut::new(alloc);
    let handed = exchange(alloc, b"\x0e", &mut output, answer);
    is_wanted(&handed, wanted) & same(output.as_slice(), b"\x01\0\0\0\x0e")
}

#[test]
fn a_command_is_answered(rt: HostRuntime) -> Result<(), Fail> {
    no_row(wrong_row(rt.alloc(), EXCHANGES, is_exchanged))
}

// What a server answers to these bytes under a limit of 9, and what it says then.
type Row = (&'static [u8], &'static [u8], Answer);

const QUERY_DONE: &[u8] = b"\x07\0\0\x01\0\0\0\x02\0\0\0";

const UNKNOWN: &[u8] = b"\x09\0\0\x01\xff\x17\x04#08S01";

const BOTH: &[u8] = b"\x07\0\0\x01\0\0\0\x02\0\0\0\x09\0\0\x01\xff\x17\x04#08S01";

const COMMANDS: &[Row] = &[
    (b"", b"", Answer::Waits),
    (b"\x02\0\0\0\x03S", QUERY_DONE, Answer::Waits),
    (b"\0\0\0\0", UNKNOWN, Answer::Waits),
    (b"\x01\0\0\0\x0e\x02\0\0\0\x03", UNKNOWN, Answer::Waits),
    (b"\x01\0\0\0\x03\x04\0\0\0\x0e123", BOTH, Answer::Waits),
    (b"\x01\0\0\0\x03\x01\0\0\0\x0e\x01\0", BOTH, Answer::Waits),
    (b"\x01\0\0\0\x03\x0a\0\0\0", QUERY_DONE, Answer::TooLarge),
    (b"\x0a\0\0\x01", b"", Answer::TooLarge),
    (
        b"\x01\0\0\0\x03\x01\0\0\x01\x0e",
        QUERY_DONE,
        Answer::OutOfSync,
    ),
];

fn serve_both(
    alloc: Global,
    front: &[u8],
    rest: &[u8],
    output: &mut BytesMut,
) -> Result<(), PacketCodecError> {
    let mut connection = Connection::new(alloc, 9);
    connection.serve(front, output)?;
    connection.serve(rest, output)
}

fn is_served_however_it_is_cut(alloc: Global, row: Row) -> bool {
    let (bytes, wanted, last) = row;
    let mut all = true;
    for cut in 0..bytes.len() + 1 {
        let (front, rest) = bytes.split_at(cut.min(bytes.len()));
        let mut output = BytesMut::new(alloc);
        let answer = serve_both(alloc, front, rest, &mut output);
        all &= (Answer::of_deliver(answer) == last) & same(output.as_slice(), wanted);
    }
    all
}

#[test]
fn commands_are_served_however_they_are_cut(rt: HostRuntime) -> Result<(), Fail> {
    no_row(wrong_row(rt.alloc(), COMMANDS, is_served_however_it_is_cut))
}

// What a reader gives byte by byte, whether it fails then, and the packets under a limit of 2.
type Stream = (&'static [u8], bool, Wanted);

const STREAMS: &[Stream] = &[
    (b"", false, Ok(&[])),
    (
        b"\x02\0\0\0ab\0\0\0\x01\x01\0\0\x02c",
        false,
        Ok(&[b"ab", b"", b"c"]),
    ),
    (b"\x02\0\0\0ab\x02\0\0\x01c", false, Ok(&[b"ab"])),
    (b"\x03\0\0\0", false, Err(Answer::TooLarge)),
    (b"\x01\0\0\x01a", false, Err(Answer::OutOfSync)),
    (b"\x02\0\0\0ab", true, Err(Answer::Io)),
];

fn is_read(alloc: Global, row: Stream) -> bool {
    let (bytes, fails, wanted) = row;
    let until_fault = if fails { bytes.len() } else { usize::MAX };
    let mut reader = OneByOne {
        bytes,
        until_fault,
        kind: ErrorKind::Other,
    };
    let handed = read_packets(alloc, 2, &mut reader);
    is_wanted(&handed, wanted)
}

#[test]
fn packets_are_read_to_the_end(rt: HostRuntime) -> Result<(), Fail> {
    no_row(wrong_row(rt.alloc(), STREAMS, is_read))
}

// Two packets and the front of a third.
const TWO: &[&[u8]] = &[b"\x03", b"\0\0\x001", b"23\x01\0\0\x01\xff\0"];

// One run over them. Where the codec doesn't stand, nothing is called.
fn deliver_two<A: Allocator + Copy>(to: &mut Receiver<A>, again: usize) -> Run {
    if !to.codec.stands_at(&to.src, to.dst.as_slice()) {
        return (0, Answer::Fallen);
    }
    let (codec, src) = (&mut to.codec, &mut to.src);
    let (count, answer) = deliver_again(codec, src, &mut to.dst, TWO, &mut to.out, again);
    (count, Answer::of_deliver(answer))
}

// Whether all is delivered where this request for memory is refused, and may be again; and whether
// it was refused. None where the run stops though it may go on.
fn is_delivered<A: Allocator + Copy>(
    heap: &Heap,
    alloc: A,
    nth: u64,
    again: usize,
) -> Option<bool> {
    heap.refuse(nth);
    let mut to = Receiver::new(alloc, 9);
    let (count, answer) = deliver_two(&mut to, again);
    let is_whole = (count == 3)
        & (answer == Answer::Waits)
        & to.shows(&[b"123", b"\xff"], b"\0", b"");
    let is_stopped = (again == 0) & (answer == Answer::OutOfMemory) & to.stands();
    (is_whole | (is_stopped & heap.has_refused())).then_some(heap.has_refused())
}

fn goes_on<A: Allocator + Copy>(heap: &Heap, alloc: A) -> bool {
    let mut all = is_delivered(heap, alloc, 20, 0) == Some(false);
    for nth in 0..4 {
        all &= is_delivered(heap, alloc, nth, 1) == Some(true);
        all &= is_delivered(heap, alloc, nth, 0) == Some(true);
    }
    for nth in 4..20 {
        all &= is_delivered(heap, alloc, nth, 1).is_some();
    }
    all
}

// Both over the same allocator, which is looked at as one once.
fn bear_refusals<A: Allocator + Copy>(heap: &Heap, alloc: A) -> [bool; 2] {
    [
        goes_on(heap, alloc),
        are_unchanged(heap, alloc) == [true; 3],
    ]
}

#[test]
fn a_refused_run_goes_on_and_a_refused_value_changes_nothing(rt: HostRuntime) -> Result<(), Fail> {
    let heap = &Refusing::new(rt.alloc(), NEVER);
    all_hold(&bear_refusals(heap, heap))
}
