//! A value of any type that is a field of packets: how it is written and read back, and what is
//! left where its end is missing or memory is refused.

use crate::answers::{Answer, error_of};
use crate::facts::same;
use crate::fixture::Heap;
use crate::reference::between;
use refusing_allocator::NEVER;
use std::alloc::{Allocator, Global};
use wire_buf::io::ParseBuf;
use wire_buf::proto::{MyDeserialize, MySerialize, StatedSize};
use wire_values::payload::parse_packet_in;

/// What follows a value in most inputs.
pub const MORE: &[u8] = b"\xff\x80\0";

// No value asks for memory so often.
const MOST: u64 = 100;

/// The last bytes, this many.
pub fn last(bytes: &[u8], count: usize) -> &[u8] {
    between(bytes, bytes.len().saturating_sub(count), bytes.len())
}

/// Bytes one after another.
pub fn joined<A: Allocator>(heap: &Heap, alloc: A, parts: &[&[u8]]) -> Vec<u8, A> {
    heap.refuse(NEVER);
    let mut bytes = Vec::new(alloc);
    for part in parts {
        let _ = bytes.extend_from_slice(*part);
    }
    bytes
}

/// Whether a type's size is this.
pub fn has_size<'de, T: MyDeserialize<'de, Global>>(size: Option<usize>) -> bool {
    T::SIZE == size
}

// ---- writing

/// A vector that holds the byte `aa`, and has no room for more.
pub fn full<A: Allocator>(heap: &Heap, alloc: A) -> Vec<u8, A> {
    heap.refuse(NEVER);
    let mut buf = Vec::new(alloc);
    if buf.reserve_exact(1).is_ok() {
        let _ = buf.push(0xaa);
    }
    buf
}

// Whether these bytes stand after the byte that was there.
fn is_behind(buf: &[u8], bytes: &[u8]) -> bool {
    match buf {
        [first, rest @ ..] => (*first == 0xaa) & same(rest, bytes),
        [] => false,
    }
}

// Whether a value is refused where request number `nth` is. None where something else is written
// than these bytes, by the first call or, where that is refused, by the next.
fn is_refused<T: MySerialize, A: Allocator>(
    heap: &Heap,
    alloc: A,
    value: &T,
    bytes: &[u8],
    nth: u64,
) -> Option<bool> {
    let mut buf = full(heap, alloc);
    heap.refuse(nth);
    let fault = error_of(value.serialize(&mut buf));
    let refused = heap.has_refused();
    let mut all = fault.is_some() == refused;
    if refused {
        all &= (fault == Some(Answer::OutOfMemory)) & is_behind(buf.as_slice(), b"");
        all &= value.serialize(&mut buf).is_ok();
    }
    (all & is_behind(buf.as_slice(), bytes)).then_some(refused)
}

// How many requests for memory were refused, each in turn, before a value was written as these
// bytes. None where a refused call leaves something, or something else is written.
fn refusals<T: MySerialize>(heap: &Heap, value: &T, bytes: &[u8]) -> Option<u64> {
    for nth in 0..MOST {
        if !is_refused(heap, heap, value, bytes, nth)? {
            return Some(nth);
        }
    }
    None
}

/// Whether a value is written as these bytes after this many requests for memory are refused in turn,
/// at least. No bytes ask for none.
pub fn is_refused_at_least<T: MySerialize>(
    heap: &Heap,
    value: &T,
    bytes: &[u8],
    least: u64,
) -> bool {
    match refusals(heap, value, bytes) {
        Some(count) => (count >= least) & ((count == 0) == bytes.is_empty()),
        None => false,
    }
}

/// Whether a value is written as these bytes, whichever request for memory is refused. No bytes ask
/// for none.
pub fn is_written<T: MySerialize>(heap: &Heap, value: &T, bytes: &[u8]) -> bool {
    is_refused_at_least(heap, value, bytes, 0)
}

// ---- reading

/// How many bytes are eaten of a number whose end is missing.
#[derive(Clone, Copy)]
pub enum Eaten {
    Nothing,
    First,
    All,
}

impl Eaten {
    // This many are left of these.
    fn left_of(self, there: usize) -> usize {
        match self {
            Eaten::Nothing => there,
            Eaten::First => there.saturating_sub(1),
            Eaten::All => 0,
        }
    }
}

/// What is answered where the end of a value is missing, and what is eaten.
#[derive(Clone, Copy)]
pub struct Short {
    pub fault: Answer,
    /// What is eaten of a front that isn't there whole.
    pub eaten: Eaten,
    /// How many bytes the front has, which is eaten where it is there.
    pub front: usize,
}

impl Short {
    /// The input ends early, and this is eaten.
    pub fn eats(eaten: Eaten) -> Short {
        Short {
            fault: Answer::UnexpectedEof,
            eaten,
            front: usize::MAX,
        }
    }

    // This many bytes are left of these.
    fn left_of(self, there: usize) -> usize {
        if there < self.front {
            self.eaten.left_of(there)
        } else {
            there - self.front
        }
    }
}

/// Whether this value is read, and this many bytes are left.
pub fn gives<'de, T, C, A>(alloc: A, ctx: C, input: &'de [u8], wanted: &T, left: usize) -> bool
where
    A: Allocator + Copy,
    T: PartialEq + MyDeserialize<'de, A, Ctx = C>,
{
    match parse_packet_in::<T, A>(alloc, ctx, input) {
        Ok((value, rest)) => (value == *wanted) & same(rest.0, last(input, left)),
        Err(_) => false,
    }
}

/// Whether no value is read for this reason, and this many bytes are left.
pub fn stops<'de, T, C, A>(alloc: A, ctx: C, input: &'de [u8], fault: Answer, left: usize) -> bool
where
    A: Allocator + Copy,
    T: MyDeserialize<'de, A, Ctx = C>,
{
    let mut buf = ParseBuf(input);
    let answer = error_of(buf.parse_in::<T, A>(alloc, ctx));
    (answer == Some(fault)) & same(buf.0, last(input, left))
}

/// Whether this value is read from the first `len` bytes of the input, whatever follows, and none
/// from fewer.
pub fn is_read<'de, T, C, A>(
    alloc: A,
    ctx: C,
    input: &'de [u8],
    len: usize,
    wanted: &T,
    short: Short,
) -> bool
where
    A: Allocator + Copy,
    C: Copy,
    T: PartialEq + MyDeserialize<'de, A, Ctx = C>,
{
    let mut all = len <= input.len();
    for there in 0..input.len() + 1 {
        // A long input is cut near both its ends alone.
        if there > 400 && there < input.len().saturating_sub(8) {
            continue;
        }
        let front = between(input, 0, there);
        all &= if there < len {
            stops::<T, C, A>(alloc, ctx, front, short.fault, short.left_of(there))
        } else {
            gives::<T, C, A>(alloc, ctx, front, wanted, there - len)
        };
    }
    all
}
