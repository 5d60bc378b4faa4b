//! The functions that write after what a vector holds.

use crate::answers::Answer;
use crate::facts::are_parts;
use crate::fields::full;
use crate::fixture::Heap;
use crate::writing::{Writing, write};
use std::alloc::Allocator;

// A function by its name, and what stands after the byte `aa` after its first request is refused,
// after its second, and so on, and in the end. The same call made after a refusal puts the last of
// these after what stands.
type Row = (&'static str, Writing, &'static [&'static [u8]]);

const ROWS: &[Row] = &[
    (
        "MySerialize::serialize",
        Writing::Value,
        &[b"", b"\x01\x02"],
    ),
    ("MySerialize::serialize", Writing::EmptyText, &[b"", b"\0"]),
    ("IntRepr::serialize", Writing::Number, &[b"", b"\x01\x02"]),
    (
        "BytesRepr::serialize",
        Writing::Text,
        &[b"", b"", b"\x280123456789012345678901234567890123456789"],
    ),
    (
        "SeqRepr::serialize",
        Writing::List,
        &[b"", b"\x01\0\0\0\x01\x02"],
    ),
    (
        "BufMutExt::put_lenenc_int",
        Writing::LenencInt,
        &[b"", b"\xfd\x03\x02\x01"],
    ),
    (
        "BufMutExt::put_lenenc_str",
        Writing::LenencStr,
        &[
            b"",
            b"\x28",
            b"\x280123456789012345678901234567890123456789",
        ],
    ),
    (
        "BufMutExt::put_u8_str",
        Writing::U8Str,
        &[
            b"",
            b"\x28",
            b"\x280123456789012345678901234567890123456789",
        ],
    ),
    (
        "BufMutExt::put_u32_str",
        Writing::U32Str,
        &[
            b"",
            b"\x28\0\0\0",
            b"\x28\0\0\x000123456789012345678901234567890123456789",
        ],
    ),
    (
        "BufMutExt::put_u24_le",
        Writing::U24,
        &[b"", b"\x03\x02\x01"],
    ),
    (
        "BufMutExt::put_i24_le",
        Writing::I24,
        &[b"", b"\xff\xff\xff"],
    ),
    (
        "BufMutExt::put_u48_le",
        Writing::U48,
        &[b"", b"\x03\x02\x01\0\0\0"],
    ),
    (
        "BufMutExt::put_u56_le",
        Writing::U56,
        &[b"", b"\x03\x02\x01\0\0\0\0"],
    ),
    (
        "BufMutExt::put_i56_le",
        Writing::I56,
        &[b"", b"\xff\xff\xff\xff\xff\xff\xff"],
    ),
    ("write_varlen_uint", Writing::VarlenUint(5), &[b"", b"\x0a"]),
    (
        "write_varlen_uint",
        Writing::VarlenUint(1 << 60),
        &[b"", b"\xff\0\0\0\0\0\0\0\x10"],
    ),
];

// Whether request number `nth` is refused, if just this stands then, and the same call then writes
// all.
fn leaves<A: Allocator>(
    heap: &Heap,
    alloc: A,
    writing: Writing,
    nth: u64,
    left: &'static [u8],
    whole: &'static [u8],
) -> Option<bool> {
    let mut buf = full(heap, alloc);
    heap.refuse(nth);
    let mut fault = write(writing, &mut buf);
    let refused = heap.has_refused();
    let mut all = are_parts(buf.as_slice(), [b"\xaa", left, b""]);
    if refused {
        all &= fault == Some(Answer::OutOfMemory);
        fault = write(writing, &mut buf);
        all &= are_parts(buf.as_slice(), [b"\xaa", left, whole]);
    }
    (all & fault.is_none()).then_some(refused)
}

// Whether just these requests are met, and leave what the row says.
fn is_as_said<A: Allocator + Copy>(heap: &Heap, alloc: A, row: &Row) -> bool {
    let (_, writing, lefts) = *row;
    let whole = lefts.last().copied().unwrap_or_default();
    let mut all = true;
    for (nth, left) in lefts.iter().enumerate() {
        let refused = leaves(heap, alloc, writing, nth as u64, *left, whole);
        all &= refused == Some(nth + 1 < lefts.len());
    }
    all
}

/// The name of a function that goes otherwise.
pub fn first_wrong<A: Allocator + Copy>(heap: &Heap, alloc: A) -> Option<&'static str> {
    let mut wrong = None;
    for row in ROWS {
        if !is_as_said(heap, alloc, row) {
            wrong = Some(row.0);
        }
    }
    wrong
}
