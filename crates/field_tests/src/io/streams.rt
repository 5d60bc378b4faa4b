// Numbers and texts over readers and writers.

use crate::io::lenenc::{Lenenc, WRITTEN};
use crate::io::numbers::{self, Row};
use mysql_wire::io::{BufMutExt, ReadMysqlExt, WriteMysqlExt};
use mysql_wire::misc::lenenc_str_len;
use refusing_allocator::{NEVER, Refusing};
use std::alloc::{Allocator, Global};
use std::io::{ErrorKind, Read};
use std::test::Fail;
use test_support::answers::{Answer, answered};
use test_support::facts::{all_hold, same};
use test_support::fields::{MORE, last};
use test_support::fixture::Heap;
use test_support::readers::{Narrow, Parts};
use test_support::reference::between;

// ---- numbers

// Whether a stream that begins so gives this number, and its last bytes are left, this many.
fn gives(bytes: &[u8], wanted: Result<u64, Answer>, left: usize) -> bool {
    let mut reader = bytes;
    let read = answered(reader.read_lenenc_int());
    (read == wanted) & same(reader, last(bytes, left))
}

// Whether the row's number is read, whatever follows, and an end of input from fewer bytes.
fn is_read(row: &Row<'_, u64>) -> bool {
    let (width, bytes, number) = *row;
    let mut all = gives(bytes, Ok(number), bytes.len().saturating_sub(width));
    all &= gives(between(bytes, 0, width), Ok(number), 0);
    for len in 0..width {
        let mut reader = between(bytes, 0, len);
        all &= answered(reader.read_lenenc_int()) == Err(Answer::Io);
    }
    all
}

// Small numbers in longer spellings than they are written in, which slices take too.
const LONGER: &[Row<u64>] = &[
    (3, b"\xfc\0\0\xfe", 0),
    (3, b"\xfc\x05\0\xfe", 5),
    (3, b"\xfc\xfa\0\xfe", 250),
    (4, b"\xfd\x05\0\0\xfe", 5),
    (4, b"\xfd\xff\xff\0\xfe", 65535),
    (9, b"\xfe\x05\0\0\0\0\0\0\0\xfe", 5),
    (9, b"\xfe\xff\xff\xff\0\0\0\0\0\xfe", 16777215),
];

// Whether the numbers are read, and small ones from longer spellings, which slices take too.
fn lenenc_ints_are_read() -> bool {
    let mut all = true;
    for row in WRITTEN {
        all &= is_read(row);
    }
    for row in LONGER {
        all &= is_read(row) & numbers::is_read::<Lenenc>(row, 1);
    }
    all
}

// ---- texts

// Whether a stream gives this text, or why it gives none.
fn reads<R: Read, A: Allocator>(alloc: A, reader: &mut R, text: &[u8]) -> Result<bool, Answer> {
    match reader.read_lenenc_str(alloc) {
        Ok(read) => Ok(same(read.as_slice(), text)),
        Err(error) => Err(Answer::of_wire(&error)),
    }
}

// Whether bytes answer this where a text is wanted, and leave this.
fn answers(
    alloc: Global,
    bytes: &[u8],
    text: &[u8],
    wanted: Result<bool, Answer>,
    left: &[u8],
) -> bool {
    let mut reader = bytes;
    (reads(alloc, &mut reader, text) == wanted) & same(reader, left)
}

const MARKS: &[&[u8]] = &[b"\xfb\x01", b"\xff\x01", b"\xfb\x01\x02\x03", b"\xff\xfb\0"];

// Whether this begins no number and no text, and its first byte is eaten.
fn is_mark(alloc: Global, bytes: &[u8]) -> bool {
    let behind = bytes.len().saturating_sub(1);
    let none = Answer::NoInteger;
    gives(bytes, Err(none), behind) & answers(alloc, bytes, b"", Err(none), last(bytes, behind))
}

// Whether a text is written as it is put, and read back.
fn comes_back(alloc: Global, text: &[u8]) -> bool {
    let len = lenenc_str_len(text);
    let mut put = Vec::new(alloc);
    let mut all = put.put_lenenc_str(text).is_ok();
    let mut out = Vec::new(alloc);
    all &= answered(out.write_lenenc_str(text)) == Ok(len);
    all &= (out.len() as u64 == len) & same(out.as_slice(), put.as_slice());
    all &= answers(alloc, out.as_slice(), text, Ok(true), b"");
    all &= out.extend_from_slice(MORE).is_ok();
    all & answers(alloc, out.as_slice(), text, Ok(true), MORE)
}

// How a fault of this kind ends: an interrupted call is made again.
fn ends(is_met: bool, kind: ErrorKind) -> Result<u64, Answer> {
    if is_met & (kind != ErrorKind::Interrupted) {
        Err(Answer::Io)
    } else {
        Ok(303)
    }
}

// Whether 300 bytes are written so where the write of this number fails, or none takes a byte.
fn is_text_written(alloc: Global, at_once: usize, until_fault: usize, kind: ErrorKind) -> bool {
    let mut writer = Narrow::new(alloc, at_once, until_fault, kind);
    let written = answered(writer.write_lenenc_str(&[b'a'; 300]));
    let is_met = (writer.until_fault > until_fault) | (at_once == 0);
    (written == ends(is_met, kind)) & ((writer.taken.len() == 303) | written.is_err())
}

// How many bytes go at once, and how many calls that makes of a text of 300.
const CALLS: [(usize, usize); 3] = [(100, 4), (300, 2), (1, 303)];

// Whether these 300 bytes are read so where the read of this number fails.
fn is_text_read(
    alloc: Global,
    bytes: &[u8],
    at_once: usize,
    until_fault: usize,
    kind: ErrorKind,
) -> bool {
    let parts = [(bytes, 0)];
    let mut reader = Parts::new(&parts, at_once, until_fault, kind);
    let read = reads(alloc, &mut reader, &[b'a'; 300]);
    let is_met = reader.until_fault > until_fault;
    if ends(is_met, kind).is_ok() {
        read == Ok(true)
    } else {
        read == Err(Answer::Io)
    }
}

// Whether a writer and a reader fail, and only so, at each call of a kind.
fn each_call_fails(alloc: Global, spelling: &[u8], kind: ErrorKind) -> bool {
    let mut all = true;
    for (at_once, calls) in CALLS {
        for nth in 0..calls + 2 {
            all &= is_text_written(alloc, at_once, nth, kind);
            all &= is_text_read(alloc, spelling, at_once, nth, kind);
        }
    }
    all
}

#[test]
fn each_call_succeeds_on_a_good_stream(rt: HostRuntime) {
    let alloc = rt.alloc();
    let mut all = lenenc_ints_are_read();
    all &= comes_back(alloc, b"") & comes_back(alloc, &[b'a'; 251]);
    // Of a long text the room is asked for piece by piece.
    assert!(rt; all & comes_back(alloc, &[b'a'; 100_000]));
}

#[test]
fn a_bad_stream_is_refused(rt: HostRuntime) {
    let alloc = rt.alloc();
    let mut all = is_text_written(alloc, 0, usize::MAX, ErrorKind::Other);
    for bytes in MARKS {
        all &= is_mark(alloc, *bytes);
    }
    let mut bytes = [b'a'; 303];
    bytes[0] = 0xfc;
    bytes[1] = 0x2c;
    bytes[2] = 0x01;
    all &= each_call_fails(alloc, &bytes, ErrorKind::Other);
    all &= each_call_fails(alloc, &bytes, ErrorKind::Interrupted);
    for len in 0..303usize {
        let mut reader = between(&bytes, 0, len);
        all &= reads(alloc, &mut reader, b"") == Err(Answer::Io);
    }
    assert!(rt; all);
}

// ---- memory

// What bytes answer where this text is wanted and this request for memory is refused, and whether
// one was.
fn refused(heap: &Heap, nth: u64, bytes: &[u8], text: &[u8]) -> (Result<bool, Answer>, bool) {
    heap.refuse(nth);
    let mut reader = bytes;
    (reads(heap, &mut reader, text), heap.has_refused())
}

// How many requests are refused, each in turn, before a text is read.
fn refusals(heap: &Heap, bytes: &[u8], text: &[u8]) -> Option<u64> {
    for nth in 0..20u64 {
        let (answer, is_refused) = refused(heap, nth, bytes, text);
        if (answer == Ok(true)) & !is_refused {
            return Some(nth);
        }
        if (answer != Err(Answer::OutOfMemory)) | !is_refused {
            return None;
        }
    }
    None
}

// Whether a text of 40,000 bytes is read, or memory is missing, whichever request is refused.
fn long_text_is_read(heap: &Heap) -> bool {
    let mut bytes = [b'a'; 40_003];
    bytes[0] = 0xfc;
    bytes[1] = 0x40;
    bytes[2] = 0x9c;
    refusals(heap, &bytes, &bytes[3..]) > Some(1)
}

// Whether it is found that the input ends, with no request above 64 KiB.
fn finds_the_end(heap: &Heap, input: &mut &[u8]) -> bool {
    heap.refuse(NEVER);
    (reads(heap, input, b"") == Err(Answer::Io)) & (heap.largest() <= 65536)
}

// Whatever length is declared, little memory is asked for before the input ends.
#[test]
fn a_hostile_length_takes_little_memory(rt: HostRuntime) -> Result<(), Fail> {
    let heap = Refusing::new(rt.alloc(), NEVER);
    let mut most = b"\xfe\xff\xff\xff\xff\xff\xff\xff\xffa".as_slice();
    let mut four_gib = b"\xfe\0\0\0\0\x01\0\0\0abc".as_slice();
    let (unread, is_refused) = refused(&heap, 0, most, b"");
    all_hold(&[
        (unread == Err(Answer::OutOfMemory)) & is_refused,
        finds_the_end(&heap, &mut four_gib),
        finds_the_end(&heap, &mut most),
        long_text_is_read(&heap),
    ])
}
