// Each representation of a text: at the ends of its lengths, cut short, with bytes after, and with
// each request for memory refused.

use mysql_wire::io::InvalidReason;
use mysql_wire::misc::raw::RawBytes;
use mysql_wire::misc::raw::bytes::{
    BareBytes, BareU8Bytes, BareU16Bytes, BytesRepr, EofBytes, FixedLengthText, LenEnc, NullBytes,
    U8Bytes, U32Bytes,
};
use mysql_wire::misc::raw::int::VarLen;
use std::alloc::Allocator;
use test_support::answers::Answer;
use test_support::fields::{Eaten, Short, gives, is_written, last, stops};
use test_support::fixture::Heap;
use test_support::reference::between;
use test_support::texts::{Row, are_texts, is_bounded, is_text, puts_of};

// ---- texts after their length

const LENENC: &[Row] = &[
    (0, b"\0"),
    (1, b"\x01"),
    (250, b"\xfa"),
    (251, b"\xfc\xfb\0"),
    (300, b"\xfc\x2c\x01"),
    (65536, b"\xfd\0\0\x01"),
];

const U8: &[Row] = &[
    (0, b"\0"),
    (1, b"\x01"),
    (254, b"\xfe"),
    (255, b"\xff"),
    (256, b"\xff"),
    (300, b"\xff"),
];

const U32: &[Row] = &[
    (0, b"\0\0\0\0"),
    (1, b"\x01\0\0\0"),
    (255, b"\xff\0\0\0"),
    (256, b"\0\x01\0\0"),
    (65536, b"\0\0\x01\0"),
];

const VARLEN: &[Row] = &[
    (0, b"\0"),
    (1, b"\x01"),
    (127, b"\x7f"),
    (128, b"\x80\x01"),
    (300, b"\xac\x02"),
    (16383, b"\xff\x7f"),
    (16384, b"\x80\x80\x01"),
];

// A context, an input, the text that is read from it or why none is, and how many bytes are left.
type Read<'a, C> = (C, &'a [u8], Result<&'a [u8], Answer>, usize);

// Whether the row is read so.
fn is_read<T: BytesRepr<Ctx = C>, C: Copy, A: Allocator + Copy>(
    alloc: A,
    row: &Read<'_, C>,
) -> bool {
    let (ctx, input, wanted, left) = *row;
    match wanted {
        Ok(text) => gives(alloc, ctx, input, &RawBytes::<T, A>::from(text), left),
        Err(why) => stops::<RawBytes<'_, T, A>, C, A>(alloc, ctx, input, why, left),
    }
}

// Whether each row is read so, which takes no memory.
fn are_read<T: BytesRepr<Ctx = C>, C: Copy, A: Allocator + Copy>(
    heap: &Heap,
    alloc: A,
    rows: &[Read<'_, C>],
) -> bool {
    heap.refuse(0);
    let mut all = true;
    for row in rows {
        all &= is_read::<T, C, A>(alloc, row);
    }
    all & (heap.left() == 0)
}

const LARGE: Answer = Answer::Invalid(InvalidReason::VarLenTooLarge);

const LONG: Answer = Answer::Invalid(InvalidReason::VarLenTooLong);

const EOF: Answer = Answer::UnexpectedEof;

// A length is read in each of its spellings. A text that isn't there ends early.
const LENENC_READ: &[Read<()>] = &[
    ((), b"\xfc\x01\0ab", Ok(b"a"), 1),
    ((), b"\xfe\x02\0\0\0\0\0\0\0abc", Ok(b"ab"), 1),
    ((), b"\xfba", Ok(b""), 1),
    ((), b"\xffa", Ok(b""), 1),
    ((), b"\xfe\0\0\0\0\x01\0\0\0a", Err(EOF), 1),
    ((), b"\xfe\xff\xff\xff\xff\xff\xff\xff\xffa", Err(EOF), 1),
];

const VARLEN_READ: &[Read<()>] = &[
    ((), b"\x81\x80\0ab", Ok(b"a"), 1),
    ((), b"\xff\xff\xff\xff\x1fab", Err(LARGE), 2),
    ((), b"\x80\x80\x80\x80\x80ab", Err(LONG), 2),
    ((), b"\xff\xff\xff\xff\x0fa", Err(EOF), 1),
];

const U32_READ: &[Read<()>] = &[((), b"\xff\xff\xff\xffa", Err(EOF), 1)];

// The context alone counts, above the most that is written too.
const BARE_READ: &[Read<usize>] = &[
    (0, b"abc", Ok(b""), 3),
    (3, b"abcd", Ok(b"abc"), 1),
    (usize::MAX, b"abc", Err(EOF), 3),
];

fn are_behind<A: Allocator + Copy>(heap: &Heap, alloc: A, text: &[u8]) -> bool {
    let mut all = are_texts::<LenEnc, A>(heap, alloc, text, Eaten::First, LENENC, usize::MAX);
    all &= are_texts::<U8Bytes, A>(heap, alloc, text, Eaten::Nothing, U8, 255);
    all &= are_texts::<U32Bytes, A>(heap, alloc, text, Eaten::Nothing, U32, 4294967295);
    all & are_texts::<VarLen, A>(heap, alloc, text, Eaten::All, VARLEN, 4294967295)
}

// ---- texts that a zero ends

const NULL: &[(&[u8], &[u8])] = &[
    (b"", b""),
    (b"a", b"a"),
    (b"ab", b"ab"),
    (b"\0", b""),
    (b"a\0b", b"a"),
    (b"ab\0", b"ab"),
    (b"\0\0a", b""),
];

// Whether the first bytes of a text are written and a zero, and read back, whatever follows.
// Without the zero none are.
fn is_null<A: Allocator + Copy>(heap: &Heap, alloc: A, text: &[u8], cut: &[u8]) -> bool {
    let short = Short {
        fault: Answer::Invalid(InvalidReason::NoNullTerminator),
        eaten: Eaten::Nothing,
        front: usize::MAX,
    };
    let is_bounded = is_bounded::<NullBytes>(text, usize::MAX, None);
    let text = (b"".as_slice(), text, cut, b"\0".as_slice(), puts_of(text));
    is_bounded & is_text::<NullBytes, (), A>(heap, alloc, (), text, short)
}

fn are_null<A: Allocator + Copy>(heap: &Heap, alloc: A, long: &[u8]) -> bool {
    let mut all = is_null(heap, alloc, long, long);
    for (text, cut) in NULL {
        all &= is_null(heap, alloc, *text, *cut);
    }
    all
}

// ---- texts whose end is not in their bytes

// Whether a text is written as it is, and all of an input is read.
fn is_all<A: Allocator + Copy>(heap: &Heap, alloc: A, text: &[u8]) -> bool {
    let value = RawBytes::<EofBytes, A>::from(text);
    let is_put = is_written(heap, &value, text);
    heap.refuse(0);
    let is_back = gives(alloc, (), text, &value, 0) & (heap.left() == 0);
    is_put & is_back & is_bounded::<EofBytes>(text, usize::MAX, None)
}

fn are_all<A: Allocator + Copy>(heap: &Heap, alloc: A, letters: &[u8]) -> bool {
    let mut all = is_all(heap, alloc, b"\0a\0");
    for len in [0usize, 1, 250, 251, 300, 65536] {
        all &= is_all(heap, alloc, between(letters, 0, len));
    }
    all
}

// Whether the first bytes of a text are written, N at most, and read back where the context says
// how many.
fn is_bare<const N: usize, A: Allocator + Copy>(heap: &Heap, alloc: A, text: &[u8]) -> bool {
    let cut = between(text, 0, N);
    let is_bounded = is_bounded::<BareBytes<N>>(text, N, None);
    let ctx = cut.len();
    let text = (b"".as_slice(), text, cut, b"".as_slice(), 0);
    let short = Short::eats(Eaten::Nothing);
    is_bounded & is_text::<BareBytes<N>, usize, A>(heap, alloc, ctx, text, short)
}

fn are_bare<A: Allocator + Copy>(heap: &Heap, alloc: A, letters: &[u8]) -> bool {
    // The length of this one is elsewhere too, and it is not read.
    let raw = RawBytes::<BareU16Bytes>::from(letters);
    let mut all = is_written(heap, &raw, between(letters, 0, 65535));
    all &= is_bounded::<BareU16Bytes>(letters, 65535, None);
    all &= is_bounded::<BareU8Bytes>(letters, 255, None);
    for len in [0usize, 1, 2, 3, 254, 255, 256, 300] {
        let text = between(letters, 0, len);
        all &= is_bare::<0, A>(heap, alloc, text);
        all &= is_bare::<2, A>(heap, alloc, text);
        all &= is_bare::<255, A>(heap, alloc, text);
    }
    all
}

// Whether a text is written as N bytes, cut or filled with zeros, and they are read back.
fn is_fixed<const N: usize, A>(heap: &Heap, alloc: A, text: &[u8], bytes: &[u8]) -> bool
where
    A: Allocator + Copy,
{
    let is_bounded = is_bounded::<FixedLengthText<N>>(text, N, Some(N));
    // Zeros are the second put.
    let least = if text.len() < N { puts_of(text) } else { 0 };
    let text = (b"".as_slice(), text, bytes, b"".as_slice(), least);
    let short = Short::eats(Eaten::Nothing);
    let is_text = is_text::<FixedLengthText<N>, (), A>(heap, alloc, (), text, short);
    is_bounded & is_text & (bytes.len() == N)
}

const FIXED: &[(&[u8], &[u8])] = &[
    (b"", b"\0\0\0\0"),
    (b"a", b"a\0\0\0"),
    (b"ab", b"ab\0\0"),
    (b"abcd", b"abcd"),
    (b"abcde", b"abcd"),
    (b"\0b", b"\0b\0\0"),
];

// The last one is 300 letters, with two zeros after them.
fn are_fixed<A: Allocator + Copy>(heap: &Heap, alloc: A, filled: &[u8]) -> bool {
    let long = between(filled, 0, 300);
    let mut all = is_fixed::<0, A>(heap, alloc, b"abc", b"");
    all &= is_fixed::<302, A>(heap, alloc, long, filled);
    for (text, bytes) in FIXED {
        all &= is_fixed::<4, A>(heap, alloc, *text, *bytes);
    }
    all
}

// Longer, hostile and refused lengths: whatever length is declared, no memory is asked for. And
// texts whose end is found by other means.
fn are_others<A: Allocator + Copy>(heap: &Heap, alloc: A, letters: &[u8]) -> bool {
    let mut all = are_read::<LenEnc, (), A>(heap, alloc, LENENC_READ);
    all &= are_read::<VarLen, (), A>(heap, alloc, VARLEN_READ);
    all &= are_read::<U32Bytes, (), A>(heap, alloc, U32_READ);
    all &= are_read::<BareBytes<2>, usize, A>(heap, alloc, BARE_READ);
    all &= are_null(heap, alloc, between(letters, 0, 300));
    all &= are_all(heap, alloc, letters);
    all &= are_bare(heap, alloc, letters);
    all & are_fixed(heap, alloc, last(letters, 302))
}

/// Whether texts are written and read.
pub fn all_texts<A: Allocator + Copy>(heap: &Heap, alloc: A, letters: &[u8]) -> bool {
    are_behind(heap, alloc, letters) & are_others(heap, alloc, letters)
}
