//! How a text is looked at: written at each of its puts, read back, borrowed, and refused where it
//! is cut short.

use crate::answers::Answer;
use crate::fields::{Eaten, MORE, Short, has_size, is_read, is_refused_at_least, joined};
use crate::fixture::Heap;
use crate::reference::between;
use std::alloc::Allocator;
use wire_repr::text::BytesRepr;
use wire_values::text::RawBytes;

/// A text of 65536 bytes, none of them a zero, and two zeros after it. It is shorter where memory
/// is refused.
pub fn letters<A: Allocator>(alloc: A) -> Vec<u8, A> {
    let mut text = Vec::new(alloc);
    for _ in 0..2521 {
        let _ = text.extend_from_slice(b"abcdefghijklmnopqrstuvwxyz");
    }
    text.truncate(65536);
    let _ = text.extend_from_slice(b"\0\0");
    text
}

/// How a text is written: the bytes before it, the text, what is read back of it, the bytes after
/// it, and how many of the requests for memory that this takes are refused in turn, at least.
pub type Text<'a> = (&'a [u8], &'a [u8], &'a [u8], &'a [u8], u64);

/// A text of 200 bytes and more is refused at each of the two puts that it has.
pub fn puts_of(text: &[u8]) -> u64 {
    if text.len() < 200 { 0 } else { 2 }
}

// Whether a text is written as these bytes.
fn is_put<T: BytesRepr, A: Allocator>(heap: &Heap, text: &[u8], bytes: &[u8], least: u64) -> bool {
    is_refused_at_least(heap, &RawBytes::<T, A>::from(text), bytes, least)
}

// Whether a text is read back, which takes no memory: it borrows from the input.
fn is_back<T: BytesRepr<Ctx = C>, C: Copy, A: Allocator + Copy>(
    heap: &Heap,
    alloc: A,
    ctx: C,
    (input, len): (&[u8], usize),
    text: &[u8],
    short: Short,
) -> bool {
    heap.refuse(0);
    let back = RawBytes::<T, A>::from(text);
    is_read(alloc, ctx, input, len, &back, short) & (heap.left() == 0)
}

/// Whether a text is written so, and what is read back, whatever follows, takes no memory.
pub fn is_text<T: BytesRepr<Ctx = C>, C: Copy, A: Allocator + Copy>(
    heap: &Heap,
    alloc: A,
    ctx: C,
    (front, text, cut, end, least): Text<'_>,
    short: Short,
) -> bool {
    let input = joined(heap, alloc, &[front, cut, end, MORE]);
    let input = input.as_slice();
    let len = input.len().saturating_sub(MORE.len());
    let is_put = is_put::<T, A>(heap, text, between(input, 0, len), least);
    is_put & is_back::<T, C, A>(heap, alloc, ctx, (input, len), cut, short)
}

/// Whether at most this many bytes of a text are written, and it has this size.
pub fn is_bounded<T: BytesRepr>(text: &[u8], most: usize, size: Option<usize>) -> bool {
    let is_cut = RawBytes::<T>::from(text).len() == text.len().min(most);
    let has_size = has_size::<RawBytes<'_, T>>(size) & (T::SIZE == size);
    is_cut & (T::MAX_LEN == most) & has_size
}

/// The length of a text, and what is written of that.
pub type Row<'a> = (usize, &'a [u8]);

/// Whether texts of these lengths, of some letters, are written after their length, `most` bytes
/// of them at most. A length is eaten, where it is there, and else as `eaten` says.
pub fn are_texts<T: BytesRepr<Ctx = ()>, A: Allocator + Copy>(
    heap: &Heap,
    alloc: A,
    letters: &[u8],
    eaten: Eaten,
    rows: &[Row<'_>],
    most: usize,
) -> bool {
    let mut all = is_bounded::<T>(letters, most, None);
    for (len, front) in rows {
        let text = between(letters, 0, *len);
        let cut = between(text, 0, most);
        let short = Short {
            fault: Answer::UnexpectedEof,
            eaten,
            front: front.len(),
        };
        let text = (*front, text, cut, b"".as_slice(), puts_of(cut));
        all &= is_text::<T, (), A>(heap, alloc, (), text, short);
    }
    all
}
