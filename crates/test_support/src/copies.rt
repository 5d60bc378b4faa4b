//! Texts, numbers and lists: how they are read and copied, lent or owned, where a request for
//! memory may be refused (whether it was, if what stands then is right), and their other calls.

use crate::answers::Answer;
use crate::facts::same;
use crate::fields::is_written;
use crate::fixture::Heap;
use crate::reading::{Reading, knows, read};
use refusing_allocator::NEVER;
use std::alloc::Allocator;
use std::borrow::CowSlice;
use wire_buf::error::WireError;
use wire_buf::io::ParseBuf;
use wire_field::converted::Const;
use wire_field::row::{Both, Either};
use wire_forms::lenenc::LenEnc;
use wire_list::raw_seq::RawSeq;
use wire_list::seq::{Seq, SeqRepr};
use wire_repr::int::{LeU16, LeU32, RawInt};
use wire_repr::text::BytesRepr;
use wire_streams::io::ReadMysqlExt;
use wire_values::text::RawBytes;

/// What is copied.
#[derive(Clone, Copy)]
pub enum Holding {
    Text,
    Numbers,
    Texts,
}

/// What is copied is lent or owned, and that by `clone` or by `into_owned`.
#[derive(Clone, Copy)]
pub enum Copying {
    CloneLent,
    CloneOwned,
    OwnLent,
    OwnOwned,
}

/// Onto what a text is pushed.
#[derive(Clone, Copy)]
pub enum Onto {
    Lent,
    Read,
}

/// What is made of owned texts.
#[derive(Clone, Copy)]
pub enum Owner {
    Both,
    Either,
    Const,
}

/// A text.
pub type Text<'a, A> = RawBytes<'a, LenEnc, A>;

/// Numbers of a byte.
pub type Numbers<'a, A> = RawSeq<'a, u8, (), A>;

/// A list of numbers.
pub type List<'a, A> = Seq<'a, RawInt<LeU16>, LeU32, A>;

/// A list of texts.
pub type Texts<'a, A> = Seq<'a, Text<'a, A>, LeU32, A>;

// A list of 1 and 2, and a byte after it.
const LIST: &[u8] = b"\x02\0\0\0\x01\0\x02\0\x02";

fn is_refused(error: &WireError) -> bool {
    Answer::of_wire(error) == Answer::OutOfMemory
}

// ---- what is copied

// A value that may be lent or owned.
trait Held<A: Allocator>: Sized + PartialEq + Drop {
    fn copied(&self, alloc: A) -> Result<Self, WireError>;

    fn owned(self, alloc: A) -> Result<Self, WireError>;
}

impl<A: Allocator + Copy> Held<A> for Text<'_, A> {
    fn copied(&self, _: A) -> Result<Self, WireError> {
        Ok(self.clone()?)
    }

    fn owned(self, alloc: A) -> Result<Self, WireError> {
        self.into_owned(alloc)
    }
}

impl<A: Allocator + Copy> Held<A> for Numbers<'_, A> {
    fn copied(&self, _: A) -> Result<Self, WireError> {
        Ok(self.clone()?)
    }

    fn owned(self, alloc: A) -> Result<Self, WireError> {
        self.into_owned(alloc)
    }
}

impl<A: Allocator + Copy> Held<A> for Texts<'_, A> {
    fn copied(&self, alloc: A) -> Result<Self, WireError> {
        self.clone(alloc)
    }

    fn owned(self, alloc: A) -> Result<Self, WireError> {
        self.into_owned(alloc)
    }
}

// Whether a copy was refused, or is this value.
fn is_copy<T: PartialEq + Drop>(copy: Result<T, WireError>, value: &T) -> Option<bool> {
    match copy {
        Ok(copy) => (copy == *value).then_some(false),
        Err(error) => is_refused(&error).then_some(true),
    }
}

// Whether the copy of a value was refused, or is this one.
fn copies_once<T, A>(alloc: A, value: T, by_clone: bool, same: &T) -> Option<bool>
where
    T: Held<A>,
    A: Allocator + Copy,
{
    if by_clone {
        is_copy(value.copied(alloc), same)
    } else {
        is_copy(value.owned(alloc), same)
    }
}

// Whether the copy of a value that is lent was refused, or is this one. That it is owned or lent as
// it must be, its requests for memory tell: what is lent takes none, and can't be made of what is
// owned.
fn copies<T, A>(
    heap: &Heap,
    alloc: A,
    lent: T,
    copying: Copying,
    nth: u64,
    same: &T,
) -> Option<bool>
where
    T: Held<A>,
    A: Allocator + Copy,
{
    heap.refuse(NEVER);
    let (of_owned, by_clone) = match copying {
        Copying::CloneLent => (false, true),
        Copying::CloneOwned => (true, true),
        Copying::OwnLent => (false, false),
        Copying::OwnOwned => (true, false),
    };
    let value = if of_owned {
        lent.owned(alloc).ok()?
    } else {
        lent
    };
    heap.refuse(nth);
    copies_once(alloc, value, by_clone, same)
}

// Whether a copy that a derive makes was refused, or is equal.
fn clones<T: Clone + PartialEq + Drop>(heap: &Heap, value: T, nth: u64) -> Option<bool> {
    heap.refuse(nth);
    match value.clone() {
        Ok(copy) => (copy == value).then_some(false),
        Err(_) => Some(true),
    }
}

// A text of its own.
fn owned_text<'a, A: Allocator + Copy>(alloc: A) -> Option<Text<'a, A>> {
    text().into_owned(alloc).ok()
}

// Puts one after the others, if there is memory.
fn is_pushed<'a, A: Allocator + Copy>(alloc: A, texts: &mut Vec<Text<'a, A>, A>) -> bool {
    match owned_text(alloc) {
        Some(text) => texts.push(text).is_ok(),
        None => false,
    }
}

// Two of them.
fn two_texts<'a, A: Allocator + Copy>(alloc: A) -> Option<Vec<Text<'a, A>, A>> {
    let mut texts = Vec::new(alloc);
    let are_two = is_pushed(alloc, &mut texts) && is_pushed(alloc, &mut texts);
    if are_two { Some(texts) } else { None }
}

/// Whether a copy of what is made of owned texts was refused, or is equal.
pub fn clones_owner<A>(heap: &Heap, alloc: A, owner: Owner, nth: u64) -> Option<bool>
where
    A: Allocator + Copy,
{
    heap.refuse(NEVER);
    let text = owned_text(alloc)?;
    match owner {
        Owner::Both => clones_both(heap, alloc, text, nth),
        Owner::Either => clones(heap, Either::<Text<'_, A>, RawInt<u8>>::Left(text), nth),
        Owner::Const => clones(heap, Const::<Text<'_, A>, u8>::new(text), nth),
    }
}

// The same of two texts.
fn clones_both<A>(heap: &Heap, alloc: A, text: Text<'_, A>, nth: u64) -> Option<bool>
where
    A: Allocator + Copy,
{
    match owned_text(alloc) {
        Some(other) => clones(heap, Both(text, other), nth),
        None => None,
    }
}

// ---- reading

// Whether they are 1 and 2.
fn are_two(numbers: &[RawInt<LeU16>]) -> bool {
    match numbers {
        [one, two] => (one.0 == 1) & (two.0 == 2),
        _ => false,
    }
}

// Whether it is the list, and owned.
fn is_list<A: Allocator + Copy>(list: &List<'_, A>) -> bool {
    are_two(list.as_slice()) & matches!(list.0, CowSlice::Owned(_))
}

/// Whether the text `abc` is read, and how many bytes are left.
pub fn reads_text<A: Allocator + Copy>(alloc: A, reading: Reading, input: &[u8]) -> (bool, usize) {
    let (text, left) = read::<Text<'_, A>, A>(alloc, reading, input);
    match text {
        Ok(text) => (text.eq_bytes(b"abc"), left),
        Err(_) => (false, left),
    }
}

/// Whether a list was refused, this many bytes being left then; else it is the list, and owned, and
/// this many are left.
pub fn reads_list<A>(alloc: A, reading: Reading, if_refused: usize, left: usize) -> Option<bool>
where
    A: Allocator + Copy,
{
    let (list, there) = read::<List<'_, A>, A>(alloc, reading, LIST);
    match list {
        Ok(list) => (is_list(&list) & (there == left)).then_some(false),
        Err(fault) => ((fault == Answer::OutOfMemory) & (there == if_refused)).then_some(true),
    }
}

/// The same of the elements after the count.
pub fn reads_elements<A: Allocator + Copy>(alloc: A) -> Option<bool> {
    let mut buf = ParseBuf(LIST);
    match <LeU32 as SeqRepr>::deserialize::<RawInt<LeU16>, A>(alloc, (), &mut buf) {
        Ok(items) => (are_two(items.as_slice()) & (buf.len() == 1)).then_some(false),
        Err(error) => (is_refused(&error) & (buf.len() == 5)).then_some(true),
    }
}

// Whether a text that is pushed was refused, and the list is as it was; else it has one more.
fn pushes_onto<'a, A>(heap: &Heap, alloc: A, list: &mut Texts<'a, A>, nth: u64) -> Option<bool>
where
    A: Allocator + Copy,
{
    heap.refuse(nth);
    let is_refused = match list.push(alloc, RawBytes::from(b"c".as_slice())) {
        Ok(()) => false,
        Err(error) => is_refused(&error),
    };
    let left = heap.left();
    let bytes = if is_refused {
        b"\x02\0\0\0\x03abc\x03abc".as_slice()
    } else {
        b"\x03\0\0\0\x03abc\x03abc\x01c"
    };
    let is_there = is_written(heap, list, bytes);
    heap.refuse(left);
    is_there.then_some(is_refused)
}

// The same onto a list of two that is lent.
fn pushes_onto_lent<A: Allocator + Copy>(heap: &Heap, alloc: A, nth: u64) -> Option<bool> {
    let texts = two_texts(alloc)?;
    pushes_onto(heap, alloc, &mut list(texts.as_slice()), nth)
}

// A list of two, read.
fn read_two<'a, A: Allocator + Copy>(alloc: A, input: &'a [u8]) -> Option<Texts<'a, A>> {
    let mut buf = ParseBuf(input);
    buf.parse_in(alloc, ()).ok()
}

// The same onto a list of two that is read.
fn pushes_onto_read<'a, A>(heap: &Heap, alloc: A, input: &'a [u8], nth: u64) -> Option<bool>
where
    A: Allocator + Copy,
{
    pushes_onto(heap, alloc, &mut read_two(alloc, input)?, nth)
}

/// Whether a text that is pushed after two was refused, and the list is as it was; else it has
/// three.
pub fn pushes_text<A>(heap: &Heap, alloc: A, onto: Onto, nth: u64) -> Option<bool>
where
    A: Allocator + Copy,
{
    heap.refuse(NEVER);
    match onto {
        Onto::Lent => pushes_onto_lent(heap, alloc, nth),
        Onto::Read => pushes_onto_read(heap, alloc, b"\x02\0\0\0\x03abc\x03abc", nth),
    }
}

fn text<'a, A: Allocator>() -> Text<'a, A> {
    RawBytes::from(b"abc".as_slice())
}

fn numbers<'a, A: Allocator>() -> Numbers<'a, A> {
    RawSeq::new(CowSlice::Borrowed(b"ab"))
}

fn list<'a, A: Allocator + Copy>(texts: &'a [Text<'a, A>]) -> Texts<'a, A> {
    Seq::new(CowSlice::Borrowed(texts))
}

fn copies_text<A>(heap: &Heap, alloc: A, copying: Copying, nth: u64) -> Option<bool>
where
    A: Allocator + Copy,
{
    copies(heap, alloc, text(), copying, nth, &text())
}

fn copies_numbers<A>(heap: &Heap, alloc: A, copying: Copying, nth: u64) -> Option<bool>
where
    A: Allocator + Copy,
{
    copies(heap, alloc, numbers(), copying, nth, &numbers())
}

fn copies_texts<'a, A>(
    heap: &Heap,
    alloc: A,
    texts: &'a [Text<'a, A>],
    copying: Copying,
    nth: u64,
) -> Option<bool>
where
    A: Allocator + Copy,
{
    copies(heap, alloc, list(texts), copying, nth, &list(texts))
}

/// Whether a copy was refused, or is the value.
pub fn copies_held<A>(
    heap: &Heap,
    alloc: A,
    holding: Holding,
    copying: Copying,
    nth: u64,
) -> Option<bool>
where
    A: Allocator + Copy,
{
    match holding {
        Holding::Text => copies_text(heap, alloc, copying, nth),
        Holding::Numbers => copies_numbers(heap, alloc, copying, nth),
        Holding::Texts => {
            heap.refuse(NEVER);
            let texts = two_texts(alloc)?;
            copies_texts(heap, alloc, texts.as_slice(), copying, nth)
        }
    }
}

/// Whether the text after its length was refused where it is read from a stream, or is there.
pub fn reads_stream<A: Allocator>(alloc: A) -> Option<bool> {
    let mut reader = b"\x03abc".as_slice();
    match reader.read_lenenc_str(alloc) {
        Ok(text) => same(text.as_slice(), b"abc").then_some(false),
        Err(error) => is_refused(&error).then_some(true),
    }
}

/// Whether the string that a text is shown as was refused, or is this one.
pub fn shows_text<A: Allocator + Copy>(alloc: A, bytes: &[u8], string: &str) -> Option<bool> {
    let text: Text<'_, A> = RawBytes::from(bytes);
    match text.as_str(alloc) {
        Ok(shown) => (shown.as_str() == string).then_some(false),
        Err(error) => is_refused(&error).then_some(true),
    }
}

// ---- what asks for no memory

/// Whether the text `abc` is read by its representation from the front of the input, and a byte is
/// left.
pub fn reads_by_representation<A: Allocator + Copy>(input: &[u8]) -> bool {
    let mut buf = ParseBuf(input);
    match <LenEnc as BytesRepr>::deserialize::<A>((), &mut buf) {
        Ok(text) => same(text.as_slice(), b"abc") & (buf.len() == 1),
        Err(_) => false,
    }
}

/// Calls the laws of a text, which do nothing.
pub fn know_text<A: Allocator + Copy>() {
    knows::<Text<'_, A>, A>(&text());
}

/// Whether the calls of a text in hand give what they must, the next request being refused.
pub fn texts_work<A: Allocator + Copy>(heap: &Heap, alloc: A) -> bool {
    let lent: Text<'_, A> = text();
    let mut all = (lent.len() == 3) & !lent.is_empty() & same(lent.as_bytes(), b"abc");
    all &= lent.eq_bytes(b"abc");
    let empty = Text::<'_, A>::default();
    all &= empty.is_empty() & empty.eq_bytes(b"");
    heap.refuse(NEVER);
    let mut bytes = Vec::new(alloc);
    all &= bytes.extend_from_slice(b"abc").is_ok();
    heap.refuse(0);
    let owned: Text<'_, A> = RawBytes::from(bytes);
    all & owned.eq_bytes(b"abc")
}

// Whether the calls of a list say that it has this many values.
fn has_values<A: Allocator>(list: &List<'_, A>, count: usize) -> bool {
    (list.len() == count) & (list.is_empty() == (count == 0)) & (list.as_slice().len() == count)
}

/// The same of a list.
pub fn lists_work<A: Allocator>() -> bool {
    let one = [RawInt::new(1)];
    has_values::<A>(&Seq::new(CowSlice::Borrowed(&one)), 1)
        & has_values::<A>(&Seq::empty(), 0)
        & has_values::<A>(&Seq::default(), 0)
}

/// The same of numbers.
pub fn numbers_work<A: Allocator>() -> bool {
    let lent: Numbers<'_, A> = numbers();
    (lent.len() == 2) & !lent.is_empty() & lent.get(1).is_some()
}
