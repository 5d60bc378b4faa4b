//! The functions that have an allocator within reach and ask for no memory: the next request would
//! be refused, and none is made. Those that take memory of what they are called with, `copies` has.

use crate::answers::Answer;
use crate::copies::{
    know_text, lists_work, numbers_work, reads_by_representation, reads_text, texts_work,
};
use crate::facts::same;
use crate::fixture::{Fixture, Heap};
use crate::packets::{Outlet, Source, answer_by, shown_len};
use crate::reading::Reading;
use crate::receiver::Receiver;
use crate::targets::Target;
use bytes::BytesMut;
use refusing_allocator::NEVER;
use std::alloc::Allocator;
use wire_codec::codec::Skipped;

// What is called, by the names that it covers.
#[derive(Clone, Copy)]
enum Group {
    Reading,
    Texts,
    Lists,
    Numbers,
    Codec,
    InPlace,
    Reader,
    Writer,
}

const ROWS: &[(&[&str], Group)] = &[
    (
        &[
            "MyDeserialize::deserialize",
            "BytesRepr::deserialize",
            "ParseBuf::parse_in",
            "ParseBuf::parse_unchecked_in",
            "parse_packet_in",
            "parse_back",
            "packet_back",
            "either",
            "both",
            "Wire::known",
            "values_come_back",
        ],
        Group::Reading,
    ),
    (
        &[
            "RawBytes::new",
            "RawBytes::from(&'a [u8])",
            "RawBytes::from(Vec<u8, A>)",
            "RawBytes::default",
            "RawBytes::len",
            "RawBytes::is_empty",
            "RawBytes::as_bytes",
            "RawBytes::eq_bytes",
        ],
        Group::Texts,
    ),
    (
        &[
            "Seq::new",
            "Seq::empty",
            "Seq::default",
            "Seq::is_empty",
            "Seq::len",
            "Seq::as_slice",
        ],
        Group::Lists,
    ),
    (
        &[
            "RawSeq::new",
            "RawSeq::is_empty",
            "RawSeq::len",
            "RawSeq::get",
        ],
        Group::Numbers,
    ),
    (
        &[
            "PacketCodec::stands_at",
            "PacketCodec::aligned_at",
            // Where the chunk in front is empty, isn't whole, or is refused.
            "PacketCodec::decode",
            "ChunkDecoder::decode",
            "PacketDst::as_ref",
        ],
        Group::Codec,
    ),
    (
        &[
            "PacketCodec::front_packet",
            "PacketCodec::take_front",
            "PacketCodec::accept_front",
            "PacketCodec::skip",
        ],
        Group::InPlace,
    ),
    (
        &[
            "PacketReader::new",
            "PacketReader::fits",
            "PacketReader::can_skip",
            "PacketReader::can_copy",
            "PacketReader::unread",
            "PacketReader::consume",
            "PacketReader::reads",
            "PacketReader::into_inner",
            // Of a packet that stands ready.
            "PacketReader::fill_packet",
            "PacketReader::is_ready",
            "PacketReader::packet",
            "PacketReader::take_packet",
            "PacketReader::fmt",
        ],
        Group::Reader,
    ),
    (
        &[
            "PacketWriter::new",
            "PacketWriter::pending",
            "PacketWriter::write_pending",
            "PacketWriter::into_inner",
            "PacketWriter::fmt",
        ],
        Group::Writer,
    ),
];

// ---- reading

const TEXT: &[u8] = b"\x03abc\x02";

// What reads a text, and how many bytes it leaves.
const READINGS: &[(Reading, usize)] = &[
    (Reading::Deserialize, 1),
    (Reading::ParseIn, 1),
    (Reading::ParseUncheckedIn, 1),
    (Reading::ParseBack, 1),
    (Reading::ParsePacketIn, 1),
    (Reading::PacketBack, 1),
    (Reading::Either, 1),
    (Reading::Both, 0),
];

fn readings_work<A: Allocator + Copy>(alloc: A) -> bool {
    let mut all = reads_by_representation::<A>(TEXT);
    for (reading, left) in READINGS {
        all &= reads_text(alloc, *reading, TEXT) == (true, *left);
    }
    know_text::<A>();
    all
}

// ---- the codec

// What is to be read, a limit, and what `decode` answers where it takes no payload byte.
type Row<'a> = (&'a [u8], usize, Answer);

const TAKING_NOTHING: &[Row] = &[
    (b"", 9, Answer::Waits),
    (b"\x01\0\0", 9, Answer::Waits),
    (b"\x02\0\0\0\x61", 9, Answer::Waits),
    (b"\xff\xff\xff\x07\x61", usize::MAX, Answer::Waits),
    (b"\0\0\0\0\x61", 0, Answer::Packet),
    (b"\0\0\0\x05", 0, Answer::OutOfSync),
    (b"\x09\0\0\0", 8, Answer::TooLarge),
    (b"\x01\0\0\x05\x61", 0, Answer::TooLarge),
    (b"\xff\xff\xff\0abc", 16777214, Answer::TooLarge),
];

// With a row's bytes to be read, into this target, under its limit. The next request is refused.
fn fixture<'h, A: Allocator + Copy, T: Target>(
    heap: &'h Heap,
    alloc: A,
    target: T,
    row: &Row<'_>,
) -> Fixture<'h, A, T> {
    heap.refuse(NEVER);
    let mut to = Fixture::new(alloc, Some(heap), target);
    to.codec.max_allowed_packet = row.1;
    let _ = to.src.extend_from_slice(row.0);
    heap.refuse(0);
    to
}

// Two calls, of which the second meets a remembered header where the first waits. The codec stands
// before and, its ids set right, after.
fn decodes_nothing_in<A, T>(to: &mut Fixture<'_, A, T>, answer: Answer) -> bool
where
    A: Allocator + Copy,
    T: Target,
{
    let mut all = to.stands() & to.is_aligned() & (to.decode() == answer);
    if answer == Answer::Waits {
        all &= to.decode() == answer;
    } else {
        to.codec.sync_seq_id();
    }
    all &= to.stands() & to.is_aligned() & to.dst.as_ref().is_empty();
    to.codec.sync_seq_id();
    to.codec.reset_seq_id();
    all & (to.requests() == (0, false))
}

fn decodes_nothing<A, T>(heap: &Heap, alloc: A, target: T, row: &Row<'_>) -> bool
where
    A: Allocator + Copy,
    T: Target,
{
    decodes_nothing_in(&mut fixture(heap, alloc, target, row), row.2)
}

// The same of a single chunk, whose id isn't looked at.
fn takes_nothing<A, T>(heap: &Heap, alloc: A, target: T, row: &Row<'_>) -> bool
where
    A: Allocator + Copy,
    T: Target,
{
    let mut to = fixture(heap, alloc, target, row);
    let chunk = to.decode_chunk(row.1);
    let all = ((chunk == row.2) | matches!(chunk, Answer::Last(_))) & to.dst.as_ref().is_empty();
    all & (to.requests() == (0, false))
}

fn codec_works<A: Allocator + Copy>(heap: &Heap, alloc: A) -> bool {
    let mut all = true;
    for row in TAKING_NOTHING {
        all &= decodes_nothing(heap, alloc, Vec::new(alloc), row);
        all &= decodes_nothing(heap, alloc, BytesMut::new(alloc), row);
        all &= takes_nothing(heap, alloc, Vec::new(alloc), row);
    }
    all
}

fn lends<A: Allocator + Copy>(heap: &Heap, alloc: A) -> bool {
    heap.refuse(NEVER);
    let mut to = Receiver::holding(alloc, 2, b"\x02\0\0\0ab");
    heap.refuse(0);
    to.lends(b"ab") & to.take_front() & to.src.is_empty()
}

fn skips<A: Allocator + Copy>(heap: &Heap, alloc: A) -> bool {
    heap.refuse(NEVER);
    let mut to = Receiver::holding(alloc, 2, b"\x02\0\0\0ab");
    let mut skipped = Skipped::behind(0);
    heap.refuse(0);
    let all = matches!(to.codec.skip(&mut to.src, &mut skipped), Ok(true));
    all & to.src.is_empty() & !skipped.is_under_way()
}

// ---- readers and writers

// Whether a packet that was read is lent, and taken, and what is behind it dropped.
fn reader_lends<A: Allocator + Copy>(heap: &Heap, alloc: A) -> bool {
    let Some(mut from) = Source::new(alloc, b"\x02\0\0\0ab\x01\0\0\x01c") else {
        return false;
    };
    heap.refuse(NEVER);
    let mut all = from.fill() == Ok(true);
    heap.refuse(0);
    all &= (from.fill() == Ok(true)) & from.lends(b"ab") & from.take();
    all & from.consume(b"\x01\0\0\x01c") & !from.take()
}

fn reader_works<A: Allocator + Copy>(alloc: A) -> bool {
    let Some(from) = Source::new(alloc, b"ab") else {
        return false;
    };
    let (reader, codec) = (from.reader, from.codec);
    let mut all = reader.fits(&codec) & reader.can_skip(&codec) & reader.can_copy(&codec);
    all &= reader.unread().is_empty() & (reader.reads() == 0) & (shown_len(&reader) > 0);
    all & same(reader.into_inner(), b"ab")
}

// The writer's own memory is another's.
fn writer_works<A: Allocator + Copy>(heap: &Heap, alloc: A) -> bool {
    let Some(mut to) = Outlet::new(alloc) else {
        return false;
    };
    let mut packet = b"ab".as_slice();
    heap.refuse(NEVER);
    let mut all = to.queue(&mut packet) == Answer::Done;
    heap.refuse(0);
    all &= to.writer.pending().len() == 6;
    all &= answer_by(to.writer.write_pending()) == Answer::Done;
    all &= to.writer.pending().is_empty() & (shown_len(&to.writer) > 0);
    let _ = to.writer.into_inner();
    all
}

// ---- all

fn works<A: Allocator + Copy>(heap: &Heap, alloc: A, group: Group) -> bool {
    match group {
        Group::Reading => readings_work(alloc),
        Group::Texts => texts_work(heap, alloc),
        Group::Lists => lists_work::<A>(),
        Group::Numbers => numbers_work::<A>(),
        Group::Codec => codec_works(heap, alloc),
        Group::InPlace => lends(heap, alloc) & skips(heap, alloc),
        Group::Reader => reader_works(alloc) & reader_lends(heap, alloc),
        Group::Writer => writer_works(heap, alloc),
    }
}

/// The first name of a group that goes otherwise.
pub fn first_wrong<A: Allocator + Copy>(heap: &Heap, alloc: A) -> Option<&'static str> {
    let mut wrong = None;
    for (names, group) in ROWS {
        heap.refuse(0);
        if !works(heap, alloc, *group) | heap.has_refused() {
            wrong = names.first().copied();
        }
    }
    wrong
}
