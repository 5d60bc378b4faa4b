//! The functions that hand out a copy, or a list of what they read, and how often each asks for
//! memory.

use crate::copies::{
    Copying, Holding, Onto, Owner, clones_owner, copies_held, pushes_text, reads_elements,
    reads_list, reads_stream, shows_text,
};
use crate::fixture::Heap;
use crate::reading::Reading;
use crate::requests::{Call, Row};
use std::alloc::Allocator;

/// Those that read a list.
pub const ROWS_READ: &[Row] = &[
    (
        "MyDeserialize::deserialize",
        Call::ReadList(Reading::Deserialize, 5, 1),
        1,
    ),
    (
        "ParseBuf::parse_in",
        Call::ReadList(Reading::ParseIn, 5, 1),
        1,
    ),
    (
        "ParseBuf::parse_unchecked_in",
        Call::ReadList(Reading::ParseUncheckedIn, 5, 1),
        1,
    ),
    ("parse_back", Call::ReadList(Reading::ParseBack, 5, 1), 1),
    // Nothing of a payload is handed back where it is refused.
    (
        "parse_packet_in",
        Call::ReadList(Reading::ParsePacketIn, 9, 1),
        1,
    ),
    ("packet_back", Call::ReadList(Reading::PacketBack, 9, 1), 1),
    ("either", Call::ReadList(Reading::Either, 5, 1), 1),
    ("both", Call::ReadList(Reading::Both, 5, 0), 1),
];

/// Those of a list, numbers or a text in hand.
pub const ROWS_HELD: &[Row] = &[
    // Two texts that are owned are cloned with the list.
    (
        "Seq::clone",
        Call::Copy(Holding::Texts, Copying::CloneLent),
        0,
    ),
    (
        "Seq::clone",
        Call::Copy(Holding::Texts, Copying::CloneOwned),
        3,
    ),
    (
        "Seq::into_owned",
        Call::Copy(Holding::Texts, Copying::OwnLent),
        3,
    ),
    (
        "Seq::into_owned",
        Call::Copy(Holding::Texts, Copying::OwnOwned),
        0,
    ),
    (
        "RawSeq::clone",
        Call::Copy(Holding::Numbers, Copying::CloneLent),
        0,
    ),
    (
        "RawSeq::clone",
        Call::Copy(Holding::Numbers, Copying::CloneOwned),
        1,
    ),
    (
        "RawSeq::into_owned",
        Call::Copy(Holding::Numbers, Copying::OwnLent),
        1,
    ),
    (
        "RawSeq::into_owned",
        Call::Copy(Holding::Numbers, Copying::OwnOwned),
        0,
    ),
    (
        "RawBytes::clone",
        Call::Copy(Holding::Text, Copying::CloneLent),
        0,
    ),
    (
        "RawBytes::clone",
        Call::Copy(Holding::Text, Copying::CloneOwned),
        1,
    ),
    (
        "RawBytes::into_owned",
        Call::Copy(Holding::Text, Copying::OwnLent),
        1,
    ),
    (
        "RawBytes::into_owned",
        Call::Copy(Holding::Text, Copying::OwnOwned),
        0,
    ),
];

/// The others.
pub const ROWS_OTHER: &[Row] = &[
    ("SeqRepr::deserialize", Call::Elements, 1),
    ("Seq::push", Call::PushText(Onto::Lent), 4),
    ("Seq::push", Call::PushText(Onto::Read), 0),
    ("Both::clone", Call::CloneOwner(Owner::Both), 2),
    ("Either::clone", Call::CloneOwner(Owner::Either), 1),
    ("Const::clone", Call::CloneOwner(Owner::Const), 1),
    ("RawBytes::as_str", Call::AsStr(b"Abc", "Abc"), 1),
    ("RawBytes::as_str", Call::AsStr(b"a\xff", "a\u{fffd}"), 1),
    ("ReadMysqlExt::read_lenenc_str", Call::ReadLenencStr, 1),
];

/// Whether the request was refused, and what stands then is right.
pub fn tries<A: Allocator + Copy>(heap: &Heap, alloc: A, call: Call, nth: u64) -> Option<bool> {
    heap.refuse(nth);
    match call {
        Call::ReadList(reading, if_refused, left) => reads_list(alloc, reading, if_refused, left),
        Call::Elements => reads_elements(alloc),
        Call::PushText(onto) => pushes_text(heap, alloc, onto, nth),
        Call::Copy(holding, copying) => copies_held(heap, alloc, holding, copying, nth),
        Call::AsStr(bytes, string) => shows_text(alloc, bytes, string),
        Call::ReadLenencStr => reads_stream(alloc),
        Call::CloneOwner(owner) => clones_owner(heap, alloc, owner, nth),
        _ => None,
    }
}
