//! What the errors say.

use mysql_wire::io::{InvalidLengthEncodedInteger, InvalidReason, WireError};
use mysql_wire::proto::codec::error::PacketCodecError;
use mysql_wire::proto::packet_io::{PacketIoError, PacketReader, PacketWriter};
use std::alloc::Global;
use std::io::{self, ErrorKind};
use std::test::Fail;
use test_support::answers::{shows, shows_debug};
use test_support::facts::all_hold;

const READER: &str =
    "PacketReader { reader: [97], unread: 0, is_lent: false, is_lost: false, reads: 0, .. }";

fn reader_is_debugged(alloc: Global) -> bool {
    let reader = PacketReader::new(alloc, b"a".as_slice()).unwrap();
    shows_debug(alloc, &reader, READER)
}

fn writer_is_debugged(alloc: Global) -> bool {
    let writer = PacketWriter::new(alloc, Vec::<u8>::new(alloc)).unwrap();
    shows_debug(alloc, &writer, "PacketWriter { writer: [], pending: 0 }")
}

const REASONS: &[(InvalidReason, &str)] = &[
    (InvalidReason::UnknownValue, "unknown value"),
    (InvalidReason::ConstMismatch, "constant mismatch"),
    (
        InvalidReason::NoNullTerminator,
        "no null terminator for null-terminated string",
    ),
    (
        InvalidReason::VarLenTooLarge,
        "invalid variable-length value (> u32::MAX)",
    ),
    (
        InvalidReason::VarLenTooLong,
        "invalid variable-length value (more than 5 bytes)",
    ),
];

// Whether each reason shows as its text, alone and as an error.
fn reasons_show(alloc: Global) -> bool {
    let mut all = true;
    for (reason, text) in REASONS {
        all &= shows(alloc, reason, *text);
        all &= shows(alloc, &WireError::InvalidData(*reason), *text);
    }
    all
}

const EOF: &str = "can't parse: buf doesn't have enough data";

const LENGTH: &str = "Invalid length-encoded integer value (starts with 0xfb|0xff)";

const MEMORY: &str = "Out of memory";

const SYNC: &str = "Packets out of sync";

const TOO_LARGE: &str = "Packet is larger than max_allowed_packet";

const END: &str = "unexpected end of input inside a packet";

#[test]
fn errors_show_their_texts(rt: HostRuntime) -> Result<(), Fail> {
    let alloc = rt.alloc();
    let other = WireError::Other(InvalidLengthEncodedInteger);
    let gone = WireError::Io(io::Error::other("gone"));
    let codec_gone = PacketCodecError::Io(io::Error::other("gone"));
    all_hold(&[
        reasons_show(alloc),
        shows(alloc, &InvalidLengthEncodedInteger, LENGTH),
        shows(alloc, &other, LENGTH),
        shows(alloc, &WireError::UnexpectedEof, EOF),
        shows(alloc, &WireError::OutOfMemory, MEMORY),
        shows(alloc, &gone, "gone"),
        shows(alloc, &PacketCodecError::PacketTooLarge, TOO_LARGE),
        shows(alloc, &PacketCodecError::PacketsOutOfSync, SYNC),
        shows(alloc, &PacketCodecError::OutOfMemory, MEMORY),
        shows(alloc, &codec_gone, "IO error: `gone'"),
    ])
}

#[test]
fn readers_and_writers_show_their_texts(rt: HostRuntime) -> Result<(), Fail> {
    let alloc = rt.alloc();
    let eof = PacketIoError::Io(io::Error::from(ErrorKind::UnexpectedEof));
    all_hold(&[
        reader_is_debugged(alloc),
        writer_is_debugged(alloc),
        shows(alloc, &eof, "IO error: `unexpected end of file'"),
        shows(alloc, &PacketIoError::UnexpectedEnd, END),
        shows(alloc, &PacketIoError::WriteZero, "write accepted no bytes"),
        shows(alloc, &PacketIoError::PacketTooLarge, TOO_LARGE),
        shows(alloc, &PacketIoError::PacketsOutOfSync, SYNC),
        shows(alloc, &PacketIoError::OutOfMemory, MEMORY),
    ])
}
