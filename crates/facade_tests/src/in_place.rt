//! The callers that read packets where they lie, run.

use bytes::BytesMut;
use mysql_wire::proto::codec::PacketCodec;
use mysql_wire::proto::packet_io::PacketReader;
use mysql_wire_examples::in_place::{count_packets, count_rows, has_mail};
use std::alloc::Global;
use std::test::Fail;
use test_support::facts::all_hold;

// A row of `a` and `b@c`, and the packet that ends the rows.
const ROWS: &[u8] = b"\x06\0\0\0\x01a\x03b@c\x05\0\0\x01\xfe\0\0\0\0";

// What is said of the row in front, and then of the packet after it.
fn mails(alloc: Global, mail: &[u8]) -> (Option<bool>, Option<bool>) {
    let mut codec = PacketCodec::default();
    let mut src = BytesMut::new(alloc);
    let _ = src.extend_from_slice(ROWS);
    let row = has_mail(&mut codec, &mut src, mail);
    (row, has_mail(&mut codec, &mut src, mail))
}

// How many rows a reader gives.
fn rows_of(reader: &mut PacketReader<&[u8]>) -> Option<u64> {
    let mut codec = PacketCodec::default();
    if !reader.fits(&codec) {
        return None;
    }
    count_rows(&mut codec, reader).ok()
}

// How many rows there are.
fn rows(alloc: Global, bytes: &[u8]) -> Option<u64> {
    rows_of(&mut PacketReader::new(alloc, bytes).unwrap())
}

// Whether two packets of 11 bytes are counted.
fn are_counted(alloc: Global) -> bool {
    match count_packets(alloc, &[&ROWS[..7], &ROWS[7..]]) {
        Ok(tally) => (tally.packets == 2) & (tally.bytes == 11),
        Err(_) => false,
    }
}

#[test]
fn rows_are_read_where_they_lie(rt: HostRuntime) -> Result<(), Fail> {
    let alloc = rt.alloc();
    all_hold(&[
        mails(alloc, b"b@c") == (Some(true), Some(false)),
        mails(alloc, b"a") == (Some(false), Some(false)),
        rows(alloc, ROWS) == Some(1),
        rows(alloc, &ROWS[..10]).is_none(),
        are_counted(alloc),
    ])
}
