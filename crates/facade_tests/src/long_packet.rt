//! A packet whose bytes lie in two places, sent.

use bytes::BytesMut;
use mysql_wire_examples::long_packet::send_in_two;
use std::alloc::Global;
use std::test::Fail;
use test_support::facts::{are_parts, ensure, no_row, wrong_row};

// An id, both parts of a packet, and the packet as it goes out.
const PACKETS: &[(u8, &[u8], &[u8], &[u8])] = &[
    (0, b"", b"", b"\0\0\0\0"),
    (255, b"\x03", b"", b"\x01\0\0\xff\x03"),
    (0, b"", b"abc", b"\x03\0\0\0abc"),
    (
        7,
        b"\x18\x01\0\0\0\0\0",
        b"long",
        b"\x0b\0\0\x07\x18\x01\0\0\0\0\0long",
    ),
];

fn goes(alloc: Global, row: (u8, &'static [u8], &'static [u8], &'static [u8])) -> bool {
    let (id, front, behind, framed) = row;
    let mut output = BytesMut::new(alloc);
    let next = send_in_two(id, front, behind, &mut output);
    (next == Ok(id.wrapping_add(1))) & (output.as_slice() == framed)
}

// A full chunk ends in an empty one.
fn is_full_chunk_sent(alloc: Global, len: usize) -> bool {
    let mut long = Vec::new(alloc);
    let _ = long.resize(len, 7);
    let mut output = BytesMut::new(alloc);
    let next = send_in_two(254, b"a", long.as_slice(), &mut output);
    let framed = [
        b"\xff\xff\xff\xfea".as_slice(),
        long.as_slice(),
        b"\0\0\0\xff",
    ];
    (next == Ok(0)) & are_parts(output.as_slice(), framed)
}

#[test]
fn a_packet_goes_out_in_two(rt: HostRuntime) -> Result<(), Fail> {
    match wrong_row(rt.alloc(), PACKETS, goes) {
        None => ensure(is_full_chunk_sent(rt.alloc(), 16777214), "a full chunk"),
        wrong => no_row(wrong),
    }
}
