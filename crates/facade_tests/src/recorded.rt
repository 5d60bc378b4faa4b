//! The callers over streams that were recorded, run.

use mysql_wire_examples::recording::{begins_with, replay, take_counted};
use mysql_wire_examples::values::receive_packets;
use std::alloc::Global;
use std::test::Fail;
use test_support::facts::{all_hold, no_row, wrong_row};
use test_support::receiver::are_packets;

// Packets of one byte, none and two.
const STREAM: &[u8] = b"\x01\0\0\0a\0\0\0\x01\x02\0\0\x02bc";

// An id, a packet, and whether the stream begins with it.
const FRONTS: &[(u8, &[u8], bool)] = &[
    (0, b"a", true),
    (0, b"b", false),
    (0, b"", false),
    (0, b"abcdefghijklmno", false),
    (1, b"a", false),
];

fn begins(alloc: Global, row: (u8, &'static [u8], bool)) -> bool {
    let (id, packet, wanted) = row;
    match begins_with(alloc, id, STREAM, packet) {
        Ok(is_it) => is_it == wanted,
        Err(_) => false,
    }
}

// Whether a stream that came in three pieces has these packets, and they come once more.
fn is_replayed(alloc: Global, limit: usize) -> Option<bool> {
    let Ok(received) = receive_packets(alloc, limit, STREAM, (3, 4)) else {
        return None;
    };
    match replay(alloc, limit, &[STREAM], received.as_slice()) {
        Ok(packets) => Some(are_packets(packets.as_slice(), &[b"a", b"", b"bc"])),
        Err(_) => Some(false),
    }
}

// How many packets are counted, and whether they are these.
fn counted(alloc: Global, limit: usize) -> Option<(u64, u64, bool)> {
    match take_counted(alloc, limit, &[&STREAM[..7], &STREAM[7..]]) {
        Ok((tally, packets)) => {
            let are_there = are_packets(packets.as_slice(), &[b"a", b"", b"bc"]);
            Some((tally.packets, tally.bytes, are_there))
        }
        Err(_) => None,
    }
}

#[test]
fn a_stream_is_compared_and_comes_once_more(rt: HostRuntime) -> Result<(), Fail> {
    let alloc = rt.alloc();
    match wrong_row(alloc, FRONTS, begins) {
        None => all_hold(&[
            is_replayed(alloc, 2) == Some(true),
            is_replayed(alloc, 1).is_none(),
            counted(alloc, 2) == Some((3, 3, true)),
            counted(alloc, 1).is_none(),
        ]),
        wrong => no_row(wrong),
    }
}
