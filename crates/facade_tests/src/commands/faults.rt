// The commands over a reader that fails, and `reframe` to a writer that refuses large writes.

use mysql_wire_tool_commands::chunk::run_chunk;
use mysql_wire_tool_commands::frame::run_frame;
use mysql_wire_tool_commands::reframe::run_reframe;
use mysql_wire_tool_commands::traced_read::Unnoted;
use mysql_wire_tool_commands::unframe::{run_unframe, run_unframe_limited};
use std::alloc::Global;
use std::io::ErrorKind;
use std::test::Fail;
use test_support::facts::{ensure, no_row, same, wrong_row};
use test_support::readers::{Narrow, OneByOne};

const PACKET: &[u8] = b"\x03\0\0\0123";

// Its third read fails.
fn failing() -> Unnoted<OneByOne<'static>> {
    Unnoted(OneByOne {
        bytes: PACKET,
        until_fault: 2,
        kind: ErrorKind::Other,
    })
}

#[test]
fn a_failed_read_is_told(rt: HostRuntime) -> Result<(), Fail> {
    let alloc = rt.alloc();
    let mut output: Vec<u8> = Vec::new(alloc);
    let statuses = [
        run_frame(alloc, 0, &mut failing(), &mut output),
        run_chunk(alloc, &mut failing(), &mut output),
        run_unframe(alloc, 4, 3, &mut failing(), &mut output),
        run_unframe_limited(alloc, 4, 3, 3, 1, &mut failing(), &mut output),
        run_reframe(alloc, 3, failing(), Vec::<u8>::new(alloc)).0,
    ];
    ensure(
        same(&statuses, &[2; 5]) & output.is_empty(),
        "a failed read is not told",
    )
}

// Three packets, of 5, 5 and 6 bytes with their headers.
const PACKETS: &[u8] = b"\x01\0\0\0a\x01\0\0\x01b\x02\0\0\x02cd";

// How many bytes a write may have, how many it takes, how many of those bytes go out, and the status.
const WRITES: &[(usize, usize, usize, u8)] = &[
    (16, 16, 16, 0),
    // Each packet is offered alone where all are refused.
    (15, 16, 16, 0),
    (6, 16, 16, 0),
    // The last one is refused alone too.
    (5, 16, 10, 2),
    (4, 16, 0, 2),
    // A part of a write is taken.
    (16, 1, 16, 0),
    (16, 7, 16, 0),
    // Nothing is.
    (16, 0, 0, 2),
];

fn is_sent(alloc: Global, row: (usize, usize, usize, u8)) -> bool {
    let (longest, at_once, sent, wanted) = row;
    let mut output = Narrow::new(alloc, at_once, usize::MAX, ErrorKind::WouldBlock);
    output.longest = longest;
    let (status, _, output) = run_reframe(alloc, 2, PACKETS, output);
    same(output.taken.as_slice(), &PACKETS[..sent.min(16)]) & (status == wanted)
}

#[test]
fn packets_go_to_a_writer_that_refuses_large_writes(rt: HostRuntime) -> Result<(), Fail> {
    no_row(wrong_row(rt.alloc(), WRITES, is_sent))
}
