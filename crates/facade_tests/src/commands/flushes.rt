// The commands with a writer whose flush fails, as that of standard output doesn't.

use mysql_wire_tool_commands::chunk::run_chunk;
use mysql_wire_tool_commands::frame::run_frame;
use mysql_wire_tool_commands::reframe::run_reframe;
use mysql_wire_tool_commands::unframe::{run_unframe, run_unframe_limited};
use std::io;
use std::io::{ErrorKind, Write};
use std::test::Fail;
use test_support::facts::{ensure, same};

// Takes each write.
#[derive(Clone, Copy)]
struct Unflushed;

impl Write for Unflushed {
    fn write(&mut self, buf: &[u8]) -> io::Result<usize> {
        Ok(buf.len())
    }

    fn flush(&mut self) -> io::Result<()> {
        Err(io::Error::from(ErrorKind::Other))
    }
}

const PACKET: &[u8] = b"\x03\0\0\0123";

#[test]
fn a_failed_flush_is_told(rt: HostRuntime) -> Result<(), Fail> {
    let alloc = rt.alloc();
    let mut output = Unflushed;
    // `unframe` ends at the header of the packet, which is too large, so that its first flush is its
    // last.
    let statuses = [
        run_frame(alloc, 0, &mut PACKET, &mut output),
        run_chunk(alloc, &mut PACKET, &mut output),
        run_unframe(alloc, 4, 2, &mut PACKET, &mut output),
        run_unframe_limited(alloc, 4, 2, 2, 0, &mut PACKET, &mut output),
        run_reframe(alloc, 3, PACKET, output).0,
    ];
    ensure(same(&statuses, &[2; 5]), "a failed flush is not told")
}
