// Readers of std, and one of a test's own, which keeps each of its reads.

ghost use Rattle.std.specs.Prelude.{◌≡◌, ◌<◌, List, [], Option, Some, None, IfSome, IsFalse, if◌then◌else◌};
ghost use Rattle.mysql_wire_tool_commands.specs.declared.traced_read.OneRead.{OneRead};
ghost use Rattle.mysql_wire_tool_commands.specs.Reads.{EachAskedFor};

use mysql_wire_tool_commands::traced_read::{OneRead, TracedRead};
use mysql_wire_tool_commands::unframe::run_unframe_limited;
use std::alloc::Global;
use std::io;
use std::io::{BufReader, Cursor, Read};
use std::test::Fail;
use test_support::facts::{ensure, same};

// Two packets.
const INPUT: &[u8] = b"\x03\0\0\0123\0\0\0\x01";

// Gives what a read asks for, and keeps each of its reads.
#[derive(Drop)]
struct Keeping<'a> {
    bytes: &'a [u8],
    reads: Vec<OneRead>,
    // Whether there was no memory to keep one.
    lost: bool,
}

impl Read for Keeping<'_> {
    fn read(&mut self, buf: &mut [u8]) -> io::Result<usize> {
        self.read_noted(buf)
    }
}

impl TracedRead for Keeping<'_> {
    ghost reads = { λ reader. if reader.lost then None else Some reader.reads.items };

    fn read_noted(&mut self, buf: &mut [u8]) -> io::Result<usize> {
        let result = self.bytes.read(buf);
        let came = match &result {
            Ok(came) => *came,
            Err(_) => 0,
        };
        let read = OneRead {
            asked: buf.len(),
            came,
        };
        if self.reads.push(read).is_err() {
            self.lost = true;
        }
        result
    }
}

fn reader(alloc: Global) -> Keeping<'static>
    ensures none { result.reads.items ≡ [] }
    ensures kept { IsFalse result.lost }
{
    Keeping {
        bytes: INPUT,
        reads: Vec::new(alloc),
        lost: false,
    }
}

// The reads of an `unframe`, and its status; none where one was not kept. That each read is asked
// for a step, and none for bytes from a place on from before it, is known by its contract alone.
fn traced_reads(alloc: Global, step: usize, at: usize) -> (u8, Option<Vec<OneRead>>)
    requires { 0 < step }
    ensures { IfSome result.1 (λ reads. EachAskedFor step at 0 reads.items) }
{
    let mut input = reader(alloc);
    let mut output: Vec<u8> = Vec::new(alloc);
    let status = run_unframe_limited(alloc, step, 9, 9, at, &mut input, &mut output);
    let Keeping { reads, lost, .. } = input;
    if lost {
        return (status, None);
    }
    (status, Some(reads))
}

// Those of an `unframe` in steps of 4 bytes, whose limit changes at place 6.
const READS: &[OneRead] = &[
    OneRead { asked: 4, came: 4 },
    OneRead { asked: 2, came: 2 },
    OneRead { asked: 4, came: 4 },
    OneRead { asked: 4, came: 1 },
    OneRead { asked: 4, came: 0 },
];

#[test]
fn a_reader_knows_its_reads(rt: HostRuntime) -> Result<(), Fail> {
    let (status, Some(reads)) = traced_reads(rt.alloc(), 4, 6) else {
        return Err(Fail::new("a read is not kept"));
    };
    ensure(
        (status == 0) & (reads.as_slice() == READS),
        "reads go otherwise",
    )
}

// Whether a read takes bytes of the input, as one of `unframe` does.
fn is_read<R: TracedRead>(input: &mut R) -> bool {
    let mut bytes = [0; 4];
    let count = input.read_noted(&mut bytes);
    matches!(count, Ok(4)) & same(&bytes, b"\x03\0\0\0")
}

fn is_buffered(alloc: Global) -> bool {
    match BufReader::new(alloc, INPUT) {
        Ok(mut buffered) => is_read(&mut buffered),
        Err(_) => false,
    }
}

#[test]
fn readers_of_std_go_in_as_they_are(rt: HostRuntime) -> Result<(), Fail> {
    let all = is_read(&mut INPUT)
        & is_read(&mut &mut Cursor::new(INPUT))
        & is_read(&mut INPUT.take(100))
        & is_buffered(rt.alloc());
    ensure(all, "bytes are missing")
}
