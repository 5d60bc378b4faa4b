// Commands over bytes in memory: what each writes, and its exit status.

use mysql_wire_tool_commands::arguments::run_words;
use mysql_wire_tool_commands::chunk::run_chunk;
use mysql_wire_tool_commands::frame::run_frame;
use mysql_wire_tool_commands::reframe::run_reframe;
use mysql_wire_tool_commands::unframe::{run_unframe, run_unframe_limited};
use std::alloc::Global;
use std::test::Fail;
use test_support::facts::{ensure, no_row, same, wrong_row};

// A command, and what it is asked for.
#[derive(Clone, Copy)]
enum Command {
    // The first id.
    Frame(u8),
    Chunk,
    // How many bytes a read is asked for, and the limit.
    Unframe(usize, usize),
    // The same, the limit after that, and the place where that begins.
    UnframeLimited(usize, usize, usize, usize),
    // The limit.
    Reframe(usize),
}

// A command, its input, what it writes, and its exit status.
type Row<'a> = (Command, &'a [u8], &'a [u8], u8);

const FRAMED: &[Row] = &[
    (Command::Frame(0), b"123", b"\x03\0\0\x00123", 0),
    (Command::Frame(7), b"ab", b"\x02\0\0\x07ab", 0),
    (Command::Frame(255), b"", b"\0\0\0\xff", 0),
];

const SHOWN: &[Row] = &[
    (
        Command::Chunk,
        b"\x03\0\0\x00123",
        b"last 0 3 313233\nrest 0\n",
        0,
    ),
    (
        Command::Chunk,
        b"\x02\0\0\x07ab\0",
        b"last 7 2 6162\nrest 1\n",
        0,
    ),
    (Command::Chunk, b"\0\0\0\x09", b"last 9 0 -\nrest 0\n", 0),
    (Command::Chunk, b"\x02\0\0", b"none\nrest 3\n", 3),
    (Command::Chunk, b"", b"none\nrest 0\n", 0),
];

const UNFRAMED: &[Row] = &[
    (
        Command::Unframe(1, 10),
        b"\x01\0\0\0a\0\0\0\x01\x02\0",
        b"1 61\n0 -\nrest 2\n",
        3,
    ),
    (
        Command::Unframe(1, 10),
        b"\x01\0\0\0a\x01\0\0\x05b",
        b"1 61\nout of sync\n",
        5,
    ),
    (Command::Unframe(9, 0), b"\x01\0\0\0", b"too large\n", 4),
    (
        Command::Unframe(2, 1),
        b"\x01\0\0\0a\x02\0\0\x01bc",
        b"1 61\ntoo large\n",
        4,
    ),
    (
        Command::UnframeLimited(3, 1, 5, 8),
        b"\x01\0\0\0a\x02\0\0\x01bc",
        b"1 61\n2 6263\nrest 0\n",
        0,
    ),
    (
        Command::UnframeLimited(3, 1, 5, 9),
        b"\x01\0\0\0a\x02\0\0\x01bc",
        b"1 61\ntoo large\n",
        4,
    ),
    (
        Command::UnframeLimited(1, 5, 0, 4),
        b"\x02\0\0\0ab\0\0\0\x01\x01\0\0\x02c",
        b"2 6162\n0 -\ntoo large\n",
        4,
    ),
];

const REFRAMED: &[Row] = &[
    (
        Command::Reframe(10),
        b"\x01\0\0\0a\x02\0\0\x01b",
        b"\x01\0\0\0a",
        3,
    ),
    (Command::Reframe(10), b"\x01\0\0\0a", b"\x01\0\0\0a", 0),
    (Command::Reframe(10), b"", b"", 0),
    (
        Command::Reframe(1),
        b"\x01\0\0\0a\x02\0\0\x01bc",
        b"\x01\0\0\0a",
        4,
    ),
    (
        Command::Reframe(1),
        b"\x01\0\0\0a\x01\0\0\x05b",
        b"\x01\0\0\0a",
        5,
    ),
];

// The status of a command, which writes to the output; of `reframe`, which takes that by value, none.
fn run_over(alloc: Global, command: Command, mut input: &[u8], output: &mut Vec<u8>) -> u8 {
    match command {
        Command::Frame(id) => run_frame(alloc, id, &mut input, output),
        Command::Chunk => run_chunk(alloc, &mut input, output),
        Command::Unframe(step, limit) => {
            run_unframe(alloc, step.max(1), limit, &mut input, output)
        }
        Command::UnframeLimited(step, limit, later, at) => {
            run_unframe_limited(alloc, step.max(1), limit, later, at, &mut input, output)
        }
        Command::Reframe(_) => u8::MAX,
    }
}

// What a command writes, and its status.
fn run(alloc: Global, command: Command, input: &[u8]) -> (Vec<u8>, u8) {
    let mut output = Vec::new(alloc);
    if let Command::Reframe(limit) = command {
        let (status, _, output) = run_reframe(alloc, limit, input, output);
        return (output, status);
    }
    let status = run_over(alloc, command, input, &mut output);
    (output, status)
}

fn goes(alloc: Global, row: Row) -> bool {
    let (command, input, text, wanted) = row;
    let (output, status) = run(alloc, command, input);
    same(output.as_slice(), text) & (status == wanted)
}

#[test]
fn commands_write_their_texts(rt: HostRuntime) -> Result<(), Fail> {
    let alloc = rt.alloc();
    no_row(wrong_row(alloc, FRAMED, goes))?;
    no_row(wrong_row(alloc, SHOWN, goes))?;
    no_row(wrong_row(alloc, UNFRAMED, goes))?;
    no_row(wrong_row(alloc, REFRAMED, goes))
}

// Streams, each under a limit, with what `unframe` writes of it and its status, whatever a read is
// asked for.
const STREAMS: &[(usize, &[u8], &[u8], u8)] = &[
    (
        1,
        b"\x01\0\0\0a\x01\0\0\x01b\0\0\0\x02",
        b"1 61\n1 62\n0 -\nrest 0\n",
        0,
    ),
    (2, b"\x01\0\0\0a\x03\0\0\x09b", b"1 61\ntoo large\n", 4),
    (3, b"\x01\0\0\0a\x03\0\0\x09b", b"1 61\nrest 5\n", 3),
    (3, b"\x01\0\0\0a\x03\0\0\x09bcd", b"1 61\nout of sync\n", 5),
];

#[test]
fn unframe_writes_the_same_for_each_step(rt: HostRuntime) -> Result<(), Fail> {
    let mut all = true;
    for step in 1..16 {
        for (limit, input, text, status) in STREAMS {
            let row = (Command::Unframe(step, *limit), *input, *text, *status);
            all &= goes(rt.alloc(), row);
        }
    }
    ensure(all, "a step changes what is written")
}

// Words, an input, what is written, and the exit status: each command by its words, and words that ask
// for none.
const LINES: &[(&[&str], &[u8], &[u8], u8)] = &[
    (&["frame", "0000000255"], b"", b"\0\0\0\xff", 0),
    (&["chunk"], b"\x02\0\0", b"none\nrest 3\n", 3),
    (&["unframe", "9", "0"], b"\x01\0\0\0", b"too large\n", 4),
    (
        &["unframe", "1", "5", "0", "4"],
        b"\x02\0\0\0ab\x01\0\0\x01c",
        b"2 6162\ntoo large\n",
        4,
    ),
    (&["reframe", "1"], b"\x01\0\0\0a", b"\x01\0\0\0a", 0),
    (&["frame", "256"], b"ab", b"", 1),
    (&["frame"], b"ab", b"", 1),
    (&["frame", "x"], b"ab", b"", 1),
    (&["frame", "00000000001"], b"ab", b"", 1),
    (&["unframe", "0", "1"], b"ab", b"", 1),
    (&["unframe", "65537", "1"], b"ab", b"", 1),
];

// The words, of which none is left out where there is memory.
fn words_of(alloc: Global, words: &[&str]) -> Vec<String> {
    let mut given = Vec::new(alloc);
    for word in words {
        if let Ok(word) = word.to_string(alloc) {
            let _ = given.push(word);
        }
    }
    given
}

fn is_answered(alloc: Global, row: (&[&str], &[u8], &[u8], u8)) -> bool {
    let (words, input, text, wanted) = row;
    let words = words_of(alloc, words);
    let (status, _, output) = run_words(alloc, words.as_slice(), input, Vec::new(alloc));
    same(output.as_slice(), text) & (status == wanted)
}

#[test]
fn words_run_their_commands(rt: HostRuntime) -> Result<(), Fail> {
    no_row(wrong_row(rt.alloc(), LINES, is_answered))
}
