//! Streams are shown as lines, and numbered anew.

use mysql_wire_jobs::answers::LIMIT;
use mysql_wire_jobs::digest::{Digest, Sink};
use mysql_wire_jobs::draws::{Draws, Letters};
use mysql_wire_jobs::streams::{Stream, make_stream};
use mysql_wire_tool_commands::reframe::run_reframe;
use mysql_wire_tool_commands::unframe::run_unframe;
use std::alloc::Global;

// How many bytes a read of the program asks for.
const STEP: usize = 8192;

fn shown(alloc: Global, stream: &Stream) -> Option<u64> {
    let mut input = stream.as_slice();
    let mut output = Sink::new(Vec::new(alloc));
    match run_unframe(alloc, STEP, LIMIT, &mut input, &mut output) {
        0 => Some(output.value()),
        _ => None,
    }
}

fn framed(alloc: Global, stream: &Stream) -> Option<u64> {
    let output = Sink::new(Vec::new(alloc));
    match run_reframe(alloc, LIMIT, stream.as_slice(), output) {
        (0, _, output) => Some(output.value()),
        _ => None,
    }
}

// About how many bytes the packets of a stream have, and how many the stream.
const SIZES: [(usize, usize); 4] = [
    (8, 100000),
    (60, 600000),
    (1000, 6000000),
    (300000, 6000000),
];

/// Small packets, rows, and large values, each stream shown and numbered anew.
pub fn show_streams(
    alloc: Global,
    draws: &mut Draws,
    letters: &Letters,
    rounds: usize,
) -> Option<u64> {
    let mut digest = Digest::new();
    for _ in 0..rounds {
        for (len, total) in SIZES {
            let stream = make_stream(alloc, draws, letters, len, total)?;
            digest.add(shown(alloc, &stream)?);
            digest.add(framed(alloc, &stream)?);
        }
    }
    Some(digest.value())
}
