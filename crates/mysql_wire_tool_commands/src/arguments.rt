//! What the words on the command line ask for.

ghost use Rattle.std.specs.Prelude.{◌≡◌, ◌↔◌, [], ◌∷◌, codes, map, string_bytes};
ghost use Rattle.std.specs.Io.KnownBytes.{Keeps};
ghost use Rattle.std.specs.Option.{SomeIff};
ghost use Rattle.std.specs.Str.Parse.{digits_value};
ghost use Rattle.mysql_wire_tool_commands.specs.Numbers.{IsNumber, IsStep};

use crate::chunk::run_chunk;
use crate::frame::run_frame;
use crate::reframe::run_reframe;
use crate::traced_read::Unnoted;
use crate::unframe::{run_unframe, run_unframe_limited};
use std::alloc::Allocator;
use std::io::{Read, Write};

/// One of the program's commands.
#[derive(Clone, Copy)]
pub enum Request {
    /// `frame ID`
    Frame(u8),
    /// `chunk`
    Chunk,
    /// `unframe STEP LIMIT`: this many bytes asked of a read, and at most this many a packet.
    Unframe {
        step: usize,
        limit: usize,
    },
    /// `unframe STEP LIMIT LATER AT`: the same, with another limit for bytes from a place on.
    UnframeLimited {
        step: usize,
        limit: usize,
        later: usize,
        at: usize,
    },
    /// `reframe LIMIT`: at most this many bytes a packet.
    Reframe(usize),
}

// The most that a limit may be, or a place in the input.
const MOST: u64 = 4294967295;

// The number that one to ten digits write, where it is at most `most`.
fn number(word: &str, most: u64) -> Option<u64>
    ensures { SomeIff result (IsNumber word.now most) (digits_value 10 word.now) }
{
    if word.len() > 10 || word.starts_with('+') {
        return None;
    }
    match word.parse::<u64>() {
        Ok(number) if number <= most => Some(number),
        _ => None,
    }
}

// The number of a step, which is at least 1.
fn step_number(word: &str) -> Option<u64>
    ensures { SomeIff result (IsStep word.now) (digits_value 10 word.now) }
{
    match number(word, 65536) {
        Some(step) if step > 0 => Some(step),
        _ => None,
    }
}

// The number of a limit, or of a place in the input.
fn limit_number(word: &str) -> Option<usize>
    ensures { SomeIff result (IsNumber word.now 4294967295) (digits_value 10 word.now) }
{
    match number(word, MOST) {
        Some(limit) => Some(limit as usize),
        None => None,
    }
}

// The numbers of a step and of a limit.
fn step_and_limit(step: &str, limit: &str) -> Option<(usize, usize)>
    ensures { SomeIff result (IsStep step.now × IsNumber limit.now 4294967295)
        (digits_value 10 step.now, digits_value 10 limit.now) }
{
    match (step_number(step), limit_number(limit)) {
        (Some(step), Some(limit)) => Some((step as usize, limit)),
        _ => None,
    }
}

// The numbers of two limits.
fn two_limits(first: &str, second: &str) -> Option<(usize, usize)>
    ensures { SomeIff result (IsNumber first.now 4294967295 × IsNumber second.now 4294967295)
        (digits_value 10 first.now, digits_value 10 second.now) }
{
    match (limit_number(first), limit_number(second)) {
        (Some(first), Some(second)) => Some((first, second)),
        _ => None,
    }
}

impl Request {
    ghost use Rattle.mysql_wire_tool_commands.specs.Arguments.{Asked};

    // What `frame` and the words after it ask for.
    fn frame<A: Allocator>(words: &[String<A>]) -> Option<Request>
        ensures { Asked (codes "frame" ∷ map string_bytes words.now) result }
    {
        match words {
            [id] => Some(Request::Frame(number(id.as_str(), 255)? as u8)),
            _ => None,
        }
    }

    // What `chunk` and the words after it ask for.
    fn chunk<A: Allocator>(words: &[String<A>]) -> Option<Request>
        ensures { Asked (codes "chunk" ∷ map string_bytes words.now) result }
    {
        match words {
            [] => Some(Request::Chunk),
            _ => None,
        }
    }

    // What `reframe` and the words after it ask for.
    fn reframe<A: Allocator>(words: &[String<A>]) -> Option<Request>
        ensures { Asked (codes "reframe" ∷ map string_bytes words.now) result }
    {
        match words {
            [limit] => Some(Request::Reframe(limit_number(limit.as_str())?)),
            _ => None,
        }
    }

    // What `unframe` with these words after it asks for.
    fn unframe_under(step: &str, limit: &str) -> Option<Request>
        ensures { Asked (codes "unframe" ∷ step.now ∷ limit.now ∷ []) result }
    {
        let (step, limit) = step_and_limit(step, limit)?;
        Some(Request::Unframe { step, limit })
    }

    // What `unframe` with these words after it asks for.
    fn unframe_limited(step: &str, limit: &str, later: &str, at: &str) -> Option<Request>
        ensures { Asked (codes "unframe" ∷ step.now ∷ limit.now ∷ later.now ∷ at.now ∷ []) result }
    {
        let (step, limit) = step_and_limit(step, limit)?;
        let (later, at) = two_limits(later, at)?;
        Some(Request::UnframeLimited {
            step,
            limit,
            later,
            at,
        })
    }

    // What `unframe` and the words after it ask for.
    fn unframe<A: Allocator>(words: &[String<A>]) -> Option<Request>
        ensures { Asked (codes "unframe" ∷ map string_bytes words.now) result }
    {
        match words {
            [step, limit] => Request::unframe_under(step.as_str(), limit.as_str()),
            [step, limit, later, at] => Request::unframe_limited(
                step.as_str(),
                limit.as_str(),
                later.as_str(),
                at.as_str(),
            ),
            _ => None,
        }
    }

    // What the words ask for.
    fn of<A: Allocator>(words: &[String<A>]) -> Option<Request>
        ensures { Asked (map string_bytes words.now) result }
    {
        let [name, others @ ..] = words else {
            return None;
        };
        match name.as_str() {
            "frame" => Request::frame(others),
            "chunk" => Request::chunk(others),
            "reframe" => Request::reframe(others),
            "unframe" => Request::unframe(others),
            _ => None,
        }
    }
}

ghost use Rattle.mysql_wire_tool_commands.specs.Arguments.{Asks, RequestEnds};

/// Runs the command that the words after the program's name ask for. The answer is the exit status:
/// that of the command, or 1 where the words ask for none, and then nothing was read or written.
/// Input and output are handed back, as they are then.
pub fn run_words<A: Allocator + Copy, R: Read, W: Write>(
    alloc: A,
    words: &[String<A>],
    input: R,
    mut output: W,
) -> (u8, R, W)
    ensures ran { (request : Request) → Asks (map string_bytes words.now) request
        → RequestEnds request result.0 (R.remaining input) (R.remaining result.1)
        (W.contents output) (W.contents result.2) }
    ensures refused { (result.0 ≡ 1)
        ↔ ((request : Request) → ¬ (Asks (map string_bytes words.now) request)) }
    ensures untouched { result.0 ≡ 1 → Keeps (R.remaining input) (R.remaining result.1)
        × Keeps (W.contents output) (W.contents result.2) }
{
    let mut input = Unnoted(input);
    let status = match Request::of(words) {
        None => 1,
        Some(Request::Frame(id)) => run_frame(alloc, id, &mut input, &mut output),
        Some(Request::Chunk) => run_chunk(alloc, &mut input, &mut output),
        Some(Request::Unframe { step, limit }) => {
            run_unframe(alloc, step, limit, &mut input, &mut output)
        }
        Some(
            Request::UnframeLimited {
                step,
                limit,
                later,
                at,
            },
        ) => run_unframe_limited(alloc, step, limit, later, at, &mut input, &mut output),
        Some(Request::Reframe(limit)) => {
            let (status, Unnoted(input), output) = run_reframe(alloc, limit, input, output);
            return (status, input, output);
        }
    };
    let Unnoted(input) = input;
    (status, input, output)
}
