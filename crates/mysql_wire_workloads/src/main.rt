//! The jobs that users wait for, on inputs that a seed makes: `mysql_wire_workloads NAME SEED
//! ROUNDS` prints a digest of all results, and `all` in place of a name one of each job.
#![tactic(auto)]

mod dumping;
mod showing;

use mysql_wire_jobs::draws::{Draws, Letters};
use mysql_wire_jobs::{passing, reading, serving, statements};
use std::alloc::Global;
use std::env;
use std::process::ExitCode;

const NAMES: [&str; 6] = [
    "answers",
    "statements",
    "server",
    "proxy",
    "dump",
    "streams",
];

// The digest of a job; none where a call refused what it was given, or no job has the name.
fn run(alloc: Global, name: &str, seed: u64, rounds: usize) -> Option<u64> {
    let mut draws = Draws::new(seed);
    let letters = Letters::new(alloc, &mut draws).ok()?;
    match name {
        "answers" => reading::read_answers(alloc, &mut draws, &letters, rounds),
        "statements" => statements::execute(alloc, &mut draws, &letters, rounds),
        "server" => serving::serve_answers(alloc, &mut draws, &letters, rounds),
        "dump" => dumping::dump(alloc, &mut draws, &letters, rounds),
        "proxy" => passing::pass_on(alloc, &mut draws, &letters, rounds),
        "streams" => showing::show_streams(alloc, &mut draws, &letters, rounds),
        _ => None,
    }
}

// What the words ask for.
fn words_given(rt: &HostRuntime) -> Option<Vec<String>> {
    env::args(rt).ok()?.skip(1).collect(rt.alloc()).ok()
}

fn print(rt: &HostRuntime, name: &str, seed: u64, rounds: usize) -> Option<()> {
    let value = run(rt.alloc(), name, seed, rounds)?;
    println!(rt; "{name} {value:016x}").ok()
}

fn print_asked(rt: &HostRuntime) -> Option<()> {
    let words = words_given(rt)?;
    let [name, seed, rounds] = words.as_slice() else {
        return None;
    };
    let seed = seed.parse::<u64>().ok()?;
    let rounds = rounds.parse::<usize>().ok()?;
    if name.as_str() != "all" {
        return print(rt, name.as_str(), seed, rounds);
    }
    for name in NAMES {
        print(rt, name, seed, rounds)?;
    }
    Some(())
}

fn main(rt: HostRuntime) -> ExitCode {
    match print_asked(&rt) {
        Some(()) => ExitCode::SUCCESS,
        None => ExitCode::FAILURE,
    }
}
