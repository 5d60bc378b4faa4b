//! A dump of sessions that a seed makes: `mysql_wire_dump_workload SEED ROUNDS` prints a digest of
//! all that `run_dump` wrote, and how many bytes were read and written.
#![tactic(auto)]

use mysql_wire_dump_lines::dump::run_dump;
use mysql_wire_dump_lines::lines::LineForm;
use mysql_wire_dump_lines::options::{Options, Sides};
use mysql_wire_jobs::draws::{Draws, Letters};
use mysql_wire_jobs::making::{Session, make_session};
use std::alloc::Global;
use std::env;
use std::process::ExitCode;

// What came out of all dumps.
#[derive(Clone, Copy)]
struct Counts {
    digest: u64,
    read: u64,
    written: u64,
}

// The forms in which a session is shown: as lines alone and as JSON, each without fields and with.
const FORMS: [(LineForm, bool); 4] = [
    (LineForm::Text, false),
    (LineForm::Text, true),
    (LineForm::Json, false),
    (LineForm::Json, true),
];

// Fletcher's checksum, over words of 64 bits.
fn digest_of(digest: u64, bytes: &[u8]) -> u64 {
    let (words, rest) = bytes.as_chunks::<8>();
    let mut sum = digest;
    let mut sums = bytes.len() as u64;
    for word in words {
        sum = sum.wrapping_add(u64::from_le_bytes(*word));
        sums = sums.wrapping_add(sum);
    }
    for byte in rest {
        sum = sum.wrapping_add(*byte as u64);
        sums = sums.wrapping_add(sum);
    }
    sum ^ sums.wrapping_mul(0x9e37_79b9_7f4a_7c15)
}

// Dumps a session in each form; none where a dump ends with another status than 0.
fn dump(alloc: Global, session: &Session, output: &mut Vec<u8>, counts: &mut Counts) -> Option<()> {
    for (form, has_fields) in FORMS {
        let options = Options {
            form,
            has_fields,
            limit: 4_194_304,
        };
        let mut client = session.client();
        let mut server = session.server();
        let read = client.len() as u64;
        counts.read = counts
            .read
            .wrapping_add(read)
            .wrapping_add(server.len() as u64);
        output.clear();
        let status = run_dump(
            alloc,
            alloc,
            options,
            Sides::Both,
            &mut client,
            &mut server,
            output,
        );
        if status != 0 {
            return None;
        }
        counts.written = counts.written.wrapping_add(output.len() as u64);
        counts.digest = digest_of(counts.digest, output.as_slice());
    }
    Some(())
}

fn dump_all(alloc: Global, seed: u64, rounds: usize) -> Option<Counts> {
    let mut draws = Draws::new(seed);
    let letters = Letters::new(alloc, &mut draws).ok()?;
    let mut output = Vec::new(alloc);
    let mut counts = Counts {
        digest: 0,
        read: 0,
        written: 0,
    };
    for _ in 0..rounds {
        let session = make_session(alloc, &mut draws, &letters)?;
        dump(alloc, &session, &mut output, &mut counts)?;
    }
    Some(counts)
}

// What the words ask for.
fn words_given(rt: &HostRuntime) -> Option<Vec<String>> {
    env::args(rt).ok()?.skip(1).collect(rt.alloc()).ok()
}

// A seed and a number of rounds. No destructor waits here, where ways lead out early.
fn read_words(words: &[String]) -> Option<(u64, usize)> {
    let [seed, rounds] = words else {
        return None;
    };
    let seed = seed.parse::<u64>().ok()?;
    let rounds = rounds.parse::<usize>().ok()?;
    Some((seed, rounds))
}

fn print(rt: &HostRuntime, counts: Counts) -> Option<()> {
    let Counts {
        digest,
        read,
        written,
    } = counts;
    println!(rt; "session {digest:016x} {read} {written}").ok()
}

fn print_asked(rt: &HostRuntime) -> Option<()> {
    let words = words_given(rt)?;
    let (seed, rounds) = read_words(words.as_slice())?;
    print(rt, dump_all(rt.alloc(), seed, rounds)?)
}

fn main(rt: HostRuntime) -> ExitCode {
    match print_asked(&rt) {
        Some(()) => ExitCode::SUCCESS,
        None => ExitCode::FAILURE,
    }
}
