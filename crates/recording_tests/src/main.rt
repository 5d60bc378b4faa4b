//! Goes through sessions: each payload is read by the type that its place calls for, and written
//! back; its fields are compared with those that are listed.
#![tactic(auto)]

mod commands_shown;
mod found;
mod place;
mod record;
mod session;
mod shown;
mod statement;
mod statements;
mod statements_shown;
mod tally;

use found::Payload;
use record::Record;
use session::Session;
use std::alloc::Global;
use std::io::{self, Read, Write};
use std::process::ExitCode;
use tally::Tally;

// Goes through the records, and counts what is found. The answer is how many bytes are left.
fn go_through(alloc: Global, records: &[u8], tally: &mut Tally) -> usize {
    let mut session = Session::new(alloc);
    let mut listed = None;
    let mut rest = records;
    for _ in 0..records.len() {
        let Some((record, behind)) = Record::first(rest) else {
            break;
        };
        rest = behind;
        match record {
            Record::Session => session = Session::new(alloc),
            Record::Reset => session.begin_command(),
            Record::Listed(fields) => listed = Some(fields),
            Record::Client(bytes) => {
                tally.note(session.client(alloc, Payload { bytes, listed }));
                listed = None;
            }
            Record::Server(bytes) => {
                tally.note(session.server(alloc, Payload { bytes, listed }));
                listed = None;
            }
        }
    }
    rest.len()
}

// Writes what was found.
fn write<W: Write>(tally: &Tally, left: usize, output: &mut W) -> io::Result<()> {
    tally.write(output)?;
    writeln!(output, "left {left}")
}

fn main(rt: HostRuntime) -> ExitCode {
    let mut records = Vec::new(rt.alloc());
    if rt.stdin().read_to_end(&mut records).is_err() {
        return ExitCode::from(2);
    }
    let mut tally = Tally::new();
    let left = go_through(rt.alloc(), records.as_slice(), &mut tally);
    match write(&tally, left, &mut rt.stdout()) {
        Ok(()) => ExitCode::from(0),
        Err(_) => ExitCode::from(2),
    }
}
