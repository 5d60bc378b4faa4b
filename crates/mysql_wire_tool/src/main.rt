//! Shows MySQL's packets on real bytes: frames a payload, and shows a chunk again.
#![tactic(auto)]

use mysql_wire_tool_commands::arguments::run_words;
use mysql_wire_tool_commands::status::fault_text;
use std::io::ErrorKind;
use std::process::ExitCode;
use std::{env, io};

// The words after the program's name. Words that are no text are invalid data.
fn words_given(rt: &HostRuntime) -> io::Result<Vec<String>> {
    Ok(env::args(rt)?.skip(1).collect(rt.alloc())?)
}

fn main(rt: HostRuntime) -> ExitCode {
    let status = match words_given(&rt) {
        Ok(words) => {
            let (status, _, _) = run_words(rt.alloc(), words.as_slice(), rt.stdin(), rt.stdout());
            status
        }
        Err(error) if error.kind() == ErrorKind::InvalidData => 1,
        Err(_) => 6,
    };
    let text = fault_text(status);
    if !text.is_empty() {
        let _ = eprintln!(rt; "{text}");
    }
    ExitCode::from(status)
}
