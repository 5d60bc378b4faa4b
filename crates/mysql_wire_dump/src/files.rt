//! The files that the words name, dumped.

ghost use Rattle.std.specs.Prelude.{◌≡◌, ◌≢◌, ◌↔◌, ◌++◌, codes, map, string_bytes, None, IfOk, MatchResult};
ghost use Rattle.std.specs.Io.KnownBytes.{Appends, Keeps};
ghost use Rattle.wire_text.specs.declared.stop.Stop.TheVariants.{Io};
ghost use Rattle.mysql_wire_dump_lines.specs.Arguments.{Asks, Command, session_of, sides_of};
ghost use Rattle.mysql_wire_dump_lines.specs.Status.{usage};
ghost use Rattle.wire_text.specs.Stops.{exit_status_of};
ghost use Rattle.mysql_wire_dump.specs.Files.{CommandEnds, FilesEnd, left_in};

use mysql_wire_dump_lines::arguments::{Asked, Request, what_is_asked};
use mysql_wire_dump_lines::dump::run_dump;
use mysql_wire_dump_lines::status::{Stop, USAGE, exit_status};
use std::alloc::{Allocator, Global};
use std::fs::File;
use std::io;
use std::io::{Read, Write};
use std::rt::Files;

// A file that was opened, or no bytes.
#[derive(Drop)]
struct Input<T: Drop>(Option<T>);

// The file of this name, where there is one.
fn open<F: Files>(files: &F, name: Option<&str>) -> Result<Input<F::File>, Stop>
    ensures { IfOk result (λ input. name.entry ≡ None → input.0 ≡ None) }
{
    match name {
        Some(name) => Ok(Input(Some(File::open(files, name)?))),
        None => Ok(Input(None)),
    }
}

impl<T: Read + Drop> Read for Input<T> {
    ghost remaining = { λ input. left_in T.remaining input.0 };

    fn read(&mut self, buf: &mut [u8]) -> io::Result<usize> {
        match &mut self.0 {
            Some(file) => file.read(buf),
            None => Ok(0),
        }
    }
}

// Shows the sessions of files.
fn dump_files<F: Files, W: Write>(
    files: &F,
    alloc: Global,
    request: Request<'_>,
    output: &mut W,
) -> Result<u8, Stop>
    ensures { sides_of request.entry.client request.entry.server ≢ None
        → FilesEnd (session_of request.entry)
        (W.contents output.old) (W.contents output.new) (exit_status_of result) }
{
    let Some(sides) = request.sides() else {
        return Ok(1);
    };
    let mut client = open(files, request.client)?;
    let mut server = open(files, request.server)?;
    Ok(run_dump(
        alloc,
        alloc,
        request.options,
        sides,
        &mut client,
        &mut server,
        output,
    ))
}

// Writes the usage line.
fn help<W: Write>(output: &mut W) -> Result<u8, Stop>
    ensures { MatchResult result (λ status. (status ≡ 0)
        × Appends (W.contents output.old) (W.contents output.new) (usage ++ codes "\n"))
        (λ stop. stop ≡ Io) }
{
    writeln!(output, "{USAGE}")?;
    output.flush()?;
    Ok(0)
}

/// Runs what the words after the program's name ask for. The answer is the exit status: that of
/// the dump, or 1 where the words ask for none, and then nothing was read or written.
pub fn run_words<A: Allocator, F: Files, W: Write>(
    files: &F,
    alloc: Global,
    words: &[String<A>],
    output: &mut W,
) -> u8
    ensures ran { (command : Command) → Asks (map string_bytes words.now) command
        → CommandEnds command (W.contents output.old) (W.contents output.new) result }
    ensures refused { (result ≡ 1)
        ↔ ((command : Command) → ¬ (Asks (map string_bytes words.now) command)) }
    ensures untouched { result ≡ 1 → Keeps (W.contents output.old) (W.contents output.new) }
{
    match what_is_asked(words) {
        None => 1,
        Some(Asked::Help) => exit_status(help(output)),
        Some(Asked::Dump(request)) => exit_status(dump_files(files, alloc, request, output)),
    }
}
