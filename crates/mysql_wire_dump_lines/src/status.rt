//! How the program ends.

ghost use Rattle.std.specs.Prelude.{◌≡◌};
ghost use Rattle.mysql_wire_dump_lines.specs.Status.{fault_line, stop_of};

use mysql_wire_session::refusal::SessionError;
pub use wire_text::stop::{Stop, exit_status};

/// Why the dump gives up where its session fails.
pub fn stop_of(error: SessionError) -> Stop
    ensures { result ≡ stop_of error }
{
    match error {
        SessionError::Io => Stop::Io,
        SessionError::OutOfMemory => Stop::Memory,
    }
}

/// The command lines, in one line.
pub const USAGE: &str =
    "usage: mysql_wire_dump [--fields] [--json] [--limit BYTES] [client FILE] [server FILE]";

/// What standard error says at this exit status, without the end of the line. It is empty where the
/// status needs no word.
pub fn fault_text(status: u8) -> &'static str
    ensures { result.now ≡ fault_line status }
{
    wire_text::stop::fault_text(status, USAGE)
}
