//! How the program ends.

ghost use Rattle.std.specs.Prelude.{◌≡◌};
ghost use Rattle.mysql_wire_tool_commands.specs.Status.{fault_line};

pub use wire_text::stop::{Stop, exit_status};

// The commands, in one line.
const USAGE: &str =
    "usage: mysql_wire_tool frame ID | chunk | unframe STEP LIMIT [LATER AT] | reframe LIMIT";

/// What standard error says at this exit status (0 to 6), without the end of the line. It is empty
/// where the status needs no word.
pub fn fault_text(status: u8) -> &'static str
    ensures { result.now ≡ fault_line status }
{
    wire_text::stop::fault_text(status, USAGE)
}
