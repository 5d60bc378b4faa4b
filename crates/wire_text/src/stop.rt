//! Why a program gives up, its exit status, and what standard error says of it.

ghost use Rattle.std.specs.Prelude.{◌≡◌};
ghost use Rattle.wire_text.specs.Stops.{exit_status_of, fault_line};

use std::alloc::{AllocError, AllocFailed};
use std::io;

/// Why a program gives up.
#[derive(Clone, Copy, PartialEq, Eq)]
pub enum Stop {
    /// A read or a write failed, a file was not opened, or there were 2^64 - 1 reads.
    Io,
    /// Memory was refused.
    Memory,
}

impl From<io::Error> for Stop {
    ghost use Rattle.wire_text.specs.declared.stop.Stop.TheVariants.{Io};

    ghost from_gives = { λ _ stop. stop ≡ Io };

    fn from(_: io::Error) -> Self {
        Stop::Io
    }
}

impl From<AllocError> for Stop {
    ghost use Rattle.wire_text.specs.declared.stop.Stop.TheVariants.{Memory};

    ghost from_gives = { λ _ stop. stop ≡ Memory };

    fn from(_: AllocError) -> Self {
        Stop::Memory
    }
}

impl From<AllocFailed<u8>> for Stop {
    ghost use Rattle.wire_text.specs.declared.stop.Stop.TheVariants.{Memory};

    ghost from_gives = { λ _ stop. stop ≡ Memory };

    fn from(_: AllocFailed<u8>) -> Self {
        Stop::Memory
    }
}

/// The exit status of a program that ended with this one, or gave up.
pub fn exit_status(ended: Result<u8, Stop>) -> u8
    ensures { result ≡ exit_status_of ended }
{
    match ended {
        Ok(status) => status,
        Err(Stop::Io) => 2,
        Err(Stop::Memory) => 6,
    }
}

/// What standard error says at this exit status, without the end of the line: at 1 how the program
/// is called. It is empty where the status needs no word.
pub fn fault_text(status: u8, usage: &'static str) -> &'static str
    ensures { result.now ≡ fault_line usage.now status }
{
    match status {
        1 => usage,
        2 => "input or output failed",
        6 => "out of memory",
        _ => "",
    }
}
