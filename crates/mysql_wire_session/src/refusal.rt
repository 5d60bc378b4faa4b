//! Why a payload is no packet of its phase.

ghost use Rattle.std.specs.Prelude.{◌≡◌};
ghost use Rattle.mysql_wire_session.specs.Names.{refusal_name};
ghost use Rattle.mysql_wire_session.specs.Refusals.{refusal_of, refusal_of_wire};

use mysql_wire_parts::places::PayloadError;
use std::alloc::{AllocError, AllocFailed};
use wire_buf::error::{InvalidReason, WireError};

/// Why a payload is no packet of its phase.
#[derive(Clone, Copy)]
pub enum Refusal {
    UnexpectedEnd,
    UnknownValue,
    ConstantMismatch,
    NoNullTerminator,
    InvalidNumber,
    TrailingBytes,
    OtherHeader,
}

/// Why a session did not go on. It is as it was.
#[derive(Clone, Copy)]
pub enum SessionError {
    /// A type's reader failed, which none of the packets' does.
    Io,
    /// Memory was refused.
    OutOfMemory,
}

impl From<AllocError> for SessionError {
    ghost use Rattle.mysql_wire_session.specs.declared.refusal.SessionError.TheVariants.{OutOfMemory};

    ghost from_gives = { λ _ error. error ≡ OutOfMemory };

    fn from(_: AllocError) -> Self {
        SessionError::OutOfMemory
    }
}

impl From<AllocFailed<u8>> for SessionError {
    ghost use Rattle.mysql_wire_session.specs.declared.refusal.SessionError.TheVariants.{OutOfMemory};

    ghost from_gives = { λ _ error. error ≡ OutOfMemory };

    fn from(_: AllocFailed<u8>) -> Self {
        SessionError::OutOfMemory
    }
}

impl Refusal {
    /// The name that is shown.
    pub fn name(self) -> &'static str
        ensures { result.now ≡ refusal_name self }
    {
        match self {
            Refusal::UnexpectedEnd => "unexpected end",
            Refusal::UnknownValue => "unknown value",
            Refusal::ConstantMismatch => "constant mismatch",
            Refusal::NoNullTerminator => "no null terminator",
            Refusal::InvalidNumber => "invalid number",
            Refusal::TrailingBytes => "trailing bytes",
            Refusal::OtherHeader => "other header",
        }
    }

    /// The refusal of a value that was not read; or memory was refused.
    pub fn of_wire(error: WireError) -> Result<Refusal, SessionError>
        ensures { result ≡ refusal_of_wire error }
    {
        match error {
            WireError::UnexpectedEof => Ok(Refusal::UnexpectedEnd),
            WireError::InvalidData(InvalidReason::UnknownValue) => Ok(Refusal::UnknownValue),
            WireError::InvalidData(InvalidReason::ConstMismatch) => Ok(Refusal::ConstantMismatch),
            WireError::InvalidData(InvalidReason::NoNullTerminator) => {
                Ok(Refusal::NoNullTerminator)
            }
            WireError::InvalidData(_) | WireError::Other(_) => Ok(Refusal::InvalidNumber),
            WireError::Io(_) => Err(SessionError::Io),
            WireError::OutOfMemory => Err(SessionError::OutOfMemory),
        }
    }

    /// The refusal of a payload; or memory was refused.
    pub fn of(error: PayloadError) -> Result<Refusal, SessionError>
        ensures { result ≡ refusal_of error }
    {
        match error {
            PayloadError::Refused(error) => Refusal::of_wire(error),
            PayloadError::Trailing(_) => Ok(Refusal::TrailingBytes),
            PayloadError::OtherHeader(_) | PayloadError::OtherSpelling => Ok(Refusal::OtherHeader),
        }
    }
}
