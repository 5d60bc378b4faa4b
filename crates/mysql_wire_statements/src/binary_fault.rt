//! Why the bytes of a value are refused.

ghost use Rattle.std.specs.Prelude.{◌≡◌};
ghost use Rattle.mysql_wire_statements.specs.Faults.{error_of};

use wire_buf::error::{InvalidLengthEncodedInteger, InvalidReason, WireError};

/// Why the bytes of a value are refused.
#[derive(Clone, Copy, Debug, PartialEq, Eq)]
pub enum BinaryFault {
    /// Bytes are missing.
    UnexpectedEof,
    /// The byte `fb` or `ff`, which begins no text's length.
    InvalidLength,
    /// Another length of a date or a time, or a type whose values are never sent.
    UnknownValue,
}

impl From<BinaryFault> for WireError {
    ghost from_gives = { λ fault error. error ≡ error_of fault };

    fn from(fault: BinaryFault) -> Self {
        match fault {
            BinaryFault::UnexpectedEof => WireError::UnexpectedEof,
            BinaryFault::InvalidLength => WireError::Other(InvalidLengthEncodedInteger),
            BinaryFault::UnknownValue => WireError::InvalidData(InvalidReason::UnknownValue),
        }
    }
}
