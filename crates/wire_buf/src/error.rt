//! Why bytes were refused.

use std::alloc::{AllocError, AllocFailed};
use std::io;
use thiserror::Error;

/// The first byte, `fb` or `ff`, begins no length-encoded integer.
///
/// <https://dev.mysql.com/doc/dev/mysql-server/latest/page_protocol_basic_dt_integers.html>
#[derive(Debug, Clone, Copy, PartialEq, Eq, Error)]
#[error("Invalid length-encoded integer value (starts with 0xfb|0xff)")]
pub struct InvalidLengthEncodedInteger;

/// What bytes that are there fail to be.
#[derive(Debug, Clone, Copy, PartialEq, Eq, Error)]
pub enum InvalidReason {
    /// The number is none of its type's.
    #[error("unknown value")]
    UnknownValue,
    /// The bytes are not those of the constant.
    #[error("constant mismatch")]
    ConstMismatch,
    /// No zero byte ends the text.
    #[error("no null terminator for null-terminated string")]
    NoNullTerminator,
    /// The groups of seven bits (a base-128 varint) make a number above `u32::MAX`.
    #[error("invalid variable-length value (> u32::MAX)")]
    VarLenTooLarge,
    /// Five groups of seven bits, and the number still goes on.
    #[error("invalid variable-length value (more than 5 bytes)")]
    VarLenTooLong,
}

/// Why a value wasn't read or written.
#[derive(Debug, Drop, Error)]
pub enum WireError {
    /// Bytes are missing.
    #[error("can't parse: buf doesn't have enough data")]
    UnexpectedEof,
    /// The bytes are there, and say what they must not.
    #[error(transparent)]
    InvalidData(InvalidReason),
    /// A reader gave a byte that begins no length-encoded integer.
    #[error(transparent)]
    Other(InvalidLengthEncodedInteger),
    /// The reader or the writer failed, or the reader's input ended.
    #[error(transparent)]
    Io(io::Error),
    /// Memory was refused, or a bounded buffer has no room.
    #[error("Out of memory")]
    OutOfMemory,
}

impl From<AllocError> for WireError {
    ghost use Rattle.std.specs.Prelude.{◌≡◌};
    ghost use Rattle.wire_buf.specs.declared.error.WireError.TheVariants.{OutOfMemory};

    ghost from_gives = { λ _ error. error ≡ OutOfMemory };

    fn from(_: AllocError) -> Self {
        WireError::OutOfMemory
    }
}

impl<T: Drop> From<AllocFailed<T>> for WireError {
    ghost use Rattle.std.specs.Prelude.{◌≡◌};
    ghost use Rattle.wire_buf.specs.declared.error.WireError.TheVariants.{OutOfMemory};

    ghost from_gives = { λ _ error. error ≡ OutOfMemory };

    fn from(_: AllocFailed<T>) -> Self {
        WireError::OutOfMemory
    }
}
