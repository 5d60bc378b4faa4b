//! What calls answered, in a form that tests compare.

use std::alloc::{AllocError, Global};
use std::fmt::{Debug, Display};
use wire_buf::error::{InvalidReason, WireError};
use wire_codec::codec::ChunkInfo;
use wire_codec::codec::error::PacketCodecError;

/// What a call answered.
#[derive(Clone, Copy, PartialEq, Eq)]
pub enum Answer {
    /// All was written.
    Done,
    /// A packet is whole.
    Packet,
    /// There is no further packet.
    End,
    /// More bytes are needed.
    Waits,
    /// A chunk whose packet goes on.
    Middle(u8),
    /// A packet's last chunk.
    Last(u8),
    UnexpectedEof,
    Invalid(InvalidReason),
    /// No integer begins so.
    NoInteger,
    WriteZero,
    TooLarge,
    OutOfSync,
    OutOfMemory,
    Io,
    /// The codec doesn't stand, or the reader doesn't fit it, so nothing was called.
    Fallen,
    /// The call went otherwise than it must.
    Wrong,
}

impl Answer {
    pub fn of_wire(error: &WireError) -> Answer {
        match error {
            WireError::UnexpectedEof => Answer::UnexpectedEof,
            WireError::InvalidData(reason) => Answer::Invalid(*reason),
            WireError::Other(_) => Answer::NoInteger,
            WireError::Io(_) => Answer::Io,
            WireError::OutOfMemory => Answer::OutOfMemory,
        }
    }

    pub fn of_error(error: &PacketCodecError) -> Answer {
        match error {
            PacketCodecError::Io(_) => Answer::Io,
            PacketCodecError::PacketTooLarge => Answer::TooLarge,
            PacketCodecError::PacketsOutOfSync => Answer::OutOfSync,
            PacketCodecError::OutOfMemory => Answer::OutOfMemory,
        }
    }

    pub fn of_encode(answer: Result<(), PacketCodecError>) -> Answer {
        match answer {
            Ok(()) => Answer::Done,
            Err(error) => Answer::of_error(&error),
        }
    }

    pub fn of_decode(answer: Result<bool, PacketCodecError>) -> Answer {
        match answer {
            Ok(true) => Answer::Packet,
            Ok(false) => Answer::Waits,
            Err(error) => Answer::of_error(&error),
        }
    }

    /// A delivery whose pieces are all taken waits for more.
    pub fn of_deliver(answer: Result<(), PacketCodecError>) -> Answer {
        match answer {
            Ok(()) => Answer::Waits,
            Err(error) => Answer::of_error(&error),
        }
    }

    pub fn of_chunk(answer: Result<Option<ChunkInfo>, PacketCodecError>) -> Answer {
        match answer {
            Ok(None) => Answer::Waits,
            Ok(Some(ChunkInfo::Middle(id))) => Answer::Middle(id),
            Ok(Some(ChunkInfo::Last(id))) => Answer::Last(id),
            Err(error) => Answer::of_error(&error),
        }
    }
}

/// The same result, with an answer in place of the error.
pub fn answered<T>(answer: Result<T, WireError>) -> Result<T, Answer> {
    match answer {
        Ok(value) => Ok(value),
        Err(error) => Err(Answer::of_wire(&error)),
    }
}

/// Why nothing was read or written, where nothing was.
pub fn error_of<T: Drop>(answer: Result<T, WireError>) -> Option<Answer> {
    match answer {
        Ok(_) => None,
        Err(error) => Some(Answer::of_wire(&error)),
    }
}

// Whether what is shown is this text.
fn is_text(shown: Result<String, AllocError>, text: &str) -> bool {
    match shown {
        Ok(shown) => shown.as_str() == text,
        Err(_) => false,
    }
}

/// Whether the value is shown as this text for debugging.
pub fn shows_debug<T: Debug>(alloc: Global, value: &T, text: &str) -> bool {
    is_text(format!(in alloc; "{value:?}"), text)
}

/// Whether the value is shown as this text.
pub fn shows<T: Display>(alloc: Global, value: &T, text: &str) -> bool {
    is_text(format!(in alloc; "{value}"), text)
}
