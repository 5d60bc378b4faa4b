//! What readers and writers of packets answered.

use test_support::answers::Answer;
use wire_packet_io::PacketIoError;

pub fn answer_of(error: &PacketIoError) -> Answer {
    match error {
        PacketIoError::Io(_) => Answer::Io,
        PacketIoError::UnexpectedEnd => Answer::UnexpectedEof,
        PacketIoError::WriteZero => Answer::WriteZero,
        PacketIoError::PacketTooLarge => Answer::TooLarge,
        PacketIoError::PacketsOutOfSync => Answer::OutOfSync,
        PacketIoError::OutOfMemory => Answer::OutOfMemory,
    }
}

/// What a call answers that has nothing to give.
pub fn answer_by(answer: Result<(), PacketIoError>) -> Answer {
    match answer {
        Ok(()) => Answer::Done,
        Err(error) => answer_of(&error),
    }
}
