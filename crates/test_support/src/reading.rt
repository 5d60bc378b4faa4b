//! A value of any type, read by each function that reads one.

ghost use Rattle.wire_buf.specs.Reading.{HasBytes};

use crate::answers::{Answer, answered};
use std::alloc::Allocator;
use wire_buf::error::WireError;
use wire_buf::io::ParseBuf;
use wire_field::row::{Both, Either};
use wire_laws::{payloads, rows};
use wire_repr::field_laws;
use wire_repr::int::RawInt;
use wire_repr::wire::Wire;
use wire_values::payload::parse_packet_in;

/// What reads it.
#[derive(Clone, Copy)]
pub enum Reading {
    Deserialize,
    ParseIn,
    ParseUncheckedIn,
    ParseBack,
    ParsePacketIn,
    PacketBack,
    /// As the second of two sides, of which the first is a number.
    Either,
    /// As the first of two values, of which the second is a byte.
    Both,
}

fn read_side<'de, T, A>(alloc: A, buf: &mut ParseBuf<'de>) -> Result<T, WireError>
where
    A: Allocator + Copy,
    T: Wire<'de, A, Ctx = ()>,
{
    match rows::either::<RawInt<u8>, T, A>(alloc, Either::Right(()), buf) {
        Ok(Either::Right(value)) => Ok(value),
        Ok(Either::Left(_)) => Err(WireError::UnexpectedEof),
        Err(error) => Err(error),
    }
}

fn read_first<'de, T, A>(alloc: A, buf: &mut ParseBuf<'de>) -> Result<T, WireError>
where
    A: Allocator + Copy,
    T: Wire<'de, A, Ctx = ()>,
{
    match rows::both::<T, RawInt<u8>, A>(alloc, ((), ()), buf) {
        Ok(Both(value, _)) => Ok(value),
        Err(error) => Err(error),
    }
}

fn read_front<'de, T, A>(
    alloc: A,
    reading: Reading,
    buf: &mut ParseBuf<'de>,
) -> Result<T, WireError>
where
    A: Allocator + Copy,
    T: Wire<'de, A, Ctx = ()>,
    requires { HasBytes T.Size.SIZE buf.old.0.now }
{
    match reading {
        Reading::Deserialize => T::deserialize(alloc, (), buf),
        Reading::ParseIn => buf.parse_in(alloc, ()),
        Reading::ParseUncheckedIn => buf.parse_unchecked_in(alloc, ()),
        Reading::ParseBack => field_laws::parse_back(alloc, (), buf),
        Reading::Either => read_side(alloc, buf),
        _ => read_first(alloc, buf),
    }
}

fn read_buf<'de, T, A>(alloc: A, reading: Reading, input: &'de [u8]) -> (Result<T, Answer>, usize)
where
    A: Allocator + Copy,
    T: Wire<'de, A, Ctx = ()>,
    requires { HasBytes T.Size.SIZE input.now }
{
    let mut buf = ParseBuf(input);
    let answer = answered(read_front(alloc, reading, &mut buf));
    (answer, buf.len())
}

/// Reads a value from the front of the input. The answer has it, or what was missing, and how many
/// bytes are left; where nothing is handed back, all of them.
pub fn read<'de, T, A>(alloc: A, reading: Reading, input: &'de [u8]) -> (Result<T, Answer>, usize)
where
    A: Allocator + Copy,
    T: Wire<'de, A, Ctx = ()>,
    requires { HasBytes T.Size.SIZE input.now }
{
    let packet = match reading {
        Reading::ParsePacketIn => parse_packet_in::<T, A>(alloc, (), input),
        Reading::PacketBack => payloads::packet_back::<T, A>(alloc, (), input),
        _ => return read_buf(alloc, reading, input),
    };
    match packet {
        Ok((value, rest)) => (Ok(value), rest.len()),
        Err(error) => (Err(Answer::of_wire(&error)), input.len()),
    }
}

/// The law of a value, as functions, which do nothing.
pub fn knows<'de, T: Wire<'de, A>, A: Allocator + Copy>(value: &T) {
    value.known();
    payloads::values_come_back::<T, A>();
}
