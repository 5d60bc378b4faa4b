//! Dates and times in their binary form.

ghost use Rattle.std.specs.Prelude.{◌≡◌, ◌<◌, ◌≤◌, ◌+◌, ◌^◌, [], ◌∷◌, length, take, MatchOption};
ghost use Rattle.wire_buf.specs.Reading.{Reads};
ghost use Rattle.mysql_wire_statements.specs.Faults.{told};
ghost use Rattle.mysql_wire_statements.specs.TemporalValues.{clock_at, clock_bytes, date_bytes, day_at, day_bytes, micros_at, span_at, span_bytes, time_bytes, ReadsDate, ReadsTime};
ghost use Rattle.mysql_wire_statements.specs.TemporalValuesBack.{date-back, date_law, time-back, time_law, IsDate, IsTime};

use crate::binary_fault::BinaryFault;
use crate::written_back::WrittenBack;
use std::alloc::Allocator;
use wire_buf::error::WireError;
use wire_buf::io::ParseBuf;
use wire_buf::proto::{HasSize, MyDeserialize, MySerialize, Varying};
use wire_field::row::Both;
use wire_repr::wire::Wire;

/// A day. MySQL has days whose month or day is 0.
///
/// <https://dev.mysql.com/doc/dev/mysql-server/latest/page_protocol_binary_resultset.html>
#[derive(Clone, Copy, Debug, PartialEq, Eq)]
pub struct Day {
    pub year: u16,
    pub month: u8,
    pub day: u8,
}

/// Hours, minutes and seconds.
///
/// <https://dev.mysql.com/doc/dev/mysql-server/latest/page_protocol_binary_resultset.html>
#[derive(Clone, Copy, Debug, PartialEq, Eq)]
pub struct Clock {
    pub hour: u8,
    pub minute: u8,
    pub second: u8,
}

/// A span of time, in days, hours, minutes and seconds.
///
/// <https://dev.mysql.com/doc/dev/mysql-server/latest/page_protocol_binary_resultset.html>
#[derive(Clone, Copy, Debug, PartialEq, Eq)]
pub struct Span {
    /// 1 where the span is negative, else 0. Other numbers are kept as they are.
    pub sign: u8,
    pub days: u32,
    pub clock: Clock,
}

/// A `DATE`, `DATETIME` or `TIMESTAMP`. A server sends the shortest form that says all.
///
/// <https://dev.mysql.com/doc/dev/mysql-server/latest/page_protocol_binary_resultset.html>
#[derive(Clone, Copy, Debug, PartialEq, Eq)]
pub enum BinaryDate {
    /// `0000-00-00 00:00:00`, of length 0.
    Zero,
    /// A day at 00:00:00, of length 4.
    Date(Day),
    /// A day and its time, of length 7.
    Seconds(Day, Clock),
    /// The same and microseconds, of length 11.
    Micros(Day, Clock, u32),
}

/// A `TIME`. A server sends the shortest form that says all.
///
/// <https://dev.mysql.com/doc/dev/mysql-server/latest/page_protocol_binary_resultset.html>
#[derive(Clone, Copy, Debug, PartialEq, Eq)]
pub enum BinaryTime {
    /// `00:00:00`, of length 0.
    Zero,
    /// A span, of length 8.
    Seconds(Span),
    /// A span and microseconds, of length 12.
    Micros(Span, u32),
}

impl MySerialize for Day {
    ghost bytes = { day_bytes };

    fn serialize<A: Allocator>(&self, buf: &mut Vec<u8, A>) -> Result<(), WireError> {
        Both(self.year, [self.month, self.day]).serialize(buf)
    }
}

impl MySerialize for Clock {
    ghost bytes = { clock_bytes };

    fn serialize<A: Allocator>(&self, buf: &mut Vec<u8, A>) -> Result<(), WireError> {
        [self.hour, self.minute, self.second].serialize(buf)
    }
}

impl MySerialize for Span {
    ghost bytes = { span_bytes };

    fn serialize<A: Allocator>(&self, buf: &mut Vec<u8, A>) -> Result<(), WireError> {
        Both([self.sign], Both(self.days, self.clock)).serialize(buf)
    }
}

impl MySerialize for BinaryDate {
    ghost bytes = { date_bytes };

    // The usual forms go in one append.
    fn serialize<A: Allocator>(&self, buf: &mut Vec<u8, A>) -> Result<(), WireError> {
        match self {
            BinaryDate::Zero => [0].serialize(buf),
            BinaryDate::Date(day) => {
                let [low, high] = day.year.to_le_bytes();
                [4, low, high, day.month, day.day].serialize(buf)
            }
            BinaryDate::Seconds(day, clock) => {
                let [low, high] = day.year.to_le_bytes();
                let Clock {
                    hour,
                    minute,
                    second,
                } = *clock;
                [7, low, high, day.month, day.day, hour, minute, second].serialize(buf)
            }
            BinaryDate::Micros(day, clock, micros) => {
                let [low, high] = day.year.to_le_bytes();
                let Clock {
                    hour,
                    minute,
                    second,
                } = *clock;
                let seconds = [11, low, high, day.month, day.day, hour, minute, second];
                Both(seconds, *micros).serialize(buf)
            }
        }
    }
}

impl MySerialize for BinaryTime {
    ghost bytes = { time_bytes };

    // Each form goes in one append.
    fn serialize<A: Allocator>(&self, buf: &mut Vec<u8, A>) -> Result<(), WireError> {
        match self {
            BinaryTime::Zero => [0].serialize(buf),
            BinaryTime::Seconds(span) => {
                let [d0, d1, d2, d3] = span.days.to_le_bytes();
                let Clock {
                    hour,
                    minute,
                    second,
                } = span.clock;
                [8, span.sign, d0, d1, d2, d3, hour, minute, second].serialize(buf)
            }
            BinaryTime::Micros(span, micros) => {
                let [d0, d1, d2, d3] = span.days.to_le_bytes();
                let Clock {
                    hour,
                    minute,
                    second,
                } = span.clock;
                let [m0, m1, m2, m3] = micros.to_le_bytes();
                [
                    12, span.sign, d0, d1, d2, d3, hour, minute, second, m0, m1, m2, m3,
                ]
                .serialize(buf)
            }
        }
    }
}

// The first byte, if there is one.
fn first_byte(buf: &ParseBuf<'_>) -> Option<u8>
    ensures { MatchOption result (take 1 buf.now.0.now ≡ [])
        (λ byte. take 1 buf.now.0.now ≡ byte ∷ []) }
{
    match buf.0.first() {
        Some(byte) => Some(*byte),
        None => None,
    }
}

// The day after the first byte.
fn eat_day(bytes: &[u8]) -> Day
    requires { 5 ≤ length bytes.now }
    ensures { result ≡ day_at bytes.now }
{
    Day {
        year: ParseBuf(&bytes[1..]).eat_u16_le(),
        month: bytes[3],
        day: bytes[4],
    }
}

// The time of a day from this byte on.
fn eat_clock(at: usize, bytes: &[u8]) -> Clock
    requires { at + 2 < length bytes.now }
    ensures { result ≡ clock_at at bytes.now }
{
    Clock {
        hour: bytes[at],
        minute: bytes[at + 1],
        second: bytes[at + 2],
    }
}

// The span after the first byte.
fn eat_span(bytes: &[u8]) -> Span
    requires { 9 ≤ length bytes.now }
    ensures { result ≡ span_at bytes.now }
{
    Span {
        sign: bytes[1],
        days: ParseBuf(&bytes[2..]).eat_u32_le(),
        clock: eat_clock(6, bytes),
    }
}

// The microseconds after this many bytes.
fn eat_micros(at: usize, bytes: &[u8]) -> u32
    requires { at + 4 ≤ length bytes.now }
    ensures { result ≡ micros_at at bytes.now }
{
    ParseBuf(&bytes[at..]).eat_u32_le()
}

/// Reads a date, as its type is read; a refusal is a `BinaryFault`.
pub fn read_date(buf: &mut ParseBuf<'_>) -> Result<BinaryDate, BinaryFault>
    ensures { Reads ReadsDate buf.old.0.now (told result) buf.new.0.now }
{
    match first_byte(buf) {
        None => Err(BinaryFault::UnexpectedEof),
        Some(0) => {
            buf.skip(1);
            Ok(BinaryDate::Zero)
        }
        Some(4) => match buf.checked_eat(5) {
            Some(bytes) => Ok(BinaryDate::Date(eat_day(bytes))),
            None => Err(BinaryFault::UnexpectedEof),
        },
        Some(7) => match buf.checked_eat(8) {
            Some(bytes) => Ok(BinaryDate::Seconds(eat_day(bytes), eat_clock(5, bytes))),
            None => Err(BinaryFault::UnexpectedEof),
        },
        Some(11) => match buf.checked_eat(12) {
            Some(bytes) => Ok(BinaryDate::Micros(
                eat_day(bytes),
                eat_clock(5, bytes),
                eat_micros(8, bytes),
            )),
            None => Err(BinaryFault::UnexpectedEof),
        },
        Some(_) => Err(BinaryFault::UnknownValue),
    }
}

impl HasSize for BinaryDate {
    type Size = Varying;
}

impl<'de, A: Allocator + Copy> MyDeserialize<'de, A> for BinaryDate {
    type Ctx = ();

    ghost reads = { λ _. ReadsDate };

    fn deserialize(_: A, _: (), buf: &mut ParseBuf<'de>) -> Result<Self, WireError> {
        match read_date(buf) {
            Ok(value) => Ok(value),
            Err(fault) => Err(fault.into()),
        }
    }
}

/// Reads a time, as its type is read; a refusal is a `BinaryFault`.
pub fn read_time(buf: &mut ParseBuf<'_>) -> Result<BinaryTime, BinaryFault>
    ensures { Reads ReadsTime buf.old.0.now (told result) buf.new.0.now }
{
    match first_byte(buf) {
        None => Err(BinaryFault::UnexpectedEof),
        Some(0) => {
            buf.skip(1);
            Ok(BinaryTime::Zero)
        }
        Some(8) => match buf.checked_eat(9) {
            Some(bytes) => Ok(BinaryTime::Seconds(eat_span(bytes))),
            None => Err(BinaryFault::UnexpectedEof),
        },
        Some(12) => match buf.checked_eat(13) {
            Some(bytes) => Ok(BinaryTime::Micros(eat_span(bytes), eat_micros(9, bytes))),
            None => Err(BinaryFault::UnexpectedEof),
        },
        Some(_) => Err(BinaryFault::UnknownValue),
    }
}

impl HasSize for BinaryTime {
    type Size = Varying;
}

impl<'de, A: Allocator + Copy> MyDeserialize<'de, A> for BinaryTime {
    type Ctx = ();

    ghost reads = { λ _. ReadsTime };

    fn deserialize(_: A, _: (), buf: &mut ParseBuf<'de>) -> Result<Self, WireError> {
        match read_time(buf) {
            Ok(value) => Ok(value),
            Err(fault) => Err(fault.into()),
        }
    }
}

// The numbers of a day in hand are those of their types.
fn known_day(day: &Day)
    ensures { day.now.year < 2 ^ 16 }
{
    let _year = day.year;
}

fn known_span(span: &Span)
    ensures { span.now.days < 2 ^ 32 }
{
    let _days = span.days;
}

impl<'de, A: Allocator + Copy> Wire<'de, A> for BinaryDate {
    ghost is_value = { IsDate };

    ghost good = { λ _ _ _. Unit {0} };

    ghost kept = { λ date back. back ≡ date };

    ghost takes_memory = { ⊥ };

    fn known(&self) {
        match self {
            BinaryDate::Zero => {}
            BinaryDate::Date(day) => known_day(day),
            BinaryDate::Seconds(day, _) => known_day(day),
            BinaryDate::Micros(day, _, micros) => {
                known_day(day);
                let _micros = *micros;
            }
        }
    }

    ghost comes_back = { λ ctx date rest answer eaten value good read.
        date-back date rest value answer eaten read };

    ghost of_size = { λ date size _ stated. Prim.cc };
}

impl<'de, A: Allocator + Copy> WrittenBack<'de, A> for BinaryDate {
    ghost shortest = { λ _ _. Unit {0} };

    ghost again = { λ ctx input date eaten are shortest read. date_law input date eaten are read };
}

impl<'de, A: Allocator + Copy> Wire<'de, A> for BinaryTime {
    ghost is_value = { IsTime };

    ghost good = { λ _ _ _. Unit {0} };

    ghost kept = { λ time back. back ≡ time };

    ghost takes_memory = { ⊥ };

    fn known(&self) {
        match self {
            BinaryTime::Zero => {}
            BinaryTime::Seconds(span) => known_span(span),
            BinaryTime::Micros(span, micros) => {
                known_span(span);
                let _micros = *micros;
            }
        }
    }

    ghost comes_back = { λ ctx time rest answer eaten value good read.
        time-back time rest value answer eaten read };

    ghost of_size = { λ time size _ stated. Prim.cc };
}

impl<'de, A: Allocator + Copy> WrittenBack<'de, A> for BinaryTime {
    ghost shortest = { λ _ _. Unit {0} };

    ghost again = { λ ctx input time eaten are shortest read. time_law input time eaten are read };
}
