//! Dates and times as people write them.

ghost use Rattle.std.specs.Prelude.{◌≡◌, ◌≤◌, ◌<◌, ◌++◌, OnOk, codes, string_bytes};
ghost use Rattle.mysql_wire_dump_lines.specs.TemporalTexts.{clock_text, date_text, day_text, moment_text, span_text, time_text, zeros};

use mysql_wire_statements::temporal::{BinaryDate, BinaryTime, Clock, Day, Span};
use std::alloc::{AllocError, Allocator};
use wire_text::put::{PutWord, push_letters, push_number};

// A day of a year of five digits, or of a month or a day of three, is written as any number is.
fn push_day<A: Allocator>(text: &mut String<A>, day: &Day) -> Result<(), AllocError>
    ensures { OnOk result (string_bytes text.new ≡ string_bytes text.old ++ day_text day.now) }
{
    let Day { year, month, day } = *day;
    if year >= 10000 || month >= 100 || day >= 100 {
        return write!(text, "{year:04}-{month:02}-{day:02}");
    }
    push_letters(
        text,
        &[
            b'0' + (year / 1000) as u8,
            b'0' + (year / 100 % 10) as u8,
            b'0' + (year / 10 % 10) as u8,
            b'0' + (year % 10) as u8,
            b'-',
            b'0' + month / 10,
            b'0' + month % 10,
            b'-',
            b'0' + day / 10,
            b'0' + day % 10,
        ],
    )
}

// The minute and the second of a time, behind its hours.
fn push_minute<A: Allocator>(text: &mut String<A>, clock: &Clock) -> Result<(), AllocError>
    requires { (clock.now.minute < 100) × (clock.now.second < 100) }
    ensures { OnOk result (string_bytes text.new ≡ string_bytes text.old
        ++ (codes ":" ++ zeros 2 clock.now.minute ++ codes ":" ++ zeros 2 clock.now.second)) }
{
    push_letters(
        text,
        &[
            b':',
            b'0' + clock.minute / 10,
            b'0' + clock.minute % 10,
            b':',
            b'0' + clock.second / 10,
            b'0' + clock.second % 10,
        ],
    )
}

// A hundred hours and more.
fn push_hours<A: Allocator>(text: &mut String<A>, hours: u64) -> Result<(), AllocError>
    requires { 100 ≤ hours }
    ensures { OnOk result (string_bytes text.new ≡ string_bytes text.old ++ zeros 2 hours) }
{
    push_number(text, hours)
}

// The same of a time.
fn push_clock<A: Allocator>(
    text: &mut String<A>,
    hours: u64,
    clock: &Clock,
) -> Result<(), AllocError>
    ensures { OnOk result (string_bytes text.new
        ≡ string_bytes text.old ++ clock_text hours clock.now) }
{
    let Clock { minute, second, .. } = *clock;
    if minute >= 100 || second >= 100 {
        return write!(text, "{hours:02}:{minute:02}:{second:02}");
    }
    if hours >= 100 {
        push_hours(text, hours)?;
        return push_minute(text, clock);
    }
    push_letters(
        text,
        &[
            b'0' + (hours / 10) as u8,
            b'0' + (hours % 10) as u8,
            b':',
            b'0' + minute / 10,
            b'0' + minute % 10,
            b':',
            b'0' + second / 10,
            b'0' + second % 10,
        ],
    )
}

// The same of a part of a second.
fn push_micros<A: Allocator>(text: &mut String<A>, micros: u32) -> Result<(), AllocError>
    ensures { OnOk result (string_bytes text.new
        ≡ string_bytes text.old ++ (codes "." ++ zeros 6 micros)) }
{
    if micros >= 1_000_000 {
        return write!(text, ".{micros:06}");
    }
    push_letters(
        text,
        &[
            b'.',
            b'0' + (micros / 100_000) as u8,
            b'0' + (micros / 10_000 % 10) as u8,
            b'0' + (micros / 1000 % 10) as u8,
            b'0' + (micros / 100 % 10) as u8,
            b'0' + (micros / 10 % 10) as u8,
            b'0' + (micros % 10) as u8,
        ],
    )
}

fn push_moment<A: Allocator>(
    text: &mut String<A>,
    day: &Day,
    clock: &Clock,
) -> Result<(), AllocError>
    ensures { OnOk result (string_bytes text.new
        ≡ string_bytes text.old ++ moment_text day.now clock.now) }
{
    push_day(text, day)?;
    text.push_str(" ")?;
    push_clock(text, clock.hour as u64, clock)
}

// A day, with the time of day that is sent.
#[derive(Clone, Copy)]
pub(crate) struct DateWord(pub BinaryDate);

impl PutWord for DateWord {
    ghost letters = { λ word. date_text word.0 };

    fn push<A: Allocator>(&self, text: &mut String<A>) -> Result<(), AllocError> {
        match &self.0 {
            BinaryDate::Zero => text.push_str("0000-00-00 00:00:00"),
            BinaryDate::Date(day) => push_day(text, day),
            BinaryDate::Seconds(day, clock) => push_moment(text, day, clock),
            BinaryDate::Micros(day, clock, micros) => {
                push_moment(text, day, clock)?;
                push_micros(text, *micros)
            }
        }
    }
}

// A span in hours, of which there may be more than a day's.
fn push_span<A: Allocator>(text: &mut String<A>, span: &Span) -> Result<(), AllocError>
    ensures { OnOk result (string_bytes text.new ≡ string_bytes text.old ++ span_text span.now) }
{
    if span.sign == 1 {
        text.push_str("-")?;
    }
    push_clock(
        text,
        24 * span.days as u64 + span.clock.hour as u64,
        &span.clock,
    )
}

// A span of time, in hours.
#[derive(Clone, Copy)]
pub(crate) struct TimeWord(pub BinaryTime);

impl PutWord for TimeWord {
    ghost letters = { λ word. time_text word.0 };

    fn push<A: Allocator>(&self, text: &mut String<A>) -> Result<(), AllocError> {
        match &self.0 {
            BinaryTime::Zero => text.push_str("00:00:00"),
            BinaryTime::Seconds(span) => push_span(text, span),
            BinaryTime::Micros(span, micros) => {
                push_span(text, span)?;
                push_micros(text, *micros)
            }
        }
    }
}
