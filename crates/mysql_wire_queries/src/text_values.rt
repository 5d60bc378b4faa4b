//! The values of a row, one by one, where they lie.

ghost use Rattle.std.specs.Prelude.{ℕ, ◌≡◌, ◌<◌, ◌≤◌, ◌⊎◌, List, length, drop, false, IfSome, Ok, Err};
ghost use Rattle.std.specs.Cow.{cow_slice_items};
ghost use Rattle.wire_buf.specs.declared.error.WireError.{WireError};
ghost use Rattle.wire_buf.specs.declared.error.WireError.TheVariants.{OutOfMemory};
ghost use Rattle.wire_repr.specs.Texts.{IsOwned};
ghost use Rattle.mysql_wire_queries.specs.RowValues.{values_left, GivesAll, GivesValue, NoneFollows, Passes, PassesTo, RefusesAs};
ghost use Rattle.mysql_wire_queries.specs.declared.text_row.TextRow.{TextRow};
ghost use Rattle.mysql_wire_queries.specs.declared.text_row.TextValue.{TextValue};
ghost use Rattle.mysql_wire_queries.specs.declared.text_values.TextValues.{TextValues};

use crate::text_row::{TextFault, TextRow, TextValue, read_value};
use std::alloc::Global;
use wire_buf::io::ParseBuf;
use wire_buf::lengths::MAX_PAYLOAD_LEN;
use wire_buf::proto::MyDeserialize;

// The longest text whose length is one byte.
const LONGEST: usize = 250;

// Where the values in front end, as many as are asked for, if each is NULL or a text whose length is
// one byte.
fn end_of_short(bytes: &[u8], count: u64) -> Option<usize>
    ensures { IfSome result (λ end. (end ≤ length bytes.now)
        × ((values : TextValues) → values.rest.0.now ≡ bytes.now → values.has_refused ≡ false
        → PassesTo values count (drop end bytes.now))) }
{
    if bytes.len() >= MAX_PAYLOAD_LEN {
        return None;
    }
    let mut at = 0;
    'values: for _ in 0..count {
        let first = *bytes.get(at)?;
        at += 1;
        if first as usize <= LONGEST {
            at += first as usize;
        } else if first != 0xfb {
            return None;
        }
    }
    if at <= bytes.len() { Some(at) } else { None }
}

/// The values of a row of texts, read from its payload one by one. They take no memory, and borrow
/// from the payload. None comes after the last byte, nor after a refusal. A row has as many as it
/// has columns.
///
/// <https://dev.mysql.com/doc/dev/mysql-server/latest/page_protocol_com_query_response_text_resultset_row.html>
#[derive(Clone, Copy, Debug, PartialEq, Eq)]
pub struct TextValues<'a> {
    rest: ParseBuf<'a>,
    has_refused: bool,
}

impl<'a> TextValues<'a> {
    /// The values of a row's payload.
    pub fn new(payload: &'a [u8]) -> Self
        ensures rest { result.rest.0.now ≡ payload.now }
        ensures begins { result.has_refused ≡ false }
    {
        TextValues {
            rest: ParseBuf(payload),
            has_refused: false,
        }
    }

    /// Passes over `count` values, or over those before the end or a refusal, which `next` gives
    /// then. The answer is how many.
    pub fn skip_values(&mut self, count: u64) -> u64
        ensures most { result ≤ count }
        ensures passed { Passes self.old result self.new }
        ensures stops { result < count → NoneFollows self.new }
    {
        match end_of_short(self.rest.0, count) {
            Some(end) if !self.has_refused => {
                self.rest = ParseBuf(&self.rest.0[end..]);
                count
            }
            _ => self.skip_each(count),
        }
    }

    // The same, one by one.
    fn skip_each(&mut self, count: u64) -> u64
        ensures most { result ≤ count }
        ensures passed { Passes self.old result self.new }
        ensures stops { result < count → NoneFollows self.new }
    {
        'values: for passed in 0..count {
            let mut rest = *self;
            match rest.next() {
                Some(Ok(_)) => *self = rest,
                _ => return passed,
            }
        }
        count
    }

    /// The bytes that are not read: after the last value, none. After a refusal they begin with
    /// what is refused.
    pub fn rest(&self) -> &'a [u8]
        ensures { result.now ≡ self.now.rest.0.now }
    {
        self.rest.0
    }
}

impl<'a> Iterator for TextValues<'a> {
    type Item = Result<TextValue<'a>, TextFault>;

    ghost next_gives = { GivesValue };

    ghost remaining = { values_left };

    #[inline(always)]
    fn next(&mut self) -> Option<Result<TextValue<'a>, TextFault>> {
        if self.has_refused || self.rest.is_empty() {
            return None;
        }
        let mut rest = self.rest;
        match read_value(&mut rest) {
            Ok(value) => {
                self.rest = rest;
                Some(Ok(value))
            }
            Err(fault) => {
                self.has_refused = true;
                Some(Err(fault))
            }
        }
    }
}

/// What comes one by one is what a `TextRow` reads: the same values, and the same refusal after
/// them. Only a `TextRow` may lack memory.
///
/// It takes and answers nothing: its contract is the law, and a caller has it by calling.
pub fn values_are_of_a_row()
    ensures given { (row : TextRow) (values left : TextValues) → IsOwned row.values.0
        → GivesAll values (cow_slice_items row.values.0) left
        → (eaten : ℕ) × (left.rest.0.now ≡ drop eaten values.rest.0.now)
        × ⟦<TextRow<'static> as MyDeserialize<'static, Global>>⟧.reads
        (length (cow_slice_items row.values.0)) values.rest.0.now (Ok row) eaten }
    ensures read { (row : TextRow) (values : TextValues) (count eaten : ℕ)
        → values.has_refused ≡ false
        → ⟦<TextRow<'static> as MyDeserialize<'static, Global>>⟧.reads count values.rest.0.now
        (Ok row) eaten
        → (left : TextValues) × GivesAll values (cow_slice_items row.values.0) left
        × (length (cow_slice_items row.values.0) ≡ count)
        × (left.rest.0.now ≡ drop eaten values.rest.0.now) }
    ensures refused { (before : List TextValue) (values left : TextValues) (error : WireError)
        (count : ℕ) → GivesAll values before left → RefusesAs left error → length before < count
        → (eaten : ℕ) × ⟦<TextRow<'static> as MyDeserialize<'static, Global>>⟧.reads count
        values.rest.0.now (Err error) eaten }
    ensures why { (values : TextValues) (error : WireError) (count eaten : ℕ)
        → values.has_refused ≡ false
        → ⟦<TextRow<'static> as MyDeserialize<'static, Global>>⟧.reads count values.rest.0.now
        (Err error) eaten
        → (error ≡ OutOfMemory) ⊎ ((before : List TextValue) × (left : TextValues)
        × (length before < count) × GivesAll values before left × RefusesAs left error) }
{}
