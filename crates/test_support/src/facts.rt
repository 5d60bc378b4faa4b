//! Facts that a test looks at.

use std::test::Fail;

/// Fails the test with these words where the fact doesn't hold.
pub fn ensure(holds: bool, words: &str) -> Result<(), Fail> {
    if holds { Ok(()) } else { Err(Fail::new(words)) }
}

/// Whether the bytes are these parts, one after the other.
pub fn are_parts(bytes: &[u8], parts: [&[u8]; 3]) -> bool {
    let [first, second, third] = parts;
    let (front, rest) = bytes.split_at(first.len().min(bytes.len()));
    let (middle, end) = rest.split_at(second.len().min(rest.len()));
    same(front, first) & same(middle, second) & same(end, third)
}

/// Fails the test with the number of the row that goes otherwise, counted from 0, if there is one.
pub fn no_row(wrong: Option<usize>) -> Result<(), Fail> {
    match wrong {
        None => Ok(()),
        Some(row) => Err(Fail::new(format_args!("row {row} goes otherwise"))),
    }
}

/// Whether these are the bytes that are wanted.
pub fn same(bytes: &[u8], wanted: &[u8]) -> bool {
    bytes == wanted
}

/// Whether the bytes that are wanted are there, or none are where none are wanted.
pub fn same_if_any(bytes: Option<&[u8]>, wanted: Option<&[u8]>) -> bool {
    bytes == wanted
}

/// The number of the last row that goes otherwise, counted from 0, where each goes in this context.
pub fn wrong_row<C, T, F>(context: C, rows: &[T], goes: F) -> Option<usize>
where
    C: Copy,
    T: Copy,
    F: Copy + FnOnce(C, T) -> bool,
    requires { F.IsAlwaysCallable goes }
{
    let mut wrong = None;
    for i in 0..rows.len() {
        if !goes(context, rows[i]) {
            wrong = Some(i);
        }
    }
    wrong
}

/// Fails the test with the number of the first fact that doesn't hold, counted from 0, if there is
/// one.
pub fn all_hold(facts: &[bool]) -> Result<(), Fail> {
    let mut wrong = None;
    for i in 0..facts.len() {
        if !facts[i] && wrong.is_none() {
            wrong = Some(i);
        }
    }
    no_row(wrong)
}
