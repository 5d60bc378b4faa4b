//! How many payloads of each kind were written back, and how many have the listed fields.

use crate::found::{Found, Outcome};
use crate::place::{KINDS, NAMES};
use std::io::{self, Write};

// The counts of a kind.
#[derive(Clone, Copy)]
struct Counts {
    written_back: u64,
    refused: u64,
    passed_over: u64,
    as_listed: u64,
    otherwise: u64,
}

/// The counts, in the order of the kinds.
#[derive(Drop)]
pub struct Tally {
    kinds: [Counts; KINDS],
}

impl Counts {
    fn note(&mut self, found: Found) {
        match found.outcome {
            Outcome::WrittenBack => self.written_back = self.written_back.saturating_add(1),
            Outcome::Refused => self.refused = self.refused.saturating_add(1),
            Outcome::PassedOver => self.passed_over = self.passed_over.saturating_add(1),
        }
        match found.is_as_listed {
            Some(true) => self.as_listed = self.as_listed.saturating_add(1),
            Some(false) => self.otherwise = self.otherwise.saturating_add(1),
            None => {}
        }
    }

    fn write<W: Write>(&self, name: &str, output: &mut W) -> io::Result<()> {
        let Counts {
            written_back,
            refused,
            passed_over,
            as_listed,
            otherwise,
        } = self;
        writeln!(
            output,
            "{name} {written_back} {refused} {passed_over} {as_listed} {otherwise}"
        )
    }
}

impl Tally {
    pub fn new() -> Tally {
        let none = Counts {
            written_back: 0,
            refused: 0,
            passed_over: 0,
            as_listed: 0,
            otherwise: 0,
        };
        Tally {
            kinds: [none; KINDS],
        }
    }

    /// Counts what was found of a payload.
    pub fn note(&mut self, found: Found) {
        if let Some(counts) = self.kinds.get_mut(found.kind as usize) {
            counts.note(found);
        }
    }

    /// Writes a line for each kind: its name; how many payloads were written back, how many were
    /// refused, and how many have no type; how many have the listed fields, and how many others.
    pub fn write<W: Write>(&self, output: &mut W) -> io::Result<()> {
        for (name, counts) in NAMES.iter().zip(&self.kinds) {
            counts.write(name, output)?;
        }
        Ok(())
    }
}
