//! The end of a row, where few bytes follow a text.

ghost use Rattle.std.specs.Prelude.{◌≡◌, ◌≤◌, ◌+◌, ◌++◌, drop, length, replicate, take};
ghost use Rattle.mysql_wire_dump_lines.specs.RowEnds.{EndsIn, IsEndOf};

/// The last bytes of a row, with zeros behind them: a short text among them has 32 bytes from its first
/// on, as one further in front has.
#[derive(Clone, Copy)]
pub(crate) struct RowEnd {
    bytes: [u8; 64],
}

// Puts some bytes in the place of as many others.
fn put_at(bytes: &mut [u8], at: usize, part: &[u8])
    requires { at + length part.now ≤ length bytes.old }
    ensures { bytes.new ≡ take at bytes.old
        ++ (part.now ++ drop (at + length part.now) bytes.old) }
{
    bytes[at..at + part.len()].copy_from_slice(part);
}

impl RowEnd {
    /// Zeros alone.
    pub(crate) fn new() -> Self
        ensures { result.bytes ≡ replicate 64 0 }
    {
        RowEnd { bytes: [0; 64] }
    }

    /// Takes the last bytes of a row.
    pub(crate) fn take(&mut self, payload: &[u8])
        requires { self.old.bytes ≡ replicate 64 0 }
        ensures { IsEndOf self.new payload.now }
    {
        match payload.last_chunk::<32>() {
            Some(last) => put_at(&mut self.bytes, 0, last),
            None => put_at(&mut self.bytes, 32 - payload.len(), payload),
        }
    }

    /// What is left of the row, and more behind it where it has fewer than 32 bytes.
    pub(crate) fn widened<'a>(&'a self, rest: &'a [u8]) -> &'a [u8]
        requires { EndsIn self.now rest.now }
        ensures { take (length rest.now) result.now ≡ rest.now }
    {
        if rest.len() < 32 {
            &self.bytes[32 - rest.len()..]
        } else {
            rest
        }
    }
}
