//! A buffer as a reader of its bytes.

ghost use Rattle.std.specs.Prelude.{◌≡◌, Ok, Some, IfOk, ◌++◌, length, min, take, drop};
ghost use Rattle.std.specs.Io.{ReadsAtMost};
ghost use Rattle.std.specs.Io.KnownBytes.{ReadConsumes};

use crate::io::ParseBuf;
use std::io::{self, Read};

/// A read gives as many bytes as there are and as fit.
impl Read for ParseBuf<'_> {
    ghost remaining = { λ buf. Some buf.0.now };

    fn read(&mut self, buf: &mut [u8]) -> io::Result<usize>
        ensures bound { ReadsAtMost result buf.new }
        ensures bytes { ReadConsumes (Some self.old.0.now) (Some self.new.0.now) result buf.new }
        ensures count { result ≡ Ok (min (length self.old.0.now) (length buf.old)) }
        ensures copied { IfOk result (λ n. buf.new ≡ take n self.old.0.now ++ drop n buf.old) }
        ensures rest { IfOk result (λ n. self.new.0.now ≡ drop n self.old.0.now) }
    {
        self.0.read(buf)
    }
}
