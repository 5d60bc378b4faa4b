//! Readers whose contracts tell what their reads were asked for.

ghost use Rattle.std.specs.Prelude.{List, [], ◌∷◌, length, Option, None};
ghost use Rattle.std.specs.Io.{ReadsAtMost};
ghost use Rattle.std.specs.Io.KnownBytes.{ReadConsumes};
ghost use Rattle.std.specs.Result.{result_unwrap_or};
ghost use Rattle.mysql_wire_tool_commands.specs.declared.traced_read.OneRead.{OneRead};
ghost use Rattle.mysql_wire_tool_commands.specs.Reads.{Makes};

use std::io;
use std::io::Read;

/// One read: how many bytes it was asked for, and how many came, 0 where it failed.
#[derive(Clone, Copy, PartialEq, Eq)]
pub struct OneRead {
    pub asked: usize,
    pub came: usize,
}

/// A reader that may know what its reads were asked for.
pub trait TracedRead: Read {
    // The reads so far, in order, where all of them are known.
    ghost reads: { Self → Option (List OneRead) } = { λ _. None };

    /// A read as by `read`, which is one of the `reads` from then on.
    fn read_noted(&mut self, buf: &mut [u8]) -> io::Result<usize>
        ensures bound { ReadsAtMost result buf.new }
        ensures bytes { ReadConsumes (Self.remaining self.old) (Self.remaining self.new)
            result buf.new }
        ensures noted { Makes (reads self.old) (reads self.new)
            (record { asked = length buf.new; came = result_unwrap_or result 0 } ∷ []) };
}

/// Any reader, which notes nothing when it runs. Its `reads` are never known, so that a clause on
/// them says nothing of it.
#[derive(Drop)]
pub struct Unnoted<R>(pub R);

impl<R: Read> Read for Unnoted<R> {
    ghost remaining = { λ reader. R.remaining reader.0 };

    fn read(&mut self, buf: &mut [u8]) -> io::Result<usize> {
        self.0.read(buf)
    }
}

impl<R: Read> TracedRead for Unnoted<R> {
    fn read_noted(&mut self, buf: &mut [u8]) -> io::Result<usize> {
        self.0.read(buf)
    }
}
