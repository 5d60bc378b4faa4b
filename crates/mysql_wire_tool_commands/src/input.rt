//! Reading.

ghost use Rattle.std.specs.Prelude.{◌≡◌, ◌<◌, ◌≤◌, [], ◌∷◌, IfOk, OnOk, take, vec_len};
ghost use Rattle.std.specs.Io.KnownBytes.{Consumes, IsAtEnd};
ghost use Rattle.std.specs.Result.{result_unwrap_or};
ghost use Rattle.mysql_wire_tool_commands.specs.Reads.{Makes};

use crate::status::Stop;
use crate::traced_read::TracedRead;
use bytes::BytesMut;
use std::alloc::Allocator;
use std::io;
use std::io::Read;

// The room for one read, at least, in bytes.
const READ_SIZE: usize = 8192;

/// The whole input, in at most 2^64 - 1 reads.
pub fn read_whole<A: Allocator + Copy, R: Read>(
    alloc: A,
    input: &mut R,
) -> Result<BytesMut<A>, Stop>
    ensures bytes { IfOk result
        (λ whole. Consumes (R.remaining input.old) (R.remaining input.new) whole.items) }
    ensures end { OnOk result (IsAtEnd (R.remaining input.new)) }
{
    let mut whole = BytesMut::new(alloc);
    'reads: for _ in 0..u64::MAX {
        whole.reserve(READ_SIZE)?;
        if whole.read_from(input)? == 0 {
            return Ok(whole);
        }
    }
    Err(Stop::Io)
}

/// One read of at most `most` bytes to the front of `piece`: how many came, none at the end of the
/// input.
pub fn read_piece<A: Allocator, R: TracedRead>(
    input: &mut R,
    piece: &mut Vec<u8, A>,
    most: usize,
) -> io::Result<usize>
    requires some { 0 < most }
    requires room { most ≤ vec_len piece.old }
    ensures len { vec_len piece.new ≡ vec_len piece.old }
    ensures count { IfOk result (λ n. n ≤ most) }
    ensures bytes { IfOk result
        (λ n. Consumes (R.remaining input.old) (R.remaining input.new) (take n piece.new.items)) }
    ensures end { IfOk result (λ n. n ≡ 0 → IsAtEnd (R.remaining input.new)) }
    ensures noted { Makes (R.reads input.old) (R.reads input.new)
        (record { asked = most; came = result_unwrap_or result 0 } ∷ []) }
{
    input.read_noted(&mut piece.as_mut_slice()[0..most])
}
