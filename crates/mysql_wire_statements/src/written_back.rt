//! What is read is written as it stood.

ghost use Rattle.std.specs.Prelude.{◌≡◌, ℕ, List, ◌++◌, take, Ok, IfOk};
ghost use Rattle.wire_buf.specs.Numbers.{IsBytes};
ghost use Rattle.wire_buf.specs.Reading.{Reads, Parses};

use std::alloc::Allocator;
use wire_buf::error::WireError;
use wire_buf::io::ParseBuf;
use wire_buf::proto::{MyDeserialize, MySerialize};
use wire_repr::wire::Wire;

/// A type whose values are written as the very bytes that they were read from, where these bytes
/// spell their lengths in the shortest form.
///
/// Lengths: <https://dev.mysql.com/doc/dev/mysql-server/latest/page_protocol_basic_dt_integers.html>
pub trait WrittenBack<'de, A: Allocator + Copy>: Wire<'de, A> {
    /// The bytes spell the lengths of what is read of them in the shortest form. It holds always,
    /// where no length is spelled in more than one.
    ghost shortest: { Self.Ctx → List ℕ → Type 0 };

    ghost again: { (ctx : Self.Ctx) (input : List ℕ) (value : Self) (eaten : ℕ) → IsBytes input
        → shortest ctx input → Parses Self.Size.SIZE (Self.reads ctx) input (Ok value) eaten
        → Self.bytes value ≡ take eaten input };
}

// Bytes in hand are bytes.
fn known_bytes(_bytes: &[u8])
    ensures { IsBytes _bytes.now }
{}

/// Reads a value, as `parse` does. It is written as the very bytes that were eaten, where these
/// spell its lengths in the shortest form.
pub fn is_written_back<'de, T: WrittenBack<'de, A>, A: Allocator + Copy>(
    alloc: A,
    ctx: T::Ctx,
    buf: &mut ParseBuf<'de>,
) -> Result<T, WireError>
    ensures reads { Reads (Parses T.Size.SIZE (T.reads ctx)) buf.old.0.now result buf.new.0.now }
    ensures again { IfOk result (λ value. T.shortest ctx buf.old.0.now
        → T.bytes value ++ buf.new.0.now ≡ buf.old.0.now) }
{
    known_bytes(buf.0);
    buf.parse_in(alloc, ctx)
}
