//! What it is that a payload is a packet.

ghost use Rattle.std.specs.Prelude.{ℕ, List, Result};
ghost use Rattle.wire_buf.specs.Reading.{Parses};
ghost use Rattle.mysql_wire_parts.specs.Places.{ReadsWhole};
ghost use Rattle.mysql_wire_parts.specs.declared.places.PayloadError.{PayloadError};

use std::alloc::Global;
use wire_buf::proto::MyDeserialize;

/// A packet that payloads are read as.
pub trait Payload<'a>: MyDeserialize<'a, Global> {
    /// What such a read of a whole payload answers.
    ghost reads_whole: { Self.Ctx → List ℕ → Result Self PayloadError → Type 0 };

    ghost is_read: { (ctx : Self.Ctx) (payload : List ℕ) (result : Result Self PayloadError) →
        ReadsWhole (Parses Self.Size.SIZE (Self.reads ctx)) payload result
        → reads_whole ctx payload result };
}
