//! The changes of a session.

ghost use Rattle.std.specs.Prelude.{◌≡◌, ◌∷◌};
ghost use Rattle.std.specs.Cow.{cow_slice_items};
ghost use Rattle.wire_repr.specs.Texts.{IsText, IsBorrowedText};
ghost use Rattle.wire_buf.specs.Reading.{Through};
ghost use Rattle.mysql_wire_parts.specs.InOrder.{packet, both, byte, lenenc_text, text_bytes};

use mysql_wire_parts::by_ref::ByRef;
use std::alloc::{Allocator, Global};
use wire_buf::error::WireError;
use wire_buf::io::ParseBuf;
use wire_buf::proto::{HasSize, MyDeserialize, MySerialize, Varying};
use wire_const::SessionStateType;
use wire_field::converted::RawConst;
use wire_field::row::Both;
use wire_forms::lenenc::LenEnc;
use wire_repr::wire::Wire;
use wire_values::text::RawBytes;

// The fields, in order.
type Fields<'a> = Both<RawConst<u8, SessionStateType>, RawBytes<'a, LenEnc>>;

/// One change of the session, of those that an `OkPacket`'s `session_state` lists. They are read one
/// after another until no bytes are left.
///
/// <https://dev.mysql.com/doc/dev/mysql-server/latest/page_protocol_basic_ok_packet.html>
#[derive(Drop, Debug, PartialEq, Eq)]
pub struct SessionChange<'a> {
    /// What has changed. A number that no kind has is kept as it is.
    pub kind: RawConst<u8, SessionStateType>,
    /// What it is now, in the kind's own form: of `SESSION_TRACK_SCHEMA` the name of the database
    /// after its length, of a system variable its name and its value, each after its length.
    pub data: RawBytes<'a, LenEnc>,
}

impl MySerialize for SessionChange<'_> {
    ghost bytes = { λ change. change.kind.0 ∷ text_bytes change.data.0 };

    fn serialize<A: Allocator>(&self, buf: &mut Vec<u8, A>) -> Result<(), WireError> {
        Both(self.kind, ByRef(&self.data)).serialize(buf)
    }
}

impl HasSize for SessionChange<'_> {
    type Size = Varying;
}

impl<'de> MyDeserialize<'de, Global> for SessionChange<'de> {
    type Ctx = ();

    ghost reads = { λ _ input. Through (λ change. (change.kind, change.data))
        (⟦<Fields<'de> as MyDeserialize<'de, Global>>⟧.reads (tt, tt) input) };

    fn deserialize(alloc: Global, _: (), buf: &mut ParseBuf<'de>) -> Result<Self, WireError> {
        match buf.parse::<Fields<'de>>(alloc, ((), ())) {
            Ok(Both(kind, data)) => Ok(SessionChange { kind, data }),
            Err(error) => Err(error),
        }
    }
}

impl<'de> Wire<'de, Global> for SessionChange<'de> {
    ghost is_value = { λ change. IsText (cow_slice_items change.data.0) };

    ghost good = { λ _ _ _. Unit {0} };

    ghost kept = { λ change back. (back.kind.0 ≡ change.kind.0)
        × IsBorrowedText back.data.0 (cow_slice_items change.data.0) };

    ghost takes_memory = { ⊥ };

    fn known(&self) {
        self.data.known();
    }

    ghost comes_back = { λ ctx change rest answer eaten value good read.
        packet (⟦<Fields<'de> as MyDeserialize<'de, Global>>⟧.reads (tt, tt)) _ _
        (λ back came. came)
        (both (byte (λ raw. raw.0) change.kind.0)
        (lenenc_text (λ text. text.0) (cow_slice_items change.data.0) value))
        answer eaten read };

    ghost of_size = { λ change size _ stated. Prim.cc };
}
