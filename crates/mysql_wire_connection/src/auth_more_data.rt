//! More data of an authentication plugin.

ghost use Rattle.std.specs.Prelude.{◌≡◌, ◌∷◌, []};
ghost use Rattle.std.specs.Cow.{cow_slice_items};
ghost use Rattle.wire_buf.specs.Reading.{Through};
ghost use Rattle.wire_repr.specs.Texts.{IsText, IsBorrowedText};
ghost use Rattle.mysql_wire_parts.specs.InOrder.{packet, both, const_u8, eof_text};

use mysql_wire_parts::by_ref::ByRef;
use std::alloc::{Allocator, Global};
use wire_buf::error::WireError;
use wire_buf::io::ParseBuf;
use wire_buf::proto::{HasSize, MyDeserialize, MySerialize, Varying};
use wire_field::row::Both;
use wire_forms::constant::ConstU8;
use wire_forms::undelimited::EofBytes;
use wire_repr::wire::Wire;
use wire_values::text::RawBytes;

// The payload's fields, in order.
type Fields<'a> = Both<ConstU8<(), 0x01>, RawBytes<'a, EofBytes>>;

/// The server's plugin goes on with the authentication: its data, up to the end of the payload.
///
/// <https://dev.mysql.com/doc/dev/mysql-server/latest/page_protocol_connection_phase_packets_protocol_auth_more_data.html>
#[derive(Drop, Debug, PartialEq, Eq)]
pub struct AuthMoreData<'a> {
    pub data: RawBytes<'a, EofBytes>,
}

impl MySerialize for AuthMoreData<'_> {
    ghost bytes = { λ more. 0x01 ∷ cow_slice_items more.data.0 };

    fn serialize<A: Allocator>(&self, buf: &mut Vec<u8, A>) -> Result<(), WireError> {
        Both(ConstU8::<(), 0x01>::new(), ByRef(&self.data)).serialize(buf)
    }
}

impl HasSize for AuthMoreData<'_> {
    type Size = Varying;
}

impl<'de> MyDeserialize<'de, Global> for AuthMoreData<'de> {
    type Ctx = ();

    ghost reads = { λ _ input. Through (λ more. (_, more.data))
        (⟦<Fields<'de> as MyDeserialize<'de, Global>>⟧.reads (tt, tt) input) };

    fn deserialize(alloc: Global, _: (), buf: &mut ParseBuf<'de>) -> Result<Self, WireError> {
        match Fields::deserialize(alloc, ((), ()), buf) {
            Ok(Both(_, data)) => Ok(AuthMoreData { data }),
            Err(error) => Err(error),
        }
    }
}

// The data take all the rest, so it comes back where nothing stands after it.
impl<'de> Wire<'de, Global> for AuthMoreData<'de> {
    ghost is_value = { λ more. IsText (cow_slice_items more.data.0) };

    ghost good = { λ _ _ rest. rest ≡ [] };

    ghost kept = { λ more back. IsBorrowedText back.data.0 (cow_slice_items more.data.0) };

    ghost takes_memory = { ⊥ };

    fn known(&self) {
        self.data.known();
    }

    ghost comes_back = { λ ctx more rest answer eaten value good read.
        packet (⟦<Fields<'de> as MyDeserialize<'de, Global>>⟧.reads (tt, tt)) _ _
        (λ back came. came.1)
        (both const_u8 (eof_text (λ text. text.0) (cow_slice_items more.data.0) good))
        answer eaten read };

    ghost of_size = { λ more size _ stated. Prim.cc };
}
