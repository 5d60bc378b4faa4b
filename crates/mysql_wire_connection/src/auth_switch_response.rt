//! The answer of an authentication plugin.

ghost use Rattle.std.specs.Prelude.{◌≡◌, []};
ghost use Rattle.std.specs.Cow.{cow_slice_items};
ghost use Rattle.wire_buf.specs.Reading.{Through};
ghost use Rattle.wire_repr.specs.Texts.{IsText, IsBorrowedText};
ghost use Rattle.mysql_wire_parts.specs.InOrder.{packet, eof_text};

use mysql_wire_parts::by_ref::ByRef;
use std::alloc::{Allocator, Global};
use wire_buf::error::WireError;
use wire_buf::io::ParseBuf;
use wire_buf::proto::{HasSize, MyDeserialize, MySerialize, Varying};
use wire_forms::undelimited::EofBytes;
use wire_repr::wire::Wire;
use wire_values::text::RawBytes;

/// What a client answers to an `AuthSwitchRequest` or to `AuthMoreData`: the data of the plugin,
/// which are all the payload.
///
/// <https://dev.mysql.com/doc/dev/mysql-server/latest/page_protocol_connection_phase_packets_protocol_auth_switch_response.html>
#[derive(Drop, Debug, PartialEq, Eq)]
pub struct AuthSwitchResponse<'a> {
    pub data: RawBytes<'a, EofBytes>,
}

impl MySerialize for AuthSwitchResponse<'_> {
    ghost bytes = { λ response. cow_slice_items response.data.0 };

    fn serialize<A: Allocator>(&self, buf: &mut Vec<u8, A>) -> Result<(), WireError> {
        ByRef(&self.data).serialize(buf)
    }
}

impl HasSize for AuthSwitchResponse<'_> {
    type Size = Varying;
}

impl<'de> MyDeserialize<'de, Global> for AuthSwitchResponse<'de> {
    type Ctx = ();

    ghost reads = { λ _ input. Through (λ response. response.data)
        (⟦<RawBytes<'de, EofBytes> as MyDeserialize<'de, Global>>⟧.reads tt input) };

    fn deserialize(alloc: Global, _: (), buf: &mut ParseBuf<'de>) -> Result<Self, WireError> {
        match buf.parse::<RawBytes<'de, EofBytes>>(alloc, ()) {
            Ok(data) => Ok(AuthSwitchResponse { data }),
            Err(error) => Err(error),
        }
    }
}

// The data take all the rest, so they come back where nothing stands after them.
impl<'de> Wire<'de, Global> for AuthSwitchResponse<'de> {
    ghost is_value = { λ response. IsText (cow_slice_items response.data.0) };

    ghost good = { λ _ _ rest. rest ≡ [] };

    ghost kept = { λ response back. IsBorrowedText back.data.0 (cow_slice_items response.data.0) };

    ghost takes_memory = { ⊥ };

    fn known(&self) {
        self.data.known();
    }

    ghost comes_back = { λ ctx response rest answer eaten value good read.
        packet (⟦<RawBytes<'de, EofBytes> as MyDeserialize<'de, Global>>⟧.reads tt) _ _
        (λ back came. came)
        (eof_text (λ text. text.0) (cow_slice_items response.data.0) good)
        answer eaten read };

    ghost of_size = { λ response size _ stated. Prim.cc };
}
