//! The request for another authentication plugin.

ghost use Rattle.std.specs.Prelude.{◌≡◌, ◌∷◌, ◌++◌, []};
ghost use Rattle.std.specs.Cow.{cow_slice_items};
ghost use Rattle.wire_buf.specs.Reading.{Through};
ghost use Rattle.wire_repr.specs.Texts.{IsText, IsBorrowedText};
ghost use Rattle.mysql_wire_parts.specs.NullTexts.{clean, null_text};
ghost use Rattle.mysql_wire_parts.specs.InOrder.{packet, both, const_u8, eof_text};

use mysql_wire_parts::by_ref::ByRef;
use std::alloc::{Allocator, Global};
use wire_buf::error::WireError;
use wire_buf::io::ParseBuf;
use wire_buf::proto::{HasSize, MyDeserialize, MySerialize, Varying};
use wire_field::row::Both;
use wire_forms::constant::ConstU8;
use wire_forms::null::NullBytes;
use wire_forms::undelimited::EofBytes;
use wire_repr::wire::Wire;
use wire_values::text::RawBytes;

// The payload's fields, in order.
type Fields<'a> = Both<ConstU8<(), 0xfe>, Both<RawBytes<'a, NullBytes>, RawBytes<'a, EofBytes>>>;

/// The server asks the client to authenticate itself by another plugin. The client answers with
/// that plugin's data, which are all its payload.
///
/// <https://dev.mysql.com/doc/dev/mysql-server/latest/page_protocol_connection_phase_packets_protocol_auth_switch_request.html>
#[derive(Drop, Debug, PartialEq, Eq)]
pub struct AuthSwitchRequest<'a> {
    pub plugin_name: RawBytes<'a, NullBytes>,
    /// The plugin's data, up to the end of the payload. Some plugins end them with a zero.
    pub plugin_data: RawBytes<'a, EofBytes>,
}

impl MySerialize for AuthSwitchRequest<'_> {
    ghost bytes = { λ request. 0xfe ∷ ((clean request.plugin_name.0 ++ 0 ∷ [])
        ++ cow_slice_items request.plugin_data.0) };

    fn serialize<A: Allocator>(&self, buf: &mut Vec<u8, A>) -> Result<(), WireError> {
        let names = Both(ByRef(&self.plugin_name), ByRef(&self.plugin_data));
        Both(ConstU8::<(), 0xfe>::new(), names).serialize(buf)
    }
}

impl HasSize for AuthSwitchRequest<'_> {
    type Size = Varying;
}

impl<'de> MyDeserialize<'de, Global> for AuthSwitchRequest<'de> {
    type Ctx = ();

    ghost reads = { λ _ input. Through
        (λ request. (_, (request.plugin_name, request.plugin_data)))
        (⟦<Fields<'de> as MyDeserialize<'de, Global>>⟧.reads (tt, (tt, tt)) input) };

    fn deserialize(alloc: Global, _: (), buf: &mut ParseBuf<'de>) -> Result<Self, WireError> {
        match Fields::deserialize(alloc, ((), ((), ())), buf) {
            Ok(Both(_, Both(plugin_name, plugin_data))) => Ok(AuthSwitchRequest {
                plugin_name,
                plugin_data,
            }),
            Err(error) => Err(error),
        }
    }
}

// The data take all the rest, so they come back where nothing stands after them.
impl<'de> Wire<'de, Global> for AuthSwitchRequest<'de> {
    ghost is_value = { λ request. IsText (cow_slice_items request.plugin_data.0) };

    ghost good = { λ _ _ rest. rest ≡ [] };

    ghost kept = { λ request back. IsBorrowedText back.plugin_name.0 (clean request.plugin_name.0)
        × IsBorrowedText back.plugin_data.0 (cow_slice_items request.plugin_data.0) };

    ghost takes_memory = { ⊥ };

    fn known(&self) {
        self.plugin_data.known();
    }

    ghost comes_back = { λ ctx request rest answer eaten value good read.
        packet (⟦<Fields<'de> as MyDeserialize<'de, Global>>⟧.reads (tt, (tt, tt))) _ _
        (λ back came. came.1)
        (both const_u8 (both (null_text (λ text. text.0) (cow_slice_items request.plugin_name.0))
        (eof_text (λ text. text.0) (cow_slice_items request.plugin_data.0) good)))
        answer eaten read };

    ghost of_size = { λ request size _ stated. Prim.cc };
}
