//! The request for a file of the client.

ghost use Rattle.std.specs.Prelude.{◌≡◌, ◌∷◌, []};
ghost use Rattle.std.specs.Cow.{cow_slice_items};
ghost use Rattle.wire_buf.specs.Reading.{Through};
ghost use Rattle.wire_repr.specs.Texts.{IsText, IsBorrowedText};
ghost use Rattle.mysql_wire_parts.specs.InOrder.{packet, both, const_u8, eof_text};

use mysql_wire_parts::by_ref::ByRef;
use std::alloc::{Allocator, Global};
use wire_buf::error::WireError;
use wire_buf::io::ParseBuf;
use wire_buf::proto::{HasSize, MyDeserialize, MySerialize, Varying};
use wire_field::row::Both;
use wire_forms::constant::ConstU8;
use wire_forms::undelimited::EofBytes;
use wire_repr::wire::Wire;
use wire_values::text::RawBytes;

// The payload's fields, in order.
type Fields<'a> = Both<ConstU8<(), 0xfb>, RawBytes<'a, EofBytes>>;

/// The server asks for a file of the client, as `LOAD DATA LOCAL INFILE` names it. The client
/// answers with the file in payloads, and then with an empty one.
///
/// <https://dev.mysql.com/doc/dev/mysql-server/latest/page_protocol_com_query_response_local_infile_request.html>
#[derive(Drop, Debug, PartialEq, Eq)]
pub struct LocalInfileRequest<'a> {
    pub file_name: RawBytes<'a, EofBytes>,
}

impl MySerialize for LocalInfileRequest<'_> {
    ghost bytes = { λ request. 0xfb ∷ cow_slice_items request.file_name.0 };

    fn serialize<A: Allocator>(&self, buf: &mut Vec<u8, A>) -> Result<(), WireError> {
        Both(ConstU8::<(), 0xfb>::new(), ByRef(&self.file_name)).serialize(buf)
    }
}

impl HasSize for LocalInfileRequest<'_> {
    type Size = Varying;
}

impl<'de> MyDeserialize<'de, Global> for LocalInfileRequest<'de> {
    type Ctx = ();

    ghost reads = { λ _ input. Through (λ request. (_, request.file_name))
        (⟦<Fields<'de> as MyDeserialize<'de, Global>>⟧.reads (tt, tt) input) };

    fn deserialize(alloc: Global, _: (), buf: &mut ParseBuf<'de>) -> Result<Self, WireError> {
        match Fields::deserialize(alloc, ((), ()), buf) {
            Ok(Both(_, file_name)) => Ok(LocalInfileRequest { file_name }),
            Err(error) => Err(error),
        }
    }
}

// The name takes all the rest, so it comes back where nothing stands after it.
impl<'de> Wire<'de, Global> for LocalInfileRequest<'de> {
    ghost is_value = { λ request. IsText (cow_slice_items request.file_name.0) };

    ghost good = { λ _ _ rest. rest ≡ [] };

    ghost kept = { λ request back. IsBorrowedText back.file_name.0 (cow_slice_items request.file_name.0) };

    ghost takes_memory = { ⊥ };

    fn known(&self) {
        self.file_name.known();
    }

    ghost comes_back = { λ ctx request rest answer eaten value good read.
        packet (⟦<Fields<'de> as MyDeserialize<'de, Global>>⟧.reads (tt, tt)) _ _
        (λ back came. came.1)
        (both const_u8 (eof_text (λ text. text.0) (cow_slice_items request.file_name.0) good))
        answer eaten read };

    ghost of_size = { λ request size _ stated. Prim.cc };
}
