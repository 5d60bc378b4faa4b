//! `COM_QUERY`.

ghost use Rattle.std.specs.Prelude.{◌≡◌, ◌∷◌, ◌++◌, ◌⊎◌, [], List, ℕ, length};
ghost use Rattle.std.specs.Cow.{cow_slice_items};
ghost use Rattle.wire_buf.specs.Reading.{Through};
ghost use Rattle.wire_repr.specs.Texts.{IsText, IsBorrowedText};
ghost use Rattle.mysql_wire_parts.specs.InOrder.{packet, both, const_u8, eof_text};

use mysql_wire_parts::by_ref::ByRef;
use std::alloc::{Allocator, Global};
use wire_buf::error::WireError;
use wire_buf::io::ParseBuf;
use wire_buf::proto::{HasSize, MyDeserialize, MySerialize, Varying};
use wire_field::row::Both;
use wire_forms::constant::ConstU8;
use wire_forms::undelimited::EofBytes;
use wire_repr::wire::Wire;
use wire_values::text::RawBytes;

// The payload's fields, in order.
type Fields<'a> = Both<ConstU8<(), 0x03>, RawBytes<'a, EofBytes>>;

/// `COM_QUERY` without query attributes: its byte, and the text of the query up to the end of the
/// payload.
///
/// <https://dev.mysql.com/doc/dev/mysql-server/latest/page_protocol_com_query.html>
#[derive(Drop, Debug, PartialEq, Eq)]
pub struct ComQuery<'a> {
    pub query: RawBytes<'a, EofBytes>,
}

impl MySerialize for ComQuery<'_> {
    ghost bytes = { λ command. 0x03 ∷ cow_slice_items command.query.0 };

    fn serialize<A: Allocator>(&self, buf: &mut Vec<u8, A>) -> Result<(), WireError> {
        Both(ConstU8::<(), 0x03>::new(), ByRef(&self.query)).serialize(buf)
    }
}

impl HasSize for ComQuery<'_> {
    type Size = Varying;
}

impl<'de> MyDeserialize<'de, Global> for ComQuery<'de> {
    type Ctx = ();

    ghost reads = { λ _ input. Through (λ command. (_, command.query))
        (⟦<Fields<'de> as MyDeserialize<'de, Global>>⟧.reads (tt, tt) input) };

    fn deserialize(alloc: Global, _: (), buf: &mut ParseBuf<'de>) -> Result<Self, WireError> {
        match Fields::deserialize(alloc, ((), ()), buf) {
            Ok(Both(_, query)) => Ok(ComQuery { query }),
            Err(error) => Err(error),
        }
    }
}

// The query takes all the rest, so it comes back where nothing stands after it.
impl<'de> Wire<'de, Global> for ComQuery<'de> {
    ghost is_value = { λ command. IsText (cow_slice_items command.query.0) };

    ghost good = { λ _ _ rest. rest ≡ [] };

    ghost kept = { λ command back. IsBorrowedText back.query.0 (cow_slice_items command.query.0) };

    ghost takes_memory = { ⊥ };

    fn known(&self) {
        self.query.known();
    }

    ghost comes_back = { λ ctx command rest answer eaten value good read.
        packet (⟦<Fields<'de> as MyDeserialize<'de, Global>>⟧.reads (tt, tt)) _ _
        (λ back came. came.1)
        (both const_u8 (eof_text (λ text. text.0) (cow_slice_items command.query.0) good))
        answer eaten read };

    ghost of_size = { λ command size _ stated. Prim.cc };
}
