//! `COM_FIELD_LIST`.

ghost use Rattle.std.specs.Prelude.{◌≡◌, ◌∷◌, ◌++◌, []};
ghost use Rattle.std.specs.Cow.{cow_slice_items};
ghost use Rattle.wire_buf.specs.Reading.{Through};
ghost use Rattle.wire_repr.specs.Texts.{IsBorrowedText};
ghost use Rattle.mysql_wire_parts.specs.InOrder.{packet, both, const_u8, eof_text};
ghost use Rattle.mysql_wire_parts.specs.NullTexts.{clean, null_text};

use mysql_wire_parts::by_ref::ByRef;
use std::alloc::{Allocator, Global};
use wire_buf::error::WireError;
use wire_buf::io::ParseBuf;
use wire_buf::proto::{HasSize, MyDeserialize, MySerialize, Varying};
use wire_field::row::Both;
use wire_forms::constant::ConstU8;
use wire_forms::null::NullBytes;
use wire_forms::undelimited::EofBytes;
use wire_repr::wire::Wire;
use wire_values::text::RawBytes;

// The payload's fields, in order.
type Fields<'a> = Both<ConstU8<(), 0x04>, Both<RawBytes<'a, NullBytes>, RawBytes<'a, EofBytes>>>;

/// The columns of a table are asked for. Deprecated for the query `SHOW COLUMNS`.
///
/// <https://dev.mysql.com/doc/dev/mysql-server/latest/page_protocol_com_field_list.html>
#[derive(Drop, Debug, PartialEq, Eq)]
pub struct ComFieldList<'a> {
    /// The table's name, of which what stands before its first zero is written.
    pub table: RawBytes<'a, NullBytes>,
    /// Which columns, as `LIKE` has it, up to the end of the payload.
    pub wildcard: RawBytes<'a, EofBytes>,
}

impl MySerialize for ComFieldList<'_> {
    ghost bytes = { λ command. 0x04 ∷ ((clean command.table.0 ++ 0 ∷ [])
        ++ cow_slice_items command.wildcard.0) };

    fn serialize<A: Allocator>(&self, buf: &mut Vec<u8, A>) -> Result<(), WireError> {
        let columns = Both(ByRef(&self.table), ByRef(&self.wildcard));
        Both(ConstU8::<(), 0x04>::new(), columns).serialize(buf)
    }
}

impl HasSize for ComFieldList<'_> {
    type Size = Varying;
}

impl<'de> MyDeserialize<'de, Global> for ComFieldList<'de> {
    type Ctx = ();

    ghost reads = { λ _ input. Through (λ command. (_, (command.table, command.wildcard)))
        (⟦<Fields<'de> as MyDeserialize<'de, Global>>⟧.reads (tt, (tt, tt)) input) };

    fn deserialize(alloc: Global, _: (), buf: &mut ParseBuf<'de>) -> Result<Self, WireError> {
        match Fields::deserialize(alloc, ((), ((), ())), buf) {
            Ok(Both(_, Both(table, wildcard))) => Ok(ComFieldList { table, wildcard }),
            Err(error) => Err(error),
        }
    }
}

// The wildcard takes all the rest, so it comes back where nothing stands after it.
impl<'de> Wire<'de, Global> for ComFieldList<'de> {
    ghost is_value = { λ _. Unit {0} };

    ghost good = { λ _ _ rest. rest ≡ [] };

    ghost kept = { λ command back. IsBorrowedText back.table.0 (clean command.table.0)
        × IsBorrowedText back.wildcard.0 (cow_slice_items command.wildcard.0) };

    ghost takes_memory = { ⊥ };

    fn known(&self) {}

    ghost comes_back = { λ ctx command rest answer eaten value good read.
        packet (⟦<Fields<'de> as MyDeserialize<'de, Global>>⟧.reads (tt, (tt, tt))) _ _
        (λ back came. came.1)
        (both const_u8 (both (null_text (λ text. text.0) (cow_slice_items command.table.0))
        (eof_text (λ text. text.0) (cow_slice_items command.wildcard.0) good)))
        answer eaten read };

    ghost of_size = { λ command size _ stated. Prim.cc };
}
