//! `COM_QUERY` with query attributes.

ghost use Rattle.std.specs.Prelude.{◌≡◌, ◌∷◌, ◌++◌, ◌<◌, ◌^◌, []};
ghost use Rattle.std.specs.Cow.{cow_slice_items};
ghost use Rattle.wire_buf.specs.Lenenc.{lenenc_bytes};
ghost use Rattle.wire_buf.specs.Reading.{Through};
ghost use Rattle.wire_repr.specs.Texts.{IsText, IsBorrowedText};
ghost use Rattle.mysql_wire_parts.specs.InOrder.{packet, both, const_u8, eof_text, lenenc_int};

use mysql_wire_parts::by_ref::ByRef;
use std::alloc::{Allocator, Global};
use wire_buf::error::WireError;
use wire_buf::io::ParseBuf;
use wire_buf::proto::{HasSize, MyDeserialize, MySerialize, Varying};
use wire_field::row::Both;
use wire_forms::constant::ConstU8;
use wire_forms::lenenc::LenEnc;
use wire_forms::undelimited::EofBytes;
use wire_repr::int::RawInt;
use wire_repr::wire::Wire;
use wire_values::text::RawBytes;

// The payload's fields, in order.
type Fields<'a> = Both<ConstU8<(), 0x03>, Both<RawInt<LenEnc>, Rest<'a>>>;

type Rest<'a> = Both<RawInt<LenEnc>, RawBytes<'a, EofBytes>>;

/// `COM_QUERY` on a connection under `CLIENT_QUERY_ATTRIBUTES`. How long the attributes are is said
/// by their types alone, so they and the text stand in one field.
///
/// <https://dev.mysql.com/doc/dev/mysql-server/latest/page_protocol_com_query.html>
#[derive(Drop, Debug, PartialEq, Eq)]
pub struct ComQueryWithAttributes<'a> {
    /// How many attributes there are.
    pub parameter_count: u64,
    /// 1, of each client so far.
    pub parameter_set_count: u64,
    /// Where there are attributes, their bitmap of NULLs, types, names and values, and in each case
    /// the text of the query, up to the end of the payload.
    pub attributes_and_query: RawBytes<'a, EofBytes>,
}

impl MySerialize for ComQueryWithAttributes<'_> {
    ghost bytes = { λ command. 0x03 ∷ (lenenc_bytes command.parameter_count
        ++ (lenenc_bytes command.parameter_set_count
        ++ cow_slice_items command.attributes_and_query.0)) };

    fn serialize<A: Allocator>(&self, buf: &mut Vec<u8, A>) -> Result<(), WireError> {
        let count = RawInt::<LenEnc>::new(self.parameter_count);
        let set_count = RawInt::<LenEnc>::new(self.parameter_set_count);
        let rest = Both(set_count, ByRef(&self.attributes_and_query));
        Both(ConstU8::<(), 0x03>::new(), Both(count, rest)).serialize(buf)
    }
}

impl HasSize for ComQueryWithAttributes<'_> {
    type Size = Varying;
}

impl<'de> MyDeserialize<'de, Global> for ComQueryWithAttributes<'de> {
    type Ctx = ();

    ghost reads = { λ _ input. Through
        (λ command. (
          _,
          (
            (command.parameter_count, _),
            ((command.parameter_set_count, _), command.attributes_and_query),
          ),
        ))
        (⟦<Fields<'de> as MyDeserialize<'de, Global>>⟧.reads (tt, (tt, (tt, tt))) input) };

    fn deserialize(alloc: Global, _: (), buf: &mut ParseBuf<'de>) -> Result<Self, WireError> {
        match Fields::deserialize(alloc, ((), ((), ((), ()))), buf) {
            Ok(Both(_, Both(count, Both(set_count, rest)))) => Ok(ComQueryWithAttributes {
                parameter_count: count.0,
                parameter_set_count: set_count.0,
                attributes_and_query: rest,
            }),
            Err(error) => Err(error),
        }
    }
}

// The text takes all the rest, so it comes back where nothing stands after it.
impl<'de> Wire<'de, Global> for ComQueryWithAttributes<'de> {
    ghost is_value = { λ command. (command.parameter_count < 2 ^ 64)
        × (command.parameter_set_count < 2 ^ 64)
        × IsText (cow_slice_items command.attributes_and_query.0) };

    ghost good = { λ _ _ rest. rest ≡ [] };

    ghost kept = { λ command back. (back.parameter_count ≡ command.parameter_count)
        × (back.parameter_set_count ≡ command.parameter_set_count)
        × IsBorrowedText back.attributes_and_query.0
        (cow_slice_items command.attributes_and_query.0) };

    ghost takes_memory = { ⊥ };

    fn known(&self) {
        let _count = self.parameter_count;
        let _set_count = self.parameter_set_count;
        self.attributes_and_query.known();
    }

    ghost comes_back = { λ ctx command rest answer eaten value good read.
        packet (⟦<Fields<'de> as MyDeserialize<'de, Global>>⟧.reads (tt, (tt, (tt, tt)))) _ _
        (λ back came. (came.1.0, came.1.1.0, came.1.1.1))
        (both const_u8 (both (lenenc_int (λ int. int.0) command.parameter_count value.0)
        (both (lenenc_int (λ int. int.0) command.parameter_set_count value.1)
        (eof_text (λ text. text.0) (cow_slice_items command.attributes_and_query.0) good))))
        answer eaten read };

    ghost of_size = { λ command size _ stated. Prim.cc };
}
