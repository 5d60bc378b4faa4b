//! What MariaDB says more of a column's type.

ghost use Rattle.std.specs.Prelude.{◌≡◌, ◌∷◌};
ghost use Rattle.std.specs.Cow.{cow_slice_items};
ghost use Rattle.wire_repr.specs.Texts.{IsText, IsBorrowedText};
ghost use Rattle.wire_buf.specs.Reading.{Through};
ghost use Rattle.mysql_wire_parts.specs.InOrder.{packet, both, byte, lenenc_text, text_bytes};

use mysql_wire_parts::by_ref::ByRef;
use std::alloc::{Allocator, Global};
use wire_buf::error::WireError;
use wire_buf::io::ParseBuf;
use wire_buf::proto::{HasSize, MyDeserialize, MySerialize, Varying};
use wire_field::row::Both;
use wire_forms::lenenc::LenEnc;
use wire_repr::wire::Wire;
use wire_values::text::RawBytes;

// The fields, in order.
type Fields<'a> = Both<u8, RawBytes<'a, LenEnc>>;

/// One detail of a column's type, of those that a `ColumnDefinition41`'s `extended_metadata` lists.
/// They are read one after another until no bytes are left.
///
/// <https://mariadb.com/kb/en/result-set-packets/>
#[derive(Drop, Debug, PartialEq, Eq)]
pub struct TypeDetail<'a> {
    /// 0 for the name of the type, as `uuid`; 1 for the format, as `json`.
    pub kind: u8,
    pub value: RawBytes<'a, LenEnc>,
}

impl MySerialize for TypeDetail<'_> {
    ghost bytes = { λ detail. detail.kind ∷ text_bytes detail.value.0 };

    fn serialize<A: Allocator>(&self, buf: &mut Vec<u8, A>) -> Result<(), WireError> {
        Both(self.kind, ByRef(&self.value)).serialize(buf)
    }
}

impl HasSize for TypeDetail<'_> {
    type Size = Varying;
}

impl<'de> MyDeserialize<'de, Global> for TypeDetail<'de> {
    type Ctx = ();

    ghost reads = { λ _ input. Through (λ detail. (detail.kind, detail.value))
        (⟦<Fields<'de> as MyDeserialize<'de, Global>>⟧.reads (tt, tt) input) };

    fn deserialize(alloc: Global, _: (), buf: &mut ParseBuf<'de>) -> Result<Self, WireError> {
        match Fields::deserialize(alloc, ((), ()), buf) {
            Ok(Both(kind, value)) => Ok(TypeDetail { kind, value }),
            Err(error) => Err(error),
        }
    }
}

impl<'de> Wire<'de, Global> for TypeDetail<'de> {
    ghost is_value = { λ detail. IsText (cow_slice_items detail.value.0) };

    ghost good = { λ _ _ _. Unit {0} };

    ghost kept = { λ detail back. (back.kind ≡ detail.kind)
        × IsBorrowedText back.value.0 (cow_slice_items detail.value.0) };

    ghost takes_memory = { ⊥ };

    fn known(&self) {
        self.value.known();
    }

    ghost comes_back = { λ ctx detail rest answer eaten value good read.
        packet (⟦<Fields<'de> as MyDeserialize<'de, Global>>⟧.reads (tt, tt)) _ _
        (λ back came. came)
        (both (byte (λ n. n) detail.kind)
        (lenenc_text (λ text. text.0) (cow_slice_items detail.value.0) value))
        answer eaten read };

    ghost of_size = { λ detail size _ stated. Prim.cc };
}
