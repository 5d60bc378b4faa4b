//! `COM_STATISTICS`, and its answer.

ghost use Rattle.std.specs.Prelude.{◌≡◌, ◌∷◌, [], refl};
ghost use Rattle.std.specs.Cow.{cow_slice_items};
ghost use Rattle.wire_buf.specs.Reading.{Through};
ghost use Rattle.wire_repr.specs.Law.{size-is};
ghost use Rattle.wire_repr.specs.Texts.{IsBorrowedText};
ghost use Rattle.wire_forms.specs.Constants.{ReadsConst, ReadsConst-back};
ghost use Rattle.mysql_wire_parts.specs.InOrder.{packet, eof_text};

use mysql_wire_parts::by_ref::ByRef;
use std::alloc::{Allocator, Global};
use wire_buf::error::{InvalidReason, WireError};
use wire_buf::io::ParseBuf;
use wire_buf::proto::{Fixed, HasSize, MyDeserialize, MySerialize, Varying};
use wire_forms::constant::ConstU8;
use wire_forms::undelimited::EofBytes;
use wire_repr::wire::Wire;
use wire_values::text::RawBytes;

/// The server's statistics are asked for. The answer is a `StatisticsText`, or an error.
///
/// <https://dev.mysql.com/doc/dev/mysql-server/latest/page_protocol_com_statistics.html>
#[derive(Clone, Copy, Debug, PartialEq, Eq)]
pub struct ComStatistics;

impl MySerialize for ComStatistics {
    ghost bytes = { λ _. 0x09 ∷ [] };

    fn serialize<A: Allocator>(&self, buf: &mut Vec<u8, A>) -> Result<(), WireError> {
        ConstU8::<(), 0x09>::new().serialize(buf)
    }
}

impl HasSize for ComStatistics {
    type Size = Fixed<1>;
}

impl<'de, A: Allocator + Copy> MyDeserialize<'de, A> for ComStatistics {
    type Ctx = ();

    ghost reads = { λ _. ReadsConst 1 (0x09 ∷ []) };

    fn deserialize(_: A, _: (), buf: &mut ParseBuf<'de>) -> Result<Self, WireError> {
        match buf.eat_u8() {
            0x09 => Ok(ComStatistics),
            _ => Err(WireError::InvalidData(InvalidReason::ConstMismatch)),
        }
    }
}

impl<'de, A: Allocator + Copy> Wire<'de, A> for ComStatistics {
    ghost is_value = { λ _. Unit {0} };

    ghost good = { λ _ _ _. Unit {0} };

    ghost kept = { λ _ _. Unit {0} };

    ghost takes_memory = { ⊥ };

    fn known(&self) {}

    ghost comes_back = { λ ctx command rest answer eaten value good read.
        ReadsConst-back 1 (0x09 ∷ []) rest refl answer eaten read };

    ghost of_size = { λ command size value stated. size-is 1 size 1 stated refl };
}

/// The statistics, for people to read. The text is all the payload.
///
/// <https://dev.mysql.com/doc/dev/mysql-server/latest/page_protocol_com_statistics.html>
#[derive(Drop, Debug, PartialEq, Eq)]
pub struct StatisticsText<'a> {
    pub text: RawBytes<'a, EofBytes>,
}

impl MySerialize for StatisticsText<'_> {
    ghost bytes = { λ statistics. cow_slice_items statistics.text.0 };

    fn serialize<A: Allocator>(&self, buf: &mut Vec<u8, A>) -> Result<(), WireError> {
        ByRef(&self.text).serialize(buf)
    }
}

impl HasSize for StatisticsText<'_> {
    type Size = Varying;
}

impl<'de> MyDeserialize<'de, Global> for StatisticsText<'de> {
    type Ctx = ();

    ghost reads = { λ _ input. Through (λ statistics. statistics.text)
        (⟦<RawBytes<'de, EofBytes> as MyDeserialize<'de, Global>>⟧.reads tt input) };

    fn deserialize(alloc: Global, _: (), buf: &mut ParseBuf<'de>) -> Result<Self, WireError> {
        match buf.parse::<RawBytes<'de, EofBytes>>(alloc, ()) {
            Ok(text) => Ok(StatisticsText { text }),
            Err(error) => Err(error),
        }
    }
}

// The text takes all the rest, so it comes back where nothing stands after it.
impl<'de> Wire<'de, Global> for StatisticsText<'de> {
    ghost is_value = { λ _. Unit {0} };

    ghost good = { λ _ _ rest. rest ≡ [] };

    ghost kept = { λ statistics back. IsBorrowedText back.text.0
        (cow_slice_items statistics.text.0) };

    ghost takes_memory = { ⊥ };

    fn known(&self) {}

    ghost comes_back = { λ ctx statistics rest answer eaten value good read.
        packet (⟦<RawBytes<'de, EofBytes> as MyDeserialize<'de, Global>>⟧.reads tt) _ _
        (λ back came. came)
        (eof_text (λ text. text.0) (cow_slice_items statistics.text.0) good)
        answer eaten read };

    ghost of_size = { λ statistics size _ stated. Prim.cc };
}
