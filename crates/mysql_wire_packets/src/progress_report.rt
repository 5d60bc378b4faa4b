//! How far a command has come.

ghost use Rattle.std.specs.Prelude.{◌≡◌, ◌^◌, ◌%◌, ◌∷◌, ◌++◌, []};
ghost use Rattle.std.specs.Cow.{cow_slice_items};
ghost use Rattle.wire_buf.specs.Numbers.{le_bytes};
ghost use Rattle.wire_buf.specs.Reading.{Through};
ghost use Rattle.wire_repr.specs.Texts.{IsText, IsBorrowedText};
ghost use Rattle.mysql_wire_parts.specs.InOrder.{packet, both, byte, const_u8, cut_number, lenenc_text, text_bytes};

use mysql_wire_parts::by_ref::ByRef;
use std::alloc::{Allocator, Global};
use wire_buf::error::WireError;
use wire_buf::io::ParseBuf;
use wire_buf::proto::{HasSize, MyDeserialize, MySerialize, Varying};
use wire_field::row::Both;
use wire_forms::constant::ConstU8;
use wire_forms::lenenc::LenEnc;
use wire_forms::truncated::LeU24;
use wire_repr::int::RawInt;
use wire_repr::wire::Wire;
use wire_values::text::RawBytes;

// An error's header, and the error 65535.
type Head = Both<ConstU8<(), 0xff>, Both<ConstU8<(), 0xff>, ConstU8<(), 0xff>>>;

type Stages = Both<u8, Both<u8, u8>>;

// The payload's fields, in order.
type Fields<'a> = Both<Head, Both<Stages, Both<RawInt<LeU24>, RawBytes<'a, LenEnc>>>>;

/// MariaDB reports on a command that takes long, before its answer, where the client's
/// `MARIADB_CLIENT_PROGRESS` is in force. It has the header of an error, and its number is 65535:
/// where reports may come, they are read before an `ErrPacket` is.
///
/// <https://mariadb.com/kb/en/err_packet/>
#[derive(Drop, Debug, PartialEq, Eq)]
pub struct ProgressReport<'a> {
    /// How many texts follow: 1.
    pub strings: u8,
    /// The stage that is reported on, from 1 on.
    pub stage: u8,
    /// How many stages there are.
    pub max_stage: u8,
    /// How much of the stage is done, in thousandths of a percent. Its low three bytes are written.
    pub progress: u32,
    /// What is being done.
    pub info: RawBytes<'a, LenEnc>,
}

impl MySerialize for ProgressReport<'_> {
    ghost bytes = { λ report. (0xff ∷ 0xff ∷ 0xff ∷ [])
        ++ ((report.strings ∷ report.stage ∷ report.max_stage ∷ [])
        ++ (le_bytes 3 report.progress ++ text_bytes report.info.0)) };

    fn serialize<A: Allocator>(&self, buf: &mut Vec<u8, A>) -> Result<(), WireError> {
        let head: Head = Both(ConstU8::new(), Both(ConstU8::new(), ConstU8::new()));
        let stages = Both(self.strings, Both(self.stage, self.max_stage));
        let progress = RawInt::<LeU24>::new(self.progress);
        Both(head, Both(stages, Both(progress, ByRef(&self.info)))).serialize(buf)
    }
}

impl HasSize for ProgressReport<'_> {
    type Size = Varying;
}

impl<'de> MyDeserialize<'de, Global> for ProgressReport<'de> {
    type Ctx = ();

    ghost reads = { λ _ input. Through
        (λ report. (
          _,
          (
            (report.strings, (report.stage, report.max_stage)),
            ((report.progress, _), report.info),
          ),
        ))
        (⟦<Fields<'de> as MyDeserialize<'de, Global>>⟧.reads
        ((tt, (tt, tt)), ((tt, (tt, tt)), (tt, tt))) input) };

    fn deserialize(alloc: Global, _: (), buf: &mut ParseBuf<'de>) -> Result<Self, WireError> {
        match buf.parse::<Fields<'de>>(alloc, (((), ((), ())), (((), ((), ())), ((), ())))) {
            Ok(Both(_, Both(stages, Both(progress, info)))) => {
                let Both(strings, Both(stage, max_stage)) = stages;
                Ok(ProgressReport {
                    strings,
                    stage,
                    max_stage,
                    progress: progress.0,
                    info,
                })
            }
            Err(error) => Err(error),
        }
    }
}

impl<'de> Wire<'de, Global> for ProgressReport<'de> {
    ghost is_value = { λ report. IsText (cow_slice_items report.info.0) };

    ghost good = { λ _ _ _. Unit {0} };

    ghost kept = { λ report back. (back.strings ≡ report.strings)
        × (back.stage ≡ report.stage)
        × (back.max_stage ≡ report.max_stage)
        × (back.progress ≡ report.progress % 256 ^ 3)
        × IsBorrowedText back.info.0 (cow_slice_items report.info.0) };

    ghost takes_memory = { ⊥ };

    fn known(&self) {
        self.info.known();
    }

    ghost comes_back = { λ ctx report rest answer eaten value good read.
        packet (⟦<Fields<'de> as MyDeserialize<'de, Global>>⟧.reads
        ((tt, (tt, tt)), ((tt, (tt, tt)), (tt, tt)))) _ _
        (λ back came. let stages = came.1.0 in let last = came.1.1 in
        (stages.0, stages.1.0, stages.1.1, last.0, last.1))
        (both (both const_u8 (both const_u8 const_u8))
        (both (both (byte (λ n. n) report.strings)
        (both (byte (λ n. n) report.stage) (byte (λ n. n) report.max_stage)))
        (both (cut_number (λ int. int.0) 3 report.progress)
        (lenenc_text (λ text. text.0) (cow_slice_items report.info.0) value))))
        answer eaten read };

    ghost of_size = { λ report size _ stated. Prim.cc };
}
