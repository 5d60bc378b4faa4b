//! The `OK_Packet`.

ghost use Rattle.std.specs.Prelude.{◌≡◌, ◌<◌, ◌^◌, ◌∷◌, ◌++◌, [], None};
ghost use Rattle.std.proofs.Common.{subst};
ghost use Rattle.std.specs.Cow.{cow_slice_items};
ghost use Rattle.wire_const.specs.FlagSets.{capability_flags_bits};
ghost use Rattle.wire_repr.specs.Texts.{IsText, IsBorrowedText};
ghost use Rattle.wire_field.specs.Rows.{OnSide, SameSide, by_side};
ghost use Rattle.mysql_wire_parts.specs.InOrder.{at_input, both, const_u8, eof_text, lenenc_int, lenenc_text, number, text_bytes};
ghost use Rattle.mysql_wire_packets.specs.Oks.{counts_bytes, form_of, has_state, is_lenenc, is_more, none_behind, words_bytes, words_ctx};
ghost use Rattle.mysql_wire_parts.specs.Optional.{BothIf, IsSide, IsThere, KeptField, OnIf, field, kept_field, one_of, optional, side};
ghost use Rattle.mysql_wire_parts.specs.Then.{ReadsThen, then_back};

use mysql_wire_parts::by_ref::{ByRef, ByRefIf};
use mysql_wire_parts::optional::{Optional, known_text, value_of};
use std::alloc::{Allocator, Global};
use wire_buf::error::WireError;
use wire_buf::io::ParseBuf;
use wire_buf::proto::{HasSize, MyDeserialize, MySerialize, Varying};
use wire_const::{CapabilityFlags, Flags, StatusFlags};
use wire_field::row::{Both, Either};
use wire_forms::constant::{ConstU8, Skip};
use wire_forms::lenenc::LenEnc;
use wire_forms::undelimited::EofBytes;
use wire_repr::int::{LeU16, RawInt};
use wire_repr::wire::Wire;
use wire_values::flags::RawFlags;
use wire_values::text::RawBytes;

// The payload's fields up to the warnings.
type Counts<const HEADER: u8> = Both<ConstU8<(), HEADER>, Both<RawInt<LenEnc>, Rest>>;

type Rest = Both<RawInt<LenEnc>, Both<u16, u16>>;

// And those after them.
type Words<'a> = Both<Optional<OkInfo<'a>>, Optional<RawBytes<'a, LenEnc>>>;

/// Words for people, after their length or up to the end of the payload, as [`InfoForm`] says.
pub type OkInfo<'a> = Either<RawBytes<'a, LenEnc>, RawBytes<'a, EofBytes>>;

/// What may stand after the warnings of an `OK_Packet`. Nothing is allowed in each form.
#[derive(Clone, Copy, Debug, PartialEq, Eq)]
pub enum InfoForm {
    /// The info after its length, as servers send it on a connection without
    /// `CLIENT_SESSION_TRACK`.
    LengthEncoded,
    /// Under `CLIENT_SESSION_TRACK`: the info after its length, and under
    /// `SERVER_SESSION_STATE_CHANGED` what has changed.
    SessionTrack,
    /// The info up to the end of the payload, as MySQL's page has it without
    /// `CLIENT_SESSION_TRACK`.
    ToTheEnd,
}

impl InfoForm {
    /// The form that servers use under these capabilities of the connection.
    pub fn of(capabilities: CapabilityFlags) -> InfoForm
        ensures { result ≡ form_of (capability_flags_bits capabilities) }
    {
        if capabilities.contains(CapabilityFlags::CLIENT_SESSION_TRACK) {
            InfoForm::SessionTrack
        } else {
            InfoForm::LengthEncoded
        }
    }
}

/// A command was done, on a connection under `CLIENT_PROTOCOL_41`. The context is the form of what
/// stands after the warnings. Another header than `HEADER` is refused as `ConstMismatch`.
///
/// <https://dev.mysql.com/doc/dev/mysql-server/latest/page_protocol_basic_ok_packet.html>
#[derive(Drop, Debug, PartialEq, Eq)]
pub struct OkForm<'a, const HEADER: u8> {
    pub affected_rows: u64,
    /// The last number that was made for an `AUTO_INCREMENT` column, or 0.
    pub last_insert_id: u64,
    pub status_flags: RawFlags<StatusFlags, LeU16>,
    /// How many warnings there were.
    pub warnings: u16,
    /// Words for people. Missing where the payload ends before them.
    pub info: Option<OkInfo<'a>>,
    /// The changes of the session, one [`SessionChange`](crate::session_change::SessionChange)
    /// after another. There in the form `SessionTrack` under `SERVER_SESSION_STATE_CHANGED`, where
    /// the payload does not end before the info.
    pub session_state: Option<RawBytes<'a, LenEnc>>,
}

/// A command was done: the form with the header `00`.
///
/// <https://dev.mysql.com/doc/dev/mysql-server/latest/page_protocol_basic_ok_packet.html>
pub type OkPacket<'a> = OkForm<'a, 0x00>;

/// The rows of an answer are at their end, on a connection under `CLIENT_DEPRECATE_EOF`: the form
/// with the header `fe`. A row may begin with `fe` too, but has 9 bytes at least then, and a payload
/// of a full chunk is no end.
///
/// <https://dev.mysql.com/doc/dev/mysql-server/latest/page_protocol_basic_ok_packet.html>
pub type RowsEnd<'a> = OkForm<'a, 0xfe>;

// A packet of its fields.
fn of_fields<'a, const HEADER: u8>(counts: Counts<HEADER>, words: Words<'a>) -> OkForm<'a, HEADER>
    ensures counts { (
      _,
      (
        (result.affected_rows, _),
        (
          (result.last_insert_id, _),
          (
            result.status_flags.0,
            result.warnings,
          ),
        ),
      ),
    ) ≡ counts.entry }
    ensures words { (
      field (λ info. info) _ result.info,
      field (λ state. state) _ result.session_state,
    ) ≡ words.entry }
{
    let Both(_, Both(affected_rows, Both(last_insert_id, state))) = counts;
    let Both(status_flags, warnings) = state;
    let Both(info, session_state) = words;
    OkForm {
        affected_rows: affected_rows.0,
        last_insert_id: last_insert_id.0,
        status_flags: RawFlags::new(status_flags),
        warnings,
        info: value_of(info),
        session_state: value_of(session_state),
    }
}

// The context of the fields after the warnings.
fn context(
    form: InfoForm,
    status: u16,
    buf: &ParseBuf<'_>,
) -> (Either<Either<(), ()>, ()>, Either<(), ()>)
    ensures { result ≡ words_ctx form status buf.now.0.now }
{
    let changed = StatusFlags::from_bits_retain(status).contains(
        StatusFlags::SERVER_SESSION_STATE_CHANGED,
    );
    let info = match form {
        InfoForm::ToTheEnd => Either::Right(()),
        _ => Either::Left(()),
    };
    match buf.0.first() {
        None => (Either::Right(()), Either::Right(())),
        Some(_) => match form {
            InfoForm::SessionTrack if changed => (Either::Left(info), Either::Left(())),
            _ => (Either::Left(info), Either::Right(())),
        },
    }
}

// The texts in hand are as long as texts in memory.
fn known_info(info: &Option<OkInfo<'_>>)
    ensures { OnIf (OnSide (λ text. IsText (cow_slice_items text.0))
        (λ text. IsText (cow_slice_items text.0))) info.now }
{
    match info {
        Some(info) => Wire::<'_, Global>::known(info),
        None => {}
    }
}

impl<const HEADER: u8> MySerialize for OkForm<'_, HEADER> {
    ghost bytes = { λ ok. counts_bytes HEADER ok.affected_rows ok.last_insert_id ok.status_flags.0
        ok.warnings ++ words_bytes ok };

    fn serialize<A: Allocator>(&self, buf: &mut Vec<u8, A>) -> Result<(), WireError> {
        let affected_rows = RawInt::<LenEnc>::new(self.affected_rows);
        let last_insert_id = RawInt::<LenEnc>::new(self.last_insert_id);
        let state = Both(self.status_flags.0, self.warnings);
        let counts = Both(affected_rows, Both(last_insert_id, state));
        let words = Both(ByRefIf(&self.info), ByRefIf(&self.session_state));
        Both(Both(ConstU8::<(), HEADER>::new(), counts), words).serialize(buf)
    }
}

impl<const HEADER: u8> HasSize for OkForm<'_, HEADER> {
    type Size = Varying;
}

impl<'de, const HEADER: u8> MyDeserialize<'de, Global> for OkForm<'de, HEADER> {
    type Ctx = InfoForm;

    ghost reads = { λ form. ReadsThen
        (λ ok. (
          _,
          (
            (ok.affected_rows, _),
            (
              (ok.last_insert_id, _),
              (ok.status_flags.0, ok.warnings),
            ),
          ),
        ))
        (λ ok. (field (λ info. info) _ ok.info, field (λ state. state) _ ok.session_state))
        (⟦<Counts<HEADER> as MyDeserialize<'de, Global>>⟧.reads (tt, (tt, (tt, (tt, tt)))))
        (λ counts input. ⟦<Words<'de> as MyDeserialize<'de, Global>>⟧.reads
        (words_ctx form counts.1.1.1.0 input) input) };

    #[inline(always)]
    fn deserialize(
        alloc: Global,
        form: InfoForm,
        buf: &mut ParseBuf<'de>,
    ) -> Result<Self, WireError> {
        match buf.parse::<Counts<HEADER>>(alloc, ((), ((), ((), ((), ()))))) {
            Ok(counts) => {
                let ctx = context(form, counts.1.1.1.0, buf);
                match buf.parse::<Words<'de>>(alloc, ctx) {
                    Ok(words) => Ok(of_fields(counts, words)),
                    Err(error) => Err(error),
                }
            }
            Err(error) => Err(error),
        }
    }
}

impl<'de, const HEADER: u8> Wire<'de, Global> for OkForm<'de, HEADER> {
    ghost is_value = { λ ok. record {
      affected_rows : ok.affected_rows < 2 ^ 64;
      last_insert_id : ok.last_insert_id < 2 ^ 64;
      status_flags : ok.status_flags.0 < 2 ^ 16;
      warnings : ok.warnings < 2 ^ 16;
      info : OnIf (OnSide (λ text. IsText (cow_slice_items text.0))
          (λ text. IsText (cow_slice_items text.0))) ok.info;
      session_state : OnIf (λ state. IsText (cow_slice_items state.0)) ok.session_state;
    } };

    // The info is there where bytes follow the warnings, in the form's spelling, and the changes
    // where the form and the status say so. An info to the end takes all the rest.
    ghost good = { λ form ok rest. record {
      info : IsThere (is_more (words_bytes ok ++ rest)) ok.info;
      spelling : OnIf (IsSide (is_lenenc form)) ok.info;
      session_state : IsThere (has_state form ok.status_flags.0
          (is_more (words_bytes ok ++ rest))) ok.session_state;
      end : OnIf (OnSide (λ _. Unit {0}) (λ _. (ok.session_state ≡ None) × (rest ≡ []))) ok.info;
    } };

    ghost kept = { λ ok back. record {
      affected_rows : back.affected_rows ≡ ok.affected_rows;
      last_insert_id : back.last_insert_id ≡ ok.last_insert_id;
      status_flags : back.status_flags.0 ≡ ok.status_flags.0;
      warnings : back.warnings ≡ ok.warnings;
      info : BothIf (SameSide (λ text back. IsBorrowedText back.0 (cow_slice_items text.0))
          (λ text back. IsBorrowedText back.0 (cow_slice_items text.0))) ok.info back.info;
      session_state : BothIf (λ state back. IsBorrowedText back.0 (cow_slice_items state.0))
          ok.session_state back.session_state;
    } };

    ghost takes_memory = { ⊥ };

    fn known(&self) {
        let _rows = self.affected_rows;
        let _id = self.last_insert_id;
        let _flags = self.status_flags.0;
        let _warnings = self.warnings;
        known_info(&self.info);
        known_text(&self.session_state);
    }

    ghost comes_back = { λ form ok rest answer eaten value good read.
        then_back _ _
        (⟦<Counts<HEADER> as MyDeserialize<'de, Global>>⟧.reads (tt, (tt, (tt, (tt, tt)))))
        (λ counts input. ⟦<Words<'de> as MyDeserialize<'de, Global>>⟧.reads
        (words_ctx form counts.1.1.1.0 input) input)
        (counts_bytes HEADER ok.affected_rows ok.last_insert_id ok.status_flags.0 ok.warnings)
        (words_bytes ok)
        (λ words. KeptField (SameSide
        (λ text back. IsBorrowedText back.0 (cow_slice_items text.0))
        (λ text back. IsBorrowedText back.0 (cow_slice_items text.0))) ok.info words.0
        × KeptField (λ state back. IsBorrowedText back.0 (cow_slice_items state.0))
        ok.session_state words.1) _
        (λ back counts words. record {
          affected_rows = counts.1.0;
          last_insert_id = counts.1.1.0;
          status_flags = counts.1.1.1.0;
          warnings = counts.1.1.1.1;
          info = kept_field (SameSide
              (λ text back. IsBorrowedText back.0 (cow_slice_items text.0))
              (λ text back. IsBorrowedText back.0 (cow_slice_items text.0))) _ (λ info. info)
              (SameSide (λ text back. IsBorrowedText back.0 (cow_slice_items text.0))
              (λ text back. IsBorrowedText back.0 (cow_slice_items text.0))) ok.info back.info
              (λ info back same. same) words.0;
          session_state = kept_field
              (λ state back. IsBorrowedText back.0 (cow_slice_items state.0)) _ (λ state. state)
              (λ state back. IsBorrowedText back.0 (cow_slice_items state.0)) ok.session_state
              back.session_state (λ state back same. same) words.1;
        })
        (both const_u8 (both (lenenc_int (λ int. int.0) ok.affected_rows value.affected_rows)
        (both (lenenc_int (λ int. int.0) ok.last_insert_id value.last_insert_id)
        (both (number (λ n. n) 2 ok.status_flags.0 value.status_flags)
        (number (λ n. n) 2 ok.warnings value.warnings)))))
        (λ counts came. rw came.1.1.1.0 (at_input (words_ctx form ok.status_flags.0)
        (⟦<Words<'de> as MyDeserialize<'de, Global>>⟧.reads)
        (both (optional (⟦<OkInfo<'de> as MyDeserialize<'de, Global>>⟧.reads)
        (side tt (is_lenenc form)) (is_more (words_bytes ok ++ rest)) ok.info
        (SameSide (λ text back. IsBorrowedText back.0 (cow_slice_items text.0))
        (λ text back. IsBorrowedText back.0 (cow_slice_items text.0)))
        (by_side (λ text. text_bytes text.0) (λ text. cow_slice_items text.0)) good.info
        (λ info is. one_of (⟦<RawBytes<'de, LenEnc> as MyDeserialize<'de, Global>>⟧.reads)
        (⟦<RawBytes<'de, EofBytes> as MyDeserialize<'de, Global>>⟧.reads) tt (is_lenenc form) info
        (λ text back. IsBorrowedText back.0 (cow_slice_items text.0))
        (λ text back. IsBorrowedText back.0 (cow_slice_items text.0))
        (λ text. text_bytes text.0) (λ text. cow_slice_items text.0)
        (subst (OnIf (IsSide (is_lenenc form))) is good.spelling)
        (λ text left. lenenc_text (λ text. text.0) (cow_slice_items text.0)
        (subst (OnSide (λ text. IsText (cow_slice_items text.0))
        (λ text. IsText (cow_slice_items text.0))) left (subst (OnIf (OnSide
        (λ text. IsText (cow_slice_items text.0)) (λ text. IsText (cow_slice_items text.0)))) is
        value.info)))
        (λ text right. eof_text (λ text. text.0) (cow_slice_items text.0)
        (none_behind ok.session_state rest (λ state. text_bytes state.0)
        (subst (OnSide (λ _. Unit {0}) (λ _. (ok.session_state ≡ None) × (rest ≡ []))) right
        (subst (OnIf (OnSide (λ _. Unit {0})
        (λ _. (ok.session_state ≡ None) × (rest ≡ [])))) is good.end))))))
        (optional (⟦<RawBytes<'de, LenEnc> as MyDeserialize<'de, Global>>⟧.reads) tt
        (has_state form ok.status_flags.0 (is_more (words_bytes ok ++ rest))) ok.session_state
        (λ state back. IsBorrowedText back.0 (cow_slice_items state.0))
        (λ state. text_bytes state.0) good.session_state
        (λ state is. lenenc_text (λ text. text.0) (cow_slice_items state.0)
        (subst (OnIf (λ state. IsText (cow_slice_items state.0))) is value.session_state))))))
        answer eaten read };

    ghost of_size = { λ ok size _ stated. Prim.cc };
}
