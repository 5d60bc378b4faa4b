//! When what was written of each packet comes back: what the member `good` of its law asks.
//!
//! Each function does nothing: its contract is the law, and a caller has it by calling.

ghost use Rattle.std.specs.Prelude.{◌≡◌, ◌++◌, ℕ, List, [], None};
ghost use Rattle.wire_const.specs.FlagSets.{capability_flags_bits};
ghost use Rattle.wire_field.specs.Rows.{OnSide};
ghost use Rattle.mysql_wire_packets.specs.Oks.{has_state, is_lenenc, is_more, words_bytes};
ghost use Rattle.mysql_wire_parts.specs.Optional.{IsSide, IsThere, OnIf, has};
ghost use Rattle.mysql_wire_packets.specs.declared.ok_packet.InfoForm.{InfoForm};

use crate::eof_packet::EofPacket;
use crate::err_packet::ErrPacket;
use crate::ok_packet::OkForm;
use crate::progress_report::ProgressReport;
use crate::session_change::SessionChange;
use std::alloc::Global;
use wire_const::CapabilityFlags;
use wire_repr::wire::Wire;

/// An `EofPacket` comes back whatever follows.
pub fn eof_packet_is_good(_packet: &EofPacket)
    ensures { (rest : List ℕ)
        → ⟦<EofPacket as Wire<'static, Global>>⟧.good tt _packet.now rest }
{}

/// An `ErrPacket` comes back before nothing, where it has a state just as the capabilities say.
pub fn err_packet_is_good(_packet: &ErrPacket<'_>)
    ensures { (capabilities : CapabilityFlags)
        → IsThere (has (capability_flags_bits capabilities) 0x200) _packet.now.sql_state
        → ⟦<ErrPacket<'static> as Wire<'static, Global>>⟧.good capabilities _packet.now [] }
{}

/// An `OkPacket` and a `RowsEnd` come back where their parts are there just as the form says; one whose
/// info goes to the end, before nothing.
pub fn ok_form_is_good<const HEADER: u8>(_packet: &OkForm<'_, HEADER>)
    ensures { (form : InfoForm) (rest : List ℕ)
        → IsThere (is_more (words_bytes _packet.now ++ rest)) _packet.now.info
        → OnIf (IsSide (is_lenenc form)) _packet.now.info
        → IsThere (has_state form _packet.now.status_flags.0
        (is_more (words_bytes _packet.now ++ rest))) _packet.now.session_state
        → OnIf (OnSide (λ _. Unit {0}) (λ _. (_packet.now.session_state ≡ None) × (rest ≡ [])))
        _packet.now.info
        → ⟦<OkForm<'static, HEADER> as Wire<'static, Global>>⟧.good form _packet.now rest }
{}

/// A `ProgressReport` comes back whatever follows.
pub fn progress_report_is_good(_packet: &ProgressReport<'_>)
    ensures { (rest : List ℕ)
        → ⟦<ProgressReport<'static> as Wire<'static, Global>>⟧.good tt _packet.now rest }
{}

/// A `SessionChange` comes back whatever follows.
pub fn session_change_is_good(_packet: &SessionChange<'_>)
    ensures { (rest : List ℕ)
        → ⟦<SessionChange<'static> as Wire<'static, Global>>⟧.good tt _packet.now rest }
{}
