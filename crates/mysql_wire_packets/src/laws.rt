//! What is read is written again byte for byte: always of packets that have no length in them, and of
//! the others where each length that came is spelled in its shortest form. These are never written
//! in more bytes than came. `read_exact` is the test for a payload in hand.
//!
//! Each function takes and answers nothing: its contract is the law, and a caller has it by calling.

ghost use Rattle.mysql_wire_parts.specs.Written.{WritesBack, WritesSame};
ghost use Rattle.mysql_wire_packets.specs.declared.ok_packet.InfoForm.{InfoForm};

use crate::eof_packet::EofPacket;
use crate::err_packet::ErrPacket;
use crate::ok_packet::OkForm;
use crate::progress_report::ProgressReport;
use crate::session_change::SessionChange;
use std::alloc::Global;
use wire_buf::proto::{MyDeserialize, MySerialize};
use wire_const::CapabilityFlags;

/// Of `EofPacket`.
pub fn eof_packet_is_written_back()
    ensures { WritesSame (⟦<EofPacket as MyDeserialize<'static, Global>>⟧.reads tt)
        ⟦<EofPacket as MySerialize>⟧.bytes }
{}

/// Of `ErrPacket`.
pub fn err_packet_is_written_back()
    ensures { (capabilities : CapabilityFlags) →
        WritesSame (⟦<ErrPacket<'static> as MyDeserialize<'static, Global>>⟧.reads capabilities)
        ⟦<ErrPacket<'static> as MySerialize>⟧.bytes }
{}

/// Of `OkPacket` and of `RowsEnd`.
pub fn ok_form_is_written_back<const HEADER: u8>()
    ensures { (form : InfoForm) →
        WritesBack (⟦<OkForm<'static, HEADER> as MyDeserialize<'static, Global>>⟧.reads form)
        ⟦<OkForm<'static, HEADER> as MySerialize>⟧.bytes }
{}

/// Of `SessionChange`.
pub fn session_change_is_written_back()
    ensures { WritesBack (⟦<SessionChange<'static> as MyDeserialize<'static, Global>>⟧.reads tt)
        ⟦<SessionChange<'static> as MySerialize>⟧.bytes }
{}

/// Of `ProgressReport`.
pub fn progress_report_is_written_back()
    ensures { WritesBack (⟦<ProgressReport<'static> as MyDeserialize<'static, Global>>⟧.reads tt)
        ⟦<ProgressReport<'static> as MySerialize>⟧.bytes }
{}
