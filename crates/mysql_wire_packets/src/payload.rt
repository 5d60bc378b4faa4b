//! That a payload is one of these packets.

ghost use Rattle.std.specs.Prelude.{None};
ghost use Rattle.wire_buf.specs.Reading.{Parses};
ghost use Rattle.mysql_wire_parts.specs.Places.{ReadsWhole};

use crate::eof_packet::EofPacket;
use crate::err_packet::ErrPacket;
use crate::ok_packet::OkForm;
use crate::progress_report::ProgressReport;
use mysql_wire_parts::payload::Payload;
use std::alloc::Global;
use wire_buf::proto::MyDeserialize;

impl<'a> Payload<'a> for EofPacket {
    ghost reads_whole = { λ ctx.
        ReadsWhole (Parses None (⟦<EofPacket as MyDeserialize<'a, Global>>⟧.reads ctx)) };

    ghost is_read = { λ _ _ _ read. read };
}

impl<'a> Payload<'a> for ErrPacket<'a> {
    ghost reads_whole = { λ ctx.
        ReadsWhole (Parses None (⟦<ErrPacket<'a> as MyDeserialize<'a, Global>>⟧.reads ctx)) };

    ghost is_read = { λ _ _ _ read. read };
}

impl<'a, const HEADER: u8> Payload<'a> for OkForm<'a, HEADER> {
    ghost reads_whole = { λ ctx.
        ReadsWhole (Parses None (⟦<OkForm<'a, HEADER> as MyDeserialize<'a, Global>>⟧.reads ctx)) };

    ghost is_read = { λ _ _ _ read. read };
}

impl<'a> Payload<'a> for ProgressReport<'a> {
    ghost reads_whole = { λ ctx.
        ReadsWhole (Parses None (⟦<ProgressReport<'a> as MyDeserialize<'a, Global>>⟧.reads ctx)) };

    ghost is_read = { λ _ _ _ read. read };
}
