//! That a payload is one of these packets.

ghost use Rattle.std.specs.Prelude.{None, Some};
ghost use Rattle.wire_buf.specs.Reading.{Parses};
ghost use Rattle.mysql_wire_parts.specs.Places.{ReadsWhole};

use crate::com_binlog_dump::ComBinlogDump;
use crate::com_binlog_dump_gtid::ComBinlogDumpGtid;
use crate::com_change_user::ComChangeUser;
use crate::com_debug::ComDebug;
use crate::com_field_list::ComFieldList;
use crate::com_init_db::ComInitDb;
use crate::com_ping::ComPing;
use crate::com_process_kill::ComProcessKill;
use crate::com_quit::ComQuit;
use crate::com_register_slave::ComRegisterSlave;
use crate::com_reset_connection::ComResetConnection;
use crate::com_set_option::ComSetOption;
use crate::com_statistics::{ComStatistics, StatisticsText};
use mysql_wire_parts::payload::Payload;
use std::alloc::Global;
use wire_buf::proto::MyDeserialize;

impl<'a> Payload<'a> for ComBinlogDump<'a> {
    ghost reads_whole = { λ ctx.
        ReadsWhole (Parses None (⟦<ComBinlogDump<'a> as MyDeserialize<'a, Global>>⟧.reads ctx)) };

    ghost is_read = { λ _ _ _ read. read };
}

impl<'a> Payload<'a> for ComBinlogDumpGtid<'a> {
    ghost reads_whole = { λ ctx.
        ReadsWhole (Parses None (⟦<ComBinlogDumpGtid<'a> as MyDeserialize<'a, Global>>⟧.reads ctx)) };

    ghost is_read = { λ _ _ _ read. read };
}

impl<'a> Payload<'a> for ComChangeUser<'a> {
    ghost reads_whole = { λ ctx.
        ReadsWhole (Parses None (⟦<ComChangeUser<'a> as MyDeserialize<'a, Global>>⟧.reads ctx)) };

    ghost is_read = { λ _ _ _ read. read };
}

impl<'a> Payload<'a> for ComDebug {
    ghost reads_whole = { λ ctx.
        ReadsWhole (Parses (Some 1) (⟦<ComDebug as MyDeserialize<'a, Global>>⟧.reads ctx)) };

    ghost is_read = { λ _ _ _ read. read };
}

impl<'a> Payload<'a> for ComFieldList<'a> {
    ghost reads_whole = { λ ctx.
        ReadsWhole (Parses None (⟦<ComFieldList<'a> as MyDeserialize<'a, Global>>⟧.reads ctx)) };

    ghost is_read = { λ _ _ _ read. read };
}

impl<'a> Payload<'a> for ComInitDb<'a> {
    ghost reads_whole = { λ ctx.
        ReadsWhole (Parses None (⟦<ComInitDb<'a> as MyDeserialize<'a, Global>>⟧.reads ctx)) };

    ghost is_read = { λ _ _ _ read. read };
}

impl<'a> Payload<'a> for ComPing {
    ghost reads_whole = { λ ctx.
        ReadsWhole (Parses (Some 1) (⟦<ComPing as MyDeserialize<'a, Global>>⟧.reads ctx)) };

    ghost is_read = { λ _ _ _ read. read };
}

impl<'a> Payload<'a> for ComProcessKill {
    ghost reads_whole = { λ ctx.
        ReadsWhole (Parses None (⟦<ComProcessKill as MyDeserialize<'a, Global>>⟧.reads ctx)) };

    ghost is_read = { λ _ _ _ read. read };
}

impl<'a> Payload<'a> for ComQuit {
    ghost reads_whole = { λ ctx.
        ReadsWhole (Parses (Some 1) (⟦<ComQuit as MyDeserialize<'a, Global>>⟧.reads ctx)) };

    ghost is_read = { λ _ _ _ read. read };
}

impl<'a> Payload<'a> for ComRegisterSlave<'a> {
    ghost reads_whole = { λ ctx.
        ReadsWhole (Parses None (⟦<ComRegisterSlave<'a> as MyDeserialize<'a, Global>>⟧.reads ctx)) };

    ghost is_read = { λ _ _ _ read. read };
}

impl<'a> Payload<'a> for ComResetConnection {
    ghost reads_whole = { λ ctx.
        ReadsWhole (Parses (Some 1) (⟦<ComResetConnection as MyDeserialize<'a, Global>>⟧.reads ctx)) };

    ghost is_read = { λ _ _ _ read. read };
}

impl<'a> Payload<'a> for ComSetOption {
    ghost reads_whole = { λ ctx.
        ReadsWhole (Parses None (⟦<ComSetOption as MyDeserialize<'a, Global>>⟧.reads ctx)) };

    ghost is_read = { λ _ _ _ read. read };
}

impl<'a> Payload<'a> for ComStatistics {
    ghost reads_whole = { λ ctx.
        ReadsWhole (Parses (Some 1) (⟦<ComStatistics as MyDeserialize<'a, Global>>⟧.reads ctx)) };

    ghost is_read = { λ _ _ _ read. read };
}

impl<'a> Payload<'a> for StatisticsText<'a> {
    ghost reads_whole = { λ ctx.
        ReadsWhole (Parses None (⟦<StatisticsText<'a> as MyDeserialize<'a, Global>>⟧.reads ctx)) };

    ghost is_read = { λ _ _ _ read. read };
}
