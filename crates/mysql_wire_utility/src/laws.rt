//! What is read is written again byte for byte, of a `ComChangeUser` where each length that came is
//! spelled in its shortest form, and never in more bytes than came.
//!
//! Each function takes and answers nothing: its contract is the law, and a caller has it by calling.

ghost use Rattle.mysql_wire_parts.specs.Written.{WritesBack, WritesSame};

use crate::com_binlog_dump::ComBinlogDump;
use crate::com_binlog_dump_gtid::ComBinlogDumpGtid;
use crate::com_change_user::ComChangeUser;
use crate::com_debug::ComDebug;
use crate::com_field_list::ComFieldList;
use crate::com_init_db::ComInitDb;
use crate::com_ping::ComPing;
use crate::com_process_kill::ComProcessKill;
use crate::com_quit::ComQuit;
use crate::com_register_slave::ComRegisterSlave;
use crate::com_reset_connection::ComResetConnection;
use crate::com_set_option::ComSetOption;
use crate::com_statistics::{ComStatistics, StatisticsText};
use std::alloc::Global;
use wire_buf::proto::{MyDeserialize, MySerialize};
use wire_const::CapabilityFlags;

/// Of `ComFieldList`.
pub fn com_field_list_is_written_back()
    ensures { WritesSame (⟦<ComFieldList<'static> as MyDeserialize<'static, Global>>⟧.reads tt)
        ⟦<ComFieldList<'static> as MySerialize>⟧.bytes }
{}

/// Of `ComSetOption`.
pub fn com_set_option_is_written_back()
    ensures { WritesSame (⟦<ComSetOption as MyDeserialize<'static, Global>>⟧.reads tt)
        ⟦<ComSetOption as MySerialize>⟧.bytes }
{}

/// Of `ComStatistics`.
pub fn com_statistics_is_written_back()
    ensures { WritesSame (⟦<ComStatistics as MyDeserialize<'static, Global>>⟧.reads tt)
        ⟦<ComStatistics as MySerialize>⟧.bytes }
{}

/// Of `StatisticsText`.
pub fn statistics_text_is_written_back()
    ensures { WritesSame (⟦<StatisticsText<'static> as MyDeserialize<'static, Global>>⟧.reads tt)
        ⟦<StatisticsText<'static> as MySerialize>⟧.bytes }
{}

/// Of `ComDebug`.
pub fn com_debug_is_written_back()
    ensures { WritesSame (⟦<ComDebug as MyDeserialize<'static, Global>>⟧.reads tt)
        ⟦<ComDebug as MySerialize>⟧.bytes }
{}

/// Of `ComProcessKill`.
pub fn com_process_kill_is_written_back()
    ensures { WritesSame (⟦<ComProcessKill as MyDeserialize<'static, Global>>⟧.reads tt)
        ⟦<ComProcessKill as MySerialize>⟧.bytes }
{}

/// Of `ComResetConnection`.
pub fn com_reset_connection_is_written_back()
    ensures { WritesSame (⟦<ComResetConnection as MyDeserialize<'static, Global>>⟧.reads tt)
        ⟦<ComResetConnection as MySerialize>⟧.bytes }
{}

/// Of `ComRegisterSlave`.
pub fn com_register_slave_is_written_back()
    ensures { WritesSame (⟦<ComRegisterSlave<'static> as MyDeserialize<'static, Global>>⟧.reads tt)
        ⟦<ComRegisterSlave<'static> as MySerialize>⟧.bytes }
{}

/// Of `ComBinlogDump`.
pub fn com_binlog_dump_is_written_back()
    ensures { WritesSame (⟦<ComBinlogDump<'static> as MyDeserialize<'static, Global>>⟧.reads tt)
        ⟦<ComBinlogDump<'static> as MySerialize>⟧.bytes }
{}

/// Of `ComBinlogDumpGtid`.
pub fn com_binlog_dump_gtid_is_written_back()
    ensures { WritesSame (⟦<ComBinlogDumpGtid<'static> as MyDeserialize<'static, Global>>⟧.reads tt)
        ⟦<ComBinlogDumpGtid<'static> as MySerialize>⟧.bytes }
{}

/// Of `ComQuit`.
pub fn com_quit_is_written_back()
    ensures { WritesSame (⟦<ComQuit as MyDeserialize<'static, Global>>⟧.reads tt)
        ⟦<ComQuit as MySerialize>⟧.bytes }
{}

/// Of `ComInitDb`.
pub fn com_init_db_is_written_back()
    ensures { WritesSame (⟦<ComInitDb<'static> as MyDeserialize<'static, Global>>⟧.reads tt)
        ⟦<ComInitDb<'static> as MySerialize>⟧.bytes }
{}

/// Of `ComPing`.
pub fn com_ping_is_written_back()
    ensures { WritesSame (⟦<ComPing as MyDeserialize<'static, Global>>⟧.reads tt)
        ⟦<ComPing as MySerialize>⟧.bytes }
{}

/// Of `ComChangeUser`.
pub fn com_change_user_is_written_back()
    ensures { (capabilities : CapabilityFlags) →
        WritesBack (⟦<ComChangeUser<'static> as MyDeserialize<'static, Global>>⟧.reads capabilities)
        ⟦<ComChangeUser<'static> as MySerialize>⟧.bytes }
{}
