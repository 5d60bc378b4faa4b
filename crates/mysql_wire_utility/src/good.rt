//! When what was written of each packet comes back: what the member `good` of its law asks.
//!
//! Each function does nothing: its contract is the law, and a caller has it by calling.

ghost use Rattle.std.specs.Prelude.{◌++◌, ℕ, List, [], true};
ghost use Rattle.wire_const.specs.FlagSets.{capability_flags_bits};
ghost use Rattle.mysql_wire_parts.specs.More.{there_if};
ghost use Rattle.mysql_wire_parts.specs.Optional.{IsThere, has};
ghost use Rattle.mysql_wire_utility.specs.Changes.{attrs_bytes, name_bytes, set_bytes};

use crate::com_binlog_dump::ComBinlogDump;
use crate::com_binlog_dump_gtid::ComBinlogDumpGtid;
use crate::com_change_user::ComChangeUser;
use crate::com_debug::ComDebug;
use crate::com_field_list::ComFieldList;
use crate::com_init_db::ComInitDb;
use crate::com_ping::ComPing;
use crate::com_process_kill::ComProcessKill;
use crate::com_quit::ComQuit;
use crate::com_register_slave::ComRegisterSlave;
use crate::com_reset_connection::ComResetConnection;
use crate::com_set_option::ComSetOption;
use crate::com_statistics::{ComStatistics, StatisticsText};
use std::alloc::Global;
use wire_const::CapabilityFlags;
use wire_repr::wire::Wire;

/// A `ComFieldList` comes back before nothing.
pub fn com_field_list_is_good(_packet: &ComFieldList<'_>)
    ensures { ⟦<ComFieldList<'static> as Wire<'static, Global>>⟧.good tt _packet.now [] }
{}

/// A `ComSetOption` comes back whatever follows.
pub fn com_set_option_is_good(_packet: &ComSetOption)
    ensures { (rest : List ℕ)
        → ⟦<ComSetOption as Wire<'static, Global>>⟧.good tt _packet.now rest }
{}

/// A `ComStatistics` comes back whatever follows.
pub fn com_statistics_is_good(_packet: &ComStatistics)
    ensures { (rest : List ℕ)
        → ⟦<ComStatistics as Wire<'static, Global>>⟧.good tt _packet.now rest }
{}

/// A `StatisticsText` comes back before nothing.
pub fn statistics_text_is_good(_packet: &StatisticsText<'_>)
    ensures { ⟦<StatisticsText<'static> as Wire<'static, Global>>⟧.good tt _packet.now [] }
{}

/// A `ComDebug` comes back whatever follows.
pub fn com_debug_is_good(_packet: &ComDebug)
    ensures { (rest : List ℕ)
        → ⟦<ComDebug as Wire<'static, Global>>⟧.good tt _packet.now rest }
{}

/// A `ComProcessKill` comes back whatever follows.
pub fn com_process_kill_is_good(_packet: &ComProcessKill)
    ensures { (rest : List ℕ)
        → ⟦<ComProcessKill as Wire<'static, Global>>⟧.good tt _packet.now rest }
{}

/// A `ComResetConnection` comes back whatever follows.
pub fn com_reset_connection_is_good(_packet: &ComResetConnection)
    ensures { (rest : List ℕ)
        → ⟦<ComResetConnection as Wire<'static, Global>>⟧.good tt _packet.now rest }
{}

/// A `ComRegisterSlave` comes back whatever follows.
pub fn com_register_slave_is_good(_packet: &ComRegisterSlave<'_>)
    ensures { (rest : List ℕ)
        → ⟦<ComRegisterSlave<'static> as Wire<'static, Global>>⟧.good tt _packet.now rest }
{}

/// A `ComBinlogDump` comes back before nothing.
pub fn com_binlog_dump_is_good(_packet: &ComBinlogDump<'_>)
    ensures { ⟦<ComBinlogDump<'static> as Wire<'static, Global>>⟧.good tt _packet.now [] }
{}

/// A `ComBinlogDumpGtid` comes back whatever follows.
pub fn com_binlog_dump_gtid_is_good(_packet: &ComBinlogDumpGtid<'_>)
    ensures { (rest : List ℕ)
        → ⟦<ComBinlogDumpGtid<'static> as Wire<'static, Global>>⟧.good tt _packet.now rest }
{}

/// A `ComQuit` comes back whatever follows.
pub fn com_quit_is_good(_packet: &ComQuit)
    ensures { (rest : List ℕ)
        → ⟦<ComQuit as Wire<'static, Global>>⟧.good tt _packet.now rest }
{}

/// A `ComInitDb` comes back before nothing.
pub fn com_init_db_is_good(_packet: &ComInitDb<'_>)
    ensures { ⟦<ComInitDb<'static> as Wire<'static, Global>>⟧.good tt _packet.now [] }
{}

/// A `ComPing` comes back whatever follows.
pub fn com_ping_is_good(_packet: &ComPing)
    ensures { (rest : List ℕ)
        → ⟦<ComPing as Wire<'static, Global>>⟧.good tt _packet.now rest }
{}

/// A `ComChangeUser` comes back where its parts are there just as the capabilities and what follows
/// each say.
pub fn com_change_user_is_good(_packet: &ComChangeUser<'_>)
    ensures { (capabilities : CapabilityFlags) (rest : List ℕ)
        → IsThere (there_if true (set_bytes _packet.now
        ++ ((name_bytes _packet.now ++ attrs_bytes _packet.now) ++ rest)))
        _packet.now.character_set
        → IsThere (there_if (has (capability_flags_bits capabilities) 0x80000)
        (name_bytes _packet.now ++ (attrs_bytes _packet.now ++ rest)))
        _packet.now.auth_plugin_name
        → IsThere (there_if (has (capability_flags_bits capabilities) 0x100000)
        (attrs_bytes _packet.now ++ rest)) _packet.now.connect_attrs
        → ⟦<ComChangeUser<'static> as Wire<'static, Global>>⟧.good capabilities _packet.now rest }
{}
