//! The numbers that packets are written in: collations, sets of flags and enums.
//!
//! A raw number is converted by `try_from`, which refuses what it doesn't know and hands the number
//! back in its error. `from` gives the number of a value. The calls on a set of flags are those of
//! [`Flags`].
#![tactic(auto)]

mod bulk_indicator;
mod column_type;
mod commands;
mod flag_sets;
mod geometry;
mod item_result;
mod session_state;

pub use bitflags::Flags;
pub use bulk_indicator::{MariadbBulkIndicator, UnknownMariadbBulkIndicator};
pub use column_type::{ColumnType, UnknownColumnType};
pub use commands::Command;
pub use flag_sets::{
    CapabilityFlags, ColumnFlags, CursorType, Flags2, MariadbCapabilities, SqlMode, StatusFlags,
    StmtBulkExecuteFlags, StmtExecuteParamFlags, StmtExecuteParamsFlags, UnknownCapabilityFlags,
    UnknownColumnFlags, UnknownCursorType, UnknownFlags2, UnknownMariadbCapabilityFlags,
    UnknownSqlMode, UnknownStatusFlags, UnknownStmtBulkExecuteParamsFlags,
    UnknownStmtExecuteParamFlags, UnknownStmtExecuteParamsFlags,
};
pub use geometry::{GeometryType, UnknownGeometryType};
pub use item_result::{ItemResult, UnknownItemResultType};
pub use session_state::{SessionStateType, UnknownSessionStateType};

/// The number of the collation `utf8_general_ci`.
///
/// <https://dev.mysql.com/doc/dev/mysql-server/latest/page_protocol_basic_character_set.html>
pub const UTF8_GENERAL_CI: u16 = 33;

/// The number of the collation `utf8mb4_general_ci`.
pub const UTF8MB4_GENERAL_CI: u16 = 45;
