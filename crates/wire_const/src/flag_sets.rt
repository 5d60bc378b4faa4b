//! Sets of flags: one bit a flag, under the name that MySQL or MariaDB gives it.
//!
//! The calls on a set (`contains`, `union`, `from_bits_truncate` and the others) are those of
//! [`Flags`].

// The row of a flag: its name and its set.
macro_rules! flag {
    ($name:ident) => {
        Flag {
            name: stringify!($name),
            value: Self::$name,
        }
    };
}

mod capability;
mod column;
mod execute;
mod mariadb;
mod session;
mod status;

pub use capability::{CapabilityFlags, UnknownCapabilityFlags};
pub use column::{ColumnFlags, UnknownColumnFlags};
pub use execute::{
    CursorType, StmtBulkExecuteFlags, StmtExecuteParamFlags, StmtExecuteParamsFlags,
    UnknownCursorType, UnknownStmtBulkExecuteParamsFlags, UnknownStmtExecuteParamFlags,
    UnknownStmtExecuteParamsFlags,
};
pub use mariadb::{MariadbCapabilities, UnknownMariadbCapabilityFlags};
pub use session::{Flags2, SqlMode, UnknownFlags2, UnknownSqlMode};
pub use status::{StatusFlags, UnknownStatusFlags};
