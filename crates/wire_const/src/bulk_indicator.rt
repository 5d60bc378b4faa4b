//! Parameters of MariaDB's bulk execution.

ghost use Rattle.std.specs.Prelude.{◌≡◌};
ghost use Rattle.wire_const.specs.EnumNumbers.{mariadb_bulk_indicator_number, ConvertsNumber};

use thiserror::Error;

/// What stands for a parameter in `COM_STMT_BULK_EXECUTE`: the byte before each.
///
/// <https://mariadb.com/kb/en/com_stmt_bulk_execute/>
#[derive(Clone, Copy, Debug, PartialEq, Eq)]
#[allow(non_camel_case_types)]
#[repr(u8)]
pub enum MariadbBulkIndicator {
    /// A value, which follows.
    BULK_INDICATOR_NONE = 0,
    /// NULL.
    BULK_INDICATOR_NULL = 1,
    /// The column's default value.
    BULK_INDICATOR_DEFAULT = 2,
    /// The column's default value in an insert, and no change in an update.
    BULK_INDICATOR_IGNORE = 3,
}

/// The number is none of [`MariadbBulkIndicator`]'s.
#[derive(Clone, Copy, Debug, PartialEq, Eq, Error)]
#[error("Unknown MariaDB bulk execute parameter value indicator {0}")]
pub struct UnknownMariadbBulkIndicator(pub u8);

impl TryFrom<u8> for MariadbBulkIndicator {
    type Error = UnknownMariadbBulkIndicator;

    ghost try_from_gives = { ConvertsNumber mariadb_bulk_indicator_number (λ unknown. unknown.0) };

    fn try_from(number: u8) -> Result<Self, UnknownMariadbBulkIndicator> {
        match number {
            0 => Ok(Self::BULK_INDICATOR_NONE),
            1 => Ok(Self::BULK_INDICATOR_NULL),
            2 => Ok(Self::BULK_INDICATOR_DEFAULT),
            3 => Ok(Self::BULK_INDICATOR_IGNORE),
            other => Err(UnknownMariadbBulkIndicator(other)),
        }
    }
}

impl From<MariadbBulkIndicator> for u8 {
    ghost from_gives = { λ indicator number. number ≡ mariadb_bulk_indicator_number indicator };

    fn from(indicator: MariadbBulkIndicator) -> u8 {
        indicator as u8
    }
}
