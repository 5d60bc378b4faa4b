//! Types of loadable functions.

ghost use Rattle.std.specs.Prelude.{◌≡◌};
ghost use Rattle.wire_const.specs.EnumNumbers.{item_result_number, ConvertsNumber};

use thiserror::Error;

/// What a loadable function returns or takes, also as the binary log tells the kind of a user's
/// variable.
///
/// <https://dev.mysql.com/doc/dev/mysql-server/latest/udf__registration__types_8h.html>
#[derive(Clone, Copy, Debug, PartialEq, Eq, Hash)]
#[allow(non_camel_case_types)]
pub enum ItemResult {
    /// Nothing that a function may have.
    INVALID_RESULT = -1,
    /// A text.
    STRING_RESULT = 0,
    /// A floating-point number of eight bytes.
    REAL_RESULT = 1,
    /// An integer of eight bytes.
    INT_RESULT = 2,
    /// A row. No function may have it.
    ROW_RESULT = 3,
    /// A decimal number, as a text.
    DECIMAL_RESULT = 4,
}

/// The number is none of [`ItemResult`]'s.
#[derive(Clone, Copy, Debug, PartialEq, Eq, Hash, Error)]
#[error("Unknown item result type {0}")]
pub struct UnknownItemResultType(pub i8);

impl TryFrom<i8> for ItemResult {
    type Error = UnknownItemResultType;

    ghost try_from_gives = { ConvertsNumber item_result_number (λ unknown. unknown.0) };

    fn try_from(number: i8) -> Result<Self, UnknownItemResultType> {
        match number {
            -1 => Ok(Self::INVALID_RESULT),
            0 => Ok(Self::STRING_RESULT),
            1 => Ok(Self::REAL_RESULT),
            2 => Ok(Self::INT_RESULT),
            3 => Ok(Self::ROW_RESULT),
            4 => Ok(Self::DECIMAL_RESULT),
            other => Err(UnknownItemResultType(other)),
        }
    }
}

impl From<UnknownItemResultType> for i8 {
    ghost from_gives = { λ unknown number. number ≡ unknown.0 };

    fn from(unknown: UnknownItemResultType) -> i8 {
        unknown.0
    }
}
