//! Changes of a session.

ghost use Rattle.std.specs.Prelude.{◌≡◌};
ghost use Rattle.wire_const.specs.EnumNumbers.{session_state_type_number, ConvertsNumber};

use thiserror::Error;

/// What has changed in the session: the byte before each change that an OK packet lists where
/// `SERVER_SESSION_STATE_CHANGED` is set.
///
/// <https://dev.mysql.com/doc/dev/mysql-server/latest/page_protocol_basic_ok_packet.html>
#[derive(Clone, Copy, Debug, PartialEq, Eq)]
#[allow(non_camel_case_types)]
#[repr(u8)]
pub enum SessionStateType {
    /// System variables, each a name and a value.
    SESSION_TRACK_SYSTEM_VARIABLES = 0,
    /// The current database.
    SESSION_TRACK_SCHEMA = 1,
    /// Whether anything has changed.
    SESSION_TRACK_STATE_CHANGE = 2,
    /// The identifiers of transactions.
    SESSION_TRACK_GTIDS = 3,
    /// The statements that set a transaction up as the open one is.
    SESSION_TRACK_TRANSACTION_CHARACTERISTICS = 4,
    /// What the open transaction has done so far, a letter for each kind.
    SESSION_TRACK_TRANSACTION_STATE = 5,
}

/// The number is none of [`SessionStateType`]'s.
#[derive(Clone, Copy, Debug, PartialEq, Eq, Error)]
#[error("Unknown session state type {0}")]
pub struct UnknownSessionStateType(pub u8);

impl TryFrom<u8> for SessionStateType {
    type Error = UnknownSessionStateType;

    ghost try_from_gives = { ConvertsNumber session_state_type_number (λ unknown. unknown.0) };

    fn try_from(number: u8) -> Result<Self, UnknownSessionStateType> {
        match number {
            0 => Ok(Self::SESSION_TRACK_SYSTEM_VARIABLES),
            1 => Ok(Self::SESSION_TRACK_SCHEMA),
            2 => Ok(Self::SESSION_TRACK_STATE_CHANGE),
            3 => Ok(Self::SESSION_TRACK_GTIDS),
            4 => Ok(Self::SESSION_TRACK_TRANSACTION_CHARACTERISTICS),
            5 => Ok(Self::SESSION_TRACK_TRANSACTION_STATE),
            other => Err(UnknownSessionStateType(other)),
        }
    }
}

impl From<SessionStateType> for u8 {
    ghost from_gives = { λ state_type number. number ≡ session_state_type_number state_type };

    fn from(state_type: SessionStateType) -> u8 {
        state_type as u8
    }
}
