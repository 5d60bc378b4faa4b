//! The server's status.

ghost use Rattle.std.specs.Prelude.{⊤, ◌≡◌};
ghost use Rattle.wire_const.specs.FlagSets.{status_flags, status_flags_bits, status_flags_known, ConvertsBits};

use bitflags::{Flag, Flags};
use thiserror::Error;

/// What the server says of the session and of the statement that it answers: two bytes of each OK
/// and EOF packet.
///
/// <https://dev.mysql.com/doc/dev/mysql-server/latest/mysql__com_8h.html>
#[derive(Clone, Copy, Debug, PartialEq, Eq, Hash, Default)]
pub struct StatusFlags(u16);

impl StatusFlags {
    /// A transaction of several statements is open.
    pub const SERVER_STATUS_IN_TRANS: Self = Self(0x0001);

    /// Each statement outside a transaction is committed by itself.
    pub const SERVER_STATUS_AUTOCOMMIT: Self = Self(0x0002);

    /// Another result follows this one.
    pub const SERVER_MORE_RESULTS_EXISTS: Self = Self(0x0008);

    /// The statement found no good index for its tables.
    pub const SERVER_STATUS_NO_GOOD_INDEX_USED: Self = Self(0x0010);

    /// The statement used no index.
    pub const SERVER_STATUS_NO_INDEX_USED: Self = Self(0x0020);

    /// A cursor is open on the result: its rows come by `COM_STMT_FETCH`.
    pub const SERVER_STATUS_CURSOR_EXISTS: Self = Self(0x0040);

    /// The cursor has no row left, in an answer to `COM_STMT_FETCH`.
    pub const SERVER_STATUS_LAST_ROW_SENT: Self = Self(0x0080);

    /// A database was dropped.
    pub const SERVER_STATUS_DB_DROPPED: Self = Self(0x0100);

    /// A backslash in a text of a statement is a plain byte.
    pub const SERVER_STATUS_NO_BACKSLASH_ESCAPES: Self = Self(0x0200);

    /// The prepared statement was prepared anew, and its result has other columns now.
    pub const SERVER_STATUS_METADATA_CHANGED: Self = Self(0x0400);

    /// The statement took longer than the server calls slow.
    pub const SERVER_QUERY_WAS_SLOW: Self = Self(0x0800);

    /// The row of this result holds the output parameters of a procedure.
    pub const SERVER_PS_OUT_PARAMS: Self = Self(0x1000);

    /// The open transaction only reads; it stands beside `SERVER_STATUS_IN_TRANS`.
    pub const SERVER_STATUS_IN_TRANS_READONLY: Self = Self(0x2000);

    /// The packet lists what has changed in the session.
    pub const SERVER_SESSION_STATE_CHANGED: Self = Self(0x4000);

    /// MariaDB: double quotes enclose names, as in the SQL mode `ANSI_QUOTES`.
    pub const SERVER_STATUS_ANSI_QUOTES: Self = Self(0x8000);

    const FLAGS: &'static [Flag<Self>] = &[
        flag!(SERVER_STATUS_IN_TRANS),
        flag!(SERVER_STATUS_AUTOCOMMIT),
        flag!(SERVER_MORE_RESULTS_EXISTS),
        flag!(SERVER_STATUS_NO_GOOD_INDEX_USED),
        flag!(SERVER_STATUS_NO_INDEX_USED),
        flag!(SERVER_STATUS_CURSOR_EXISTS),
        flag!(SERVER_STATUS_LAST_ROW_SENT),
        flag!(SERVER_STATUS_DB_DROPPED),
        flag!(SERVER_STATUS_NO_BACKSLASH_ESCAPES),
        flag!(SERVER_STATUS_METADATA_CHANGED),
        flag!(SERVER_QUERY_WAS_SLOW),
        flag!(SERVER_PS_OUT_PARAMS),
        flag!(SERVER_STATUS_IN_TRANS_READONLY),
        flag!(SERVER_SESSION_STATE_CHANGED),
        flag!(SERVER_STATUS_ANSI_QUOTES),
    ];
}

impl Flags for StatusFlags {
    type Bits = u16;

    ghost exact = { ⊤ };

    ghost table = { status_flags };

    ghost set_of = { status_flags_bits };

    fn flags<'a>() -> &'a [Flag<Self>] {
        Self::FLAGS
    }

    fn bits(&self) -> u16 {
        self.0
    }

    fn from_bits_retain(bits: u16) -> Self {
        Self(bits)
    }
}

/// The raw number has a bit that no flag of [`StatusFlags`] names.
#[derive(Clone, Copy, Debug, PartialEq, Eq, Hash, Error)]
#[error("Unknown flags in the raw value of StatusFlags (raw={0:b})")]
pub struct UnknownStatusFlags(pub u16);

impl TryFrom<u16> for StatusFlags {
    type Error = UnknownStatusFlags;

    ghost try_from_gives = { ConvertsBits status_flags_known status_flags_bits
        (λ unknown. unknown.0) };

    #[tactic(auto, using(crate::specs::FlagSets::status_flags_union))]
    fn try_from(bits: u16) -> Result<Self, UnknownStatusFlags> {
        match Self::from_bits(bits) {
            Some(flags) => Ok(flags),
            None => Err(UnknownStatusFlags(bits)),
        }
    }
}

impl From<StatusFlags> for u16 {
    ghost from_gives = { λ flags bits. bits ≡ status_flags_bits flags };

    fn from(flags: StatusFlags) -> u16 {
        flags.bits()
    }
}
