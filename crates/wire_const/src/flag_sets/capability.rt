//! Capabilities of MySQL's clients and servers.

ghost use Rattle.std.specs.Prelude.{⊤, ◌≡◌};
ghost use Rattle.wire_const.specs.FlagSets.{capability_flags, capability_flags_bits, capability_flags_known, ConvertsBits};

use bitflags::{Flag, Flags};
use thiserror::Error;

/// What a client and a server can do. The server offers its own as it greets, the client answers
/// with its, and what both have is in force.
///
/// <https://dev.mysql.com/doc/dev/mysql-server/latest/group__group__cs__capabilities__flags.html>
#[derive(Clone, Copy, Debug, PartialEq, Eq, Hash, Default)]
pub struct CapabilityFlags(u32);

impl CapabilityFlags {
    /// An improved form of the oldest password hash. Taken to be set since MySQL 4.1.1.
    pub const CLIENT_LONG_PASSWORD: Self = Self(0x0000_0001);

    /// A statement that changes rows answers how many it found, and not how many it changed.
    pub const CLIENT_FOUND_ROWS: Self = Self(0x0000_0002);

    /// The flags of a column are two bytes wide.
    pub const CLIENT_LONG_FLAG: Self = Self(0x0000_0004);

    /// The client names a database as it connects.
    pub const CLIENT_CONNECT_WITH_DB: Self = Self(0x0000_0008);

    /// A column may not be named as `database.table.column`.
    pub const CLIENT_NO_SCHEMA: Self = Self(0x0000_0010);

    /// Packets may be compressed by zlib once the client is accepted.
    pub const CLIENT_COMPRESS: Self = Self(0x0000_0020);

    /// The client is an ODBC driver. Without effect since MySQL 3.22.
    pub const CLIENT_ODBC: Self = Self(0x0000_0040);

    /// The client may send its own files, for `LOAD DATA LOCAL`.
    pub const CLIENT_LOCAL_FILES: Self = Self(0x0000_0080);

    /// Blanks may stand between a function's name and its parenthesis.
    pub const CLIENT_IGNORE_SPACE: Self = Self(0x0000_0100);

    /// Packets have the form that they have since MySQL 4.1.
    pub const CLIENT_PROTOCOL_41: Self = Self(0x0000_0200);

    /// A person is at the client: the server waits `interactive_timeout` for a command.
    pub const CLIENT_INTERACTIVE: Self = Self(0x0000_0400);

    /// The connection changes to TLS before the client says who it is.
    pub const CLIENT_SSL: Self = Self(0x0000_0800);

    /// The client library ignores `SIGPIPE`. It never acts on the wire.
    pub const CLIENT_IGNORE_SIGPIPE: Self = Self(0x0000_1000);

    /// OK and EOF packets hold status flags.
    pub const CLIENT_TRANSACTIONS: Self = Self(0x0000_2000);

    /// An old flag of the protocol of MySQL 4.1. Unused.
    pub const CLIENT_RESERVED: Self = Self(0x0000_4000);

    /// Authentication by the password hash of MySQL 4.1. Taken to be set by newer servers.
    pub const CLIENT_SECURE_CONNECTION: Self = Self(0x0000_8000);

    /// One `COM_QUERY` may hold several statements.
    pub const CLIENT_MULTI_STATEMENTS: Self = Self(0x0001_0000);

    /// `COM_QUERY` may be answered by several results.
    pub const CLIENT_MULTI_RESULTS: Self = Self(0x0002_0000);

    /// `COM_STMT_EXECUTE` may be answered by several results, and by output parameters.
    pub const CLIENT_PS_MULTI_RESULTS: Self = Self(0x0004_0000);

    /// The two agree on a plugin that shows who the client is.
    pub const CLIENT_PLUGIN_AUTH: Self = Self(0x0008_0000);

    /// The client sends attributes of the connection, each a name and a value.
    pub const CLIENT_CONNECT_ATTRS: Self = Self(0x0010_0000);

    /// The client's proof of who it is has a length-encoded length, and may pass 255 bytes.
    pub const CLIENT_PLUGIN_AUTH_LENENC_CLIENT_DATA: Self = Self(0x0020_0000);

    /// The client can go on under a password that has expired.
    pub const CLIENT_CAN_HANDLE_EXPIRED_PASSWORDS: Self = Self(0x0040_0000);

    /// OK packets may list what has changed in the session.
    pub const CLIENT_SESSION_TRACK: Self = Self(0x0080_0000);

    /// An OK packet ends the rows of a result, where an EOF packet did.
    pub const CLIENT_DEPRECATE_EOF: Self = Self(0x0100_0000);

    /// A result may come without the descriptions of its columns.
    pub const CLIENT_OPTIONAL_RESULTSET_METADATA: Self = Self(0x0200_0000);

    /// Packets may be compressed by zstd.
    pub const CLIENT_ZSTD_COMPRESSION_ALGORITHM: Self = Self(0x0400_0000);

    /// `COM_QUERY` and `COM_STMT_EXECUTE` may hold attributes of the query.
    pub const CLIENT_QUERY_ATTRIBUTES: Self = Self(0x0800_0000);

    /// The server may ask for several proofs of who the client is, one after another.
    pub const MULTI_FACTOR_AUTHENTICATION: Self = Self(0x1000_0000);

    /// Error packets may report progress. MariaDB has a capability of its own for it now.
    pub const CLIENT_PROGRESS_OBSOLETE: Self = Self(0x2000_0000);

    /// The client checks the server's certificate. It never acts on the wire.
    pub const CLIENT_SSL_VERIFY_SERVER_CERT: Self = Self(0x4000_0000);

    /// The client keeps its options after a connection that failed. It never acts on the wire.
    pub const CLIENT_REMEMBER_OPTIONS: Self = Self(0x8000_0000);

    const FLAGS: &'static [Flag<Self>] = &[
        flag!(CLIENT_LONG_PASSWORD),
        flag!(CLIENT_FOUND_ROWS),
        flag!(CLIENT_LONG_FLAG),
        flag!(CLIENT_CONNECT_WITH_DB),
        flag!(CLIENT_NO_SCHEMA),
        flag!(CLIENT_COMPRESS),
        flag!(CLIENT_ODBC),
        flag!(CLIENT_LOCAL_FILES),
        flag!(CLIENT_IGNORE_SPACE),
        flag!(CLIENT_PROTOCOL_41),
        flag!(CLIENT_INTERACTIVE),
        flag!(CLIENT_SSL),
        flag!(CLIENT_IGNORE_SIGPIPE),
        flag!(CLIENT_TRANSACTIONS),
        flag!(CLIENT_RESERVED),
        flag!(CLIENT_SECURE_CONNECTION),
        flag!(CLIENT_MULTI_STATEMENTS),
        flag!(CLIENT_MULTI_RESULTS),
        flag!(CLIENT_PS_MULTI_RESULTS),
        flag!(CLIENT_PLUGIN_AUTH),
        flag!(CLIENT_CONNECT_ATTRS),
        flag!(CLIENT_PLUGIN_AUTH_LENENC_CLIENT_DATA),
        flag!(CLIENT_CAN_HANDLE_EXPIRED_PASSWORDS),
        flag!(CLIENT_SESSION_TRACK),
        flag!(CLIENT_DEPRECATE_EOF),
        flag!(CLIENT_OPTIONAL_RESULTSET_METADATA),
        flag!(CLIENT_ZSTD_COMPRESSION_ALGORITHM),
        flag!(CLIENT_QUERY_ATTRIBUTES),
        flag!(MULTI_FACTOR_AUTHENTICATION),
        flag!(CLIENT_PROGRESS_OBSOLETE),
        flag!(CLIENT_SSL_VERIFY_SERVER_CERT),
        flag!(CLIENT_REMEMBER_OPTIONS),
    ];
}

impl Flags for CapabilityFlags {
    type Bits = u32;

    ghost exact = { ⊤ };

    ghost table = { capability_flags };

    ghost set_of = { capability_flags_bits };

    fn flags<'a>() -> &'a [Flag<Self>] {
        Self::FLAGS
    }

    fn bits(&self) -> u32 {
        self.0
    }

    fn from_bits_retain(bits: u32) -> Self {
        Self(bits)
    }
}

/// The raw number has a bit that no flag of [`CapabilityFlags`] names.
#[derive(Clone, Copy, Debug, PartialEq, Eq, Hash, Error)]
#[error("Unknown flags in the raw value of CapabilityFlags (raw={0:b})")]
pub struct UnknownCapabilityFlags(pub u32);

impl TryFrom<u32> for CapabilityFlags {
    type Error = UnknownCapabilityFlags;

    ghost try_from_gives = { ConvertsBits capability_flags_known capability_flags_bits
        (λ unknown. unknown.0) };

    #[tactic(auto, using(crate::specs::FlagSets::capability_flags_union))]
    fn try_from(bits: u32) -> Result<Self, UnknownCapabilityFlags> {
        match Self::from_bits(bits) {
            Some(flags) => Ok(flags),
            None => Err(UnknownCapabilityFlags(bits)),
        }
    }
}

impl From<CapabilityFlags> for u32 {
    ghost from_gives = { λ flags bits. bits ≡ capability_flags_bits flags };

    fn from(flags: CapabilityFlags) -> u32 {
        flags.bits()
    }
}
