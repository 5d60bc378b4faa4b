//! Capabilities of MariaDB's clients and servers.

ghost use Rattle.std.specs.Prelude.{⊤, ◌≡◌};
ghost use Rattle.wire_const.specs.FlagSets.{mariadb_capabilities, mariadb_capabilities_bits, mariadb_capabilities_known, ConvertsBits};

use bitflags::{Flag, Flags};
use thiserror::Error;

/// What a MariaDB client and server can do beyond MySQL: four bytes in the greeting and its answer
/// that are zero in MySQL.
///
/// <https://mariadb.com/kb/en/connection/>
#[derive(Clone, Copy, Debug, PartialEq, Eq, Hash, Default)]
pub struct MariadbCapabilities(u32);

impl MariadbCapabilities {
    /// The server may report the progress of a long statement.
    pub const MARIADB_CLIENT_PROGRESS: Self = Self(0x0000_0001);

    /// Formerly `COM_MULTI`. Unused.
    pub const MARIADB_CLIENT_RESERVED_1: Self = Self(0x0000_0002);

    /// `COM_STMT_BULK_EXECUTE` is understood.
    pub const MARIADB_CLIENT_STMT_BULK_OPERATIONS: Self = Self(0x0000_0004);

    /// A column says more of its type and format.
    pub const MARIADB_CLIENT_EXTENDED_METADATA: Self = Self(0x0000_0008);

    /// The columns of a prepared statement come again only where they have changed.
    pub const MARIADB_CLIENT_CACHE_METADATA: Self = Self(0x0000_0010);

    /// `COM_STMT_BULK_EXECUTE` may be answered by a result for each row of parameters.
    pub const MARIADB_CLIENT_BULK_UNIT_RESULTS: Self = Self(0x0000_0020);

    const FLAGS: &'static [Flag<Self>] = &[
        flag!(MARIADB_CLIENT_PROGRESS),
        flag!(MARIADB_CLIENT_RESERVED_1),
        flag!(MARIADB_CLIENT_STMT_BULK_OPERATIONS),
        flag!(MARIADB_CLIENT_EXTENDED_METADATA),
        flag!(MARIADB_CLIENT_CACHE_METADATA),
        flag!(MARIADB_CLIENT_BULK_UNIT_RESULTS),
    ];
}

impl Flags for MariadbCapabilities {
    type Bits = u32;

    ghost exact = { ⊤ };

    ghost table = { mariadb_capabilities };

    ghost set_of = { mariadb_capabilities_bits };

    fn flags<'a>() -> &'a [Flag<Self>] {
        Self::FLAGS
    }

    fn bits(&self) -> u32 {
        self.0
    }

    fn from_bits_retain(bits: u32) -> Self {
        Self(bits)
    }
}

/// The raw number has a bit that no flag of [`MariadbCapabilities`] names.
#[derive(Clone, Copy, Debug, PartialEq, Eq, Hash, Error)]
#[error("Unknown flags in the raw value of MariadbCapabilities (raw={0:b})")]
pub struct UnknownMariadbCapabilityFlags(pub u32);

impl TryFrom<u32> for MariadbCapabilities {
    type Error = UnknownMariadbCapabilityFlags;

    ghost try_from_gives = { ConvertsBits mariadb_capabilities_known mariadb_capabilities_bits
        (λ unknown. unknown.0) };

    #[tactic(auto, using(crate::specs::FlagSets::mariadb_capabilities_union))]
    fn try_from(bits: u32) -> Result<Self, UnknownMariadbCapabilityFlags> {
        match Self::from_bits(bits) {
            Some(flags) => Ok(flags),
            None => Err(UnknownMariadbCapabilityFlags(bits)),
        }
    }
}

impl From<MariadbCapabilities> for u32 {
    ghost from_gives = { λ flags bits. bits ≡ mariadb_capabilities_bits flags };

    fn from(flags: MariadbCapabilities) -> u32 {
        flags.bits()
    }
}
