//! What is known of a column.

ghost use Rattle.std.specs.Prelude.{⊤, ◌≡◌};
ghost use Rattle.wire_const.specs.FlagSets.{column_flags, column_flags_bits, column_flags_known, ConvertsBits};

use bitflags::{Flag, Flags};
use thiserror::Error;

/// What is known of a column: two bytes of its definition.
///
/// <https://dev.mysql.com/doc/dev/mysql-server/latest/group__group__cs__column__definition__flags.html>
#[derive(Clone, Copy, Debug, PartialEq, Eq, Hash, Default)]
pub struct ColumnFlags(u16);

impl ColumnFlags {
    /// The column is never NULL.
    pub const NOT_NULL_FLAG: Self = Self(0x0001);

    /// It is a part of the primary key.
    pub const PRI_KEY_FLAG: Self = Self(0x0002);

    /// It is a part of a unique key.
    pub const UNIQUE_KEY_FLAG: Self = Self(0x0004);

    /// It is a part of a key that isn't unique.
    pub const MULTIPLE_KEY_FLAG: Self = Self(0x0008);

    /// It is a blob or a text.
    pub const BLOB_FLAG: Self = Self(0x0010);

    /// Its numbers have no sign.
    pub const UNSIGNED_FLAG: Self = Self(0x0020);

    /// Its numbers are shown with zeros in front.
    pub const ZEROFILL_FLAG: Self = Self(0x0040);

    /// Its texts are compared byte by byte.
    pub const BINARY_FLAG: Self = Self(0x0080);

    /// It is an enumeration.
    pub const ENUM_FLAG: Self = Self(0x0100);

    /// The server numbers its rows.
    pub const AUTO_INCREMENT_FLAG: Self = Self(0x0200);

    /// It is a timestamp.
    pub const TIMESTAMP_FLAG: Self = Self(0x0400);

    /// It is a set.
    pub const SET_FLAG: Self = Self(0x0800);

    /// It has no default value.
    pub const NO_DEFAULT_VALUE_FLAG: Self = Self(0x1000);

    /// It becomes the time of each change of its row.
    pub const ON_UPDATE_NOW_FLAG: Self = Self(0x2000);

    /// It is a part of some key. The server uses it within itself.
    pub const PART_KEY_FLAG: Self = Self(0x4000);

    /// It is a number. Clients set it for themselves.
    pub const NUM_FLAG: Self = Self(0x8000);

    const FLAGS: &'static [Flag<Self>] = &[
        flag!(NOT_NULL_FLAG),
        flag!(PRI_KEY_FLAG),
        flag!(UNIQUE_KEY_FLAG),
        flag!(MULTIPLE_KEY_FLAG),
        flag!(BLOB_FLAG),
        flag!(UNSIGNED_FLAG),
        flag!(ZEROFILL_FLAG),
        flag!(BINARY_FLAG),
        flag!(ENUM_FLAG),
        flag!(AUTO_INCREMENT_FLAG),
        flag!(TIMESTAMP_FLAG),
        flag!(SET_FLAG),
        flag!(NO_DEFAULT_VALUE_FLAG),
        flag!(ON_UPDATE_NOW_FLAG),
        flag!(PART_KEY_FLAG),
        flag!(NUM_FLAG),
    ];
}

impl Flags for ColumnFlags {
    type Bits = u16;

    ghost exact = { ⊤ };

    ghost table = { column_flags };

    ghost set_of = { column_flags_bits };

    fn flags<'a>() -> &'a [Flag<Self>] {
        Self::FLAGS
    }

    fn bits(&self) -> u16 {
        self.0
    }

    fn from_bits_retain(bits: u16) -> Self {
        Self(bits)
    }
}

/// The raw number has a bit that no flag of [`ColumnFlags`] names.
#[derive(Clone, Copy, Debug, PartialEq, Eq, Hash, Error)]
#[error("Unknown flags in the raw value of ColumnFlags (raw={0:b})")]
pub struct UnknownColumnFlags(pub u16);

impl TryFrom<u16> for ColumnFlags {
    type Error = UnknownColumnFlags;

    ghost try_from_gives = { ConvertsBits column_flags_known column_flags_bits
        (λ unknown. unknown.0) };

    #[tactic(auto, using(crate::specs::FlagSets::column_flags_union))]
    fn try_from(bits: u16) -> Result<Self, UnknownColumnFlags> {
        match Self::from_bits(bits) {
            Some(flags) => Ok(flags),
            None => Err(UnknownColumnFlags(bits)),
        }
    }
}

impl From<ColumnFlags> for u16 {
    ghost from_gives = { λ flags bits. bits ≡ column_flags_bits flags };

    fn from(flags: ColumnFlags) -> u16 {
        flags.bits()
    }
}
