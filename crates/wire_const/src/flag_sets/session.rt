//! A session, as the binary log tells it.

ghost use Rattle.std.specs.Prelude.{⊤, ◌≡◌};
ghost use Rattle.wire_const.specs.FlagSets.{flags2, flags2_bits, flags2_known, sql_mode, sql_mode_bits, sql_mode_known, ConvertsBits};

use bitflags::{Flag, Flags};
use thiserror::Error;

/// Options of the session in which a statement of the binary log ran: four bytes of a query event.
///
/// <https://mariadb.com/kb/en/query_event/>
#[derive(Clone, Copy, Debug, PartialEq, Eq, Hash, Default)]
pub struct Flags2(u32);

impl Flags2 {
    /// `sql_auto_is_null` was on.
    pub const OPTION_AUTO_IS_NULL: Self = Self(0x0000_4000);

    /// `autocommit` was off.
    pub const OPTION_NOT_AUTOCOMMIT: Self = Self(0x0008_0000);

    /// `foreign_key_checks` was off.
    pub const OPTION_NO_FOREIGN_KEY_CHECKS: Self = Self(0x0400_0000);

    /// `unique_checks` was off.
    pub const OPTION_RELAXED_UNIQUE_CHECKS: Self = Self(0x0800_0000);

    const FLAGS: &'static [Flag<Self>] = &[
        flag!(OPTION_AUTO_IS_NULL),
        flag!(OPTION_NOT_AUTOCOMMIT),
        flag!(OPTION_NO_FOREIGN_KEY_CHECKS),
        flag!(OPTION_RELAXED_UNIQUE_CHECKS),
    ];
}

impl Flags for Flags2 {
    type Bits = u32;

    ghost exact = { ⊤ };

    ghost table = { flags2 };

    ghost set_of = { flags2_bits };

    fn flags<'a>() -> &'a [Flag<Self>] {
        Self::FLAGS
    }

    fn bits(&self) -> u32 {
        self.0
    }

    fn from_bits_retain(bits: u32) -> Self {
        Self(bits)
    }
}

/// The raw number has a bit that no flag of [`Flags2`] names.
#[derive(Clone, Copy, Debug, PartialEq, Eq, Hash, Error)]
#[error("Unknown flags in the raw value of Flags2 (raw={0:b})")]
pub struct UnknownFlags2(pub u32);

impl TryFrom<u32> for Flags2 {
    type Error = UnknownFlags2;

    ghost try_from_gives = { ConvertsBits flags2_known flags2_bits (λ unknown. unknown.0) };

    #[tactic(auto, using(crate::specs::FlagSets::flags2_union))]
    fn try_from(bits: u32) -> Result<Self, UnknownFlags2> {
        match Self::from_bits(bits) {
            Some(flags) => Ok(flags),
            None => Err(UnknownFlags2(bits)),
        }
    }
}

impl From<Flags2> for u32 {
    ghost from_gives = { λ flags bits. bits ≡ flags2_bits flags };

    fn from(flags: Flags2) -> u32 {
        flags.bits()
    }
}

/// The SQL mode in which a statement of the binary log ran: eight bytes of a query event. What each
/// mode does stands in <https://dev.mysql.com/doc/refman/8.0/en/sql-mode.html>.
///
/// <https://mariadb.com/kb/en/query_event/>
#[derive(Clone, Copy, Debug, PartialEq, Eq, Hash, Default)]
pub struct SqlMode(u64);

impl SqlMode {
    /// `REAL` is `FLOAT`, and not `DOUBLE`.
    pub const MODE_REAL_AS_FLOAT: Self = Self(0x1);

    /// Two bars join texts.
    pub const MODE_PIPES_AS_CONCAT: Self = Self(0x2);

    /// Double quotes enclose names, and not texts.
    pub const MODE_ANSI_QUOTES: Self = Self(0x4);

    /// Blanks may stand between a function's name and its parenthesis.
    pub const MODE_IGNORE_SPACE: Self = Self(0x8);

    /// The bit has no meaning.
    pub const MODE_NOT_USED: Self = Self(0x10);

    /// A grouped query may name only columns that its groups determine.
    pub const MODE_ONLY_FULL_GROUP_BY: Self = Self(0x20);

    /// A difference of unsigned numbers has a sign.
    pub const MODE_NO_UNSIGNED_SUBTRACTION: Self = Self(0x40);

    /// `CREATE TABLE` ignores where it is told to put its files.
    pub const MODE_NO_DIR_IN_CREATE: Self = Self(0x80);

    /// As PostgreSQL reads SQL. Not in MySQL 8.
    pub const MODE_POSTGRESQL: Self = Self(0x100);

    /// As Oracle reads SQL. Not in MySQL 8.
    pub const MODE_ORACLE: Self = Self(0x200);

    /// As SQL Server reads SQL. Not in MySQL 8.
    pub const MODE_MSSQL: Self = Self(0x400);

    /// As Db2 reads SQL. Not in MySQL 8.
    pub const MODE_DB2: Self = Self(0x800);

    /// As MaxDB reads SQL. Not in MySQL 8.
    pub const MODE_MAXDB: Self = Self(0x1000);

    /// `SHOW CREATE TABLE` leaves out MySQL's options of keys. Not in MySQL 8.
    pub const MODE_NO_KEY_OPTIONS: Self = Self(0x2000);

    /// `SHOW CREATE TABLE` leaves out MySQL's options of tables. Not in MySQL 8.
    pub const MODE_NO_TABLE_OPTIONS: Self = Self(0x4000);

    /// `SHOW CREATE TABLE` leaves out MySQL's options of columns. Not in MySQL 8.
    pub const MODE_NO_FIELD_OPTIONS: Self = Self(0x8000);

    /// As MySQL 3.23 reads SQL. Not in MySQL 8.
    pub const MODE_MYSQL323: Self = Self(0x1_0000);

    /// As MySQL 4.0 reads SQL. Not in MySQL 8.
    pub const MODE_MYSQL40: Self = Self(0x2_0000);

    /// The modes that are nearest to standard SQL, together.
    pub const MODE_ANSI: Self = Self(0x4_0000);

    /// A zero in a numbered column stays a zero.
    pub const MODE_NO_AUTO_VALUE_ON_ZERO: Self = Self(0x8_0000);

    /// A backslash in a text is a plain byte.
    pub const MODE_NO_BACKSLASH_ESCAPES: Self = Self(0x10_0000);

    /// A value that doesn't fit is refused in tables that have transactions.
    pub const MODE_STRICT_TRANS_TABLES: Self = Self(0x20_0000);

    /// A value that doesn't fit is refused in all tables.
    pub const MODE_STRICT_ALL_TABLES: Self = Self(0x40_0000);

    /// A date's month and day may not be zero.
    pub const MODE_NO_ZERO_IN_DATE: Self = Self(0x80_0000);

    /// The date of zeros is refused.
    pub const MODE_NO_ZERO_DATE: Self = Self(0x100_0000);

    /// Days 1 to 31 are taken in each month.
    pub const MODE_INVALID_DATES: Self = Self(0x200_0000);

    /// A division by zero is a fault, and not NULL.
    pub const MODE_ERROR_FOR_DIVISION_BY_ZERO: Self = Self(0x400_0000);

    /// The modes that refuse bad values, together.
    pub const MODE_TRADITIONAL: Self = Self(0x800_0000);

    /// `GRANT` makes no user without a password. Not in MySQL 8.
    pub const MODE_NO_AUTO_CREATE_USER: Self = Self(0x1000_0000);

    /// `NOT` binds tighter than comparisons.
    pub const MODE_HIGH_NOT_PRECEDENCE: Self = Self(0x2000_0000);

    /// A storage engine that isn't there is a fault, and no other takes its place.
    pub const MODE_NO_ENGINE_SUBSTITUTION: Self = Self(0x4000_0000);

    /// A `CHAR` is read with the blanks that fill it.
    pub const MODE_PAD_CHAR_TO_FULL_LENGTH: Self = Self(0x8000_0000);

    /// Fractions of a second are cut, and not rounded.
    pub const MODE_TIME_TRUNCATE_FRACTIONAL: Self = Self(0x1_0000_0000);

    /// The bit after all others: the end of the server's list.
    pub const MODE_LAST: Self = Self(0x2_0000_0000);

    const FLAGS: &'static [Flag<Self>] = &[
        flag!(MODE_REAL_AS_FLOAT),
        flag!(MODE_PIPES_AS_CONCAT),
        flag!(MODE_ANSI_QUOTES),
        flag!(MODE_IGNORE_SPACE),
        flag!(MODE_NOT_USED),
        flag!(MODE_ONLY_FULL_GROUP_BY),
        flag!(MODE_NO_UNSIGNED_SUBTRACTION),
        flag!(MODE_NO_DIR_IN_CREATE),
        flag!(MODE_POSTGRESQL),
        flag!(MODE_ORACLE),
        flag!(MODE_MSSQL),
        flag!(MODE_DB2),
        flag!(MODE_MAXDB),
        flag!(MODE_NO_KEY_OPTIONS),
        flag!(MODE_NO_TABLE_OPTIONS),
        flag!(MODE_NO_FIELD_OPTIONS),
        flag!(MODE_MYSQL323),
        flag!(MODE_MYSQL40),
        flag!(MODE_ANSI),
        flag!(MODE_NO_AUTO_VALUE_ON_ZERO),
        flag!(MODE_NO_BACKSLASH_ESCAPES),
        flag!(MODE_STRICT_TRANS_TABLES),
        flag!(MODE_STRICT_ALL_TABLES),
        flag!(MODE_NO_ZERO_IN_DATE),
        flag!(MODE_NO_ZERO_DATE),
        flag!(MODE_INVALID_DATES),
        flag!(MODE_ERROR_FOR_DIVISION_BY_ZERO),
        flag!(MODE_TRADITIONAL),
        flag!(MODE_NO_AUTO_CREATE_USER),
        flag!(MODE_HIGH_NOT_PRECEDENCE),
        flag!(MODE_NO_ENGINE_SUBSTITUTION),
        flag!(MODE_PAD_CHAR_TO_FULL_LENGTH),
        flag!(MODE_TIME_TRUNCATE_FRACTIONAL),
        flag!(MODE_LAST),
    ];
}

impl Flags for SqlMode {
    type Bits = u64;

    ghost exact = { ⊤ };

    ghost table = { sql_mode };

    ghost set_of = { sql_mode_bits };

    fn flags<'a>() -> &'a [Flag<Self>] {
        Self::FLAGS
    }

    fn bits(&self) -> u64 {
        self.0
    }

    fn from_bits_retain(bits: u64) -> Self {
        Self(bits)
    }
}

/// The raw number has a bit that no flag of [`SqlMode`] names.
#[derive(Clone, Copy, Debug, PartialEq, Eq, Hash, Error)]
#[error("Unknown flags in the raw value of SqlMode (raw={0:b})")]
pub struct UnknownSqlMode(pub u64);

impl TryFrom<u64> for SqlMode {
    type Error = UnknownSqlMode;

    ghost try_from_gives = { ConvertsBits sql_mode_known sql_mode_bits (λ unknown. unknown.0) };

    #[tactic(auto, using(crate::specs::FlagSets::sql_mode_union))]
    fn try_from(bits: u64) -> Result<Self, UnknownSqlMode> {
        match Self::from_bits(bits) {
            Some(flags) => Ok(flags),
            None => Err(UnknownSqlMode(bits)),
        }
    }
}

impl From<SqlMode> for u64 {
    ghost from_gives = { λ flags bits. bits ≡ sql_mode_bits flags };

    fn from(flags: SqlMode) -> u64 {
        flags.bits()
    }
}
