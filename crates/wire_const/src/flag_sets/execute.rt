//! How a prepared statement is executed.

ghost use Rattle.std.specs.Prelude.{⊤, ◌≡◌};
ghost use Rattle.wire_const.specs.FlagSets.{cursor_type, cursor_type_bits, cursor_type_known, stmt_bulk_execute_flags, stmt_bulk_execute_flags_bits, stmt_bulk_execute_flags_known, stmt_execute_param_flags, stmt_execute_param_flags_bits, stmt_execute_param_flags_known, stmt_execute_params_flags, stmt_execute_params_flags_bits, stmt_execute_params_flags_known, ConvertsBits};

use bitflags::{Flag, Flags};
use thiserror::Error;

/// The cursor that `COM_STMT_EXECUTE` asks for: one byte.
///
/// <https://dev.mysql.com/doc/dev/mysql-server/latest/page_protocol_com_stmt_execute.html>
#[derive(Clone, Copy, Debug, PartialEq, Eq, Hash, Default)]
pub struct CursorType(u8);

impl CursorType {
    /// No cursor: no bit is set.
    pub const CURSOR_TYPE_NO_CURSOR: Self = Self(0x00);

    /// A cursor that reads.
    pub const CURSOR_TYPE_READ_ONLY: Self = Self(0x01);

    /// A cursor for changes.
    pub const CURSOR_TYPE_FOR_UPDATE: Self = Self(0x02);

    /// A cursor that moves both ways.
    pub const CURSOR_TYPE_SCROLLABLE: Self = Self(0x04);

    const FLAGS: &'static [Flag<Self>] = &[
        flag!(CURSOR_TYPE_NO_CURSOR),
        flag!(CURSOR_TYPE_READ_ONLY),
        flag!(CURSOR_TYPE_FOR_UPDATE),
        flag!(CURSOR_TYPE_SCROLLABLE),
    ];
}

impl Flags for CursorType {
    type Bits = u8;

    ghost exact = { ⊤ };

    ghost table = { cursor_type };

    ghost set_of = { cursor_type_bits };

    fn flags<'a>() -> &'a [Flag<Self>] {
        Self::FLAGS
    }

    fn bits(&self) -> u8 {
        self.0
    }

    fn from_bits_retain(bits: u8) -> Self {
        Self(bits)
    }
}

/// The raw number has a bit that no flag of [`CursorType`] names.
#[derive(Clone, Copy, Debug, PartialEq, Eq, Hash, Error)]
#[error("Unknown flags in the raw value of CursorType (raw={0:b})")]
pub struct UnknownCursorType(pub u8);

impl TryFrom<u8> for CursorType {
    type Error = UnknownCursorType;

    ghost try_from_gives = { ConvertsBits cursor_type_known cursor_type_bits
        (λ unknown. unknown.0) };

    #[tactic(auto, using(crate::specs::FlagSets::cursor_type_union))]
    fn try_from(bits: u8) -> Result<Self, UnknownCursorType> {
        match Self::from_bits(bits) {
            Some(flags) => Ok(flags),
            None => Err(UnknownCursorType(bits)),
        }
    }
}

impl From<CursorType> for u8 {
    ghost from_gives = { λ flags bits. bits ≡ cursor_type_bits flags };

    fn from(flags: CursorType) -> u8 {
        flags.bits()
    }
}

/// Of all parameters of `COM_STMT_EXECUTE`: one byte.
///
/// <https://dev.mysql.com/doc/dev/mysql-server/latest/page_protocol_com_stmt_execute.html>
#[derive(Clone, Copy, Debug, PartialEq, Eq, Hash, Default)]
pub struct StmtExecuteParamsFlags(u8);

impl StmtExecuteParamsFlags {
    /// The types of the parameters stand before their values.
    pub const NEW_PARAMS_BOUND: Self = Self(0x01);

    const FLAGS: &'static [Flag<Self>] = &[flag!(NEW_PARAMS_BOUND)];
}

impl Flags for StmtExecuteParamsFlags {
    type Bits = u8;

    ghost exact = { ⊤ };

    ghost table = { stmt_execute_params_flags };

    ghost set_of = { stmt_execute_params_flags_bits };

    fn flags<'a>() -> &'a [Flag<Self>] {
        Self::FLAGS
    }

    fn bits(&self) -> u8 {
        self.0
    }

    fn from_bits_retain(bits: u8) -> Self {
        Self(bits)
    }
}

/// The raw number has a bit that no flag of [`StmtExecuteParamsFlags`] names.
#[derive(Clone, Copy, Debug, PartialEq, Eq, Hash, Error)]
#[error("Unknown flags in the raw value of StmtExecuteParamsFlags (raw={0:b})")]
pub struct UnknownStmtExecuteParamsFlags(pub u8);

impl TryFrom<u8> for StmtExecuteParamsFlags {
    type Error = UnknownStmtExecuteParamsFlags;

    ghost try_from_gives = { ConvertsBits stmt_execute_params_flags_known stmt_execute_params_flags_bits
        (λ unknown. unknown.0) };

    #[tactic(auto, using(crate::specs::FlagSets::stmt_execute_params_flags_union))]
    fn try_from(bits: u8) -> Result<Self, UnknownStmtExecuteParamsFlags> {
        match Self::from_bits(bits) {
            Some(flags) => Ok(flags),
            None => Err(UnknownStmtExecuteParamsFlags(bits)),
        }
    }
}

impl From<StmtExecuteParamsFlags> for u8 {
    ghost from_gives = { λ flags bits. bits ≡ stmt_execute_params_flags_bits flags };

    fn from(flags: StmtExecuteParamsFlags) -> u8 {
        flags.bits()
    }
}

/// Of one parameter of `COM_STMT_EXECUTE`: the byte after its type.
///
/// <https://dev.mysql.com/doc/dev/mysql-server/latest/page_protocol_com_stmt_execute.html>
#[derive(Clone, Copy, Debug, PartialEq, Eq, Hash, Default)]
pub struct StmtExecuteParamFlags(u8);

impl StmtExecuteParamFlags {
    /// The number has no sign.
    pub const UNSIGNED: Self = Self(0x80);

    const FLAGS: &'static [Flag<Self>] = &[flag!(UNSIGNED)];
}

impl Flags for StmtExecuteParamFlags {
    type Bits = u8;

    ghost exact = { ⊤ };

    ghost table = { stmt_execute_param_flags };

    ghost set_of = { stmt_execute_param_flags_bits };

    fn flags<'a>() -> &'a [Flag<Self>] {
        Self::FLAGS
    }

    fn bits(&self) -> u8 {
        self.0
    }

    fn from_bits_retain(bits: u8) -> Self {
        Self(bits)
    }
}

/// The raw number has a bit that no flag of [`StmtExecuteParamFlags`] names.
#[derive(Clone, Copy, Debug, PartialEq, Eq, Hash, Error)]
#[error("Unknown flags in the raw value of StmtExecuteParamFlags (raw={0:b})")]
pub struct UnknownStmtExecuteParamFlags(pub u8);

impl TryFrom<u8> for StmtExecuteParamFlags {
    type Error = UnknownStmtExecuteParamFlags;

    ghost try_from_gives = { ConvertsBits stmt_execute_param_flags_known stmt_execute_param_flags_bits
        (λ unknown. unknown.0) };

    #[tactic(auto, using(crate::specs::FlagSets::stmt_execute_param_flags_union))]
    fn try_from(bits: u8) -> Result<Self, UnknownStmtExecuteParamFlags> {
        match Self::from_bits(bits) {
            Some(flags) => Ok(flags),
            None => Err(UnknownStmtExecuteParamFlags(bits)),
        }
    }
}

impl From<StmtExecuteParamFlags> for u8 {
    ghost from_gives = { λ flags bits. bits ≡ stmt_execute_param_flags_bits flags };

    fn from(flags: StmtExecuteParamFlags) -> u8 {
        flags.bits()
    }
}

/// How MariaDB's `COM_STMT_BULK_EXECUTE` is meant: two bytes.
///
/// <https://mariadb.com/kb/en/com_stmt_bulk_execute/>
#[derive(Clone, Copy, Debug, PartialEq, Eq, Hash, Default)]
pub struct StmtBulkExecuteFlags(u16);

impl StmtBulkExecuteFlags {
    /// A result is wanted for each row of parameters.
    pub const SEND_UNIT_RESULTS: Self = Self(0x0040);

    /// The types of the parameters stand before their values.
    pub const SEND_TYPES_TO_SERVER: Self = Self(0x0080);

    const FLAGS: &'static [Flag<Self>] = &[flag!(SEND_UNIT_RESULTS), flag!(SEND_TYPES_TO_SERVER)];
}

impl Flags for StmtBulkExecuteFlags {
    type Bits = u16;

    ghost exact = { ⊤ };

    ghost table = { stmt_bulk_execute_flags };

    ghost set_of = { stmt_bulk_execute_flags_bits };

    fn flags<'a>() -> &'a [Flag<Self>] {
        Self::FLAGS
    }

    fn bits(&self) -> u16 {
        self.0
    }

    fn from_bits_retain(bits: u16) -> Self {
        Self(bits)
    }
}

/// The raw number has a bit that no flag of [`StmtBulkExecuteFlags`] names.
#[derive(Clone, Copy, Debug, PartialEq, Eq, Hash, Error)]
#[error("Unknown flags in the raw value of StmtBulkExecuteParamsFlags (raw={0:b})")]
pub struct UnknownStmtBulkExecuteParamsFlags(pub u16);

impl TryFrom<u16> for StmtBulkExecuteFlags {
    type Error = UnknownStmtBulkExecuteParamsFlags;

    ghost try_from_gives = { ConvertsBits stmt_bulk_execute_flags_known stmt_bulk_execute_flags_bits
        (λ unknown. unknown.0) };

    #[tactic(auto, using(crate::specs::FlagSets::stmt_bulk_execute_flags_union))]
    fn try_from(bits: u16) -> Result<Self, UnknownStmtBulkExecuteParamsFlags> {
        match Self::from_bits(bits) {
            Some(flags) => Ok(flags),
            None => Err(UnknownStmtBulkExecuteParamsFlags(bits)),
        }
    }
}

impl From<StmtBulkExecuteFlags> for u16 {
    ghost from_gives = { λ flags bits. bits ≡ stmt_bulk_execute_flags_bits flags };

    fn from(flags: StmtBulkExecuteFlags) -> u16 {
        flags.bits()
    }
}
