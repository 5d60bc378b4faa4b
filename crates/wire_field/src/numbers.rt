//! The number of each constant and of each set of flags that converts into one, and back.

ghost use Rattle.wire_const.specs.EnumNumbers.{column_type_number, mariadb_bulk_indicator_number, session_state_type_number};
ghost use Rattle.wire_const.specs.FlagSets.{IsKnown, status_flags_bits, capability_flags_bits, mariadb_capabilities_bits, cursor_type_bits, stmt_execute_params_flags_bits, stmt_execute_param_flags_bits, stmt_bulk_execute_flags_bits, column_flags_bits, flags2_bits, sql_mode_bits};
ghost use Rattle.wire_const.specs.FlagSets.{status_flags_known, capability_flags_known, mariadb_capabilities_known, cursor_type_known, stmt_execute_params_flags_known, stmt_execute_param_flags_known, stmt_bulk_execute_flags_known, column_flags_known, flags2_known, sql_mode_known};
ghost use Rattle.wire_const.specs.RoundTrips.{number_back, bits_back, known_back, column_type_number_apart, mariadb_bulk_indicator_number_apart, session_state_type_number_apart};
ghost use Rattle.wire_const.specs.RoundTrips.{status_flags_bits_apart, capability_flags_bits_apart, mariadb_capabilities_bits_apart, cursor_type_bits_apart, stmt_execute_params_flags_bits_apart, stmt_execute_param_flags_bits_apart, stmt_bulk_execute_flags_bits_apart, column_flags_bits_apart, flags2_bits_apart, sql_mode_bits_apart};

use crate::converted::{IntoNumber, Numbered};
use wire_const::{
    CapabilityFlags, ColumnFlags, ColumnType, CursorType, Flags2, MariadbBulkIndicator,
    MariadbCapabilities, SessionStateType, SqlMode, StatusFlags, StmtBulkExecuteFlags,
    StmtExecuteParamFlags, StmtExecuteParamsFlags,
};

impl IntoNumber<u8> for ColumnType {
    ghost number = { column_type_number };

    ghost converts_to = { λ value val is. is };
}

impl IntoNumber<u8> for MariadbBulkIndicator {
    ghost number = { mariadb_bulk_indicator_number };

    ghost converts_to = { λ value val is. is };
}

impl IntoNumber<u8> for SessionStateType {
    ghost number = { session_state_type_number };

    ghost converts_to = { λ value val is. is };
}

impl IntoNumber<u16> for StatusFlags {
    ghost number = { status_flags_bits };

    ghost converts_to = { λ value val is. is };
}

impl IntoNumber<u32> for CapabilityFlags {
    ghost number = { capability_flags_bits };

    ghost converts_to = { λ value val is. is };
}

impl IntoNumber<u32> for MariadbCapabilities {
    ghost number = { mariadb_capabilities_bits };

    ghost converts_to = { λ value val is. is };
}

impl IntoNumber<u8> for CursorType {
    ghost number = { cursor_type_bits };

    ghost converts_to = { λ value val is. is };
}

impl IntoNumber<u8> for StmtExecuteParamsFlags {
    ghost number = { stmt_execute_params_flags_bits };

    ghost converts_to = { λ value val is. is };
}

impl IntoNumber<u8> for StmtExecuteParamFlags {
    ghost number = { stmt_execute_param_flags_bits };

    ghost converts_to = { λ value val is. is };
}

impl IntoNumber<u16> for StmtBulkExecuteFlags {
    ghost number = { stmt_bulk_execute_flags_bits };

    ghost converts_to = { λ value val is. is };
}

impl IntoNumber<u16> for ColumnFlags {
    ghost number = { column_flags_bits };

    ghost converts_to = { λ value val is. is };
}

impl IntoNumber<u32> for Flags2 {
    ghost number = { flags2_bits };

    ghost converts_to = { λ value val is. is };
}

impl IntoNumber<u64> for SqlMode {
    ghost number = { sql_mode_bits };

    ghost converts_to = { λ value val is. is };
}

impl Numbered<u8> for ColumnType {
    ghost has_number = { λ _. Unit {0} };

    ghost number_back = { λ value has answer is. number_back column_type_number
        (λ unknown. unknown.0) column_type_number_apart value answer is };

    ghost value_back = { λ number value is. (is, record {}) };
}

impl Numbered<u8> for MariadbBulkIndicator {
    ghost has_number = { λ _. Unit {0} };

    ghost number_back = { λ value has answer is. number_back mariadb_bulk_indicator_number
        (λ unknown. unknown.0) mariadb_bulk_indicator_number_apart value answer is };

    ghost value_back = { λ number value is. (is, record {}) };
}

impl Numbered<u8> for SessionStateType {
    ghost has_number = { λ _. Unit {0} };

    ghost number_back = { λ value has answer is. number_back session_state_type_number
        (λ unknown. unknown.0) session_state_type_number_apart value answer is };

    ghost value_back = { λ number value is. (is, record {}) };
}

impl Numbered<u16> for StatusFlags {
    ghost has_number = { λ flags. IsKnown status_flags_known (status_flags_bits flags) };

    ghost number_back = { λ flags known answer is. bits_back status_flags_known
        status_flags_bits (λ unknown. unknown.0) status_flags_bits_apart flags answer known is };

    ghost value_back = { λ bits flags is. known_back status_flags_known (status_flags_bits flags)
        bits is };
}

impl Numbered<u32> for CapabilityFlags {
    ghost has_number = { λ flags. IsKnown capability_flags_known (capability_flags_bits flags) };

    ghost number_back = { λ flags known answer is. bits_back capability_flags_known
        capability_flags_bits (λ unknown. unknown.0) capability_flags_bits_apart flags answer known is };

    ghost value_back = { λ bits flags is. known_back capability_flags_known (capability_flags_bits flags)
        bits is };
}

impl Numbered<u32> for MariadbCapabilities {
    ghost has_number = { λ flags. IsKnown mariadb_capabilities_known (mariadb_capabilities_bits flags) };

    ghost number_back = { λ flags known answer is. bits_back mariadb_capabilities_known
        mariadb_capabilities_bits (λ unknown. unknown.0) mariadb_capabilities_bits_apart flags answer known is };

    ghost value_back = { λ bits flags is. known_back mariadb_capabilities_known (mariadb_capabilities_bits flags)
        bits is };
}

impl Numbered<u8> for CursorType {
    ghost has_number = { λ flags. IsKnown cursor_type_known (cursor_type_bits flags) };

    ghost number_back = { λ flags known answer is. bits_back cursor_type_known
        cursor_type_bits (λ unknown. unknown.0) cursor_type_bits_apart flags answer known is };

    ghost value_back = { λ bits flags is. known_back cursor_type_known (cursor_type_bits flags)
        bits is };
}

impl Numbered<u8> for StmtExecuteParamsFlags {
    ghost has_number = { λ flags. IsKnown stmt_execute_params_flags_known (stmt_execute_params_flags_bits flags) };

    ghost number_back = { λ flags known answer is. bits_back stmt_execute_params_flags_known
        stmt_execute_params_flags_bits (λ unknown. unknown.0) stmt_execute_params_flags_bits_apart flags answer known is };

    ghost value_back = { λ bits flags is. known_back stmt_execute_params_flags_known (stmt_execute_params_flags_bits flags)
        bits is };
}

impl Numbered<u8> for StmtExecuteParamFlags {
    ghost has_number = { λ flags. IsKnown stmt_execute_param_flags_known (stmt_execute_param_flags_bits flags) };

    ghost number_back = { λ flags known answer is. bits_back stmt_execute_param_flags_known
        stmt_execute_param_flags_bits (λ unknown. unknown.0) stmt_execute_param_flags_bits_apart flags answer known is };

    ghost value_back = { λ bits flags is. known_back stmt_execute_param_flags_known (stmt_execute_param_flags_bits flags)
        bits is };
}

impl Numbered<u16> for StmtBulkExecuteFlags {
    ghost has_number = { λ flags. IsKnown stmt_bulk_execute_flags_known (stmt_bulk_execute_flags_bits flags) };

    ghost number_back = { λ flags known answer is. bits_back stmt_bulk_execute_flags_known
        stmt_bulk_execute_flags_bits (λ unknown. unknown.0) stmt_bulk_execute_flags_bits_apart flags answer known is };

    ghost value_back = { λ bits flags is. known_back stmt_bulk_execute_flags_known (stmt_bulk_execute_flags_bits flags)
        bits is };
}

impl Numbered<u16> for ColumnFlags {
    ghost has_number = { λ flags. IsKnown column_flags_known (column_flags_bits flags) };

    ghost number_back = { λ flags known answer is. bits_back column_flags_known
        column_flags_bits (λ unknown. unknown.0) column_flags_bits_apart flags answer known is };

    ghost value_back = { λ bits flags is. known_back column_flags_known (column_flags_bits flags)
        bits is };
}

impl Numbered<u32> for Flags2 {
    ghost has_number = { λ flags. IsKnown flags2_known (flags2_bits flags) };

    ghost number_back = { λ flags known answer is. bits_back flags2_known
        flags2_bits (λ unknown. unknown.0) flags2_bits_apart flags answer known is };

    ghost value_back = { λ bits flags is. known_back flags2_known (flags2_bits flags)
        bits is };
}

impl Numbered<u64> for SqlMode {
    ghost has_number = { λ flags. IsKnown sql_mode_known (sql_mode_bits flags) };

    ghost number_back = { λ flags known answer is. bits_back sql_mode_known
        sql_mode_bits (λ unknown. unknown.0) sql_mode_bits_apart flags answer known is };

    ghost value_back = { λ bits flags is. known_back sql_mode_known (sql_mode_bits flags)
        bits is };
}
