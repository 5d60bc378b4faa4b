//! Sets of flags: each bit, each number, and the errors' texts. `constant_calls` of
//! `mysql_wire_examples` has what the calls answer.

use bitflags::Bits;
use std::alloc::Global;
use std::fmt::Display;
use std::test::Fail;
use test_support::answers::shows;
use test_support::facts::all_hold;
use wire_const::{
    CapabilityFlags, ColumnFlags, CursorType, Flags, Flags2, MariadbCapabilities, SqlMode,
    StatusFlags, StmtBulkExecuteFlags, StmtExecuteParamFlags, StmtExecuteParamsFlags,
    UnknownCapabilityFlags, UnknownColumnFlags,
};

// Whether the flags are the single bits of `known`, from the lowest to the highest, and `known` is
// all that the set knows. The default has none.
fn are_the_bits_of<F: Flags + Default>(flags: &[F], known: u64) -> bool
where
    F::Bits: Into<u64>,
{
    let mut left = known;
    let mut all = true;
    for flag in flags {
        let bits: u64 = flag.bits().into();
        all &= (left != 0) & (bits == 1u64.wrapping_shl(left.trailing_zeros()));
        left ^= bits;
    }
    let whole: u64 = F::all().bits().into();
    all &= (left == 0) & (whole == known);
    all & (F::default().bits() == F::empty().bits())
}

macro_rules! flags {
    ($type:ident; $($name:ident,)*) => {
        &[$($type::$name),*]
    };
}

const STATUS: &[StatusFlags] = flags! {
    StatusFlags;
    SERVER_STATUS_IN_TRANS,
    SERVER_STATUS_AUTOCOMMIT,
    SERVER_MORE_RESULTS_EXISTS,
    SERVER_STATUS_NO_GOOD_INDEX_USED,
    SERVER_STATUS_NO_INDEX_USED,
    SERVER_STATUS_CURSOR_EXISTS,
    SERVER_STATUS_LAST_ROW_SENT,
    SERVER_STATUS_DB_DROPPED,
    SERVER_STATUS_NO_BACKSLASH_ESCAPES,
    SERVER_STATUS_METADATA_CHANGED,
    SERVER_QUERY_WAS_SLOW,
    SERVER_PS_OUT_PARAMS,
    SERVER_STATUS_IN_TRANS_READONLY,
    SERVER_SESSION_STATE_CHANGED,
    SERVER_STATUS_ANSI_QUOTES,
};

const CAPABILITIES: &[CapabilityFlags] = flags! {
    CapabilityFlags;
    CLIENT_LONG_PASSWORD,
    CLIENT_FOUND_ROWS,
    CLIENT_LONG_FLAG,
    CLIENT_CONNECT_WITH_DB,
    CLIENT_NO_SCHEMA,
    CLIENT_COMPRESS,
    CLIENT_ODBC,
    CLIENT_LOCAL_FILES,
    CLIENT_IGNORE_SPACE,
    CLIENT_PROTOCOL_41,
    CLIENT_INTERACTIVE,
    CLIENT_SSL,
    CLIENT_IGNORE_SIGPIPE,
    CLIENT_TRANSACTIONS,
    CLIENT_RESERVED,
    CLIENT_SECURE_CONNECTION,
    CLIENT_MULTI_STATEMENTS,
    CLIENT_MULTI_RESULTS,
    CLIENT_PS_MULTI_RESULTS,
    CLIENT_PLUGIN_AUTH,
    CLIENT_CONNECT_ATTRS,
    CLIENT_PLUGIN_AUTH_LENENC_CLIENT_DATA,
    CLIENT_CAN_HANDLE_EXPIRED_PASSWORDS,
    CLIENT_SESSION_TRACK,
    CLIENT_DEPRECATE_EOF,
    CLIENT_OPTIONAL_RESULTSET_METADATA,
    CLIENT_ZSTD_COMPRESSION_ALGORITHM,
    CLIENT_QUERY_ATTRIBUTES,
    MULTI_FACTOR_AUTHENTICATION,
    CLIENT_PROGRESS_OBSOLETE,
    CLIENT_SSL_VERIFY_SERVER_CERT,
    CLIENT_REMEMBER_OPTIONS,
};

const MARIADB_CAPABILITIES: &[MariadbCapabilities] = flags! {
    MariadbCapabilities;
    MARIADB_CLIENT_PROGRESS,
    MARIADB_CLIENT_RESERVED_1,
    MARIADB_CLIENT_STMT_BULK_OPERATIONS,
    MARIADB_CLIENT_EXTENDED_METADATA,
    MARIADB_CLIENT_CACHE_METADATA,
    MARIADB_CLIENT_BULK_UNIT_RESULTS,
};

const CURSORS: &[CursorType] = flags! {
    CursorType;
    CURSOR_TYPE_READ_ONLY,
    CURSOR_TYPE_FOR_UPDATE,
    CURSOR_TYPE_SCROLLABLE,
};

const EXECUTE_PARAMS: &[StmtExecuteParamsFlags] = flags! {
    StmtExecuteParamsFlags;
    NEW_PARAMS_BOUND,
};

const EXECUTE_PARAM: &[StmtExecuteParamFlags] = flags! {
    StmtExecuteParamFlags;
    UNSIGNED,
};

const BULK_EXECUTE: &[StmtBulkExecuteFlags] = flags! {
    StmtBulkExecuteFlags;
    SEND_UNIT_RESULTS,
    SEND_TYPES_TO_SERVER,
};

const COLUMNS: &[ColumnFlags] = flags! {
    ColumnFlags;
    NOT_NULL_FLAG,
    PRI_KEY_FLAG,
    UNIQUE_KEY_FLAG,
    MULTIPLE_KEY_FLAG,
    BLOB_FLAG,
    UNSIGNED_FLAG,
    ZEROFILL_FLAG,
    BINARY_FLAG,
    ENUM_FLAG,
    AUTO_INCREMENT_FLAG,
    TIMESTAMP_FLAG,
    SET_FLAG,
    NO_DEFAULT_VALUE_FLAG,
    ON_UPDATE_NOW_FLAG,
    PART_KEY_FLAG,
    NUM_FLAG,
};

const FLAGS2: &[Flags2] = flags! {
    Flags2;
    OPTION_AUTO_IS_NULL,
    OPTION_NOT_AUTOCOMMIT,
    OPTION_NO_FOREIGN_KEY_CHECKS,
    OPTION_RELAXED_UNIQUE_CHECKS,
};

const SQL_MODES: &[SqlMode] = flags! {
    SqlMode;
    MODE_REAL_AS_FLOAT,
    MODE_PIPES_AS_CONCAT,
    MODE_ANSI_QUOTES,
    MODE_IGNORE_SPACE,
    MODE_NOT_USED,
    MODE_ONLY_FULL_GROUP_BY,
    MODE_NO_UNSIGNED_SUBTRACTION,
    MODE_NO_DIR_IN_CREATE,
    MODE_POSTGRESQL,
    MODE_ORACLE,
    MODE_MSSQL,
    MODE_DB2,
    MODE_MAXDB,
    MODE_NO_KEY_OPTIONS,
    MODE_NO_TABLE_OPTIONS,
    MODE_NO_FIELD_OPTIONS,
    MODE_MYSQL323,
    MODE_MYSQL40,
    MODE_ANSI,
    MODE_NO_AUTO_VALUE_ON_ZERO,
    MODE_NO_BACKSLASH_ESCAPES,
    MODE_STRICT_TRANS_TABLES,
    MODE_STRICT_ALL_TABLES,
    MODE_NO_ZERO_IN_DATE,
    MODE_NO_ZERO_DATE,
    MODE_INVALID_DATES,
    MODE_ERROR_FOR_DIVISION_BY_ZERO,
    MODE_TRADITIONAL,
    MODE_NO_AUTO_CREATE_USER,
    MODE_HIGH_NOT_PRECEDENCE,
    MODE_NO_ENGINE_SUBSTITUTION,
    MODE_PAD_CHAR_TO_FULL_LENGTH,
    MODE_TIME_TRUNCATE_FRACTIONAL,
    MODE_LAST,
};

// Whether an error is shown with the set's name and the number.
fn is_shown<E: Display>(alloc: Global, error: &E, name: &str, number: u64) -> bool {
    match format!(in alloc; "Unknown flags in the raw value of {name} (raw={number:b})") {
        Ok(wanted) => shows(alloc, error, wanted.as_str()),
        Err(_) => false,
    }
}

// Whether a raw number, where the set's type has it, converts there and back if its bits are all
// known, and else is shown in the error.
fn is_converted<F>(alloc: Global, name: &str, known: u64, number: u64) -> bool
where
    F: Flags + TryFrom<F::Bits, Error: Drop + Display>,
    F::Bits: TryFrom<u64, Error: Drop> + From<F>,
{
    let Ok(raw) = F::Bits::try_from(number) else {
        return true;
    };
    let is_known = number & known == number;
    match F::try_from(raw) {
        Ok(flags) => is_known & (F::Bits::from(flags) == raw),
        Err(error) => !is_known & is_shown(alloc, &error, name, number),
    }
}

// Whether the raw numbers are converted rightly: those below 65536, and those that have one bit, or
// all but one, or differ in one from what is known.
fn are_converted<F>(alloc: Global, name: &str, known: u64, whole: u64) -> bool
where
    F: Flags + TryFrom<F::Bits, Error: Drop + Display>,
    F::Bits: TryFrom<u64, Error: Drop> + From<F>,
{
    let mut all = true;
    for number in 0..65_536u64 {
        all &= is_converted::<F>(alloc, name, known, number);
    }
    for place in 0..64u32 {
        let bit = 1u64.wrapping_shl(place);
        all &= is_converted::<F>(alloc, name, known, bit);
        all &= is_converted::<F>(alloc, name, known, whole ^ bit);
        all &= is_converted::<F>(alloc, name, known, known ^ bit);
    }
    all
}

// Whether the flags are the single bits of `known`, each number converts as they say, and the error
// of the set, whose name this is, shows a raw number.
fn is_set<F>(alloc: Global, name: &str, flags: &[F], known: u64) -> bool
where
    F: Flags + Default + TryFrom<F::Bits, Error: Drop + Display>,
    F::Bits: TryFrom<u64, Error: Drop> + From<F> + Into<u64>,
{
    let whole: u64 = <F::Bits as Bits>::all().into();
    are_the_bits_of(flags, known) & are_converted::<F>(alloc, name, known, whole)
}

#[test]
fn sets_of_the_protocol(rt: HostRuntime) -> Result<(), Fail> {
    let alloc = rt.alloc();
    all_hold(&[
        is_set(alloc, "StatusFlags", STATUS, 0xfffb),
        is_set(alloc, "CapabilityFlags", CAPABILITIES, 0xffff_ffff),
        is_set(alloc, "MariadbCapabilities", MARIADB_CAPABILITIES, 0x3f),
        is_set(alloc, "ColumnFlags", COLUMNS, 0xffff),
        shows(
            alloc,
            &UnknownCapabilityFlags(5),
            "Unknown flags in the raw value of CapabilityFlags (raw=101)",
        ),
        shows(
            alloc,
            &UnknownColumnFlags(6),
            "Unknown flags in the raw value of ColumnFlags (raw=110)",
        ),
    ])
}

#[test]
fn sets_of_statements_and_of_the_binary_log(rt: HostRuntime) -> Result<(), Fail> {
    let alloc = rt.alloc();
    all_hold(&[
        is_set(alloc, "CursorType", CURSORS, 0x07),
        is_set(alloc, "StmtExecuteParamsFlags", EXECUTE_PARAMS, 0x01),
        is_set(alloc, "StmtExecuteParamFlags", EXECUTE_PARAM, 0x80),
        is_set(alloc, "StmtBulkExecuteParamsFlags", BULK_EXECUTE, 0xc0),
        CursorType::CURSOR_TYPE_NO_CURSOR.bits() == 0,
        is_set(alloc, "Flags2", FLAGS2, 0x0c08_4000),
        is_set(alloc, "SqlMode", SQL_MODES, 0x3_ffff_ffff),
    ])
}
