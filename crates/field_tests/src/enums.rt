//! Enums: each number, the errors' texts, and the kinds of column types.

use std::alloc::Global;
use std::fmt::Display;
use std::test::Fail;
use test_support::answers::shows;
use test_support::facts::all_hold;
use wire_const::{
    ColumnType, Command, GeometryType, ItemResult, MariadbBulkIndicator, SessionStateType,
    UnknownColumnType, UnknownGeometryType, UnknownItemResultType, UnknownMariadbBulkIndicator,
    UnknownSessionStateType,
};

// A number, the value that it stands for, and that value's number by `as`.
type Row<R, T> = (R, T, R);

macro_rules! rows {
    ($type:ident as $raw:ident; $($number:literal => $name:ident,)*) => {
        &[$(($number, $type::$name, $type::$name as $raw)),*]
    };
}

// The value of this number, if one has it.
fn value_of<R: Copy + PartialEq, T: Copy>(rows: &[Row<R, T>], number: R) -> Option<T> {
    for (listed, value, _) in rows {
        if *listed == number {
            return Some(*value);
        }
    }
    None
}

// Whether each number is converted to its value, or stands in the error where it has none.
fn are_converted<R, T, U>(rows: &[Row<R, T>], unknown: U) -> bool
where
    R: Copy + PartialEq + TryFrom<i16, Error: Drop>,
    T: Copy + PartialEq + TryFrom<R, Error: Copy + PartialEq>,
    U: Copy + FnOnce(R) -> T::Error,
    requires { U.IsAlwaysCallable unknown }
{
    let mut all = true;
    for n in -128..256i16 {
        if let Ok(number) = R::try_from(n) {
            let wanted = value_of(rows, number).ok_or(unknown(number));
            all &= T::try_from(number) == wanted;
        }
    }
    all
}

// Whether each value's number by `as` is the listed one.
fn are_cast<R: Copy + PartialEq, T>(rows: &[Row<R, T>]) -> bool {
    let mut all = true;
    for (number, _, cast) in rows {
        all &= number == cast;
    }
    all
}

// Whether each value gives its number.
fn are_given<R: Copy + PartialEq + From<T>, T: Copy>(rows: &[Row<R, T>]) -> bool {
    let mut all = true;
    for (number, value, _) in rows {
        all &= R::from(*value) == *number;
    }
    all
}

const MARIADB_BULK_INDICATORS: &[Row<u8, MariadbBulkIndicator>] = rows! {
    MariadbBulkIndicator as u8;
    0 => BULK_INDICATOR_NONE,
    1 => BULK_INDICATOR_NULL,
    2 => BULK_INDICATOR_DEFAULT,
    3 => BULK_INDICATOR_IGNORE,
};

const SESSION_STATE_TYPES: &[Row<u8, SessionStateType>] = rows! {
    SessionStateType as u8;
    0 => SESSION_TRACK_SYSTEM_VARIABLES,
    1 => SESSION_TRACK_SCHEMA,
    2 => SESSION_TRACK_STATE_CHANGE,
    3 => SESSION_TRACK_GTIDS,
    4 => SESSION_TRACK_TRANSACTION_CHARACTERISTICS,
    5 => SESSION_TRACK_TRANSACTION_STATE,
};

const GEOMETRY_TYPES: &[Row<u8, GeometryType>] = rows! {
    GeometryType as u8;
    0 => GEOM_GEOMETRY,
    1 => GEOM_POINT,
    2 => GEOM_LINESTRING,
    3 => GEOM_POLYGON,
    4 => GEOM_MULTIPOINT,
    5 => GEOM_MULTILINESTRING,
    6 => GEOM_MULTIPOLYGON,
    7 => GEOM_GEOMETRYCOLLECTION,
};

const COLUMN_TYPES: &[Row<u8, ColumnType>] = rows! {
    ColumnType as u8;
    0 => MYSQL_TYPE_DECIMAL,
    1 => MYSQL_TYPE_TINY,
    2 => MYSQL_TYPE_SHORT,
    3 => MYSQL_TYPE_LONG,
    4 => MYSQL_TYPE_FLOAT,
    5 => MYSQL_TYPE_DOUBLE,
    6 => MYSQL_TYPE_NULL,
    7 => MYSQL_TYPE_TIMESTAMP,
    8 => MYSQL_TYPE_LONGLONG,
    9 => MYSQL_TYPE_INT24,
    10 => MYSQL_TYPE_DATE,
    11 => MYSQL_TYPE_TIME,
    12 => MYSQL_TYPE_DATETIME,
    13 => MYSQL_TYPE_YEAR,
    14 => MYSQL_TYPE_NEWDATE,
    15 => MYSQL_TYPE_VARCHAR,
    16 => MYSQL_TYPE_BIT,
    17 => MYSQL_TYPE_TIMESTAMP2,
    18 => MYSQL_TYPE_DATETIME2,
    19 => MYSQL_TYPE_TIME2,
    20 => MYSQL_TYPE_TYPED_ARRAY,
    242 => MYSQL_TYPE_VECTOR,
    243 => MYSQL_TYPE_UNKNOWN,
    245 => MYSQL_TYPE_JSON,
    246 => MYSQL_TYPE_NEWDECIMAL,
    247 => MYSQL_TYPE_ENUM,
    248 => MYSQL_TYPE_SET,
    249 => MYSQL_TYPE_TINY_BLOB,
    250 => MYSQL_TYPE_MEDIUM_BLOB,
    251 => MYSQL_TYPE_LONG_BLOB,
    252 => MYSQL_TYPE_BLOB,
    253 => MYSQL_TYPE_VAR_STRING,
    254 => MYSQL_TYPE_STRING,
    255 => MYSQL_TYPE_GEOMETRY,
};

const ITEM_RESULTS: &[Row<i8, ItemResult>] = rows! {
    ItemResult as i8;
    -1 => INVALID_RESULT,
    0 => STRING_RESULT,
    1 => REAL_RESULT,
    2 => INT_RESULT,
    3 => ROW_RESULT,
    4 => DECIMAL_RESULT,
};

const COMMANDS: &[Row<u8, Command>] = rows! {
    Command as u8;
    0 => COM_SLEEP,
    1 => COM_QUIT,
    2 => COM_INIT_DB,
    3 => COM_QUERY,
    4 => COM_FIELD_LIST,
    5 => COM_CREATE_DB,
    6 => COM_DROP_DB,
    7 => COM_REFRESH,
    8 => COM_DEPRECATED_1,
    9 => COM_STATISTICS,
    10 => COM_PROCESS_INFO,
    11 => COM_CONNECT,
    12 => COM_PROCESS_KILL,
    13 => COM_DEBUG,
    14 => COM_PING,
    15 => COM_TIME,
    16 => COM_DELAYED_INSERT,
    17 => COM_CHANGE_USER,
    18 => COM_BINLOG_DUMP,
    19 => COM_TABLE_DUMP,
    20 => COM_CONNECT_OUT,
    21 => COM_REGISTER_SLAVE,
    22 => COM_STMT_PREPARE,
    23 => COM_STMT_EXECUTE,
    24 => COM_STMT_SEND_LONG_DATA,
    25 => COM_STMT_CLOSE,
    26 => COM_STMT_RESET,
    27 => COM_SET_OPTION,
    28 => COM_STMT_FETCH,
    29 => COM_DAEMON,
    30 => COM_BINLOG_DUMP_GTID,
    31 => COM_RESET_CONNECTION,
    32 => COM_END,
    250 => COM_STMT_BULK_EXECUTE,
};

// Whether each number converts as the rows say, each value's number by `as` is the listed one, and
// the error of the enum shows a number so.
fn is_enum<R, T, U>(alloc: Global, rows: &[Row<R, T>], unknown: U, row: (R, &str)) -> bool
where
    R: Copy + PartialEq + TryFrom<i16, Error: Drop>,
    T: Copy + PartialEq + TryFrom<R, Error: Copy + PartialEq + Display>,
    U: Copy + FnOnce(R) -> T::Error,
    requires { U.IsAlwaysCallable unknown }
{
    let (number, text) = row;
    let is_shown = shows(alloc, &unknown(number), text);
    is_shown & are_cast(rows) & are_converted::<R, T, U>(rows, unknown)
}

#[test]
fn each_enum_is_converted_by_its_numbers(rt: HostRuntime) -> Result<(), Fail> {
    let alloc = rt.alloc();
    let indicator = "Unknown MariaDB bulk execute parameter value indicator 4";
    let state = "Unknown session state type 6";
    let geometry = "Unknown geometry type 8";
    let column = "Unknown column type 244";
    let item = "Unknown item result type -2";
    all_hold(&[
        is_enum(
            alloc,
            MARIADB_BULK_INDICATORS,
            UnknownMariadbBulkIndicator,
            (4, indicator),
        ),
        is_enum(
            alloc,
            SESSION_STATE_TYPES,
            UnknownSessionStateType,
            (6, state),
        ),
        is_enum(alloc, GEOMETRY_TYPES, UnknownGeometryType, (8, geometry)),
        is_enum(alloc, COLUMN_TYPES, UnknownColumnType, (244, column)),
        is_enum(alloc, ITEM_RESULTS, UnknownItemResultType, (-2, item)),
        are_cast(COMMANDS),
    ])
}

#[test]
fn values_and_errors_give_their_numbers(_: HostRuntime) -> Result<(), Fail> {
    all_hold(&[
        are_given(MARIADB_BULK_INDICATORS),
        are_given(SESSION_STATE_TYPES),
        are_given(COLUMN_TYPES),
        u8::from(UnknownGeometryType(99)) == 99,
        u8::from(UnknownColumnType(99)) == 99,
        i8::from(UnknownItemResultType(99)) == 99,
    ])
}

// The seven tests of a type, by its number.
fn wanted_kinds(number: u8) -> [bool; 7] {
    [
        matches!(number, 0..=5 | 8 | 9 | 13 | 246),
        matches!(number, 15 | 252..=254),
        matches!(number, 247 | 248),
        number == 247,
        number == 248,
        number == 255,
        number == 242,
    ]
}

fn kinds(column_type: ColumnType) -> [bool; 7] {
    [
        column_type.is_numeric_type(),
        column_type.is_character_type(),
        column_type.is_enum_or_set_type(),
        column_type.is_enum_type(),
        column_type.is_set_type(),
        column_type.is_geometry_type(),
        column_type.is_vector_type(),
    ]
}

// Whether the seven tests of a row's type answer so.
fn has_its_kinds(row: &Row<u8, ColumnType>) -> bool {
    let (number, column_type, _) = *row;
    kinds(column_type) == wanted_kinds(number)
}

#[test]
fn kinds_of_column_types(rt: HostRuntime) {
    let mut all = true;
    for row in COLUMN_TYPES {
        all &= has_its_kinds(row);
    }
    assert!(rt; all);
}
