//! Types of columns.

ghost use Rattle.std.specs.Prelude.{◌≡◌, ◌↔◌, IsTrue};
ghost use Rattle.wire_const.specs.EnumNumbers.{column_type_number, ConvertsNumber, IsOneOf, numeric_types, character_types, enum_or_set_types};
ghost use Rattle.wire_const.specs.declared.column_type.ColumnType.TheVariants as kind;

use thiserror::Error;

/// The type of a column or of a parameter: one byte.
///
/// <https://dev.mysql.com/doc/dev/mysql-server/latest/field__types_8h.html>
#[derive(Clone, Copy, Debug, PartialEq, Eq, Hash)]
#[allow(non_camel_case_types)]
pub enum ColumnType {
    /// A decimal number, as before MySQL 5.0.
    MYSQL_TYPE_DECIMAL = 0,
    /// An integer of one byte: `TINYINT`.
    MYSQL_TYPE_TINY = 1,
    /// An integer of two bytes: `SMALLINT`.
    MYSQL_TYPE_SHORT = 2,
    /// An integer of four bytes: `INT`.
    MYSQL_TYPE_LONG = 3,
    /// A floating-point number of four bytes: `FLOAT`.
    MYSQL_TYPE_FLOAT = 4,
    /// A floating-point number of eight bytes: `DOUBLE`.
    MYSQL_TYPE_DOUBLE = 5,
    /// NULL.
    MYSQL_TYPE_NULL = 6,
    /// A moment, in UTC: `TIMESTAMP`.
    MYSQL_TYPE_TIMESTAMP = 7,
    /// An integer of eight bytes: `BIGINT`.
    MYSQL_TYPE_LONGLONG = 8,
    /// An integer of three bytes: `MEDIUMINT`.
    MYSQL_TYPE_INT24 = 9,
    /// A date: `DATE`.
    MYSQL_TYPE_DATE = 10,
    /// A time of day or a span: `TIME`.
    MYSQL_TYPE_TIME = 11,
    /// A date and a time: `DATETIME`.
    MYSQL_TYPE_DATETIME = 12,
    /// A year: `YEAR`.
    MYSQL_TYPE_YEAR = 13,
    /// A date of three bytes. Internal to the server.
    MYSQL_TYPE_NEWDATE = 14,
    /// A text up to a length: `VARCHAR`. Internal to the server, and in the binary log.
    MYSQL_TYPE_VARCHAR = 15,
    /// Bits: `BIT`.
    MYSQL_TYPE_BIT = 16,
    /// A moment with fractions of a second. Internal to the server, and in the binary log.
    MYSQL_TYPE_TIMESTAMP2 = 17,
    /// A date and a time with fractions of a second. Internal to the server, and in the binary log.
    MYSQL_TYPE_DATETIME2 = 18,
    /// A time with fractions of a second. Internal to the server, and in the binary log.
    MYSQL_TYPE_TIME2 = 19,
    /// An array. In the binary log alone.
    MYSQL_TYPE_TYPED_ARRAY = 20,
    /// A vector: `VECTOR`.
    MYSQL_TYPE_VECTOR = 242,
    /// No type is known.
    MYSQL_TYPE_UNKNOWN = 243,
    /// A JSON document: `JSON`.
    MYSQL_TYPE_JSON = 245,
    /// A decimal number: `DECIMAL`.
    MYSQL_TYPE_NEWDECIMAL = 246,
    /// One of a list of texts: `ENUM`.
    MYSQL_TYPE_ENUM = 247,
    /// Some of a list of texts: `SET`.
    MYSQL_TYPE_SET = 248,
    /// Bytes or a text with a length of one byte: `TINYBLOB`, `TINYTEXT`.
    MYSQL_TYPE_TINY_BLOB = 249,
    /// Bytes or a text with a length of three bytes: `MEDIUMBLOB`, `MEDIUMTEXT`.
    MYSQL_TYPE_MEDIUM_BLOB = 250,
    /// Bytes or a text with a length of four bytes: `LONGBLOB`, `LONGTEXT`.
    MYSQL_TYPE_LONG_BLOB = 251,
    /// Bytes or a text with a length of two bytes: `BLOB`, `TEXT`.
    MYSQL_TYPE_BLOB = 252,
    /// Bytes or a text up to a length: `VARCHAR`, `VARBINARY`.
    MYSQL_TYPE_VAR_STRING = 253,
    /// Bytes or a text of a fixed length: `CHAR`, `BINARY`.
    MYSQL_TYPE_STRING = 254,
    /// A geometry: `GEOMETRY` and its kinds.
    MYSQL_TYPE_GEOMETRY = 255,
}

/// The number is none of [`ColumnType`]'s.
#[derive(Clone, Copy, Debug, PartialEq, Eq, Hash, Error)]
#[error("Unknown column type {0}")]
pub struct UnknownColumnType(pub u8);

impl TryFrom<u8> for ColumnType {
    type Error = UnknownColumnType;

    ghost try_from_gives = { ConvertsNumber column_type_number (λ unknown. unknown.0) };

    fn try_from(number: u8) -> Result<Self, UnknownColumnType> {
        match number {
            0 => Ok(Self::MYSQL_TYPE_DECIMAL),
            1 => Ok(Self::MYSQL_TYPE_TINY),
            2 => Ok(Self::MYSQL_TYPE_SHORT),
            3 => Ok(Self::MYSQL_TYPE_LONG),
            4 => Ok(Self::MYSQL_TYPE_FLOAT),
            5 => Ok(Self::MYSQL_TYPE_DOUBLE),
            6 => Ok(Self::MYSQL_TYPE_NULL),
            7 => Ok(Self::MYSQL_TYPE_TIMESTAMP),
            8 => Ok(Self::MYSQL_TYPE_LONGLONG),
            9 => Ok(Self::MYSQL_TYPE_INT24),
            10 => Ok(Self::MYSQL_TYPE_DATE),
            11 => Ok(Self::MYSQL_TYPE_TIME),
            12 => Ok(Self::MYSQL_TYPE_DATETIME),
            13 => Ok(Self::MYSQL_TYPE_YEAR),
            14 => Ok(Self::MYSQL_TYPE_NEWDATE),
            15 => Ok(Self::MYSQL_TYPE_VARCHAR),
            16 => Ok(Self::MYSQL_TYPE_BIT),
            17 => Ok(Self::MYSQL_TYPE_TIMESTAMP2),
            18 => Ok(Self::MYSQL_TYPE_DATETIME2),
            19 => Ok(Self::MYSQL_TYPE_TIME2),
            20 => Ok(Self::MYSQL_TYPE_TYPED_ARRAY),
            242 => Ok(Self::MYSQL_TYPE_VECTOR),
            243 => Ok(Self::MYSQL_TYPE_UNKNOWN),
            245 => Ok(Self::MYSQL_TYPE_JSON),
            246 => Ok(Self::MYSQL_TYPE_NEWDECIMAL),
            247 => Ok(Self::MYSQL_TYPE_ENUM),
            248 => Ok(Self::MYSQL_TYPE_SET),
            249 => Ok(Self::MYSQL_TYPE_TINY_BLOB),
            250 => Ok(Self::MYSQL_TYPE_MEDIUM_BLOB),
            251 => Ok(Self::MYSQL_TYPE_LONG_BLOB),
            252 => Ok(Self::MYSQL_TYPE_BLOB),
            253 => Ok(Self::MYSQL_TYPE_VAR_STRING),
            254 => Ok(Self::MYSQL_TYPE_STRING),
            255 => Ok(Self::MYSQL_TYPE_GEOMETRY),
            other => Err(UnknownColumnType(other)),
        }
    }
}

impl From<ColumnType> for u8 {
    ghost from_gives = { λ column_type number. number ≡ column_type_number column_type };

    fn from(column_type: ColumnType) -> u8 {
        column_type as u8
    }
}

impl From<UnknownColumnType> for u8 {
    ghost from_gives = { λ unknown number. number ≡ unknown.0 };

    fn from(unknown: UnknownColumnType) -> u8 {
        unknown.0
    }
}

impl ColumnType {
    /// Whether the values are numbers, a year among them.
    pub fn is_numeric_type(&self) -> bool
        ensures { IsTrue result ↔ IsOneOf numeric_types self.now }
    {
        matches!(
            self,
            Self::MYSQL_TYPE_TINY
                | Self::MYSQL_TYPE_SHORT
                | Self::MYSQL_TYPE_INT24
                | Self::MYSQL_TYPE_LONG
                | Self::MYSQL_TYPE_LONGLONG
                | Self::MYSQL_TYPE_DECIMAL
                | Self::MYSQL_TYPE_NEWDECIMAL
                | Self::MYSQL_TYPE_FLOAT
                | Self::MYSQL_TYPE_DOUBLE
                | Self::MYSQL_TYPE_YEAR
        )
    }

    /// Whether the values are bytes or texts of no fixed form.
    pub fn is_character_type(&self) -> bool
        ensures { IsTrue result ↔ IsOneOf character_types self.now }
    {
        matches!(
            self,
            Self::MYSQL_TYPE_STRING
                | Self::MYSQL_TYPE_VAR_STRING
                | Self::MYSQL_TYPE_VARCHAR
                | Self::MYSQL_TYPE_BLOB
        )
    }

    /// Whether the values are taken from a list of texts.
    pub fn is_enum_or_set_type(&self) -> bool
        ensures { IsTrue result ↔ IsOneOf enum_or_set_types self.now }
    {
        matches!(self, Self::MYSQL_TYPE_ENUM | Self::MYSQL_TYPE_SET)
    }

    /// Whether the type is `ENUM`.
    pub fn is_enum_type(&self) -> bool
        ensures { IsTrue result ↔ (self.now ≡ kind.MYSQL_TYPE_ENUM) }
    {
        matches!(self, Self::MYSQL_TYPE_ENUM)
    }

    /// Whether the type is `SET`.
    pub fn is_set_type(&self) -> bool
        ensures { IsTrue result ↔ (self.now ≡ kind.MYSQL_TYPE_SET) }
    {
        matches!(self, Self::MYSQL_TYPE_SET)
    }

    /// Whether the type is a geometry.
    pub fn is_geometry_type(&self) -> bool
        ensures { IsTrue result ↔ (self.now ≡ kind.MYSQL_TYPE_GEOMETRY) }
    {
        matches!(self, Self::MYSQL_TYPE_GEOMETRY)
    }

    /// Whether the type is a vector.
    pub fn is_vector_type(&self) -> bool
        ensures { IsTrue result ↔ (self.now ≡ kind.MYSQL_TYPE_VECTOR) }
    {
        matches!(self, Self::MYSQL_TYPE_VECTOR)
    }
}
