// Values in their binary form that are refused. Rows of `recording_tests` show that the others are
// written back, and refused where they are cut short, `scripts/dump_lines.py` what each is.

use ColumnType::{
    MYSQL_TYPE_DATE, MYSQL_TYPE_DATETIME2, MYSQL_TYPE_NEWDATE, MYSQL_TYPE_STRING, MYSQL_TYPE_TIME,
    MYSQL_TYPE_UNKNOWN,
};
use mysql_wire::constants::ColumnType;
use mysql_wire::io::InvalidReason;
use mysql_wire_statements::binary_value::BinaryValue;
use std::alloc::Global;
use test_support::answers::Answer;
use test_support::fields::stops;

const UNKNOWN: Answer = Answer::Invalid(InvalidReason::UnknownValue);

// Dates and times of other lengths, texts whose length is none or that are cut short, and types
// that are never sent: why each is refused, and how many bytes are left.
const REFUSED: &[(ColumnType, &[u8], Answer, usize)] = &[
    (MYSQL_TYPE_DATE, b"\x05\xda\x07\x0a\x11\0", UNKNOWN, 6),
    (MYSQL_TYPE_DATE, b"\x0c", UNKNOWN, 1),
    (MYSQL_TYPE_TIME, b"\x07\x01\x78\0\0\0\x13\x1b", UNKNOWN, 8),
    (MYSQL_TYPE_TIME, b"\x04\x01", UNKNOWN, 2),
    (MYSQL_TYPE_STRING, b"\xfb", Answer::NoInteger, 1),
    (MYSQL_TYPE_STRING, b"\xff\0", Answer::NoInteger, 2),
    (MYSQL_TYPE_STRING, b"\x03fo", Answer::UnexpectedEof, 2),
    (MYSQL_TYPE_UNKNOWN, b"\x01a", UNKNOWN, 2),
    (MYSQL_TYPE_NEWDATE, b"\x01a", UNKNOWN, 2),
    (MYSQL_TYPE_DATETIME2, b"\0", UNKNOWN, 1),
];

pub fn are_refused(alloc: Global) -> bool {
    let mut all = true;
    for row in REFUSED {
        let (column_type, bytes, fault, left) = *row;
        all &= stops::<BinaryValue<'_>, ColumnType, Global>(alloc, column_type, bytes, fault, left);
    }
    all
}
