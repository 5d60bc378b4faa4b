//! The caller that measures a stream, run.

use mysql_wire::proto::codec::SpanError;
use mysql_wire_examples::measured::measure;
use std::test::Fail;
use test_support::facts::{no_row, wrong_row};

// Pieces of a stream, the limit of a packet, and the packets and payload bytes that came.
type Row = (
    &'static [&'static [u8]],
    usize,
    Result<(u64, u64), SpanError>,
);

const ROWS: &[Row] = &[
    (&[], 0, Ok((0, 0))),
    (&[b"\x03\0\0\0abc\0\0\0\x01"], 3, Ok((2, 3))),
    // A packet cut within its header and its payload, and one that is not whole.
    (
        &[b"\x03\0", b"\0\0a", b"", b"bc\x02\0\0\x01d"],
        3,
        Ok((1, 4)),
    ),
    (
        &[b"\x03\0\0\0abc\x04", b"\0\0\x01d"],
        3,
        Err(SpanError::PacketTooLarge),
    ),
    (
        &[b"\x03\0\0\0abc\x01\0\0\x02d"],
        3,
        Err(SpanError::PacketsOutOfSync),
    ),
];

fn is_measured(_: (), row: Row) -> bool {
    let measured = match measure(row.1, row.0) {
        Ok(size) => Ok((size.packets, size.bytes)),
        Err(error) => Err(error),
    };
    measured == row.2
}

#[test]
fn streams_are_measured() -> Result<(), Fail> {
    no_row(wrong_row((), ROWS, is_measured))
}
