// Integers of the serialization library.

use crate::io::numbers::Row;
use mysql_wire::io::ParseBuf;
use mysql_wire::misc::{read_varlen_uint, varlen_uint_size, write_varlen_uint};
use std::alloc::Global;
use test_support::answers::{Answer, answered};
use test_support::facts::same;
use test_support::reference::between;

// Whether the row's number is read, whatever follows, and from fewer bytes none is, and none is
// eaten.
fn is_read(row: &Row<'_, u64>) -> bool {
    let (width, bytes, number) = *row;
    let mut all = width <= bytes.len();
    for len in 0..bytes.len() + 1 {
        let mut buf = ParseBuf(between(bytes, 0, len));
        let read = answered(read_varlen_uint(&mut buf));
        let wanted = if len < width {
            (Err(Answer::UnexpectedEof), len)
        } else {
            (Ok(number), len - width)
        };
        all &= (read, buf.len()) == wanted;
    }
    all
}

// Whether the row's number is written as its bytes, and read back from them, whatever follows, and
// from nothing shorter.
fn comes_back(alloc: Global, row: &Row<'_, u64>) -> bool {
    let (width, bytes, number) = *row;
    let mut buf = Vec::new(alloc);
    let is_put = write_varlen_uint(&mut buf, number).is_ok();
    let is_sized = varlen_uint_size(number) == width;
    is_put & is_sized & same(buf.as_slice(), between(bytes, 0, width)) & is_read(row)
}

const WRITTEN: &[Row<u64>] = &[
    (1, b"\0\xff", 0),
    (1, b"\x0a\xff", 5),
    (1, b"\xfe\xff", 127),
    (2, b"\x01\x02\xff", 128),
    (2, b"\xfd\xff\xff", 16383),
    (3, b"\x03\0\x02\xff", 16384),
    (8, b"\x7f\xff\xff\xff\xff\xff\xff\xff\xff", (1 << 56) - 1),
    (9, b"\xff\0\0\0\0\0\0\0\x01\xff", 1 << 56),
    (9, b"\xff\xff\xff\xff\xff\xff\xff\xff\xff\xff", u64::MAX),
];

const LONGER: &[Row<u64>] = &[
    (2, b"\x15\0", 5),
    (9, b"\xff\x05\0\0\0\0\0\0\0", 5),
    (2, b"\x01\0", 0),
];

#[test]
fn varlen_uints_are_written_and_read(rt: HostRuntime) {
    let mut all = true;
    for row in WRITTEN {
        all &= comes_back(rt.alloc(), row);
    }
    for row in LONGER {
        all &= is_read(row);
    }
    assert!(rt; all);
}
