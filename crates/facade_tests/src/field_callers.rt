//! The callers of fields that take memory, run.

use mysql_wire_examples::field_callers::{put_named, put_schema, read_named, write_name};
use std::alloc::Global;
use std::test::Fail;
use test_support::facts::{all_hold, same};

fn is_named(alloc: Global) -> bool {
    let named = match read_named(alloc, b"\x01\x02\x02id") {
        Ok((id, name)) => (id.0 == 0x0201) & same(name.as_bytes(), b"id"),
        Err(_) => false,
    };
    named & read_named(alloc, b"\x01\x02\x03id").is_err()
}

fn are_put(buf: &mut Vec<u8>) -> bool {
    let mut put = put_schema(buf, 0x030201, b"ab").is_ok();
    put &= same(buf.as_slice(), b"\x01\x02\x03\x02ab");
    put &= matches!(write_name(buf, b"abc"), Ok(4));
    put &= same(buf.as_slice(), b"\x01\x02\x03\x02ab\x03abc");
    put &= put_named(buf, 0x0201, b"id").is_ok();
    put & same(buf.as_slice(), b"\x01\x02\x03\x02ab\x03abc\x01\x02\x02id")
}

#[test]
fn fields_are_put_and_read(rt: HostRuntime) -> Result<(), Fail> {
    let mut buf = Vec::new(rt.alloc());
    all_hold(&[are_put(&mut buf), is_named(rt.alloc())])
}
