//! Representations and records of one's own, run.

use mysql_wire::io::ParseBuf;
use mysql_wire::misc::raw::bytes::RawBytes;
use mysql_wire::misc::raw::int::RawInt;
use mysql_wire::proto::MySerialize;
use mysql_wire_examples::own_fields::{BeU16, U16Bytes, read_name, read_port};
use mysql_wire_examples::parameters::{Parameter, put_parameters, read_parameters};
use std::alloc::Global;
use std::test::Fail;
use test_support::facts::{all_hold, ensure, same};

// Whether a port and a name are read, and none of them where a byte is missing.
fn is_own(alloc: Global, bytes: &[u8]) -> bool {
    let mut buf = ParseBuf(bytes);
    let port = match read_port(alloc, &mut buf) {
        Ok(port) => port.0,
        Err(_) => 0,
    };
    let name = match read_name(alloc, &mut buf) {
        Ok(name) => same(name.as_bytes(), b"id"),
        Err(_) => false,
    };
    let is_cut = read_port(alloc, &mut ParseBuf(b"\x12")).is_err()
        & read_name(alloc, &mut ParseBuf(b"\0\x02i")).is_err();
    (port == 0x1234) & name & buf.is_empty() & is_cut
}

// Whether just as many bytes of a text stand after their length as two bytes can state.
fn is_bounded(alloc: Global) -> bool {
    match Vec::from_elem(alloc, b'a', 65536) {
        Ok(long) => RawBytes::<U16Bytes>::from(long.as_slice()).len() == 65535,
        Err(_) => false,
    }
}

#[test]
fn own_fields_are_written_and_read(rt: HostRuntime) -> Result<(), Fail> {
    let mut buf = Vec::new(rt.alloc());
    let port = RawInt::<BeU16>::new(0x1234);
    let name = RawBytes::<U16Bytes>::from(b"id".as_slice());
    let mut own = port.serialize(&mut buf).is_ok() & name.serialize(&mut buf).is_ok();
    own &= same(buf.as_slice(), b"\x12\x34\0\x02id");
    own &= is_own(rt.alloc(), buf.as_slice()) & is_bounded(rt.alloc());
    ensure(own, "a port and a name")
}

// A number of two bytes and a name after its length.
fn parameter<'a>(type_and_flags: u16, name: &'a [u8]) -> Parameter<'a> {
    Parameter {
        type_and_flags: RawInt::new(type_and_flags),
        name: RawBytes::from(name),
    }
}

// Whether this many are these, or aren't there; and this many bytes are left.
fn are_read(
    alloc: Global,
    bytes: &[u8],
    count: usize,
    parameters: Option<&[Parameter<'_>]>,
    left: usize,
) -> bool {
    let mut buf = ParseBuf(bytes);
    let is_so = match read_parameters(alloc, count, &mut buf) {
        Ok(list) => parameters == Some(list.0.as_slice()),
        Err(_) => parameters.is_none(),
    };
    is_so & (buf.len() == left)
}

#[test]
fn parameters_are_written_and_read(rt: HostRuntime) -> Result<(), Fail> {
    let alloc = rt.alloc();
    let parameters = [parameter(0x8003, b"id"), parameter(0xfd, b"")];
    let bytes = b"\x03\x80\x02id\xfd\0\0".as_slice();
    let mut buf = Vec::new(alloc);
    let is_put = put_parameters(&parameters, &mut buf).is_ok();
    all_hold(&[
        is_put & same(buf.as_slice(), bytes),
        are_read(alloc, bytes, 2, Some(&parameters), 0),
        are_read(
            alloc,
            b"\x03\x80\x02id\xfd\0\0\xaa",
            2,
            Some(&parameters),
            1,
        ),
        are_read(alloc, b"\xaa", 0, Some(&[]), 1),
        are_read(alloc, bytes, 3, None, 0),
        are_read(alloc, b"\x03\x80\x02i\xaa", 2, None, 0),
        are_read(alloc, b"\x03", 1, None, 1),
    ])
}
