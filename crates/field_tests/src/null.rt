// The end of a text at its first zero, wherever that stands.

use crate::io::parse::eats_null_str;
use mysql_wire::io::InvalidReason;
use mysql_wire::misc::raw::RawBytes;
use mysql_wire::misc::raw::bytes::NullBytes;
use mysql_wire::proto::MySerialize;
use std::alloc::Global;
use test_support::answers::Answer;
use test_support::facts::same;
use test_support::fields::{gives, stops};
use test_support::reference::{between, first_zero};

// Whether the text up to its first zero is written, and a zero.
fn is_written(buf: &mut Vec<u8>, text: &[u8], zero: usize) -> bool {
    buf.clear();
    let is_put = RawBytes::<NullBytes>::from(text).serialize(buf).is_ok();
    let bytes = buf.as_slice();
    let is_end = (first_zero(bytes) == zero) & (bytes.len() == zero.saturating_add(1));
    is_put & is_end & same(between(bytes, 0, zero), between(text, 0, zero))
}

// Whether the text before its first zero is read, and this is left after that; where there is no
// zero, whether that is said and nothing is eaten.
fn is_read(alloc: Global, input: &[u8], text: &[u8], left: &[u8]) -> bool {
    if text.len() == input.len() {
        let no_zero = Answer::Invalid(InvalidReason::NoNullTerminator);
        stops::<RawBytes<'_, NullBytes>, (), Global>(alloc, (), input, no_zero, input.len())
    } else {
        gives(
            alloc,
            (),
            input,
            &RawBytes::<NullBytes>::from(text),
            left.len(),
        )
    }
}

// Whether the text ends at the zero that a plain loop finds in it, which stands at this place, by
// each of those that look for it.
fn ends_at(alloc: Global, buf: &mut Vec<u8>, input: &[u8], place: usize) -> bool {
    let zero = first_zero(input);
    let text = between(input, 0, zero);
    let left = between(input, zero.saturating_add(1), input.len());
    let is_eaten = eats_null_str(input, text, left);
    let is_read = is_read(alloc, input, text, left);
    (zero == place) & is_eaten & is_read & is_written(buf, input, zero)
}

// One zero at each place, and none; and two, of which the first ends the text.
#[test]
fn the_first_zero_is_found(rt: HostRuntime) {
    let mut buf = Vec::new(rt.alloc());
    let mut all = true;
    for len in 0..301usize {
        let mut bytes = [b'a'; 300];
        for zero in 0..len {
            bytes[zero] = 0;
            all &= ends_at(rt.alloc(), &mut buf, &bytes[..len], zero);
            bytes[zero] = b'a';
        }
        all &= ends_at(rt.alloc(), &mut buf, &bytes[..len], len);
    }
    for zero in 0..299usize {
        let mut bytes = [b'a'; 300];
        bytes[zero] = 0;
        bytes[299] = 0;
        all &= ends_at(rt.alloc(), &mut buf, &bytes, zero);
    }
    assert!(rt; all);
}
