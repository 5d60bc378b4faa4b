// What the calls of `RawBytes` answer of a text in hand: how many bytes of it are written, which they
// are, whether all of it is some bytes, and its string. Its copies are tested by `facade_tests`, with
// each request for memory refused.

use mysql_wire::misc::raw::RawBytes;
use mysql_wire::misc::raw::bytes::{BareBytes, BytesRepr, EofBytes};
use std::alloc::Global;
use std::borrow::CowSlice;
use std::test::Fail;
use test_support::facts::{all_hold, same};

// Whether a text holds all of these bytes, and shows the first of them, which are those or fewer.
fn is_cut<T: BytesRepr>(text: &RawBytes<'_, T>, whole: &[u8], bytes: &[u8]) -> bool {
    let mut all = text.len() == bytes.len();
    all &= text.is_empty() == bytes.is_empty();
    all &= same(text.as_bytes(), bytes);
    all &= text.eq_bytes(whole);
    all & (text.eq_bytes(bytes) == (whole.len() == bytes.len()))
}

// Whether a text is this string.
fn is_string<T: BytesRepr>(alloc: Global, text: &RawBytes<'_, T>, string: &str) -> bool {
    match text.as_str(alloc) {
        Ok(shown) => shown.as_str() == string,
        Err(_) => false,
    }
}

// Whether a text shows these bytes of all that it holds, and this string.
fn is_shown<T: BytesRepr>(alloc: Global, whole: &[u8], bytes: &[u8], string: &str) -> bool {
    let text = RawBytes::<T>::new(CowSlice::Borrowed(whole));
    is_cut(&text, whole, bytes) & is_string(alloc, &text, string)
}

// What is cut away is not looked at, and what is no UTF-8 is replaced in a string.
#[test]
fn a_text_shows_what_is_written_of_it(rt: HostRuntime) -> Result<(), Fail> {
    let alloc = rt.alloc();
    let polish = "zażółć";
    all_hold(&[
        is_shown::<BareBytes<2>>(alloc, b"abc", b"ab", "ab"),
        is_shown::<BareBytes<0>>(alloc, b"abc", b"", ""),
        is_shown::<BareBytes<2>>(alloc, b"ab\xff", b"ab", "ab"),
        is_shown::<EofBytes>(alloc, polish.as_bytes(), polish.as_bytes(), polish),
        is_shown::<EofBytes>(alloc, b"a\xffb", b"a\xffb", "a\u{fffd}b"),
    ])
}
