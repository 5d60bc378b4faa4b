// Readers of numbers, in both forms: on no byte, on fewer than are eaten, on as many, and on more.

use mysql_wire::io::ParseBuf;
use std::test::Fail;
use test_support::facts::{all_hold, same};
use test_support::fields::last;
use test_support::reference::between;

/// Readers of numbers, by the width of the number in bytes.
pub trait Readers {
    type Number: Copy + PartialEq;

    // The form that says where bytes are missing.
    fn checked(width: usize, buf: &mut ParseBuf<'_>) -> Option<Self::Number>;

    // The form that wants the bytes to be there: it is called where they are.
    fn plain(width: usize, buf: &mut ParseBuf<'_>) -> Option<Self::Number>;
}

/// A width, bytes that begin with a number of that width, and the number.
pub type Row<'a, N> = (usize, &'a [u8], N);

// Whether both forms answer this, and leave this many bytes. Where there is no number, the plain form
// isn't called.
fn answers<R: Readers>(width: usize, input: &[u8], wanted: Option<R::Number>, left: usize) -> bool {
    let mut buf = ParseBuf(input);
    let mut other = buf;
    let checked = R::checked(width, &mut buf);
    let plain = R::plain(width, &mut other);
    let rest = last(input, left);
    let mut all = (checked == wanted) & same(buf.0, rest);
    all &= plain == wanted;
    all & (plain.is_none() | same(other.0, rest))
}

/// Whether both forms read the row's number, whatever follows, and nothing from fewer bytes, of
/// which this many at most are eaten.
pub fn is_read<R: Readers>(row: &Row<'_, R::Number>, eaten: usize) -> bool {
    let (width, bytes, number) = *row;
    let mut all = width <= bytes.len();
    for len in 0..bytes.len() + 1 {
        let input = between(bytes, 0, len);
        all &= if len < width {
            answers::<R>(width, input, None, len.saturating_sub(eaten))
        } else {
            answers::<R>(width, input, Some(number), len - width)
        };
    }
    all
}

/// Whether each row's number is read so.
pub fn are_read<R: Readers>(rows: &[Row<'_, R::Number>], eaten: usize) -> bool {
    let mut all = true;
    for row in rows {
        all &= is_read::<R>(row, eaten);
    }
    all
}

// With a sign the most significant byte first, and the widest. The Rust crate's own cases (in
// `packet_tests`) have those without a sign, the types of fields the least significant byte first.
#[test]
fn numbers_are_read(_: HostRuntime) -> Result<(), Fail> {
    let mut short = ParseBuf(b"\x8f");
    let mut widest = ParseBuf(b"\0\x01\x02\x03\x04\x05\x06\x07\x08\x09\x0a\x0b\x0c\x0d\x0e");
    all_hold(&[
        ParseBuf(b"\x8f\x84").eat_i16_be() == -0x707c,
        ParseBuf(b"\x01\x11\x21").eat_i24_be() == 0x1_1121,
        ParseBuf(b"\x80\0\0").eat_i24_be() == -8388608,
        ParseBuf(b"\x8f\x84\x99\xae\xa3\xb8\xcd").eat_i56_be() == -0x70_7b66_515c_4733,
        ParseBuf(b"\xaa\x95\x80\x8b\xf6\xe1\xec\xd7\xc2\xcd\xb8\xa3\xae\x99\x84\x8f").eat_i128_le()
            == -0x707b_6651_5c47_323d_2813_1e09_747f_6a56,
        ParseBuf(b"\x8f\x84\x99\xae\xa3\xb8\xcd\xc2\xd7\xec\xe1\xf6\x8b\x80\x95\xaa").eat_u128_be()
            == 0x8f84_99ae_a3b8_cdc2_d7ec_e1f6_8b80_95aa,
        short.checked_eat_i16_be().is_none() & (short.len() == 1),
        widest.checked_eat_u128_le().is_none() & (widest.len() == 15),
    ])
}
