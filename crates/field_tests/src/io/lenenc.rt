// Numbers whose length is in their first byte, and texts after their length: put into buffers, and
// read from buffers.

use crate::io::numbers::{Readers, Row, are_read, is_read};
use bytes::{BufMut, BytesMut};
use mysql_wire::io::{BufMutExt, ParseBuf, WireError, WriteMysqlExt};
use mysql_wire::misc::{lenenc_int_len, lenenc_str_len};
use std::alloc::Global;
use std::convert::AsSlice;
use std::test::Fail;
use test_support::answers::Answer;
use test_support::facts::{all_hold, are_parts, same, same_if_any};
use test_support::fields::last;
use test_support::reference::between;

// ---- length-encoded integers

/// The readers of length-encoded integers. Of one that is cut short, the first byte is eaten.
pub struct Lenenc;

impl Readers for Lenenc {
    type Number = u64;

    fn checked(_: usize, buf: &mut ParseBuf<'_>) -> Option<u64> {
        buf.checked_eat_lenenc_int()
    }

    fn plain(_: usize, buf: &mut ParseBuf<'_>) -> Option<u64> {
        let mut same = *buf;
        same.checked_eat_lenenc_int()?;
        Some(buf.eat_lenenc_int())
    }
}

/// Numbers at the ends of the forms, each as it is written, and a byte after it.
pub const WRITTEN: &[Row<u64>] = &[
    (1, b"\0\xfe", 0),
    (1, b"\x01\xfe", 1),
    (1, b"\x02\xfe", 2),
    (1, b"\x05\xfe", 5),
    (1, b"\xfa\xfe", 250),
    (3, b"\xfc\xfb\0\xfe", 251),
    (3, b"\xfc\xfc\0\xfe", 252),
    (3, b"\xfc\x2c\x01\xfe", 300),
    (3, b"\xfc\xff\xff\xfe", 65535),
    (4, b"\xfd\0\0\x01\xfe", 65536),
    (4, b"\xfd\x01\0\x01\xfe", 65537),
    (4, b"\xfd\x70\x11\x01\xfe", 70000),
    (4, b"\xfd\xff\xff\xff\xfe", 16777215),
    (9, b"\xfe\0\0\0\x01\0\0\0\0\xfe", 16777216),
    (9, b"\xfe\x01\0\0\x01\0\0\0\0\xfe", 16777217),
    (9, b"\xfe\0\0\0\0\0\x01\0\0\xfe", 1 << 40),
    (9, b"\xfe\xfe\xff\xff\xff\xff\xff\xff\xff\xfe", u64::MAX - 1),
    (9, b"\xfe\xff\xff\xff\xff\xff\xff\xff\xff\xfe", u64::MAX),
];

// The marks, which slices take as zero.
const MARKS: &[Row<u64>] = &[(1, b"\xfb", 0), (1, b"\xfb\x01", 0), (1, b"\xff\x01", 0)];

// Whether all was written, and this count told.
fn tells(written: Result<u64, WireError>, count: usize) -> bool {
    match written {
        Ok(told) => told == count as u64,
        Err(_) => false,
    }
}

// Whether the number is written as these bytes, whose count is told.
fn is_written(alloc: Global, bytes: &[u8], number: u64) -> bool {
    let mut out = Vec::new(alloc);
    tells(out.write_lenenc_int(number), bytes.len()) & same(out.as_slice(), bytes)
}

// Whether the row's number is put and written as its bytes, whose length is known beforehand, and
// leaves all of them or none in a buffer of each size.
fn is_spelled(alloc: Global, row: &Row<'_, u64>) -> bool {
    let (width, bytes, number) = *row;
    let bytes = between(bytes, 0, width);
    let put = Put::Number(number);
    let mut all = (bytes.len() == width) & (lenenc_int_len(number) == width as u64);
    all &= is_put(BytesMut::new(alloc), put, bytes, b"");
    all &= is_put_in_each(alloc, put, bytes, b"");
    all & is_written(alloc, bytes, number)
}

// ---- numbers of a fixed width, and texts

fn is_done(answer: Result<(), WireError>) -> bool {
    answer.is_ok()
}

const PUT: &[u8] = b"\x04\x03\x02\
    \0\0\x80\
    \xfe\xff\xff\
    \x01\0\0\0\0\0\
    \x01\0\0\0\0\0\0\
    \xfe\xff\xff\xff\xff\xff\xff\
    \x01a\x01b\x01\0\0\0c\xff";

// Whether numbers of a fixed width, and texts after their length, are put, each as it stands in
// `PUT`.
fn are_done<B: BufMutExt>(buf: &mut B, long: &[u8]) -> bool {
    let mut all = is_done(buf.put_u24_le(0x01020304));
    all &= is_done(buf.put_i24_le(8388608));
    all &= is_done(buf.put_i24_le(-2));
    all &= is_done(buf.put_u48_le(1));
    all &= is_done(buf.put_u56_le(1));
    all &= is_done(buf.put_i56_le(-2));
    all &= is_done(buf.put_lenenc_str(b"a"));
    all &= is_done(buf.put_u8_str(b"b"));
    all &= is_done(buf.put_u32_str(b"c"));
    all & is_done(buf.put_u8_str(long))
}

// Whether these are put one after the other, and of a text whose length its byte can't say, as
// much as that says.
fn are_put(alloc: Global, long: &[u8]) -> bool {
    let mut buf = Vec::new(alloc);
    are_done(&mut buf, long) & are_parts(buf.as_slice(), [PUT, last(long, 255), b""])
}

// What the length of a text is.
#[derive(Clone, Copy)]
enum Length {
    Lenenc,
    OneByte,
    FourBytes,
}

// An input, the text that it begins with, and what is left.
type Eaten<'a> = (Length, &'a [u8], Option<&'a [u8]>, &'a [u8]);

const EATEN: &[Eaten] = &[
    (Length::Lenenc, b"\x02abc", Some(b"ab"), b"c"),
    (Length::OneByte, b"\x01de", Some(b"d"), b"e"),
    (Length::FourBytes, b"\x01\0\0\0fg", Some(b"f"), b"g"),
    (Length::Lenenc, b"\x03ab", None, b"ab"),
    (
        Length::Lenenc,
        b"\xfe\xff\xff\xff\xff\xff\xff\xff\xffa",
        None,
        b"a",
    ),
    (Length::OneByte, b"\x03ab", None, b"ab"),
    (Length::FourBytes, b"\x03\0\0\0ab", None, b"ab"),
    (Length::FourBytes, b"\x03\0\0", None, b"\x03\0\0"),
];

// Whether a form that left these bytes ate the row's text.
fn ate(row: &Eaten, text: Option<&[u8]>, left: &[u8]) -> bool {
    same_if_any(text, row.2) & same(left, row.3)
}

// Whether both forms eat the text: the one that says where bytes are missing, and the one that
// wants the text to be there, where it is.
fn is_eaten(row: &Eaten) -> bool {
    let (length, input, _, _) = *row;
    let mut buf = ParseBuf(input);
    let mut other = buf;
    let text = match length {
        Length::Lenenc => buf.checked_eat_lenenc_str(),
        Length::OneByte => buf.checked_eat_u8_str(),
        Length::FourBytes => buf.checked_eat_u32_str(),
    };
    let all = ate(row, text, buf.0);
    if text.is_none() {
        return all;
    }
    let plain = match length {
        Length::Lenenc => other.eat_lenenc_str(),
        Length::OneByte => other.eat_u8_str(),
        Length::FourBytes => other.eat_u32_str(),
    };
    all & ate(row, Some(plain), other.0)
}

// ---- buffers, bounded and not

// A number, or a text after its length.
#[derive(Clone, Copy)]
enum Put<'a> {
    Number(u64),
    Text(&'a [u8]),
}

// Whether all was put, or else no memory is the answer.
fn is_all_put(answer: Result<(), WireError>, is_whole: bool) -> bool {
    match answer {
        Ok(()) => is_whole,
        Err(error) => !is_whole & (Answer::of_wire(&error) == Answer::OutOfMemory),
    }
}

// Whether all is put, or else no memory is the answer.
fn puts<B: BufMutExt>(buf: &mut B, put: Put<'_>, is_whole: bool) -> bool {
    match put {
        Put::Number(number) => is_all_put(buf.put_lenenc_int(number), is_whole),
        Put::Text(text) => is_all_put(buf.put_lenenc_str(text), is_whole),
    }
}

// Whether a buffer that was empty holds a number, or a length, and a text after a put.
fn is_put<B>(mut buf: B, put: Put<'_>, number: &[u8], text: &[u8]) -> bool
where
    B: BufMutExt + AsSlice<u8> + Drop,
{
    puts(&mut buf, put, true) & are_parts(buf.as_slice(), [number, text, b""])
}

// Whether a put in so much room of an empty buffer leaves all where there is room for that, and
// else no memory is the answer: the number, or the length, is left, where there is room for it, and
// else nothing.
fn leaves<B>(buf: B, put: Put<'_>, number: &[u8], text: &[u8], room: usize) -> bool
where
    B: BufMut + AsSlice<u8> + Drop,
{
    let whole = number.len().saturating_add(text.len());
    let mut buf = buf.limit(room);
    let is_answered = puts(&mut buf, put, room >= whole);
    let number = if room >= number.len() { number } else { b"" };
    let text = if room >= whole { text } else { b"" };
    is_answered & are_parts(buf.into_inner().as_slice(), [number, text, b""])
}

// Whether a put leaves a number, or a length, and a text, or so much of them in a buffer of each
// size.
fn is_put_in_each(alloc: Global, put: Put<'_>, number: &[u8], text: &[u8]) -> bool {
    let whole = number.len().saturating_add(text.len());
    let mut all = is_put(Vec::new(alloc), put, number, text);
    for room in 0..whole.saturating_add(11) {
        all &= leaves(Vec::new(alloc), put, number, text, room);
    }
    all
}

// How long a text is, and what is written of that.
type Text<'a> = (usize, &'a [u8]);

const TEXTS: &[Text] = &[
    (0, b"\0"),
    (1, b"\x01"),
    (3, b"\x03"),
    (250, b"\xfa"),
    (251, b"\xfc\xfb\0"),
    (300, b"\xfc\x2c\x01"),
];

// Whether the first letters, as many as the row says, are put after their length, which is known
// beforehand, or so much of them in a buffer of each size.
fn is_text_put(alloc: Global, letters: &[u8], row: &Text<'_>) -> bool {
    let (len, length) = *row;
    let text = between(letters, 0, len);
    let mut all = (text.len() == len) & (lenenc_int_len(len as u64) == length.len() as u64);
    all &= lenenc_str_len(text) == length.len().saturating_add(len) as u64;
    all & is_put_in_each(alloc, Put::Text(text), length, text)
}

// Whether each number is put and written, and read by both forms.
fn are_numbers(alloc: Global) -> bool {
    let mut all = are_read::<Lenenc>(MARKS, 1);
    for row in WRITTEN {
        all &= is_spelled(alloc, row) & is_read::<Lenenc>(row, 1);
    }
    all
}

// Whether each text is eaten, and each put into a buffer of each size. Of a text that is refused
// the length is left.
fn are_texts(alloc: Global, letters: &[u8]) -> bool {
    let mut all = is_put_in_each(alloc, Put::Text(b"abc"), b"\x03", b"abc");
    for row in EATEN {
        all &= is_eaten(row);
    }
    for row in TEXTS {
        all &= is_text_put(alloc, letters, row);
    }
    all
}

#[test]
fn numbers_and_texts_are_put_and_eaten(rt: HostRuntime) -> Result<(), Fail> {
    let alloc = rt.alloc();
    all_hold(&[
        are_put(alloc, &[b'd'; 256]),
        are_numbers(alloc),
        are_texts(alloc, &[b'a'; 300]),
    ])
}
