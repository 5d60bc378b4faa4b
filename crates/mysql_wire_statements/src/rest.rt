//! What stands up to the end of a payload.

ghost use Rattle.std.specs.Prelude.{◌≡◌, length, Ok};
ghost use Rattle.wire_buf.specs.Reading.{Answers, Through};

use std::alloc::Allocator;
use wire_buf::error::WireError;
use wire_buf::io::ParseBuf;
use wire_buf::proto::{HasSize, MyDeserialize, MySerialize, Varying};

/// All bytes that are left, lent from the payload: a `string<EOF>`.
///
/// <https://dev.mysql.com/doc/dev/mysql-server/latest/page_protocol_basic_dt_strings.html>
#[derive(Clone, Copy, Debug, PartialEq, Eq)]
pub(crate) struct Rest<'a>(pub &'a [u8]);

impl MySerialize for Rest<'_> {
    ghost bytes = { λ rest. rest.0.now };

    fn serialize<A: Allocator>(&self, buf: &mut Vec<u8, A>) -> Result<(), WireError> {
        buf.extend_from_slice(self.0)?;
        Ok(())
    }
}

impl HasSize for Rest<'_> {
    type Size = Varying;
}

impl<'de, A: Allocator + Copy> MyDeserialize<'de, A> for Rest<'de> {
    type Ctx = ();

    ghost reads = { λ _ input. Through (λ rest. rest.0.now)
        (Answers (Ok input, length input)) };

    fn deserialize(_: A, _: (), buf: &mut ParseBuf<'de>) -> Result<Self, WireError> {
        Ok(Rest(buf.eat_all()))
    }
}
