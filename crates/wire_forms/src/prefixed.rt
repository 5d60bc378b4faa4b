//! Texts after their length.
//!
//! <https://dev.mysql.com/doc/dev/mysql-server/latest/page_protocol_basic_dt_strings.html>

ghost use Rattle.std.specs.Prelude.{◌++◌, length, take, None};
ghost use Rattle.wire_buf.specs.Lenenc.{IsLenencOrMark, lenenc_bytes};
ghost use Rattle.wire_buf.specs.Numbers.{le_bytes};
ghost use Rattle.wire_buf.specs.Reading.{Reads};
ghost use Rattle.wire_buf.specs.Spelling.{IsFixed};
ghost use Rattle.wire_ext.specs.Texts.{u8_max, u32_max};
ghost use Rattle.wire_forms.specs.Groups.{ReadsGroups, groups_bytes};
ghost use Rattle.wire_forms.specs.PrefixedTexts.{lenenc_text-back, fixed_text-back_1, fixed_text-back_4, groups_text-back};
ghost use Rattle.wire_forms.specs.Spelled.{Leaves, NumberOrEof, TextBehind};

use crate::lenenc::LenEnc;
use crate::varlen::{VarLen, put_groups};
use std::alloc::Allocator;
use std::borrow::CowSlice;
use wire_buf::error::WireError;
use wire_buf::io::ParseBuf;
use wire_ext::BufMutExt;
use wire_ext::text::{first_bytes, longest_u32_str};
use wire_repr::append::{all_or_nothing, append};
use wire_repr::int::IntRepr;
use wire_repr::text::BytesRepr;

/// A `string<lenenc>`. A length that is cut short has eaten its first byte, a text its length.
impl BytesRepr for LenEnc {
    const MAX_LEN: usize = usize::MAX;

    const SIZE: Option<usize> = None;

    type Ctx = ();

    ghost MAX_LEN = { 0xffff_ffff_ffff_ffff };

    ghost SIZE = { None };

    ghost bytes = { λ text. lenenc_bytes (length text) ++ text };

    ghost reads = { λ _. Leaves (TextBehind (NumberOrEof IsLenencOrMark 1)) };

    ghost good = { λ _ _ _. Unit {0} };

    ghost kept = { λ text. text };

    #[inline(always)]
    fn serialize<A: Allocator>(text: &[u8], buf: &mut Vec<u8, A>) -> Result<(), WireError> {
        let at = buf.len();
        let put = buf.put_lenenc_str(text).is_ok();
        all_or_nothing(put, at, buf)
    }

    fn deserialize<'de, A: Allocator>(
        _: (),
        buf: &mut ParseBuf<'de>,
    ) -> Result<CowSlice<'de, u8, A>, WireError> {
        match buf.checked_eat_lenenc_str() {
            Some(text) => Ok(CowSlice::Borrowed(text)),
            None => Err(WireError::UnexpectedEof),
        }
    }

    ghost comes_back = { λ _ text rest value _. lenenc_text-back text rest value };

    ghost of_size = { λ text size stated. Prim.cc };
}

/// One byte of length and a text, of a longer one its first 255 bytes. A text that is cut short has
/// eaten its length.
///
/// As the answer to a challenge:
/// <https://dev.mysql.com/doc/dev/mysql-server/latest/page_protocol_connection_phase_packets_protocol_handshake_response.html>
#[derive(Clone, Copy, Debug, PartialEq, Eq, Hash, Default)]
pub struct U8Bytes;

impl BytesRepr for U8Bytes {
    const MAX_LEN: usize = 255;

    const SIZE: Option<usize> = None;

    type Ctx = ();

    ghost MAX_LEN = { 255 };

    ghost SIZE = { None };

    ghost bytes = { λ text. le_bytes 1 (length (take u8_max text)) ++ take u8_max text };

    ghost reads = { λ _. Leaves (TextBehind (NumberOrEof (IsFixed 1) 0)) };

    ghost good = { λ _ _ _. Unit {0} };

    ghost kept = { λ text. take u8_max text };

    fn serialize<A: Allocator>(text: &[u8], buf: &mut Vec<u8, A>) -> Result<(), WireError> {
        let at = buf.len();
        let put = buf.put_u8_str(text).is_ok();
        all_or_nothing(put, at, buf)
    }

    fn deserialize<'de, A: Allocator>(
        _: (),
        buf: &mut ParseBuf<'de>,
    ) -> Result<CowSlice<'de, u8, A>, WireError> {
        match buf.checked_eat_u8_str() {
            Some(text) => Ok(CowSlice::Borrowed(text)),
            None => Err(WireError::UnexpectedEof),
        }
    }

    ghost comes_back = { λ _ text rest _ _. fixed_text-back_1 text rest };

    ghost of_size = { λ text size stated. Prim.cc };
}

/// Four bytes of length, the least significant first, and a text, of a longer one its first
/// 4294967295 bytes. A text that is cut short has eaten its length.
///
/// As the name of a log's file:
/// <https://dev.mysql.com/doc/dev/mysql-server/latest/page_protocol_com_binlog_dump_gtid.html>
#[derive(Clone, Copy, Debug, PartialEq, Eq, Hash, Default)]
pub struct U32Bytes;

impl BytesRepr for U32Bytes {
    const MAX_LEN: usize = 4294967295;

    const SIZE: Option<usize> = None;

    type Ctx = ();

    ghost MAX_LEN = { 4294967295 };

    ghost SIZE = { None };

    ghost bytes = { λ text. le_bytes 4 (length (take u32_max text)) ++ take u32_max text };

    ghost reads = { λ _. Leaves (TextBehind (NumberOrEof (IsFixed 4) 0)) };

    ghost good = { λ _ _ _. Unit {0} };

    ghost kept = { λ text. take u32_max text };

    fn serialize<A: Allocator>(text: &[u8], buf: &mut Vec<u8, A>) -> Result<(), WireError> {
        let at = buf.len();
        let put = buf.put_u32_str(text).is_ok();
        all_or_nothing(put, at, buf)
    }

    fn deserialize<'de, A: Allocator>(
        _: (),
        buf: &mut ParseBuf<'de>,
    ) -> Result<CowSlice<'de, u8, A>, WireError> {
        match buf.checked_eat_u32_str() {
            Some(text) => Ok(CowSlice::Borrowed(text)),
            None => Err(WireError::UnexpectedEof),
        }
    }

    ghost comes_back = { λ _ text rest _ _. fixed_text-back_4 text rest };

    ghost of_size = { λ text size stated. Prim.cc };
}

/// A length in groups of seven bits and a text, of a longer one its first 4294967295 bytes. A
/// length that is refused has eaten what was looked at, a text that is cut short its length.
impl BytesRepr for VarLen {
    const MAX_LEN: usize = 4294967295;

    const SIZE: Option<usize> = None;

    type Ctx = ();

    ghost MAX_LEN = { 4294967295 };

    ghost SIZE = { None };

    ghost bytes = { λ text. groups_bytes (length (take u32_max text)) ++ take u32_max text };

    ghost reads = { λ _. Leaves (TextBehind ReadsGroups) };

    ghost good = { λ _ _ _. Unit {0} };

    ghost kept = { λ text. take u32_max text };

    fn serialize<A: Allocator>(text: &[u8], buf: &mut Vec<u8, A>) -> Result<(), WireError> {
        let at = buf.len();
        let cut = first_bytes(text, longest_u32_str());
        put_groups(cut.len() as u32, buf)?;
        let put = append(cut, buf).is_ok();
        all_or_nothing(put, at, buf)
    }

    fn deserialize<'de, A: Allocator>(
        _: (),
        buf: &mut ParseBuf<'de>,
    ) -> Result<CowSlice<'de, u8, A>, WireError> {
        let len = <VarLen as IntRepr>::deserialize(buf)?;
        match buf.checked_eat(len as usize) {
            Some(text) => Ok(CowSlice::Borrowed(text)),
            None => Err(WireError::UnexpectedEof),
        }
    }

    ghost comes_back = { λ _ text rest _ _. groups_text-back text rest };

    ghost of_size = { λ text size stated. Prim.cc };
}
