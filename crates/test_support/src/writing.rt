//! What is put after what a vector holds, by each function that puts something there.

use crate::answers::{Answer, answered};
use std::alloc::Allocator;
use wire_buf::error::WireError;
use wire_buf::proto::MySerialize;
use wire_ext::BufMutExt;
use wire_forms::prefixed::U8Bytes;
use wire_list::seq::SeqRepr;
use wire_repr::int::{IntRepr, LeU16, LeU32, RawInt};
use wire_repr::text::BytesRepr;
use wire_streams::misc::write_varlen_uint;
use wire_values::text::RawBytes;

/// What is written.
#[derive(Clone, Copy)]
pub enum Writing {
    Value,
    EmptyText,
    Number,
    Text,
    List,
    LenencInt,
    LenencStr,
    U8Str,
    U32Str,
    U24,
    I24,
    U48,
    U56,
    I56,
    VarlenUint(u64),
}

const TEXT: &[u8] = b"0123456789012345678901234567890123456789";

fn put_text<B: BufMutExt>(writing: Writing, buf: &mut B) -> Result<(), WireError> {
    match writing {
        Writing::LenencInt => buf.put_lenenc_int(0x1_02_03),
        Writing::LenencStr => buf.put_lenenc_str(TEXT),
        Writing::U8Str => buf.put_u8_str(TEXT),
        _ => buf.put_u32_str(TEXT),
    }
}

fn put_number<B: BufMutExt>(writing: Writing, buf: &mut B) -> Result<(), WireError> {
    match writing {
        Writing::U24 => buf.put_u24_le(0x1_02_03),
        Writing::I24 => buf.put_i24_le(-1),
        Writing::U48 => buf.put_u48_le(0x1_02_03),
        Writing::U56 => buf.put_u56_le(0x1_02_03),
        _ => buf.put_i56_le(-1),
    }
}

fn serialize<A: Allocator>(writing: Writing, buf: &mut Vec<u8, A>) -> Result<(), WireError> {
    match writing {
        Writing::Value => RawInt::<LeU16>::new(0x201).serialize(buf),
        Writing::Number => <LeU16 as IntRepr>::serialize(0x201, buf),
        Writing::Text => <U8Bytes as BytesRepr>::serialize(TEXT, buf),
        Writing::List => <LeU32 as SeqRepr>::serialize(&[RawInt::<LeU16>::new(0x201)], buf),
        _ => RawBytes::<U8Bytes>::default().serialize(buf),
    }
}

/// Writes it after what the vector holds; where that fails, why.
pub fn write<A: Allocator>(writing: Writing, buf: &mut Vec<u8, A>) -> Option<Answer> {
    let written = match writing {
        Writing::Value | Writing::Number | Writing::Text | Writing::List | Writing::EmptyText =>
            serialize(writing, buf),
        Writing::LenencInt | Writing::LenencStr | Writing::U8Str | Writing::U32Str => {
            put_text(writing, buf)
        }
        Writing::VarlenUint(number) => write_varlen_uint(buf, number),
        _ => put_number(writing, buf),
    };
    answered(written).err()
}
