//! Every path of the facade. A path that is missing or leads elsewhere doesn't compile.

pub use mysql_wire::constants::CapabilityFlags;
pub use mysql_wire::constants::ColumnFlags;
pub use mysql_wire::constants::ColumnType;
pub use mysql_wire::constants::Command;
pub use mysql_wire::constants::CursorType;
pub use mysql_wire::constants::DEFAULT_MAX_ALLOWED_PACKET;
pub use mysql_wire::constants::Flags;
pub use mysql_wire::constants::Flags2;
pub use mysql_wire::constants::GeometryType;
pub use mysql_wire::constants::ItemResult;
pub use mysql_wire::constants::MAX_PAYLOAD_LEN;
pub use mysql_wire::constants::MIN_COMPRESS_LENGTH;
pub use mysql_wire::constants::MariadbBulkIndicator;
pub use mysql_wire::constants::MariadbCapabilities;
pub use mysql_wire::constants::SessionStateType;
pub use mysql_wire::constants::SqlMode;
pub use mysql_wire::constants::StatusFlags;
pub use mysql_wire::constants::StmtBulkExecuteFlags;
pub use mysql_wire::constants::StmtExecuteParamFlags;
pub use mysql_wire::constants::StmtExecuteParamsFlags;
pub use mysql_wire::constants::UTF8_GENERAL_CI;
pub use mysql_wire::constants::UTF8MB4_GENERAL_CI;
pub use mysql_wire::constants::UnknownCapabilityFlags;
pub use mysql_wire::constants::UnknownColumnFlags;
pub use mysql_wire::constants::UnknownColumnType;
pub use mysql_wire::constants::UnknownCursorType;
pub use mysql_wire::constants::UnknownFlags2;
pub use mysql_wire::constants::UnknownGeometryType;
pub use mysql_wire::constants::UnknownItemResultType;
pub use mysql_wire::constants::UnknownMariadbBulkIndicator;
pub use mysql_wire::constants::UnknownMariadbCapabilityFlags;
pub use mysql_wire::constants::UnknownSessionStateType;
pub use mysql_wire::constants::UnknownSqlMode;
pub use mysql_wire::constants::UnknownStatusFlags;
pub use mysql_wire::constants::UnknownStmtBulkExecuteParamsFlags;
pub use mysql_wire::constants::UnknownStmtExecuteParamFlags;
pub use mysql_wire::constants::UnknownStmtExecuteParamsFlags;
pub use mysql_wire::io::BufMutExt;
pub use mysql_wire::io::InvalidLengthEncodedInteger;
pub use mysql_wire::io::InvalidReason;
pub use mysql_wire::io::ParseBuf;
pub use mysql_wire::io::ReadMysqlExt;
pub use mysql_wire::io::WireError;
pub use mysql_wire::io::WriteMysqlExt;
pub use mysql_wire::laws::aligned_goes_on;
pub use mysql_wire::laws::appended_run;
pub use mysql_wire::laws::between_packets;
pub use mysql_wire::laws::bounded_delivery;
pub use mysql_wire::laws::bounded_limited_delivery;
pub use mysql_wire::laws::bounded_reads;
pub use mysql_wire::laws::chunks_counted;
pub use mysql_wire::laws::copied_packet;
pub use mysql_wire::laws::early_judgement;
pub use mysql_wire::laws::empty_goes_on;
pub use mysql_wire::laws::encoded_first;
pub use mysql_wire::laws::equal_limits;
pub use mysql_wire::laws::framed_length;
pub use mysql_wire::laws::framed_packet;
pub use mysql_wire::laws::framed_stream;
pub use mysql_wire::laws::frames_front;
pub use mysql_wire::laws::id_after_append;
pub use mysql_wire::laws::joined_frames;
pub use mysql_wire::laws::joined_limited_runs;
pub use mysql_wire::laws::joined_renumberings;
pub use mysql_wire::laws::joined_runs;
pub use mysql_wire::laws::joined_spans;
pub use mysql_wire::laws::joined_splits;
pub use mysql_wire::laws::nothing_came;
pub use mysql_wire::laws::nothing_framed;
pub use mysql_wire::laws::nothing_read;
pub use mysql_wire::laws::one_delivery;
pub use mysql_wire::laws::one_limited_delivery;
pub use mysql_wire::laws::one_run;
pub use mysql_wire::laws::one_spanning;
pub use mysql_wire::laws::packet_back;
pub use mysql_wire::laws::relayed_packet;
pub use mysql_wire::laws::renumbered_stream;
pub use mysql_wire::laws::run_goes_on;
pub use mysql_wire::laws::spans_begin;
pub use mysql_wire::laws::spans_deliver;
pub use mysql_wire::laws::spans_end;
pub use mysql_wire::laws::spans_follow;
pub use mysql_wire::laws::spans_stand;
pub use mysql_wire::laws::spans_stop;
pub use mysql_wire::laws::stream_append;
pub use mysql_wire::laws::unique_framing;
pub use mysql_wire::laws::values_come_back;
pub use mysql_wire::misc::lenenc_int_len;
pub use mysql_wire::misc::lenenc_str_len;
pub use mysql_wire::misc::raw::Both;
pub use mysql_wire::misc::raw::Const;
pub use mysql_wire::misc::raw::Either;
pub use mysql_wire::misc::raw::IntoNumber;
pub use mysql_wire::misc::raw::Numbered;
pub use mysql_wire::misc::raw::RawBytes;
pub use mysql_wire::misc::raw::RawConst;
pub use mysql_wire::misc::raw::RawFlags;
pub use mysql_wire::misc::raw::RawInt;
pub use mysql_wire::misc::raw::RawSeq;
pub use mysql_wire::misc::raw::Skip;
pub use mysql_wire::misc::raw::Slice;
pub use mysql_wire::misc::raw::field_laws::compared::both_compares;
pub use mysql_wire::misc::raw::field_laws::compared::raw_int_compares;
pub use mysql_wire::misc::raw::field_laws::converted::number_there_and_back;
pub use mysql_wire::misc::raw::field_laws::converted::value_there_and_back;
pub use mysql_wire::misc::read_varlen_uint;
pub use mysql_wire::misc::split_version;
pub use mysql_wire::misc::varlen_uint_size;
pub use mysql_wire::misc::write_varlen_uint;
pub use mysql_wire::proto::Binary;
pub use mysql_wire::proto::Fixed;
pub use mysql_wire::proto::HasSize;
pub use mysql_wire::proto::MyDeserialize;
pub use mysql_wire::proto::MySerialize;
pub use mysql_wire::proto::ReadSize;
pub use mysql_wire::proto::StatedSize;
pub use mysql_wire::proto::Text;
pub use mysql_wire::proto::Varying;
pub use mysql_wire::proto::Wire;
pub use mysql_wire::proto::codec::ChunkDecoder;
pub use mysql_wire::proto::codec::ChunkInfo;
pub use mysql_wire::proto::codec::FramePart;
pub use mysql_wire::proto::codec::FrameWriter;
pub use mysql_wire::proto::codec::PacketCodec;
pub use mysql_wire::proto::codec::PacketDst;
pub use mysql_wire::proto::codec::Renumber;
pub use mysql_wire::proto::codec::Skipped;
pub use mysql_wire::proto::codec::Span;
pub use mysql_wire::proto::codec::SpanDecoder;
pub use mysql_wire::proto::codec::SpanError;
pub use mysql_wire::proto::codec::SpanParts;
pub use mysql_wire::proto::codec::UnfinishedPacket;
pub use mysql_wire::proto::codec::Visit;
pub use mysql_wire::proto::codec::VisitSpan;
pub use mysql_wire::proto::codec::deliver;
pub use mysql_wire::proto::codec::deliver_each;
pub use mysql_wire::proto::codec::deliver_each_limited;
pub use mysql_wire::proto::codec::deliver_limited;
pub use mysql_wire::proto::codec::encode_value;
pub use mysql_wire::proto::codec::error::PacketCodecError;
pub use mysql_wire::proto::codec::framed_len;
pub use mysql_wire::proto::codec::is_out_of_step;
pub use mysql_wire::proto::codec::packet_to_chunks;
pub use mysql_wire::proto::codec::packet_to_slice;
pub use mysql_wire::proto::codec::parse_packet;
pub use mysql_wire::proto::codec::parse_packet_in;
pub use mysql_wire::proto::codec::visit_spans;
pub use mysql_wire::proto::packet_io::PacketIoError;
pub use mysql_wire::proto::packet_io::PacketReader;
pub use mysql_wire::proto::packet_io::PacketWriter;

/// The same wrappers by the representations that they belong to.
pub mod raw {
    pub use mysql_wire::misc::raw::_const::{Const, RawConst};
    pub use mysql_wire::misc::raw::flags::RawFlags;
    pub use mysql_wire::misc::raw::seq::{RawSeq, Seq, SeqRepr, Unknown};
}

pub mod numbers {
    pub use mysql_wire::misc::raw::int::{
        ConstU8, ConstU32, IntRepr, LeI16, LeI24, LeI32, LeI56, LeI64, LeU16, LeU24, LeU32,
        LeU32LowerHalf, LeU32UpperHalf, LeU48, LeU56, LeU64, LenEnc, RawInt, SizeOfInt, VarLen,
    };
}

pub mod texts {
    pub use mysql_wire::misc::raw::bytes::{
        BareBytes, BareU8Bytes, BareU16Bytes, BytesRepr, ConstBytes, ConstBytesValue, EofBytes,
        FixedLengthText, LenEnc, NullBytes, RawBytes, SizeOfText, U8Bytes, U32Bytes,
    };
}

/// The laws of fields.
pub mod laws_of_fields {
    pub use mysql_wire::misc::raw::field_laws::compared::{
        both_compares, constant_compares, raw_bytes_compares, raw_const_compares,
        raw_flags_compares, raw_int_compares, raw_seq_compares, seq_compares, slice_compares,
    };
    pub use mysql_wire::misc::raw::field_laws::constants::{
        array, array_comes_back, const_bytes, const_bytes_comes_back, const_u8,
        const_u8_comes_back, const_u32, const_u32_comes_back, skip_comes_back, skipped,
    };
    pub use mysql_wire::misc::raw::field_laws::converted::{
        constant, constant_comes_back, number_there_and_back, raw_const, raw_const_comes_back,
        raw_flags, raw_flags_comes_back, value_there_and_back,
    };
    pub use mysql_wire::misc::raw::field_laws::lists::{
        raw_seq, raw_seq_comes_back, seq_u32, seq_u32_comes_back, seq_u64, seq_u64_comes_back,
        seq_unknown, seq_unknown_comes_back,
    };
    pub use mysql_wire::misc::raw::field_laws::numbers::{
        i8_number, le_i16_number, le_i24_number, le_i32_number, le_i56_number, le_i64_number,
        le_u16_number, le_u24_number, le_u32_number, le_u48_number, le_u56_number, le_u64_number,
        lenenc_number, lenenc_shortest, lower_half, u8_number, upper_half, var_len_number,
        var_len_shortest,
    };
    pub use mysql_wire::misc::raw::field_laws::rows::{
        both, both_comes_back, either, either_comes_back, slice, slice_comes_back,
    };
    pub use mysql_wire::misc::raw::field_laws::texts::{
        bare_text, bare_text_comes_back, eof_text, eof_text_comes_back, fixed_length_text,
        fixed_length_text_comes_back, lenenc_text, lenenc_text_comes_back, null_text,
        null_text_comes_back, u8_text, u8_text_comes_back, u32_text, u32_text_comes_back,
        var_len_text, var_len_text_comes_back,
    };
    pub use mysql_wire::misc::raw::field_laws::{
        number_back, number_comes_back, parse_back, text_comes_back,
    };
}
