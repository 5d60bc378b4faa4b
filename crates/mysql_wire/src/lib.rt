//! MySQL's packet codec and wire primitives, under the paths of `mysql_common`.
#![tactic(auto)]

pub mod laws;

/// Buffers, readers and writers, and errors.
pub mod io {
    pub use wire_buf::error::{InvalidLengthEncodedInteger, InvalidReason, WireError};
    pub use wire_buf::io::ParseBuf;
    pub use wire_ext::BufMutExt;
    pub use wire_streams::io::{ReadMysqlExt, WriteMysqlExt};
}

/// Lengths, integers of the serialization library, versions, and fields of packets.
pub mod misc {
    pub use wire_streams::misc::{
        lenenc_int_len, lenenc_str_len, read_varlen_uint, split_version, varlen_uint_size,
        write_varlen_uint,
    };

    /// Numbers, texts and constants as fields of packets, and fields in a row and in lists.
    pub mod raw {
        pub use wire_field::converted::{Const, IntoNumber, Numbered, RawConst};
        pub use wire_field::row::{Both, Either, Slice};
        pub use wire_forms::constant::Skip;
        pub use wire_list::raw_seq::RawSeq;
        pub use wire_repr::int::RawInt;
        pub use wire_values::flags::RawFlags;
        pub use wire_values::text::RawBytes;

        /// What was written is read back, and how wrappers are compared, as functions.
        pub mod field_laws {
            pub use wire_laws::{constants, converted, numbers, rows, texts};
            pub use wire_list::field_laws::{compared, lists};
            pub use wire_repr::field_laws::{number_back, number_comes_back, parse_back};
            pub use wire_values::field_laws::text_comes_back;
        }

        /// Numbers that stand for constants.
        pub mod _const {
            pub use wire_field::converted::{Const, RawConst};
        }

        /// Numbers that stand for sets of flags.
        pub mod flags {
            pub use wire_values::flags::RawFlags;
        }

        /// Lists, by the representations of their count.
        pub mod seq {
            pub use wire_list::raw_seq::RawSeq;
            pub use wire_list::seq::{Seq, SeqRepr, Unknown};
        }

        /// Numbers, by their representations.
        pub mod int {
            pub use wire_forms::constant::{ConstU8, ConstU32};
            pub use wire_forms::halves::{LeU32LowerHalf, LeU32UpperHalf};
            pub use wire_forms::lenenc::LenEnc;
            pub use wire_forms::truncated::{LeI24, LeI56, LeU24, LeU48, LeU56};
            pub use wire_forms::varlen::VarLen;
            pub use wire_repr::int::{
                IntRepr, LeI16, LeI32, LeI64, LeU16, LeU32, LeU64, RawInt, SizeOfInt,
            };
        }

        /// Texts, by their representations.
        pub mod bytes {
            pub use wire_forms::constant::{ConstBytes, ConstBytesValue};
            pub use wire_forms::lenenc::LenEnc;
            pub use wire_forms::null::NullBytes;
            pub use wire_forms::prefixed::{U8Bytes, U32Bytes};
            pub use wire_forms::undelimited::{
                BareBytes, BareU8Bytes, BareU16Bytes, EofBytes, FixedLengthText,
            };
            pub use wire_repr::text::BytesRepr;
            pub use wire_values::text::{RawBytes, SizeOfText};
        }
    }
}

/// The numbers that packets are written in.
pub mod constants {
    pub use wire_buf::lengths::{DEFAULT_MAX_ALLOWED_PACKET, MAX_PAYLOAD_LEN, MIN_COMPRESS_LENGTH};
    pub use wire_const::{
        CapabilityFlags, ColumnFlags, ColumnType, Command, CursorType, Flags, Flags2, GeometryType,
        ItemResult, MariadbBulkIndicator, MariadbCapabilities, SessionStateType, SqlMode,
        StatusFlags, StmtBulkExecuteFlags, StmtExecuteParamFlags, StmtExecuteParamsFlags,
        UTF8_GENERAL_CI, UTF8MB4_GENERAL_CI, UnknownCapabilityFlags, UnknownColumnFlags,
        UnknownColumnType, UnknownCursorType, UnknownFlags2, UnknownGeometryType,
        UnknownItemResultType, UnknownMariadbBulkIndicator, UnknownMariadbCapabilityFlags,
        UnknownSessionStateType, UnknownSqlMode, UnknownStatusFlags,
        UnknownStmtBulkExecuteParamsFlags, UnknownStmtExecuteParamFlags,
        UnknownStmtExecuteParamsFlags,
    };
}

pub mod proto {
    pub use wire_buf::proto::{
        Binary, Fixed, HasSize, MyDeserialize, MySerialize, ReadSize, StatedSize, Text, Varying,
    };
    pub use wire_repr::wire::Wire;

    /// Packets and chunks.
    pub mod codec {
        pub use wire_codec::codec::{
            ChunkDecoder, ChunkInfo, PacketCodec, PacketDst, Skipped, Visit, deliver, deliver_each,
            deliver_each_limited, deliver_limited, encode_value, error, framed_len, is_out_of_step,
            packet_to_chunks, packet_to_slice,
        };
        pub use wire_span::{
            FramePart, FrameWriter, Renumber, Span, SpanDecoder, SpanError, SpanParts,
            UnfinishedPacket, VisitSpan, visit_spans,
        };
        pub use wire_values::payload::{parse_packet, parse_packet_in};
    }

    /// Packets from readers, and to writers.
    pub mod packet_io {
        pub use wire_packet_io::{PacketIoError, PacketReader, PacketWriter};
    }
}
