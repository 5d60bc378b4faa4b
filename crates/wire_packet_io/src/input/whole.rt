//! A packet that lies whole in one chunk, in front of what was read.

ghost use Rattle.std.specs.Prelude.{◌≡◌, IfSome};
ghost use Rattle.wire_span.specs.Spans.{span_state};
ghost use Rattle.wire_packet_io.specs.Copying.{in_front};
ghost use Rattle.wire_packet_io.specs.Whole.{LiesWhole};

use super::Input;
use std::alloc::Allocator;
use std::io::Read;
use wire_codec::codec::PacketCodec;
use wire_codec::codec::header::{HEADER_LEN, Header};
use wire_span::SpanDecoder;

/// A decoder in front of a packet, as the codec is.
pub(crate) fn in_front_of(codec: &PacketCodec) -> SpanDecoder
    ensures { span_state result ≡ in_front codec.now }
{
    let mut decoder = SpanDecoder::default();
    decoder.set_sequence_id(codec.sequence_id());
    decoder.max_allowed_packet = codec.max_allowed_packet;
    decoder
}

impl<R: Read, A: Allocator + Copy> Input<R, A> {
    /// How many bytes the packet in front has, and the id after it, where it lies whole in one
    /// chunk, has a byte, and is not refused.
    pub(crate) fn whole_front(&self, codec: &PacketCodec) -> Option<(usize, u8)>
        ensures { IfSome result (λ front.
            LiesWhole codec.now self.now.src.items front.0 front.1) }
    {
        let Some(header) = Header::read(self.src.as_slice()) else {
            return None;
        };
        let len = header.len;
        if self.src.len() - HEADER_LEN < len {
            return None;
        }
        let mut decoder = in_front_of(codec);
        match decoder.pass_header(header) {
            Ok(false) => {}
            Ok(true) => return None,
            Err(_) => return None,
        }
        if decoder.chunk_left() != len {
            return None;
        }
        // A full chunk doesn't end its packet.
        if !decoder.pass_bytes(len) {
            return None;
        }
        Some((len, decoder.sequence_id()))
    }
}
