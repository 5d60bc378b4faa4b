//! A packet where it lies.

ghost use Rattle.std.specs.Prelude.{◌≡◌, ◌↔◌, ◌+◌, ◌<◌, ◌≤◌, [], length, drop, Ok, true, IsTrue, IsSome, IfSome, MatchOption};
ghost use Rattle.wire_codec.specs.Codec.{codec_state, header_of, ChunkChain, DecodesPacket, DecodesStanding, Stands};
ghost use Rattle.wire_codec.specs.Delivery.{chunk_len};
ghost use Rattle.wire_codec.specs.GoingOn.{Decodes};
ghost use Rattle.wire_codec.specs.InPlace.{HasFront, front_payload, behind_front};
ghost use Rattle.wire_codec.specs.LimitedRuns.{DecodesAligned};

use crate::codec::chunk::ChunkDecoder;
use crate::codec::header::{HEADER_LEN, Header};
use crate::codec::packet::PacketCodec;
use bytes::BytesMut;
use std::alloc::Allocator;
use wire_buf::lengths::MAX_PAYLOAD_LEN;

impl PacketCodec {
    // Whether a packet may begin with this header: it is within the limit, or it is the one that
    // was judged before.
    fn passes(&self, header: Header) -> bool
        ensures { IsTrue result ↔ MatchOption (header_of self.now)
            (header.len ≤ self.now.max_allowed_packet)
            (λ h. (header.seq_id ≡ h.0) × (header.len ≡ h.1) × (0 < h.1)) }
    {
        match self.decoder {
            ChunkDecoder::Idle => header.len <= self.max_allowed_packet,
            ChunkDecoder::Chunk { seq_id, needed } => {
                header.seq_id == seq_id && header.len == needed.get()
            }
        }
    }

    /// The next packet where it lies in `src`, without a copy: where it is there whole, in one
    /// chunk, and `decode` into this empty `dst` would answer true with it. `None` everywhere else,
    /// and `decode` is to be called: where `dst` holds something, the chunk has not come whole or
    /// is a full one, bears another id or is past the limit.
    ///
    /// Nothing is taken, and no memory is asked for. `take_front` takes the packet, after the last
    /// use of what was lent.
    ///
    /// <https://dev.mysql.com/doc/dev/mysql-server/latest/page_protocol_basic_packets.html>
    pub fn front_packet<'a, A: Allocator + Copy>(
        &self,
        src: &'a BytesMut<A>,
        dst: &[u8],
    ) -> Option<&'a [u8]>
        ensures there { IsSome result ↔ HasFront (codec_state self.now src.now.items dst.now) }
        ensures packet { IfSome result (λ packet. packet.now ≡ front_payload src.now.items) }
        // It is what `decode` would answer true with.
        ensures decodes { let before = codec_state self.now src.now.items dst.now in
            IsSome result → Stands before → DecodesPacket before (Ok true) (behind_front before) }
    {
        self.front_packet_in(src.as_slice(), dst)
    }

    /// As `front_packet`, where the unread bytes lie anywhere, as in the room of a read. The packet
    /// is taken by `accept_front_in`.
    ///
    /// <https://dev.mysql.com/doc/dev/mysql-server/latest/page_protocol_basic_packets.html>
    #[tactic(auto, using(crate::specs::Framing::max_payload_is))]
    pub fn front_packet_in<'a>(&self, front: &'a [u8], dst: &[u8]) -> Option<&'a [u8]>
        ensures there { IsSome result ↔ HasFront (codec_state self.now front.now dst.now) }
        ensures packet { IfSome result (λ packet. packet.now ≡ front_payload front.now) }
        ensures decodes { let before = codec_state self.now front.now dst.now in
            IsSome result → Stands before → DecodesPacket before (Ok true) (behind_front before) }
    {
        if !dst.is_empty() {
            return None;
        }
        let Some(header) = Header::read(front) else {
            return None;
        };
        if front.len() - HEADER_LEN < header.len {
            return None;
        }
        if !self.passes(header) {
            return None;
        }
        if header.seq_id != self.seq_id {
            return None;
        }
        if header.len == MAX_PAYLOAD_LEN {
            return None;
        }
        Some(&front[HEADER_LEN..HEADER_LEN + header.len])
    }

    /// Accepts the packet that `front_packet` lends: the codec goes on after it, and its bytes
    /// stay where they lie. The answer is how many bytes of `src` are its chunk, header and
    /// payload: `src` is to be advanced by them before the codec reads on. It asks that there is
    /// such a packet.
    ///
    /// `encode` then bears the id after the packet, while its bytes are still read.
    pub fn accept_front(&mut self, src: &BytesMut<impl Allocator + Copy>) -> usize
        requires { HasFront (codec_state self.old src.now.items []) }
        ensures chunk { result ≡ 4 + chunk_len src.now.items }
        ensures whole { result ≤ length src.now.items }
        ensures decodes { DecodesStanding (codec_state self.old src.now.items []) (Ok true)
            (codec_state self.new (drop result src.now.items) (front_payload src.now.items)) }
        ensures aligned { DecodesAligned (codec_state self.old src.now.items []) (Ok true)
            (codec_state self.new (drop result src.now.items) (front_payload src.now.items)) }
        // The same in the middle of a stream, of which each byte has its limit.
        ensures on { Decodes (codec_state self.old src.now.items []) (Ok true)
            (codec_state self.new (drop result src.now.items) (front_payload src.now.items)) }
        // One chunk is accepted.
        ensures chain { ChunkChain 1 (codec_state self.old src.now.items []) (Ok true)
            (codec_state self.new (drop result src.now.items) (front_payload src.now.items)) }
        ensures rest { codec_state self.new (drop result src.now.items)
            (front_payload src.now.items)
            ≡ behind_front (codec_state self.old src.now.items []) }
        // The codec stands at what is left, and an empty `dst`.
        ensures stands { Stands (codec_state self.new (drop result src.now.items) []) }

        ensures limit { self.new.max_allowed_packet ≡ self.old.max_allowed_packet }
    {
        self.accept_front_in(src.as_slice())
    }

    /// As `accept_front`, where the unread bytes lie anywhere: for what `front_packet_in` lends.
    pub fn accept_front_in(&mut self, front: &[u8]) -> usize
        requires { HasFront (codec_state self.old front.now []) }
        ensures chunk { result ≡ 4 + chunk_len front.now }
        ensures whole { result ≤ length front.now }
        ensures decodes { DecodesStanding (codec_state self.old front.now []) (Ok true)
            (codec_state self.new (drop result front.now) (front_payload front.now)) }
        ensures aligned { DecodesAligned (codec_state self.old front.now []) (Ok true)
            (codec_state self.new (drop result front.now) (front_payload front.now)) }
        // The same in the middle of a stream, of which each byte has its limit.
        ensures on { Decodes (codec_state self.old front.now []) (Ok true)
            (codec_state self.new (drop result front.now) (front_payload front.now)) }
        // One chunk is accepted.
        ensures chain { ChunkChain 1 (codec_state self.old front.now []) (Ok true)
            (codec_state self.new (drop result front.now) (front_payload front.now)) }
        ensures rest { codec_state self.new (drop result front.now)
            (front_payload front.now)
            ≡ behind_front (codec_state self.old front.now []) }
        // The codec stands at what is left, and an empty `dst`.
        ensures stands { Stands (codec_state self.new (drop result front.now) []) }

        ensures limit { self.new.max_allowed_packet ≡ self.old.max_allowed_packet }
    {
        let Some(header) = Header::read(front) else {
            return 0;
        };
        self.decoder = ChunkDecoder::Idle;
        self.seq_id = self.seq_id.wrapping_add(1); // after 255 comes 0
        HEADER_LEN + header.len
    }

    /// Takes the packet that `front_packet` lends from `src`. It asks that there is one.
    ///
    /// Both together are a `decode` that answers true, with the packet in place of what `dst` would
    /// hold.
    pub fn take_front(&mut self, src: &mut BytesMut<impl Allocator + Copy>)
        requires { HasFront (codec_state self.old src.old.items []) }
        ensures decodes { DecodesStanding (codec_state self.old src.old.items []) (Ok true)
            (codec_state self.new src.new.items (front_payload src.old.items)) }
        ensures aligned { DecodesAligned (codec_state self.old src.old.items []) (Ok true)
            (codec_state self.new src.new.items (front_payload src.old.items)) }
        // The same in the middle of a stream, of which each byte has its limit.
        ensures on { Decodes (codec_state self.old src.old.items []) (Ok true)
            (codec_state self.new src.new.items (front_payload src.old.items)) }
        // One chunk is accepted.
        ensures chain { ChunkChain 1 (codec_state self.old src.old.items []) (Ok true)
            (codec_state self.new src.new.items (front_payload src.old.items)) }
        ensures rest { codec_state self.new src.new.items (front_payload src.old.items)
            ≡ behind_front (codec_state self.old src.old.items []) }
        // The codec stands at what is left, and an empty `dst`.
        ensures stands { Stands (codec_state self.new src.new.items []) }

        ensures shorter { length src.new.items < length src.old.items }
        ensures limit { self.new.max_allowed_packet ≡ self.old.max_allowed_packet }
    {
        let chunk = self.accept_front(src);
        src.advance(chunk);
    }
}
