//! A codec to which a stream is given in pieces.

use crate::answers::{Answer, answered};
use crate::facts::same;
use bytes::{Buf, BytesMut};
use std::alloc::Allocator;
use wire_codec::codec::{
    PacketCodec, Visit, deliver, deliver_each, deliver_each_limited, deliver_limited, encode_value,
    packet_to_chunks,
};
use wire_forms::undelimited::EofBytes;
use wire_values::text::RawBytes;

/// Counts the bytes of packets.
#[derive(Drop)]
pub struct Tally {
    pub bytes: usize,
}

impl Visit for Tally {
    ghost sees = { λ _ _ _. Unit {0} };

    fn visit(&mut self, packet: &[u8]) {
        self.bytes = self.bytes.wrapping_add(packet.len());
    }
}

/// A codec with its buffers, and what it delivered.
#[derive(Drop)]
pub struct Receiver<A: Allocator> {
    pub codec: PacketCodec,
    pub src: BytesMut<A>,
    pub dst: Vec<u8, A>,
    pub out: Vec<Vec<u8, A>, A>,
    pub alloc: A,
}

/// How many pieces were appended, and what was answered.
pub type Run = (usize, Answer);

// Puts a copy of a packet after the others, if there is memory.
fn put_copy<A: Allocator + Copy>(alloc: A, out: &mut Vec<Vec<u8, A>, A>, packet: &[u8]) -> bool {
    match Vec::from_slice(alloc, packet) {
        Ok(packet) => out.push(packet).is_ok(),
        Err(_) => false,
    }
}

impl<A: Allocator + Copy> Receiver<A> {
    pub fn new(alloc: A, limit: usize) -> Self {
        let mut codec = PacketCodec::default();
        codec.max_allowed_packet = limit;
        Receiver {
            codec,
            src: BytesMut::new(alloc),
            dst: Vec::new(alloc),
            out: Vec::new(alloc),
            alloc,
        }
    }

    /// With these bytes in `src`, and little room after them.
    pub fn holding(alloc: A, limit: usize, bytes: &[u8]) -> Self {
        let mut to = Receiver::new(alloc, limit);
        let _ = to.src.extend_from_slice(bytes);
        to
    }

    /// Puts a packet after `src` as chunks from this id, and tells the next.
    pub fn frame<T: Buf>(&mut self, id: u8, packet: &mut T) -> Result<u8, Answer> {
        answered(packet_to_chunks(id, packet, &mut self.src))
    }

    pub fn encode(&mut self, packet: &mut &[u8]) -> Answer {
        Answer::of_encode(self.codec.encode(packet, &mut self.src))
    }

    /// Encodes a text as a value.
    pub fn encode_text(&mut self, text: &[u8]) -> Answer {
        let value = RawBytes::<EofBytes>::from(text);
        Answer::of_encode(encode_value(&mut self.codec, &value, &mut self.src))
    }

    pub fn stands(&self) -> bool {
        self.codec.stands_at(&self.src, self.dst.as_slice())
    }

    /// Whether this packet stands whole in front.
    pub fn lends(&self, packet: &[u8]) -> bool {
        self.codec.front_packet(&self.src, &[]) == Some(packet)
    }

    /// Takes the packet in front, if one stands there whole.
    pub fn take_front(&mut self) -> bool {
        let is_there = self.codec.front_packet(&self.src, &[]).is_some();
        if is_there {
            self.codec.take_front(&mut self.src);
        }
        is_there
    }

    /// One run over these pieces. Where the codec doesn't stand, nothing is called.
    pub fn deliver(&mut self, pieces: &[&[u8]]) -> Run {
        if !self.codec.stands_at(&self.src, self.dst.as_slice()) {
            return (0, Answer::Fallen);
        }
        let (count, answer) = deliver(
            &mut self.codec,
            &mut self.src,
            &mut self.dst,
            pieces,
            &mut self.out,
        );
        (count, Answer::of_deliver(answer))
    }

    /// As `deliver`, over pieces with their limits.
    pub fn deliver_limited(&mut self, pieces: &[(usize, &[u8])]) -> Run {
        if !self.codec.aligned_at(&self.src, self.dst.as_slice()) {
            return (0, Answer::Fallen);
        }
        let (count, answer) = deliver_limited(
            &mut self.codec,
            &mut self.src,
            &mut self.dst,
            pieces,
            &mut self.out,
        );
        (count, Answer::of_deliver(answer))
    }

    /// As `deliver`, where a visitor sees the packets.
    pub fn visit<V: Visit>(&mut self, pieces: &[&[u8]], visitor: &mut V) -> Run {
        if !self.codec.stands_at(&self.src, self.dst.as_slice()) {
            return (0, Answer::Fallen);
        }
        let (count, answer) = deliver_each(
            &mut self.codec,
            &mut self.src,
            &mut self.dst,
            pieces,
            visitor,
        );
        (count, Answer::of_deliver(answer))
    }

    /// As `deliver_limited`, where a visitor sees the packets.
    pub fn visit_limited<V: Visit>(&mut self, pieces: &[(usize, &[u8])], visitor: &mut V) -> Run {
        if !self.codec.aligned_at(&self.src, self.dst.as_slice()) {
            return (0, Answer::Fallen);
        }
        let (count, answer) = deliver_each_limited(
            &mut self.codec,
            &mut self.src,
            &mut self.dst,
            pieces,
            visitor,
        );
        (count, Answer::of_deliver(answer))
    }

    /// Hands out the next packet, where it lies if it can be lent, and else by `decode`. One that
    /// finds no memory is missing in the end.
    pub fn take_next(&mut self) -> Answer {
        let dst = self.dst.as_slice();
        let is_lent = match self.codec.front_packet(&self.src, dst) {
            Some(packet) => put_copy(self.alloc, &mut self.out, packet),
            None => false,
        };
        if is_lent {
            self.take_front();
            return Answer::Packet;
        }
        let answer = Answer::of_decode(self.codec.decode(&mut self.src, &mut self.dst));
        if answer == Answer::Packet {
            put_copy(self.alloc, &mut self.out, self.dst.as_slice());
            self.dst.clear();
        }
        answer
    }

    // A run, and where it is answered so, one more over what is left of these pieces.
    fn deliver_again(
        &mut self,
        until: usize,
        pieces: &[&[u8]],
        after: Answer,
        limit: usize,
    ) -> Run {
        let (count, answer) = self.deliver(&pieces[..until.min(pieces.len())]);
        self.codec.max_allowed_packet = limit;
        if answer != after {
            return (count, answer);
        }
        let (more, answer) = self.deliver(pieces_from(pieces, count));
        (count.wrapping_add(more), answer)
    }

    /// As `deliver`, in two runs, the first over this many pieces.
    pub fn deliver_in_two(&mut self, pieces: &[&[u8]], first: usize) -> Run {
        let limit = self.codec.max_allowed_packet;
        self.deliver_again(first, pieces, Answer::Waits, limit)
    }

    /// As `deliver`; where it stops at the limit, it goes on under another one.
    pub fn deliver_raised(&mut self, pieces: &[&[u8]], limit: usize) -> Run {
        self.deliver_again(pieces.len(), pieces, Answer::TooLarge, limit)
    }

    /// Whether these packets came out, and these bytes stand in `src` and in `dst`.
    pub fn shows(&self, packets: &[&[u8]], src: &[u8], dst: &[u8]) -> bool {
        let are_out = are_packets(self.out.as_slice(), packets);
        are_out & same(self.src.as_slice(), src) & same(self.dst.as_slice(), dst)
    }
}

/// The pieces from number `count` on.
pub fn pieces_from<'a, 'b>(pieces: &'a [&'b [u8]], count: usize) -> &'a [&'b [u8]] {
    &pieces[count.min(pieces.len())..]
}

/// Whether these are the packets that are wanted.
pub fn are_packets<A: Allocator>(packets: &[Vec<u8, A>], wanted: &[&[u8]]) -> bool {
    let mut all = packets.len() == wanted.len();
    for i in 0..packets.len().min(wanted.len()) {
        all &= same(packets[i].as_slice(), wanted[i]);
    }
    all
}
