//! A packet that lies in front of what was read.

ghost use Rattle.std.specs.Prelude.{◌≡◌, ◌↔◌, ◌⊎◌, Ok, None, true, false, IfOk, IfErr, IsNone, IsSome, IsTrue, IsFalse};
ghost use Rattle.wire_codec.specs.Codec.{header_of};
ghost use Rattle.wire_packet_io.specs.Copying.{copied_to, has_ended, CanCopy, Copies, StopsHere};
ghost use Rattle.wire_packet_io.specs.Relaying.{RelaysPacket};

use super::PacketReader;
use crate::error::PacketIoError;
use crate::input::whole::in_front_of;
use crate::writer::PacketWriter;
use std::alloc::Allocator;
use std::io::{Read, Write};
use wire_codec::codec::PacketCodec;
use wire_codec::codec::header::{HEADER_LEN, Header};

impl<R: Read, A: Allocator + Copy> PacketReader<R, A> {
    // Passes on the packet in front, where it lies whole in one chunk and there is room for it
    // after what is pending: whether it has. No memory is asked for. Nothing changes where it
    // hasn't.
    pub(super) fn relay_whole<W: Write, B: Allocator + Copy>(
        &mut self,
        codec: &mut PacketCodec,
        writer: &mut PacketWriter<W, B>,
        writer_codec: &mut PacketCodec,
    ) -> bool
        requires none { IsNone self.old.lent × IsNone self.old.copied }
        ensures relays { IsTrue result → RelaysPacket R.remaining W.contents
            codec.old self.old writer_codec.old writer.old (Ok true)
            codec.new self.new writer_codec.new writer.new }
        ensures header { IsTrue result → header_of codec.new ≡ None }
        ensures rest { self.new ≡ record self.old { unread = self.new.unread } }
        ensures limit { codec.new.max_allowed_packet ≡ codec.old.max_allowed_packet }
        ensures other { (header_of writer_codec.new ≡ header_of writer_codec.old)
            × (writer_codec.new.max_allowed_packet ≡ writer_codec.old.max_allowed_packet) }
        ensures not { IsFalse result → (self.new ≡ self.old) × (codec.new ≡ codec.old)
            × (writer.new ≡ writer.old) × (writer_codec.new ≡ writer_codec.old) }
    {
        let Some((len, next)) = self.input.whole_front(codec) else {
            return false;
        };
        let seq_id = writer_codec.sequence_id();
        let header = Header { len, seq_id }.bytes();
        let payload = &self.input.src.as_slice()[HEADER_LEN..HEADER_LEN + len];
        if !writer.put_in_room(&header, payload) {
            return false;
        }
        self.input.src.advance(HEADER_LEN + len);
        codec.begin_at(next);
        writer_codec.set_sequence_id(seq_id.wrapping_add(1)); // after 255 comes 0
        true
    }

    // Copies the packet in front, as far as two steps go: whether it has ended. Where it hasn't,
    // it is under way from then on, and a call goes on with it.
    pub(super) fn copy_begin<W: Write>(
        &mut self,
        codec: &mut PacketCodec,
        writer: &mut W,
    ) -> Result<bool, PacketIoError>
        requires can { CanCopy codec.old self.old }
        requires place { IsNone self.old.copied → IsFalse self.old.is_lost }
        ensures goes { Copies (has_ended result) (copied_to self.old.copied codec.old)
            self.old.unread (W.contents writer.old) (copied_to self.new.copied codec.new)
            self.new.unread (W.contents writer.new) }
        ensures ended { IfOk result (λ ended. IsTrue ended
            → IsNone self.new.copied × IsFalse self.new.is_lost) }
        ensures going { result ≡ Ok false → IsSome self.new.copied }
        ensures stops { IfErr result (λ error.
            StopsHere error (copied_to self.new.copied codec.new) self.new.unread) }
        ensures loses { IfErr result (λ error. IsTrue self.new.is_lost
            ↔ (IsSome self.new.copied ⊎ (error ≡ PacketIoError.PacketsOutOfSync))) }
        ensures header { IsNone self.new.copied → header_of codec.new ≡ None }
        ensures under_way { IsSome self.new.copied → codec.new ≡ codec.old }
        ensures can { CanCopy codec.new self.new }
        ensures rest { (self.new ≡ record self.old {
          unread = self.new.unread;
          copied = self.new.copied;
          is_lost = self.new.is_lost;
        })
            × (codec.new.max_allowed_packet ≡ codec.old.max_allowed_packet) }
    {
        if self.copied.is_some() {
            return Ok(false);
        }
        self.lent = None;
        let mut decoder = in_front_of(codec);
        match self.input.copy_begin(&mut decoder, writer) {
            Ok(true) => {
                codec.begin_at(decoder.sequence_id());
                Ok(true)
            }
            Ok(false) => {
                self.copied = Some(decoder);
                Ok(false)
            }
            Err(error) => {
                let is_lost = matches!(&error, PacketIoError::PacketsOutOfSync);
                self.keep_place(codec, decoder, is_lost);
                Err(error)
            }
        }
    }
}
