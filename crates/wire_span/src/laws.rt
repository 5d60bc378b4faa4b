//! Laws of spans. Each function takes and answers nothing: its contract is the law, and a caller
//! has it by calling.

ghost use Rattle.wire_span.specs.SpanLaws.{JoinedRenumberings, JoinedSpans, NothingCame, OneSpanning, RenumberedStream, SpansBegin, SpansDeliver, SpansEnd, SpansFollow, SpansStop};
ghost use Rattle.wire_span.specs.Parts.{SpansStand};
ghost use Rattle.wire_span.specs.FrameLaws.{FramedPacket, FramedStream, FramesFront, JoinedFrames, NothingFramed};

use wire_codec::laws::one_delivery;

/// Between two packets a decoder of spans begins a stream, with the id that it expects.
pub fn spans_begin()
    ensures { SpansBegin }
{}

/// What came in spans is what the stream delivers: the packets that the spans make are its
/// payloads, and the bytes of the open packet are the delivery's full chunks and what came of the
/// open chunk.
pub fn spans_deliver()
    ensures { SpansDeliver }
{}

/// Between two packets that a codec delivered, a decoder of spans goes on, with the id that the
/// codec expects.
pub fn spans_follow()
    ensures { SpansFollow }
{}

/// Between two packets that came in spans, nothing is open and the id is the one after them, so
/// that a codec with this id goes on.
pub fn spans_end()
    ensures { SpansEnd }
{}

/// Where a decoder of spans stops, the stream's delivery does: in front of the same chunk.
pub fn spans_stop()
    ensures { SpansStop }
{}

/// A decoder that stands where some stream brings it still does so after more bytes.
pub fn spans_stand()
    ensures { SpansStand }
{}

/// Two cuttings of one stream agree, in the packets, in the bytes of the open one, and in where the
/// decoders of spans stand.
pub fn one_spanning()
    ensures { OneSpanning }
{
    one_delivery();
}

/// Calls of a decoder of spans, one after another, are one call over all that they ate.
pub fn joined_spans()
    ensures { JoinedSpans }
{}

/// No bytes in no spans change nothing.
pub fn nothing_came()
    ensures { NothingCame }
{}

/// A piece that was renumbered whole, and the one after it, are one piece.
pub fn joined_renumberings()
    ensures { JoinedRenumberings }
{}

/// Between two packets, what went out is the stream of the payloads that came in, with ids that
/// count on from the other first one.
pub fn renumbered_stream()
    ensures { RenumberedStream }
{}

/// Calls of a writer of frames, one after another, are one call over all that they ate.
pub fn joined_frames()
    ensures { JoinedFrames }
{}

/// No bytes that came, and none that went, change nothing.
pub fn nothing_framed()
    ensures { NothingFramed }
{}

/// What went out of a packet, whatever the pieces, is the front of the framing of each payload of
/// the stated length that begins with the bytes that came.
pub fn frames_front()
    ensures { FramesFront }
{}

/// Once the packet has gone whole, what went out is the framing of the bytes that came, from the id
/// at `begin` on, and the next chunk bears the id after it.
pub fn framed_packet()
    ensures { FramedPacket }
{}

/// Packets that went out one after another are the stream of their payloads.
pub fn framed_stream()
    ensures { FramedStream }
{}
