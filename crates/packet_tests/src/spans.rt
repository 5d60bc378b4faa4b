//! A decoder of spans beside a codec. Where it stands the tests in C say.

use std::alloc::Global;
use std::test::Fail;
use test_support::answers::{Answer, shows};
use test_support::facts::{all_hold, same};
use test_support::receiver::Receiver;
use wire_span::{SpanDecoder, SpanError, UnfinishedPacket};

fn decoder_from(first_id: u8) -> SpanDecoder {
    let mut decoder = SpanDecoder::default();
    decoder.max_allowed_packet = 3;
    decoder.set_sequence_id(first_id);
    decoder
}

// The first packet of a stream, and what comes after it.
const FRONT: &[u8] = b"\x03\0\0\xfeabc";

const BEHIND: &[u8] = b"\0\0\0\xff\x01\0\0\0z\x02\0\0\x01";

// Whether the next span is this packet, whole.
fn gives(decoder: &mut SpanDecoder, piece: &mut &[u8], packet: &[u8]) -> bool {
    match decoder.next_span(piece) {
        Ok(Some(span)) => span.ends_packet & same(span.bytes, packet),
        _ => false,
    }
}

// Whether spans go on after a codec that took the first packet.
fn spans_go_on(alloc: Global) -> bool {
    let mut receiver = Receiver::new(alloc, 3);
    receiver.codec.set_sequence_id(254);
    let mut all = receiver.deliver(&[FRONT]) == (1, Answer::Waits);
    let mut decoder = decoder_from(receiver.codec.sequence_id());
    let mut piece = BEHIND;
    all &= gives(&mut decoder, &mut piece, b"") & gives(&mut decoder, &mut piece, b"z");
    all & matches!(decoder.next_span(&mut piece), Ok(None)) & (decoder.sequence_id() == 2)
}

// Whether a codec goes on after spans that brought it.
fn a_codec_goes_on(alloc: Global) -> bool {
    let mut decoder = decoder_from(254);
    let mut piece = FRONT;
    let mut all = gives(&mut decoder, &mut piece, b"abc") & decoder.is_between_packets();
    let mut receiver = Receiver::new(alloc, 3);
    receiver.codec.set_sequence_id(decoder.sequence_id());
    all &= receiver.deliver(&[BEHIND]) == (1, Answer::Waits);
    all & receiver.shows(&[b"", b"z"], b"\x02\0\0\x01", b"")
}

// ---- errors

const TOO_LARGE: &str = "Packet is larger than max_allowed_packet";

fn errors_show_their_texts(alloc: Global) -> bool {
    shows(alloc, &SpanError::PacketTooLarge, TOO_LARGE)
        & shows(alloc, &SpanError::PacketsOutOfSync, "Packets out of sync")
        & shows(alloc, &UnfinishedPacket, "A packet is unfinished")
}

#[test]
fn spans_and_a_codec_go_on_after_each_other(rt: HostRuntime) -> Result<(), Fail> {
    let alloc = rt.alloc();
    all_hold(&[
        spans_go_on(alloc),
        a_codec_goes_on(alloc),
        errors_show_their_texts(alloc),
    ])
}
