//! A packet of another id, told as soon as its header has come.

ghost use Rattle.std.specs.Prelude.{◌↔◌, IsTrue};
ghost use Rattle.wire_codec.specs.Codec.{expected_id};
ghost use Rattle.wire_codec.specs.Early.{EarlyJudgement, IsOutOfStep};

use crate::codec::header::HEADER_LEN;
use crate::codec::packet::PacketCodec;

/// Whether the header in front of the unread bytes has come, and bears another id than the codec
/// expects: then `decode` answers `PacketsOutOfSync`, but only once the whole chunk has come, which
/// may be 16 MiB. Ask it where `decode` waits.
pub fn is_out_of_step(codec: &PacketCodec, unread: &[u8]) -> bool
    ensures { IsTrue result ↔ IsOutOfStep (expected_id codec.now) unread.now }
{
    unread.len() >= HEADER_LEN && unread[HEADER_LEN - 1] != codec.sequence_id()
}

/// What `is_out_of_step` tells is never later than what `decode` tells of the chunk in front, and of
/// a chunk that has come it is the same.
#[tactic(auto, using(crate::proofs::EarlyLemmas::early_judgement_is))]
pub fn early_judgement()
    ensures { EarlyJudgement }
{}
