//! Laws over the definitions that the contracts cite. Each function takes and answers nothing: its
//! contract is the law, and a caller has it by calling.

ghost use Rattle.wire_codec.specs.Laws.{AlignedGoesOn, AppendedRun, BetweenPackets, BoundedDelivery, BoundedLimitedDelivery, ChunksCounted, EmptyGoesOn, EncodedFirst, EqualLimits, FramedLength, IdAfterAppend, JoinedLimitedRuns, JoinedRuns, JoinedSplits, NothingRead, OneDelivery, OneLimitedDelivery, OneRun, RunGoesOn, StreamAppend, UniqueFraming};

/// A stream delivers one list of payloads, one unfinished payload, one rest and one ending.
pub fn one_delivery()
    ensures { OneDelivery }
{}

/// The same where each byte has its limit.
pub fn one_limited_delivery()
    ensures { OneLimitedDelivery }
{}

/// Runs from one state over the same bytes hand out the same packets, end in the same way and leave
/// the same: `deliver` and `deliver_each` do, each with enough memory.
#[tactic(auto, using(crate::proofs::VisitLemmas::one_run_is))]
pub fn one_run()
    ensures { OneRun }
{}

/// Where the codec stands and all limits are its own, what a stream delivers under them is what it
/// delivers.
pub fn equal_limits()
    ensures { EqualLimits }
{}

/// A run, and then a run over what it left and what came since, are together one run over all.
pub fn joined_runs()
    ensures { JoinedRuns }
{}

/// The same where each byte has its limit.
pub fn joined_limited_runs()
    ensures { JoinedLimitedRuns }
{}

/// The same as `joined_runs` of runs that need not have ended.
pub fn joined_splits()
    ensures { JoinedSplits }
{}

/// The same of what `deliver` says: a run that waits, or was refused memory, and the run that goes
/// on from it are one run.
#[tactic(auto, using(crate::proofs::RunLemmas::run_goes_on_is))]
pub fn run_goes_on()
    ensures { RunGoesOn }
{}

/// The same where the bytes are read straight into what is unread, and no pieces are given.
#[tactic(auto, using(crate::proofs::RunLemmas::appended_run_is))]
pub fn appended_run()
    ensures { AppendedRun }
{}

/// A framing with anything after it is the framing of one payload alone.
#[tactic(auto, using(crate::proofs::ChunkLemmas::framing_cancel))]
pub fn unique_framing()
    ensures { UniqueFraming }
{}

/// What is delivered of framed payloads within the limit, with anything after them, begins with
/// these payloads; the other payloads are delivered of what is after them.
#[tactic(auto, using(crate::proofs::ConstantLimit::encoded_first_is))]
pub fn encoded_first()
    ensures { EncodedFirst }
{}

/// Streams one after the other are one stream, so that what one `encode` after another appends is.
#[tactic(auto, using(crate::proofs::DeliveryLemmas::stream_laws))]
pub fn stream_append()
    ensures { StreamAppend }
{}

/// The id after two lists of payloads is the one after the second, begun at the one after the
/// first.
#[tactic(auto, using(crate::proofs::DeliveryLemmas::stream_laws))]
pub fn id_after_append()
    ensures { IdAfterAppend }
{}

/// Between two packets a codec stands, whatever is to be read: it remembers no header, and nothing
/// is held.
#[tactic(auto, using(crate::proofs::RunLemmas::between_packets_is))]
pub fn between_packets()
    ensures { BetweenPackets }
{}

/// A run over no bytes, from empty buffers, waits and changes nothing.
#[tactic(auto, using(crate::proofs::RunLemmas::nothing_read_is))]
pub fn nothing_read()
    ensures { NothingRead }
{}

/// A codec with empty buffers goes on in a stream under any limits, from any place.
#[tactic(auto, using(crate::proofs::GoingOnLemmas::empty_goes_on_is))]
pub fn empty_goes_on()
    ensures { EmptyGoesOn }
{}

/// An aligned codec, with bytes unread or a header remembered, goes on in a stream under whose
/// limits these came: what `deliver_limited` says there holds of its next call.
pub fn aligned_goes_on()
    ensures { AlignedGoesOn }
{}

/// What a delivery holds that waits: together, an unfinished packet and the bytes unread are at most
/// 3 more than the limit, or than what was held before where that is more.
#[tactic(auto, using(crate::proofs::BoundLemmas::bounded_delivery_is))]
pub fn bounded_delivery()
    ensures { BoundedDelivery }
{}

/// The same where each byte has its limit, by the largest of them.
pub fn bounded_limited_delivery()
    ensures { BoundedLimitedDelivery }
{}

/// Over any list of `encode`, `decode` and `reset_seq_id` on a codec, the id expected is the number
/// of chunks encoded and accepted since the last reset, modulo 256; where it was so before them.
#[tactic(auto, using(crate::proofs::ChainLemmas::chunks_counted_is))]
pub fn chunks_counted()
    ensures { ChunksCounted }
{}

/// A payload of n bytes is framed in n + 4 * (n / 16777215 + 1) bytes.
#[tactic(auto, using(crate::proofs::ChunkLemmas::framing_laws))]
pub fn framed_length()
    ensures { FramedLength }
{}
