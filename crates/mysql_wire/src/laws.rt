//! Laws over the definitions that the contracts cite. Each function but `packet_back` takes and
//! answers nothing: its contract is the law, and a caller has it by calling.

pub use wire_codec::codec::early_judgement;
pub use wire_codec::laws::{
    aligned_goes_on, appended_run, between_packets, bounded_delivery, bounded_limited_delivery,
    chunks_counted, empty_goes_on, encoded_first, equal_limits, framed_length, id_after_append,
    joined_limited_runs, joined_runs, joined_splits, nothing_read, one_delivery,
    one_limited_delivery, one_run, run_goes_on, stream_append, unique_framing,
};
pub use wire_laws::payloads::{packet_back, values_come_back};
pub use wire_packet_io::laws::{bounded_reads, copied_packet, relayed_packet};
pub use wire_span::laws::{
    framed_packet, framed_stream, frames_front, joined_frames, joined_renumberings, joined_spans,
    nothing_came, nothing_framed, one_spanning, renumbered_stream, spans_begin, spans_deliver,
    spans_end, spans_follow, spans_stand, spans_stop,
};
