//! Streams measured in constant memory, whatever the size of their packets.

ghost use Rattle.std.specs.Prelude.{◌≡◌, ◌+◌, ◌-◌, ◌^◌, ℕ, List, length, min, if◌then◌else◌, IfOk, IfErr};
ghost use Rattle.mysql_wire.specs.Runs.{joined};
ghost use Rattle.mysql_wire.specs.Spans.{SpanState, CameTo};
ghost use Rattle.mysql_wire_examples.specs.Measured.{IsRefused, Measures};

use mysql_wire::laws;
use mysql_wire::proto::codec::{SpanDecoder, SpanError, VisitSpan, visit_spans};

/// How many packets have come whole, and how many payload bytes, those of an unfinished packet too.
#[derive(Clone, Copy)]
pub struct StreamSize {
    pub packets: u64,
    pub bytes: u64,
}

impl VisitSpan for StreamSize {
    // Both counts stay at the end of their range.
    ghost sees = { λ old span new.
        (new.packets ≡ (if span.1 then min (old.packets + 1) (2 ^ 64 - 1) else old.packets))
        × (new.bytes ≡ min (old.bytes + length span.0) (2 ^ 64 - 1)) };

    fn visit(&mut self, bytes: &[u8], ends_packet: bool) {
        self.bytes = self.bytes.saturating_add(bytes.len() as u64);
        if ends_packet {
            self.packets = self.packets.saturating_add(1);
        }
    }
}

/// Measures a stream that begins with the id 0, from the pieces that have come, under a limit of so
/// many payload bytes a packet. It takes no memory.
pub fn measure(limit: usize, pieces: &[&[u8]]) -> Result<StreamSize, SpanError>
    ensures came { IfOk result (λ size. (packets : List (List ℕ)) × (opened : List ℕ)
        × (state : SpanState) × CameTo 0 limit (joined pieces.now) packets opened state
        × Measures size packets opened) }
    ensures refused { IfErr result (λ error. IsRefused error limit (joined pieces.now)) }
{
    laws::spans_begin();
    let mut decoder = SpanDecoder::default();
    decoder.max_allowed_packet = limit;
    let mut size = StreamSize {
        packets: 0,
        bytes: 0,
    };
    for piece in pieces {
        let mut rest = *piece;
        match visit_spans(&mut decoder, &mut rest, &mut size) {
            Ok(()) => {}
            Err(error) => return Err(error),
        }
    }
    Ok(size)
}
