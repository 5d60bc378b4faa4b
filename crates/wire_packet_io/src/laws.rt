//! Laws of readers of packets. Each function takes and answers nothing: its contract is the law, and
//! a caller has it by calling.

ghost use Rattle.wire_packet_io.specs.Bounds.{BoundedReads};
ghost use Rattle.wire_packet_io.specs.Copying.{CopiedPacket};
ghost use Rattle.wire_packet_io.specs.Relaying.{RelayedFront, RelayedPacket};

/// How many bytes a reader keeps, whatever its peer sends: what was there before the call, or what
/// a packet of at most the limit takes with its headers, 3 bytes more, and one read of 8192.
pub fn bounded_reads()
    ensures { BoundedReads }
{}

/// What one call of `copy_packet` wrote is the packet, where it began in front of one: the bytes
/// that were there began with its framing, and the codec is after it.
pub fn copied_packet()
    ensures { CopiedPacket }
{}

/// What one call of `relay_packet` passed on, where it began in front of a packet: the same bytes
/// came and went, framed with the ids of each side, and both codecs are after them. Where the call
/// stopped before the packet's end, what came and what went are the fronts of those framings.
pub fn relayed_packet()
    ensures whole { RelayedPacket }
    ensures front { RelayedFront }
{}
