//! `reframe LIMIT`: whole packets from input to output.

ghost use Rattle.std.specs.Prelude.{◌≡◌, ◌≤◌, [], OnOk, IfOk, length};
ghost use Rattle.mysql_wire_tool_commands.specs.LongPackets.{IsAtHeader, IsInFront};
ghost use Rattle.mysql_wire_tool_commands.specs.Reframe.{CopiesOn, Drops, PassesWhole, EndsCopying, Finishes, ReframeEnds, StartsReading, place_of};

use crate::long_packet::{LongPacket, Taken, codec_at, may_be_long};
use crate::sender::Sender;
use crate::status::{Stop, exit_status};
use std::alloc::Allocator;
use std::io::{Read, Write};
use wire_codec::codec::PacketCodec;
use wire_codec::laws;
use wire_packet_io::{PacketIoError, PacketReader};

// How many bytes wait for the next packet, at most; a larger packet is written at once.
const MOST_HELD_BACK: usize = 8192;

// How many bytes are dropped at once.
const PIECE: usize = 4096;

// Why no packet more is copied.
#[derive(Clone, Copy)]
enum Ended {
    // The exit status says it.
    At(u8),
    // A chunk of another id is in front, of which this many bytes have not come.
    OutOfSync(usize),
}

// Goes after the packets of one chunk that lie whole in front of this codec, up to `most` bytes and
// one packet more. The answer is how many bytes they have with their headers.
fn whole_packets(unread: &[u8], codec: &mut PacketCodec, most: usize) -> usize
    requires codec { IsAtHeader codec.old }
    ensures passes { PassesWhole codec.old unread.now result codec.new }
    ensures limit { codec.new.max_allowed_packet ≡ codec.old.max_allowed_packet }
{
    laws::joined_splits();
    laws::stream_append();
    laws::id_after_append();
    laws::between_packets();
    let mut len = 0;
    'packets: while len < most {
        let rest = unread.split_at(len).1;
        if codec.front_packet_in(rest, &[]).is_none() {
            return len;
        }
        len += codec.accept_front_in(rest);
    }
    len
}

// Passes on packets that lie whole in what was read, as they lie there, up to as many bytes as may be
// pending: both codecs count from id 0.
fn pass_whole<A: Allocator + Copy, R: Read, W: Write>(
    from: &mut PacketReader<R, A>,
    decoder: &mut PacketCodec,
    to: &mut Sender<W, A>,
    encoder: &mut PacketCodec,
)
    requires front { IsInFront from.old }
    requires codec { IsAtHeader decoder.old }
    ensures copies { CopiesOn
        (place_of R.remaining W.contents from.old decoder.old to.old encoder.old)
        (place_of R.remaining W.contents from.new decoder.new to.new encoder.new) }
    ensures front { IsInFront from.new }
    ensures codec { IsAtHeader decoder.new }
    ensures limits { (decoder.new.max_allowed_packet ≡ decoder.old.max_allowed_packet)
        × (encoder.new.max_allowed_packet ≡ encoder.old.max_allowed_packet) }
{
    laws::between_packets();
    let most = MOST_HELD_BACK.saturating_sub(to.pending.len());
    let unread = from.unread();
    let mut behind = codec_at(decoder.max_allowed_packet, decoder.sequence_id());
    let len = whole_packets(unread, &mut behind, most);
    let Ok(()) = to.pending.extend_from_slice(unread.split_at(len).0) else {
        return;
    };
    from.consume(len);
    encoder.set_sequence_id(behind.sequence_id());
    *decoder = behind;
}

// Copies whole packets, framed from id 0 on. What is framed waits while the next packet is there
// whole, and is written before a read.
fn copy_packets<A: Allocator + Copy, R: Read, W: Write>(
    alloc: A,
    limit: usize,
    from: &mut PacketReader<R, A>,
    to: &mut Sender<W, A>,
) -> Result<Ended, Stop>
    requires reader { StartsReading from.old }
    requires writer { to.old.pending.items ≡ [] }
    ensures { IfOk result (λ ended. EndsCopying limit ended
        (R.remaining from.old.reader) (R.remaining from.new.reader)
        (W.contents to.old.chunks.writer) (W.contents to.new.chunks.writer)) }
{
    laws::nothing_read();
    laws::joined_runs();
    laws::joined_splits();
    laws::stream_append();
    laws::id_after_append();
    laws::between_packets();
    wire_span::laws::spans_stop();
    let mut decoder = codec_at(limit, 0);
    let mut encoder = codec_at(limit, 0);
    let mut long = LongPacket::new(alloc);
    'packets: for _ in 0..u64::MAX {
        pass_whole(from, &mut decoder, to, &mut encoder);
        to.send(false)?;
        if from.reads() == u64::MAX {
            return Err(Stop::Io);
        }
        if may_be_long(from.unread()) {
            match long.take(limit, decoder.sequence_id(), from)? {
                Taken::Whole(next) => {
                    decoder.begin_at(next);
                    to.pass_on(&mut encoder, long.bytes.as_slice())?;
                    continue 'packets;
                }
                Taken::Ends(status) => return Ok(Ended::At(status)),
                Taken::OutOfSync(lacking) => return Ok(Ended::OutOfSync(lacking)),
            }
        }
        match from.fill_packet(&mut decoder) {
            Ok(true) => to.pass_on(&mut encoder, from.packet())?,
            Ok(false) => return Ok(Ended::At(0)),
            Err(PacketIoError::UnexpectedEnd) => return Ok(Ended::At(3)),
            Err(PacketIoError::PacketTooLarge) => return Ok(Ended::At(4)),
            Err(PacketIoError::PacketsOutOfSync) => return Ok(Ended::At(5)),
            Err(PacketIoError::OutOfMemory) => return Err(Stop::Memory),
            Err(_) => return Err(Stop::Io),
        }
        from.take_packet();
    }
    Err(Stop::Io)
}

// Reads this many bytes more of a chunk of another id, and drops them. The answer is the exit status:
// 5, or 3 where the input ends before.
fn drop_bytes<R: Read>(input: &mut R, count: usize) -> Result<u8, Stop>
    ensures { IfOk result (λ status. Drops count status (R.remaining input.old)
        (R.remaining input.new)) }
{
    let mut piece = [0; PIECE];
    let mut left = count;
    'reads: while left > 0 {
        let most = left.min(PIECE);
        let Ok(came) = input.read(&mut piece[..most]) else {
            return Err(Stop::Io);
        };
        if came == 0 {
            return Ok(3);
        }
        left -= came;
    }
    Ok(5)
}

// Ends with this exit status, once the chunk in front has come.
fn finish<R: Read>(ended: Result<Ended, Stop>, input: &mut R) -> Result<u8, Stop>
    ensures { IfOk result (λ status. Finishes ended status (R.remaining input.old)
        (R.remaining input.new)) }
{
    match ended? {
        Ended::At(status) => Ok(status),
        Ended::OutOfSync(lacking) => drop_bytes(input, lacking),
    }
}

/// Copies whole packets from input to output, under a limit of `limit` payload bytes a packet, each
/// framed from id 0 on. The answer is the exit status: 0 where the input ended between two packets,
/// 3 where it ended inside one, 4 at a packet past the limit, 5 at a chunk of another id, 2 where a
/// read or a write failed, 6 where memory was refused; and input and output themselves, as they
/// are then.
pub fn run_reframe<A: Allocator + Copy, R: Read, W: Write>(
    alloc: A,
    limit: usize,
    input: R,
    output: W,
) -> (u8, R, W)
    ensures { ReframeEnds limit result.0 (R.remaining input) (R.remaining result.1)
        (W.contents output) (W.contents result.2) }
{
    let Ok(mut from) = PacketReader::new(alloc, input) else {
        unreachable!();
    };
    let mut to = Sender::new(alloc, output);
    let ended = copy_packets(alloc, limit, &mut from, &mut to);
    let (mut input, output) = (from.into_inner(), to.into_inner());
    let status = exit_status(finish(ended, &mut input));
    (status, input, output)
}
