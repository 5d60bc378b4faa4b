//! `unframe STEP LIMIT [LATER AT]`: the packets of the input, as they come.

ghost use Rattle.std.specs.Prelude.{◌≡◌, ◌≢◌, ◌<◌, ◌≤◌, ◌⊎◌, ◌-◌, [], length, Err, OnOk, IfOk, string_bytes, vec_len};
ghost use Rattle.mysql_wire_tool_commands.specs.declared.unframe.Verdict.TheVariants.{Waits};

use crate::input::read_piece;
use crate::lines::push_rest;
use crate::output::write_whole;
use crate::packet_lines::{TEXT_AT_ONCE, write_packets};
use crate::piece_lines::PieceLines;
use crate::room::make_room;
use crate::status::{Stop, exit_status};
use crate::traced_read::TracedRead;
use bytes::BytesMut;
use std::alloc::{AllocError, Allocator};
use std::io::Write;
use wire_buf::lengths::MAX_PAYLOAD_LEN;
use wire_codec::codec::error::PacketCodecError;
use wire_codec::codec::{PacketCodec, deliver_each_limited, deliver_limited};
use wire_codec::laws;

// Packets are visited where they lie where fewer bytes than these are unread, and fewer than those
// come: together they hold no full chunk. This many bytes take lines that are held, but for one.
const MOST_UNREAD: usize = TEXT_AT_ONCE / 2;

const MOST_AT_ONCE: usize = MAX_PAYLOAD_LEN - MOST_UNREAD;

/// Why no more packets come from the bytes read so far.
#[derive(Clone, Copy)]
pub enum Verdict {
    /// More bytes are needed.
    Waits,
    /// The next chunk would take its packet past the limit.
    TooLarge,
    /// The next chunk bears another id.
    OutOfSync,
}

// A codec and its buffers, the packets of the last piece, and the limits of what is still to come.
#[derive(Drop)]
struct Run<A: Allocator + Copy> {
    codec: PacketCodec,
    src: BytesMut<A>,
    dst: Vec<u8, A>,
    // What is not yet written.
    lines: PieceLines<A>,
    // The limit of this many bytes more, and that of those after them.
    limit: usize,
    ahead: usize,
    later: usize,
}

impl<A: Allocator + Copy> Run<A> {
    ghost use Rattle.mysql_wire_tool_commands.specs.PieceLines.{HoldsLines, pending_lines};
    ghost use Rattle.wire_codec.specs.GoingOn.{TakesGoingOn};
    ghost use Rattle.mysql_wire_tool_commands.specs.Unframe.{StartsRun, TakesPiece, bytes_left, next_limit, run_state};
    ghost use Rattle.wire_codec.specs.LimitedRuns.{Aligned, TakesLimited};

    fn new(alloc: A, limit: usize, later: usize, at: usize) -> Self
        ensures { StartsRun limit later at result }
    {
        Run {
            codec: PacketCodec::default(),
            src: BytesMut::new(alloc),
            dst: Vec::new(alloc),
            lines: PieceLines::new(alloc),
            limit,
            ahead: at,
            later,
        }
    }

    // How many bytes the next read is asked for: as many as a step has, but none past the place
    // where the limit changes, from before it.
    fn next_read(&self, step: usize) -> usize
        requires { 0 < step }
        ensures some { 0 < result }
        ensures step { result ≤ step }
        ensures apart { 0 < self.now.ahead → result ≤ self.now.ahead }
        ensures no_less { (result ≡ step) ⊎ (result ≡ self.now.ahead) }
    {
        if self.ahead > 0 {
            step.min(self.ahead)
        } else {
            step
        }
    }

    // The limit of the next read's bytes.
    fn next_limit(&self) -> usize
        ensures { result ≡ next_limit self.now }
    {
        if self.ahead > 0 {
            self.limit
        } else {
            self.later
        }
    }

    // The limit of a piece of this many bytes, which are now no more ahead.
    fn begin_piece(&mut self, len: usize) -> usize
        ensures limit { result ≡ next_limit self.old }
        ensures rest { self.new ≡ record self.old { ahead = self.old.ahead - len } }
    {
        let limit = self.next_limit();
        self.ahead = self.ahead.saturating_sub(len);
        limit
    }

    // How many of this many bytes are taken at once: with the unread ones as many as take lines that
    // are held, or all where a packet is under way that is too large for that.
    fn part_len(&self, len: usize) -> usize
        ensures within { result ≤ len }
        ensures some { 0 < len → 0 < result }
    {
        if self.src.len() < MOST_UNREAD {
            len.min(MOST_UNREAD - self.src.len())
        } else {
            len
        }
    }

    // Delivers the packets of pieces with this many bytes. Where one is under way that is too large for
    // its line to be held, or one of several chunks may come whole, they are moved out of the
    // buffers, and else each is visited where it lies.
    fn deliver(
        &mut self,
        len: usize,
        pieces: &[(usize, &[u8])],
    ) -> (usize, Result<(), PacketCodecError>)
        requires { Aligned (run_state self.old) }
        ensures runs { TakesLimited (run_state self.old) pieces.now result.0 result.1
            (run_state self.new) (HoldsLines self.new.lines) }
        ensures on { TakesGoingOn (run_state self.old) pieces.now result.0 result.1
            (run_state self.new) (HoldsLines self.new.lines) }
        ensures all { OnOk result.1 (result.0 ≡ length pieces.now) }
        ensures aligned { result.1 ≢ Err PacketCodecError.PacketsOutOfSync
            → Aligned (run_state self.new) }
        ensures limits { (self.new.limit ≡ self.old.limit) × (self.new.later ≡ self.old.later)
            × (self.new.ahead ≡ self.old.ahead) }
    {
        self.lines.clear();
        make_room(&mut self.src, len);
        let is_small = self.dst.is_empty() && self.src.len() < MOST_UNREAD && len < MOST_AT_ONCE;
        let (codec, src, dst) = (&mut self.codec, &mut self.src, &mut self.dst);
        if is_small {
            deliver_each_limited(codec, src, dst, pieces, &mut self.lines)
        } else {
            deliver_limited(codec, src, dst, pieces, &mut self.lines.packets)
        }
    }

    // Takes the packets of one part more of a piece, under the piece's limit.
    fn take(&mut self, limit: usize, part: &[u8]) -> Result<Verdict, Stop>
        requires { Aligned (run_state self.old) }
        ensures takes { IfOk result
            (λ verdict. TakesPiece (run_state self.old) limit part.now verdict
            (pending_lines self.new.lines) (run_state self.new)) }
        ensures aligned { IfOk result (λ verdict. verdict ≡ Waits → Aligned (run_state self.new)) }
        ensures limits { (self.new.limit ≡ self.old.limit) × (self.new.later ≡ self.old.later)
            × (self.new.ahead ≡ self.old.ahead) }
    {
        let pieces = [(limit, part)];
        let (_, result) = self.deliver(part.len(), &pieces);
        if self.lines.is_refused {
            return Err(Stop::Memory);
        }
        match result {
            Ok(()) => Ok(Verdict::Waits),
            Err(PacketCodecError::PacketTooLarge) => Ok(Verdict::TooLarge),
            Err(PacketCodecError::PacketsOutOfSync) => Ok(Verdict::OutOfSync),
            Err(PacketCodecError::OutOfMemory) => Err(Stop::Memory),
            Err(PacketCodecError::Io(_)) => unreachable!(),
        }
    }

    // How many bytes came after the last whole packet: the full chunks of an unfinished one, with
    // their headers, and the bytes unread.
    fn bytes_left(&self) -> u128
        ensures { result ≡ bytes_left (run_state self.now) }
    {
        let held = self.dst.len();
        let headers = (held / MAX_PAYLOAD_LEN) as u128 * 4;
        held as u128 + headers + self.src.len() as u128
    }
}

ghost use Rattle.mysql_wire_tool_commands.specs.Unframe.{verdict_line};

// The line that says why packets stop, where they do.
fn verdict_text(verdict: Verdict) -> &'static str
    ensures { result.now ≡ verdict_line verdict }
{
    match verdict {
        Verdict::Waits => "",
        Verdict::TooLarge => "too large\n",
        Verdict::OutOfSync => "out of sync\n",
    }
}

ghost use Rattle.mysql_wire_tool_commands.specs.Unframe.{RunEnds, RunStops, StartsRun, StopsOver, UnframeEnds, UnframeEndsOver, UnframeLimitedEnds, WritesPart, WritesPiece, bytes_left, ending_line, ending_status, next_limit, place_limits, run_state};
ghost use Rattle.mysql_wire_tool_commands.specs.Reads.{AsksStep, AsksUpTo, ReadsWhile};
ghost use Rattle.std.specs.Io.KnownBytes.{Appends};
ghost use Rattle.wire_codec.specs.Delivery.{Waiting};
ghost use Rattle.wire_codec.specs.LimitedRuns.{Aligned, WaitsUnder};
ghost use Rattle.wire_codec.specs.Runs.{WaitsFrom};

// Takes the packets of one part more of a piece, under the piece's limit, and writes their lines.
fn take_part<A: Allocator + Copy, W: Write>(
    run: &mut Run<A>,
    limit: usize,
    part: &[u8],
    output: &mut W,
) -> Result<Verdict, Stop>
    requires { Aligned (run_state run.old) }
    ensures takes { IfOk result (λ verdict. WritesPart limit run.old run.new part.now verdict
        (W.contents output.old) (W.contents output.new)) }
    ensures aligned { IfOk result (λ verdict. verdict ≡ Waits → Aligned (run_state run.new)) }
    ensures limits { (run.new.limit ≡ run.old.limit) × (run.new.later ≡ run.old.later)
        × (run.new.ahead ≡ run.old.ahead) }
{
    let verdict = run.take(limit, part)?;
    let lines = &mut run.lines;
    write_packets(&mut lines.text, lines.packets.as_slice(), output)?;
    lines
        .text
        .extend_from_slice(verdict_text(verdict).as_bytes())?;
    write_whole(output, lines.text.as_slice())?;
    Ok(verdict)
}

// Takes the packets of one more piece, which comes under one limit, part by part, and writes the
// lines of each part after it.
fn take_piece<A: Allocator + Copy, W: Write>(
    run: &mut Run<A>,
    piece: &[u8],
    output: &mut W,
) -> Result<Verdict, Stop>
    requires { Aligned (run_state run.old) }
    ensures takes { IfOk result (λ verdict. WritesPiece run.old run.new piece.now verdict
        (W.contents output.old) (W.contents output.new)) }
    ensures aligned { IfOk result (λ verdict. verdict ≡ Waits → Aligned (run_state run.new)) }
    ensures limits { (run.new.limit ≡ run.old.limit) × (run.new.later ≡ run.old.later)
        × (run.new.ahead ≡ run.old.ahead - length piece.now) }
{
    laws::joined_limited_runs();
    laws::framed_length();
    let limit = run.begin_piece(piece.len());
    let mut rest = piece;
    'parts: loop {
        let (part, behind) = rest.split_at(run.part_len(rest.len()));
        match take_part(run, limit, part, output)? {
            Verdict::Waits => {}
            Verdict::TooLarge => return Ok(Verdict::TooLarge),
            Verdict::OutOfSync => return Ok(Verdict::OutOfSync),
        }
        if behind.is_empty() {
            return Ok(Verdict::Waits);
        }
        rest = behind;
    }
}

// Writes how many bytes are left at the end of the input. The answer is the exit status.
fn write_rest<A: Allocator + Copy, W: Write>(
    alloc: A,
    run: &Run<A>,
    output: &mut W,
) -> Result<u8, Stop>
    ensures text { OnOk result (Appends (W.contents output.old) (W.contents output.new)
        (ending_line Waiting (bytes_left (run_state run.now)))) }
    ensures status { IfOk result
        (λ status. status ≡ ending_status Waiting (bytes_left (run_state run.now))) }
{
    let count = run.bytes_left();
    let mut text = String::new(alloc);
    push_rest(&mut text, count)?;
    write_whole(output, text.as_bytes())?;
    Ok(if count == 0 { 0 } else { 3 })
}

/// Asks each read for `step` bytes (at least 1), and writes a line for each packet that it
/// completes, under a limit of `limit` payload bytes a packet. The answer is the exit status: 0
/// where the input ended between two packets, 3 where it ended inside one, 4 at a packet past the
/// limit, 5 at a chunk of another id, 2 where a read or a write failed, 6 where memory was refused.
pub fn run_unframe<A: Allocator + Copy, R: TracedRead, W: Write>(
    alloc: A,
    step: usize,
    limit: usize,
    input: &mut R,
    output: &mut W,
) -> u8
    requires { 0 < step }
    ensures ended { UnframeEnds limit result (R.remaining input.old) (R.remaining input.new)
        (W.contents output.old) (W.contents output.new) }
    ensures asked { AsksStep step (R.reads input.old) (R.reads input.new) }
    // Each read is made where what came before it only waits.
    ensures stops { ReadsWhile (λ front. WaitsFrom 0 front [] limit)
        (R.reads input.old) (R.reads input.new) (R.remaining input.old) }
{
    laws::nothing_read();
    laws::equal_limits();
    exit_status(unframe(alloc, step, limit, limit, 0, input, output))
}

/// The same under a limit that changes: bytes of the input from place `at` on, counted from 0, come
/// under `later`, and those before it under `limit`. A chunk is judged by the limit of the fourth
/// byte of its header. A read before that place is asked for no byte past it.
pub fn run_unframe_limited<A: Allocator + Copy, R: TracedRead, W: Write>(
    alloc: A,
    step: usize,
    limit: usize,
    later: usize,
    at: usize,
    input: &mut R,
    output: &mut W,
) -> u8
    requires { 0 < step }
    ensures ended { UnframeLimitedEnds limit later at result
        (R.remaining input.old) (R.remaining input.new)
        (W.contents output.old) (W.contents output.new) }
    ensures asked { AsksUpTo step at (R.reads input.old) (R.reads input.new) }
    ensures stops { ReadsWhile (λ front. WaitsUnder (place_limits limit later at) 0 front [])
        (R.reads input.old) (R.reads input.new) (R.remaining input.old) }
{
    exit_status(unframe(alloc, step, limit, later, at, input, output))
}

// Reads pieces and takes their packets, until the input ends or the packets stop.
fn take_pieces<A: Allocator + Copy, R: TracedRead, W: Write>(
    alloc: A,
    step: usize,
    run: &mut Run<A>,
    piece: &mut Vec<u8, A>,
    input: &mut R,
    output: &mut W,
) -> Result<u8, Stop>
    requires some { 0 < step }
    requires room { vec_len piece.old ≡ step }
    requires starts { StartsRun run.old.limit run.old.later run.old.ahead run.old }
    ensures ended { IfOk result
        (λ status. RunEnds run.old status (R.remaining input.old) (R.remaining input.new)
        (W.contents output.old) (W.contents output.new)) }
    ensures reads { AsksUpTo step run.old.ahead (R.reads input.old) (R.reads input.new)
        × RunStops run.old (R.reads input.old) (R.reads input.new) (R.remaining input.old) }
{
    laws::empty_goes_on();
    laws::joined_limited_runs();
    laws::framed_length();
    'reads: for _ in 0..u64::MAX {
        let count = read_piece(input, piece, run.next_read(step))?;
        if count == 0 {
            return write_rest(alloc, run, output);
        }
        match take_piece(run, &piece[..count], output)? {
            Verdict::Waits => {}
            Verdict::TooLarge => return Ok(4),
            Verdict::OutOfSync => return Ok(5),
        }
    }
    Err(Stop::Io)
}

// The same, with the exit status or why it gave up.
fn unframe<A: Allocator + Copy, R: TracedRead, W: Write>(
    alloc: A,
    step: usize,
    limit: usize,
    later: usize,
    at: usize,
    input: &mut R,
    output: &mut W,
) -> Result<u8, Stop>
    requires { 0 < step }
    ensures ended { IfOk result (λ status. UnframeEndsOver limit later at status
        (R.remaining input.old) (R.remaining input.new)
        (W.contents output.old) (W.contents output.new)) }
    ensures reads { AsksUpTo step at (R.reads input.old) (R.reads input.new)
        × StopsOver limit later at (R.reads input.old) (R.reads input.new)
        (R.remaining input.old) }
{
    let mut piece = Vec::from_elem(alloc, 0u8, step)?;
    let mut run = Run::new(alloc, limit, later, at);
    take_pieces(alloc, step, &mut run, &mut piece, input, output)
}
