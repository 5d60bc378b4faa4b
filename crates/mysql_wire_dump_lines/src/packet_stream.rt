//! The packets of one direction.

ghost use Rattle.std.specs.Prelude.{◌≡◌, ◌≢◌, ◌+◌, ◌<◌, ◌≤◌, ℕ, List, [], ◌++◌, drop, length, take, Option, Some, None, IfOk, IfSome, OnOk, MatchOption};
ghost use Rattle.std.specs.Io.KnownBytes.{Consumes, IsAtEnd};
ghost use Rattle.wire_span.specs.Spans.{span_state};
ghost use Rattle.mysql_wire_dump_lines.specs.declared.packet_stream.Next.TheVariants.{Unread, Packet, Ended};
ghost use Rattle.mysql_wire_dump_lines.specs.declared.packet_stream.End.TheVariants.{Encrypted};
ghost use Rattle.mysql_wire_dump_lines.specs.PacketStreams.{AtEnd, Found, IsIdle, IsReady, LiesWhole, LooksOn, PassesPacket, Stands, Stepped, Steps, Took, collects, id_of, payload_of, unread_of};

use crate::status::Stop;
use bytes::BytesMut;
use std::alloc::Allocator;
use std::io::Read;
use wire_buf::lengths::MAX_PAYLOAD_LEN;
use wire_codec::codec::header::{HEADER_LEN, Header};
use wire_span::{SpanDecoder, SpanError, laws};

// The room for one read, in bytes.
const READ_SIZE: usize = 16384;

/// Why a direction has no more packets.
#[derive(Clone, Copy)]
pub enum End {
    /// It ended between two packets.
    Between,
    /// It ended inside a packet.
    Unfinished,
    /// AfterColumns a full chunk stands one of another id than the next.
    OutOfSync,
    /// Its packets are hidden.
    Encrypted,
}

/// What stands next in a direction.
#[derive(Clone, Copy)]
pub enum Next {
    /// It has not been looked for.
    Unread,
    /// A packet, whose first chunk bears this id.
    Packet(u8),
    /// None.
    Ended(End),
}

// How a packet goes on.
#[derive(Clone, Copy)]
enum Step {
    // More bytes are needed.
    Waits,
    // A part of it came.
    Goes,
    // It came whole.
    Whole,
    // The next chunk bears another id.
    LosesSync,
}

/// One direction's packets, one after another, each numbered from the id of its own first chunk. A
/// packet is collected under a limit; the bytes of one above it are passed over.
#[derive(Drop)]
pub struct PacketStream<A: Allocator + Copy> {
    src: BytesMut<A>,
    decoder: SpanDecoder,
    limit: usize,
    next: Next,
    // The bytes of the next packet's chunk, with its header, where it lies whole in front of what was
    // read; else the packet's bytes that came, where it is within the limit. And how many it has.
    lent: Option<usize>,
    held: Vec<u8, A>,
    len: usize,
    // How many bytes the packets before it have, with their headers, and how many it has.
    at: u64,
    taken: u64,
}

// One read: how many bytes came, none at the end of the input.
fn read_more<A: Allocator + Copy, R: Read>(
    src: &mut BytesMut<A>,
    input: &mut R,
) -> Result<usize, Stop>
    ensures came { IfOk result (λ count. (came : List ℕ) × (length came ≡ count)
        × (src.new.items ≡ src.old.items ++ came)
        × Consumes (R.remaining input.old) (R.remaining input.new) came) }
    ensures end { IfOk result (λ count. count ≡ 0 → IsAtEnd (R.remaining input.new)) }
{
    src.reserve(READ_SIZE)?;
    Ok(src.read_from(input)?)
}

// Reads until a header is there, or the input ends.
fn read_header<A: Allocator + Copy, R: Read>(
    src: &mut BytesMut<A>,
    input: &mut R,
) -> Result<(), Stop>
    ensures came { OnOk result ((came : List ℕ) × (src.new.items ≡ src.old.items ++ came)
        × Consumes (R.remaining input.old) (R.remaining input.new) came) }
    ensures end { OnOk result (length src.new.items < 4 → IsAtEnd (R.remaining input.new)) }
{
    'reads: for _ in 0..u64::MAX {
        if src.len() >= 4 {
            return Ok(());
        }
        if read_more(src, input)? == 0 {
            return Ok(());
        }
    }
    Err(Stop::Io)
}

// Counts more bytes of a packet, and holds them where it stays within the limit.
fn collect<A: Allocator + Copy>(
    held: &mut Vec<u8, A>,
    len: &mut usize,
    limit: usize,
    bytes: &[u8],
) -> Result<(), Stop>
    ensures len { OnOk result (len.new ≡ len.old + length bytes.now) }
    ensures held { OnOk result (len.new ≤ limit → held.new.items ≡ held.old.items ++ bytes.now) }
{
    let Some(sum) = len.checked_add(bytes.len()) else {
        return Err(Stop::Io);
    };
    *len = sum;
    if sum <= limit {
        held.extend_from_slice(bytes)?;
    }
    Ok(())
}

// Takes the next bytes of a packet from the front of a piece.
fn take_span<A: Allocator + Copy>(
    decoder: &mut SpanDecoder,
    piece: &mut &[u8],
    held: &mut Vec<u8, A>,
    len: &mut usize,
    limit: usize,
) -> Result<Step, Stop>
    ensures steps { IfOk result (λ step. Steps step
        (collects decoder.old len.old limit held.old.items piece.old.now)
        (collects decoder.new len.new limit held.new.items piece.new.now)) }
    ensures kept { (decoder.new.max_allowed_packet ≡ decoder.old.max_allowed_packet)
        × (length piece.new.now ≤ length piece.old.now) }
{
    laws::spans_end();
    match decoder.next_span(piece) {
        Ok(None) => Ok(Step::Waits),
        Ok(Some(span)) => {
            collect(held, len, limit, span.bytes)?;
            if !span.ends_packet {
                return Ok(Step::Goes);
            }
            // A packet that ends leaves nothing open.
            if decoder.is_between_packets() {
                Ok(Step::Whole)
            } else {
                Err(Stop::Io)
            }
        }
        Err(SpanError::PacketsOutOfSync) => Ok(Step::LosesSync),
        // No length is above the largest.
        Err(SpanError::PacketTooLarge) => Err(Stop::Io),
    }
}

// The payload of the chunk in front, which has this many bytes.
fn front_payload(src: &[u8], chunk: usize) -> &[u8]
    ensures { result.now ≡ drop 4 (take chunk src.now) }
{
    let (front, _) = src.split_at(chunk.min(src.len()));
    front.split_at(HEADER_LEN.min(front.len())).1
}

impl<A: Allocator + Copy> PacketStream<A> {
    /// A direction of which nothing was read.
    pub fn new(alloc: A, limit: usize) -> Self
        ensures stands { Stands [] [] result }
        ensures next { result.next ≡ Unread }
        ensures limit { result.limit ≡ limit }
    {
        let mut decoder = SpanDecoder::default();
        decoder.max_allowed_packet = usize::MAX;
        PacketStream {
            src: BytesMut::new(alloc),
            decoder,
            limit,
            next: Next::Unread,
            lent: None,
            held: Vec::new(alloc),
            len: 0,
            at: 0,
            taken: 0,
        }
    }

    /// What stands next.
    pub fn next(&self) -> Next
        ensures { result ≡ self.now.next }
    {
        self.next
    }

    /// The id of the next packet's first chunk, where there is one.
    pub fn next_id(&self) -> Option<u8>
        ensures { result ≡ id_of self.now.next }
    {
        match self.next {
            Next::Packet(id) => Some(id),
            Next::Unread | Next::Ended(_) => None,
        }
    }

    /// The id after the next packet's last chunk.
    pub fn id_behind(&self) -> u8
        ensures { result ≡ (span_state self.now.decoder).id }
    {
        self.decoder.sequence_id()
    }

    /// How many payload bytes the next packet has.
    pub fn payload_len(&self) -> usize
        ensures { result ≡ self.now.len }
    {
        self.len
    }

    /// The next packet's payload, where it is within the limit.
    pub fn payload(&self) -> Option<&[u8]>
        ensures { MatchOption result (self.now.limit < self.now.len)
            (λ payload. (self.now.len ≤ self.now.limit) × (payload.now ≡ payload_of self.now)) }
    {
        if self.len > self.limit {
            return None;
        }
        match self.lent {
            Some(chunk) => Some(front_payload(self.src.as_slice(), chunk)),
            None => Some(self.held.as_slice()),
        }
    }

    /// How many bytes the packets so far have, with their headers.
    pub fn place(&self) -> u64
        ensures { result ≡ self.now.at }
    {
        self.at
    }

    // Takes the next bytes of the packet from those that were read.
    fn take_read(&mut self) -> Result<Step, Stop>
        ensures { IfOk result (λ step. Took step self.old self.new) }
    {
        let mut piece = self.src.as_slice();
        let before = piece.len();
        let step = take_span(
            &mut self.decoder,
            &mut piece,
            &mut self.held,
            &mut self.len,
            self.limit,
        )?;
        let count = before - piece.len();
        self.src.advance(count);
        let Some(taken) = self.taken.checked_add(count as u64) else {
            return Err(Stop::Io);
        };
        self.taken = taken;
        Ok(step)
    }

    // Takes the next bytes of the packet, from those that were read or else by a read.
    fn step<R: Read>(&mut self, input: &mut R) -> Result<Step, Stop>
        ensures { IfOk result (λ step. Stepped step self.old self.new
            (R.remaining input.old) (R.remaining input.new)) }
    {
        laws::spans_deliver();
        match self.take_read()? {
            Step::Waits => {}
            step => return Ok(step),
        }
        if read_more(&mut self.src, input)? == 0 {
            Ok(Step::Waits)
        } else {
            Ok(Step::Goes)
        }
    }

    // Takes a packet whose header is there, and bears this id.
    fn take_packet<R: Read>(&mut self, id: u8, input: &mut R) -> Result<Next, Stop>
        ensures found { IfOk result (λ next. IsReady id self.old → Found next self.old self.new
            (R.remaining input.old) (R.remaining input.new)) }
        ensures seen { IfOk result (λ next. next ≢ Ended Encrypted) }
        ensures kept { IfOk result (λ next. (self.new.next ≡ self.old.next)
            × (self.new.limit ≡ self.old.limit) × (next ≢ Unread)
            × AtEnd next (R.remaining input.new)) }
    {
        laws::spans_begin();
        self.decoder.set_sequence_id(id);
        'spans: for _ in 0..u64::MAX {
            match self.step(input)? {
                Step::Goes => {}
                Step::Whole => return Ok(Next::Packet(id)),
                Step::LosesSync => return Ok(Next::Ended(End::OutOfSync)),
                Step::Waits => return Ok(Next::Ended(End::Unfinished)),
            }
        }
        Err(Stop::Io)
    }

    // Lends a packet that lies whole in what was read, in one chunk.
    fn lend_whole(&mut self, header: Header)
        requires { LiesWhole header self.old.src.items }
        ensures found { (known : Option (List ℕ)) → IsIdle self.old
            → Found (Packet header.seq_id) self.old self.new known known }
        ensures kept { (self.new.next ≡ self.old.next) × (self.new.limit ≡ self.old.limit) }
    {
        let count = HEADER_LEN + header.len;
        self.lent = Some(count);
        self.len = header.len;
        self.decoder.set_sequence_id(header.seq_id.wrapping_add(1));
        self.taken = count as u64;
    }

    // The header of a packet that lies whole in what was read, in one chunk.
    fn whole_header(&self) -> Option<Header>
        ensures { IfSome result (λ header. LiesWhole header self.now.src.items) }
    {
        let header = Header::read(self.src.as_slice())?;
        if header.len < MAX_PAYLOAD_LEN && header.len <= self.src.len() - HEADER_LEN {
            Some(header)
        } else {
            None
        }
    }

    // Looks for the next packet by a read, where none lies whole in what was read before.
    #[inline(never)]
    fn find_by_read<R: Read>(&mut self, input: &mut R) -> Result<Next, Stop>
        ensures found { IfOk result (λ next. IsIdle self.old → Found next self.old self.new
            (R.remaining input.old) (R.remaining input.new)) }
        ensures seen { IfOk result (λ next. next ≢ Ended Encrypted) }
        ensures kept { IfOk result (λ next. (self.new.next ≡ self.old.next)
            × (self.new.limit ≡ self.old.limit) × (next ≢ Unread)
            × AtEnd next (R.remaining input.new)) }
    {
        read_header(&mut self.src, input)?;
        if let Some(header) = self.whole_header() {
            self.lend_whole(header);
            return Ok(Next::Packet(header.seq_id));
        }
        let Some(header) = Header::read(self.src.as_slice()) else {
            return Ok(Next::Ended(if self.src.is_empty() {
                End::Between
            } else {
                End::Unfinished
            }));
        };
        self.take_packet(header.seq_id, input)
    }

    // Looks for the next packet.
    fn find<R: Read>(&mut self, input: &mut R) -> Result<Next, Stop>
        ensures found { IfOk result (λ next. IsIdle self.old → Found next self.old self.new
            (R.remaining input.old) (R.remaining input.new)) }
        ensures seen { IfOk result (λ next. next ≢ Ended Encrypted) }
        ensures kept { IfOk result (λ next. (self.new.next ≡ self.old.next)
            × (self.new.limit ≡ self.old.limit) × (next ≢ Unread)
            × AtEnd next (R.remaining input.new)) }
    {
        match self.whole_header() {
            Some(header) => {
                self.lend_whole(header);
                Ok(Next::Packet(header.seq_id))
            }
            None => self.find_by_read(input),
        }
    }

    /// Looks for the next packet, where it has not been looked for.
    pub fn peek<R: Read>(&mut self, input: &mut R) -> Result<(), Stop>
        ensures looks { OnOk result
            (LooksOn (R.remaining input.old) (R.remaining input.new) self.old self.new) }
        ensures next { OnOk result (self.new.next ≢ Unread) }
        ensures seen { OnOk result
            (self.old.next ≢ Ended Encrypted → self.new.next ≢ Ended Encrypted) }
        ensures kept { OnOk result (self.old.next ≢ Unread → self.new.next ≡ self.old.next) }
        ensures end { OnOk result (AtEnd self.old.next (R.remaining input.old)
            → AtEnd self.new.next (R.remaining input.new)) }
        ensures limit { OnOk result (self.new.limit ≡ self.old.limit) }
    {
        if let Next::Unread = self.next {
            self.next = self.find(input)?;
        }
        Ok(())
    }

    // Drops the chunk that is lent, where one is.
    fn drop_lent(&mut self)
        ensures unread { self.new.src.items ≡ unread_of self.old }
        ensures none { self.new.lent ≡ None }
        ensures rest { self.new ≡ record self.old { src = self.new.src; lent = None } }
    {
        if let Some(chunk) = self.lent {
            self.src.advance(chunk.min(self.src.len()));
            self.lent = None;
        }
    }

    /// Goes on after the next packet.
    pub fn advance(&mut self) -> Result<(), Stop>
        ensures passes { OnOk result (PassesPacket self.old self.new) }
        ensures next { OnOk result (self.new.next ≡ Unread) }
        ensures limit { OnOk result (self.new.limit ≡ self.old.limit) }
    {
        let Some(at) = self.at.checked_add(self.taken) else {
            return Err(Stop::Io);
        };
        self.drop_lent();
        self.at = at;
        self.taken = 0;
        self.len = 0;
        self.held.clear();
        self.next = Next::Unread;
        Ok(())
    }

    /// From here on the packets are hidden.
    pub fn hide(&mut self)
        ensures stands { (packets : List (ℕ × List ℕ)) (came : List ℕ)
            → Stands packets came self.old → Stands packets came self.new }
        ensures next { self.new.next ≡ Ended Encrypted }
    {
        self.next = Next::Ended(End::Encrypted);
    }
}
