//! Rows read where they lie in the buffer that the socket filled.

ghost use Rattle.std.specs.Prelude.{◌≡◌, ◌+◌, ◌-◌, ◌^◌, ◌<◌, ◌↔◌, ℕ, List, [], length, min, IfOk, IfSome, IsNone, IsSome, IsTrue};
ghost use Rattle.mysql_wire.specs.Codec.{codec_state};
ghost use Rattle.mysql_wire.specs.InPlace.{HasFront, behind_front, front_payload};
ghost use Rattle.mysql_wire.specs.Lent.{reading_state};
ghost use Rattle.mysql_wire.specs.PacketIo.{FitsAt};
ghost use Rattle.mysql_wire.specs.Runs.{joined};
ghost use Rattle.mysql_wire_examples.specs.Accounts.{IsAccount, ends_rows};
ghost use Rattle.mysql_wire_examples.specs.Received.{DeliversSoFar};
ghost use Rattle.mysql_wire_examples.specs.Relayed.{CountsRows};

use bytes::BytesMut;
use mysql_wire::io::ParseBuf;
use mysql_wire::proto::codec::error::PacketCodecError;
use mysql_wire::proto::codec::{PacketCodec, Visit, deliver_each};
use mysql_wire::proto::packet_io::{PacketIoError, PacketReader};
use std::alloc::Allocator;
use std::io::Read;

/// The two columns of a row, as texts that lie in the row's packet.
#[derive(Clone, Copy)]
pub struct Account<'a> {
    pub name: &'a [u8],
    pub mail: &'a [u8],
}

/// Reads the first two columns of a row of texts, where they lie; `None` where they aren't there.
pub fn read_account<'a>(row: &'a [u8]) -> Option<Account<'a>>
    ensures there { IfSome result
        (λ account. IsAccount row.entry.now account.name.now account.mail.now) }
    ensures none { IsNone result → (name : List ℕ) (mail : List ℕ)
        → IsAccount row.entry.now name mail → ⊥ }
{
    let mut columns = ParseBuf(row);
    let Some(name) = columns.checked_eat_lenenc_str() else {
        return None;
    };
    let Some(mail) = columns.checked_eat_lenenc_str() else {
        return None;
    };
    Some(Account { name, mail })
}

// Whether two texts have the same bytes.
fn is_same(a: &[u8], b: &[u8]) -> bool
    ensures { IsTrue result ↔ (a.now ≡ b.now) }
{
    a == b
}

// Whether a row's mail is this one.
fn is_mail(row: &[u8], mail: &[u8]) -> bool
    ensures { IsTrue result ↔ (name : List ℕ) × IsAccount row.now name mail.now }
{
    match read_account(row) {
        Some(account) => is_same(account.mail, mail),
        None => false,
    }
}

/// Takes the row in front of `src` without a copy and without memory, and says whether its mail is
/// `mail`. `None`: no whole row lies there; call `decode`.
pub fn has_mail<A: Allocator + Copy>(
    codec: &mut PacketCodec,
    src: &mut BytesMut<A>,
    mail: &[u8],
) -> Option<bool>
    ensures there { IsSome result ↔ HasFront (codec_state codec.old src.old.items []) }
    ensures kept { IsNone result → (codec.new ≡ codec.old) × (src.new ≡ src.old) }
    ensures has { IfSome result (λ has. IsTrue has
        ↔ (name : List ℕ) × IsAccount (front_payload src.old.items) name mail.now) }
    ensures taken { IsSome result → codec_state codec.new src.new.items
        (front_payload src.old.items) ≡ behind_front (codec_state codec.old src.old.items []) }
{
    let row = codec.front_packet(src, &[])?;
    let has = is_mail(row, mail);
    // The last use of the row and its columns stands above: they are borrowed from `src`.
    codec.take_front(src);
    Some(has)
}

/// How many rows come before the packet that ends them. Each is looked at in the reader's buffer.
/// It gives up at `u64::MAX` rows.
pub fn count_rows<R: Read, A: Allocator + Copy>(
    codec: &mut PacketCodec,
    input: &mut PacketReader<R, A>,
) -> Result<u64, PacketIoError>
    requires { FitsAt input.old.is_lost (reading_state codec.old input.old) }
    ensures counted { IfOk result (λ count. IsNone input.old.lent → count < 2 ^ 64 - 1
        → CountsRows R.remaining count codec.old input.old codec.new input.new) }
    ensures fits { FitsAt input.new.is_lost (reading_state codec.new input.new) }
{
    'rows: for count in 0..u64::MAX {
        match input.fill_packet(codec) {
            Ok(true) => {}
            Ok(false) => return Err(PacketIoError::UnexpectedEnd),
            Err(error) => return Err(error),
        }
        let is_last = ends_rows(input.packet());
        input.take_packet();
        if is_last {
            return Ok(count);
        }
    }
    Ok(u64::MAX)
}

// Whether this packet ends the rows: an `EOF_Packet` begins with `fe`, and is shorter than a row
// that begins so.
fn ends_rows(packet: &[u8]) -> bool
    ensures { result ≡ ends_rows packet.now }
{
    match packet {
        [0xfe, rest @ ..] => rest.len() < 8,
        _ => false,
    }
}

/// Counts packets, and their bytes.
#[derive(Clone, Copy)]
pub struct Tally {
    pub packets: u64,
    pub bytes: u64,
}

impl Visit for Tally {
    // Both counts stay at the end of their range.
    ghost sees = { λ old packet new. (new.packets ≡ min (old.packets + 1) (2 ^ 64 - 1))
        × (new.bytes ≡ min (old.bytes + length packet) (2 ^ 64 - 1)) };

    fn visit(&mut self, packet: &[u8]) {
        self.packets = self.packets.saturating_add(1);
        self.bytes = self.bytes.saturating_add(packet.len() as u64);
    }
}

/// Counts the packets of an answer, from the pieces that have come. None is copied where it lies
/// whole.
pub fn count_packets<A: Allocator + Copy>(
    alloc: A,
    answer: &[&[u8]],
) -> Result<Tally, PacketCodecError>
    ensures { IfOk result (λ tally. (packets : List (List ℕ))
        × (tally.packets ≡ min (length packets) (2 ^ 64 - 1))
        × DeliversSoFar (joined answer.now) 0 4194304 packets) }
{
    let mut codec = PacketCodec::default();
    let mut src = BytesMut::new(alloc);
    let mut dst = Vec::new(alloc);
    let mut tally = Tally {
        packets: 0,
        bytes: 0,
    };
    let (_, result) = deliver_each(&mut codec, &mut src, &mut dst, answer, &mut tally);
    result?;
    Ok(tally)
}
