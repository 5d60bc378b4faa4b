//! The numbers that C has for sides, senders, phases and kinds of packets.
//!
//! `scripts/c_constants.py` writes the constants of C's header of these functions.

ghost use Rattle.std.specs.Prelude.{◌≡◌};
ghost use Rattle.mysql_wire_c.specs.Numbers.{kind_number, phase_number, sender_number, side_of};

use mysql_wire_session::packet_kind::PacketKind;
use mysql_wire_session::phase::Phase;
use mysql_wire_session::side::{Sender, Side};

/// The side of this number.
pub fn side_of(number: u32) -> Option<Side>
    ensures { result ≡ side_of number }
{
    match number {
        0 => Some(Side::Client),
        1 => Some(Side::Server),
        _ => None,
    }
}

/// The number of a sender: that of its side, where it is one.
pub fn sender_number(sender: Sender) -> u8
    ensures { result ≡ sender_number sender }
{
    match sender {
        Sender::Client => 0,
        Sender::Server => 1,
        Sender::Either => 2,
    }
}

/// The number of a phase, whatever it counts.
pub fn phase_number(phase: Phase) -> u8
    ensures { result ≡ phase_number phase }
{
    match phase {
        Phase::Greeting => 0,
        Phase::Login => 1,
        Phase::Authentication => 2,
        Phase::Command => 3,
        Phase::Answer => 4,
        Phase::PrepareAnswer => 5,
        Phase::OptionAnswer => 6,
        Phase::Statistics => 7,
        Phase::FieldList => 8,
        Phase::BinaryLog => 9,
        Phase::Columns { .. } => 10,
        Phase::ColumnsEnd(_) => 11,
        Phase::Rows => 12,
        Phase::File => 13,
        Phase::Closed => 14,
        Phase::Encrypted => 15,
    }
}

/// The number of a kind, 1 or more.
pub fn kind_number(kind: PacketKind) -> u8
    ensures { result ≡ kind_number kind }
{
    match kind {
        PacketKind::Greeting => 1,
        PacketKind::TlsRequest => 2,
        PacketKind::Login => 3,
        PacketKind::AuthSwitch => 4,
        PacketKind::AuthMoreData => 5,
        PacketKind::AuthAnswer => 6,
        PacketKind::Ok => 7,
        PacketKind::Error => 8,
        PacketKind::Progress => 9,
        PacketKind::Eof => 10,
        PacketKind::ColumnCount => 11,
        PacketKind::Column => 12,
        PacketKind::Row => 13,
        PacketKind::BinaryRow => 14,
        PacketKind::LocalInfile => 15,
        PacketKind::File => 16,
        PacketKind::Prepared => 17,
        PacketKind::Statistics => 18,
        PacketKind::BinaryLogEvent => 19,
        PacketKind::Query => 20,
        PacketKind::InitDatabase => 21,
        PacketKind::Ping => 22,
        PacketKind::Quit => 23,
        PacketKind::ChangeUser => 24,
        PacketKind::Prepare => 25,
        PacketKind::Execute => 26,
        PacketKind::LongData => 27,
        PacketKind::CloseStatement => 28,
        PacketKind::ResetStatement => 29,
        PacketKind::Fetch => 30,
        PacketKind::FieldList => 31,
        PacketKind::SetOption => 32,
        PacketKind::StatisticsRequest => 33,
        PacketKind::ResetConnection => 34,
        PacketKind::BinaryLogRequest => 35,
        PacketKind::OtherCommand => 36,
        PacketKind::TooLarge => 37,
        PacketKind::Refused(_) => 38,
    }
}
