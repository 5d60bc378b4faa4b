//! In which order both sides' packets stand.

ghost use Rattle.std.specs.Prelude.{◌≡◌};
ghost use Rattle.mysql_wire_dump_lines.specs.NextSenders.{next_sender, sender_by_id, sender_of_both};

use mysql_wire_session::phase::Phase;
use mysql_wire_session::side::Side;

// The side whose id follows the last packet's.
fn sender_by_id(next_id: u8, client_id: u8, server_id: u8) -> Side
    ensures { result ≡ sender_by_id next_id client_id server_id }
{
    if server_id == next_id {
        Side::Server
    } else if client_id == next_id {
        Side::Client
    } else if client_id == 0 {
        Side::Client
    } else {
        Side::Server
    }
}

// Whose packet is next, where both sides have one.
fn sender_of_both(place: Phase, next_id: u8, client_id: u8, server_id: u8) -> Side
    ensures { result ≡ sender_of_both place next_id client_id server_id }
{
    match place {
        Phase::Greeting => {
            if server_id == 0 {
                Side::Server
            } else {
                Side::Client
            }
        }
        Phase::Login | Phase::Command | Phase::File | Phase::Closed => Side::Client,
        Phase::Authentication
        | Phase::Answer
        | Phase::PrepareAnswer
        | Phase::OptionAnswer
        | Phase::Statistics
        | Phase::FieldList
        | Phase::BinaryLog
        | Phase::Columns { .. }
        | Phase::ColumnsEnd(_)
        | Phase::Rows
        | Phase::Encrypted => sender_by_id(next_id, client_id, server_id),
    }
}

/// Whose packet is next: the place that the session is at, the id after the last packet, and the
/// first ids of each side's next packet, where it has one.
pub fn next_sender(
    place: Phase,
    next_id: u8,
    client_id: Option<u8>,
    server_id: Option<u8>,
) -> Option<Side>
    ensures { result ≡ next_sender place next_id client_id server_id }
{
    match (client_id, server_id) {
        (None, None) => None,
        (Some(_), None) => Some(Side::Client),
        (None, Some(_)) => Some(Side::Server),
        (Some(client_id), Some(server_id)) => {
            Some(sender_of_both(place, next_id, client_id, server_id))
        }
    }
}
