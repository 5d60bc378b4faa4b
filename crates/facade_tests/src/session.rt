//! The callers whose limit rises, run.

ghost use Rattle.std.specs.Prelude.{◌≡◌, []};

use bytes::BytesMut;
use mysql_wire::proto::codec::PacketCodec;
use mysql_wire_examples::session::{go_on_under, replay_session};
use std::alloc::Global;
use std::test::Fail;
use test_support::facts::all_hold;
use test_support::receiver::are_packets;

// A packet of two bytes, and half of one of three.
const LOGIN: &[u8] = b"\x02\0\0\0ab\x03\0\0\x01c";

// The other half, and a packet of none.
const SESSION: &[u8] = b"de\0\0\0\x02";

// Whether a session goes on under its second limit, and comes once more, with nothing in its buffers
// before.
fn goes_on(
    alloc: Global,
    limits: (usize, usize),
    src: &mut BytesMut,
    dst: &mut Vec<u8>,
    packets: &mut Vec<Vec<u8>>,
) -> Option<bool>
    requires unread { src.old.items ≡ [] }
    requires held { dst.old.items ≡ [] }
    requires taken { packets.old.items ≡ [] }
{
    let (before, behind) = limits;
    let mut codec = PacketCodec::default();
    codec.max_allowed_packet = before;
    let Ok(()) = src.extend_from_slice(LOGIN) else {
        return None;
    };
    let Ok(()) = go_on_under(&mut codec, src, dst, behind, SESSION, packets) else {
        return None;
    };
    let (login, session) = ((before, LOGIN), (behind, SESSION));
    match replay_session(alloc, login, session, packets.as_slice()) {
        Ok(again) => {
            let wanted: &[&[u8]] = &[b"ab", b"cde", b""];
            Some(are_packets(packets.as_slice(), wanted) & are_packets(again.as_slice(), wanted))
        }
        Err(_) => None,
    }
}

// Whether it does so where that is wanted, and stops where nothing is.
fn is_replayed(alloc: Global, before: usize, behind: usize, wanted: Option<bool>) -> bool {
    let mut src = BytesMut::new(alloc);
    let mut dst = Vec::new(alloc);
    let mut packets = Vec::new(alloc);
    goes_on(alloc, (before, behind), &mut src, &mut dst, &mut packets) == wanted
}

#[test]
fn a_session_goes_on_and_comes_once_more(rt: HostRuntime) -> Result<(), Fail> {
    let alloc = rt.alloc();
    all_hold(&[
        is_replayed(alloc, 3, 3, Some(true)),
        is_replayed(alloc, 3, 9, Some(true)),
        // (the header of the second stands in the login, and is within its limit)
        is_replayed(alloc, 3, 0, Some(true)),
        is_replayed(alloc, 2, 3, None),
    ])
}
