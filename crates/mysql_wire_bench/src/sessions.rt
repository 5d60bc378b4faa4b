//! Sessions that are followed.

use mysql_wire_session::packet_kind::PacketKind;
use mysql_wire_session::session::{FrontError, Session};
use mysql_wire_session::side::{Sender, Side};
use std::alloc::Global;
use wire_codec::codec::header::{HEADER_LEN, Header};

// The answer where a packet can't stand where it does.
const REFUSED: u64 = u64::MAX;

// How a packet is followed.
#[derive(Clone, Copy)]
enum Form {
    // By `advance_front`, with the whole of it.
    Front,
    // By `classify` and `advance_by_kind` where it is a row, else by `advance_front`.
    Kind,
}

// Follows a packet. The answer is 2 where the session is idle after it, else 1.
fn follow(session: &mut Session, form: Form, id: u8, payload: &[u8]) -> Result<u64, FrontError> {
    let side = match session.next_sender() {
        Sender::Client => Side::Client,
        Sender::Server | Sender::Either => Side::Server,
    };
    let kind = session.classify(side, id, payload.len(), payload);
    match (form, kind) {
        (Form::Kind, PacketKind::Row) => {
            session.advance_by_kind(side, id, kind, payload.len());
        }
        _ => {
            session.advance_front(side, id, payload.len(), payload)?;
        }
    }
    Ok(1 + session.is_idle() as u64)
}

// Follows a session, packet by packet, up to the first that is not whole.
fn follow_all(session: &mut Session, form: Form, bytes: &[u8]) -> Result<u64, FrontError> {
    let mut sum = 0u64;
    let mut rest = bytes;
    'packets: for _ in 0..bytes.len() {
        let Some(header) = Header::read(rest) else {
            return Ok(sum);
        };
        let (_, after) = rest.split_at(HEADER_LEN);
        if after.len() < header.len {
            return Ok(sum);
        }
        let (payload, more) = after.split_at(header.len);
        sum = sum.wrapping_add(follow(session, form, header.seq_id, payload)?);
        rest = more;
    }
    Ok(sum)
}

/// A session's packets, both sides' in their order, each in one chunk, followed: form 0 by
/// `advance_front`, form 1 a row by `classify` and `advance_by_kind`. The answer is how many packets
/// there are, and after how many the session is idle.
#[unsafe(no_mangle)]
pub extern "C" fn mw_session(alloc: Global, bytes: &[u8], form: u64, reps: u64) -> u64 {
    let form = if form == 0 { Form::Front } else { Form::Kind };
    let mut sum = 0u64;
    for _ in 0..reps {
        let mut session = Session::new(alloc, alloc);
        match follow_all(&mut session, form, bytes) {
            Ok(value) => sum = sum.wrapping_add(value),
            Err(_) => return REFUSED,
        }
    }
    sum
}
