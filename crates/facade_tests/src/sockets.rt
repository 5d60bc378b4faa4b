//! The callers over readers and writers, and the one around a login, run.

use mysql_wire::proto::codec::PacketCodec;
use mysql_wire::proto::packet_io::{PacketReader, PacketWriter};
use mysql_wire_examples::login::receive_session;
use mysql_wire_examples::sockets::{answer_in_place, answer_next, ask, relay};
use std::alloc::Global;
use std::test::Fail;
use test_support::facts::{ensure, no_row, same, wrong_row};
use test_support::receiver::are_packets;

// What one side reads, and what it writes.
type Input<'a> = PacketReader<&'a [u8]>;

// Each way out of a function lets go all that it holds, and is proved: so what the sides do is done
// by functions that hold neither.
type Output = PacketWriter<Vec<u8>>;

// Whether a client that asks `03` is answered `07`. None where it isn't answered.
fn ask_once(input: &mut Input<'_>, output: &mut Output) -> Option<u8> {
    let mut codec = PacketCodec::default();
    match ask(&mut codec, input, output, b"\x03") {
        Ok(answer) => Some(same(answer.as_slice(), b"\x07") as u8),
        Err(_) => None,
    }
}

// Whether a server answered a command, or its client has gone. It reads the command where it lies,
// or takes it.
fn answers(
    codec: &mut PacketCodec,
    input: &mut Input<'_>,
    output: &mut Output,
    in_place: bool,
) -> Option<bool> {
    if !input.fits(codec) {
        return Some(false);
    }
    let answered = if in_place {
        answer_in_place(codec, input, output)
    } else {
        answer_next(codec, input, output)
    };
    answered.ok()
}

// How many commands a server answers until its client has gone.
fn serve(input: &mut Input<'_>, output: &mut Output, in_place: bool) -> Option<u8> {
    let mut codec = PacketCodec::default();
    for count in 0..9u8 {
        match answers(&mut codec, input, output, in_place) {
            Some(true) => {}
            Some(false) => return Some(count),
            None => return None,
        }
    }
    None
}

// Whether a proxy passed a packet on, or there is none.
fn relays(
    from_codec: &mut PacketCodec,
    from: &mut Input<'_>,
    to_codec: &mut PacketCodec,
    to: &mut Output,
) -> Option<bool> {
    if !from.fits(from_codec) {
        return Some(false);
    }
    relay(from_codec, from, to_codec, to).ok()
}

// How many packets a proxy passes on after an empty one.
fn pass(from: &mut Input<'_>, to: &mut Output) -> Option<u8> {
    let mut from_codec = PacketCodec::default();
    let mut to_codec = PacketCodec::default();
    let mut first = b"".as_slice();
    let is_queued = to.queue(&mut to_codec, &mut first).is_ok();
    for count in 0..9u8 {
        match relays(&mut from_codec, from, &mut to_codec, to) {
            Some(true) => {}
            Some(false) => return is_queued.then_some(count),
            None => return None,
        }
    }
    None
}

// A client, a server, one that reads in place, and a proxy.
#[derive(Clone, Copy)]
enum Role {
    Client,
    Server,
    ServerInPlace,
    Proxy,
}

// What a side is sent, what it says of that, and what it sends.
type Row = (Role, &'static [u8], Option<u8>, &'static [u8]);

const ROWS: &[Row] = &[
    (
        Role::Client,
        b"\x01\0\0\x01\x07\xff",
        Some(1),
        b"\x01\0\0\0\x03",
    ),
    (Role::Client, b"\x01\0\0\0\x07", None, b"\x01\0\0\0\x03"),
    (Role::Client, b"\x01\0\0", None, b"\x01\0\0\0\x03"),
    (
        Role::Server,
        b"\x01\0\0\0\x03\x01\0\0\0\x0e",
        Some(2),
        b"\x07\0\0\x01\0\0\0\x02\0\0\0\x09\0\0\x01\xff\x17\x04#08S01",
    ),
    (
        Role::ServerInPlace,
        b"\x01\0\0\0\x03\x01\0\0\0\x0e",
        Some(2),
        b"\x07\0\0\x01\0\0\0\x02\0\0\0\x09\0\0\x01\xff\x17\x04#08S01",
    ),
    (Role::ServerInPlace, b"\x01\0\0\x01\x03", None, b""),
    (
        Role::Proxy,
        b"\x01\0\0\0a\x02\0\0\x01bc",
        Some(2),
        b"\0\0\0\0\x01\0\0\x01a\x02\0\0\x02bc",
    ),
];

fn is_sent(alloc: Global, row: Row) -> bool {
    let (role, bytes, wanted, sent) = row;
    let mut input = PacketReader::new(alloc, bytes).unwrap();
    let mut output = PacketWriter::new(alloc, Vec::new(alloc)).unwrap();
    let said = match role {
        Role::Client => ask_once(&mut input, &mut output),
        Role::Server => serve(&mut input, &mut output, false),
        Role::ServerInPlace => serve(&mut input, &mut output, true),
        Role::Proxy => pass(&mut input, &mut output),
    };
    (said == wanted) & same(output.into_inner().as_slice(), sent)
}

// Whether a login and what follows it are received, each under its limit; the header may come with
// the login, and then it is too large for it.
fn is_session_received(alloc: Global) -> bool {
    let mut long = [b'x'; 2007];
    long[..7].copy_from_slice(b"\x02\0\x01\xd0\x07\0\x01");
    let are_there = match receive_session(alloc, b"\x01\0\0\0a", &long[3..], 2000) {
        Ok(packets) => are_packets(packets.as_slice(), &[b"a", &long[7..]]),
        Err(_) => false,
    };
    are_there & receive_session(alloc, b"\xd0\x07\0\0", b"x", 2000).is_err()
}

#[test]
fn each_side_sends_what_it_must_and_a_session_begins(rt: HostRuntime) -> Result<(), Fail> {
    match wrong_row(rt.alloc(), ROWS, is_sent) {
        None => ensure(is_session_received(rt.alloc()), "a login and what follows"),
        wrong => no_row(wrong),
    }
}
