//! Both ends of a connection, and a server's budget for one, run.

ghost use Rattle.mysql_wire_examples.specs.Inbox.{HoldsFew};

use mysql_wire::proto::codec::error::PacketCodecError;
use mysql_wire_examples::both_ends::{End, Exchange, Heard, Sent, converse};
use mysql_wire_examples::inbox::{Inbox, first_packet};
use std::alloc::Global;
use std::test::Fail;
use test_support::answers::Answer;
use test_support::facts::{no_row, same_if_any, wrong_row};
use test_support::receiver::are_packets;

// A command whose bytes come one by one, then in one piece, and an answer of two packets.
const TALK: &[Exchange<'static>] = &[
    Exchange {
        command: Sent {
            packet: b"\x03S",
            reads: &[1, 1, 1, 1, 1],
        },
        answer: &[
            Sent {
                packet: b"ab",
                reads: &[5],
            },
            Sent {
                packet: b"",
                reads: &[],
            },
        ],
    },
    Exchange {
        command: Sent {
            packet: b"\x0e",
            reads: &[9],
        },
        answer: &[Sent {
            packet: b"cde",
            reads: &[0, 4],
        }],
    },
];

// The limit of both ends, what the last said, and the answers and ids that were heard.
type Row = (usize, Answer, &'static [&'static [u8]], &'static [(u8, u8)]);

const ROWS: &[Row] = &[
    (
        3,
        Answer::Waits,
        &[b"ab", b"", b"cde"],
        &[(1, 1), (2, 2), (3, 3), (1, 1), (2, 2)],
    ),
    (
        2,
        Answer::TooLarge,
        &[b"ab", b""],
        &[(1, 1), (2, 2), (3, 3), (1, 1)],
    ),
];

fn is_heard(alloc: Global, row: Row) -> bool {
    let (limit, last, answers, ids) = row;
    let mut client = End::new(alloc, limit);
    let mut server = End::new(alloc, limit);
    let mut heard = Heard {
        commands: Vec::new(alloc),
        answers: Vec::new(alloc),
        ids: Vec::new(alloc),
    };
    let answer = converse(alloc, &mut client, &mut server, TALK, &mut heard);
    (Answer::of_deliver(answer) == last)
        & are_packets(heard.commands.as_slice(), &[b"\x03S", b"\x0e"])
        & are_packets(heard.answers.as_slice(), answers)
        & (heard.ids.as_slice() == ids)
}

#[test]
fn both_ends_hear_each_other(rt: HostRuntime) -> Result<(), Fail> {
    no_row(wrong_row(rt.alloc(), ROWS, is_heard))
}

// Two reads under a limit of 2, what is said of them, and the packets.
type Reads = (
    &'static [u8],
    &'static [u8],
    Answer,
    &'static [&'static [u8]],
);

const READS: &[Reads] = &[
    (
        b"\x02\0\0",
        b"\0ab\0\0\0\x01\x01",
        Answer::Waits,
        &[b"ab", b""],
    ),
    (b"\x01\0\0\0a", b"\x03\0\0\x01", Answer::TooLarge, &[b"a"]),
];

fn take_both(
    inbox: &mut Inbox,
    first: &[u8],
    second: &[u8],
    packets: &mut Vec<Vec<u8>>,
) -> Result<(), PacketCodecError>
    requires { HoldsFew inbox.old }
{
    inbox.take(first, packets)?;
    inbox.take(second, packets)
}

fn is_taken(alloc: Global, row: Reads) -> bool {
    let (first, second, last, wanted) = row;
    let mut inbox = Inbox::new(alloc, 2);
    let most = inbox.most_held();
    let mut packets = Vec::new(alloc);
    let answer = take_both(&mut inbox, first, second, &mut packets);
    (Answer::of_deliver(answer) == last) & are_packets(packets.as_slice(), wanted) & (most == 5)
}

#[test]
fn an_inbox_says_what_it_holds(rt: HostRuntime) -> Result<(), Fail> {
    no_row(wrong_row(rt.alloc(), READS, is_taken))
}

// What a client sends, the packet that is read, if one is, and how many bytes are left then.
type First = (&'static [u8], Option<&'static [u8]>, usize);

const FIRST: &[First] = &[
    (b"\x02\0\0\0ab\x01\0\0\0", Some(b"ab"), 4),
    (b"\x03\0\0\0abc", None, 0),
];

fn is_wanted(packet: Option<Vec<u8>>, wanted: Option<&[u8]>) -> bool {
    match packet {
        Some(packet) => same_if_any(Some(packet.as_slice()), wanted),
        None => false,
    }
}

fn is_first(alloc: Global, row: First) -> bool {
    let (bytes, wanted, left) = row;
    match first_packet(alloc, bytes, 2) {
        Ok((reader, codec, packet)) => {
            is_wanted(packet, wanted) & (reader.unread().len() == left) & (codec.sequence_id() == 1)
        }
        Err(_) => wanted.is_none(),
    }
}

#[test]
fn a_reader_keeps_what_follows_the_first_packet(rt: HostRuntime) -> Result<(), Fail> {
    no_row(wrong_row(rt.alloc(), FIRST, is_first))
}
