// `count_rows` of connection_examples, with each request for memory refused.

use connection_examples::counting::count_rows;
use connection_examples::proxy::may_change_hands;
use mysql_wire_session::packet_kind::PacketKind;
use mysql_wire_session::session::Session;
use mysql_wire_session::side::Side;
use refusing_allocator::{NEVER, Refusing};
use std::alloc::Global;
use std::test::Fail;
use test_support::facts::ensure;
use wire_codec::codec::PacketCodec;
use wire_packet_io::PacketReader;

type Heap = Refusing<Global>;

// No call asks for memory so often.
const MOST: u64 = 10;

// A column, an EOF, two rows, and an EOF that says that no index was used.
const ANSWER: &[u8] =
    b"\x01\0\0\x01\x01\x17\0\0\x02\x03def\0\0\0\x011\0\x0c\x3f\0\x01\0\0\0\x08\x81\0\0\0\0\
    \x05\0\0\x03\xfe\0\0\x02\0\x02\0\0\x04\x011\x01\0\0\x05\xfb\x05\0\0\x06\xfe\0\0\x22\0";

// A session after a login, without a flag but that of the protocol, and a query.
fn asked(heap: &Heap, global: Global) -> Session<&Heap> {
    let mut session = Session::new(heap, global);
    session.advance_by_kind(Side::Server, 0, PacketKind::Greeting, 80);
    session.advance_by_kind(Side::Client, 1, PacketKind::Login, 60);
    session.advance_by_kind(Side::Server, 2, PacketKind::Ok, 8);
    session.advance_by_kind(Side::Client, 0, PacketKind::Query, 9);
    session
}

// Counts an answer's rows, with this request for memory refused, and then again. Whether there are
// two, and whether a request was refused.
fn counts_of<'h>(
    heap: &'h Heap,
    session: &mut Session<&'h Heap>,
    reader: &mut PacketReader<&'static [u8], &'h Heap>,
    refused: u64,
) -> (bool, bool) {
    let mut codec = PacketCodec::default();
    codec.set_sequence_id(1);
    heap.refuse(refused);
    let mut rows = count_rows(session, reader, &mut codec).ok();
    let is_refused = heap.has_refused();
    if is_refused && rows.is_none() && !may_change_hands(session) {
        heap.refuse(NEVER);
        rows = count_rows(session, reader, &mut codec).ok();
    }
    (rows == Some(2) && may_change_hands(session), is_refused)
}

// The same of a new session.
fn counts(heap: &Heap, global: Global, refused: u64) -> Option<(bool, bool)> {
    let mut session = asked(heap, global);
    match PacketReader::new(heap, ANSWER) {
        Ok(mut reader) => Some(counts_of(heap, &mut session, &mut reader, refused)),
        Err(_) => None,
    }
}

// How many requests for memory are made where two rows are counted. Each is refused in turn, and must
// leave what a second call needs: else the answer is `None`.
fn refusals(global: Global) -> Option<u64> {
    let heap = Refusing::new(global, NEVER);
    for refused in 0..MOST {
        heap.refuse(NEVER);
        match counts(&heap, global, refused) {
            Some((true, true)) => {}
            Some((true, false)) => return Some(refused),
            _ => return None,
        }
    }
    None
}

// The reader's buffer and the type of the column.
#[test]
fn an_answer_is_counted(rt: HostRuntime) -> Result<(), Fail> {
    ensure(
        refusals(rt.alloc()) == Some(2),
        "other requests than two were refused",
    )
}
