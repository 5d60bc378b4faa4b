//! `connection_examples`: both ends of a connection phase, each over what the other sends.

ghost use Rattle.std.specs.Prelude.{◌++◌};

use bytes::BytesMut;
use connection_examples::client::{
    Asked, Connecting, Greeted, Greeting, LoggedIn, Outcome, Waiting,
};
use connection_examples::secret::Secret;
use connection_examples::server::{self, Accepted, Asking, Deciding, First};
use mysql_wire::constants::Flags;
use mysql_wire::io::ParseBuf;
use mysql_wire::misc::raw::{Either, RawBytes, RawFlags};
use mysql_wire_connection::auth_switch::AuthSwitchRequest;
use mysql_wire_connection::auth_switch_response::AuthSwitchResponse;
use mysql_wire_connection::handshake::HandshakeV10;
use mysql_wire_connection::handshake_response::HandshakeResponse41;
use mysql_wire_packets::ok_packet::{OkForm, OkPacket};
use std::alloc::{AllocError, Global};
use std::test::Fail;
use test_support::facts::{all_hold, same};

const LIMIT: usize = 1024;

// What MariaDB 10.11 can do, and what the client can: CLIENT_PROTOCOL_41,
// CLIENT_SECURE_CONNECTION and CLIENT_PLUGIN_AUTH, which are then in force.
const SERVER_FLAGS: u32 = 0x81ff_f7fe;

const FLAGS: u32 = 0x0008_8200;

// What the server sends, framed: what MariaDB 10.11 said to PyMySQL, the plugin `other` with the data
// `uvw`, and an OK.
const SERVER: &[u8] =
    b"\x64\0\0\0\x0a5.5.5-10.11.19-MariaDB-0+deb12u1\0\x17\0\0\0pf1^feHv\0\xfe\xf7\x2d\x02\0\xff\x81\
    \x15\0\0\0\0\0\0\x1d\0\0\0<dfUT&_/g>>[\0mysql_native_password\0\
    \x0a\0\0\x02\xfeother\0uvw\
    \x07\0\0\x04\0\0\0\x02\0\0\0";

// What the client sends: the login of the user `u`, and what answers the other plugin. An answer is
// the plugin's name and data.
const CLIENT: &[u8] =
    b"\x62\0\0\x01\0\x82\x08\0\0\x04\0\0\x2d\0\0\0\0\0\0\0\0\0\0\0\0\0\0\0\0\0\0\0\0\0\0\0u\0\
    \x29mysql_native_passwordpf1^feHv<dfUT&_/g>>[mysql_native_password\0\
    \x08\0\0\x03otheruvw";

// Answers with the plugin's name and data.
struct Echo;

impl Secret for Echo {
    ghost answer_of = { λ _ plugin plugin_data. plugin ++ plugin_data };

    fn answer(
        &self,
        alloc: Global,
        plugin: &[u8],
        plugin_data: &[u8],
    ) -> Result<Vec<u8>, AllocError> {
        let mut answer = Vec::from_slice(alloc, plugin)?;
        match answer.extend_from_slice(plugin_data) {
            Ok(()) => Ok(answer),
            Err(error) => Err(error),
        }
    }
}

fn greeting() -> HandshakeV10<'static> {
    HandshakeV10 {
        server_version: RawBytes::from(b"5.5.5-10.11.19-MariaDB-0+deb12u1".as_slice()),
        thread_id: 0x17,
        auth_plugin_data_part_1: *b"pf1^feHv",
        filler: 0,
        capability_flags_1: RawFlags::new(SERVER_FLAGS & 0xffff),
        character_set: 45,
        status_flags: RawFlags::new(2),
        capability_flags_2: RawFlags::new(SERVER_FLAGS & 0xffff_0000),
        auth_plugin_data_len: 21,
        reserved: [0; 6],
        mariadb_capabilities: RawFlags::new(0x1d),
        auth_plugin_data_part_2: RawBytes::from(b"<dfUT&_/g>>[\0".as_slice()),
        auth_plugin_name: Some(Either::Left(RawBytes::from(b"mysql_native_password".as_slice()))),
    }
}

fn login(answer: &[u8]) -> HandshakeResponse41<'_> {
    HandshakeResponse41 {
        client_flag: RawFlags::new(FLAGS),
        max_packet_size: 1024,
        character_set: 45,
        filler: [0; 19],
        mariadb_capabilities: RawFlags::new(0),
        username: RawBytes::from(b"u".as_slice()),
        auth_response: Either::Right(RawBytes::from(answer)),
        database: None,
        client_plugin_name: Some(RawBytes::from(b"mysql_native_password".as_slice())),
        connect_attrs: None,
        zstd_compression_level: None,
    }
}

// What answers the plugin that the server begins with; nothing where memory is refused.
fn answer_of(alloc: Global, greeted: &Greeted<'_>) -> Vec<u8> {
    let plugin_data = greeted.plugin_data(alloc).unwrap_or(Vec::new(alloc));
    let answer = Echo.answer(alloc, greeted.plugin_name(), plugin_data.as_slice());
    answer.unwrap_or(Vec::new(alloc))
}

fn logs_in(alloc: Global, greeted: Greeted<'_>, wire: &mut BytesMut) -> Option<Waiting> {
    let answer = answer_of(alloc, &greeted);
    greeted.log_in(&login(answer.as_slice()), wire).ok()
}

// The client's first step, on a packet that has come whole.
fn begins(alloc: Global, input: &mut ParseBuf<'_>, wire: &mut BytesMut) -> Option<Waiting> {
    let connecting = Connecting::new(LIMIT);
    if !connecting.line.has_packet(input) {
        return None;
    }
    match connecting.receive(alloc, input) {
        Ok(Greeting::Greeted(greeted)) => logs_in(alloc, greeted, wire),
        _ => None,
    }
}

fn answers_to(
    alloc: Global,
    asked: Asked,
    request: AuthSwitchRequest<'_>,
    wire: &mut BytesMut,
) -> Option<Waiting> {
    let plugin_data = request.plugin_data.as_bytes();
    let plugin = request.plugin_name.as_bytes();
    asked.answer(alloc, &Echo, plugin, plugin_data, wire).ok()
}

fn is_done(logged_in: &LoggedIn, ok: &OkPacket<'_>) -> bool {
    (logged_in.line.codec.sequence_id() == 0)
        & (logged_in.capabilities.bits() == FLAGS)
        & (ok.status_flags.0 == 2)
}

// The client's next step: it waits once more, or else this says whether it is in.
fn goes_on(
    alloc: Global,
    waiting: Waiting,
    input: &mut ParseBuf<'_>,
    wire: &mut BytesMut,
) -> Result<Waiting, bool> {
    if !waiting.line.has_packet(input) {
        return Err(false);
    }
    match waiting.receive(alloc, input) {
        Ok(Outcome::Switch(asked, request)) => {
            answers_to(alloc, asked, request, wire).ok_or(false)
        }
        Ok(Outcome::Done(logged_in, ok)) => Err(is_done(&logged_in, &ok)),
        _ => Err(false),
    }
}

// Whether the client is in after the last that the server sends.
fn is_in(alloc: Global, wire: &mut BytesMut) -> bool {
    let mut input = ParseBuf(SERVER);
    let Some(waiting) = begins(alloc, &mut input, wire) else {
        return false;
    };
    let Ok(waiting) = goes_on(alloc, waiting, &mut input, wire) else {
        return false;
    };
    matches!(goes_on(alloc, waiting, &mut input, wire), Err(true)) & input.is_empty()
}

fn greets(wire: &mut BytesMut) -> Option<server::Greeting> {
    Accepted::new(LIMIT).greet(&greeting(), wire).ok()
}

// Whether the user logs in by the first plugin's answer.
fn is_login(sent: &HandshakeResponse41<'_>) -> bool {
    let is_answer = match &sent.auth_response {
        Either::Right(answer) => same(
            answer.as_bytes(),
            b"mysql_native_passwordpf1^feHv<dfUT&_/g>>[",
        ),
        Either::Left(_) => false,
    };
    is_answer & same(sent.username.as_bytes(), b"u") & (sent.client_flag.0 == FLAGS)
}

fn takes_login(
    alloc: Global,
    greeting: server::Greeting,
    input: &mut ParseBuf<'_>,
) -> Option<Deciding> {
    if !greeting.line.has_packet(input) {
        return None;
    }
    match greeting.receive(alloc, input) {
        Ok(First::Login(deciding, sent)) => is_login(&sent).then_some(deciding),
        _ => None,
    }
}

fn switches(deciding: Deciding, wire: &mut BytesMut) -> Option<Asking> {
    let request = AuthSwitchRequest {
        plugin_name: RawBytes::from(b"other".as_slice()),
        plugin_data: RawBytes::from(b"uvw".as_slice()),
    };
    deciding.switch(&request, wire).ok()
}

fn takes_answer(alloc: Global, asking: Asking, input: &mut ParseBuf<'_>) -> Option<Deciding> {
    if !asking.line.has_packet(input) {
        return None;
    }
    match asking.receive(alloc, input) {
        Ok((deciding, response)) => {
            same(response.data.as_bytes(), b"otheruvw").then_some(deciding)
        }
        Err(_) => None,
    }
}

fn accepts(deciding: Deciding, wire: &mut BytesMut) -> Option<server::LoggedIn> {
    let ok = OkForm {
        affected_rows: 0,
        last_insert_id: 0,
        status_flags: RawFlags::new(2),
        warnings: 0,
        info: None,
        session_state: None,
    };
    deciding.accept(&ok, wire).ok()
}

// Whether the server lets the client in after the last that it sends.
fn lets_in(alloc: Global, wire: &mut BytesMut) -> bool {
    let mut input = ParseBuf(CLIENT);
    let Some(greeting) = greets(wire) else {
        return false;
    };
    let Some(deciding) = takes_login(alloc, greeting, &mut input) else {
        return false;
    };
    let Some(asking) = switches(deciding, wire) else {
        return false;
    };
    let Some(deciding) = takes_answer(alloc, asking, &mut input) else {
        return false;
    };
    let Some(logged_in) = accepts(deciding, wire) else {
        return false;
    };
    (logged_in.line.codec.sequence_id() == 0)
        & (logged_in.capabilities.bits() == FLAGS)
        & input.is_empty()
}

// Whether each end gets through, and sends what the other is given.
fn both_ends(alloc: Global) -> [bool; 4] {
    let mut wire = BytesMut::new(alloc);
    let is_in = is_in(alloc, &mut wire);
    let is_client = same(wire.as_slice(), CLIENT);
    wire.clear();
    let lets_in = lets_in(alloc, &mut wire);
    [is_in, is_client, lets_in, same(wire.as_slice(), SERVER)]
}

#[test]
fn both_ends_go_through_the_connection_phase(rt: HostRuntime) -> Result<(), Fail> {
    all_hold(&both_ends(rt.alloc()))
}
