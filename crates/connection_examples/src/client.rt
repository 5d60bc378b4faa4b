//! A client's side.

ghost use Rattle.std.specs.Prelude.{◌≡◌, ◌-◌, ◌++◌, [], ◌∷◌, take, length, bit_and, OnOk, IfOk};
ghost use Rattle.mysql_wire.specs.Codec.{codec_state, expected_id};
ghost use Rattle.mysql_wire.specs.FlagSets.{capability_flags_bits};
ghost use Rattle.mysql_wire.specs.Framing.{framing, next_id};
ghost use Rattle.mysql_wire.specs.InPlace.{HasFront, front_payload};
ghost use Rattle.mysql_wire_packets.specs.Oks.{ok_form};
ghost use Rattle.connection_examples.specs.ClientSteps.{plugin_data_of, plugin_name_of, server_bits, AnswersGreeting, GoesOn, IsDone, IsFailed, IsGreeted, IsMoreData, IsRefused, IsSwitch};

use crate::line::Line;
use crate::secret::Secret;
use bytes::BytesMut;
use mysql_wire::constants::{CapabilityFlags, Flags};
use mysql_wire::io::ParseBuf;
use mysql_wire::misc::raw::{Either, RawBytes};
use mysql_wire::proto::codec::error::PacketCodecError;
use mysql_wire::proto::{MyDeserialize, MySerialize};
use mysql_wire_connection::auth_answer::AuthAnswer;
use mysql_wire_connection::auth_more_data::AuthMoreData;
use mysql_wire_connection::auth_switch::AuthSwitchRequest;
use mysql_wire_connection::auth_switch_response::AuthSwitchResponse;
use mysql_wire_connection::first_packet::ServerFirst;
use mysql_wire_connection::handshake::HandshakeV10;
use mysql_wire_connection::handshake_response::HandshakeResponse41;
use mysql_wire_connection::ssl_request::SslRequest;
use mysql_wire_packets::err_packet::ErrPacket;
use mysql_wire_packets::ok_packet::OkPacket;
use mysql_wire_packets::places::PayloadError;
use std::alloc::{AllocError, Allocator, Global};

// All bytes but the last.
fn without_last(bytes: &[u8]) -> &[u8]
    ensures { result.now ≡ take (length bytes.now - 1) bytes.now }
{
    &bytes[..bytes.len().saturating_sub(1)]
}

// The capabilities that a greeting and a login have.
fn agreed(greeting: HandshakeV10<'_>, login: &HandshakeResponse41<'_>) -> CapabilityFlags
    ensures { capability_flags_bits result
        ≡ bit_and (server_bits greeting.entry) login.now.client_flag.0 }
{
    greeting
        .capabilities()
        .intersection(CapabilityFlags::from_bits_retain(login.client_flag.0))
}

// Sends what answers a plugin.
fn send_answer(
    line: &mut Line,
    answer: &[u8],
    output: &mut BytesMut<impl Allocator + Copy>,
) -> Result<(), PacketCodecError>
    ensures sent { OnOk result (output.new.items ≡ output.old.items
        ++ framing (expected_id line.old.codec) answer.now) }
    ensures next { OnOk result (expected_id line.new.codec
        ≡ next_id (expected_id line.old.codec) answer.now) }
{
    let response = AuthSwitchResponse {
        data: RawBytes::from(answer),
    };
    line.send(&response, output)
}

/// The client waits for the server's first packet.
#[derive(Drop)]
pub struct Connecting {
    pub line: Line,
}

/// The server has greeted, and the client is to answer.
#[derive(Drop)]
pub struct Greeted<'a> {
    pub line: Line,
    pub greeting: HandshakeV10<'a>,
}

/// What the server said first.
#[derive(Drop)]
pub enum Greeting<'a> {
    Greeted(Greeted<'a>),
    /// It refuses the connection.
    Refused(ErrPacket<'a>),
}

/// The client has logged in, or answered a plugin, and waits for what comes of it.
#[derive(Drop)]
pub struct Waiting {
    pub line: Line,
    /// Those that both sides have.
    pub capabilities: CapabilityFlags,
}

/// A plugin waits for the client's answer.
#[derive(Drop)]
pub struct Asked {
    pub line: Line,
    pub capabilities: CapabilityFlags,
}

/// The client is in, and the next packet is its command.
#[derive(Drop)]
pub struct LoggedIn {
    pub line: Line,
    pub capabilities: CapabilityFlags,
}

/// What came of a login.
#[derive(Drop)]
pub enum Outcome<'a> {
    Done(LoggedIn, OkPacket<'a>),
    Failed(ErrPacket<'a>),
    /// Another plugin is asked for.
    Switch(Asked, AuthSwitchRequest<'a>),
    /// The plugin goes on.
    MoreData(Asked, AuthMoreData<'a>),
}

// The state after the server's first packet.
fn read_greeting<'a>(
    alloc: Global,
    line: Line,
    payload: &'a [u8],
) -> Result<Greeting<'a>, PayloadError>
    ensures greeted { take 1 payload.entry.now ≡ 0x0a ∷ []
        → IsGreeted (⟦<HandshakeV10<'a> as MyDeserialize<'a, Global>>⟧.reads tt)
        payload.entry.now result }
    ensures refused { take 1 payload.entry.now ≡ 0xff ∷ []
        → IsRefused ⟦<ErrPacket<'a> as MyDeserialize<'a, Global>>⟧.reads payload.entry.now
        result }
    ensures next { AnswersGreeting (expected_id line.codec) result }
{
    match ServerFirst::read(alloc, payload) {
        Ok(ServerFirst::Greeting(greeting)) => Ok(Greeting::Greeted(Greeted { line, greeting })),
        Ok(ServerFirst::Failed(error)) => Ok(Greeting::Refused(error)),
        Err(error) => Err(error),
    }
}

// The state after what the server says to a login.
fn read_outcome<'a>(
    alloc: Global,
    line: Line,
    capabilities: CapabilityFlags,
    payload: &'a [u8],
) -> Result<Outcome<'a>, PayloadError>
    ensures done { take 1 payload.entry.now ≡ 0x00 ∷ []
        → IsDone (⟦<OkPacket<'a> as MyDeserialize<'a, Global>>⟧.reads (ok_form capabilities))
        payload.entry.now result }
    ensures failed { take 1 payload.entry.now ≡ 0xff ∷ []
        → IsFailed (⟦<ErrPacket<'a> as MyDeserialize<'a, Global>>⟧.reads capabilities)
        payload.entry.now result }
    ensures switch { take 1 payload.entry.now ≡ 0xfe ∷ []
        → IsSwitch (⟦<AuthSwitchRequest<'a> as MyDeserialize<'a, Global>>⟧.reads tt)
        payload.entry.now result }
    ensures more_data { take 1 payload.entry.now ≡ 0x01 ∷ []
        → IsMoreData (⟦<AuthMoreData<'a> as MyDeserialize<'a, Global>>⟧.reads tt)
        payload.entry.now result }
    ensures next { GoesOn (expected_id line.codec) (capability_flags_bits capabilities) result }
{
    let mut line = line;
    match AuthAnswer::read(alloc, capabilities, payload) {
        Ok(AuthAnswer::Done(ok)) => {
            line.begin_command();
            Ok(Outcome::Done(LoggedIn { line, capabilities }, ok))
        }
        Ok(AuthAnswer::Failed(error)) => Ok(Outcome::Failed(error)),
        Ok(AuthAnswer::Switch(request)) => {
            Ok(Outcome::Switch(Asked { line, capabilities }, request))
        }
        Ok(AuthAnswer::MoreData(more)) => {
            Ok(Outcome::MoreData(Asked { line, capabilities }, more))
        }
        Err(error) => Err(error),
    }
}

impl Connecting {
    /// At the start of a connection, under a limit of this many payload bytes a packet.
    pub fn new(limit: usize) -> Connecting
        ensures { expected_id result.line.codec ≡ 0 }
    {
        Connecting {
            line: Line::new(limit),
        }
    }

    /// Takes the server's first packet.
    pub fn receive<'a>(
        self,
        alloc: Global,
        input: &mut ParseBuf<'a>,
    ) -> Result<Greeting<'a>, PayloadError>
        requires { HasFront (codec_state self.line.codec input.old.0.now []) }
        ensures framed { input.old.0.now ≡ framing (expected_id self.line.codec)
            (front_payload input.old.0.now) ++ input.new.0.now }
        ensures greeted { let payload = front_payload input.old.0.now in
            take 1 payload ≡ 0x0a ∷ []
            → IsGreeted (⟦<HandshakeV10<'a> as MyDeserialize<'a, Global>>⟧.reads tt) payload
            result }
        ensures refused { let payload = front_payload input.old.0.now in
            take 1 payload ≡ 0xff ∷ []
            → IsRefused ⟦<ErrPacket<'a> as MyDeserialize<'a, Global>>⟧.reads payload result }
        ensures next { AnswersGreeting
            (next_id (expected_id self.line.codec) (front_payload input.old.0.now)) result }
    {
        let mut line = self.line;
        let payload = line.receive(input);
        read_greeting(alloc, line, payload)
    }
}

impl<'a> Greeted<'a> {
    /// The plugin that the server begins with; empty where it names none.
    pub fn plugin_name(&self) -> &[u8]
        ensures { result.now ≡ plugin_name_of self.now.greeting }
    {
        match &self.greeting.auth_plugin_name {
            Some(Either::Left(name)) => name.0.as_slice(),
            Some(Either::Right(name)) => name.0.as_slice(),
            None => &[],
        }
    }

    /// The plugin's data: both parts, without the zero that ends them.
    pub fn plugin_data(&self, alloc: Global) -> Result<Vec<u8>, AllocError>
        ensures { IfOk result (λ bytes. bytes.items ≡ plugin_data_of self.now.greeting) }
    {
        let mut plugin_data = Vec::new(alloc);
        plugin_data.extend_from_slice(&self.greeting.auth_plugin_data_part_1)?;
        plugin_data.extend_from_slice(without_last(
            self.greeting.auth_plugin_data_part_2.as_bytes(),
        ))?;
        Ok(plugin_data)
    }

    /// Asks for TLS, where both sides have it: what follows is on the encrypted connection.
    pub fn ask_for_tls(
        self,
        request: &SslRequest,
        output: &mut BytesMut<impl Allocator + Copy>,
    ) -> Result<Greeted<'a>, PacketCodecError>
        ensures sent { OnOk result (output.new.items ≡ output.old.items
            ++ framing (expected_id self.entry.line.codec)
            (⟦<SslRequest as MySerialize>⟧.bytes request.now)) }
        ensures next { IfOk result (λ greeted. expected_id greeted.line.codec
            ≡ next_id (expected_id self.entry.line.codec)
            (⟦<SslRequest as MySerialize>⟧.bytes request.now)) }
        ensures greeting { IfOk result (λ greeted. greeted.greeting ≡ self.entry.greeting) }
    {
        let mut greeted = self;
        match greeted.line.send(request, output) {
            Ok(()) => Ok(greeted),
            Err(error) => Err(error),
        }
    }

    /// Logs in. In force are the capabilities that the login and the greeting have.
    pub fn log_in(
        self,
        login: &HandshakeResponse41<'_>,
        output: &mut BytesMut<impl Allocator + Copy>,
    ) -> Result<Waiting, PacketCodecError>
        ensures sent { OnOk result (output.new.items ≡ output.old.items
            ++ framing (expected_id self.entry.line.codec)
            (⟦<HandshakeResponse41<'static> as MySerialize>⟧.bytes login.now)) }
        ensures next { IfOk result (λ waiting. expected_id waiting.line.codec
            ≡ next_id (expected_id self.entry.line.codec)
            (⟦<HandshakeResponse41<'static> as MySerialize>⟧.bytes login.now)) }
        ensures capabilities { IfOk result (λ waiting. capability_flags_bits waiting.capabilities
            ≡ bit_and (server_bits self.entry.greeting) login.now.client_flag.0) }
    {
        let mut line = self.line;
        let capabilities = agreed(self.greeting, login);
        line.send(login, output)?;
        Ok(Waiting { line, capabilities })
    }
}

impl Waiting {
    /// Takes what the server says to the login, or to a plugin's answer.
    pub fn receive<'a>(
        self,
        alloc: Global,
        input: &mut ParseBuf<'a>,
    ) -> Result<Outcome<'a>, PayloadError>
        requires { HasFront (codec_state self.line.codec input.old.0.now []) }
        ensures framed { input.old.0.now ≡ framing (expected_id self.line.codec)
            (front_payload input.old.0.now) ++ input.new.0.now }
        ensures done { let payload = front_payload input.old.0.now in
            take 1 payload ≡ 0x00 ∷ []
            → IsDone (⟦<OkPacket<'a> as MyDeserialize<'a, Global>>⟧.reads
            (ok_form self.capabilities)) payload result }
        ensures failed { let payload = front_payload input.old.0.now in
            take 1 payload ≡ 0xff ∷ []
            → IsFailed (⟦<ErrPacket<'a> as MyDeserialize<'a, Global>>⟧.reads self.capabilities)
            payload result }
        ensures switch { let payload = front_payload input.old.0.now in
            take 1 payload ≡ 0xfe ∷ []
            → IsSwitch (⟦<AuthSwitchRequest<'a> as MyDeserialize<'a, Global>>⟧.reads tt) payload
            result }
        ensures more_data { let payload = front_payload input.old.0.now in
            take 1 payload ≡ 0x01 ∷ []
            → IsMoreData (⟦<AuthMoreData<'a> as MyDeserialize<'a, Global>>⟧.reads tt) payload
            result }
        ensures next { GoesOn (next_id (expected_id self.line.codec)
            (front_payload input.old.0.now)) (capability_flags_bits self.capabilities) result }
    {
        let Waiting {
            mut line,
            capabilities,
        } = self;
        let payload = line.receive(input);
        read_outcome(alloc, line, capabilities, payload)
    }
}

impl Asked {
    /// Answers a plugin of this name and its data as the secret does.
    pub fn answer<S: Secret>(
        self,
        alloc: Global,
        secret: &S,
        plugin: &[u8],
        plugin_data: &[u8],
        output: &mut BytesMut<impl Allocator + Copy>,
    ) -> Result<Waiting, PacketCodecError>
        ensures sent { OnOk result (output.new.items ≡ output.old.items
            ++ framing (expected_id self.line.codec)
            (S.answer_of secret.now plugin.now plugin_data.now)) }
        ensures next { IfOk result (λ waiting. expected_id waiting.line.codec
            ≡ next_id (expected_id self.line.codec)
            (S.answer_of secret.now plugin.now plugin_data.now)) }
        ensures capabilities { IfOk result
            (λ waiting. waiting.capabilities ≡ self.capabilities) }
    {
        let Asked {
            mut line,
            capabilities,
        } = self;
        let answer = secret.answer(alloc, plugin, plugin_data)?;
        send_answer(&mut line, answer.as_slice(), output)?;
        Ok(Waiting { line, capabilities })
    }

    /// Answers nothing, as where a plugin only says that the answer was right.
    pub fn wait(self) -> Waiting
        ensures { (result.line ≡ self.line) × (result.capabilities ≡ self.capabilities) }
    {
        let Asked { line, capabilities } = self;
        Waiting { line, capabilities }
    }
}
