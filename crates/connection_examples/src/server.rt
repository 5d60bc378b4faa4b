//! A server's side.

ghost use Rattle.std.specs.Prelude.{◌≡◌, ◌≢◌, ◌++◌, [], length, OnOk, IfOk};
ghost use Rattle.mysql_wire.specs.Codec.{codec_state, expected_id};
ghost use Rattle.mysql_wire.specs.FlagSets.{capability_flags_bits};
ghost use Rattle.mysql_wire.specs.Framing.{framing, next_id};
ghost use Rattle.mysql_wire.specs.InPlace.{HasFront, front_payload};
ghost use Rattle.connection_examples.specs.ClientSteps.{server_bits};
ghost use Rattle.connection_examples.specs.ServerSteps.{GoesOn, IsAnswer, IsLogin, IsTls};

use crate::line::Line;
use bytes::BytesMut;
use mysql_wire::constants::{CapabilityFlags, Flags};
use mysql_wire::io::ParseBuf;
use mysql_wire::proto::codec::error::PacketCodecError;
use mysql_wire::proto::{MyDeserialize, MySerialize};
use mysql_wire_connection::auth_more_data::AuthMoreData;
use mysql_wire_connection::auth_switch::AuthSwitchRequest;
use mysql_wire_connection::auth_switch_response::AuthSwitchResponse;
use mysql_wire_connection::first_packet::ClientFirst;
use mysql_wire_connection::handshake::HandshakeV10;
use mysql_wire_connection::handshake_response::HandshakeResponse41;
use mysql_wire_connection::ssl_request::SslRequest;
use mysql_wire_packets::err_packet::ErrPacket;
use mysql_wire_packets::ok_packet::OkPacket;
use mysql_wire_packets::places::{PayloadError, read_whole};
use std::alloc::{Allocator, Global};

/// A client has connected, and nothing was said.
#[derive(Drop)]
pub struct Accepted {
    pub line: Line,
}

/// The server has greeted, and waits for the login.
#[derive(Drop)]
pub struct Greeting {
    pub line: Line,
    /// What the server can do.
    pub capabilities: CapabilityFlags,
}

/// What answered the greeting.
#[derive(Drop)]
pub enum First<'a> {
    /// TLS is asked for: what follows is on the encrypted connection, where the login is waited for.
    Tls(Greeting, SslRequest),
    Login(Deciding, HandshakeResponse41<'a>),
}

/// The server knows what the client answered, and decides.
#[derive(Drop)]
pub struct Deciding {
    pub line: Line,
    /// Those that both sides have.
    pub capabilities: CapabilityFlags,
}

/// A plugin waits for the client's answer.
#[derive(Drop)]
pub struct Asking {
    pub line: Line,
    pub capabilities: CapabilityFlags,
}

/// The client is in, and the next packet is its command.
#[derive(Drop)]
pub struct LoggedIn {
    pub line: Line,
    pub capabilities: CapabilityFlags,
}

// The state after what answers the greeting.
fn read_first<'a>(
    alloc: Global,
    line: Line,
    capabilities: CapabilityFlags,
    payload: &'a [u8],
) -> Result<First<'a>, PayloadError>
    ensures tls { length payload.entry.now ≡ 32
        → IsTls (⟦<SslRequest as MyDeserialize<'a, Global>>⟧.reads tt) payload.entry.now result }
    ensures login { length payload.entry.now ≢ 32
        → IsLogin (⟦<HandshakeResponse41<'a> as MyDeserialize<'a, Global>>⟧.reads tt)
        payload.entry.now result }
    ensures next { GoesOn (expected_id line.codec) (capability_flags_bits capabilities) result }
{
    match ClientFirst::read(alloc, payload) {
        Ok(ClientFirst::Tls(request)) => Ok(First::Tls(Greeting { line, capabilities }, request)),
        Ok(ClientFirst::Login(login)) => {
            let asked = CapabilityFlags::from_bits_retain(login.client_flag.0);
            let capabilities = capabilities.intersection(asked);
            Ok(First::Login(Deciding { line, capabilities }, login))
        }
        Err(error) => Err(error),
    }
}

// The state after the client's answer to a plugin.
fn read_answer<'a>(
    alloc: Global,
    line: Line,
    capabilities: CapabilityFlags,
    payload: &'a [u8],
) -> Result<(Deciding, AuthSwitchResponse<'a>), PayloadError>
    ensures answer { IsAnswer (⟦<AuthSwitchResponse<'a> as MyDeserialize<'a, Global>>⟧.reads tt)
        payload.entry.now result }
    ensures line { IfOk result (λ came. came.0.line ≡ line) }
    ensures capabilities { IfOk result (λ came. came.0.capabilities ≡ capabilities) }
{
    match read_whole::<AuthSwitchResponse<'a>>(alloc, (), payload) {
        Ok(response) => Ok((Deciding { line, capabilities }, response)),
        Err(error) => Err(error),
    }
}

impl Accepted {
    /// At the start of a connection, under a limit of this many payload bytes a packet.
    pub fn new(limit: usize) -> Accepted
        ensures { expected_id result.line.codec ≡ 0 }
    {
        Accepted {
            line: Line::new(limit),
        }
    }

    /// Says who the server is.
    pub fn greet(
        self,
        greeting: &HandshakeV10<'_>,
        output: &mut BytesMut<impl Allocator + Copy>,
    ) -> Result<Greeting, PacketCodecError>
        ensures sent { OnOk result (output.new.items ≡ output.old.items
            ++ framing (expected_id self.line.codec)
            (⟦<HandshakeV10<'static> as MySerialize>⟧.bytes greeting.now)) }
        ensures next { IfOk result (λ next. expected_id next.line.codec
            ≡ next_id (expected_id self.line.codec)
            (⟦<HandshakeV10<'static> as MySerialize>⟧.bytes greeting.now)) }
        ensures capabilities { IfOk result (λ next. capability_flags_bits next.capabilities
            ≡ server_bits greeting.now) }
    {
        let mut line = self.line;
        line.send(greeting, output)?;
        let capabilities = greeting.capabilities();
        Ok(Greeting { line, capabilities })
    }

    /// Refuses the connection. The error has no state, since no capabilities are in force yet.
    pub fn refuse(
        self,
        error: &ErrPacket<'_>,
        output: &mut BytesMut<impl Allocator + Copy>,
    ) -> Result<(), PacketCodecError>
        ensures { OnOk result (output.new.items ≡ output.old.items
            ++ framing (expected_id self.line.codec)
            (⟦<ErrPacket<'static> as MySerialize>⟧.bytes error.now)) }
    {
        let mut line = self.line;
        line.send(error, output)
    }
}

impl Greeting {
    /// Takes what answers the greeting.
    pub fn receive<'a>(
        self,
        alloc: Global,
        input: &mut ParseBuf<'a>,
    ) -> Result<First<'a>, PayloadError>
        requires { HasFront (codec_state self.line.codec input.old.0.now []) }
        ensures framed { input.old.0.now ≡ framing (expected_id self.line.codec)
            (front_payload input.old.0.now) ++ input.new.0.now }
        ensures tls { let payload = front_payload input.old.0.now in length payload ≡ 32
            → IsTls (⟦<SslRequest as MyDeserialize<'a, Global>>⟧.reads tt) payload result }
        ensures login { let payload = front_payload input.old.0.now in length payload ≢ 32
            → IsLogin (⟦<HandshakeResponse41<'a> as MyDeserialize<'a, Global>>⟧.reads tt) payload
            result }
        ensures next { GoesOn (next_id (expected_id self.line.codec)
            (front_payload input.old.0.now)) (capability_flags_bits self.capabilities) result }
    {
        let Greeting {
            mut line,
            capabilities,
        } = self;
        let payload = line.receive(input);
        read_first(alloc, line, capabilities, payload)
    }
}

impl Deciding {
    /// Lets the client in.
    pub fn accept(
        self,
        ok: &OkPacket<'_>,
        output: &mut BytesMut<impl Allocator + Copy>,
    ) -> Result<LoggedIn, PacketCodecError>
        ensures sent { OnOk result (output.new.items ≡ output.old.items
            ++ framing (expected_id self.line.codec)
            (⟦<OkPacket<'static> as MySerialize>⟧.bytes ok.now)) }
        ensures command { IfOk result (λ next. expected_id next.line.codec ≡ 0) }
        ensures capabilities { IfOk result (λ next. next.capabilities ≡ self.capabilities) }
    {
        let Deciding {
            mut line,
            capabilities,
        } = self;
        line.send(ok, output)?;
        line.begin_command();
        Ok(LoggedIn { line, capabilities })
    }

    /// Refuses the client, and the connection ends.
    pub fn refuse(
        self,
        error: &ErrPacket<'_>,
        output: &mut BytesMut<impl Allocator + Copy>,
    ) -> Result<(), PacketCodecError>
        ensures { OnOk result (output.new.items ≡ output.old.items
            ++ framing (expected_id self.line.codec)
            (⟦<ErrPacket<'static> as MySerialize>⟧.bytes error.now)) }
    {
        let mut line = self.line;
        line.send(error, output)
    }

    /// Asks for another plugin.
    pub fn switch(
        self,
        request: &AuthSwitchRequest<'_>,
        output: &mut BytesMut<impl Allocator + Copy>,
    ) -> Result<Asking, PacketCodecError>
        ensures sent { OnOk result (output.new.items ≡ output.old.items
            ++ framing (expected_id self.line.codec)
            (⟦<AuthSwitchRequest<'static> as MySerialize>⟧.bytes request.now)) }
        ensures next { IfOk result (λ next. expected_id next.line.codec
            ≡ next_id (expected_id self.line.codec)
            (⟦<AuthSwitchRequest<'static> as MySerialize>⟧.bytes request.now)) }
        ensures capabilities { IfOk result (λ next. next.capabilities ≡ self.capabilities) }
    {
        let Deciding {
            mut line,
            capabilities,
        } = self;
        line.send(request, output)?;
        Ok(Asking { line, capabilities })
    }

    /// Goes on with the plugin.
    pub fn go_on(
        self,
        more: &AuthMoreData<'_>,
        output: &mut BytesMut<impl Allocator + Copy>,
    ) -> Result<Asking, PacketCodecError>
        ensures sent { OnOk result (output.new.items ≡ output.old.items
            ++ framing (expected_id self.line.codec)
            (⟦<AuthMoreData<'static> as MySerialize>⟧.bytes more.now)) }
        ensures next { IfOk result (λ next. expected_id next.line.codec
            ≡ next_id (expected_id self.line.codec)
            (⟦<AuthMoreData<'static> as MySerialize>⟧.bytes more.now)) }
        ensures capabilities { IfOk result (λ next. next.capabilities ≡ self.capabilities) }
    {
        let Deciding {
            mut line,
            capabilities,
        } = self;
        line.send(more, output)?;
        Ok(Asking { line, capabilities })
    }
}

impl Asking {
    /// Takes the client's answer to the plugin.
    pub fn receive<'a>(
        self,
        alloc: Global,
        input: &mut ParseBuf<'a>,
    ) -> Result<(Deciding, AuthSwitchResponse<'a>), PayloadError>
        requires { HasFront (codec_state self.line.codec input.old.0.now []) }
        ensures framed { input.old.0.now ≡ framing (expected_id self.line.codec)
            (front_payload input.old.0.now) ++ input.new.0.now }
        ensures answer { let payload = front_payload input.old.0.now in
            IsAnswer (⟦<AuthSwitchResponse<'a> as MyDeserialize<'a, Global>>⟧.reads tt) payload
            result }
        ensures next { IfOk result (λ came. expected_id came.0.line.codec
            ≡ next_id (expected_id self.line.codec) (front_payload input.old.0.now)) }
        ensures capabilities { IfOk result (λ came. came.0.capabilities ≡ self.capabilities) }
    {
        let Asking {
            mut line,
            capabilities,
        } = self;
        let payload = line.receive(input);
        read_answer(alloc, line, capabilities, payload)
    }

    /// Waits for no answer, as where a plugin has only said that the answer was right.
    pub fn decide(self) -> Deciding
        ensures { (result.line ≡ self.line) × (result.capabilities ≡ self.capabilities) }
    {
        let Asking { line, capabilities } = self;
        Deciding { line, capabilities }
    }
}
