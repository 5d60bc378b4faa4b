//! What may begin a connection.

ghost use Rattle.std.specs.Prelude.{◌≡◌, ◌≢◌, ◌∷◌, [], length};
ghost use Rattle.mysql_wire_parts.specs.Places.{BeginsWith, IsOther, ReadsAs, ReadsUnderNone};
ghost use Rattle.mysql_wire_connection.specs.declared.first_packet.ServerFirst.TheVariants.{Greeting, Failed};
ghost use Rattle.mysql_wire_connection.specs.declared.first_packet.ClientFirst.TheVariants.{Tls, Login};

use crate::handshake::HandshakeV10;
use crate::handshake_response::HandshakeResponse41;
use crate::ssl_request::SslRequest;
use mysql_wire_packets::err_packet::ErrPacket;
use mysql_wire_parts::places::{PayloadError, read_as, read_whole};
use std::alloc::Global;
use wire_buf::error::WireError;
use wire_buf::proto::MyDeserialize;
use wire_const::{CapabilityFlags, Flags};

/// A server's first packet.
///
/// <https://dev.mysql.com/doc/dev/mysql-server/latest/page_protocol_connection_phase.html>
#[derive(Drop, Debug, PartialEq, Eq)]
pub enum ServerFirst<'a> {
    Greeting(HandshakeV10<'a>),
    /// The server refuses the connection. No capabilities are in force, so there is no state.
    Failed(ErrPacket<'a>),
}

impl<'a> ServerFirst<'a> {
    /// Reads the first payload of a server: `0a` begins a greeting, `ff` an error.
    pub fn read(alloc: Global, payload: &'a [u8]) -> Result<ServerFirst<'a>, PayloadError>
        ensures greeting { BeginsWith 0x0a payload.entry.now → ReadsAs Greeting
            (⟦<HandshakeV10<'a> as MyDeserialize<'a, Global>>⟧.reads tt) payload.entry.now result }
        ensures failed { BeginsWith 0xff payload.entry.now → ReadsUnderNone Failed
            ⟦<ErrPacket<'a> as MyDeserialize<'a, Global>>⟧.reads payload.entry.now result }
        ensures other { IsOther (0x0a ∷ 0xff ∷ []) payload.entry.now result }
    {
        match payload.first() {
            Some(0x0a) => read_as(alloc, (), payload, ServerFirst::Greeting),
            Some(0xff) => {
                let none = CapabilityFlags::empty();
                read_as(alloc, none, payload, ServerFirst::Failed)
            }
            Some(byte) => Err(PayloadError::OtherHeader(*byte)),
            None => Err(PayloadError::Refused(WireError::UnexpectedEof)),
        }
    }
}

/// A client's first packet.
///
/// <https://dev.mysql.com/doc/dev/mysql-server/latest/page_protocol_connection_phase.html>
#[derive(Drop, Debug, PartialEq, Eq)]
pub enum ClientFirst<'a> {
    Tls(SslRequest),
    Login(HandshakeResponse41<'a>),
}

impl<'a> ClientFirst<'a> {
    /// Reads the first payload of a client: of 32 bytes it asks for TLS, and any other is a login.
    pub fn read(alloc: Global, payload: &'a [u8]) -> Result<ClientFirst<'a>, PayloadError>
        ensures tls { length payload.entry.now ≡ 32 → ReadsAs Tls
            (⟦<SslRequest as MyDeserialize<'a, Global>>⟧.reads tt) payload.entry.now result }
        ensures login { length payload.entry.now ≢ 32 → ReadsAs Login
            (⟦<HandshakeResponse41<'a> as MyDeserialize<'a, Global>>⟧.reads tt)
            payload.entry.now result }
    {
        if payload.len() == 32 {
            match read_whole::<SslRequest>(alloc, (), payload) {
                Ok(packet) => Ok(ClientFirst::Tls(packet)),
                Err(error) => Err(error),
            }
        } else {
            read_as(alloc, (), payload, ClientFirst::Login)
        }
    }
}
