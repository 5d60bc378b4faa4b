//! That a payload is one of these packets.

ghost use Rattle.std.specs.Prelude.{None};
ghost use Rattle.wire_buf.specs.Reading.{Parses};
ghost use Rattle.mysql_wire_parts.specs.Places.{ReadsWhole};

use crate::auth_more_data::AuthMoreData;
use crate::auth_switch::AuthSwitchRequest;
use crate::auth_switch_response::AuthSwitchResponse;
use crate::handshake::HandshakeV10;
use crate::handshake_response::HandshakeResponse41;
use crate::ssl_request::SslRequest;
use mysql_wire_parts::payload::Payload;
use std::alloc::Global;
use wire_buf::proto::MyDeserialize;

impl<'a> Payload<'a> for AuthMoreData<'a> {
    ghost reads_whole = { λ ctx.
        ReadsWhole (Parses None (⟦<AuthMoreData<'a> as MyDeserialize<'a, Global>>⟧.reads ctx)) };

    ghost is_read = { λ _ _ _ read. read };
}

impl<'a> Payload<'a> for AuthSwitchRequest<'a> {
    ghost reads_whole = { λ ctx.
        ReadsWhole (Parses None (⟦<AuthSwitchRequest<'a> as MyDeserialize<'a, Global>>⟧.reads ctx)) };

    ghost is_read = { λ _ _ _ read. read };
}

impl<'a> Payload<'a> for AuthSwitchResponse<'a> {
    ghost reads_whole = { λ ctx.
        ReadsWhole (Parses None (⟦<AuthSwitchResponse<'a> as MyDeserialize<'a, Global>>⟧.reads ctx)) };

    ghost is_read = { λ _ _ _ read. read };
}

impl<'a> Payload<'a> for HandshakeResponse41<'a> {
    ghost reads_whole = { λ ctx.
        ReadsWhole (Parses None (⟦<HandshakeResponse41<'a> as MyDeserialize<'a, Global>>⟧.reads ctx)) };

    ghost is_read = { λ _ _ _ read. read };
}

impl<'a> Payload<'a> for HandshakeV10<'a> {
    ghost reads_whole = { λ ctx.
        ReadsWhole (Parses None (⟦<HandshakeV10<'a> as MyDeserialize<'a, Global>>⟧.reads ctx)) };

    ghost is_read = { λ _ _ _ read. read };
}

impl<'a> Payload<'a> for SslRequest {
    ghost reads_whole = { λ ctx.
        ReadsWhole (Parses None (⟦<SslRequest as MyDeserialize<'a, Global>>⟧.reads ctx)) };

    ghost is_read = { λ _ _ _ read. read };
}
