//! What is read is written again byte for byte: always of packets that have no length in them, and of
//! the others where each length that came is spelled in its shortest form. These are never written
//! in more bytes than came. `read_exact` is the test for a payload in hand.
//!
//! Each function takes and answers nothing: its contract is the law, and a caller has it by calling.

ghost use Rattle.mysql_wire_parts.specs.Written.{WritesBack, WritesSame};

use crate::auth_more_data::AuthMoreData;
use crate::auth_switch::AuthSwitchRequest;
use crate::auth_switch_response::AuthSwitchResponse;
use crate::handshake::HandshakeV10;
use crate::handshake_response::HandshakeResponse41;
use crate::ssl_request::SslRequest;
use std::alloc::Global;
use wire_buf::proto::{MyDeserialize, MySerialize};

/// Of `AuthMoreData`.
pub fn auth_more_data_is_written_back()
    ensures { WritesSame (⟦<AuthMoreData<'static> as MyDeserialize<'static, Global>>⟧.reads tt)
        ⟦<AuthMoreData<'static> as MySerialize>⟧.bytes }
{}

/// Of `AuthSwitchResponse`.
pub fn auth_switch_response_is_written_back()
    ensures { WritesSame (⟦<AuthSwitchResponse<'static> as MyDeserialize<'static, Global>>⟧.reads tt)
        ⟦<AuthSwitchResponse<'static> as MySerialize>⟧.bytes }
{}

/// Of `AuthSwitchRequest`.
pub fn auth_switch_request_is_written_back()
    ensures { WritesSame (⟦<AuthSwitchRequest<'static> as MyDeserialize<'static, Global>>⟧.reads tt)
        ⟦<AuthSwitchRequest<'static> as MySerialize>⟧.bytes }
{}

/// Of `SslRequest`.
pub fn ssl_request_is_written_back()
    ensures { WritesSame (⟦<SslRequest as MyDeserialize<'static, Global>>⟧.reads tt)
        ⟦<SslRequest as MySerialize>⟧.bytes }
{}

/// Of `HandshakeV10`.
pub fn handshake_is_written_back()
    ensures { WritesBack (⟦<HandshakeV10<'static> as MyDeserialize<'static, Global>>⟧.reads tt)
        ⟦<HandshakeV10<'static> as MySerialize>⟧.bytes }
{}

/// Of `HandshakeResponse41`.
pub fn handshake_response_is_written_back()
    ensures { WritesBack (⟦<HandshakeResponse41<'static> as MyDeserialize<'static, Global>>⟧.reads tt)
        ⟦<HandshakeResponse41<'static> as MySerialize>⟧.bytes }
{}
