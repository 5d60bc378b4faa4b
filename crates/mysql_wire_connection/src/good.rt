//! When what was written of each packet comes back: what the member `good` of its law asks.
//!
//! Each function does nothing: its contract is the law, and a caller has it by calling.

ghost use Rattle.std.specs.Prelude.{◌≡◌, ℕ, List, [], length, min};
ghost use Rattle.std.specs.Cow.{cow_slice_items};
ghost use Rattle.wire_field.specs.Rows.{OnSide};
ghost use Rattle.mysql_wire_parts.specs.Optional.{IsSide, IsThere, OnIf, has};
ghost use Rattle.mysql_wire_connection.specs.Handshakes.{is_closed, part_2_length, upper_half};

use crate::auth_more_data::AuthMoreData;
use crate::auth_switch::AuthSwitchRequest;
use crate::auth_switch_response::AuthSwitchResponse;
use crate::handshake::HandshakeV10;
use crate::handshake_response::HandshakeResponse41;
use crate::ssl_request::SslRequest;
use std::alloc::Global;
use wire_repr::wire::Wire;

/// An `AuthMoreData` comes back before nothing.
pub fn auth_more_data_is_good(_packet: &AuthMoreData<'_>)
    ensures { ⟦<AuthMoreData<'static> as Wire<'static, Global>>⟧.good tt _packet.now [] }
{}

/// An `AuthSwitchResponse` comes back before nothing.
pub fn auth_switch_response_is_good(_packet: &AuthSwitchResponse<'_>)
    ensures { ⟦<AuthSwitchResponse<'static> as Wire<'static, Global>>⟧.good tt _packet.now [] }
{}

/// An `AuthSwitchRequest` comes back before nothing.
pub fn auth_switch_request_is_good(_packet: &AuthSwitchRequest<'_>)
    ensures { ⟦<AuthSwitchRequest<'static> as Wire<'static, Global>>⟧.good tt _packet.now [] }
{}

/// An `SslRequest` comes back whatever follows.
pub fn ssl_request_is_good(_packet: &SslRequest)
    ensures { (rest : List ℕ)
        → ⟦<SslRequest as Wire<'static, Global>>⟧.good tt _packet.now rest }
{}

/// A `HandshakeV10` comes back where its second part has the length that it states, and the name of
/// its plugin is there, and ends, as its capabilities and what follows say.
pub fn handshake_is_good(_packet: &HandshakeV10<'_>)
    ensures { (rest : List ℕ)
        → part_2_length _packet.now.auth_plugin_data_len
        ≡ min (length (cow_slice_items _packet.now.auth_plugin_data_part_2.0)) 255
        → IsThere (has (upper_half _packet.now.capability_flags_2.0) 0x80000)
        _packet.now.auth_plugin_name
        → OnIf (IsSide (is_closed _packet.now rest)) _packet.now.auth_plugin_name
        → OnIf (OnSide (λ _. Unit {0}) (λ _. rest ≡ [])) _packet.now.auth_plugin_name
        → ⟦<HandshakeV10<'static> as Wire<'static, Global>>⟧.good tt _packet.now rest }
{}

/// A `HandshakeResponse41` comes back whatever follows, where its parts are there just as its
/// capabilities say.
pub fn handshake_response_is_good(_packet: &HandshakeResponse41<'_>)
    ensures { (rest : List ℕ)
        → IsSide (has _packet.now.client_flag.0 0x200000) _packet.now.auth_response
        → IsThere (has _packet.now.client_flag.0 0x8) _packet.now.database
        → IsThere (has _packet.now.client_flag.0 0x80000) _packet.now.client_plugin_name
        → IsThere (has _packet.now.client_flag.0 0x100000) _packet.now.connect_attrs
        → IsThere (has _packet.now.client_flag.0 0x4000000) _packet.now.zstd_compression_level
        → ⟦<HandshakeResponse41<'static> as Wire<'static, Global>>⟧.good tt _packet.now rest }
{}
