//! The packets that a connection begins with.

ghost use Rattle.mysql_wire_dump_lines.specs.ConnectionFields.{auth_answer_fields, auth_more_data_fields, auth_switch_fields, greeting_fields, login_fields, tls_request_fields};

use super::{Show, bytes_if, number_if, of_side, side_if, words_if};
use mysql_wire_connection::auth_more_data::AuthMoreData;
use mysql_wire_connection::auth_switch::AuthSwitchRequest;
use mysql_wire_connection::auth_switch_response::AuthSwitchResponse;
use mysql_wire_connection::handshake::HandshakeV10;
use mysql_wire_connection::handshake_response::HandshakeResponse41;
use mysql_wire_connection::ssl_request::SslRequest;
use std::alloc::{AllocError, Allocator};
use wire_text::fields::Field::{Bytes, Flags, Number, Text};
use wire_text::fields::Fields;

impl Show for HandshakeV10<'_> {
    ghost members = { λ packet. greeting_fields packet };

    fn show<A: Allocator + Copy>(&self, fields: &mut Fields<A>) -> Result<(), AllocError> {
        fields.put_all(&[
            Text("server_version", self.server_version.0.as_slice()),
            Number("thread_id", self.thread_id as u64),
            Bytes("auth_plugin_data_part_1", &self.auth_plugin_data_part_1),
            Flags(
                "capability_flags",
                (self.capability_flags_1.0 | self.capability_flags_2.0) as u64,
            ),
            Number("character_set", self.character_set as u64),
            Flags("status_flags", self.status_flags.0 as u64),
            Number("auth_plugin_data_len", self.auth_plugin_data_len as u64),
            Flags("mariadb_capabilities", self.mariadb_capabilities.0 as u64),
            Bytes(
                "auth_plugin_data_part_2",
                self.auth_plugin_data_part_2.0.as_slice(),
            ),
            side_if("auth_plugin_name", &self.auth_plugin_name),
        ])
    }
}

impl Show for SslRequest {
    ghost members = { λ packet. tls_request_fields packet };

    fn show<A: Allocator + Copy>(&self, fields: &mut Fields<A>) -> Result<(), AllocError> {
        fields.put_all(&[
            Flags("client_flag", self.client_flag.0 as u64),
            Number("max_packet_size", self.max_packet_size as u64),
            Number("character_set", self.character_set as u64),
            Flags("mariadb_capabilities", self.mariadb_capabilities.0 as u64),
        ])
    }
}

impl Show for HandshakeResponse41<'_> {
    ghost members = { λ packet. login_fields packet };

    fn show<A: Allocator + Copy>(&self, fields: &mut Fields<A>) -> Result<(), AllocError> {
        fields.put_all(&[
            Flags("client_flag", self.client_flag.0 as u64),
            Number("max_packet_size", self.max_packet_size as u64),
            Number("character_set", self.character_set as u64),
            Flags("mariadb_capabilities", self.mariadb_capabilities.0 as u64),
            Text("username", self.username.0.as_slice()),
            Bytes("auth_response", of_side(&self.auth_response)),
            words_if("database", &self.database),
            words_if("client_plugin_name", &self.client_plugin_name),
            bytes_if("connect_attrs", &self.connect_attrs),
            number_if("zstd_compression_level", self.zstd_compression_level),
        ])
    }
}

impl Show for AuthSwitchRequest<'_> {
    ghost members = { λ packet. auth_switch_fields packet };

    fn show<A: Allocator + Copy>(&self, fields: &mut Fields<A>) -> Result<(), AllocError> {
        fields.put_all(&[
            Text("plugin_name", self.plugin_name.0.as_slice()),
            Bytes("plugin_data", self.plugin_data.0.as_slice()),
        ])
    }
}

impl Show for AuthMoreData<'_> {
    ghost members = { λ packet. auth_more_data_fields packet };

    fn show<A: Allocator + Copy>(&self, fields: &mut Fields<A>) -> Result<(), AllocError> {
        fields.put_all(&[Bytes("data", self.data.0.as_slice())])
    }
}

impl Show for AuthSwitchResponse<'_> {
    ghost members = { λ packet. auth_answer_fields packet };

    fn show<A: Allocator + Copy>(&self, fields: &mut Fields<A>) -> Result<(), AllocError> {
        fields.put_all(&[Bytes("data", self.data.0.as_slice())])
    }
}
