//! What a server may send while a client authenticates itself.

ghost use Rattle.std.specs.Prelude.{◌∷◌, []};
ghost use Rattle.mysql_wire_packets.specs.Oks.{ok_form};
ghost use Rattle.mysql_wire_parts.specs.Places.{BeginsWith, IsOther, ReadsAs};
ghost use Rattle.mysql_wire_connection.specs.declared.auth_answer.AuthAnswer.TheVariants.{Done, Failed, Switch, MoreData};

use crate::auth_more_data::AuthMoreData;
use crate::auth_switch::AuthSwitchRequest;
use mysql_wire_packets::err_packet::ErrPacket;
use mysql_wire_packets::ok_packet::{InfoForm, OkPacket};
use mysql_wire_parts::places::{PayloadError, read_as};
use std::alloc::Global;
use wire_buf::error::WireError;
use wire_buf::proto::MyDeserialize;
use wire_const::CapabilityFlags;

/// A server's packet in the authentication.
///
/// <https://dev.mysql.com/doc/dev/mysql-server/latest/page_protocol_connection_phase.html>
#[derive(Drop, Debug, PartialEq, Eq)]
pub enum AuthAnswer<'a> {
    /// The client is in.
    Done(OkPacket<'a>),
    Failed(ErrPacket<'a>),
    /// Another plugin is asked for. The byte `fe` alone, which asks for the plugin of servers before
    /// 4.1, is refused as `NoNullTerminator`.
    Switch(AuthSwitchRequest<'a>),
    MoreData(AuthMoreData<'a>),
}

impl<'a> AuthAnswer<'a> {
    /// Reads a payload where the client waits for the outcome of its authentication. `00` begins an
    /// OK, `ff` an error, `fe` the request for another plugin, and `01` more data of the plugin.
    pub fn read(
        alloc: Global,
        capabilities: CapabilityFlags,
        payload: &'a [u8],
    ) -> Result<AuthAnswer<'a>, PayloadError>
        ensures done { BeginsWith 0x00 payload.entry.now → ReadsAs Done
            (⟦<OkPacket<'a> as MyDeserialize<'a, Global>>⟧.reads (ok_form capabilities))
            payload.entry.now result }
        ensures failed { BeginsWith 0xff payload.entry.now → ReadsAs Failed
            (⟦<ErrPacket<'a> as MyDeserialize<'a, Global>>⟧.reads capabilities)
            payload.entry.now result }
        ensures switch { BeginsWith 0xfe payload.entry.now → ReadsAs Switch
            (⟦<AuthSwitchRequest<'a> as MyDeserialize<'a, Global>>⟧.reads tt)
            payload.entry.now result }
        ensures more { BeginsWith 0x01 payload.entry.now → ReadsAs MoreData
            (⟦<AuthMoreData<'a> as MyDeserialize<'a, Global>>⟧.reads tt) payload.entry.now result }
        ensures other { IsOther (0x00 ∷ 0xff ∷ 0xfe ∷ 0x01 ∷ []) payload.entry.now result }
    {
        match payload.first() {
            Some(0x00) => {
                let form = InfoForm::of(capabilities);
                read_as(alloc, form, payload, AuthAnswer::Done)
            }
            Some(0xff) => read_as(alloc, capabilities, payload, AuthAnswer::Failed),
            Some(0xfe) => read_as(alloc, (), payload, AuthAnswer::Switch),
            Some(0x01) => read_as(alloc, (), payload, AuthAnswer::MoreData),
            Some(byte) => Err(PayloadError::OtherHeader(*byte)),
            None => Err(PayloadError::Refused(WireError::UnexpectedEof)),
        }
    }
}
