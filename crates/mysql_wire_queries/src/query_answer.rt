//! What may answer a command.

ghost use Rattle.std.specs.Prelude.{◌∷◌, []};
ghost use Rattle.mysql_wire_packets.specs.Oks.{ok_form};
ghost use Rattle.mysql_wire_parts.specs.Places.{BeginsWith, BeginsWithNone, ReadsAs};
ghost use Rattle.mysql_wire_queries.specs.declared.query_answer.QueryAnswer.TheVariants.{Done, Failed, File, Columns};

use crate::column_count::ColumnCount;
use crate::local_infile::LocalInfileRequest;
use mysql_wire_packets::err_packet::ErrPacket;
use mysql_wire_packets::ok_packet::{InfoForm, OkPacket};
use mysql_wire_parts::places::{PayloadError, read_as, read_whole};
use std::alloc::Global;
use wire_buf::proto::MyDeserialize;
use wire_const::{CapabilityFlags, MariadbCapabilities};

/// The first packet of the answer to a command.
///
/// <https://dev.mysql.com/doc/dev/mysql-server/latest/page_protocol_com_query_response.html>
#[derive(Drop, Debug, PartialEq, Eq)]
pub enum QueryAnswer<'a> {
    /// The command was done, and has no rows.
    Done(OkPacket<'a>),
    Failed(ErrPacket<'a>),
    /// The server asks for a file.
    File(LocalInfileRequest<'a>),
    /// Rows follow, of this many columns.
    Columns(ColumnCount),
}

impl<'a> QueryAnswer<'a> {
    /// Reads the answer from a payload, on a connection of these capabilities, and MariaDB's: `00`
    /// begins an OK, `ff` an error, `fb` the request for a file, and any other byte a count of columns.
    pub fn read(
        alloc: Global,
        capabilities: CapabilityFlags,
        mariadb: MariadbCapabilities,
        payload: &'a [u8],
    ) -> Result<QueryAnswer<'a>, PayloadError>
        ensures done { BeginsWith 0x00 payload.entry.now → ReadsAs Done
            (⟦<OkPacket<'a> as MyDeserialize<'a, Global>>⟧.reads (ok_form capabilities))
            payload.entry.now result }
        ensures failed { BeginsWith 0xff payload.entry.now → ReadsAs Failed
            (⟦<ErrPacket<'a> as MyDeserialize<'a, Global>>⟧.reads capabilities)
            payload.entry.now result }
        ensures file { BeginsWith 0xfb payload.entry.now → ReadsAs File
            (⟦<LocalInfileRequest<'a> as MyDeserialize<'a, Global>>⟧.reads tt)
            payload.entry.now result }
        ensures columns { BeginsWithNone (0x00 ∷ 0xff ∷ 0xfb ∷ []) payload.entry.now
            → ReadsAs Columns
            (⟦<ColumnCount as MyDeserialize<'a, Global>>⟧.reads (capabilities, mariadb))
            payload.entry.now result }
    {
        match payload.first() {
            Some(0x00) => {
                let form = InfoForm::of(capabilities);
                read_as(alloc, form, payload, QueryAnswer::Done)
            }
            Some(0xff) => read_as(alloc, capabilities, payload, QueryAnswer::Failed),
            Some(0xfb) => read_as(alloc, (), payload, QueryAnswer::File),
            _ => match read_whole::<ColumnCount>(alloc, (capabilities, mariadb), payload) {
                Ok(packet) => Ok(QueryAnswer::Columns(packet)),
                Err(error) => Err(error),
            },
        }
    }
}
