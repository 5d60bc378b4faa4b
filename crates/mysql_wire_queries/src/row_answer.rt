//! What may stand where a row is waited for.

ghost use Rattle.std.specs.Prelude.{◌≡◌, true, false};
ghost use Rattle.mysql_wire_packets.specs.Oks.{ok_form};
ghost use Rattle.mysql_wire_parts.specs.Optional.{deprecates_eof};
ghost use Rattle.mysql_wire_parts.specs.Places.{BeginsWith, ReadsAs, is_short};
ghost use Rattle.mysql_wire_queries.specs.RowPlaces.{EndsRows, IsRow};
ghost use Rattle.mysql_wire_queries.specs.declared.row_answer.RowAnswer.TheVariants.{Row, Eof, End, Failed};

use crate::text_row::TextRow;
use mysql_wire_packets::eof_packet::EofPacket;
use mysql_wire_packets::err_packet::ErrPacket;
use mysql_wire_packets::ok_packet::{InfoForm, RowsEnd};
use mysql_wire_parts::places::{PayloadError, read_as, read_whole};
use std::alloc::Global;
use wire_buf::proto::MyDeserialize;
use wire_const::{CapabilityFlags, Flags};

/// What comes after the definitions of columns, in the text protocol.
///
/// <https://dev.mysql.com/doc/dev/mysql-server/latest/page_protocol_com_query_response_text_resultset.html>
#[derive(Drop, Debug, PartialEq, Eq)]
pub enum RowAnswer<'a> {
    Row(TextRow<'a>),
    /// The rows are at their end, without `CLIENT_DEPRECATE_EOF`.
    Eof(EofPacket),
    /// The rows are at their end, under `CLIENT_DEPRECATE_EOF`.
    End(RowsEnd<'a>),
    Failed(ErrPacket<'a>),
}

/// Whether a payload of this length that begins with `fe` is an end, and no row: it is shorter than 9
/// bytes, or, where EOFs are deprecated, than a full chunk.
pub fn is_end(is_eof_deprecated: bool, len: usize) -> bool
    ensures { result ≡ is_short is_eof_deprecated len }
{
    if is_eof_deprecated {
        len < 0xff_ffff
    } else {
        len < 9
    }
}

impl<'a> RowAnswer<'a> {
    /// Reads a payload where a row of this many columns is waited for, on a connection of these
    /// capabilities. `ff` begins an error. `fe` begins the end of the rows, where the payload is
    /// shorter than 9 bytes, or, under `CLIENT_DEPRECATE_EOF`, than a full chunk; else it is a row
    /// whose first text has 16 MiB or more. All others are rows.
    pub fn read(
        alloc: Global,
        capabilities: CapabilityFlags,
        column_count: usize,
        payload: &'a [u8],
    ) -> Result<RowAnswer<'a>, PayloadError>
        ensures failed { BeginsWith 0xff payload.entry.now → ReadsAs Failed
            (⟦<ErrPacket<'a> as MyDeserialize<'a, Global>>⟧.reads capabilities)
            payload.entry.now result }
        ensures eof { EndsRows false payload.entry.now
            → deprecates_eof capabilities ≡ false → ReadsAs Eof
            (⟦<EofPacket as MyDeserialize<'a, Global>>⟧.reads tt) payload.entry.now result }
        ensures end { EndsRows true payload.entry.now
            → deprecates_eof capabilities ≡ true → ReadsAs End
            (⟦<RowsEnd<'a> as MyDeserialize<'a, Global>>⟧.reads (ok_form capabilities))
            payload.entry.now result }
        ensures row { IsRow (deprecates_eof capabilities) payload.entry.now → ReadsAs Row
            (⟦<TextRow<'a> as MyDeserialize<'a, Global>>⟧.reads column_count)
            payload.entry.now result }
    {
        let is_deprecated = capabilities.contains(CapabilityFlags::CLIENT_DEPRECATE_EOF);
        match payload.first() {
            Some(0xff) => read_as(alloc, capabilities, payload, RowAnswer::Failed),
            Some(0xfe) if is_end(is_deprecated, payload.len()) => {
                if is_deprecated {
                    let form = InfoForm::of(capabilities);
                    read_as(alloc, form, payload, RowAnswer::End)
                } else {
                    match read_whole::<EofPacket>(alloc, (), payload) {
                        Ok(packet) => Ok(RowAnswer::Eof(packet)),
                        Err(error) => Err(error),
                    }
                }
            }
            _ => read_as(alloc, column_count, payload, RowAnswer::Row),
        }
    }
}
