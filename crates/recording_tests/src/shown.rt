//! The fields of packets in a plain form, each a word with a space after it: a number in decimal,
//! and a text as `x` and its bytes in hex. The word `end` stands after the last.

use mysql_wire_connection::auth_more_data::AuthMoreData;
use mysql_wire_connection::auth_switch::AuthSwitchRequest;
use mysql_wire_connection::auth_switch_response::AuthSwitchResponse;
use mysql_wire_connection::handshake::HandshakeV10;
use mysql_wire_connection::handshake_response::HandshakeResponse41;
use mysql_wire_connection::ssl_request::SslRequest;
use mysql_wire_packets::eof_packet::EofPacket;
use mysql_wire_packets::err_packet::ErrPacket;
use mysql_wire_packets::ok_packet::OkForm;
use mysql_wire_packets::progress_report::ProgressReport;
use mysql_wire_packets::session_change::SessionChange;
use mysql_wire_queries::column_count::ColumnCount;
use mysql_wire_queries::column_definition::ColumnDefinition41;
use mysql_wire_queries::local_infile::LocalInfileRequest;
use mysql_wire_queries::text_row::{TextRow, TextValue};
use mysql_wire_queries::type_detail::TypeDetail;
use std::alloc::Global;
use wire_buf::io::ParseBuf;
use wire_buf::proto::{MyDeserialize, MySerialize};
use wire_const::{CapabilityFlags, Flags, MariadbCapabilities};
use wire_field::row::Either;
use wire_forms::lenenc::LenEnc;
use wire_repr::int::LeU32;
use wire_repr::text::BytesRepr;
use wire_values::flags::RawFlags;
use wire_values::text::RawBytes;

/// A field.
#[derive(Clone, Copy)]
pub enum Field<'a> {
    Number(u64),
    Text(&'a [u8]),
    /// Keys and values in turn, each after its length: how many bytes they have, and each.
    Texts(&'a [u8]),
    Missing,
}

/// A text that may be missing.
pub fn text_if<'a, T: BytesRepr>(text: &'a Option<RawBytes<'_, T>>) -> Field<'a> {
    match text {
        Some(text) => Field::Text(text.as_bytes()),
        None => Field::Missing,
    }
}

/// Keys and values that may be missing.
pub fn texts_if<'a, T: BytesRepr>(texts: &'a Option<RawBytes<'_, T>>) -> Field<'a> {
    match texts {
        Some(texts) => Field::Texts(texts.as_bytes()),
        None => Field::Missing,
    }
}

// A number that may be missing.
fn number_if<'a>(number: Option<u8>) -> Field<'a> {
    match number {
        Some(number) => Field::Number(number as u64),
        None => Field::Missing,
    }
}

// What a client can do of MariaDB. Of one of MySQL these bytes are reserved.
fn mariadb_if<'a>(
    capabilities: RawFlags<CapabilityFlags, LeU32>,
    mariadb: RawFlags<MariadbCapabilities, LeU32>,
) -> Field<'a> {
    if capabilities
        .get()
        .contains(CapabilityFlags::CLIENT_LONG_PASSWORD)
    {
        Field::Missing
    } else {
        Field::Number(mariadb.0 as u64)
    }
}

// A text in one of two forms.
fn of_side<'a, T: BytesRepr, U: BytesRepr>(
    text: &'a Either<RawBytes<'_, T>, RawBytes<'_, U>>,
) -> &'a [u8] {
    match text {
        Either::Left(text) => text.as_bytes(),
        Either::Right(text) => text.as_bytes(),
    }
}

// Such a text, which may be missing.
fn side_if<'a, T: BytesRepr, U: BytesRepr>(
    text: &'a Option<Either<RawBytes<'_, T>, RawBytes<'_, U>>>,
) -> Field<'a> {
    match text {
        Some(text) => Field::Text(of_side(text)),
        None => Field::Missing,
    }
}

/// Fields that were shown.
#[derive(Drop)]
pub struct Fields {
    alloc: Global,
    words: String,
    /// Whether all of them are there: memory was found, and no list has a byte that is of no part.
    pub is_whole: bool,
}

impl Fields {
    pub fn new(alloc: Global) -> Fields {
        Fields {
            alloc,
            words: String::new(alloc),
            is_whole: true,
        }
    }

    fn number(&mut self, number: u64) {
        self.is_whole &= write!(self.words, "{number} ").is_ok();
    }

    fn text(&mut self, text: &[u8]) {
        self.is_whole &= self.words.push('x').is_ok();
        for byte in text {
            self.is_whole &= write!(self.words, "{byte:02x}").is_ok();
        }
        self.is_whole &= self.words.push(' ').is_ok();
    }

    fn texts(&mut self, texts: &[u8]) {
        self.number(texts.len() as u64);
        let mut rest = ParseBuf(texts);
        for _ in 0..texts.len() {
            match rest.parse::<RawBytes<'_, LenEnc>>(self.alloc, ()) {
                Ok(text) => self.text(text.as_bytes()),
                Err(_) => break,
            }
        }
        self.is_whole &= rest.is_empty();
    }

    /// Parts that a packet lists one after another, if it has them: how many bytes they have, and
    /// the fields of each. They are whole where they are written back.
    pub fn put_parts<'a, T>(&mut self, list: &'a Option<RawBytes<'a, LenEnc>>)
    where
        T: Drop + Shown + MySerialize + MyDeserialize<'a, Global, Ctx = ()>,
    {
        let Some(list) = list else {
            return;
        };
        self.number(list.len() as u64);
        let mut rest = ParseBuf(list.as_bytes());
        let mut written = Vec::new(self.alloc);
        for _ in 0..list.len() {
            match rest.parse::<T>(self.alloc, ()) {
                Ok(part) => self.put_part(&part, &mut written),
                Err(_) => break,
            }
        }
        self.is_whole &= written.as_slice() == list.as_bytes();
    }

    fn put_part<T: Shown + MySerialize>(&mut self, part: &T, written: &mut Vec<u8>) {
        part.show(self);
        self.is_whole &= part.serialize(written).is_ok();
    }

    pub fn put(&mut self, field: Field<'_>) {
        match field {
            Field::Number(number) => self.number(number),
            Field::Text(text) => self.text(text),
            Field::Texts(texts) => self.texts(texts),
            Field::Missing => {}
        }
    }

    pub fn put_all(&mut self, fields: &[Field<'_>]) {
        for field in fields {
            self.put(*field);
        }
    }

    /// Those of a packet, and the word after the last.
    pub fn all_of<T: Shown>(&mut self, packet: &T) {
        packet.show(self);
        self.is_whole &= self.words.push_str("end ").is_ok();
    }

    /// Whether the first fields are these.
    pub fn begin_with(&self, listed: &[u8]) -> bool {
        self.is_whole & self.words.as_bytes().starts_with(listed)
    }
}

/// What has fields.
pub trait Shown {
    /// Shows the fields in order, a constant of the format as its number, and leaves out what is
    /// reserved.
    fn show(&self, fields: &mut Fields);
}

impl Shown for HandshakeV10<'_> {
    fn show(&self, fields: &mut Fields) {
        fields.put_all(&[
            Field::Number(0x0a),
            Field::Text(self.server_version.as_bytes()),
            Field::Number(self.thread_id as u64),
            Field::Text(&self.auth_plugin_data_part_1),
            Field::Number(self.filler as u64),
            Field::Number(self.capability_flags_1.0 as u64),
            Field::Number(self.character_set as u64),
        ]);
        fields.put_all(&[
            Field::Number(self.status_flags.0 as u64),
            Field::Number(self.capability_flags_2.0 as u64),
            Field::Number(self.auth_plugin_data_len as u64),
            Field::Number(self.mariadb_capabilities.0 as u64),
            Field::Text(self.auth_plugin_data_part_2.as_bytes()),
            side_if(&self.auth_plugin_name),
        ]);
    }
}

impl Shown for HandshakeResponse41<'_> {
    fn show(&self, fields: &mut Fields) {
        fields.put_all(&[
            Field::Number(self.client_flag.0 as u64),
            Field::Number(self.max_packet_size as u64),
            Field::Number(self.character_set as u64),
            mariadb_if(self.client_flag, self.mariadb_capabilities),
            Field::Text(self.username.as_bytes()),
            Field::Text(of_side(&self.auth_response)),
            text_if(&self.database),
            text_if(&self.client_plugin_name),
            texts_if(&self.connect_attrs),
            number_if(self.zstd_compression_level),
        ]);
    }
}

impl Shown for SslRequest {
    fn show(&self, fields: &mut Fields) {
        fields.put_all(&[
            Field::Number(self.client_flag.0 as u64),
            Field::Number(self.max_packet_size as u64),
            Field::Number(self.character_set as u64),
            mariadb_if(self.client_flag, self.mariadb_capabilities),
        ]);
    }
}

impl<const HEADER: u8> Shown for OkForm<'_, HEADER> {
    fn show(&self, fields: &mut Fields) {
        fields.put_all(&[
            Field::Number(HEADER as u64),
            Field::Number(self.affected_rows),
            Field::Number(self.last_insert_id),
            Field::Number(self.status_flags.0 as u64),
            Field::Number(self.warnings as u64),
            side_if(&self.info),
        ]);
        fields.put_parts::<SessionChange<'_>>(&self.session_state);
    }
}

impl Shown for SessionChange<'_> {
    fn show(&self, fields: &mut Fields) {
        fields.put_all(&[
            Field::Number(self.kind.0 as u64),
            Field::Text(self.data.as_bytes()),
        ]);
    }
}

impl Shown for ErrPacket<'_> {
    fn show(&self, fields: &mut Fields) {
        fields.put(Field::Number(0xff));
        fields.put(Field::Number(self.error_code as u64));
        if let Some(state) = &self.sql_state {
            fields.put(Field::Number(b'#' as u64));
            fields.put(Field::Text(state));
        }
        fields.put(Field::Text(self.error_message.as_bytes()));
    }
}

impl Shown for ProgressReport<'_> {
    fn show(&self, fields: &mut Fields) {
        fields.put_all(&[
            Field::Number(0xff),
            Field::Number(0xffff),
            Field::Number(self.strings as u64),
            Field::Number(self.stage as u64),
            Field::Number(self.max_stage as u64),
            Field::Number(self.progress as u64),
            Field::Text(self.info.as_bytes()),
        ]);
    }
}

impl Shown for EofPacket {
    fn show(&self, fields: &mut Fields) {
        fields.put_all(&[
            Field::Number(0xfe),
            Field::Number(self.warnings as u64),
            Field::Number(self.status_flags.0 as u64),
        ]);
    }
}

impl Shown for ColumnCount {
    fn show(&self, fields: &mut Fields) {
        fields.put_all(&[
            number_if(self.metadata_follows),
            Field::Number(self.column_count),
            number_if(self.mariadb_metadata_follows),
        ]);
    }
}

// The fields of a column after what MariaDB says more of its type.
fn put_form(column: &ColumnDefinition41<'_>, fields: &mut Fields) {
    fields.put_all(&[
        Field::Number(0x0c),
        Field::Number(column.character_set as u64),
        Field::Number(column.column_length as u64),
        Field::Number(column.column_type.0 as u64),
        Field::Number(column.flags.0 as u64),
        Field::Number(column.decimals as u64),
    ]);
}

impl Shown for ColumnDefinition41<'_> {
    fn show(&self, fields: &mut Fields) {
        fields.put_all(&[
            Field::Text(self.catalog.as_bytes()),
            Field::Text(self.schema.as_bytes()),
            Field::Text(self.table.as_bytes()),
            Field::Text(self.org_table.as_bytes()),
            Field::Text(self.name.as_bytes()),
            Field::Text(self.org_name.as_bytes()),
        ]);
        fields.put_parts::<TypeDetail<'_>>(&self.extended_metadata);
        put_form(self, fields);
    }
}

impl Shown for TypeDetail<'_> {
    fn show(&self, fields: &mut Fields) {
        fields.put_all(&[
            Field::Number(self.kind as u64),
            Field::Text(self.value.as_bytes()),
        ]);
    }
}

impl Shown for TextRow<'_> {
    fn show(&self, fields: &mut Fields) {
        for value in self.values.as_slice() {
            fields.put(match value {
                TextValue::Null => Field::Number(0xfb),
                TextValue::Text(text) => Field::Text(text),
            });
        }
    }
}

impl Shown for LocalInfileRequest<'_> {
    fn show(&self, fields: &mut Fields) {
        fields.put_all(&[Field::Number(0xfb), Field::Text(self.file_name.as_bytes())]);
    }
}

impl Shown for AuthSwitchRequest<'_> {
    fn show(&self, fields: &mut Fields) {
        fields.put_all(&[
            Field::Number(0xfe),
            Field::Text(self.plugin_name.as_bytes()),
            Field::Text(self.plugin_data.as_bytes()),
        ]);
    }
}

impl Shown for AuthSwitchResponse<'_> {
    fn show(&self, fields: &mut Fields) {
        fields.put(Field::Text(self.data.as_bytes()));
    }
}

impl Shown for AuthMoreData<'_> {
    fn show(&self, fields: &mut Fields) {
        fields.put_all(&[Field::Number(0x01), Field::Text(self.data.as_bytes())]);
    }
}
