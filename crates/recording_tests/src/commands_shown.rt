//! The fields of commands.

use crate::shown::{Field, Fields, Shown, text_if, texts_if};
use mysql_wire_queries::com_query::ComQuery;
use mysql_wire_queries::com_query_attributes::ComQueryWithAttributes;
use mysql_wire_utility::com_binlog_dump::ComBinlogDump;
use mysql_wire_utility::com_binlog_dump_gtid::ComBinlogDumpGtid;
use mysql_wire_utility::com_change_user::ComChangeUser;
use mysql_wire_utility::com_debug::ComDebug;
use mysql_wire_utility::com_field_list::ComFieldList;
use mysql_wire_utility::com_init_db::ComInitDb;
use mysql_wire_utility::com_ping::ComPing;
use mysql_wire_utility::com_process_kill::ComProcessKill;
use mysql_wire_utility::com_quit::ComQuit;
use mysql_wire_utility::com_register_slave::ComRegisterSlave;
use mysql_wire_utility::com_reset_connection::ComResetConnection;
use mysql_wire_utility::com_set_option::ComSetOption;
use mysql_wire_utility::com_statistics::{ComStatistics, StatisticsText};

impl Shown for ComQuit {
    fn show(&self, fields: &mut Fields) {
        fields.put(Field::Number(0x01));
    }
}

impl Shown for ComInitDb<'_> {
    fn show(&self, fields: &mut Fields) {
        fields.put_all(&[Field::Number(0x02), Field::Text(self.schema.as_bytes())]);
    }
}

impl Shown for ComQuery<'_> {
    fn show(&self, fields: &mut Fields) {
        fields.put_all(&[Field::Number(0x03), Field::Text(self.query.as_bytes())]);
    }
}

impl Shown for ComQueryWithAttributes<'_> {
    fn show(&self, fields: &mut Fields) {
        fields.put_all(&[
            Field::Number(0x03),
            Field::Number(self.parameter_count),
            Field::Number(self.parameter_set_count),
            Field::Text(self.attributes_and_query.as_bytes()),
        ]);
    }
}

impl Shown for ComPing {
    fn show(&self, fields: &mut Fields) {
        fields.put(Field::Number(0x0e));
    }
}

impl Shown for ComChangeUser<'_> {
    fn show(&self, fields: &mut Fields) {
        let character_set = match self.character_set {
            Some(number) => Field::Number(number as u64),
            None => Field::Missing,
        };
        fields.put_all(&[
            Field::Number(0x11),
            Field::Text(self.user.as_bytes()),
            Field::Text(self.auth_plugin_data.as_bytes()),
            Field::Text(self.database.as_bytes()),
            character_set,
            text_if(&self.auth_plugin_name),
            texts_if(&self.connect_attrs),
        ]);
    }
}

impl Shown for ComSetOption {
    fn show(&self, fields: &mut Fields) {
        fields.put_all(&[Field::Number(0x1b), Field::Number(self.operation as u64)]);
    }
}

impl Shown for ComStatistics {
    fn show(&self, fields: &mut Fields) {
        fields.put(Field::Number(0x09));
    }
}

impl Shown for StatisticsText<'_> {
    fn show(&self, fields: &mut Fields) {
        fields.put(Field::Text(self.text.as_bytes()));
    }
}

impl Shown for ComFieldList<'_> {
    fn show(&self, fields: &mut Fields) {
        fields.put_all(&[
            Field::Number(0x04),
            Field::Text(self.table.as_bytes()),
            Field::Text(self.wildcard.as_bytes()),
        ]);
    }
}

impl Shown for ComProcessKill {
    fn show(&self, fields: &mut Fields) {
        fields.put_all(&[
            Field::Number(0x0c),
            Field::Number(self.connection_id as u64),
        ]);
    }
}

impl Shown for ComDebug {
    fn show(&self, fields: &mut Fields) {
        fields.put(Field::Number(0x0d));
    }
}

impl Shown for ComResetConnection {
    fn show(&self, fields: &mut Fields) {
        fields.put(Field::Number(0x1f));
    }
}

impl Shown for ComRegisterSlave<'_> {
    fn show(&self, fields: &mut Fields) {
        fields.put_all(&[
            Field::Number(0x15),
            Field::Number(self.server_id as u64),
            Field::Text(self.hostname.as_bytes()),
            Field::Text(self.user.as_bytes()),
            Field::Text(self.password.as_bytes()),
            Field::Number(self.port as u64),
            Field::Number(self.replication_rank as u64),
            Field::Number(self.master_id as u64),
        ]);
    }
}

impl Shown for ComBinlogDump<'_> {
    fn show(&self, fields: &mut Fields) {
        fields.put_all(&[
            Field::Number(0x12),
            Field::Number(self.pos as u64),
            Field::Number(self.flags as u64),
            Field::Number(self.server_id as u64),
            Field::Text(self.filename.as_bytes()),
        ]);
    }
}

impl Shown for ComBinlogDumpGtid<'_> {
    fn show(&self, fields: &mut Fields) {
        fields.put_all(&[
            Field::Number(0x1e),
            Field::Number(self.flags as u64),
            Field::Number(self.server_id as u64),
            Field::Text(self.filename.as_bytes()),
            Field::Number(self.pos),
            Field::Text(self.sid_block.as_bytes()),
        ]);
    }
}
