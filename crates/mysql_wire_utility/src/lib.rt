//! Commands about a connection and the server, and those of a replica.
#![tactic(auto)]

pub mod com_binlog_dump;
pub mod com_binlog_dump_gtid;
pub mod com_change_user;
pub mod com_debug;
pub mod com_field_list;
pub mod com_init_db;
pub mod com_ping;
pub mod com_process_kill;
pub mod com_quit;
pub mod com_register_slave;
pub mod com_reset_connection;
pub mod com_set_option;
pub mod com_statistics;
pub mod good;
pub mod laws;
pub mod payload;
