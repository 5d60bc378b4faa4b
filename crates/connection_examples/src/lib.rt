//! Callers of a connection and of a session. The connection phase as types: each state has just the
//! steps that the protocol allows there, and a step takes the state and gives the next. Of a session, a
//! client that reads an answer and a row, and a proxy or a pool that follows one.
//!
//! <https://dev.mysql.com/doc/dev/mysql-server/latest/page_protocol_connection_phase.html>
#![tactic(auto)]

pub mod client;
pub mod counting;
pub mod line;
pub mod proxy;
pub mod rows;
pub mod secret;
pub mod server;
