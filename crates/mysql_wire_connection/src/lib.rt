//! Packets that a connection begins with: greeting, login and authentication.
#![tactic(auto)]

pub mod auth_answer;
pub mod auth_more_data;
pub mod auth_switch;
pub mod auth_switch_response;
pub mod first_packet;
pub mod good;
pub mod handshake;
pub mod handshake_response;
pub mod laws;
pub mod payload;
pub mod ssl_request;
