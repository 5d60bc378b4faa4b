//! Packets of prepared statements, made of the wire types of `mysql_wire`; dates and times in their
//! binary form, why such values are refused, and what it is that values are written as they were read.
#![tactic(auto)]

pub mod binary_fault;
pub mod binary_row;
pub mod binary_value;
pub mod binary_values;
pub mod com_stmt_close;
pub mod com_stmt_execute;
pub mod com_stmt_fetch;
pub mod com_stmt_prepare;
pub mod com_stmt_prepare_ok;
pub mod com_stmt_reset;
pub mod com_stmt_send_long_data;
pub mod laws;
pub mod null_bitmap;
pub mod params;
pub mod payload;
pub mod prepare_answer;
mod rest;
pub mod statement_command;
pub mod temporal;
pub mod written_back;
