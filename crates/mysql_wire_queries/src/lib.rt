//! Queries, and their answers: columns and rows of text.
#![tactic(auto)]

pub mod column_count;
pub mod column_definition;
pub mod com_query;
pub mod com_query_attributes;
pub mod good;
pub mod laws;
pub mod local_infile;
pub mod payload;
pub mod query_answer;
pub mod row_answer;
pub mod text_row;
pub mod text_values;
pub mod type_detail;
