//! MySQL's numbers and texts over readers and writers.

mod read;
mod write;

pub use read::ReadMysqlExt;
pub use write::WriteMysqlExt;
