//! The program's commands over readers and writers in memory, and what the built program can't show.

mod faults;
mod flushes;
mod reads;
mod rows;
