//! Buffers and streams: the buffer that is read from its front, numbers whose length is in their
//! first byte, texts after their length, versions; and what errors say.

mod errors;
mod lenenc;
mod numbers;
pub mod parse;
mod streams;
mod varlen;
mod versions;
