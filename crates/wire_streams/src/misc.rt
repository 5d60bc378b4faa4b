//! Lengths of what is written, integers of the serialization library, and server versions.

mod length;
mod varlen;
mod version;

pub use length::{lenenc_int_len, lenenc_str_len};
pub use varlen::{read_varlen_uint, varlen_uint_size, write_varlen_uint};
pub use version::split_version;
