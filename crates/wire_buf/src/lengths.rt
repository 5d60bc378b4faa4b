//! Lengths that the protocol knows, in bytes.

/// The most payload bytes that one chunk carries: the length in a chunk's header has three bytes.
///
/// <https://dev.mysql.com/doc/dev/mysql-server/latest/page_protocol_basic_packets.html>
pub const MAX_PAYLOAD_LEN: usize = 16777215;

/// The limit of a packet, in payload bytes, where none is set.
pub const DEFAULT_MAX_ALLOWED_PACKET: usize = 4194304;

/// A payload of fewer bytes is not worth compressing.
///
/// <https://dev.mysql.com/doc/dev/mysql-server/latest/page_protocol_basic_compression.html>
pub const MIN_COMPRESS_LENGTH: usize = 50;
