//! What the calls answer.

/// Done.
pub const OK: i32 = 0;

/// No packet is whole: more bytes are needed.
pub const WAITS: i32 = 0;

/// A packet stands whole.
pub const PACKET: i32 = 1;

/// Bytes of a packet.
pub const SPAN: i32 = 2;

/// The text is NULL.
pub const NULL: i32 = 3;

/// What is known after the packet hangs on all of it.
pub const NEEDS_WHOLE: i32 = 4;

/// The payload is no packet of its kind.
pub const REFUSED: i32 = 5;

/// The packet is above the limit.
pub const TOO_LARGE: i32 = -1;

/// A packet bears another number than the expected one. The stream is lost.
pub const OUT_OF_SYNC: i32 = -2;

/// Memory was refused. The same call may be made again.
pub const NO_MEMORY: i32 = -3;

/// The caller's room is too small.
pub const ROOM_TOO_SMALL: i32 = -4;

/// The connection is closed.
pub const CLOSED: i32 = -5;

/// The connection that is to be opened is open.
pub const IS_OPEN: i32 = -6;

/// A packet is to be taken first.
pub const PACKET_WAITS: i32 = -7;

/// There is no packet to be taken.
pub const NO_PACKET: i32 = -8;

/// The bytes end inside a field.
pub const MISSING_BYTES: i32 = -9;

/// No number begins here, or no number has this width.
pub const NOT_A_NUMBER: i32 = -10;

/// The record is of no stream, wherever it stood.
pub const INVALID_STATE: i32 = -11;

/// No side has this number.
pub const NOT_A_SIDE: i32 = -12;

/// These are not the first bytes of a payload, three of them or more, or all.
pub const NOT_A_FRONT: i32 = -13;

/// No statement of this number is known.
pub const NO_STATEMENT: i32 = -14;
