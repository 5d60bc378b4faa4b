//! The texts for what the calls answer.

ghost use Rattle.std.specs.Prelude.{◌≡◌, [], ◌∷◌, ◌++◌, length};
ghost use Rattle.mysql_wire_c_calls.specs.Messages.{message};

use crate::codes::{
    CLOSED, INVALID_STATE, IS_OPEN, MISSING_BYTES, NEEDS_WHOLE, NO_MEMORY, NO_PACKET, NO_STATEMENT,
    NOT_A_FRONT, NOT_A_NUMBER, NOT_A_SIDE, NULL, OK, OUT_OF_SYNC, PACKET, PACKET_WAITS, REFUSED,
    ROOM_TOO_SMALL, SPAN, TOO_LARGE,
};
use crate::view::View;

// The text for a code, and a zero.
fn text(code: i32) -> &'static [u8]
    ensures { result.now ≡ message code ++ 0 ∷ [] }
{
    match code {
        OK => b"done, or more bytes are needed\0",
        PACKET => b"a packet stands whole\0",
        SPAN => b"bytes of a packet\0",
        NULL => b"the text is NULL\0",
        NEEDS_WHOLE => b"the whole packet is needed\0",
        REFUSED => b"the payload is no packet of its kind\0",
        TOO_LARGE => b"the packet is above the limit\0",
        OUT_OF_SYNC => b"a packet bears another number than the expected one\0",
        NO_MEMORY => b"out of memory\0",
        ROOM_TOO_SMALL => b"the room is too small\0",
        CLOSED => b"the connection, or the session, is closed\0",
        IS_OPEN => b"the connection, or the session, is open already\0",
        PACKET_WAITS => b"a packet is to be taken first\0",
        NO_PACKET => b"there is no packet to take\0",
        MISSING_BYTES => b"the bytes end inside a field\0",
        NOT_A_NUMBER => b"no number begins here, or no number has this width\0",
        INVALID_STATE => b"the record is of no stream\0",
        NOT_A_SIDE => b"no side has this number\0",
        NOT_A_FRONT => b"these are not the first bytes of a payload, three or more, or all\0",
        NO_STATEMENT => b"no statement of this number is known\0",
        _ => b"unknown code\0",
    }
}

/// Points at the text for a code, which is ended by a zero that isn't counted.
pub fn show_text(code: i32, shown: &mut View)
    ensures { shown.new.len ≡ length (message code) }
{
    shown.show(text(code));
    shown.len = shown.len.saturating_sub(1);
}
