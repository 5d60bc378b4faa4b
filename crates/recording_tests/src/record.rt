//! The records of the input: three bytes of length, the lowest first, one byte of kind, and as many
//! bytes as the length says.

use wire_buf::io::ParseBuf;

/// What a record is of, with its payload.
#[derive(Clone, Copy)]
pub enum Record<'a> {
    /// A session begins.
    Session,
    Client(&'a [u8]),
    Server(&'a [u8]),
    /// The client begins a new command.
    Reset,
    /// The fields that the payload which comes next must have.
    Listed(&'a [u8]),
}

impl<'a> Record<'a> {
    /// The first record, and the bytes after it.
    pub fn first(bytes: &'a [u8]) -> Option<(Record<'a>, &'a [u8])> {
        let mut buf = ParseBuf(bytes);
        let len = buf.checked_eat_u24_le()?;
        let kind = buf.checked_eat_u8()?;
        let payload = buf.checked_eat(len as usize)?;
        let record = match kind {
            0 => Record::Session,
            1 => Record::Client(payload),
            2 => Record::Server(payload),
            3 => Record::Reset,
            4 => Record::Listed(payload),
            _ => return None,
        };
        Some((record, buf.0))
    }
}
