//! Bytes that are lent to C.

ghost use Rattle.std.specs.Prelude.{◌≡◌, length};

use std::ptr;

// Where no bytes are.
const NOTHING: [u8; 1] = [0];

/// An address and a length.
#[repr(C)]
#[derive(Drop)]
pub struct View {
    pub at: *const u8,
    pub len: usize,
}

impl View {
    /// Points at these bytes. That they are there, and until when, is what the header promises: a
    /// contract says their number alone.
    pub fn show(&mut self, bytes: &[u8])
        ensures { self.new.len ≡ length bytes.now }
    {
        self.len = bytes.len();
        self.at = match bytes.first() {
            Some(byte) => ptr::from_ref(byte),
            None => ptr::from_ref(&NOTHING[0]),
        };
    }
}
