//! What becomes of the packets of a piece, as they are visited.

ghost use Rattle.std.specs.Prelude.{◌≡◌, [], OnOk};
ghost use Rattle.mysql_wire_tool_commands.specs.PieceLines.{AppendsLine, GainsLine, pending_lines};

use crate::packet_lines::{TEXT_AT_ONCE, push_line};
use std::alloc::{AllocError, Allocator};
use wire_codec::codec::Visit;

/// The lines of the small packets in front, and the packets after them, whose lines are still to
/// be made.
#[derive(Drop)]
pub struct PieceLines<A: Allocator + Copy> {
    pub text: Vec<u8, A>,
    pub packets: Vec<Vec<u8, A>, A>,
    /// Whether memory was refused. Then packets are missing.
    pub is_refused: bool,
}

impl<A: Allocator + Copy> PieceLines<A> {
    pub fn new(alloc: A) -> Self {
        PieceLines {
            text: Vec::new(alloc),
            packets: Vec::new(alloc),
            is_refused: false,
        }
    }

    /// Begins with no packet.
    pub fn clear(&mut self)
        ensures { pending_lines self.new ≡ [] }
    {
        self.text.clear();
        self.packets.clear();
    }

    // Whether the text is surely shorter with the line of this many bytes than what is written at
    // once: two digits a byte, and 23 bytes at most beside them.
    fn has_room(&self, len: usize) -> bool {
        len < (TEXT_AT_ONCE - 24).saturating_sub(self.text.len()) / 2
    }

    // Adds the line of a packet, or else the packet. After a packet there is none but packets.
    fn add(&mut self, packet: &[u8]) -> Result<(), AllocError>
        ensures { OnOk result (AppendsLine self.old packet.now self.new) }
    {
        if self.packets.is_empty() && self.has_room(packet.len()) {
            push_line(&mut self.text, packet)
        } else {
            let copy = Vec::from_slice(*self.packets.allocator(), packet)?;
            self.packets.push(copy)?;
            Ok(())
        }
    }
}

impl<A: Allocator + Copy> Visit for PieceLines<A> {
    ghost sees = { λ old packet new. GainsLine old packet new };

    fn visit(&mut self, packet: &[u8]) {
        if !self.is_refused && self.add(packet).is_err() {
            self.is_refused = true;
        }
    }
}
