//! A long packet, sent as its bytes come.

ghost use Rattle.std.specs.Prelude.{◌≡◌, ℕ, ◌+◌, ◌^◌, ◌<◌, ◌≤◌, List, ◌++◌, length, IfOk, OnOk};
ghost use Rattle.mysql_wire.specs.Framed.{frame_state, payload_left, header_bytes, IsBetweenPackets, FramesOn};
ghost use Rattle.mysql_wire.specs.Framing.{framing, next_id};

use bytes::BytesMut;
use mysql_wire::laws;
use mysql_wire::proto::codec::{FramePart, FrameWriter};
use std::alloc::{AllocError, Allocator};

// Sends a chunk's header, where one begins, and payload bytes after it.
fn send_part<A: Allocator + Copy>(
    part: FramePart<'_>,
    output: &mut BytesMut<A>,
) -> Result<(), AllocError>
    ensures { OnOk result (output.new.items
        ≡ output.old.items ++ (header_bytes part.entry.header ++ part.entry.bytes.now)) }
{
    if let Some(header) = part.header {
        output.extend_from_slice(&header)?;
    }
    output.extend_from_slice(part.bytes)
}

// Sends what came of a packet, which has as many bytes to come.
fn send_piece<A: Allocator + Copy>(
    writer: &mut FrameWriter,
    piece: &[u8],
    output: &mut BytesMut<A>,
) -> Result<(), AllocError>
    requires { length piece.now ≤ payload_left (frame_state writer.old) }
    ensures sent { OnOk result ((out : List ℕ) × (output.new.items ≡ output.old.items ++ out)
        × FramesOn (frame_state writer.old) piece.now out (frame_state writer.new)) }
    ensures whole { OnOk result (payload_left (frame_state writer.new) ≡ 0
        → IsBetweenPackets (frame_state writer.new)) }
{
    laws::nothing_framed();
    laws::joined_frames();
    let mut rest = piece;
    'parts: while let Some(part) = writer.next_part(&mut rest) {
        send_part(part, output)?;
    }
    Ok(())
}

/// Sends a packet whose front lies in one place and whose other bytes lie in another, as the fields
/// of a command and a long text after them. The answer is the id after it.
pub fn send_in_two<A: Allocator + Copy>(
    id: u8,
    front: &[u8],
    behind: &[u8],
    output: &mut BytesMut<A>,
) -> Result<u8, AllocError>
    requires { length front.now + length behind.now < 2 ^ 64 }
    ensures sent { OnOk result (output.new.items
        ≡ output.old.items ++ framing id (front.now ++ behind.now)) }
    ensures next { IfOk result (λ next. next ≡ next_id id (front.now ++ behind.now)) }
{
    laws::joined_frames();
    laws::framed_packet();
    let mut writer = FrameWriter::default();
    writer.set_sequence_id(id);
    let _ = writer.begin(front.len() + behind.len());
    send_piece(&mut writer, front, output)?;
    send_piece(&mut writer, behind, output)?;
    Ok(writer.sequence_id())
}
