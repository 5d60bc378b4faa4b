//! `COM_BINLOG_DUMP`.

ghost use Rattle.std.specs.Prelude.{◌≡◌, ◌<◌, ◌^◌, []};
ghost use Rattle.std.specs.Cow.{cow_slice_items};
ghost use Rattle.wire_buf.specs.Reading.{Through};
ghost use Rattle.wire_repr.specs.Texts.{IsBorrowedText};
ghost use Rattle.mysql_wire_parts.specs.InOrder.{packet, both, const_u8, eof_text, number};
ghost use Rattle.mysql_wire_utility.specs.Replicas.{dump_bytes};

use mysql_wire_parts::by_ref::ByRef;
use std::alloc::{Allocator, Global};
use wire_buf::error::WireError;
use wire_buf::io::ParseBuf;
use wire_buf::proto::{HasSize, MyDeserialize, MySerialize, Varying};
use wire_field::row::Both;
use wire_forms::constant::ConstU8;
use wire_forms::undelimited::EofBytes;
use wire_repr::wire::Wire;
use wire_values::text::RawBytes;

// The payload's fields, in order.
type Fields<'a> = Both<ConstU8<(), 0x12>, Both<u32, Both<u16, Both<u32, RawBytes<'a, EofBytes>>>>>;

/// The binary log is asked for, from a position on. The answer are its events, or an error.
///
/// <https://dev.mysql.com/doc/dev/mysql-server/latest/page_protocol_com_binlog_dump.html>
#[derive(Drop, Debug, PartialEq, Eq)]
pub struct ComBinlogDump<'a> {
    /// Where in the file.
    pub pos: u32,
    /// With 1, `BINLOG_DUMP_NON_BLOCK`, the answer ends where the log does.
    pub flags: u16,
    /// The replica's.
    pub server_id: u32,
    /// The file of the log, up to the end of the payload; the first one, where it is empty.
    pub filename: RawBytes<'a, EofBytes>,
}

impl MySerialize for ComBinlogDump<'_> {
    ghost bytes = { dump_bytes };

    fn serialize<A: Allocator>(&self, buf: &mut Vec<u8, A>) -> Result<(), WireError> {
        let replica = Both(self.server_id, ByRef(&self.filename));
        let place = Both(self.pos, Both(self.flags, replica));
        Both(ConstU8::<(), 0x12>::new(), place).serialize(buf)
    }
}

impl HasSize for ComBinlogDump<'_> {
    type Size = Varying;
}

impl<'de> MyDeserialize<'de, Global> for ComBinlogDump<'de> {
    type Ctx = ();

    ghost reads = { λ _ input. Through
        (λ command. (_, (command.pos, (command.flags, (command.server_id, command.filename)))))
        (⟦<Fields<'de> as MyDeserialize<'de, Global>>⟧.reads
        (tt, (tt, (tt, (tt, tt)))) input) };

    fn deserialize(alloc: Global, _: (), buf: &mut ParseBuf<'de>) -> Result<Self, WireError> {
        match Fields::deserialize(alloc, ((), ((), ((), ((), ())))), buf) {
            Ok(Both(_, Both(pos, Both(flags, Both(server_id, filename))))) => Ok(ComBinlogDump {
                pos,
                flags,
                server_id,
                filename,
            }),
            Err(error) => Err(error),
        }
    }
}

// The name takes all the rest, so it comes back where nothing stands after it.
impl<'de> Wire<'de, Global> for ComBinlogDump<'de> {
    ghost is_value = { λ command. (command.pos < 2 ^ 32)
        × (command.flags < 2 ^ 16)
        × (command.server_id < 2 ^ 32) };

    ghost good = { λ _ _ rest. rest ≡ [] };

    ghost kept = { λ command back. (back.pos ≡ command.pos)
        × (back.flags ≡ command.flags)
        × (back.server_id ≡ command.server_id)
        × IsBorrowedText back.filename.0 (cow_slice_items command.filename.0) };

    ghost takes_memory = { ⊥ };

    fn known(&self) {
        let _pos = self.pos;
        let _flags = self.flags;
        let _id = self.server_id;
    }

    ghost comes_back = { λ ctx command rest answer eaten value good read.
        packet (⟦<Fields<'de> as MyDeserialize<'de, Global>>⟧.reads (tt, (tt, (tt, (tt, tt)))))
        _ _ (λ back came. (came.1.0, came.1.1.0, came.1.1.1.0, came.1.1.1.1))
        (both const_u8 (both (number (λ n. n) 4 command.pos value.0)
        (both (number (λ n. n) 2 command.flags value.1)
        (both (number (λ n. n) 4 command.server_id value.2)
        (eof_text (λ text. text.0) (cow_slice_items command.filename.0) good)))))
        answer eaten read };

    ghost of_size = { λ command size _ stated. Prim.cc };
}
