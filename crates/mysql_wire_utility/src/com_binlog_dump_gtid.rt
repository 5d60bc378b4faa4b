//! `COM_BINLOG_DUMP_GTID`.

ghost use Rattle.std.specs.Prelude.{◌≡◌, ◌<◌, ◌^◌};
ghost use Rattle.std.specs.Cow.{cow_slice_items};
ghost use Rattle.wire_buf.specs.Reading.{Through};
ghost use Rattle.wire_repr.specs.Texts.{IsBorrowedText};
ghost use Rattle.mysql_wire_parts.specs.InOrder.{packet, both, const_u8, number};
ghost use Rattle.mysql_wire_utility.specs.LongTexts.{u32_cut, u32_text};
ghost use Rattle.mysql_wire_utility.specs.Replicas.{dump_gtid_bytes, dump_gtid_fields};

use mysql_wire_parts::by_ref::ByRef;
use std::alloc::{Allocator, Global};
use wire_buf::error::WireError;
use wire_buf::io::ParseBuf;
use wire_buf::proto::{HasSize, MyDeserialize, MySerialize, Varying};
use wire_field::row::Both;
use wire_forms::constant::ConstU8;
use wire_forms::prefixed::U32Bytes;
use wire_repr::wire::Wire;
use wire_values::text::RawBytes;

// The payload's fields, in order.
type Fields<'a> = Both<Replica, Both<RawBytes<'a, U32Bytes>, Both<u64, RawBytes<'a, U32Bytes>>>>;

type Replica = Both<ConstU8<(), 0x1e>, Both<u16, u32>>;

/// The binary log is asked for, without the transactions that the replica has. The answer are its
/// events, or an error.
///
/// <https://dev.mysql.com/doc/dev/mysql-server/latest/page_protocol_com_binlog_dump_gtid.html>
#[derive(Drop, Debug, PartialEq, Eq)]
pub struct ComBinlogDumpGtid<'a> {
    /// Of 1, `BINLOG_DUMP_NON_BLOCK`, 2, `BINLOG_THROUGH_POSITION`, and 4, `BINLOG_THROUGH_GTID`.
    pub flags: u16,
    /// The replica's.
    pub server_id: u32,
    /// The file of the log; the first one that the replica needs, where it is empty.
    pub filename: RawBytes<'a, U32Bytes>,
    /// Where in the file.
    pub pos: u64,
    /// The set of transactions that the replica has.
    pub sid_block: RawBytes<'a, U32Bytes>,
}

impl MySerialize for ComBinlogDumpGtid<'_> {
    ghost bytes = { dump_gtid_bytes };

    fn serialize<A: Allocator>(&self, buf: &mut Vec<u8, A>) -> Result<(), WireError> {
        let flags = Both(self.flags, self.server_id);
        let replica = Both(ConstU8::<(), 0x1e>::new(), flags);
        let transactions = Both(self.pos, ByRef(&self.sid_block));
        Both(replica, Both(ByRef(&self.filename), transactions)).serialize(buf)
    }
}

impl HasSize for ComBinlogDumpGtid<'_> {
    type Size = Varying;
}

impl<'de> MyDeserialize<'de, Global> for ComBinlogDumpGtid<'de> {
    type Ctx = ();

    ghost reads = { λ _ input. Through dump_gtid_fields
        (⟦<Fields<'de> as MyDeserialize<'de, Global>>⟧.reads
        ((tt, (tt, tt)), (tt, (tt, tt))) input) };

    // A call: few connections have one, and what reads packets of any kind stays small.
    #[inline(never)]
    fn deserialize(alloc: Global, _: (), buf: &mut ParseBuf<'de>) -> Result<Self, WireError> {
        match Fields::deserialize(alloc, (((), ((), ())), ((), ((), ()))), buf) {
            Ok(Both(Both(_, Both(flags, server_id)), Both(filename, transactions))) => {
                let Both(pos, sid_block) = transactions;
                Ok(ComBinlogDumpGtid {
                    flags,
                    server_id,
                    filename,
                    pos,
                    sid_block,
                })
            }
            Err(error) => Err(error),
        }
    }
}

impl<'de> Wire<'de, Global> for ComBinlogDumpGtid<'de> {
    ghost is_value = { λ command. record {
      flags : command.flags < 2 ^ 16;
      server_id : command.server_id < 2 ^ 32;
      pos : command.pos < 2 ^ 64;
    } };

    ghost good = { λ _ _ _. Unit {0} };

    ghost kept = { λ command back. record {
      flags : back.flags ≡ command.flags;
      server_id : back.server_id ≡ command.server_id;
      filename : IsBorrowedText back.filename.0 (u32_cut command.filename.0);
      pos : back.pos ≡ command.pos;
      sid_block : IsBorrowedText back.sid_block.0 (u32_cut command.sid_block.0);
    } };

    ghost takes_memory = { ⊥ };

    fn known(&self) {
        let _flags = self.flags;
        let _id = self.server_id;
        let _pos = self.pos;
    }

    ghost comes_back = { λ ctx command rest answer eaten value good read.
        packet (⟦<Fields<'de> as MyDeserialize<'de, Global>>⟧.reads
        ((tt, (tt, tt)), (tt, (tt, tt)))) _ _
        (λ back came. record {
          flags = came.0.1.0;
          server_id = came.0.1.1;
          filename = came.1.0;
          pos = came.1.1.0;
          sid_block = came.1.1.1;
        })
        (both (both const_u8 (both (number (λ n. n) 2 command.flags value.flags)
        (number (λ n. n) 4 command.server_id value.server_id)))
        (both (u32_text (λ text. text.0) (cow_slice_items command.filename.0))
        (both (number (λ n. n) 8 command.pos value.pos)
        (u32_text (λ text. text.0) (cow_slice_items command.sid_block.0)))))
        answer eaten read };

    ghost of_size = { λ command size _ stated. Prim.cc };
}
