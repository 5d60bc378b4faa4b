//! `COM_REGISTER_SLAVE`.

ghost use Rattle.std.specs.Prelude.{◌≡◌, ◌<◌, ◌^◌};
ghost use Rattle.std.specs.Cow.{cow_slice_items};
ghost use Rattle.wire_buf.specs.Reading.{Through};
ghost use Rattle.wire_repr.specs.Texts.{IsBorrowedText};
ghost use Rattle.mysql_wire_parts.specs.InOrder.{packet, both, const_u8, number, u8_cut, u8_text};
ghost use Rattle.mysql_wire_utility.specs.Replicas.{register_bytes, register_fields};

use mysql_wire_parts::by_ref::ByRef;
use std::alloc::{Allocator, Global};
use wire_buf::error::WireError;
use wire_buf::io::ParseBuf;
use wire_buf::proto::{HasSize, MyDeserialize, MySerialize, Varying};
use wire_field::row::Both;
use wire_forms::constant::ConstU8;
use wire_forms::prefixed::U8Bytes;
use wire_repr::wire::Wire;
use wire_values::text::RawBytes;

// The payload's fields, in order.
type Fields<'a> = Both<Server, Both<Account<'a>, Place>>;

type Server = Both<ConstU8<(), 0x15>, u32>;

type Account<'a> = Both<RawBytes<'a, U8Bytes>, Both<RawBytes<'a, U8Bytes>, RawBytes<'a, U8Bytes>>>;

type Place = Both<u16, Both<u32, u32>>;

/// A replica says who it is, before it asks for the binary log. The answer is an `OkPacket`, or an
/// error. Of a longer text its first 255 bytes are written.
///
/// <https://dev.mysql.com/doc/dev/mysql-server/latest/page_protocol_replication.html>
#[derive(Drop, Debug, PartialEq, Eq)]
pub struct ComRegisterSlave<'a> {
    /// The replica's.
    pub server_id: u32,
    /// Where the replica is, as it says itself, and who may log in there.
    pub hostname: RawBytes<'a, U8Bytes>,
    pub user: RawBytes<'a, U8Bytes>,
    pub password: RawBytes<'a, U8Bytes>,
    pub port: u16,
    /// Not used by a server.
    pub replication_rank: u32,
    /// 0, or the id of the server that the replica follows.
    pub master_id: u32,
}

impl MySerialize for ComRegisterSlave<'_> {
    ghost bytes = { register_bytes };

    fn serialize<A: Allocator>(&self, buf: &mut Vec<u8, A>) -> Result<(), WireError> {
        let server = Both(ConstU8::<(), 0x15>::new(), self.server_id);
        let account = Both(
            ByRef(&self.hostname),
            Both(ByRef(&self.user), ByRef(&self.password)),
        );
        let place = Both(self.port, Both(self.replication_rank, self.master_id));
        Both(server, Both(account, place)).serialize(buf)
    }
}

impl HasSize for ComRegisterSlave<'_> {
    type Size = Varying;
}

impl<'de> MyDeserialize<'de, Global> for ComRegisterSlave<'de> {
    type Ctx = ();

    ghost reads = { λ _ input. Through register_fields
        (⟦<Fields<'de> as MyDeserialize<'de, Global>>⟧.reads
        ((tt, tt), ((tt, (tt, tt)), (tt, (tt, tt)))) input) };

    // A call: few connections have one, and what reads packets of any kind stays small.
    #[inline(never)]
    fn deserialize(alloc: Global, _: (), buf: &mut ParseBuf<'de>) -> Result<Self, WireError> {
        let ctx = (((), ()), (((), ((), ())), ((), ((), ()))));
        match Fields::deserialize(alloc, ctx, buf) {
            Ok(Both(Both(_, server_id), Both(account, place))) => {
                let Both(hostname, Both(user, password)) = account;
                let Both(port, Both(replication_rank, master_id)) = place;
                Ok(ComRegisterSlave {
                    server_id,
                    hostname,
                    user,
                    password,
                    port,
                    replication_rank,
                    master_id,
                })
            }
            Err(error) => Err(error),
        }
    }
}

impl<'de> Wire<'de, Global> for ComRegisterSlave<'de> {
    ghost is_value = { λ command. record {
      server_id : command.server_id < 2 ^ 32;
      port : command.port < 2 ^ 16;
      replication_rank : command.replication_rank < 2 ^ 32;
      master_id : command.master_id < 2 ^ 32;
    } };

    ghost good = { λ _ _ _. Unit {0} };

    ghost kept = { λ command back. record {
      server_id : back.server_id ≡ command.server_id;
      hostname : IsBorrowedText back.hostname.0 (u8_cut command.hostname.0);
      user : IsBorrowedText back.user.0 (u8_cut command.user.0);
      password : IsBorrowedText back.password.0 (u8_cut command.password.0);
      port : back.port ≡ command.port;
      replication_rank : back.replication_rank ≡ command.replication_rank;
      master_id : back.master_id ≡ command.master_id;
    } };

    ghost takes_memory = { ⊥ };

    fn known(&self) {
        let _id = self.server_id;
        let _port = self.port;
        let _rank = self.replication_rank;
        let _master = self.master_id;
    }

    ghost comes_back = { λ ctx command rest answer eaten value good read.
        packet (⟦<Fields<'de> as MyDeserialize<'de, Global>>⟧.reads
        ((tt, tt), ((tt, (tt, tt)), (tt, (tt, tt))))) _ _
        (λ back came. let account = came.1.0 in let place = came.1.1 in record {
          server_id = came.0.1;
          hostname = account.0;
          user = account.1.0;
          password = account.1.1;
          port = place.0;
          replication_rank = place.1.0;
          master_id = place.1.1;
        })
        (both (both const_u8 (number (λ n. n) 4 command.server_id value.server_id))
        (both (both (u8_text (λ text. text.0) (cow_slice_items command.hostname.0))
        (both (u8_text (λ text. text.0) (cow_slice_items command.user.0))
        (u8_text (λ text. text.0) (cow_slice_items command.password.0))))
        (both (number (λ n. n) 2 command.port value.port)
        (both (number (λ n. n) 4 command.replication_rank value.replication_rank)
        (number (λ n. n) 4 command.master_id value.master_id)))))
        answer eaten read };

    ghost of_size = { λ command size _ stated. Prim.cc };
}
