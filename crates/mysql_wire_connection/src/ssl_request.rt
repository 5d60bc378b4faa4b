//! The request for TLS.

ghost use Rattle.std.specs.Prelude.{◌≡◌, ◌<◌, ◌^◌, ◌∷◌, ◌++◌, length};
ghost use Rattle.wire_buf.specs.Numbers.{le_bytes};
ghost use Rattle.wire_buf.specs.Reading.{Through};
ghost use Rattle.mysql_wire_parts.specs.InOrder.{packet, array, both, byte, number};

use std::alloc::Allocator;
use wire_buf::error::WireError;
use wire_buf::io::ParseBuf;
use wire_buf::proto::{HasSize, MyDeserialize, MySerialize, Varying};
use wire_const::{CapabilityFlags, MariadbCapabilities};
use wire_field::row::Both;
use wire_repr::int::LeU32;
use wire_repr::wire::Wire;
use wire_values::flags::RawFlags;

// The payload's fields, in order.
type Fields = Both<u32, Both<u32, Rest>>;

type Rest = Both<u8, Both<[u8; 19], u32>>;

/// The client asks for TLS: the front of its answer to the handshake, 32 bytes, under `CLIENT_SSL`.
/// The whole answer follows on the encrypted connection.
///
/// <https://dev.mysql.com/doc/dev/mysql-server/latest/page_protocol_connection_phase_packets_protocol_ssl_request.html>
#[derive(Clone, Copy, Debug, PartialEq, Eq)]
pub struct SslRequest {
    pub client_flag: RawFlags<CapabilityFlags, LeU32>,
    pub max_packet_size: u32,
    /// The low byte of a collation's number.
    pub character_set: u8,
    /// Zeros, of each client so far.
    pub filler: [u8; 19],
    /// What the client can do of MariaDB, where it does not set `CLIENT_LONG_PASSWORD`; of others
    /// four more zeros. <https://mariadb.com/kb/en/connection/>
    pub mariadb_capabilities: RawFlags<MariadbCapabilities, LeU32>,
}

// A request of its fields.
fn of_fields(fields: Fields) -> SslRequest
    ensures { (
      result.client_flag.0,
      (
        result.max_packet_size,
        (result.character_set, (result.filler, result.mariadb_capabilities.0)),
      ),
    ) ≡ fields }
{
    let Both(client_flag, Both(max_packet_size, Both(character_set, reserved))) = fields;
    let filler = reserved.0;
    SslRequest {
        client_flag: RawFlags::new(client_flag),
        max_packet_size,
        character_set,
        filler,
        mariadb_capabilities: RawFlags::new(reserved.1),
    }
}

impl MySerialize for SslRequest {
    ghost bytes = { λ request. le_bytes 4 request.client_flag.0
        ++ (le_bytes 4 request.max_packet_size ++ request.character_set
        ∷ (request.filler ++ le_bytes 4 request.mariadb_capabilities.0)) };

    fn serialize<A: Allocator>(&self, buf: &mut Vec<u8, A>) -> Result<(), WireError> {
        let reserved = Both(self.filler, self.mariadb_capabilities.0);
        let rest = Both(self.max_packet_size, Both(self.character_set, reserved));
        Both(self.client_flag.0, rest).serialize(buf)
    }
}

impl HasSize for SslRequest {
    type Size = Varying;
}

impl<'de, A: Allocator + Copy> MyDeserialize<'de, A> for SslRequest {
    type Ctx = ();

    ghost reads = { λ _ input. Through
        (λ request. (
          request.client_flag.0,
          (
            request.max_packet_size,
            (request.character_set, (request.filler, request.mariadb_capabilities.0)),
          ),
        ))
        (⟦<Fields as MyDeserialize<'de, A>>⟧.reads (tt, (tt, (tt, (tt, tt)))) input) };

    fn deserialize(alloc: A, _: (), buf: &mut ParseBuf<'de>) -> Result<Self, WireError> {
        match buf.parse_in::<Fields, A>(alloc, ((), ((), ((), ((), ()))))) {
            Ok(fields) => Ok(of_fields(fields)),
            Err(error) => Err(error),
        }
    }
}

impl<'de, A: Allocator + Copy> Wire<'de, A> for SslRequest {
    ghost is_value = { λ request. record {
      client_flag : request.client_flag.0 < 2 ^ 32;
      max_packet_size : request.max_packet_size < 2 ^ 32;
      filler : length request.filler ≡ 19;
      mariadb_capabilities : request.mariadb_capabilities.0 < 2 ^ 32;
    } };

    ghost good = { λ _ _ _. Unit {0} };

    ghost kept = { λ request back. record {
      client_flag : back.client_flag.0 ≡ request.client_flag.0;
      max_packet_size : back.max_packet_size ≡ request.max_packet_size;
      character_set : back.character_set ≡ request.character_set;
      filler : back.filler ≡ request.filler;
      mariadb_capabilities : back.mariadb_capabilities.0 ≡ request.mariadb_capabilities.0;
    } };

    ghost takes_memory = { ⊥ };

    fn known(&self) {
        let _flags = self.client_flag.0;
        let _size = self.max_packet_size;
        <[u8; 19] as Wire<'_, A>>::known(&self.filler);
        let _mariadb = self.mariadb_capabilities.0;
    }

    ghost comes_back = { λ ctx request rest answer eaten value good read.
        packet (⟦<Fields as MyDeserialize<'de, A>>⟧.reads (tt, (tt, (tt, (tt, tt))))) _ _
        (λ back came. record {
          client_flag = came.0;
          max_packet_size = came.1.0;
          character_set = came.1.1.0;
          filler = came.1.1.1.0;
          mariadb_capabilities = came.1.1.1.1;
        })
        (both (number (λ n. n) 4 request.client_flag.0 value.client_flag)
        (both (number (λ n. n) 4 request.max_packet_size value.max_packet_size)
        (both (byte (λ n. n) request.character_set)
        (both (array 19 request.filler value.filler) (number (λ n. n) 4
        request.mariadb_capabilities.0 value.mariadb_capabilities)))))
        answer eaten read };

    ghost of_size = { λ request size _ stated. Prim.cc };
}
