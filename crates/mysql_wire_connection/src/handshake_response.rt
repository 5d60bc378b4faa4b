//! The client's answer to the initial handshake.

ghost use Rattle.std.specs.Prelude.{◌≡◌, ◌<◌, ◌^◌, ◌∷◌, ◌++◌, [], Some, length};
ghost use Rattle.std.proofs.Common.{subst};
ghost use Rattle.std.specs.Cow.{cow_slice_items};
ghost use Rattle.wire_buf.specs.Reading.{Parses};
ghost use Rattle.wire_repr.specs.Texts.{IsText, IsBorrowedText};
ghost use Rattle.wire_field.specs.Rows.{OnSide, SameSide};
ghost use Rattle.mysql_wire_parts.specs.InOrder.{both, array, byte, number, lenenc_text, u8_text, text_bytes, u8_text_bytes, u8_cut};
ghost use Rattle.mysql_wire_parts.specs.NullTexts.{clean, null_text};
ghost use Rattle.mysql_wire_parts.specs.Optional.{BothIf, IsSide, IsThere, OnIf, has, KeptField, kept_field, one_of, optional, side};
ghost use Rattle.mysql_wire_connection.specs.Responses.{answer_bytes, answer_fields, client_bytes, client_fields};
ghost use Rattle.mysql_wire_parts.specs.Then.{ReadsThen, then_back};

use mysql_wire_parts::by_ref::{ByRef, ByRefIf};
use mysql_wire_parts::optional::{Optional, field_of_byte, known_text, under, value_of};
use std::alloc::{Allocator, Global};
use wire_buf::error::WireError;
use wire_buf::io::ParseBuf;
use wire_buf::proto::{HasSize, MyDeserialize, MySerialize, Varying};
use wire_const::{CapabilityFlags, MariadbCapabilities};
use wire_field::row::{Both, Either};
use wire_forms::constant::Skip;
use wire_forms::lenenc::LenEnc;
use wire_forms::null::NullBytes;
use wire_forms::prefixed::U8Bytes;
use wire_repr::int::LeU32;
use wire_repr::wire::Wire;
use wire_values::flags::RawFlags;
use wire_values::text::RawBytes;

// The payload's fields up to the name of the user.
type Client<'a> = Both<u32, Both<u32, User<'a>>>;

type User<'a> = Both<u8, Both<Reserved, RawBytes<'a, NullBytes>>>;

type Reserved = Both<[u8; 19], u32>;

// And those after it, on which the client's capabilities decide.
type Answer<'a> = Both<AuthResponse<'a>, Both<Optional<RawBytes<'a, NullBytes>>, Plugin<'a>>>;

type Plugin<'a> = Both<Optional<RawBytes<'a, NullBytes>>, Both<Attributes<'a>, Level>>;

type Attributes<'a> = Optional<RawBytes<'a, LenEnc>>;

type Level = Optional<u8>;

/// What answers the authentication data: after a length-encoded integer under
/// `CLIENT_PLUGIN_AUTH_LENENC_CLIENT_DATA`, and else after one byte.
pub type AuthResponse<'a> = Either<RawBytes<'a, LenEnc>, RawBytes<'a, U8Bytes>>;

/// The client's answer under `CLIENT_PROTOCOL_41`: `Protocol::HandshakeResponse41`. MariaDB's form
/// of it is the same, with its own capabilities in the last four of the filler's bytes.
///
/// <https://dev.mysql.com/doc/dev/mysql-server/latest/page_protocol_connection_phase_packets_protocol_handshake_response.html>
#[derive(Drop, Debug, PartialEq, Eq)]
pub struct HandshakeResponse41<'a> {
    /// The client's capabilities, which say what follows.
    pub client_flag: RawFlags<CapabilityFlags, LeU32>,
    pub max_packet_size: u32,
    /// The low byte of a collation's number.
    pub character_set: u8,
    /// Zeros, of each client so far.
    pub filler: [u8; 19],
    /// What the client can do of MariaDB, where it does not set `CLIENT_LONG_PASSWORD`; of others
    /// four more zeros. <https://mariadb.com/kb/en/connection/>
    pub mariadb_capabilities: RawFlags<MariadbCapabilities, LeU32>,
    pub username: RawBytes<'a, NullBytes>,
    pub auth_response: AuthResponse<'a>,
    /// There under `CLIENT_CONNECT_WITH_DB`.
    pub database: Option<RawBytes<'a, NullBytes>>,
    /// There under `CLIENT_PLUGIN_AUTH`.
    pub client_plugin_name: Option<RawBytes<'a, NullBytes>>,
    /// Keys and values in turn, each after its length, there under `CLIENT_CONNECT_ATTRS`.
    pub connect_attrs: Option<RawBytes<'a, LenEnc>>,
    /// There under `CLIENT_ZSTD_COMPRESSION_ALGORITHM`.
    pub zstd_compression_level: Option<u8>,
}

// An answer of its fields.
fn of_fields<'a>(client: Client<'a>, answer: Answer<'a>) -> HandshakeResponse41<'a>
    ensures client { client_fields result ≡ client.entry }
    ensures answer { answer_fields result ≡ answer.entry }
{
    let Both(client_flag, Both(max_packet_size, Both(character_set, user))) = client;
    let Both(reserved, username) = user;
    let filler = reserved.0;
    let Both(auth_response, Both(database, Both(plugin, Both(attrs, level)))) = answer;
    HandshakeResponse41 {
        client_flag: RawFlags::new(client_flag),
        max_packet_size,
        character_set,
        filler,
        mariadb_capabilities: RawFlags::new(reserved.1),
        username,
        auth_response,
        database: value_of(database),
        client_plugin_name: value_of(plugin),
        connect_attrs: value_of(attrs),
        zstd_compression_level: value_of(level),
    }
}

impl MySerialize for HandshakeResponse41<'_> {
    ghost bytes = { λ h. client_bytes h ++ answer_bytes h };

    fn serialize<A: Allocator>(&self, buf: &mut Vec<u8, A>) -> Result<(), WireError> {
        let level = field_of_byte(self.zstd_compression_level);
        let attrs = ByRefIf(&self.connect_attrs);
        let plugin = ByRefIf(&self.client_plugin_name);
        let database = ByRefIf(&self.database);
        let auth_response = ByRef(&self.auth_response);
        let answer = Both(
            auth_response,
            Both(database, Both(plugin, Both(attrs, level))),
        );
        let username = ByRef(&self.username);
        let reserved = Both(self.filler, self.mariadb_capabilities.0);
        let user = Both(self.character_set, Both(reserved, username));
        let client = Both(self.client_flag.0, Both(self.max_packet_size, user));
        Both(client, answer).serialize(buf)
    }
}

impl HasSize for HandshakeResponse41<'_> {
    type Size = Varying;
}

impl<'de> MyDeserialize<'de, Global> for HandshakeResponse41<'de> {
    type Ctx = ();

    ghost reads = { λ _. ReadsThen
        client_fields answer_fields
        (⟦<Client<'de> as MyDeserialize<'de, Global>>⟧.reads (tt, (tt, (tt, ((tt, tt), tt)))))
        (λ client. ⟦<Answer<'de> as MyDeserialize<'de, Global>>⟧.reads (
          side tt (has client.0 0x200000),
          (
            side tt (has client.0 0x8),
            (
              side tt (has client.0 0x80000),
              (
                side tt (has client.0 0x100000),
                side tt (has client.0 0x4000000),
              ),
            ),
          ),
        )) };

    // A call: each connection has one, and what reads packets of any kind stays small.
    #[inline(never)]
    fn deserialize(alloc: Global, _: (), buf: &mut ParseBuf<'de>) -> Result<Self, WireError> {
        match Client::deserialize(alloc, ((), ((), ((), (((), ()), ())))), buf) {
            Ok(client) => {
                let bits = client.0;
                let answer = under(
                    bits,
                    CapabilityFlags::CLIENT_PLUGIN_AUTH_LENENC_CLIENT_DATA,
                    (),
                );
                let database = under(bits, CapabilityFlags::CLIENT_CONNECT_WITH_DB, ());
                let plugin = under(bits, CapabilityFlags::CLIENT_PLUGIN_AUTH, ());
                let attrs = under(bits, CapabilityFlags::CLIENT_CONNECT_ATTRS, ());
                let level = under(bits, CapabilityFlags::CLIENT_ZSTD_COMPRESSION_ALGORITHM, ());
                let ctx = (answer, (database, (plugin, (attrs, level))));
                match Answer::deserialize(alloc, ctx, buf) {
                    Ok(answer) => Ok(of_fields(client, answer)),
                    Err(error) => Err(error),
                }
            }
            Err(error) => Err(error),
        }
    }
}

impl<'de> Wire<'de, Global> for HandshakeResponse41<'de> {
    ghost is_value = { λ h. record {
      client_flag : h.client_flag.0 < 2 ^ 32;
      max_packet_size : h.max_packet_size < 2 ^ 32;
      filler : length h.filler ≡ 19;
      mariadb_capabilities : h.mariadb_capabilities.0 < 2 ^ 32;
      auth_response : OnSide (λ text. IsText (cow_slice_items text.0))
          (λ text. IsText (cow_slice_items text.0)) h.auth_response;
      connect_attrs : OnIf (λ attrs. IsText (cow_slice_items attrs.0)) h.connect_attrs;
    } };

    // What the capabilities say is there, and nothing else.
    ghost good = { λ _ h _. record {
      auth_response : IsSide (has h.client_flag.0 0x200000) h.auth_response;
      database : IsThere (has h.client_flag.0 0x8) h.database;
      client_plugin_name : IsThere (has h.client_flag.0 0x80000) h.client_plugin_name;
      connect_attrs : IsThere (has h.client_flag.0 0x100000) h.connect_attrs;
      zstd_compression_level : IsThere (has h.client_flag.0 0x4000000) h.zstd_compression_level;
    } };

    ghost kept = { λ h back. record {
      client_flag : back.client_flag.0 ≡ h.client_flag.0;
      max_packet_size : back.max_packet_size ≡ h.max_packet_size;
      character_set : back.character_set ≡ h.character_set;
      filler : back.filler ≡ h.filler;
      mariadb_capabilities : back.mariadb_capabilities.0 ≡ h.mariadb_capabilities.0;
      username : IsBorrowedText back.username.0 (clean h.username.0);
      auth_response : SameSide (λ text back. IsBorrowedText back.0 (cow_slice_items text.0))
          (λ text back. IsBorrowedText back.0 (u8_cut text.0)) h.auth_response
          back.auth_response;
      database : BothIf (λ name back. IsBorrowedText back.0 (clean name.0)) h.database
          back.database;
      client_plugin_name : BothIf (λ name back. IsBorrowedText back.0 (clean name.0))
          h.client_plugin_name back.client_plugin_name;
      connect_attrs : BothIf (λ attrs back. IsBorrowedText back.0 (cow_slice_items attrs.0))
          h.connect_attrs back.connect_attrs;
      zstd_compression_level : BothIf (λ level back. back ≡ level) h.zstd_compression_level
          back.zstd_compression_level;
    } };

    ghost takes_memory = { ⊥ };

    fn known(&self) {
        let _flags = self.client_flag.0;
        let _size = self.max_packet_size;
        <[u8; 19] as Wire<'_, Global>>::known(&self.filler);
        let _mariadb = self.mariadb_capabilities.0;
        Wire::<'_, Global>::known(&self.auth_response);
        known_text(&self.connect_attrs);
    }

    ghost comes_back = { λ ctx h rest answer eaten value good read.
        then_back _ _ (⟦<Client<'de> as MyDeserialize<'de, Global>>⟧.reads
        (tt, (tt, (tt, ((tt, tt), tt)))))
        (λ client. ⟦<Answer<'de> as MyDeserialize<'de, Global>>⟧.reads (
          side tt (has client.0 0x200000),
          (
            side tt (has client.0 0x8),
            (
              side tt (has client.0 0x80000),
              (
                side tt (has client.0 0x100000),
                side tt (has client.0 0x4000000),
              ),
            ),
          ),
        ))
        (client_bytes h) (answer_bytes h)
        (λ answer. SameSide (λ text back. IsBorrowedText back.0 (cow_slice_items text.0))
        (λ text back. IsBorrowedText back.0 (u8_cut text.0)) h.auth_response answer.0
        × (KeptField (λ name field. IsBorrowedText field.0 (clean name.0)) h.database answer.1.0
        × (KeptField (λ name field. IsBorrowedText field.0 (clean name.0)) h.client_plugin_name
        answer.1.1.0
        × (KeptField (λ attrs field. IsBorrowedText field.0 (cow_slice_items attrs.0))
        h.connect_attrs answer.1.1.1.0
        × KeptField (λ level field. field ≡ level) h.zstd_compression_level
        answer.1.1.1.1)))) _
        (λ back client answer. record {
          client_flag = client.0;
          max_packet_size = client.1.0;
          character_set = client.1.1.0;
          filler = client.1.1.1.0.0;
          mariadb_capabilities = client.1.1.1.0.1;
          username = client.1.1.1.1;
          auth_response = answer.0;
          database = kept_field (λ name field. IsBorrowedText field.0 (clean name.0)) _
              (λ name. name) (λ name back. IsBorrowedText back.0 (clean name.0)) h.database
              back.database (λ name back same. same) answer.1.0;
          client_plugin_name = kept_field
              (λ name field. IsBorrowedText field.0 (clean name.0)) _ (λ name. name)
              (λ name back. IsBorrowedText back.0 (clean name.0)) h.client_plugin_name
              back.client_plugin_name (λ name back same. same) answer.1.1.0;
          connect_attrs = kept_field
              (λ attrs field. IsBorrowedText field.0 (cow_slice_items attrs.0)) _
              (λ attrs. attrs) (λ attrs back. IsBorrowedText back.0 (cow_slice_items attrs.0))
              h.connect_attrs back.connect_attrs (λ attrs back same. same) answer.1.1.1.0;
          zstd_compression_level = kept_field (λ level field. field ≡ level) _
              (λ level. level) (λ level back. back ≡ level) h.zstd_compression_level
              back.zstd_compression_level (λ level back same. same) answer.1.1.1.1;
        })
        (both (number (λ n. n) 4 h.client_flag.0 value.client_flag)
        (both (number (λ n. n) 4 h.max_packet_size value.max_packet_size)
        (both (byte (λ n. n) h.character_set)
        (both (both (array 19 h.filler value.filler) (number (λ n. n) 4
        h.mariadb_capabilities.0 value.mariadb_capabilities)) (null_text (λ text. text.0) (cow_slice_items h.username.0))))))
        (λ client came. rw came.0
        (both (one_of (⟦<RawBytes<'de, LenEnc> as MyDeserialize<'de, Global>>⟧.reads)
        (⟦<RawBytes<'de, U8Bytes> as MyDeserialize<'de, Global>>⟧.reads) tt
        (has h.client_flag.0 0x200000) h.auth_response
        (λ text back. IsBorrowedText back.0 (cow_slice_items text.0))
        (λ text back. IsBorrowedText back.0 (u8_cut text.0))
        (λ text. text_bytes text.0) (λ text. u8_text_bytes text.0) good.auth_response
        (λ text is. lenenc_text (λ text. text.0) (cow_slice_items text.0)
        (subst (OnSide (λ text. IsText (cow_slice_items text.0))
        (λ text. IsText (cow_slice_items text.0))) is value.auth_response))
        (λ text is. u8_text (λ text. text.0) (cow_slice_items text.0)))
        (both (optional (⟦<RawBytes<'de, NullBytes> as MyDeserialize<'de, Global>>⟧.reads) tt
        (has h.client_flag.0 0x8) h.database
        (λ name field. IsBorrowedText field.0 (clean name.0)) (λ name. clean name.0 ++ 0 ∷ [])
        good.database (λ name is. null_text (λ text. text.0) (cow_slice_items name.0)))
        (both (optional (⟦<RawBytes<'de, NullBytes> as MyDeserialize<'de, Global>>⟧.reads) tt
        (has h.client_flag.0 0x80000) h.client_plugin_name
        (λ name field. IsBorrowedText field.0 (clean name.0)) (λ name. clean name.0 ++ 0 ∷ [])
        good.client_plugin_name
        (λ name is. null_text (λ text. text.0) (cow_slice_items name.0)))
        (both (optional (⟦<RawBytes<'de, LenEnc> as MyDeserialize<'de, Global>>⟧.reads) tt
        (has h.client_flag.0 0x100000) h.connect_attrs
        (λ attrs field. IsBorrowedText field.0 (cow_slice_items attrs.0))
        (λ attrs. text_bytes attrs.0) good.connect_attrs
        (λ attrs is. lenenc_text (λ text. text.0) (cow_slice_items attrs.0)
        (subst (OnIf (λ attrs. IsText (cow_slice_items attrs.0))) is value.connect_attrs)))
        (optional (λ ctx. Parses (Some 1)
        (⟦<u8 as MyDeserialize<'de, Global>>⟧.reads ctx)) tt
        (has h.client_flag.0 0x4000000) h.zstd_compression_level
        (λ level field. field ≡ level) (λ level. level ∷ []) good.zstd_compression_level
        (λ level is. byte (λ n. n) level)))))))
        answer eaten read };

    ghost of_size = { λ h size _ stated. Prim.cc };
}
