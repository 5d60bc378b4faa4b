//! The initial handshake.

ghost use Rattle.std.specs.Prelude.{◌≡◌, ◌<◌, ◌^◌, ◌%◌, ◌/◌, ◌-◌, ◌*◌, ◌∷◌, ◌++◌, [], length, take, drop, min};
ghost use Rattle.std.specs.Cow.{cow_slice_items};
ghost use Rattle.std.specs.Int.RustNames.{bit_or};
ghost use Rattle.wire_const.specs.FlagSets.{capability_flags_bits};
ghost use Rattle.wire_buf.specs.Numbers.{le_bytes, le_number};
ghost use Rattle.wire_buf.specs.NumberLemmas.{length-le_bytes, le_number-le_bytes};
ghost use Rattle.wire_repr.specs.Texts.{IsText, IsBorrowedText};
ghost use Rattle.mysql_wire_parts.specs.InOrder.{at_input, both, const_u8, byte, number, number_by, array, bare_text, eof_text};
ghost use Rattle.mysql_wire_parts.specs.NullTexts.{clean, null_text};
ghost use Rattle.mysql_wire_parts.specs.Optional.{BothIf, IsSide, IsThere, OnIf, field, has, KeptField, kept_field, one_of, optional, side};
ghost use Rattle.mysql_wire_parts.specs.Then.{ReadsThen, then_back};
ghost use Rattle.mysql_wire_connection.specs.Handshakes.{has_zero, is_closed, part_2_length, head_bytes, head_fields, tail_at, tail_bytes, upper_half, upper_half-back};
ghost use Rattle.wire_field.specs.Rows.{OnSide, SameSide, by_side};
ghost use Rattle.std.proofs.Common.{subst};

use mysql_wire_parts::by_ref::{ByRef, ByRefIf};
use mysql_wire_parts::optional::{Optional, under, value_of};
use std::alloc::{Allocator, Global};
use wire_buf::error::WireError;
use wire_buf::io::ParseBuf;
use wire_buf::proto::{HasSize, MyDeserialize, MySerialize, Varying};
use wire_const::{CapabilityFlags, Flags, MariadbCapabilities, StatusFlags};
use wire_field::row::{Both, Either};
use wire_forms::constant::ConstU8;
use wire_forms::halves::{LeU32LowerHalf, LeU32UpperHalf};
use wire_forms::null::NullBytes;
use wire_forms::undelimited::{BareU8Bytes, EofBytes};
use wire_repr::int::{LeU16, LeU32};
use wire_repr::wire::Wire;
use wire_values::flags::RawFlags;
use wire_values::text::RawBytes;

// The payload's fields up to the authentication data's second part.
type Head<'a> = Both<ConstU8<(), 0x0a>, Both<RawBytes<'a, NullBytes>, Ids>>;

type Ids = Both<u32, Both<[u8; 8], Both<u8, Capabilities>>>;

type Capabilities = Both<RawFlags<CapabilityFlags, LeU32LowerHalf>, State>;

type State = Both<u8, Both<u16, Upper>>;

type Upper = Both<RawFlags<CapabilityFlags, LeU32UpperHalf>, Both<u8, Reserved>>;

type Reserved = Both<[u8; 6], u32>;

// And those after it.
type Tail<'a> = Both<RawBytes<'a, BareU8Bytes>, Optional<PluginName<'a>>>;

/// The name of an authentication plugin, with its zero after it, or, as servers before 5.5.10 and
/// 5.6.2 sent it, without one, up to the end of the payload.
pub type PluginName<'a> = Either<RawBytes<'a, NullBytes>, RawBytes<'a, EofBytes>>;

/// What a server says first: `Protocol::HandshakeV10`. MariaDB's form of it is the same, with its
/// own capabilities in the last four of the reserved bytes.
///
/// <https://dev.mysql.com/doc/dev/mysql-server/latest/page_protocol_connection_phase_packets_protocol_handshake_v10.html>
#[derive(Drop, Debug, PartialEq, Eq)]
pub struct HandshakeV10<'a> {
    pub server_version: RawBytes<'a, NullBytes>,
    pub thread_id: u32,
    pub auth_plugin_data_part_1: [u8; 8],
    /// A zero, of each server so far.
    pub filler: u8,
    /// The lower 16 bits of the server's capabilities.
    pub capability_flags_1: RawFlags<CapabilityFlags, LeU32LowerHalf>,
    /// The low byte of a collation's number.
    pub character_set: u8,
    pub status_flags: RawFlags<StatusFlags, LeU16>,
    /// The upper 16 bits.
    pub capability_flags_2: RawFlags<CapabilityFlags, LeU32UpperHalf>,
    /// How long both parts are together; 0 without `CLIENT_PLUGIN_AUTH`.
    pub auth_plugin_data_len: u8,
    /// Zeros, of each server so far.
    pub reserved: [u8; 6],
    /// What MariaDB can do beyond MySQL, where it does not set `CLIENT_LONG_PASSWORD`; of MySQL
    /// four more zeros. <https://mariadb.com/kb/en/connection/>
    pub mariadb_capabilities: RawFlags<MariadbCapabilities, LeU32>,
    /// This many bytes as are left of both, but 13 at least, of which the last is a zero.
    pub auth_plugin_data_part_2: RawBytes<'a, BareU8Bytes>,
    /// There under `CLIENT_PLUGIN_AUTH`.
    pub auth_plugin_name: Option<PluginName<'a>>,
}

impl HandshakeV10<'_> {
    /// What the server can do, from both halves.
    pub fn capabilities(&self) -> CapabilityFlags
        ensures { capability_flags_bits result
            ≡ bit_or self.now.capability_flags_1.0 self.now.capability_flags_2.0 }
    {
        CapabilityFlags::from_bits_retain(self.capability_flags_1.0 | self.capability_flags_2.0)
    }
}

// A handshake of its fields.
fn of_fields<'a>(head: Head<'a>, tail: Tail<'a>) -> HandshakeV10<'a>
    ensures head { head_fields result ≡ head.entry }
    ensures tail { (result.auth_plugin_data_part_2, field (λ name. name) _ result.auth_plugin_name)
        ≡ tail.entry }
{
    let Both(_, Both(server_version, Both(thread_id, data))) = head;
    let auth_plugin_data_part_1 = data.0;
    let Both(_, Both(filler, Both(capability_flags_1, state))) = data;
    let Both(character_set, Both(status_flags, Both(capability_flags_2, data))) = state;
    let Both(auth_plugin_data_len, reserved) = data;
    let bytes = reserved.0;
    let Both(auth_plugin_data_part_2, name) = tail;
    HandshakeV10 {
        server_version,
        thread_id,
        auth_plugin_data_part_1,
        filler,
        capability_flags_1,
        character_set,
        status_flags: RawFlags::new(status_flags),
        capability_flags_2,
        auth_plugin_data_len,
        reserved: bytes,
        mariadb_capabilities: RawFlags::new(reserved.1),
        auth_plugin_data_part_2,
        auth_plugin_name: value_of(name),
    }
}

// Whether a zero stands after the first `count` bytes.
fn has_zero_behind(count: usize, input: &[u8]) -> bool
    ensures { result ≡ has_zero (drop count input.now) }
{
    let mut rest = ParseBuf(input);
    if rest.checked_skip(count) {
        let len = rest.len();
        rest.eat_null_str().len() < len
    } else {
        false
    }
}

// The context of the fields after the head.
fn tail_ctx(upper: u32, len: u8, input: &[u8]) -> (usize, Either<Either<(), ()>, ()>)
    ensures { result ≡ tail_at upper len input.now }
{
    let count = std::cmp::max(13, (len as usize).saturating_sub(8));
    let spelling = if has_zero_behind(count, input) {
        Either::Left(())
    } else {
        Either::Right(())
    };
    let name = under(upper, CapabilityFlags::CLIENT_PLUGIN_AUTH, spelling);
    (count, name)
}

impl MySerialize for HandshakeV10<'_> {
    ghost bytes = { λ h. head_bytes h ++ tail_bytes h };

    fn serialize<A: Allocator>(&self, buf: &mut Vec<u8, A>) -> Result<(), WireError> {
        let reserved = Both(self.reserved, self.mariadb_capabilities.0);
        let upper = Both(
            self.capability_flags_2,
            Both(self.auth_plugin_data_len, reserved),
        );
        let state = Both(self.character_set, Both(self.status_flags.0, upper));
        let part_1 = self.auth_plugin_data_part_1;
        let part_1 = Both(
            part_1,
            Both(self.filler, Both(self.capability_flags_1, state)),
        );
        let server_version = ByRef(&self.server_version);
        let head = Both(server_version, Both(self.thread_id, part_1));
        let name = ByRefIf(&self.auth_plugin_name);
        let tail = Both(ByRef(&self.auth_plugin_data_part_2), name);
        Both(Both(ConstU8::<(), 0x0a>::new(), head), tail).serialize(buf)
    }
}

impl HasSize for HandshakeV10<'_> {
    type Size = Varying;
}

impl<'de> MyDeserialize<'de, Global> for HandshakeV10<'de> {
    type Ctx = ();

    ghost reads = { λ _. ReadsThen
        head_fields
        (λ h. (h.auth_plugin_data_part_2, field (λ name. name) _ h.auth_plugin_name))
        (⟦<Head<'de> as MyDeserialize<'de, Global>>⟧.reads
        (tt, (tt, (tt, (tt, (tt, (tt, (tt, (tt, (tt, (tt, (tt, tt))))))))))))
        (λ head input. let upper = head.1.1.1.1.1.1.1.1 in
        ⟦<Tail<'de> as MyDeserialize<'de, Global>>⟧.reads
        (tail_at upper.0.0 upper.1.0 input) input) };

    // A call: each connection has one, and what reads packets of any kind stays small.
    #[inline(never)]
    fn deserialize(alloc: Global, _: (), buf: &mut ParseBuf<'de>) -> Result<Self, WireError> {
        let state = ((), ((), ((), ((), ((), ())))));
        match Head::deserialize(alloc, ((), ((), ((), ((), ((), ((), state)))))), buf) {
            Ok(head) => {
                let upper = &head.1.1.1.1.1.1.1.1;
                let ctx = tail_ctx(upper.0.0, upper.1.0, buf.0);
                match Tail::deserialize(alloc, ctx, buf) {
                    Ok(tail) => Ok(of_fields(head, tail)),
                    Err(error) => Err(error),
                }
            }
            Err(error) => Err(error),
        }
    }
}

impl<'de> Wire<'de, Global> for HandshakeV10<'de> {
    ghost is_value = { λ h. record {
      thread_id : h.thread_id < 2 ^ 32;
      auth_plugin_data_part_1 : length h.auth_plugin_data_part_1 ≡ 8;
      status_flags : h.status_flags.0 < 2 ^ 16;
      capability_flags_2 : h.capability_flags_2.0 < 2 ^ 32;
      reserved : length h.reserved ≡ 6;
      mariadb_capabilities : h.mariadb_capabilities.0 < 2 ^ 32;
    } };

    // The second part of the data is as long as the fields before it say, and so is the name there;
    // it has no zero after it where none stands in the rest of the payload, which is the name.
    ghost good = { λ _ h rest. record {
      part_2 : part_2_length h.auth_plugin_data_len
          ≡ min (length (cow_slice_items h.auth_plugin_data_part_2.0)) 255;
      name : IsThere (has (upper_half h.capability_flags_2.0) 0x80000) h.auth_plugin_name;
      spelling : OnIf (IsSide (is_closed h rest)) h.auth_plugin_name;
      end : OnIf (OnSide (λ _. Unit {0}) (λ _. rest ≡ [])) h.auth_plugin_name;
    } };

    ghost kept = { λ h back. record {
      server_version : IsBorrowedText back.server_version.0 (clean h.server_version.0);
      thread_id : back.thread_id ≡ h.thread_id;
      auth_plugin_data_part_1 : back.auth_plugin_data_part_1 ≡ h.auth_plugin_data_part_1;
      filler : back.filler ≡ h.filler;
      capability_flags_1 : back.capability_flags_1.0 ≡ h.capability_flags_1.0 % 65536;
      character_set : back.character_set ≡ h.character_set;
      status_flags : back.status_flags.0 ≡ h.status_flags.0;
      capability_flags_2 : back.capability_flags_2.0 ≡ upper_half h.capability_flags_2.0;
      auth_plugin_data_len : back.auth_plugin_data_len ≡ h.auth_plugin_data_len;
      reserved : back.reserved ≡ h.reserved;
      mariadb_capabilities : back.mariadb_capabilities.0 ≡ h.mariadb_capabilities.0;
      auth_plugin_data_part_2 : IsBorrowedText back.auth_plugin_data_part_2.0
          (take 255 (cow_slice_items h.auth_plugin_data_part_2.0));
      auth_plugin_name : BothIf (SameSide (λ name back. IsBorrowedText back.0 (clean name.0))
          (λ name back. IsBorrowedText back.0 (cow_slice_items name.0))) h.auth_plugin_name
          back.auth_plugin_name;
    } };

    ghost takes_memory = { ⊥ };

    fn known(&self) {
        let _id = self.thread_id;
        <[u8; 8] as Wire<'_, Global>>::known(&self.auth_plugin_data_part_1);
        let _status = self.status_flags.0;
        let _upper = self.capability_flags_2.0;
        <[u8; 6] as Wire<'_, Global>>::known(&self.reserved);
        let _mariadb = self.mariadb_capabilities.0;
    }

    ghost comes_back = { λ ctx h rest answer eaten value good read.
        then_back _ _ (⟦<Head<'de> as MyDeserialize<'de, Global>>⟧.reads
        (tt, (tt, (tt, (tt, (tt, (tt, (tt, (tt, (tt, (tt, (tt, tt))))))))))))
        (λ head input. let upper = head.1.1.1.1.1.1.1.1 in
        ⟦<Tail<'de> as MyDeserialize<'de, Global>>⟧.reads
        (tail_at upper.0.0 upper.1.0 input) input)
        (head_bytes h) (tail_bytes h)
        (λ tail. IsBorrowedText tail.0.0 (take 255 (cow_slice_items h.auth_plugin_data_part_2.0))
        × KeptField (SameSide (λ name back. IsBorrowedText back.0 (clean name.0))
        (λ name back. IsBorrowedText back.0 (cow_slice_items name.0))) h.auth_plugin_name
        tail.1) _
        (λ back head tail. let state = head.1.1.1.1.1 in record {
          server_version = head.1.0;
          thread_id = head.1.1.0;
          auth_plugin_data_part_1 = head.1.1.1.0;
          filler = head.1.1.1.1.0;
          capability_flags_1 = state.0;
          character_set = state.1.0;
          status_flags = state.1.1.0;
          capability_flags_2 = state.1.1.1.0;
          auth_plugin_data_len = state.1.1.1.1.0;
          reserved = state.1.1.1.1.1.0;
          mariadb_capabilities = state.1.1.1.1.1.1;
          auth_plugin_data_part_2 = tail.0;
          auth_plugin_name = kept_field
              (SameSide (λ name back. IsBorrowedText back.0 (clean name.0))
              (λ name back. IsBorrowedText back.0 (cow_slice_items name.0))) _ (λ name. name)
              (SameSide (λ name back. IsBorrowedText back.0 (clean name.0))
              (λ name back. IsBorrowedText back.0 (cow_slice_items name.0))) h.auth_plugin_name
              back.auth_plugin_name (λ name back same. same) tail.1;
        })
        (both const_u8 (both (null_text (λ text. text.0) (cow_slice_items h.server_version.0))
        (both (number (λ n. n) 4 h.thread_id value.thread_id)
        (both (array 8 h.auth_plugin_data_part_1 value.auth_plugin_data_part_1)
        (both (byte (λ n. n) h.filler) (both (number_by (λ flags. flags.0) 2 le_number
        (le_bytes 2 h.capability_flags_1.0) (h.capability_flags_1.0 % 65536)
        (length-le_bytes 2 h.capability_flags_1.0) (le_number-le_bytes 2 h.capability_flags_1.0))
        (both (byte (λ n. n) h.character_set)
        (both (number (λ n. n) 2 h.status_flags.0 value.status_flags)
        (both (number_by (λ flags. flags.0) 2 (λ bytes. 65536 * le_number bytes)
        (le_bytes 2 (h.capability_flags_2.0 / 65536)) (upper_half h.capability_flags_2.0)
        (length-le_bytes 2 (h.capability_flags_2.0 / 65536))
        (upper_half-back h.capability_flags_2.0 value.capability_flags_2))
        (both (byte (λ n. n) h.auth_plugin_data_len)
        (both (array 6 h.reserved value.reserved)
        (number (λ n. n) 4 h.mariadb_capabilities.0
        value.mariadb_capabilities))))))))))))
        (λ head came. let state = came.1.1.1.1.1 in rw (state.1.1.1.0, state.1.1.1.1.0)
        (at_input (tail_at (upper_half h.capability_flags_2.0) h.auth_plugin_data_len)
        (⟦<Tail<'de> as MyDeserialize<'de, Global>>⟧.reads)
        (both (bare_text (λ text. text.0) 255 (part_2_length h.auth_plugin_data_len)
        (cow_slice_items h.auth_plugin_data_part_2.0) good.part_2)
        (optional (⟦<PluginName<'de> as MyDeserialize<'de, Global>>⟧.reads)
        (side tt (is_closed h rest)) (has (upper_half h.capability_flags_2.0) 0x80000)
        h.auth_plugin_name
        (SameSide (λ name back. IsBorrowedText back.0 (clean name.0))
        (λ name back. IsBorrowedText back.0 (cow_slice_items name.0)))
        (by_side (λ name. clean name.0 ++ 0 ∷ []) (λ name. cow_slice_items name.0)) good.name
        (λ name is. one_of (⟦<RawBytes<'de, NullBytes> as MyDeserialize<'de, Global>>⟧.reads)
        (⟦<RawBytes<'de, EofBytes> as MyDeserialize<'de, Global>>⟧.reads) tt (is_closed h rest)
        name (λ name back. IsBorrowedText back.0 (clean name.0))
        (λ name back. IsBorrowedText back.0 (cow_slice_items name.0))
        (λ name. clean name.0 ++ 0 ∷ []) (λ name. cow_slice_items name.0)
        (subst (OnIf (IsSide (is_closed h rest))) is good.spelling)
        (λ text left. null_text (λ text. text.0) (cow_slice_items text.0))
        (λ text right. eof_text (λ text. text.0) (cow_slice_items text.0)
        (subst (OnSide (λ _. Unit {0}) (λ _. rest ≡ [])) right
        (subst (OnIf (OnSide (λ _. Unit {0}) (λ _. rest ≡ []))) is good.end))))))))
        answer eaten read };

    ghost of_size = { λ h size _ stated. Prim.cc };
}
