//! The count of columns that begins a result set.

ghost use Rattle.std.specs.Prelude.{◌≡◌, ◌<◌, ◌^◌, ◌∷◌, ◌++◌, [], Some};
ghost use Rattle.wire_const.specs.FlagSets.{capability_flags_bits, mariadb_capabilities_bits};
ghost use Rattle.wire_buf.specs.Lenenc.{lenenc_bytes};
ghost use Rattle.wire_buf.specs.Reading.{Parses, Through};
ghost use Rattle.mysql_wire_parts.specs.InOrder.{packet, both, byte, lenenc_int};
ghost use Rattle.mysql_wire_parts.specs.Optional.{BothIf, IsThere, bytes_if, field, has, kept_field, optional, side};

use mysql_wire_parts::optional::{Optional, field_of_byte, under, value_of};
use std::alloc::Allocator;
use wire_buf::error::WireError;
use wire_buf::io::ParseBuf;
use wire_buf::proto::{HasSize, MyDeserialize, MySerialize, Varying};
use wire_const::{CapabilityFlags, Flags, MariadbCapabilities};
use wire_field::row::{Both, Either};
use wire_forms::lenenc::LenEnc;
use wire_repr::int::RawInt;
use wire_repr::wire::Wire;

// The payload's fields, in order.
type Fields = Both<Optional<u8>, Both<RawInt<LenEnc>, Optional<u8>>>;

/// How many columns a result set has, the first packet of it. The context are the capabilities of
/// the connection, and MariaDB's.
///
/// <https://dev.mysql.com/doc/dev/mysql-server/latest/page_protocol_com_query_response_text_resultset.html>
#[derive(Clone, Copy, Debug, PartialEq, Eq)]
pub struct ColumnCount {
    /// 1 where the definitions of the columns follow, 0 where they don't. There under
    /// `CLIENT_OPTIONAL_RESULTSET_METADATA`; without it they follow.
    pub metadata_follows: Option<u8>,
    pub column_count: u64,
    /// The same, where MariaDB has it. There under `MARIADB_CLIENT_CACHE_METADATA`.
    ///
    /// <https://mariadb.com/kb/en/result-set-packets/>
    pub mariadb_metadata_follows: Option<u8>,
}

// The context of MariaDB's byte.
fn cached_under(capabilities: MariadbCapabilities) -> Either<(), ()>
    ensures { result ≡ side tt (has (mariadb_capabilities_bits capabilities) 0x10) }
{
    if capabilities.contains(MariadbCapabilities::MARIADB_CLIENT_CACHE_METADATA) {
        Either::Left(())
    } else {
        Either::Right(())
    }
}

impl MySerialize for ColumnCount {
    ghost bytes = { λ count. bytes_if (λ follows. follows ∷ []) count.metadata_follows
        ++ (lenenc_bytes count.column_count
        ++ bytes_if (λ follows. follows ∷ []) count.mariadb_metadata_follows) };

    fn serialize<A: Allocator>(&self, buf: &mut Vec<u8, A>) -> Result<(), WireError> {
        let column_count = RawInt::<LenEnc>::new(self.column_count);
        let cached = field_of_byte(self.mariadb_metadata_follows);
        Both(
            field_of_byte(self.metadata_follows),
            Both(column_count, cached),
        )
        .serialize(buf)
    }
}

impl HasSize for ColumnCount {
    type Size = Varying;
}

impl<'de, A: Allocator + Copy> MyDeserialize<'de, A> for ColumnCount {
    type Ctx = (CapabilityFlags, MariadbCapabilities);

    ghost reads = { λ ctx input. Through
        (λ count. (
          field (λ follows. follows) _ count.metadata_follows,
          ((count.column_count, _), field (λ follows. follows) _ count.mariadb_metadata_follows),
        ))
        (⟦<Fields as MyDeserialize<'de, A>>⟧.reads (
          side tt (has (capability_flags_bits ctx.0) 0x2000000),
          (tt, side tt (has (mariadb_capabilities_bits ctx.1) 0x10)),
        ) input) };

    fn deserialize(
        alloc: A,
        (capabilities, mariadb): (CapabilityFlags, MariadbCapabilities),
        buf: &mut ParseBuf<'de>,
    ) -> Result<Self, WireError> {
        let follows = under(
            capabilities.bits(),
            CapabilityFlags::CLIENT_OPTIONAL_RESULTSET_METADATA,
            (),
        );
        match Fields::deserialize(alloc, (follows, ((), cached_under(mariadb))), buf) {
            Ok(Both(follows, Both(column_count, cached))) => Ok(ColumnCount {
                metadata_follows: value_of(follows),
                column_count: column_count.0,
                mariadb_metadata_follows: value_of(cached),
            }),
            Err(error) => Err(error),
        }
    }
}

impl<'de, A: Allocator + Copy> Wire<'de, A> for ColumnCount {
    ghost is_value = { λ count. count.column_count < 2 ^ 64 };

    ghost good = { λ ctx count _.
        IsThere (has (capability_flags_bits ctx.0) 0x2000000) count.metadata_follows
        × IsThere (has (mariadb_capabilities_bits ctx.1) 0x10) count.mariadb_metadata_follows };

    ghost kept = { λ count back.
        BothIf (λ follows back. back ≡ follows) count.metadata_follows back.metadata_follows
        × (back.column_count ≡ count.column_count)
        × BothIf (λ follows back. back ≡ follows) count.mariadb_metadata_follows
        back.mariadb_metadata_follows };

    ghost takes_memory = { ⊥ };

    fn known(&self) {
        let _count = self.column_count;
    }

    ghost comes_back = { λ ctx count rest answer eaten value good read.
        packet (⟦<Fields as MyDeserialize<'de, A>>⟧.reads (
          side tt (has (capability_flags_bits ctx.0) 0x2000000),
          (tt, side tt (has (mariadb_capabilities_bits ctx.1) 0x10)),
        )) _ _
        (λ back came. (
          kept_field (λ follows field. field ≡ follows) _ (λ follows. follows)
              (λ follows back. back ≡ follows) count.metadata_follows back.metadata_follows
              (λ follows back same. same) came.0,
          came.1.0,
          kept_field (λ follows field. field ≡ follows) _ (λ follows. follows)
              (λ follows back. back ≡ follows) count.mariadb_metadata_follows
              back.mariadb_metadata_follows (λ follows back same. same) came.1.1,
        ))
        (both (optional (λ ctx. Parses (Some 1)
        (⟦<u8 as MyDeserialize<'de, A>>⟧.reads ctx)) tt
        (has (capability_flags_bits ctx.0) 0x2000000) count.metadata_follows
        (λ follows field. field ≡ follows) (λ follows. follows ∷ []) good.0
        (λ follows is. byte (λ n. n) follows))
        (both (lenenc_int (λ int. int.0) count.column_count value)
        (optional (λ ctx. Parses (Some 1)
        (⟦<u8 as MyDeserialize<'de, A>>⟧.reads ctx)) tt
        (has (mariadb_capabilities_bits ctx.1) 0x10) count.mariadb_metadata_follows
        (λ follows field. field ≡ follows) (λ follows. follows ∷ []) good.1
        (λ follows is. byte (λ n. n) follows))))
        answer eaten read };

    ghost of_size = { λ count size _ stated. Prim.cc };
}
