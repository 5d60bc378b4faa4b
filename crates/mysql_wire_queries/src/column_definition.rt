//! `ColumnDefinition41`.

ghost use Rattle.std.specs.Prelude.{◌≡◌, ◌<◌, ◌^◌, [], ◌∷◌, ◌++◌, length};
ghost use Rattle.std.specs.Cow.{cow_slice_items};
ghost use Rattle.wire_buf.specs.Numbers.{le_bytes};
ghost use Rattle.wire_repr.specs.Texts.{IsText, IsBorrowedText};
ghost use Rattle.wire_buf.specs.Reading.{Through};
ghost use Rattle.mysql_wire_parts.specs.InOrder.{packet, both, array, const_u8, byte, number, lenenc_text, text_bytes};
ghost use Rattle.mysql_wire_parts.specs.Optional.{BothIf, IsThere, OnIf, bytes_if, has, kept_field, optional, side};
ghost use Rattle.wire_const.specs.FlagSets.{mariadb_capabilities_bits};
ghost use Rattle.mysql_wire_queries.specs.Columns.{column_fields, pair, PutsAfter};
ghost use Rattle.wire_field.specs.Rows.{ReadsBoth};
ghost use Rattle.std.proofs.Common.{subst};

use mysql_wire_parts::optional::{Optional, known_text, value_of};
use std::alloc::{AllocError, Allocator, Global};
use wire_buf::error::WireError;
use wire_buf::io::ParseBuf;
use wire_buf::proto::{HasSize, MyDeserialize, MySerialize, Varying};
use wire_const::{ColumnFlags, ColumnType, Flags, MariadbCapabilities};
use wire_ext::BufMutExt;
use wire_field::converted::RawConst;
use wire_field::row::{Both, Either};
use wire_forms::constant::ConstU8;
use wire_forms::lenenc::LenEnc;
use wire_repr::append::all_or_nothing;
use wire_repr::int::LeU16;
use wire_repr::wire::Wire;
use wire_values::flags::RawFlags;
use wire_values::text::RawBytes;

// The payload's fields, in order.
type Fields<'a> = Both<Names<'a>, Both<Optional<RawBytes<'a, LenEnc>>, Numbers>>;

type Names<'a> = Both<Pair<'a>, Both<Pair<'a>, Pair<'a>>>;

type Numbers = Both<Sizes, Kind>;

type Sizes = Both<ConstU8<(), 0x0c>, Both<u16, u32>>;

type Kind = Both<Both<u8, u16>, Both<u8, [u8; 2]>>;

// Two texts, one after the other.
#[derive(Drop)]
struct Pair<'a>(RawBytes<'a, LenEnc>, RawBytes<'a, LenEnc>);

/// What a server says of a column, on a connection under `CLIENT_PROTOCOL_41`. The context are the
/// capabilities of MariaDB that both sides have; none of them with MySQL. Another length of the
/// numbers than 12 is refused as `ConstMismatch`.
///
/// <https://dev.mysql.com/doc/dev/mysql-server/latest/page_protocol_com_query_response_text_resultset_column_definition.html>
#[derive(Drop, Debug, PartialEq, Eq)]
pub struct ColumnDefinition41<'a> {
    /// `def`, always.
    pub catalog: RawBytes<'a, LenEnc>,
    pub schema: RawBytes<'a, LenEnc>,
    /// The table's name in the query, which may be an alias.
    pub table: RawBytes<'a, LenEnc>,
    pub org_table: RawBytes<'a, LenEnc>,
    /// The column's name in the query, which may be an alias.
    pub name: RawBytes<'a, LenEnc>,
    pub org_name: RawBytes<'a, LenEnc>,
    /// What MariaDB says more of the type and the format, one [`TypeDetail`] after another. There
    /// under `MARIADB_CLIENT_EXTENDED_METADATA`.
    /// <https://mariadb.com/kb/en/result-set-packets/>
    pub extended_metadata: Option<RawBytes<'a, LenEnc>>,
    /// The number of a collation.
    pub character_set: u16,
    /// The most bytes that a value has.
    pub column_length: u32,
    pub column_type: RawConst<u8, ColumnType>,
    pub flags: RawFlags<ColumnFlags, LeU16>,
    /// How many digits are shown after the point; 31 where that is not fixed.
    pub decimals: u8,
    /// Zeros, of each server so far.
    pub reserved: [u8; 2],
}

// A definition of its fields.
fn of_fields<'a>(fields: Fields<'a>) -> ColumnDefinition41<'a>
    ensures { column_fields result ≡ fields.entry }
{
    let Both(Both(schemas, Both(tables, names)), Both(metadata, Both(sizes, kind))) = fields;
    let Pair(catalog, schema) = schemas;
    let Pair(table, org_table) = tables;
    let Pair(name, org_name) = names;
    let Both(_, Both(character_set, column_length)) = sizes;
    let Both(Both(column_type, flags), end) = kind;
    let reserved = end.1;
    ColumnDefinition41 {
        catalog,
        schema,
        table,
        org_table,
        name,
        org_name,
        extended_metadata: value_of(metadata),
        character_set,
        column_length,
        column_type: RawConst::new(column_type),
        flags: RawFlags::new(flags),
        decimals: end.0,
        reserved,
    }
}

// The context of the extended metadata.
fn metadata_under(capabilities: MariadbCapabilities) -> Either<(), ()>
    ensures { result ≡ side tt (has (mariadb_capabilities_bits capabilities) 0x8) }
{
    if capabilities.contains(MariadbCapabilities::MARIADB_CLIENT_EXTENDED_METADATA) {
        Either::Left(())
    } else {
        Either::Right(())
    }
}

// Puts a text. Where memory is refused, a part of it may stand there.
#[inline(always)]
fn put_text<A: Allocator>(
    buf: &mut Vec<u8, A>,
    text: &RawBytes<'_, LenEnc>,
) -> Result<(), AllocError>
    ensures { PutsAfter result buf.old.items buf.new.items (text_bytes text.now.0) }
{
    match buf.put_lenenc_str(text.0.as_slice()) {
        Ok(()) => Ok(()),
        Err(_) => Err(AllocError),
    }
}

// Puts some bytes.
fn put<A: Allocator>(buf: &mut Vec<u8, A>, bytes: &[u8]) -> Result<(), AllocError>
    ensures { PutsAfter result buf.old.items buf.new.items bytes.now }
{
    buf.extend_from_slice(bytes)
}

#[inline(always)]
fn put_pair<A: Allocator>(
    buf: &mut Vec<u8, A>,
    first: &RawBytes<'_, LenEnc>,
    second: &RawBytes<'_, LenEnc>,
) -> Result<(), AllocError>
    ensures { PutsAfter result buf.old.items buf.new.items
        (text_bytes first.now.0 ++ text_bytes second.now.0) }
{
    put_text(buf, first)?;
    put_text(buf, second)
}

// Puts the texts that each server says.
fn put_names<A: Allocator>(
    buf: &mut Vec<u8, A>,
    column: &ColumnDefinition41<'_>,
) -> Result<(), AllocError>
    ensures { PutsAfter result buf.old.items buf.new.items
        ((text_bytes column.now.catalog.0 ++ text_bytes column.now.schema.0)
        ++ ((text_bytes column.now.table.0 ++ text_bytes column.now.org_table.0)
        ++ (text_bytes column.now.name.0 ++ text_bytes column.now.org_name.0))) }
{
    put_pair(buf, &column.catalog, &column.schema)?;
    put_pair(buf, &column.table, &column.org_table)?;
    put_pair(buf, &column.name, &column.org_name)
}

fn put_metadata<A: Allocator>(
    buf: &mut Vec<u8, A>,
    metadata: &Option<RawBytes<'_, LenEnc>>,
) -> Result<(), AllocError>
    ensures { PutsAfter result buf.old.items buf.new.items
        (bytes_if (λ text. text_bytes text.0) metadata.now) }
{
    match metadata {
        Some(text) => put_text(buf, text),
        None => Ok(()),
    }
}

fn put_sizes<A: Allocator>(
    buf: &mut Vec<u8, A>,
    column: &ColumnDefinition41<'_>,
) -> Result<(), AllocError>
    ensures { PutsAfter result buf.old.items buf.new.items
        (0x0c ∷ (le_bytes 2 column.now.character_set ++ le_bytes 4 column.now.column_length)) }
{
    put(buf, &[0x0c])?;
    put(buf, &column.character_set.to_le_bytes())?;
    put(buf, &column.column_length.to_le_bytes())
}

fn put_kind<A: Allocator>(
    buf: &mut Vec<u8, A>,
    column: &ColumnDefinition41<'_>,
) -> Result<(), AllocError>
    ensures { PutsAfter result buf.old.items buf.new.items
        (column.now.column_type.0 ∷ le_bytes 2 column.now.flags.0
        ++ column.now.decimals ∷ column.now.reserved) }
{
    put(buf, &[column.column_type.0])?;
    put(buf, &column.flags.0.to_le_bytes())?;
    put(buf, &[column.decimals])?;
    put(buf, &column.reserved)
}

// Puts a definition. Where memory is refused, a part of it may stand there.
fn put_definition<A: Allocator>(
    buf: &mut Vec<u8, A>,
    column: &ColumnDefinition41<'_>,
) -> Result<(), AllocError>
    ensures { PutsAfter result buf.old.items buf.new.items
        (((text_bytes column.now.catalog.0 ++ text_bytes column.now.schema.0)
        ++ ((text_bytes column.now.table.0 ++ text_bytes column.now.org_table.0)
        ++ (text_bytes column.now.name.0 ++ text_bytes column.now.org_name.0)))
        ++ (bytes_if (λ text. text_bytes text.0) column.now.extended_metadata
        ++ (0x0c ∷ (le_bytes 2 column.now.character_set ++ le_bytes 4 column.now.column_length)
        ++ (column.now.column_type.0 ∷ le_bytes 2 column.now.flags.0
        ++ column.now.decimals ∷ column.now.reserved)))) }
{
    put_names(buf, column)?;
    put_metadata(buf, &column.extended_metadata)?;
    put_sizes(buf, column)?;
    put_kind(buf, column)
}

impl MySerialize for ColumnDefinition41<'_> {
    ghost bytes = { λ column. ((text_bytes column.catalog.0 ++ text_bytes column.schema.0)
        ++ ((text_bytes column.table.0 ++ text_bytes column.org_table.0)
        ++ (text_bytes column.name.0 ++ text_bytes column.org_name.0)))
        ++ (bytes_if (λ text. text_bytes text.0) column.extended_metadata
        ++ (0x0c ∷ (le_bytes 2 column.character_set ++ le_bytes 4 column.column_length)
        ++ (column.column_type.0 ∷ le_bytes 2 column.flags.0
        ++ column.decimals ∷ column.reserved))) };

    fn serialize<A: Allocator>(&self, buf: &mut Vec<u8, A>) -> Result<(), WireError> {
        let at = buf.len();
        let put = put_definition(buf, self).is_ok();
        all_or_nothing(put, at, buf)
    }
}

impl HasSize for Pair<'_> {
    type Size = Varying;
}

impl<'de> MyDeserialize<'de, Global> for Pair<'de> {
    type Ctx = ();

    ghost reads = { λ _. ReadsBoth (λ pair. pair.0) (λ pair. pair.1)
        (⟦<RawBytes<'de, LenEnc> as MyDeserialize<'de, Global>>⟧.reads tt)
        (⟦<RawBytes<'de, LenEnc> as MyDeserialize<'de, Global>>⟧.reads tt) };

    fn deserialize(alloc: Global, _: (), buf: &mut ParseBuf<'de>) -> Result<Self, WireError> {
        match Both::<RawBytes<'de, LenEnc>, RawBytes<'de, LenEnc>>::deserialize(
            alloc,
            ((), ()),
            buf,
        ) {
            Ok(Both(first, second)) => Ok(Pair(first, second)),
            Err(error) => Err(error),
        }
    }
}

impl HasSize for ColumnDefinition41<'_> {
    type Size = Varying;
}

impl<'de> MyDeserialize<'de, Global> for ColumnDefinition41<'de> {
    type Ctx = MariadbCapabilities;

    ghost reads = { λ ctx input. Through
        column_fields
        (⟦<Fields<'de> as MyDeserialize<'de, Global>>⟧.reads (
          (tt, (tt, tt)),
          (
            side tt (has (mariadb_capabilities_bits ctx) 0x8),
            ((tt, (tt, tt)), ((tt, tt), (tt, tt))),
          ),
        ) input) };

    fn deserialize(
        alloc: Global,
        capabilities: MariadbCapabilities,
        buf: &mut ParseBuf<'de>,
    ) -> Result<Self, WireError> {
        let names = ((), ((), ()));
        let metadata = metadata_under(capabilities);
        let numbers = (((), ((), ())), (((), ()), ((), ())));
        match Fields::deserialize(alloc, (names, (metadata, numbers)), buf) {
            Ok(fields) => Ok(of_fields(fields)),
            Err(error) => Err(error),
        }
    }
}

impl<'de> Wire<'de, Global> for ColumnDefinition41<'de> {
    ghost is_value = { λ column. record {
      catalog : IsText (cow_slice_items column.catalog.0);
      schema : IsText (cow_slice_items column.schema.0);
      table : IsText (cow_slice_items column.table.0);
      org_table : IsText (cow_slice_items column.org_table.0);
      name : IsText (cow_slice_items column.name.0);
      org_name : IsText (cow_slice_items column.org_name.0);
      extended_metadata : OnIf (λ text. IsText (cow_slice_items text.0)) column.extended_metadata;
      character_set : column.character_set < 2 ^ 16;
      column_length : column.column_length < 2 ^ 32;
      flags : column.flags.0 < 2 ^ 16;
      reserved : length column.reserved ≡ 2;
    } };

    ghost good = { λ ctx column _. IsThere (has (mariadb_capabilities_bits ctx) 0x8)
        column.extended_metadata };

    ghost kept = { λ column back. record {
      catalog : IsBorrowedText back.catalog.0 (cow_slice_items column.catalog.0);
      schema : IsBorrowedText back.schema.0 (cow_slice_items column.schema.0);
      table : IsBorrowedText back.table.0 (cow_slice_items column.table.0);
      org_table : IsBorrowedText back.org_table.0 (cow_slice_items column.org_table.0);
      name : IsBorrowedText back.name.0 (cow_slice_items column.name.0);
      org_name : IsBorrowedText back.org_name.0 (cow_slice_items column.org_name.0);
      extended_metadata : BothIf (λ text back. IsBorrowedText back.0 (cow_slice_items text.0))
          column.extended_metadata back.extended_metadata;
      character_set : back.character_set ≡ column.character_set;
      column_length : back.column_length ≡ column.column_length;
      column_type : back.column_type.0 ≡ column.column_type.0;
      flags : back.flags.0 ≡ column.flags.0;
      decimals : back.decimals ≡ column.decimals;
      reserved : back.reserved ≡ column.reserved;
    } };

    ghost takes_memory = { ⊥ };

    fn known(&self) {
        self.catalog.known();
        self.schema.known();
        self.table.known();
        self.org_table.known();
        self.name.known();
        self.org_name.known();
        known_text(&self.extended_metadata);
        <[u8; 2] as Wire<'_, Global>>::known(&self.reserved);
        let _character_set = self.character_set;
        let _length = self.column_length;
        let _flags = self.flags.0;
    }

    ghost comes_back = { λ ctx column rest answer eaten value good read.
        packet (⟦<Fields<'de> as MyDeserialize<'de, Global>>⟧.reads (
          (tt, (tt, tt)),
          (
            side tt (has (mariadb_capabilities_bits ctx) 0x8),
            ((tt, (tt, tt)), ((tt, tt), (tt, tt))),
          ),
        )) _ _
        (λ back came. let names = came.0 in let sizes = came.1.1.0 in
        let kind = came.1.1.1 in record {
          catalog = names.0.0;
          schema = names.0.1;
          table = names.1.0.0;
          org_table = names.1.0.1;
          name = names.1.1.0;
          org_name = names.1.1.1;
          extended_metadata = kept_field
              (λ text back. IsBorrowedText back.0 (cow_slice_items text.0)) _ (λ text. text)
              (λ text back. IsBorrowedText back.0 (cow_slice_items text.0))
              column.extended_metadata back.extended_metadata (λ text back same. same) came.1.0;
          character_set = sizes.1.0;
          column_length = sizes.1.1;
          column_type = kind.0.0;
          flags = kind.0.1;
          decimals = kind.1.0;
          reserved = kind.1.1;
        })
        (both
        (both (pair (lenenc_text (λ text. text.0) (cow_slice_items column.catalog.0) value.catalog)
        (lenenc_text (λ text. text.0) (cow_slice_items column.schema.0) value.schema))
        (both (pair (lenenc_text (λ text. text.0) (cow_slice_items column.table.0) value.table)
        (lenenc_text (λ text. text.0) (cow_slice_items column.org_table.0) value.org_table))
        (pair (lenenc_text (λ text. text.0) (cow_slice_items column.name.0) value.name)
        (lenenc_text (λ text. text.0) (cow_slice_items column.org_name.0) value.org_name))))
        (both (optional (⟦<RawBytes<'de, LenEnc> as MyDeserialize<'de, Global>>⟧.reads) tt
        (has (mariadb_capabilities_bits ctx) 0x8) column.extended_metadata
        (λ text back. IsBorrowedText back.0 (cow_slice_items text.0))
        (λ text. text_bytes text.0) good
        (λ text is. lenenc_text (λ text. text.0) (cow_slice_items text.0)
        (subst (OnIf (λ text. IsText (cow_slice_items text.0))) is value.extended_metadata)))
        (both (both const_u8
        (both (number (λ n. n) 2 column.character_set value.character_set)
        (number (λ n. n) 4 column.column_length value.column_length)))
        (both (both (byte (λ n. n) column.column_type.0)
        (number (λ n. n) 2 column.flags.0 value.flags))
        (both (byte (λ n. n) column.decimals) (array 2 column.reserved value.reserved))))))
        answer eaten read };

    ghost of_size = { λ column size _ stated. Prim.cc };
}
