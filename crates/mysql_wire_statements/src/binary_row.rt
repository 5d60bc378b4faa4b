//! A row of a binary resultset.

ghost use Rattle.std.specs.Prelude.{◌≡◌, ◌+◌, [], length, Ok};
ghost use Rattle.wire_buf.specs.Reading.{Reads, Through};
ghost use Rattle.mysql_wire_parts.specs.InOrder.{packet, both, const_u8};
ghost use Rattle.mysql_wire_statements.specs.Again.{packet_again, both_again, const_again, rest_again, slice_again};
ghost use Rattle.mysql_wire_statements.specs.BinaryRows.{row_bytes, IsRowOf, ReadsColumn};
ghost use Rattle.mysql_wire_statements.specs.Faults.{told};
ghost use Rattle.mysql_wire_statements.specs.Bitmaps.{bitmap_len, IsSet};
ghost use Rattle.mysql_wire_statements.specs.InOrder.{rest_of, slice_of};
ghost use Rattle.mysql_wire_statements.specs.Values.{form_of, ReadsForm};
ghost use Rattle.mysql_wire_statements.specs.declared.binary_value.BinaryValue.TheVariants.{Null};

use crate::binary_fault::BinaryFault;
use crate::binary_value::{BinaryValue, ValueForm, read_value};
use crate::null_bitmap::RowNulls;
use crate::rest::Rest;
use crate::written_back::WrittenBack;
use std::alloc::{Allocator, Global};
use wire_buf::error::WireError;
use wire_buf::io::ParseBuf;
use wire_buf::proto::{HasSize, MyDeserialize, MySerialize, Varying};
use wire_const::ColumnType;
use wire_field::row::Both;
use wire_forms::constant::ConstU8;
use wire_repr::wire::Wire;

// The payload's fields, in order.
type Fields<'a> = Both<ConstU8<(), 0x00>, Both<RowNulls<'a>, Rest<'a>>>;

/// A row in its binary form. Read, the context is the count of its columns.
///
/// <https://dev.mysql.com/doc/dev/mysql-server/latest/page_protocol_binary_resultset.html>
#[derive(Clone, Copy, Debug, PartialEq, Eq)]
pub struct BinaryRow<'a> {
    /// Which columns are NULL.
    pub nulls: RowNulls<'a>,
    /// The values of the other columns, one after another, up to the end of the payload. The types
    /// of the columns say how each is read, as a `BinaryValue`.
    pub values: &'a [u8],
}

// The value of the column at this place.
#[inline(always)]
pub(crate) fn read_column<'a>(
    nulls: RowNulls<'_>,
    column: usize,
    column_type: ColumnType,
    rest: &mut ParseBuf<'a>,
) -> Result<BinaryValue<'a>, BinaryFault>
    ensures { ReadsColumn nulls.entry.0.now column column_type rest.old.0.now (told result)
        rest.new.0.now }
{
    if nulls.is_null(column) {
        Ok(BinaryValue::Null)
    } else {
        read_value(ValueForm::of(column_type), rest)
    }
}

impl<'a> BinaryRow<'a> {
    /// The value of the column at this place, from 0 on, which has this type. In `rest` stands what
    /// the values of the columns before it left of `values`; of a column that is NULL nothing is
    /// eaten.
    #[inline(always)]
    pub fn value(
        &self,
        _: Global,
        column: usize,
        column_type: ColumnType,
        rest: &mut ParseBuf<'a>,
    ) -> Result<BinaryValue<'a>, WireError>
        ensures null { IsSet self.now.nulls.0.now (2 + column)
            → (result ≡ Ok Null) × (rest.new.0.now ≡ rest.old.0.now) }
        ensures there { ¬ (IsSet self.now.nulls.0.now (2 + column))
            → Reads (ReadsForm (form_of column_type)) rest.old.0.now result rest.new.0.now }
    {
        match read_column(self.nulls, column, column_type, rest) {
            Ok(value) => Ok(value),
            Err(fault) => Err(fault.into()),
        }
    }
}

impl MySerialize for BinaryRow<'_> {
    ghost bytes = { λ row. row_bytes row.nulls.0.now row.values.now };

    fn serialize<A: Allocator>(&self, buf: &mut Vec<u8, A>) -> Result<(), WireError> {
        let values = Both(self.nulls, Rest(self.values));
        Both(ConstU8::<(), 0x00>::new(), values).serialize(buf)
    }
}

impl HasSize for BinaryRow<'_> {
    type Size = Varying;
}

impl<'de, A: Allocator + Copy> MyDeserialize<'de, A> for BinaryRow<'de> {
    type Ctx = usize;

    ghost reads = { λ columns input. Through
        (λ row. (_, (row.nulls, record { 0 = row.values })))
        (⟦<Fields<'de> as MyDeserialize<'de, A>>⟧.reads (tt, (columns, tt)) input) };

    fn deserialize(alloc: A, columns: usize, buf: &mut ParseBuf<'de>) -> Result<Self, WireError> {
        match Fields::deserialize(alloc, ((), (columns, ())), buf) {
            Ok(Both(_, Both(nulls, values))) => Ok(BinaryRow {
                nulls,
                values: values.0,
            }),
            Err(error) => Err(error),
        }
    }
}

// The values take all the rest, so they come back where nothing stands after them.
impl<'de, A: Allocator + Copy> Wire<'de, A> for BinaryRow<'de> {
    ghost is_value = { λ _. Unit {0} };

    ghost good = { λ columns row rest. (bitmap_len 2 columns ≡ length row.nulls.0.now)
        × (rest ≡ []) };

    ghost kept = { λ row. IsRowOf row.nulls.0.now row.values.now };

    ghost takes_memory = { ⊥ };

    fn known(&self) {}

    ghost comes_back = { λ columns row rest answer eaten value good read.
        packet (⟦<Fields<'de> as MyDeserialize<'de, A>>⟧.reads (tt, (columns, tt)))
        (λ row. (_, (row.nulls, record { 0 = row.values })))
        _ (λ back came. (came.1.0, came.1.1))
        (both const_u8 (both
        (slice_of (λ nulls. nulls.0.now) (bitmap_len 2 columns) row.nulls.0.now good.0)
        (rest_of (λ values. values.0.now) row.values.now good.1)))
        answer eaten read };

    ghost of_size = { λ row size _ stated. Prim.cc };
}

impl<'de, A: Allocator + Copy> WrittenBack<'de, A> for BinaryRow<'de> {
    ghost shortest = { λ _ _. Unit {0} };

    ghost again = { λ columns input row eaten are shortest read.
        packet_again (⟦<Fields<'de> as MyDeserialize<'de, A>>⟧.reads (tt, (columns, tt)))
        (λ row. (_, (row.nulls, record { 0 = row.values })))
        (both_again (const_again 0x00)
        (both_again (slice_again (λ nulls. nulls.0.now) (bitmap_len 2 columns))
        (rest_again (λ values. values.0.now))))
        input row eaten are read };
}
