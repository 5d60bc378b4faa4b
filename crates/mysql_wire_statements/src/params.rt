//! The parameters of a statement that is executed.

ghost use Rattle.std.specs.Prelude.{◌≡◌, []};
ghost use Rattle.wire_buf.specs.Reading.{Through};
ghost use Rattle.mysql_wire_parts.specs.InOrder.{packet, both};
ghost use Rattle.mysql_wire_statements.specs.Again.{packet_again, both_again, rest_again, slice_again};
ghost use Rattle.mysql_wire_statements.specs.Executed.{params_bytes, AreParams, SameParams};
ghost use Rattle.mysql_wire_statements.specs.Params.{types_of, types_bytes, HasType, ReadsTypes};
ghost use Rattle.mysql_wire_statements.specs.Bitmaps.{bitmap_len};
ghost use Rattle.mysql_wire_statements.specs.InOrder.{rest_of, slice_of};
ghost use Rattle.mysql_wire_statements.specs.TypesBack.{types_again, types_field};

use crate::null_bitmap::ParamNulls;
use crate::rest::Rest;
use crate::written_back::WrittenBack;
use std::alloc::Allocator;
use wire_buf::error::{InvalidReason, WireError};
use wire_buf::io::ParseBuf;
use wire_buf::proto::{HasSize, MyDeserialize, MySerialize, Varying};
use wire_const::{ColumnType, StmtExecuteParamFlags};
use wire_field::converted::RawConst;
use wire_field::row::{Both, Slice};
use wire_forms::constant::ConstU8;
use wire_repr::wire::Wire;
use wire_values::flags::RawFlags;

/// The type of a parameter's value.
///
/// <https://dev.mysql.com/doc/dev/mysql-server/latest/page_protocol_com_stmt_execute.html>
#[derive(Clone, Copy, Debug, PartialEq, Eq)]
pub struct ParamType {
    pub column_type: RawConst<u8, ColumnType>,
    /// Whether a number has no sign.
    pub flags: RawFlags<StmtExecuteParamFlags, u8>,
}

/// The types of a statement's parameters: two bytes each, the type and its flags.
///
/// <https://dev.mysql.com/doc/dev/mysql-server/latest/page_protocol_com_stmt_execute.html>
#[derive(Clone, Copy, Debug, PartialEq, Eq)]
pub struct ParamTypes<'a>(pub &'a [u8]);

impl ParamTypes<'_> {
    /// The type of the parameter at this place, from 0 on; none past the last.
    pub fn get(&self, place: usize) -> Option<ParamType>
        ensures { HasType place self.now.0.now result }
    {
        if place >= self.0.len() / 2 {
            return None;
        }
        let at = 2 * place;
        Some(ParamType {
            column_type: RawConst::new(self.0[at]),
            flags: RawFlags::new(self.0[at + 1]),
        })
    }
}

/// The byte that says whether types follow, and the types. Read, the context is the count of the
/// parameters.
#[derive(Clone, Copy, Debug, PartialEq, Eq)]
pub(crate) struct BoundTypes<'a>(pub Option<ParamTypes<'a>>);

impl MySerialize for BoundTypes<'_> {
    ghost bytes = { λ bound. types_bytes (types_of bound.0) };

    fn serialize<A: Allocator>(&self, buf: &mut Vec<u8, A>) -> Result<(), WireError> {
        match self.0 {
            Some(types) => Both(ConstU8::<(), 1>::new(), Slice(types.0)).serialize(buf),
            None => ConstU8::<(), 0>::new().serialize(buf),
        }
    }
}

impl HasSize for BoundTypes<'_> {
    type Size = Varying;
}

impl<'de, A: Allocator + Copy> MyDeserialize<'de, A> for BoundTypes<'de> {
    type Ctx = u16;

    ghost reads = { λ count input. Through (λ bound. types_of bound.0) (ReadsTypes count input) };

    fn deserialize(_: A, count: u16, buf: &mut ParseBuf<'de>) -> Result<Self, WireError> {
        match buf.0.first() {
            None => Err(WireError::UnexpectedEof),
            Some(0) => {
                buf.skip(1);
                Ok(BoundTypes(None))
            }
            Some(1) => match buf.checked_eat(2 * count as usize + 1) {
                Some(bytes) => Ok(BoundTypes(Some(ParamTypes(&bytes[1..])))),
                None => Err(WireError::UnexpectedEof),
            },
            Some(_) => Err(WireError::InvalidData(InvalidReason::UnknownValue)),
        }
    }
}

// The payload's fields, in order.
pub(crate) type Fields<'a> = Both<ParamNulls<'a>, Both<BoundTypes<'a>, Rest<'a>>>;

/// The parameters of a statement that has some. Read, the context is their count.
///
/// <https://dev.mysql.com/doc/dev/mysql-server/latest/page_protocol_com_stmt_execute.html>
#[derive(Clone, Copy, Debug, PartialEq, Eq)]
pub struct StmtParams<'a> {
    /// Which parameters are NULL.
    pub nulls: ParamNulls<'a>,
    /// The parameters' types. A client may leave them out where it has sent them before.
    pub types: Option<ParamTypes<'a>>,
    /// The values of the parameters that are not NULL and whose data were not sent before, one
    /// after another, up to the end of the payload. Each is read as a `BinaryValue`.
    pub values: &'a [u8],
}

impl MySerialize for StmtParams<'_> {
    ghost bytes = { params_bytes };

    fn serialize<A: Allocator>(&self, buf: &mut Vec<u8, A>) -> Result<(), WireError> {
        let values = Both(BoundTypes(self.types), Rest(self.values));
        Both(self.nulls, values).serialize(buf)
    }
}

impl HasSize for StmtParams<'_> {
    type Size = Varying;
}

impl<'de, A: Allocator + Copy> MyDeserialize<'de, A> for StmtParams<'de> {
    type Ctx = u16;

    ghost reads = { λ count input. Through
        (λ params. (
          params.nulls,
          (record { 0 = params.types }, record { 0 = params.values }),
        ))
        (⟦<Fields<'de> as MyDeserialize<'de, A>>⟧.reads (count, (count, tt)) input) };

    fn deserialize(alloc: A, count: u16, buf: &mut ParseBuf<'de>) -> Result<Self, WireError> {
        match Fields::deserialize(alloc, (count as usize, (count, ())), buf) {
            Ok(Both(nulls, Both(types, values))) => Ok(StmtParams {
                nulls,
                types: types.0,
                values: values.0,
            }),
            Err(error) => Err(error),
        }
    }
}

// The values take all the rest, so they come back where nothing stands after them.
impl<'de, A: Allocator + Copy> Wire<'de, A> for StmtParams<'de> {
    ghost is_value = { λ _. Unit {0} };

    ghost good = { λ count params rest. AreParams count params × (rest ≡ []) };

    ghost kept = { SameParams };

    ghost takes_memory = { ⊥ };

    fn known(&self) {}

    ghost comes_back = { λ count params rest answer eaten value good read.
        packet (⟦<Fields<'de> as MyDeserialize<'de, A>>⟧.reads (count, (count, tt)))
        (λ params. (
          params.nulls,
          (record { 0 = params.types }, record { 0 = params.values }),
        ))
        _ (λ back came. (came.0, came.1.0, came.1.1)) (both (slice_of (λ nulls. nulls.0.now) (bitmap_len 0 count) params.nulls.0.now good.0.0)
        (both (types_field (λ bound. types_of bound.0) count (types_of params.types) good.0.1)
        (rest_of (λ values. values.0.now) params.values.now good.1))) answer eaten
        read };

    ghost of_size = { λ params size _ stated. Prim.cc };
}

impl<'de, A: Allocator + Copy> WrittenBack<'de, A> for StmtParams<'de> {
    ghost shortest = { λ _ _. Unit {0} };

    ghost again = { λ count input params eaten are shortest read.
        packet_again (⟦<Fields<'de> as MyDeserialize<'de, A>>⟧.reads (count, (count, tt)))
        (λ params. (
          params.nulls,
          (record { 0 = params.types }, record { 0 = params.values }),
        ))
        (both_again (slice_again (λ nulls. nulls.0.now) (bitmap_len 0 count))
        (both_again (types_again (λ bound. types_of bound.0) count)
        (rest_again (λ values. values.0.now)))) input params eaten are read };
}
