//! `COM_STMT_EXECUTE`.

ghost use Rattle.std.specs.Prelude.{◌≡◌, [], ◌∷◌, ◌++◌, nat_lt};
ghost use Rattle.std.proofs.Common.{ap, subst, sym, ◌∙◌};
ghost use Rattle.wire_buf.specs.Numbers.{le_bytes};
ghost use Rattle.wire_buf.specs.Reading.{Through};
ghost use Rattle.mysql_wire_parts.specs.InOrder.{packet, both, byte, const_u8, number};
ghost use Rattle.mysql_wire_parts.specs.Optional.{IsThere, OnIf, field, kept_field, optional, side};
ghost use Rattle.mysql_wire_statements.specs.Again.{packet_again, both_again, byte_again, const_again, number_again, optional_again, rest_again, slice_again, by_field};
ghost use Rattle.mysql_wire_statements.specs.Executed.{execute_bytes, params_bytes, AreParams, HasNumbers, SameExecution, SameParams};
ghost use Rattle.mysql_wire_statements.specs.Bitmaps.{bitmap_len};
ghost use Rattle.mysql_wire_statements.specs.InOrder.{rest_of, slice_of};
ghost use Rattle.mysql_wire_statements.specs.TypesBack.{types_again, types_field};
ghost use Rattle.mysql_wire_statements.specs.Params.{types_of};

use crate::params::{Fields as ParamsFields, StmtParams};
use crate::written_back::WrittenBack;
use std::alloc::Allocator;
use wire_buf::error::WireError;
use wire_buf::io::ParseBuf;
use wire_buf::proto::{HasSize, MyDeserialize, MySerialize, Varying};
use wire_const::CursorType;
use wire_field::row::{Both, Either};
use wire_forms::constant::{ConstU8, Skip};
use wire_repr::wire::Wire;
use wire_values::flags::RawFlags;

// The payload's fields, in order.
type Fields<'a> = Both<ConstU8<(), 0x17>, Both<u32, Cursor<'a>>>;

type Cursor<'a> = Both<RawFlags<CursorType, u8>, Both<u32, Params<'a>>>;

// Parameters, or no bytes.
type Params<'a> = Either<StmtParams<'a>, Skip<0>>;

/// A statement is executed. Read, the context is the count of its parameters. This is its form on a
/// connection without `CLIENT_QUERY_ATTRIBUTES`. The answer is an OK, an error, or a resultset whose
/// rows are each a `BinaryRow`.
///
/// <https://dev.mysql.com/doc/dev/mysql-server/latest/page_protocol_com_stmt_execute.html>
#[derive(Clone, Copy, Debug, PartialEq, Eq)]
pub struct ComStmtExecute<'a> {
    pub statement_id: u32,
    /// Whether rows are sent at once, or fetched of a cursor.
    pub flags: RawFlags<CursorType, u8>,
    /// How often the statement is executed: 1.
    pub iteration_count: u32,
    /// The parameters, of a statement that has some.
    pub params: Option<StmtParams<'a>>,
}

// The context of the parameters, if there are any.
fn params_ctx(num_params: u16) -> Either<u16, ()>
    ensures { result ≡ side num_params (nat_lt 0 num_params) }
{
    if 0 < num_params {
        Either::Left(num_params)
    } else {
        Either::Right(())
    }
}

// The field of parameters.
fn field_of<'a>(params: Option<StmtParams<'a>>) -> Params<'a>
    ensures { result ≡ field (λ params. params) _ params.entry }
{
    match params {
        Some(params) => Either::Left(params),
        None => Either::Right(Skip),
    }
}

// The parameters of a field.
fn params_of<'a>(part: Params<'a>) -> Option<StmtParams<'a>>
    ensures { part.entry ≡ field (λ params. params) _ result }
{
    match part {
        Either::Left(params) => Some(params),
        Either::Right(_) => None,
    }
}

impl MySerialize for ComStmtExecute<'_> {
    ghost bytes = { execute_bytes };

    fn serialize<A: Allocator>(&self, buf: &mut Vec<u8, A>) -> Result<(), WireError> {
        let cursor = Both(
            self.flags,
            Both(self.iteration_count, field_of(self.params)),
        );
        Both(ConstU8::<(), 0x17>::new(), Both(self.statement_id, cursor)).serialize(buf)
    }
}

impl HasSize for ComStmtExecute<'_> {
    type Size = Varying;
}

impl<'de, A: Allocator + Copy> MyDeserialize<'de, A> for ComStmtExecute<'de> {
    type Ctx = u16;

    ghost reads = { λ num_params input. Through
        (λ command. (
          _,
          (
            command.statement_id,
            (
              command.flags,
              (
                command.iteration_count,
                field (λ params. params) _ command.params,
              ),
            ),
          ),
        ))
        (⟦<Fields<'de> as MyDeserialize<'de, A>>⟧.reads
        (tt, (tt, (tt, (tt, side num_params (nat_lt 0 num_params))))) input) };

    fn deserialize(alloc: A, num_params: u16, buf: &mut ParseBuf<'de>) -> Result<Self, WireError> {
        let params = params_ctx(num_params);
        match Fields::deserialize(alloc, ((), ((), ((), ((), params)))), buf) {
            Ok(Both(_, Both(statement_id, Both(flags, Both(count, params))))) => {
                Ok(ComStmtExecute {
                    statement_id,
                    flags,
                    iteration_count: count,
                    params: params_of(params),
                })
            }
            Err(error) => Err(error),
        }
    }
}

// The parameters' values take all the rest, so they come back where nothing stands after them.
impl<'de, A: Allocator + Copy> Wire<'de, A> for ComStmtExecute<'de> {
    ghost is_value = { HasNumbers };

    ghost good = { λ num_params command rest.
        IsThere (nat_lt 0 num_params) command.params
        × OnIf (λ params. AreParams num_params params × (rest ≡ [])) command.params };

    ghost kept = { SameExecution };

    ghost takes_memory = { ⊥ };

    fn known(&self) {
        let _id = self.statement_id;
        let _flags = self.flags.0;
        let _count = self.iteration_count;
    }

    ghost comes_back = { λ num_params command rest answer eaten value good read.
        packet (⟦<Fields<'de> as MyDeserialize<'de, A>>⟧.reads
        (tt, (tt, (tt, (tt, side num_params (nat_lt 0 num_params))))))
        (λ command. (
          _,
          (
            command.statement_id,
            (
              command.flags,
              (
                command.iteration_count,
                field (λ params. params) _ command.params,
              ),
            ),
          ),
        )) _
        (λ back came. let cursor = came.1.1 in (
          came.1.0,
          cursor.0,
          cursor.1.0,
          kept_field _ _ (λ params. params) SameParams command.params back.params
              (λ params back came. came) cursor.1.1,
        ))
        (both const_u8 (both (number (λ n. n) 4 command.statement_id value.0)
        (both (byte (λ flags. flags.0) command.flags.0)
        (both (number (λ n. n) 4 command.iteration_count value.2)
        (optional (⟦<StmtParams<'de> as MyDeserialize<'de, A>>⟧.reads) num_params
        (nat_lt 0 num_params) command.params SameParams params_bytes good.0
        (λ params is. record {
          law = packet
              (⟦<ParamsFields<'de> as MyDeserialize<'de, A>>⟧.reads (num_params, (num_params, tt)))
              (λ params. (
                params.nulls,
                (record { 0 = params.types }, record { 0 = params.values }),
              ))
              (SameParams params) (λ back came. (came.0, came.1.0, came.1.1))
              (let are = subst (OnIf (λ params. AreParams num_params params × (rest ≡ []))) is
              good.1 in (both (slice_of (λ nulls. nulls.0.now) (bitmap_len 0 num_params) params.nulls.0.now are.0.0)
              (both (types_field (λ bound. types_of bound.0) num_params (types_of params.types) are.0.1)
              (rest_of (λ values. values.0.now) params.values.now are.1))));
        }))))))
        answer eaten read };

    ghost of_size = { λ command size _ stated. Prim.cc };
}

impl<'de, A: Allocator + Copy> WrittenBack<'de, A> for ComStmtExecute<'de> {
    ghost shortest = { λ _ _. Unit {0} };

    ghost again = { λ num_params input command eaten are shortest read.
        ap (λ params. 0x17 ∷ (le_bytes 4 command.statement_id
        ++ (command.flags.0 ∷ (le_bytes 4 command.iteration_count ++ params))))
        (sym (by_field params_bytes _ command.params))
        ∙ packet_again
        (⟦<Fields<'de> as MyDeserialize<'de, A>>⟧.reads
        (tt, (tt, (tt, (tt, side num_params (nat_lt 0 num_params))))))
        (λ command. (
          _,
          (
            command.statement_id,
            (
              command.flags,
              (
                command.iteration_count,
                field (λ params. params) _ command.params,
              ),
            ),
          ),
        ))
        (both_again (const_again 0x17) (both_again (number_again (λ n. n) 4)
        (both_again (byte_again (λ flags. flags.0)) (both_again (number_again (λ n. n) 4)
        (optional_again (⟦<StmtParams<'de> as MyDeserialize<'de, A>>⟧.reads) num_params
        (nat_lt 0 num_params) params_bytes (record {
          law = packet_again
              (⟦<ParamsFields<'de> as MyDeserialize<'de, A>>⟧.reads (num_params, (num_params, tt)))
              (λ params. (
                params.nulls,
                (record { 0 = params.types }, record { 0 = params.values }),
              ))
              (both_again (slice_again (λ nulls. nulls.0.now) (bitmap_len 0 num_params))
              (both_again (types_again (λ bound. types_of bound.0) num_params)
              (rest_again (λ values. values.0.now))));
        }))))))
        input command eaten are read };
}
