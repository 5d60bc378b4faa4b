//! Maps whose keys are fields as they were read: a number and a text.

ghost use Rattle.std.specs.Prelude.{◌≡◌, ◌≢◌, ℕ, List, Some, OnOk, IfErr};
ghost use Rattle.std.specs.BTreeMap as tree;
ghost use Rattle.std.specs.Cow.{cow_slice_items};
ghost use Rattle.std.specs.HashMap as hash;
ghost use Rattle.std.specs.Option.{option_copied};
ghost use Rattle.mysql_wire.specs.WireError.TheVariants.{OutOfMemory};
ghost use Rattle.mysql_wire_examples.specs.Keyed.{at_bytes, at_int};

use mysql_wire::io::WireError;
use mysql_wire::misc::raw::bytes::{EofBytes, RawBytes};
use mysql_wire::misc::raw::int::{LeU32, RawInt};
use std::collections::{BTreeMap, HashMap};

/// How many parameters each prepared statement has, by the statement's id.
pub type Statements = HashMap<RawInt<LeU32>, u16>;

/// How often each schema was chosen, by its name.
pub type Schemas<'a> = BTreeMap<RawBytes<'a, EofBytes>, u64>;

/// Notes how many parameters a statement has.
pub fn note_statement(
    statements: &mut Statements,
    id: RawInt<LeU32>,
    parameters: u16,
) -> Result<(), WireError>
    ensures noted { OnOk result (at_int statements.new id.0 ≡ Some parameters) }
    ensures others { OnOk result ((other : ℕ) → other ≢ id.0
        → at_int statements.new other ≡ at_int statements.old other) }
    ensures err { IfErr result (λ error. (error ≡ OutOfMemory)
        × hash.IsUnchanged statements.old statements.new) }
{
    match statements.insert(id, parameters) {
        Ok(_) => Ok(()),
        Err(_) => Err(WireError::OutOfMemory),
    }
}

/// How many parameters the statement has, if there is one.
pub fn parameters_of(statements: &Statements, id: RawInt<LeU32>) -> Option<u16>
    ensures { result ≡ at_int statements.now id.0 }
{
    statements.get(&id).copied()
}

/// Notes how often a schema was chosen.
pub fn note_schema<'a>(
    schemas: &mut Schemas<'a>,
    name: RawBytes<'a, EofBytes>,
    times: u64,
) -> Result<(), WireError>
    ensures noted { OnOk result
        (at_bytes schemas.new (cow_slice_items name.entry.0) ≡ Some times) }
    ensures others { OnOk result ((other : List ℕ) → other ≢ cow_slice_items name.entry.0
        → at_bytes schemas.new other ≡ at_bytes schemas.old other) }
    ensures err { IfErr result (λ error. (error ≡ OutOfMemory)
        × tree.IsUnchanged schemas.old schemas.new) }
{
    match schemas.insert(name, times) {
        Ok(_) => Ok(()),
        Err(_) => Err(WireError::OutOfMemory),
    }
}

/// How often the schema was chosen, if it ever was. It may be lent or owned here, and there.
pub fn times_of<'a>(schemas: &Schemas<'a>, name: &RawBytes<'a, EofBytes>) -> Option<u64>
    ensures { result ≡ at_bytes schemas.now (cow_slice_items name.now.0) }
{
    schemas.get(name).copied()
}
