//! What a caller knows of sets of flags and of enums: each call with its result, in numbers.
//!
//! The sets share their calls, so one set shows them.

ghost use Rattle.std.specs.Prelude.{◌≡◌, ◌≢◌, ◌-◌, ◌↔◌, Ok, IsTrue, IsSome, IfSome, MatchResult, if◌then◌else◌};
ghost use Rattle.std.specs.Int.RustNames.{bit_and, bit_or, bit_xor};
ghost use Rattle.mysql_wire.specs.FlagSets.{status_flags_bits, status_flags_known, IsKnown};
ghost use Rattle.mysql_wire.specs.EnumNumbers.{command_number, geometry_type_number, item_result_number, column_type_number, ConvertsNumber};

use mysql_wire::constants::{
    ColumnType, Command, Flags, GeometryType, ItemResult, StatusFlags, UnknownColumnType,
    UnknownStatusFlags,
};

pub fn bits(a: StatusFlags) -> u16
    ensures { result ≡ status_flags_bits a }
{
    a.bits()
}

pub fn from_bits_retain(raw: u16) -> StatusFlags
    ensures { status_flags_bits result ≡ raw }
{
    StatusFlags::from_bits_retain(raw)
}

pub fn empty() -> StatusFlags
    ensures { status_flags_bits result ≡ 0 }
{
    StatusFlags::empty()
}

pub fn default() -> StatusFlags
    ensures { status_flags_bits result ≡ 0 }
{
    StatusFlags::default()
}

#[tactic(auto, using(wire_const::specs::FlagSets::status_flags_union))]
pub fn all() -> StatusFlags
    ensures { status_flags_bits result ≡ status_flags_known }
{
    StatusFlags::all()
}

#[tactic(auto, using(wire_const::specs::FlagSets::status_flags_union))]
pub fn from_bits(raw: u16) -> Option<StatusFlags>
    ensures known { IsSome result ↔ IsKnown status_flags_known raw }
    ensures value { IfSome result (λ flags. status_flags_bits flags ≡ raw) }
{
    StatusFlags::from_bits(raw)
}

#[tactic(auto, using(wire_const::specs::FlagSets::status_flags_union))]
pub fn from_bits_truncate(raw: u16) -> StatusFlags
    ensures { status_flags_bits result ≡ bit_and raw status_flags_known }
{
    StatusFlags::from_bits_truncate(raw)
}

pub fn is_empty(a: StatusFlags) -> bool
    ensures { IsTrue result ↔ (status_flags_bits a ≡ 0) }
{
    a.is_empty()
}

#[tactic(auto, using(wire_const::specs::FlagSets::status_flags_union))]
pub fn is_all(a: StatusFlags) -> bool
    ensures { IsTrue result
        ↔ (bit_or status_flags_known (status_flags_bits a) ≡ status_flags_bits a) }
{
    a.is_all()
}

pub fn contains(a: StatusFlags, b: StatusFlags) -> bool
    ensures { IsTrue result
        ↔ (bit_and (status_flags_bits a) (status_flags_bits b) ≡ status_flags_bits b) }
{
    a.contains(b)
}

/// Whether a connection is in a transaction, by the flags that the server sent.
pub fn is_in_transaction(status: u16) -> bool
    ensures { IsTrue result ↔ (bit_and status 1 ≡ 1) }
{
    StatusFlags::from_bits_retain(status).contains(StatusFlags::SERVER_STATUS_IN_TRANS)
}

pub fn intersects(a: StatusFlags, b: StatusFlags) -> bool
    ensures { IsTrue result ↔ (bit_and (status_flags_bits a) (status_flags_bits b) ≢ 0) }
{
    a.intersects(b)
}

pub fn union(a: StatusFlags, b: StatusFlags) -> StatusFlags
    ensures { status_flags_bits result ≡ bit_or (status_flags_bits a) (status_flags_bits b) }
{
    a.union(b)
}

pub fn insert(a: &mut StatusFlags, b: StatusFlags)
    ensures { status_flags_bits a.new ≡ bit_or (status_flags_bits a.old) (status_flags_bits b) }
{
    a.insert(b);
}

pub fn intersection(a: StatusFlags, b: StatusFlags) -> StatusFlags
    ensures { status_flags_bits result ≡ bit_and (status_flags_bits a) (status_flags_bits b) }
{
    a.intersection(b)
}

pub fn difference(a: StatusFlags, b: StatusFlags) -> StatusFlags
    ensures { status_flags_bits result
        ≡ bit_and (status_flags_bits a) (0xffff - status_flags_bits b) }
{
    a.difference(b)
}

pub fn remove(a: &mut StatusFlags, b: StatusFlags)
    ensures { status_flags_bits a.new
        ≡ bit_and (status_flags_bits a.old) (0xffff - status_flags_bits b) }
{
    a.remove(b);
}

pub fn symmetric_difference(a: StatusFlags, b: StatusFlags) -> StatusFlags
    ensures { status_flags_bits result ≡ bit_xor (status_flags_bits a) (status_flags_bits b) }
{
    a.symmetric_difference(b)
}

pub fn toggle(a: &mut StatusFlags, b: StatusFlags)
    ensures { status_flags_bits a.new ≡ bit_xor (status_flags_bits a.old) (status_flags_bits b) }
{
    a.toggle(b);
}

pub fn set(a: &mut StatusFlags, b: StatusFlags, on: bool)
    ensures { status_flags_bits a.new
        ≡ (if on then bit_or (status_flags_bits a.old) (status_flags_bits b)
        else bit_and (status_flags_bits a.old) (0xffff - status_flags_bits b)) }
{
    a.set(b, on);
}

#[tactic(auto, using(wire_const::specs::FlagSets::status_flags_union))]
pub fn complement(a: StatusFlags) -> StatusFlags
    ensures { status_flags_bits result
        ≡ bit_and (0xffff - status_flags_bits a) status_flags_known }
{
    a.complement()
}

/// A raw number that converts is the number that comes back, and else it stands in the error.
#[tactic(auto, using(wire_const::specs::FlagSets::status_flags_union))]
pub fn status_there_and_back(raw: u16) -> Result<u16, UnknownStatusFlags>
    ensures { MatchResult result
        (λ back. IsKnown status_flags_known raw × (back ≡ raw))
        (λ unknown. (¬ IsKnown status_flags_known raw) × (unknown.0 ≡ raw)) }
{
    match StatusFlags::try_from(raw) {
        Ok(flags) => Ok(flags.into()),
        Err(unknown) => Err(unknown),
    }
}

/// The first byte of a command's packet.
pub fn command_byte(command: Command) -> u8
    ensures { result ≡ command_number command }
{
    command as u8
}

pub fn geometry_type_byte(geometry_type: GeometryType) -> u8
    ensures { result ≡ geometry_type_number geometry_type }
{
    geometry_type as u8
}

pub fn item_result_byte(item_result: ItemResult) -> i8
    ensures { result ≡ item_result_number item_result }
{
    item_result as i8
}

/// A conversion by its bound alone, as generic code makes it.
pub fn converted<T: TryFrom<u8>>(number: u8) -> Result<T, T::Error>
    ensures { T.try_from_gives number result }
{
    T::try_from(number)
}

pub fn column_type_of(number: u8) -> Result<ColumnType, UnknownColumnType>
    ensures { ConvertsNumber column_type_number (λ unknown. unknown.0) number result }
{
    converted::<ColumnType>(number)
}

/// Each type comes back from its number.
pub fn column_type_back(column_type: ColumnType) -> Result<ColumnType, UnknownColumnType>
    ensures { result ≡ Ok column_type }
{
    ColumnType::try_from(u8::from(column_type))
}
