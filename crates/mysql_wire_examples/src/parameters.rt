//! A record of one's own, and lists of it: the types and names of a query's parameters.

ghost use Rattle.std.specs.Prelude.{◌≡◌, List, ◌++◌, None, Ok, OnOk, ◌⊎◌};
ghost use Rattle.std.specs.List.{flat_map};
ghost use Rattle.mysql_wire.specs.CountedLists.{ReadsCounted};
ghost use Rattle.mysql_wire.specs.Elements.{ReadsAll};
ghost use Rattle.mysql_wire.specs.Law.{ComesBackFrom};
ghost use Rattle.mysql_wire.specs.Reading.{Reads};
ghost use Rattle.mysql_wire_examples.specs.Parameters.{parameter_bytes, AreParameters, IsParameter, SameParameter, SameParameters, ReadsParameter, parameter-back};
ghost use Rattle.mysql_wire_examples.specs.declared.parameters.Parameter.{Parameter};

use mysql_wire::io::{ParseBuf, WireError};
use mysql_wire::misc::raw::Both;
use mysql_wire::misc::raw::bytes::{LenEnc, RawBytes};
use mysql_wire::misc::raw::field_laws::parse_back;
use mysql_wire::misc::raw::int::{LeU16, RawInt};
use mysql_wire::misc::raw::seq::{Seq, Unknown};
use mysql_wire::proto::{HasSize, MyDeserialize, MySerialize, Varying, Wire};
use std::alloc::{Allocator, Global};
use std::borrow::CowSlice;

/// What a query says of a parameter: its type and flags, and its name.
///
/// <https://dev.mysql.com/doc/dev/mysql-server/latest/page_protocol_com_query.html>
#[derive(Drop, Clone, Debug, PartialEq, Eq)]
pub struct Parameter<'a> {
    pub type_and_flags: RawInt<LeU16>,
    pub name: RawBytes<'a, LenEnc>,
}

impl MySerialize for Parameter<'_> {
    ghost bytes = { parameter_bytes };

    fn serialize<A: Allocator>(&self, buf: &mut Vec<u8, A>) -> Result<(), WireError> {
        let at = buf.len();
        self.type_and_flags.serialize(buf)?;
        let put = self.name.serialize(buf);
        if put.is_err() {
            buf.truncate(at);
        }
        put
    }
}

impl HasSize for Parameter<'_> {
    type Size = Varying;
}

impl<'de> MyDeserialize<'de, Global> for Parameter<'de> {
    type Ctx = ();

    ghost reads = { λ _. ReadsParameter };

    fn deserialize(alloc: Global, _: (), buf: &mut ParseBuf<'de>) -> Result<Self, WireError> {
        let both: Both<RawInt<LeU16>, RawBytes<'de, LenEnc>> = buf.parse(alloc, ((), ()))?;
        let Both(type_and_flags, name) = both;
        Ok(Parameter {
            type_and_flags,
            name,
        })
    }
}

impl<'de> Wire<'de, Global> for Parameter<'de> {
    ghost is_value = { IsParameter };

    ghost good = { λ _ _ _. Unit {0} };

    ghost kept = { SameParameter };

    ghost takes_memory = { ⊥ ⊎ ⊥ };

    fn known(&self) {
        <RawInt<LeU16> as Wire<'de, Global>>::known(&self.type_and_flags);
        <RawBytes<'de, LenEnc> as Wire<'de, Global>>::known(&self.name);
    }

    ghost comes_back = { λ ctx parameter rest answer eaten value good read.
        parameter-back parameter rest value answer eaten read };

    ghost of_size = { λ parameter size value stated. Prim.cc };
}

/// Appends what a query says of its parameters. It says their number before.
pub fn put_parameters(parameters: &[Parameter<'_>], buf: &mut Vec<u8>) -> Result<(), WireError>
    ensures { OnOk result
        (buf.new.items ≡ buf.old.items ++ flat_map parameter_bytes parameters.now) }
{
    let list: Seq<'_, Parameter<'_>, Unknown> = Seq::new(CowSlice::Borrowed(parameters));
    list.known();
    list.serialize(buf)
}

/// Reads what a query says of this many parameters. Whatever stands after what was written of them,
/// each comes back.
pub fn read_parameters<'a>(
    alloc: Global,
    count: usize,
    buf: &mut ParseBuf<'a>,
) -> Result<Seq<'a, Parameter<'a>, Unknown>, WireError>
    ensures reads { Reads (λ input. ReadsCounted (λ list. list.0) (Ok count, 0)
        (ReadsAll None ReadsParameter) input) buf.old.0.now result buf.new.0.now }
    ensures back { (list : List Parameter) → AreParameters count list
        → ComesBackFrom (flat_map parameter_bytes list) (λ back. SameParameters list back.0)
        (Unit {0}) buf.old.0.now result buf.new.0.now }
{
    parse_back::<'a, Seq<'a, Parameter<'a>, Unknown>, Global>(alloc, count, buf)
}
