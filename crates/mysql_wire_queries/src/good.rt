//! When what was written of each packet comes back: what the member `good` of its law asks.
//!
//! Each function does nothing: its contract is the law, and a caller has it by calling.

ghost use Rattle.std.specs.Prelude.{ℕ, List, [], length};
ghost use Rattle.std.specs.Cow.{cow_slice_items};
ghost use Rattle.wire_const.specs.FlagSets.{capability_flags_bits, mariadb_capabilities_bits};
ghost use Rattle.mysql_wire_parts.specs.Optional.{IsThere, has};

use crate::column_count::ColumnCount;
use crate::column_definition::ColumnDefinition41;
use crate::com_query::ComQuery;
use crate::com_query_attributes::ComQueryWithAttributes;
use crate::local_infile::LocalInfileRequest;
use crate::text_row::{TextRow, TextValue};
use crate::type_detail::TypeDetail;
use std::alloc::Global;
use wire_const::{CapabilityFlags, MariadbCapabilities};
use wire_repr::wire::Wire;

/// A `ComQuery` comes back before nothing.
pub fn com_query_is_good(_packet: &ComQuery<'_>)
    ensures { ⟦<ComQuery<'static> as Wire<'static, Global>>⟧.good tt _packet.now [] }
{}

/// A `LocalInfileRequest` comes back before nothing.
pub fn local_infile_request_is_good(_packet: &LocalInfileRequest<'_>)
    ensures { ⟦<LocalInfileRequest<'static> as Wire<'static, Global>>⟧.good tt _packet.now [] }
{}

/// A `ComQueryWithAttributes` comes back before nothing.
pub fn com_query_with_attributes_is_good(_packet: &ComQueryWithAttributes<'_>)
    ensures { ⟦<ComQueryWithAttributes<'static> as Wire<'static, Global>>⟧.good tt _packet.now [] }
{}

/// A `ColumnCount` comes back whatever follows, where its parts are there just as both sides'
/// capabilities say.
pub fn column_count_is_good(_packet: &ColumnCount)
    ensures { (ctx : CapabilityFlags × MariadbCapabilities) (rest : List ℕ)
        → IsThere (has (capability_flags_bits ctx.0) 0x2000000) _packet.now.metadata_follows
        → IsThere (has (mariadb_capabilities_bits ctx.1) 0x10)
        _packet.now.mariadb_metadata_follows
        → ⟦<ColumnCount as Wire<'static, Global>>⟧.good ctx _packet.now rest }
{}

/// A `ColumnDefinition41` comes back whatever follows, where it has extended metadata just as the
/// capabilities say.
pub fn column_definition_is_good(_packet: &ColumnDefinition41<'_>)
    ensures { (extended : MariadbCapabilities) (rest : List ℕ)
        → IsThere (has (mariadb_capabilities_bits extended) 0x8) _packet.now.extended_metadata
        → ⟦<ColumnDefinition41<'static> as Wire<'static, Global>>⟧.good extended _packet.now rest }
{}

/// A `TypeDetail` comes back whatever follows.
pub fn type_detail_is_good(_packet: &TypeDetail<'_>)
    ensures { (rest : List ℕ)
        → ⟦<TypeDetail<'static> as Wire<'static, Global>>⟧.good tt _packet.now rest }
{}

/// A `TextValue` comes back whatever follows.
pub fn text_value_is_good(_packet: &TextValue<'_>)
    ensures { (rest : List ℕ)
        → ⟦<TextValue<'static> as Wire<'static, Global>>⟧.good tt _packet.now rest }
{}

/// A `TextRow` comes back whatever follows, where the context is the number of its values.
pub fn text_row_is_good(_packet: &TextRow<'_>)
    ensures { (rest : List ℕ)
        → ⟦<TextRow<'static> as Wire<'static, Global>>⟧.good (length (cow_slice_items _packet.now.values.0)) _packet.now rest }
{}
