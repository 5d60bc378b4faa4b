//! What is read is written again byte for byte: always of packets that have no length in them, and of
//! the others where each length that came is spelled in its shortest form. These are never written
//! in more bytes than came. `read_exact` is the test for a payload in hand.
//!
//! Each function takes and answers nothing: its contract is the law, and a caller has it by calling.

ghost use Rattle.std.specs.Prelude.{ℕ};
ghost use Rattle.mysql_wire_parts.specs.Written.{WritesBack, WritesSame};

use crate::column_count::ColumnCount;
use crate::column_definition::ColumnDefinition41;
use crate::com_query::ComQuery;
use crate::com_query_attributes::ComQueryWithAttributes;
use crate::local_infile::LocalInfileRequest;
use crate::text_row::{TextRow, TextValue};
use crate::type_detail::TypeDetail;
use std::alloc::Global;
use wire_buf::proto::{MyDeserialize, MySerialize};
use wire_const::{CapabilityFlags, MariadbCapabilities};

/// Of `ComQuery`.
pub fn com_query_is_written_back()
    ensures { WritesSame (⟦<ComQuery<'static> as MyDeserialize<'static, Global>>⟧.reads tt)
        ⟦<ComQuery<'static> as MySerialize>⟧.bytes }
{}

/// Of `LocalInfileRequest`.
pub fn local_infile_request_is_written_back()
    ensures { WritesSame (⟦<LocalInfileRequest<'static> as MyDeserialize<'static, Global>>⟧.reads tt)
        ⟦<LocalInfileRequest<'static> as MySerialize>⟧.bytes }
{}

/// Of `ColumnCount`.
pub fn column_count_is_written_back()
    ensures { (ctx : CapabilityFlags × MariadbCapabilities) → WritesBack
        (⟦<ColumnCount as MyDeserialize<'static, Global>>⟧.reads ctx)
        ⟦<ColumnCount as MySerialize>⟧.bytes }
{}

/// Of `ColumnDefinition41`.
pub fn column_definition_is_written_back()
    ensures { (extended : MariadbCapabilities) →
        WritesBack (⟦<ColumnDefinition41<'static> as MyDeserialize<'static, Global>>⟧.reads extended)
        ⟦<ColumnDefinition41<'static> as MySerialize>⟧.bytes }
{}

/// Of `TypeDetail`.
pub fn type_detail_is_written_back()
    ensures { WritesBack (⟦<TypeDetail<'static> as MyDeserialize<'static, Global>>⟧.reads tt)
        ⟦<TypeDetail<'static> as MySerialize>⟧.bytes }
{}

/// Of `TextValue`.
pub fn text_value_is_written_back()
    ensures { WritesBack (⟦<TextValue<'static> as MyDeserialize<'static, Global>>⟧.reads tt)
        ⟦<TextValue<'static> as MySerialize>⟧.bytes }
{}

/// Of `TextRow`.
pub fn text_row_is_written_back()
    ensures { (count : ℕ) →
        WritesBack (⟦<TextRow<'static> as MyDeserialize<'static, Global>>⟧.reads count)
        ⟦<TextRow<'static> as MySerialize>⟧.bytes }
{}

/// Of `ComQueryWithAttributes`.
pub fn com_query_with_attributes_is_written_back()
    ensures { WritesBack (⟦<ComQueryWithAttributes<'static> as MyDeserialize<'static, Global>>⟧.reads tt)
        ⟦<ComQueryWithAttributes<'static> as MySerialize>⟧.bytes }
{}
