//! That a payload is one of these packets.

ghost use Rattle.std.specs.Prelude.{None};
ghost use Rattle.wire_buf.specs.Reading.{Parses};
ghost use Rattle.mysql_wire_parts.specs.Places.{ReadsWhole};

use crate::column_count::ColumnCount;
use crate::column_definition::ColumnDefinition41;
use crate::com_query::ComQuery;
use crate::com_query_attributes::ComQueryWithAttributes;
use crate::local_infile::LocalInfileRequest;
use mysql_wire_parts::payload::Payload;
use std::alloc::Global;
use wire_buf::proto::MyDeserialize;

impl<'a> Payload<'a> for ColumnCount {
    ghost reads_whole = { λ ctx.
        ReadsWhole (Parses None (⟦<ColumnCount as MyDeserialize<'a, Global>>⟧.reads ctx)) };

    ghost is_read = { λ _ _ _ read. read };
}

impl<'a> Payload<'a> for ColumnDefinition41<'a> {
    ghost reads_whole = { λ ctx.
        ReadsWhole (Parses None (⟦<ColumnDefinition41<'a> as MyDeserialize<'a, Global>>⟧.reads ctx)) };

    ghost is_read = { λ _ _ _ read. read };
}

impl<'a> Payload<'a> for ComQuery<'a> {
    ghost reads_whole = { λ ctx.
        ReadsWhole (Parses None (⟦<ComQuery<'a> as MyDeserialize<'a, Global>>⟧.reads ctx)) };

    ghost is_read = { λ _ _ _ read. read };
}

impl<'a> Payload<'a> for ComQueryWithAttributes<'a> {
    ghost reads_whole = { λ ctx.
        ReadsWhole (Parses None (⟦<ComQueryWithAttributes<'a> as MyDeserialize<'a, Global>>⟧.reads ctx)) };

    ghost is_read = { λ _ _ _ read. read };
}

impl<'a> Payload<'a> for LocalInfileRequest<'a> {
    ghost reads_whole = { λ ctx.
        ReadsWhole (Parses None (⟦<LocalInfileRequest<'a> as MyDeserialize<'a, Global>>⟧.reads ctx)) };

    ghost is_read = { λ _ _ _ read. read };
}
