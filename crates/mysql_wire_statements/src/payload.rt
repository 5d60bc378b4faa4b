//! That a payload is one of these packets.

ghost use Rattle.std.specs.Prelude.{None};
ghost use Rattle.wire_buf.specs.Reading.{Parses};
ghost use Rattle.mysql_wire_parts.specs.Places.{ReadsWhole};

use crate::binary_row::BinaryRow;
use crate::com_stmt_execute::ComStmtExecute;
use crate::com_stmt_fetch::ComStmtFetch;
use crate::com_stmt_prepare::ComStmtPrepare;
use crate::com_stmt_prepare_ok::ComStmtPrepareOk;
use crate::com_stmt_send_long_data::ComStmtSendLongData;
use crate::statement_command::StatementCommand;
use mysql_wire_parts::payload::Payload;
use std::alloc::Global;
use wire_buf::proto::MyDeserialize;

impl<'a> Payload<'a> for BinaryRow<'a> {
    ghost reads_whole = { λ ctx.
        ReadsWhole (Parses None (⟦<BinaryRow<'a> as MyDeserialize<'a, Global>>⟧.reads ctx)) };

    ghost is_read = { λ _ _ _ read. read };
}

impl<'a> Payload<'a> for ComStmtExecute<'a> {
    ghost reads_whole = { λ ctx.
        ReadsWhole (Parses None (⟦<ComStmtExecute<'a> as MyDeserialize<'a, Global>>⟧.reads ctx)) };

    ghost is_read = { λ _ _ _ read. read };
}

impl<'a> Payload<'a> for ComStmtFetch {
    ghost reads_whole = { λ ctx.
        ReadsWhole (Parses None (⟦<ComStmtFetch as MyDeserialize<'a, Global>>⟧.reads ctx)) };

    ghost is_read = { λ _ _ _ read. read };
}

impl<'a> Payload<'a> for ComStmtPrepare<'a> {
    ghost reads_whole = { λ ctx.
        ReadsWhole (Parses None (⟦<ComStmtPrepare<'a> as MyDeserialize<'a, Global>>⟧.reads ctx)) };

    ghost is_read = { λ _ _ _ read. read };
}

impl<'a> Payload<'a> for ComStmtPrepareOk {
    ghost reads_whole = { λ ctx.
        ReadsWhole (Parses None (⟦<ComStmtPrepareOk as MyDeserialize<'a, Global>>⟧.reads ctx)) };

    ghost is_read = { λ _ _ _ read. read };
}

impl<'a> Payload<'a> for ComStmtSendLongData<'a> {
    ghost reads_whole = { λ ctx.
        ReadsWhole (Parses None (⟦<ComStmtSendLongData<'a> as MyDeserialize<'a, Global>>⟧.reads ctx)) };

    ghost is_read = { λ _ _ _ read. read };
}

impl<'a, const HEADER: u8> Payload<'a> for StatementCommand<HEADER> {
    ghost reads_whole = { λ ctx.
        ReadsWhole (Parses None (⟦<StatementCommand<HEADER> as MyDeserialize<'a, Global>>⟧.reads ctx)) };

    ghost is_read = { λ _ _ _ read. read };
}
