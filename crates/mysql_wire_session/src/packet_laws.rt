//! That what packets are written as is what the grammar has.
//!
//! Each function does nothing: its contract is the law, and a caller has it by calling.

ghost use Rattle.std.specs.Prelude.{◌≡◌, ◌≢◌, ◌⊎◌, ◌<◌, ℕ, [], List, None, Some, false, length, true};
ghost use Rattle.std.specs.Cow.{cow_slice_items};
ghost use Rattle.wire_buf.specs.Reading.{Parses};
ghost use Rattle.mysql_wire_packets.specs.Oks.{ok_form};
ghost use Rattle.mysql_wire_parts.specs.Optional.{has};
ghost use Rattle.mysql_wire_parts.specs.Places.{ReadsWhole};
ghost use Rattle.mysql_wire_session.specs.Advance.{is_zero};
ghost use Rattle.mysql_wire_session.specs.Grammar.{Agreed, Agrees, IsAuthentication, IsColumnCount, IsCommand, IsDefinition, IsEntry, IsEof, IsError, IsFetch, IsFileRequest, IsLogin, IsNoGreeting, IsOk, IsOkAtEnd, IsPrepared, IsReadAs, IsReport, IsRow, IsServers, IsTlsRequest, from_client, from_server};
ghost use Rattle.mysql_wire_session.specs.State.{statement_of};
ghost use Rattle.mysql_wire_session.specs.declared.packet_kind.PacketKind.TheVariants as kind;
ghost use Rattle.mysql_wire_statements.specs.declared.statement_command.StatementCommand.{StatementCommand};

use mysql_wire_connection::auth_more_data::AuthMoreData;
use mysql_wire_connection::auth_switch::AuthSwitchRequest;
use mysql_wire_connection::auth_switch_response::AuthSwitchResponse;
use mysql_wire_connection::handshake::HandshakeV10;
use mysql_wire_connection::handshake_response::HandshakeResponse41;
use mysql_wire_connection::ssl_request::SslRequest;
use mysql_wire_packets::eof_packet::EofPacket;
use mysql_wire_packets::err_packet::ErrPacket;
use mysql_wire_packets::ok_packet::{OkPacket, RowsEnd};
use mysql_wire_packets::progress_report::ProgressReport;
use mysql_wire_queries::column_count::ColumnCount;
use mysql_wire_queries::column_definition::ColumnDefinition41;
use mysql_wire_queries::com_query::ComQuery;
use mysql_wire_queries::com_query_attributes::ComQueryWithAttributes;
use mysql_wire_queries::local_infile::LocalInfileRequest;
use mysql_wire_queries::text_row::TextRow;
use mysql_wire_statements::binary_row::BinaryRow;
use mysql_wire_statements::com_stmt_close::ComStmtClose;
use mysql_wire_statements::com_stmt_execute::ComStmtExecute;
use mysql_wire_statements::com_stmt_fetch::ComStmtFetch;
use mysql_wire_statements::com_stmt_prepare::ComStmtPrepare;
use mysql_wire_statements::com_stmt_prepare_ok::ComStmtPrepareOk;
use mysql_wire_statements::com_stmt_reset::ComStmtReset;
use mysql_wire_statements::com_stmt_send_long_data::ComStmtSendLongData;
use mysql_wire_utility::com_change_user::ComChangeUser;
use mysql_wire_utility::com_init_db::ComInitDb;
use mysql_wire_utility::com_ping::ComPing;
use mysql_wire_utility::com_quit::ComQuit;
use std::alloc::Global;
use wire_buf::proto::MySerialize;
use wire_repr::wire::Wire;

/// What a value is written as is read, as a whole payload, as one that its law keeps.
pub fn payload_back<'de, T: Wire<'de, Global>>()
    ensures { (ctx : T.Ctx) (value : T) → T.is_value value → T.good ctx value []
        → IsReadAs (ReadsWhole (Parses T.Size.SIZE (T.reads ctx)) (T.bytes value)) (T.kept value) }
{}

/// An `EofPacket` is an EOF with its flags.
pub fn eof_packet_in_grammar(eof: &EofPacket)
    ensures { (id : ℕ) → IsEof (λ flags. flags ≡ eof.now.status_flags.0)
        (from_server id kind.Eof (⟦<EofPacket as MySerialize>⟧.bytes eof.now)) }
{
    payload_back::<EofPacket>();
    Wire::<'_, Global>::known(eof);
}

/// An `OkPacket` that is good under the capabilities is an OK, and another result follows where its
/// flags say so; a client that it answers is in.
pub fn ok_packet_in_grammar(ok: &OkPacket<'_>)
    ensures done { (id : ℕ) (agreed : Agreed)
        → ⟦<OkPacket<'static> as Wire<'static, Global>>⟧.good (ok_form agreed.capabilities) ok.now []
        → IsOk agreed (has ok.now.status_flags.0 0x8)
        (from_server id kind.Ok (⟦<OkPacket<'static> as MySerialize>⟧.bytes ok.now)) }
    ensures enters { (id : ℕ) (agreed : Agreed)
        → ⟦<OkPacket<'static> as Wire<'static, Global>>⟧.good (ok_form agreed.capabilities) ok.now []
        → IsEntry agreed
        (from_server id kind.Ok (⟦<OkPacket<'static> as MySerialize>⟧.bytes ok.now)) }
{
    payload_back::<OkPacket<'_>>();
    Wire::<'_, Global>::known(ok);
}

/// A `RowsEnd` of less than a full chunk that is good under the capabilities is an OK in the place of
/// an EOF.
pub fn rows_end_in_grammar(end: &RowsEnd<'_>)
    ensures { (id : ℕ) (agreed : Agreed)
        → ⟦<RowsEnd<'static> as Wire<'static, Global>>⟧.good (ok_form agreed.capabilities) end.now []
        → length (⟦<RowsEnd<'static> as MySerialize>⟧.bytes end.now) < 0xffffff
        → IsOkAtEnd agreed (has end.now.status_flags.0 0x8)
        (from_server id kind.Eof (⟦<RowsEnd<'static> as MySerialize>⟧.bytes end.now)) }
{
    payload_back::<RowsEnd<'_>>();
    Wire::<'_, Global>::known(end);
}

/// An `ErrPacket` of another number than 65535 is an error; one with no state in place of a greeting
/// too.
pub fn err_packet_in_grammar(error: &ErrPacket<'_>)
    ensures later { (id : ℕ) → error.now.error_code ≢ 65535 → IsError
        (from_server id kind.Error (⟦<ErrPacket<'static> as MySerialize>⟧.bytes error.now)) }
    ensures first { error.now.error_code ≢ 65535 → error.now.sql_state ≡ None → IsNoGreeting
        (from_server 0 kind.Error (⟦<ErrPacket<'static> as MySerialize>⟧.bytes error.now)) }
{
    payload_back::<ErrPacket<'_>>();
    Wire::<'_, Global>::known(error);
}

/// A `ColumnCount` that is good under the capabilities, of some columns, whose definitions follow or
/// were told before.
pub fn column_count_in_grammar(count: &ColumnCount)
    ensures { (id : ℕ) (agreed : Agreed)
        → ⟦<ColumnCount as Wire<'static, Global>>⟧.good (agreed.capabilities, agreed.mariadb)
        count.now []
        → 0 < count.now.column_count
        → (count.now.metadata_follows ≡ None) ⊎ (count.now.metadata_follows ≡ Some 1)
        → IsColumnCount agreed (is_zero count.now.mariadb_metadata_follows) count.now.column_count
        (from_server id kind.ColumnCount (⟦<ColumnCount as MySerialize>⟧.bytes count.now)) }
{
    payload_back::<ColumnCount>();
    Wire::<'_, Global>::known(count);
}

/// A `ComStmtPrepareOk` says how many parameters and columns the statement has.
pub fn prepare_ok_in_grammar(prepared: &ComStmtPrepareOk)
    ensures { (id : ℕ) → IsPrepared prepared.now.num_params prepared.now.num_columns
        (from_server id kind.Prepared (⟦<ComStmtPrepareOk as MySerialize>⟧.bytes prepared.now)) }
{
    payload_back::<ComStmtPrepareOk>();
    Wire::<'_, Global>::known(prepared);
}

/// A `LocalInfileRequest` is a request for a file.
pub fn infile_request_in_grammar(request: &LocalInfileRequest<'_>)
    ensures { (id : ℕ) → IsFileRequest (from_server id kind.LocalInfile
        (⟦<LocalInfileRequest<'static> as MySerialize>⟧.bytes request.now)) }
{
    payload_back::<LocalInfileRequest<'_>>();
    Wire::<'_, Global>::known(request);
}

/// A `ColumnDefinition41` is a definition of a column.
pub fn column_definition_in_grammar(column: &ColumnDefinition41<'_>)
    ensures { (id : ℕ) → IsDefinition (from_server id kind.Column
        (⟦<ColumnDefinition41<'static> as MySerialize>⟧.bytes column.now)) }
{}

/// A `TextRow` of some values is a row of a query's answer.
pub fn text_row_in_grammar(row: &TextRow<'_>)
    ensures { (id : ℕ) → cow_slice_items row.now.values.0 ≢ [] → IsRow false
        (from_server id kind.Row (⟦<TextRow<'static> as MySerialize>⟧.bytes row.now)) }
{}

/// A `HandshakeResponse41` that is good is a login that agrees on what it says.
pub fn login_in_grammar(login: &HandshakeResponse41<'_>)
    ensures { (id : ℕ) (agreed : Agreed) → id ≢ 0 → Agrees agreed login.now
        → ⟦<HandshakeResponse41<'static> as Wire<'static, Global>>⟧.good tt login.now []
        → length (⟦<HandshakeResponse41<'static> as MySerialize>⟧.bytes login.now) ≢ 32
        → IsLogin agreed (from_client id kind.Login
        (⟦<HandshakeResponse41<'static> as MySerialize>⟧.bytes login.now)) }
{
    payload_back::<HandshakeResponse41<'_>>();
    Wire::<'_, Global>::known(login);
}

/// An `SslRequest` with its flag is a request for TLS.
pub fn tls_request_in_grammar(request: &SslRequest)
    ensures { (id : ℕ) → id ≢ 0 → has request.now.client_flag.0 0x800 ≡ true
        → IsTlsRequest (from_client id kind.TlsRequest
        (⟦<SslRequest as MySerialize>⟧.bytes request.now)) }
{
    payload_back::<SslRequest>();
    Wire::<'_, Global>::known(request);
}

/// A `ComStmtFetch` of a statement that is known.
pub fn fetch_in_grammar(fetch: &ComStmtFetch)
    ensures { (statements : List ComStmtPrepareOk) (statement : ComStmtPrepareOk)
        → statement_of fetch.now.statement_id statements ≡ Some statement
        → IsFetch statements (from_client 0 kind.Fetch
        (⟦<ComStmtFetch as MySerialize>⟧.bytes fetch.now)) }
{
    payload_back::<ComStmtFetch>();
    Wire::<'_, Global>::known(fetch);
}

/// What both sides send until the client is in, and a `ProgressReport` and a `BinaryRow`.
pub fn first_bytes_in_grammar()
    ensures greeting { (id : ℕ) (greeting : HandshakeV10) → IsServers 0x0a kind.Greeting
        (from_server id kind.Greeting (⟦<HandshakeV10<'static> as MySerialize>⟧.bytes greeting)) }
    ensures switch { (id : ℕ) (request : AuthSwitchRequest) → IsAuthentication
        (from_server id kind.AuthSwitch
        (⟦<AuthSwitchRequest<'static> as MySerialize>⟧.bytes request)) }
    ensures more { (id : ℕ) (more : AuthMoreData) → IsAuthentication
        (from_server id kind.AuthMoreData (⟦<AuthMoreData<'static> as MySerialize>⟧.bytes more)) }
    ensures answer { (id : ℕ) (answer : AuthSwitchResponse) → id ≢ 0 → IsAuthentication
        (from_client id kind.AuthAnswer
        (⟦<AuthSwitchResponse<'static> as MySerialize>⟧.bytes answer)) }
    ensures report { (id : ℕ) (report : ProgressReport) → IsReport
        (from_server id kind.Progress (⟦<ProgressReport<'static> as MySerialize>⟧.bytes report)) }
    ensures row { (id : ℕ) (row : BinaryRow) → IsRow true
        (from_server id kind.BinaryRow (⟦<BinaryRow<'static> as MySerialize>⟧.bytes row)) }
{}

/// Commands, begun by their numbers.
pub fn commands_in_grammar()
    ensures quit { (command : ComQuit) → IsCommand 0x01 kind.Quit
        (from_client 0 kind.Quit (⟦<ComQuit as MySerialize>⟧.bytes command)) }
    ensures init_db { (command : ComInitDb) → IsCommand 0x02 kind.InitDatabase
        (from_client 0 kind.InitDatabase (⟦<ComInitDb<'static> as MySerialize>⟧.bytes command)) }
    ensures query { (command : ComQuery) → IsCommand 0x03 kind.Query
        (from_client 0 kind.Query (⟦<ComQuery<'static> as MySerialize>⟧.bytes command)) }
    ensures attributed_query { (command : ComQueryWithAttributes) → IsCommand 0x03 kind.Query
        (from_client 0 kind.Query
        (⟦<ComQueryWithAttributes<'static> as MySerialize>⟧.bytes command)) }
    ensures ping { (command : ComPing) → IsCommand 0x0e kind.Ping
        (from_client 0 kind.Ping (⟦<ComPing as MySerialize>⟧.bytes command)) }
    ensures change_user { (command : ComChangeUser) → IsCommand 0x11 kind.ChangeUser
        (from_client 0 kind.ChangeUser (⟦<ComChangeUser<'static> as MySerialize>⟧.bytes command)) }
    ensures prepare { (command : ComStmtPrepare) → IsCommand 0x16 kind.Prepare
        (from_client 0 kind.Prepare (⟦<ComStmtPrepare<'static> as MySerialize>⟧.bytes command)) }
    ensures execute { (command : ComStmtExecute) → IsCommand 0x17 kind.Execute
        (from_client 0 kind.Execute (⟦<ComStmtExecute<'static> as MySerialize>⟧.bytes command)) }
    ensures long_data { (command : ComStmtSendLongData) → IsCommand 0x18 kind.LongData
        (from_client 0 kind.LongData
        (⟦<ComStmtSendLongData<'static> as MySerialize>⟧.bytes command)) }
    ensures close { (command : StatementCommand 0x19) → IsCommand 0x19 kind.CloseStatement
        (from_client 0 kind.CloseStatement (⟦<ComStmtClose as MySerialize>⟧.bytes command)) }
    ensures reset { (command : StatementCommand 0x1a) → IsCommand 0x1a kind.ResetStatement
        (from_client 0 kind.ResetStatement (⟦<ComStmtReset as MySerialize>⟧.bytes command)) }
{}
