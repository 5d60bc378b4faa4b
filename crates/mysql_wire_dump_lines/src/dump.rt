//! A session, packet by packet.

ghost use Rattle.std.specs.Prelude.{◌≡◌, ◌≢◌, ◌<◌, ◌≤◌, ◌⊎◌, ◌++◌, ◌∷◌, ℕ, List, [], length, take, drop, IfOk, IfSome, OnOk, string_bytes, false, true};
ghost use Rattle.std.specs.Str.{IsUtf8};
ghost use Rattle.std.specs.Io.KnownBytes.{Appends};
ghost use Rattle.mysql_wire_dump_lines.specs.Dumped.{DumpEnds, Dumps, DumpsOver, ending_lines, field_form, status_of};
ghost use Rattle.mysql_wire_dump_lines.specs.Dumping.{GoesOver, IsCalled, PutsRow, ShowsFields, StartsDump, Tells, TellsRow, WritesFields, WritesRow, is_refused};
ghost use Rattle.mysql_wire_dump_lines.specs.Packets.{PutsPacket};
ghost use Rattle.mysql_wire_session.specs.Readings.{advanced};
ghost use Rattle.mysql_wire_session.specs.State.{state_of};
ghost use Rattle.mysql_wire_dump_lines.specs.Lines.{packet_line};
ghost use Rattle.mysql_wire_dump_lines.specs.Status.{end_status};
ghost use Rattle.mysql_wire_session.specs.declared.packet_kind.PacketKind.TheVariants.{Row};

use crate::lines::{LineForm, Seen, push_end, push_ending, push_head, push_packet};
use crate::next_sender::next_sender;
use crate::options::{Options, Sides};
use crate::packet_stream::{End, Next, PacketStream};
use crate::show::{show_packet, show_row, write_row};
use crate::status::{Stop, exit_status, stop_of};
use mysql_wire_session::packet::{Received, forget};
use mysql_wire_session::packet_kind::PacketKind;
use mysql_wire_session::phase::Phase;
use mysql_wire_session::session::Session;
use mysql_wire_session::side::Side;
use std::alloc::{AllocError, Allocator, Global};
use std::io::{Read, Write};
use std::mem;
use wire_text::fields::{FieldForm, Fields};

// How many bytes of text are written at a time.
const WRITE_SIZE: usize = 65536;

// A session, and the lines of its packets that are not written yet.
#[derive(Drop)]
struct SessionLines<A: Allocator + Copy> {
    // Packets are read with it, which takes no memory.
    global: Global,
    options: Options,
    session: Session<A>,
    text: String<A>,
}

// Both directions, and the lines of their session.
#[derive(Drop)]
struct Dump<A: Allocator + Copy> {
    client: PacketStream<A>,
    server: PacketStream<A>,
    lines: SessionLines<A>,
}

// How fields are shown.
fn field_form(options: Options) -> FieldForm
    ensures { result ≡ field_form options }
{
    match (options.has_fields, options.form) {
        (false, _) => FieldForm::Hidden,
        (true, LineForm::Text) => FieldForm::Text,
        (true, LineForm::Json) => FieldForm::Json,
    }
}

// Whether a packet is shown as one that the type of its place refuses.
fn is_refused(kind: PacketKind) -> bool
    ensures { result ≡ is_refused kind }
{
    matches!(kind, PacketKind::Refused(_))
}

// Puts the fields of a packet that came, and goes on after it.
fn show_received<A: Allocator + Copy>(
    global: Global,
    session: &mut Session<A>,
    fields: &mut Fields<A>,
    received: &Received<'_>,
) -> Result<PacketKind, Stop>
    ensures puts { IfOk result (PutsPacket session.old.types.items received.now.kind
        received.now.payload.now received.now.packet fields.old fields.new) }
    ensures goes { OnOk result (state_of session.new
        ≡ advanced received.now (state_of session.old)) }
{
    match show_packet(global, fields, session.column_types(), received) {
        Ok(kind) => match session.advance(received) {
            Ok(()) => Ok(kind),
            Err(error) => Err(stop_of(error)),
        },
        Err(error) => Err(stop_of(error)),
    }
}

// Reads a packet and puts its fields, and goes on after it.
fn show_other<A: Allocator + Copy>(
    global: Global,
    session: &mut Session<A>,
    fields: &mut Fields<A>,
    came: (Side, u8),
    payload: &[u8],
) -> Result<PacketKind, Stop>
    ensures { IfOk result (Tells came.0 came.1 payload.now (state_of session.old)
        (state_of session.new) fields.old fields.new) }
{
    match session.read(came.0, came.1, payload) {
        Ok(received) => {
            let told = show_received(global, session, fields, &received);
            forget(received);
            told
        }
        Err(error) => Err(stop_of(error)),
    }
}

// Reads a row of this kind and puts its fields. The answer is what it is shown as.
#[inline(always)]
fn put_row_of<A: Allocator + Copy>(
    global: Global,
    session: &Session<A>,
    fields: &mut Fields<A>,
    kind: PacketKind,
    payload: &[u8],
) -> Result<PacketKind, Stop>
    ensures { IfOk result (PutsRow kind payload.now (state_of session.now)
        fields.old fields.new) }
{
    match session.read_row(kind, payload) {
        Ok(row) => match show_row(global, fields, session.column_types(), kind, &row) {
            Ok(kind) => Ok(kind),
            Err(error) => Err(stop_of(error)),
        },
        Err(error) => Err(stop_of(error)),
    }
}

// The same of any kind of row: one of texts, of which there are many, is not asked again what it is.
fn put_row<A: Allocator + Copy>(
    global: Global,
    session: &Session<A>,
    fields: &mut Fields<A>,
    kind: PacketKind,
    payload: &[u8],
) -> Result<PacketKind, Stop>
    ensures { IfOk result (PutsRow kind payload.now (state_of session.now)
        fields.old fields.new) }
{
    match kind {
        PacketKind::Row => put_row_of(global, session, fields, PacketKind::Row, payload),
        _ => put_row_of(global, session, fields, kind, payload),
    }
}

// Reads a row of this kind and puts its fields, and goes on after it.
fn show_row_of<A: Allocator + Copy>(
    global: Global,
    session: &mut Session<A>,
    fields: &mut Fields<A>,
    came: (Side, u8, PacketKind),
    payload: &[u8],
) -> Result<PacketKind, Stop>
    ensures { IfOk result (TellsRow came.0 came.1 came.2 payload.now (state_of session.old)
        (state_of session.new) fields.old fields.new) }
{
    let kind = put_row(global, session, fields, came.2, payload)?;
    session.advance_by_kind(came.0, came.1, came.2, payload.len());
    Ok(kind)
}

// Reads a packet that is called this and puts its fields, and goes on after it.
fn read_and_show<A: Allocator + Copy>(
    global: Global,
    session: &mut Session<A>,
    fields: &mut Fields<A>,
    came: (Side, u8, PacketKind),
    payload: &[u8],
) -> Result<PacketKind, Stop>
    ensures { IsCalled came payload.now (state_of session.old)
        → IfOk result (Tells came.0 came.1 payload.now (state_of session.old)
        (state_of session.new) fields.old fields.new) }
{
    match came.2 {
        PacketKind::Row | PacketKind::BinaryRow => {
            show_row_of(global, session, fields, came, payload)
        }
        _ => show_other(global, session, fields, (came.0, came.1), payload),
    }
}

// The same of a row that may have long texts: all but an end of what was put may be written.
fn write_row_of<A: Allocator + Copy, W: Write>(
    global: Global,
    session: &mut Session<A>,
    fields: &mut Fields<A>,
    came: (Side, u8, PacketKind),
    payload: &[u8],
    output: &mut W,
) -> Result<PacketKind, Stop>
    ensures { IfOk result (WritesRow came.0 came.1 came.2 payload.now (state_of session.old)
        (state_of session.new) fields.old fields.new
        (W.contents output.old) (W.contents output.new)) }
{
    let row = match session.read_row(came.2, payload) {
        Ok(row) => row,
        Err(error) => return Err(stop_of(error)),
    };
    let types = session.column_types();
    match write_row(global, fields, types, came.2, &row, output) {
        Ok(kind) => {
            session.advance_by_kind(came.0, came.1, came.2, payload.len());
            Ok(kind)
        }
        Err(error) => Err(stop_of(error)),
    }
}

// All fields of such a row, after a text; the session goes on after it.
fn write_fields<A: Allocator + Copy, W: Write>(
    global: Global,
    session: &mut Session<A>,
    fields: &mut Fields<A>,
    came: (Side, u8, PacketKind),
    payload: &[u8],
    output: &mut W,
) -> Result<PacketKind, Stop>
    requires { came.2 ≡ Row }
    ensures { IsCalled came payload.now (state_of session.old)
        → IfOk result (WritesFields came.0 came.1 payload.now (state_of session.old)
        (state_of session.new) fields.old fields.new
        (W.contents output.old) (W.contents output.new)) }
{
    let kind = write_row_of(global, session, fields, came, payload, output)?;
    fields.end()?;
    Ok(kind)
}

// All fields of a packet that is called this, after a text; the session goes on after it.
fn show_fields<A: Allocator + Copy>(
    global: Global,
    session: &mut Session<A>,
    fields: &mut Fields<A>,
    came: (Side, u8, PacketKind),
    payload: &[u8],
) -> Result<PacketKind, Stop>
    ensures { IsCalled came payload.now (state_of session.old)
        → IfOk result (ShowsFields came.0 came.1 payload.now (state_of session.old)
        (state_of session.new) fields.old fields.new) }
{
    let kind = read_and_show(global, session, fields, came, payload)?;
    fields.end()?;
    Ok(kind)
}

// Makes the line of a packet that is refused, of which a text has all but the end as of one that is
// none: it begins at one place, and its fields at another.
#[cold]
fn push_again<A: Allocator + Copy>(
    text: &mut String<A>,
    begun: usize,
    head: usize,
    form: LineForm,
    came: (Side, u8, PacketKind),
    len: usize,
    payload: &[u8],
) -> Result<(), AllocError>
    requires begun { IsUtf8 (take begun (string_bytes text.old)) }
    requires head { IsUtf8 (take head (string_bytes text.old)) }
    requires order { begun ≤ head }
    requires within { head ≤ length (string_bytes text.old) }
    ensures { OnOk result (string_bytes text.new ≡ take begun (string_bytes text.old)
        ++ packet_line form (record { side = came.0; id = came.1; len = len; kind = came.2 })
        payload.now (drop head (string_bytes text.old))) }
{
    let seen = Seen {
        side: came.0,
        id: came.1,
        len,
        kind: came.2,
    };
    let fields = text.split_off(head)?;
    text.truncate(begun);
    push_packet(text, form, &seen, payload, fields.as_str())
}

impl<A: Allocator + Copy> SessionLines<A> {
    ghost use Rattle.mysql_wire_dump_lines.specs.Dumping.{PushesFields, PushesRead, ShowsNext, WritesRead, WritesTheFields};
    ghost use Rattle.mysql_wire_session.specs.Readings.{kind_of, passed};
    ghost use Rattle.mysql_wire_session.specs.declared.packet_kind.PacketKind.TheVariants.{Row, TooLarge};

    // Appends the line of a packet that is passed over.
    #[cold]
    fn push_passed(&mut self, side: Side, id: u8, len: usize) -> Result<(), AllocError>
        ensures goes { state_of self.new.session ≡ passed side id len (state_of self.old.session) }
        ensures line { OnOk result (string_bytes self.new.text ≡ string_bytes self.old.text
            ++ packet_line self.old.options.form
            (record { side = side; id = id; len = len; kind = TooLarge }) [] []) }
        ensures options { self.new.options ≡ self.old.options }
    {
        self.session.pass(side, id, len);
        let seen = Seen {
            side,
            id,
            len,
            kind: PacketKind::TooLarge,
        };
        push_packet(&mut self.text, self.options.form, &seen, &[], "")
    }

    // Appends the fields of a packet that is called this, and goes on after it. The answer is what it
    // is shown as.
    fn push_fields(
        &mut self,
        came: (Side, u8, PacketKind),
        payload: &[u8],
    ) -> Result<PacketKind, Stop>
        ensures shows { IsCalled came payload.now (state_of self.old.session)
            → IfOk result (PushesFields came.0 came.1 payload.now self.old self.new) }
        ensures options { self.new.options ≡ self.old.options }
    {
        let alloc = *self.text.allocator();
        let text = mem::replace(&mut self.text, String::new(alloc));
        let mut fields = Fields::after(field_form(self.options), text);
        let shown = show_fields(self.global, &mut self.session, &mut fields, came, payload);
        self.text = fields.into_text();
        shown
    }

    // Appends the line of a packet that came, and goes on after it.
    fn push_read(&mut self, side: Side, id: u8, len: usize, payload: &[u8]) -> Result<(), Stop>
        ensures { OnOk result (PushesRead side id len payload.now self.old self.new) }
    {
        let kind = self.session.classify(side, id, payload.len(), payload);
        let seen = Seen {
            side,
            id,
            len,
            kind,
        };
        let form = self.options.form;
        let begun = self.text.len();
        push_head(&mut self.text, form, &seen, payload)?;
        let head = self.text.len();
        let kind = self.push_fields((side, id, kind), payload)?;
        if is_refused(kind) {
            let came = (side, id, kind);
            push_again(&mut self.text, begun, head, form, came, len, payload)?;
        } else {
            push_end(&mut self.text, form)?;
        }
        Ok(())
    }

    // Whether a packet that came is a row of texts whose fields are shown, and no value is refused.
    #[cold]
    fn is_shown_row(&self, side: Side, id: u8, payload: &[u8]) -> Result<bool, Stop>
        ensures { IfOk result (λ is. is ≡ true
            → kind_of side id payload.now (state_of self.now.session) ≡ Row) }
    {
        let kind = self.session.classify(side, id, payload.len(), payload);
        if !self.options.has_fields || !matches!(kind, PacketKind::Row) {
            return Ok(false);
        }
        let row = match self.session.read_row(kind, payload) {
            Ok(row) => row,
            Err(error) => return Err(stop_of(error)),
        };
        let mut hidden = Fields::new(*self.text.allocator());
        let types = self.session.column_types();
        match show_row(self.global, &mut hidden, types, kind, &row) {
            Ok(shown) => Ok(!is_refused(shown)),
            Err(error) => Err(stop_of(error)),
        }
    }

    // Puts the fields of such a row, and goes on after it: all but an end of the text is written. The
    // answer is what it is shown as.
    fn write_fields<W: Write>(
        &mut self,
        side: Side,
        id: u8,
        payload: &[u8],
        output: &mut W,
    ) -> Result<PacketKind, Stop>
        requires { kind_of side id payload.now (state_of self.old.session) ≡ Row }
        ensures writes { IfOk result (WritesTheFields side id payload.now self.old self.new
            (W.contents output.old) (W.contents output.new)) }
        ensures options { self.new.options ≡ self.old.options }
    {
        let form = field_form(self.options);
        let alloc = *self.text.allocator();
        let text = mem::replace(&mut self.text, String::new(alloc));
        let mut fields = Fields::after(form, text);
        let came = (side, id, PacketKind::Row);
        let (global, session) = (self.global, &mut self.session);
        let shown = write_fields(global, session, &mut fields, came, payload, output);
        self.text = fields.into_text();
        shown
    }

    // Writes the line of such a row but an end, and goes on after it.
    #[cold]
    fn write_row<W: Write>(
        &mut self,
        side: Side,
        id: u8,
        len: usize,
        payload: &[u8],
        output: &mut W,
    ) -> Result<(), Stop>
        requires { kind_of side id payload.now (state_of self.old.session) ≡ Row }
        ensures { OnOk result (WritesRead side id len payload.now self.old self.new
            (W.contents output.old) (W.contents output.new)) }
    {
        let seen = Seen {
            side,
            id,
            len,
            kind: PacketKind::Row,
        };
        let form = self.options.form;
        push_head(&mut self.text, form, &seen, payload)?;
        let kind = self.write_fields(side, id, payload, output)?;
        if is_refused(kind) {
            // Its values were read before, and none was.
            return Err(Stop::Io);
        }
        push_end(&mut self.text, form)?;
        Ok(())
    }

    // Appends the line of a packet that came, and goes on after it; of a long row all but an end is
    // written.
    fn show_read<W: Write>(
        &mut self,
        side: Side,
        id: u8,
        len: usize,
        payload: &[u8],
        output: &mut W,
    ) -> Result<(), Stop>
        ensures { OnOk result (WritesRead side id len payload.now self.old self.new
            (W.contents output.old) (W.contents output.new)) }
    {
        if payload.len() >= WRITE_SIZE && self.is_shown_row(side, id, payload)? {
            self.write_row(side, id, len, payload, output)
        } else {
            self.push_read(side, id, len, payload)
        }
    }

    // Appends the line of a stream's next packet, and goes on after it; of a long row all but an end
    // is written.
    fn show_next<W: Write>(
        &mut self,
        side: Side,
        source: &PacketStream<A>,
        output: &mut W,
    ) -> Result<(), Stop>
        ensures { OnOk result (ShowsNext side source.now self.old self.new
            (W.contents output.old) (W.contents output.new)) }
    {
        let Some(id) = source.next_id() else {
            return Err(Stop::Io);
        };
        let len = source.payload_len();
        match source.payload() {
            Some(payload) => self.show_read(side, id, len, payload, output),
            None => Ok(self.push_passed(side, id, len)?),
        }
    }
}

impl<A: Allocator + Copy> Dump<A> {
    ghost use Rattle.mysql_wire_dump_lines.specs.Dumping.{ShowsPacket, WritesMuch};
    ghost use Rattle.mysql_wire_dump_lines.specs.NextSenders.{next_sender};
    ghost use Rattle.mysql_wire_session.specs.declared.side.Side.TheVariants.{Client, Server};
    ghost use Rattle.mysql_wire_dump_lines.specs.PacketStreams.{id_of};
    ghost use Rattle.mysql_wire_dump_lines.specs.declared.packet_stream.Next.TheVariants.{Ended};

    fn new(alloc: A, global: Global, options: Options) -> Self
        ensures starts { StartsDump options result }
    {
        Dump {
            client: PacketStream::new(alloc, options.limit),
            server: PacketStream::new(alloc, options.limit),
            lines: SessionLines {
                global,
                options,
                session: Session::new(alloc, global),
                text: String::new(alloc),
            },
        }
    }

    // Whose packet is next.
    fn next_sender(&self) -> Option<Side>
        ensures { result ≡ next_sender self.now.lines.session.phase self.now.lines.session.next_id
            (id_of self.now.client.next) (id_of self.now.server.next) }
    {
        next_sender(
            self.lines.session.phase(),
            self.lines.session.next_id(),
            self.client.next_id(),
            self.server.next_id(),
        )
    }

    // Shows the client's next packet, and goes on after it.
    fn show_client<W: Write>(&mut self, output: &mut W) -> Result<(), Stop>
        ensures { OnOk result (ShowsPacket Client self.old self.new
            (W.contents output.old) (W.contents output.new)) }
    {
        self.lines.show_next(Side::Client, &self.client, output)?;
        self.client.advance()?;
        Ok(())
    }

    // Shows the server's next packet, and goes on after it.
    fn show_server<W: Write>(&mut self, output: &mut W) -> Result<(), Stop>
        ensures { OnOk result (ShowsPacket Server self.old self.new
            (W.contents output.old) (W.contents output.new)) }
    {
        self.lines.show_next(Side::Server, &self.server, output)?;
        self.server.advance()?;
        Ok(())
    }

    // Shows the next packet of a side.
    fn show<W: Write>(&mut self, side: Side, output: &mut W) -> Result<(), Stop>
        ensures { OnOk result (ShowsPacket side self.old self.new
            (W.contents output.old) (W.contents output.new)) }
    {
        match side {
            Side::Client => self.show_client(output),
            Side::Server => self.show_server(output),
        }
    }

    // Writes the text.
    #[cold]
    fn write_text<W: Write>(&mut self, output: &mut W) -> Result<(), Stop>
        ensures { OnOk result (WritesMuch W.contents self.old output.old self.new output.new) }
    {
        let text = &mut self.lines.text;
        output.write_all(text.as_bytes())?;
        text.clear();
        Ok(())
    }

    // Writes the text, where there is much of it.
    fn write_much<W: Write>(&mut self, output: &mut W) -> Result<(), Stop>
        ensures { OnOk result (WritesMuch W.contents self.old output.old self.new output.new) }
    {
        if self.lines.text.len() < WRITE_SIZE {
            return Ok(());
        }
        self.write_text(output)
    }

    // Why the client has no more packets, and the server.
    fn ends(&self) -> Option<(End, End)>
        ensures { IfSome result (λ ends. (self.now.client.next ≡ Ended ends.0)
            × (self.now.server.next ≡ Ended ends.1)) }
    {
        match (self.client.next(), self.server.next()) {
            (Next::Ended(client), Next::Ended(server)) => Some((client, server)),
            _ => None,
        }
    }
}

// Shows the next packet. The answer is whether there may be more.
fn show_next<A: Allocator + Copy, R: Read, S: Read, W: Write>(
    dump: &mut Dump<A>,
    client: &mut R,
    server: &mut S,
    output: &mut W,
) -> Result<bool, Stop>
    ensures goes { IfOk result (GoesOver R.remaining S.remaining W.contents
        dump.old client.old server.old output.old dump.new client.new server.new output.new) }
    ensures options { OnOk result (dump.new.lines.options ≡ dump.old.lines.options) }
{
    dump.client.peek(client)?;
    dump.server.peek(server)?;
    let Some(side) = dump.next_sender() else {
        return Ok(false);
    };
    dump.show(side, output)?;
    dump.write_much(output)?;
    if dump.lines.session.phase() == Phase::Encrypted {
        dump.client.hide();
        dump.server.hide();
        return Ok(false);
    }
    Ok(true)
}

// Shows all packets of both sides.
fn show_all<A: Allocator + Copy, R: Read, S: Read, W: Write>(
    dump: &mut Dump<A>,
    client: &mut R,
    server: &mut S,
    output: &mut W,
) -> Result<(), Stop>
    ensures goes { OnOk result (GoesOver R.remaining S.remaining W.contents
        dump.old client.old server.old output.old dump.new client.new server.new output.new
        false) }
    ensures options { OnOk result (dump.new.lines.options ≡ dump.old.lines.options) }
{
    'packets: for _ in 0..u64::MAX {
        if !show_next(dump, client, server, output)? {
            return Ok(());
        }
    }
    Err(Stop::Io)
}

// The status of a side that ends so.
fn end_status(end: End) -> u8
    ensures { result ≡ end_status end }
{
    match end {
        End::Between | End::Encrypted => 0,
        End::Unfinished => 3,
        End::OutOfSync => 5,
    }
}

// Appends how the sides end.
fn push_endings<A: Allocator + Copy>(
    text: &mut String<A>,
    form: LineForm,
    sides: Sides,
    client: (End, u64),
    server: (End, u64),
) -> Result<(), AllocError>
    ensures { OnOk result (string_bytes text.new ≡ string_bytes text.old
        ++ ending_lines form sides client.0 client.1 server.0 server.1) }
{
    match sides {
        Sides::Client => push_ending(text, form, Side::Client, client.0, client.1),
        Sides::Server => push_ending(text, form, Side::Server, server.0, server.1),
        Sides::Both => {
            push_ending(text, form, Side::Client, client.0, client.1)?;
            push_ending(text, form, Side::Server, server.0, server.1)
        }
    }
}

// The exit status where the sides end so.
fn status_of(sides: Sides, client: End, server: End) -> u8
    ensures { result ≡ status_of sides client server }
{
    match sides {
        Sides::Client => end_status(client),
        Sides::Server => end_status(server),
        Sides::Both => end_status(client).max(end_status(server)),
    }
}

// Shows what a dump that begins is given, and how each of its sides ends. The answer is the exit
// status.
fn show_whole<A: Allocator + Copy, R: Read, S: Read, W: Write>(
    dump: &mut Dump<A>,
    options: Options,
    sides: Sides,
    client: &mut R,
    server: &mut S,
    output: &mut W,
) -> Result<u8, Stop>
    ensures { IfOk result (λ status. StartsDump options dump.old → DumpsOver options sides
        R.remaining S.remaining W.contents client.old server.old output.old
        client.new server.new output.new status) }
{
    show_all(dump, client, server, output)?;
    let Some((client_end, server_end)) = dump.ends() else {
        return Err(Stop::Io);
    };
    let of_client = (client_end, dump.client.place());
    let of_server = (server_end, dump.server.place());
    push_endings(
        &mut dump.lines.text,
        options.form,
        sides,
        of_client,
        of_server,
    )?;
    output.write_all(dump.lines.text.as_bytes())?;
    output.flush()?;
    Ok(status_of(sides, client_end, server_end))
}

// Shows a session, and how each of its sides ends. The answer is the exit status.
fn show_session<A: Allocator + Copy, R: Read, S: Read, W: Write>(
    alloc: A,
    global: Global,
    options: Options,
    sides: Sides,
    client: &mut R,
    server: &mut S,
    output: &mut W,
) -> Result<u8, Stop>
    ensures { IfOk result (Dumps options sides (R.remaining client.old) (R.remaining client.new)
        (S.remaining server.old) (S.remaining server.new) (W.contents output.old)
        (W.contents output.new)) }
{
    let mut dump = Dump::new(alloc, global, options);
    let status = show_whole(&mut dump, options, sides, client, server, output)?;
    Ok(status)
}

/// Shows a session whose directions are these inputs, packet by packet. The answer is the exit
/// status: 0 where each input ended between two packets, 3 where one ended inside a packet, 5 where
/// the chunks of a packet are out of sync, 2 where a read or a write failed, 6 where memory was
/// refused. All memory is `alloc`'s: with `global` packets are read, which takes none.
pub fn run_dump<A: Allocator + Copy, R: Read, S: Read, W: Write>(
    alloc: A,
    global: Global,
    options: Options,
    sides: Sides,
    client: &mut R,
    server: &mut S,
    output: &mut W,
) -> u8
    ensures { DumpEnds options sides (R.remaining client.old) (R.remaining client.new)
        (S.remaining server.old) (S.remaining server.new) (W.contents output.old)
        (W.contents output.new) result }
{
    exit_status(show_session(alloc, global, options, sides, client, server, output))
}
