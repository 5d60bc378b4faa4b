//! Who speaks.

ghost use Rattle.std.specs.Prelude.{◌≡◌};
ghost use Rattle.mysql_wire_session.specs.Names.{side_name};

/// One of the two that a connection joins.
#[derive(Clone, Copy)]
pub enum Side {
    Client,
    Server,
}

impl Side {
    /// The name that is shown.
    pub fn name(self) -> &'static str
        ensures { result.now ≡ side_name self }
    {
        match self {
            Side::Client => "client",
            Side::Server => "server",
        }
    }
}

/// Whose packet is next.
#[derive(Clone, Copy, PartialEq, Eq)]
pub enum Sender {
    Client,
    Server,
    /// Either side's: while the client authenticates itself; and where no packet is waited for.
    Either,
}
