//! What the words on the command line ask for.

ghost use Rattle.std.specs.Prelude.{◌≡◌, ◌≢◌, [], ◌∷◌, codes, map, string_bytes, option_copied, option_map, MatchBool, MatchOption};
ghost use Rattle.std.specs.Option.{SomeIff};
ghost use Rattle.std.specs.Str.Parse.{digits_value};
ghost use Rattle.mysql_wire_dump_lines.specs.Arguments.{IsNumber};

use crate::lines::LineForm;
use crate::options::{Options, Sides};
use std::alloc::Allocator;
use wire_buf::lengths::DEFAULT_MAX_ALLOWED_PACKET;

/// A session to be shown: how, and the files of its directions.
#[derive(Clone, Copy)]
pub struct Request<'a> {
    pub options: Options,
    pub client: Option<&'a str>,
    pub server: Option<&'a str>,
}

/// What the words ask for.
#[derive(Clone, Copy)]
pub enum Asked<'a> {
    Help,
    Dump(Request<'a>),
}

// The number that one to ten digits write.
fn number(word: &str) -> Option<usize>
    ensures { SomeIff result (IsNumber word.now) (digits_value 10 word.now) }
{
    if word.len() > 10 || word.starts_with('+') {
        return None;
    }
    match word.parse::<u64>() {
        Ok(number) => Some(number as usize),
        Err(_) => None,
    }
}

impl<'a> Request<'a> {
    ghost use Rattle.mysql_wire_dump_lines.specs.Arguments.{AddsPart, Asks, Client, Dump, Grows, Fields, Json, Limit, Says, Server, Session, Steps, TakesWords, TakesAlone, session_of, sides_of};

    // Nothing yet.
    fn new() -> Request<'a>
        ensures { Says [] (session_of result) }
    {
        Request {
            options: Options {
                form: LineForm::Text,
                has_fields: false,
                limit: DEFAULT_MAX_ALLOWED_PACKET,
            },
            client: None,
            server: None,
        }
    }

    fn with_fields(self) -> Request<'a>
        ensures { Grows Fields self.entry result }
    {
        let options = Options {
            has_fields: true,
            ..self.options
        };
        Request { options, ..self }
    }

    fn with_json(self) -> Request<'a>
        ensures { Grows Json self.entry result }
    {
        let options = Options {
            form: LineForm::Json,
            ..self.options
        };
        Request { options, ..self }
    }

    // With a limit, where the word is a number.
    fn with_limit(self, word: &str) -> Option<Request<'a>>
        ensures { AddsPart (Limit word.now) self.entry result }
    {
        let options = Options {
            limit: number(word)?,
            ..self.options
        };
        Some(Request { options, ..self })
    }

    // With a client's file, where it has none.
    fn with_client(self, file: &'a str) -> Option<Request<'a>>
        ensures { AddsPart (Client file.now) self.entry result }
    {
        match self.client {
            None => Some(Request {
                client: Some(file),
                ..self
            }),
            Some(_) => None,
        }
    }

    // With a server's file, where it has none.
    fn with_server(self, file: &'a str) -> Option<Request<'a>>
        ensures { AddsPart (Server file.now) self.entry result }
    {
        match self.server {
            None => Some(Request {
                server: Some(file),
                ..self
            }),
            Some(_) => None,
        }
    }

    // With one option more, where the word is one.
    fn with_option(self, word: &str) -> Option<Request<'a>>
        ensures { TakesAlone word.now self.entry result }
    {
        match word {
            "--fields" => Some(self.with_fields()),
            "--json" => Some(self.with_json()),
            _ => None,
        }
    }

    // With one word more, and the word after it.
    fn with_pair(self, word: &str, value: &'a str) -> Option<Request<'a>>
        ensures { TakesWords (word.now ∷ value.now ∷ []) self.entry result }
    {
        match word {
            "--limit" => self.with_limit(value),
            "client" => self.with_client(value),
            "server" => self.with_server(value),
            _ => None,
        }
    }

    // With a word more, after one that may wait for its value; and the word that waits then.
    fn with_word(self, waits: Option<&str>, word: &'a str) -> Option<(Request<'a>, Option<&'a str>)>
        ensures { Steps word.now self.entry (option_copied waits.entry) result }
    {
        match waits {
            Some(name) => Some((self.with_pair(name, word)?, None)),
            None => match self.with_option(word) {
                Some(with) => Some((with, None)),
                None => Some((self, Some(word))),
            },
        }
    }

    /// The directions whose files are named.
    pub fn sides(self) -> Option<Sides>
        ensures { result ≡ sides_of self.entry.client self.entry.server }
    {
        match (self.client, self.server) {
            (Some(_), Some(_)) => Some(Sides::Both),
            (Some(_), None) => Some(Sides::Client),
            (None, Some(_)) => Some(Sides::Server),
            (None, None) => None,
        }
    }

    // What the words ask for, where they name a file.
    fn of<A: Allocator>(words: &'a [String<A>]) -> Option<Request<'a>>
        ensures { MatchOption result
            ((session : Session) → ¬ (Asks (map string_bytes words.now) (Dump session)))
            (λ request. Asks (map string_bytes words.now) (Dump (session_of request))) }
    {
        let mut state: (Request<'a>, Option<&'a str>) = (Request::new(), None);
        'words: for word in words {
            state = state.0.with_word(state.1, word.as_str())?;
        }
        let (request, waits) = state;
        match (waits, request.sides()) {
            (None, Some(_)) => Some(request),
            _ => None,
        }
    }
}

ghost use Rattle.mysql_wire_dump_lines.specs.Arguments.{IsAsked, command_of};

// Whether this is the one word that asks for help.
fn is_help<A: Allocator>(words: &[String<A>]) -> bool
    ensures { MatchBool result (map string_bytes words.now ≡ codes "--help" ∷ [])
        (map string_bytes words.now ≢ codes "--help" ∷ []) }
{
    match words {
        [word] => word.as_str() == "--help",
        _ => false,
    }
}

/// What the words after the program's name ask for.
pub fn what_is_asked<'a, A: Allocator>(words: &'a [String<A>]) -> Option<Asked<'a>>
    ensures { IsAsked (map string_bytes words.now) (option_map command_of result) }
{
    if is_help(words) {
        return Some(Asked::Help);
    }
    Some(Asked::Dump(Request::of(words)?))
}
