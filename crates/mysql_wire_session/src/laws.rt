//! That a session follows the exchanges of MySQL's pages.
//!
//! Each function does nothing: its contract is the law, and a caller has it by calling.

ghost use Rattle.mysql_wire_session.specs.Grammar.{ConnectionIsFollowed, EachIsFollowed, IdleAtItsEnd, LastIsFollowed, RefusalIsFollowed, SessionIsFollowed, TlsIsFollowed};

/// An idle session takes each packet of an exchange for what MySQL's pages call it, and says whose
/// packet is next.
#[tactic(auto, using(crate::proofs::AnswerLemmas::each_is_followed))]
pub fn each_is_followed()
    ensures { EachIsFollowed }
{}

/// After the last packet of an exchange a session is idle, and after no shorter front of it.
#[tactic(auto, using(crate::proofs::AnswerLemmas::idle_at_its_end))]
pub fn idle_at_its_end()
    ensures { IdleAtItsEnd }
{}

/// A session that begins follows the connection phase: a greeting, a login, and what both sides send
/// until the client is in.
#[tactic(auto, using(crate::proofs::AnswerLemmas::connection_is_followed))]
pub fn connection_is_followed()
    ensures { ConnectionIsFollowed }
{}

/// A whole session, the connection phase and then exchanges, is followed packet by packet.
pub fn session_is_followed()
    ensures { SessionIsFollowed }
{}

/// A connection phase that the server refuses, by an error in place of a greeting or after the login,
/// is followed packet by packet, and the session is closed.
#[tactic(auto, using(crate::proofs::AnswerLemmas::refusal_is_followed))]
pub fn refusal_is_followed()
    ensures { RefusalIsFollowed }
{}

/// `COM_QUIT`, and a change of the user that is denied, are followed packet by packet, and the
/// session is closed.
#[tactic(auto, using(crate::proofs::AnswerLemmas::last_is_followed))]
pub fn last_is_followed()
    ensures { LastIsFollowed }
{}

/// A greeting and a request for TLS are followed, after which all is encrypted.
#[tactic(auto, using(crate::proofs::AnswerLemmas::tls_is_followed))]
pub fn tls_is_followed()
    ensures { TlsIsFollowed }
{}
