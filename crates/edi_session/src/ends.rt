//! Laws of sessions: each comes to an end, and two of the same input differ only where memory is wanting. The functions do
//! nothing, and their contracts are the laws.

ghost use Rattle.edi_session.specs.ends.Laws.{EverySessionEnds, LinesAreFew, OneEffect, SessionsDifferInThese};

/// From whatever a session has come to, lines lead to an end of it.
pub fn every_session_ends()
    ensures law { EverySessionEnds }
{}

/// A session has at most 4,194,304 lines before the one at which it stops, since each of them takes a byte.
pub fn lines_are_few()
    ensures law { LinesAreFew }
{}

/// A command other than `compile`, `edit` and an execution has one effect.
pub fn one_effect()
    ensures law { OneEffect }
{}

/// Where two sessions part, the line `no memory` is shown in one of them.
pub fn sessions_differ_in_these()
    ensures law { SessionsDifferInThese }
{}
