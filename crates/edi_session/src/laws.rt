//! A law of sessions. The function does nothing, and its contract is the law.

ghost use Rattle.edi_session.specs.Laws.{EveryShellHasNext};

/// Whatever a session has come to, its next line leads to something, or the session stops there.
pub fn every_shell_has_next()
    ensures law { EveryShellHasNext }
{}
