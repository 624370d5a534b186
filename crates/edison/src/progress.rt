//! How far an exploration is: a line on the error stream, once a second, for who sits at a terminal. It is no part of what the call `edison`
//! shows, so that no clause speaks of it.

use edi_explore::Watcher;
use std::io::IsTerminal;
use std::time::{Duration, Instant};

/// Who is told how far an exploration is, and shows it.
#[derive(Clone, Copy)]
pub(crate) struct Progress<'a> {
    rt: &'a HostRuntime,
    /// When a line was shown last, at first the start of the call. There is none where no line is to be shown.
    last: Option<Instant>,
}

impl<'a> Progress<'a> {
    /// Shows lines where the error stream is a terminal, and the clock can be read.
    pub(crate) fn new(rt: &'a HostRuntime) -> Progress<'a> {
        let last = if rt.stderr().is_terminal() {
            Instant::now(rt).ok()
        } else {
            None
        };
        Progress { rt, last }
    }
}

impl<'a> Watcher for Progress<'a> {
    ghost use Rattle.std.specs.Prelude.{None};

    ghost seen = { λ s. None };

    fn tell(&mut self, states: usize) {
        let Some(last) = self.last else {
            return;
        };
        let Ok(elapsed) = last.elapsed(self.rt) else {
            return;
        };
        if elapsed < Duration::from_secs(1) {
            return;
        }
        let _ = eprintln!(self.rt; "{states} states");
        self.last = Instant::now(self.rt).ok();
    }
}
