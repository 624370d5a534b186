//! What a search is told, and what it reports.

ghost use Rattle.std.specs.Prelude.{◌≡◌};
ghost use Rattle.edi_explore.specs.Shown.{asks_of};

use edi_kernel::Ending;
use edi_waits::Wait;

/// How far a search goes.
#[derive(Clone, Copy, Debug)]
pub struct Limits {
    /// How many states are kept at most.
    pub states: u32,
    /// How many turns a stint may have.
    pub turns: u64,
    /// With a number: an ending with other output is another one, and so many are found at most. With none, output is not looked at.
    pub shown: Option<u32>,
}

/// An ending with choices that bring it about. After their end each choice is 0.
#[derive(Drop)]
pub struct Found {
    /// Neither `Turns` nor `Fault`.
    pub ending: Ending,
    /// At most 65,536.
    pub choices: Vec<u8>,
    /// The turns of the run with these choices, at most 1,000,000,000.
    pub turns: u64,
    /// The moves of the run with these choices. If the verdict is `All`, or its number is not less than these, no execution of fewer moves ends so:
    /// where output is looked at, none with this output.
    pub moves: usize,
    /// All that the run has shown.
    pub shown: Vec<u8>,
    /// Who waits where at the end of that run, if it is a standstill; else nobody.
    pub waits: Vec<Wait>,
}

/// Whether the reported endings are all. A number says: all of the executions of fewer moves than that.
#[derive(Clone, Copy, Debug, PartialEq, Eq)]
pub enum Verdict {
    /// They are all, whatever the choices and the bound on the turns. `explore` says when no order of steps ends otherwise.
    All,
    /// As many states were kept as may be.
    Full(usize),
    /// As many endings were found as may be. Nothing is said of a further one.
    Many(usize),
    /// A process goes on for more turns than it may: the choices of the report lead to it.
    Cut(usize),
    /// An ending has no record: the run with its choices has more of them, or more turns, than a record may have, or ends otherwise. The same is told
    /// of a stint that was cut, if its choices are more than a record may have, or the run that is to confirm it is not cut.
    Unrecorded(usize),
    /// Memory ran out: in the search, which was given up then, or in the run that is to confirm a cut.
    NoMemory(usize),
}

/// The endings that were found, whether these are all, and what else a search tells.
#[derive(Drop)]
pub struct Report {
    pub found: Vec<Found>,
    pub verdict: Verdict,
    /// How many states are kept, with the start of the program as one.
    pub states: usize,
    /// Where the verdict is `Cut`: choices with which a process goes on for more turns than it may, at most 65,536. Else they say nothing.
    pub cut: Vec<u8>,
    /// How many moves every execution makes at most, whatever its choices and the bound on its turns. With none nothing is said.
    pub longest: Option<usize>,
}

impl Limits {
    /// Whether output is looked at.
    pub(crate) fn asks(self) -> bool
        ensures { result ≡ asks_of self }
    {
        self.shown.is_some()
    }
}
