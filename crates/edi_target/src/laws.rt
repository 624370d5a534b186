//! What is true of every code file, and of every code that the abstract machine runs. The functions do nothing; their contracts are the laws.

ghost use Rattle.edi_target.specs.Laws.{EachMovesUp, EndsByTurnsSpent, EveryRunEnds, RunsAreDetermined};
ghost use Rattle.edi_target.specs.Limit.{FirstBytesDecide};
ghost use Rattle.edi_target.specs.Pasts.{ComesThroughItsPast, EndIsDetermined, EveryRunEndsThrough, OfEveryRun, PastGrows, SystemIsNewest};
ghost use Rattle.edi_target.specs.Starts.{StartsAreThese};

/// Instructions start at the first address, and where one that is read ends; these are the starts of the checks of code.
pub fn starts_are_these()
    ensures law { StartsAreThese }
{}

/// An instruction takes a turn, ends the run, is refused, or moves the program counter up.
pub fn each_instruction_moves_up()
    ensures law { EachMovesUp }
{}

/// A run of any words, from any entry, ends after some number of instructions.
pub fn every_run_ends()
    ensures law { EveryRunEnds }
{}

/// A run has one outcome.
pub fn runs_are_determined()
    ensures law { RunsAreDetermined }
{}

/// A run ends by its turns only where none is left.
pub fn ends_by_turns_spent()
    ensures law { EndsByTurnsSpent }
{}

/// Every run ends, however many choices were drawn before it.
pub fn every_run_ends_through()
    ensures law { EveryRunEndsThrough }
{}

/// It has one end, and one past of its system there.
pub fn end_is_determined()
    ensures law { OfEveryRun EndIsDetermined }
{}

/// It comes through the states of its past and the first one, and through no others.
pub fn comes_through_its_past()
    ensures law { OfEveryRun ComesThroughItsPast }
{}

/// Each further instruction leaves the past of the system, or adds a state to it.
pub fn past_grows()
    ensures law { OfEveryRun PastGrows }
{}

/// The last state of the past is the system at the end of the run.
pub fn system_is_newest()
    ensures law { OfEveryRun SystemIsNewest }
{}

/// The first 8,388,641 bytes of a code file decide whether it has a code: they have the same fault as all of them, and where
/// they have none, they are all.
pub fn first_bytes_decide()
    ensures law { FirstBytesDecide }
{}
