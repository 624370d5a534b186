//! What is true of timelines. The functions do nothing; their contracts are the laws.

ghost use Rattle.edi_timed.specs.on.Laws.{StintsEnd, StintsOfCodeEnd, StintsStay, TimelinesAreOne};

/// A text, or a code, has one timeline on a system, with a bound and choices.
pub fn timelines_are_one()
    ensures law { TimelinesAreOne }
{}

/// A run of a code that has ended has the same stints, however many instructions it is allowed more.
pub fn stints_stay()
    ensures law { StintsStay }
{}

/// The last stint of a run that has ended tells how it ended, and after how many turns: of a code, and of an execution.
pub fn stints_end()
    ensures of_code { StintsOfCodeEnd }
    ensures of_execution { StintsEnd }
{}
