//! What is true of the stints of runs of code. The functions do nothing; their contracts are the laws.

ghost use Rattle.edi_timed.specs.meant.Laws.{RunsHaveStints, StintsAreMeant, StintsBegin};

/// Where an execution of a program ends, the stints of the run of its code are those of the execution, one by one: each with its
/// turns, its process, the lines of the `when` and of the calls where it began, how it ended, and what was shown in it.
pub fn stints_are_meant()
    ensures law { StintsAreMeant }
{}

/// The stints that have ended in any shorter run of the code are the first of that execution.
pub fn stints_begin()
    ensures law { StintsBegin }
{}

/// Where a run of the code has ended, an execution has ended so that the choices select: with the same ending, system, turns and
/// choices drawn. The run has the stints of that execution.
pub fn runs_have_stints()
    ensures law { RunsHaveStints }
{}
