//! What is true of every run of a kernel. The functions do nothing; their contracts are the laws.

ghost use Rattle.edi_kernel.specs.Passed.{FaultIsCall, FaultIsMoment, MomentAdds, MomentIsNewest, OfEveryRun, PastIsOfMoments};
ghost use Rattle.edi_kernel.specs.Runs.{RunsAreTheMachines};
ghost use Rattle.edi_kernel.specs.Kept.{StandsAgain};
ghost use Rattle.edi_kernel.specs.StandsStill.{StandstillIsMarked};

/// Where no choice had been drawn before, a run of the kernel has an outcome of the machine's definition.
pub fn runs_are_the_machines()
    ensures law { RunsAreTheMachines }
{}

/// At each moment of a run the system is the newest state of its past.
pub fn moment_is_newest()
    ensures law { OfEveryRun MomentIsNewest }
{}

/// The instruction at a moment adds to the past the state that its system call leaves, where that is answered, and else nothing.
pub fn moment_adds()
    ensures law { OfEveryRun MomentAdds }
{}

/// The past has no other states: each is the first one, or the system at some moment.
pub fn past_is_of_moments()
    ensures law { OfEveryRun PastIsOfMoments }
{}

/// Where an object outside failed in a run, the system is, but for the found file and the buffer, a state through which the
/// run comes.
pub fn fault_is_moment()
    ensures law { FaultIsMoment }
{}

/// Where an object outside failed in a run, the run's past has two states, one right after the other, between which is the call that
/// failed. For each object that this call uses it tells so. But for the found file and the buffer the system is one of the two.
pub fn fault_is_call()
    ensures law { FaultIsCall }
{}

/// A kernel to which the processes of another have been put back is the machine that the other is, but for words that do not
/// count, marks, turns, the system and the order of the ready ones.
pub fn stands_again()
    ensures law { StandsAgain }
{}

/// A run of any code comes to a standstill only by its marks, never because nobody is ready: then a process stands at its `when`, and each
/// one that does not wait for children is marked.
pub fn standstill_is_marked()
    ensures law { StandstillIsMarked }
{}
