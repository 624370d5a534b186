//! THE CENTRAL THEOREM: the code of a program does what the program means. The functions do nothing; their contracts are the
//! laws. They speak of every unit that fits, whose records have fields, whose lines are words and whose code has at most
//! 4,194,304 words (`CanBeCoded`), of all states of the system, bounds on the turns and choices. The code is that of the
//! scheme (`code_of`), the meaning is `Select`, and the machine that runs the code is `Mach`.
#![tactic(auto)]

pub mod values;

ghost use Rattle.edi_follows.specs.Theorem.{
  CodeEndsAsMeant,
  CodeIsNeverBad,
  CodeIsPrivate,
  CodeStandsByMarks,
  SameMoments,
  SameOutcome,
};
ghost use Rattle.edi_follows.specs.Arrivals.{CodeArrivesAsMeant};

/// Where an execution of the program ends so (the ending with its line, the system, the turns that are left, the choices
/// drawn), the run of its code ends just so, and the states of the system behind each of its answered calls are, one by one,
/// those of the execution.
pub fn code_ends_as_meant()
    ensures law { CodeEndsAsMeant }
{}

/// The code has each outcome that the program has, and no other.
pub fn same_outcome()
    ensures law { SameOutcome }
{}

/// And both come through the same states of the system, also where no end is looked at.
pub fn same_moments()
    ensures law { SameMoments }
{}

/// No run of the code ends as bad.
pub fn code_is_never_bad()
    ensures law { CodeIsNeverBad }
{}

/// Where a run of the code stands still, its last instruction is the end of a failed attempt that marks its process, and with it
/// every process that is ready is marked: no run stands still for want of a ready process.
pub fn code_stands_by_marks()
    ensures law { CodeStandsByMarks }
{}

/// From the time when the kernel takes a process until it takes the next one, or the run ends, after every single instruction,
/// no word of the memory has changed that is none of the process's own: its segment, and the frames of its ancestors.
pub fn code_is_private()
    ensures law { CodeIsPrivate }
{}

/// Where an execution of the program ends, the run of its code ends, and up to there it has arrived at `when`s exactly where the
/// execution has, one arrival after another: each after as many turns, at the address of that `when`, and with the words of the
/// variables in the memory where the frames say.
pub fn code_arrives_as_meant()
    ensures law { CodeArrivesAsMeant }
{}
