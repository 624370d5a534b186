//! What the dump of a program tells that stands still.

ghost use Rattle.edi_dumped.specs.Standing.{CodeStandsAsMeant};
ghost use Rattle.edi_dumped.specs.StandingDumps.{DumpsAreAsMeant};

/// Where a run of the code stands still, so does the execution of the program with these choices, in a state with which the last machine agrees.
pub fn code_stands_as_meant()
    ensures law { CodeStandsAsMeant }
{}

/// Where the execution of an accepted text stands still, each dump of it tells the state in which it does: of each process its instances, and of each
/// of their variables the value that it has there.
pub fn dumps_are_as_meant()
    ensures law { DumpsAreAsMeant }
{}
