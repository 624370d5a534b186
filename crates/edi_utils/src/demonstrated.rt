//! The text of the demonstration is accepted, and its program comes to its end. The definitions and proofs are in `specs/demonstrated/` and
//! `proofs/demonstrated/`; the functions here only state the laws.

ghost use Rattle.edi_utils.specs.demonstrated.Demonstrated.{DemonstrationsAreAccepted, DemonstrationsEnd, ShortDemonstrationsEnd};

/// With every number of procedures that the command takes, 1 to 1000, the text of the demonstration has a unit and no fault,
/// neither of its symbols nor of its syntax nor of a static rule; it has 19 symbols for each procedure and 13 more, and its
/// program makes no call of the system.
pub fn demonstrations_are_accepted()
    ensures law { DemonstrationsAreAccepted }
{}

/// The program of the demonstration comes to its end after 6 turns for each procedure and 5 more, where the bound allows so many,
/// whatever the choices; and it leaves the system as it was.
pub fn demonstrations_end()
    ensures law { DemonstrationsEnd }
{}

/// With a smaller bound it uses all of its turns, whatever the choices, and ends for want of one more; the system is as it was.
pub fn short_demonstrations_end()
    ensures law { ShortDemonstrationsEnd }
{}
