//! What sights are, and names.

ghost use Rattle.edi_sights.specs.Fits.{SightsAreWhens};
ghost use Rattle.edi_sights.specs.named.Laws.{NamesAreSlots};

/// Each sight of a sound program is the `when` of its unit with that number in its block, on that line, and what the name means at
/// it is a variable of an elementary type there, or nothing. No `when` of the line is left out.
pub fn sights_are_whens()
    ensures law { SightsAreWhens }
{}

/// In the unit of a program there are as many blocks as it names, in each as many variables, and of each type as many constants. So
/// names have the numbers of the unit.
pub fn names_are_slots()
    ensures law { NamesAreSlots }
{}
