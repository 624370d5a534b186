//! Where the jumps of a code lead.

ghost use Rattle.edi_dump.specs.Jumps.{JumpsStay};

/// In the code of a unit that fits, a JUMP that stands where an instruction starts leads to an address of its own block.
pub fn jumps_stay()
    ensures law { JumpsStay }
{}
