//! Where the processes of the abstract machine lie in its memory. The definitions and proofs are in `specs/segments/` and `proofs/segments/`;
//! the functions here only state the laws.

ghost use Rattle.edi_target.specs.segments.Nested.{EveryEndIsNested, SegmentsAreNested};
ghost use Rattle.edi_target.specs.segments.Refused.{RefusedWhereOneStands};
ghost use Rattle.edi_target.specs.segments.Shares.{ChildrenLieInShares};

/// In every machine that a code reaches, whatever the choices: each frame lies in its segment, and each segment in the
/// memory; the segment of each process but the first lies in that of its parent, behind the frame of the parent, which
/// waits; segments of siblings have no word in common. So of two different processes either one is a descendant of the
/// other and lies in the words that this has free, or they share no word. And a step of a process changes no frame and no
/// segment of another.
pub fn segments_are_nested()
    ensures law { SegmentsAreNested }
{}

/// A run of a code, whatever its choices, ends with a machine whose segments are nested so.
pub fn every_end_is_nested()
    ensures law { EveryEndIsNested }
{}

/// A run of a code, whatever its choices, is refused at an address only where a process stands that lives and does not wait, or at the
/// entry of the code, before there is a process.
pub fn refused_where_one_stands()
    ensures law { RefusedWhereOneStands }
{}

/// The segments of the children of a fork lie one behind the other: that of child i begins i shares behind where the first begins.
pub fn children_lie_in_shares()
    ensures law { ChildrenLieInShares }
{}
