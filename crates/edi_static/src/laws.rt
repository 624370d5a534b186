//! What is true of every sound program, by the static rules. The functions do nothing; their contracts are the laws, which
//! speak of all trees.

ghost use Rattle.edi_static.specs.Laws.{FaultsAreUnsound, NeedsAreSmall, OneStaticFault, UnitsFit};

/// No block or branch of a sound program needs more than 65,535 words.
pub fn needs_are_small()
    ensures law { NeedsAreSmall }
{}

/// The resolved unit of a sound program fits: nothing in it names what is not there, and all types agree.
pub fn units_fit()
    ensures law { UnitsFit }
{}

/// No tree has two static faults, and one with a static fault is not sound.
pub fn one_static_fault()
    ensures one { OneStaticFault }
    ensures unsound { FaultsAreUnsound }
{}
