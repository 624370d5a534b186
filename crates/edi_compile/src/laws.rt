//! Laws of sound units and of accepted texts. Each function does nothing, and its contract is the law.

ghost use Rattle.edi_compile.specs.Meant.{
  SoundUnitsCanBeCoded,
  TextsArePrivate,
  TextsCanBeCoded,
  TextsDoAsMeant,
};

/// The unit of every sound tree can be coded: it fits, its records have fields, its lines are words, and its code is not too long.
pub fn sound_units_can_be_coded()
    ensures law { SoundUnitsCanBeCoded }
{}

/// The unit of every accepted text can be coded. The code of that unit does what the text does, has no fault and is short; and its
/// processes are private.
pub fn texts_do_as_meant()
    ensures can { TextsCanBeCoded }
    ensures code { TextsDoAsMeant }
    ensures is_private { TextsArePrivate }
{}
