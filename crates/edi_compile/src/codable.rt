//! What a code generator may count on in the resolved unit of a sound program, and what follows for its code: the laws of
//! `edi_scheme` without their premises. The definitions and proofs are in `specs/codable/` and `proofs/codable/`; the functions here only
//! state the laws.

ghost use Rattle.edi_compile.specs.codable.Laws.{
  CodeIsShort,
  CodeIsShortForText,
  CodeIsWords,
  LinesAreSmall,
  RecordsHaveFields,
  SoundCode,
  SoundUnitsFit,
};

/// Each record of a sound program's unit has a field, so that each value of each type takes a word or more.
pub fn records_have_fields()
    ensures law { RecordsHaveFields }
{}

/// Each line that a sound program's unit keeps is below 65,536, so that a word holds it; for trees that spell symbols which
/// `Symbols` can hold.
pub fn lines_are_small()
    ensures law { LinesAreSmall }
{}

/// The code of a sound program's unit has at most 8 words for each symbol of the text, a string counting its characters, and so
/// at most 2,097,152 in all; for trees that spell symbols which `Symbols` can hold. So it is no longer than a code may be.
pub fn code_is_short()
    ensures symbols { CodeIsShortForText }
    ensures room { CodeIsShort }
{}

/// The resolved unit of a sound program fits: each number in it names a type, block or variable that is there, and types agree
/// in every expression, statement and call.
pub fn units_fit()
    ensures law { SoundUnitsFit }
{}

/// The code of a sound program's unit has no fault: each instruction is one, each jump and call leads to an instruction that
/// it may lead to, and it is not too long; and each number in it is a word.
pub fn code_is_sound()
    ensures sound { SoundCode }
    ensures words { CodeIsWords }
{}
