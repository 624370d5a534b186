//! Values as words: `specs/values/Words.antt` has the words of a value, and where its parts stand in them. Operators, conversions and
//! system calls on words: what the instructions make of the words of values is what the operators make of the values. The functions
//! only state laws; the program calls none of them.

ghost use Rattle.edi_follows.specs.values.Words.{
  PartsAreRead,
  PartsAreWritten,
  PartsStand,
  PathsGoOn,
  TypesTakeWords,
  ValuesAreLong,
  ValuesAreWords,
  WordsTellValues,
  ZeroIsZeros,
};
ghost use Rattle.edi_follows.specs.values.Operated.{
  ConversionFollows,
  DecidedIsResult,
  ElementaryIsAlone,
  IndexFollows,
  MemberFollows,
  NegationFollows,
  OperatorsFollow,
  SetIsMembers,
  SignFollows,
  TruthIsTested,
  TruthIsWord,
};
ghost use Rattle.edi_follows.specs.values.Asked.{AnswersAreValues, ArgumentsAreWords};

/// A value takes as many words as its type has, which is at least one; each is a number below 65,536; and two values of one type
/// have the same words exactly where they are equal.
pub fn words_tell_values()
    ensures long { ValuesAreLong }
    ensures some { TypesTakeWords }
    ensures small { ValuesAreWords }
    ensures apart { WordsTellValues }
{}

/// The value with which a variable starts has zeros as its words. The words of each part of a value stand where the sizes of
/// the parts before it say, also of a part of a part; so they are read there in memory, and where those of another value of its
/// type are written there, the words are those of the value with that part.
pub fn parts_stand_in_words()
    ensures zeros { ZeroIsZeros }
    ensures parts { PartsStand }
    ensures paths { PathsGoOn }
    ensures read { PartsAreRead }
    ensures written { PartsAreWritten }
{}

/// What the instruction for an operator makes of the words of two values is the words of what the operator makes of the values,
/// and it fails in exactly the same cases; the result is of the operator's type. Where the left operand of `and` or `or` decides,
/// it is the result. So it is of a leading `-` and of `not`.
pub fn operators_are_those_of_words()
    ensures operators { OperatorsFollow }
    ensures decided { DecidedIsResult }
    ensures sign { SignFollows }
    ensures negation { NegationFollows }
    ensures truth { TruthIsWord }
    ensures tested { TruthIsTested }
{}

/// An elementary value is one word, and a set the eight of its members. A conversion fails where the check of its word does, and
/// else leaves the word; a member joins a set, and an index finds an element, as by the words.
pub fn checks_are_those_of_words()
    ensures elementary { ElementaryIsAlone }
    ensures sets { SetIsMembers }
    ensures conversion { ConversionFollows }
    ensures member { MemberFollows }
    ensures index { IndexFollows }
{}

/// A system call is given the words of its arguments, and what it answers is values of the types of its `var` parameters.
pub fn calls_are_given_words()
    ensures arguments { ArgumentsAreWords }
    ensures answers { AnswersAreValues }
{}
