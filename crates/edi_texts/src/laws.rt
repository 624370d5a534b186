//! Laws of texts. Each function does nothing, and its contract is the law.

ghost use Rattle.edi_texts.specs.Laws.{AcceptedTextsAreSound, EachTextIsOneThing};
ghost use Rattle.edi_texts.specs.Executions.{AcceptedTextsRun, RunsAreNeverBad, TextsHaveOneOutcome};
ghost use Rattle.edi_texts.specs.Fetched.{FetchedBytesDecide};

/// Each text has a first fault or a unit, and only one of these: no two faults, no fault beside a unit, no two units.
pub fn each_text_is_one_thing()
    ensures law { EachTextIsOneThing }
{}

/// The first 262,145 bytes of a text decide what it is: they have the same first fault, unit, codes and number of symbols as all
/// of them.
pub fn fetched_bytes_decide()
    ensures law { FetchedBytesDecide }
{}

/// The execution of every accepted text has one outcome, on every system, with every bound on the turns and all choices; and it
/// never ends as an instruction without a meaning does.
pub fn texts_have_one_outcome()
    ensures some { AcceptedTextsRun }
    ensures one { TextsHaveOneOutcome }
    ensures never_bad { RunsAreNeverBad }
{}

/// The unit of every accepted text is that of a sound tree.
pub fn accepted_texts_are_sound()
    ensures law { AcceptedTextsAreSound }
{}
