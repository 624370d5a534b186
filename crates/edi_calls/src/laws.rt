//! Laws of the ten calls. Each stands on a function without a body, since it speaks of all states.

ghost use Rattle.edi_calls.specs.Laws.{EachCallGoesOn, AnswersFit, StatesStaySound, ClosedFilesAreFound, EachCallChangesOnePart, TornIsBeforeOrBehind};
ghost use Rattle.edi_calls.specs.Laws.{TitlesAreSpelled};

/// A call that is answered only takes from the input, only adds to what was shown and printed, and leaves the
/// numbers of slots and blocks as they are.
pub fn each_call_goes_on()
    ensures { EachCallGoesOn }
{}

/// An answer has as many words as the table of the calls says.
pub fn answers_fit()
    ensures { AnswersFit }
{}

/// Each call keeps what every state of a system keeps: 256 slots, files with titles of their own and at most 261,120
/// bytes, and a found file that is there.
pub fn states_stay_sound()
    ensures { StatesStaySound }
{}

/// A file that was closed under a title is found under it, with the bytes that were written.
pub fn closed_files_are_found()
    ensures { ClosedFilesAreFound }
{}

/// A call that is answered changes at most one of the input, the bytes shown, the bytes printed and the slots.
pub fn each_call_changes_one_part()
    ensures { EachCallChangesOnePart }
{}

/// A call that was to be answered and was failed by an object outside leaves these parts all as they were before it, or all
/// as it was to leave them; one that uses the input leaves them as they were.
pub fn torn_is_before_or_behind()
    ensures { TornIsBeforeOrBehind }
{}

/// The title that words spell is t exactly where their characters are those of t, which is a title, and blanks behind them.
pub fn titles_are_spelled()
    ensures { TitlesAreSpelled }
{}
