//! WHAT CHOICES BRING ABOUT: which endings some choices reach, and when a list has all endings that any choices reach, as definitions over
//! the meaning of programs alone (`Reached`, `Moves`). And the laws by which a search that keeps states, and follows one process after
//! another from each of them, has found all. The functions do nothing; their contracts are the laws.
#![tactic(auto)]

pub mod machine;

ghost use Rattle.std.specs.Prelude.{◌≡◌, ℕ, ◌+◌, ◌<◌, List, [], ◌∷◌, ◌++◌, length};
ghost use Rattle.edi_calls.specs.Choice.{Choices, choice};
ghost use Rattle.edi_calls.specs.Ready.{take_next, taking_at};
ghost use Rattle.edi_calls.specs.State.{State};
ghost use Rattle.edi_calls.specs.Names.{Name};
ghost use Rattle.edi_calls.specs.Outcome.{Ending, done, standstill};
ghost use Rattle.edi_unit.specs.Tree.{ProgramUnit};
ghost use Rattle.edi_meaning.specs.Step.{Processes};
ghost use Rattle.edi_meaning.specs.Rows.{empty_system, program_that_waits, program_where_two_wait};
ghost use Rattle.edi_explored.specs.Reached.{AreAll, AreAllBelow, AreAllShown, AreAllShownBelow, IsReached, IsShown};
ghost use Rattle.edi_explored.specs.Within.{MakeFewer};
ghost use Rattle.edi_explored.specs.Rows.{program_that_loses};
ghost use Rattle.edi_explored.specs.Covered.{AllTold, AllToldBelow, BeginsWith, Followed, Report, endings, shown_endings};

/// What a search keeps, by numbers.
pub trait Kept {
    /// What is kept by this number covers a state of the meaning, in which these are ready.
    ghost covers: { ℕ → Processes → List Name → Type 0 };

    /// The search has it, and what fewer than so many moves lead to from there.
    ghost has: { ℕ → ℕ → Type 0 };
}

/// Where a search has followed each stint of each ready process, from every state that what it keeps covers, its report tells all endings that
/// any choices bring about, whatever the bound; and where it has followed those within so many moves of the start, all endings of the executions
/// of fewer moves.
pub fn followed_is_all<K: Kept>()
    ensures all { (unit : ProgramUnit) (system : State) (report : Report) (v : ℕ) → Followed unit report ℕ K.covers K.has →
        BeginsWith unit system ℕ K.covers v → ((n : ℕ) → K.has n v) → AllTold unit system report }
    ensures below { (unit : ProgramUnit) (system : State) (report : Report) (v most : ℕ) → Followed unit report ℕ K.covers K.has →
        BeginsWith unit system ℕ K.covers v → K.has most v → AllToldBelow most unit system report }
{}

/// And where it has followed `most` moves, and keeps nothing that has 0 moves left to follow, no execution makes as many as `most`.
pub fn followed_is_fewer<K: Kept>()
    ensures law { (unit : ProgramUnit) (system : State) (report : Report) (v most : ℕ) → Followed unit report ℕ K.covers K.has →
        ((w : ℕ) → K.has 0 w → ⊥) → BeginsWith unit system ℕ K.covers v → K.has most v → MakeFewer most unit system }
{}

/// That a report of endings tells all is that these are all; so for endings with what was shown.
pub fn told_is_all()
    ensures endings { (unit : ProgramUnit) (system : State) (es : List Ending) → AllTold unit system (endings es) → AreAll unit system es }
    ensures below { (most : ℕ) (unit : ProgramUnit) (system : State) (es : List Ending) → AllToldBelow most unit system (endings es) → AreAllBelow most unit system es }
    ensures shown { (unit : ProgramUnit) (system : State) (es : List (Ending × List ℕ)) → AllTold unit system (shown_endings es) → AreAllShown unit system es }
    ensures shown_below { (most : ℕ) (unit : ProgramUnit) (system : State) (es : List (Ending × List ℕ)) →
        AllToldBelow most unit system (shown_endings es) → AreAllShownBelow most unit system es }
{}

/// Any of several ready processes is taken, where the next choice is its index.
pub fn anyone_is_taken()
    ensures law { (choices : Choices) (drawn : ℕ) (p q : Name) (others : List Name) (i : ℕ) → i < length (p ∷ q ∷ others) → choice choices (drawn + 1) ≡ i →
        take_next choices drawn (p ∷ q ∷ others) ≡ taking_at (p ∷ q ∷ others) i (drawn + 1) }
{}

/// Worked programs. An update is lost by some choices and kept by others, and a list with one of the two texts is not all. Two processes that
/// wait for each other stand still. Of a process that waits for ever the standstill is all: none of its executions of no move ends, and those
/// of one move do.
pub fn worked_programs()
    ensures lost { IsShown program_that_loses empty_system [] done (49 ∷ []) × IsShown program_that_loses empty_system (0 ∷ 0 ∷ 0 ∷ 1 ∷ []) done (50 ∷ []) }
    ensures text { AreAllShown program_that_loses empty_system ((done, 49 ∷ []) ∷ []) → ⊥ }
    ensures stands { IsReached program_where_two_wait empty_system [] standstill }
    ensures all { AreAll program_that_waits empty_system (standstill ∷ []) }
    ensures below { AreAllBelow 1 program_that_waits empty_system [] × (AreAllBelow 2 program_that_waits empty_system [] → ⊥) }
{}

/// A longer list of endings has all, too.
pub fn longer_lists_have_all()
    ensures law { (unit : ProgramUnit) (system : State) (es more : List Ending) → AreAll unit system es → AreAll unit system (es ++ more) }
{}
