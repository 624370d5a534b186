//! Laws of explorations. Each function does nothing, and its contract is the law.

ghost use Rattle.edi_runs.specs.explore.Laws.{FoundAreAmongAll, FoundIsReached, RunsEndAsTold, RunsShowAsTold};

/// What is found is reached by its choices in the program of the text.
pub fn found_is_reached()
    ensures law { FoundIsReached }
{}

/// Where an exploration has found all, each run of the text ends in one of these ways, or its bound cuts it; and it has shown what is told then,
/// where output was looked at. Every other exploration of the text with this input finds no other ending.
pub fn runs_end_as_told()
    ensures runs { RunsEndAsTold }
    ensures shows { RunsShowAsTold }
    ensures found { FoundAreAmongAll }
{}
