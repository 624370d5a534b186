//! Laws of the walks of texts. Each function does nothing, and its contract is the law.

ghost use Rattle.edi_runs.specs.walk.Laws.{AcceptedTextsWalk, TextsHaveOneWalk, WalksOfTextsArePermitted};

/// Each accepted text has one walk, on every system, with every bound on the turns and all choices.
pub fn texts_have_one_walk()
    ensures some { AcceptedTextsWalk }
    ensures one { TextsHaveOneWalk }
{}

/// The walk of an accepted text is one of the executions that the report permits.
pub fn walks_of_texts_are_permitted()
    ensures law { WalksOfTextsArePermitted }
{}
