//! Laws of the definitions. Each function does nothing, and its contract is the law.

ghost use Rattle.edi_explain.specs.told.Explained.{OneExplanation};

/// A text whose first fault is of this kind and on this line has one explanation.
pub fn each_text_has_one_explanation()
    ensures law { OneExplanation }
{}
