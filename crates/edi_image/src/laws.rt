//! Laws of images. Each stands on a function that does nothing.

ghost use Rattle.edi_image.specs.Laws.{HoldsOneList};

/// A list of blocks that breaks no rule holds one list of files, and only one; any other list of blocks holds none.
pub fn a_valid_image_holds_one_list()
    ensures { HoldsOneList }
{}
