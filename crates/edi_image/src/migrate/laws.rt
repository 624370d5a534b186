//! Laws of images of version 1. Each stands on a function that does nothing.

ghost use Rattle.edi_image.specs.migrate.Limit.{FirstBytesDecide};
ghost use Rattle.edi_image.specs.migrate.OldLaws.{OldHoldsOneList};

/// A list of blocks that breaks no rule of version 1 holds one list of files, and only one; any other list of blocks holds none.
pub fn a_valid_old_image_holds_one_list()
    ensures { OldHoldsOneList }
{}

/// The first 2,097,664 bytes of a file decide whether it is an image of version 1: they break the same first rule as all of them,
/// and where they break none, they are all.
pub fn first_bytes_decide()
    ensures law { FirstBytesDecide }
{}
