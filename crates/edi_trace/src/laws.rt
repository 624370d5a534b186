//! A law of files of choices. The function does nothing; its contract is the law.

ghost use Rattle.edi_trace.specs.Limit.{FirstBytesDecide};

/// The first 262,145 bytes of a file of choices decide how it is read: they have the same choices or the same first bad line as
/// all of them, and where they have choices, they are all.
pub fn first_bytes_decide()
    ensures law { FirstBytesDecide }
{}
