//! A law of texts. The function does nothing; its contract is the law.

ghost use Rattle.edi_lex.specs.Limit.{FirstBytesDecide};

/// The first 262,145 bytes of a text decide what it is: they have the same symbols or the same fault as all of them, and
/// where they are not too long, they are all.
pub fn first_bytes_decide()
    ensures law { FirstBytesDecide }
{}
