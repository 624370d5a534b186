//! What decides how a file of points is read.

ghost use Rattle.edi_runs.specs.watch.Limit.{FirstBytesDecide};

/// The first 16,449 bytes of a file of points decide how it is read.
pub fn first_bytes_decide()
    ensures law { FirstBytesDecide }
{}
