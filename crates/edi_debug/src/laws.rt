//! What the log of a watched run is.

ghost use Rattle.edi_debug.specs.Laws.{LogsAreMeant, LogsBegin, WhensStandApart};

/// Different `when`s of a program have different addresses.
pub fn whens_stand_apart()
    ensures law { WhensStandApart }
{}

/// What is logged of a run that ended, of the code of a sound program and with points of a file for it, is the log of the
/// execution that the choices select.
pub fn logs_are_meant()
    ensures law { LogsAreMeant }
{}

/// What is logged of a run in which an object outside failed is a beginning of that log.
pub fn logs_begin()
    ensures law { LogsBegin }
{}
