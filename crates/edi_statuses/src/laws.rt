//! Laws of statuses. Each function does nothing, and its contract is the law.

ghost use Rattle.edi_statuses.specs.Always.{NotRefuted, SomeStatus, SomeStep, WordsGiveRanges};
ghost use Rattle.edi_statuses.specs.Decided.{LinesEnd, OneRefusal, OneStatus};
ghost use Rattle.edi_statuses.specs.OneEnd.{OneEnd};

/// Contents that are told decide the status of a command and what it shows before the line of the status, but for `boot` and `explore`. So each
/// status comes exactly where its cause is there, unless an object fails or memory runs out; and where no refusal has its cause, the
/// command has its effect.
pub fn one_status()
    ensures law { OneStatus }
{}

/// Contents that are told decide each refusal, of `boot` and `explore` too: a file that is absent, a text that is refused, bad choices or points, a bad
/// image or code, a file or an input that is too long. Where one call is refused, another one on the same contents is refused so, unless an object fails or
/// memory runs out.
pub fn one_refusal()
    ensures law { OneRefusal }
{}

/// Where a command has come to a status and the line of the status was shown behind it, or a first part of the line, the call ends
/// as it has to.
pub fn lines_end()
    ensures law { LinesEnd }
{}

/// Of every command, whatever is told before it: a step stops it at a status that words and contents decide, and the table of commands has it end
/// there with nothing done; or all its steps go on.
pub fn some_step()
    ensures law { SomeStep }
{}

/// Whatever is told before a command, there is an end of it at a status that words and contents decide. So want of memory is never the only answer that
/// the contracts leave. The law speaks of every command, with the numbers and titles that words give, on drives that have blocks of 512 bytes. Of
/// `check` and `explain` it is only false that there is no such end.
pub fn some_status()
    ensures law { SomeStatus }
    ensures not_none { NotRefuted }
    ensures ranges { WordsGiveRanges }
{}

/// Contents that are told decide all that a command leaves, but for `boot` and `explore`: the files, but for the code of `compile`;
/// the number of blocks and the files on them, wherever these lie; the input, the bytes printed and the turns of the kernel.
pub fn one_end()
    ensures law { OneEnd }
{}
