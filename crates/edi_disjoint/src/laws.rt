//! What is true of disjoint branches, by the meaning of programs. The functions do nothing; their contracts are the laws.

ghost use Rattle.edi_disjoint.specs.Exchange.{AttemptsToo, DisjointExchange};
ghost use Rattle.edi_disjoint.specs.Report.{OneReport};

/// Steps of disjoint branches may be exchanged: two processes that are ready, of two disjoint branches, lead to the same state
/// whichever of them steps first, in every state that permitted steps reach, of a program that fits, where both orders leave the run going.
pub fn disjoint_exchange()
    ensures law { DisjointExchange }
{}

/// The same of processes that stand at their `when`: their attempts may be exchanged too.
pub fn disjoint_attempts()
    ensures law { AttemptsToo }
{}

/// A program that fits has one report.
pub fn one_report()
    ensures law { OneReport }
{}
