//! Keeping the record of a run, and then its dump.

ghost use Rattle.std.specs.Prelude.{◌≡◌, ◌≤◌, ◌++◌, [], ◌∷◌, IfSome, List, ℕ, option_map};
ghost use Rattle.edi_told.specs.Faults.{CountRose};
ghost use Rattle.edi_told.specs.Told.{WhereTold};
ghost use Rattle.edi_host.specs.Files.{KeepLeaves};
ghost use Rattle.edi_runs.specs.explore.Keeping.{KeepsInTurn};
ghost use Rattle.edi_statuses.specs.Executions.{record_of};

use crate::run::timelines::{is_kept, keep_record};
use edi_host::{Files, KeepEnd};
use edi_trace::Choices;
use std::alloc::Global;

/// Keeps a dump, if there was memory for its text.
fn keep_dump<F: Files>(alloc: Global, files: &mut F, out: &str, dump: &Option<Vec<u8>>) -> KeepEnd
    ensures leaves { (told : List ℕ) → IfSome dump.now (λ text. text.items ≡ told)
        → WhereTold (F.contents files.old) (F.contents files.new) (KeepLeaves result out.now told) }
    ensures later { F.faults files.old ≤ F.faults files.new }
    ensures cause { result ≡ KeepEnd.Failed → CountRose (F.faults files.old) (F.faults files.new) }
{
    match dump {
        Some(text) => files.keep(alloc, out, text.as_slice()),
        None => KeepEnd::NoMemory,
    }
}

/// Keeps the record of the choices, if there is to be one, and then the dump, if there was memory for its text. It stops at the first that cannot be
/// kept.
pub(crate) fn keep_dumped<F: Files>(
    alloc: Global,
    files: &mut F,
    out: &str,
    record_file: Option<&str>,
    choices: &Choices,
    dump: &Option<Vec<u8>>,
) -> KeepEnd
    ensures keeps { (told : List ℕ) → IfSome dump.now (λ text. text.items ≡ told)
        → WhereTold (F.contents files.old) (F.contents files.new)
        (KeepsInTurn result (record_of (option_map (λ text. text.now) record_file.entry) choices.now.source choices.now.drawn ++ (out.now, told) ∷ [])) }
    ensures later { F.faults files.old ≤ F.faults files.new }
    ensures cause { result ≡ KeepEnd.Failed → CountRose (F.faults files.old) (F.faults files.new) }
{
    let recorded = keep_record(alloc, files, record_file, choices);
    if !is_kept(recorded) {
        return recorded;
    }
    keep_dump(alloc, files, out, dump)
}
