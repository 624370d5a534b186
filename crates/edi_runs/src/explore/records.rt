//! The files that keep the choices of endings.

ghost use Rattle.std.specs.Prelude.{◌≡◌, ◌≤◌, Some, IfOk, map};
ghost use Rattle.std.specs.String.{string_bytes};
ghost use Rattle.edi_told.specs.Faults.{CountRose};
ghost use Rattle.edi_told.specs.Told.{WhereTold};
ghost use Rattle.edi_host.specs.Files.{KeepLeaves};
ghost use Rattle.edi_trace.specs.Lines.{written};
ghost use Rattle.edi_runs.specs.explore.Keeping as keeping;
ghost use Rattle.edi_runs.specs.explore.Keeping.{KeepsInTurn};
ghost use Rattle.edi_runs.specs.explore.Records as spec;
ghost use Rattle.edi_runs.specs.explore.Told.{findings_of, reached_of};

use crate::explore::orders::Exploration;
use edi_explore::Found;
use edi_host::{Files, KeepEnd};
use edi_trace::write_choices;
use itoa::Buffer;
use std::alloc::{AllocError, Global};

// So many endings are kept at most.
pub(crate) const MOST_RECORDS: usize = 1000;

/// The name of the file that keeps the choices of the ending with this number, counted from 1: `NAME.3`. The only error is want of memory.
pub fn record_name(alloc: Global, name: &str, number: usize) -> Result<String, AllocError>
    ensures exact { IfOk result (λ whole. string_bytes whole ≡ spec.record_name name.now number) }
{
    let mut buffer = Buffer::new();
    let mut whole = String::from_str(alloc, name)?;
    whole.push_str(".")?;
    whole.push_str(buffer.format(number))?;
    Ok(whole)
}

// Keeps the choices of the ending with this number.
fn keep_record<F: Files>(
    alloc: Global,
    files: &mut F,
    name: &str,
    number: usize,
    found: &Found,
) -> KeepEnd
    ensures leaves { WhereTold (F.contents files.old) (F.contents files.new)
        (KeepLeaves result (spec.record_name name.now number) (written found.now.choices.items)) }
    ensures later { F.faults files.old ≤ F.faults files.new }
    ensures cause { result ≡ KeepEnd.Failed → CountRose (F.faults files.old) (F.faults files.new) }
{
    let Ok(file) = record_name(alloc, name, number) else {
        return KeepEnd::NoMemory;
    };
    let Ok(bytes) = write_choices(alloc, &found.choices) else {
        return KeepEnd::NoMemory;
    };
    files.keep(alloc, file.as_str(), &bytes)
}

// Whether a file was kept.
fn is_kept(end: KeepEnd) -> bool
    ensures { result ≡ keeping.is_kept end }
{
    match end {
        KeepEnd::Ok => true,
        KeepEnd::Failed | KeepEnd::NoMemory => false,
    }
}

// Keeps the choices of endings, of which the first has number 1.
fn keep_all<F: Files>(alloc: Global, files: &mut F, name: &str, endings: &[Found]) -> KeepEnd
    ensures keeps { WhereTold (F.contents files.old) (F.contents files.new)
        (KeepsInTurn result (spec.records_from name.now 1 (map reached_of endings.now))) }
    ensures later { F.faults files.old ≤ F.faults files.new }
    ensures cause { result ≡ KeepEnd.Failed → CountRose (F.faults files.old) (F.faults files.new) }
{
    let mut number: usize = 0;
    for found in endings {
        number += 1;
        let end = keep_record(alloc, files, name, number, found);
        if !is_kept(end) {
            return end;
        }
    }
    KeepEnd::Ok
}

/// Keeps the choices of the first 1,000 endings of an exploration, one after another, each as the file NAME.1, NAME.2 and so on. It stops at the
/// first that cannot be kept.
pub fn keep_records<F: Files>(
    alloc: Global,
    files: &mut F,
    name: &str,
    exploration: &Exploration,
) -> KeepEnd
    ensures keeps { WhereTold (F.contents files.old) (F.contents files.new)
        (KeepsInTurn result (spec.records_of (Some name.now) (findings_of exploration.now).endings)) }
    ensures later { F.faults files.old ≤ F.faults files.new }
    ensures cause { result ≡ KeepEnd.Failed → CountRose (F.faults files.old) (F.faults files.new) }
{
    let found = &exploration.report.found;
    if found.len() > MOST_RECORDS {
        let (first, _more) = found.as_slice().split_at(MOST_RECORDS);
        return keep_all(alloc, files, name, first);
    }
    keep_all(alloc, files, name, found.as_slice())
}
