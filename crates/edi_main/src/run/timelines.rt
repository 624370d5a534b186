//! Keeping the record of a run, and then the files of its timeline.

ghost use Rattle.std.specs.Prelude.{◌≡◌, ◌≤◌, ◌++◌, false, min, IfOk, codes, option_map};
ghost use Rattle.std.specs.String.{string_bytes};
ghost use Rattle.edi_told.specs.Faults.{CountRose};
ghost use Rattle.edi_told.specs.Told.{WhereTold};
ghost use Rattle.edi_calls.specs.Choice.{first_choices};
ghost use Rattle.edi_host.specs.Files.{KeepLeaves};
ghost use Rattle.edi_runs.specs.explore.Keeping as keeping;
ghost use Rattle.edi_runs.specs.explore.Keeping.{KeepsInTurn};
ghost use Rattle.edi_timeline.specs.Picture.{picture_of};
ghost use Rattle.edi_timeline.specs.Text.{text_of};
ghost use Rattle.edi_trace.specs.Drawn.{most_kept};
ghost use Rattle.edi_trace.specs.Lines.{written};
ghost use Rattle.edi_statuses.specs.Executions.{record_of};
ghost use Rattle.edi_statuses.specs.Accounts.{timeline_files};
ghost use Rattle.edi_main.specs.run.OnAccounts.{kept_status};

use edi_host::{Files, KeepEnd};
use edi_statuses::Status;
use edi_timeline::Timeline;
use edi_trace::{Choices, write_choices};
use std::alloc::{AllocError, Global};

/// The name of a file of a timeline. The only error is want of memory.
fn name_of(alloc: Global, out: &str, kind: &str) -> Result<String, AllocError>
    ensures exact { IfOk result (λ name. string_bytes name ≡ out.now ++ kind.now) }
{
    let mut name = String::from_str(alloc, out)?;
    name.push_str(kind)?;
    Ok(name)
}

/// Keeps the first choices that were drawn, 65,536 at most, under this name.
fn keep_choices<F: Files>(alloc: Global, files: &mut F, name: &str, choices: &Choices) -> KeepEnd
    ensures leaves { WhereTold (F.contents files.old) (F.contents files.new)
        (KeepLeaves result name.now (written (first_choices choices.now.source (min choices.now.drawn most_kept)))) }
    ensures later { F.faults files.old ≤ F.faults files.new }
    ensures cause { result ≡ KeepEnd.Failed → CountRose (F.faults files.old) (F.faults files.new) }
{
    let Ok(bytes) = write_choices(alloc, choices.used()) else {
        return KeepEnd::NoMemory;
    };
    files.keep(alloc, name, &bytes)
}

/// Keeps the record of the choices, if there is to be one.
pub(crate) fn keep_record<F: Files>(
    alloc: Global,
    files: &mut F,
    name: Option<&str>,
    choices: &Choices,
) -> KeepEnd
    ensures keeps { WhereTold (F.contents files.old) (F.contents files.new)
        (KeepsInTurn result (record_of (option_map (λ text. text.now) name.entry) choices.now.source choices.now.drawn)) }
    ensures later { F.faults files.old ≤ F.faults files.new }
    ensures cause { result ≡ KeepEnd.Failed → CountRose (F.faults files.old) (F.faults files.new) }
{
    let Some(name) = name else {
        return KeepEnd::Ok;
    };
    keep_choices(alloc, files, name, choices)
}

/// Keeps a timeline as lines.
fn keep_lines<F: Files>(alloc: Global, files: &mut F, out: &str, timeline: &Timeline) -> KeepEnd
    ensures leaves { WhereTold (F.contents files.old) (F.contents files.new)
        (KeepLeaves result (out.now ++ codes ".txt") (text_of timeline.now.count timeline.now.ending timeline.now.stints)) }
    ensures later { F.faults files.old ≤ F.faults files.new }
    ensures cause { result ≡ KeepEnd.Failed → CountRose (F.faults files.old) (F.faults files.new) }
{
    let Ok(name) = name_of(alloc, out, ".txt") else {
        return KeepEnd::NoMemory;
    };
    let Ok(bytes) = timeline.text(alloc) else {
        return KeepEnd::NoMemory;
    };
    files.keep(alloc, name.as_str(), &bytes)
}

/// Keeps a timeline as a picture.
fn keep_picture<F: Files>(alloc: Global, files: &mut F, out: &str, timeline: &Timeline) -> KeepEnd
    ensures leaves { WhereTold (F.contents files.old) (F.contents files.new)
        (KeepLeaves result (out.now ++ codes ".svg") (picture_of timeline.now.count timeline.now.ending timeline.now.stints)) }
    ensures later { F.faults files.old ≤ F.faults files.new }
    ensures cause { result ≡ KeepEnd.Failed → CountRose (F.faults files.old) (F.faults files.new) }
{
    let Ok(name) = name_of(alloc, out, ".svg") else {
        return KeepEnd::NoMemory;
    };
    let Ok(bytes) = timeline.picture(alloc) else {
        return KeepEnd::NoMemory;
    };
    files.keep(alloc, name.as_str(), &bytes)
}

/// Whether a file was kept.
pub(crate) fn is_kept(end: KeepEnd) -> bool
    ensures { result ≡ keeping.is_kept end }
{
    match end {
        KeepEnd::Ok => true,
        KeepEnd::Failed | KeepEnd::NoMemory => false,
    }
}

/// Keeps the record of the choices, if there is to be one, then the timeline as lines, and then as a picture. It stops at the first that cannot be
/// kept.
pub(crate) fn keep_timed<F: Files>(
    alloc: Global,
    files: &mut F,
    out: &str,
    record_file: Option<&str>,
    choices: &Choices,
    timeline: &Timeline,
) -> KeepEnd
    ensures keeps { WhereTold (F.contents files.old) (F.contents files.new)
        (KeepsInTurn result (record_of (option_map (λ text. text.now) record_file.entry) choices.now.source choices.now.drawn
        ++ timeline_files out.now timeline.now)) }
    ensures later { F.faults files.old ≤ F.faults files.new }
    ensures cause { result ≡ KeepEnd.Failed → CountRose (F.faults files.old) (F.faults files.new) }
{
    let recorded = keep_record(alloc, files, record_file, choices);
    if !is_kept(recorded) {
        return recorded;
    }
    let lines = keep_lines(alloc, files, out, timeline);
    if !is_kept(lines) {
        return lines;
    }
    keep_picture(alloc, files, out, timeline)
}

/// The status of a command that came to this one, and whose files were kept then, or were not.
pub(crate) fn kept_status(end: KeepEnd, came: Status) -> Status
    ensures exact { result ≡ kept_status end came }
{
    match end {
        KeepEnd::Ok => came,
        KeepEnd::Failed => Status::FileFault,
        KeepEnd::NoMemory => Status::NoMemory,
    }
}
