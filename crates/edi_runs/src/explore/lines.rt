//! The lines that tell a report.

ghost use Rattle.std.specs.Prelude.{◌≡◌, ◌++◌, OnOk, IfOk, map, option_map};
ghost use Rattle.edi_runs.specs.explore.Lines as spec;
ghost use Rattle.edi_runs.specs.explore.Told.{findings_of, reached_of};

use crate::explore::naming::{put_longest, put_orders};
use crate::explore::orders::Exploration;
use crate::explore::output::put_output;
use crate::explore::records::MOST_RECORDS;
use crate::explore::waiting::put_waits;
use crate::explore::words::{put_choices, put_moves, put_states, put_turns};
use edi_explore::{Found, Verdict};
use edi_timeline::words::{put_ending, put_number};
use std::alloc::{AllocError, Global};

// Puts ` in NAME.3`, if the choices of that ending are kept.
fn put_kept(out: &mut Vec<u8>, name: &str, most: usize, number: usize) -> Result<(), AllocError>
    ensures exact { OnOk result (out.new.items ≡ out.old.items ++ spec.kept_text name.now most number) }
{
    if number > most {
        return Ok(());
    }
    out.extend_from_slice(b" in ")?;
    out.extend_from_slice(name.as_bytes())?;
    out.extend_from_slice(b".")?;
    put_number(out, number as u64)
}

// Puts an ending, and after how many turns it comes.
fn put_head(out: &mut Vec<u8>, found: &Found) -> Result<(), AllocError>
    ensures exact { OnOk result (out.new.items ≡ out.old.items ++ spec.head_text (reached_of found.now)) }
{
    put_ending(out, found.ending)?;
    out.extend_from_slice(b" after ")?;
    put_turns(out, found.turns)?;
    out.extend_from_slice(b": ")?;
    Ok(())
}

// Puts what is shown by an ending, where that is asked for, and who waits where.
fn put_under(out: &mut Vec<u8>, asks: bool, found: &Found) -> Result<(), AllocError>
    ensures exact { OnOk result (out.new.items ≡ out.old.items ++ spec.under_text asks (reached_of found.now)) }
{
    put_output(out, asks, &found.shown)?;
    put_waits(out, &found.waits)?;
    Ok(())
}

// Puts the choices of the ending with this number, and the lines under it.
fn put_tail(
    out: &mut Vec<u8>,
    asks: bool,
    name: &str,
    most: usize,
    number: usize,
    found: &Found,
) -> Result<(), AllocError>
    ensures exact { OnOk result (out.new.items ≡ out.old.items ++ spec.tail_text asks name.now most number (reached_of found.now)) }
{
    put_choices(out, &found.choices)?;
    put_kept(out, name, most, number)?;
    out.extend_from_slice(b"\n")?;
    put_under(out, asks, found)?;
    Ok(())
}

// Puts the lines of the ending with this number.
fn put_found(
    out: &mut Vec<u8>,
    asks: bool,
    name: &str,
    most: usize,
    number: usize,
    found: &Found,
) -> Result<(), AllocError>
    ensures exact { OnOk result (out.new.items ≡ out.old.items ++ spec.ending_line asks name.now most number (reached_of found.now)) }
{
    put_head(out, found)?;
    put_tail(out, asks, name, most, number, found)?;
    Ok(())
}

// Puts the lines of endings, of which the first has number 1.
fn put_endings(
    out: &mut Vec<u8>,
    asks: bool,
    name: &str,
    most: usize,
    endings: &[Found],
) -> Result<(), AllocError>
    ensures exact { OnOk result (out.new.items ≡ out.old.items ++ spec.ending_lines asks name.now most 1 (map reached_of endings.now)) }
{
    let mut number: usize = 1;
    for found in endings {
        put_found(out, asks, name, most, number, found)?;
        number += 1;
    }
    Ok(())
}

// Puts that no execution ends otherwise than in one of so many ways.
fn put_all(out: &mut Vec<u8>, endings: usize) -> Result<(), AllocError>
    ensures exact { OnOk result (out.new.items ≡ out.old.items ++ spec.all_text endings) }
{
    if endings == 0 {
        out.extend_from_slice(b"every execution goes on for ever")?;
        return Ok(());
    }
    out.extend_from_slice(b"no execution ends otherwise")?;
    Ok(())
}

// Puts that all executions of fewer moves were followed.
fn put_followed(out: &mut Vec<u8>, moves: usize) -> Result<(), AllocError>
    ensures exact { OnOk result (out.new.items ≡ out.old.items ++ spec.below_text moves) }
{
    if moves == 0 {
        return Ok(());
    }
    out.extend_from_slice(b"; every execution of fewer than ")?;
    put_moves(out, moves as u64)?;
    out.extend_from_slice(b" was followed")?;
    Ok(())
}

// Puts which executions were followed where not all were.
fn put_below(out: &mut Vec<u8>, why: &[u8], moves: usize) -> Result<(), AllocError>
    ensures exact { OnOk result (out.new.items ≡ out.old.items ++ (why.now ++ spec.below_text moves)) }
{
    out.extend_from_slice(why)?;
    put_followed(out, moves)?;
    Ok(())
}

// Puts that a stint was cut with these choices.
fn put_cut(out: &mut Vec<u8>, choices: &[u8], moves: usize) -> Result<(), AllocError>
    ensures exact { OnOk result (out.new.items
        ≡ out.old.items ++ spec.verdict_text (Verdict.Cut moves) 0 choices.now) }
{
    out.extend_from_slice(
        b"perhaps not all: a process goes on for more turns than --turns allows, with ",
    )?;
    put_choices(out, choices)?;
    put_followed(out, moves)?;
    Ok(())
}

// Puts whether there are others than so many endings.
fn put_verdict(
    out: &mut Vec<u8>,
    verdict: Verdict,
    endings: usize,
    cut: &[u8],
) -> Result<(), AllocError>
    ensures exact { OnOk result (out.new.items ≡ out.old.items ++ spec.verdict_text verdict endings cut.now) }
{
    match verdict {
        Verdict::All => put_all(out, endings),
        Verdict::Full(moves) => {
            put_below(out, b"perhaps not all: --states allows no more", moves)
        }
        Verdict::Many(moves) => put_below(out, b"perhaps not all: --shown allows no more", moves),
        Verdict::Cut(moves) => put_cut(out, cut, moves),
        Verdict::Unrecorded(moves) => {
            put_below(out, b"perhaps not all: an ending has no record", moves)
        }
        Verdict::NoMemory(moves) => put_below(out, b"perhaps not all: memory ran out", moves),
    }
}

// Puts the line on other endings.
fn put_end(out: &mut Vec<u8>, exploration: &Exploration) -> Result<(), AllocError>
    ensures exact { OnOk result (out.new.items ≡ out.old.items ++ spec.verdict_line (findings_of exploration.now)) }
{
    let report = &exploration.report;
    put_verdict(out, report.verdict, report.found.len(), &report.cut)?;
    out.extend_from_slice(b"; ")?;
    put_states(out, report.states as u64)?;
    out.extend_from_slice(b"\n")?;
    Ok(())
}

// Puts the lines after those of the endings.
fn put_last(out: &mut Vec<u8>, exploration: &Exploration) -> Result<(), AllocError>
    ensures exact { OnOk result (out.new.items ≡ out.old.items ++ spec.last_lines (findings_of exploration.now)) }
{
    let report = &exploration.report;
    put_end(out, exploration)?;
    put_longest(out, report.verdict, report.longest)?;
    put_orders(out, report.found.len(), &exploration.orders)?;
    Ok(())
}

// The lines of an exploration, where the choices of the first `most` endings are kept under this name.
fn text_with(
    alloc: Global,
    exploration: &Exploration,
    asks: bool,
    name: &str,
    most: usize,
) -> Result<Vec<u8>, AllocError>
    ensures exact { IfOk result (λ text. text.items
        ≡ spec.ending_lines asks name.now most 1 (findings_of exploration.now).endings ++ spec.last_lines (findings_of exploration.now)) }
{
    let mut out = Vec::new(alloc);
    put_endings(&mut out, asks, name, most, &exploration.report.found)?;
    put_last(&mut out, exploration)?;
    Ok(out)
}

/// The lines of an exploration: one for each ending in the order in which they were found, as `line 12 range after 57 turns: choices 4 0`; after
/// that of a standstill one for each process that waits; one that says whether there are others, as `no execution ends otherwise; 45 states`; and
/// those that say how many moves an execution makes at most, and whether another order of steps may end otherwise. Where output is asked for, the
/// line after that of an ending tells it, as `  shown "1\n"`. Where choices are kept under a name, the line of an ending says in which file. The
/// only error is want of memory.
#[tactic(auto, unfolding(crate::specs::explore::Records::most_records))]
pub fn report_text(
    alloc: Global,
    exploration: &Exploration,
    asks: bool,
    kept: Option<&str>,
) -> Result<Vec<u8>, AllocError>
    ensures exact { IfOk result (λ text. text.items
        ≡ spec.report_text asks (option_map (λ name. name.now) kept.entry) (findings_of exploration.now)) }
{
    match kept {
        Some(name) => text_with(alloc, exploration, asks, name, MOST_RECORDS),
        None => text_with(alloc, exploration, asks, "", 0),
    }
}
