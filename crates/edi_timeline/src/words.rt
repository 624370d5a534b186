//! The words of a line, put after bytes.

ghost use Rattle.std.specs.Option.{option_map};
ghost use Rattle.std.specs.Prelude.{◌≡◌, ◌+◌, ◌++◌, ◌∷◌, ◌<◌, ◌≤◌, ◌^◌, [], OnOk, codes, decimal, length};
ghost use Rattle.edi_calls.specs.Outcome as outcome;
ghost use Rattle.edi_timeline.specs.Told.{meant};
ghost use Rattle.edi_timeline.specs.Text as spec;

use edi_calls::Cause;
use edi_kernel::Ending;
use edi_texts::cause_text;
use itoa::Buffer;
use std::alloc::AllocError;

/// Puts a number after bytes. The only error is that memory ran out, as everywhere here.
pub fn put_number(out: &mut Vec<u8>, number: u64) -> Result<(), AllocError>
    ensures exact { OnOk result (out.new.items ≡ out.old.items ++ decimal number) }
{
    let mut buffer = Buffer::new();
    out.extend_from_slice(buffer.format(number).as_bytes())?;
    Ok(())
}

// Puts `F.B`, the branch being counted from 0.
pub(crate) fn put_branch(out: &mut Vec<u8>, fork: u32, branch: u8) -> Result<(), AllocError>
    ensures exact { OnOk result (out.new.items ≡ out.old.items ++ spec.branch_text fork branch) }
{
    put_number(out, u64::from(fork))?;
    out.extend_from_slice(b".")?;
    put_number(out, u64::from(branch) + 1)
}

// Puts the lines of a place.
pub(crate) fn put_place(out: &mut Vec<u8>, lines: &[u16]) -> Result<(), AllocError>
    ensures exact { OnOk result (out.new.items ≡ out.old.items ++ spec.place_text lines.now) }
{
    for line in lines {
        out.extend_from_slice(b" ")?;
        put_number(out, u64::from(*line))?;
    }
    Ok(())
}

// Puts the turns of a stint.
pub(crate) fn put_turns(out: &mut Vec<u8>, first: u64, last: u64) -> Result<(), AllocError>
    ensures exact { OnOk result (out.new.items ≡ out.old.items ++ spec.turns_text first last) }
{
    if first > last {
        out.extend_from_slice(b" no turn")?;
        return Ok(());
    }
    out.extend_from_slice(b" turns ")?;
    put_number(out, first)?;
    out.extend_from_slice(b" ")?;
    put_number(out, last)
}

/// Puts `line N CAUSE`.
pub fn put_cause(out: &mut Vec<u8>, line: u16, cause: Cause) -> Result<(), AllocError>
    ensures exact { OnOk result (out.new.items ≡ out.old.items ++ spec.ending_text (outcome.failed cause line)) }
{
    out.extend_from_slice(b"line ")?;
    put_number(out, u64::from(line))?;
    out.extend_from_slice(b" ")?;
    out.extend_from_slice(cause_text(cause).as_bytes())?;
    Ok(())
}

/// Puts `bad code state A`.
pub fn put_bad(out: &mut Vec<u8>, address: u32) -> Result<(), AllocError>
    ensures exact { OnOk result (out.new.items ≡ out.old.items ++ spec.ending_text (outcome.bad address)) }
{
    out.extend_from_slice(b"bad code state")?;
    out.extend_from_slice(b" ")?;
    put_number(out, u64::from(address))?;
    Ok(())
}

/// Puts how a run has ended. A fault is kept in no timeline: it would be put as `bad code state 0`.
pub fn put_ending(out: &mut Vec<u8>, ending: Ending) -> Result<(), AllocError>
    ensures exact { OnOk result (out.new.items ≡ out.old.items ++ spec.ending_text (meant ending)) }
{
    match ending {
        Ending::Done => out.extend_from_slice(b"done")?,
        Ending::Halted(line) => put_cause(out, line, Cause::Halt)?,
        Ending::Failed(cause, line) => put_cause(out, line, cause)?,
        Ending::Turns => out.extend_from_slice(b"turn limit")?,
        Ending::Standstill => out.extend_from_slice(b"standstill")?,
        Ending::Bad(address) => put_bad(out, address)?,
        Ending::Fault => put_bad(out, 0)?,
    }
    Ok(())
}

// What makes a number one of three digits.
fn zeros_before(c: u8) -> &'static [u8]
    ensures exact { result.now ≡ spec.zeros_before c }
{
    if c < 10 {
        return b"00";
    }
    if c < 100 {
        return b"0";
    }
    b""
}

// Puts `: ENDING`, if there is one.
pub(crate) fn put_how(out: &mut Vec<u8>, ended: Option<Ending>) -> Result<(), AllocError>
    ensures exact { OnOk result (out.new.items ≡ out.old.items ++ spec.how_text (option_map meant ended)) }
{
    match ended {
        Some(ending) => {
            out.extend_from_slice(b": ")?;
            put_ending(out, ending)
        }
        None => Ok(()),
    }
}

// Puts `\N`, in three digits.
fn put_code(out: &mut Vec<u8>, c: u8) -> Result<(), AllocError>
    ensures exact { OnOk result (out.new.items ≡ out.old.items ++ (codes "\\" ++ (spec.zeros_before c ++ decimal c))) }
{
    out.extend_from_slice(b"\\")?;
    out.extend_from_slice(zeros_before(c))?;
    put_number(out, u64::from(c))
}

// Puts a character that was shown.
fn put_character(out: &mut Vec<u8>, c: u8) -> Result<(), AllocError>
    ensures exact { OnOk result (out.new.items ≡ out.old.items ++ spec.character_text c) }
{
    if (32..=126).contains(&c) && c != b'"' && c != b'\\' {
        out.push(c)?;
        return Ok(());
    }
    if c == b'\n' {
        out.extend_from_slice(b"\\n")?;
        return Ok(());
    }
    put_code(out, c)
}

/// Puts characters that were shown.
pub fn put_characters(out: &mut Vec<u8>, shown: &[u8]) -> Result<(), AllocError>
    ensures exact { OnOk result (out.new.items ≡ out.old.items ++ spec.characters_text shown.now) }
{
    for c in shown {
        put_character(out, *c)?;
    }
    Ok(())
}

// Puts what was shown in a stint: the first six characters, and that there were more.
pub(crate) fn put_shown(out: &mut Vec<u8>, shown: &[u8]) -> Result<(), AllocError>
    ensures exact { OnOk result (out.new.items ≡ out.old.items ++ spec.shown_text shown.now) }
{
    if shown.is_empty() {
        return Ok(());
    }
    out.extend_from_slice(b" shown \"")?;
    if shown.len() > 6 {
        put_characters(out, &shown[..6])?;
        out.extend_from_slice(b"\"..")?;
    } else {
        put_characters(out, shown)?;
        out.extend_from_slice(b"\"")?;
    }
    Ok(())
}
