//! The line that tells what a program shows.

ghost use Rattle.std.specs.Prelude.{◌≡◌, ◌++◌, OnOk};
ghost use Rattle.edi_runs.specs.explore.Lines as spec;

use edi_timeline::words::put_characters;
use std::alloc::AllocError;

// So many characters of an output are told at most.
const MOST_TOLD: usize = 400;

// Puts the characters of an output, and that there are more than the first 400.
fn put_text(out: &mut Vec<u8>, shown: &[u8]) -> Result<(), AllocError>
    ensures exact { OnOk result (out.new.items ≡ out.old.items ++ spec.output_text shown.now) }
{
    if shown.len() > MOST_TOLD {
        let (first, _more) = shown.split_at(MOST_TOLD);
        put_characters(out, first)?;
        out.extend_from_slice(b"\"..\n")?;
        return Ok(());
    }
    put_characters(out, shown)?;
    out.extend_from_slice(b"\"\n")?;
    Ok(())
}

// Puts what is shown, or that nothing is.
fn put_line(out: &mut Vec<u8>, shown: &[u8]) -> Result<(), AllocError>
    ensures exact { OnOk result (out.new.items ≡ out.old.items ++ spec.output_line shown.now) }
{
    if shown.is_empty() {
        out.extend_from_slice(b"  shows nothing\n")?;
        return Ok(());
    }
    out.extend_from_slice(b"  shown \"")?;
    put_text(out, shown)?;
    Ok(())
}

// Puts what is shown, where that is asked for.
pub(crate) fn put_output(out: &mut Vec<u8>, asks: bool, shown: &[u8]) -> Result<(), AllocError>
    ensures exact { OnOk result (out.new.items ≡ out.old.items ++ spec.output_lines asks shown.now) }
{
    if asks {
        return put_line(out, shown);
    }
    Ok(())
}
