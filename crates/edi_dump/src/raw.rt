//! The frames of a program of which nothing is known, by their words.

ghost use Rattle.std.specs.Prelude.{◌≡◌, ◌-◌, ◌++◌, OnOk, codes, flat_map, nat_lt, if◌then◌else◌};
ghost use Rattle.std.specs.Fmt.{decimal};
ghost use Rattle.edi_store.specs.Memory.{words_at};
ghost use Rattle.edi_dump.specs.Frames as spec;

use crate::values::{MOST_SHOWN, behind, first, shown};
use edi_kernel::Below;
use edi_timeline::words::put_number;
use std::alloc::AllocError;

// Puts words. The only error is that memory ran out, as everywhere here.
fn put_words(out: &mut Vec<u8>, words: &[u16]) -> Result<(), AllocError>
    ensures exact { OnOk result (out.new.items ≡ out.old.items ++ flat_map (λ w. codes " " ++ decimal w) words.now) }
{
    for word in words {
        out.extend_from_slice(b" ")?;
        put_number(out, u64::from(*word))?;
    }
    Ok(())
}

// What ends the line of a frame of so many words.
fn line_end(words: usize) -> &'static [u8]
    ensures exact { result.now ≡ (if nat_lt 64 words then codes " ..\n" else codes "\n") }
{
    if words > MOST_SHOWN {
        return b" ..\n";
    }
    b"\n"
}

// Puts the first words of a frame.
fn put_raw(out: &mut Vec<u8>, words: &[u16]) -> Result<(), AllocError>
    ensures exact { OnOk result (out.new.items ≡ out.old.items ++ spec.raw_text words.now) }
{
    put_words(out, shown(words))?;
    out.extend_from_slice(line_end(words.len()))?;
    Ok(())
}

// Puts where a frame goes on, and its first words.
fn put_back(out: &mut Vec<u8>, back: u32, words: &[u16]) -> Result<(), AllocError>
    ensures exact { OnOk result (out.new.items ≡ out.old.items ++
        (codes " goes on at " ++ (decimal back ++ (codes ":" ++ spec.raw_text words.now)))) }
{
    out.extend_from_slice(b" goes on at ")?;
    put_number(out, u64::from(back))?;
    out.extend_from_slice(b":")?;
    put_raw(out, words)
}

// The words of a frame.
fn words_of(memory: &[u16], frame: Below) -> &[u16]
    ensures exact { result.now ≡ words_at memory.now frame.base (frame.top - frame.base) }
{
    let words = behind(memory, frame.base as usize);
    first(words, frame.top.saturating_sub(frame.base) as usize)
}

/// Puts the line of a frame.
pub(crate) fn put_raw_frame(
    out: &mut Vec<u8>,
    memory: &[u16],
    frame: Below,
) -> Result<(), AllocError>
    ensures exact { OnOk result (out.new.items ≡ out.old.items ++ spec.raw_frame memory.now frame) }
{
    out.extend_from_slice(b"  frame at ")?;
    put_number(out, u64::from(frame.base))?;
    put_back(out, frame.back, words_of(memory, frame))
}
