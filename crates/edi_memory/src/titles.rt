//! Titles of files, as the words of a call spell them.

ghost use Rattle.std.specs.Prelude.{◌≡◌, ◌%◌, IfOk, map, take};
ghost use Rattle.std.specs.Option.{option_map};
ghost use Rattle.edi_calls.specs.State.{title_of, without_blanks, character};

use edi_calls::is_title;
use std::alloc::{AllocError, Global};

const BLANK: u8 = 32;

/// Each word as a character: the words are taken modulo 128.
fn characters(alloc: Global, words: &[u16]) -> Result<Vec<u8>, AllocError>
    ensures { IfOk result (λ v. v.items ≡ map character words.now) }
{
    words.iter().map(|word| (*word % 128) as u8).collect(alloc)
}

/// The number of characters without the blanks at the end.
fn kept_length(title: &[u8]) -> usize
    ensures { take result title.now ≡ without_blanks title.now }
{
    let mut kept = 0;
    for (index, c) in title.iter().enumerate() {
        if *c != BLANK {
            kept = index + 1;
        }
    }
    kept
}

/// The title that the words of a call spell, without the blanks at its end; none where they spell no title.
pub(crate) fn title_of(alloc: Global, words: &[u16]) -> Result<Option<Vec<u8>>, AllocError>
    ensures { IfOk result (λ title. option_map (λ v. v.items) title ≡ title_of words.now) }
{
    let mut title = characters(alloc, words)?;
    let kept = kept_length(&title);
    title.truncate(kept);
    Ok(if is_title(&title) { Some(title) } else { None })
}
