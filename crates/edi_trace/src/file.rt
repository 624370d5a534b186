//! Files of choices.

ghost use Rattle.std.specs.Prelude.{◌≡◌, ◌<◌, ◌≤◌, true, ◌∷◌, [], length, position, if◌then◌else◌, MatchOption, IfSome, IfOk};
ghost use Rattle.std.specs.List.{slice_split, list_all};
ghost use Rattle.edi_trace.specs.Drawn.{most_kept};
ghost use Rattle.edi_trace.specs.Lines.{is_digit, is_line_feed, is_choice, number_of, values, read_of, written, ReadingAnswers};

use std::alloc::{AllocError, Global};
use thiserror::Error;

/// The greatest number of lines of a file.
const MOST_LINES: usize = 65_536;

const LINE_FEED: u8 = 10;

/// Why a file of choices is refused.
#[derive(Debug, Drop, Error)]
pub enum ChoiceFault {
    /// This line, counted from 1, is the first that is no choice.
    #[error("choices line {0}")]
    Line(u32),
    /// There was not enough memory.
    #[error("no memory")]
    NoMemory,
}

/// The place of the first line feed.
fn line_end(bytes: &[u8]) -> Option<usize>
    ensures { result ≡ position is_line_feed bytes.now }
{
    bytes.iter().position(|c| *c == LINE_FEED)
}

/// The first line, without its line feed, and what stands after it; none where there is no line feed.
fn first_line(bytes: &[u8]) -> Option<(&[u8], &[u8])>
    ensures cut { MatchOption result (slice_split is_line_feed bytes.now ≡ bytes.now ∷ [])
        (λ pair. slice_split is_line_feed bytes.now ≡ pair.0.now ∷ slice_split is_line_feed pair.1.now) }
    ensures shorter { IfSome result (λ pair. length pair.1.now < length bytes.now) }
{
    match line_end(bytes) {
        Some(end) => {
            let (line, _) = bytes.split_at(end);
            let (_, after) = bytes.split_at(end + 1);
            Some((line, after))
        }
        None => None,
    }
}

fn are_digits(line: &[u8]) -> bool
    ensures { result ≡ list_all is_digit line.now }
{
    line.iter().all(|c| c.is_ascii_digit())
}

/// The number that at most three digits spell.
#[tactic(auto, using(crate::proofs::Digits::digit_low, crate::proofs::Digits::digit_high, crate::proofs::Digits::number_more))]
fn number_of(line: &[u8]) -> u16
    requires short { length line.now ≤ 3 }
    requires digits { list_all is_digit line.now ≡ true }
    ensures { result ≡ number_of line.now }
{
    let mut number = 0;
    for c in line {
        number = number * 10 + u16::from(*c - b'0');
    }
    number
}

/// The choice that a line spells: one to three digits, with a value of at most 255.
fn choice_of(line: &[u8]) -> Option<u8>
    ensures { result ≡ (if is_choice line.now then Some (number_of line.now) else None) }
{
    if line.is_empty() || line.len() > 3 || !are_digits(line) {
        return None;
    }
    let number = number_of(line);
    if number <= 255 {
        Some(number as u8)
    } else {
        None
    }
}

/// The choices of a file: lines of one to three decimal digits with a value 0 to 255, each ended by one line feed, at
/// most 65,536 lines. A file without bytes has no choices.
pub fn read_choices(alloc: Global, bytes: &[u8]) -> Result<Vec<u8>, ChoiceFault>
    ensures { ReadingAnswers (λ v. v.items) (read_of bytes.now) result }
{
    let mut values = Vec::new(alloc);
    let mut rest = bytes;
    while !rest.is_empty() {
        let line = values.len() as u32 + 1;
        let Some((digits, after)) = first_line(rest) else {
            return Err(ChoiceFault::Line(line));
        };
        let Some(value) = choice_of(digits) else {
            return Err(ChoiceFault::Line(line));
        };
        if values.len() >= MOST_LINES {
            return Err(ChoiceFault::Line(line));
        }
        if values.push(value).is_err() {
            return Err(ChoiceFault::NoMemory);
        }
        rest = after;
    }
    Ok(values)
}

/// The file of these choices: each number without leading zeros, and its line feed. `read_choices` of it gives the
/// choices back, if they are at most 65,536.
pub fn write_choices(alloc: Global, used: &[u8]) -> Result<Vec<u8>, AllocError>
    ensures exact { IfOk result (λ v. v.items ≡ written used.now) }
    ensures read { IfOk result (λ v. length used.now ≤ most_kept → read_of v.items ≡ values used.now) }
{
    let mut bytes = Vec::new(alloc);
    for value in used {
        let line = format!(in alloc; "{value}\n")?;
        bytes.extend_from_slice(line.as_bytes())?;
    }
    Ok(bytes)
}
