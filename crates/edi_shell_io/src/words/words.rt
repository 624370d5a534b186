//! The words of a line.

ghost use Rattle.std.specs.Prelude.{◌≡◌, ◌↔◌, ◌≤◌, [], ◌∷◌, false, length, IsTrue, IfSome, MatchOption};
ghost use Rattle.std.specs.List.{list_any, list_all, prefix_len};
ghost use Rattle.edi_session.specs.Words as spec;
ghost use Rattle.edi_shell_io.specs.words.Operands as operands;

use edi_image::Title;

// A blank, a tab or a carriage return.
fn is_separator(byte: u8) -> bool
    ensures { result ≡ spec.is_gap byte }
{
    byte == b' ' || byte == b'\t' || byte == b'\r'
}

fn is_line_byte(byte: u8) -> bool
    ensures { result ≡ spec.is_line_byte byte }
{
    is_separator(byte) || byte.is_ascii_graphic()
}

/// Whether the bytes are separators and printed characters alone.
pub(crate) fn are_line_bytes(line: &[u8]) -> bool
    ensures { result ≡ list_all spec.is_line_byte line.now }
{
    line.iter().all(|byte| is_line_byte(*byte))
}

// How many separators stand in front.
fn separators(line: &[u8]) -> usize
    ensures before { result ≡ prefix_len spec.is_gap line.now }
    ensures within { result ≤ length line.now }
{
    line.iter().take_while(|byte| is_separator(**byte)).count()
}

// How many bytes stand before the first separator, or in all where there is none.
fn word_length(line: &[u8]) -> usize
    ensures before { result ≡ prefix_len operands.is_plain line.now }
    ensures within { result ≤ length line.now }
{
    line.iter().take_while(|byte| !is_separator(**byte)).count()
}

// The first word, which is empty where there are no words, and what stands behind it.
fn first_cut(line: &[u8]) -> (&[u8], &[u8])
    ensures word { result.0.now ≡ operands.first_word (operands.begun line.now) }
    ensures rest { result.1.now ≡ operands.behind_word (operands.begun line.now) }
{
    let (_, begun) = line.split_at(separators(line));
    begun.split_at(word_length(begun))
}

/// The first word, and what stands behind it; none where there are no words.
pub(crate) fn next_word(line: &[u8]) -> Option<(&[u8], &[u8])>
    ensures cut { MatchOption result (spec.words_in line.now ≡ [])
        (λ pair. spec.words_in line.now ≡ pair.0.now ∷ spec.words_in pair.1.now) }
    ensures whole { IfSome result (λ pair. list_any spec.is_gap pair.0.now ≡ false) }
{
    let (word, rest) = first_cut(line);
    if word.is_empty() {
        None
    } else {
        Some((word, rest))
    }
}

/// Whether there are no words.
pub(crate) fn has_none(line: &[u8]) -> bool
    ensures { IsTrue result ↔ (spec.words_in line.now ≡ []) }
{
    next_word(line).is_none()
}

/// The title that a word is.
pub(crate) fn title_of(word: &[u8]) -> Option<Title>
    requires whole { list_any spec.is_gap word.now ≡ false }
    ensures { result ≡ operands.title_in word.now }
{
    Title::new(word)
}

/// The one title that the words are; none where they are anything else.
pub(crate) fn one_title(line: &[u8]) -> Option<Title>
    ensures { result ≡ operands.one_title (spec.words_in line.now) }
{
    let (word, rest) = next_word(line)?;
    let title = title_of(word)?;
    if has_none(rest) { Some(title) } else { None }
}

/// The two titles that the words are; none where they are anything else.
pub(crate) fn two_titles(line: &[u8]) -> Option<(Title, Title)>
    ensures { result ≡ operands.two_titles (spec.words_in line.now) }
{
    let (word, rest) = next_word(line)?;
    let first = title_of(word)?;
    let second = one_title(rest)?;
    Some((first, second))
}
