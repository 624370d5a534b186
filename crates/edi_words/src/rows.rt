//! The operands and options of commands that take the same.

ghost use Rattle.std.specs.Prelude.{◌≡◌, ◌≤◌, true, IfSome, option_map};
ghost use Rattle.edi_calls.specs.State.{is_title as is_a_title};
ghost use Rattle.edi_words.specs.Words as words;
ghost use Rattle.edi_words.specs.View.{exploring_of, options_of, texts};
ghost use Rattle.edi_words.specs.Inside.{given_view};

use crate::commands::{ExploreOptions, Options};
use crate::given::{Given, number_in};
use crate::operands::{one_operand, three_operands, two_operands};
use edi_calls::is_title;

/// `run FILE` and `exec CODEFILE`.
pub(crate) fn file_run<'a>(
    operands: &[&'a str],
    given: &Given<'_, 'a>,
) -> Option<(&'a str, Options<'a>)>
    ensures { option_map (λ p. (p.0.now, options_of p.1)) result ≡ words.file_run (texts operands.now) (given_view given.now) }
{
    if !given.takes(1, 1, 0) {
        return None;
    }
    let file = one_operand(operands)?;
    let options = given.options()?;
    Some((file, options))
}

/// `boot`.
pub(crate) fn bare_run<'a>(operands: &[&'a str], given: &Given<'_, 'a>) -> Option<Options<'a>>
    ensures { option_map options_of result ≡ words.bare_run (texts operands.now) (given_view given.now) }
{
    if !given.takes(1, 1, 0) || !operands.is_empty() {
        return None;
    }
    given.options()
}

/// `replay FILE CHOICES` and `walk FILE CHOICES`.
pub(crate) fn guided_run<'a>(
    operands: &[&'a str],
    given: &Given<'_, 'a>,
) -> Option<(&'a str, &'a str, u32)>
    ensures { option_map (λ p. ((p.0.now, p.1.now), p.2)) result ≡ words.guided_run (texts operands.now) (given_view given.now) }
{
    if !given.takes(1, 0, 0) {
        return None;
    }
    let (file, choices) = two_operands(operands)?;
    let turns = given.bound()?;
    Some((file, choices, turns))
}

/// `list CODEFILE`, `check FILE` and `explain FILE`.
pub(crate) fn only_file<'a>(operands: &[&'a str], given: &Given<'_, 'a>) -> Option<&'a str>
    ensures { option_map (λ text. text.now) result ≡ words.only_file (texts operands.now) (given_view given.now) }
{
    if given.takes(0, 0, 0) {
        one_operand(operands)
    } else {
        None
    }
}

/// `compile FILE OUT`.
pub(crate) fn only_files<'a>(
    operands: &[&'a str],
    given: &Given<'_, 'a>,
) -> Option<(&'a str, &'a str)>
    ensures { option_map (λ p. (p.0.now, p.1.now)) result ≡ words.only_files (texts operands.now) (given_view given.now) }
{
    if given.takes(0, 0, 0) {
        two_operands(operands)
    } else {
        None
    }
}

/// `newdisk BLOCKS`.
pub(crate) fn new_disk<'a>(
    operands: &[&'a str],
    given: &Given<'_, 'a>,
) -> Option<(u16, Option<&'a str>)>
    ensures exact { option_map (λ p. (p.0, option_map (λ text. text.now) p.1)) result ≡ words.new_disk (texts operands.now) (given_view given.now) }
    ensures range { IfSome result (λ p. (64 ≤ p.0) × (p.0 ≤ 4096)) }
{
    if !given.takes(0, 0, 1) {
        return None;
    }
    let blocks = number_in(64, 4096, one_operand(operands)?)?;
    Some((blocks as u16, given.old_disk()))
}

/// The file and the title, if that is one.
fn with_title<'a>(file: &'a str, title: &'a str) -> Option<(&'a str, &'a str)>
    ensures exact { option_map (λ p. (p.0.now, p.1.now)) result ≡ words.with_title file.entry.now title.entry.now }
    ensures range { IfSome result (λ p. is_a_title p.1.now ≡ true) }
{
    if is_title(title.as_bytes()) {
        Some((file, title))
    } else {
        None
    }
}

/// `put FILE TITLE`.
pub(crate) fn put_file<'a>(
    operands: &[&'a str],
    given: &Given<'_, 'a>,
) -> Option<(&'a str, &'a str)>
    ensures exact { option_map (λ p. (p.0.now, p.1.now)) result ≡ words.put_file (texts operands.now) (given_view given.now) }
    ensures range { IfSome result (λ p. is_a_title p.1.now ≡ true) }
{
    if !given.takes(0, 0, 0) {
        return None;
    }
    let (file, title) = two_operands(operands)?;
    with_title(file, title)
}

/// `get TITLE FILE`, as the file and the title.
pub(crate) fn get_file<'a>(
    operands: &[&'a str],
    given: &Given<'_, 'a>,
) -> Option<(&'a str, &'a str)>
    ensures exact { option_map (λ p. (p.0.now, p.1.now)) result ≡ words.get_file (texts operands.now) (given_view given.now) }
    ensures range { IfSome result (λ p. is_a_title p.1.now ≡ true) }
{
    if !given.takes(0, 0, 0) {
        return None;
    }
    let (title, file) = two_operands(operands)?;
    with_title(file, title)
}

/// `demo N`.
pub(crate) fn sized_run<'a>(
    operands: &[&'a str],
    given: &Given<'_, 'a>,
) -> Option<(u16, Options<'a>)>
    ensures exact { option_map (λ p. (p.0, options_of p.1)) result ≡ words.sized_run (texts operands.now) (given_view given.now) }
    ensures range { IfSome result (λ p. (1 ≤ p.0) × (p.0 ≤ 1000)) }
{
    if !given.takes(1, 1, 0) {
        return None;
    }
    let n = number_in(1, 1000, one_operand(operands)?)?;
    let options = given.options()?;
    Some((n as u16, options))
}

/// `watch FILE STOPS OUT`.
pub(crate) fn watched_run<'a>(
    operands: &[&'a str],
    given: &Given<'_, 'a>,
) -> Option<(&'a str, &'a str, &'a str, Options<'a>)>
    ensures { option_map (λ p. ((p.0.now, p.1.now, p.2.now), options_of p.3)) result
        ≡ words.watched_run (texts operands.now) (given_view given.now) }
{
    if !given.takes(1, 1, 0) {
        return None;
    }
    let (file, stops, out) = three_operands(operands)?;
    let options = given.options()?;
    Some((file, stops, out, options))
}

/// `explore FILE`.
pub(crate) fn explored_file<'a>(
    operands: &[&'a str],
    given: &Given<'_, 'a>,
) -> Option<(&'a str, ExploreOptions<'a>)>
    ensures { option_map (λ p. (p.0.now, exploring_of p.1)) result ≡ words.explored_file (texts operands.now) (given_view given.now) }
{
    if !given.takes_exploring() {
        return None;
    }
    let file = one_operand(operands)?;
    let options = given.exploring()?;
    Some((file, options))
}
