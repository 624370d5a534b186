//! The operands and options of a command as they were given.

ghost use Rattle.std.specs.Prelude.{◌≡◌, ◌≤◌, IfSome, option_map};
ghost use Rattle.edi_words.specs.Words as words;
ghost use Rattle.edi_words.specs.View.{account_of, choices_from, exploring_of, options_of, texts};
ghost use Rattle.edi_words.specs.Inside.{given_view};

use crate::commands::{Account, ChoicesFrom, ExploreOptions, Options};
use crate::operands::one_operand;

/// The operands, and the values of each option, in the order of the words.
#[derive(Clone, Copy)]
pub(crate) struct Given<'m, 'a> {
    pub(crate) operands: &'m [&'a str],
    pub(crate) turns: &'m [&'a str],
    pub(crate) choices: &'m [&'a str],
    pub(crate) seeds: &'m [&'a str],
    pub(crate) record_files: &'m [&'a str],
    pub(crate) old_disks: &'m [&'a str],
    pub(crate) states: &'m [&'a str],
    pub(crate) shown: &'m [&'a str],
    pub(crate) timelines: &'m [&'a str],
    pub(crate) dumps: &'m [&'a str],
}

fn are_digits(word: &[u8]) -> bool
    ensures { result ≡ words.are_digits word.now }
{
    word.iter().all(|c| c.is_ascii_digit())
}

/// The number that 1 to 10 digits spell.
fn spelled(word: &str) -> Option<u64>
    ensures { result ≡ words.spelled word.now }
{
    if word.is_empty() || word.len() > 10 || !are_digits(word.as_bytes()) {
        return None;
    }
    word.parse::<u64>().ok()
}

/// The number of 1 to 10 digits in this range.
pub(crate) fn number_in(least: u32, most: u32, word: &str) -> Option<u32>
    ensures exact { result ≡ words.number_in least most word.now }
    ensures range { IfSome result (λ n. (least ≤ n) × (n ≤ most)) }
{
    let number = spelled(word)?;
    if number < u64::from(least) || number > u64::from(most) {
        return None;
    }
    Some(number as u32)
}

fn turns_by(values: &[&str]) -> Option<u32>
    ensures { result ≡ words.turns_by (texts values.now) }
{
    match values.first() {
        Some(value) => number_in(1, 1_000_000_000, value),
        None => Some(1_000_000),
    }
}

fn states_by(values: &[&str]) -> Option<u32>
    ensures { result ≡ words.states_by (texts values.now) }
{
    match values.first() {
        Some(value) => number_in(1, 100_000_000, value),
        None => Some(1_000_000),
    }
}

/// How many endings are told where output is looked at.
fn shown_by(values: &[&str]) -> Option<Option<u32>>
    ensures { result ≡ words.shown_by (texts values.now) }
{
    match values.first() {
        Some(value) => {
            let most = number_in(1, 1000, value)?;
            Some(Some(most))
        }
        None => Some(None),
    }
}

fn first_of<'a>(values: &[&'a str]) -> Option<&'a str>
    ensures { option_map (λ text. text.now) result ≡ words.first_of (texts values.now) }
{
    values.first().copied()
}

fn choices_by<'a>(files: &[&'a str], seeds: &[&'a str]) -> Option<ChoicesFrom<'a>>
    ensures { option_map choices_from result ≡ words.choices_by (texts files.now) (texts seeds.now) }
{
    match (first_of(files), first_of(seeds)) {
        (None, None) => Some(ChoicesFrom::Nowhere),
        (Some(name), None) => Some(ChoicesFrom::File(name)),
        (None, Some(value)) => {
            let seed = number_in(0, 65_535, value)?;
            Some(ChoicesFrom::Seed(seed as u16))
        }
        (Some(_), Some(_)) => None,
    }
}

fn at_most(most: usize, values: &[&str]) -> bool
    ensures { result ≡ words.at_most most (texts values.now) }
{
    values.len() <= most
}

impl<'m, 'a> Given<'m, 'a> {
    /// Whether of the options but for `--states`, `--shown`, `--timeline` and `--dump` only these are given, each at most so many times:
    /// `--turns`; `--choices`, `--seed` and `--record`; and `--from`.
    pub(crate) fn takes(&self, turns: usize, others: usize, from: usize) -> bool
        ensures { result ≡ words.takes turns others from (given_view self.now) }
    {
        at_most(turns, self.turns)
            && at_most(others, self.choices)
            && at_most(others, self.seeds)
            && at_most(others, self.record_files)
            && at_most(from, self.old_disks)
    }

    /// Whether neither `--states` nor `--shown` is given.
    pub(crate) fn has_no_exploring(&self) -> bool
        ensures { result ≡ words.has_no_exploring (given_view self.now) }
    {
        at_most(0, self.states) && at_most(0, self.shown)
    }

    /// Whether neither `--timeline` nor `--dump` is given.
    pub(crate) fn has_no_account(&self) -> bool
        ensures { result ≡ words.has_no_account (given_view self.now) }
    {
        at_most(0, self.timelines) && at_most(0, self.dumps)
    }

    /// The account, where just one is asked for.
    pub(crate) fn account(&self) -> Option<Account<'a>>
        ensures { option_map account_of result ≡ words.account_by (texts self.now.timelines.now) (texts self.now.dumps.now) }
    {
        if self.timelines.is_empty() {
            let out = one_operand(self.dumps)?;
            return Some(Account::Dump(out));
        }
        if !self.dumps.is_empty() {
            return None;
        }
        let out = one_operand(self.timelines)?;
        Some(Account::Timeline(out))
    }

    /// Whether only `--states`, `--shown`, `--turns` and `--record` are given, each at most once.
    pub(crate) fn takes_exploring(&self) -> bool
        ensures { result ≡ words.takes_exploring (given_view self.now) }
    {
        at_most(1, self.states)
            && at_most(1, self.shown)
            && at_most(0, self.choices)
            && at_most(0, self.seeds)
            && self.takes(1, 1, 0)
    }

    /// The bound on the turns, a million where none is given.
    pub(crate) fn bound(&self) -> Option<u32>
        ensures { result ≡ words.turns_in (given_view self.now) }
    {
        turns_by(self.turns)
    }

    /// The old image.
    pub(crate) fn old_disk(&self) -> Option<&'a str>
        ensures { option_map (λ text. text.now) result ≡ words.first_of (given_view self.now).old_disks }
    {
        first_of(self.old_disks)
    }

    /// The options of a run.
    pub(crate) fn options(&self) -> Option<Options<'a>>
        ensures { option_map options_of result ≡ words.options_in (given_view self.now) }
    {
        let turns = self.bound()?;
        let choices = choices_by(self.choices, self.seeds)?;
        let record_file = first_of(self.record_files);
        Some(Options {
            turns,
            choices,
            record_file,
        })
    }

    /// The options of an exploration.
    pub(crate) fn exploring(&self) -> Option<ExploreOptions<'a>>
        ensures { option_map exploring_of result ≡ words.exploring_in (given_view self.now) }
    {
        let states = states_by(self.states)?;
        let turns = self.bound()?;
        let shown = shown_by(self.shown)?;
        let record_file = first_of(self.record_files);
        Some(ExploreOptions {
            states,
            turns,
            record_file,
            shown,
        })
    }
}
