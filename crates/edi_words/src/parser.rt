//! The words as operands and options, read with `clap`.

ghost use Rattle.std.specs.Prelude.{◌≡◌, [], false, map, is_some, IfOk, IfSome, option_map};
ghost use Rattle.std.specs.String.{string_bytes};
ghost use Rattle.clap.specs.Walk.{rows_of, rule_of};
ghost use Rattle.clap.specs.Simple.{app_of};
ghost use Rattle.clap.specs.Matches.{found_of};
ghost use Rattle.edi_words.specs.Words.{command_of, parts_of};
ghost use Rattle.edi_words.specs.Words as spec;
ghost use Rattle.edi_words.specs.View.{texts, view, IsInRange};
ghost use Rattle.edi_words.specs.Inside.{app, given_in, given_view, goes, option_rule, values_in, word_rule};

use crate::commands::Command;
use crate::given::Given;
use crate::table::command_in;
use clap::error::ErrorKind;
use clap::{Arg, ArgAction, ArgMatches};
use std::alloc::{AllocError, Global};

fn is_plain(word: &str) -> bool
    ensures { result ≡ spec.is_plain word.now }
{
    match word.as_bytes().first() {
        Some(c) => *c != b'-',
        None => false,
    }
}

fn is_option_name(word: &str) -> bool
    ensures { result ≡ spec.is_option_name word.now }
{
    word == "--turns"
        || word == "--choices"
        || word == "--seed"
        || word == "--record"
        || word == "--from"
        || word == "--states"
        || word == "--shown"
        || word == "--timeline"
        || word == "--dump"
}

/// Whether the words are operands and options, each with its value.
#[tactic(auto, using(crate::proofs::Tests::goes_is))]
fn are_parts(words: &[String]) -> bool
    ensures { result ≡ is_some (parts_of (map string_bytes words.now)) }
{
    let mut wanted = false;
    for word in words {
        let plain = is_plain(word);
        if !plain && wanted {
            return false;
        }
        if !plain && !is_option_name(word) {
            return false;
        }
        wanted = !plain;
    }
    !wanted
}

/// An option that takes one value each time.
fn option_of<'a>(alloc: Global, name: &'a str) -> Arg<'a>
    ensures rule { rule_of result ≡ option_rule name.entry.now }
    ensures local { result.global ≡ false }
{
    Arg::new(alloc, name).long(name).action(ArgAction::Append)
}

/// The operands.
fn operands_of<'a>(alloc: Global) -> Arg<'a>
    ensures rule { rule_of result ≡ word_rule }
    ensures local { result.global ≡ false }
{
    Arg::new(alloc, "words").action(ArgAction::Append)
}

/// The one simple command as which the words are read. How often an option may come, and beside what, depends on the command
/// and is judged afterwards.
fn parser<'a>(alloc: Global) -> Result<clap::Command<'a>, AllocError>
    ensures { IfOk result (λ c. app_of c ≡ app) }
{
    clap::Command::new(alloc, "edison")
        .disable_help_flag(true)
        .no_binary_name(true)
        .arg(option_of(alloc, "turns"))?
        .arg(option_of(alloc, "choices"))?
        .arg(option_of(alloc, "seed"))?
        .arg(option_of(alloc, "record"))?
        .arg(option_of(alloc, "from"))?
        .arg(option_of(alloc, "states"))?
        .arg(option_of(alloc, "shown"))?
        .arg(option_of(alloc, "timeline"))?
        .arg(option_of(alloc, "dump"))?
        .arg(operands_of(alloc))
}

/// The values of an argument, where there are none the empty list `none`.
fn values<'m, 'a>(matches: &'m ArgMatches<'a>, none: &'m [&'a str], id: &str) -> &'m [&'a str]
    requires empty { none.now ≡ [] }
    ensures { texts result.now ≡ values_in (rows_of (found_of matches.now)) id.now }
{
    matches.get_raw(id).unwrap_or(none)
}

fn given<'m, 'a>(matches: &'m ArgMatches<'a>, none: &'m [&'a str]) -> Given<'m, 'a>
    requires empty { none.now ≡ [] }
    ensures { given_view result ≡ given_in (rows_of (found_of matches.now)) }
{
    Given {
        operands: values(matches, none, "words"),
        turns: values(matches, none, "turns"),
        choices: values(matches, none, "choices"),
        seeds: values(matches, none, "seed"),
        record_files: values(matches, none, "record"),
        old_disks: values(matches, none, "from"),
        states: values(matches, none, "states"),
        shown: values(matches, none, "shown"),
        timelines: values(matches, none, "timeline"),
        dumps: values(matches, none, "dump"),
    }
}

/// The command that the words after the program's name are; none where they are refused. The one error is want of memory.
pub fn command(alloc: Global, words: &[String]) -> Result<Option<Command<'_>>, AllocError>
    ensures exact { IfOk result (λ c. option_map view c ≡ command_of (map string_bytes words.now)) }
    ensures range { IfOk result (λ c. IfSome c IsInRange) }
{
    if !are_parts(words) {
        return Ok(None);
    }
    let parser = parser(alloc)?;
    match parser.try_get_matches_from(words) {
        Ok(matches) => {
            let none: [&str; 0] = [];
            Ok(command_in(&given(&matches, &none)))
        }
        Err(error) => match error.kind() {
            ErrorKind::OutOfMemory => Err(AllocError),
            _ => unreachable!(),
        },
    }
}
