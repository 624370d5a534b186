//! A predictive parser that goes on from where it stands, symbol by symbol.

ghost use Rattle.std.specs.Prelude.{◌≡◌, ◌≤◌, ◌<◌, ◌+◌, ◌^◌, true, false, ◌∷◌, [], List, IfOk, OnOk, drop, option_map, slice_index_or};
ghost use Rattle.edi_lex.specs.declared.symbol.Mark.{Mark};
ghost use Rattle.edi_grammar.specs.Rules.{opens as opens_level};
ghost use Rattle.edi_explain.specs.expected.Advances.{Advances, Awaits, Front, Reads, may_be};
ghost use Rattle.edi_explain.specs.expected.Awaited as spec;
ghost use Rattle.edi_explain.specs.expected.Reaches.{May};
ghost use Rattle.edi_explain.specs.expected.Numbered as table;
ghost use Rattle.edi_explain.specs.told.Tables.{pairs_of};

use crate::expected::rules::{RULES, Rules, STARTS};
use crate::told::groups::is_among;
use edi_lex::Mark;
use edi_phrases::kind_of;
use std::alloc::{AllocError, Global};

// The number of the first part of the grammar.
const FIRST_PART: u8 = 51;

// As many levels as may be open.
const MOST_LEVELS: usize = 64;

/// What comes of a symbol.
#[derive(Clone, Copy)]
pub enum Step {
    /// It is taken.
    Taken,
    /// Another one is waited for.
    Wrong,
    /// It opens a level too many.
    TooDeep,
    /// It is the end of the text, and stands after a whole program.
    Whole,
}

// ---- the rules

// Whether a rule with these kinds is taken before a symbol of this kind.
fn is_taken_before(kinds: &[u8], kind: u8) -> bool
    ensures exact { result ≡ table.is_taken_before kinds.now kind }
{
    match kinds {
        [] => true,
        [one] => *one == kind,
        _ => is_among(kind, kinds),
    }
}

// The first of these rules that is taken before a symbol of this kind.
fn first_taken(rules: Rules, kind: u8) -> &'static [u8]
    ensures exact { result.now ≡ table.first_taken (pairs_of rules.now) kind }
{
    for rule in rules {
        if is_taken_before(rule.0, kind) {
            return rule.1;
        }
    }
    &[]
}

// The rules of a table after so many; none where it has not more.
#[tactic(auto, using(crate::proofs::told::Cutting::back_none))]
fn rules_from(rules: Rules, start: usize) -> Rules
    ensures exact { result.now ≡ drop start rules.now }
{
    if start < rules.len() {
        let (_, back) = rules.split_at(start);
        return back;
    }
    &[]
}

// The number of a table at an index; 0 where it has none.
fn start_in(starts: &[u8], index: usize) -> usize
    ensures exact { result ≡ slice_index_or starts.now index 0 }
{
    match starts.get(index) {
        Some(start) => usize::from(*start),
        None => 0,
    }
}

// The rule of the part of this index that is taken before a symbol of this kind.
fn taken_at(index: usize, kind: u8) -> &'static [u8]
    ensures exact { result.now ≡ table.taken_at index kind }
{
    let start = start_in(&STARTS, index);
    first_taken(rules_from(&RULES, start), kind)
}

// ---- levels

// Whether a symbol of this kind opens a level.
fn opens(kind: u8) -> bool
    ensures exact { result ≡ opens_level kind }
{
    matches!(kind, 25 | 20 | 16 | 32 | 31 | 9 | 47 | 49 | 21)
}

// How many levels end, with one number more in front.
fn level_with(number: u8, levels: usize) -> usize
    requires few { levels < 2 ^ 63 }
    ensures exact { result ≡ spec.level_with number levels }
{
    if number == 0 {
        return levels + 1;
    }
    if FIRST_PART <= number {
        return levels;
    }
    if opens(number) {
        return levels.saturating_sub(1);
    }
    levels
}

// How many levels end in what is waited for.
fn levels_in(numbers: &[u8]) -> usize
    ensures exact { result ≡ spec.levels_on numbers.now 0 }
{
    let mut levels: usize = 0;
    for number in numbers {
        levels = level_with(*number, levels);
    }
    levels
}

// ---- ends of levels

// How many there are, with one number more.
fn end_with(number: u8, ends: usize) -> usize
    requires few { ends + 1 < 2 ^ 64 }
    ensures exact { result ≡ spec.end_with number ends }
{
    if number == 0 { ends + 1 } else { ends }
}

// How many there are with these numbers behind others.
fn ends_with(numbers: &[u8], ends: usize) -> usize
    requires few { ends < 2 ^ 63 }
    ensures exact { result ≡ spec.ends_on numbers.now ends }
{
    let mut many = ends;
    for number in numbers {
        many = end_with(*number, many);
    }
    many
}

// ---- one symbol

// What comes of a symbol of this kind where one of that kind is waited for, and then these, with so many ends of levels.
fn at_symbol(numbers: &[u8], ends: usize, wanted: u8, kind: u8) -> Step
    requires counted { ends ≡ spec.ends_on numbers.now 0 }
    requires some { 1 ≤ wanted }
    requires known { wanted ≤ 50 }
    ensures exact { Advances (spec.part_no wanted ∷ spec.waits numbers.now) (spec.waits numbers.now) kind result }
{
    if wanted != kind {
        return Step::Wrong;
    }
    if !opens(kind) {
        return Step::Taken;
    }
    if ends <= MOST_LEVELS {
        return Step::Taken;
    }
    if MOST_LEVELS < levels_in(numbers) {
        return Step::TooDeep;
    }
    Step::Taken
}

// What comes of the end of the program, or a symbol in its place.
#[tactic(auto, using(crate::proofs::expected::Symbols::wrong_at_end))]
fn at_end(kind: u8) -> Step
    ensures exact { Advances (spec.waits []) (spec.waits []) kind result }
{
    if kind == 0 { Step::Whole } else { Step::Wrong }
}

// Whether this is the number of a symbol.
fn is_symbol(number: u8) -> bool
    ensures some { result ≡ true → 1 ≤ number }
    ensures known { result ≡ true → number ≤ 50 }
    ensures other { result ≡ false → 0 < number → number < 51 → ⊥ }
{
    0 < number && number < FIRST_PART
}

// Takes off the number of what is waited for first.
fn take_front(numbers: &mut Vec<u8>) -> Option<u8>
    ensures exact { Front numbers.old.items numbers.new.items result }
{
    numbers.pop()
}

// Takes a symbol of this kind, where it may stand, with so many ends of levels; 0 is the end of the text.
fn advance(numbers: &mut Vec<u8>, ends: &mut usize, kind: u8) -> Result<Step, AllocError>
    requires counted { ends.old ≡ spec.ends_on numbers.old.items 0 }
    ensures exact { IfOk result (λ step. Advances (spec.waits numbers.old.items) (spec.waits numbers.new.items) kind step) }
    ensures counted { OnOk result (ends.new ≡ spec.ends_on numbers.new.items 0) }
{
    while let Some(number) = take_front(numbers) {
        if is_symbol(number) {
            return Ok(at_symbol(numbers.as_slice(), *ends, number, kind));
        }
        let many = put_rule(numbers, *ends, number, kind)?;
        *ends = many;
    }
    Ok(at_end(kind))
}

// Puts the parts of a rule in place of a part; the end of a level has none. It gives how many ends of levels there are then.
fn put_rule(numbers: &mut Vec<u8>, ends: usize, number: u8, kind: u8) -> Result<usize, AllocError>
    requires few { ends < 2 ^ 63 }
    requires counted { ends ≡ spec.end_with number (spec.ends_on numbers.old.items 0) }
    ensures exact { OnOk result (numbers.new.items ≡ spec.gives_way numbers.old.items number kind) }
    ensures counted { IfOk result (λ many. many ≡ spec.ends_on numbers.new.items 0) }
{
    if number == 0 {
        return Ok(ends.saturating_sub(1));
    }
    let index = usize::from(number.saturating_sub(FIRST_PART));
    let rule = taken_at(index, kind);
    if rule.is_empty() {
        return Ok(ends);
    }
    numbers.extend_from_slice(rule)?;
    Ok(ends_with(rule, ends))
}

// ---- marks

// Whether a symbol is taken.
fn is_taken(step: Step) -> bool
    ensures yes { result ≡ true → step ≡ Step.Taken }
    ensures no { result ≡ false → step ≡ Step.Taken → ⊥ }
{
    matches!(step, Step::Taken)
}

/// What is waited for after these marks; nothing where they begin no program.
pub(crate) fn awaited(alloc: Global, marks: &[Mark]) -> Result<Option<Vec<u8>>, AllocError>
    ensures exact { IfOk result (λ found. Reads marks.now (option_map (λ numbers. numbers.items) found)) }
{
    let mut numbers = Vec::new(alloc);
    let mut ends: usize = 0;
    numbers.push(FIRST_PART)?;
    for mark in marks {
        let step = advance(&mut numbers, &mut ends, kind_of(&mark.symbol))?;
        if !is_taken(step) {
            return Ok(None);
        }
    }
    Ok(Some(numbers))
}

// Whether a symbol may stand of which this comes.
fn may_follow(step: Step) -> bool
    ensures exact { result ≡ may_be step }
{
    matches!(step, Step::Taken | Step::Whole)
}

/// Whether a symbol of this kind may stand where these are waited for; 0 is the end of the text.
pub(crate) fn may_stand(alloc: Global, numbers: &[u8], kind: u8) -> Result<bool, AllocError>
    requires known { kind ≤ 50 }
    ensures exact { IfOk result (λ b. (before : List Mark) → Awaits before numbers.now → May before kind b) }
{
    let mut then = Vec::new(alloc);
    then.extend_from_slice(numbers)?;
    let mut ends = ends_with(numbers, 0);
    let step = advance(&mut then, &mut ends, kind)?;
    // What comes after the symbol shows that the marks with it begin a program.
    let _end = advance(&mut then, &mut ends, 0)?;
    Ok(may_follow(step))
}
