//! The undeclared name of a line: the only one that can be it, or the first that is declared nowhere.

ghost use Rattle.std.specs.Prelude.{◌≡◌, ◌≤◌, ◌<◌, option_copied, option_map, drop, length, slice_get, take, Some};
ghost use Rattle.edi_explain.specs.told.Names as spec;
ghost use Rattle.edi_explain.specs.told.Tables.{found_of};

use crate::told::groups::{DECLARATION, is_among};
use crate::told::numbers::kind_at;
use crate::told::words::is_text_of;
use edi_lex::{Mark, Symbol};
use edi_phrases::kind;

// The standard names.
static STANDARD: [&str; 6] = ["int", "char", "bool", "false", "true", "halt"];

// The kinds of symbols after which a name is declared.
static DECLARERS: [u8; 7] = [
    kind::ARRAY,
    kind::CONST,
    kind::ENUM,
    kind::PROC,
    kind::RECORD,
    kind::SET,
    kind::VAR,
];

// The kinds of symbols after which a name is used, among declarations too.
static USERS: [u8; 3] = [kind::COLON, kind::EQUAL, kind::OPEN_BRACKET];

// As many symbols as are looked at for the heading of the program.
const MOST_HEADING: usize = 256;

// As many names of a line are looked up in the whole text.
const MOST_NAMES: usize = 16;

/// The symbol of this index.
pub(crate) fn mark_at(marks: &[Mark], index: usize) -> Option<&Mark>
    ensures exact { option_copied result ≡ slice_get marks.now index }
{
    marks.get(index)
}

/// The symbol before that of this index.
pub(crate) fn before_of(marks: &[Mark], index: usize) -> Option<&Mark>
    ensures exact { option_copied result ≡ spec.before_of marks.now index }
{
    if index == 0 {
        return None;
    }
    marks.get(index - 1)
}

/// The first so many marks, or all.
#[tactic(auto, using(crate::proofs::told::Cutting::front_all))]
pub(crate) fn marks_to(marks: &[Mark], count: usize) -> &[Mark]
    ensures exact { result.now ≡ take count marks.now }
    ensures few { length result.now ≤ count }
    ensures within { length result.now ≤ length marks.now }
{
    if count < marks.len() {
        let (front, _) = marks.split_at(count);
        return front;
    }
    marks
}

// The marks after so many, or none.
#[tactic(auto, using(crate::proofs::told::Cutting::back_none))]
fn marks_from(marks: &[Mark], count: usize) -> &[Mark]
    ensures exact { result.now ≡ drop count marks.now }
    ensures few { length result.now ≤ length marks.now }
{
    if count < marks.len() {
        let (_, back) = marks.split_at(count);
        return back;
    }
    &[]
}

// Whether a name between symbols of these kinds is declared there.
fn is_declared(last: u8, next: u8) -> bool
    ensures exact { result ≡ spec.is_declared last next }
{
    is_among(last, &DECLARERS)
        || (next == kind::COLON && last != kind::OPEN_BRACKET)
        || (last == kind::SEMICOLON && next == kind::EQUAL)
}

// Whether a symbol is this name.
fn is_name(letters: &[u8], mark: &Mark) -> bool
    ensures exact { result ≡ spec.is_name letters.now (spec.name_in mark.now.symbol) }
{
    match &mark.symbol {
        Symbol::Name(other) => letters == other.as_slice(),
        _ => false,
    }
}

// How many parentheses are open behind a symbol of this kind.
fn opened_by(depth: usize, kind: u8) -> usize
    requires few { depth ≤ 524288 }
    ensures exact { result ≡ spec.opened_by depth kind }
{
    match kind {
        kind::OPEN => depth + 1,
        kind::CLOSE => depth.saturating_sub(1),
        _ => depth,
    }
}

// Whether a name is a parameter in a heading, behind its first parenthesis.
fn is_parameter(letters: &[u8], heading: &[Mark]) -> bool
    requires few { length heading.now ≤ 256 }
    ensures exact { result ≡ spec.is_parameter letters.now 1 0 heading.now }
{
    let mut depth: usize = 1;
    let mut last: u8 = 0;
    let mut rest = heading;
    while let [mark, after @ ..] = rest {
        if depth == 0 {
            return false;
        }
        if depth == 1 && last == kind::PROC && is_name(letters, mark) {
            return ends_heading(after);
        }
        last = kind_at(Some(mark));
        depth = opened_by(depth, last);
        rest = after;
    }
    false
}

// Whether the heading of a parameter ends in these marks, which follow its name.
fn ends_heading(marks: &[Mark]) -> bool
    requires few { length marks.now ≤ 256 }
    ensures exact { result ≡ spec.ends_heading 1 marks.now }
{
    let mut depth: usize = 1;
    for mark in marks {
        let kind = kind_at(Some(mark));
        if depth == 1 && (kind == kind::SEMICOLON || kind == kind::CLOSE) {
            return true;
        }
        depth = opened_by(depth, kind);
    }
    false
}

// The marks after the first `proc`, its name and its parenthesis; none where it has none.
fn heading_of(marks: &[Mark]) -> &[Mark]
    ensures exact { result.now ≡ spec.heading_of marks.now }
    ensures few { length result.now ≤ length marks.now }
{
    let mut rest = marks;
    while let [mark, after @ ..] = rest {
        if kind_at(Some(mark)) == kind::PROC {
            return after_open(after);
        }
        rest = after;
    }
    rest
}

// The marks behind a name and a parenthesis.
fn after_open(marks: &[Mark]) -> &[Mark]
    ensures exact { result.now ≡ spec.after_open marks.now }
    ensures few { length result.now ≤ length marks.now }
{
    match marks {
        [_name, second, rest @ ..] => {
            if kind_at(Some(second)) == kind::OPEN {
                rest
            } else {
                &[]
            }
        }
        _ => &[],
    }
}

// Whether a name is one of the calls of the system in the heading of the program.
fn is_in_heading(letters: &[u8], marks: &[Mark]) -> bool
    ensures exact { result ≡ spec.is_in_heading letters.now marks.now }
{
    is_parameter(letters, heading_of(marks_to(marks, MOST_HEADING)))
}

// Whether a name between symbols of these kinds, after these marks, can be undeclared. One after a period is that of a field.
fn can_be_after(last: u8, next: u8, before: &[Mark], letters: &[u8]) -> bool
    ensures exact { result ≡ spec.can_be_after last next before.now letters.now }
{
    last == kind::PERIOD
        || (!is_declared(last, next)
            && !is_text_of(letters, &STANDARD)
            && !is_in_heading(letters, before))
}

// Whether the name of this index can be undeclared.
fn can_be(marks: &[Mark], index: usize, letters: &[u8]) -> bool
    requires within { index < length marks.now }
    ensures exact { result ≡ spec.can_be marks.now index letters.now }
{
    let last = kind_at(before_of(marks, index));
    let next = kind_at(marks.get(index + 1));
    can_be_after(last, next, marks_to(marks, index), letters)
}

// The letters of the symbol of this index, if it is such a name of the line.
fn used_at(marks: &[Mark], line: u16, index: usize) -> Option<&[u8]>
    requires within { index < length marks.now }
    ensures exact { option_map (λ text. text.now) result ≡ spec.used_at marks.now line index }
{
    match marks.get(index) {
        Some(mark) => used_by(marks, line, index, mark),
        None => None,
    }
}

// The same of this symbol, which has this index.
fn used_by<'a>(marks: &[Mark], line: u16, index: usize, mark: &'a Mark) -> Option<&'a [u8]>
    requires within { index < length marks.now }
    ensures exact { option_map (λ text. text.now) result ≡ spec.used_by marks.now line index (Some mark.now) }
{
    if mark.line != line {
        return None;
    }
    match &mark.symbol {
        Symbol::Name(letters) => if_can_be(marks, index, letters.as_slice()),
        _ => None,
    }
}

// The letters, if the name of this index can be undeclared.
fn if_can_be<'a>(marks: &[Mark], index: usize, letters: &'a [u8]) -> Option<&'a [u8]>
    requires within { index < length marks.now }
    ensures exact { option_map (λ text. text.now) result ≡ spec.if_can_be marks.now index letters.now }
{
    if can_be(marks, index, letters) {
        return Some(letters);
    }
    None
}

// The number of an index of symbols.
fn number_of(index: usize) -> u32
    requires few { index ≤ 262144 }
    ensures exact { result ≡ index }
{
    index as u32
}

// The first name of the line from this index on that can be undeclared, with the number of symbols before it.
fn next_name(marks: &[Mark], line: u16, from: usize) -> Option<(u32, &[u8])>
    requires few { length marks.now ≤ 262144 }
    ensures exact { found_of result ≡ spec.next_name marks.now line from }
{
    for index in from..marks.len() {
        if let Some(letters) = used_at(marks, line, index) {
            return Some((number_of(index), letters));
        }
    }
    None
}

// ---- a name that is declared nowhere in the text

// Whether declarations stand after a symbol of this kind.
fn declares_after(declares: bool, kind: u8) -> bool
    ensures exact { result ≡ spec.declares_after declares kind }
{
    kind != kind::BEGIN && (declares || is_among(kind, &DECLARATION))
}

// Whether a parenthesis that comes next, or was just opened, has a type that is used.
fn uses_after(uses: bool, kind: u8) -> bool
    ensures exact { result ≡ spec.uses_after uses kind }
{
    kind == kind::CLOSE_BRACKET
        || kind == kind::SET
        || (uses && (kind == kind::NAME || kind == kind::OPEN))
}

// Whether a name after a symbol of this kind may be declared.
fn may_declare(declares: bool, uses: bool, last: u8) -> bool
    ensures exact { result ≡ spec.may_declare declares uses last }
{
    declares && !(is_among(last, &USERS) || (uses && last == kind::OPEN))
}

// Whether a name may be declared somewhere in these marks, which begin a text.
fn may_mean(letters: &[u8], marks: &[Mark]) -> bool
    ensures exact { result ≡ spec.may_mean letters.now marks.now }
{
    let mut declares = true;
    let mut uses = false;
    let mut last: u8 = 0;
    for mark in marks {
        if may_declare(declares, uses, last) && is_name(letters, mark) {
            return true;
        }
        last = kind_at(Some(mark));
        declares = declares_after(declares, last);
        uses = uses_after(uses, last);
    }
    false
}

// The first name of the line that is declared nowhere, among the first 16 that can be undeclared.
fn lost_name(marks: &[Mark], line: u16) -> Option<(u32, &[u8])>
    requires few { length marks.now ≤ 262144 }
    ensures exact { found_of result ≡ spec.lost_name marks.now line }
{
    let mut index: usize = 0;
    let mut names: usize = MOST_NAMES;
    while 0 < names {
        let Some((number, letters)) = next_name(marks, line, index) else {
            return None;
        };
        if !may_mean(letters, marks) {
            return Some((number, letters));
        }
        index = number as usize + 1;
        names -= 1;
    }
    None
}

// ---- the name that is marked

// Another name where the line has a second one after so many symbols, else this one.
fn with_second<'a>(
    marks: &'a [Mark],
    line: u16,
    number: u32,
    letters: &'a [u8],
) -> Option<(u32, &'a [u8])>
    requires few { length marks.now ≤ 262144 }
    ensures exact { found_of result ≡ spec.with_second marks.now line (Some (number, letters.now)) }
{
    match next_name(marks, line, number as usize + 1) {
        Some(_) => lost_name(marks, line),
        None => Some((number, letters)),
    }
}

/// The name that is marked, with its index: the only one that can be undeclared, or the first that is declared nowhere.
pub(crate) fn marked_name(marks: &[Mark], line: u16) -> Option<(u32, &[u8])>
    requires few { length marks.now ≤ 262144 }
    ensures exact { found_of result ≡ spec.marked_name marks.now line }
{
    match next_name(marks, line, 0) {
        Some((number, letters)) => with_second(marks, line, number, letters),
        None => None,
    }
}

/// Whether a name stands after a symbol that declares it.
pub(crate) fn is_introduced(letters: &[u8], marks: &[Mark]) -> bool
    ensures exact { result ≡ spec.is_introduced letters.now 0 marks.now }
{
    let mut last: u8 = 0;
    for mark in marks {
        if is_among(last, &DECLARERS) && is_name(letters, mark) {
            return true;
        }
        last = kind_at(Some(mark));
    }
    false
}

// How many parentheses are open behind these marks, which begin a text.
fn open_behind(marks: &[Mark]) -> usize
    requires few { length marks.now ≤ 262144 }
    ensures exact { result ≡ spec.open_behind 0 marks.now }
    ensures few { result ≤ 262144 }
{
    let mut depth: usize = 0;
    for mark in marks {
        depth = opened_by(depth, kind_at(Some(mark)));
    }
    depth
}

/// The line on which a procedure of this name is declared behind so many symbols, if one is.
pub(crate) fn declared_after(marks: &[Mark], index: usize, letters: &[u8]) -> Option<u16>
    requires few { length marks.now ≤ 262144 }
    ensures exact { result ≡ spec.declared_after letters.now marks.now index }
{
    let mut depth = open_behind(marks_to(marks, index));
    let mut last: u8 = 0;
    for mark in marks_from(marks, index) {
        if depth == 0 && last == kind::PROC && is_name(letters, mark) {
            return Some(mark.line);
        }
        last = kind_at(Some(mark));
        depth = opened_by(depth, last);
    }
    None
}
