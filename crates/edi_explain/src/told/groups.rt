//! How the kinds of symbols that may stand at a place are shown.

ghost use Rattle.std.specs.Prelude.{◌≡◌, ◌++◌, false, IfOk, OnOk};
ghost use Rattle.std.specs.List.{list_all, list_any};
ghost use Rattle.edi_explain.specs.told.Groups as spec;
ghost use Rattle.edi_explain.specs.told.Tables.{may_of};
ghost use Rattle.edi_explain.specs.told.Words.{kind_name as kind_text};

use crate::expected::Expected;
use crate::told::words::kind_name;
use edi_phrases::kind;
use std::alloc::{AllocError, Global};

// The kinds with which a statement begins.
static STATEMENT: [u8; 7] = [
    kind::NAME,
    kind::COBEGIN,
    kind::IF,
    kind::SKIP,
    kind::VAL,
    kind::WHEN,
    kind::WHILE,
];

// The kinds with which an expression begins.
static EXPRESSION: [u8; 9] = [
    kind::NAME,
    kind::NUMERAL,
    kind::CHAR,
    kind::TEXT,
    kind::NOT,
    kind::VAL,
    kind::PLUS,
    kind::MINUS,
    kind::OPEN,
];

/// The kinds with which a declaration begins.
pub(crate) static DECLARATION: [u8; 10] = [
    kind::ARRAY,
    kind::CONST,
    kind::ENUM,
    kind::MODULE,
    kind::POST,
    kind::PRE,
    kind::PROC,
    kind::RECORD,
    kind::SET,
    kind::VAR,
];

// The kinds of operators between operands.
static OPERATOR: [u8; 7] = [
    kind::STAR,
    kind::DIV,
    kind::MOD,
    kind::AND,
    kind::PLUS,
    kind::MINUS,
    kind::OR,
];

// The kinds of comparisons.
static COMPARISON: [u8; 7] = [
    kind::EQUAL,
    kind::NOT_EQUAL,
    kind::LESS,
    kind::AT_MOST,
    kind::GREATER,
    kind::AT_LEAST,
    kind::IN,
];

static ALL_KINDS: [u8; 51] = [
    0, 1, 2, 3, 4, 5, 6, 7, 8, 9, 10, 11, 12, 13, 14, 15, 16, 17, 18, 19, 20, 21, 22, 23, 24, 25,
    26, 27, 28, 29, 30, 31, 32, 33, 34, 35, 36, 37, 38, 39, 40, 41, 42, 43, 44, 45, 46, 47, 48, 49,
    50,
];

// ---- which groups are shown

/// Whether a symbol of this kind may stand.
pub(crate) fn may(expected: &Expected, kind: u8) -> bool
    ensures exact { result ≡ may_of expected.now kind }
{
    match expected.kinds.get(usize::from(kind)) {
        Some(may) => *may,
        None => false,
    }
}

/// Whether all of these may.
pub(crate) fn all_may(expected: &Expected, kinds: &[u8]) -> bool
    ensures exact { result ≡ list_all (may_of expected.now) kinds.now }
{
    kinds.iter().all(|kind| may(expected, *kind))
}

/// Whether some of these may.
pub(crate) fn any_may(expected: &Expected, kinds: &[u8]) -> bool
    ensures exact { result ≡ list_any (may_of expected.now) kinds.now }
{
    kinds.iter().any(|kind| may(expected, *kind))
}

/// Whether a kind is one of these.
pub(crate) fn is_among(kind: u8, kinds: &[u8]) -> bool
    ensures exact { result ≡ spec.is_among kind kinds.now }
{
    kinds.contains(&kind)
}

// Whether all of a group may stand, and a kind is one of it.
fn is_of(expected: &Expected, kinds: &[u8], kind: u8) -> bool
    ensures exact { result ≡ spec.is_of (may_of expected.now) kinds.now kind }
{
    all_may(expected, kinds) && is_among(kind, kinds)
}

// Whether a kind is one of a group that is shown.
fn is_grouped(expected: &Expected, kind: u8) -> bool
    ensures exact { result ≡ spec.is_grouped (may_of expected.now) kind }
{
    is_of(expected, &STATEMENT, kind)
        || is_of(expected, &EXPRESSION, kind)
        || is_of(expected, &DECLARATION, kind)
        || is_of(expected, &OPERATOR, kind)
        || is_of(expected, &COMPARISON, kind)
}

// Whether a kind may stand and no group that is shown has it.
fn is_single(expected: &Expected, kind: u8) -> bool
    ensures exact { result ≡ spec.is_single (may_of expected.now) kind }
{
    may(expected, kind) && !is_grouped(expected, kind)
}

// Puts a kind behind others, if it may stand and no group that is shown has it.
fn push_single(list: &mut Vec<u8>, expected: &Expected, kind: u8) -> Result<(), AllocError>
    ensures { OnOk result (list.new.items ≡ list.old.items ++ spec.if_single (may_of expected.now) kind) }
{
    if is_single(expected, kind) {
        list.push(kind)?;
        return Ok(());
    }
    Ok(())
}

// Those of these kinds that may stand and that no group that is shown has.
fn singles(alloc: Global, expected: &Expected, kinds: &[u8]) -> Result<Vec<u8>, AllocError>
    ensures exact { IfOk result (λ list. list.items ≡ spec.singles (may_of expected.now) kinds.now) }
{
    let mut list = Vec::new(alloc);
    for kind in kinds {
        push_single(&mut list, expected, *kind)?;
    }
    Ok(list)
}

// ---- lines

// Puts the name of a kind behind bytes, behind another one or not.
fn put_name(out: &mut Vec<u8>, more: bool, kind: u8) -> Result<(), AllocError>
    ensures { OnOk result (out.new.items ≡ out.old.items ++ (spec.comma more ++ kind_text kind)) }
{
    if more {
        out.extend_from_slice(b", ")?;
    }
    out.extend_from_slice(kind_name(kind).as_bytes())?;
    Ok(())
}

// Puts the names of these kinds behind bytes.
fn put_listed(out: &mut Vec<u8>, kinds: &[u8]) -> Result<(), AllocError>
    ensures { OnOk result (out.new.items ≡ out.old.items ++ spec.listed false kinds.now) }
{
    let mut more = false;
    for kind in kinds {
        put_name(out, more, *kind)?;
        more = true;
    }
    Ok(())
}

// Puts the line of a group behind bytes, if all of it may stand.
#[tactic(auto, unfolding(crate::specs::told::Groups::group_line))]
fn put_group(
    out: &mut Vec<u8>,
    expected: &Expected,
    called: &[u8],
    kinds: &[u8],
) -> Result<(), AllocError>
    ensures { OnOk result (out.new.items ≡ out.old.items ++ spec.group_line (may_of expected.now) called.now kinds.now) }
{
    if !all_may(expected, kinds) {
        return Ok(());
    }
    out.extend_from_slice(b"  ")?;
    out.extend_from_slice(called)?;
    out.extend_from_slice(b": ")?;
    put_listed(out, kinds)?;
    out.push(b'\n')?;
    Ok(())
}

// Puts a line of kinds behind bytes, if there are any.
fn put_singles(out: &mut Vec<u8>, kinds: &[u8]) -> Result<(), AllocError>
    ensures { OnOk result (out.new.items ≡ out.old.items ++ spec.single_line kinds.now) }
{
    if kinds.is_empty() {
        return Ok(());
    }
    out.extend_from_slice(b"  ")?;
    put_listed(out, kinds)?;
    out.push(b'\n')?;
    Ok(())
}

// Puts a line for each group that stands between two operands behind bytes.
fn put_between(out: &mut Vec<u8>, expected: &Expected) -> Result<(), AllocError>
    ensures { OnOk result (out.new.items ≡ out.old.items ++ spec.between_lines (may_of expected.now)) }
{
    put_group(out, expected, b"an operator", &OPERATOR)?;
    put_group(out, expected, b"a comparison", &COMPARISON)
}

// Puts a line for each group behind bytes.
fn put_groups(out: &mut Vec<u8>, expected: &Expected) -> Result<(), AllocError>
    ensures { OnOk result (out.new.items ≡ out.old.items ++ spec.group_lines (may_of expected.now)) }
{
    put_group(out, expected, b"a statement", &STATEMENT)?;
    put_group(out, expected, b"an expression", &EXPRESSION)?;
    put_group(out, expected, b"a declaration", &DECLARATION)?;
    put_between(out, expected)?;
    Ok(())
}

/// Puts what may stand behind bytes: a line for each group, and one for the kinds that stand in none.
#[tactic(auto, unfolding(crate::specs::told::Groups::may_lines))]
pub(crate) fn put_may(
    alloc: Global,
    out: &mut Vec<u8>,
    expected: &Expected,
) -> Result<(), AllocError>
    ensures { OnOk result (out.new.items ≡ out.old.items ++ spec.may_lines (may_of expected.now)) }
{
    let kinds = singles(alloc, expected, &ALL_KINDS)?;
    put_groups(out, expected)?;
    put_singles(out, &kinds)?;
    Ok(())
}
