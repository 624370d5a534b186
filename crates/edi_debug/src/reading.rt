//! Points: what is to be watched.

ghost use Rattle.std.specs.Prelude.{◌≡◌, ◌≤◌, ◌<◌, ◌==◌, true, false, ◌∷◌, [], length, position, if◌then◌else◌, Some, None, MatchOption, IfSome, IfOk, is_some};
ghost use Rattle.std.specs.List.{slice_split, list_all};
ghost use Rattle.edi_unit.specs.Lists.{list_items};
ghost use Rattle.edi_tree.specs.Whole.{program_of};
ghost use Rattle.edi_static.specs.Programs.{Sound};
ghost use Rattle.edi_trace.specs.Lines.{is_digit, number_of};
ghost use Rattle.edi_debug.specs.Points as spec;
ghost use Rattle.edi_debug.specs.Points.{ReadsPoints};

use crate::answer::{Point, PointFault, Points};
use edi_sights::{Sight, Sights, sights};
use edi_tree::Program;
use std::alloc::{AllocError, Global};

/// The greatest number of points.
const MOST_POINTS: usize = 64;

/// The greatest number of bytes of a name.
const MOST_NAMED: usize = 250;

const LINE_FEED: u8 = 10;

const BLANK: u8 = 32;

/// The place of a byte.
fn place_of(bytes: &[u8], wanted: u8) -> Option<usize>
    ensures exact { result ≡ position (λ c. c == wanted) bytes.now }
{
    bytes.iter().position(|c| *c == wanted)
}

/// What stands before a byte and after it; none where it is not there.
fn cut_at(bytes: &[u8], wanted: u8) -> Option<(&[u8], &[u8])>
    ensures cut { MatchOption result (slice_split (λ c. c == wanted) bytes.now ≡ bytes.now ∷ [])
        (λ pair. slice_split (λ c. c == wanted) bytes.now ≡ pair.0.now ∷ slice_split (λ c. c == wanted) pair.1.now) }
    ensures shorter { IfSome result (λ pair. length pair.1.now < length bytes.now) }
{
    match place_of(bytes, wanted) {
        Some(at) => {
            let (before, _) = bytes.split_at(at);
            let (_, after) = bytes.split_at(at + 1);
            Some((before, after))
        }
        None => None,
    }
}

fn are_digits(bytes: &[u8]) -> bool
    ensures exact { result ≡ list_all is_digit bytes.now }
{
    bytes.iter().all(|c| c.is_ascii_digit())
}

/// The number that at most five digits spell.
#[tactic(auto, using(edi_trace::proofs::Digits::digit_low, edi_trace::proofs::Digits::digit_high, edi_trace::proofs::Digits::number_more))]
fn number_of(digits: &[u8]) -> u32
    requires short { length digits.now ≤ 5 }
    requires digits { list_all is_digit digits.now ≡ true }
    ensures exact { result ≡ number_of digits.now }
{
    let mut number: u32 = 0;
    for c in digits {
        number = number * 10 + u32::from(*c - b'0');
    }
    number
}

/// The line of a text whose number one to five digits spell.
fn line_number(digits: &[u8]) -> Option<u16>
    ensures exact { result ≡ (if spec.is_number digits.now then Some (number_of digits.now) else None) }
{
    if digits.is_empty() || digits.len() > 5 || !are_digits(digits) {
        return None;
    }
    let number = number_of(digits);
    if number <= 65_535 {
        Some(number as u16)
    } else {
        None
    }
}

/// Whether a byte may stand in a name.
fn is_in_name(c: u8) -> bool
    ensures exact { result ≡ spec.is_in_name c }
{
    c.is_ascii_alphanumeric() || c == b'_'
}

fn begins_with_letter(bytes: &[u8]) -> bool
    ensures exact { result ≡ spec.begins_with_letter bytes.now }
{
    match bytes.first() {
        Some(first) => first.is_ascii_alphabetic(),
        None => false,
    }
}

fn are_in_name(bytes: &[u8]) -> bool
    ensures exact { result ≡ list_all spec.is_in_name bytes.now }
{
    bytes.iter().all(|c| is_in_name(*c))
}

/// Whether these bytes are a name: a letter, and then letters, digits and `_`, at most 250.
fn is_name(bytes: &[u8]) -> bool
    ensures exact { result ≡ spec.is_name bytes.now }
{
    begins_with_letter(bytes) && bytes.len() <= MOST_NAMED && are_in_name(bytes)
}

/// The line and the name that a line of the file spells, if it spells one.
fn spelled(line: &[u8]) -> Option<(u16, &[u8])>
    ensures exact { MatchOption result (spec.spelled line.now ≡ None) (λ pair. spec.spelled line.now ≡ Some (pair.0, pair.1.now)) }
{
    let Some((digits, name)) = cut_at(line, BLANK) else {
        return None;
    };
    let Some(number) = line_number(digits) else {
        return None;
    };
    if is_name(name) {
        Some((number, name))
    } else {
        None
    }
}

fn are_seen(sights: &[Sight]) -> bool
    ensures exact { result ≡ list_all (λ s. is_some s.slot) sights.now }
{
    sights.iter().all(|sight| sight.slot.is_some())
}

/// Whether a name means a variable of an elementary type at each `when` of a line, which has one.
fn all_seen(sights: &Sights) -> bool
    ensures exact { result ≡ spec.all_seen (list_items sights.now) }
{
    let items = sights.items();
    !items.is_empty() && are_seen(items)
}

/// The point that a line of the file is, if it is one.
fn point_at(alloc: Global, tree: &Program, line: &[u8]) -> Result<Option<Point>, AllocError>
    requires sound { Sound (program_of tree.now) }
    ensures exact { IfOk result (λ point. spec.IsPoint (program_of tree.now) line.now point) }
{
    let Some((number, name)) = spelled(line) else {
        return Ok(None);
    };
    let seen = sights(alloc, tree, number, name)?;
    if !all_seen(&seen) {
        return Ok(None);
    }
    Ok(Some(Point {
        line: number,
        name: Vec::from_slice(alloc, name)?,
        sights: seen,
    }))
}

/// The points of a file: lines `N NAME`, at most 64, each ended by a line feed, with N one to five digits, a line with a `when`, and
/// NAME a name of at most 250 bytes that means a variable of an elementary type at each `when` of that line.
///
/// # Errors
///
/// `Line` comes for the first line that is none of these, or `NoMemory`.
pub fn points(alloc: Global, tree: &Program, bytes: &[u8]) -> Result<Points, PointFault>
    requires sound { Sound (program_of tree.now) }
    ensures exact { ReadsPoints (program_of tree.now) bytes.now result }
{
    let mut items: Vec<Point> = Vec::new(alloc);
    let mut rest = bytes;
    while !rest.is_empty() {
        let number = items.len() as u32 + 1;
        let Some((line, after)) = cut_at(rest, LINE_FEED) else {
            return Err(PointFault::Line(number));
        };
        if items.len() >= MOST_POINTS {
            return Err(PointFault::Line(number));
        }
        let Ok(found) = point_at(alloc, tree, line) else {
            return Err(PointFault::NoMemory);
        };
        let Some(point) = found else {
            return Err(PointFault::Line(number));
        };
        if items.push(point).is_err() {
            return Err(PointFault::NoMemory);
        }
        rest = after;
    }
    Ok(Points { items })
}
