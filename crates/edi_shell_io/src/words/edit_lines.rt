//! A line as a command of an editing.

ghost use Rattle.std.specs.Prelude.{◌≡◌, ◌≤◌, true, length};
ghost use Rattle.std.specs.List.{list_all};
ghost use Rattle.edi_trace.specs.Lines as trace;
ghost use Rattle.edi_session.specs.Words as spec;
ghost use Rattle.edi_shell_io.specs.words.Operands as operands;

use edi_session::EditLine;

// The number that digits spell, at most six of them.
#[tactic(auto, using(edi_trace::proofs::Digits::digit_low, edi_trace::proofs::Digits::digit_high, edi_trace::proofs::Digits::number_more))]
fn number_of(digits: &[u8]) -> u32
    requires short { length digits.now ≤ 6 }
    requires digits { list_all trace.is_digit digits.now ≡ true }
    ensures { result ≡ trace.number_of digits.now }
{
    let mut number = 0;
    for digit in digits {
        number = number * 10 + u32::from(*digit - b'0');
    }
    number
}

fn are_digits(digits: &[u8]) -> bool
    ensures { result ≡ list_all trace.is_digit digits.now }
{
    digits.iter().all(|digit| digit.is_ascii_digit())
}

// The number that one to six digits spell.
fn spelled(digits: &[u8]) -> Option<u32>
    ensures { result ≡ operands.spelled digits.now }
{
    if digits.is_empty() || digits.len() > 6 || !are_digits(digits) {
        return None;
    }
    Some(number_of(digits))
}

// The command of this letter with a number.
fn numbered(letter: u8, n: u32) -> EditLine
    ensures { result ≡ spec.numbered_line letter n }
{
    match letter {
        b'i' => EditLine::Insert(n),
        b'r' => EditLine::Replace(n),
        b'd' => EditLine::Delete(n),
        b'l' => EditLine::Look(n),
        _ => EditLine::Bad,
    }
}

// The command of this letter alone.
fn lettered(letter: u8) -> EditLine
    ensures { result ≡ spec.lettered letter }
{
    match letter {
        b'u' => EditLine::Undo,
        b'w' => EditLine::Write,
        b'q' => EditLine::Quit,
        _ => EditLine::Bad,
    }
}

/// The command of an editing that a line is, without its line feed.
pub fn edit_line(line: &[u8]) -> EditLine
    ensures exact { result ≡ spec.edit_line line.now }
{
    match line {
        [letter] => lettered(*letter),
        [letter, b' ', digits @ ..] => match spelled(digits) {
            Some(n) => numbered(*letter, n),
            None => EditLine::Bad,
        },
        _ => EditLine::Bad,
    }
}
