//! A line as a command of the shell.

ghost use Rattle.std.specs.Prelude.{◌≡◌, false};
ghost use Rattle.std.specs.List.{list_any};
ghost use Rattle.edi_session.specs.Words as spec;
ghost use Rattle.edi_shell_io.specs.words.Operands.{line_or_bad};

use crate::words::words::{are_line_bytes, has_none, next_word, one_title, title_of, two_titles};
use edi_session::Line;

/// The most bytes of a line that is a command.
const LONGEST: usize = 80;

// The command where no words stand behind its name.
fn alone(operands: &[u8], command: Line) -> Option<Line>
    ensures { line_or_bad result ≡ spec.none_of (spec.words_in operands.now) command }
{
    if has_none(operands) {
        Some(command)
    } else {
        None
    }
}

/// The command with the titles that the operands are, as many as it has here; none where they are anything else.
macro_rules! with_titles {
    ($operands:expr, $command:ident()) => {
        alone($operands, Line::$command)
    };
    ($operands:expr, $command:ident(f)) => {
        Some(Line::$command(one_title($operands)?))
    };
    ($operands:expr, $command:ident(f, g)) => {{
        let (f, g) = two_titles($operands)?;
        Some(Line::$command(f, g))
    }};
}

/// The command beside the first of these spellings that is the name.
macro_rules! beside {
    ($name:expr, $operands:expr; $($spelling:literal => $command:ident $titles:tt,)*) => {{
        $(
            if $name == $spelling.as_slice() {
                return with_titles!($operands, $command $titles);
            }
        )*
    }};
}

#[tactic(auto, using(crate::proofs::words::Table::one_bad, crate::proofs::words::Table::two_bad))]
// The command of this name with these operands; none where it is none. The second half of the names.
fn named_more(name: &[u8], operands: &[u8]) -> Option<Line>
    requires whole { list_any spec.is_gap name.now ≡ false }
    ensures { line_or_bad result ≡ spec.line_of_more name.now (spec.words_in operands.now) }
{
    beside!(name, operands;
        b"delete" => Delete(f),
        b"protect" => Protect(f),
        b"release" => Release(f),
        b"compile" => Compile(f, g),
        b"edit" => Edit(f),
        b"halt" => Halt(),
    );
    let program = title_of(name)?;
    alone(operands, Line::Execute(program))
}

#[tactic(auto, using(crate::proofs::words::Table::one_bad, crate::proofs::words::Table::two_bad))]
// The command of this name with these operands; none where it is none.
fn named(name: &[u8], operands: &[u8]) -> Option<Line>
    requires whole { list_any spec.is_gap name.now ≡ false }
    ensures { line_or_bad result ≡ spec.line_of_word name.now (spec.words_in operands.now) }
{
    beside!(name, operands;
        b"list" => Catalogue(),
        b"type" => Show(f),
        b"print" => Print(f),
        b"enter" => Enter(f),
        b"copy" => Copy(f, g),
        b"rename" => Rename(f, g),
    );
    named_more(name, operands)
}

/// The command that a line is, without its line feed.
pub fn command_line(line: &[u8]) -> Line
    ensures exact { result ≡ spec.command_line line.now }
{
    if line.len() > LONGEST || !are_line_bytes(line) {
        return Line::Bad;
    }
    let Some((name, operands)) = next_word(line) else {
        return Line::Blank;
    };
    match named(name, operands) {
        Some(command) => command,
        None => Line::Bad,
    }
}
