//! What is printed so far, and the smallest things that are printed.

ghost use Rattle.std.specs.Prelude.{◌≡◌, ◌∷◌, ◌++◌, replicate, None, Some, OnOk};
ghost use Rattle.edi_tree.specs.Stands.{addition_symbol, char_mark, chars_mark, just, multiplication_symbol, name_mark, on, relation_symbol};
ghost use Rattle.edi_tree.specs.Printed.{gap, line_at, text_of};
ghost use Rattle.edi_tree.specs.Printing.{put, put_text};
ghost use Rattle.edi_lex.specs.declared.symbol.Symbol.TheVariants as is;

use crate::expressions::{Addition, Multiplication, Relation};
use crate::names::{Char, Chars, Name};
use edi_lex::Text;
use std::alloc::{AllocError, Global};

/// What is printed so far.
#[derive(Drop)]
pub(crate) struct Printer {
    pub(crate) text: Text,
    /// The present line.
    pub(crate) line: u16,
    /// Whether a symbol stands before the present place.
    pub(crate) begun: bool,
}

// Adds bytes at the end.
fn extend(text: &mut Text, alloc: Global, bytes: &[u8]) -> Result<(), AllocError>
    ensures exact { OnOk result (text.new ≡ text.old ++ bytes.now) }
{
    for byte in bytes {
        text.push(alloc, *byte)?;
    }
    Ok(())
}

// Adds so many line feeds at the end.
fn extend_with_feeds(text: &mut Text, alloc: Global, count: u16) -> Result<(), AllocError>
    ensures exact { OnOk result (text.new ≡ text.old ++ replicate count 10) }
{
    for _feed in 0..count {
        text.push(alloc, b'\n')?;
    }
    Ok(())
}

/// How a relation is written.
pub(crate) fn relation_text(relation: Relation) -> &'static [u8]
    ensures exact { result.now ≡ text_of (relation_symbol relation) }
{
    match relation {
        Relation::Equal => b"=",
        Relation::NotEqual => b"<>",
        Relation::Less => b"<",
        Relation::AtMost => b"<=",
        Relation::Greater => b">",
        Relation::AtLeast => b">=",
        Relation::In => b"in",
    }
}

/// How `+`, `-` or `or` is written.
pub(crate) fn addition_text(operator: Addition) -> &'static [u8]
    ensures exact { result.now ≡ text_of (addition_symbol operator) }
{
    match operator {
        Addition::Plus => b"+",
        Addition::Minus => b"-",
        Addition::Or => b"or",
    }
}

/// How `*`, `div`, `mod` or `and` is written.
pub(crate) fn multiplication_text(operator: Multiplication) -> &'static [u8]
    ensures exact { result.now ≡ text_of (multiplication_symbol operator) }
{
    match operator {
        Multiplication::Star => b"*",
        Multiplication::Div => b"div",
        Multiplication::Mod => b"mod",
        Multiplication::And => b"and",
    }
}

impl Printer {
    // The line feeds that lead to a line that is kept and greater than the present one, or else a blank between symbols.
    fn separate(&mut self, alloc: Global, line: Option<u16>) -> Result<(), AllocError>
        ensures exact { OnOk result
            (self.new
            ≡ record {
              text = self.old.text ++ gap self.old.begun self.old.line line;
              line = line_at self.old.line line;
              begun = self.old.begun;
            }) }
    {
        if let Some(line) = line {
            if self.line < line {
                extend_with_feeds(&mut self.text, alloc, line - self.line)?;
                self.line = line;
                return Ok(());
            }
        }
        if self.begun {
            self.text.push(alloc, b' ')?;
        }
        Ok(())
    }

    /// Prints a symbol that is written so, on this line if its line is kept.
    #[tactic(auto, unfolding(crate::specs::Printing::put_text))]
    pub(crate) fn symbol(
        &mut self,
        alloc: Global,
        text: &[u8],
        line: Option<u16>,
    ) -> Result<(), AllocError>
        ensures exact { OnOk result (self.new ≡ put_text text.now line self.old) }
    {
        self.separate(alloc, line)?;
        extend(&mut self.text, alloc, text)?;
        self.begun = true;
        Ok(())
    }

    /// Prints a symbol whose line is not kept.
    pub(crate) fn word(&mut self, alloc: Global, text: &[u8]) -> Result<(), AllocError>
        ensures exact { OnOk result (self.new ≡ put_text text.now None self.old) }
    {
        self.symbol(alloc, text, None)
    }

    pub(crate) fn name(&mut self, alloc: Global, name: &Name) -> Result<(), AllocError>
        ensures exact { OnOk result (self.new ≡ put (name_mark name.now) self.old) }
    {
        self.symbol(alloc, name.text.as_slice(), Some(name.line))
    }

    pub(crate) fn numeral(&mut self, alloc: Global, value: i16) -> Result<(), AllocError>
        ensures exact { OnOk result (self.new ≡ put (just (is.Numeral value)) self.old) }
    {
        let value = value.unsigned_abs();
        let digits = format!(in alloc; "{value}")?;
        self.symbol(alloc, digits.as_bytes(), None)
    }

    pub(crate) fn char(&mut self, alloc: Global, char: Char) -> Result<(), AllocError>
        ensures exact { OnOk result (self.new ≡ put (char_mark char) self.old) }
    {
        self.symbol(alloc, &[b'\'', char.character, b'\''], Some(char.line))
    }

    #[tactic(auto, unfolding(crate::specs::Printing::put_text))]
    pub(crate) fn chars(&mut self, alloc: Global, chars: &Chars) -> Result<(), AllocError>
        ensures exact { OnOk result (self.new ≡ put (chars_mark chars.now) self.old) }
    {
        self.symbol(alloc, b"'", Some(chars.line))?;
        extend(&mut self.text, alloc, chars.text.as_slice())?;
        self.text.push(alloc, b'\'')?;
        Ok(())
    }
}
