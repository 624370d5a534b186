//! Texts that come in pieces.

use edi_lex::{LexFault, Scanner, Symbol, Symbols, scan};
use std::alloc::Global;
use std::test::Fail;

const PROGRAM: &[u8] = b"\"A program that shows three stars, \n\
and says '''\"
proc main(proc display(value: char))
var i: int; text_1: word
begin i := 0;
 while (i <> 3) and not (i >= 32767) do
  display('*'); i := i + 1
 end;
 display('''); text_1[1] := word('of ten chr')
end
";

// The symbols of a text that comes in pieces of this length.
fn in_pieces(alloc: Global, text: &[u8], length: usize) -> Result<Symbols, LexFault> {
    let mut scanner = Scanner::new(alloc);
    for piece in text.chunks(length.max(1)) {
        if scanner.feed(alloc, piece).is_err() {
            return Err(LexFault::NoMemory);
        }
    }
    scanner.finish(alloc)
}

/// The symbols of a text that comes in pieces, between which a bar stands.
fn fed(alloc: Global, pieces: &str) -> Result<Symbols, LexFault> {
    let mut scanner = Scanner::new(alloc);
    for piece in pieces.split('|') {
        if scanner.feed(alloc, piece.as_bytes()).is_err() {
            return Err(LexFault::NoMemory);
        }
    }
    scanner.finish(alloc)
}

fn are_same(one: &Symbols, other: &Symbols) -> bool {
    one.last == other.last && one.marks.as_slice() == other.marks.as_slice()
}

#[test]
fn pieces_make_no_difference(rt: HostRuntime) -> Result<(), Fail> {
    let whole = scan(rt.alloc(), PROGRAM)?;
    assert!(rt; whole.marks.len() == 65 && whole.last == 11);
    for length in [1, 7] {
        let symbols = in_pieces(rt.alloc(), PROGRAM, length)?;
        assert!(rt; are_same(&symbols, &whole), "{length}");
    }
    Ok(())
}

/// Whether there is one symbol, which is this string.
fn are_string(symbols: &Symbols, characters: &[u8]) -> bool {
    match symbols.marks.as_slice() {
        [mark] => match &mark.symbol {
            Symbol::Chars(text) => text.as_slice() == characters,
            _ => false,
        },
        _ => false,
    }
}

#[test]
fn a_string_in_two_pieces(rt: HostRuntime) -> Result<(), Fail> {
    let symbols = fed(rt.alloc(), "'||a'")?;
    assert!(rt; are_string(&symbols, b"a"));
    Ok(())
}
