//! The text that tells the first fault of a program.

ghost use Rattle.std.specs.Prelude.{◌≡◌, Err, Ok, IfOk};
ghost use Rattle.edi_lex.specs.Symbols.{ScanGives, symbols_of};
ghost use Rattle.edi_syntax.specs.Refusal.{IsSyntaxFault, Refuses};
ghost use Rattle.edi_explain.specs.told.Explained as spec;
ghost use Rattle.edi_explain.specs.told.Explained.{IsExplained};
ghost use Rattle.edi_explain.specs.told.Scanned.{HasSymbols};

use crate::expected::expected_behind;
use crate::told::advice::put_advice;
use crate::told::lexical::put_lexical;
use crate::told::names::marks_to;
use crate::told::undeclared::put_static;
use crate::told::wrong::{index_of, kind_of_fault, put_wrong};
use edi_lex::{LexFault, Symbols, scan};
use edi_syntax::{SyntaxFault, parse};
use edi_texts::RefusalKind;
use std::alloc::{AllocError, Global};

// What is shown of a text whose symbols have this syntax fault.
fn syntax_text(
    alloc: Global,
    text: &[u8],
    symbols: &Symbols,
    fault: SyntaxFault,
) -> Result<Vec<u8>, AllocError>
    requires known { symbols_of text.now ≡ Ok (symbols.now.marks, symbols.now.last) }
    requires scanned { HasSymbols text.now }
    requires is_fault { IsSyntaxFault symbols.now.marks symbols.now.last fault }
    ensures exact { IfOk result (λ bytes. spec.IsSyntaxText text.now (symbols.now.marks, symbols.now.last) bytes.items) }
{
    let index = index_of(fault);
    let expected = expected_behind(alloc, marks_to(symbols.marks.as_slice(), index as usize))?;
    let mut out = Vec::new(alloc);
    put_wrong(alloc, &mut out, text, symbols, index, expected)?;
    put_advice(&mut out, kind_of_fault(fault))?;
    Ok(out)
}

// ---- the whole

// The same of a fault that the parser tells.
fn fault_text(
    alloc: Global,
    text: &[u8],
    symbols: &Symbols,
    fault: SyntaxFault,
) -> Result<Vec<u8>, AllocError>
    requires known { symbols_of text.now ≡ Ok (symbols.now.marks, symbols.now.last) }
    requires scanned { HasSymbols text.now }
    requires told { Refuses symbols.now.marks symbols.now.last fault }
    ensures exact { IfOk result (λ bytes. spec.IsSyntaxText text.now (symbols.now.marks, symbols.now.last) bytes.items) }
{
    match fault {
        SyntaxFault::Syntax { .. } => syntax_text(alloc, text, symbols, fault),
        SyntaxFault::TooDeep { .. } => syntax_text(alloc, text, symbols, fault),
        SyntaxFault::NotInProfile { .. } => syntax_text(alloc, text, symbols, fault),
        SyntaxFault::NoMemory => Err(AllocError),
    }
}

// What is shown of a text that has these symbols.
fn symbols_text(
    alloc: Global,
    text: &[u8],
    symbols: &Symbols,
    kind: RefusalKind,
    line: u16,
) -> Result<Vec<u8>, AllocError>
    requires known { symbols_of text.now ≡ Ok (symbols.now.marks, symbols.now.last) }
    requires scanned { HasSymbols text.now }
    ensures exact { IfOk result (λ bytes. IsExplained text.now kind line bytes.items) }
{
    match parse(alloc, symbols) {
        Ok(_tree) => static_text(alloc, text, symbols, kind, line),
        Err(fault) => fault_text(alloc, text, symbols, fault),
    }
}

// What is shown of a text with this static fault.
fn static_text(
    alloc: Global,
    text: &[u8],
    symbols: &Symbols,
    kind: RefusalKind,
    line: u16,
) -> Result<Vec<u8>, AllocError>
    requires scanned { HasSymbols text.now }
    ensures exact { IfOk result (λ bytes. bytes.items ≡ spec.static_text text.now symbols.now.marks kind line) }
{
    let mut out = Vec::new(alloc);
    put_static(&mut out, text, symbols.marks.as_slice(), kind, line)?;
    put_advice(&mut out, kind)?;
    Ok(out)
}

// What is shown of a text with this lexical fault.
fn lexical_text(alloc: Global, text: &[u8], fault: LexFault) -> Result<Vec<u8>, AllocError>
    requires told { ScanGives (Err fault) (symbols_of text.now) }
    ensures known { IfOk result (λ bytes. symbols_of text.now ≡ Err fault) }
    ensures exact { IfOk result (λ bytes. bytes.items ≡ spec.lexical_text text.now fault) }
{
    let mut out = Vec::new(alloc);
    put_lexical(&mut out, text, fault)?;
    Ok(out)
}

/// What is shown of a text whose first fault is of this kind and on this line, 0 to 65,535: the line of the text with a caret, what stands
/// there, exactly the kinds of symbols that may stand there, what is open, a note, and what to do. The kind and the line count only where the
/// fault is static. The only error is that memory runs out.
pub fn explain(
    alloc: Global,
    text: &[u8],
    kind: RefusalKind,
    line: u16,
) -> Result<Vec<u8>, AllocError>
    ensures exact { IfOk result (λ bytes. IsExplained text.now kind line bytes.items) }
{
    match scan(alloc, text) {
        Ok(symbols) => symbols_text(alloc, text, &symbols, kind, line),
        Err(fault) => lexical_text(alloc, text, fault),
    }
}
