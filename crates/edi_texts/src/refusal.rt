//! Why a text is refused, from the faults of the three passes.

ghost use Rattle.std.specs.Prelude.{◌≡◌};
ghost use Rattle.edi_texts.specs.Refusals.{kind_of, lexical_refusal, static_refusal_of, syntax_refusal};
ghost use Rattle.edi_texts.specs.declared.refusal.Refusal.TheVariants as refusal;

use crate::kind::RefusalKind;
use edi_lex::LexFault;
use edi_static::{StaticFault, StaticKind};
use edi_syntax::SyntaxFault;
use std::alloc::AllocError;
use thiserror::Error;

/// The pass whose fault it is.
#[derive(Clone, Copy, Debug, PartialEq, Eq)]
pub enum Pass {
    /// From the bytes of the text to its symbols.
    Lexical,
    /// From the symbols to their tree.
    Syntactic,
    /// From the tree to the resolved unit.
    Semantic,
}

/// Why a text is refused.
#[derive(Clone, Copy, Debug, PartialEq, Eq, Error)]
pub enum Refusal {
    /// The first fault of the text: whose it is, its kind, and its line, counted from 1; the line of a text that is too long
    /// is 0.
    #[error("line {line} {kind}")]
    At {
        pass: Pass,
        kind: RefusalKind,
        line: u16,
    },
    /// There was no memory for it.
    #[error("no memory")]
    NoMemory,
}

// How a broken static rule is told.
fn static_kind(kind: StaticKind) -> RefusalKind
    ensures exact { result ≡ kind_of kind }
{
    match kind {
        StaticKind::Undeclared => RefusalKind::UndeclaredName,
        StaticKind::Ambiguous => RefusalKind::AmbiguousName,
        StaticKind::Kind => RefusalKind::InvalidNameKind,
        StaticKind::Types => RefusalKind::IncompatibleTypes,
        StaticKind::Range => RefusalKind::InvalidRange,
        StaticKind::Call => RefusalKind::InvalidCall,
        StaticKind::Constructor => RefusalKind::InvalidConstructor,
        StaticKind::Split => RefusalKind::InvalidSplitProcedure,
        StaticKind::Heading => RefusalKind::InvalidProgramHeading,
        StaticKind::NotInProfile => RefusalKind::NotInProfile,
    }
}

// A refusal by this pass, at a line.
fn at(pass: Pass, kind: RefusalKind, line: u16) -> Refusal
    ensures exact { result ≡ refusal.At pass kind line }
{
    Refusal::At { pass, kind, line }
}

impl From<LexFault> for Refusal {
    ghost from_gives = { λ fault r. r ≡ lexical_refusal fault };

    fn from(fault: LexFault) -> Refusal {
        let pass = Pass::Lexical;
        match fault {
            LexFault::BadCharacter(line) => at(pass, RefusalKind::InvalidCharacter, line),
            LexFault::BadNumeral(line) => at(pass, RefusalKind::InvalidNumeral, line),
            LexFault::TooLong => at(pass, RefusalKind::TextTooLong, 0),
            LexFault::NoMemory => Refusal::NoMemory,
        }
    }
}

impl From<SyntaxFault> for Refusal {
    ghost from_gives = { λ fault r. r ≡ syntax_refusal fault };

    fn from(fault: SyntaxFault) -> Refusal {
        let pass = Pass::Syntactic;
        match fault {
            SyntaxFault::Syntax { line, .. } => at(pass, RefusalKind::InvalidSyntax, line),
            SyntaxFault::TooDeep { line, .. } => at(pass, RefusalKind::NestingTooDeep, line),
            SyntaxFault::NotInProfile { line, .. } => at(pass, RefusalKind::NotInProfile, line),
            SyntaxFault::NoMemory => Refusal::NoMemory,
        }
    }
}

impl From<StaticFault> for Refusal {
    ghost from_gives = { λ fault r. r ≡ static_refusal_of fault };

    fn from(fault: StaticFault) -> Refusal {
        match fault {
            StaticFault::At { kind, line } => at(Pass::Semantic, static_kind(kind), line),
            StaticFault::NoMemory => Refusal::NoMemory,
        }
    }
}

impl From<AllocError> for Refusal {
    ghost from_gives = { λ _ r. r ≡ refusal.NoMemory };

    fn from(_error: AllocError) -> Refusal {
        Refusal::NoMemory
    }
}
