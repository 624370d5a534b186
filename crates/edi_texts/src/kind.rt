//! The kinds of faults, and the texts that tell them.

ghost use Rattle.std.specs.Prelude.{◌≡◌};
ghost use Rattle.edi_texts.specs.Kinds.{kind_text};

use std::fmt;

/// What kind of fault a text has.
#[derive(Clone, Copy, Debug, PartialEq, Eq)]
pub enum RefusalKind {
    /// Something that is no symbol, separator or comment.
    InvalidCharacter,
    /// A numeral above 32767.
    InvalidNumeral,
    /// More than 262,144 bytes or more than 65,534 line feeds.
    TextTooLong,
    /// The first symbol with which the symbols begin no program.
    InvalidSyntax,
    /// A symbol that opens a 65th level.
    NestingTooDeep,
    /// A symbol or a standard name of Edison that the profile leaves out.
    NotInProfile,
    /// A name that means nothing at its place.
    UndeclaredName,
    /// A name that its scope has already.
    AmbiguousName,
    /// A name that does not mean what is asked for at its place.
    InvalidNameKind,
    /// Operands, bounds or parts that do not have the types that they must have.
    IncompatibleTypes,
    /// Something that is larger than it may be, or bounds of which the lower is the greater.
    InvalidRange,
    /// A call that does not fit the heading of what it calls.
    InvalidCall,
    /// A constructor that does not fit its type.
    InvalidConstructor,
    /// Two parts of a split procedure that do not belong together.
    InvalidSplitProcedure,
    /// A heading that a program may not have.
    InvalidProgramHeading,
}

impl RefusalKind {
    /// The text that tells the kind, as `invalid syntax`.
    pub fn text(self) -> &'static str
        ensures exact { result.now ≡ kind_text self }
    {
        match self {
            RefusalKind::InvalidCharacter => "invalid character",
            RefusalKind::InvalidNumeral => "invalid numeral",
            RefusalKind::TextTooLong => "text too long",
            RefusalKind::InvalidSyntax => "invalid syntax",
            RefusalKind::NestingTooDeep => "nesting too deep",
            RefusalKind::NotInProfile => "not in profile",
            RefusalKind::UndeclaredName => "undeclared name",
            RefusalKind::AmbiguousName => "ambiguous name",
            RefusalKind::InvalidNameKind => "invalid name kind",
            RefusalKind::IncompatibleTypes => "incompatible types",
            RefusalKind::InvalidRange => "invalid range",
            RefusalKind::InvalidCall => "invalid call",
            RefusalKind::InvalidConstructor => "invalid constructor",
            RefusalKind::InvalidSplitProcedure => "invalid split procedure",
            RefusalKind::InvalidProgramHeading => "invalid program heading",
        }
    }
}

impl fmt::Display for RefusalKind {
    fn fmt<W: fmt::Write>(&self, f: &mut fmt::Formatter<W>) -> fmt::Result {
        f.write_str(self.text())
    }
}
