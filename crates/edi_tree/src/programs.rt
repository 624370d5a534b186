//! Programs.

ghost use Rattle.std.specs.Prelude.{◌≤◌};
ghost use Rattle.edi_tree.specs.View.{program_with};
ghost use Rattle.edi_tree.specs.Depth as depths;
ghost use Rattle.edi_tree.specs.Spells.{IsBounded};

use crate::constants::ConstList;
use crate::declarations::Procedure;
use crate::sequence::Sequence;
use crate::types::TypeDecl;

/// `Program = { ConstList | TypeDecl } Procedure`
///
/// It spells marks that `Symbols` of `edi_lex` can hold, and at most 64 levels are open in it at once.
#[derive(Drop)]
pub struct Program {
    pub globals: Globals,
    pub procedure: Procedure,
    pub ghost is_bounded: { ∥ IsBounded (program_with globals procedure) ∥₁ },
    pub ghost shallow: { depths.depth (program_with globals procedure) ≤ 64 },
}

/// `ConstList | TypeDecl`
#[derive(Drop)]
pub enum Global {
    ConstList(ConstList),
    TypeDecl(TypeDecl),
}

/// `{ ConstList | TypeDecl }`
pub type Globals = Sequence<Global>;
