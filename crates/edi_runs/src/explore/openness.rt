//! What the branches of a text use outside critical phases, by the names of the text.

ghost use Rattle.std.specs.Prelude.{◌≡◌, ◌<◌, ◌^◌, ◌&&◌, [], IfOk, IfSome, OnOk, length, map};
ghost use Rattle.std.specs.List.{list_any};
ghost use Rattle.edi_lex.specs.Symbols.{symbols_of};
ghost use Rattle.edi_tree.specs.Tree.{Program};
ghost use Rattle.edi_tree.specs.Whole.{program_of};
ghost use Rattle.edi_unit.specs.View.{blocks_of, unit_of};
ghost use Rattle.edi_sights.specs.named.Naming.{names_of};
ghost use Rattle.edi_disjoint.specs.Openly.{use_of};
ghost use Rattle.edi_compile.specs.Compiled.{IsFrontOf};
ghost use Rattle.edi_runs.specs.explore.Openness.{IsOpenness, IsTreeOf, open_of, variable_used};
ghost use Rattle.edi_runs.specs.explore.Orders.{names_used, same_variable, with_used, with_variable};

use edi_disjoint::{OpenUse, has_no_open_uses, open_uses};
use edi_lex::{Symbols, scan};
use edi_sights::{Names, names};
use edi_syntax::parse;
use edi_tree::Program as Tree;
use edi_unit::Unit;
use std::alloc::{AllocError, Global};

/// Variables by the names of their text: of each variable one use, and the names of the program.
#[derive(Drop)]
pub struct OpenNames {
    pub(crate) uses: Vec<OpenUse>,
    pub(crate) names: Names,
}

/// What the branches of a text use outside critical phases.
#[derive(Drop)]
pub struct Openness {
    /// They use nothing so, and the program itself is called and passed on nowhere.
    pub(crate) none: bool,
    /// Else the variables of the open uses.
    pub(crate) names: OpenNames,
}

// Whether two uses are of the same variable.
fn is_same(a: OpenUse, b: OpenUse) -> bool
    ensures exact { result ≡ same_variable (variable_used a) (variable_used b) }
{
    a.home == b.home && a.number == b.number
}

// Whether the variable of a use is one of those of these uses.
fn is_among(uses: &[OpenUse], one: OpenUse) -> bool
    ensures exact { result ≡ list_any (same_variable (variable_used one)) (map variable_used uses.now) }
{
    for there in uses {
        if is_same(one, *there) {
            return true;
        }
    }
    false
}

// Puts a use after the others, unless its variable is there.
fn put_variable(list: &mut Vec<OpenUse>, one: OpenUse) -> Result<(), AllocError>
    ensures exact { OnOk result (map variable_used list.new.items ≡ with_variable (map variable_used list.old.items) (variable_used one)) }
{
    if is_among(list.as_slice(), one) {
        return Ok(());
    }
    list.push(one)?;
    Ok(())
}

// Of each variable its first use.
fn first_uses(alloc: Global, uses: &[OpenUse]) -> Result<Vec<OpenUse>, AllocError>
    ensures exact { IfOk result (λ list. map variable_used list.items ≡ with_used [] (map use_of uses.now)) }
{
    let mut list = Vec::new(alloc);
    for one in uses {
        put_variable(&mut list, *one)?;
    }
    Ok(list)
}

// The tree of a text; none where memory runs out, and where the text is not accepted.
fn tree_of(alloc: Global, text: &[u8]) -> Option<Tree>
    ensures tree { IfSome result (λ tree. IsTreeOf (symbols_of text.now) (program_of tree)) }
{
    let Ok(symbols) = scan(alloc, text) else {
        return None;
    };
    parse(alloc, &symbols).ok()
}

// The variables of uses, with the names of their text; none where memory runs out, and where the text is not accepted.
fn open_names(alloc: Global, text: &[u8], uses: &[OpenUse]) -> Option<OpenNames>
    ensures names { IfSome result (λ openly. (tree : Program) × IsTreeOf (symbols_of text.now) tree
        × (open_of openly ≡ names_used (names_of tree) (map use_of uses.now))) }
{
    let Some(tree) = tree_of(alloc, text) else {
        return None;
    };
    let Ok(names) = names(alloc, &tree) else {
        return None;
    };
    let Ok(uses) = first_uses(alloc, uses) else {
        return None;
    };
    Some(OpenNames { uses, names })
}

// No variables and no names.
fn no_names(alloc: Global) -> OpenNames {
    OpenNames {
        uses: Vec::new(alloc),
        names: Names {
            blocks: Vec::new(alloc),
            constants: Vec::new(alloc),
        },
    }
}

/// What the branches of a text, which has this unit, use outside critical phases; none where memory runs out, and where the text is not accepted.
pub fn openness_of(alloc: Global, text: &[u8], unit: &Unit) -> Option<Openness>
    ensures is { IfSome result (λ openly. IsFrontOf text.now (unit_of unit.now) → length (blocks_of unit.now.blocks) < 2 ^ 32 →
        IsOpenness text.now (unit_of unit.now) openly) }
{
    let Ok(none) = has_no_open_uses(alloc, unit) else {
        return None;
    };
    if none {
        return Some(Openness {
            none,
            names: no_names(alloc),
        });
    }
    let Ok(uses) = open_uses(alloc, unit) else {
        return None;
    };
    let Some(names) = open_names(alloc, text, &uses) else {
        return None;
    };
    Some(Openness { none, names })
}
