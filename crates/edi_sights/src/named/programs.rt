//! The names of a program.

ghost use Rattle.std.specs.Prelude.{◌≡◌, ◌∷◌, [], codes, map, IfOk, OnOk};
ghost use Rattle.edi_tree.specs.View.{global_of, globals, procedure_of};
ghost use Rattle.edi_tree.specs.Whole.{program_of};
ghost use Rattle.edi_sights.specs.named.Naming as spec;
ghost use Rattle.edi_sights.specs.named.Views.{names_view, naming_of};

use crate::named::answer::Names;
use crate::named::declarations::procedure_named;
use crate::named::walk::{Walk, add_headed, add_type};
use edi_lex::Text;
use edi_static::Splits;
use edi_tree::{Global as Declared, Procedure, Program};
use std::alloc::{AllocError, Global};

/// The constants of `bool`.
fn truths(alloc: Global) -> Result<Vec<Text>, AllocError>
    ensures exact { IfOk result (λ names. names.items ≡ codes "false" ∷ codes "true" ∷ []) }
{
    let mut names = Vec::new(alloc);
    names.push(Text::from_slice(alloc, b"false")?)?;
    names.push(Text::from_slice(alloc, b"true")?)?;
    Ok(names)
}

/// What is named before a program.
fn first_naming(alloc: Global) -> Result<Walk, AllocError>
    ensures exact { IfOk result (λ walk. naming_of walk ≡ spec.first_naming) }
{
    let mut constants = Vec::new(alloc);
    constants.push(Vec::new(alloc))?;
    constants.push(Vec::new(alloc))?;
    constants.push(truths(alloc)?)?;
    Ok(Walk {
        blocks: Vec::new(alloc),
        constants,
        begun: Splits::new(alloc),
    })
}

/// A declaration before a program.
fn global_named(global: &Declared, walk: &mut Walk, alloc: Global) -> Result<(), AllocError>
    ensures exact { OnOk result (naming_of walk.new ≡ spec.global_named (global_of global.now) (naming_of walk.old)) }
{
    match global {
        Declared::ConstList(_) => Ok(()),
        Declared::TypeDecl(declared) => add_type(walk, alloc, declared),
    }
}

/// The declarations before a program.
fn globals_named(declared: &[Declared], walk: &mut Walk, alloc: Global) -> Result<(), AllocError>
    ensures exact { OnOk result (naming_of walk.new ≡ spec.globals_named (globals (map global_of declared.now)) (naming_of walk.old)) }
{
    for global in declared {
        global_named(global, walk, alloc)?;
    }
    Ok(())
}

/// The program's procedure, which is block 0.
fn program_named(procedure: &Procedure, walk: &mut Walk, alloc: Global) -> Result<(), AllocError>
    ensures exact { OnOk result (naming_of walk.new ≡ spec.program_named (procedure_of procedure.now) (naming_of walk.old)) }
{
    let _block = add_headed(walk, alloc, &procedure.heading)?;
    procedure_named(procedure, walk, alloc, 0)
}

/// The names that a program gives to its blocks, to their variables and to the constants of its types. They have the numbers of its unit,
/// by the law `names_are_slots`.
///
/// # Errors
///
/// Only for want of memory.
pub fn names(alloc: Global, tree: &Program) -> Result<Names, AllocError>
    ensures exact { IfOk result (λ names. names_view names ≡ spec.names_of (program_of tree.now)) }
{
    let mut walk = first_naming(alloc)?;
    globals_named(tree.globals.items(), &mut walk, alloc)?;
    program_named(&tree.procedure, &mut walk, alloc)?;
    Ok(Names {
        blocks: walk.blocks,
        constants: walk.constants,
    })
}
