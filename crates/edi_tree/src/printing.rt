//! Printing of programs.

ghost use Rattle.std.specs.Prelude.{◌≡◌, false, IfOk, OnOk};
ghost use Rattle.edi_lex.specs.Symbols.{is_too_long, symbols_of};
ghost use Rattle.edi_tree.specs.View.{global_of, globals_of};
ghost use Rattle.edi_tree.specs.Whole.{program_of};
ghost use Rattle.edi_tree.specs.Printed.{printed};
ghost use Rattle.edi_tree.specs.Printing as spec;
ghost use Rattle.edi_tree.specs.Scanned.{ScansTo};

use crate::printer::Printer;
use crate::programs::{self, Globals, Program};
use edi_lex::Text;
use std::alloc::{AllocError, Global};

impl Printer {
    fn global(&mut self, alloc: Global, global: &programs::Global) -> Result<(), AllocError>
        ensures exact { OnOk result (self.new ≡ spec.print_global (global_of global.now) self.old) }
    {
        match global {
            programs::Global::ConstList(list) => self.const_list(alloc, list),
            programs::Global::TypeDecl(decl) => self.type_decl(alloc, decl),
        }
    }

    fn globals(&mut self, alloc: Global, globals: &Globals) -> Result<(), AllocError>
        ensures exact { OnOk result (self.new ≡ spec.print_globals (globals_of globals.now) self.old) }
    {
        for global in globals.items() {
            self.global(alloc, global)?;
        }
        Ok(())
    }
}

/// The symbols of a program as a text that begins on line 1, with one blank between two of them. Where the line of a symbol
/// is kept and is greater than the present one, as many line feeds as lead there stand in place of the blank, and before the
/// first symbol too. A text that is not too long is scanned to symbols that the tree spells, its kept lines included.
pub fn print(alloc: Global, tree: &Program) -> Result<Vec<u8>, AllocError>
    ensures exact { IfOk result (λ text. text.items ≡ printed (program_of tree.now)) }
    ensures scans { IfOk result
        (λ text. is_too_long text.items ≡ false → ScansTo (program_of tree.now) (symbols_of text.items)) }
{
    let mut printer = Printer {
        text: Text::new(alloc),
        line: 1,
        begun: false,
    };
    printer.globals(alloc, &tree.globals)?;
    printer.procedure(alloc, &tree.procedure)?;
    Ok(printer.text.into_vec())
}
