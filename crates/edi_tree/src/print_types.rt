//! Printing of constants, types and lists of variables.

ghost use Rattle.std.specs.Prelude.{◌≡◌, None, OnOk};
ghost use Rattle.edi_tree.specs.Sequences.{items_of};
ghost use Rattle.edi_tree.specs.Stands.{name_mark};
ghost use Rattle.edi_tree.specs.View.{const_list_of, group_of, groups_of, names, type_decl_of, var_list_of};
ghost use Rattle.edi_tree.specs.Printing as spec;

use crate::constants::{ConstDecl, ConstList, Constant};
use crate::names::{Name, Names};
use crate::printer::Printer;
use crate::types::{Array, Group, Groups, TypeDecl, VarList};
use std::alloc::{AllocError, Global};

impl Printer {
    // The names of a list, with commas between them.
    fn names(&mut self, alloc: Global, first: &Name, more: &Names) -> Result<(), AllocError>
        ensures exact { OnOk result (self.new ≡ spec.print_names (names (items_of more.now)) (spec.put (name_mark first.now) self.old)) }
    {
        self.name(alloc, first)?;
        for name in more.items() {
            self.word(alloc, b",")?;
            self.name(alloc, name)?;
        }
        Ok(())
    }

    pub(crate) fn constant(&mut self, alloc: Global, constant: &Constant) -> Result<(), AllocError>
        ensures exact { OnOk result (self.new ≡ spec.print_constant constant.now self.old) }
    {
        match constant {
            Constant::Numeral(value) => self.numeral(alloc, *value),
            Constant::Char(char) => self.char(alloc, *char),
            Constant::Name(name, None) => self.name(alloc, name),
            Constant::Name(name, Some(value)) => {
                self.name(alloc, name)?;
                self.word(alloc, b"(")?;
                self.numeral(alloc, *value)?;
                self.word(alloc, b")")
            }
        }
    }

    fn const_decl(&mut self, alloc: Global, decl: &ConstDecl) -> Result<(), AllocError>
        ensures exact { OnOk result (self.new ≡ spec.print_const_decl decl.now self.old) }
    {
        self.name(alloc, &decl.name)?;
        self.word(alloc, b"=")?;
        self.constant(alloc, &decl.constant)
    }

    pub(crate) fn const_list(&mut self, alloc: Global, list: &ConstList) -> Result<(), AllocError>
        ensures exact { OnOk result (self.new ≡ spec.print_const_list (const_list_of list.now) self.old) }
    {
        self.word(alloc, b"const")?;
        self.const_decl(alloc, &list.first)?;
        for decl in list.more.items() {
            self.word(alloc, b";")?;
            self.const_decl(alloc, decl)?;
        }
        Ok(())
    }

    pub(crate) fn group(&mut self, alloc: Global, group: &Group) -> Result<(), AllocError>
        ensures exact { OnOk result (self.new ≡ spec.print_group (group_of group.now) self.old) }
    {
        self.names(alloc, &group.first, &group.more)?;
        self.word(alloc, b":")?;
        self.name(alloc, &group.type_name)
    }

    // The groups of a list, with semicolons between them.
    fn groups(&mut self, alloc: Global, first: &Group, more: &Groups) -> Result<(), AllocError>
        ensures exact { OnOk result (self.new ≡ spec.print_groups (groups_of more.now) (spec.print_group (group_of first.now) self.old)) }
    {
        self.group(alloc, first)?;
        for group in more.items() {
            self.word(alloc, b";")?;
            self.group(alloc, group)?;
        }
        Ok(())
    }

    // The word with which a declaration of a type begins, and the name.
    fn declared(&mut self, alloc: Global, word: &[u8], name: &Name) -> Result<(), AllocError>
        ensures exact { OnOk result (self.new ≡ spec.put (name_mark name.now) (spec.put_text word.now None self.old)) }
    {
        self.word(alloc, word)?;
        self.name(alloc, name)
    }

    fn name_in_parentheses(&mut self, alloc: Global, name: &Name) -> Result<(), AllocError>
        ensures exact { OnOk result (self.new ≡ spec.print_name_in_parentheses name.now self.old) }
    {
        self.word(alloc, b"(")?;
        self.name(alloc, name)?;
        self.word(alloc, b")")
    }

    // `"[" Constant ":" Constant "]"`
    fn bounds(&mut self, alloc: Global, array: &Array) -> Result<(), AllocError>
        ensures exact { OnOk result (self.new ≡ spec.print_bounds array.now.line array.now.lower array.now.upper self.old) }
    {
        self.symbol(alloc, b"[", Some(array.line))?;
        self.constant(alloc, &array.lower)?;
        self.word(alloc, b":")?;
        self.constant(alloc, &array.upper)?;
        self.word(alloc, b"]")
    }

    pub(crate) fn type_decl(&mut self, alloc: Global, decl: &TypeDecl) -> Result<(), AllocError>
        ensures exact { OnOk result (self.new ≡ spec.print_type_decl (type_decl_of decl.now) self.old) }
    {
        match decl {
            TypeDecl::Enum(decl) => {
                self.declared(alloc, b"enum", &decl.name)?;
                self.word(alloc, b"(")?;
                self.names(alloc, &decl.first, &decl.more)?;
                self.word(alloc, b")")
            }
            TypeDecl::Record(decl) => {
                self.declared(alloc, b"record", &decl.name)?;
                self.word(alloc, b"(")?;
                self.groups(alloc, &decl.first, &decl.more)?;
                self.word(alloc, b")")
            }
            TypeDecl::Array(decl) => {
                self.declared(alloc, b"array", &decl.name)?;
                self.bounds(alloc, decl)?;
                self.name_in_parentheses(alloc, &decl.element)
            }
            TypeDecl::Set(decl) => {
                self.declared(alloc, b"set", &decl.name)?;
                self.name_in_parentheses(alloc, &decl.base)
            }
        }
    }

    pub(crate) fn var_list(&mut self, alloc: Global, list: &VarList) -> Result<(), AllocError>
        ensures exact { OnOk result (self.new ≡ spec.print_var_list (var_list_of list.now) self.old) }
    {
        self.word(alloc, b"var")?;
        self.groups(alloc, &list.first, &list.more)
    }
}
