//! Printing of headings, procedures and modules.

ghost use Rattle.std.specs.Prelude.{◌≡◌, OnOk};
ghost use Rattle.edi_tree.specs.View.{heading_of, item_of, module_of, param_of, params_of, procedure_of};
ghost use Rattle.edi_tree.specs.Printing as spec;

use crate::declarations::{Declaration, Item, Member, Module, Procedure};
use crate::headings::{Heading, Param, Params};
use crate::names::Name;
use crate::printer::Printer;
use std::alloc::{AllocError, Global};

impl Printer {
    fn result(&mut self, alloc: Global, name: &Option<Name>) -> Result<(), AllocError>
        ensures exact { OnOk result (self.new ≡ spec.print_result name.now self.old) }
    {
        match name {
            Some(name) => {
                self.word(alloc, b":")?;
                self.name(alloc, name)
            }
            None => Ok(()),
        }
    }

    #[cycle(print_heading)]
    fn heading(&mut self, alloc: Global, heading: &Heading) -> Result<(), AllocError>
        ensures exact { OnOk result (self.new ≡ spec.print_heading (heading_of heading.now) self.old) }
    {
        self.word(alloc, b"proc")?;
        self.name(alloc, &heading.name)?;
        self.params(alloc, &heading.params)?;
        self.result(alloc, &heading.result)
    }

    // The parameters in parentheses, if there are any.
    #[cycle(print_heading)]
    fn params(&mut self, alloc: Global, params: &Params) -> Result<(), AllocError>
        ensures exact { OnOk result (self.new ≡ spec.print_params (params_of params.now) self.old) }
    {
        let Some((first, more)) = params.items().split_first() else {
            return Ok(());
        };
        self.word(alloc, b"(")?;
        self.param(alloc, first)?;
        for param in more {
            self.word(alloc, b";")?;
            self.param(alloc, param)?;
        }
        self.word(alloc, b")")
    }

    #[cycle(print_heading)]
    fn param(&mut self, alloc: Global, param: &Param) -> Result<(), AllocError>
        ensures exact { OnOk result (self.new ≡ spec.print_param (param_of param.now) self.old) }
    {
        match param {
            Param::Value(group) => self.group(alloc, group),
            Param::Var(group) => {
                self.word(alloc, b"var")?;
                self.group(alloc, group)
            }
            Param::Heading(heading) => self.heading(alloc, heading),
        }
    }

    #[cycle(print_procedure)]
    pub(crate) fn procedure(
        &mut self,
        alloc: Global,
        procedure: &Procedure,
    ) -> Result<(), AllocError>
        ensures exact { OnOk result (self.new ≡ spec.print_procedure (procedure_of procedure.now) self.old) }
    {
        self.heading(alloc, &procedure.heading)?;
        for declaration in procedure.declarations.items() {
            match declaration {
                Declaration::Item(item) => self.item(alloc, item)?,
                Declaration::Module(module) => self.module(alloc, module)?,
            }
        }
        self.word(alloc, b"begin")?;
        self.list(alloc, &procedure.list)?;
        self.symbol(alloc, b"end", Some(procedure.end))
    }

    #[cycle(print_procedure)]
    fn item(&mut self, alloc: Global, item: &Item) -> Result<(), AllocError>
        ensures exact { OnOk result (self.new ≡ spec.print_item (item_of item.now) self.old) }
    {
        match item {
            Item::ConstList(list) => self.const_list(alloc, list),
            Item::TypeDecl(decl) => self.type_decl(alloc, decl),
            Item::VarList(list) => self.var_list(alloc, list),
            Item::Procedure(procedure) => self.procedure(alloc, procedure),
            Item::Pre(heading) => {
                self.word(alloc, b"pre")?;
                self.heading(alloc, heading)
            }
            Item::Post(procedure) => {
                self.word(alloc, b"post")?;
                self.procedure(alloc, procedure)
            }
        }
    }

    #[cycle(print_procedure)]
    fn module(&mut self, alloc: Global, module: &Module) -> Result<(), AllocError>
        ensures exact { OnOk result (self.new ≡ spec.print_module (module_of «module».now) self.old) }
    {
        self.word(alloc, b"module")?;
        for member in module.members.items() {
            match member {
                Member::Item(item) => self.item(alloc, item)?,
                Member::Exported(item) => {
                    self.word(alloc, b"*")?;
                    self.item(alloc, item)?;
                }
                Member::Module(module) => self.module(alloc, module)?,
            }
        }
        self.word(alloc, b"begin")?;
        self.list(alloc, &module.list)?;
        self.word(alloc, b"end")
    }
}
