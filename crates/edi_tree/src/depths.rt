//! The number of levels that are open at once in a tree. Numbers above 64 count as 65, so that they need no room however
//! deep a tree is.

ghost use Rattle.std.specs.Prelude.{◌≡◌, ◌≤◌, ℕ, suc};
ghost use Rattle.edi_tree.specs.View as view;
ghost use Rattle.edi_tree.specs.Whole.{program_of};
ghost use Rattle.edi_tree.specs.Depth.{limited};
ghost use Rattle.edi_tree.specs.Depth as spec;

use crate::constants::{ConstList, Constant};
use crate::declarations::{Declaration, Item, Member, Module, Procedure};
use crate::expressions::{Args, Comparison, Expr, Factor, Selector, Simple, Term, Variable};
use crate::headings::{Heading, Param, Params};
use crate::programs::{Global, Globals, Program};
use crate::statements::{Branch, Branches, Cobegin, Condition, Conditions, List, Statement};
use crate::types::TypeDecl;

/// What a number above 64 counts as.
const LIMIT: u32 = 65;

// One level more.
fn deeper(depth: u32) -> u32
    requires small { depth ≤ 65 }
    ensures exact { result ≡ limited (suc depth) }
    ensures small { result ≤ 65 }
{
    (depth + 1).min(LIMIT)
}

fn constant_depth(constant: &Constant) -> u32
    ensures exact { result ≡ limited (spec.constant_depth constant.now) }
    ensures small { result ≤ 65 }
{
    match constant {
        Constant::Name(_, Some(_)) => 1,
        _ => 0,
    }
}

fn const_list_depth(list: &ConstList) -> u32
    ensures exact { result ≡ limited (spec.const_list_depth (view.const_list_of list.now)) }
    ensures small { result ≤ 65 }
{
    let mut depth = constant_depth(&list.first.constant);
    for declaration in list.more.items() {
        depth = depth.max(constant_depth(&declaration.constant));
    }
    depth
}

fn type_decl_depth(declaration: &TypeDecl) -> u32
    ensures exact { result ≡ limited (spec.type_decl_depth (view.type_decl_of declaration.now)) }
    ensures small { result ≤ 65 }
{
    match declaration {
        TypeDecl::Array(array) => {
            let lower = constant_depth(&array.lower);
            deeper(lower.max(constant_depth(&array.upper)))
        }
        _ => 1,
    }
}

#[cycle(heading_depths)]
fn heading_depth(heading: &Heading) -> u32
    ensures exact { result ≡ limited (spec.heading_depth (view.heading_of heading.now)) }
    ensures small { result ≤ 65 }
{
    deeper(params_depth(&heading.params))
}

#[cycle(heading_depths)]
fn params_depth(params: &Params) -> u32
    ensures exact { result ≡ limited (spec.params_depth (view.params_of params.now)) }
    ensures small { result ≤ 65 }
{
    if params.is_empty() {
        return 0;
    }
    let mut depth: u32 = 0;
    for param in params.items() {
        depth = depth.max(param_depth(param));
    }
    deeper(depth)
}

#[cycle(heading_depths)]
fn param_depth(param: &Param) -> u32
    ensures exact { result ≡ limited (spec.param_depth (view.param_of param.now)) }
    ensures small { result ≤ 65 }
{
    match param {
        Param::Heading(heading) => heading_depth(heading),
        _ => 0,
    }
}

#[cycle(expression_depths)]
fn expr_depth(expr: &Expr) -> u32
    ensures exact { result ≡ limited (spec.expr_depth (view.expr_of expr.now)) }
    ensures small { result ≤ 65 }
{
    let left = simple_depth(&expr.left);
    match &expr.comparison {
        Some(comparison) => left.max(simple_depth(&comparison.right)),
        None => left,
    }
}

#[cycle(expression_depths)]
fn simple_depth(simple: &Simple) -> u32
    ensures exact { result ≡ limited (spec.simple_depth (view.simple_of simple.now)) }
    ensures small { result ≤ 65 }
{
    let mut depth = term_depth(&simple.first);
    for addend in simple.more.items() {
        depth = depth.max(term_depth(&addend.term));
    }
    depth
}

#[cycle(expression_depths)]
fn term_depth(term: &Term) -> u32
    ensures exact { result ≡ limited (spec.term_depth (view.term_of term.now)) }
    ensures small { result ≤ 65 }
{
    let mut depth = factor_depth(&term.first);
    for multiplier in term.more.items() {
        depth = depth.max(factor_depth(&multiplier.factor));
    }
    depth
}

#[cycle(expression_depths)]
fn factor_depth(factor: &Factor) -> u32
    ensures exact { result ≡ limited (spec.factor_depth (view.factor_of factor.now)) }
    ensures small { result ≤ 65 }
{
    match factor {
        Factor::Numeral(_) | Factor::String(_) => 0,
        Factor::Not(_, factor) => deeper(factor_depth(factor)),
        Factor::Parenthesized(expr) => deeper(expr_depth(expr)),
        Factor::Call(_, args) => args_depth(args),
        Factor::Variable(variable) => variable_depth(variable),
    }
}

#[cycle(expression_depths)]
fn args_depth(args: &Args) -> u32
    ensures exact { result ≡ limited (spec.args_depth (view.args_of args.now)) }
    ensures small { result ≤ 65 }
{
    let mut depth = expr_depth(&args.first);
    for expr in args.more.items() {
        depth = depth.max(expr_depth(expr));
    }
    deeper(depth)
}

#[cycle(expression_depths)]
fn variable_depth(variable: &Variable) -> u32
    ensures exact { result ≡ limited (spec.variable_depth (view.variable_of variable.now)) }
    ensures small { result ≤ 65 }
{
    let mut depth: u32 = 0;
    for selector in variable.selectors.items() {
        depth = depth.max(selector_depth(selector));
    }
    depth
}

#[cycle(expression_depths)]
fn selector_depth(selector: &Selector) -> u32
    ensures exact { result ≡ limited (spec.selector_depth (view.selector_of selector.now)) }
    ensures small { result ≤ 65 }
{
    match selector {
        Selector::Field(_, _) => 0,
        Selector::Index(_, expr) => deeper(expr_depth(expr)),
    }
}

#[cycle(statement_depths)]
fn list_depth(list: &List) -> u32
    ensures exact { result ≡ limited (spec.list_depth (view.list_of list.now)) }
    ensures small { result ≤ 65 }
{
    let mut depth = statement_depth(&list.first);
    for statement in list.more.items() {
        depth = depth.max(statement_depth(statement));
    }
    depth
}

#[cycle(statement_depths)]
fn statement_depth(statement: &Statement) -> u32
    ensures exact { result ≡ limited (spec.statement_depth (view.statement_of statement.now)) }
    ensures small { result ≤ 65 }
{
    match statement {
        Statement::Skip => 0,
        Statement::Assignment(assignment) => {
            let left = variable_depth(&assignment.variable);
            left.max(expr_depth(&assignment.expr))
        }
        Statement::Call(call) => match &call.args {
            Some(args) => args_depth(args),
            None => 0,
        },
        Statement::If(conditions) | Statement::While(conditions) => {
            deeper(conditions_depth(conditions))
        }
        Statement::When(when) => deeper(conditions_depth(&when.conditions)),
        Statement::Cobegin(cobegin) => cobegin_depth(cobegin),
    }
}

#[cycle(statement_depths)]
fn conditions_depth(conditions: &Conditions) -> u32
    ensures exact { result ≡ limited (spec.conditions_depth (view.conditions_of conditions.now)) }
    ensures small { result ≤ 65 }
{
    let mut depth = condition_depth(&conditions.first);
    for condition in conditions.more.items() {
        depth = depth.max(condition_depth(condition));
    }
    depth
}

#[cycle(statement_depths)]
fn condition_depth(condition: &Condition) -> u32
    ensures exact { result ≡ limited (spec.condition_depth (view.condition_of condition.now)) }
    ensures small { result ≤ 65 }
{
    let expr = expr_depth(&condition.expr);
    expr.max(list_depth(&condition.list))
}

#[cycle(statement_depths)]
fn cobegin_depth(cobegin: &Cobegin) -> u32
    ensures exact { result ≡ limited (spec.statement_depth (view.cobegin_of cobegin.now)) }
    ensures small { result ≤ 65 }
{
    let first = branch_depth(&cobegin.first);
    deeper(first.max(branches_depth(&cobegin.more)))
}

// The depth of branches behind one that is closed on any line.
#[cycle(statement_depths)]
fn branches_depth(branches: &Branches) -> u32
    ensures exact { (end : ℕ) → result ≡ limited (spec.branches_depth (view.branches_of end branches.now)) }
    ensures small { result ≤ 65 }
{
    let mut depth: u32 = 0;
    for branch in branches.items() {
        depth = depth.max(branch_depth(branch));
    }
    depth
}

#[cycle(statement_depths)]
fn branch_depth(branch: &Branch) -> u32
    ensures exact { result ≡ limited (spec.branch_depth (view.branch_of branch.now).opened) }
    ensures small { result ≤ 65 }
{
    let constant = constant_depth(&branch.constant);
    constant.max(list_depth(&branch.list))
}

#[cycle(declaration_depths)]
fn procedure_depth(procedure: &Procedure) -> u32
    ensures exact { result ≡ limited (spec.procedure_depth (view.procedure_of procedure.now)) }
    ensures small { result ≤ 65 }
{
    let heading = heading_depth(&procedure.heading);
    let mut depth = list_depth(&procedure.list);
    for declaration in procedure.declarations.items() {
        depth = depth.max(declaration_depth(declaration));
    }
    heading.max(deeper(depth))
}

#[cycle(declaration_depths)]
fn item_depth(item: &Item) -> u32
    ensures exact { result ≡ limited (spec.item_depth (view.item_of item.now)) }
    ensures small { result ≤ 65 }
{
    match item {
        Item::ConstList(list) => const_list_depth(list),
        Item::TypeDecl(declaration) => type_decl_depth(declaration),
        Item::VarList(_) => 0,
        Item::Procedure(procedure) | Item::Post(procedure) => procedure_depth(procedure),
        Item::Pre(heading) => heading_depth(heading),
    }
}

#[cycle(declaration_depths)]
fn module_depth(module: &Module) -> u32
    ensures exact { result ≡ limited (spec.module_depth (view.module_of «module».now)) }
    ensures small { result ≤ 65 }
{
    let mut depth = list_depth(&module.list);
    for member in module.members.items() {
        depth = depth.max(member_depth(member));
    }
    deeper(depth)
}

#[cycle(declaration_depths)]
fn member_depth(member: &Member) -> u32
    ensures exact { result ≡ limited (spec.member_depth (view.member_of member.now)) }
    ensures small { result ≤ 65 }
{
    match member {
        Member::Item(item) | Member::Exported(item) => item_depth(item),
        Member::Module(module) => module_depth(module),
    }
}

#[cycle(declaration_depths)]
fn declaration_depth(declaration: &Declaration) -> u32
    ensures exact { result ≡ limited (spec.declaration_depth (view.declaration_of declaration.now)) }
    ensures small { result ≤ 65 }
{
    match declaration {
        Declaration::Item(item) => item_depth(item),
        Declaration::Module(module) => module_depth(module),
    }
}

fn globals_depth(globals: &Globals) -> u32
    ensures exact { result ≡ limited (spec.globals_depth (view.globals_of globals.now)) }
    ensures small { result ≤ 65 }
{
    let mut depth: u32 = 0;
    for global in globals.items() {
        let here = match global {
            Global::ConstList(list) => const_list_depth(list),
            Global::TypeDecl(declaration) => type_decl_depth(declaration),
        };
        depth = depth.max(here);
    }
    depth
}

/// The greatest number of levels that are open at once in a program, at most 64. A level is opened by `proc`, `module`, `if`,
/// `while`, `when`, `cobegin`, `(`, `[` and `not`, and is closed at the end of its construct.
pub fn depth(tree: &Program) -> u32
    ensures exact { result ≡ spec.depth (program_of tree.now) }
{
    let globals = globals_depth(&tree.globals);
    globals.max(procedure_depth(&tree.procedure))
}
