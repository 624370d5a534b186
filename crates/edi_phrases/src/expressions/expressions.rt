//! Expressions.
#![tactic(auto, using(crate::proofs::Moves::no_memory))]

ghost use Rattle.std.specs.Prelude.{◌≡◌, [], ◌∷◌, ◌<◌, ◌≤◌, ℕ, true, false, length, option_map, IfOk, IfErr, IfSome, IfNone};
ghost use Rattle.edi_phrases.specs.Prelude.{front, kind_of, has, at_line, Passes, HaltsAt};
ghost use Rattle.edi_lex.specs.declared.symbol.Symbol.TheVariants as is;
ghost use Rattle.edi_tree.specs.Stands.{relation_symbol, addition_symbol, multiplication_symbol};
ghost use Rattle.edi_tree.specs.View.{selector_of, selectors_of, exprs_of, args_of, factor_of, multipliers_of, term_of, addends_of, simple_of};
ghost use Rattle.edi_tree.specs.View.{optional_comparison, comparison_of, expr_of};
ghost use Rattle.edi_tree.specs.Levels.{selector_elements, selectors_elements, exprs_elements, args_elements, factor_elements, multipliers_elements};
ghost use Rattle.edi_tree.specs.Levels.{term_elements, addends_elements, simple_elements, sign_elements, comparison_elements, expr_elements};
ghost use Rattle.edi_grammar.specs.Kinds as kind;
ghost use Rattle.edi_grammar.specs.Rules as g;
ghost use Rattle.edi_grammar.specs.Edison as sets;
ghost use Rattle.edi_phrases.specs.expressions.Strings.{NoString};

use crate::expressions::layers::{
    make_addend, make_args, make_call, make_comparison, make_expr, make_field, make_index,
    make_multiplier, make_not, make_numeral, make_parenthesized, make_simple, make_string,
    make_term, make_variable,
};
use crate::{Parsed, at, at_name, eat, eat_numeral, expect, open, parse_name, text_here};
use edi_lex::{Mark, Symbol};
use edi_tree::{
    Addends, Addition, Args, Chars, Comparison, Expr, Exprs, Factor, Multiplication, Multipliers,
    Relation, Root, Selector, Selectors, Sequence, Sign, Simple, Term,
};
use std::alloc::Global;

/// The relation of this symbol, if it is one.
fn relation_of(symbol: &Symbol) -> Option<Relation>
    ensures found { IfSome result (λ r. symbol.now ≡ relation_symbol r) }
    ensures none { IfNone result (has (kind_of symbol.now) (sets.first g.Relation) ≡ false) }
{
    match symbol {
        Symbol::Equal => Some(Relation::Equal),
        Symbol::NotEqual => Some(Relation::NotEqual),
        Symbol::Less => Some(Relation::Less),
        Symbol::AtMost => Some(Relation::AtMost),
        Symbol::Greater => Some(Relation::Greater),
        Symbol::AtLeast => Some(Relation::AtLeast),
        Symbol::In => Some(Relation::In),
        _ => None,
    }
}

/// The relation in front with its line, and the marks behind it.
fn eat_relation(marks: &[Mark]) -> Option<(Relation, u16, &[Mark])>
    ensures found { IfSome result (λ r. marks.now ≡ at_line (relation_symbol r.0) r.1 ∷ r.2.now) }
    ensures shorter { IfSome result (λ r. length r.2.now < length marks.now) }
    ensures none { IfNone result (has (front marks.now) (sets.first g.Relation) ≡ false) }
{
    let (first, rest) = marks.split_first()?;
    let found = relation_of(&first.symbol)?;
    Some((found, first.line, rest))
}

/// The operator of this symbol, if it is `+`, `-` or `or`.
fn addition_of(symbol: &Symbol) -> Option<Addition>
    ensures found { IfSome result (λ r. symbol.now ≡ addition_symbol r) }
    ensures none { IfNone result (has (kind_of symbol.now) (sets.first g.Addition) ≡ false) }
{
    match symbol {
        Symbol::Plus => Some(Addition::Plus),
        Symbol::Minus => Some(Addition::Minus),
        Symbol::Or => Some(Addition::Or),
        _ => None,
    }
}

/// The `+`, `-` or `or` in front with its line, and the marks behind it.
fn eat_addition(marks: &[Mark]) -> Option<(Addition, u16, &[Mark])>
    ensures found { IfSome result (λ r. marks.now ≡ at_line (addition_symbol r.0) r.1 ∷ r.2.now) }
    ensures shorter { IfSome result (λ r. length r.2.now < length marks.now) }
    ensures none { IfNone result (has (front marks.now) (sets.first g.Addition) ≡ false) }
{
    let (first, rest) = marks.split_first()?;
    let found = addition_of(&first.symbol)?;
    Some((found, first.line, rest))
}

/// The operator of this symbol, if it is `*`, `div`, `mod` or `and`.
fn multiplication_of(symbol: &Symbol) -> Option<Multiplication>
    ensures found { IfSome result (λ r. symbol.now ≡ multiplication_symbol r) }
    ensures none { IfNone result (has (kind_of symbol.now) (sets.first g.Multiplication) ≡ false) }
{
    match symbol {
        Symbol::Star => Some(Multiplication::Star),
        Symbol::Div => Some(Multiplication::Div),
        Symbol::Mod => Some(Multiplication::Mod),
        Symbol::And => Some(Multiplication::And),
        _ => None,
    }
}

/// The `*`, `div`, `mod` or `and` in front with its line, and the marks behind it.
fn eat_multiplication(marks: &[Mark]) -> Option<(Multiplication, u16, &[Mark])>
    ensures found { IfSome result (λ r. marks.now ≡ at_line (multiplication_symbol r.0) r.1 ∷ r.2.now) }
    ensures shorter { IfSome result (λ r. length r.2.now < length marks.now) }
    ensures none { IfNone result (has (front marks.now) (sets.first g.Multiplication) ≡ false) }
{
    let (first, rest) = marks.split_first()?;
    let found = multiplication_of(&first.symbol)?;
    Some((found, first.line, rest))
}

/// `[ "+" | "-" ]`, and the marks behind it.
fn eat_sign(marks: &[Mark]) -> (Option<Sign>, &[Mark])
    ensures passes { (n : ℕ) → Passes g.Sign n (sign_elements result.0) marks.now result.1.now }
    ensures shorter { length result.1.now ≤ length marks.now }
{
    if let Some((line, rest)) = eat(marks, &Symbol::Plus) {
        return (Some(Sign::Plus(line)), rest);
    }
    if let Some((line, rest)) = eat(marks, &Symbol::Minus) {
        return (Some(Sign::Minus(line)), rest);
    }
    (None, marks)
}

/// `"[" Expr "]"`, where no `.` is in front, and the marks behind it.
#[cycle(expression)]
fn parse_index<'a>(alloc: Global, marks: &'a [Mark], level: u16) -> Parsed<'a, Selector>
    requires chosen { front marks.now ≡ kind.Period → ⊥ }
    ensures passes { IfOk result (λ r. Passes g.Selector level (selector_elements (selector_of r.0)) marks.now r.1.now) }
    ensures halts { IfErr result (λ e. HaltsAt g.Selector level marks.now e) }
    ensures shorter { IfOk result (λ r. length r.1.now < length marks.now) }
{
    let (line, behind_bracket) = open(marks, &Symbol::OpenBracket, level)?;
    let (index, behind_index) = parse_expr(alloc, behind_bracket, level + 1)?;
    let (_, rest) = expect(behind_index, &Symbol::CloseBracket)?;
    let selector = make_index(alloc, line, index)?;
    Ok((selector, rest))
}

/// `"." Name | "[" Expr "]"`, and the marks behind it.
#[cycle(expression)]
fn parse_selector<'a>(alloc: Global, marks: &'a [Mark], level: u16) -> Parsed<'a, Selector>
    ensures passes { IfOk result (λ r. Passes g.Selector level (selector_elements (selector_of r.0)) marks.now r.1.now) }
    ensures halts { IfErr result (λ e. HaltsAt g.Selector level marks.now e) }
    ensures shorter { IfOk result (λ r. length r.1.now < length marks.now) }
{
    if let Some((line, behind_period)) = eat(marks, &Symbol::Period) {
        let (field, rest) = parse_name(alloc, behind_period)?;
        return Ok((make_field(line, field), rest));
    }
    parse_index(alloc, marks, level)
}

/// Whether `.` or `[` is in front.
fn at_selector(marks: &[Mark]) -> bool
    ensures exact { result ≡ has (front marks.now) (sets.first g.Selector) }
{
    match marks.first() {
        Some(mark) => matches!(mark.symbol, Symbol::Period | Symbol::OpenBracket),
        None => false,
    }
}

/// `{ "." Name | "[" Expr "]" }`, and the marks behind it.
#[cycle(expression)]
pub fn parse_selectors<'a>(alloc: Global, marks: &'a [Mark], level: u16) -> Parsed<'a, Selectors>
    ensures passes { IfOk result (λ r. Passes g.Selectors level (selectors_elements (selectors_of r.0)) marks.now r.1.now) }
    ensures halts { IfErr result (λ e. HaltsAt g.Selectors level marks.now e) }
    ensures shorter { IfOk result (λ r. length r.1.now ≤ length marks.now) }
{
    let mut selectors = Vec::new(alloc);
    let mut rest = marks;
    while at_selector(rest) {
        let (selector, behind) = parse_selector(alloc, rest, level)?;
        selectors.push(selector)?;
        rest = behind;
    }
    Ok((Sequence::from_vec(selectors), rest))
}

/// `{ "," Expr }`, and the marks behind it.
#[cycle(expression)]
fn parse_exprs<'a>(alloc: Global, marks: &'a [Mark], level: u16) -> Parsed<'a, Exprs>
    ensures passes { IfOk result (λ r. Passes g.Exprs level (exprs_elements (exprs_of r.0)) marks.now r.1.now) }
    ensures halts { IfErr result (λ e. HaltsAt g.Exprs level marks.now e) }
    ensures shorter { IfOk result (λ r. length r.1.now ≤ length marks.now) }
{
    let mut exprs = Vec::new(alloc);
    let mut rest = marks;
    while let Some((_, behind_comma)) = eat(rest, &Symbol::Comma) {
        let (expr, behind) = parse_expr(alloc, behind_comma, level)?;
        exprs.push(expr)?;
        rest = behind;
    }
    Ok((Sequence::from_vec(exprs), rest))
}

/// `"(" Expr { "," Expr } ")"`, and the marks behind it.
#[cycle(expression)]
pub fn parse_args<'a>(alloc: Global, marks: &'a [Mark], level: u16) -> Parsed<'a, Args>
    ensures passes { IfOk result (λ r. Passes g.Args level (args_elements (args_of r.0)) marks.now r.1.now) }
    ensures halts { IfErr result (λ e. HaltsAt g.Args level marks.now e) }
    ensures shorter { IfOk result (λ r. length r.1.now < length marks.now) }
{
    let (_, behind_open) = open(marks, &Symbol::Open, level)?;
    let (first, behind_first) = parse_expr(alloc, behind_open, level + 1)?;
    let (more, behind_more) = parse_exprs(alloc, behind_first, level + 1)?;
    let (_, rest) = expect(behind_more, &Symbol::Close)?;
    let args = make_args(alloc, first, more)?;
    Ok((args, rest))
}

/// `"not" Factor`, where `not` is in front, and the marks behind it.
#[cycle(expression)]
fn parse_not<'a>(alloc: Global, marks: &'a [Mark], level: u16) -> Parsed<'a, Factor>
    requires chosen { front marks.now ≡ kind.Not }
    ensures passes { IfOk result (λ r. Passes g.Factor level (factor_elements (factor_of r.0)) marks.now r.1.now) }
    ensures halts { IfErr result (λ e. HaltsAt g.Factor level marks.now e) }
    ensures shorter { IfOk result (λ r. length r.1.now < length marks.now) }
{
    let (line, behind_not) = open(marks, &Symbol::Not, level)?;
    let (factor, rest) = parse_factor(alloc, behind_not, level + 1)?;
    let negation = make_not(alloc, line, factor)?;
    Ok((negation, rest))
}

/// `"(" Expr ")"`, where `(` is in front, and the marks behind it.
#[cycle(expression)]
fn parse_parenthesized<'a>(alloc: Global, marks: &'a [Mark], level: u16) -> Parsed<'a, Factor>
    requires chosen { front marks.now ≡ kind.Open }
    ensures passes { IfOk result (λ r. Passes g.Factor level (factor_elements (factor_of r.0)) marks.now r.1.now) }
    ensures halts { IfErr result (λ e. HaltsAt g.Factor level marks.now e) }
    ensures shorter { IfOk result (λ r. length r.1.now < length marks.now) }
{
    let (_, behind_open) = open(marks, &Symbol::Open, level)?;
    let (expr, behind_expr) = parse_expr(alloc, behind_open, level + 1)?;
    let (_, rest) = expect(behind_expr, &Symbol::Close)?;
    let factor = make_parenthesized(alloc, expr)?;
    Ok((factor, rest))
}

/// A factor that begins with a name, where one is in front, and the marks behind it.
#[cycle(expression)]
fn parse_named<'a>(alloc: Global, marks: &'a [Mark], level: u16) -> Parsed<'a, Factor>
    requires chosen { front marks.now ≡ kind.Name }
    ensures passes { IfOk result (λ r. Passes g.Factor level (factor_elements (factor_of r.0)) marks.now r.1.now) }
    ensures halts { IfErr result (λ e. HaltsAt g.Factor level marks.now e) }
    ensures shorter { IfOk result (λ r. length r.1.now < length marks.now) }
{
    let (name, behind_name) = parse_name(alloc, marks)?;
    if at(behind_name, &Symbol::Open) {
        let (args, behind_args) = parse_args(alloc, behind_name, level)?;
        return Ok((make_call(name, args), behind_args));
    }
    let (selectors, rest) = parse_selectors(alloc, behind_name, level)?;
    Ok((make_variable(Root::Name(name), selectors), rest))
}

/// `"val" Name { "." Name | "[" Expr "]" }`, where no other factor is in front, and the marks behind it.
#[cycle(expression)]
fn parse_val<'a>(alloc: Global, marks: &'a [Mark], level: u16) -> Parsed<'a, Factor>
    requires chosen { has (front marks.now) (kind.Numeral ∷ kind.Char ∷ kind.Text ∷ kind.Not ∷ kind.Open ∷ kind.Name ∷ []) ≡ false }
    ensures passes { IfOk result (λ r. Passes g.Factor level (factor_elements (factor_of r.0)) marks.now r.1.now) }
    ensures halts { IfErr result (λ e. HaltsAt g.Factor level marks.now e) }
    ensures shorter { IfOk result (λ r. length r.1.now < length marks.now) }
{
    let (_, behind_val) = expect(marks, &Symbol::Val)?;
    let (name, behind_name) = parse_name(alloc, behind_val)?;
    let (selectors, rest) = parse_selectors(alloc, behind_name, level)?;
    Ok((make_variable(Root::Val(name), selectors), rest))
}

/// Whether a string is in front.
#[tactic(auto, using(crate::proofs::expressions::Strings::string_kind))]
fn at_string(marks: &[Mark]) -> bool
    ensures exact { result ≡ has (front marks.now) (kind.Char ∷ kind.Text ∷ []) }
{
    match marks.first() {
        Some(mark) => matches!(mark.symbol, Symbol::Chars(_)),
        None => false,
    }
}

/// The string that must stand here, and the marks behind it.
#[tactic(auto, using(crate::proofs::expressions::Strings::string_kind))]
fn parse_chars<'a>(alloc: Global, marks: &'a [Mark]) -> Parsed<'a, Chars>
    ensures found { IfOk result (λ r. marks.now ≡ at_line (is.Chars r.0.text) r.0.line ∷ r.1.now) }
    ensures shorter { IfOk result (λ r. length r.1.now < length marks.now) }
    ensures none { IfErr result (λ e. NoString marks.now e) }
{
    text_here!(alloc, marks, Chars)
}

/// A string, where one is in front, and the marks behind it.
fn parse_string<'a>(alloc: Global, marks: &'a [Mark], level: u16) -> Parsed<'a, Factor>
    requires chosen { has (front marks.now) (kind.Char ∷ kind.Text ∷ []) ≡ true }
    ensures passes { IfOk result (λ r. Passes g.Factor level (factor_elements (factor_of r.0)) marks.now r.1.now) }
    ensures halts { IfErr result (λ e. HaltsAt g.Factor level marks.now e) }
    ensures shorter { IfOk result (λ r. length r.1.now < length marks.now) }
{
    let (chars, rest) = parse_chars(alloc, marks)?;
    Ok((make_string(chars), rest))
}

/// `Numeral | String | "not" Factor | "(" Expr ")" | Name Args | Variable`, and the marks behind it.
#[cycle(expression)]
fn parse_factor<'a>(alloc: Global, marks: &'a [Mark], level: u16) -> Parsed<'a, Factor>
    ensures passes { IfOk result (λ r. Passes g.Factor level (factor_elements (factor_of r.0)) marks.now r.1.now) }
    ensures halts { IfErr result (λ e. HaltsAt g.Factor level marks.now e) }
    ensures shorter { IfOk result (λ r. length r.1.now < length marks.now) }
{
    if let Some((value, behind_value)) = eat_numeral(marks) {
        return Ok((make_numeral(value), behind_value));
    }
    if at_string(marks) {
        return parse_string(alloc, marks, level);
    }
    if at(marks, &Symbol::Not) {
        return parse_not(alloc, marks, level);
    }
    if at(marks, &Symbol::Open) {
        return parse_parenthesized(alloc, marks, level);
    }
    if at_name(marks) {
        return parse_named(alloc, marks, level);
    }
    parse_val(alloc, marks, level)
}

/// `{ ( "*" | "div" | "mod" | "and" ) Factor }`, and the marks behind it.
#[cycle(expression)]
fn parse_multipliers<'a>(alloc: Global, marks: &'a [Mark], level: u16) -> Parsed<'a, Multipliers>
    ensures passes { IfOk result (λ r. Passes g.Multipliers level (multipliers_elements (multipliers_of r.0)) marks.now r.1.now) }
    ensures halts { IfErr result (λ e. HaltsAt g.Multipliers level marks.now e) }
    ensures shorter { IfOk result (λ r. length r.1.now ≤ length marks.now) }
{
    let mut multipliers = Vec::new(alloc);
    let mut rest = marks;
    while let Some((operator, line, behind_operator)) = eat_multiplication(rest) {
        let (factor, behind) = parse_factor(alloc, behind_operator, level)?;
        multipliers.push(make_multiplier(operator, line, factor))?;
        rest = behind;
    }
    Ok((Sequence::from_vec(multipliers), rest))
}

/// `Factor { ( "*" | "div" | "mod" | "and" ) Factor }`, and the marks behind it.
#[cycle(expression)]
fn parse_term<'a>(alloc: Global, marks: &'a [Mark], level: u16) -> Parsed<'a, Term>
    ensures passes { IfOk result (λ r. Passes g.Term level (term_elements (term_of r.0)) marks.now r.1.now) }
    ensures halts { IfErr result (λ e. HaltsAt g.Term level marks.now e) }
    ensures shorter { IfOk result (λ r. length r.1.now < length marks.now) }
{
    let (first, behind_first) = parse_factor(alloc, marks, level)?;
    let (more, rest) = parse_multipliers(alloc, behind_first, level)?;
    Ok((make_term(first, more), rest))
}

/// `{ ( "+" | "-" | "or" ) Term }`, and the marks behind it.
#[cycle(expression)]
fn parse_addends<'a>(alloc: Global, marks: &'a [Mark], level: u16) -> Parsed<'a, Addends>
    ensures passes { IfOk result (λ r. Passes g.Addends level (addends_elements (addends_of r.0)) marks.now r.1.now) }
    ensures halts { IfErr result (λ e. HaltsAt g.Addends level marks.now e) }
    ensures shorter { IfOk result (λ r. length r.1.now ≤ length marks.now) }
{
    let mut addends = Vec::new(alloc);
    let mut rest = marks;
    while let Some((operator, line, behind_operator)) = eat_addition(rest) {
        let (term, behind) = parse_term(alloc, behind_operator, level)?;
        addends.push(make_addend(operator, line, term))?;
        rest = behind;
    }
    Ok((Sequence::from_vec(addends), rest))
}

/// `[ "+" | "-" ] Term { ( "+" | "-" | "or" ) Term }`, and the marks behind it.
#[cycle(expression)]
fn parse_simple<'a>(alloc: Global, marks: &'a [Mark], level: u16) -> Parsed<'a, Simple>
    ensures passes { IfOk result (λ r. Passes g.Simple level (simple_elements (simple_of r.0)) marks.now r.1.now) }
    ensures halts { IfErr result (λ e. HaltsAt g.Simple level marks.now e) }
    ensures shorter { IfOk result (λ r. length r.1.now < length marks.now) }
{
    let (sign, behind_sign) = eat_sign(marks);
    let (first, behind_first) = parse_term(alloc, behind_sign, level)?;
    let (more, rest) = parse_addends(alloc, behind_first, level)?;
    Ok((make_simple(sign, first, more), rest))
}

/// `[ Relation Simple ]`, and the marks behind it.
#[cycle(expression)]
fn parse_comparison<'a>(
    alloc: Global,
    marks: &'a [Mark],
    level: u16,
) -> Parsed<'a, Option<Comparison>>
    ensures passes { IfOk result (λ r. Passes g.Comparison level (comparison_elements (optional_comparison (option_map comparison_of r.0))) marks.now r.1.now) }
    ensures halts { IfErr result (λ e. HaltsAt g.Comparison level marks.now e) }
    ensures shorter { IfOk result (λ r. length r.1.now ≤ length marks.now) }
{
    let Some((relation, line, behind_relation)) = eat_relation(marks) else {
        return Ok((None, marks));
    };
    let (right, rest) = parse_simple(alloc, behind_relation, level)?;
    Ok((Some(make_comparison(relation, line, right)), rest))
}

/// `Simple [ Relation Simple ]`, and the marks behind it.
#[cycle(expression)]
pub fn parse_expr<'a>(alloc: Global, marks: &'a [Mark], level: u16) -> Parsed<'a, Expr>
    ensures passes { IfOk result (λ r. Passes g.Expr level (expr_elements (expr_of r.0)) marks.now r.1.now) }
    ensures halts { IfErr result (λ e. HaltsAt g.Expr level marks.now e) }
    ensures shorter { IfOk result (λ r. length r.1.now < length marks.now) }
{
    let (left, behind_left) = parse_simple(alloc, marks, level)?;
    let (comparison, rest) = parse_comparison(alloc, behind_left, level)?;
    Ok((make_expr(left, comparison), rest))
}
