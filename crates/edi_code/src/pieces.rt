//! Sizes and lengths that depend on types, operators and kinds alone.

ghost use Rattle.std.specs.Prelude.{◌≡◌, ◌≤◌, ◌<◌, ℕ, is_some, length, slice_get, sum_by};
ghost use Rattle.std.specs.Option.{option_map_or};
ghost use Rattle.edi_unit.specs.Lists.{list_items};
ghost use Rattle.edi_unit.specs.Types.{field_type, greatest_size, is_set_shape, shape_at, size};
ghost use Rattle.edi_unit.specs.TypeTables.{IsTypeTable};
ghost use Rattle.edi_unit.specs.Tree.{Clauses};
ghost use Rattle.edi_unit.specs.View.{expressions_of};
ghost use Rattle.edi_unit.specs.Need as need;
ghost use Rattle.edi_scheme.specs.Lengths as long;
ghost use Rattle.edi_scheme.specs.Pieces as pieces;
ghost use Rattle.edi_scheme.specs.Pieces.{code_length};
ghost use Rattle.edi_code.specs.Scope.{IsScope, blocks_in, clause_kind_of, is_end, types_in};
ghost use Rattle.edi_code.specs.InScope as in_scope;

use crate::scope::{Closing, Scope};
use crate::stored::stored_at;
use edi_unit::{
    Callee, INT, Numbers, Operator, Parameter, Parameters, Shape, TypeTable, Value, Values, outer,
    slot, type_words,
};

// The words that each instance of a block keeps besides its variables.
const LINK_WORDS: u32 = 5;

// Whether type `of` is a set.
pub(crate) fn is_set(types: &TypeTable, of: u32) -> bool
    ensures exact { result ≡ is_set_shape (shape_at types.now of) }
{
    of < types.len() && matches!(types.shape(of), Shape::Set(_))
}

// The type of a variable.
pub(crate) fn slot_type(variable: Option<Parameter>) -> u32
    ensures exact { result ≡ need.slot_type variable }
{
    match variable {
        Some(Parameter::Value(of) | Parameter::Var(of)) => of,
        _ => INT,
    }
}

// Whether a variable keeps the address of the one that it means.
pub(crate) fn is_address(variable: Option<Parameter>) -> bool
    ensures exact { result ≡ pieces.is_address variable }
{
    matches!(variable, Some(Parameter::Var(_)))
}

// Whether all of these are constants, whose code is one text.
pub(crate) fn are_constants(values: &Values) -> bool
    ensures exact { result ≡ is_some (pieces.constant_words (expressions_of values.now)) }
{
    for value in values.items() {
        if !matches!(value, Value::Constant { .. }) {
            return false;
        }
    }
    true
}

// ---- lengths

// The words of a call.
pub(crate) fn call_length(callee: Callee) -> u32
    ensures exact { result ≡ long.call_length callee }
{
    match callee {
        Callee::Block { .. } => 5,
        Callee::Formal { .. } => 4,
    }
}

// The words of a procedure that is passed on.
pub(crate) fn procedure_length(callee: Callee) -> u32
    ensures exact { result ≡ long.procedure_length callee }
{
    match callee {
        Callee::Block { .. } => 4,
        Callee::Formal { .. } => 5,
    }
}

// The words that give the address of a variable.
pub(crate) fn variable_length(variable: Option<Parameter>) -> u32
    ensures exact { result ≡ code_length (pieces.variable_code 0 0 variable) }
    ensures small { result ≤ 5 }
{
    if is_address(variable) { 5 } else { 3 }
}

// The words that go from an array of type `of` to an element.
pub(crate) fn element_length(types: &TypeTable, of: u32) -> u32
    ensures exact { (line : ℕ) → result ≡ code_length (pieces.element_code types.now (shape_at types.now of) line) }
    ensures small { result ≤ 5 }
{
    if of >= types.len() {
        return 0;
    }
    match types.shape(of) {
        Shape::Array { .. } => 5,
        _ => 0,
    }
}

// The words that hold an ordinal to type `of`.
pub(crate) fn check_length(types: &TypeTable, of: u32) -> u32
    ensures exact { (line : ℕ) → result ≡ code_length (pieces.check_code (shape_at types.now of) line) }
    ensures small { result ≤ 4 }
{
    if of >= types.len() {
        return 0;
    }
    match types.shape(of) {
        Shape::Char | Shape::Bool | Shape::Enum(_) => 4,
        _ => 0,
    }
}

// The words before a right operand.
pub(crate) fn decision_length(operator: Operator) -> u32
    ensures exact { (behind : ℕ) → result ≡ code_length (pieces.decision operator behind) }
    ensures small { result ≤ 3 }
{
    match operator {
        Operator::And | Operator::Or => 3,
        _ => 0,
    }
}

// The words of an operator behind its operands, the left one of type `left`.
pub(crate) fn operation_length(types: &TypeTable, left: u32, operator: Operator) -> u32
    ensures exact { (line : ℕ) → result ≡ code_length (pieces.operation types.now left operator line) }
    ensures small { result ≤ 2 }
{
    match operator {
        Operator::Equal | Operator::NotEqual | Operator::Div | Operator::Mod => 2,
        Operator::Plus | Operator::Minus | Operator::Times => 2 - u32::from(is_set(types, left)),
        Operator::And | Operator::Or => 0,
        _ => 1,
    }
}

// The words that close the list of a clause; `last` tells whether no clause follows.
pub(crate) fn close_length(closing: Closing, last: bool) -> u32
    ensures exact { (target : ℕ) (clauses : Clauses) → last ≡ is_end clauses
        → result ≡ code_length (pieces.close_code (clause_kind_of closing) target clauses) }
    ensures small { result ≤ 4 }
{
    match closing {
        Closing::Once => { if last { 0 } else { 3 } }
        Closing::Repeated => 3,
        Closing::Released => 4,
    }
}

// ---- sizes

// The words of a variable.
pub(crate) fn slot_words(types: &TypeTable, variable: Parameter) -> u32
    ensures exact { result ≡ need.slot_words types.now variable }
    ensures small { result ≤ greatest_size }
{
    match variable {
        Parameter::Value(of) => type_words(types, of),
        Parameter::Var(_) => 1,
        Parameter::Formal(_) => 3,
    }
}

// The words of a variable of a block, and 0 where it is not there.
fn words_at(scope: &Scope<'_>, block: u32, variable: u32) -> u32
    ensures exact { result ≡ option_map_or (need.slot_words (types_in scope.now))
        (slice_get (need.slots (need.block_at (blocks_in scope.now) block)) variable) 0 }
    ensures small { result ≤ greatest_size }
{
    match slot(scope.blocks, block, 0, variable) {
        Some(found) => slot_words(scope.types, found),
        None => 0,
    }
}

// Where a variable of a block stands in its frames, added up.
fn added_offset(scope: &Scope<'_>, block: u32, variable: u32) -> u16
    requires scope { IsScope scope.now }
    ensures exact { result ≡ pieces.offset (types_in scope.now) (need.block_at (blocks_in scope.now) block) variable }
{
    let mut words = LINK_WORDS;
    for before in 0..variable {
        words += words_at(scope, block, before);
    }
    words as u16
}

// Where a variable stands in the frame of the block `levels` steps out.
pub(crate) fn slot_offset(scope: &Scope<'_>, levels: u32, variable: u32) -> u16
    requires scope { IsScope scope.now }
    ensures exact { result ≡ in_scope.slot_offset scope.now levels variable }
{
    let home = outer(scope.blocks, scope.block, levels);
    match stored_at(scope.variables, home, variable) {
        Some(stored) => stored.offset as u16,
        None => added_offset(scope, home, variable),
    }
}

// The words of a field, and 0 where there is none.
fn field_words(types: &TypeTable, of: u32, field: u32) -> u32
    requires known { of < length types.now }
    ensures exact { result ≡ option_map_or (size types.now) (field_type types.now of field) 0 }
    ensures small { result ≤ greatest_size }
{
    match types.field(of, field as usize) {
        Some(found) => type_words(types, found),
        None => 0,
    }
}

// Where field `field` stands in a record of type `of`, which is there, added up.
fn added_field_offset(types: &TypeTable, of: u32, field: u32) -> u16
    requires table { IsTypeTable types.now }
    requires known { of < length types.now }
    ensures exact { result ≡ pieces.field_offset types.now of field }
{
    let mut words: u32 = 0;
    for before in 0..field {
        words += field_words(types, of, before);
    }
    words as u16
}

// Where field `field` stands in a record of type `of`, which is there.
fn record_offset(scope: &Scope<'_>, of: u32, field: u32) -> u16
    requires scope { IsScope scope.now }
    requires table { IsTypeTable (types_in scope.now) }
    requires known { of < length (types_in scope.now) }
    ensures exact { result ≡ pieces.field_offset (types_in scope.now) of field }
{
    match stored_at(scope.fields, of, field) {
        Some(stored) => stored.offset as u16,
        None => added_field_offset(scope.types, of, field),
    }
}

// Where field `field` stands in a record of type `of`.
pub(crate) fn field_offset(scope: &Scope<'_>, of: u32, field: u32) -> u16
    requires scope { IsScope scope.now }
    ensures exact { result ≡ pieces.field_offset (types_in scope.now) of field }
{
    if of < scope.types.len() {
        record_offset(scope, of, field)
    } else {
        0
    }
}

// The words of a result: none where there is no result.
pub(crate) fn result_words(types: &TypeTable, of: Option<u32>) -> u32
    ensures exact { result ≡ pieces.result_words types.now of }
    ensures small { result ≤ greatest_size }
{
    match of {
        Some(of) => type_words(types, of),
        None => 0,
    }
}

// The words of parameters.
pub(crate) fn parameters_words(types: &TypeTable, parameters: &Parameters) -> u32
    requires small { sum_by (need.slot_words types.now) (list_items parameters.now) ≤ greatest_size }
    ensures exact { result ≡ sum_by (need.slot_words types.now) (list_items parameters.now) }
{
    let mut words: u32 = 0;
    for parameter in parameters.items() {
        words += slot_words(types, *parameter);
    }
    words
}

// The words of declared variables.
pub(crate) fn declared_words(types: &TypeTable, variables: &Numbers) -> u32
    requires small { sum_by (size types.now) (list_items variables.now) ≤ greatest_size }
    ensures exact { result ≡ sum_by (size types.now) (list_items variables.now) }
{
    let mut words: u32 = 0;
    for variable in variables.items() {
        words += type_words(types, *variable);
    }
    words
}
