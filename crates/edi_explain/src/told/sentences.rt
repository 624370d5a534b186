//! The sentences of the notes. Each stands here alone: the table of notes and the definitions name it.

pub(crate) const APOSTROPHES: &str =
    "a character or a string stands between apostrophes; quotation marks hold a comment.";

pub(crate) const BRANCH: &str =
    "each branch begins with a constant and 'do', as in cobegin 1 do p also 2 do q end.";

pub(crate) const ALSO: &str = "'also' stands between two branches, in place of a semicolon.";

pub(crate) const MODULE_NAME: &str = "a module has no name: its declarations come at once.";

pub(crate) const WORD_AS_NAME: &str = "this is a word of the language, so it cannot be a name.";

pub(crate) const ELSE_CONDITION: &str =
    "after 'else' comes a condition, without 'if': 'else x > 0 do' is a further case, and 'else true do' takes \
    all other cases.";

pub(crate) const NO_CONDITION: &str =
    "a condition stands before 'do', as in when x > 0 do ... end; 'when true do' waits for nothing.";

pub(crate) const CONDITION_HERE: &str =
    "a condition stands here, up to its 'do', and '=' compares two values; after 'else' comes a condition too: \
    'else true do'.";

pub(crate) const BRACKET_MISSING: &str =
    "a ')' or a ']' is missing before this one, or '=' is meant.";

pub(crate) const EQUAL_MEANT: &str =
    "':=' assigns a value to a variable; '=' compares two values, and gives a constant its value.";

pub(crate) const BECOMES_MEANT: &str = "'=' compares two values; ':=' assigns one.";

pub(crate) const COMPARISONS: &str = "the comparisons are '=', '<>', '<', '<=', '>' and '>='.";

pub(crate) const STATEMENTS_HERE: &str =
    "here come statements, without a 'begin': only a procedure and a module have one.";

pub(crate) const NO_STATEMENT: &str = "a list of statements is never empty; 'skip' does nothing.";

pub(crate) const LAST_STATEMENT: &str =
    "one semicolon stands between two statements; none stands before 'end', 'else' or 'also'.";

pub(crate) const LAST_GROUP: &str =
    "a semicolon stands between two groups of names; none stands after the last one.";

pub(crate) const NO_SEMICOLON: &str =
    "no semicolon stands after a heading, a declaration or a procedure.";

pub(crate) const WHOLE_NUMBER: &str = "a number is whole: it has no part after a period.";

pub(crate) const ARRAY_TYPE: &str =
    "an array has a type of its own: array t [1:10] (int) and, after it, var x: t.";

pub(crate) const ONE_INDEX: &str = "a pair of brackets holds one index: a[i][j], not a[i, j].";

pub(crate) const ONE_COMPARISON: &str =
    "a condition has one comparison outside parentheses, as in (x > 0) and (x < 9).";

pub(crate) const DO_OR_ELSE: &str =
    "after a condition comes 'do'; after 'else' comes a condition too: 'else true do' takes all other cases.";

pub(crate) const DO_MISSING: &str = "after a condition comes 'do', and no 'begin'.";

pub(crate) const ARGUMENTS: &str = "the arguments of a call stand in parentheses.";

pub(crate) const CHANGE: &str = "a variable is changed by ':=', as in x := x + 1.";

pub(crate) const ONE_SYMBOL: &str = "':=' is one symbol; variables are declared before 'begin'.";

pub(crate) const TWO_NAMES: &str =
    "a semicolon stands between two statements, and the arguments of a call stand in parentheses.";

pub(crate) const TWO_STATEMENTS: &str = "a semicolon stands between two statements.";

pub(crate) const END_MISSING: &str =
    "an 'end' is missing before this 'begin', or it is a 'begin' too many: only a procedure and a module have one.";

pub(crate) const DECLARATIONS_HERE: &str =
    "here come declarations or a 'begin': an 'end' too many stands here or before, or a 'begin' is missing.";

pub(crate) const NAME_FIRST: &str =
    "the name comes first and then its type, as in x: int; a comma stands between two names.";

pub(crate) const NO_VALUE: &str =
    "a declaration gives no value: write var x: int, and x := 1 after 'begin'.";

pub(crate) const CONSTANT_SIGN: &str =
    "a constant has no sign: declare it without one, and write the sign where it is used, as in x := -c.";

pub(crate) const FIRST_SIGN: &str = "a sign stands before the first operand alone, as in 2 * (-1).";

pub(crate) const TYPE_PARTS: &str =
    "after the name of a type come parentheses: array t [1:10] (int), enum e (a, b), record r (a: int; b: char) \
    or set s (int).";

pub(crate) const GROUP_OR_STATEMENT: &str =
    "a semicolon stands between two groups of names; statements stand after 'begin'.";

pub(crate) const TWO_GROUPS: &str =
    "a semicolon stands between two groups of names, as in a: int; b: char.";

pub(crate) const COMMA: &str = "a comma stands between two arguments, and ')' after the last one.";

pub(crate) const NO_PARAMETERS: &str = "a heading or a call without parameters has no parentheses.";

pub(crate) const ONE_END: &str =
    "one 'end' stands after the last branch, and none before 'else' or 'also'.";

pub(crate) const LATE_DECLARATION: &str =
    "declarations stand before the 'begin' of their procedure, without a semicolon after the last; or an 'end' \
    is missing here.";

pub(crate) const COUNT_ENDS: &str =
    "each 'begin', 'if', 'while', 'when' and 'cobegin' has an 'end' of its own; count them from the last one.";

pub(crate) const ONE_PROCEDURE: &str =
    "the program is one procedure, which has ended here; the other procedures stand in it, before its 'begin'.";

pub(crate) const PROGRAM_ENDED: &str =
    "the program has ended here: an 'end' too many stands before, or something stands after it.";

pub(crate) const CONSTANT_TYPE: &str = "a constant has no type of its own, as in const c = 1.";

pub(crate) const TYPE_NAME: &str =
    "here stands the name of a type that is declared before, as in array t [1:10] (int).";

pub(crate) const BOUNDS: &str = "the bounds of an array stand as in [1:10].";

pub(crate) const VARIABLES: &str =
    "variables stand after 'var', as in var x: int; statements stand after 'begin'.";

pub(crate) const ASSIGNMENT_OR_CALL: &str =
    "a statement that begins with a name is an assignment, as in x := 1, or a call, as in p(x).";

pub(crate) const PROGRAM_BEGINS: &str =
    "a program begins with its constants and types and then with its procedure, as in proc main.";

// ---- besides the table

pub(crate) const TYPED_VARIABLE: &str =
    "variables are declared as var x: int, before 'begin', without a semicolon after the last.";

pub(crate) const NO_SYMBOL: &str = "this character begins no symbol\n";

pub(crate) const ACCENTS: &str =
    "a text has letters without accents, and no byte order mark before the first one: save it as ASCII.";
