//! The table of notes.

use crate::told::sentences as say;
use edi_phrases::kind;

/// A row of the table of notes: where it fits, and its note.
#[derive(Clone, Copy)]
pub(crate) struct Row {
    pub found: &'static [u8],
    pub last: &'static [u8],
    pub inside: &'static [u8],
    pub may: &'static [u8],
    pub not_these: &'static [u8],
    pub quoted: bool,
    pub note: &'static str,
}

// The row that fits everywhere, without a note.
const ANYWHERE: Row = Row {
    found: &[],
    last: &[],
    inside: &[],
    may: &[],
    not_these: &[],
    quoted: false,
    note: "",
};

// The row of a sentence, with the kinds that it asks for.
macro_rules! row {
    ($note:ident: $($field:ident [$($kind:ident),*])*) => {
        Row { $($field: &[$(kind::$kind),*],)* note: say::$note, ..ANYWHERE }
    };
}

/// The rows, of which the first one that fits counts.
pub(crate) static ROWS: [Row; 54] = [
    Row {
        quoted: true,
        ..row!(APOSTROPHES: may [NUMERAL, CHAR])
    },
    row!(BRANCH: inside [COBEGIN] may [DO]),
    row!(BRANCH: last [COBEGIN, ALSO]),
    row!(ALSO: found [NUMERAL, CHAR] last [SEMICOLON] inside [COBEGIN]),
    row!(ALSO: found [DO] inside [COBEGIN] may [ALSO]),
    row!(MODULE_NAME: found [NAME] last [MODULE]),
    row!(WORD_AS_NAME:
        found [ALSO, AND, ARRAY, BEGIN, COBEGIN, CONST, DIV, DO, ELSE, END, ENUM, IF, IN, LIB, MOD, MODULE, NOT,
            OR, POST, PRE, PROC, RECORD, SET, SKIP, VAL, VAR, WHEN, WHILE]
        last [ARRAY, CONST, ENUM, PROC, RECORD, SET, VAR]
        may [NAME]),
    row!(ELSE_CONDITION: last [ELSE]),
    row!(NO_CONDITION: found [DO] last [IF, WHEN, WHILE]),
    row!(CONDITION_HERE: found [BECOMES] may [DO]),
    row!(BRACKET_MISSING: found [BECOMES] inside [OPEN, OPEN_BRACKET] may [EQUAL]),
    row!(EQUAL_MEANT: found [BECOMES] may [EQUAL]),
    row!(BECOMES_MEANT: found [EQUAL] may [BECOMES]),
    row!(COMPARISONS: found [EQUAL, LESS, GREATER] last [EQUAL, LESS, GREATER]),
    row!(STATEMENTS_HERE: found [BEGIN] may [SKIP]),
    row!(NO_STATEMENT: found [SEMICOLON, END_OF_TEXT, ALSO, ELSE, END] last [BEGIN, DO] may [SKIP]),
    row!(LAST_STATEMENT: found [SEMICOLON, END_OF_TEXT, ALSO, ELSE, END] last [SEMICOLON] may [SKIP]),
    row!(LAST_GROUP:
        found [BEGIN, CLOSE, ARRAY, CONST, ENUM, MODULE, POST, PRE, PROC, RECORD, SET, VAR]
        last [SEMICOLON]
        may [NAME]
        not_these [SKIP]),
    row!(NO_SEMICOLON: found [SEMICOLON] may [BEGIN]),
    row!(WHOLE_NUMBER: found [PERIOD] last [NUMERAL] not_these [COLON]),
    row!(ARRAY_TYPE: found [OPEN_BRACKET] last [NAME] may [SEMICOLON]),
    row!(ONE_INDEX: found [COMMA] inside [OPEN_BRACKET] may [CLOSE_BRACKET]),
    row!(ONE_COMPARISON: found [EQUAL, NOT_EQUAL, LESS, AT_MOST, GREATER, AT_LEAST, IN] may [DO]),
    row!(DO_OR_ELSE: found [SEMICOLON, END_OF_TEXT, ALSO, ELSE, END] may [DO]),
    row!(DO_MISSING: may [DO]),
    row!(ARGUMENTS: found [NUMERAL, CHAR, TEXT] may [OPEN, BECOMES]),
    row!(CHANGE: found [PLUS, MINUS] may [BECOMES]),
    row!(ONE_SYMBOL: found [COLON] may [BECOMES]),
    row!(TWO_NAMES: found [NAME] last [NAME] may [OPEN, BECOMES]),
    row!(TWO_STATEMENTS: found [NAME, COBEGIN, IF, SKIP, VAL, WHEN, WHILE] may [SEMICOLON, END]),
    row!(END_MISSING: found [BEGIN] may [END]),
    row!(DECLARATIONS_HERE: found [END] may [BEGIN]),
    row!(NAME_FIRST: found [NAME] last [NAME] may [COMMA, COLON]),
    row!(NO_VALUE: found [EQUAL, BECOMES] may [BEGIN, SEMICOLON] not_these [OPEN]),
    row!(CONSTANT_SIGN: found [PLUS, MINUS] may [NUMERAL] not_these [NOT]),
    row!(FIRST_SIGN: found [PLUS, MINUS] may [NUMERAL, NOT]),
    row!(TYPE_PARTS: may [OPEN] not_these [NAME, BEGIN, DO, PLUS, COLON, BECOMES, SEMICOLON, CLOSE, CLOSE_BRACKET]),
    row!(TYPE_PARTS:
        may [OPEN_BRACKET]
        not_these [OPEN, NAME, BEGIN, DO, PLUS, COLON, BECOMES, SEMICOLON, CLOSE, CLOSE_BRACKET]),
    row!(TYPE_PARTS: last [ARRAY, ENUM, RECORD, SET] may [NAME]),
    row!(GROUP_OR_STATEMENT: found [NAME] may [SEMICOLON] not_these [END]),
    row!(TWO_GROUPS: found [COMMA] may [SEMICOLON] not_these [END]),
    row!(COMMA: found [SEMICOLON] inside [OPEN, OPEN_BRACKET] may [COMMA] not_these [COLON]),
    row!(NO_PARAMETERS: found [CLOSE] last [OPEN]),
    row!(ONE_END: found [ELSE, ALSO] last [END]),
    row!(LATE_DECLARATION:
        found [ARRAY, CONST, ENUM, MODULE, POST, PRE, PROC, RECORD, SET, VAR]
        inside [BEGIN, COBEGIN, IF, WHEN, WHILE]),
    row!(COUNT_ENDS: found [END_OF_TEXT] may [END]),
    row!(ONE_PROCEDURE: found [ARRAY, CONST, ENUM, MODULE, POST, PRE, PROC, RECORD, SET, VAR] may [END_OF_TEXT]),
    row!(PROGRAM_ENDED: may [END_OF_TEXT]),
    row!(CONSTANT_TYPE: found [COLON] may [EQUAL] not_these [PLUS]),
    row!(TYPE_NAME: found [ARRAY, ENUM, RECORD, SET] last [COLON] may [NAME]),
    row!(BOUNDS: inside [OPEN_BRACKET] may [COLON]),
    row!(VARIABLES: found [NAME, COBEGIN, IF, SKIP, VAL, WHEN, WHILE] inside [END_OF_TEXT] may [BEGIN, VAR]),
    row!(ASSIGNMENT_OR_CALL: may [BECOMES]),
    row!(PROGRAM_BEGINS: last [END_OF_TEXT] may [PROC] not_these [BEGIN]),
];
