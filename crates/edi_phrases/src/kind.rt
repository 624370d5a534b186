//! The numbers of the kinds of symbols, as `edi_grammar` counts them. They are patterns wherever something is chosen by the kind of a symbol.

/// The end of the text, which is no symbol.
pub const END_OF_TEXT: u8 = 0;

pub const NAME: u8 = 1;

pub const NUMERAL: u8 = 2;

/// A string of one character.
pub const CHAR: u8 = 3;

/// A string of two characters or more.
pub const TEXT: u8 = 4;

pub const ALSO: u8 = 5;

pub const AND: u8 = 6;

pub const ARRAY: u8 = 7;

pub const BEGIN: u8 = 8;

pub const COBEGIN: u8 = 9;

pub const CONST: u8 = 10;

pub const DIV: u8 = 11;

pub const DO: u8 = 12;

pub const ELSE: u8 = 13;

pub const END: u8 = 14;

pub const ENUM: u8 = 15;

pub const IF: u8 = 16;

pub const IN: u8 = 17;

pub const LIB: u8 = 18;

pub const MOD: u8 = 19;

pub const MODULE: u8 = 20;

pub const NOT: u8 = 21;

pub const OR: u8 = 22;

pub const POST: u8 = 23;

pub const PRE: u8 = 24;

pub const PROC: u8 = 25;

pub const RECORD: u8 = 26;

pub const SET: u8 = 27;

pub const SKIP: u8 = 28;

pub const VAL: u8 = 29;

pub const VAR: u8 = 30;

pub const WHEN: u8 = 31;

pub const WHILE: u8 = 32;

pub const EQUAL: u8 = 33;

pub const NOT_EQUAL: u8 = 34;

pub const LESS: u8 = 35;

pub const AT_MOST: u8 = 36;

pub const GREATER: u8 = 37;

pub const AT_LEAST: u8 = 38;

pub const PLUS: u8 = 39;

pub const MINUS: u8 = 40;

pub const STAR: u8 = 41;

pub const COLON: u8 = 42;

pub const BECOMES: u8 = 43;

pub const COMMA: u8 = 44;

pub const SEMICOLON: u8 = 45;

pub const PERIOD: u8 = 46;

pub const OPEN: u8 = 47;

pub const CLOSE: u8 = 48;

pub const OPEN_BRACKET: u8 = 49;

pub const CLOSE_BRACKET: u8 = 50;
