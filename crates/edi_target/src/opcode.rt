//! The numbers of the instructions: each is the first word of its instruction. They are patterns wherever an instruction is chosen by its
//! number.

pub const CONST: u16 = 1;

pub const TEXT: u16 = 2;

pub const ZEROS: u16 = 3;

pub const ADDRESS: u16 = 4;

pub const FIELD: u16 = 5;

pub const INDEX: u16 = 6;

pub const LOAD: u16 = 7;

pub const STORE: u16 = 8;

pub const ADD: u16 = 9;

pub const SUB: u16 = 10;

pub const MUL: u16 = 11;

pub const DIV: u16 = 12;

pub const MOD: u16 = 13;

pub const NEG: u16 = 14;

pub const NOT: u16 = 15;

pub const EQ: u16 = 16;

pub const NE: u16 = 17;

pub const LT: u16 = 18;

pub const LE: u16 = 19;

pub const GT: u16 = 20;

pub const GE: u16 = 21;

pub const UNION: u16 = 22;

pub const MINUS: u16 = 23;

pub const MEET: u16 = 24;

pub const IN: u16 = 25;

pub const MEMBER: u16 = 26;

pub const CHECK: u16 = 27;

pub const JUMP: u16 = 28;

pub const FALSE: u16 = 29;

pub const AND: u16 = 30;

pub const OR: u16 = 31;

pub const LOOP: u16 = 32;

pub const ENTRY: u16 = 33;

pub const CALL: u16 = 34;

pub const CALL_P: u16 = 35;

pub const PROC: u16 = 36;

pub const RETURN: u16 = 37;

pub const HALT: u16 = 38;

pub const WHEN: u16 = 39;

pub const RETRY: u16 = 40;

pub const DONE: u16 = 41;

pub const COBEGIN: u16 = 42;

pub const EXIT: u16 = 43;

pub const QUIET: u16 = 44;
