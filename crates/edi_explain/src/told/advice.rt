//! For each kind of fault what it is and what to do. Each text stands here alone: the definitions name it.

ghost use Rattle.std.specs.Prelude.{◌≡◌, ◌++◌, OnOk};
ghost use Rattle.edi_explain.specs.told.Advice as spec;

use edi_texts::RefusalKind;
use std::alloc::AllocError;

const INVALID_CHARACTER: &str = "\
Here begins nothing that the language knows. A text has bytes 32 to 126, tabs and line ends.
A string stands between apostrophes on one line, a comment between quotation marks.
";

const INVALID_NUMERAL: &str = "\
A number of this line is above 32767, which is the greatest one. A sign is no part of it.
";

const TEXT_TOO_LONG: &str = "\
The text has more than 262144 bytes or more than 65534 line ends. Shorten it.
";

const INVALID_SYNTAX: &str = "\
Up to here it could still become a program. With this symbol it cannot.
So the mistake is here or earlier: look at the line before, and at what is open.
";

const NESTING_TOO_DEEP: &str = "\
At most 64 levels may be open: statements and procedures in one another, and parentheses.
Put an inner part into a procedure of its own, or an inner value into a variable.
";

const NOT_IN_PROFILE: &str = "\
Edison has this, and this system leaves it out: 'lib', ':' after a value (write char(x) or int(c)),
and the standard names addr, obtain, place and sense.
";

const UNDECLARED_NAME: &str = "\
A name of this line means nothing here. Each of these may be the reason:
- It is a call of the system that the heading does not name. Write proc main(proc display(c: char)) for display.
- It is declared nowhere, or spelled in another way: 'Int' is not 'int'. The standard types are int, char and bool.
- It is declared further down. Move it up; or put 'pre proc' and its heading above, and 'post' before the later 'proc'.
- Its procedure or its module has ended. A module shows what has a '*' before its declaration, as in * var x: int.
- It stands after a period, and the record has no field of this name.
";

const AMBIGUOUS_NAME: &str = "\
A name of this line is declared twice in one procedure, module, heading, record or enumeration; or it is
marked with '*' twice, or beside a name of the scope round it. Give one of the two another name.
";

const INVALID_NAME_KIND: &str = "\
A name of this line means something else than is asked for here: only a variable is assigned, only a
type stands after ':', only a constant in bounds, only a procedure is called; 'val f := ...' stands in
the function f alone.
";

const INCOMPATIBLE_TYPES: &str = "\
Two types of this line do not fit. Each of these may be the reason:
- Both sides of ':=' and of a comparison have one type. Each declaration of a type makes another type.
- A condition is of type bool. 'not' takes the next operand alone: not (x = 0).
- 'and' and 'or' come before a comparison: ready and x = 1 is (ready and x) = 1. Write ready and (x = 1).
- '+', '-' and '*' take numbers or sets, 'div' and 'mod' numbers.
- int(c) is the number of the character c, and char(n) the character of the number n.
- Only an array has an index, which is of the type of its bounds. Only a record has fields.
";

const INVALID_RANGE: &str = "\
A value of this line is too great or too small: a character has a number from 0 to 127, a lower bound
is not above the upper one, and a type, a procedure and its variables take at most 65535 words.
";

const INVALID_CALL: &str = "\
A call of this line does not fit the heading of what is called. Compare the two, letter by letter:
- It has as many arguments, each of the type of its parameter. For a 'var' parameter a variable stands alone.
- A function stands in an expression, and any other procedure is a statement.
- display takes one character: display(char(int('0') + n)) shows the digit n.
";

const INVALID_CONSTRUCTOR: &str = "\
A value of this line is not made as its type asks:
- An array and a record have a value for each part, as in t(1, 2, 3).
- A string of more than one character stands only for the parts of an array of char, as in t('abc').
- Of such a string each character is one value, so it is as long as the array.
- display takes one character, as in display('a').
";

const INVALID_SPLIT_PROCEDURE: &str = "\
A procedure in two parts is 'pre proc' with its heading and, later in the same procedure or module,
'post proc' with the same heading and the body. One of the two is missing, or the headings differ.
";

const INVALID_PROGRAM_HEADING: &str = "\
The heading of the program names the calls of the system that it uses, as in proc main(proc display(c: char)).
It has no result and no other parameter. The calls are these, where a name is an array [1:12] (char):
- accept(var c: char), display(c: char), print(c: char), fresh, more(var b: bool), read(var c: char),
- write(c: char), find(title: name; var found: bool), close(title: name; var done: bool) and
- remove(title: name; var done: bool).
- No call shows a number: display(char(int('0') + n)) shows the digit n.
";

// The text of a kind.
fn advice_of(kind: RefusalKind) -> &'static str
    ensures exact { result.now ≡ spec.advice_of kind }
{
    match kind {
        RefusalKind::InvalidCharacter => INVALID_CHARACTER,
        RefusalKind::InvalidNumeral => INVALID_NUMERAL,
        RefusalKind::TextTooLong => TEXT_TOO_LONG,
        RefusalKind::InvalidSyntax => INVALID_SYNTAX,
        RefusalKind::NestingTooDeep => NESTING_TOO_DEEP,
        RefusalKind::NotInProfile => NOT_IN_PROFILE,
        RefusalKind::UndeclaredName => UNDECLARED_NAME,
        RefusalKind::AmbiguousName => AMBIGUOUS_NAME,
        RefusalKind::InvalidNameKind => INVALID_NAME_KIND,
        RefusalKind::IncompatibleTypes => INCOMPATIBLE_TYPES,
        RefusalKind::InvalidRange => INVALID_RANGE,
        RefusalKind::InvalidCall => INVALID_CALL,
        RefusalKind::InvalidConstructor => INVALID_CONSTRUCTOR,
        RefusalKind::InvalidSplitProcedure => INVALID_SPLIT_PROCEDURE,
        RefusalKind::InvalidProgramHeading => INVALID_PROGRAM_HEADING,
    }
}

/// Puts behind bytes what a fault of this kind is and what to do.
pub(crate) fn put_advice(out: &mut Vec<u8>, kind: RefusalKind) -> Result<(), AllocError>
    ensures { OnOk result (out.new.items ≡ out.old.items ++ spec.advice_of kind) }
{
    out.extend_from_slice(advice_of(kind).as_bytes())?;
    Ok(())
}
