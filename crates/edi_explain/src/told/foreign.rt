//! Words and signs of other languages, calls of the system, and the standard types. Beside a word or a sign stands its text, which stands
//! here alone: the definitions name the tables.

/// The standard types.
pub(crate) static ELEMENTARY_TYPES: [&str; 3] = ["int", "char", "bool"];

/// Words that are names here, and their notes.
pub(crate) const WORDS: [(&str, &str); 28] = [
    (
        "then",
        "'then' is no word of the language: after a condition comes 'do'.",
    ),
    (
        "for",
        "'for' is no word of the language: a loop is while i <= 9 do ...; i := i + 1 end, after i := 1.",
    ),
    (
        "repeat",
        "'repeat' is no word of the language: a loop is while x <> 9 do ... end, which goes on as long as its condition is true.",
    ),
    (
        "until",
        "'until' is no word of the language: a loop is while x <> 9 do ... end, which goes on as long as its condition is true.",
    ),
    (
        "loop",
        "'loop' is no word of the language: a loop is 'while CONDITION do ... end'.",
    ),
    (
        "return",
        "'return' is no word of the language: a function f gives its value by 'val f := ...'.",
    ),
    (
        "elsif",
        "'elsif' is no word of the language: a further case is 'else CONDITION do'.",
    ),
    (
        "elif",
        "'elif' is no word of the language: a further case is 'else CONDITION do'.",
    ),
    (
        "case",
        "'case' is no word of the language: cases are 'if CONDITION do ... else CONDITION do ... end'.",
    ),
    (
        "procedure",
        "'procedure' is no word of the language: a procedure begins with 'proc'.",
    ),
    (
        "function",
        "'function' is no word of the language: a function begins with 'proc' and has a type, as in proc f: int.",
    ),
    (
        "program",
        "'program' is no word of the language: a program is a procedure, as in proc main, without a semicolon.",
    ),
    (
        "type",
        "'type' is no word of the language: a type is declared by 'array', 'enum', 'record' or 'set' and its name.",
    ),
    (
        "of",
        "'of' is no word of the language: an array is declared as array t [1:10] (int).",
    ),
    (
        "let",
        "'let' is no word of the language: variables are declared as var x: int, before 'begin', without a semicolon after the last.",
    ),
    (
        "synchronized",
        "'synchronized' is no word of the language: 'when true do ... end' waits for nothing, and no other 'when' runs meanwhile.",
    ),
    (
        "wait",
        "'wait' is no word of the language: a process waits at when x > 0 do ... end until its condition is true.",
    ),
    (
        "assert",
        "'assert' is no word of the language: a program that finds a mistake stops by 'halt', as in if x < 0 do halt end.",
    ),
    (
        "string",
        "'string' is no type of the language: a string is an array, as in array line [1:80] (char) and, after it, var s: line.",
    ),
    (
        "await",
        "'await' is no word of the language: a process waits at when x > 0 do ... end until its condition is true.",
    ),
    (
        "coend",
        "'coend' is no word of the language: a 'cobegin' has an 'end', as each statement of several lines.",
    ),
    (
        "process",
        "'process' is no word of the language: processes are the branches of a cobegin, as in cobegin 1 do p also 2 do q end.",
    ),
    (
        "semaphore",
        "'semaphore' is no type of the language: it is a variable that procedures wait for and change in a 'when'.",
    ),
    (
        "monitor",
        "'monitor' is no word of the language: it is a module whose procedures do their work in a 'when'.",
    ),
    (
        "integer",
        "'integer' is no type of the language: a whole number is of type int.",
    ),
    (
        "boolean",
        "'boolean' is no type of the language: true and false are of type bool.",
    ),
    (
        "real",
        "'real' is no type of the language: all its numbers are whole, of type int.",
    ),
    (
        "float",
        "'float' is no type of the language: all its numbers are whole, of type int.",
    ),
];

/// Calls of the system, and their notes.
pub(crate) const CALLS: [(&str, &str); 10] = [
    (
        "display",
        "display(c) shows the character c, where the heading names it: proc main(proc display(c: char)).",
    ),
    (
        "print",
        "print(c) puts the character c on the printer, where the heading names it: proc main(proc print(c: char)).",
    ),
    (
        "accept",
        "accept(c) takes a character of the input, where the heading names it: proc main(proc accept(var c: char)).",
    ),
    (
        "write",
        "write(c) puts the character c at the end of a file, where the heading names it: proc main(proc write(c: char)).",
    ),
    (
        "read",
        "read(c) takes a character of a file, where the heading names it: proc main(proc read(var c: char)).",
    ),
    (
        "fresh",
        "fresh begins an empty file, where the heading names it: proc main(proc fresh).",
    ),
    (
        "more",
        "more(b) tells whether the found file has bytes left, where the heading names it: proc main(proc more(var b: bool)).",
    ),
    (
        "find",
        "find(t, b) finds the file of a title, where the heading names it: proc main(proc find(title: name; var found: bool)).",
    ),
    (
        "close",
        "close(t, b) stores the file that was begun, where the heading names it: proc main(proc close(title: name; var done: bool)).",
    ),
    (
        "remove",
        "remove(t, b) removes the file of a title, where the heading names it: proc main(proc remove(title: name; var done: bool)).",
    ),
];

/// What begins with a sign at which no piece stands.
pub(crate) const BEGINNINGS: [(&str, &str); 2] = [
    (
        "\"",
        "this comment is not ended by a quotation mark, or holds a character that it may not hold\n",
    ),
    (
        "'",
        "this string is empty, is not ended on its line, or holds a character that it may not hold\n",
    ),
];

/// Signs, and their notes.
pub(crate) const SIGNS: [(&str, &str); 11] = [
    (
        "!",
        "not equal is written '<>', and 'not' stands before a condition.",
    ),
    (
        "\"",
        "a comment has letters without accents: bytes 32 to 126, tabs and line ends.",
    ),
    (
        "#",
        "not equal is written '<>'; a comment stands between quotation marks.",
    ),
    ("%", "what a division leaves is written 'mod'."),
    (
        "&",
        "'and' and 'or' join conditions, as in (x > 0) and (y > 0).",
    ),
    (
        "|",
        "'and' and 'or' join conditions, as in (x > 0) and (y > 0).",
    ),
    (
        "'",
        "an apostrophe ends a string; ''' is the string of one apostrophe.",
    ),
    (
        "/",
        "a division is written 'div', and what it leaves 'mod'; a comment stands between quotation marks.",
    ),
    ("_", "a name begins with a letter."),
    (
        "{",
        "a comment stands between quotation marks; statements stand between 'do' and 'end'.",
    ),
    (
        "}",
        "a comment stands between quotation marks; statements stand between 'do' and 'end'.",
    ),
];
