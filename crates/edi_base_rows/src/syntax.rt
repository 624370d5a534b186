//! Worked examples of what no run of the program shows: lists of symbols and numbers, a text that comes in pieces, a program that is
//! printed and read again, types that no text can declare. All else of texts is in `tests/syntax`, `tests/sema` and `tests/compile`.

#[cfg(test)]
mod rows;
