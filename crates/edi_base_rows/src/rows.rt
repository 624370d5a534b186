//! The examples, a file for each subject; `outside` and `call_rows` make calls of tables.

mod call_rows;
mod calls;
mod choices;
mod commands;
mod drives;
mod editing;
mod files;
mod lists;
mod memory;
mod outside;
mod sets;
mod streams;
mod words;
