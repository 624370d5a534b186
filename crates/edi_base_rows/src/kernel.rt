//! The examples of instructions, codes and runs, a file for each subject.

mod code_files;
mod codes;
mod instructions;
mod random;
mod runs;
mod steps;
