//! Worked examples of the crates that stand on few others: the outside, numbers, memory and lists, calls and choices, the editor's text, and
//! the words of a command (`rows`); of instructions, codes and code files, and of runs of the kernel (`kernel`). Of the words also as theorems
//! about the definition (`specs/Rows.antt`).
#![tactic(auto)]

#[cfg(test)]
mod kernel;
#[cfg(test)]
mod rows;
pub mod syntax;
