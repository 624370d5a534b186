//! The names that a program gives to the blocks of its unit, to their variables, and to the constants of its types. The definition is
//! `names_of` (`specs/named/Naming`).

mod answer;
mod declarations;
mod programs;
mod spelled;
mod statements;
mod walk;

pub use answer::{NamedBlock, Names};
pub use programs::names;
