//! What a name means at the `when`s of a line: for each of them its block, its place among those of its block, and the
//! variable of an elementary type that the name means there. The definition is `sights_of` (`specs/Sights`). And the names of a
//! program by the numbers of its unit: `names_of` (`specs/named/Naming`).
#![tactic(auto)]

mod answer;
mod awaits;
mod declarations;
pub mod laws;
mod named;
mod numbering;
mod programs;
mod statements;

pub use answer::{Sight, Sighted, Sights};
pub use named::{NamedBlock, Names, names};
pub use programs::sights;
