//! What an Edison program means, in the language's own terms: the definitions stand in `specs/`, from the variables of all
//! processes (`Store`) and evaluation (`Whole`) to steps (`Step`) and the execution that the choices select (`Select`).
//! The program calls nothing of this crate: its laws are here, and the proof of the code generator speaks of its
//! definitions.
#![tactic(auto)]

pub mod laws;
