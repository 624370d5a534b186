//! What is wrong with a program, and where: the symbols that may stand at a place, what is open there (`expected`), where the symbols
//! of a program stand in its bytes (`places`), and the text that tells all this (`told`).
#![tactic(auto)]

pub mod expected;
pub mod places;
pub mod told;
