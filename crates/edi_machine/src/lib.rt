//! One instruction of the abstract machine, and the activities with which processes begin.
#![tactic(auto)]

mod activity;
mod arithmetic;
mod common;
mod comparisons;
mod constants;
mod crossings;
mod ends;
mod frame;
mod instruction;
mod jumps;
mod plain;
mod procedures;
mod processes;
mod rare;
mod sets;
mod start;
mod steps;
mod system;
mod variables;

pub use activity::Activity;
pub use edi_calls::Cause;
pub use ends::{StepEnd, TurnKind};
pub use plain::step_plainly;
pub use start::{begin, branch};
pub use steps::step;
