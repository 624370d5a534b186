//! The static rules on statements, procedures, modules and programs: the resolved unit of a sound program, and the first
//! construct of any other that breaks a rule. The definitions stand in `edi_static`: `resolve_tree` (`Programs`) goes through a
//! tree construct by construct.
#![tactic(auto)]

mod blocks;
mod calls;
mod declarations;
mod openings;
mod procedures;
mod programs;
mod statements;

pub use blocks::{enter_around, leave_around};
pub use edi_static::{StaticFault, StaticKind};
pub use openings::{
    close_scope, constants, declared_type, finish_block, finish_module, leave_block, open_block,
    open_module, variables,
};
pub use procedures::{begin_post, begin_procedure, completed, pre_decl};
pub use programs::{before_program, begin_program, declare_globals, resolve};
