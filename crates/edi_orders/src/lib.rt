//! FROM STINTS TO ALL ORDERS OF STEPS: when the endings that a search has found by stints are those of every order in which processes may step, as
//! definitions over the meaning of programs alone, and the laws that say so. The functions do nothing; their contracts are the laws.
#![tactic(auto)]

pub mod machine;

ghost use Rattle.std.specs.Prelude.{ℕ};
ghost use Rattle.edi_unit.specs.Tree.{ProgramUnit};
ghost use Rattle.edi_orders.specs.Orders.{AreUncut, Completes, StintsAreEnough};

use edi_explored::Kept;

/// From stints to all orders of steps. Let a search have followed each stint, let each of these be whole if it has turns enough, and let its
/// endings be `done` or a standstill. Let inner steps keep to themselves, but where nobody else may step. Then each order of steps that ends the
/// program, or comes to a standstill of quiet attempts, ends in one of these ways. Turns may cut it, and a fork may fail by the limit of processes.
/// That an order ends is not said.
pub fn stints_are_enough<K: Kept>()
    ensures law { StintsAreEnough ℕ K.covers K.has }
{}

/// Each stint ends, if only for want of turns. So each stint from what the search has is whole, if with some number of turns it is not cut.
pub fn uncut_stints_are_whole<K: Kept>()
    ensures law { (unit : ProgramUnit) → AreUncut unit ℕ K.covers K.has → Completes unit ℕ K.covers K.has }
{}
