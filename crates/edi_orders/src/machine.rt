//! A breadth-first search over the machine: when its endings are those of every order of steps.

ghost use Rattle.edi_orders.specs.machine.Expanded.{ExpandedIsEnough};

/// Where it has expanded each of its states, and these lead to no other, its endings are all endings by steps, whatever the order in which processes
/// may step. That is so of a unit that can be coded, where each ending is `done` or a standstill, and inner steps keep to themselves. Turns may
/// cut an order, and a fork may fail by the limit of processes.
pub fn expanded_is_enough()
    ensures law { ExpandedIsEnough }
{}
