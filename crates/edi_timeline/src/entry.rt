//! What is handed in for a stint that is added to a timeline.

use edi_kernel::Ending;

/// Whose a stint is: how its process was born, and its last stint. Stints are counted from 1.
#[derive(Clone, Copy)]
pub struct Seat {
    /// The stint whose fork bore the process, and 0 for the first process.
    pub born: u32,
    /// Which fork of its parent that was, counted from 1.
    pub fork: u32,
    /// Which branch of that fork the process is, counted from 0.
    pub branch: u8,
    /// The stint of the process before this one, and 0 for the first one.
    pub before: u32,
}

/// The line of a `when`, and those of the calls that lead there, the innermost first: the first `many` of five.
#[derive(Clone, Copy)]
pub struct Place {
    pub lines: [u16; 5],
    pub many: u8,
}

/// How a stint has ended.
#[derive(Clone, Copy)]
pub enum Came {
    /// At the `when` of this place.
    Arrived(Place),
    /// By an attempt that has failed, none of whose conditions calls a function. Its process stands where the stint before has left it.
    Waited,
    /// By any other attempt that has failed. Its process stands where the stint before has left it.
    Tried,
    /// By a fork into so many branches.
    Forked(u8),
    /// With its process.
    Ended,
    /// With the run.
    Over(Ending),
}

/// The first characters that were shown in a stint: the first `many` of seven.
#[derive(Clone, Copy)]
pub struct Said {
    pub characters: [u8; 7],
    pub many: u8,
}
