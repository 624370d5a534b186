//! Activities.

use edi_store::Segment;

/// What a process needs to go on: its frame, its place in the code, and its segment of the memory. Addresses are those of
/// words of the memory, but for `pc`, which is one of the code.
#[derive(Clone, Copy, PartialEq, Eq, Debug)]
pub struct Activity {
    /// The first word of the frame.
    pub base: u32,
    /// The address after that of the last word of the frame.
    pub end: u32,
    /// The address after that of the last word of the frame that is in use.
    pub top: u32,
    /// The address of the next instruction in the code.
    pub pc: u32,
    /// The words that are for the frames of the process.
    pub segment: Segment,
    /// How many critical phases and function calls the process is in: one phase at most.
    pub held: u16,
}
