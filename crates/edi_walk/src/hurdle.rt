//! Why a construct is not read at once.

/// What stands before a value that is to be read at once.
#[derive(Clone, Copy, Debug, Drop)]
pub enum Hurdle {
    /// It takes frames: it calls a function, its value is no ordinal, or it is nested too deep.
    Frames,
    /// It fails by its range, at this line.
    Range(u16),
}
