//! Why a call is not answered.

/// Why a program's call is not answered.
#[derive(Clone, Copy, Debug, PartialEq, Eq, Drop)]
pub enum Stop {
    /// There is no found file, or no file that is being written.
    NoFile,
    /// The file that is written has its greatest length already.
    FileLimit,
    /// An object has failed.
    Fault,
}
