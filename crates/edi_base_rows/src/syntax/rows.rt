//! The examples, a file for each subject.

mod lists;
mod pieces;
mod places;
mod printed;
mod types;
