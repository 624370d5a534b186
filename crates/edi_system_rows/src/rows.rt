//! The examples of a system, a file for each subject.

mod calls;
mod faults;
mod files;
mod image;
mod objects;
mod programs;
mod requests;
