//! The examples of a disk and its catalogue, a file for each subject.

mod asking;
mod changes;
mod disk_calls;
mod disks;
mod images;
mod migration;
mod reading;
mod storing;
mod titles;
