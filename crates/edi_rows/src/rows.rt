//! The examples, a file of scripts for each subject; `play`, `script` and `world` play them.

mod checks;
mod disks;
mod dumps;
mod editings;
mod explorations;
mod faults;
mod images;
mod play;
mod programs;
mod refused;
mod runs;
mod script;
mod session_ends;
mod session_faults;
mod session_refusals;
mod sessions;
mod timelines;
mod watches;
mod world;
