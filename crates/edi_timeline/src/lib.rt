//! A run as a timeline: the stints of its processes, as lines and as a picture. What a timeline is to be is `stints_of`
//! (`specs/Stints`), `text_of` (`specs/Text`) and `picture_of` (`specs/Picture`).
#![tactic(auto)]

mod adding;
mod boxes;
mod entry;
mod lanes;
pub mod laws;
mod picture;
mod plain;
mod rows;
mod text;
mod timeline;
pub mod words;

pub use entry::{Came, Place, Said, Seat};
pub use timeline::Timeline;
