//! The text of a value.

mod brackets;
mod elementary;
mod parts;
mod sets;
mod texts;

pub(crate) use brackets::{MOST_SHOWN, first, short, shown};
pub(crate) use parts::size_of;
pub(crate) use sets::word_at;
pub(crate) use texts::{behind, put_value};
