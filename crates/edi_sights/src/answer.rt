//! The answer: what a name means at `when`s.

use edi_unit::List;

/// A variable of an elementary type.
#[derive(Clone, Copy, PartialEq, Eq, Debug)]
pub struct Sighted {
    /// The static steps from the block of the place up to that of the variable.
    pub levels: u32,
    /// The number of the variable in its block.
    pub variable: u32,
}

/// A `when` of a line.
#[derive(Clone, Copy, PartialEq, Eq, Debug)]
pub struct Sight {
    /// The block in whose body it stands, as the resolved unit numbers them.
    pub block: u32,
    /// Its place among the `when`s of that body, counted from 0 in the order of the words `when` in the text.
    pub index: u32,
    /// What the name means there, if that is a variable of an elementary type.
    pub slot: Option<Sighted>,
}

/// The `when`s of a line, in the order of the text.
pub type Sights = List<Sight>;
