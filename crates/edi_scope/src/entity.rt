//! What a name can mean, and why a declaration is refused.

ghost use Rattle.std.specs.Prelude.{◌≡◌};
ghost use Rattle.edi_scope.specs.declared.entity.ScopeFault.TheVariants as fault;

use std::alloc::AllocError;
use thiserror::Error;

/// What a name means.
///
/// The numbers are those that the declarer gives; `Scopes` only keeps them.
#[derive(Clone, Copy, PartialEq, Eq, Debug)]
pub enum Entity {
    /// The constant of the type number `of` with this ordinal value.
    Constant {
        of: u32,
        ordinal: i16,
    },
    /// The type of this number.
    Types(u32),
    /// A variable of the type number `of`, by its number in its block.
    Variable {
        block: u32,
        variable: u32,
        of: u32,
    },
    /// The procedure with this block.
    Procedure {
        block: u32,
    },
    /// A procedure parameter: by its number in its block, with the number of its heading's shape.
    Formal {
        block: u32,
        variable: u32,
        shape: u32,
    },
    /// The standard procedure `halt`.
    Halt,
}

/// Why a name was not declared or exported.
#[derive(Clone, Copy, PartialEq, Eq, Debug, Error)]
pub enum ScopeFault {
    /// A scope that was to get the name has it already.
    #[error("the name is ambiguous")]
    Ambiguous,
    /// There was no memory for it.
    #[error("no memory")]
    NoMemory,
}

impl From<AllocError> for ScopeFault {
    ghost from_gives = { λ _ e. e ≡ fault.NoMemory };

    fn from(_error: AllocError) -> Self {
        ScopeFault::NoMemory
    }
}
