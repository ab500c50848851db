//! Why a list of rows makes no tree.

use std::alloc::AllocError;
use thiserror::Error;

/// Why a list of rows makes no tree.
#[derive(Clone, Copy, PartialEq, Eq, Debug, Error)]
pub enum PackFault {
    /// There are more rows than a tree may have.
    #[error("too many rows")]
    TooMany,
    /// The row at this position has the id of an earlier one, and is the first that has.
    #[error("row {at}: its id is that of an earlier row")]
    Repeated {
        /// The position, from 0.
        at: usize,
    },
    /// No memory is left.
    #[error("out of memory")]
    Memory,
}

impl From<AllocError> for PackFault {
    ghost use Rattle.std.specs.Prelude.{◌≡◌};
    ghost use Rattle.rt_tree_pack.specs.declared.fault.PackFault.TheVariants.{Memory};

    ghost from_gives = { λ _ fault. fault ≡ Memory };

    fn from(_error: AllocError) -> PackFault {
        PackFault::Memory
    }
}
