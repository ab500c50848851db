//! Why a list of rows isn't inserted.

use std::alloc::AllocError;
use thiserror::Error;

/// Why a list of rows isn't inserted.
#[derive(Clone, Copy, PartialEq, Eq, Debug, Error)]
pub enum RowsFault {
    /// The tree or an earlier row of the list has the id of the row at this place, which is the first such row.
    #[error("row {at}: its id is taken")]
    Taken {
        /// The place, from 0.
        at: usize,
    },
    /// With these rows the tree would have more than a tree may have.
    #[error("too many rows")]
    TooMany,
    /// No memory is left.
    #[error("out of memory")]
    Memory,
}

impl From<AllocError> for RowsFault {
    ghost use Rattle.std.specs.Prelude.{◌≡◌};
    ghost use Rattle.rt_tree_many.specs.declared.fault.RowsFault.TheVariants.{Memory};

    ghost from_gives = { λ _ fault. fault ≡ Memory };

    fn from(_error: AllocError) -> RowsFault {
        RowsFault::Memory
    }
}
