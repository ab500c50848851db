//! Why bytes are those of no tree.

use std::alloc::AllocError;
use thiserror::Error;

/// Why bytes make no tree.
#[derive(Clone, Copy, PartialEq, Eq, Debug, Error)]
pub enum BytesFault {
    /// They are not the bytes of a tree of that number of axes.
    #[error("not the bytes of a tree")]
    Bad,
    /// They have more rows than a tree may have.
    #[error("too many rows")]
    TooMany,
    /// No memory is left.
    #[error("out of memory")]
    Memory,
}

impl From<AllocError> for BytesFault {
    ghost use Rattle.std.specs.Prelude.{◌≡◌};
    ghost use Rattle.rt_map.specs.declared.bytes_fault.BytesFault.TheVariants.{Memory};

    ghost from_gives = { λ _ fault. fault ≡ Memory };

    fn from(_error: AllocError) -> BytesFault {
        BytesFault::Memory
    }
}
