//! Why an edit is refused.

use std::alloc::AllocError;
use thiserror::Error;

/// Why an edit is refused.
#[derive(Clone, Copy, PartialEq, Eq, Debug, Error)]
pub enum Fault {
    /// A row has the id already.
    #[error("a row has this id already")]
    Taken,
    /// No row has the id.
    #[error("no row has this id")]
    Missing,
    /// A window has the id already.
    #[error("a window has this id already")]
    WindowTaken,
    /// No window has the id.
    #[error("no window has this id")]
    NoWindow,
    /// There are as many rows, or windows, as there may be.
    #[error("full")]
    Full,
    /// No memory is left.
    #[error("out of memory")]
    Memory,
}

impl From<AllocError> for Fault {
    ghost use Rattle.std.specs.Prelude.{◌≡◌};
    ghost use Rattle.rt_live.specs.declared.fault.Fault.TheVariants.{Memory};

    ghost from_gives = { λ _ fault. fault ≡ Memory };

    fn from(_error: AllocError) -> Fault {
        Fault::Memory
    }
}
