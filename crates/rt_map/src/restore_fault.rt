//! Why a shadow makes no tree.

use rt_tree_pack::PackFault;
use std::alloc::AllocError;
use thiserror::Error;

/// Why a shadow makes no tree.
#[derive(Clone, Copy, PartialEq, Eq, Debug, Error)]
pub enum RestoreFault {
    /// In a cell of a leaf, lo is above hi on some axis.
    #[error("a row without a box")]
    NoBox,
    /// There are more rows than a tree may have.
    #[error("too many rows")]
    TooMany,
    /// Two rows have one id.
    #[error("an id stands twice")]
    Repeated,
    /// No memory is left.
    #[error("out of memory")]
    Memory,
}

impl From<AllocError> for RestoreFault {
    ghost use Rattle.std.specs.Prelude.{◌≡◌};
    ghost use Rattle.rt_map.specs.declared.restore_fault.RestoreFault.TheVariants.{Memory};

    ghost from_gives = { λ _ fault. fault ≡ Memory };

    fn from(_error: AllocError) -> RestoreFault {
        RestoreFault::Memory
    }
}

impl From<PackFault> for RestoreFault {
    ghost use Rattle.std.specs.Prelude.{◌≡◌};
    ghost use Rattle.rt_map.specs.Levels.{fault_of};

    ghost from_gives = { λ packing fault. fault ≡ fault_of packing };

    fn from(packing: PackFault) -> RestoreFault {
        match packing {
            PackFault::TooMany => RestoreFault::TooMany,
            PackFault::Repeated { .. } => RestoreFault::Repeated,
            PackFault::Memory => RestoreFault::Memory,
        }
    }
}
