//! How a run over a reader and a writer ends.
//!
//! A refusal is a `Status`, since the run still came to its end. A `RunFault` says why it came to none.

use crate::device::{ReadFault, WriteFault};
use std::alloc::AllocError;
use thiserror::Error;

/// How many bytes a read is given room for.
pub const READ_SIZE: usize = 4096;

/// The most reads of one run.
pub const MOST_READS: u64 = 1 << 40;

/// Whether a run refused a piece.
#[derive(Clone, Copy, PartialEq, Eq, Debug)]
pub enum Status {
    /// Each piece was carried out.
    Clean,
    /// A piece was refused.
    Refused,
}

/// Why a run came to no end.
#[derive(Clone, Copy, PartialEq, Eq, Debug, Error)]
pub enum RunFault {
    /// A read failed, or the input had not ended after 2^40 reads.
    #[error("read fault")]
    Read,
    /// A write or the flush failed.
    #[error("write fault")]
    Write,
    /// The start found no memory.
    #[error("out of memory")]
    Memory,
}

impl From<ReadFault> for RunFault {
    ghost use Rattle.std.specs.Prelude.{◌≡◌};
    ghost use Rattle.rt_bytes.specs.declared.outcome.RunFault.TheVariants.{Read};

    ghost from_gives = { λ _ fault. fault ≡ Read };

    fn from(_fault: ReadFault) -> RunFault {
        RunFault::Read
    }
}

impl From<WriteFault> for RunFault {
    ghost use Rattle.std.specs.Prelude.{◌≡◌};
    ghost use Rattle.rt_bytes.specs.declared.outcome.RunFault.TheVariants.{Write};

    ghost from_gives = { λ _ fault. fault ≡ Write };

    fn from(_fault: WriteFault) -> RunFault {
        RunFault::Write
    }
}

impl From<AllocError> for RunFault {
    ghost use Rattle.std.specs.Prelude.{◌≡◌};
    ghost use Rattle.rt_bytes.specs.declared.outcome.RunFault.TheVariants.{Memory};

    ghost from_gives = { λ _ fault. fault ≡ Memory };

    fn from(_error: AllocError) -> RunFault {
        RunFault::Memory
    }
}
