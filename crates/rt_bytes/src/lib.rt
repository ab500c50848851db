//! What a program reads and writes: bytes, whose contracts know what is left, written and counted.
//!
//! - `ByteReader` and `ByteWriter`: readers and writers whose contracts know the bytes left and
//!   written, and count reads and failures.
//! - `OverRead` and `OverWrite` lay them over std's `Read` and `Write`.
//! - `SliceReader` and `Sink` stand in memory.
//! - `write_whole` and `write_parts` write all that they are given, or after a fault a prefix of it.
//! - `Status` and `RunFault`: how a run over a reader and a writer ends.
//!
//! Whatever a reader gives and a writer takes, what is left, what was written and how many calls failed is said at
//! each call. A write that failed has written nothing, and a whole write that failed a prefix.
//!
//! Stands on std's `Read` and `Write`. Definitions: `specs/Bytes.antt` (counts, whole writes, prefixes),
//! `Devices.antt` (what is known of a run's reader and writer), `Memory.antt`.
#![tactic(auto)]

mod counts;
mod device;
mod memory;
mod outcome;
mod over;
mod whole;

pub use device::{ByteReader, ByteWriter, ReadFault, WriteFault};
pub use memory::{Sink, SliceReader};
pub use outcome::{MOST_READS, READ_SIZE, RunFault, Status};
pub use over::{OverRead, OverWrite};
pub use whole::{write_parts, write_whole};
