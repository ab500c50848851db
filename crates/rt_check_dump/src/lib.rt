//! Dumps: a tree seen from outside as text, and back.
//!
//! - `write_dump` writes a shadow's text, or after a fault a prefix of it.
//! - `read_dump` reads any bytes: as a shadow, or with the first faulty line and its first code.
//! - `laws`: what is written is read again, and what is read is written back byte for byte. The first
//!   faulty line is the first with which a text fits no dump, each code has a definition of its own, and each
//!   text is a dump or has one fault.
//!
//! Stands on `rt_check` (shadows) and `rt_bytes`. Definitions: `specs/Dump.antt` (the text of a shadow),
//! `Reading.antt` (what a text is read as), `Faults.antt` (dumps and the five faults, with no word of how they
//! are read), `InRange.antt`, `Lines.antt`, `Numbers.antt`, `Pieces.antt` (a text cut into lines, and a line into words),
//! `Codes.antt`.
#![tactic(auto)]

mod dump;
mod fault;
pub mod laws;
mod lines;
mod looks;
mod numbers;
mod pieces;
mod reading;

pub use dump::{AnyShadow, write_dump};
pub use fault::{DumpFault, LineFault};
pub use reading::read_dump;
