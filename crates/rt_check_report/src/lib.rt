//! The check of a dump: says whether it is the text of a sound tree.
//!
//! `run_check` reads a dump whole, and writes `ok`, a line for each problem of the tree, or the
//! first fault of the text. Its contract names that report, and `laws` says what it means to be
//! clean. `write_verdict` writes the verdict alone, of problems that were found elsewhere.
//!
//! Stands on `rt_check_dump`, `rt_check` and `rt_bytes`. Definitions: `specs/Verdict.antt` (what is said of problems),
//! `Report.antt` (what is said of a dump), `CheckRun.antt` (what a run does to its reader and its writer).
#![tactic(auto)]

mod checking;
pub mod laws;
mod report;

pub use checking::{read_all, report_fault, run_check};
pub use report::write_verdict;
