//! The lines that are printed of what a statement answers.
//!
//! - `write_reply` writes the lines of a reply, `write_refusal` the line of a refusal. They never allocate, so no line is
//!   cut short. After a fault of the writer a prefix of the lines is written.
//!
//! Stands on `rt_reply` (answers), `rt_check_report` and `rt_check_dump` (verdicts and dumps) and `rt_bytes`. Definitions:
//! `specs/Lines.antt`.
#![tactic(auto)]

mod lines;
mod reply;
mod value;

pub use reply::{write_refusal, write_reply};
