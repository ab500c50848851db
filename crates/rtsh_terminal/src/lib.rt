//! What a person sees at the error output of `rtsh`.
//!
//! - `Fault` says why the program failed; `ReasonKeeper` remembers the system's reason.
//! - `PromptReader` reads a script that is typed; `hint_at_dump` says how a typed dump ends.
//! - `Trail`, `TraceReader` and `TraceWriter` show where refused pieces of a script stand, and how much of a file is read.
//!
//! Stands on `rt_bytes`, `rt_sql_cut` and `rt_sql`. No contract can say what a terminal shows, so only safety and
//! termination are proved.
#![tactic(auto)]

mod fault;
mod place;
mod terminal;
mod trail;

pub use fault::{Cause, Fault, ReasonKeeper};
pub use terminal::{PromptReader, hint_at_dump, is_attended};
pub use trail::{TraceReader, TraceWriter, Trail};
