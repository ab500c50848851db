//! The steps of a plan carried out on a table's rows.
//!
//! - `apply` carries the steps out, with no memory and no refusal.
//! - `inserts_all` and `auxiliary_rows_all` count the room that they take before.
//! - `laws`: the steps of each statement apply to the rows.
//!
//! Stands on `rt_table_store` and `rt_table_row`, and not on `rt_table_plan`: a plan is a list of steps here, so that both
//! are proved side by side. Definitions: `specs/Steps.antt` (steps that apply, and what they take), `Laws.antt` (the law).
#![tactic(auto)]

pub mod laws;
mod room;
mod steps;

pub use room::{auxiliary_rows_all, inserts_all};
pub use steps::apply;
