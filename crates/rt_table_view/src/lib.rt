//! The views of a table.
//!
//! - `Watched` is a view, which keeps the ids of its rows; `watch` makes one, and `rows_of` looks its rows up. `select`
//!   finds the rows of a condition.
//! - `stage` finds what a plan changes in the views: it looks again at the ids that the plan touches, and at no others.
//!   `refresh_each` has the views keep the ids of the rows that they show after it.
//!
//! Stands on `rt_table_store`, `rt_tree_sort` and `rt_reply`, and not on `rt_table_plan`: a plan is a list of steps here. Definitions:
//! `specs/Watching.antt` (a view with the ids of its rows), `Preparing.antt` (what a view has ready for a plan),
//! `Fates.antt` (what steps leave of the ids that they touch).
#![tactic(auto)]

mod changes;
mod refresh;
mod view;

pub use changes::stage;
pub use refresh::refresh_each;
pub use view::{Shift, Watched, rows_of, select, watch};
