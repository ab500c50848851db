//! A table: its columns, its rows and its views.
//!
//! - `Table` selects, names and forgets views, and shows them and the tree of its rows. `plan` answers a `Plan`, the
//!   steps of an INSERT, UPDATE or DELETE, or its refusal. `prepare` makes the table ready for a plan: it reserves what
//!   the plan takes and stages what it changes in the views. `commit` then carries the plan out, with no memory and no
//!   refusal, and hands out the changes. `edit` does all three at once; a DELETE by id needs none of them in a table without
//!   views.
//! - `AnyTable` is a table whatever its number of axes.
//!
//! Stands on `rt_table_plan`, `rt_table_step` (plans carried out), `rt_table_view`, `rt_table_store` and `rt_reply` (rows
//! and changes that are answered). Definitions: `specs/Held.antt` (what a table holds), `Ready.antt` (when it is ready for
//! a plan), `Replies.antt` (answers for which memory may run out), `AnyAxes.antt` and `AnyTrees.antt` (tables of any number
//! of axes, and their trees); what a statement does to rows and views is in `rt_table_row`.
#![tactic(auto)]

mod any_table;
mod table;

pub use any_table::AnyTable;
pub use rt_table_plan::Plan;
pub use rt_table_store::Nodes;
pub use table::Table;
