//! What a statement answers, as data.
//!
//! - `Reply`: the answer of a statement that was carried out. `Shown` is the rows of a reply with the columns that it shows
//!   of them, and `TreeDump` a tree.
//! - `Rows`: rows of a table, whatever its number of axes; `RowsOf` is those of a table of `D` axes.
//! - `Changes`: rows that came into views, or left them.
//!
//! A table makes rows and changes of what it finds, a session the reply of these, and a shell prints it.
//!
//! Stands on `rt_table_row` (values) and `rt_tree_walk` (rows that a search finds). Definitions: `specs/Rows.antt`,
//! `Changes.antt`.
#![tactic(auto)]

mod changes;
mod reply;
mod rows;
mod shown;

pub use changes::{Change, Changes};
pub use reply::{Reply, TreeDump};
pub use rows::{Rows, RowsOf, box_value_at};
pub use shown::Shown;
