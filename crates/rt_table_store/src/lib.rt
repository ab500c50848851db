//! The rows of a table, by rising id.
//!
//! - `Store` keeps them: a row is found by its id, inserted, replaced or removed; `select` finds those of which a
//!   condition holds, and `passing_row` the only one if it fixes an id.
//! - Inserting takes no memory: `reserve` makes the room for it before.
//!
//! What callers know of a store is the list of its rows, the tree of their boxes, and its room.
//!
//! Stands on `rt_table_row`, `rt_tree` and `rt_tree_sort`. Definitions: `specs/StoreLists.antt` (rows, tree and room),
//! `Picking.antt`, `GreatestIds.antt` (the largest id), `Trees.antt` (the tree that stands for the rows, and when it
//! changes).
#![tactic(auto)]

mod largest;
mod select;
mod store;

pub use select::Nodes;
pub use store::Store;
